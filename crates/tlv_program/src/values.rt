//! The values of options, read from their texts.
ghost use Rattle.std.specs.Prelude.{◌<◌, ◌==◌, ◌≡◌, ◌≤◌, ◌∷◌, IfSome, [], length};
ghost use Rattle.std.specs.List.{position_or_len};
ghost use Rattle.std.specs.Option.{option_map_or};
ghost use Rattle.tlv_program.specs.Values.{bounded_number, comma_parts, inside_value, limit_value, offset_list};
ghost use Rattle.tlv_program.specs.Values.{offset_value, rules_value};
ghost use Rattle.tlv_run.specs.BorrowedText.{text_in};

use arrayvec::ArrayVec;
use tlv_show::Rules;
use tlv_walk::{INPUT_LIMIT, Inside};

/// The number in the text: 1 to 13 digits, with or without leading zeros, of a number up to `most`.
fn bounded_number(text: &[u8], most: u64) -> Option<u64>
    ensures { result ≡ bounded_number text.now most }
{
    if text.is_empty() || text.len() > 13 {
        return None;
    }
    let mut number: u64 = 0;
    for octet in text {
        if !octet.is_ascii_digit() {
            return None;
        }
        number = number * 10 + u64::from(*octet - b'0');
    }
    if number <= most { Some(number) } else { None }
}

/// The rules that the text names: `ber`, `der` or `cer`. Without a text, the usual rules.
pub fn rules_value(usual: Rules, text: Option<&str>) -> Option<Rules>
    ensures { result ≡ rules_value usual (text_in text.entry) }
{
    let Some(text) = text else {
        return Some(usual);
    };
    match text {
        "ber" => Some(Rules::Ber),
        "der" => Some(Rules::Der),
        "cer" => Some(Rules::Cer),
        _ => None,
    }
}

/// The limit in the text, a number up to 4,294,967,295. Without a text there is no limit.
pub fn limit_value(text: Option<&str>) -> Option<Option<u32>>
    ensures { result ≡ limit_value (text_in text.entry) }
{
    let Some(text) = text else {
        return Some(None);
    };
    match bounded_number(text.as_bytes(), u64::from(u32::MAX)) {
        Some(number) => Some(Some(number as u32)),
        None => None,
    }
}

/// The offset in the text, a number up to 2^40. Without a text there is none.
pub fn offset_value(text: Option<&str>) -> Option<u64>
    ensures { result ≡ offset_value (text_in text.entry) }
{
    bounded_number(text?.as_bytes(), INPUT_LIMIT)
}

/// The offsets that the text lists. Without a text there are none.
pub(crate) fn inside_value(text: Option<&str>) -> Option<Inside<'static>>
    ensures { result ≡ inside_value (text_in text.entry) }
{
    match text {
        Some(text) => offset_list(text.as_bytes()),
        None => Some(Inside::none()),
    }
}

/// The offsets in the text: 1 to 16 numbers up to 2^40 with commas between them, each larger than the one before.
fn offset_list(text: &[u8]) -> Option<Inside<'static>>
    ensures { result ≡ offset_list text.now }
{
    let mut offsets: ArrayVec<u64, 16> = ArrayVec::new();
    let mut rest = Some(text);
    while let Some(parts) = rest {
        let (first, others) = first_part(parts);
        let offset = bounded_number(first, INPUT_LIMIT)?;
        if offsets.is_full() {
            return None;
        }
        offsets.push(offset);
        rest = others;
    }
    Inside::new(offsets.as_slice())
}

/// The text before the first comma, and the text after it, if any.
fn first_part(text: &[u8]) -> (&[u8], Option<&[u8]>)
    ensures parts { comma_parts text.now
        ≡ result.0.now ∷ option_map_or (λ others. comma_parts others.now) result.1 [] }
    ensures fewer { IfSome result.1 (λ others. length others.now < length text.now) }
{
    let end = first_part_length(text);
    if end < text.len() {
        (&text[..end], Some(&text[end + 1..]))
    } else {
        (text, None)
    }
}

/// The number of octets before the first comma, or of all octets if there is no comma.
fn first_part_length(text: &[u8]) -> usize
    ensures value { result ≡ position_or_len (λ octet. octet == 44) text.now }
    ensures within { result ≤ length text.now }
{
    for (index, octet) in text.iter().enumerate() {
        if *octet == b',' {
            return index;
        }
    }
    text.len()
}
