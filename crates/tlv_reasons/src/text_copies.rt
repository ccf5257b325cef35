//! What programs do to octets that they take for a text, and whether undoing it makes an input sound.
ghost use Rattle.std.specs.Prelude.{◌≡◌, ◌<◌, ◌≤◌, ◌↔◌, IfOk, IsTrue, MatchOption, None, length, option_map};
ghost use Rattle.tlv_head.specs.Limits.{input_limit};
ghost use Rattle.tlv_reasons.specs.TextCopies.{IsSoundWithLfAlone, IsSoundWithoutUtf8, has_replacement};
ghost use Rattle.tlv_reasons.specs.TextCopies.{is_latin1_pair, latin1_of_utf8, octet_and, with_lf_alone};

use crate::sound::is_sound;
use std::alloc::{AllocError, Global};

/// Whether octets `0d` were put in front of `0a`, as if the input were a text: it has octets `0d 0a`, and is sound if
/// each is `0a` alone. With `padding`, octets `00` are allowed at the top level.
///
/// # Errors
///
/// `AllocError` if memory for a copy of the input is refused.
pub fn undone_line_ends(alloc: Global, octets: &[u8], padding: bool) -> Result<bool, AllocError>
    requires { length octets.now ≤ input_limit }
    ensures { IfOk result (λ undone. IsTrue undone ↔ IsSoundWithLfAlone padding octets.now) }
{
    let copy = with_lf_alone(alloc, octets)?;
    Ok(copy.len() < octets.len() && is_sound(copy.as_slice(), padding))
}

/// The octets with `0a` in place of each `0d 0a`.
fn with_lf_alone(alloc: Global, octets: &[u8]) -> Result<Vec<u8>, AllocError>
    ensures { IfOk result (λ copy. copy.items ≡ with_lf_alone octets.now) }
{
    let mut copy = Vec::new(alloc);
    let mut rest = octets;
    while let [octet, more @ ..] = rest {
        if !matches!(rest, [0x0d, 0x0a, ..]) {
            copy.push(*octet)?;
        }
        rest = more;
    }
    Ok(copy)
}

/// Whether the replacement character U+FFFD is among the octets, in UTF-8: `ef bf bd`.
pub(crate) fn has_replacement(octets: &[u8]) -> bool
    ensures { result ≡ has_replacement octets.now }
{
    let mut rest = octets;
    while let [_, more @ ..] = rest {
        if rest.starts_with(b"\xef\xbf\xbd") {
            return true;
        }
        rest = more;
    }
    false
}

/// Whether the input was taken for a text in Latin-1 and written in UTF-8: it is UTF-8 of characters below 256, not all
/// of them below 128, and is sound if each is one octet. With `padding`, octets `00` are allowed at the top level.
///
/// # Errors
///
/// `AllocError` if memory for the characters is refused.
pub fn undone_utf8(alloc: Global, octets: &[u8], padding: bool) -> Result<bool, AllocError>
    requires { length octets.now ≤ input_limit }
    ensures { IfOk result (λ undone. IsTrue undone ↔ IsSoundWithoutUtf8 padding octets.now) }
{
    match latin1_of_utf8(alloc, octets)? {
        Some(characters) => {
            Ok(characters.len() < octets.len() && is_sound(characters.as_slice(), padding))
        }
        None => Ok(false),
    }
}

/// The characters of a text in UTF-8, each as one octet, if all are below 256. `None` if the octets are no such text.
///
/// # Errors
///
/// `AllocError` if memory for the characters is refused.
pub fn latin1_of_utf8(alloc: Global, octets: &[u8]) -> Result<Option<Vec<u8>>, AllocError>
    ensures { IfOk result (λ r. option_map (λ characters. characters.items) r ≡ latin1_of_utf8 octets.now) }
{
    let mut characters = Vec::new(alloc);
    let mut rest = octets;
    while !rest.is_empty() {
        let Some((character, more)) = next_character(rest) else {
            return Ok(None);
        };
        characters.push(character)?;
        rest = more;
    }
    Ok(Some(characters))
}

/// The first character, if it is below 256, and the octets after it.
fn next_character(rest: &[u8]) -> Option<(u8, &[u8])>
    requires { 0 < length rest.now }
    ensures { MatchOption result (latin1_of_utf8 rest.now ≡ None)
        (λ (x, more). (latin1_of_utf8 rest.now ≡ octet_and x (latin1_of_utf8 more.now))
        × (length more.now < length rest.now)) }
{
    match rest {
        [octet, more @ ..] if *octet < 0x80 => Some((*octet, more)),
        [first, second, more @ ..] if is_latin1_pair(*first, *second) => {
            Some(((*first - 0xc2) * 0x40 + *second, more))
        }
        _ => None,
    }
}

/// Whether these two octets are a character from 128 to 255 in UTF-8.
fn is_latin1_pair(first: u8, second: u8) -> bool
    ensures pair { result ≡ is_latin1_pair first second }
    ensures within { IsTrue result → (194 ≤ first) × (first ≤ 195) × (second ≤ 191) }
{
    matches!(first, 0xc2 | 0xc3) && matches!(second, 0x80..=0xbf)
}
