//! The characters of an input.
ghost use Rattle.std.specs.List.{list_any};
ghost use Rattle.std.specs.Prelude.{◌≡◌, false, option_map, unwrap_or};
ghost use Rattle.tlv_text.specs.Taken.{first_words, has_controls, has_rare, is_control, is_other_text, is_rare};
ghost use Rattle.tlv_text.specs.Taken.{is_seen, shown_character};
ghost use Rattle.tlv_text.specs.Characters.{is_white};
ghost use Rattle.tlv_text.specs.Marks.{after_mark};

use crate::after_mark;
use arrayvec::ArrayVec;

/// The number of characters of a text that are checked for control characters, and that are looked at together for rare
/// ones.
const LOOKED_AT: usize = 4096;

/// The number of characters of a text that are shown.
const SHOWN: usize = 32;

/// The characters of an input: the ASCII characters of a text in UTF-16, or otherwise all octets after a mark of
/// UTF-8.
pub(crate) fn text_in<'a>(ascii: &'a Option<Vec<u8>>, octets: &'a [u8]) -> &'a [u8]
    ensures { result.now
        ≡ unwrap_or (option_map (λ text. text.items) ascii.now) (after_mark octets.now) }
{
    match ascii {
        Some(text) => text.as_slice(),
        None => after_mark(octets),
    }
}

/// Whether the first characters of a text include a control character that texts do not have. Stops at the first one.
pub(crate) fn has_controls(text: &[u8]) -> bool
    ensures { result ≡ has_controls text.now }
{
    for character in &text[..text.len().min(LOOKED_AT)] {
        if is_control(*character) {
            return true;
        }
    }
    false
}

/// Whether this is a control character that texts do not have.
fn is_control(character: u8) -> bool
    ensures { result ≡ is_control character }
{
    match character {
        9..=13 | 0x1a | 0x1b => false,
        0..=0x1f | 0x7f => true,
        _ => false,
    }
}

/// Whether a text has a character that is rarely typed, wherever it stands. Stops after the piece with the first one.
pub(crate) fn has_rare(text: &[u8]) -> bool
    ensures { result ≡ has_rare text.now }
{
    let mut rest = text;
    while !rest.is_empty() {
        let (piece, more) = rest.split_at(rest.len().min(LOOKED_AT));
        if is_any_rare(piece) {
            return true;
        }
        rest = more;
    }
    false
}

/// Whether one of these characters is rarely typed. Looks at all of them, without a stop: that takes less time.
fn is_any_rare(piece: &[u8]) -> bool
    ensures { result ≡ list_any is_rare piece.now }
{
    let mut found = false;
    for character in piece {
        found = found || is_rare(*character);
    }
    found
}

/// Whether this character is rarely typed.
fn is_rare(character: u8) -> bool
    ensures { result ≡ is_rare character }
{
    !matches!(character, b' '..=b'~' | b'\t' | b'\n' | b'\r')
}

/// Whether these characters, none of them a control character, are a text.
pub(crate) fn is_other_text(text: &[u8]) -> bool
    requires { has_controls text.now ≡ false }
    ensures { result ≡ is_other_text text.now }
{
    simdutf8::is_utf8(text) && has_seen(text)
}

/// Whether a text has a visible character.
fn has_seen(text: &[u8]) -> bool
    ensures { result ≡ list_any is_seen text.now }
{
    for character in text {
        if !is_white(*character) {
            return true;
        }
    }
    false
}

/// A space, a tab, a line feed or a carriage return.
fn is_white(character: u8) -> bool
    ensures { result ≡ is_white character }
{
    matches!(character, b' ' | b'\t' | b'\n' | b'\r')
}

/// The first characters of a text, as a terminal can show them.
pub(crate) fn first_words(text: &[u8]) -> ArrayVec<u8, 64>
    ensures { result.items ≡ first_words text.now }
{
    let mut words = ArrayVec::new();
    for character in &text[..text.len().min(SHOWN)] {
        words.push(shown_character(*character));
    }
    words
}

/// The character, or a question mark if it is not printable.
fn shown_character(character: u8) -> u8
    ensures { result ≡ shown_character character }
{
    match character {
        b' '..=b'~' => character,
        _ => b'?',
    }
}
