//! Marks at the start of a text.
ghost use Rattle.std.specs.Prelude.{◌≡◌, IfOk, Some, option_map};
ghost use Rattle.tlv_text.specs.Marks.{after_mark, ascii_of_pair, ascii_of_units, ascii_of_utf16};

use std::alloc::{AllocError, Global};

/// Returns the text after the mark of UTF-8 (`ef bb bf`), or all of it if it has none.
pub fn after_mark(text: &[u8]) -> &[u8]
    ensures { result.now ≡ after_mark text.now }
{
    match text {
        [0xef, 0xbb, 0xbf, rest @ ..] => rest,
        _ => text,
    }
}

/// Returns the ASCII characters of a text in UTF-16 that begins with its mark (`ff fe` or `fe ff`). `None` if the
/// octets do not begin with a mark, or if a character is not ASCII.
///
/// # Errors
///
/// `AllocError` if memory for the characters is refused.
pub fn ascii_of_utf16(alloc: Global, octets: &[u8]) -> Result<Option<Vec<u8>>, AllocError>
    ensures { IfOk result (λ r. option_map (λ text. text.items) r ≡ ascii_of_utf16 octets.now) }
{
    match octets {
        [0xff, 0xfe, units @ ..] => ascii_of_units(alloc, true, units),
        [0xfe, 0xff, units @ ..] => ascii_of_units(alloc, false, units),
        _ => Ok(None),
    }
}

/// The ASCII characters of units of UTF-16, if all are ASCII. In each unit the low octet is first if `low_first`.
fn ascii_of_units(
    alloc: Global,
    low_first: bool,
    octets: &[u8],
) -> Result<Option<Vec<u8>>, AllocError>
    ensures { IfOk result (λ r. option_map (λ text. text.items) r ≡ ascii_of_units low_first octets.now) }
{
    let mut text = Vec::new(alloc);
    let mut rest = octets;
    while let [x, y, more @ ..] = rest {
        let Some(character) = ascii_of_pair(low_first, *x, *y) else {
            return Ok(None);
        };
        text.push(character)?;
        rest = more;
    }
    if rest.is_empty() {
        Ok(Some(text))
    } else {
        Ok(None)
    }
}

/// The ASCII character of a unit of UTF-16 with these two octets. The low octet is the first if `low_first`.
fn ascii_of_pair(low_first: bool, x: u8, y: u8) -> Option<u8>
    ensures { result ≡ ascii_of_pair low_first x y }
{
    let (low, high) = if low_first { (x, y) } else { (y, x) };
    if low < 128 && high == 0 {
        Some(low)
    } else {
        None
    }
}
