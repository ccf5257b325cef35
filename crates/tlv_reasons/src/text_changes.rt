//! Which change that programs make to texts was made to an input.
ghost use Rattle.std.specs.Prelude.{◌≤◌, IfOk, length};
ghost use Rattle.tlv_head.specs.Limits.{input_limit};
ghost use Rattle.tlv_reasons.specs.Remedies.{IsTextChange};

use crate::text_copies::{has_replacement, undone_line_ends, undone_utf8};
use std::alloc::{AllocError, Global};

/// What a program did to octets that it took for a text.
#[derive(Clone, Copy, PartialEq, Eq, Debug)]
pub enum TextChange {
    /// It took them for characters of Latin-1 and wrote these in UTF-8.
    Utf8,
    /// It put octets `0d` in front of `0a`.
    LineEnds,
    /// It put `ef bf bd`, the replacement character U+FFFD, in place of what is no UTF-8.
    Replaced,
}

/// The change that was made to the input as if it were a text: the first of UTF-8 and the line ends for which undoing it
/// makes the input sound. If there is none, and the input has octets `ef bf bd`, what is no UTF-8 was replaced, which
/// nothing undoes. `None` otherwise. With `padding`, octets `00` are allowed at the top level.
///
/// # Errors
///
/// `AllocError` if memory for a copy of the input is refused.
pub fn text_change(
    alloc: Global,
    octets: &[u8],
    padding: bool,
) -> Result<Option<TextChange>, AllocError>
    requires { length octets.now ≤ input_limit }
    ensures { IfOk result (λ change. IsTextChange padding octets.now change) }
{
    if undone_utf8(alloc, octets, padding)? {
        Ok(Some(TextChange::Utf8))
    } else if undone_line_ends(alloc, octets, padding)? {
        Ok(Some(TextChange::LineEnds))
    } else if has_replacement(octets) {
        Ok(Some(TextChange::Replaced))
    } else {
        Ok(None)
    }
}
