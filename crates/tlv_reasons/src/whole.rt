//! What was done to an input as a whole.
ghost use Rattle.std.specs.Prelude.{◌≡◌, ◌≤◌, IfOk, length};
ghost use Rattle.tlv_head.specs.Limits.{input_limit};
ghost use Rattle.tlv_reasons.specs.Remedies.{IsMoveOrElse, IsSpacingOrElse, IsUndone, IsWhole, undoable};

use crate::Sentence;
use crate::moves::octets_moved;
use crate::spacing::spaced_encodings;
use crate::text_changes::{TextChange, text_change};
use crate::traces::trace_of;
use std::alloc::{AllocError, Global};

/// The sentence about what was done to the input as a whole, if there is one: what was done to it as to a text, if that
/// can be undone; else to all of its octets; else that other octets stand between its encodings; else what shows that it
/// was taken for a text. With `padding`, octets `00` are allowed at the top level.
///
/// # Errors
///
/// `AllocError` if memory for a copy of the input is refused.
pub(crate) fn whole_change(
    alloc: Global,
    octets: &[u8],
    padding: bool,
) -> Result<Option<Sentence>, AllocError>
    requires { length octets.now ≤ input_limit }
    ensures { IfOk result (λ found. IsWhole padding octets.now found) }
{
    match undone_change(alloc, octets, padding)? {
        Some(change) => Ok(Some(Sentence::TextChanged(change))),
        None => whole_move(alloc, octets, padding),
    }
}

/// What was done to the input as if it were a text, if that can be undone.
fn undone_change(
    alloc: Global,
    octets: &[u8],
    padding: bool,
) -> Result<Option<TextChange>, AllocError>
    requires { length octets.now ≤ input_limit }
    ensures { IfOk result (λ found. IsUndone padding octets.now found) }
{
    let change = text_change(alloc, octets, padding)?;
    Ok(undoable(change))
}

/// This change, if it can be undone.
fn undoable(change: Option<TextChange>) -> Option<TextChange>
    ensures { result ≡ undoable change }
{
    match change {
        Some(TextChange::Replaced) => None,
        _ => change,
    }
}

/// [`whole_change`] of an input to which nothing was done as to a text that can be undone.
fn whole_move(alloc: Global, octets: &[u8], padding: bool) -> Result<Option<Sentence>, AllocError>
    requires { length octets.now ≤ input_limit }
    ensures { IfOk result (λ found. IsMoveOrElse padding octets.now found) }
{
    match octets_moved(alloc, octets, padding)? {
        Some(change) => Ok(Some(Sentence::OctetsMoved(change))),
        None => Ok(spacing_or_trace(octets)),
    }
}

/// [`whole_change`] of an input whose octets were not moved either.
fn spacing_or_trace(octets: &[u8]) -> Option<Sentence>
    requires { length octets.now ≤ input_limit }
    ensures { IsSpacingOrElse octets.now result }
{
    match spaced_encodings(octets) {
        Some(spacing) => Some(Sentence::Spaced(spacing)),
        None => match trace_of(octets) {
            Some(trace) => Some(Sentence::Traced(trace)),
            None => None,
        },
    }
}
