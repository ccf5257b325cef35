//! The call `extract`: it reads a source and writes to a drain.
ghost use Rattle.tlv_walk.specs.Job.{Runs, device_states};
ghost use Rattle.tlv_run.specs.Extract.{extract_job};

use crate::extract_follower::Extract;
use tlv_walk::{DeviceFault, Drain, Ending, Framing, Source, drive};

/// What [`extract`] returns.
#[derive(Clone, Copy, Debug, PartialEq, Eq)]
pub struct Cut {
    /// `Done` if the element has ended, whatever follows it; otherwise the ending of the input.
    pub ending: Ending,
    /// Whether the element's header is complete.
    pub found: bool,
}

/// Writes one element of an input unchanged, or only its contents octets (X.690, 8.1.1.1).
///
/// The element is the one whose first identifier octet is at `offset`, in octets from the start of the input. If no
/// element begins there, nothing is written. `framing` says which strings are read as encodings, and whether padding
/// is allowed.
///
/// Returns whether the element was found, and the ending ([`Cut`]).
///
/// The octets of an element that does not end are written too. The octets of an unfinished header are not written,
/// nor is the first of the end-of-contents octets without the second. Nothing more is read once the element has
/// ended.
///
/// # Errors
///
/// - `ReadFailed` if and only if a read failed, and `WriteFailed` if and only if a write failed.
/// - `InputTooLong` if the source gave more than 2^40 octets, and the first 2^40 contain neither a refused octet nor
///   the end of the element.
pub fn extract<S: Source, D: Drain>(
    source: &mut S,
    drain: &mut D,
    offset: u64,
    contents_only: bool,
    framing: &Framing<'_>,
) -> Result<Cut, DeviceFault>
    ensures { Runs (extract_job offset contents_only framing.now)
        (device_states (S.state source.old) (D.state drain.old))
        (device_states (S.state source.new) (D.state drain.new)) result }
{
    let mut follower = Extract::new(offset, contents_only);
    let run = drive(source, &mut follower, drain, framing)?;
    Ok(Cut {
        ending: run.ending,
        found: follower.has_found(),
    })
}
