//! The call `indef`: it reads a source and writes to a drain.
ghost use Rattle.tlv_walk.specs.Job.{device_states};
ghost use Rattle.tlv_run.specs.Indef.{RunsIndef};

use crate::indef_follower::Indef;
use tlv_walk::{DeviceFault, Drain, Ending, Framing, Inside, Source, drive};

/// Writes the encodings that the source gives, with the indefinite form of the length in each
/// constructed element (X.690, 8.1.3.6). Returns the ending of the input.
///
/// It reads up to the end of the input, or to the first refused octet. If the input ends in a fault, no
/// end-of-contents octets are written for the elements that are still open. Nor are the octets of an unfinished
/// header written, nor the first of the end-of-contents octets without the second.
///
/// If the ending is `Done`, what was written is read, with the same `padding`, as the same elements with indefinite
/// lengths. Its ending is `Done` too, and `indef` writes the same octets for it again.
///
/// With `padding`, padding is allowed and is written unchanged.
///
/// # Errors
///
/// - `ReadFailed` if and only if a read failed, and `WriteFailed` if and only if a write failed.
/// - `InputTooLong` if the source gave more than 2^40 octets, and none of the first 2^40 is refused.
pub fn indef<S: Source, D: Drain>(
    source: &mut S,
    drain: &mut D,
    padding: bool,
) -> Result<Ending, DeviceFault>
    ensures { RunsIndef padding
        (device_states (S.state source.old) (D.state drain.old))
        (device_states (S.state source.new) (D.state drain.new)) result }
{
    let framing = Framing {
        inside: Inside::none(),
        padding,
    };
    let mut follower = Indef::new();
    let run = drive(source, &mut follower, drain, &framing)?;
    Ok(run.ending)
}
