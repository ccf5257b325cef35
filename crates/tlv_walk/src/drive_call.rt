//! A walk over all the octets that a source gives.
ghost use Rattle.std.specs.Prelude.{◌≤◌};
ghost use Rattle.tlv_walk.specs.DriveJob.{Drives, drive_states};
ghost use Rattle.tlv_head.specs.Limits.{input_limit};

use crate::one_turn::turn_with;
use crate::{DeviceFault, Drain, Follow, Framing, INPUT_LIMIT, Out, Run, Source, Turn, Walker};

/// The most octets that a read may give.
const ROOM: usize = 4096;

/// [`drive_up_to`], with the limit of 2^40 octets.
///
/// # Errors
///
/// As for [`drive_up_to`].
pub fn drive<S: Source, F: Follow, D: Drain>(
    source: &mut S,
    follower: &mut F,
    drain: &mut D,
    framing: &Framing<'_>,
) -> Result<Run, DeviceFault>
    ensures { Drives F.next framing.now input_limit
        (drive_states follower.old (S.state source.old) (D.state drain.old))
        (drive_states follower.new (S.state source.new) (D.state drain.new)) result }
{
    drive_up_to(source, follower, drain, INPUT_LIMIT, framing)
}

/// Reads the source until it ends, an octet is refused or the follower has enough, and lets the follower follow the
/// octets read. Makes no read after that, and at most `limit` + 1 reads in all. Requires `limit`, a number of octets,
/// to be at most 2^40.
///
/// Returns the ending, the number of octets walked over, whether the follower had enough, and the first named offset
/// that was not used ([`Run`]).
///
/// If the follower never has enough, the ending is `Done` if and only if the octets read are a sound list of
/// encodings; and if an octet is refused, no input that begins with the octets read is a sound list.
///
/// # Errors
///
/// `ReadFailed` if and only if a read failed, and `WriteFailed` if and only if a write failed. `InputTooLong` if the
/// source gave more octets than `limit`, and the octets up to the limit hold no fault and are not enough for the
/// follower; these octets are followed and flushed.
pub fn drive_up_to<S: Source, F: Follow, D: Drain>(
    source: &mut S,
    follower: &mut F,
    drain: &mut D,
    limit: u64,
    framing: &Framing<'_>,
) -> Result<Run, DeviceFault>
    requires { limit ≤ input_limit }
    ensures { Drives F.next framing.now limit
        (drive_states follower.old (S.state source.old) (D.state drain.old))
        (drive_states follower.new (S.state source.new) (D.state drain.new)) result }
{
    let mut room = [0; ROOM];
    // Made before the walker, its room is cleared once and not twice.
    let mut out = Out::new(drain);
    let mut walker = Walker::new(framing);
    'turns: loop {
        match turn_with(&mut walker, follower, source, &mut out, &mut room, limit)? {
            Turn::Again => {}
            Turn::Ended(run) => return Ok(run),
        }
    }
}
