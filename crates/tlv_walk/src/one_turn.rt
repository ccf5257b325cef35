//! One read of a source, and the following of its octets.
ghost use Rattle.std.specs.Prelude.{◌≡◌, [], IfOk};
ghost use Rattle.tlv_walk.specs.Private.ResultOfPause.{IsResultOfPause, run_of};
ghost use Rattle.tlv_walk.specs.Walker.{IsReady};
ghost use Rattle.tlv_io.specs.Out.{held_octets, drain_of};
ghost use Rattle.tlv_walk.specs.OneTurn.{CanTurn, FollowsOneRead, turn_states};

use crate::one_piece::{Pause, follow_piece};
use crate::{DeviceFault, Drain, Ending, Follow, Out, Run, Source, Turn, Walker};

/// Makes one read into `room`, lets the follower follow the octets read, and flushes the follower's output.
///
/// `room` is the array for the read. Requires `room` to have 1 to 4096 octets, and `limit`, a number of octets, to be
/// at most 2^40. Requires that the walker is within the limit and has refused no octet, and that no event waits.
///
/// Returns `Again` if the octets are within the limit, hold no fault and are not enough for the follower, and the
/// source has not ended; returns `Ended` if the walk has ended. The octets that the walker took before count towards
/// `limit`. No octet beyond the limit is walked over.
///
/// # Errors
///
/// `ReadFailed` if and only if a read failed, and `WriteFailed` if and only if a write failed. `InputTooLong` if the
/// walker's octets and the octets of this read are together more than `limit`, and the octets up to the limit hold no
/// fault and are not enough for the follower; these octets are followed and flushed.
///
/// After `ReadFailed` the walker and the follower are unchanged, and another turn may follow. After `InputTooLong`
/// the walker is at the limit; the octets of this read beyond it are lost, so another turn would skip them. After
/// `WriteFailed` nothing is guaranteed about the walker and the follower.
pub fn turn<F: Follow, S: Source, D: Drain>(
    walker: &mut Walker<'_>,
    follower: &mut F,
    source: &mut S,
    drain: &mut D,
    room: &mut [u8],
    limit: u64,
) -> Result<Turn, DeviceFault>
    requires { CanTurn walker.old room.old limit }
    ensures { FollowsOneRead F.next
        (turn_states walker.old follower.old (S.state source.old) (D.state drain.old))
        (turn_states walker.new follower.new (S.state source.new) (D.state drain.new))
        limit room.new result }
{
    let mut out = Out::new(drain);
    turn_with(walker, follower, source, &mut out, room, limit)
}

/// [`turn`], with an `Out` in place of a drain. The `Out` holds nothing before, and holds nothing again if more is to
/// be read. So one `Out` serves a whole run, and need not be made for each read.
pub(crate) fn turn_with<F: Follow, S: Source, D: Drain>(
    walker: &mut Walker<'_>,
    follower: &mut F,
    source: &mut S,
    out: &mut Out<'_, D>,
    room: &mut [u8],
    limit: u64,
) -> Result<Turn, DeviceFault>
    requires can { CanTurn walker.old room.old limit }
    requires empty { held_octets out.old ≡ [] }
    ensures read { FollowsOneRead F.next
        (turn_states walker.old follower.old (S.state source.old) (D.state (drain_of out.old).now))
        (turn_states walker.new follower.new (S.state source.new) (D.state (drain_of out.new).now))
        limit room.new result }
    ensures same_reference { (drain_of out.new).ghost_name ≡ (drain_of out.old).ghost_name }
    ensures empty { IfOk result (λ t. t ≡ Turn.Again → held_octets out.new ≡ []) }
{
    let Ok(count) = source.read(room) else {
        return Err(DeviceFault::ReadFailed);
    };
    let allowed = limit - walker.offset();
    let walked = allowed.min(count as u64) as usize;
    let Ok(pause) = follow_piece(walker, follower, &room[..walked], out) else {
        return Err(DeviceFault::WriteFailed);
    };
    result_of_pause(walker, pause, count, walked)
}

/// What a turn returns after this pause, if it read `read` octets and followed `followed` of them.
fn result_of_pause(
    walker: &Walker<'_>,
    pause: Pause,
    read: usize,
    followed: usize,
) -> Result<Turn, DeviceFault>
    requires { pause ≡ Pause.UsedUp → IsReady walker.now }
    ensures { IsResultOfPause read followed walker.now pause result }
{
    match pause {
        Pause::Enough => Ok(Turn::Ended(run_of(walker, Ending::Done, true))),
        Pause::Fault(fault) => Ok(Turn::Ended(run_of(walker, Ending::Fault(fault), false))),
        Pause::UsedUp if followed < read => Err(DeviceFault::InputTooLong),
        Pause::UsedUp if read == 0 => Ok(Turn::Ended(run_of(walker, walker.finish(), false))),
        Pause::UsedUp => Ok(Turn::Again),
    }
}

/// The run of a walker with this ending; `enough` says whether the follower had enough.
fn run_of(walker: &Walker<'_>, ending: Ending, enough: bool) -> Run
    ensures { result ≡ run_of walker.now ending enough }
{
    Run {
        ending,
        octets: walker.offset(),
        enough,
        unused: walker.unused(),
    }
}
