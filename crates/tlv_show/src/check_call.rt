//! `check`, over a source and a drain.
ghost use Rattle.std.specs.Prelude.{◌≤◌};
ghost use Rattle.tlv_walk.specs.Job.{Runs, device_states};
ghost use Rattle.tlv_show.specs.Private.Suits.{Suits};
ghost use Rattle.tlv_show.specs.ShowJob.{check_job};
ghost use Rattle.tlv_show.specs.WantedJobs.{check_job_with};

use crate::outcome::Outcome;
use crate::wanted_order::wants_order;
use crate::{Check, Rules, Wanted};
use tlv_walk::{DeviceFault, Drain, Framing, Source, drive};

/// Lists what violates the rules in the encodings that the source gives, up to its end or the first octet that is
/// refused: the listed findings. The lines go to the drain, one for each finding: the offset of the element, the code,
/// and the text. Returns the ending of the input, the number of findings, and the first named offset at which no string
/// that holds encodings was found.
///
/// # Errors
///
/// `ReadFailed` if and only if a read failed, and `WriteFailed` if and only if a write failed. `InputTooLong` if the
/// source gave more than 2^40 octets, and none of the first 2^40 is refused.
#[tactic(auto, unfolding(crate::specs::Private::Suits::Suits))]
pub fn check<S: Source, D: Drain>(
    source: &mut S,
    drain: &mut D,
    rules: Rules,
    framing: &Framing<'_>,
) -> Result<Outcome, DeviceFault>
    ensures { Runs (check_job rules framing.now)
        (device_states (S.state source.old) (D.state drain.old))
        (device_states (S.state source.new) (D.state drain.new)) result }
{
    check_by::<0, S, D>(source, drain, Wanted::listed(rules), framing)
}

/// Like [`check`], with the findings that are wanted.
///
/// # Errors
///
/// As [`check`].
#[tactic(auto, unfolding(crate::specs::Private::Suits::Suits))]
pub fn check_with<S: Source, D: Drain>(
    source: &mut S,
    drain: &mut D,
    wanted: Wanted,
    framing: &Framing<'_>,
) -> Result<Outcome, DeviceFault>
    ensures { Runs (check_job_with wanted framing.now)
        (device_states (S.state source.old) (D.state drain.old))
        (device_states (S.state source.new) (D.state drain.new)) result }
{
    if wants_order(wanted) {
        check_by::<128, S, D>(source, drain, wanted, framing)
    } else {
        check_by::<1, S, D>(source, drain, wanted, framing)
    }
}

/// Lists the findings that are wanted, with what is tracked for them. `TRACKED` is small, so that there is room for the
/// follower in memory.
fn check_by<const TRACKED: usize, S: Source, D: Drain>(
    source: &mut S,
    drain: &mut D,
    wanted: Wanted,
    framing: &Framing<'_>,
) -> Result<Outcome, DeviceFault>
    requires room { TRACKED ≤ 128 }
    requires suits { Suits TRACKED wanted }
    ensures { Runs (check_job_with wanted framing.now)
        (device_states (S.state source.old) (D.state drain.old))
        (device_states (S.state source.new) (D.state drain.new)) result }
{
    let mut follower: Check<TRACKED> = Check::of(wanted);
    let run = drive(source, &mut follower, drain, framing)?;
    Ok(Outcome {
        ending: run.ending,
        findings: follower.findings(),
        unused: run.unused,
    })
}
