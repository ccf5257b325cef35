//! `dump`, over a source and a drain.
ghost use Rattle.std.specs.Prelude.{◌≤◌};
ghost use Rattle.tlv_walk.specs.Job.{Runs, device_states};
ghost use Rattle.tlv_show.specs.Private.Suits.{Suits};
ghost use Rattle.tlv_show.specs.ShowJob.{dump_job};
ghost use Rattle.tlv_show.specs.WantedJobs.{dump_job_with, wanted_in};

use crate::wanted_order::wants_order;
use crate::{Dump, FiniteNames, Options, Outcome, Scope, Wanted};
use tlv_walk::{DeviceFault, Drain, Source, drive};

/// Writes the lines of the encodings that the source gives, up to its end or the first octet that is refused. Object
/// identifiers that the table has are shown with their names, and the listed findings with lines of their own. The lines
/// go to the drain. Returns the ending of the input, the number of findings, and the first named offset at which no
/// string that holds encodings was found.
///
/// # Errors
///
/// `ReadFailed` if and only if a read failed, and `WriteFailed` if and only if a write failed. `InputTooLong` if the
/// source gave more than 2^40 octets, and none of the first 2^40 is refused.
#[tactic(auto, unfolding(crate::specs::Private::Suits::Suits))]
pub fn dump<N: FiniteNames, S: Source, D: Drain>(
    source: &mut S,
    drain: &mut D,
    options: &Options<'_>,
    names: &N,
) -> Result<Outcome, DeviceFault>
    ensures { Runs (dump_job options.now (N.table names.now))
        (device_states (S.state source.old) (D.state drain.old))
        (device_states (S.state source.new) (D.state drain.new)) result }
{
    dump_by::<0, N, S, D>(source, drain, options, Scope::Listed, false, names)
}

/// Like [`dump`], with the findings of this scope. If `with_text` is set, text is beside pairs of digits: if a value on
/// its line, or a row, is shown as pairs and has three or more octets, all printable ASCII (20 to 7e), two spaces and
/// these octets between bars follow it.
///
/// # Errors
///
/// As [`dump`].
#[tactic(auto, unfolding(crate::specs::Private::Suits::Suits))]
pub fn dump_with<N: FiniteNames, S: Source, D: Drain>(
    source: &mut S,
    drain: &mut D,
    options: &Options<'_>,
    scope: Scope,
    with_text: bool,
    names: &N,
) -> Result<Outcome, DeviceFault>
    ensures { Runs (dump_job_with scope with_text options.now (N.table names.now))
        (device_states (S.state source.old) (D.state drain.old))
        (device_states (S.state source.new) (D.state drain.new)) result }
{
    let wanted = Wanted {
        rules: options.rules,
        scope,
    };
    if wants_order(wanted) {
        dump_by::<128, N, S, D>(source, drain, options, scope, with_text, names)
    } else {
        dump_by::<1, N, S, D>(source, drain, options, scope, with_text, names)
    }
}

/// Writes a dump with the findings of this scope, with what is tracked for them. `TRACKED` is small, so that there is
/// room for the follower in memory.
fn dump_by<const TRACKED: usize, N: FiniteNames, S: Source, D: Drain>(
    source: &mut S,
    drain: &mut D,
    options: &Options<'_>,
    scope: Scope,
    with_text: bool,
    names: &N,
) -> Result<Outcome, DeviceFault>
    requires room { TRACKED ≤ 128 }
    requires suits { Suits TRACKED (wanted_in scope options.now) }
    ensures { Runs (dump_job_with scope with_text options.now (N.table names.now))
        (device_states (S.state source.old) (D.state drain.old))
        (device_states (S.state source.new) (D.state drain.new)) result }
{
    let mut follower: Dump<'_, N, TRACKED> = Dump::of(options, scope, with_text, names);
    let run = drive(source, &mut follower, drain, &options.framing)?;
    Ok(Outcome {
        ending: run.ending,
        findings: follower.findings(),
        unused: run.unused,
    })
}
