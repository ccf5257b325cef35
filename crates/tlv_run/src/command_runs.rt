//! The run of each command by itself. It takes what the command says, without the names of files.
ghost use Rattle.tlv_run.specs.Extract.{extract_job};
ghost use Rattle.tlv_run.specs.Indef.{indef_job};
ghost use Rattle.tlv_show.specs.ShowJob.{check_job, dump_job};
ghost use Rattle.tlv_show.specs.WantedJobs.{check_job_with, dump_job_with};
ghost use Rattle.tlv_walk.specs.Job.{device_states};
ghost use Rattle.tlv_run.specs.Report.{cut_report, indef_report, outcome_report, report_value_of};
ghost use Rattle.tlv_run.specs.Results.{job_with_report};
ghost use Rattle.tlv_run.specs.RunsAndReports.{RunsAndReports};

use crate::extract_call::extract;
use crate::indef_call::indef;
use crate::report::{Report, cut_report, device_report, indef_report, outcome_report};
use tlv_show::{FiniteNames, Options, Rules, Scope, Wanted, check, check_with, dump, dump_with};
use tlv_walk::{Drain, Framing, Source};

/// Runs `dump` as [`run`](crate::run) does, with any table of names.
pub fn run_dump<N: FiniteNames, S: Source, D: Drain>(
    options: &Options<'_>,
    names: &N,
    source: &mut S,
    drain: &mut D,
) -> Report
    ensures { RunsAndReports
        (job_with_report outcome_report (dump_job options.now (N.table names.now)))
        (device_states (S.state source.old) (D.state drain.old))
        (device_states (S.state source.new) (D.state drain.new)) (report_value_of result) }
{
    match dump(source, drain, options, names) {
        Ok(outcome) => outcome_report(outcome),
        Err(fault) => device_report(fault),
    }
}

/// The same as [`run_dump`] with the findings of this scope; `with_text` asks for text beside pairs of digits, as in
/// [`dump_with`](tlv_show::dump_with).
pub fn run_dump_with<N: FiniteNames, S: Source, D: Drain>(
    options: &Options<'_>,
    scope: Scope,
    with_text: bool,
    names: &N,
    source: &mut S,
    drain: &mut D,
) -> Report
    ensures { RunsAndReports
        (job_with_report outcome_report (dump_job_with scope with_text options.now (N.table names.now)))
        (device_states (S.state source.old) (D.state drain.old))
        (device_states (S.state source.new) (D.state drain.new)) (report_value_of result) }
{
    match dump_with(source, drain, options, scope, with_text, names) {
        Ok(outcome) => outcome_report(outcome),
        Err(fault) => device_report(fault),
    }
}

/// Runs `check` as [`run`](crate::run) does.
pub fn run_check<S: Source, D: Drain>(
    rules: Rules,
    framing: &Framing<'_>,
    source: &mut S,
    drain: &mut D,
) -> Report
    ensures { RunsAndReports (job_with_report outcome_report (check_job rules framing.now))
        (device_states (S.state source.old) (D.state drain.old))
        (device_states (S.state source.new) (D.state drain.new)) (report_value_of result) }
{
    match check(source, drain, rules, framing) {
        Ok(outcome) => outcome_report(outcome),
        Err(fault) => device_report(fault),
    }
}

/// The same as [`run_check`] with the findings that are wanted.
pub fn run_check_with<S: Source, D: Drain>(
    wanted: Wanted,
    framing: &Framing<'_>,
    source: &mut S,
    drain: &mut D,
) -> Report
    ensures { RunsAndReports (job_with_report outcome_report (check_job_with wanted framing.now))
        (device_states (S.state source.old) (D.state drain.old))
        (device_states (S.state source.new) (D.state drain.new)) (report_value_of result) }
{
    match check_with(source, drain, wanted, framing) {
        Ok(outcome) => outcome_report(outcome),
        Err(fault) => device_report(fault),
    }
}

/// Runs `extract` as [`run`](crate::run) does.
pub fn run_extract<S: Source, D: Drain>(
    offset: u64,
    contents: bool,
    framing: &Framing<'_>,
    source: &mut S,
    drain: &mut D,
) -> Report
    ensures { RunsAndReports
        (job_with_report (cut_report offset) (extract_job offset contents framing.now))
        (device_states (S.state source.old) (D.state drain.old))
        (device_states (S.state source.new) (D.state drain.new)) (report_value_of result) }
{
    match extract(source, drain, offset, contents, framing) {
        Ok(cut) => cut_report(offset, cut),
        Err(fault) => device_report(fault),
    }
}

/// Runs `indef` as [`run`](crate::run) does.
pub fn run_indef<S: Source, D: Drain>(padding: bool, source: &mut S, drain: &mut D) -> Report
    ensures { RunsAndReports (job_with_report indef_report (indef_job padding))
        (device_states (S.state source.old) (D.state drain.old))
        (device_states (S.state source.new) (D.state drain.new)) (report_value_of result) }
{
    match indef(source, drain, padding) {
        Ok(ending) => indef_report(ending),
        Err(fault) => device_report(fault),
    }
}
