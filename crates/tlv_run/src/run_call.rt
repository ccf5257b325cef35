//! A run of a command over a source and a drain.
ghost use Rattle.tlv_walk.specs.Job.{device_states};
ghost use Rattle.tlv_run.specs.Report.{report_value_of};
ghost use Rattle.tlv_run.specs.Results.{command_job};
ghost use Rattle.tlv_run.specs.RunsAndReports.{RunsAndReports};

use crate::command::Command;
use crate::command_runs::{run_check, run_dump, run_extract, run_indef};
use crate::report::Report;
use tlv_value::Names;
use tlv_walk::{Drain, Source};

/// Runs the command over what the source gives, writes to the drain, and reports the result. A failed read or write,
/// or an input of more than 2^40 octets, has its own message and the status 3; otherwise the report is about the
/// encodings. This does not open the files that the command names, and allocates no memory.
pub fn run<S: Source, D: Drain>(
    command: &Command<'_>,
    names: &Names,
    source: &mut S,
    drain: &mut D,
) -> Report
    ensures { RunsAndReports (command_job command.now names.now)
        (device_states (S.state source.old) (D.state drain.old))
        (device_states (S.state source.new) (D.state drain.new)) (report_value_of result) }
{
    match command {
        Command::Dump { options, .. } => run_dump(options, names, source, drain),
        Command::Check { rules, framing, .. } => run_check(*rules, framing, source, drain),
        Command::Extract {
            offset,
            contents,
            framing,
            ..
        } => run_extract(*offset, *contents, framing, source, drain),
        Command::Indef { padding, .. } => run_indef(*padding, source, drain),
    }
}
