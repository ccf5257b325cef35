//! A run of a command over octets in memory.
ghost use Rattle.std.specs.Prelude.{true, false};
ghost use Rattle.tlv_run.specs.Report.{report_value_of};
ghost use Rattle.tlv_run.specs.RunsOctets.{RunsOctets};
ghost use Rattle.tlv_run.specs.Results.{command_job};

use crate::command::Command;
use crate::memory_devices::{BoundedDrain, FailingSource};
use crate::report::Report;
use crate::run_call::run;
use crate::unfailing_source::UnfailingSource;
use arrayvec::ArrayVec;
use tlv_value::Names;

/// What a run over octets in memory wrote, and its report.
#[derive(Debug, Drop)]
pub struct OctetsRun<const N: usize> {
    /// The octets that were written, in order.
    pub written: ArrayVec<u8, N>,
    /// The report.
    pub report: Report,
}

/// Runs the command over `octets`, with room for `N` octets of output.
///
/// `cuts` says into which pieces the octets are cut, as for `MemSource::new`; what is written and reported does not
/// depend on it. After the octets the input ends or, with `read_fails`, a read fails. If there is room for all of the
/// output, it is written; otherwise its first `N` octets are written, and the report says that a write failed.
pub fn run_octets<const N: usize>(
    command: &Command<'_>,
    names: &Names,
    octets: &[u8],
    cuts: &[u64],
    read_fails: bool,
) -> OctetsRun<N>
    ensures { RunsOctets (command_job command.now names.now) octets.now read_fails N
        result.written.items (report_value_of result.report) }
{
    if read_fails {
        run_until_failure(command, names, octets, cuts)
    } else {
        run_to_end(command, names, octets, cuts)
    }
}

fn run_until_failure<const N: usize>(
    command: &Command<'_>,
    names: &Names,
    octets: &[u8],
    cuts: &[u64],
) -> OctetsRun<N>
    ensures { RunsOctets (command_job command.now names.now) octets.now true N
        result.written.items (report_value_of result.report) }
{
    let mut drain = BoundedDrain::new();
    let report = run(
        command,
        names,
        &mut FailingSource::new(octets, cuts),
        &mut drain,
    );
    let written = drain.into_octets();
    OctetsRun { written, report }
}

fn run_to_end<const N: usize>(
    command: &Command<'_>,
    names: &Names,
    octets: &[u8],
    cuts: &[u64],
) -> OctetsRun<N>
    ensures { RunsOctets (command_job command.now names.now) octets.now false N
        result.written.items (report_value_of result.report) }
{
    let mut drain = BoundedDrain::new();
    let report = run(
        command,
        names,
        &mut UnfailingSource::new(octets, cuts),
        &mut drain,
    );
    let written = drain.into_octets();
    OctetsRun { written, report }
}
