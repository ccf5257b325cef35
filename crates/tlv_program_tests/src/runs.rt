//! Checks of runs of a case over memory: whatever the pieces are,
//! over each prefix of the input, and with devices that fail.
mod long_inputs;
mod octets;
pub(crate) mod row;
mod rows;

use self::row::{Case, number};
use crate::expect::expect_eq_of;
use crate::{ONES, READ_FAILED, WRITE_FAILED};
use std::process::Abort;
use tlv_run::{Command, Report, run};
use tlv_value::Names;
use tlv_walk::{MemDrain, MemSource};

/// The most octets of a short input. For short inputs more runs are made.
const SHORT: usize = 64;

/// How a source gives its octets, and how a drain takes them.
#[derive(Clone, Copy)]
pub(crate) struct Devices<'a> {
    /// The sizes of the reads.
    pub cuts: &'a [u64],
    /// The number of the read that fails.
    pub fail_at: Option<u64>,
    /// The most octets that the drain takes with a write.
    pub most: usize,
}

/// What a run writes and reports.
#[derive(Clone, Copy)]
pub(crate) struct RunResult<'a> {
    pub written: &'a [u8],
    pub status: u8,
    pub findings: u64,
    pub message: &'a [u8],
}

/// Devices that do not fail. The source gives pieces of these sizes.
pub(crate) fn unfailing(cuts: &[u64]) -> Devices<'_> {
    Devices {
        cuts,
        fail_at: None,
        most: 4096,
    }
}

/// Returns what a run of the whole input of the case must write and report.
fn result_of<'a>(case: &'a Case<'_>) -> RunResult<'a> {
    RunResult {
        written: case.output.as_slice(),
        status: case.status,
        findings: case.findings,
        message: case.message.as_bytes(),
    }
}

/// Returns what a run must report if a device fails after this output.
fn failure<'a>(written: &'a [u8], message: &'a str) -> RunResult<'a> {
    RunResult {
        written,
        status: 3,
        findings: 0,
        message: message.as_bytes(),
    }
}

/// Returns what a run wrote and reported.
fn result_in<'a>(report: &'a Report, written: &'a [u8]) -> RunResult<'a> {
    RunResult {
        written,
        status: report.status,
        findings: report.findings,
        message: report.message.as_slice(),
    }
}

/// Returns whether further octets cannot change this result, because
/// an octet was refused or the element of `extract` was written.
fn is_final(command: &Command<'_>, run_result: RunResult<'_>) -> bool {
    if run_result.status == 2 {
        let text = run_result.message;
        return !text.ends_with(b"F01 empty input")
            && !text.ends_with(b"F02 input ends inside an encoding");
    }
    run_result.status == 0 && matches!(command, Command::Extract { .. })
}

/// Runs the command of the case over these octets. Checks what is written and reported.
pub(crate) fn expect_run(
    rt: &impl Abort,
    case: &Case<'_>,
    octets: &[u8],
    devices: Devices<'_>,
    room: &mut [u8],
    wanted: RunResult<'_>,
) {
    let mut source = MemSource::new(octets, devices.cuts, devices.fail_at);
    let mut drain = MemDrain::new(room, devices.most);
    let report = run(&case.command, &case.names, &mut source, &mut drain);
    expect_eq_of(rt, case.place, drain.written(), wanted.written);
    expect_eq_of(rt, case.place, report.message.as_slice(), wanted.message);
    expect_eq_of(rt, case.place, report.status, wanted.status);
    expect_eq_of(rt, case.place, report.findings, wanted.findings);
}

/// Checks that the result is the same from single octets and from every cut into two pieces.
fn expect_in_pieces(
    rt: &impl Abort,
    case: &Case<'_>,
    octets: &[u8],
    room: &mut [u8],
    wanted: RunResult<'_>,
) {
    expect_run(rt, case, octets, unfailing(&ONES), room, wanted);
    for cut in 1..octets.len() {
        expect_run(rt, case, octets, unfailing(&[cut as u64]), room, wanted);
    }
}

/// Checks the result of the case from the whole input, from single octets and from every cut into two pieces.
pub(crate) fn expect_whole(rt: &impl Abort, case: &Case<'_>, room: &mut [u8]) {
    let input = case.input.as_slice();
    let wanted = result_of(case);
    expect_run(rt, case, input, unfailing(&[]), room, wanted);
    expect_in_pieces(rt, case, input, room, wanted);
}

/// Returns how many octets of the output must be written after this number of octets of the input, if the case says so.
fn count_with(case: &Case<'_>, octets: u64) -> Option<u64> {
    let mut count = 0;
    for pair in case.come.split(',') {
        let (come, written) = pair.split_once(':')?;
        if number(come) <= octets {
            count = number(written);
        }
    }
    Some(count)
}

/// Checks that what was written after this number of octets is a
/// prefix of the output, and has the length that the case says.
fn expect_prefix(rt: &impl Abort, case: &Case<'_>, octets: usize, written: &[u8]) {
    let output = case.output.as_slice();
    expect_eq_of(rt, case.place, output.starts_with(written), true);
    let count = count_with(case, octets as u64).unwrap_or(written.len() as u64);
    expect_eq_of(rt, case.place, written.len() as u64, count);
}

/// Checks the output of each proper prefix of the input.
/// For short inputs, checks that it does not depend on the pieces.
pub(crate) fn expect_prefixes(rt: &impl Abort, case: &Case<'_>, room: &mut [u8], other: &mut [u8]) {
    for count in 0..case.input.len() {
        let prefix = &case.input[..count];
        let mut source = MemSource::new(prefix, &[], None);
        let mut drain = MemDrain::new(room, 4096);
        let report = run(&case.command, &case.names, &mut source, &mut drain);
        let run_result = result_in(&report, drain.written());
        expect_prefix(rt, case, count, run_result.written);
        if case.input.len() <= SHORT {
            expect_in_pieces(rt, case, prefix, other, run_result);
        }
    }
}

/// Checks that the run reports a failed read after this output.
fn expect_failed_read(
    rt: &impl Abort,
    case: &Case<'_>,
    devices: Devices<'_>,
    room: &mut [u8],
    written: &[u8],
) {
    let wanted = failure(written, READ_FAILED);
    expect_run(rt, case, case.input.as_slice(), devices, room, wanted);
}

/// Reads single octets, and lets each read fail in turn. Checks that the output of the octets before the failure is
/// written. After an octet that is refused, or after the element of `extract`, no read is made, so none fails.
pub(crate) fn expect_failed_reads(
    rt: &impl Abort,
    case: &Case<'_>,
    room: &mut [u8],
    other: &mut [u8],
) {
    for count in 0..=case.input.len() {
        let prefix = case.input.get(..count).unwrap_or_default();
        let mut source = MemSource::new(prefix, &[], None);
        let mut drain = MemDrain::new(room, 4096);
        let report = run(&case.command, &case.names, &mut source, &mut drain);
        let run_result = result_in(&report, drain.written());
        let devices = Devices {
            cuts: &ONES,
            fail_at: Some(count as u64),
            most: 4096,
        };
        let input = case.input.as_slice();
        if is_final(&case.command, run_result) {
            expect_run(rt, case, input, devices, other, result_of(case));
        } else {
            expect_failed_read(rt, case, devices, other, run_result.written);
        }
    }
}

/// Runs the case with each room that is too small. Checks that a write fails and the room is full.
fn expect_too_little_room(rt: &impl Abort, case: &Case<'_>, devices: Devices<'_>, room: &mut [u8]) {
    for size in 0..case.output.len() {
        let (Some(place), Some(written)) = (room.get_mut(..size), case.output.get(..size)) else {
            panic!(rt; "{}: no room", case.place);
        };
        let wanted = failure(written, WRITE_FAILED);
        expect_run(rt, case, case.input.as_slice(), devices, place, wanted);
    }
}

/// Checks that writes fail in each room that is too small, with a drain that takes 1, 7 or 4096 octets with a write.
/// Short inputs are also read in single octets.
pub(crate) fn expect_failed_writes(rt: &impl Abort, case: &Case<'_>, room: &mut [u8]) {
    for most in [1, 7, 4096] {
        let devices = Devices {
            cuts: &[],
            fail_at: None,
            most,
        };
        expect_too_little_room(rt, case, devices, room);
        if case.input.len() <= SHORT {
            let devices = Devices {
                cuts: &ONES,
                ..devices
            };
            expect_too_little_room(rt, case, devices, room);
        }
    }
}

/// Checks that after an octet that is refused any further octet leaves the result the same.
pub(crate) fn expect_final_fault(
    rt: &impl Abort,
    case: &Case<'_>,
    room: &mut [u8],
    longer: &mut [u8],
) {
    let wanted = result_of(case);
    let count = case.input.len();
    let Some(longer) = longer.get_mut(..=count) else {
        panic!(rt; "{}: no room", case.place);
    };
    if case.status != 2 || !is_final(&case.command, wanted) {
        return;
    }
    longer[..count].copy_from_slice(case.input.as_slice());
    for octet in 0..=255 {
        longer[count] = octet;
        expect_run(rt, case, longer, unfailing(&[]), room, wanted);
    }
}

/// Returns whether the command allows octets `00` between the encodings.
fn takes_padding(command: &Command<'_>) -> bool {
    match command {
        Command::Dump { options, .. } => options.framing.padding,
        Command::Check { framing, .. } => framing.padding,
        Command::Extract { framing, .. } => framing.padding,
        Command::Indef { padding, .. } => *padding,
    }
}

/// Checks that `indef` leaves its own output unchanged, if the input has no fault.
pub(crate) fn expect_same_again(
    rt: &impl Abort,
    case: &Case<'_>,
    room: &mut [u8],
    other: &mut [u8],
) {
    let indef = Command::Indef {
        padding: takes_padding(&case.command),
        file: None,
    };
    let names = Names::empty();
    let mut source = MemSource::new(case.input.as_slice(), &[], None);
    let mut drain = MemDrain::new(room, 4096);
    let report = run(&indef, &names, &mut source, &mut drain);
    if report.status != 0 {
        return;
    }
    let mut again = MemSource::new(drain.written(), &[], None);
    let mut second = MemDrain::new(other, 4096);
    let report = run(&indef, &names, &mut again, &mut second);
    expect_eq_of(rt, case.place, second.written(), drain.written());
    expect_eq_of(rt, case.place, report.status, 0);
}
