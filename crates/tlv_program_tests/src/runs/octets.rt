//! Tests of `run_octets`, which runs a command over octets in memory and supplies the devices.
use super::row::command_for;
use crate::expect::expect_eq_of;
use crate::{ONES, READ_FAILED, WRITE_FAILED};
use std::process::Abort;
use std::test::Fail;
use tlv_run::{OctetsRun, run_octets};
use tlv_value::Names;

/// Checks what a run wrote, its status and its message.
fn expect<const N: usize>(
    rt: &impl Abort,
    run: &OctetsRun<N>,
    written: &[u8],
    status: u8,
    message: &str,
) {
    expect_eq_of(rt, "written", run.written.as_slice(), written);
    expect_eq_of(
        rt,
        "message",
        run.report.message.as_slice(),
        message.as_bytes(),
    );
    expect_eq_of(rt, "status", run.report.status, status);
}

/// The words, the input, and what is written and reported if the read after the input fails.
struct FailureRow<'a> {
    words: &'a str,
    input: &'a [u8],
    written: &'a [u8],
    status: u8,
    message: &'a str,
}

/// Inputs after which a read fails.
static FAILURES: [FailureRow<'static>; 6] = [
    FailureRow {
        words: "indef",
        input: b"\x30\x03\x02",
        written: b"\x30\x80",
        status: 3,
        message: READ_FAILED,
    },
    FailureRow {
        words: "check",
        input: b"\x3a\x80\x04\x03Jon\x04\x02es\x00\x00",
        written: b"0 D01 indefinite length\n0 D02 constructed string\n",
        status: 3,
        message: READ_FAILED,
    },
    FailureRow {
        words: "extract --offset 9",
        input: b"",
        written: b"",
        status: 3,
        message: READ_FAILED,
    },
    FailureRow {
        words: "dump",
        input: b"\x05\x00",
        written: b"       0      0: NULL\n",
        status: 3,
        message: READ_FAILED,
    },
    // After an octet that is refused, and after the element of `extract`, no read is made, so none fails.
    FailureRow {
        words: "dump",
        input: b"\x05\x00\x00",
        written: b"       0      0: NULL\n",
        status: 2,
        message: "fault at 2: F03 end-of-contents outside an indefinite element",
    },
    FailureRow {
        words: "extract --offset 0",
        input: b"\x05\x00",
        written: b"\x05\x00",
        status: 0,
        message: "",
    },
];

#[test]
fn octets_before_a_failed_read_are_written(rt: HostRuntime) -> Result<(), Fail> {
    for row in &FAILURES {
        let command = command_for(rt.alloc(), row.words)?;
        for cuts in [&[], ONES.as_slice()] {
            let run = run_octets::<256>(&command, &Names::empty(), row.input, cuts, true);
            expect(&rt, &run, row.written, row.status, row.message);
            expect_eq_of(&rt, row.words, run.report.findings, 0);
        }
    }
    Ok(())
}

/// Runs with room for eight and for nine octets of an output of nine.
#[test]
fn octets_past_the_room_are_not_written(rt: HostRuntime) -> Result<(), Fail> {
    let input = b"\x30\x05\x02\x03\x01\x02\x03";
    let output = b"\x30\x80\x02\x03\x01\x02\x03\x00\x00";
    let command = command_for(rt.alloc(), "indef")?;
    let names = Names::empty();
    for cuts in [&[], ONES.as_slice()] {
        let part = run_octets::<8>(&command, &names, input, cuts, false);
        expect(&rt, &part, &output[..8], 3, WRITE_FAILED);
        let all = run_octets::<9>(&command, &names, input, cuts, false);
        expect(&rt, &all, output, 0, "");
    }
    Ok(())
}
