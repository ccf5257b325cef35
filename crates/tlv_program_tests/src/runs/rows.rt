//! Tests that run each row of tests/rows, and each row of long inputs, in each way.
use super::long_inputs::LONG;
use super::row::{Case, case_of};
use super::{
    expect_failed_reads, expect_failed_writes, expect_final_fault, expect_prefixes,
    expect_same_again, expect_whole,
};
use crate::generated::tables;
use std::alloc::Global;
use std::process::Abort;
use std::test::Fail;

/// Room for more octets than any input or output of the rows has.
const ROOM: usize = 50_000;

/// A way to run a case.
#[derive(Clone, Copy)]
pub(crate) enum Way {
    /// The whole input, whatever the pieces.
    Whole,
    /// Each proper prefix of the input.
    Prefixes,
    /// Each read fails in turn.
    FailedReads,
    /// Each room that is too small.
    FailedWrites,
    /// Each octet after one that is refused.
    FinalFault,
    /// `indef` of the input, and `indef` of that output.
    SameAgain,
}

/// Runs the case in this way. Checks the results.
fn expect_case(rt: &impl Abort, way: Way, case: &Case<'_>, room: &mut [u8], other: &mut [u8]) {
    match way {
        Way::Whole => expect_whole(rt, case, room),
        Way::Prefixes => expect_prefixes(rt, case, room, other),
        Way::FailedReads => expect_failed_reads(rt, case, room, other),
        Way::FailedWrites => expect_failed_writes(rt, case, room),
        Way::FinalFault => expect_final_fault(rt, case, room, other),
        Way::SameAgain => expect_same_again(rt, case, room, other),
    }
}

/// Runs the row of this line in this way.
fn expect_line(
    rt: &impl Abort,
    alloc: Global,
    way: Way,
    line: &str,
    room: &mut [u8],
    other: &mut [u8],
) -> Result<(), Fail> {
    let case = case_of(alloc, line)?;
    expect_case(rt, way, &case, room, other);
    Ok(())
}

/// Runs each row of the text in this way.
fn expect_rows(rt: &impl Abort, alloc: Global, way: Way, text: &str) -> Result<(), Fail> {
    let mut room = [0; ROOM];
    let mut other = [0; ROOM];
    for line in text.lines() {
        expect_line(rt, alloc, way, line, &mut room, &mut other)?;
    }
    Ok(())
}

/// Runs each row of tests/rows in this way.
fn expect_all(rt: &impl Abort, alloc: Global, way: Way) -> Result<(), Fail> {
    for text in tables() {
        expect_rows(rt, alloc, way, text)?;
    }
    Ok(())
}

#[test]
fn rows_are_written_in_whatever_pieces(rt: HostRuntime) -> Result<(), Fail> {
    expect_all(&rt, rt.alloc(), Way::Whole)
}

#[test]
fn prefixes_of_rows_are_written(rt: HostRuntime) -> Result<(), Fail> {
    expect_all(&rt, rt.alloc(), Way::Prefixes)
}

#[test]
fn reads_fail(rt: HostRuntime) -> Result<(), Fail> {
    expect_all(&rt, rt.alloc(), Way::FailedReads)
}

#[test]
fn writes_fail(rt: HostRuntime) -> Result<(), Fail> {
    expect_all(&rt, rt.alloc(), Way::FailedWrites)
}

#[test]
fn faults_are_final(rt: HostRuntime) -> Result<(), Fail> {
    expect_all(&rt, rt.alloc(), Way::FinalFault)
}

#[test]
fn a_second_indef_changes_nothing(rt: HostRuntime) -> Result<(), Fail> {
    expect_all(&rt, rt.alloc(), Way::SameAgain)
}

#[test]
fn long_inputs_are_written(rt: HostRuntime) -> Result<(), Fail> {
    for way in [Way::Whole, Way::Prefixes, Way::FinalFault, Way::SameAgain] {
        expect_rows(&rt, rt.alloc(), way, LONG)?;
    }
    Ok(())
}

#[test]
fn reads_of_long_inputs_fail(rt: HostRuntime) -> Result<(), Fail> {
    expect_rows(&rt, rt.alloc(), Way::FailedReads, LONG)
}

#[test]
fn writes_of_long_outputs_fail(rt: HostRuntime) -> Result<(), Fail> {
    expect_rows(&rt, rt.alloc(), Way::FailedWrites, LONG)
}
