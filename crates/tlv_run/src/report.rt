//! What the program reports at its end: the exit status, the number of findings and the message.
ghost use Rattle.std.specs.Prelude.{◌≡◌, ◌+◌, ◌++◌, ◌≤◌, [], decimal, length};
ghost use Rattle.tlv_run.specs.Report.{cut_report, device_report, fault_line, indef_report, names_fault_line};
ghost use Rattle.tlv_run.specs.Report.{names_report, outcome_report, report_value_of, report_with, unopened_report};

use crate::extract_call::Cut;
use arrayvec::ArrayVec;
use itoa::Buffer;
use tlv_head::Fault;
use tlv_show::Outcome;
use tlv_value::NamesFault;
use tlv_walk::{DeviceFault, Ending};

/// What the program reports at its end.
#[derive(Debug, Drop)]
pub struct Report {
    /// The exit status: 0 clean; 1 findings, or nothing at an offset that was asked for; 2 a fault of the encoding; 3
    /// a device failed, the input is too long, or the file does not open; 4 the words or the names file are refused;
    /// 5 memory was refused.
    pub status: u8,
    /// The number of findings.
    pub findings: u64,
    /// One line of ASCII without its line feed, or nothing.
    pub message: ArrayVec<u8, 128>,
}

impl Report {
    /// A report with this status and this message, of at most 128 octets, and with no findings.
    pub fn with_message(status: u8, line: &[u8]) -> Report
        requires { length line.now ≤ 128 }
        ensures { report_value_of result ≡ report_with status line.now }
    {
        report_with(status, message_of(line))
    }

    /// A report with this status, with no message and no findings.
    pub fn without_message(status: u8) -> Report
        ensures { report_value_of result ≡ report_with status [] }
    {
        report_with(status, ArrayVec::new())
    }
}

/// The report of a dump or a check: a fault, else an offset without a string, else findings. It has the count of
/// findings in each case.
pub(crate) fn outcome_report(outcome: Outcome) -> Report
    ensures { report_value_of result ≡ outcome_report outcome }
{
    let findings = outcome.findings;
    match (outcome.ending, outcome.unused) {
        (Ending::Fault(fault), _) => counted_report(2, findings, fault_line(fault)),
        (Ending::Done, Some(offset)) => counted_report(
            1,
            findings,
            number_line(b"E7 no string to read at offset ", offset),
        ),
        (Ending::Done, None) if findings == 0 => Report::without_message(0),
        (Ending::Done, None) => counted_report(1, findings, number_line(b"findings: ", findings)),
    }
}

/// The report of an extract of the element at this offset: a fault, else whether there is such an element.
pub(crate) fn cut_report(offset: u64, cut: Cut) -> Report
    ensures { report_value_of result ≡ cut_report offset cut }
{
    match (cut.ending, cut.found) {
        (Ending::Fault(fault), _) => report_with(2, fault_line(fault)),
        (Ending::Done, false) => report_with(1, number_line(b"E4 no element at offset ", offset)),
        (Ending::Done, true) => Report::without_message(0),
    }
}

/// The report of an input if only its ending matters: a fault, or nothing.
pub fn indef_report(ending: Ending) -> Report
    ensures { report_value_of result ≡ indef_report ending }
{
    match ending {
        Ending::Fault(fault) => report_with(2, fault_line(fault)),
        Ending::Done => Report::without_message(0),
    }
}

/// The report if a device failed, or the input is too long.
pub fn device_report(fault: DeviceFault) -> Report
    ensures { report_value_of result ≡ device_report fault }
{
    match fault {
        DeviceFault::ReadFailed => Report::with_message(3, b"E1 read failed"),
        DeviceFault::WriteFailed => Report::with_message(3, b"E2 write failed"),
        DeviceFault::InputTooLong => Report::with_message(3, b"E3 input too long"),
    }
}

/// The report if the file to read does not open.
pub fn unopened_report() -> Report
    ensures { report_value_of result ≡ unopened_report }
{
    Report::with_message(3, b"E5 cannot open the file")
}

/// The report if the names file is refused.
pub fn names_report(fault: NamesFault) -> Report
    ensures { report_value_of result ≡ names_report fault }
{
    match fault {
        NamesFault::BadOid(line) => report_with(
            4,
            names_fault_line(b"N1", line, b": not an object identifier"),
        ),
        NamesFault::BadName(line) => report_with(
            4,
            names_fault_line(b"N2", line, b": no usable name"),
        ),
        NamesFault::Repeated(line) => report_with(4, names_fault_line(b"N3", line, b": repeated")),
        NamesFault::TooLarge => Report::with_message(4, b"N4 names file too large"),
        NamesFault::ReadFailed => Report::with_message(4, b"N5 names file not read"),
        NamesFault::Memory => Report::with_message(5, b"N6 out of memory"),
    }
}

/// A report with no findings.
fn report_with(status: u8, message: ArrayVec<u8, 128>) -> Report
    ensures { report_value_of result ≡ report_with status message.items }
{
    counted_report(status, 0, message)
}

/// A report with this count of findings.
fn counted_report(status: u8, findings: u64, message: ArrayVec<u8, 128>) -> Report
    ensures { report_value_of result ≡ record (report_with status message.items) { findings = findings } }
{
    Report {
        status,
        findings,
        message,
    }
}

fn message_of(line: &[u8]) -> ArrayVec<u8, 128>
    requires { length line.now ≤ 128 }
    ensures { result.items ≡ line.now }
{
    let mut message = ArrayVec::new();
    let _ = message.try_extend_from_slice(line);
    message
}

/// A text followed by a number.
fn number_line(line: &[u8], number: u64) -> ArrayVec<u8, 128>
    requires { length line.now ≤ 64 }
    ensures text { result.items ≡ line.now ++ decimal number }
    ensures short { length result.items ≤ length line.now + 40 }
{
    let mut message = message_of(line);
    let mut digits = Buffer::new();
    let _ = message.try_extend_from_slice(digits.format(number).as_bytes());
    message
}

/// A code, the number of a line of the names file, and what is wrong with that line.
fn names_fault_line(code: &[u8], line: u32, what: &[u8]) -> ArrayVec<u8, 128>
    requires code { length code.now ≤ 2 }
    requires what { length what.now ≤ 64 }
    ensures { result.items ≡ names_fault_line code.now line what.now }
{
    let mut message = message_of(code);
    let mut digits = Buffer::new();
    let _ = message.try_extend_from_slice(b" line ");
    let _ = message.try_extend_from_slice(digits.format(line).as_bytes());
    let _ = message.try_extend_from_slice(what);
    message
}

fn fault_line(fault: Fault) -> ArrayVec<u8, 128>
    ensures { result.items ≡ fault_line fault }
{
    let mut message = number_line(b"fault at ", fault.offset);
    let _ = message.try_extend_from_slice(b": ");
    let _ = message.try_extend_from_slice(fault.code.code());
    let _ = message.try_extend_from_slice(b" ");
    let _ = message.try_extend_from_slice(fault.text());
    message
}
