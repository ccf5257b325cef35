//! Tests of the reports that do not depend on the encodings, and of how they are written.
use crate::expect::expect_eq_of;
use tlv_program::{UsageFault, not_utf8_report, unprinted_report, usage_report};
use tlv_run::{Report, device_report, names_report, unopened_report, write_message};
use tlv_value::NamesFault;
use tlv_walk::{DeviceFault, MemDrain};

/// Each report is written with a line feed, and keeps its status.
#[test]
fn reports_are_written(rt: HostRuntime) {
    let value = UsageFault::Value("--inside");
    for (report, status, line) in [
        (Report::without_message(0), 0, b"".as_slice()),
        (Report::with_message(1, b"findings: 3"), 1, b"findings: 3\n"),
        (
            device_report(DeviceFault::InputTooLong),
            3,
            b"E3 input too long\n",
        ),
        (unopened_report(), 3, b"E5 cannot open the file\n"),
        (unprinted_report(), 3, b"E2 write failed\n"),
        (not_utf8_report(), 4, b"U1 an argument is not UTF-8\n"),
        (
            usage_report(&value),
            4,
            b"U2 value out of range: --inside\n",
        ),
        (usage_report(&UsageFault::Memory), 5, b"U3 out of memory\n"),
        (
            names_report(NamesFault::BadOid(3)),
            4,
            b"N1 line 3: not an object identifier\n",
        ),
        (names_report(NamesFault::Memory), 5, b"N6 out of memory\n"),
    ] {
        let mut room = [0; 129];
        let mut drain = MemDrain::new(&mut room, 5);
        expect_eq_of(&rt, line, write_message(&report, &mut drain), status);
        expect_eq_of(&rt, line, drain.written(), line);
    }
}

/// If the message itself cannot be written in full, the status stays the same.
#[test]
fn failed_writes_keep_the_status(rt: HostRuntime) {
    let mut room = [0; 7];
    let mut drain = MemDrain::new(&mut room, 5);
    let status = write_message(&unopened_report(), &mut drain);
    expect_eq_of(&rt, "status", status, 3);
    expect_eq_of(&rt, "written", drain.written(), b"E5 cann".as_slice());
}
