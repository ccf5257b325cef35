//! Tests of `tlv_run`: the followers of `extract` and `indef` by themselves, and a read that fails.
use crate::expect::{expect, expect_eq};
use tlv_run::{Extract, Indef, extract};
use tlv_walk::{DeviceFault, Follow, Framing, MemDrain, MemSource, drive};

/// A SEQUENCE that holds an INTEGER.
const INPUT: &[u8] = b"\x30\x03\x02\x01\x05";

/// Walks over `INPUT` with the follower.
/// Returns whether the walk succeeds and the follower writes exactly these octets.
fn writes<F: Follow>(follower: &mut F, written: &[u8]) -> bool {
    let mut room = [0; 8];
    let mut source = MemSource::new(INPUT, &[], None);
    let mut drain = MemDrain::new(&mut room, 8);
    let run = drive(&mut source, follower, &mut drain, &Framing::plain());
    run.is_ok() && drain.written() == written
}

/// The followers work without the calls that wrap them. `Extract` writes the contents octets of its element and reports
/// that it found the element. `Indef` writes the indefinite form.
#[test]
fn followers_write_by_themselves(rt: HostRuntime) {
    let mut follower = Extract::new(2, true);
    expect_eq(&rt, follower.has_found(), false);
    let is_written = writes(&mut follower, b"\x05");
    expect(&rt, is_written, "the contents are written");
    expect_eq(&rt, follower.has_found(), true);
    let is_written = writes(&mut Indef::new(), b"\x30\x80\x02\x01\x05\x00\x00");
    expect(&rt, is_written, "the indefinite form is written");
}

#[test]
fn octets_before_a_failed_read_are_extracted(rt: HostRuntime) {
    let mut room = [0; 8];
    let mut source = MemSource::new(INPUT, &[4], Some(1));
    let mut drain = MemDrain::new(&mut room, 8);
    let cut = extract(&mut source, &mut drain, 2, false, &Framing::plain());
    expect_eq(&rt, drain.written(), b"\x02\x01");
    expect_eq(&rt, cut, Err(DeviceFault::ReadFailed));
}
