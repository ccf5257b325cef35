//! Examples of headers, events and output.
use crate::expect::expect_eq;
use arrayvec::ArrayVec;
use tlv_head::{Size, read_header};
use tlv_io::{MemDrain, Out, send};
use tlv_walk::{Ending, Event, Framing, Step, Walker};

/// tlv_head: reads the header at the start of octets, here that of a SEQUENCE with three contents octets.
#[test]
fn read_the_header_of_a_slice(rt: HostRuntime) {
    let octets = b"\x30\x03\x02\x01\x05";
    let Some((fields, count)) = read_header(0, false, octets) else {
        panic!(rt; "there is a header");
    };
    expect_eq(&rt, fields.number, 16);
    expect_eq(&rt, fields.constructed, true);
    expect_eq(&rt, fields.size, Size::Definite(3));
    expect_eq(&rt, count, 2);
}

/// tlv_walk: yields the first event of a piece. The rest of the piece is left for the next step.
#[test]
fn take_the_first_event(rt: HostRuntime) {
    let framing = Framing::plain();
    let mut walker = Walker::new(&framing);
    let mut piece: &[u8] = b"\x30\x03\x02\x01\x05";
    let Step::Event(Event::Open(header)) = walker.step(&mut piece) else {
        panic!(rt; "a constructed element begins");
    };
    expect_eq(&rt, header.number, 16);
    expect_eq(&rt, walker.depth(), 1);
    expect_eq(&rt, piece, b"\x02\x01\x05");
}

/// tlv_walk: walks over a whole input, here a SEQUENCE that holds an INTEGER, and notes the number of each tag. The
/// loop ends when the walker needs more octets, or has refused one. Then `finish` returns how the input ends: `Done` if
/// it is whole encodings, and otherwise the fault.
#[test]
fn walk_over_a_slice(rt: HostRuntime) {
    let framing = Framing::plain();
    let mut walker = Walker::new(&framing);
    let mut piece: &[u8] = b"\x30\x03\x02\x01\x05";
    let mut numbers = ArrayVec::<u64, 4>::new();
    'steps: loop {
        match walker.step(&mut piece) {
            Step::Event(Event::Open(header) | Event::Begin(header)) => {
                let _ = numbers.try_push(header.number);
            }
            Step::Event(_) => {}
            Step::NeedMore | Step::Fault(_) => break,
        }
    }
    expect_eq(&rt, numbers.as_slice(), &[16, 2]);
    expect_eq(&rt, walker.finish(), Ending::Done);
}

/// tlv_io: holds octets, and hands them to a drain that takes four at a time.
#[test]
fn put_octets_to_a_drain(rt: HostRuntime) {
    let mut room = [0; 8];
    let mut drain = MemDrain::new(&mut room, 4);
    let mut out = Out::new(&mut drain);
    expect_eq(&rt, out.put(b"abcdef").is_ok(), true);
    expect_eq(&rt, out.flush().is_ok(), true);
    expect_eq(&rt, drain.written(), b"abcdef");
}

/// tlv_io: hands octets to a drain that takes four at a time, without holding any.
#[test]
fn send_octets_to_a_drain(rt: HostRuntime) {
    let mut room = [0; 8];
    let mut drain = MemDrain::new(&mut room, 4);
    expect_eq(&rt, send(&mut drain, b"abcdef").is_ok(), true);
    expect_eq(&rt, drain.written(), b"abcdef");
}
