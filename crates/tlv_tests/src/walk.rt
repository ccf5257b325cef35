//! Tests of `tlv_walk`: steps, framings, frames, and walks over devices that fail.
use crate::expect::{expect_eq, expect_eq_of};
use crate::inputs::framing_of;
use arrayvec::ArrayVec;
use std::io::{self, ErrorKind, Read};
use std::process::Abort;
use tlv_run::Indef;
use tlv_walk::{
    DeviceFault, Ending, Event, Frames, Framing, Inside, MemDrain, MemSource, ReadSource, Run,
    Step, Walker, drive, drive_up_to,
};

/// Returns the letter that stands for an event.
fn letter_of(event: &Event<'_>) -> u8 {
    match event {
        Event::Open(_) => b'o',
        Event::Begin(_) => b'b',
        Event::Bytes(_) => b'-',
        Event::End => b'e',
        Event::Close(_) => b'c',
        Event::Enter(_) => b'i',
        Event::Unused => b'u',
        Event::Leave => b'l',
        Event::Pad(_) => b'p',
    }
}

/// Hands the octets to the walker, and adds the letters of its events.
fn step_over(
    rt: &impl Abort,
    walker: &mut Walker<'_>,
    octets: &[u8],
    letters: &mut ArrayVec<u8, 64>,
) {
    let mut piece = octets;
    for _ in 0..64 {
        assert!(rt; walker.offset() <= 1000 && piece.len() <= 1000);
        match walker.step(&mut piece) {
            Step::Event(event) => {
                let _ = letters.try_push(letter_of(&event));
            }
            Step::NeedMore | Step::Fault(_) => return,
        }
    }
}

/// Returns how many octets were taken, how many events yielded, how many elements are open, and which named offset is
/// unused.
fn state_of(walker: &Walker<'_>) -> (u64, u64, u8, Option<u64>) {
    (
        walker.offset(),
        walker.events(),
        walker.depth(),
        walker.unused(),
    )
}

/// Returns the ending of an input that ends here, or `None` if an event is pending.
fn ending_of(walker: &Walker<'_>) -> Option<Ending> {
    if walker.waiting() {
        return None;
    }
    Some(walker.finish())
}

/// Padding, a BIT STRING that holds a SEQUENCE of indefinite length, which holds an INTEGER, and a refused octet.
const INPUT: &[u8] = b"\x00\x03\x08\x00\x30\x80\x02\x01\x05\x00\x00\x04\xff";

/// The events of the input are the same in every cut into two pieces. A fault is returned again.
#[test]
fn events_do_not_depend_on_pieces(rt: HostRuntime) {
    for cut in 0..=INPUT.len() {
        let framing = framing_of(&rt, &[1, 7], true);
        let mut walker = Walker::new(&framing);
        let mut letters = ArrayVec::new();
        let (front, back) = INPUT.split_at(cut);
        step_over(&rt, &mut walker, front, &mut letters);
        step_over(&rt, &mut walker, back, &mut letters);
        step_over(&rt, &mut walker, back, &mut letters);
        expect_eq_of(&rt, cut, letters.as_slice(), b"piuob-ecl");
        expect_eq_of(&rt, cut, state_of(&walker), (12, 9, 0, Some(7)));
        let refused =
            matches!(ending_of(&walker), Some(Ending::Fault(fault)) if fault.offset == 12);
        expect_eq_of(&rt, cut, refused, true);
    }
}

/// The largest offset that may be named.
const LARGEST: u64 = 1_099_511_627_776;

/// At most sixteen offsets are kept, and more may be lent.
#[test]
fn rising_offsets_are_named(rt: HostRuntime) {
    let many = [
        0, 1, 2, 3, 4, 5, 6, 7, 8, 9, 10, 11, 12, 13, 14, 15, LARGEST,
    ];
    for (offsets, is_kept, is_lent) in [
        ([].as_slice(), true, true),
        (&many[1..], true, true),
        (&many, false, true),
        (&[3, 3], false, false),
        (&[0, 1_099_511_627_777], false, false),
    ] {
        expect_eq_of(&rt, offsets, Inside::new(offsets).is_some(), is_kept);
        expect_eq_of(&rt, offsets, Inside::lent(offsets).is_some(), is_lent);
    }
    expect_eq(&rt, Inside::lent(&[0, 4]) == Inside::new(&[0, 4]), true);
    expect_eq(&rt, Some(Inside::none()) == Inside::new(&[0, 5]), false);
}

#[test]
fn the_innermost_frame_comes_first(rt: HostRuntime) {
    let mut frames = Frames::new();
    expect_eq(&rt, frames.is_empty(), true);
    frames.push('a');
    frames.push('b');
    expect_eq(&rt, frames.len(), 2);
    expect_eq(&rt, frames.pop(), Some('b'));
    expect_eq(&rt, frames.pop(), Some('a'));
    expect_eq(&rt, frames.pop(), None);
}

/// A reader that gives three octets, is interrupted once, and then ends.
#[derive(Drop)]
struct Interrupted {
    reads: u8,
}

impl Read for Interrupted {
    fn read(&mut self, buf: &mut [u8]) -> io::Result<usize> {
        self.reads = self.reads.saturating_add(1);
        match self.reads {
            1 => {
                let mut octets: &[u8] = b"\x05\x00\x30";
                octets.read(buf)
            }
            2 => Err(io::Error::from(ErrorKind::Interrupted)),
            _ => Ok(0),
        }
    }
}

/// An interrupted read counts as failed. It is not repeated, and it is not taken for the end of the input.
#[test]
fn an_interrupted_read_fails(rt: HostRuntime) {
    let mut room = [0; 64];
    let mut source = ReadSource::new(Interrupted { reads: 0 });
    let mut drain = MemDrain::new(&mut room, 4096);
    let result = drive(
        &mut source,
        &mut Indef::new(),
        &mut drain,
        &Framing::plain(),
    );
    expect_eq(&rt, result, Err(DeviceFault::ReadFailed));
    expect_eq(&rt, drain.written(), b"\x05\x00".as_slice());
}

/// Walks over two NULLs up to the limit. Checks what is written and the result.
fn expect_up_to(rt: &impl Abort, limit: u64, written: &[u8], want: Result<Run, DeviceFault>) {
    let mut room = [0; 4];
    let mut source = MemSource::new(b"\x05\x00\x05\x00", &[], None);
    let mut drain = MemDrain::new(&mut room, 4096);
    let result = drive_up_to(
        &mut source,
        &mut Indef::new(),
        &mut drain,
        limit.min(4),
        &Framing::plain(),
    );
    expect_eq(rt, result, want);
    expect_eq(rt, drain.written(), written);
}

/// Octets past the limit are not followed. A limit that the input just reaches makes no difference.
#[test]
fn octets_up_to_the_limit_are_followed(rt: HostRuntime) {
    let whole = Run {
        ending: Ending::Done,
        octets: 4,
        enough: false,
        unused: None,
    };
    expect_up_to(&rt, 3, b"\x05\x00", Err(DeviceFault::InputTooLong));
    expect_up_to(&rt, 4, b"\x05\x00\x05\x00", Ok(whole));
}
