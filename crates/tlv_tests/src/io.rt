//! Tests of `tlv_io`: sources, drains, and what an `Out` holds before its drain takes it.
use crate::expect::{expect, expect_eq};
use std::io::{self, ErrorKind, Read, Write};
use std::process::Abort;
use tlv_walk::{
    Drain, MemDrain, MemSource, Out, ReadFault, ReadSource, Source, WriteDrain, WriteFault,
};

#[test]
fn a_source_gives_pieces(rt: HostRuntime) {
    let mut to = [0; 4];

    // Pieces of 2 octets, of 1 (a size of 0 counts as 1), and then as many as there is room for.
    let mut source = MemSource::new(b"abcdefghi", &[2, 0], None);
    for want in [b"ab".as_slice(), b"c", b"defg", b"hi", b"", b""] {
        let got = source.read(&mut to);
        expect_eq(&rt, got, Ok(want.len()));
        expect(&rt, to.starts_with(want), "the octets are read");
    }
}

#[test]
fn a_source_fails_once(rt: HostRuntime) {
    let mut to = [0; 4];
    let mut source = MemSource::new(b"abcdef", &[4], Some(1));
    expect_eq(&rt, source.read(&mut to), Ok(4));
    expect_eq(&rt, source.read(&mut to), Err(ReadFault));
    expect_eq(&rt, source.read(&mut to), Ok(2));
    expect(&rt, to.starts_with(b"ef"), "the octets after it are read");
}

#[test]
fn a_drain_takes_what_fits(rt: HostRuntime) {
    let mut room = [0; 5];
    let mut drain = MemDrain::new(&mut room, 2);
    expect_eq(&rt, drain.write(b"abc"), Ok(2));
    expect_eq(&rt, drain.write(b"c"), Ok(1));
    expect_eq(&rt, drain.write(b"def"), Ok(2));
    expect_eq(&rt, drain.write(b"f"), Err(WriteFault));
    expect_eq(&rt, drain.written(), b"abcde".as_slice());
}

/// Errors after which a caller may want to repeat the call, and one after which it does not.
const KINDS: [ErrorKind; 4] = [
    ErrorKind::Interrupted,
    ErrorKind::WouldBlock,
    ErrorKind::TimedOut,
    ErrorKind::Other,
];

/// A reader that fails at its first read, and then gives `rest`.
#[derive(Drop)]
struct FailingFirst {
    kind: ErrorKind,
    failed: bool,
    rest: &'static [u8],
}

impl Read for FailingFirst {
    fn read(&mut self, buf: &mut [u8]) -> io::Result<usize> {
        if self.failed {
            return self.rest.read(buf);
        }
        self.failed = true;
        Err(io::Error::from(self.kind))
    }
}

/// A writer that takes nothing at its first write, fails at its second, and then takes one octet with each write.
#[derive(Drop)]
struct OneOctetWriter {
    kind: ErrorKind,
    writes: u8,
}

impl Write for OneOctetWriter {
    fn write(&mut self, buf: &[u8]) -> io::Result<usize> {
        self.writes = self.writes.saturating_add(1);
        match self.writes {
            1 => Ok(0),
            2 => Err(io::Error::from(self.kind)),
            _ => Ok(buf.len().min(1)),
        }
    }

    fn flush(&mut self) -> io::Result<()> {
        Ok(())
    }
}

/// A failed read is not repeated, whatever the error. The caller decides. The next read gives the octets that the
/// failed one did not.
#[test]
fn a_read_source_reads_once(rt: HostRuntime) {
    for kind in KINDS {
        let mut source = ReadSource::new(FailingFirst {
            kind,
            failed: false,
            rest: b"abc",
        });
        let mut to = [0; 4];
        expect_eq(&rt, source.read(&mut to), Err(ReadFault));
        expect_eq(&rt, source.read(&mut to), Ok(3));
        expect(&rt, to.starts_with(b"abc"), "all octets are read");
        expect_eq(&rt, source.read(&mut to), Ok(0));
    }
}

/// A write that fails or takes nothing is not repeated. The caller decides.
#[test]
fn a_write_drain_writes_once(rt: HostRuntime) {
    for kind in KINDS {
        let mut drain = WriteDrain::new(OneOctetWriter { kind, writes: 0 });
        expect_eq(&rt, drain.write(b"ab"), Err(WriteFault));
        expect_eq(&rt, drain.write(b"ab"), Err(WriteFault));
        expect_eq(&rt, drain.write(b"ab"), Ok(1));
    }
}

/// Puts these octets. Checks that no write fails.
fn put(rt: &impl Abort, out: &mut Out<'_, MemDrain<'_>>, octets: &[u8]) {
    expect_eq(rt, out.put(octets), Ok(()));
}

/// Puts more octets than an `Out` holds, in several calls.
fn put_much(rt: &impl Abort, drain: &mut MemDrain<'_>) {
    let mut out = Out::new(drain);
    put(rt, &mut out, &[1; 96]);
    put(rt, &mut out, b"");
    put(rt, &mut out, &[2; 4000]);
    put(rt, &mut out, &[3; 4]);
    put(rt, &mut out, &[4; 5000]);
    expect_eq(rt, out.flush(), Ok(()));
}

/// Returns whether the octets are those that `put_much` puts.
fn are_much(octets: &[u8]) -> bool {
    octets.len() == 9100
        && octets.get(..96) == Some([1; 96].as_slice())
        && octets.get(96..4096) == Some([2; 4000].as_slice())
        && octets.get(4096..4100) == Some([3; 4].as_slice())
        && octets.get(4100..) == Some([4; 5000].as_slice())
}

#[test]
fn short_writes_take_all(rt: HostRuntime) {
    let mut room = [0; 10_000];
    let mut drain = MemDrain::new(&mut room, 1000);
    put_much(&rt, &mut drain);
    expect(&rt, are_much(drain.written()), "all octets are written");
}

/// Octets that are too many to hold go straight to the drain, after the octets that are held.
#[test]
fn a_drain_without_room_fails(rt: HostRuntime) {
    let mut room = [0; 5];
    let mut drain = MemDrain::new(&mut room, 2);
    {
        let mut out = Out::new(&mut drain);
        put(&rt, &mut out, b"abc");
        expect_eq(&rt, out.put(&[b'd'; 5000]), Err(WriteFault));
    }
    expect_eq(&rt, drain.written(), b"abcdd".as_slice());
}

/// Puts these octets, and makes room for a line and for 96 more. Returns the number of octets that are held afterwards.
fn held_after(octets: &[u8], drain: &mut MemDrain<'_>) -> Option<(usize, usize)> {
    let mut out = Out::new(drain);
    out.put(octets).ok()?;
    out.make_room_for(96).ok()?;
    let before = out.held.len();
    out.make_room().ok()?;
    Some((before, out.held.len()))
}

#[test]
fn room_is_made_if_it_may_be_lacking(rt: HostRuntime) {
    let octets = [b'x'; 4001];
    let mut room = [0; 4096];
    for (count, want) in [(3072, (3072, 3072)), (3073, (3073, 0)), (4001, (0, 0))] {
        let mut drain = MemDrain::new(&mut room, 4096);
        expect_eq(&rt, held_after(&octets[..count], &mut drain), Some(want));
    }
}
