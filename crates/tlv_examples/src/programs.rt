//! Examples of the programs, run over a system that the caller supplies.
ghost use Rattle.tlv_program.specs.System.{unknown_system};

use crate::expect::expect_eq;
use std::test::Fail;
use tlv_program::{OpenFault, System, Words, run_program};
use tlv_view_program::{FileNames, Streams, Wanted, request_of, run_show};
use tlv_walk::{MemDrain, MemSource};

/// A system that has no files and prints nothing.
#[derive(Drop)]
struct NoFiles;

impl System for NoFiles {
    type File = MemSource<'static>;

    ghost allows = { unknown_system };

    fn open(&mut self, _name: &str) -> Result<MemSource<'static>, OpenFault> {
        Err(OpenFault::Missing)
    }

    fn close(&mut self, _file: MemSource<'static>) {}

    fn print(&mut self, _error: &clap::Error) -> bool {
        false
    }
}

/// tlv_program: runs `tlvdump dump` over standard input, which here is a NULL in memory.
#[test]
fn run_tlvdump(rt: HostRuntime) -> Result<(), Fail> {
    let mut words = Words::new(rt.alloc());
    words.push("tlvdump")?;
    words.push("dump")?;
    let mut room = [0; 64];
    let mut input = MemSource::new(b"\x05\x00", &[], None);
    let mut output = MemDrain::new(&mut room, 4096);
    let report = run_program(
        rt.alloc(),
        &Ok(words),
        &mut NoFiles,
        &mut input,
        &mut output,
    );
    expect_eq(&rt, output.written(), b"       0      0: NULL\n");
    expect_eq(&rt, report.status, 0);
    Ok(())
}

/// tlv_view_program: makes a request from the words of a command line of `tlvdump-show`.
#[test]
fn read_the_words_of_tlvdump_show(rt: HostRuntime) -> Result<(), Fail> {
    let mut words = Words::new(rt.alloc());
    words.push("tlvdump-show")?;
    words.push("--offsets")?;
    let request = request_of(rt.alloc(), &words)?;
    expect_eq(&rt, matches!(request.wanted, Wanted::Offsets), true);
    Ok(())
}

/// tlv_view_program: runs `tlvdump-show` over an OCTET STRING that holds a NULL, without a names file.
#[test]
fn run_tlvdump_show(rt: HostRuntime) -> Result<(), Fail> {
    let mut words = Words::new(rt.alloc());
    words.push("tlvdump-show")?;
    let mut output_room = [0; 256];
    let mut message_room = [0; 256];
    let mut streams = Streams {
        system: NoFiles,
        input: MemSource::new(b"\x04\x02\x05\x00", &[], None),
        output: MemDrain::new(&mut output_room, 4096),
        messages: MemDrain::new(&mut message_room, 4096),
    };
    let places = FileNames::new(rt.alloc());
    let status = run_show(rt.alloc(), &Ok(words), &places, false, &mut streams);
    let written =
        b"       0      2: OCTET STRING wraps {\n       2      0:   NULL\n                 }\n";
    expect_eq(&rt, streams.output.written(), written);
    expect_eq(&rt, status, 0);
    Ok(())
}
