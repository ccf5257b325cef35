//! Tests of `tlv_view_program`: views in which strings that hold encodings are opened, and inputs that are read into memory.
use crate::expect::{expect, expect_eq_of};
use linked_list_allocator::LocalHeap;
use std::alloc::{AllocError, Global};
use std::process::Abort;
use std::test::Fail;
use tlv_show::Rules;
use tlv_value::Names;
use tlv_view_program::{InputFault, View, input_report, read_whole, view_octets, write_offsets};
use tlv_walk::{MemDrain, MemSource};

/// The value of an extension that is broken, and a string that holds an EXTERNAL that holds nothing.
const INPUT: &[u8] = b"\x30\x0a\x06\x03\x55\x1d\x0f\x04\x03\x03\x02\x05\x04\x02\x28\x00";

/// Checks the view of `INPUT`: what is written, the status, and the number of broken strings.
fn expect_view(
    rt: &impl Abort,
    alloc: Global,
    view: &View,
    closed: bool,
    written: &[u8],
    status: u8,
    broken: usize,
) -> Result<(), AllocError> {
    let mut room = [0; 256];
    let mut drain = MemDrain::new(&mut room, 4096);
    let names = Names::empty();
    let viewed = view_octets(alloc, view, &names, closed, false, INPUT, &mut drain)?;
    expect_eq_of(rt, closed, drain.written(), written);
    expect_eq_of(rt, closed, viewed.report.status, status);
    expect_eq_of(rt, closed, viewed.broken.len(), broken);
    Ok(())
}

/// All findings are reported, not only the listed ones. If strings are to stay closed, none is opened or broken.
#[test]
fn strings_are_opened(rt: HostRuntime) -> Result<(), Fail> {
    let check = View::Check { rules: Rules::Ber };
    let inner = View::Extract {
        offset: 14,
        contents: false,
    };
    let found = b"14 B27 components are missing\n";
    expect_view(&rt, rt.alloc(), &check, false, found, 1, 1)?;
    expect_view(&rt, rt.alloc(), &check, true, b"", 0, 0)?;
    expect_view(&rt, rt.alloc(), &inner, false, b"\x28\x00", 0, 1)?;
    Ok(())
}

/// Offsets are written in the form that `--inside` takes.
#[test]
fn offsets_are_written(rt: HostRuntime) {
    for (offsets, want) in [
        ([].as_slice(), b"".as_slice()),
        (&[0, 2, 1099511627776], b"0,2,1099511627776\n"),
    ] {
        let mut room = [0; 64];
        let mut drain = MemDrain::new(&mut room, 3);
        expect_eq_of(&rt, offsets, write_offsets(offsets, &mut drain), Ok(()));
        expect_eq_of(&rt, offsets, drain.written(), want);
    }
}

/// A SEQUENCE of nine octets in all.
const OCTETS: &[u8] = b"\x30\x07\x02\x01\x05\x04\x02\xab\xcd";

/// Reads the octets into memory. The reads give pieces of the sizes in `cuts`, and the read `failing` fails. Checks the
/// octets, or the fault if one is wanted.
fn expect_read(
    rt: &impl Abort,
    alloc: Global,
    octets: &[u8],
    cuts: &[u64],
    failing: Option<u64>,
    want: Option<InputFault>,
) {
    let mut source = MemSource::new(octets, cuts, failing);
    match read_whole(alloc, &mut source) {
        Ok(read) => {
            expect_eq_of(rt, cuts, None, want);
            expect_eq_of(rt, cuts, read.as_slice(), octets);
        }
        Err(fault) => expect_eq_of(rt, cuts, Some(fault), want),
    }
}

/// All octets are read, whatever the pieces. The inputs have no octets, fewer than one read gives, exactly as many, and
/// more than two reads give.
#[test]
fn all_pieces_are_read(rt: HostRuntime) {
    let mut long = [0; 9000];
    long[4095] = 1;
    long[4096] = 2;
    long[8999] = 3;
    for cuts in [[].as_slice(), &[1], &[0, 3, 4], &[4096, 1, 4095]] {
        for octets in [b"".as_slice(), OCTETS, &long[..4096], &long] {
            expect_read(&rt, rt.alloc(), octets, cuts, None, None);
        }
    }
}

/// A failed read is reported, also if it is the read that finds the end. No read is made after the end.
#[test]
fn failed_reads_are_reported(rt: HostRuntime) {
    let failed = Some(InputFault::ReadFailed);
    for failing in 0..4 {
        expect_read(&rt, rt.alloc(), OCTETS, &[3, 4], Some(failing), failed);
    }
    expect_read(&rt, rt.alloc(), OCTETS, &[3, 4], Some(4), None);
}

/// Returns whether the octets are read with a heap of this size: `Some(true)` if they are, `Some(false)` if memory is
/// refused, and `None` otherwise.
fn has_memory(alloc: Global, size: usize) -> Option<bool> {
    let heap = LocalHeap::new(alloc, size).ok()?;
    let mut source = MemSource::new(OCTETS, &[5], None);
    match read_whole(&heap, &mut source) {
        Ok(read) if read.as_slice() == OCTETS => Some(true),
        Err(InputFault::Memory) => Some(false),
        _ => None,
    }
}

#[test]
fn refused_memory_is_reported(rt: HostRuntime) {
    let mut refused = false;
    let mut read = false;
    for size in 0..256 {
        let Some(has_memory) = has_memory(rt.alloc(), size) else {
            panic!(rt; "octets or refused memory");
        };
        refused |= !has_memory;
        read |= has_memory;
    }
    expect(
        &rt,
        refused && read,
        "memory is refused at some sizes and found at others",
    );
}

#[test]
fn a_fault_has_a_report(rt: HostRuntime) {
    let report = input_report(InputFault::Memory);
    expect_eq_of(&rt, "status", report.status, 5);
    let want = b"E8 out of memory".as_slice();
    expect_eq_of(&rt, "message", report.message.as_slice(), want);
}
