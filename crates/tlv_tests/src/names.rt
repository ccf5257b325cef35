//! Tests of names files: names that are found, reads that fail, and memory that is refused.
use crate::expect::{expect, expect_eq_of};
use linked_list_allocator::LocalHeap;
use std::alloc::Global;
use tlv_value::{Names, NamesFault};
use tlv_walk::MemSource;

/// A comment and an entry, 23 octets in all.
const FILE: &[u8] = b"# x\n2.5.4.3 commonName\n";

/// Reads a names file of these octets. The reads give pieces of the sizes in `cuts`, and the read `failing` fails.
/// Returns the fault, if there is one.
fn refusal(alloc: Global, octets: &[u8], cuts: &[u64], failing: Option<u64>) -> Option<NamesFault> {
    let mut source = MemSource::new(octets, cuts, failing);
    Names::read(alloc, &mut source).err()
}

/// A failed read is returned, also if it is the read that finds the end. It takes precedence over the fault of a line.
/// No read is made after the end.
#[test]
fn reads_fail(rt: HostRuntime) {
    for failing in 0..24 {
        let fault = refusal(rt.alloc(), FILE, &[1; 24], Some(failing));
        expect_eq_of(&rt, failing, fault, Some(NamesFault::ReadFailed));
    }
    for (octets, cuts, failing, want) in [
        (FILE, [1; 24].as_slice(), 24, None),
        (b"1.40 x", &[3], 1, Some(NamesFault::ReadFailed)),
        (b"\n1.40 x", &[3], 3, Some(NamesFault::BadOid(2))),
    ] {
        let fault = refusal(rt.alloc(), octets, cuts, Some(failing));
        expect_eq_of(&rt, octets, fault, want);
    }
}

/// Returns whether the names file is read with a heap of this size: `Some(true)` if its name is found, `Some(false)` if
/// memory is refused, and `None` otherwise.
fn fits(alloc: Global, size: usize) -> Option<bool> {
    let heap = LocalHeap::new(alloc, size).ok()?;
    let mut source = MemSource::new(FILE, &[5], None);
    match Names::read(&heap, &mut source) {
        Ok(names) if names.get(b"2.5.4.3") == Some(b"commonName".as_slice()) => Some(true),
        Err(NamesFault::Memory) => Some(false),
        _ => None,
    }
}

#[test]
fn memory_is_refused_or_enough(rt: HostRuntime) {
    let mut refused = false;
    let mut found = false;
    for size in 0..4096 {
        let Some(fits) = fits(rt.alloc(), size) else {
            panic!(rt; "names and faults");
        };
        refused |= !fits;
        found |= fits;
    }
    expect(
        &rt,
        refused && found,
        "memory is refused at some sizes and found at others",
    );
}
