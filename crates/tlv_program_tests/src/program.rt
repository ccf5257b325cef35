//! Tests of the program over files in memory: what it requests of
//! the system, in which order, and what it writes and reports.
use crate::expect::expect_eq_of;
use crate::system::MemSystem;
use arrayvec::ArrayVec;
use std::alloc::Global;
use std::process::Abort;
use std::test::Fail;
use tlv_program::{NoWords, UsageFault, Words, run_program};
use tlv_walk::{MemDrain, MemSource};

/// Standard input: a NULL.
const INPUT: &[u8] = b"\x05\x00";

/// The words after the program's name, and the expected results.
#[derive(Clone, Copy)]
struct ProgramRow<'a> {
    words: &'a [&'a str],
    can_print: bool,
    asked: &'a [u8],
    written: &'a [u8],
    status: u8,
    message: &'a [u8],
}

const NOTHING: ProgramRow<'static> = ProgramRow {
    words: &[],
    can_print: true,
    asked: b"",
    written: b"",
    status: 0,
    message: b"",
};

fn words_of(alloc: Global, list: &[&str]) -> Result<Words, UsageFault> {
    let mut words = Words::new(alloc);
    words.push("tlvdump")?;
    for word in list {
        words.push(word)?;
    }
    Ok(words)
}

fn expect_program(
    rt: &impl Abort,
    alloc: Global,
    words: &Result<Words, NoWords>,
    row: &ProgramRow<'_>,
) {
    let mut room = [0; 128];
    let mut input = MemSource::new(INPUT, &[], None);
    let mut output = MemDrain::new(&mut room, 4096);
    let mut system = MemSystem {
        can_print: row.can_print,
        asked: ArrayVec::new(),
    };
    let report = run_program(alloc, words, &mut system, &mut input, &mut output);
    expect_eq_of(rt, row.words, system.asked.as_slice(), row.asked);
    expect_eq_of(rt, row.words, output.written(), row.written);
    expect_eq_of(rt, row.words, report.status, row.status);
    expect_eq_of(rt, row.words, report.message.as_slice(), row.message);
}

fn expect_row(rt: &impl Abort, alloc: Global, row: &ProgramRow<'_>) -> Result<(), Fail> {
    let words = words_of(alloc, row.words)?;
    expect_program(rt, alloc, &Ok(words), row);
    Ok(())
}

fn expect_rows(rt: &impl Abort, alloc: Global, rows: &[ProgramRow<'_>]) -> Result<(), Fail> {
    for row in rows {
        expect_row(rt, alloc, row)?;
    }
    Ok(())
}

/// The input is the named file or standard input. A names file is read and closed before the input is opened.
static READ: [ProgramRow<'static>; 4] = [
    ProgramRow {
        words: &["dump"],
        written: b"       0      0: NULL\n",
        ..NOTHING
    },
    ProgramRow {
        words: &["dump", "integer"],
        asked: b"i;",
        written: b"       0      1: INTEGER 5\n",
        ..NOTHING
    },
    ProgramRow {
        words: &["dump", "--names", "names", "object"],
        asked: b"n;o;",
        written: b"       0      2: OBJECT IDENTIFIER 1.2.3 (word)\n",
        ..NOTHING
    },
    ProgramRow {
        words: &["extract", "--offset", "0", "--contents", "integer"],
        asked: b"i;",
        written: b"\x05",
        ..NOTHING
    },
];

#[test]
fn files_are_read(rt: HostRuntime) -> Result<(), Fail> {
    expect_rows(&rt, rt.alloc(), &READ)
}

/// The first fault of the words, the names file and the input is reported. After it nothing is requested.
static FIRST_REFUSALS: [ProgramRow<'static>; 5] = [
    ProgramRow {
        words: &["check", "missing"],
        asked: b"m",
        status: 3,
        message: b"E5 cannot open the file",
        ..NOTHING
    },
    ProgramRow {
        words: &["dump", "--names", "names", "missing"],
        asked: b"n;m",
        status: 3,
        message: b"E5 cannot open the file",
        ..NOTHING
    },
    ProgramRow {
        words: &["dump", "--names", "missing", "integer"],
        asked: b"m",
        status: 4,
        message: b"N5 names file not read",
        ..NOTHING
    },
    ProgramRow {
        words: &["dump", "--names", "bad names", "missing"],
        asked: b"b;",
        status: 4,
        message: b"N1 line 1: not an object identifier",
        ..NOTHING
    },
    ProgramRow {
        words: &["dump", "--limit", "x", "--names", "missing", "missing"],
        status: 4,
        message: b"U2 value out of range: --limit",
        ..NOTHING
    },
];

#[test]
fn first_refusal_is_reported(rt: HostRuntime) -> Result<(), Fail> {
    expect_rows(&rt, rt.alloc(), &FIRST_REFUSALS)
}

/// A text of `clap` is printed. If printing fails, help and the
/// version report a failed write, and a usage error keeps its status.
static PRINTED: [ProgramRow<'static>; 4] = [
    ProgramRow {
        words: &["--help"],
        asked: b"!",
        ..NOTHING
    },
    ProgramRow {
        words: &["--help"],
        can_print: false,
        asked: b"!",
        status: 3,
        message: b"E2 write failed",
        ..NOTHING
    },
    ProgramRow {
        words: &["nonsense"],
        asked: b"!",
        status: 4,
        ..NOTHING
    },
    ProgramRow {
        words: &["nonsense"],
        can_print: false,
        asked: b"!",
        status: 4,
        ..NOTHING
    },
];

#[test]
fn texts_of_clap_are_printed(rt: HostRuntime) -> Result<(), Fail> {
    expect_rows(&rt, rt.alloc(), &PRINTED)
}

/// If there are no words, the reason is reported and nothing is requested.
#[test]
fn missing_words_are_reported(rt: HostRuntime) {
    let not_utf8 = ProgramRow {
        status: 4,
        message: b"U1 an argument is not UTF-8",
        ..NOTHING
    };
    let memory = ProgramRow {
        status: 5,
        message: b"U3 out of memory",
        ..NOTHING
    };
    expect_program(&rt, rt.alloc(), &Err(NoWords::NotUtf8), &not_utf8);
    expect_program(&rt, rt.alloc(), &Err(NoWords::Memory), &memory);
}
