//! Tests of the program `tlvdump-show` over files in memory: what it requests of the system, in which order, and what it
//! writes and reports.
use crate::expect::expect_eq_of;
use crate::system::MemSystem;
use arrayvec::ArrayVec;
use std::alloc::{AllocError, Global};
use std::process::Abort;
use std::test::Fail;
use tlv_program::{NoWords, UsageFault, Words};
use tlv_view_program::{FileNames, Streams, run_show};
use tlv_walk::{MemDrain, MemSource};

/// Standard input: an INTEGER.
const INPUT: &[u8] = b"\x02\x01\x05";

/// The words after the program's name, the places of names files, and the expected results. Standard output takes
/// `room` octets. If `typed` is set, standard input is a terminal.
#[derive(Clone, Copy)]
struct ShowRow<'a> {
    words: &'a [&'a str],
    places: &'a [&'a str],
    typed: bool,
    can_print: bool,
    room: usize,
    asked: &'a [u8],
    written: &'a [u8],
    said: &'a [u8],
    status: u8,
}

const NOTHING: ShowRow<'static> = ShowRow {
    words: &[],
    places: &["names"],
    typed: false,
    can_print: true,
    room: 1024,
    asked: b"",
    written: b"",
    said: b"",
    status: 0,
};

fn places_of(alloc: Global, list: &[&str]) -> Result<FileNames, AllocError> {
    let mut places = FileNames::new(alloc);
    for place in list {
        places.push(alloc, place)?;
    }
    Ok(places)
}

fn words_of(alloc: Global, list: &[&str]) -> Result<Words, UsageFault> {
    let mut words = Words::new(alloc);
    words.push("tlvdump-show")?;
    for word in list {
        words.push(word)?;
    }
    Ok(words)
}

fn expect_run(
    rt: &impl Abort,
    alloc: Global,
    words: &Result<Words, NoWords>,
    places: &FileNames,
    row: &ShowRow<'_>,
) {
    let mut output_room = [0; 1024];
    let mut message_room = [0; 1024];
    let mut streams = Streams {
        system: MemSystem {
            can_print: row.can_print,
            asked: ArrayVec::new(),
        },
        input: MemSource::new(INPUT, &[], None),
        output: MemDrain::new(&mut output_room[..row.room.min(1024)], 4096),
        messages: MemDrain::new(&mut message_room, 4096),
    };
    let status = run_show(alloc, words, places, row.typed, &mut streams);
    expect_eq_of(rt, row.words, streams.system.asked.as_slice(), row.asked);
    expect_eq_of(rt, row.words, streams.output.written(), row.written);
    expect_eq_of(rt, row.words, streams.messages.written(), row.said);
    expect_eq_of(rt, row.words, status, row.status);
}

fn expect_row(rt: &impl Abort, alloc: Global, row: &ShowRow<'_>) -> Result<(), Fail> {
    let words = words_of(alloc, row.words)?;
    let places = places_of(alloc, row.places)?;
    expect_run(rt, alloc, &Ok(words), &places, row);
    Ok(())
}

fn expect_rows(rt: &impl Abort, alloc: Global, rows: &[ShowRow<'_>]) -> Result<(), Fail> {
    for row in rows {
        expect_row(rt, alloc, row)?;
    }
    Ok(())
}

/// Each file is read in full and then closed. Without a file, and for `-`, standard input is read.
/// A names file is read first.
static SHOWN: [ShowRow<'static>; 9] = [
    ShowRow {
        asked: b"n;",
        written: b"       0      1: INTEGER 5\n",
        ..NOTHING
    },
    ShowRow {
        typed: true,
        asked: b"n;",
        written: b"       0      1: INTEGER 5\n",
        said: b"standard input is read, up to Ctrl-D\n",
        ..NOTHING
    },
    ShowRow {
        words: &["-"],
        typed: true,
        asked: b"n;",
        written: b"       0      1: INTEGER 5\n",
        ..NOTHING
    },
    ShowRow {
        words: &["string"],
        asked: b"n;s;",
        written: b"       0      2: OCTET STRING wraps {\n       2      0:   NULL\n                 }\n",
        ..NOTHING
    },
    ShowRow {
        words: &["--closed", "string"],
        asked: b"n;s;",
        written: b"       0      2: OCTET STRING 05 00\n",
        ..NOTHING
    },
    ShowRow {
        words: &["text"],
        asked: b"n;t;",
        written: b"       0      3: [0] 61 62 63  |abc|\n",
        ..NOTHING
    },
    ShowRow {
        words: &["--no-text", "text"],
        asked: b"n;t;",
        written: b"       0      3: [0] 61 62 63\n",
        ..NOTHING
    },
    ShowRow {
        words: &["--offset", "2", "string"],
        asked: b"s;",
        written: b"\x05\x00",
        ..NOTHING
    },
    ShowRow {
        words: &["--offsets", "string"],
        asked: b"s;",
        written: b"0\n",
        ..NOTHING
    },
];

#[test]
fn files_are_shown(rt: HostRuntime) -> Result<(), Fail> {
    expect_rows(&rt, rt.alloc(), &SHOWN)
}

/// Each of several files has a title. A message about a file begins with the name of the file.
/// The status is the highest of all.
static SEVERAL: [ShowRow<'static>; 3] = [
    ShowRow {
        words: &["--check", "null", "missing", "null"],
        asked: b"n;mn;",
        written: b"# block 1 of 3: null\n# block 2 of 3: missing\n# block 3 of 3: null\n",
        said: b"missing: E5 cannot open the file: no such file\n",
        status: 3,
        ..NOTHING
    },
    ShowRow {
        words: &["--pure", "null", "-"],
        asked: b"n;n;",
        written: b"# block 1 of 2: null\nNULL\n# block 2 of 2: standard input\nINTEGER 5\n",
        ..NOTHING
    },
    ShowRow {
        words: &["--check", "\u{e9}\n"],
        asked: b"\xc3",
        said: b"???: E5 cannot open the file: no such file\n",
        status: 3,
        ..NOTHING
    },
];

#[test]
fn several_files_are_shown(rt: HostRuntime) -> Result<(), Fail> {
    expect_rows(&rt, rt.alloc(), &SEVERAL)
}

/// The first fault of the words and the names files is reported. After it nothing is requested.
static FIRST_REFUSALS: [ShowRow<'static>; 7] = [
    ShowRow {
        words: &["--names", "missing", "null"],
        asked: b"m",
        said: b"N5 names file not read\n",
        status: 4,
        ..NOTHING
    },
    ShowRow {
        words: &["null"],
        places: &["missing", "bad names"],
        asked: b"mb;",
        said: b"N1 line 1: not an object identifier\n",
        status: 4,
        ..NOTHING
    },
    ShowRow {
        words: &["null"],
        places: &["missing"],
        asked: b"mn;",
        written: b"       0      0: NULL\n",
        said: b"no names file was found: object identifiers have no names\n",
        ..NOTHING
    },
    ShowRow {
        words: &["--limit", "x", "null"],
        said: b"U2 value out of range: --limit (0 to 4294967295)\n",
        status: 4,
        ..NOTHING
    },
    ShowRow {
        words: &["--help"],
        asked: b"!",
        ..NOTHING
    },
    ShowRow {
        words: &["--version"],
        can_print: false,
        asked: b"!",
        said: b"E2 write failed\n",
        status: 3,
        ..NOTHING
    },
    ShowRow {
        words: &["--nonsense"],
        asked: b"!",
        status: 4,
        ..NOTHING
    },
];

#[test]
fn first_refusal_is_said(rt: HostRuntime) -> Result<(), Fail> {
    expect_rows(&rt, rt.alloc(), &FIRST_REFUSALS)
}

/// All files are read before anything is written. After a failed write no further block is shown.
static FAILED_WRITES: [ShowRow<'static>; 2] = [
    ShowRow {
        words: &["--pure", "null", "null"],
        room: 23,
        asked: b"n;n;n;",
        written: b"# block 1 of 2: null\nNU",
        said: b"null: E2 write failed\n",
        status: 3,
        ..NOTHING
    },
    ShowRow {
        words: &["--check", "null", "null"],
        room: 3,
        asked: b"n;n;",
        written: b"# b",
        said: b"null: E2 write failed\n",
        status: 3,
        ..NOTHING
    },
];

#[test]
fn failed_writes_end_the_run(rt: HostRuntime) -> Result<(), Fail> {
    expect_rows(&rt, rt.alloc(), &FAILED_WRITES)
}

/// The messages about the file `pem`.
const PEM_NOTES: &[u8] = b"pem: block 1: taken for PEM, A\npem: block 2: taken for PEM, B C\n";

/// The blocks of all files are numbered together. For each text the program reports what it was taken for.
static TEXTS: [ShowRow<'static>; 5] = [
    ShowRow {
        words: &["pem"],
        asked: b"n;p;",
        written: b"# block 1 of 2: A\n       0      0: NULL\n# block 2 of 2: B C\n       0      1: INTEGER 5\n",
        said: PEM_NOTES,
        ..NOTHING
    },
    ShowRow {
        words: &["--raw", "pem"],
        asked: b"p;",
        written: b"\x05\x00\x02\x01\x05",
        said: PEM_NOTES,
        ..NOTHING
    },
    ShowRow {
        words: &["--pure", "null", "hex"],
        asked: b"n;n;h;",
        written: b"# block 1 of 2: null\nNULL\n# block 2 of 2: hex\nINTEGER 5\n",
        said: b"hex: taken for hexadecimal\n",
        ..NOTHING
    },
    ShowRow {
        words: &["--check", "null", "pem"],
        asked: b"n;p;",
        written: b"# block 1 of 3: null\n# block 2 of 3: pem: A\n# block 3 of 3: pem: B C\n",
        said: b"pem: block 2: taken for PEM, A\npem: block 3: taken for PEM, B C\n",
        ..NOTHING
    },
    ShowRow {
        words: &["--pure", "pem"],
        room: 20,
        asked: b"n;p;",
        written: b"# block 1 of 2: A\nNU",
        said: b"pem: block 1: taken for PEM, A\npem: block 1: E2 write failed\n",
        status: 3,
        ..NOTHING
    },
];

#[test]
fn blocks_are_shown(rt: HostRuntime) -> Result<(), Fail> {
    expect_rows(&rt, rt.alloc(), &TEXTS)
}

/// What `--why` writes of the file `broken`.
const BROKEN_TEXT: &[u8] = b"It parses: 12 octets, which are whole encodings.\n\
    By the rules of BER: findings: 0. By those of DER: findings: 0.\n\
    The string at 7 is the value of an extension and breaks at 10: \
    F11 element runs past the enclosing length.\n\
    If the header at offset 9 said 1 octet and not 2, all would parse.\n\
    The octet at offset 10 completes the header of the BIT STRING at offset 9. \
    The header at offset 9, 03 02, says that its contents are 2 octets.\n\
    It would end at offset 13, but the OCTET STRING at offset 7 ends at offset 12. Missing there: 1 octet. \
    The header at offset 7, 04 03, says that its contents are 3 octets.\n\
    One of the two lengths is wrong, or octets between them are missing or were put in.\n\
    Try: fetch the input anew, in binary; or go on at the next record, with tail -c +M FILE, \
    where M is its offset and 1.\n";

/// The messages about the file `damaged`.
const DAMAGED_LINES: &[u8] = b"damaged: fault at 3: F11 element runs past the enclosing length\n\
    If the header at offset 2 said 1 octet and not 2, all would parse.\n\
    The octet at offset 3 completes the header of the INTEGER at offset 2. \
    The header at offset 2, 02 02, says that its contents are 2 octets.\n\
    It would end at offset 6, but the SEQUENCE at offset 0 ends at offset 5. Missing there: 1 octet. \
    The header at offset 0, 30 03, says that its contents are 3 octets.\n\
    One of the two lengths is wrong, or octets between them are missing or were put in.\n\
    Try: fetch the input anew, in binary; or go on at the next record, with tail -c +M FILE, \
    where M is its offset and 1.\n";

/// A text that is refused is reported, and the octets decoded before the refusal are shown. The reasons of a broken
/// string are part of the output with `--why`, and those of a fault follow its message.
static EXPLAINED: [ShowRow<'static>; 6] = [
    ShowRow {
        words: &["letter"],
        asked: b"n;l;",
        said: b"letter: X1 text of no form that is known: \"Dear Sir,\"; known are PEM, hex dumps, \
            hexadecimal, decimal numbers and base64\n",
        status: 4,
        ..NOTHING
    },
    ShowRow {
        words: &["encrypted"],
        asked: b"n;e;",
        said: b"encrypted: taken for PEM, A; X3 it is encrypted\n",
        status: 4,
        ..NOTHING
    },
    ShowRow {
        words: &["--pure", "wrong"],
        asked: b"n;w;",
        written: b"INTEGER 5\n",
        said: b"wrong: taken for PEM, A; X2 refused in line 2, where base64 is expected\n",
        status: 4,
        ..NOTHING
    },
    ShowRow {
        words: &["--why", "broken"],
        asked: b"b;",
        written: BROKEN_TEXT,
        said: b"broken: string at 7 is the value of an extension and breaks at 10: \
            F11 element runs past the enclosing length\n",
        status: 1,
        ..NOTHING
    },
    ShowRow {
        words: &["--check", "--closed", "broken"],
        asked: b"b;",
        ..NOTHING
    },
    ShowRow {
        words: &["--check", "damaged"],
        asked: b"d;",
        said: DAMAGED_LINES,
        status: 2,
        ..NOTHING
    },
];

#[test]
fn refusals_and_faults_are_explained(rt: HostRuntime) -> Result<(), Fail> {
    expect_rows(&rt, rt.alloc(), &EXPLAINED)
}

/// If there are no words, the reason is reported and nothing is requested.
#[test]
fn missing_words_are_said(rt: HostRuntime) -> Result<(), Fail> {
    let not_utf8 = ShowRow {
        said: b"U1 an argument is not UTF-8\n",
        status: 4,
        ..NOTHING
    };
    let memory = ShowRow {
        said: b"U3 out of memory\n",
        status: 5,
        ..NOTHING
    };
    let places = places_of(rt.alloc(), NOTHING.places)?;
    expect_run(&rt, rt.alloc(), &Err(NoWords::NotUtf8), &places, &not_utf8);
    expect_run(&rt, rt.alloc(), &Err(NoWords::Memory), &places, &memory);
    Ok(())
}
