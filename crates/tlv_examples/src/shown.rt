//! Examples of values, dumps, findings and extracted elements.
use crate::expect::expect_eq;
use arrayvec::ArrayVec;
use tlv_run::{extract, indef};
use tlv_show::{Options, Rules, check, dump};
use tlv_value::{Names, decimal_of, dotted_of};
use tlv_walk::{Framing, MemDrain, MemSource};

/// A SEQUENCE that holds an INTEGER.
const INPUT: &[u8] = b"\x30\x03\x02\x01\x05";

/// tlv_value: returns the number of an INTEGER and the dotted text of an OBJECT IDENTIFIER.
#[test]
fn show_values(rt: HostRuntime) {
    expect_eq(&rt, decimal_of(b"\xff\x7f"), Some(-129));
    let mut text = ArrayVec::new();
    expect_eq(&rt, dotted_of(b"\x55\x04\x03", false, &mut text), true);
    expect_eq(&rt, text.as_slice(), b"2.5.4.3");
}

/// tlv_show: writes the dump of octets in memory to memory.
#[test]
fn dump_a_slice(rt: HostRuntime) {
    let mut room = [0; 128];
    let mut source = MemSource::new(INPUT, &[], None);
    let mut drain = MemDrain::new(&mut room, 128);
    let options = Options {
        rules: Rules::Ber,
        limit: None,
        pure: false,
        framing: Framing::plain(),
    };
    let outcome = dump(&mut source, &mut drain, &options, &Names::empty());
    expect_eq(&rt, outcome.is_ok(), true);
    let lines: &[u8] =
        b"       0      3: SEQUENCE {\n       2      1:   INTEGER 5\n                 }\n";
    expect_eq(&rt, drain.written(), lines);
}

/// tlv_show: writes the findings of CER and returns how many there are.
#[test]
fn check_a_slice(rt: HostRuntime) {
    let mut room = [0; 64];
    let mut source = MemSource::new(INPUT, &[], None);
    let mut drain = MemDrain::new(&mut room, 64);
    let outcome = check(&mut source, &mut drain, Rules::Cer, &Framing::plain());
    expect_eq(&rt, outcome.map(|it| it.findings), Ok(1));
    expect_eq(
        &rt,
        drain.written(),
        b"0 C01 definite length of a constructed element\n",
    );
}

/// tlv_run: writes the element at offset 2.
#[test]
fn cut_an_element_out(rt: HostRuntime) {
    let mut room = [0; 8];
    let mut source = MemSource::new(INPUT, &[], None);
    let mut drain = MemDrain::new(&mut room, 8);
    let cut = extract(&mut source, &mut drain, 2, false, &Framing::plain());
    expect_eq(&rt, cut.is_ok(), true);
    expect_eq(&rt, drain.written(), b"\x02\x01\x05");
}

/// tlv_run: writes the input with lengths in the indefinite form.
#[test]
fn write_indefinite_lengths(rt: HostRuntime) {
    let mut room = [0; 8];
    let mut source = MemSource::new(INPUT, &[], None);
    let mut drain = MemDrain::new(&mut room, 8);
    let ending = indef(&mut source, &mut drain, false);
    expect_eq(&rt, ending.is_ok(), true);
    expect_eq(&rt, drain.written(), b"\x30\x80\x02\x01\x05\x00\x00");
}
