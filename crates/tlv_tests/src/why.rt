//! Tests of `tlv_reasons`: the reasons why octets do not parse.
use crate::expect::{expect_eq, expect_eq_of};
use crate::inputs::framing_of;
use tlv_head::{Class, Fault, FaultCode, Size};
use tlv_reasons::{Element, Unfinished, facts_of, first_sentence, reasons_of, write_sentences};
use tlv_walk::{Framing, MemDrain, WriteFault};

/// Returns an element with a header of two octets and a definite length.
fn element(offset: u64, number: u64, size: u64) -> Element {
    Element {
        offset,
        class: Class::Universal,
        number,
        size: Size::Definite(size),
        contents: offset.saturating_add(2),
        end: Some(offset.saturating_add(2).saturating_add(size)),
    }
}

/// The facts of an input that ends with the header of an OCTET STRING whose length is too great.
/// A NULL and a SEQUENCE precede it.
#[test]
fn facts_are_those_of_the_reading(rt: HostRuntime) {
    let octets = b"\x05\x00\x30\x06\x02\x01\x07\x04\x05\xaa";
    let facts = facts_of(octets, &Framing::plain());
    let holders = [element(2, 16, 6)];
    expect_eq_of(&rt, "holders", facts.holders.as_slice(), &holders);
    expect_eq_of(&rt, "before", facts.before, Some(element(4, 2, 1)));
    expect_eq_of(&rt, "top", facts.top, 2);
    expect_eq_of(&rt, "nearest", facts.nearest.as_slice(), &[4, 2, 0]);
    expect_eq_of(&rt, "next", facts.next, 7);
    expect_eq_of(&rt, "unfinished", facts.unfinished, Unfinished::Header);
    expect_eq_of(&rt, "there", facts.there, Some(element(7, 4, 5)));
}

/// A SEQUENCE in the OCTET STRING at offset 2. It has a length of 3 but only two contents octets.
const BROKEN_STRING: &[u8] = b"\x30\x06\x04\x04\x30\x03\x05\x00";

static REASONS: &[u8] = b"\
    The octet at offset 5 completes the header of the SEQUENCE at offset 4. The header at offset 4, 30 03, says that \
    its contents are 3 octets.\n\
    It would end at offset 9, but the OCTET STRING at offset 2 ends at offset 8. Missing there: 1 octet. The header \
    at offset 2, 04 04, says that its contents are 4 octets.\n\
    One of the two lengths is wrong, or octets between them are missing or were put in.\n\
    Try: fetch the input anew, in binary; or go on at the next record, with tail -c +M FILE, where M is its offset \
    and 1.\n";

#[test]
fn a_named_string_is_read(rt: HostRuntime) {
    let framing = framing_of(&rt, &[2], false);
    let facts = facts_of(BROKEN_STRING, &framing);
    let overrun = Fault {
        code: FaultCode::Overrun,
        offset: 5,
    };
    expect_eq(&rt, facts.fault, Some(overrun));
    let mut room = [0; 1024];
    let mut drain = MemDrain::new(&mut room, 7);
    let reasons = reasons_of(BROKEN_STRING, &facts);
    let sent = write_sentences(BROKEN_STRING, reasons.as_slice(), &mut drain);
    expect_eq(&rt, sent, Ok(()));
    expect_eq(&rt, drain.written(), REASONS);
}

#[test]
fn a_failed_write_is_returned(rt: HostRuntime) {
    let mut room = [0; 5];
    let mut drain = MemDrain::new(&mut room, 7);
    let facts = facts_of(BROKEN_STRING, &Framing::plain());
    let first = first_sentence(BROKEN_STRING, &facts);
    let sent = write_sentences(BROKEN_STRING, &[first], &mut drain);
    expect_eq(&rt, sent, Err(WriteFault));
    expect_eq(&rt, drain.written(), b"It pa");
}
