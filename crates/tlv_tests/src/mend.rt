//! Tests of `tlv_reasons`: the single changes that would make an input parse.
use crate::expect::expect_eq;
use std::process::Abort;
use std::test::Fail;
use tlv_reasons::{
    Bounds, Chain, Doubled, FileKind, Move, NextRecord, OctetChange, OutermostKinds, Reasons,
    Spacing, TextChange, Trace, WrongLength, all_reasons, doubled_block, facts_of, file_kind,
    latin1_of_utf8, laws, length_chain, next_record, next_start, octet_change, octets_moved,
    outermost_kinds, spaced_encodings, string_reasons, text_change, trace_of, undone_line_ends,
    undone_utf8, write_sentences, wrong_lengths,
};
use tlv_walk::{Framing, MemDrain};

/// A SEQUENCE that holds an INTEGER. The INTEGER has a length of 2 but only one contents octet.
const TOO_LONG: &[u8] = b"\x30\x03\x02\x02\x01";

/// A SEQUENCE of 6 octets that holds an INTEGER of 2, which has one, and a NULL.
const ONE_MISSING: &[u8] = b"\x30\x06\x02\x02\x01\x05\x00";

/// Three records. In the second a header is refused, and a constructed element follows that header.
const RECORDS: &[u8] = b"\x30\x03\x02\x01\x05\x30\x06\xa0\x04\x04\xff\x30\x00\x30\x03\x02\x01\x07";

#[test]
fn another_length_is_found(rt: HostRuntime) -> Result<(), Fail> {
    let plain = Framing::plain();
    let facts = facts_of(TOO_LONG, &plain);
    let holders = facts.holders.as_slice();
    let bounds = Bounds::whole(TOO_LONG);
    let found = wrong_lengths(rt.alloc(), TOO_LONG, &plain, bounds, holders, &[2, 0])?;
    let lengths: &[WrongLength] = &[WrongLength {
        offset: 2,
        said: 2,
        would: 1,
    }];
    expect_eq(&rt, found.as_slice(), lengths);
    Ok(())
}

#[test]
fn a_missing_octet_is_found(rt: HostRuntime) -> Result<(), Fail> {
    let plain = Framing::plain();
    let missing = octet_change(rt.alloc(), ONE_MISSING, &plain, &[2, 0], None)?;
    expect_eq(&rt, missing, Some(OctetChange::Missing(2)));
    Ok(())
}

/// A SEQUENCE in a SEQUENCE, with an OCTET STRING that has an octet more than both say.
const ONE_MORE: &[u8] = b"\x30\x06\x30\x04\x04\x03abc";

#[test]
fn lengths_that_are_wrong_together_are_found(rt: HostRuntime) -> Result<(), Fail> {
    let facts = facts_of(ONE_MORE, &Framing::plain());
    let found = length_chain(rt.alloc(), ONE_MORE, false, &facts, &[4])?;
    let wanted = Chain {
        offsets: [0, 2, 0, 0, 0, 0, 0, 0],
        count: 2,
        by: 1,
        is_greater: true,
    };
    expect_eq(&rt, found, Some(wanted));
    Ok(())
}

/// A SEQUENCE that holds a SEQUENCE, with an OCTET STRING, and a NULL. The octets `ab` of the string stand twice.
const TWICE: &[u8] = b"\x30\x09\x30\x05\x04\x03ababc\x05\x00";

#[test]
fn a_block_that_stands_twice_is_found(rt: HostRuntime) -> Result<(), Fail> {
    let facts = facts_of(TWICE, &Framing::plain());
    let found = doubled_block(rt.alloc(), TWICE, false, &facts)?;
    expect_eq(&rt, found, Some(Doubled { offset: 6, size: 2 }));
    Ok(())
}

/// An OCTET STRING of 253 octets `00`, with each bit inverted.
#[test]
fn inverted_bits_are_found(rt: HostRuntime) -> Result<(), Fail> {
    let mut octets = [0xff; 256];
    octets[0] = 0xfb;
    octets[1] = 0x7e;
    octets[2] = 0x02;
    expect_eq(
        &rt,
        octets_moved(rt.alloc(), &octets, false)?,
        Some(Move::Inverted),
    );
    Ok(())
}

#[test]
fn what_shows_a_text_is_found(rt: HostRuntime) {
    let octets = b"\x30\xc3\xbf\xc3\xbf\xc3\xbf\xc3\xbf\xc3\xbf\xc3\xbf\xc3\xbf\xc3\xbf";
    expect_eq(&rt, trace_of(octets), Some(Trace::AsUtf8(8)));
    let wanted = Spacing {
        first: 0,
        end: 2,
        gap: 1,
        count: 2,
    };
    expect_eq(&rt, spaced_encodings(b"\x30\x00\x0a\x30\x00"), Some(wanted));
}

#[test]
fn what_was_done_to_a_text_is_found(rt: HostRuntime) -> Result<(), Fail> {
    let utf8 = b"\x04\x01\xc3\xa9";
    let change = text_change(rt.alloc(), utf8, false)?;
    expect_eq(&rt, change, Some(TextChange::Utf8));
    expect_eq(&rt, undone_utf8(rt.alloc(), utf8, false)?, true);
    let line_ends = b"\x04\x01\x0d\x0a";
    expect_eq(&rt, undone_line_ends(rt.alloc(), line_ends, false)?, true);
    Ok(())
}

#[test]
fn characters_of_latin1_are_found(rt: HostRuntime) -> Result<(), Fail> {
    let Some(octets) = latin1_of_utf8(rt.alloc(), b"a\xc3\xa9")? else {
        panic!(rt; "the characters are of Latin-1");
    };
    expect_eq(&rt, octets.as_slice(), b"a\xe9");
    Ok(())
}

#[test]
fn another_start_is_found(rt: HostRuntime) {
    let behind_three = b"\x00\x00\x00\x30\x08\x02\x01\x05\x02\x03\x01\x02\x03";
    expect_eq(&rt, next_start(behind_three, false, 0, 0), Some(3));
    let record = next_record(RECORDS, false, 10, 5, None, None, 1 << 24);
    let wanted = NextRecord {
        offset: 13,
        fault: None,
    };
    expect_eq(&rt, record, Some(wanted));
}

#[test]
fn outermost_elements_of_many_kinds_are_counted(rt: HostRuntime) {
    let wanted = OutermostKinds {
        elements: 4,
        kinds: 3,
        primitives: 3,
    };
    let many = b"\x05\x00\x04\x00\x30\x00\x05\x00";
    expect_eq(&rt, outermost_kinds(many, false), Some(wanted));
    expect_eq(&rt, outermost_kinds(b"\x05\x00\x04\x00", false), None);
}

const LENGTH: &[u8] = b"If the header at offset 2 said 1 octet and not 2, all would parse.\n";

/// Writes these sentences about [`TOO_LONG`], and checks that this line is the first one.
fn expect_first(rt: &impl Abort, reasons: &Reasons, line: &[u8]) {
    let mut room = [0; 1024];
    let mut drain = MemDrain::new(&mut room, 5);
    let sent = write_sentences(TOO_LONG, reasons.as_slice(), &mut drain);
    expect_eq(rt, sent, Ok(()));
    expect_eq(rt, drain.written().starts_with(line), true);
}

#[test]
fn all_reasons_are_found(rt: HostRuntime) -> Result<(), Fail> {
    let facts = facts_of(TOO_LONG, &Framing::plain());
    let reasons = all_reasons(rt.alloc(), TOO_LONG, false, &facts, 1 << 24)?;
    expect_first(&rt, &reasons, LENGTH);
    Ok(())
}

#[test]
fn another_kind_of_file_is_the_only_reason(rt: HostRuntime) -> Result<(), Fail> {
    let gzip = b"\x1f\x8b\x08";
    expect_eq(&rt, file_kind(gzip), Some(FileKind::Gzip));
    let facts = facts_of(gzip, &Framing::plain());
    let reasons = all_reasons(rt.alloc(), gzip, false, &facts, 1 << 24)?;
    expect_eq(&rt, reasons.len(), 1);
    Ok(())
}

#[test]
fn the_length_that_mends_a_string_is_found(rt: HostRuntime) -> Result<(), Fail> {
    let plain = Framing::plain();
    let facts = facts_of(TOO_LONG, &plain);
    let reasons = string_reasons(rt.alloc(), TOO_LONG, &plain, 0, &facts)?;
    expect_first(&rt, &reasons, LENGTH);
    Ok(())
}

/// In an OCTET STRING in a SEQUENCE one bit of the length is wrong: 9 in place of 1.
#[test]
fn a_length_with_a_wrong_bit_is_found(rt: HostRuntime) -> Result<(), Fail> {
    let octets = b"\x30\x05\x04\x09\x07\x05\x00";
    let plain = Framing::plain();
    let facts = facts_of(octets, &plain);
    let holders = facts.holders.as_slice();
    let found = wrong_lengths(
        rt.alloc(),
        octets,
        &plain,
        Bounds::whole(octets),
        holders,
        &[2],
    )?;
    let wanted = WrongLength {
        offset: 2,
        said: 9,
        would: 1,
    };
    expect_eq(&rt, found.as_slice(), &[wanted]);
    Ok(())
}

#[test]
fn the_laws_may_be_called(_rt: HostRuntime) {
    laws::inputs_have_one_wrong_length();
    laws::inputs_have_one_octet_change();
    laws::inputs_have_one_chain();
    laws::inputs_have_one_next_record();
    laws::other_lengths_make_headers();
    laws::sentences_are_shown();
}
