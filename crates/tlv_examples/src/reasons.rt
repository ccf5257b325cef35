//! Examples of how to explain octets that do not parse.
use crate::expect::expect_eq;
use std::test::Fail;
use tlv_reasons::{Bounds, WrongLength, facts_of, first_sentence, write_sentences, wrong_lengths};
use tlv_walk::{Framing, MemDrain};

/// tlv_reasons: writes whether octets parse.
#[test]
fn say_why_octets_do_not_parse(rt: HostRuntime) {
    let octets = b"\x05\x00";
    let mut room = [0; 128];
    let mut drain = MemDrain::new(&mut room, 128);
    let facts = facts_of(octets, &Framing::plain());
    let first = first_sentence(octets, &facts);
    let sent = write_sentences(octets, &[first], &mut drain);
    expect_eq(&rt, sent.is_ok(), true);
    expect_eq(
        &rt,
        drain.written(),
        b"It parses: 2 octets, which are whole encodings.\n",
    );
}

/// tlv_reasons: finds the length to correct. The INTEGER at offset 2 has a length of 2 but only one contents octet.
#[test]
fn find_the_wrong_length(rt: HostRuntime) -> Result<(), Fail> {
    let octets = b"\x30\x03\x02\x02\x01";
    let wanted = WrongLength {
        offset: 2,
        said: 2,
        would: 1,
    };
    let plain = Framing::plain();
    let found = wrong_lengths(rt.alloc(), octets, &plain, Bounds::whole(octets), &[], &[2])?;
    expect_eq(&rt, found.as_slice(), &[wanted]);
    Ok(())
}
