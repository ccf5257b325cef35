//! Tests of `tlv_text`: octets that are given as text.
use crate::expect::{expect_eq, expect_eq_of};
use base64::engine::general_purpose::STANDARD;
use std::alloc::Global;
use std::process::Abort;
use std::test::Fail;
use tlv_text::{
    Alphabet, Block, BlockState, Decoded, Form, PemBody, TextFault, after_mark, ascii_of_utf16,
    blocks_of, decode_base64, decode_dump, decode_numbers, decode_pairs, decode_tokens,
    first_block, first_run, has_tokens, lone_base64_block, lone_hex_block, pem_body,
};

/// Checks the octets decoded, and the number of characters before the one that is refused.
fn expect_decoded(rt: &impl Abort, got: &Decoded, octets: &[u8], refused: Option<usize>) {
    expect_eq(rt, got.octets.as_slice(), octets);
    expect_eq(rt, got.refused, refused);
}

#[test]
fn base64_is_decoded(rt: HostRuntime) -> Result<(), Fail> {
    let base64 = decode_base64(rt.alloc(), Alphabet::UrlSafe, b"-_-_*")?;
    expect_decoded(&rt, &base64, b"\xfb\xff\xbf", Some(4));
    Ok(())
}

#[test]
fn tokens_are_decoded(rt: HostRuntime) -> Result<(), Fail> {
    let text = b"{0x30, 0x03, 0x}".as_slice();
    expect_eq(&rt, has_tokens(text), true);
    let tokens = decode_tokens(rt.alloc(), text)?;
    expect_decoded(&rt, &tokens, b"\x30\x03", Some(13));
    Ok(())
}

#[test]
fn dumps_are_decoded(rt: HostRuntime) -> Result<(), Fail> {
    let dump = decode_dump(rt.alloc(), b"0000: 3003\n0002: 0201\n0005: 05\n")?;
    expect_decoded(&rt, &dump, b"\x30\x03\x02\x01", Some(22));
    Ok(())
}

#[test]
fn numbers_are_decoded(rt: HostRuntime) -> Result<(), Fail> {
    let Some(numbers) = decode_numbers(rt.alloc(), b"[1, 2, 300]")? else {
        panic!(rt; "there is a list");
    };
    expect_decoded(&rt, &numbers, b"\x01\x02", Some(7));
    Ok(())
}

/// Returns `count` octets, in which neighbours differ so that a lost or swapped octet is noticed.
fn some_octets(alloc: Global, count: usize) -> Result<Vec<u8>, Fail> {
    let mut octets = Vec::new(alloc);
    for i in 0..count {
        octets.push((i % 251) as u8)?;
    }
    Ok(octets)
}

/// Returns whether pairs and base64 of these octets give them again.
fn are_decoded(alloc: Global, octets: &[u8]) -> Result<bool, Fail> {
    let pairs = hex::encode(alloc, octets)?;
    let base64 = STANDARD.encode(alloc, octets)?;
    let of_pairs = decode_pairs(alloc, pairs.as_bytes())?;
    let of_base64 = decode_base64(alloc, Alphabet::Standard, base64.as_bytes())?;
    Ok(of_pairs.octets.as_slice() == octets && of_base64.octets.as_slice() == octets)
}

/// Long texts are decoded part by part. No octet is lost where parts meet.
#[test]
fn long_texts_are_decoded(rt: HostRuntime) -> Result<(), Fail> {
    for count in [2047, 2048, 2049, 3071, 3072, 3073, 10_000] {
        let octets = some_octets(rt.alloc(), count)?;
        let is_right = are_decoded(rt.alloc(), octets.as_slice())?;
        expect_eq_of(&rt, count, is_right, true);
    }
    Ok(())
}

/// A run of base64 in LDIF.
const RUN: &[u8] = b"jpeg:: AAAAAAAAAAAAAAAAAAAAAAAAAAAAAAAAAAAAAAAA==\nsn: x";

#[test]
fn parts_of_texts_are_found(rt: HostRuntime) {
    let block = match first_block(b"> -----BEGIN A B-----MAA=-----END A B-----") {
        Some(found) => Some((found.start, found.label, found.body, found.rest)),
        None => None,
    };
    let rest = b"-----END A B-----".as_slice();
    expect_eq(
        &rt,
        block,
        Some((2, b"A B".as_slice(), b"MAA=".as_slice(), rest)),
    );
    let body = match pem_body(b"\nVersion: x\n\nMAA=\n") {
        PemBody::Encrypted => None,
        PemBody::Base64(text) => Some(text),
    };
    expect_eq(&rt, body, Some(b"MAA=\n".as_slice()));
    let run = match first_run(RUN) {
        Some(run) => Some((run.start, run.rest)),
        None => None,
    };
    expect_eq(&rt, run, Some((7, b"\nsn: x".as_slice())));
    expect_eq(&rt, after_mark(b"\xef\xbb\xbf30"), b"30");
}

#[test]
fn utf16_is_decoded(rt: HostRuntime) -> Result<(), Fail> {
    let Some(ascii) = ascii_of_utf16(rt.alloc(), b"\xff\xfe3\x000\x00")? else {
        panic!(rt; "it is ASCII in UTF-16");
    };
    expect_eq(&rt, ascii.as_slice(), b"30");
    Ok(())
}

/// A block: its line, its label, its octets, and its state.
type BlockRow<'a> = (usize, &'a [u8], &'a [u8], BlockState);

/// Texts in each form, with their blocks.
static BLOCKS: [(Form, &[u8], &[BlockRow<'static>]); 6] = [
    (
        Form::Pem,
        b"x\n-----BEGIN A-----\nMAMC\n*\n-----END A-----\n-----BEGIN B-----\nMAA",
        &[
            (2, b"A", b"\x30\x03\x02", BlockState::Refused(4)),
            (6, b"B", b"\x30\x00", BlockState::Unended),
        ],
    ),
    (
        Form::Dump,
        b"00000000: 3003 0201 05  0....\n",
        &[(1, b"", b"\x30\x03\x02\x01\x05", BlockState::Whole)],
    ),
    (
        Form::Hex,
        b"30 03\n\nzz 05",
        &[(1, b"", b"\x30\x03", BlockState::Refused(3))],
    ),
    (
        Form::Numbers,
        b"[1] [2]",
        &[(1, b"", b"", BlockState::Absent)],
    ),
    (
        Form::Base64,
        b"MAMC\nAQU=\n",
        &[(1, b"", b"\x30\x03\x02\x01\x05", BlockState::Whole)],
    ),
    (
        Form::Runs,
        b"x\ny:: AAAAAAAAAAAAAAAAAAAAAAAAAAAAAAAAAAAAAAAA\n AA==\n",
        &[(2, b"", &[0; 31], BlockState::Whole)],
    ),
];

fn expect_block(rt: &impl Abort, block: &Block, want: BlockRow<'_>) {
    let (line, label, octets, state) = want;
    expect_eq_of(rt, octets, block.line, line);
    expect_eq_of(rt, octets, block.label.as_slice(), label);
    expect_eq_of(rt, octets, block.octets.as_slice(), octets);
    expect_eq_of(rt, octets, block.state, state);
}

/// Checks the blocks of a text in this form.
fn expect_blocks(
    rt: &impl Abort,
    alloc: Global,
    form: Form,
    text: &[u8],
    wants: &[BlockRow<'_>],
) -> Result<(), TextFault> {
    let blocks = blocks_of(alloc, form, text)?;
    expect_eq_of(rt, text, blocks.len(), wants.len());
    for (block, want) in blocks.iter().zip(wants) {
        expect_block(rt, block, *want);
    }
    Ok(())
}

#[test]
fn each_form_has_blocks(rt: HostRuntime) -> Result<(), Fail> {
    for (form, text, wants) in BLOCKS {
        expect_blocks(&rt, rt.alloc(), form, text, wants)?;
    }
    Ok(())
}

#[test]
fn lone_pairs_are_one_block(rt: HostRuntime) -> Result<(), Fail> {
    let Some(pairs) = lone_hex_block(rt.alloc(), b"30:03\n")? else {
        panic!(rt; "the pairs are alone");
    };
    expect_block(&rt, &pairs, (1, b"", b"\x30\x03", BlockState::Whole));
    Ok(())
}

#[test]
fn lone_base64_is_one_block(rt: HostRuntime) -> Result<(), Fail> {
    let Some(symbols) = lone_base64_block(rt.alloc(), b"MAMC\n")? else {
        panic!(rt; "the symbols are alone");
    };
    expect_block(&rt, &symbols, (1, b"", b"\x30\x03\x02", BlockState::Whole));
    Ok(())
}

/// A dump of more than 2^30 octets is refused, so that a short text cannot ask for so much memory.
#[test]
fn long_blocks_are_refused(rt: HostRuntime) {
    let text = b"0000000000  41 41 41 41 41 41 41 41 41 41 41 41 41 41 41 41\n*\n00ffffffff0\n";
    let fault = blocks_of(rt.alloc(), Form::Dump, text).err();
    expect_eq(&rt, fault, Some(TextFault::TooLong));
}
