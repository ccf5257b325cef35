//! Examples of octets that are given as text.
use crate::expect::expect_eq;
use std::test::Fail;
use tlv_text::{decode_pairs, take_input};

/// tlv_text: decodes pairs of hexadecimal digits. If the text is refused, the result says where.
#[test]
fn decode_hexadecimal(rt: HostRuntime) -> Result<(), Fail> {
    let decoded = decode_pairs(rt.alloc(), b"30 03:02 01 05\n")?;
    expect_eq(&rt, decoded.octets.as_slice(), b"\x30\x03\x02\x01\x05");
    expect_eq(&rt, decoded.refused.is_none(), true);
    Ok(())
}

/// tlv_text: recognizes the form of an input, here PEM, and decodes its block.
#[test]
fn take_a_text_for_what_it_is(rt: HostRuntime) -> Result<(), Fail> {
    let text = b"-----BEGIN X-----\nMAMCAQU=\n-----END X-----\n";
    let input = Vec::from_slice(rt.alloc(), text)?;
    let blocks = take_input(rt.alloc(), input)?;
    let [taken] = blocks.as_slice() else {
        panic!(rt; "there is one block");
    };
    expect_eq(&rt, taken.block.octets.as_slice(), b"\x30\x03\x02\x01\x05");
    Ok(())
}
