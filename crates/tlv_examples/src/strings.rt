//! Examples of strings that hold encodings.
use crate::expect::expect_eq;
use std::test::Fail;
use tlv_open::opened;
use tlv_show::Rules;
use tlv_value::Names;
use tlv_view_program::{View, view_octets};
use tlv_walk::MemDrain;

/// An OCTET STRING that holds a NULL.
const INPUT: &[u8] = b"\x04\x02\x05\x00";

/// tlv_open: returns the offsets of the strings that hold encodings.
#[test]
fn find_strings_that_hold_encodings(rt: HostRuntime) -> Result<(), Fail> {
    let offsets = opened(rt.alloc(), INPUT, false)?;
    expect_eq(&rt, offsets.as_slice(), &[0]);
    Ok(())
}

/// tlv_view_program: writes a dump in which the strings that hold encodings are opened.
#[test]
fn dump_with_strings_opened(rt: HostRuntime) -> Result<(), Fail> {
    let mut room = [0; 128];
    let mut drain = MemDrain::new(&mut room, 128);
    let view = View::Dump {
        rules: Rules::Ber,
        limit: None,
        pure: false,
        text: true,
    };
    view_octets(
        rt.alloc(),
        &view,
        &Names::empty(),
        false,
        false,
        INPUT,
        &mut drain,
    )?;
    let lines: &[u8] =
        b"       0      2: OCTET STRING wraps {\n       2      0:   NULL\n                 }\n";
    expect_eq(&rt, drain.written(), lines);
    Ok(())
}
