//! Tests of `tlv_open`: the strings of an input that are opened, and those that are broken.
use crate::expect::expect_eq;
use crate::inputs::element_at;
use std::test::Fail;
use tlv_open::{broken_line, holds_encodings, strings_of};

/// A string that holds a string, the value of an extension that is broken, and a string that holds a NULL.
const INPUT: &[u8] =
    b"\x04\x04\x04\x02\x05\x00\x30\x0a\x06\x03\x55\x1d\x0f\x04\x03\x03\x02\x05\x04\x02\x05\x00";

#[test]
fn a_string_is_broken(rt: HostRuntime) -> Result<(), Fail> {
    let strings = strings_of(rt.alloc(), INPUT, false)?;
    expect_eq(&rt, strings.opened.as_slice(), &[0, 2, 18]);
    let [broken] = strings.broken.as_slice() else {
        panic!(rt; "one string is broken");
    };
    let line = broken_line(broken);
    let want = b"string at 13 is the value of an extension and breaks at 16: \
        F11 element runs past the enclosing length";
    expect_eq(&rt, line.as_slice(), want);
    Ok(())
}

/// Returns whether a string that holds a NULL, inside this number of open elements, is one that holds encodings.
fn holds(depth: u8) -> Option<bool> {
    let (header, contents) = element_at(0, b"\x04\x02\x05\x00")?;
    Some(holds_encodings(&header, contents, depth))
}

/// A string that is opened counts among the 128 elements that may be open.
#[test]
fn strings_hold_encodings(rt: HostRuntime) {
    expect_eq(&rt, [holds(127), holds(128)], [Some(true), Some(false)]);
}
