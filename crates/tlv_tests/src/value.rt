//! Tests of `tlv_value`: the lines of values, and the findings on their contents.
ghost use Rattle.std.specs.Prelude.{◌≡◌, None, Some, bytes_eq, codes, if◌then◌else◌, length};

use crate::expect::{expect_eq, expect_eq_of};
use crate::inputs::{element_at, header};
use arrayvec::ArrayVec;
use std::process::Abort;
use tlv_head::{Class, universal};
use tlv_value::{
    Finding, KnownTexts, Layout, NameTable, ValueCheck, ValueText, begin_blank, begin_word,
    general_canonical, general_ok, is_clear, put_whole, put_whole_with, utc_canonical, utc_ok,
    write_tag,
};
use tlv_walk::{Drain, HeldOctets, MemDrain, Out};

/// A table with one name.
struct OneName;

impl NameTable for OneName {
    ghost name_of = { λ table dotted.
        if bytes_eq dotted (codes "1.2.840") then Some (codes "us") else None };

    fn get(&self, dotted: &[u8]) -> Option<&[u8]> {
        if dotted == b"1.2.840".as_slice() {
            Some(b"us".as_slice())
        } else {
            None
        }
    }
}

/// The layout of the top level, without a limit.
const PLAIN: Layout = Layout {
    level: 0,
    limit: None,
    pure: false,
};

/// Puts the lines of a primitive, of which the contents come octet by octet.
fn put_octets<D: Drain>(text: &mut ValueText, contents: &[u8], out: &mut Out<'_, D>) -> Option<()>
    requires { text.old.left ≡ length contents.now }
{
    text.begin(out).ok()?;
    let mut rest = contents;
    while let [_, more @ ..] = rest {
        text.bytes(&rest[..1], out).ok()?;
        rest = more;
    }
    text.end(&OneName, out).ok()
}

/// Puts the lines of an element, with or without text, from single octets.
fn put_singly(element: &[u8], with_text: bool, drain: &mut MemDrain<'_>) -> Option<()> {
    let (header, contents) = element_at(0, element)?;
    let mut out = Out::new(drain);
    let mut text = ValueText::new_with(&header, PLAIN, with_text);
    put_octets(&mut text, contents, &mut out)?;
    out.flush().ok()
}

/// Puts the lines of an element, without text and then with or without it, from its whole contents.
fn put_twice(element: &[u8], with_text: bool, drain: &mut MemDrain<'_>) -> Option<()> {
    let (header, contents) = element_at(0, element)?;
    let mut known = KnownTexts::new();
    let mut out = Out::new(drain);
    put_whole(&header, PLAIN, contents, &OneName, &mut known, &mut out).ok()?;
    put_whole_with(
        &header, PLAIN, with_text, contents, &OneName, &mut known, &mut out,
    )
    .ok()?;
    out.flush().ok()
}

/// Checks the lines of an element: twice, the second time with text, from its whole contents, and once from single
/// octets.
fn expect_lines(rt: &impl Abort, element: &[u8], both: &[u8], with_text: &[u8]) {
    let mut room = [0; 256];
    let mut drain = MemDrain::new(&mut room, 7);
    expect_eq_of(rt, element, put_twice(element, true, &mut drain), Some(()));
    expect_eq_of(rt, element, drain.written(), both);
    let mut drain = MemDrain::new(&mut room, 7);
    expect_eq_of(rt, element, put_singly(element, true, &mut drain), Some(()));
    expect_eq_of(rt, element, drain.written(), with_text);
}

/// The text of an object identifier that comes again is the same. Octets have text beside them if it is asked for.
#[test]
fn lines_are_written(rt: HostRuntime) {
    let object = b"       0      3: OBJECT IDENTIFIER 1.2.840 (us)\n";
    let objects =
        b"       0      3: OBJECT IDENTIFIER 1.2.840 (us)\n       0      3: OBJECT IDENTIFIER 1.2.840 (us)\n";
    let text = b"       0      3: OCTET STRING 61 62 63  |abc|\n";
    let texts =
        b"       0      3: OCTET STRING 61 62 63\n       0      3: OCTET STRING 61 62 63  |abc|\n";
    expect_lines(&rt, b"\x06\x03\x2a\x86\x48", objects, object);
    expect_lines(&rt, b"\x04\x03abc", texts, text);
    let header = header(&rt, 0, false, b"\x04\x03");
    expect_eq(&rt, ValueText::new(&header, PLAIN).left(), 3);
}

#[test]
fn parts_of_lines_are_made(rt: HostRuntime) {
    let layout = Layout { level: 1, ..PLAIN };
    let mut held = HeldOctets::new();
    begin_word(&mut held, layout, 11, b"   end");
    held.add(b"}\n");
    begin_blank(&mut held, layout);
    write_tag(&mut held, Class::Context, 5);
    let want = b"      11    end:   }\n                   [5]";
    expect_eq(&rt, held.as_slice(), want.as_slice());
}

/// Returns the findings on the contents of an element, which come in two pieces. Returns `None` if `is_clear` disagrees
/// about whether there are any.
fn check(element: &[u8]) -> Option<(ArrayVec<Finding, 16>, bool)> {
    let (header, contents) = element_at(0, element)?;
    let (front, back) = contents.split_at(contents.len().min(1));
    let mut check = ValueCheck::new(&header);
    check.bytes(front);
    check.bytes(back);
    let has_unused = check.has_unused_bits();
    let found = check.end_with_all();
    if is_clear(&header, contents) != found.is_empty() {
        return None;
    }
    Some((found, has_unused))
}

/// Returns the findings on the contents `02` of a BOOLEAN, of which no header is given.
fn check_of_type() -> ArrayVec<Finding, 16> {
    let mut check = ValueCheck::of_type(universal::BOOLEAN, 1);
    if check.left() == 1 {
        check.bytes(b"\x02");
    }
    check.end_with_all()
}

#[test]
fn contents_are_checked(rt: HostRuntime) {
    for (element, findings, has_unused) in [
        (b"\x03\x02\x05\xa0".as_slice(), [].as_slice(), true),
        (b"\x03\x02\x05\xbf", &[Finding::S03], true),
        (
            b"\x1e\x03\xd8\x00\x41",
            &[Finding::B18, Finding::B25],
            false,
        ),
    ] {
        let Some((found, unused)) = check(element) else {
            panic!(rt; "is_clear disagrees");
        };
        expect_eq_of(&rt, element, found.as_slice(), findings);
        expect_eq_of(&rt, element, unused, has_unused);
    }
    expect_eq(&rt, check_of_type().as_slice(), [Finding::S02].as_slice());
}

/// The blocks of a finding begin with its code and its text, or with its text alone, and a line feed. The count is the
/// length of these.
#[test]
fn findings_have_texts(rt: HostRuntime) {
    expect_eq(&rt, Finding::D01.code(), b"D01".as_slice());
    expect_eq(&rt, Finding::D01.text(), b"indefinite length".as_slice());
    let (line, count) = Finding::D01.line_block();
    expect_eq(
        &rt,
        line.get(..count),
        Some(b"D01 indefinite length\n".as_slice()),
    );
    let (text, count) = Finding::D01.text_block();
    expect_eq(
        &rt,
        text.get(..count),
        Some(b"indefinite length\n".as_slice()),
    );
}

#[test]
fn times_are_judged(rt: HostRuntime) {
    for (time, is_time, is_canonical) in [
        (b"910506234540Z".as_slice(), true, true),
        (b"910506244540Z", true, false),
        (b"911306234540Z", false, false),
    ] {
        expect_eq_of(
            &rt,
            time,
            [utc_ok(time), utc_canonical(time)],
            [is_time, is_canonical],
        );
    }
    for (time, is_time, is_canonical) in [
        (b"19920722132100.3Z".as_slice(), true, true),
        (b"19920722132100,3Z", true, false),
        (b"19921322132100.3Z", false, false),
    ] {
        let got = [general_ok(time), general_canonical(time)];
        expect_eq_of(&rt, time, got, [is_time, is_canonical]);
    }
}
