//! Tests of `tlv_head`: headers, faults, tags and types.
use crate::expect::{expect_eq, expect_eq_of};
use crate::inputs::{header, header_at};
use tlv_head::{
    Class, Encodings, Fault, FaultCode, Head, HeadReader, Header, Kind, Rule, Size, encodings_of,
    kind_of, read_short, spell_indefinite, tag_text, type_at, type_name,
};

/// The offset of the headers.
const OFFSET: u64 = 100;

/// Pushes the octets one by one. Returns the first result that is not `More`, or `More` if there is none.
fn read(octets: &[u8]) -> Head {
    let mut reader = HeadReader::new(OFFSET, false);
    for i in 0..octets.len() {
        if i == 0 && octets[i] == 0 {
            return Head::More;
        }
        let head = reader.push(octets[i], None, 0);
        if !matches!(&head, Head::More) {
            return head;
        }
    }
    Head::More
}

/// Returns whether these octets, one by one, complete a header that consists of them.
fn is_read_singly(octets: &[u8]) -> bool {
    matches!(read(octets), Head::Whole(header) if header.raw() == octets)
}

/// Returns whether these octets, at once, complete a header that consists of them.
fn is_read_at_once(octets: &[u8]) -> bool {
    match header_at(OFFSET, false, octets) {
        Some(header) => header.raw() == octets,
        None => false,
    }
}

#[test]
fn headers_are_read(rt: HostRuntime) {
    for (octets, is_short) in [
        (b"\x02\x7f".as_slice(), true),
        (b"\xbf\x87\x68\x82\x01\x00", true),
        (b"\x9f\x81\x80\x80\x80\x80\x80\x80\x80\x00\x00", false),
        (b"\x04\x84\x00\x00\x00\x01", false),
    ] {
        expect_eq_of(&rt, octets, is_read_singly(octets), true);
        expect_eq_of(&rt, octets, is_read_at_once(octets), true);
        let found = read_short(OFFSET, false, octets).is_some();
        expect_eq_of(&rt, octets, found, is_short);
    }
    expect_eq(&rt, HeadReader::new(OFFSET, false).done(), false);
}

/// Returns the fault for which the last of the octets is refused, if it is refused.
fn refused(octets: &[u8]) -> Option<Fault> {
    match read(octets) {
        Head::Refused(fault) => Some(fault),
        _ => None,
    }
}

#[test]
fn an_octet_is_refused(rt: HostRuntime) {
    let fault = Fault {
        code: FaultCode::ReservedLength,
        offset: 101,
    };
    expect_eq(&rt, refused(b"\x04\xff"), Some(fault));
    expect_eq(&rt, fault.code.code(), b"F07");
    expect_eq(&rt, fault.text(), b"length octet ff is reserved");
}

/// Returns the second octets of the identifier and of the length, and whether the header and its fields are those of a
/// string to be read as encodings.
fn parts_of(header: &Header) -> (u8, u8, bool, bool) {
    (
        header.second_identifier_octet(),
        header.second_length_octet(),
        header.wraps(),
        header.fields().wraps(),
    )
}

#[test]
fn headers_have_parts(rt: HostRuntime) {
    let tagged = header(&rt, OFFSET, false, b"\xbf\x87\x68\x82\x01\x00");
    expect_eq(&rt, parts_of(&tagged), (0x87, 0x01, false, false));
    expect_eq(&rt, tagged.identifier(), b"\xbf\x87\x68");
    expect_eq(&rt, tagged.size.announced_length(), 256);
    let string = header(&rt, OFFSET, true, b"\x04\x02");
    expect_eq(&rt, parts_of(&string), (0, 0, true, true));
    expect_eq(&rt, Size::Indefinite.announced_length(), 0);
}

/// Returns whether the octets begin with the header of a constructed element, and the indefinite form of this header is
/// `want`.
fn becomes(octets: &[u8], want: &[u8]) -> bool {
    match header_at(OFFSET, false, octets) {
        Some(header) if header.constructed => spell_indefinite(&header).as_slice() == want,
        _ => false,
    }
}

#[test]
fn a_length_becomes_indefinite(rt: HostRuntime) {
    let is_right = becomes(b"\xbf\x87\x68\x82\x01\x00", b"\xbf\x87\x68\x80");
    expect_eq(&rt, is_right, true);
}

#[test]
fn tags_have_texts(rt: HostRuntime) {
    expect_eq(&rt, type_name(14), Some(b"TIME".as_slice()));
    expect_eq(&rt, type_name(15), None);
    let octets = tag_text(Class::Private, 2);
    expect_eq(&rt, octets.as_slice(), b"[PRIVATE 2]");
}

/// How the universal types are encoded (`p` primitive, `c` constructed, `s` string, primitive or constructed, `u`
/// unrestricted), how their contents are shown (`b` boolean, `i` integer, `n` bits, `o` object identifier, `r` relative
/// object identifier, `t` text, `8` UTF-8, `2` and `4` text of characters of two and four octets, `h` hexadecimal), and the
/// rule for the contents of primitives (`o` one octet (8.2.1), `s` a number in the fewest octets (8.3, 8.4), `u` the number
/// of unused bits first (8.6.2), `e` no octets (8.8.2), `i` subidentifiers (8.19, 8.20), `r` a form of a REAL (8.5), `c`
/// characters that the type allows (X.680 41), `t` the grammar of a time (X.680 46, 47), `d` a date, a time of day, or both
/// (8.26), `w` UTF-8 of an OID-IRI or RELATIVE-OID-IRI (8.21, 8.22), `a` any contents), by tag number. `---` is no type.
static TYPES: [&[u8; 3]; 38] = [
    b"---", b"pbo", b"pis", b"snu", b"sha", b"phe", b"poi", b"sta", b"cha", b"phr", b"pis", b"cha",
    b"s8c", b"pri", b"uha", b"---", b"cha", b"cha", b"stc", b"stc", b"sta", b"sta", b"stc", b"stt",
    b"stt", b"sta", b"stc", b"sta", b"s4c", b"cha", b"s2c", b"uhd", b"uhd", b"uhd", b"uha", b"uhw",
    b"uhw", b"---",
];

fn letter_of_encodings(encodings: Encodings) -> u8 {
    match encodings {
        Encodings::Primitive => b'p',
        Encodings::Constructed => b'c',
        Encodings::Segmented => b's',
        Encodings::Unjudged => b'u',
    }
}

fn letter_of_kind(kind: Kind) -> u8 {
    match kind {
        Kind::Octets => b'h',
        Kind::Boolean => b'b',
        Kind::Integer => b'i',
        Kind::Bits => b'n',
        Kind::Object => b'o',
        Kind::Relative => b'r',
        Kind::Text => b't',
        Kind::Utf8 => b'8',
        Kind::Ucs2 => b'2',
        Kind::Ucs4 => b'4',
    }
}

fn letter_of_rule(rule: Rule) -> u8 {
    match rule {
        Rule::Any => b'a',
        Rule::OneOctet => b'o',
        Rule::Shortest => b's',
        Rule::UnusedBits => b'u',
        Rule::NoOctets => b'e',
        Rule::Subidentifiers => b'i',
        Rule::RealForm => b'r',
        Rule::Characters => b'c',
        Rule::TimeForm => b't',
        Rule::DateForm => b'd',
        Rule::IriForm => b'w',
    }
}

/// Returns the letters of the universal type with this tag number.
fn letters_of(number: u64) -> [u8; 3] {
    match (type_at(number), encodings_of(number)) {
        (Some(found), Some(encodings)) => [
            letter_of_encodings(encodings),
            letter_of_kind(kind_of(Class::Universal, number)),
            letter_of_rule(found.rule),
        ],
        _ => *b"---",
    }
}

#[test]
fn types_are_those_of_the_standard(rt: HostRuntime) {
    for number in 0..TYPES.len() {
        expect_eq_of(&rt, number, letters_of(number as u64), *TYPES[number]);
    }
}
