//! The texts of characters.
ghost use Rattle.std.specs.List.{list_all};
ghost use Rattle.std.specs.Prelude.{◌≡◌, ◌<◌, ◌≤◌, ◌-◌, ◌++◌, false, flat_map, length, slice_index, true};
ghost use Rattle.tlv_io.specs.LineTexts.{AddsIfRoom, HasRoomFor, spaces};
ghost use Rattle.tlv_value.specs.Private.UnescapedCharacters.{AreUnescaped, IsPart};
ghost use Rattle.tlv_value.specs.Private.UnescapedCharacters.{IsSomeOf, has_ascii_octets, is_unescaped};
ghost use Rattle.tlv_value.specs.Units.{escaped_number, escaped_octet, is_printable, octet_text};
ghost use Rattle.tlv_value.specs.Units.{printable_text, unit_size, unit_text, units, utf8_number};
ghost use Rattle.tlv_value.specs.Units.{without_leading_zeros};

use crate::row_sizes::utf8_length;
use tlv_head::Kind;
use tlv_io::HeldOctets;

/// The largest number of octets in a row of characters.
const ROW: usize = 64;

/// Adds the characters of a row. There is room for five octets for each of its octets; it takes four at most.
pub(crate) fn write_characters(held: &mut HeldOctets, kind: Kind, row: &[u8])
    requires short { length row.now ≤ 64 }
    requires room { HasRoomFor held.old 320 }
    ensures { held.new ≡ held.old ++ flat_map (unit_text kind) (units kind row.now) }
{
    // Most rows are written as they are. They are checked and copied as a block of one size, so that no branch
    // depends on the number of octets.
    if has_ascii_octets(kind) {
        let block = block_of(row);
        if are_unescaped(&block) {
            return held.add_prefix(&block, row.len());
        }
    }
    write_units(held, kind, row);
}

/// A block that begins with the row and is filled up with spaces.
#[inline(always)]
pub(crate) fn block_of(row: &[u8]) -> [u8; ROW]
    requires { length row.now ≤ 64 }
    ensures { result ≡ row.now ++ spaces (64 - length row.now) }
{
    let mut block = [b' '; ROW];
    block[..row.len()].copy_from_slice(row);
    block
}

/// Adds the units of a row of characters.
#[inline(never)]
fn write_units(held: &mut HeldOctets, kind: Kind, row: &[u8])
    ensures { AddsIfRoom held.old held.new (flat_map (unit_text kind) (units kind row.now)) }
{
    let mut rest = row;
    while !rest.is_empty() {
        let (_, more) = rest.split_at(write_part(held, kind, rest));
        rest = more;
    }
}

/// Adds the first octets if they are written as they are, or else a unit. Returns the number of octets it has taken.
fn write_part(held: &mut HeldOctets, kind: Kind, octets: &[u8]) -> usize
    requires { 1 ≤ length octets.now }
    ensures count { IsSomeOf result octets.now }
    ensures text { IsPart kind octets.now held.old held.new result }
{
    let unescaped = unescaped_size(kind, octets);
    if unescaped > 0 {
        held.add_if_room(&octets[..unescaped]);
        return unescaped;
    }
    let size = unit_size(kind, octets);
    write_unit(held, kind, &octets[..size]);
    size
}

/// Adds a unit: a character, or an octet that belongs to no character.
fn write_unit(held: &mut HeldOctets, kind: Kind, unit: &[u8])
    ensures { AddsIfRoom held.old held.new (unit_text kind unit.now) }
{
    match kind {
        Kind::Ucs2 => write_ucs2(held, unit),
        Kind::Ucs4 => write_ucs4(held, unit),
        Kind::Utf8 => write_utf8(held, unit),
        _ => {
            if let [octet, ..] = unit {
                write_octet(held, *octet);
            }
        }
    }
}

/// Adds a unit of BMPString.
fn write_ucs2(held: &mut HeldOctets, unit: &[u8])
    ensures { AddsIfRoom held.old held.new (unit_text Kind.Ucs2 unit.now) }
{
    match unit {
        [0, octet] if is_printable(*octet) => write_printable(held, *octet),
        [_, _] => write_escaped_number(held, unit),
        [octet, ..] => write_escaped_octet(held, *octet),
        [] => {}
    }
}

/// Adds a unit of UniversalString.
fn write_ucs4(held: &mut HeldOctets, unit: &[u8])
    ensures { AddsIfRoom held.old held.new (unit_text Kind.Ucs4 unit.now) }
{
    match unit {
        [0, 0, 0, octet] if is_printable(*octet) => write_printable(held, *octet),
        [_, _, _, _] => write_escaped_number(held, unit),
        [octet, ..] => write_escaped_octet(held, *octet),
        [] => {}
    }
}

/// Adds a unit of UTF8String.
fn write_utf8(held: &mut HeldOctets, unit: &[u8])
    ensures { AddsIfRoom held.old held.new (unit_text Kind.Utf8 unit.now) }
{
    match unit {
        [] => {}
        [octet] => write_octet(held, *octet),
        _ => {
            let number = utf8_number(unit);
            write_escaped_number(
                held,
                &[
                    (number / 65536 % 256) as u8,
                    (number / 256 % 256) as u8,
                    (number % 256) as u8,
                ],
            );
        }
    }
}

/// Adds a character of one octet, or the octet's number.
fn write_octet(held: &mut HeldOctets, octet: u8)
    ensures { AddsIfRoom held.old held.new (octet_text octet) }
{
    if is_printable(octet) {
        write_printable(held, octet);
    } else {
        write_escaped_octet(held, octet);
    }
}

/// Adds a printable character, after a reverse solidus if it is a quotation mark or a reverse solidus.
fn write_printable(held: &mut HeldOctets, octet: u8)
    ensures { AddsIfRoom held.old held.new (printable_text octet) }
{
    if octet == b'"' || octet == b'\\' {
        held.add_if_room(&[b'\\', octet]);
    } else {
        held.add_if_room(&[octet]);
    }
}

/// Adds the number of an octet.
fn write_escaped_octet(held: &mut HeldOctets, octet: u8)
    ensures { AddsIfRoom held.old held.new (escaped_octet octet) }
{
    let mut pair = [0; 2];
    let _ = hex::encode_to_slice([octet], &mut pair);
    held.add_if_room(b"\\x");
    held.add_if_room(&pair);
}

/// Adds the number that up to four octets make, without leading zeros.
fn write_escaped_number(held: &mut HeldOctets, octets: &[u8])
    requires { length octets.now ≤ 4 }
    ensures { AddsIfRoom held.old held.new (escaped_number octets.now) }
{
    let mut digits = [0; 8];
    let digits = &mut digits[..2 * octets.len()];
    let _ = hex::encode_to_slice(octets, digits);
    held.add_if_room(b"\\u{");
    held.add_if_room(without_leading_zeros(digits));
    held.add_if_room(b"}");
}

/// The digits without leading zeros. The last digit stays.
fn without_leading_zeros(digits: &[u8]) -> &[u8]
    ensures { result.now ≡ without_leading_zeros digits.now }
{
    let mut rest = digits;
    while let [b'0', more @ ..] = rest
        && !more.is_empty()
    {
        rest = more;
    }
    rest
}

/// Whether the octet is a printable character of ASCII.
fn is_printable(octet: u8) -> bool
    ensures { result ≡ is_printable octet }
{
    matches!(octet, 0x20..=0x7e)
}

/// Whether the octet is written as it is: it is printable, and neither the quotation mark nor the reverse solidus.
fn is_unescaped(octet: u8) -> bool
    ensures { result ≡ is_unescaped octet }
{
    matches!(octet, 0x20..=0x7e) && octet != b'"' && octet != b'\\'
}

/// Whether a character of ASCII has one octet in contents of this kind.
fn has_ascii_octets(kind: Kind) -> bool
    ensures { result ≡ has_ascii_octets kind }
{
    matches!(kind, Kind::Text | Kind::Utf8)
}

/// Whether all of the octets are written as they are.
#[inline(always)]
fn are_unescaped(octets: &[u8; ROW]) -> bool
    ensures { result ≡ list_all is_unescaped octets.now }
{
    // The loop has no early exit, so that many octets are checked at once.
    let mut all = true;
    for octet in octets {
        all &= is_unescaped(*octet);
    }
    all
}

/// How many of the first octets are written as they are.
fn unescaped_size(kind: Kind, octets: &[u8]) -> usize
    ensures within { result ≤ length octets.now }
    ensures unescaped { AreUnescaped kind octets.now result }
    ensures next { result < length octets.now → has_ascii_octets kind ≡ true
        → is_unescaped (slice_index octets.now result) ≡ false }
{
    if !has_ascii_octets(kind) {
        return 0;
    }
    for i in 0..octets.len() {
        if !is_unescaped(octets[i]) {
            return i;
        }
    }
    octets.len()
}

/// How many of the first octets make a unit.
fn unit_size(kind: Kind, octets: &[u8]) -> usize
    requires { 1 ≤ length octets.now }
    ensures value { result ≡ unit_size kind octets.now }
    ensures count { IsSomeOf result octets.now }
{
    match kind {
        Kind::Ucs2 if octets.len() >= 2 => 2,
        Kind::Ucs4 if octets.len() >= 4 => 4,
        Kind::Utf8 => utf8_unit_size(octets),
        _ => 1,
    }
}

/// How many of the first octets make a unit of UTF8String.
fn utf8_unit_size(octets: &[u8]) -> usize
    requires { 1 ≤ length octets.now }
    ensures value { result ≡ unit_size Kind.Utf8 octets.now }
    ensures count { IsSomeOf result octets.now }
{
    let unit = &octets[..utf8_length(octets[0]).min(octets.len())];
    if simdutf8::is_utf8(unit) {
        unit.len()
    } else {
        1
    }
}

/// The number of a character of two to four octets.
fn utf8_number(unit: &[u8]) -> u32
    ensures value { result ≡ utf8_number unit.now }
    ensures within { result < 2097152 }
{
    match unit {
        [a, b] => u32::from(*a) % 32 * 64 + u32::from(*b) % 64,
        [a, b, c] => u32::from(*a) % 16 * 4096 + u32::from(*b) % 64 * 64 + u32::from(*c) % 64,
        [a, b, c, d] => {
            u32::from(*a) % 8 * 262_144
                + u32::from(*b) % 64 * 4096
                + u32::from(*c) % 64 * 64
                + u32::from(*d) % 64
        }
        _ => 0,
    }
}
