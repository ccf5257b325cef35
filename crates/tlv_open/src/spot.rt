//! The position of elements that are read by themselves, and what is searched for among them.
ghost use Rattle.std.specs.Prelude.{◌≡◌, ◌<◌, ◌+◌, ◌&&◌, ◌||◌, Bool, List, false, true, ℕ};
ghost use Rattle.tlv_head.specs.Limits.{depth_limit};
ghost use Rattle.tlv_head.specs.HeaderFields.{new_header};
ghost use Rattle.tlv_head.specs.UniversalTypes.{bit_string, octet_string};
ghost use Rattle.tlv_open.specs.Breaks.{begin_extension, is_extension, names_extension};
ghost use Rattle.tlv_open.specs.Opens.{is_one_primitive, may_open_in};
ghost use Rattle.tlv_open.specs.Private.Elements.{is_elements_end};
ghost use Rattle.tlv_open.specs.Private.Finds.{IsReadAt, spot_inside, spot_lacking};
ghost use Rattle.tlv_value.specs.Types.{has_segments, is_a, is_string};
ghost use Rattle.tlv_walk.specs.Forest.{Forest};
ghost use Rattle.tlv_walk.specs.Place.{Place};

use crate::elements::{header_at, is_elements_end, quick_header_at};
use tlv_head::{Class, HeaderFields, Size, universal};

/// The position of elements that are read by themselves.
#[derive(Clone, Copy)]
pub(crate) struct Spot {
    /// Where their offsets are counted from, in octets from the start of the input.
    pub(crate) start: u64,
    /// The number of elements that hold them.
    pub(crate) depth: u8,
    /// Whether strings among them may be opened.
    pub(crate) may_open: bool,
    /// Whether they are the elements of an extension. The last element is its value, if the extension has ended.
    pub(crate) in_extension: bool,
    /// Whether each element, to be sound, must be constructed, or a primitive of the universal class that has no
    /// findings under BER.
    pub(crate) likely: bool,
    /// Whether octets `00` may be before, between and after them.
    pub(crate) padding: bool,
}

/// The spot inside an element with these fields. Its contents are the first of these octets, at this offset.
#[inline(always)]
pub(crate) fn inside(
    spot: &Spot,
    fields: &HeaderFields,
    octets: &[u8],
    offset: u64,
    end_octets: bool,
) -> Spot
    requires { spot.now.depth < depth_limit }
    ensures inner { (header : List ℕ) (p : Place) (f : Forest) (depth : ℕ) (rest : List ℕ)
        → p.padding ≡ false → IsReadAt p f depth offset end_octets octets.now rest
        → result ≡ spot_inside spot.now (new_header fields.now header) f (is_elements_end end_octets rest) }
    ensures start { result.start ≡ spot.now.start }
    ensures depth { result.depth ≡ spot.now.depth + 1 }
    ensures unasked { (result.likely ≡ false) × (result.padding ≡ false) }
{
    Spot {
        start: spot.start,
        depth: spot.depth + 1,
        may_open: may_open_in(fields, octets, offset, end_octets),
        in_extension: is_extension(fields, octets, offset),
        likely: false,
        padding: false,
    }
}

/// The spot inside an element with these fields that lacks octets.
#[inline(always)]
pub(crate) fn inside_lacking(spot: &Spot, fields: &HeaderFields) -> Spot
    requires { spot.now.depth < depth_limit }
    ensures inner { (header : List ℕ) → result ≡ spot_lacking spot.now (new_header fields.now header) }
    ensures start { result.start ≡ spot.now.start }
{
    Spot {
        start: spot.start,
        depth: spot.depth + 1,
        may_open: !has_segments(fields),
        in_extension: false,
        likely: false,
        padding: false,
    }
}

/// Whether an element at this spot, followed by these octets, is the value of an extension.
pub(crate) fn is_value_before(spot: &Spot, octets: &[u8], end_octets: bool) -> bool
    ensures { result ≡ (spot.now.in_extension && is_elements_end end_octets octets.now) }
{
    spot.in_extension && is_elements_end(octets, end_octets)
}

/// Whether strings in an element with these fields and contents may be opened: they are not segments, or there is
/// only one segment and the string is whole.
#[inline(always)]
fn may_open_in(fields: &HeaderFields, octets: &[u8], offset: u64, end_octets: bool) -> bool
    ensures { (header : List ℕ) (p : Place) (f : Forest) (depth : ℕ) (rest : List ℕ)
        → p.padding ≡ false → IsReadAt p f depth offset end_octets octets.now rest
        → result ≡ may_open_in (new_header fields.now header)
        (is_one_primitive f && is_elements_end end_octets rest) }
{
    !has_segments(fields) || is_one_segment(octets, offset, end_octets)
}

/// Whether an element with these fields is a constructed string, which holds segments.
#[inline(always)]
fn has_segments(fields: &HeaderFields) -> bool
    ensures { (header : List ℕ) → result ≡ has_segments (new_header fields.now header) }
{
    fields.constructed && is_string(fields)
}

/// Whether the type is a string (8.6.1, 8.7.1, 8.23, 8.25).
#[inline(always)]
fn is_string(fields: &HeaderFields) -> bool
    ensures { (header : List ℕ) → result ≡ is_string (new_header fields.now header) }
{
    matches!(fields.class, Class::Universal)
        && matches!(
            fields.number,
            universal::BIT_STRING
                | universal::OCTET_STRING
                | universal::OBJECT_DESCRIPTOR
                | universal::UTF8_STRING
                | universal::NUMERIC_STRING..=universal::UNIVERSAL_STRING | universal::BMP_STRING
        )
}

/// Whether the octets after the header of an element are one primitive and then the end of the element.
fn is_one_segment(octets: &[u8], offset: u64, end_octets: bool) -> bool
    ensures { (p : Place) (f : Forest) (depth : ℕ) (rest : List ℕ) → p.padding ≡ false
        → IsReadAt p f depth offset end_octets octets.now rest
        → result ≡ (is_one_primitive f && is_elements_end end_octets rest) }
{
    let Some((fields, count)) = header_at(octets, offset) else {
        return false;
    };
    let Size::Definite(length) = fields.size else {
        return false;
    };
    let rest = &octets[count..];
    if fields.constructed || length > rest.len() as u64 {
        return false;
    }
    is_elements_end(&rest[length as usize..], end_octets)
}

/// Whether an element with these fields and contents is an extension of a certificate: a SEQUENCE that begins with an
/// OBJECT IDENTIFIER below 2.5.29 or 1.3.6.1.5.5.7.1.
#[inline(always)]
fn is_extension(fields: &HeaderFields, octets: &[u8], offset: u64) -> bool
    ensures { (header : List ℕ) (p : Place) (f : Forest) (depth : ℕ) (end_octets : Bool) (rest : List ℕ)
        → IsReadAt p f depth offset end_octets octets.now rest
        → result ≡ is_extension (new_header fields.now header) f }
{
    is_a(universal::SEQUENCE, fields) && begin_extension(octets, offset)
}

/// Whether the type is the universal type with this number.
#[inline(always)]
fn is_a(number: u64, fields: &HeaderFields) -> bool
    ensures { (header : List ℕ) → result ≡ is_a number (new_header fields.now header) }
{
    matches!(fields.class, Class::Universal) && fields.number == number
}

/// Whether the type is OCTET STRING or BIT STRING.
#[inline(always)]
pub(crate) fn is_octet_or_bit_string(fields: &HeaderFields) -> bool
    ensures { (header : List ℕ) → result ≡ (is_a octet_string (new_header fields.now header)
        || is_a bit_string (new_header fields.now header)) }
{
    is_a(universal::OCTET_STRING, fields) || is_a(universal::BIT_STRING, fields)
}

/// Whether the first element is a primitive OBJECT IDENTIFIER of an extension.
#[inline(always)]
fn begin_extension(octets: &[u8], offset: u64) -> bool
    ensures { (p : Place) (f : Forest) (depth : ℕ) (end_octets : Bool) (rest : List ℕ)
        → IsReadAt p f depth offset end_octets octets.now rest → result ≡ begin_extension f }
{
    if !may_begin_extension(octets) {
        return false;
    }
    let Some((fields, count)) = quick_header_at(octets, offset) else {
        return false;
    };
    let rest = &octets[count..];
    let length = fields.size.announced_length();
    if fields.constructed || length > rest.len() as u64 {
        return false;
    }
    is_a(universal::OBJECT_IDENTIFIER, &fields) && names_extension(&rest[..length as usize])
}

/// Whether the first element may be a primitive OBJECT IDENTIFIER of an extension. Looks only at four octets, so that
/// few headers are read. The first octet of such an element is 06, or 1f in the high form.
#[inline(always)]
fn may_begin_extension(octets: &[u8]) -> bool
    ensures { (p : Place) (f : Forest) (depth offset : ℕ) (end_octets : Bool) (rest : List ℕ)
        → IsReadAt p f depth offset end_octets octets.now rest → begin_extension f ≡ true → result ≡ true }
{
    match octets {
        [6, 0..=0x7f, first, second, ..] => matches!((*first, *second), (0x55, 0x1d) | (0x2b, 6)),
        [6 | 0x1f, ..] => true,
        _ => false,
    }
}

/// Whether these are the contents of an OBJECT IDENTIFIER below 2.5.29 or 1.3.6.1.5.5.7.1.
fn names_extension(contents: &[u8]) -> bool
    ensures { result ≡ names_extension contents.now }
{
    matches!(contents, [0x55, 0x1d, _, ..]) || matches!(contents, [0x2b, 6, 1, 5, 5, 7, 1, _, ..])
}
