//! Sound elements in octets in memory.
ghost use Rattle.std.specs.Prelude.{◌≡◌, ◌+◌, ◌<◌, ◌^◌, ◌↔◌, IfSome, IsTrue, MatchOption, drop, false, length};
ghost use Rattle.std.specs.Prelude.{slice_index, take, true, ℕ};
ghost use Rattle.tlv_head.specs.Header.{announced_length};
ghost use Rattle.tlv_head.specs.HeaderFields.{IsHeaderSized, new_header};
ghost use Rattle.tlv_head.specs.ReadHeader.{BeginsWithFields};
ghost use Rattle.tlv_head.specs.Refusal.{BeginsWithNoHeader};
ghost use Rattle.tlv_open.specs.Held.{IsClearPrimitive};
ghost use Rattle.tlv_open.specs.Private.Adds.{IsAllOfPrimitive};
ghost use Rattle.tlv_open.specs.Private.Elements.{BeginsWithElement, BeginsWithElements, BeginsWithNoElement};
ghost use Rattle.tlv_open.specs.Private.Elements.{BeginsWithNoElements, is_elements_end, place_at};

use tlv_head::{Class, Header, HeaderFields, Size, read_header, read_short};
use tlv_show::has_basic_findings;

/// The maximum number of elements that hold others, one inside another.
pub(crate) const DEPTH_LIMIT: u8 = 128;

/// The header that the octets begin with, at this offset, if it has two octets, as most headers do. `None` if the
/// octets begin with no header, or with a longer one, which [`header_at`] finds. This is a separate function because
/// inlined code reads so short a header in few instructions.
#[inline(always)]
pub(crate) fn two_octet_header(octets: &[u8], offset: u64) -> Option<(HeaderFields, usize)>
    ensures { IfSome result (λ (fields, count). BeginsWithFields octets.now offset false fields count) }
{
    match octets {
        [identifier, length, ..] if *identifier & 0x1f != 0x1f && *length <= 0x80 => {
            read_short(offset, false, octets)
        }
        _ => None,
    }
}

/// The first octet, or 0 if there is none.
#[inline]
pub(crate) fn first_octet(octets: &[u8]) -> u8
    ensures { result ≡ slice_index octets.now 0 }
{
    if octets.is_empty() { 0 } else { octets[0] }
}

/// The header that the octets begin with, at this offset, and its size in octets. `None` if they begin with no header.
#[inline(never)]
pub(crate) fn header_at(octets: &[u8], offset: u64) -> Option<(HeaderFields, usize)>
    ensures { MatchOption result (BeginsWithNoHeader octets.now)
        (λ (fields, count). BeginsWithFields octets.now offset false fields count) }
{
    match read_short(offset, false, octets) {
        Some(found) => Some(found),
        None => read_header(offset, false, octets),
    }
}

/// [`header_at`], with few instructions if the header has at most four octets and no high tag number, as most do.
#[inline(always)]
pub(crate) fn quick_header_at(octets: &[u8], offset: u64) -> Option<(HeaderFields, usize)>
    ensures { MatchOption result (BeginsWithNoHeader octets.now)
        (λ (fields, count). BeginsWithFields octets.now offset false fields count) }
{
    match four_octet_header(octets, offset) {
        Some(found) => Some(found),
        None => header_at(octets, offset),
    }
}

/// The header that the octets begin with, at this offset, if it has at most four octets and no high tag number.
#[inline(always)]
fn four_octet_header(octets: &[u8], offset: u64) -> Option<(HeaderFields, usize)>
    ensures { IfSome result (λ (fields, count). BeginsWithFields octets.now offset false fields count) }
{
    match octets {
        [identifier, length, _, _, ..] if *identifier & 0x1f != 0x1f && *length <= 0x82 => {
            read_short(offset, false, octets)
        }
        _ => None,
    }
}

/// The size in octets of the sound elements that the octets begin with, at this offset and depth. With `end_octets`,
/// the elements end before `00 00`; otherwise they end with the last octet. If `likely`, each outermost element must
/// be constructed, or a primitive of the universal class that has no findings under BER.
#[cycle(sound)]
pub(crate) fn elements_size(
    octets: &[u8],
    offset: u64,
    depth: u8,
    likely: bool,
    end_octets: bool,
) -> Option<usize>
    requires { offset + length octets.now < 2 ^ 64 }
    ensures { MatchOption result
        (BeginsWithNoElements (place_at offset depth) likely end_octets octets.now)
        (λ n. BeginsWithElements (place_at offset depth) likely end_octets octets.now n) }
{
    let mut at = 0;
    while at < octets.len() && octets[at] != 0 {
        at += element_size(&octets[at..], offset + at as u64, depth, likely)?;
    }
    if is_elements_end(&octets[at..], end_octets) {
        Some(at)
    } else {
        None
    }
}

/// Whether elements may end before these octets: before `00 00`, or where there are no more octets.
pub(crate) fn is_elements_end(octets: &[u8], end_octets: bool) -> bool
    ensures { result ≡ is_elements_end end_octets octets.now }
{
    if end_octets {
        matches!(octets, [0, 0, ..])
    } else {
        octets.is_empty()
    }
}

/// The size in octets of the sound element that the octets begin with, at this offset and depth, if there is one.
#[cycle(sound)]
#[inline(always)]
fn element_size(octets: &[u8], offset: u64, depth: u8, likely: bool) -> Option<usize>
    requires { offset + length octets.now < 2 ^ 64 }
    ensures { MatchOption result (BeginsWithNoElement (place_at offset depth) likely octets.now)
        (λ n. BeginsWithElement (place_at offset depth) likely octets.now n) }
{
    match two_octet_header(octets, offset) {
        Some((fields, count)) => size_with(octets, offset, &fields, count, depth, likely),
        None => long_element_size(octets, offset, depth, likely),
    }
}

/// [`element_size`] for a header of any length.
#[cycle(sound)]
#[inline(never)]
fn long_element_size(octets: &[u8], offset: u64, depth: u8, likely: bool) -> Option<usize>
    requires { offset + length octets.now < 2 ^ 64 }
    ensures { MatchOption result (BeginsWithNoElement (place_at offset depth) likely octets.now)
        (λ n. BeginsWithElement (place_at offset depth) likely octets.now n) }
{
    let (fields, count) = header_at(octets, offset)?;
    size_with(octets, offset, &fields, count, depth, likely)
}

/// [`element_size`] for an element whose header has these fields and `count` octets.
#[cycle(sound)]
#[inline(always)]
fn size_with(
    octets: &[u8],
    offset: u64,
    fields: &HeaderFields,
    count: usize,
    depth: u8,
    likely: bool,
) -> Option<usize>
    requires limit { offset + length octets.now < 2 ^ 64 }
    requires begins { BeginsWithFields octets.now offset false fields.now count }
    ensures { MatchOption result (BeginsWithNoElement (place_at offset depth) likely octets.now)
        (λ n. BeginsWithElement (place_at offset depth) likely octets.now n) }
{
    if fields.constructed && depth >= DEPTH_LIMIT {
        return None;
    }
    let (header, rest) = octets.split_at(count);
    match fields.size {
        Size::Definite(length) => {
            if length > rest.len() as u64 {
                return None;
            }
            let contents = &rest[..length as usize];
            if fields.constructed {
                elements_size(contents, offset + count as u64, depth + 1, false, false)?;
            } else if likely && !is_clear_primitive(fields, header, contents) {
                return None;
            }
            Some(count + contents.len())
        }
        Size::Indefinite => {
            let size = elements_size(rest, offset + count as u64, depth + 1, false, true)?;
            Some(count + size + 2)
        }
    }
}

/// [`is_clear_at`] if `likely`; otherwise true.
#[inline(always)]
pub(crate) fn is_likely_if(likely: bool, octets: &[u8], offset: u64) -> bool
    requires { IsAllOfPrimitive octets.now offset }
    ensures unasked { likely ≡ false → result ≡ true }
    ensures asked { likely ≡ true → (fields : HeaderFields) (count : ℕ)
        → BeginsWithFields octets.now offset false fields count
        → IsTrue result ↔ IsClearPrimitive (new_header fields (take count octets.now)) (drop count octets.now) }
{
    !likely || is_clear_at(octets, offset)
}

/// Whether the primitive at this offset, encoded by these octets, is of the universal class and has no findings under
/// BER.
#[inline(never)]
fn is_clear_at(octets: &[u8], offset: u64) -> bool
    requires { IsAllOfPrimitive octets.now offset }
    ensures { (fields : HeaderFields) (count : ℕ) → BeginsWithFields octets.now offset false fields count
        → IsTrue result ↔ IsClearPrimitive (new_header fields (take count octets.now)) (drop count octets.now) }
{
    match quick_header_at(octets, offset) {
        Some((fields, count)) => is_clear_primitive(&fields, &octets[..count], &octets[count..]),
        None => false,
    }
}

/// Whether a primitive with this header and these contents is of the universal class and has no findings under BER.
#[inline(never)]
fn is_clear_primitive(fields: &HeaderFields, header: &[u8], contents: &[u8]) -> bool
    requires sized { IsHeaderSized fields.now header.now }
    requires all { announced_length fields.now.size ≡ length contents.now }
    ensures { IsTrue result ↔ IsClearPrimitive (new_header fields.now header.now) contents.now }
{
    matches!(fields.class, Class::Universal)
        && !has_basic_findings(&Header::new(fields, header), contents)
}
