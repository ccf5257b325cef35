//! Where else encodings begin in an input.
ghost use Rattle.std.specs.Option.{option_map_or};
ghost use Rattle.std.specs.Prelude.{◌≡◌, ◌<◌, ◌≤◌, ◌+◌, ◌^◌, ◌↔◌, IfSome, IsTrue, Some, false, length, min, take, ℕ};
ghost use Rattle.tlv_head.specs.declared.fault.FaultCode.TheVariants.{StrayEnd};
ghost use Rattle.tlv_head.specs.declared.header.Size.TheVariants.{Definite, Indefinite};
ghost use Rattle.tlv_head.specs.Header.{definite_length};
ghost use Rattle.tlv_head.specs.Limits.{input_limit};
ghost use Rattle.std.specs.Str.TwoWay.{IsFirst};
ghost use Rattle.tlv_reasons.specs.NextStart.{BeginsAndEnds, BeginsWithEncodings, EndsWithInput, IsFirstOther, IsFirstStart};
ghost use Rattle.tlv_reasons.specs.NextStart.{IsNextStart, IsOneStart, IsOtherStart, IsStart, SeemsRight, ends_near_by};
ghost use Rattle.tlv_open.specs.Opens.{closed_framing};
ghost use Rattle.tlv_walk.specs.Ending.{IsEnding, fault_ending};
ghost use Rattle.tlv_walk.specs.Reading.{IsSoundList};

use crate::sound::is_sound;
use tlv_head::{HeaderFields, Size, read_header};
use tlv_open::ending_of;
use tlv_walk::Ending;

/// The greatest offset at which encodings are looked for, in octets from the start of the input.
const START_LIMIT: usize = 256;

/// The offset from which an input with a fault at the offset `fault`, and with whole elements up to the offset `top`, is
/// sound, in octets from its start: the first from 1 to 256 from which it is a single element, or, if there is none, the
/// first at which a constructed element begins. Its first octet is no space (`20`), and at least 10 octets are there. If
/// the first element of the input seems right, that is, it is constructed and its contents begin with whole encodings, and
/// the fault is inside it, the offset lies behind the fault. `None` also if the first element seems right and is whole; if
/// it ends with the input; or if it is constructed and ends near the end of the input: the distance is at most a quarter
/// of the input. With `padding`, octets `00` are allowed between encodings and after them.
pub fn next_start(octets: &[u8], padding: bool, top: usize, fault: usize) -> Option<usize>
    requires { length octets.now ≤ input_limit }
    ensures { IsNextStart padding octets.now top fault result }
{
    if begins_and_ends(octets) {
        return None;
    }
    if !seems_right(octets) {
        return first_start(octets, padding, 1);
    }
    if top > 0 {
        return None;
    }
    first_start(octets, padding, fault.saturating_add(1))
}

/// Whether the first element of the input ends with it, or near its end.
fn begins_and_ends(octets: &[u8]) -> bool
    requires { length octets.now ≤ input_limit }
    ensures { IsTrue result ↔ BeginsAndEnds octets.now }
{
    match read_header(0, false, octets) {
        Some((fields, count)) => ends_near(&fields, count, octets.len()),
        None => false,
    }
}

/// Whether an element with a header of `count` octets, at the start of an input of `size` octets, ends with the input, or,
/// if it is constructed, near its end.
fn ends_near(fields: &HeaderFields, count: usize, size: usize) -> bool
    requires count { count ≤ size }
    requires size { size ≤ input_limit }
    requires short { IfSome (definite_length fields.now.size) (λ n. n < 2 ^ 40) }
    ensures { result ≡ ends_near_by fields.now.constructed count size (definite_length fields.now.size) }
{
    match fields.size {
        Size::Definite(length) => {
            let by = (count as u64 + length).abs_diff(size as u64);
            by == 0 || fields.constructed && 4 * by <= size as u64
        }
        Size::Indefinite => false,
    }
}

/// The first such offset, from this one on, from which the input is a single element; or, if there is none, the first.
fn first_start(octets: &[u8], padding: bool, first: usize) -> Option<usize>
    requires { length octets.now ≤ input_limit }
    ensures { IsFirstStart padding octets.now first result }
{
    match first_alone(octets, padding, first) {
        Some(offset) => Some(offset),
        None => first_other(octets, padding, first),
    }
}

/// The first such offset, from this one on, from which the input is a single element.
fn first_alone(octets: &[u8], padding: bool, first: usize) -> Option<usize>
    requires { length octets.now ≤ input_limit }
    ensures { IsFirst (IsOneStart padding octets.now) first (min 257 (length octets.now)) result }
{
    let end = octets.len().min(START_LIMIT + 1);
    for offset in first..end {
        if ends_with_input(octets, offset) && is_other_start(octets, offset, padding) {
            return Some(offset);
        }
    }
    None
}

/// The first such offset, from this one on.
fn first_other(octets: &[u8], padding: bool, first: usize) -> Option<usize>
    requires { length octets.now ≤ input_limit }
    ensures { IsFirstOther padding octets.now first result }
{
    let end = octets.len().min(START_LIMIT + 1);
    for offset in first..end {
        if is_other_start(octets, offset, padding) {
            return Some(offset);
        }
    }
    None
}

/// Whether an element begins at this offset that ends with the input.
fn ends_with_input(octets: &[u8], offset: usize) -> bool
    requires { offset ≤ length octets.now }
    ensures { IsTrue result ↔ EndsWithInput octets.now offset }
{
    let rest = &octets[offset..];
    match read_header(offset as u64, false, rest) {
        Some((fields, count)) => ends_with(fields.size, &rest[count..]),
        None => false,
    }
}

/// Whether contents of this length are exactly these octets.
fn ends_with(size: Size, after: &[u8]) -> bool
    ensures { IsTrue result ↔ (definite_length size ≡ Some (length after.now)) }
{
    match size {
        Size::Definite(length) => length == after.len() as u64,
        Size::Indefinite => false,
    }
}

/// Whether the input is sound from this offset on, a constructed element begins there, its first octet is no space, and
/// at least 10 octets are there.
fn is_other_start(octets: &[u8], offset: usize, padding: bool) -> bool
    requires limit { length octets.now ≤ input_limit }
    requires within { offset < length octets.now }
    ensures { IsTrue result ↔ IsOtherStart padding octets.now offset }
{
    octets.len() - offset >= 10 && octets[offset] != b' ' && is_start(octets, offset, padding)
}

/// Whether the input is sound from this offset on, and a constructed element begins there.
fn is_start(octets: &[u8], offset: usize, padding: bool) -> bool
    requires limit { length octets.now ≤ input_limit }
    requires within { offset ≤ length octets.now }
    ensures { IsTrue result ↔ IsStart padding octets.now offset }
{
    let rest = &octets[offset..];
    match read_header(offset as u64, false, rest) {
        Some((fields, _)) => fields.constructed && is_sound(rest, padding),
        None => false,
    }
}

/// Whether the first element of the input is constructed and its contents begin with whole encodings.
fn seems_right(octets: &[u8]) -> bool
    requires { length octets.now ≤ input_limit }
    ensures { IsTrue result ↔ SeemsRight octets.now }
{
    match read_header(0, false, octets) {
        Some((fields, count)) => {
            let after = &octets[count..];
            fields.constructed && begins_with_encodings(contents_among(fields.size, after))
        }
        None => false,
    }
}

/// The octets after a header that are contents, by the length in the header.
fn contents_among(size: Size, after: &[u8]) -> &[u8]
    ensures contents { result.now ≡ option_map_or (λ n. take n after.now) (definite_length size) after.now }
    ensures within { length result.now ≤ length after.now }
{
    match size {
        Size::Definite(length) if length < after.len() as u64 => &after[..length as usize],
        _ => after,
    }
}

/// Whether the octets begin with one or more whole encodings.
fn begins_with_encodings(octets: &[u8]) -> bool
    requires { length octets.now ≤ input_limit }
    ensures { IsTrue result ↔ BeginsWithEncodings octets.now }
{
    match first_size(octets) {
        Some(size) => is_sound(&octets[..size], false),
        None => false,
    }
}

/// The number of octets of the encoding with which the octets begin, if they begin with one.
fn first_size(octets: &[u8]) -> Option<usize>
    requires { length octets.now ≤ input_limit }
    ensures within { IfSome result (λ n. n ≤ length octets.now) }
    ensures size { BeginsWithEncodings octets.now
        → (n : ℕ) × (result ≡ Some n) × IsSoundList (closed_framing false) (take n octets.now) }
{
    let Some((fields, count)) = read_header(0, false, octets) else {
        return None;
    };
    let Some(size) = contents_size(fields.size, &octets[count..]) else {
        return None;
    };
    Some(count + size)
}

/// The number of octets of the contents and their end, by the length in the header. The octets begin with the contents.
fn contents_size(size: Size, after: &[u8]) -> Option<usize>
    requires { length after.now ≤ input_limit }
    ensures within { IfSome result (λ n. n ≤ length after.now) }
    ensures definite { (n : ℕ) → size ≡ Definite n → n ≤ length after.now → result ≡ Some n }
    ensures indefinite { (n : ℕ) → size ≡ Indefinite
        → IsEnding (closed_framing false) after.now (fault_ending StrayEnd n)
        → n + 2 ≤ length after.now → result ≡ Some (n + 2) }
{
    match size {
        Size::Definite(length) => definite_size(length, after),
        Size::Indefinite => indefinite_size(after),
    }
}

/// The length of the contents, if these octets hold all of them.
fn definite_size(size: u64, after: &[u8]) -> Option<usize>
    ensures within { IfSome result (λ n. n ≤ length after.now) }
    ensures size { size ≤ length after.now → result ≡ Some size }
{
    if size <= after.len() as u64 {
        Some(size as usize)
    } else {
        None
    }
}

/// The number of octets of the contents in the indefinite form, with their end. The octets begin with the contents;
/// read by themselves, they break at the first of the end-of-contents octets.
fn indefinite_size(after: &[u8]) -> Option<usize>
    requires { length after.now ≤ input_limit }
    ensures within { IfSome result (λ n. n ≤ length after.now) }
    ensures size { (n : ℕ) → IsEnding (closed_framing false) after.now (fault_ending StrayEnd n)
        → n + 2 ≤ length after.now → result ≡ Some (n + 2) }
{
    match ending_of(after, false) {
        Ending::Fault(fault) if fault.offset < after.len() as u64 => {
            definite_size(fault.offset + 2, after)
        }
        _ => None,
    }
}
