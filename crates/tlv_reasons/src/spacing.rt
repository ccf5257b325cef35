//! Encodings, between each two of which other octets stand.
ghost use Rattle.std.specs.Prelude.{◌≡◌, ◌<◌, ◌≤◌, IfSome, MatchOption, Some, length, ℕ};
ghost use Rattle.tlv_head.specs.Limits.{input_limit};
ghost use Rattle.tlv_reasons.specs.Spacing.{AreSpaced, EndsAsStated, IsNotSpacedFrom, IsSpacedFrom, IsSpacing};
ghost use Rattle.tlv_reasons.specs.Spacing.{IsSpacingFrom, IsWholeFrom, are_alike};

use crate::facts_call::octet_at;
use crate::sound::is_sound;
use tlv_head::{Size, read_header};

/// The most octets that may stand between each two encodings.
const MOST_BETWEEN: usize = 8;

/// Encodings, between each two of which so many other octets stand. Offsets are in octets from the start of the input.
#[derive(Clone, Copy, PartialEq, Eq, Debug)]
pub struct Spacing {
    /// Where the first encoding begins.
    pub first: u64,
    /// Where it ends.
    pub end: u64,
    /// The number of octets between each two encodings.
    pub gap: u64,
    /// The number of encodings.
    pub count: u64,
}

/// How the encodings of the input are spaced: two or more constructed elements of definite length, each of which parses
/// by itself, with 1 to 8 other octets between each two, the fewest that do. As many stand in front of the first, or
/// none, and as many behind the last, or none. What stands behind the first does not begin as it does. `None` if the
/// input is not so, or if it is sound with octets `00` allowed at the top level.
pub fn spaced_encodings(octets: &[u8]) -> Option<Spacing>
    requires { length octets.now ≤ input_limit }
    ensures { IsSpacing octets.now result }
{
    if is_sound(octets, true) {
        return None;
    }
    first_spacing(octets)
}

/// [`spaced_encodings`] of an input that is not sound with octets `00` at the top level.
fn first_spacing(octets: &[u8]) -> Option<Spacing>
    requires { length octets.now ≤ input_limit }
    ensures { IsSpacingFrom octets.now 1 result }
{
    for gap in 1..MOST_BETWEEN + 1 {
        if let Some(spacing) = spacing_of(octets, gap) {
            return Some(spacing);
        }
    }
    None
}

/// How the encodings are spaced with so many octets between each two.
fn spacing_of(octets: &[u8], gap: usize) -> Option<Spacing>
    requires limit { length octets.now ≤ input_limit }
    requires gap { gap ≤ 8 }
    ensures { MatchOption result (IsNotSpacedFrom octets.now gap 0 × IsNotSpacedFrom octets.now gap gap)
        (λ s. IsSpacingFrom octets.now gap (Some s)) }
{
    if let Some(spacing) = spaced_from(octets, gap, 0) {
        return Some(spacing);
    }
    match spaced_from(octets, gap, gap) {
        Some(spacing) => Some(spacing),
        None => None,
    }
}

/// The same, from this offset on. Only headers are read, unless a second element follows by them.
fn spaced_from(octets: &[u8], gap: usize, first: usize) -> Option<Spacing>
    requires limit { length octets.now ≤ input_limit }
    requires gap { gap ≤ 8 }
    ensures { MatchOption result (IsNotSpacedFrom octets.now gap first) (λ s. IsSpacedFrom octets.now gap first s) }
{
    let Some(end) = stated_end(octets, first) else {
        return None;
    };
    let Some(_) = stated_end(octets, end + gap) else {
        return None;
    };
    if are_alike(octets, first, end) {
        return None;
    }
    let Some(count) = spaced_count(octets, gap, first) else {
        return None;
    };
    Some(Spacing {
        first: first as u64,
        end: end as u64,
        gap: gap as u64,
        count,
    })
}

/// Whether the octets at these two offsets are equal.
pub(crate) fn are_alike(octets: &[u8], first: usize, second: usize) -> bool
    ensures { result ≡ are_alike octets.now first second }
{
    octet_at(octets, first as u64) == octet_at(octets, second as u64)
}

/// The number of encodings from this offset on.
fn spaced_count(octets: &[u8], gap: usize, first: usize) -> Option<u64>
    requires limit { length octets.now ≤ input_limit }
    requires gap { gap ≤ 8 }
    ensures { MatchOption result ((n : ℕ) → AreSpaced gap octets.now first n → ⊥)
        (λ n. AreSpaced gap octets.now first n) }
{
    let mut at = first;
    let mut count = 0;
    loop {
        let Some(end) = whole_end(octets, at) else {
            return None;
        };
        count += 1;
        if end == octets.len() {
            return Some(count);
        }
        if end + gap == octets.len() {
            return Some(count);
        }
        if end + gap > octets.len() {
            return None;
        }
        at = end + gap;
    }
}

/// Where the whole constructed element of definite length ends that begins at this offset and parses by itself.
fn whole_end(octets: &[u8], offset: usize) -> Option<usize>
    requires { length octets.now ≤ input_limit }
    ensures end { MatchOption result ((end : ℕ) → IsWholeFrom octets.now offset end → ⊥)
        (λ end. IsWholeFrom octets.now offset end) }
    ensures within { IfSome result (λ end. (offset < end) × (end ≤ length octets.now)) }
{
    let Some(end) = stated_end(octets, offset) else {
        return None;
    };
    if is_sound(&octets[offset..end], false) {
        Some(end)
    } else {
        None
    }
}

/// Where the constructed element of definite length that begins at this offset ends, in the input, by its header.
pub(crate) fn stated_end(octets: &[u8], offset: usize) -> Option<usize>
    requires { length octets.now ≤ input_limit }
    ensures end { MatchOption result ((end : ℕ) → EndsAsStated octets.now offset end → ⊥)
        (λ end. EndsAsStated octets.now offset end) }
    ensures within { IfSome result (λ end. (offset < end) × (end ≤ length octets.now)) }
{
    if offset > octets.len() {
        return None;
    }
    let (fields, count) = read_header(offset as u64, false, &octets[offset..])?;
    let Size::Definite(size) = fields.size else {
        return None;
    };
    if !fields.constructed {
        return None;
    }
    if size > (octets.len() - offset - count) as u64 {
        return None;
    }
    Some(offset + count + size as usize)
}
