//! Which single length, changed, would mend an input.
ghost use Rattle.std.specs.Prelude.{◌≡◌, ◌<◌, ◌≤◌, ◌+◌, ◌++◌, ◌-◌, ◌^◌, All, IfOk, MatchOption, [], length};
ghost use Rattle.std.specs.List.{cons_option};
ghost use Rattle.tlv_reasons.specs.FirstOf.{IsFirstOf};
ghost use Rattle.tlv_reasons.specs.Private.Lengths.{MendedWithOctets, sayable};
ghost use Rattle.tlv_reasons.specs.WrongLength.{AreWrongLengths, HasNoOtherLength, IsOtherLength, NamesLengths};
ghost use Rattle.tlv_reasons.specs.WrongLength.{most_named, nearer_reach, reach_in, reach_of, search_limit};

use crate::Element;
use crate::bounds::Bounds;
use crate::length_octets::{LengthPlace, can_say, is_mended_with};
use crate::tried_lengths::tried_lengths;
use arrayvec::ArrayVec;
use std::alloc::{AllocError, Global};
use tlv_head::{Size, read_header};
use tlv_walk::Framing;

/// The greatest number of octets of an input that is searched.
pub const SEARCH_LIMIT: usize = 1 << 20;

/// Headers whose length may be wrong.
pub type WrongLengths = ArrayVec<WrongLength, 3>;

/// A header whose length may be wrong: another length would mend the input.
#[derive(Clone, Copy, PartialEq, Eq, Debug)]
pub struct WrongLength {
    /// Where the header begins, in octets from the start of the input.
    pub offset: usize,
    /// The number of contents octets that it states.
    pub said: u64,
    /// The number that it would have to state.
    pub would: u64,
}

/// Only for filling arrays.
impl Default for WrongLength {
    fn default() -> WrongLength {
        WrongLength {
            offset: 0,
            said: 0,
            would: 0,
        }
    }
}

/// Finds which of the headers at these offsets, in octets from the start of the input, may have a wrong length: the first
/// three for which another length would mend the input, each with the first such length. These lengths are tried:
/// 1 to 5 octets more or fewer, nearer ones first, and of two that are equally near the greater first; those that differ
/// in one bit; the octets of the length in reverse order; 256 octets more or fewer; and, if the element is constructed, the
/// length with which it ends where the innermost of the open elements (`holders`) in front of it ends, or with the input.
/// The other length takes as many length octets as before. Unless `bounds.wide` is set, only those at most 5 octets
/// away are tried, and one header is named. Of an input of more than [`SEARCH_LIMIT`] octets there is none. `framing`
/// says how the input is read: which strings hold encodings, and whether octets `00` are allowed at the top level.
///
/// # Errors
///
/// `AllocError` if memory for a copy of the input is refused.
pub fn wrong_lengths(
    alloc: Global,
    octets: &[u8],
    framing: &Framing<'_>,
    bounds: Bounds,
    holders: &[Element],
    candidates: &[usize],
) -> Result<WrongLengths, AllocError>
    ensures { IfOk result
        (λ found. NamesLengths framing.now bounds octets.now holders.now candidates.now found.items) }
{
    if octets.len() > SEARCH_LIMIT {
        return Ok(WrongLengths::new());
    }
    let mut copy = Vec::new(alloc);
    copy.extend_from_slice(octets)?;
    Ok(lengths_among(
        octets,
        copy.as_mut_slice(),
        framing,
        bounds,
        holders,
        candidates,
    ))
}

/// [`wrong_lengths`] of an input that is searched. Changes a copy of the input, and restores it in the end.
fn lengths_among(
    octets: &[u8],
    copy: &mut [u8],
    framing: &Framing<'_>,
    bounds: Bounds,
    holders: &[Element],
    candidates: &[usize],
) -> WrongLengths
    requires copied { copy.old ≡ octets.now }
    requires limit { length octets.now ≤ search_limit }
    ensures { AreWrongLengths framing.now bounds octets.now holders.now (most_named bounds.wide) candidates.now
        result.items }
{
    let most = most_named(bounds.wide);
    let mut found = WrongLengths::new();
    for &candidate in candidates {
        if found.len() >= most {
            return found;
        }
        let wrong = wrong_length_at(octets, copy, framing, bounds, holders, candidate);
        add_length(wrong, &mut found);
    }
    found
}

/// The most headers that are named.
fn most_named(wide: bool) -> usize
    ensures most { result ≡ most_named wide }
    ensures few { result ≤ 3 }
{
    if wide { 3 } else { 1 }
}

/// Adds a length, if there is one, to a list that has room for it.
fn add_length(wrong: Option<WrongLength>, found: &mut WrongLengths)
    requires { length found.old.items < 3 }
    ensures { found.new.items ≡ found.old.items ++ cons_option wrong [] }
{
    if let Some(wrong) = wrong {
        found.push(wrong);
    }
}

/// The length that the header at this offset states, and the length that would mend the input.
fn wrong_length_at(
    octets: &[u8],
    copy: &mut [u8],
    framing: &Framing<'_>,
    bounds: Bounds,
    holders: &[Element],
    offset: usize,
) -> Option<WrongLength>
    requires copied { copy.old ≡ octets.now }
    requires limit { length octets.now ≤ search_limit }
    ensures copied { copy.new ≡ octets.now }
    ensures found { MatchOption result (HasNoOtherLength framing.now bounds octets.now holders.now offset)
        (λ w. IsOtherLength framing.now bounds octets.now holders.now offset w) }
{
    if offset > octets.len() {
        return None;
    }
    let (fields, count) = read_header(offset as u64, false, &octets[offset..])?;
    let Size::Definite(said) = fields.size else {
        return None;
    };
    let place = LengthPlace {
        start: offset + usize::from(fields.id_len),
        end: offset + count,
    };
    let reach = reach_in(holders, offset, octets.len());
    let lengths = tried_lengths(place, fields.constructed, bounds.wide, reach, said);
    match first_right_length(octets, copy, framing, bounds, place, lengths.as_slice()) {
        Some(would) => Some(WrongLength {
            offset,
            said,
            would,
        }),
        None => None,
    }
}

/// Where an element at this offset should end: where the innermost of the open elements of definite length that begins in
/// front of it ends; or with the input, which has this size, behind whose end nothing ends.
fn reach_in(holders: &[Element], offset: usize, size: usize) -> usize
    ensures { result ≡ reach_in holders.now offset size }
{
    let mut reach = size as u64;
    for holder in holders {
        reach = nearer_reach(holder, offset as u64, reach);
    }
    reach.min(size as u64) as usize
}

/// Where this open element ends, if it begins in front of the offset and has a definite length; else `reach`.
fn nearer_reach(holder: &Element, offset: u64, reach: u64) -> u64
    ensures { result ≡ nearer_reach holder.now offset reach }
{
    if holder.offset < offset {
        holder.end.unwrap_or(reach)
    } else {
        reach
    }
}

/// The first of these lengths that the length octets there can state and that mends the input.
fn first_right_length(
    octets: &[u8],
    copy: &mut [u8],
    framing: &Framing<'_>,
    bounds: Bounds,
    place: LengthPlace,
    lengths: &[u64],
) -> Option<u64>
    requires copied { copy.old ≡ octets.now }
    requires limit { length octets.now ≤ search_limit }
    requires some { place.start < place.end }
    requires within { place.end ≤ length octets.now }
    requires below { All (λ n. n < 2 ^ 41) lengths.now }
    ensures copied { copy.new ≡ octets.now }
    ensures first { IsFirstOf (MendedWithOctets framing.now bounds place.start place.end octets.now)
        (sayable (place.end - place.start) lengths.now) result }
{
    for &length in lengths {
        if can_say(place.end - place.start, length)
            && is_mended_with(octets, copy, framing, bounds, place, length)
        {
            return Some(length);
        }
    }
    None
}
