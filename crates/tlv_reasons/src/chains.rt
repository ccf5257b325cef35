//! Lengths of elements inside one another that would all have to be greater or smaller by the same number.
ghost use Rattle.std.specs.List.{filter};
ghost use Rattle.std.specs.Prelude.{◌≡◌, ◌<◌, ◌≤◌, ◌↔◌, ◌^◌, IfOk, IfSome, IsTrue, List, false, length, map, true, ℕ};
ghost use Rattle.tlv_head.specs.Limits.{input_limit};
ghost use Rattle.tlv_reasons.specs.Chains.{AreAround, AreMoved, IsChain, IsChainAt, IsFirstChain, IsMoved, WouldMend};
ghost use Rattle.tlv_reasons.specs.Chains.{chain_limit, chain_of, moved_length};
ghost use Rattle.tlv_reasons.specs.OpenHolders.{has_end};
ghost use Rattle.tlv_reasons.specs.Suspects.{element_offset};
ghost use Rattle.tlv_reasons.specs.Mended.{wide_limit};

use crate::bounds::WIDE_LIMIT;
use crate::facts_call::facts_of;
use crate::holders::has_end;
use crate::length_octets::{can_say, set_length};
use crate::sizes::{Difference, size_difference};
use crate::sound::{closed_framing, is_sound};
use crate::{Element, Facts};
use arrayvec::ArrayVec;
use std::alloc::{AllocError, Global};
use tlv_head::{Size, read_header};

/// The most lengths that are changed together.
const CHAIN_LIMIT: usize = 8;

/// The offsets of headers: of those around a place, and of one there.
type HeaderOffsets = ArrayVec<u64, 129>;

/// Headers of elements inside one another: if each length were greater or smaller by the same number, the input would
/// be sound.
#[derive(Clone, Copy, PartialEq, Eq, Debug)]
pub struct Chain {
    /// Where the headers begin, outermost first, in octets from the start of the input. Only the first `count` count;
    /// the others are 0.
    pub offsets: [u64; CHAIN_LIMIT],
    /// The number of headers.
    pub count: usize,
    /// How many octets each length would have to be greater or smaller.
    pub by: u64,
    /// Whether they would have to be greater.
    pub is_greater: bool,
}

/// Finds headers of elements inside one another whose lengths are all too small or too great by one number, as they are
/// if octets were put into their contents or lost from them: with the other lengths, the input would be sound. The
/// number is that by which the input is longer or shorter than its outermost open element says, if it is 1 to 4096
/// octets. For each of these offsets (`candidates`, in octets from the start of the input), in order, two lists of
/// headers are tried: those of definite length whose elements are open at that offset; then these and the header there.
/// A list has 1 to 8 headers, and each states its other length in as many length octets as before. The first list with
/// which the input would be sound is the chain. `None` if there is none, or if the input has more than 262144 octets.
/// `facts` are those of the input ([`facts_of`](crate::facts_of)); with `padding`, octets `00` are allowed at the top
/// level.
///
/// # Errors
///
/// `AllocError` if memory for a copy of the input is refused.
pub fn length_chain(
    alloc: Global,
    octets: &[u8],
    padding: bool,
    facts: &Facts,
    candidates: &[usize],
) -> Result<Option<Chain>, AllocError>
    ensures { IfOk result (λ found. IsChain padding octets.now facts.now candidates.now found) }
{
    if octets.len() > WIDE_LIMIT {
        return Ok(None);
    }
    let Some(difference) = size_difference(octets, facts) else {
        return Ok(None);
    };
    let mut copy = Vec::new(alloc);
    copy.extend_from_slice(octets)?;
    Ok(first_chain(octets, copy.as_mut_slice(), padding, difference, candidates))
}

/// The first chain at one of these offsets. Changes a copy of the input, and restores it in the end.
fn first_chain(
    octets: &[u8],
    copy: &mut [u8],
    padding: bool,
    difference: Difference,
    candidates: &[usize],
) -> Option<Chain>
    requires copied { copy.old ≡ octets.now }
    requires limit { length octets.now ≤ wide_limit }
    requires near { difference.by ≤ 4096 }
    ensures { IsFirstChain padding octets.now difference candidates.now result }
{
    for &candidate in candidates {
        let chain = chain_at(octets, copy, padding, difference, candidate);
        if chain.is_some() {
            return chain;
        }
    }
    None
}

/// The chain at this offset: the headers around it, or these and the header there. Changes a copy of the input, and
/// restores it in the end.
fn chain_at(
    octets: &[u8],
    copy: &mut [u8],
    padding: bool,
    difference: Difference,
    offset: usize,
) -> Option<Chain>
    requires copied { copy.old ≡ octets.now }
    requires limit { length octets.now ≤ wide_limit }
    requires near { difference.by ≤ 4096 }
    ensures copied { copy.new ≡ octets.now }
    ensures found { IsChainAt padding octets.now difference offset result }
{
    if offset > octets.len() {
        return None;
    }
    let mut headers = headers_around(&octets[..offset], padding);
    if would_mend(octets, copy, padding, difference, headers.as_slice()) {
        return Some(chain_of(headers.as_slice(), difference));
    }
    headers.push(offset as u64);
    if would_mend(octets, copy, padding, difference, headers.as_slice()) {
        return Some(chain_of(headers.as_slice(), difference));
    }
    None
}

/// The headers of definite length whose elements are open where these octets end, outermost first.
fn headers_around(octets: &[u8], padding: bool) -> HeaderOffsets
    requires { length octets.now ≤ input_limit }
    ensures around { AreAround padding octets.now result.items }
    ensures few { length result.items ≤ 128 }
{
    let facts = facts_of(octets, &closed_framing(padding));
    definite_offsets(facts.holders.as_slice())
}

/// The offsets of those of these elements that have a definite length.
fn definite_offsets(elements: &[Element]) -> HeaderOffsets
    requires { length elements.now ≤ 128 }
    ensures offsets { result.items ≡ map element_offset (filter has_end elements.now) }
    ensures few { length result.items ≤ 128 }
{
    let mut offsets = HeaderOffsets::new();
    for element in elements {
        if has_end(element) {
            offsets.push(element.offset);
        }
    }
    offsets
}

/// The chain of these headers.
fn chain_of(headers: &[u64], difference: Difference) -> Chain
    requires { length headers.now ≤ chain_limit }
    ensures { result ≡ chain_of difference headers.now }
{
    let mut offsets = [0; CHAIN_LIMIT];
    offsets[..headers.len()].copy_from_slice(headers);
    Chain {
        offsets,
        count: headers.len(),
        by: difference.by,
        is_greater: difference.is_longer,
    }
}

/// Whether these are 1 to 8 headers, and the input would be sound if they stated other lengths. Changes a copy of the
/// input, and restores it in the end.
fn would_mend(
    octets: &[u8],
    copy: &mut [u8],
    padding: bool,
    difference: Difference,
    headers: &[u64],
) -> bool
    requires copied { copy.old ≡ octets.now }
    requires limit { length octets.now ≤ wide_limit }
    requires near { difference.by ≤ 4096 }
    ensures copied { copy.new ≡ octets.now }
    ensures mends { IsTrue result ↔ WouldMend padding octets.now difference headers.now }
{
    if headers.is_empty() || headers.len() > CHAIN_LIMIT {
        return false;
    }
    let mends = move_lengths(copy, difference, headers) && is_sound(copy, padding);
    copy.copy_from_slice(octets);
    mends
}

/// Makes these headers state other lengths, if each can. Returns whether they can; if not, some may state others.
fn move_lengths(octets: &mut [u8], difference: Difference, headers: &[u64]) -> bool
    requires near { difference.by ≤ 4096 }
    ensures moved { result ≡ true → AreMoved difference headers.now octets.old octets.new }
    ensures unmoved { result ≡ false
        → (changed : List ℕ) → AreMoved difference headers.now octets.old changed → ⊥ }
{
    for &header in headers {
        if !move_length(octets, difference, header as usize) {
            return false;
        }
    }
    true
}

/// Makes the header at this offset state another length, if it can. Returns whether it can.
fn move_length(octets: &mut [u8], difference: Difference, offset: usize) -> bool
    requires near { difference.by ≤ 4096 }
    ensures moved { result ≡ true → IsMoved difference offset octets.old octets.new }
    ensures unmoved { result ≡ false → (changed : List ℕ) → IsMoved difference offset octets.old changed → ⊥ }
{
    if offset > octets.len() {
        return false;
    }
    let Some((fields, count)) = read_header(offset as u64, false, &octets[offset..]) else {
        return false;
    };
    let Size::Definite(said) = fields.size else {
        return false;
    };
    let Some(would) = moved_length(said, difference) else {
        return false;
    };
    let start = offset + usize::from(fields.id_len);
    let end = offset + count;
    if !can_say(end - start, would) {
        return false;
    }
    set_length(&mut octets[start..end], would);
    true
}

/// The length that is greater or smaller by the difference, if there is one.
fn moved_length(said: u64, difference: Difference) -> Option<u64>
    requires said { said < 2 ^ 40 }
    requires near { difference.by ≤ 4096 }
    ensures moved { result ≡ moved_length difference said }
    ensures below { IfSome result (λ would. would < 2 ^ 41) }
{
    if difference.is_longer {
        Some(said + difference.by)
    } else {
        said.checked_sub(difference.by)
    }
}
