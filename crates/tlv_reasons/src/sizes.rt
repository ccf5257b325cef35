//! What the length of the outermost element says about octets that are missing or too many.
ghost use Rattle.std.specs.Prelude.{◌≡◌, ◌<◌, ◌≤◌, IfSome};
ghost use Rattle.tlv_reasons.specs.Sizes.{difference_at, difference_of, is_followed_alike, says_sizes, size_difference};
ghost use Rattle.tlv_reasons.specs.Sizes.{size_sentence, size_sentence_of};

use crate::facts_call::octet_at;
use crate::leftovers::is_followed_by_other;
use crate::{Element, Facts, Sentence};
use tlv_head::{Fault, FaultCode};

/// The sentence about sizes: whether the outermost open element, if its length is definite, ends with the input, behind
/// it, or in front of its end. `None` if the sentences about the fault say it, or if what is left over is no element.
pub(crate) fn size_sentence(octets: &[u8], facts: &Facts) -> Option<Sentence>
    ensures { result ≡ size_sentence octets.now facts.now }
{
    if says_sizes(facts.fault) || is_followed_by_other(octets, facts.top) {
        return None;
    }
    let element = facts.holders.as_slice().first().copied()?;
    let end = element.end?;
    size_sentence_of(octets, element, end)
}

/// By how many octets an input is longer or shorter than its outermost open element says.
#[derive(Clone, Copy)]
pub(crate) struct Difference {
    /// How many.
    pub(crate) by: u64,
    /// Whether the input is longer.
    pub(crate) is_longer: bool,
}

/// The most octets by which they may differ.
const MOST_DIFFERENT: u64 = 4096;

/// By how many octets the input is longer or shorter than its outermost open element says, if that has a definite length
/// and ends at most 4096 octets behind or in front of the end of the input, but not with it. `None` also if an octet with
/// which that element begins stands at its end: another record may follow.
pub(crate) fn size_difference(octets: &[u8], facts: &Facts) -> Option<Difference>
    ensures difference { result ≡ size_difference octets.now facts.now }
    ensures near { IfSome result (λ d. (0 < d.by) × (d.by ≤ 4096)) }
{
    let element = facts.holders.as_slice().first().copied()?;
    let end = element.end?;
    difference_at(octets, element, end)
}

/// By how many octets the input is longer or shorter than this element says, which ends at this offset. `None` also where
/// another record may follow.
fn difference_at(octets: &[u8], element: Element, end: u64) -> Option<Difference>
    ensures difference { result ≡ difference_at octets.now element end }
    ensures near { IfSome result (λ d. (0 < d.by) × (d.by ≤ 4096)) }
{
    if is_followed_alike(octets, element, end) {
        return None;
    }
    difference_of(octets.len() as u64, end)
}

/// By how many octets an input of this size is longer or shorter than one that ends at this offset.
fn difference_of(size: u64, end: u64) -> Option<Difference>
    ensures difference { result ≡ difference_of size end }
    ensures near { IfSome result (λ d. (0 < d.by) × (d.by ≤ 4096)) }
{
    let by = size.abs_diff(end);
    if by == 0 || by > MOST_DIFFERENT {
        return None;
    }
    Some(Difference {
        by,
        is_longer: end < size,
    })
}

/// Whether the sentences about this fault say where the outermost element ends.
pub(crate) fn says_sizes(fault: Option<Fault>) -> bool
    ensures { result ≡ says_sizes fault }
{
    match fault {
        Some(fault) => matches!(fault.code, FaultCode::Short),
        None => false,
    }
}

/// The sentence about this element, which ends at this offset.
fn size_sentence_of(octets: &[u8], element: Element, end: u64) -> Option<Sentence>
    ensures { result ≡ size_sentence_of octets.now element end }
{
    let size = octets.len() as u64;
    if end == size {
        return Some(Sentence::NoneLost(element));
    }
    if size < end {
        return Some(Sentence::SomeLost { element, end: size });
    }
    if is_followed_alike(octets, element, end) {
        return None;
    }
    Some(Sentence::SomePutIn { element, end: size })
}

/// Whether an octet with which this element begins stands at its end: another record may follow.
fn is_followed_alike(octets: &[u8], element: Element, end: u64) -> bool
    ensures { result ≡ is_followed_alike octets.now element end }
{
    end < octets.len() as u64 && octet_at(octets, end) == octet_at(octets, element.offset)
}
