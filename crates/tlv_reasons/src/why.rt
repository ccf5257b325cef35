//! Why octets do not parse.
ghost use Rattle.std.specs.Prelude.{◌≡◌, ◌≤◌, ◌+◌, ◌++◌, length};
ghost use Rattle.tlv_reasons.specs.Why.{fault_reasons, fault_sentences, first_sentence, is_mostly_whole, reasons_of, says_rest, with_rest};

use crate::fault_reasons::{Reasons, code_reasons, joined};
use crate::holders::innermost_holder;
use crate::leftovers::{following_reasons, is_followed_by_other, left_over};
use crate::{Facts, Sentence};
use tlv_head::{Fault, FaultCode};

/// The first sentence about octets with these facts ([`facts_of`](crate::facts_of)): that they parse, or the message of
/// the fault.
pub fn first_sentence(octets: &[u8], facts: &Facts) -> Sentence
    ensures { result ≡ first_sentence octets.now facts.now }
{
    match facts.fault {
        None => Sentence::Parses(octets.len() as u64),
        Some(fault) => Sentence::DoesNotParse(fault),
    }
}

/// The sentences after that: the headers that may be at fault, the number of octets that are missing or left over, and
/// what to try. There are none if the octets parse.
pub fn reasons_of(octets: &[u8], facts: &Facts) -> Reasons
    ensures reasons { result.items ≡ reasons_of octets.now facts.now }
    ensures few { length result.items ≤ 8 }
{
    match facts.fault {
        None => Reasons::new(),
        Some(fault) => fault_reasons(fault, octets, facts),
    }
}

/// The sentences about the fault alone. There are none if the octets parse.
pub(crate) fn fault_sentences(octets: &[u8], facts: &Facts) -> Reasons
    ensures reasons { result.items ≡ fault_sentences octets.now facts.now }
    ensures few { length result.items ≤ 6 }
{
    match facts.fault {
        None => Reasons::new(),
        Some(fault) => code_reasons(fault, octets, facts),
    }
}

/// The sentences about this fault, and about what is left over.
fn fault_reasons(fault: Fault, octets: &[u8], facts: &Facts) -> Reasons
    ensures reasons { result.items ≡ fault_reasons fault octets.now facts.now }
    ensures few { length result.items ≤ 8 }
{
    if is_followed_by_other(octets, facts.top) {
        return following_reasons(octets, facts.top);
    }
    let reasons = code_reasons(fault, octets, facts);
    if says_rest(fault.code, facts) {
        return reasons;
    }
    with_rest(octets.len() as u64, facts.top, reasons.as_slice())
}

/// These sentences, with what is left over before them or after them.
fn with_rest(size: u64, top: u64, reasons: &[Sentence]) -> Reasons
    requires { length reasons.now ≤ 6 }
    ensures reasons { result.items ≡ with_rest size top reasons.now }
    ensures few { length result.items ≤ 8 }
{
    let rest = left_over(top, size.saturating_sub(top));
    if is_mostly_whole(size, top) {
        joined(rest.as_slice(), reasons)
    } else {
        joined(reasons, rest.as_slice())
    }
}

/// Whether the sentences about this fault code already say what is left over.
fn says_rest(code: FaultCode, facts: &Facts) -> bool
    ensures { result ≡ says_rest code facts.now }
{
    match code {
        FaultCode::Empty => true,
        FaultCode::StrayEnd => innermost_holder(facts).is_none(),
        _ => false,
    }
}

/// Whether the whole encodings, which end at the offset `top`, make up at least half of an input of this size.
fn is_mostly_whole(size: u64, top: u64) -> bool
    ensures { result ≡ is_mostly_whole size top }
{
    size.saturating_sub(top) <= top
}
