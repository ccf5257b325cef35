//! All reasons why an input does not parse, and what may be done.
ghost use Rattle.std.specs.List.{filter};
ghost use Rattle.std.specs.Prelude.{◌≡◌, ◌≤◌, ◌++◌, ◌∷◌, IfOk, [], None, OnErr, Some, length, not, take};
ghost use Rattle.tlv_head.specs.Limits.{input_limit};
ghost use Rattle.tlv_reasons.specs.FaultReasons.{said};
ghost use Rattle.tlv_reasons.specs.FileKinds.{file_kind};
ghost use Rattle.tlv_reasons.specs.Facts.{fault_offset};
ghost use Rattle.tlv_reasons.specs.Remedies.{AreNamedLengths, AreReasons, AreRemedies, AreStringReasons};
ghost use Rattle.tlv_reasons.specs.Remedies.{is_suspicion, length_sentence, named_at, reasons_if, record_sentence};
ghost use Rattle.tlv_reasons.specs.Remedies.{replaced_before, replaced_sentence, unless_mended};
ghost use Rattle.tlv_reasons.specs.Suspects.{suspects_from};
ghost use Rattle.tlv_reasons.specs.Why.{fault_sentences};

use crate::bounds::Bounds;
use crate::fault_reasons::{Reasons, joined, said};
use crate::kinds::file_kind;
use crate::lengths::{WrongLength, WrongLengths, wrong_lengths};
use crate::records::{NextRecord, next_record};
use crate::remedy::{lengths_in, remedy, start_in};
use crate::sizes::size_sentence;
use crate::suspects::suspects_from;
use crate::text_changes::TextChange;
use crate::text_copies::has_replacement;
use crate::whole::whole_change;
use crate::why::{fault_sentences, reasons_of};
use crate::{Facts, Sentence};
use std::alloc::{AllocError, Global};
use tlv_walk::Framing;

/// All reasons why an input with these facts ([`facts_of`](crate::facts_of)) does not parse. If it is a file of another
/// kind: that it is, and nothing else. If it is known what was done to it as a whole: that, and the first sentence about
/// the fault. Otherwise these come, one after another:
///
/// - that it has octets `ef bf bd`, with which programs replace what is no UTF-8;
/// - what would mend it, the first that is found: where near its start it is sound from; octets that stand in place of
///   others; other lengths; a block that stands twice; an octet that is missing or was put in; lengths of elements inside
///   one another;
/// - if nothing of this was found, what the length of the outermost element says about lost octets;
/// - the sentences about the fault ([`reasons_of`](crate::reasons_of)), without those about lengths in front if something
///   was found that would mend it;
/// - where the next record begins. The tries for it may read `reads` octets in vain.
///
/// With `padding`, octets `00` are allowed at the top level.
///
/// # Errors
///
/// `AllocError` if memory for copies of the input is refused. A file of another kind needs none.
pub fn all_reasons(
    alloc: Global,
    octets: &[u8],
    padding: bool,
    facts: &Facts,
    reads: u64,
) -> Result<Reasons, AllocError>
    requires { length octets.now ≤ input_limit }
    ensures reasons { IfOk result (λ r. AreReasons reads padding octets.now facts.now r.items) }
    ensures few { IfOk result (λ r. length r.items ≤ 14) }
    ensures refused { OnErr result (file_kind octets.now ≡ None) }
{
    if let Some(kind) = file_kind(octets) {
        return Ok(said(&[Some(Sentence::OtherKind(kind))]));
    }
    match whole_change(alloc, octets, padding)? {
        Some(whole) => Ok(whole_reasons(whole, octets, facts)),
        None => other_reasons(alloc, octets, padding, facts, reads),
    }
}

/// The reasons of an input to which this was done as a whole.
fn whole_reasons(whole: Sentence, octets: &[u8], facts: &Facts) -> Reasons
    ensures reasons { result.items ≡ said (replaced_before whole octets.now ∷ Some whole ∷ [])
        ++ take 1 (fault_sentences octets.now facts.now) }
    ensures few { length result.items ≤ 3 }
{
    let mut first = fault_sentences(octets, facts);
    first.truncate(1);
    let front = said(&[replaced_before(&whole, octets), Some(whole)]);
    joined(front.as_slice(), first.as_slice())
}

/// The sentence about octets `ef bf bd`, if there are any and it comes in front of this one.
fn replaced_before(whole: &Sentence, octets: &[u8]) -> Option<Sentence>
    ensures { result ≡ replaced_before whole.now octets.now }
{
    match whole {
        Sentence::Traced(_) => replaced_sentence(octets),
        _ => None,
    }
}

/// The sentence about octets `ef bf bd`, if there are any.
fn replaced_sentence(octets: &[u8]) -> Option<Sentence>
    ensures { result ≡ replaced_sentence octets.now }
{
    if has_replacement(octets) {
        Some(Sentence::TextChanged(TextChange::Replaced))
    } else {
        None
    }
}

/// The reasons of an input that is no other kind of file, and to which nothing was done as a whole.
fn other_reasons(
    alloc: Global,
    octets: &[u8],
    padding: bool,
    facts: &Facts,
    reads: u64,
) -> Result<Reasons, AllocError>
    requires { length octets.now ≤ input_limit }
    ensures reasons { IfOk result (λ r. AreRemedies reads padding octets.now facts.now r.items) }
    ensures few { IfOk result (λ r. length r.items ≤ 14) }
{
    let top = facts.top as usize;
    let remedy = remedy(alloc, octets, padding, facts)?;
    let wrong = named_at(top, lengths_in(remedy).as_slice());
    let fault = fault_offset(facts);
    let next = next_record(octets, padding, fault, top, wrong, start_in(remedy), reads);
    let front = said(&[replaced_sentence(octets), remedy]);
    let reasons = reasons_if(remedy.is_some(), octets, facts);
    let record = said(&[next.map(record_sentence)]);
    let others = joined(reasons.as_slice(), record.as_slice());
    Ok(joined(front.as_slice(), others.as_slice()))
}

/// The sentence about where the next record begins.
fn record_sentence(next: NextRecord) -> Sentence
    ensures { result ≡ record_sentence next }
{
    match next.fault {
        None => Sentence::NextRecord(next.offset),
        Some(fault) => Sentence::NextRecordUpTo {
            offset: next.offset,
            fault,
        },
    }
}

/// Where the fault is; 0 if the octets parse.
pub(crate) fn fault_offset(facts: &Facts) -> usize
    ensures { result ≡ fault_offset facts.now }
{
    match facts.fault {
        Some(fault) => fault.offset as usize,
        None => 0,
    }
}

/// All reasons why the string at this offset breaks, in a reading of the input with these facts: the lengths that would
/// make the input sound, if there are any, and the sentences about the fault. Headers in front of the string are not
/// tried. `framing` says how the input is read: which strings hold encodings, and whether octets `00` are allowed at the
/// top level.
///
/// # Errors
///
/// `AllocError` if memory for a copy of the input is refused.
pub fn string_reasons(
    alloc: Global,
    octets: &[u8],
    framing: &Framing<'_>,
    offset: usize,
    facts: &Facts,
) -> Result<Reasons, AllocError>
    ensures reasons { IfOk result
        (λ r. AreStringReasons framing.now octets.now (suspects_from offset facts.now) facts.now r.items) }
    ensures few { IfOk result (λ r. length r.items ≤ 14) }
{
    let candidates = suspects_from(offset, facts);
    let holders = facts.holders.as_slice();
    let bounds = Bounds::whole(octets);
    let wrong = wrong_lengths(
        alloc,
        octets,
        framing,
        bounds,
        holders,
        candidates.as_slice(),
    )?;
    let is_mended = wrong.as_slice().first().is_some();
    let reasons = unless_mended(is_mended, reasons_of(octets, facts).as_slice());
    let front = said(&[length_sentence(wrong.as_slice(), None)]);
    Ok(joined(front.as_slice(), reasons.as_slice()))
}

/// The reasons of an input: what sizes say, and the sentences about the fault; or the latter alone, without those about
/// lengths in front, if something is known that would mend it.
fn reasons_if(is_mended: bool, octets: &[u8], facts: &Facts) -> Reasons
    ensures reasons { result.items ≡ reasons_if is_mended octets.now facts.now }
    ensures few { length result.items ≤ 9 }
{
    let reasons = reasons_of(octets, facts);
    if is_mended {
        return without_suspicions(reasons.as_slice());
    }
    let sizes = said(&[size_sentence(octets, facts)]);
    joined(sizes.as_slice(), reasons.as_slice())
}

/// These sentences, without those about lengths in front if something is known that would mend the input.
fn unless_mended(is_mended: bool, sentences: &[Sentence]) -> Reasons
    requires { length sentences.now ≤ 8 }
    ensures sentences { result.items ≡ unless_mended is_mended sentences.now }
    ensures few { length result.items ≤ 8 }
{
    if is_mended {
        return without_suspicions(sentences);
    }
    joined(sentences, &[])
}

/// These sentences, without those about lengths in front.
fn without_suspicions(sentences: &[Sentence]) -> Reasons
    requires { length sentences.now ≤ 8 }
    ensures sentences { result.items ≡ filter (λ s. not (is_suspicion s)) sentences.now }
    ensures few { length result.items ≤ 8 }
{
    let mut kept = Reasons::new();
    for sentence in sentences {
        if !is_suspicion(sentence) {
            kept.push(*sentence);
        }
    }
    kept
}

/// Whether this is a sentence about a length in front.
fn is_suspicion(sentence: &Sentence) -> bool
    ensures { result ≡ is_suspicion sentence.now }
{
    matches!(sentence, Sentence::LengthInFront(_))
}

/// The sentence about the lengths that are named: three at most. They mend all, or all octets up to the offset `end`.
pub(crate) fn length_sentence(wrong: &[WrongLength], end: Option<u64>) -> Option<Sentence>
    ensures { result ≡ length_sentence wrong.now end }
{
    match wrong {
        [] => None,
        [first] => Some(Sentence::OtherLength { first: *first, end }),
        [first, second] => Some(Sentence::TwoLengths {
            first: *first,
            second: *second,
            end,
        }),
        [first, second, third, ..] => Some(Sentence::ThreeLengths {
            first: *first,
            second: *second,
            third: *third,
            end,
        }),
    }
}

/// Another length that is named for the header at this offset.
fn named_at(offset: usize, wrong: &[WrongLength]) -> Option<WrongLength>
    ensures { result ≡ named_at offset wrong.now }
{
    for each in wrong {
        if each.offset == offset {
            return Some(*each);
        }
    }
    None
}
