//! The sentences about each fault.
ghost use Rattle.std.specs.List.{cons_option};
ghost use Rattle.std.specs.Prelude.{◌≡◌, ◌<◌, ◌≤◌, ◌+◌, ◌++◌, [], length};
ghost use Rattle.tlv_reasons.specs.FaultReasons.{bad_end_reasons, code_reasons, cut_place, cut_reasons, cut_try};
ghost use Rattle.tlv_reasons.specs.FaultReasons.{deep_reasons, empty_reasons, ends_with_input, header_reasons};
ghost use Rattle.tlv_reasons.specs.FaultReasons.{lacking, length_reasons, look_try, missing_end_reasons, not_ended, outer_end};
ghost use Rattle.tlv_reasons.specs.FaultReasons.{past_places, past_reasons, said, stray_reasons, suspect, zero_count};
ghost use Rattle.tlv_reasons.specs.FaultReasons.{zeros_reasons};

use crate::facts_call::octets_from;
use crate::holders::{
    element_end, has_end, indefinite_count, innermost_definite, innermost_holder,
    outermost_definite,
};
use crate::{Element, Facts, Sentence, Unfinished};
use arrayvec::ArrayVec;
use tlv_head::{Fault, FaultCode};

/// Sentences, in the order in which they are said.
pub type Reasons = ArrayVec<Sentence, 16>;

/// The sentences about a fault of octets with these facts.
pub(crate) fn code_reasons(fault: Fault, octets: &[u8], facts: &Facts) -> Reasons
    ensures reasons { result.items ≡ code_reasons fault.code fault.offset octets.now facts.now }
    ensures few { length result.items ≤ 6 }
{
    let (offset, inner) = (fault.offset, innermost_holder(facts));
    match fault.code {
        FaultCode::Empty => empty_reasons(octets.len() as u64),
        FaultCode::Short => cut_reasons(octets.len() as u64, facts),
        FaultCode::StrayEnd => stray_reasons(octets, offset, inner, facts.before),
        FaultCode::BadEnd => bad_end_reasons(offset, inner, facts.before),
        FaultCode::MissingEnd => {
            let holder = innermost_definite(facts.holders.as_slice());
            missing_end_reasons(facts.unfinished, inner, holder, facts.before)
        }
        FaultCode::TooDeep => said(&[
            Some(Sentence::TooDeep(facts.next)),
            Some(Sentence::TryDeeper),
        ]),
        FaultCode::Overrun => past_reasons(
            offset,
            facts,
            innermost_definite(facts.holders.as_slice()),
        ),
        // The message says all: the string holds no encodings.
        FaultCode::BadInside => Reasons::new(),
        FaultCode::TagTooLong
        | FaultCode::ReservedLength
        | FaultCode::IndefinitePrimitive
        | FaultCode::LengthTooLarge => header_reasons(fault.code, offset, facts),
    }
}

/// Those of these sentences that are said.
pub(crate) fn said(sentences: &[Option<Sentence>]) -> Reasons
    requires { length sentences.now ≤ 6 }
    ensures said { result.items ≡ said sentences.now }
    ensures few { length result.items ≤ length sentences.now }
{
    let mut reasons = Reasons::new();
    for sentence in sentences {
        add(*sentence, &mut reasons);
    }
    reasons
}

/// Adds a sentence, if it is said, to a list that has room for it.
fn add(sentence: Option<Sentence>, reasons: &mut Reasons)
    requires { length reasons.old.items < 16 }
    ensures added { reasons.new.items ≡ reasons.old.items ++ cons_option sentence [] }
    ensures few { length reasons.new.items ≤ length reasons.old.items + 1 }
{
    if let Some(sentence) = sentence {
        reasons.push(sentence);
    }
}

/// That the length of this element may be wrong, if there is one and its length is definite.
fn suspect(found: Option<Element>) -> Option<Sentence>
    ensures { result ≡ suspect found }
{
    match found {
        Some(element) if has_end(&element) => Some(Sentence::LengthInFront(element)),
        _ => None,
    }
}

/// The sentences about an input of this size that has no element.
fn empty_reasons(size: u64) -> Reasons
    ensures reasons { result.items ≡ empty_reasons size }
    ensures few { length result.items ≤ 2 }
{
    let sentence = if size == 0 {
        Sentence::NoOctets
    } else {
        Sentence::ZerosAlone(size)
    };
    said(&[Some(sentence), Some(Sentence::TryWriter)])
}

/// The sentences about an input of this size that ends inside an encoding.
fn cut_reasons(size: u64, facts: &Facts) -> Reasons
    ensures reasons { result.items ≡ cut_reasons size facts.now }
    ensures few { length result.items ≤ 6 }
{
    let holders = facts.holders.as_slice();
    let outer = outermost_definite(holders);
    said(&[
        cut_place(facts.next, size, innermost_holder(facts), facts.unfinished),
        lacking(size, facts.unfinished),
        outer_end(size, outer),
        not_ended(indefinite_count(holders)),
        Some(cut_try(size, outer)),
        suspect(facts.before),
    ])
}

/// What lacks octets, in an input that ends at this offset.
fn cut_place(
    next: u64,
    end: u64,
    inner: Option<Element>,
    unfinished: Unfinished,
) -> Option<Sentence>
    ensures { result ≡ cut_place next end inner unfinished }
{
    match unfinished {
        Unfinished::Header => Some(Sentence::EndsInHeader { offset: next, end }),
        Unfinished::Primitive(element) => Some(Sentence::EndsInPrimitive(element)),
        Unfinished::EndOctets => Some(Sentence::EndsBetweenZeros(inner?)),
        Unfinished::Nothing => Some(Sentence::EndsInHolder(inner?)),
    }
}

/// How many octets a primitive lacks in an input that ends at this offset.
fn lacking(end: u64, unfinished: Unfinished) -> Option<Sentence>
    ensures { result ≡ lacking end unfinished }
{
    match unfinished {
        Unfinished::Primitive(element) => {
            let missing = element_end(&element).saturating_sub(end);
            Some(Sentence::MissingThere(missing))
        }
        _ => None,
    }
}

/// Where the outermost element of definite length ends, if there is one, and the input ends at this offset.
fn outer_end(end: u64, outer: Option<Element>) -> Option<Sentence>
    ensures { result ≡ outer_end end outer }
{
    let element = outer?;
    if element_end(&element) == end {
        Some(Sentence::EndsWithInput(element))
    } else {
        Some(Sentence::EndsBehindInput { element, end })
    }
}

/// That so many elements lack their end-of-contents octets.
fn not_ended(count: u64) -> Option<Sentence>
    ensures { result ≡ not_ended count }
{
    if count == 0 {
        None
    } else {
        Some(Sentence::NotEnded(count))
    }
}

/// What to try if an input of this size ends inside an encoding.
fn cut_try(size: u64, outer: Option<Element>) -> Sentence
    ensures { result ≡ cut_try size outer }
{
    if ends_with_input(size, outer) {
        Sentence::TryGreater
    } else {
        Sentence::TryWholeCopy
    }
}

/// Whether there is an element, and it ends with an input of this size.
fn ends_with_input(size: u64, outer: Option<Element>) -> bool
    ensures { result ≡ ends_with_input size outer }
{
    match outer {
        Some(element) => element_end(&element) == size,
        None => false,
    }
}

/// The sentences about octets `00` outside of all elements.
fn zeros_reasons(octets: &[u8], offset: u64) -> Reasons
    ensures reasons { result.items ≡ zeros_reasons octets.now offset }
    ensures few { length result.items ≤ 3 }
{
    let zeros = zero_count(octets_from(octets, offset));
    if offset == 0 {
        return said(&[
            Some(Sentence::BeginsWithZeros(zeros)),
            Some(Sentence::TryPadding),
        ]);
    }
    let left = (octets.len() as u64).saturating_sub(offset);
    said(&[
        Some(Sentence::ZerosFollow {
            end: offset,
            zeros,
            left,
        }),
        Some(Sentence::TryPadding),
        Some(Sentence::TryFront(offset)),
    ])
}

/// The number of octets `00` with which these octets begin.
fn zero_count(octets: &[u8]) -> u64
    ensures { result ≡ zero_count octets.now }
{
    let mut count = 0;
    for octet in octets {
        if *octet != 0 {
            return count;
        }
        count += 1;
    }
    count
}

/// The sentences about a fault that a length causes. `before` is the element before.
fn length_reasons(sentence: Sentence, before: Option<Element>) -> Reasons
    ensures reasons { result.items ≡ length_reasons sentence before }
    ensures few { length result.items ≤ 3 }
{
    said(&[Some(sentence), Some(Sentence::TryAnew), suspect(before)])
}

/// The sentences about `00` where no end-of-contents octets may be, inside this element or outside of all elements.
fn stray_reasons(
    octets: &[u8],
    offset: u64,
    inner: Option<Element>,
    before: Option<Element>,
) -> Reasons
    ensures reasons { result.items ≡ stray_reasons octets.now offset inner before }
    ensures few { length result.items ≤ 4 }
{
    let Some(element) = inner else {
        return zeros_reasons(octets, offset);
    };
    let left = element_end(&element).saturating_sub(offset);
    let others = length_reasons(Sentence::LeftInside(left), before);
    joined(
        &[Sentence::ZeroInside { element, offset }],
        others.as_slice(),
    )
}

/// The sentences about an octet that is not `00` in place of the second `00` that should end this element.
fn bad_end_reasons(offset: u64, inner: Option<Element>, before: Option<Element>) -> Reasons
    ensures reasons { result.items ≡ bad_end_reasons offset inner before }
    ensures few { length result.items ≤ 3 }
{
    match inner {
        Some(element) => length_reasons(Sentence::NoSecondZero { element, offset }, before),
        None => Reasons::new(),
    }
}

/// The sentences about an element that is not ended where this holder ends.
fn missing_end_reasons(
    unfinished: Unfinished,
    inner: Option<Element>,
    holder: Option<Element>,
    before: Option<Element>,
) -> Reasons
    ensures reasons { result.items ≡ missing_end_reasons unfinished inner holder before }
    ensures few { length result.items ≤ 3 }
{
    let (Some(element), Some(holder)) = (inner, holder) else {
        return Reasons::new();
    };
    length_reasons(
        Sentence::EndMissing {
            element,
            holder,
            unfinished,
        },
        before,
    )
}

/// What to try if there is no header at this offset.
fn look_try(next: u64) -> Sentence
    ensures { result ≡ look_try next }
{
    if next == 0 {
        Sentence::NoEncoding
    } else {
        Sentence::TryLook(next)
    }
}

/// The sentences about a header whose octet at the offset `refused` is refused.
fn header_reasons(code: FaultCode, refused: u64, facts: &Facts) -> Reasons
    ensures reasons { result.items ≡ header_reasons code refused facts.now }
    ensures few { length result.items ≤ 4 }
{
    said(&[
        Some(Sentence::RefusedHeader {
            code,
            offset: facts.next,
            refused,
        }),
        Some(look_try(facts.next)),
        suspect(innermost_holder(facts)),
        suspect(facts.before),
    ])
}

/// What runs past the end of the holder: the element that begins at the offset `next`, if its whole header is there and
/// ends in the holder; else the header.
fn past_places(offset: u64, next: u64, holder: Element, there: Option<Element>) -> Reasons
    ensures reasons { result.items ≡ past_places offset next holder there }
    ensures few { length result.items ≤ 2 }
{
    match there {
        Some(element) if element.contents <= element_end(&holder) => said(&[
            Some(Sentence::CompletesHeader { offset, element }),
            Some(Sentence::ElementPast { element, holder }),
        ]),
        _ => said(&[
            Some(Sentence::HeaderPast {
                offset: next,
                holder,
            }),
            Some(Sentence::LeftInHolder {
                offset: next,
                holder,
            }),
        ]),
    }
}

/// The sentences about an element that runs past the end of this holder.
fn past_reasons(offset: u64, facts: &Facts, holder: Option<Element>) -> Reasons
    ensures reasons { result.items ≡ past_reasons offset facts.now holder }
    ensures few { length result.items ≤ 5 }
{
    let Some(holder) = holder else {
        return Reasons::new();
    };
    let places = past_places(offset, facts.next, holder, facts.there);
    let others = length_reasons(Sentence::OneOfTwo, facts.before);
    joined(places.as_slice(), others.as_slice())
}

/// These sentences, and then those.
pub(crate) fn joined(first: &[Sentence], second: &[Sentence]) -> Reasons
    requires { length first.now + length second.now ≤ 16 }
    ensures { result.items ≡ first.now ++ second.now }
{
    let mut all = Reasons::new();
    let _ = all.try_extend_from_slice(first);
    let _ = all.try_extend_from_slice(second);
    all
}
