//! Walks over octets, and says why they do not parse and what is open where their reading ends.
ghost use Rattle.std.specs.Prelude.{◌≡◌, ◌≤◌, drop, length, slice_index};
ghost use Rattle.tlv_head.specs.Limits.{input_limit};
ghost use Rattle.tlv_walk.specs.Walker.{IsWithinInputLimit};
ghost use Rattle.tlv_reasons.specs.Facts.{AreFacts, IsElementThere, ending_by};
ghost use Rattle.tlv_reasons.specs.Private.Tracking.{HasTracked, IsNewWalker, MakesFacts, begun_element, count_read};
ghost use Rattle.tlv_reasons.specs.Private.Tracking.{new_tracker, open_end_offset, unfinished_at, unfinished_entered};
ghost use Rattle.tlv_reasons.specs.Private.Tracking.{unfinished_octet};

use crate::element::element_with;
use crate::tracker::Tracker;
use crate::{Element, Facts, Unfinished};
use tlv_head::{Fault, read_header};
use tlv_walk::{Ending, Framing, Step, Walker};

/// The result of reading octets: why they do not parse, what is open where the reading ends, and what comes before
/// that. Reads the strings that the framing names as encodings.
pub fn facts_of(octets: &[u8], framing: &Framing<'_>) -> Facts
    requires { length octets.now ≤ input_limit }
    ensures { AreFacts framing.now octets.now result }
{
    let mut walker = Walker::new(framing);
    let mut tracker = Tracker::new();
    track_over(octets, &mut walker, &mut tracker);
    facts_at_end(tracker, octets, walker.finish())
}

/// Walks over the octets up to one that is refused, and records the events.
fn track_over(octets: &[u8], walker: &mut Walker<'_>, tracker: &mut Tracker)
    requires within { IsWithinInputLimit walker.old octets.now }
    requires new_walker { IsNewWalker walker.old }
    requires new_tracker { tracker.old ≡ new_tracker }
    ensures { HasTracked walker.old.framing octets.now walker.new tracker.new }
{
    let mut rest: &[u8] = octets;
    'steps: loop {
        match walker.step(&mut rest) {
            Step::Event(event) => tracker.note(&event, walker.offset()),
            Step::NeedMore | Step::Fault(_) => return,
        }
    }
}

/// The facts about octets that have this ending, from the events recorded.
fn facts_at_end(tracker: Tracker, octets: &[u8], ending: Ending) -> Facts
    ensures { MakesFacts tracker octets.now ending result }
{
    let fault = fault_of(ending);
    let next = open_end_offset(&tracker);
    let unfinished = unfinished_at(&tracker, octets, count_read(fault, octets.len()));
    Facts {
        fault,
        holders: tracker.holders,
        before: tracker.before,
        top: tracker.top,
        nearest: tracker.nearest,
        next,
        unfinished,
        there: element_at(octets, next),
    }
}

/// The fault of an ending, if it has one.
fn fault_of(ending: Ending) -> Option<Fault>
    ensures { ending_by result ≡ ending }
{
    match ending {
        Ending::Done => None,
        Ending::Fault(fault) => Some(fault),
    }
}

/// The number of octets that are read: all, or the octets before the one that is refused.
fn count_read(fault: Option<Fault>, size: usize) -> u64
    ensures { result ≡ count_read fault size }
{
    match fault {
        None => size as u64,
        Some(fault) => fault.offset,
    }
}

/// Where the open end begins.
fn open_end_offset(tracker: &Tracker) -> u64
    ensures { result ≡ open_end_offset tracker.now }
{
    match begun_element(tracker) {
        Some(element) => element.offset,
        None => tracker.offset,
    }
}

/// The element that has begun and is not yet recorded, if any.
fn begun_element(tracker: &Tracker) -> Option<Element>
    ensures { result ≡ begun_element tracker.now }
{
    match tracker.current {
        Some(element) => Some(element),
        None => tracker.entered,
    }
}

/// What is unfinished at the open end of octets, if this number of them is read.
fn unfinished_at(tracker: &Tracker, octets: &[u8], count: u64) -> Unfinished
    ensures { result ≡ unfinished_at tracker.now octets.now count }
{
    match tracker.current {
        Some(element) => Unfinished::Primitive(element),
        None => unfinished_entered(tracker.entered, octets, tracker.offset, count),
    }
}

/// What is unfinished at this offset, where no primitive has begun, if this number of octets is read.
fn unfinished_entered(
    entered: Option<Element>,
    octets: &[u8],
    offset: u64,
    count: u64,
) -> Unfinished
    ensures { result ≡ unfinished_entered entered octets.now offset count }
{
    match entered {
        Some(_) => Unfinished::Header,
        None => unfinished_octet(octets, offset, count),
    }
}

/// What is unfinished at this offset, where no element has begun, if this number of octets is read.
fn unfinished_octet(octets: &[u8], offset: u64, count: u64) -> Unfinished
    ensures { result ≡ unfinished_octet octets.now offset count }
{
    if offset == count {
        return Unfinished::Nothing;
    }
    if octet_at(octets, offset) == 0 {
        Unfinished::EndOctets
    } else {
        Unfinished::Header
    }
}

/// The octet at this offset, or 0 if there is none.
pub(crate) fn octet_at(octets: &[u8], offset: u64) -> u8
    ensures { result ≡ slice_index octets.now offset }
{
    match octets.get(offset as usize) {
        Some(octet) => *octet,
        None => 0,
    }
}

/// The element whose whole header is at this offset of the octets, if any.
fn element_at(octets: &[u8], offset: u64) -> Option<Element>
    ensures { IsElementThere octets.now offset result }
{
    let (fields, count) = read_header(offset, false, octets_from(octets, offset))?;
    Some(element_with(&fields, count))
}

/// The octets from this offset on.
pub(crate) fn octets_from(octets: &[u8], offset: u64) -> &[u8]
    ensures { result.now ≡ drop offset octets.now }
{
    let start = offset.min(octets.len() as u64) as usize;
    &octets[start..]
}
