//! The headers whose length may be wrong.
ghost use Rattle.std.specs.List.{list_any};
ghost use Rattle.std.specs.Prelude.{◌≡◌, ◌<◌, ◌≤◌, ◌+◌, ◌++◌, eqb, length, map, take};
ghost use Rattle.tlv_reasons.specs.Suspects.{distinct, element_offset, offset_there, open_tries, suspect_offsets, suspects_from, unless_seen};

use crate::{Element, Facts};
use arrayvec::ArrayVec;

/// The most headers to look at: the refused header, 25 headers of elements before, and those of open elements.
const SUSPECTS: usize = 42;

/// The most open elements to look at.
const OPEN_TRIES: usize = 16;

/// The offsets of headers whose length may be wrong, in the order in which they are tried, each only once.
pub(crate) fn suspect_offsets(facts: &Facts) -> ArrayVec<usize, SUSPECTS>
    ensures { result.items ≡ suspect_offsets facts.now }
{
    distinct(all_offsets(facts).as_slice())
}

/// These offsets, each only once.
fn distinct(offsets: &[usize]) -> ArrayVec<usize, SUSPECTS>
    requires { length offsets.now ≤ 42 }
    ensures { result.items ≡ distinct offsets.now }
{
    let mut kept = ArrayVec::new();
    for &each in offsets {
        add_unless_seen(each, &mut kept);
    }
    kept
}

/// Adds a number, unless it is there, to a list that has room for it.
pub(crate) fn add_unless_seen<const ROOM: usize>(offset: usize, kept: &mut ArrayVec<usize, ROOM>)
    requires { length kept.old.items < ROOM }
    ensures added { kept.new.items ≡ kept.old.items ++ unless_seen kept.old.items offset }
    ensures few { length kept.new.items ≤ length kept.old.items + 1 }
{
    if !is_among(offset, kept.as_slice()) {
        kept.push(offset);
    }
}

/// Whether this offset is one of those.
fn is_among(offset: usize, others: &[usize]) -> bool
    ensures { result ≡ list_any (λ y. eqb y offset) others.now }
{
    for &other in others {
        if other == offset {
            return true;
        }
    }
    false
}

/// All these offsets, some perhaps more than once.
fn all_offsets(facts: &Facts) -> ArrayVec<usize, SUSPECTS>
    ensures { result.items ≡ (offset_there facts.now.there ++ facts.now.nearest.items)
        ++ map element_offset (take open_tries facts.now.holders.items) }
{
    let mut offsets = ArrayVec::new();
    if let Some(element) = facts.there {
        offsets.push(element.offset as usize);
    }
    for offset in facts.nearest.as_slice() {
        offsets.push(*offset as usize);
    }
    add_offsets(outermost(facts.holders.as_slice()), &mut offsets);
    offsets
}

/// Those of them from this offset on.
pub(crate) fn suspects_from(offset: usize, facts: &Facts) -> ArrayVec<usize, SUSPECTS>
    ensures { result.items ≡ suspects_from offset facts.now }
{
    let mut kept = ArrayVec::new();
    let all = suspect_offsets(facts);
    for &each in all.as_slice() {
        if offset <= each {
            kept.push(each);
        }
    }
    kept
}

/// The outermost of these open elements, as many as are looked at.
fn outermost(holders: &[Element]) -> &[Element]
    ensures outermost { result.now ≡ take open_tries holders.now }
    ensures few { length result.now ≤ 16 }
{
    if holders.len() > OPEN_TRIES {
        &holders[..OPEN_TRIES]
    } else {
        holders
    }
}

/// Adds the offsets of elements to a list that has room for them.
fn add_offsets(elements: &[Element], offsets: &mut ArrayVec<usize, SUSPECTS>)
    requires { length offsets.old.items + length elements.now ≤ 42 }
    ensures { offsets.new.items ≡ offsets.old.items ++ map element_offset elements.now }
{
    for element in elements {
        offsets.push(element.offset as usize);
    }
}
