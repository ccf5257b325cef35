//! Strings that look like encodings, and where they break when they are read as encodings.
ghost use Rattle.std.specs.Prelude.{◌≡◌, ◌≤◌, ◌+◌, ◌↔◌, ◌++◌, IsTrue, MatchOption, OnOk, length};
ghost use Rattle.tlv_head.specs.Limits.{input_limit};
ghost use Rattle.tlv_open.specs.Breaks.{BeginsAs, BreaksAt, HaveAnnouncedSize, IsBrokenString, LooksEncoded};
ghost use Rattle.tlv_open.specs.Breaks.{octets_around};
ghost use Rattle.tlv_open.specs.Private.Finds.{list_of};
ghost use Rattle.tlv_walk.specs.Ending.{IsEnding};

use crate::elements::{first_octet, header_at};
use crate::reading::walk_on;
use crate::{BrokenString, Suspicion};
use std::alloc::AllocError;
use tlv_head::{Fault, Size};
use tlv_walk::{Ending, Framing, INPUT_LIMIT, Inside, Walker};

/// A string must have more than this number of inner octets to look like encodings by its size.
const FEW_OCTETS: usize = 24;

/// The maximum distance in octets between the end of a string and the end of the element that it begins with.
const MOST_APART: u64 = 8;

/// The entry for a string that is not opened, if it breaks. `string` is its header and contents, at this offset, and
/// `octets` are its inner octets. `depth` is the number of elements that hold it.
pub(crate) fn broken_string(
    offset: u64,
    depth: u8,
    string: &[u8],
    octets: &[u8],
    is_value: bool,
) -> Option<BrokenString>
    requires limit { offset + length string.now ≤ input_limit }
    requires within { length octets.now ≤ length string.now }
    ensures { MatchOption result
        ((b : BrokenString) → IsBrokenString offset depth string.now octets.now is_value b → ⊥)
        (λ b. IsBrokenString offset depth string.now octets.now is_value b) }
{
    let reason = suspicion(octets, is_value)?;
    let fault = fault_in(string, depth)?;
    let before = 2 * u64::from(depth);
    Some(BrokenString {
        offset,
        reason,
        fault: Fault {
            code: fault.code,
            offset: offset + fault.offset.saturating_sub(before),
        },
    })
}

/// Why a string with these inner octets looks like encodings, if it does.
fn suspicion(octets: &[u8], is_value: bool) -> Option<Suspicion>
    requires { length octets.now ≤ input_limit }
    ensures { MatchOption result ((s : Suspicion) → LooksEncoded octets.now is_value s → ⊥)
        (λ s. LooksEncoded octets.now is_value s) }
{
    if begin_as(0x30, octets) {
        return Some(Suspicion::Sequence);
    }
    if begin_as(0x31, octets) {
        return Some(Suspicion::Set);
    }
    if is_value {
        Some(Suspicion::Extension)
    } else {
        None
    }
}

/// Whether the octets begin with this octet and [`have_announced_size`].
fn begin_as(first: u8, octets: &[u8]) -> bool
    requires { length octets.now ≤ input_limit }
    ensures { IsTrue result ↔ BeginsAs first octets.now }
{
    first_octet(octets) == first && have_announced_size(octets)
}

/// Whether there are more than 24 octets, and they begin with the header of an element that ends at most 8 octets
/// before or after their end.
fn have_announced_size(octets: &[u8]) -> bool
    requires { length octets.now ≤ input_limit }
    ensures { IsTrue result ↔ HaveAnnouncedSize octets.now }
{
    if octets.len() <= FEW_OCTETS {
        return false;
    }
    let Some((fields, count)) = header_at(octets, 0) else {
        return false;
    };
    let Size::Definite(length) = fields.size else {
        return false;
    };
    let rest = (octets.len() - count) as u64;
    length <= rest + MOST_APART && rest <= length + MOST_APART
}

/// The fault of a string (header and contents), if it breaks. The fault's offset counts from the start of the octets
/// around the string. `depth` is the number of elements that hold the string.
fn fault_in(string: &[u8], depth: u8) -> Option<Fault>
    requires { length string.now ≤ input_limit }
    ensures { MatchOption result ((f : Fault) → BreaksAt depth string.now f → ⊥)
        (λ f. BreaksAt depth string.now f) }
{
    let before = 2 * u64::from(depth);
    let end = before + string.len() as u64;
    if end + 2 > INPUT_LIMIT {
        return None;
    }
    let offsets = [before];
    let framing = Framing {
        inside: Inside::lent(&offsets)?,
        padding: false,
    };
    match ending_around(string, depth, &framing) {
        Ending::Fault(fault) if fault.offset <= end => Some(fault),
        _ => None,
    }
}

/// The ending of the octets around a string, read in this framing.
fn ending_around(string: &[u8], depth: u8, framing: &Framing<'_>) -> Ending
    requires { length (octets_around depth string.now) ≤ input_limit }
    ensures { IsEnding framing.now (octets_around depth string.now) result }
{
    let mut walker = Walker::new(framing);
    for _ in 0..depth {
        walk_on(&mut walker, &[0x30, 0x80]);
    }
    walk_on(&mut walker, string);
    walk_on(&mut walker, &[5, 0]);
    walker.finish()
}

/// Adds a string that is broken, if there is one.
pub(crate) fn add_broken(
    broken: Option<BrokenString>,
    list: &mut Vec<BrokenString>,
) -> Result<(), AllocError>
    ensures { OnOk result (list.new.items ≡ list.old.items ++ list_of broken) }
{
    if let Some(broken) = broken {
        list.push(broken)?;
    }
    Ok(())
}
