//! Other lengths in a window of an input that is too long to be searched as a whole.
ghost use Rattle.std.specs.Prelude.{◌≡◌, ◌≤◌, ◌↔◌, IfOk, IsTrue, length, map, take};
ghost use Rattle.tlv_head.specs.Limits.{input_limit};
ghost use Rattle.tlv_reasons.specs.Window.{AreLengthsInWindow, BeginsIndefinite, IsFollowed, ParsesOn, behind, is_cut};
ghost use Rattle.tlv_reasons.specs.Window.{is_fault_behind, window, window_end};
ghost use Rattle.tlv_reasons.specs.WrongLength.{search_limit};

use crate::Facts;
use crate::bounds::{Bounds, WIDE_LIMIT};
use crate::facts_call::{facts_of, octets_from};
use crate::lengths::{SEARCH_LIMIT, WrongLength, WrongLengths, wrong_lengths};
use crate::mend::fault_offset;
use crate::sizes::says_sizes;
use crate::sound::{closed_framing, ending_in};
use crate::spacing::{are_alike, stated_end};
use crate::suspects::suspect_offsets;
use std::alloc::{AllocError, Global};
use tlv_head::{Size, read_header};
use tlv_walk::{Ending, Framing};

/// The headers whose length may be wrong in the octets from the top end on, at most [`SEARCH_LIMIT`] of them, which are
/// searched as an input of their own. None if what follows the damaged element speaks against the length that it
/// states, or if the fault is behind them.
pub(crate) fn lengths_in_window(
    alloc: Global,
    octets: &[u8],
    padding: bool,
    top: usize,
) -> Result<WrongLengths, AllocError>
    requires { length octets.now ≤ input_limit }
    ensures { IfOk result (λ found. AreLengthsInWindow padding octets.now top found.items) }
{
    let searched = window(octets, top);
    let cut = is_cut(octets, top);
    let framing = closed_framing(padding);
    if !is_followed(searched, &framing, cut) {
        return Ok(WrongLengths::new());
    }
    let facts = facts_of(searched, &framing);
    if is_fault_behind(cut, &facts) {
        return Ok(WrongLengths::new());
    }
    let bounds = Bounds {
        cut,
        wide: fault_offset(&facts) <= WIDE_LIMIT,
    };
    let candidates = suspect_offsets(&facts);
    let holders = facts.holders.as_slice();
    let found = wrong_lengths(
        alloc,
        searched,
        &framing,
        bounds,
        holders,
        candidates.as_slice(),
    )?;
    Ok(all_behind(top, found.as_slice()))
}

/// Whether what follows the damaged element, with which a window begins, speaks for the length that it states: nothing
/// follows, or a record that begins as it does, and nothing is wrong from there on. Otherwise octets are missing in
/// the damaged element, or too many. An indefinite length states nothing.
fn is_followed(octets: &[u8], framing: &Framing<'_>, cut: bool) -> bool
    requires { length octets.now ≤ input_limit }
    ensures { IsTrue result ↔ IsFollowed framing.now cut octets.now }
{
    let Some(end) = stated_end(octets, 0) else {
        return begins_indefinite(octets);
    };
    if end == octets.len() {
        return true;
    }
    if !are_alike(octets, 0, end) {
        return false;
    }
    parses_on(octets_from(octets, end as u64), framing, cut)
}

/// Whether nothing is wrong with these octets, with which a window ends, but that they are cut off.
fn parses_on(octets: &[u8], framing: &Framing<'_>, cut: bool) -> bool
    requires { length octets.now ≤ input_limit }
    ensures { IsTrue result ↔ ParsesOn framing.now cut octets.now }
{
    let fault = match ending_in(octets, framing) {
        Ending::Done => return true,
        Ending::Fault(fault) => fault,
    };
    if !cut {
        return false;
    }
    says_sizes(Some(fault))
}

/// Whether the octets begin with an element of indefinite length.
fn begins_indefinite(octets: &[u8]) -> bool
    ensures { IsTrue result ↔ BeginsIndefinite octets.now }
{
    let Some((fields, _)) = read_header(0, false, octets) else {
        return false;
    };
    match fields.size {
        Size::Indefinite => true,
        Size::Definite(_) => false,
    }
}

/// Whether the fault of the input is behind a window with these facts: nothing is wrong in it but that it is cut off.
fn is_fault_behind(cut: bool, facts: &Facts) -> bool
    ensures { result ≡ is_fault_behind cut facts.now }
{
    cut && says_sizes(facts.fault)
}

/// The octets from this offset on, at most [`SEARCH_LIMIT`] of them.
fn window(octets: &[u8], top: usize) -> &[u8]
    ensures window { result.now ≡ window octets.now top }
    ensures few { length result.now ≤ search_limit }
{
    first_octets(octets_from(octets, top as u64))
}

/// The first [`SEARCH_LIMIT`] of these octets, or all if there are fewer.
fn first_octets(octets: &[u8]) -> &[u8]
    ensures first { result.now ≡ take search_limit octets.now }
    ensures few { length result.now ≤ search_limit }
{
    if octets.len() > SEARCH_LIMIT {
        &octets[..SEARCH_LIMIT]
    } else {
        octets
    }
}

/// Whether more octets follow them.
fn is_cut(octets: &[u8], top: usize) -> bool
    ensures { result ≡ is_cut octets.now top }
{
    octets.len().saturating_sub(top) > SEARCH_LIMIT
}

/// Where they end, if more octets follow.
pub(crate) fn window_end(octets: &[u8], top: usize) -> Option<u64>
    ensures { result ≡ window_end octets.now top }
{
    if is_cut(octets, top) {
        Some((top as u64).saturating_add(SEARCH_LIMIT as u64))
    } else {
        None
    }
}

/// These headers and lengths, but so many octets stand in front.
fn all_behind(front: usize, found: &[WrongLength]) -> WrongLengths
    requires { length found.now ≤ 3 }
    ensures { result.items ≡ map (behind front) found.now }
{
    let mut moved = WrongLengths::new();
    for wrong in found {
        moved.push(behind(front, wrong));
    }
    moved
}

/// This header and its lengths, but so many octets stand in front.
fn behind(front: usize, wrong: &WrongLength) -> WrongLength
    ensures { result ≡ behind front wrong.now }
{
    WrongLength {
        offset: wrong.offset.saturating_add(front),
        said: wrong.said,
        would: wrong.would,
    }
}
