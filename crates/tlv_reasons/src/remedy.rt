//! What would mend an input.
ghost use Rattle.std.specs.Prelude.{◌≡◌, ◌≤◌, IfOk, length};
ghost use Rattle.tlv_head.specs.Limits.{input_limit};
ghost use Rattle.tlv_reasons.specs.Remedies.{AreNamedLengths, IsBlockOrElse, IsChainOrElse, IsLengthOrElse, IsLengthSentence};
ghost use Rattle.tlv_reasons.specs.Remedies.{IsOctetOrElse, IsOtherChain, IsRemedy, lengths_in, start_in};

use crate::bounds::Bounds;
use crate::chains::{Chain, length_chain};
use crate::doubled::doubled_block;
use crate::lengths::{SEARCH_LIMIT, WrongLengths, wrong_lengths};
use crate::mend::{fault_offset, length_sentence};
use crate::octet_changes::octet_change;
use crate::outermost::sizes_agree;
use crate::overwritten::run_around;
use crate::sizes::says_sizes;
use crate::sound::closed_framing;
use crate::start::next_start;
use crate::suspects::suspect_offsets;
use crate::window::{lengths_in_window, window_end};
use crate::{Facts, Sentence};
use std::alloc::{AllocError, Global};

/// The sentence about what would mend the input, the first that is found.
pub(crate) fn remedy(
    alloc: Global,
    octets: &[u8],
    padding: bool,
    facts: &Facts,
) -> Result<Option<Sentence>, AllocError>
    requires { length octets.now ≤ input_limit }
    ensures { IfOk result (λ found. IsRemedy padding octets.now facts.now found) }
{
    let fault = fault_offset(facts);
    if let Some(start) = next_start(octets, padding, facts.top as usize, fault) {
        return Ok(Some(Sentence::ParsesFrom(start as u64)));
    }
    match run_around(octets, fault) {
        Some(run) => Ok(Some(Sentence::Overwritten(run))),
        None => length_or_else(alloc, octets, padding, facts),
    }
}

/// [`remedy`] of an input that has no other start, and no equal octets in a row where the fault is.
fn length_or_else(
    alloc: Global,
    octets: &[u8],
    padding: bool,
    facts: &Facts,
) -> Result<Option<Sentence>, AllocError>
    requires { length octets.now ≤ input_limit }
    ensures { IfOk result (λ found. IsLengthOrElse padding octets.now facts.now found) }
{
    match other_length(alloc, octets, padding, facts)? {
        Some(sentence) => Ok(Some(sentence)),
        None => block_or_else(alloc, octets, padding, facts),
    }
}

/// The sentence about the lengths that are named.
fn other_length(
    alloc: Global,
    octets: &[u8],
    padding: bool,
    facts: &Facts,
) -> Result<Option<Sentence>, AllocError>
    requires { length octets.now ≤ input_limit }
    ensures { IfOk result (λ found. IsLengthSentence padding octets.now facts.now found) }
{
    let wrong = named_lengths(alloc, octets, padding, facts)?;
    Ok(length_sentence(wrong.as_slice(), window_end(octets, facts.top as usize)))
}

/// The headers whose length may be wrong; none if the sizes of the outermost elements do not agree with that of the
/// input, since octets are then missing or left over. In an input of more than [`SEARCH_LIMIT`] octets those in the
/// window.
fn named_lengths(
    alloc: Global,
    octets: &[u8],
    padding: bool,
    facts: &Facts,
) -> Result<WrongLengths, AllocError>
    requires { length octets.now ≤ input_limit }
    ensures { IfOk result (λ found. AreNamedLengths padding octets.now facts.now found.items) }
{
    if octets.len() > SEARCH_LIMIT {
        return lengths_in_window(alloc, octets, padding, facts.top as usize);
    }
    if !sizes_agree(octets, padding, facts.top as usize) {
        return Ok(WrongLengths::new());
    }
    let framing = closed_framing(padding);
    let bounds = Bounds::whole(octets);
    let candidates = suspect_offsets(facts);
    let holders = facts.holders.as_slice();
    wrong_lengths(
        alloc,
        octets,
        &framing,
        bounds,
        holders,
        candidates.as_slice(),
    )
}

/// [`remedy`] of an input of which no other length is named either.
fn block_or_else(
    alloc: Global,
    octets: &[u8],
    padding: bool,
    facts: &Facts,
) -> Result<Option<Sentence>, AllocError>
    requires { length octets.now ≤ input_limit }
    ensures { IfOk result (λ found. IsBlockOrElse padding octets.now facts.now found) }
{
    match doubled_block(alloc, octets, padding, facts)? {
        Some(block) => Ok(Some(Sentence::StandsTwice(block))),
        None => octet_or_else(alloc, octets, padding, facts),
    }
}

/// [`remedy`] of an input in which no block stands twice either.
fn octet_or_else(
    alloc: Global,
    octets: &[u8],
    padding: bool,
    facts: &Facts,
) -> Result<Option<Sentence>, AllocError>
    requires { length octets.now ≤ input_limit }
    ensures { IfOk result (λ found. IsOctetOrElse padding octets.now facts.now found) }
{
    let candidates = suspect_offsets(facts);
    let framing = closed_framing(padding);
    match octet_change(alloc, octets, &framing, candidates.as_slice(), None)? {
        Some(change) => Ok(Some(Sentence::OneOctet(change))),
        None => chain_or_else(alloc, octets, padding, facts),
    }
}

/// [`remedy`] of an input of which no single octet is missing or was put in either.
fn chain_or_else(
    alloc: Global,
    octets: &[u8],
    padding: bool,
    facts: &Facts,
) -> Result<Option<Sentence>, AllocError>
    requires { length octets.now ≤ input_limit }
    ensures { IfOk result (λ found. IsChainOrElse padding octets.now facts.now found) }
{
    match other_chain(alloc, octets, padding, facts)? {
        Some(chain) => Ok(Some(Sentence::OtherChain(chain))),
        None => Ok(None),
    }
}

/// Other lengths of several elements inside one another; none if the input ends inside an encoding.
fn other_chain(
    alloc: Global,
    octets: &[u8],
    padding: bool,
    facts: &Facts,
) -> Result<Option<Chain>, AllocError>
    requires { length octets.now ≤ input_limit }
    ensures { IfOk result (λ found. IsOtherChain padding octets.now facts.now found) }
{
    if says_sizes(facts.fault) {
        return Ok(None);
    }
    let candidates = suspect_offsets(facts);
    length_chain(alloc, octets, padding, facts, candidates.as_slice())
}

/// The lengths that such a sentence names.
pub(crate) fn lengths_in(remedy: Option<Sentence>) -> WrongLengths
    ensures { result.items ≡ lengths_in remedy }
{
    let mut lengths = WrongLengths::new();
    match remedy {
        Some(Sentence::OtherLength { first, .. }) => lengths.push(first),
        Some(Sentence::TwoLengths { first, second, .. }) => {
            lengths.push(first);
            lengths.push(second);
        }
        Some(
            Sentence::ThreeLengths {
                first,
                second,
                third,
                ..
            },
        ) => {
            lengths.push(first);
            lengths.push(second);
            lengths.push(third);
        }
        _ => {}
    }
    lengths
}

/// The other start that such a sentence names.
pub(crate) fn start_in(remedy: Option<Sentence>) -> Option<usize>
    ensures { result ≡ start_in remedy }
{
    match remedy {
        Some(Sentence::ParsesFrom(offset)) => Some(offset as usize),
        _ => None,
    }
}
