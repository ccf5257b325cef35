//! Why octets do not parse, or a string in them, and what may be done.
ghost use Rattle.std.specs.Prelude.{◌≡◌, ◌≤◌, ◌+◌, ◌++◌, IfOk, IsErr, List, length, true, ℕ};
ghost use Rattle.std.specs.Result.{IsOkAnd};
ghost use Rattle.tlv_head.specs.Limits.{input_limit};
ghost use Rattle.tlv_io.specs.Out.{Sends};
ghost use Rattle.tlv_open.specs.Opens.{AreOpened, closed_framing};
ghost use Rattle.tlv_reasons.specs.Facts.{AreFacts};
ghost use Rattle.tlv_reasons.specs.Sentences.{sentences_text};
ghost use Rattle.tlv_walk.specs.Inside.{are_rising};
ghost use Rattle.tlv_walk.specs.Reading.{AreOctets};
ghost use Rattle.tlv_view_program.specs.WritesReasons.{ExplainsFirst, ExplainsOctets, ExplainsString, SendsReasons};
ghost use Rattle.tlv_view_program.specs.WritesReasons.{WritesReasons, block_reads, explained_by, first_of, heading, offsets_up_to};
ghost use Rattle.tlv_view_program.specs.declared.reasons.Explained.TheVariants.{Octets};

use std::alloc::{AllocError, Global};
use tlv_open::{BrokenString, laws, opened};
use tlv_reasons::{
    Facts, Reasons, Sentence, all_reasons, facts_of, first_sentence, reasons_of, string_reasons,
    write_sentences,
};
use tlv_walk::{Drain, Framing, INPUT_LIMIT, Inside, WriteFault};

/// The number of octets that all tries for a next record in a run may read in vain.
const RUN_READS: u64 = 1 << 24;

/// The number of these octets for each block of a run that has so many blocks.
pub(crate) fn block_reads(count: usize) -> u64
    ensures { result ≡ block_reads count }
{
    RUN_READS / count.max(1) as u64
}

/// What is explained after the messages of a block.
#[derive(Clone, Copy)]
pub(crate) enum Explained {
    /// Nothing.
    Nothing,
    /// Why its octets do not parse.
    Octets,
    /// Why a string in them breaks.
    String(BrokenString),
}

/// What to explain if this status is reported: a fault, or else the first broken string; nothing if standard output
/// failed.
pub(crate) fn explained_by(has_failed: bool, status: u8, broken: &[BrokenString]) -> Explained
    ensures { result ≡ explained_by has_failed status broken.now }
{
    if has_failed {
        return Explained::Nothing;
    }
    if status == 2 {
        return Explained::Octets;
    }
    match broken.first() {
        Some(string) => Explained::String(*string),
        None => Explained::Nothing,
    }
}

/// Writes the reasons.
pub(crate) fn write_explained<D: Drain>(
    alloc: Global,
    reads: u64,
    explained: Explained,
    padding: bool,
    octets: &[u8],
    drain: &mut D,
) -> Result<Result<(), WriteFault>, AllocError>
    requires { length octets.now ≤ input_limit }
    ensures reasons { WritesReasons reads padding octets.now (D.state drain.old) (D.state drain.new) explained result }
    ensures octets { AreOctets octets.now }
{
    match explained {
        Explained::Nothing => Ok(Ok(())),
        Explained::Octets => write_fault_reasons(alloc, reads, padding, octets, drain),
        Explained::String(string) => {
            explain_string(alloc, padding, octets, &string, false, drain)
        }
    }
}

/// Writes all reasons of a fault. A function of its own: each call clears its facts, and most blocks have no fault.
#[inline(never)]
fn write_fault_reasons<D: Drain>(
    alloc: Global,
    reads: u64,
    padding: bool,
    octets: &[u8],
    drain: &mut D,
) -> Result<Result<(), WriteFault>, AllocError>
    requires { length octets.now ≤ input_limit }
    ensures { WritesReasons reads padding octets.now (D.state drain.old) (D.state drain.new) Octets result }
{
    let facts = closed_facts(octets, padding);
    explain_octets(alloc, reads, padding, octets, &facts, false, drain)
}

/// The facts about octets if no string is named.
pub(crate) fn closed_facts(octets: &[u8], padding: bool) -> Facts
    requires { length octets.now ≤ input_limit }
    ensures { AreFacts (closed_framing padding) octets.now result }
{
    let framing = Framing {
        inside: Inside::none(),
        padding,
    };
    facts_of(octets, &framing)
}

/// Writes all reasons why octets do not parse, and, if that is wanted, the message of the fault before them.
pub(crate) fn explain_octets<D: Drain>(
    alloc: Global,
    reads: u64,
    padding: bool,
    octets: &[u8],
    facts: &Facts,
    has_first: bool,
    drain: &mut D,
) -> Result<Result<(), WriteFault>, AllocError>
    requires { length octets.now ≤ input_limit }
    ensures { ExplainsOctets reads padding octets.now facts.now (first_of has_first octets.now facts.now)
        (D.state drain.old) (D.state drain.new) result }
{
    let reasons = all_reasons(alloc, octets, padding, facts, reads);
    let few = reasons_of(octets, facts);
    let first = first_of(has_first, octets, facts);
    send_reasons(octets, &first, reasons, &few, drain)
}

/// The message of the fault, if it is wanted.
fn first_of(has_first: bool, octets: &[u8], facts: &Facts) -> Reasons
    ensures first { result.items ≡ first_of has_first octets.now facts.now }
    ensures few { length result.items ≤ 1 }
{
    let mut first = Reasons::new();
    if has_first {
        first.push(first_sentence(octets, facts));
    }
    first
}

/// Writes sentences, and then all reasons, or those that need no memory, if memory for the others was refused.
fn send_reasons<D: Drain>(
    octets: &[u8],
    front: &Reasons,
    reasons: Result<Reasons, AllocError>,
    few: &Reasons,
    drain: &mut D,
) -> Result<Result<(), WriteFault>, AllocError>
    requires front { length front.now.items ≤ 1 }
    requires reasons { IfOk reasons (λ r. length r.items ≤ 14) }
    requires few { length few.now.items ≤ 14 }
    ensures { SendsReasons octets.now front.now.items (λ sentences. IsOkAnd reasons (λ r. r.items ≡ sentences))
        few.now.items (IsErr reasons) (D.state drain.old) (D.state drain.new) result }
{
    match reasons {
        Ok(reasons) => Ok(send_after(octets, front, &reasons, drain)),
        Err(error) => match send_after(octets, front, few, drain) {
            Ok(()) => Err(error),
            Err(fault) => Ok(Err(fault)),
        },
    }
}

/// Writes sentences, and then others.
fn send_after<D: Drain>(
    octets: &[u8],
    front: &Reasons,
    others: &Reasons,
    drain: &mut D,
) -> Result<(), WriteFault>
    requires { length front.now.items + length others.now.items ≤ 16 }
    ensures { Sends (D.state drain.old) (D.state drain.new) (sentences_text octets.now (front.now.items ++ others.now.items))
        result }
{
    let mut sentences = Reasons::new();
    let _ = sentences.try_extend_from_slice(front.as_slice());
    let _ = sentences.try_extend_from_slice(others.as_slice());
    write_sentences(octets, sentences.as_slice(), drain)
}

/// Explains the first broken string, if there is one.
pub(crate) fn explain_first<D: Drain>(
    alloc: Global,
    padding: bool,
    octets: &[u8],
    broken: &[BrokenString],
    drain: &mut D,
) -> Result<Result<(), WriteFault>, AllocError>
    requires { length octets.now ≤ input_limit }
    ensures { ExplainsFirst padding octets.now (D.state drain.old) (D.state drain.new) broken.now result }
{
    match broken.first() {
        Some(string) => explain_string(alloc, padding, octets, string, true, drain),
        None => Ok(Ok(())),
    }
}

/// Writes why a string breaks, with the sentence before it if that is wanted, and which single length would mend it.
#[inline(never)]
fn explain_string<D: Drain>(
    alloc: Global,
    padding: bool,
    octets: &[u8],
    string: &BrokenString,
    has_heading: bool,
    drain: &mut D,
) -> Result<Result<(), WriteFault>, AllocError>
    requires { length octets.now ≤ input_limit }
    ensures { ExplainsString padding octets.now string.now (heading has_heading string.now)
        (D.state drain.old) (D.state drain.new) result }
{
    if string.offset > INPUT_LIMIT {
        return Ok(Ok(()));
    }
    let offsets = named_offsets(alloc, padding, octets, string.offset)?;
    let Some(inside) = Inside::lent(offsets.as_slice()) else {
        unreachable!();
    };
    let framing = Framing { inside, padding };
    let facts = facts_of(octets, &framing);
    let reasons = string_reasons(alloc, octets, &framing, string.offset as usize, &facts);
    let few = reasons_of(octets, &facts);
    send_reasons(octets, &heading(has_heading, string), reasons, &few, drain)
}

/// The sentence before the reasons why a string breaks, if it is wanted.
fn heading(has_heading: bool, string: &BrokenString) -> Reasons
    ensures heading { result.items ≡ heading has_heading string.now }
    ensures few { length result.items ≤ 1 }
{
    let mut heading = Reasons::new();
    if has_heading {
        heading.push(Sentence::Breaks(*string));
    }
    heading
}

/// The offsets of the strings to name in order to explain the string at this offset.
fn named_offsets(
    alloc: Global,
    padding: bool,
    octets: &[u8],
    offset: u64,
) -> Result<Vec<u64>, AllocError>
    requires short { length octets.now ≤ input_limit }
    requires there { offset ≤ input_limit }
    ensures named { IfOk result (λ named. (opened : List ℕ) × AreOpened padding octets.now opened
        × (named.items ≡ offsets_up_to offset opened)) }
    ensures rising { IfOk result (λ named. are_rising 0 named.items ≡ true) }
{
    laws::opening_is_safe();
    let opened = opened(alloc, octets, padding)?;
    offsets_up_to(alloc, offset, opened.as_slice())
}

/// The opened offsets below this one, and this one.
fn offsets_up_to(alloc: Global, offset: u64, opened: &[u64]) -> Result<Vec<u64>, AllocError>
    ensures { IfOk result (λ named. named.items ≡ offsets_up_to offset opened.now) }
{
    let mut named = Vec::new(alloc);
    for &each in opened {
        if each < offset {
            named.push(each)?;
        }
    }
    named.push(offset)?;
    Ok(named)
}
