//! Why octets do not parse, and what may be done, if that is wanted.
ghost use Rattle.std.specs.Prelude.{◌≡◌, ◌≤◌, ◌++◌, IfOk, [], length};
ghost use Rattle.tlv_show.specs.declared.rules.Rules.TheVariants.{Ber, Der};
ghost use Rattle.tlv_head.specs.Limits.{input_limit};
ghost use Rattle.tlv_io.specs.Out.{Puts, Sends};
ghost use Rattle.tlv_run.specs.Report.{report_value_of};
ghost use Rattle.tlv_view_program.specs.Views.{AreBrokenUnless};
ghost use Rattle.tlv_reasons.specs.Sentences.{sentences_text};
ghost use Rattle.tlv_reasons.specs.OutermostKinds.{AreKinds};
ghost use Rattle.tlv_view_program.specs.Reasons.{AreFirstFindings, ExplainsParsing, ReportsFindings, ShowsReasons};
ghost use Rattle.tlv_view_program.specs.Reasons.{explained_report, findings_line, findings_text, findings_words};
ghost use Rattle.tlv_view_program.specs.Reasons.{first_lines, parsing_sentences};

use crate::input::{InputFault, input_report};
use crate::octets::no_memory;
use crate::reasons::{closed_facts, explain_first, explain_octets};
use crate::silent::SilentDrain;
use crate::view_call::{FINDINGS_ROOM, View, Viewed, first_octets, view_octets};
use arrayvec::ArrayVec;
use std::alloc::{AllocError, Global};
use tlv_reasons::{
    Facts, OutermostKinds, Reasons, Sentence, first_sentence, outermost_kinds, write_sentences,
};
use tlv_run::{Report, device_report};
use tlv_show::{FiniteNames, Rules};
use tlv_walk::{DeviceFault, Drain, Out, WriteFault};

/// The number of findings whose lines are shown.
const SHOWN_FINDINGS: usize = 5;

/// The findings in octets that parse.
#[derive(Drop)]
struct Found {
    /// What a check by BER reports, and which strings are reported as broken.
    ber: Viewed,
    /// What a check by DER reports.
    der: Report,
    /// The first octets that it writes.
    first: ArrayVec<u8, FINDINGS_ROOM>,
    /// The outermost elements, if they begin with many different octets.
    kinds: Option<OutermostKinds>,
}

/// Writes whether octets parse, and if not, why, and what may be done.
pub(crate) fn explain<N: FiniteNames, D: Drain>(
    alloc: Global,
    reads: u64,
    closed: bool,
    padding: bool,
    names: &N,
    octets: &[u8],
    drain: &mut D,
) -> Viewed
    requires { length octets.now ≤ input_limit }
    ensures { ShowsReasons reads closed padding (N.table names.now) octets.now (D.state drain.old) (D.state drain.new)
        (report_value_of result.report) result.broken.items }
{
    let facts = closed_facts(octets, padding);
    if facts.fault.is_some() {
        let outcome = explain_octets(alloc, reads, padding, octets, &facts, true, drain);
        return without_strings(alloc, explained_report(2, outcome));
    }
    let Ok(found) = findings_in(alloc, closed, padding, names, octets) else {
        return no_memory(alloc);
    };
    let outcome = explain_parsing(alloc, padding, octets, &facts, &found, drain);
    Viewed {
        report: explained_report(found.ber.report.status, outcome),
        broken: found.ber.broken,
    }
}

/// Writes that octets parse and which findings are in them, and then why the first broken string breaks.
fn explain_parsing<D: Drain>(
    alloc: Global,
    padding: bool,
    octets: &[u8],
    facts: &Facts,
    found: &Found,
    drain: &mut D,
) -> Result<Result<(), WriteFault>, AllocError>
    requires { length octets.now ≤ input_limit }
    ensures { ExplainsParsing padding octets.now (sentences_text octets.now (parsing_sentences octets.now facts.now found.now.kinds)
        ++ findings_text (report_value_of found.now.ber.report).message (report_value_of found.now.der).message
        found.now.first.items)
        found.now.ber.broken.items (D.state drain.old) (D.state drain.new) result }
{
    match write_parsing(octets, facts, found, drain) {
        Ok(()) => explain_first(alloc, padding, octets, found.ber.broken.as_slice(), drain),
        Err(fault) => Ok(Err(fault)),
    }
}

/// Writes that octets parse, and which findings are in them.
#[tactic(auto, using(tlv_io::proofs::Sends::sends))]
fn write_parsing<D: Drain>(
    octets: &[u8],
    facts: &Facts,
    found: &Found,
    drain: &mut D,
) -> Result<(), WriteFault>
    ensures { Sends (D.state drain.old) (D.state drain.new) (sentences_text octets.now (parsing_sentences octets.now facts.now found.now.kinds)
        ++ findings_text (report_value_of found.now.ber.report).message (report_value_of found.now.der).message
        found.now.first.items)
        result }
{
    let sentences = parsing_sentences(octets, facts, found.kinds);
    write_sentences(octets, sentences.as_slice(), drain)?;
    write_findings(
        found.ber.report.message.as_slice(),
        found.der.message.as_slice(),
        found.first.as_slice(),
        drain,
    )
}

/// The sentences about octets that parse: that they do, and that their outermost elements begin with many different octets,
/// if they do.
fn parsing_sentences(octets: &[u8], facts: &Facts, kinds: Option<OutermostKinds>) -> Reasons
    ensures { result.items ≡ parsing_sentences octets.now facts.now kinds }
{
    let mut sentences = Reasons::new();
    sentences.push(first_sentence(octets, facts));
    if let Some(kinds) = kinds {
        sentences.push(Sentence::ManyKinds(kinds));
    }
    sentences
}

/// The findings by the rules of BER and DER, which strings are broken, and how the outermost elements begin.
fn findings_in<N: FiniteNames>(
    alloc: Global,
    closed: bool,
    padding: bool,
    names: &N,
    octets: &[u8],
) -> Result<Found, AllocError>
    requires { length octets.now ≤ input_limit }
    ensures ber { IfOk result
        (λ f. ReportsFindings Ber closed padding (N.table names.now) octets.now (report_value_of f.ber.report)) }
    ensures der { IfOk result
        (λ f. ReportsFindings Der closed padding (N.table names.now) octets.now (report_value_of f.der)) }
    ensures broken { IfOk result (λ f. AreBrokenUnless closed padding octets.now f.ber.broken.items) }
    ensures first { IfOk result (λ f. AreFirstFindings (N.table names.now) closed padding octets.now
        (report_value_of f.der).message f.first.items) }
    ensures kinds { IfOk result (λ f. AreKinds padding octets.now f.kinds) }
{
    let ber = checked(alloc, Rules::Ber, closed, padding, names, octets)?;
    let der = checked(alloc, Rules::Der, closed, padding, names, octets)?;
    let first = first_findings(
        alloc,
        der.report.message.as_slice(),
        closed,
        padding,
        names,
        octets,
    )?;
    Ok(Found {
        ber,
        der: der.report,
        first,
        kinds: outermost_kinds(octets, padding),
    })
}

/// The first octets that a check by DER writes, if its message has a number of findings.
fn first_findings<N: FiniteNames>(
    alloc: Global,
    message: &[u8],
    closed: bool,
    padding: bool,
    names: &N,
    octets: &[u8],
) -> Result<ArrayVec<u8, FINDINGS_ROOM>, AllocError>
    requires { length octets.now ≤ input_limit }
    ensures { IfOk result
        (λ first. AreFirstFindings (N.table names.now) closed padding octets.now message.now first.items) }
{
    if message.is_empty() {
        return Ok(ArrayVec::new());
    }
    first_octets(alloc, Rules::Der, names, closed, padding, octets)
}

/// The report of a check by these rules, and which strings are broken.
fn checked<N: FiniteNames>(
    alloc: Global,
    rules: Rules,
    closed: bool,
    padding: bool,
    names: &N,
    octets: &[u8],
) -> Result<Viewed, AllocError>
    requires { length octets.now ≤ input_limit }
    ensures reports { IfOk result
        (λ v. ReportsFindings rules closed padding (N.table names.now) octets.now (report_value_of v.report)) }
    ensures broken { IfOk result (λ v. AreBrokenUnless closed padding octets.now v.broken.items) }
{
    let mut drain = SilentDrain;
    let view = View::Check { rules };
    view_octets(alloc, &view, names, closed, padding, octets, &mut drain)
}

/// Writes the numbers of findings, and the lines of the first.
#[tactic(auto, using(tlv_io::proofs::Sends::sends))]
fn write_findings<D: Drain>(
    ber: &[u8],
    der: &[u8],
    first: &[u8],
    drain: &mut D,
) -> Result<(), WriteFault>
    ensures { Sends (D.state drain.old) (D.state drain.new) (findings_text ber.now der.now first.now) result }
{
    let mut out = Out::new(drain);
    put_findings_text(ber, der, first, &mut out)?;
    out.flush()?;
    Ok(())
}

/// Puts these.
fn put_findings_text<D: Drain>(
    ber: &[u8],
    der: &[u8],
    first: &[u8],
    out: &mut Out<'_, D>,
) -> Result<(), WriteFault>
    ensures { Puts D.state out.old out.new (findings_text ber.now der.now first.now) result }
{
    put_findings(ber, der, out)?;
    out.put(first_lines(first, SHOWN_FINDINGS))
}

/// The first whole lines of a text: so many, or all.
fn first_lines(text: &[u8], most: usize) -> &[u8]
    ensures { result.now ≡ first_lines most text.now }
{
    let mut end = 0;
    let mut lines = 0;
    for (index, octet) in text.iter().enumerate() {
        if lines == most {
            return &text[..end];
        }
        if *octet == b'\n' {
            end = index + 1;
            lines += 1;
        }
    }
    &text[..end]
}

/// Puts the line of the numbers.
fn put_findings<D: Drain>(ber: &[u8], der: &[u8], out: &mut Out<'_, D>) -> Result<(), WriteFault>
    ensures { Puts D.state out.old out.new (findings_line ber.now der.now) result }
{
    out.put(b"By the rules of BER: ")?;
    out.put(findings_words(ber))?;
    out.put(b". By those of DER: ")?;
    out.put(findings_words(der))?;
    out.put(b".\n")
}

/// The number of findings, in the words of a report.
fn findings_words(message: &[u8]) -> &[u8]
    ensures { result.now ≡ findings_words message.now }
{
    if message.is_empty() {
        b"findings: 0"
    } else {
        message
    }
}

/// The status, unless a write failed, or memory was refused.
fn explained_report(status: u8, outcome: Result<Result<(), WriteFault>, AllocError>) -> Report
    ensures { report_value_of result ≡ explained_report status outcome }
{
    match outcome {
        Ok(Ok(())) => Report::without_message(status),
        Ok(Err(_)) => device_report(DeviceFault::WriteFailed),
        Err(_) => input_report(InputFault::Memory),
    }
}

/// This report, without broken strings.
fn without_strings(alloc: Global, report: Report) -> Viewed
    ensures report { report_value_of result.report ≡ report_value_of report }
    ensures none { result.broken.items ≡ [] }
{
    Viewed {
        report,
        broken: Vec::new(alloc),
    }
}
