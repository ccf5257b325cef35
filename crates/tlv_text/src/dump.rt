//! Octets of a hex dump with offsets.
ghost use Rattle.std.specs.Prelude.{◌≡◌, ◌<◌, ◌≤◌, IfErr, IfOk, OnOk, Some, None, length, true};
ghost use Rattle.tlv_text.specs.Dump.{IsFault, dump_in, dump_read, goes_further, left_in, read_from, read_in_order};
ghost use Rattle.tlv_text.specs.Dump.{rows_read, size_in, text_limit};
ghost use Rattle.tlv_text.specs.DumpEnds.{dump_radix};
ghost use Rattle.tlv_text.specs.DumpLines.{dump_lines};
ghost use Rattle.tlv_text.specs.DumpPairs.{begins_pair, has_single_offset, pairs_at, single_row_octets};
ghost use Rattle.tlv_text.specs.Private.DumpSteps.{IsAdded, IsFirstRow, Reads, dump_place_of, row_seen};
ghost use Rattle.tlv_text.specs.Private.PairSteps.{AreWholePairs};
ghost use Rattle.tlv_text.specs.TextRead.{refused_in, refused_with};

mod ahead;
mod ends;
mod lines;
mod output;
mod pairs;
mod rows;
mod words;

use crate::decoded::refused_in;
use crate::digits::begins_digit;
use crate::{Decoded, TextFault};
use ahead::{from_first_row, has_pair, is_octal_first, size_in};
use arrayvec::ArrayVec;
pub(crate) use ends::{ends_dump, first_offset};
pub(crate) use lines::Radix;
use lines::{DumpLine, RowLine, after_blanks, begins_colon, line_of, split_line};
use output::{Output, add_octets, no_octets};
use pairs::{
    DIGITS, Gap, before_pairs, begins_pair, begins_symbol_name, ends_line, gap_of, row_digits,
    take_first, take_pairs,
};
use rows::{LastRow, Phase, take_line};
use std::alloc::{AllocError, Global};
use words::has_other_octets;

/// The maximum number of octets in all blocks of a text.
const LIMIT: usize = 1_073_741_824;

/// How many octets more than characters a text may have.
const MORE: usize = 16_777_216;

/// The octets of a dump, and where it is refused.
#[derive(Debug, Drop)]
pub(crate) struct Reading {
    /// The octets.
    pub(crate) output: Output,
    /// If the text is refused, the number of characters left from that place on.
    pub(crate) left: Option<usize>,
}

/// The reading of a dump, and the radix of its offsets.
#[derive(Debug, Drop)]
struct DumpReading {
    /// The reading.
    reading: Reading,
    /// The radix.
    radix: Radix,
}

/// What is decoded from a dump, and the radix of its offsets.
#[derive(Debug, Drop)]
pub(crate) struct DumpDecoded {
    /// What is decoded.
    pub(crate) decoded: Decoded,
    /// The radix.
    pub(crate) radix: Radix,
}

/// Decodes a hex dump with offsets, as xxd, hexdump, od, Wireshark, tcpdump, Format-Hex, OpenSSL and gdb write it. A
/// text is refused at the first line that does not fit. A row does not fit if its line holds more than the row, as it
/// does if line ends are lost. There are two signs of that: after the pairs come more characters than the row has
/// octets, besides two bars; or the next row begins there. Offsets are hexadecimal. They are octal if two things hold:
/// the offset of the first row has seven octal digits and no colon after it, as od writes it; and with octal offsets
/// the text is not refused, or is refused further on than with hexadecimal ones.
///
/// # Errors
///
/// `TextFault::TooLong` if there are more than 2^30 octets, or if they are 2^24 more than the text has characters, as
/// repeats may make them; `TextFault::Memory` if memory for them is refused.
pub fn decode_dump(alloc: Global, text: &[u8]) -> Result<Decoded, TextFault>
    ensures octets { IfOk result (λ d. d.octets.items ≡ (dump_read text.now).octets) }
    ensures refused { IfOk result (λ d. d.refused ≡ refused_in text.now (dump_read text.now).left) }
    ensures fits { IfOk result (λ d. length (dump_read text.now).octets ≤ text_limit text.now) }
    ensures too_long { IfErr result (IsFault text.now) }
{
    match decode_with_radix(alloc, text) {
        Ok(dump) => Ok(dump.decoded),
        Err(fault) => Err(fault),
    }
}

/// Decodes a hex dump as `decode_dump` does, and says which radix its offsets have.
pub(crate) fn decode_with_radix(alloc: Global, text: &[u8]) -> Result<DumpDecoded, TextFault>
    ensures octets { IfOk result (λ d. d.decoded.octets.items ≡ (dump_read text.now).octets) }
    ensures refused { IfOk result (λ d. d.decoded.refused ≡ refused_in text.now (dump_read text.now).left) }
    ensures fits { IfOk result (λ d. length (dump_read text.now).octets ≤ text_limit text.now) }
    ensures radix { IfOk result (λ d. d.radix ≡ dump_radix text.now) }
    ensures too_long { IfErr result (IsFault text.now) }
{
    let Ok(DumpReading { reading, radix }) = read_dump(alloc, text_limit(text), text) else {
        return Err(TextFault::Memory);
    };
    if reading.output.over {
        return Err(TextFault::TooLong);
    }
    let decoded = Decoded {
        octets: reading.output.octets,
        refused: refused_in(text, reading.left),
    };
    Ok(DumpDecoded { decoded, radix })
}

/// The maximum number of octets in all blocks of a text: 2^30, and 2^24 more than the text has characters.
pub(crate) fn text_limit(text: &[u8]) -> usize
    ensures { result ≡ text_limit text.now }
{
    (text.len().min(LIMIT) + MORE).min(LIMIT)
}

/// Reads a dump, with hexadecimal offsets or octal ones. At most `limit` octets are kept.
fn read_dump(alloc: Global, limit: usize, text: &[u8]) -> Result<DumpReading, AllocError>
    ensures reading { IfOk result (λ d. Reads limit (dump_read text.now) d.reading) }
    ensures radix { IfOk result (λ d. d.radix ≡ dump_radix text.now) }
{
    let rest = from_first_row(text);
    if !is_octal_first(rest) {
        let reading = read_lines(alloc, limit, Radix::Hexadecimal, rest)?;
        return Ok(read_with(Radix::Hexadecimal, reading));
    }
    let octal = read_lines(alloc, limit, Radix::Octal, text)?;
    if octal.left.is_none() {
        return Ok(read_with(Radix::Octal, octal));
    }
    let hexadecimal = read_lines(alloc, limit, Radix::Hexadecimal, rest)?;
    if goes_further(octal.left, hexadecimal.left) {
        Ok(read_with(Radix::Octal, octal))
    } else {
        Ok(read_with(Radix::Hexadecimal, hexadecimal))
    }
}

/// A reading with offsets of this radix.
fn read_with(radix: Radix, reading: Reading) -> DumpReading
    ensures reading { result.reading ≡ reading }
    ensures radix { result.radix ≡ radix }
{
    DumpReading { reading, radix }
}

/// Whether a reading is whole, or is refused further on than another one, given the number of characters from where
/// each is refused.
fn goes_further(left: Option<usize>, other: Option<usize>) -> bool
    ensures { result ≡ goes_further left other }
{
    match (left, other) {
        (None, _) => true,
        (Some(_), None) => false,
        (Some(left), Some(other)) => left < other,
    }
}

/// Reads a dump with offsets of this radix.
fn read_lines(alloc: Global, limit: usize, radix: Radix, text: &[u8]) -> Result<Reading, AllocError>
    ensures { IfOk result (Reads limit (dump_in radix text.now)) }
{
    let mut rest = text;
    while !rest.is_empty() {
        let left = rest.len();
        let (line, after) = split_line(rest);
        match line_of(radix, line) {
            DumpLine::Row(row) if has_pair(row) => {
                return read_in_order(alloc, limit, radix, row, left, after);
            }
            DumpLine::Repeat => return Ok(refused(alloc, limit, left)),
            _ => rest = after,
        }
    }
    Ok(refused(alloc, limit, 0))
}

/// The reading of a refused text: nothing is read, and `left` characters are left.
fn refused(alloc: Global, limit: usize, left: usize) -> Reading
    ensures { Reads limit (refused_with left) result }
{
    Reading {
        output: no_octets(alloc, limit),
        left: Some(left),
    }
}

/// Reads a dump from its first row on. It is refused if the pairs of this row are not its octets in order. `rest`
/// comes after the row, and `left` is the number of characters from the row on.
fn read_in_order(
    alloc: Global,
    limit: usize,
    radix: Radix,
    row: RowLine<'_>,
    left: usize,
    rest: &[u8],
) -> Result<Reading, AllocError>
    ensures { IfOk result (Reads limit (read_in_order radix (row_seen row.entry) left (dump_lines rest.now))) }
{
    if has_other_octets(row) {
        return Ok(refused(alloc, limit, left));
    }
    read_from(alloc, limit, radix, row, left, rest)
}

/// Reads a dump from its first row on, whatever its words are.
fn read_from(
    alloc: Global,
    limit: usize,
    radix: Radix,
    row: RowLine<'_>,
    left: usize,
    rest: &[u8],
) -> Result<Reading, AllocError>
    ensures { IfOk result (Reads limit (read_from radix (row_seen row.entry) left (dump_lines rest.now)
        (size_in radix row.entry.offset (dump_lines rest.now)))) }
{
    match size_in(radix, row.offset, rest) {
        Some(size) => read_among(alloc, limit, radix, size, row, left, rest),
        None => read_alone(alloc, limit, radix, row, left, rest),
    }
}

/// Reads a dump, whose rows have `size` octets, from its first row on.
fn read_among(
    alloc: Global,
    limit: usize,
    radix: Radix,
    size: usize,
    row: RowLine<'_>,
    left: usize,
    rest: &[u8],
) -> Result<Reading, AllocError>
    requires some { 0 < size }
    requires few { size ≤ 256 }
    ensures { IfOk result (Reads limit (read_from radix (row_seen row.entry) left (dump_lines rest.now) (Some size))) }
{
    let mut output = no_octets(alloc, limit);
    let mut digits = ArrayVec::new();
    if !row_digits(size, row, &mut digits) {
        return Ok(refused(alloc, limit, left));
    }
    add_octets(alloc, digits.as_slice(), 1, &mut output)?;
    let last = LastRow {
        phase: Phase::Row,
        offset: row.offset,
        digits,
    };
    let left = read_rows(alloc, radix, size, last, rest, &mut output)?;
    Ok(Reading { output, left })
}

/// Reads a dump that is a single row.
fn read_alone(
    alloc: Global,
    limit: usize,
    radix: Radix,
    row: RowLine<'_>,
    left: usize,
    rest: &[u8],
) -> Result<Reading, AllocError>
    ensures { IfOk result (Reads limit (read_from radix (row_seen row.entry) left (dump_lines rest.now) None)) }
{
    let mut output = no_octets(alloc, limit);
    if !add_single(alloc, row, &mut output)? {
        return Ok(refused(alloc, limit, left));
    }
    let last = LastRow {
        phase: Phase::End,
        offset: row.offset,
        digits: ArrayVec::new(),
    };
    let left = read_rows(alloc, radix, 16, last, rest, &mut output)?;
    Ok(Reading { output, left })
}

/// Adds the octets of a single row, if it fits.
fn add_single(alloc: Global, row: RowLine<'_>, output: &mut Output) -> Result<bool, AllocError>
    ensures { IfOk result (λ fits. IsFirstRow (single_row_octets (row_seen row.entry)) fits output.old output.new) }
{
    let text = before_pairs(row.rest);
    if !has_single_offset(row) || !begins_pair(text) {
        return Ok(false);
    }
    let gap = gap_of(1, row.rest);
    let (octets, rest) = add_pairs(alloc, gap, text, output)?;
    Ok(!begins_digit(rest) && ends_line(gap.prefixed, row.offset, octets, rest))
}

/// Whether the offset of a row is 0, or a colon follows it, or a symbol.
fn has_single_offset(row: RowLine<'_>) -> bool
    ensures { result ≡ has_single_offset (row_seen row.entry) }
{
    row.offset == 0 || begins_colon(row.rest) || begins_symbol_name(after_blanks(row.rest))
}

/// Adds the octets of the pairs of a single row. Returns their number, and the rest after them.
fn add_pairs<'a>(
    alloc: Global,
    gap: Gap,
    text: &'a [u8],
    output: &mut Output,
) -> Result<(usize, &'a [u8]), AllocError>
    requires { begins_pair text.now ≡ true }
    ensures octets { OnOk result (IsAdded (pairs_at (length text.now) gap text.now).octets output.old output.new) }
    ensures count { IfOk result (λ r. r.0 ≡ length (pairs_at (length text.now) gap text.now).octets) }
    ensures rest { IfOk result (λ r. r.1.now ≡ (pairs_at (length text.now) gap text.now).rest) }
{
    let mut rest = text;
    let mut digits = ArrayVec::new();
    take_first(&mut rest, &mut digits);
    let mut left = text.len() - 1;
    loop {
        left = take_pairs(left, gap, &mut rest, &mut digits);
        add_octets(alloc, digits.as_slice(), 1, output)?;
        if digits.len() < DIGITS {
            return Ok((text.len() - left, rest));
        }
        digits.clear();
    }
}

/// Reads the lines after the first row. If a line does not fit, returns the number of characters from that line on.
fn read_rows(
    alloc: Global,
    radix: Radix,
    size: usize,
    last: LastRow,
    text: &[u8],
    output: &mut Output,
) -> Result<Option<usize>, AllocError>
    requires some { 0 < size }
    requires few { size ≤ 256 }
    requires pairs { AreWholePairs last.digits.items }
    ensures octets { OnOk result
        (IsAdded (rows_read radix size (dump_place_of last) (dump_lines text.now)).octets output.old output.new) }
    ensures left { IfOk result (λ left. left ≡ (rows_read radix size (dump_place_of last) (dump_lines text.now)).left) }
{
    let mut last = last;
    let mut rest = text;
    while !rest.is_empty() {
        let left = rest.len();
        let (line, after) = split_line(rest);
        if !take_line(alloc, size, line_of(radix, line), left, &mut last, output)? {
            return Ok(Some(left));
        }
        rest = after;
    }
    Ok(left_in(last.phase))
}

/// A repeat with no row after it does not fit.
fn left_in(phase: Phase) -> Option<usize>
    ensures { result ≡ left_in phase }
{
    match phase {
        Phase::Repeat(left) => Some(left),
        Phase::Row | Phase::End => None,
    }
}
