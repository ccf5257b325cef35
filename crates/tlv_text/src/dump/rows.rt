//! Rows of a hex dump after the first.
ghost use Rattle.std.specs.Prelude.{◌≡◌, ◌<◌, ◌≤◌, IfOk};
ghost use Rattle.tlv_text.specs.Dump.{at_row, is_full, dump_row_step, dump_line_step, times_before};
ghost use Rattle.tlv_text.specs.DumpLines.{LineKind};
ghost use Rattle.tlv_text.specs.Private.DumpSteps.{IsTaken, dump_kind_of, dump_place_of, row_seen};
ghost use Rattle.tlv_text.specs.Private.PairSteps.{AreWholePairs};
ghost use Rattle.tlv_text.specs.declared.dump.output.Output.{Output};

use super::lines::{DumpLine, RowLine, are_blanks};
use super::output::{Output, add_octets};
use super::pairs::{DIGITS, row_digits};
use arrayvec::ArrayVec;
use std::alloc::{AllocError, Global};

/// What came last.
#[derive(Clone, Copy, Debug, PartialEq, Eq)]
pub(crate) enum Phase {
    /// A row.
    Row,
    /// A repeat, with the number of characters of the text from it on.
    Repeat(usize),
    /// The end: nothing but blank lines may come.
    End,
}

/// The last row.
#[derive(Debug, Drop)]
pub(crate) struct LastRow {
    /// What came last.
    pub(crate) phase: Phase,
    /// The offset of the row.
    pub(crate) offset: u64,
    /// Its digits.
    pub(crate) digits: ArrayVec<u8, DIGITS>,
}

/// Reads a line after the first row, if it fits. `left` is the number of characters from the line on.
pub(super) fn take_line(
    alloc: Global,
    size: usize,
    line: DumpLine<'_>,
    left: usize,
    last: &mut LastRow,
    output: &mut Output,
) -> Result<bool, AllocError>
    requires some { 0 < size }
    requires few { size ≤ 256 }
    requires pairs { AreWholePairs last.old.digits.items }
    ensures pairs { AreWholePairs last.new.digits.items }
    ensures taken { IfOk result (λ fits.
        IsTaken (dump_line_step size (dump_place_of last.old)
        left (dump_kind_of line.entry)) fits last.new output.old output.new) }
{
    match line {
        DumpLine::Blank => Ok(true),
        DumpLine::Repeat => Ok(take_repeat(size, left, last)),
        DumpLine::Row(row) => take_row(alloc, size, row, last, output),
        DumpLine::Other => Ok(false),
    }
}

/// Reads a repeat, if it fits.
fn take_repeat(size: usize, left: usize, last: &mut LastRow) -> bool
    requires { AreWholePairs last.old.digits.items }
    ensures pairs { AreWholePairs last.new.digits.items }
    ensures taken { (output : Output)
        → IsTaken (dump_line_step size (dump_place_of last.old) left LineKind.repeat) result last.new output output }
{
    if !at_row(last.phase) || !is_full(size, last) {
        return false;
    }
    last.phase = Phase::Repeat(left);
    true
}

/// Reads a row, if it fits.
fn take_row(
    alloc: Global,
    size: usize,
    row: RowLine<'_>,
    last: &mut LastRow,
    output: &mut Output,
) -> Result<bool, AllocError>
    requires some { 0 < size }
    requires few { size ≤ 256 }
    requires pairs { AreWholePairs last.old.digits.items }
    ensures pairs { AreWholePairs last.new.digits.items }
    ensures taken { IfOk result (λ fits. IsTaken
        (dump_row_step size (dump_place_of last.old) (row_seen row.entry)
        (times_before size (dump_place_of last.old) row.entry.offset))
        fits last.new output.old output.new) }
{
    let Some(times) = times_before(size, last, row.offset) else {
        return Ok(false);
    };
    if are_blanks(row.rest) {
        add_octets(alloc, last.digits.as_slice(), times, output)?;
        last.phase = Phase::End;
        return Ok(true);
    }
    let mut digits = ArrayVec::new();
    if !is_full(size, last) || !row_digits(size, row, &mut digits) {
        return Ok(false);
    }
    add_octets(alloc, last.digits.as_slice(), times, output)?;
    add_octets(alloc, digits.as_slice(), 1, output)?;
    *last = LastRow {
        phase: Phase::Row,
        offset: row.offset,
        digits,
    };
    Ok(true)
}

/// The number of times the row before is repeated ahead of a row with this offset; `None` if the offset does not fit.
fn times_before(size: usize, last: &LastRow, offset: u64) -> Option<u64>
    requires some { 0 < size }
    requires pairs { AreWholePairs last.now.digits.items }
    ensures { result ≡ times_before size (dump_place_of last.now) offset }
{
    let size = size as u64;
    let more = offset.checked_sub(last.offset)?;
    match last.phase {
        Phase::Row if more == last.digits.len() as u64 / 2 => Some(0),
        Phase::Repeat(_) if more > size && (more - size) % size == 0 => Some((more - size) / size),
        _ => None,
    }
}

/// Whether a row came last.
fn at_row(phase: Phase) -> bool
    ensures { result ≡ at_row phase }
{
    matches!(phase, Phase::Row)
}

/// Whether the last row is full, with `size` octets.
fn is_full(size: usize, last: &LastRow) -> bool
    requires { AreWholePairs last.now.digits.items }
    ensures { result ≡ is_full size (dump_place_of last.now) }
{
    last.digits.len() / 2 == size
}
