//! What the lines of a hex dump tell about it before they are read.
ghost use Rattle.std.specs.List.{list_any};
ghost use Rattle.std.specs.Prelude.{◌≡◌, ◌<◌, ◌≤◌, MatchOption};
ghost use Rattle.tlv_text.specs.Dump.{dump_in, is_octal_first, size_by, size_in};
ghost use Rattle.tlv_text.specs.DumpLines.{dump_lines};
ghost use Rattle.tlv_text.specs.DumpPairs.{has_pair};
ghost use Rattle.tlv_text.specs.Private.DumpSteps.{is_row_sign, row_seen};
ghost use Rattle.tlv_text.specs.declared.dump.lines.Radix.TheVariants.{Hexadecimal};

use super::lines::{DumpLine, Radix, RowLine, has_od_offset, line_of, split_line};
use super::pairs::{before_pairs, begins_pair};
use memchr::{memchr, memchr3};

/// The text from the first line that is a row with a pair, or a repeat, with hexadecimal offsets.
pub(super) fn from_first_row(text: &[u8]) -> &[u8]
    ensures read { dump_in Hexadecimal result.now ≡ dump_in Hexadecimal text.now }
    ensures octal { is_octal_first (dump_lines result.now) ≡ is_octal_first (dump_lines text.now) }
{
    if !has_row_sign(text) {
        return &text[text.len()..];
    }
    let mut rest = text;
    while !rest.is_empty() {
        let (line, after) = split_line(rest);
        match line_of(Radix::Hexadecimal, line) {
            DumpLine::Row(row) if has_pair(row) => break,
            DumpLine::Repeat => break,
            _ => rest = after,
        }
    }
    rest
}

/// Whether a text has a colon, a space or a tab (every row with a pair has one of them), or an asterisk (every repeat
/// has one). A text with none of them need not be read line by line.
fn has_row_sign(text: &[u8]) -> bool
    ensures { result ≡ list_any is_row_sign text.now }
{
    memchr3(b':', b' ', b'\t', text).is_some() || memchr(b'*', text).is_some()
}

/// Whether the offset of the first row has seven octal digits and no colon after it, as od writes it.
pub(super) fn is_octal_first(text: &[u8]) -> bool
    ensures { result ≡ is_octal_first (dump_lines text.now) }
{
    let mut rest = text;
    while !rest.is_empty() {
        let (line, after) = split_line(rest);
        match line_of(Radix::Hexadecimal, line) {
            DumpLine::Row(row) if has_pair(row) => {
                return has_od_offset(line_of(Radix::Octal, line));
            }
            _ => rest = after,
        }
    }
    false
}

/// Whether a row has a pair.
pub(super) fn has_pair(row: RowLine<'_>) -> bool
    ensures { result ≡ has_pair (row_seen row.entry) }
{
    begins_pair(before_pairs(row.rest))
}

/// The number of octets in a row, given the lines after the first row, which has this offset; `None` for a single
/// row.
pub(super) fn size_in(radix: Radix, first: u64, text: &[u8]) -> Option<usize>
    ensures value { result ≡ size_in radix first (dump_lines text.now) }
    ensures range { MatchOption result Unit (λ size. (0 < size) × (size ≤ 256)) }
{
    let mut rest = text;
    while !rest.is_empty() {
        let (line, after) = split_line(rest);
        match line_of(radix, line) {
            DumpLine::Row(row) => return Some(size_by(row.offset.saturating_sub(first))),
            DumpLine::Repeat => return Some(16),
            DumpLine::Blank | DumpLine::Other => rest = after,
        }
    }
    None
}

/// The number of octets in a row, given the difference of two offsets.
fn size_by(difference: u64) -> usize
    ensures value { result ≡ size_by difference }
    ensures some { 0 < result }
    ensures few { result ≤ 256 }
{
    if difference >= 1 && difference <= 256 {
        difference as usize
    } else {
        16
    }
}
