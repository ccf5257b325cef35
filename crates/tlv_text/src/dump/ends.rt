//! Where a hex dump ends that is refused at a line, and where it begins.
ghost use Rattle.std.specs.Prelude.{◌≡◌, ◌≤◌, false, length};
ghost use Rattle.tlv_text.specs.DumpEnds.{ends_dump, ends_with_repeat, first_offset, has_dump_row, has_first_offset};
ghost use Rattle.tlv_text.specs.DumpLines.{dump_lines};

use super::ahead::has_pair;
use super::lines::{DumpLine, Radix, line_of, split_line};

/// Whether a dump that is refused at a place, where a line begins, ends in front of this line: the line has no offset,
/// no row and no repeat comes from there on, and the dump does not end with a repeat.
pub(crate) fn ends_dump(text: &[u8], place: usize) -> bool
    requires { place ≤ length text.now }
    ensures { result ≡ ends_dump text.now place }
{
    let (front, rest) = text.split_at(place);
    !has_first_offset(rest) && !has_dump_row(rest) && !ends_with_repeat(front)
}

/// Whether the first line has an offset, as a damaged row has.
fn has_first_offset(text: &[u8]) -> bool
    ensures { result ≡ has_first_offset (dump_lines text.now) }
{
    if text.is_empty() {
        return false;
    }
    let (line, _) = split_line(text);
    matches!(line_of(Radix::Hexadecimal, line), DumpLine::Row(_))
}

/// Whether a line is a row with a pair, or a repeat.
fn has_dump_row(text: &[u8]) -> bool
    ensures { result ≡ has_dump_row (dump_lines text.now) }
{
    let mut rest = text;
    while !rest.is_empty() {
        let (line, after) = split_line(rest);
        match line_of(Radix::Hexadecimal, line) {
            DumpLine::Row(row) if has_pair(row) => return true,
            DumpLine::Repeat => return true,
            _ => rest = after,
        }
    }
    false
}

/// Whether the last line that is not empty is a repeat.
fn ends_with_repeat(text: &[u8]) -> bool
    ensures { result ≡ ends_with_repeat false (dump_lines text.now) }
{
    let mut repeats = false;
    let mut rest = text;
    while !rest.is_empty() {
        let (line, after) = split_line(rest);
        match line_of(Radix::Hexadecimal, line) {
            DumpLine::Blank => {}
            DumpLine::Repeat => repeats = true,
            DumpLine::Row(_) | DumpLine::Other => repeats = false,
        }
        rest = after;
    }
    repeats
}

/// The offset of the first row that has a pair; 0 if there is none.
pub(crate) fn first_offset(radix: Radix, text: &[u8]) -> u64
    ensures { result ≡ first_offset radix (dump_lines text.now) }
{
    let mut rest = text;
    while !rest.is_empty() {
        let (line, after) = split_line(rest);
        match line_of(radix, line) {
            DumpLine::Row(row) if has_pair(row) => return row.offset,
            _ => rest = after,
        }
    }
    0
}
