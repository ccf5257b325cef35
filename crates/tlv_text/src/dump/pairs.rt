//! Pairs of digits in a row of a hex dump.
ghost use Rattle.std.specs.Prelude.{◌≡◌, ◌<◌, ◌≤◌, ◌+◌, ◌||◌, ◌&&◌, [], drop, false, length, not, option_map};
ghost use Rattle.std.specs.Prelude.{take, true};
ghost use Rattle.tlv_text.specs.DumpPairs.{after_few, after_first, after_gap, after_offset, after_one, after_separator};
ghost use Rattle.tlv_text.specs.DumpPairs.{after_symbol, before_pairs, begins_blank, begins_digit, begins_lone_pair};
ghost use Rattle.tlv_text.specs.DumpPairs.{begins_pair, begins_prefix, begins_row_at, begins_symbol_name};
ghost use Rattle.tlv_text.specs.DumpPairs.{dump_row_octets, ends_line, gap_of, has_few_others, has_offset, is_further};
ghost use Rattle.tlv_text.specs.DumpPairs.{octets_if, others_count, pairs_after, without_prefix};
ghost use Rattle.tlv_text.specs.Private.DumpSteps.{row_seen};
ghost use Rattle.tlv_text.specs.Private.PairSteps.{AreWholePairs, pair_octets};
ghost use Rattle.tlv_text.specs.TextRead.{nothing_read, octets_then};

use super::lines::{Radix, RowLine, after_blanks, after_prefix, begins_colon, is_blank, row_at};
use crate::digits::{begins_digit, is_digit};
use arrayvec::ArrayVec;

/// The maximum number of digits in a row.
pub(super) const DIGITS: usize = 512;

/// What may be between two pairs of a row, besides a hyphen.
#[derive(Clone, Copy, Debug)]
pub(crate) struct Gap {
    /// The maximum number of blanks.
    pub(crate) blanks: usize,
    /// Whether the gap may be empty.
    pub(crate) joined: bool,
    /// Whether each pair has `0x` before it.
    pub(crate) prefixed: bool,
}

/// Takes the digits of a row among others, if it fits; a row has `size` octets, and the last row may have fewer.
pub(super) fn row_digits(size: usize, row: RowLine<'_>, digits: &mut ArrayVec<u8, DIGITS>) -> bool
    requires none { digits.old.items ≡ [] }
    requires some { 0 < size }
    requires few { size ≤ 256 }
    ensures pairs { AreWholePairs digits.new.items }
    ensures octets { octets_if result (pair_octets digits.new.items) ≡ dump_row_octets size (row_seen row.entry) }
{
    let mut after = before_pairs(row.rest);
    if !begins_pair(after) {
        return false;
    }
    let gap = gap_of(2, row.rest);
    take_first(&mut after, digits);
    take_pairs(size - 1, gap, &mut after, digits);
    let octets = digits.len() / 2;
    ends_row(gap.prefixed, row.offset, octets, octets == size, after)
}

/// Whether a row with this offset ends after its pairs, which are these many octets: no more digits follow, and its
/// line holds no more than the row. `prefixed` says whether its pairs have `0x` before them.
fn ends_row(prefixed: bool, offset: u64, octets: usize, full: bool, rest: &[u8]) -> bool
    ensures { result ≡ (not (begins_digit rest.now || full && begins_lone_pair (after_few 1 rest.now))
        && ends_line prefixed offset octets rest.now) }
{
    !has_more_digits(full, rest) && ends_line(prefixed, offset, octets, rest)
}

/// Whether a digit follows the pairs at once, or, after a full row, a lone pair follows after one blank.
fn has_more_digits(full: bool, rest: &[u8]) -> bool
    ensures { result ≡ begins_digit rest.now || full && begins_lone_pair (after_few 1 rest.now) }
{
    begins_digit(rest) || full && begins_lone_pair(after_few(1, rest))
}

/// Whether the line of a row with this offset holds no more than the row, given what comes after its pairs, which are
/// `octets` octets: few other characters, and not the row after it. A colon at once shows that the last pairs are the
/// digits of an offset.
pub(super) fn ends_line(prefixed: bool, offset: u64, octets: usize, rest: &[u8]) -> bool
    ensures { result ≡ ends_line prefixed offset octets rest.now }
{
    has_few_others(prefixed, octets, rest)
        && !(begins_colon(rest) || begins_next_row(offset, octets, rest))
}

/// Whether, behind blanks, the row after one with this offset and this number of octets begins. Its offset may be octal
/// even where this offset was read as a hexadecimal one: the first offset of a dump is 0 in both.
fn begins_next_row(offset: u64, octets: usize, rest: &[u8]) -> bool
    ensures { result ≡ begins_row_at (offset + octets) rest.now }
{
    let text = after_blanks(rest);
    is_next_row(row_at(Radix::Hexadecimal, text), offset, octets)
        || is_next_row(row_at(Radix::Octal, text), offset, octets)
}

/// Whether this is the row after one with this offset and this number of octets.
fn is_next_row(row: Option<RowLine<'_>>, offset: u64, octets: usize) -> bool
    ensures { result ≡ has_offset (offset + octets) (option_map row_seen row.entry) }
{
    match row {
        Some(row) => row.offset >= offset && row.offset - offset == octets as u64,
        None => false,
    }
}

/// Whether not more characters come after the pairs of a row than the row has octets, besides two bars; and none after
/// pairs with `0x`.
fn has_few_others(prefixed: bool, octets: usize, rest: &[u8]) -> bool
    ensures { result ≡ has_few_others prefixed octets rest.now }
{
    if prefixed {
        others_count(rest) == 0
    } else {
        is_short_or_few(octets, rest)
    }
}

/// Whether not more characters come after the pairs of a row than the row has octets, besides two bars. A usual row is
/// too short for more of them, so they need not be counted.
fn is_short_or_few(octets: usize, rest: &[u8]) -> bool
    ensures { result ≡ has_few_others false octets rest.now }
{
    let others = after_blanks(rest);
    others.len().saturating_sub(2) <= octets || others_count(others).saturating_sub(2) <= octets
}

/// The number of characters of a text, without blanks.
fn others_count(text: &[u8]) -> usize
    ensures { result ≡ others_count text.now }
{
    let mut count = 0;
    for character in text {
        if !(is_blank(*character) || is_further(*character)) {
            count += 1;
        }
    }
    count
}

/// Whether this is a further octet of a character of UTF-8.
fn is_further(character: u8) -> bool
    ensures { result ≡ is_further character }
{
    matches!(character, 0x80..=0xbf)
}

/// The gap of a row, given what comes after its offset, with at most `blanks` blanks.
pub(super) fn gap_of(blanks: usize, rest: &[u8]) -> Gap
    ensures { result ≡ gap_of blanks rest.now }
{
    Gap {
        blanks,
        joined: begins_colon(rest),
        prefixed: begins_prefix(after_offset(rest)),
    }
}

/// Takes the pair that comes first.
pub(super) fn take_first(rest: &mut &[u8], digits: &mut ArrayVec<u8, DIGITS>)
    requires none { digits.old.items ≡ [] }
    requires pair { begins_pair rest.old.now ≡ true }
    ensures pair { digits.new.items ≡ take 2 rest.old.now }
    ensures whole { AreWholePairs digits.new.items }
    ensures rest { rest.new.now ≡ drop 2 rest.old.now }
{
    let (pair, more) = rest.split_at(2);
    let _ = digits.try_extend_from_slice(pair);
    *rest = more;
}

/// The text from the digits of the first pair on, given what comes after the offset.
pub(super) fn before_pairs(rest: &[u8]) -> &[u8]
    ensures { result.now ≡ before_pairs rest.now }
{
    after_prefix(after_offset(rest))
}

/// The text after leading blanks, a symbol, a colon, a hyphen and blanks.
fn after_offset(rest: &[u8]) -> &[u8]
    ensures { result.now ≡ after_offset rest.now }
{
    after_blanks(after_one(b'-', after_one(b':', after_symbol(after_blanks(rest)))))
}

/// The text without a symbol between `<` and `>`, if it comes first.
fn after_symbol(text: &[u8]) -> &[u8]
    ensures { result.now ≡ after_symbol text.now }
{
    match text {
        [b'<', rest @ ..] => after_first(b'>', rest),
        _ => text,
    }
}

/// The text after this character; empty if it has none.
fn after_first(character: u8, text: &[u8]) -> &[u8]
    ensures { result.now ≡ after_first character text.now }
{
    let mut rest = text;
    while let [x, more @ ..] = rest {
        if *x == character {
            return more;
        }
        rest = more;
    }
    rest
}

/// Whether a text begins with a symbol.
pub(super) fn begins_symbol_name(text: &[u8]) -> bool
    ensures { result ≡ begins_symbol_name text.now }
{
    matches!(text, [b'<', ..])
}

/// Whether `0x` or `0X` comes first.
fn begins_prefix(text: &[u8]) -> bool
    ensures prefix { result ≡ begins_prefix text.now }
    ensures two { result ≡ true → 2 ≤ length text.now }
{
    matches!(text, [b'0', b'x' | b'X', ..])
}

/// The text without this character, if it comes first.
fn after_one(character: u8, text: &[u8]) -> &[u8]
    ensures { result.now ≡ after_one character text.now }
{
    match text {
        [x, rest @ ..] if *x == character => rest,
        _ => text,
    }
}

/// Takes at most `most` pairs, each after a gap, as long as there is room for their digits. Returns `most` minus the
/// number of pairs taken.
pub(super) fn take_pairs(
    most: usize,
    gap: Gap,
    rest: &mut &[u8],
    digits: &mut ArrayVec<u8, DIGITS>,
) -> usize
    requires { AreWholePairs digits.old.items }
    ensures pairs { AreWholePairs digits.new.items }
    ensures read { octets_then (pair_octets digits.old.items) (pairs_after most gap rest.old.now)
        ≡ octets_then (pair_octets digits.new.items) (pairs_after result gap rest.new.now) }
    ensures count { length (pair_octets digits.new.items) + result ≡ length (pair_octets digits.old.items) + most }
    ensures last { length digits.new.items < 512 → pairs_after result gap rest.new.now ≡ nothing_read rest.new.now }
{
    let mut left = most;
    while left > 0 && digits.len() < DIGITS {
        match after_gap(gap, *rest) {
            [x, y, more @ ..] if is_digit(*x) && is_digit(*y) => {
                let _ = digits.try_extend_from_slice(&[*x, *y]);
                left -= 1;
                *rest = more;
            }
            _ => return left,
        }
    }
    left
}

/// The text from the digits of the next pair on; empty if the text does not begin with a gap.
fn after_gap(gap: Gap, text: &[u8]) -> &[u8]
    ensures { result.now ≡ after_gap gap text.now }
{
    if gap.prefixed {
        without_prefix(after_separator(gap, text))
    } else {
        after_separator(gap, text)
    }
}

/// The text without the `0x` that comes first; empty if none does.
fn without_prefix(text: &[u8]) -> &[u8]
    ensures { result.now ≡ without_prefix text.now }
{
    if begins_prefix(text) { &text[2..] } else { &[] }
}

/// The text after what may be between two pairs; empty if the text does not begin so.
fn after_separator(gap: Gap, text: &[u8]) -> &[u8]
    ensures { result.now ≡ after_separator gap text.now }
{
    match text {
        [b'-', rest @ ..] => rest,
        [x, ..] if gap.joined || is_blank(*x) => after_few(gap.blanks, text),
        _ => &[],
    }
}

/// The text after at most `most` leading blanks.
fn after_few(most: usize, text: &[u8]) -> &[u8]
    ensures { result.now ≡ after_few most text.now }
{
    let mut rest = text;
    let mut left = most;
    while left > 0 {
        match rest {
            [x, more @ ..] if is_blank(*x) => rest = more,
            _ => return rest,
        }
        left -= 1;
    }
    rest
}

/// Whether the text begins with a pair that a blank or the end follows.
fn begins_lone_pair(text: &[u8]) -> bool
    ensures { result ≡ begins_lone_pair text.now }
{
    begins_pair(text) && begins_blank(&text[2..])
}

/// Whether a blank or the end comes first.
fn begins_blank(text: &[u8]) -> bool
    ensures { result ≡ begins_blank text.now }
{
    matches!(text, [] | [b' ' | b'\t', ..])
}

/// Whether a pair comes first.
pub(super) fn begins_pair(text: &[u8]) -> bool
    ensures pair { result ≡ begins_pair text.now }
    ensures two { result ≡ true → 2 ≤ length text.now }
{
    match text {
        [x, y, ..] => is_digit(*x) && is_digit(*y),
        _ => false,
    }
}
