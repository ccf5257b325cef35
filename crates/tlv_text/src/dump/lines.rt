//! Lines of a hex dump.
ghost use Rattle.std.specs.List.{list_all};
ghost use Rattle.std.specs.Prelude.{◌≡◌, ◌<◌, ◌≤◌, ◌∷◌, None, false, length, option_map, true};
ghost use Rattle.hex.specs.Hex.{is_hex_digit};
ghost use Rattle.tlv_text.specs.DumpLines.{after_blanks, after_prefix, base, ends_offset, is_dump_blank, is_digit_of};
ghost use Rattle.tlv_text.specs.DumpLines.{kind_from, line_kind, dump_lines, offset_read, row_at, new_text_line};
ghost use Rattle.tlv_text.specs.DumpLines.{begins_colon, has_od_offset, without_return};
ghost use Rattle.tlv_text.specs.Private.DumpSteps.{begins_offset, dump_kind_of, offset_seen, row_seen};

use crate::digits::{digit_value, is_digit};
use memchr::memchr;

/// The radix of offsets.
#[derive(Clone, Copy, Debug, PartialEq, Eq)]
pub(crate) enum Radix {
    /// 16.
    Hexadecimal,
    /// 8.
    Octal,
}

/// Digits that a text begins with.
#[derive(Clone, Copy, Debug)]
pub(crate) struct Offset<'a> {
    /// The number of digits, at most 16.
    pub(crate) count: usize,
    /// The value of the digits.
    pub(crate) number: u64,
    /// What comes after them.
    pub(crate) rest: &'a [u8],
}

/// A row of a dump.
#[derive(Clone, Copy, Debug)]
pub(crate) struct RowLine<'a> {
    /// The number of digits of its offset.
    pub(crate) digits: usize,
    /// Its offset.
    pub(crate) offset: u64,
    /// What comes after the digits of the offset.
    pub(crate) rest: &'a [u8],
}

/// What a line is.
#[derive(Clone, Copy, Debug)]
pub(crate) enum DumpLine<'a> {
    /// Nothing but blanks.
    Blank,
    /// An asterisk.
    Repeat,
    /// A row.
    Row(RowLine<'a>),
    /// Another line.
    Other,
}

/// The first line of a text, and what comes after its line feed.
pub(super) fn split_line(text: &[u8]) -> (&[u8], &[u8])
    requires { 0 < length text.now }
    ensures lines { dump_lines text.now ≡ new_text_line result.0.now (length text.now) ∷ dump_lines result.1.now }
    ensures less { length result.1.now < length text.now }
{
    match memchr(b'\n', text) {
        Some(length) => (&text[..length], &text[length + 1..]),
        None => text.split_at(text.len()),
    }
}

/// What a line is.
#[inline(always)]
pub(super) fn line_of(radix: Radix, line: &[u8]) -> DumpLine<'_>
    ensures { dump_kind_of result ≡ line_kind radix line.now }
{
    kind_from(radix, after_blanks(without_return(line)))
}

/// Whether this is a row whose offset has seven digits and no colon after it.
pub(super) fn has_od_offset(line: DumpLine<'_>) -> bool
    ensures { result ≡ has_od_offset (dump_kind_of line.entry) }
{
    match line {
        DumpLine::Row(row) => row.digits == 7 && !begins_colon(row.rest),
        DumpLine::Blank | DumpLine::Repeat | DumpLine::Other => false,
    }
}

/// A line without the carriage return at its end.
fn without_return(line: &[u8]) -> &[u8]
    ensures { result.now ≡ without_return line.now }
{
    match line {
        [front @ .., b'\r'] => front,
        _ => line,
    }
}

/// What a line is, given its text from the first character that is not a blank.
#[inline(always)]
fn kind_from(radix: Radix, text: &[u8]) -> DumpLine<'_>
    ensures { dump_kind_of result ≡ kind_from radix text.now }
{
    match text {
        [] => DumpLine::Blank,
        [b'*', rest @ ..] if are_blanks(rest) => DumpLine::Repeat,
        _ => match row_at(radix, text) {
            Some(row) => DumpLine::Row(row),
            None => DumpLine::Other,
        },
    }
}

/// The row whose offset begins here, if this is a row.
#[inline(always)]
pub(super) fn row_at(radix: Radix, text: &[u8]) -> Option<RowLine<'_>>
    ensures { option_map row_seen result ≡ row_at radix text.now }
{
    if !has_third_digit(radix, text) {
        return None;
    }
    let digits = after_prefix(text);
    if !begins_offset(radix, digits) {
        return None;
    }
    let offset = read_offset(radix, digits);
    Some(RowLine {
        digits: offset.count,
        offset: offset.number,
        rest: offset.rest,
    })
}

/// Whether the third character is a digit, as in every row, with or without `0x` before its offset. In lines of pairs
/// with spaces between them it is not a digit, and they need not be looked at further.
#[inline(always)]
fn has_third_digit(radix: Radix, text: &[u8]) -> bool
    ensures { result ≡ false → None ≡ row_at radix text.now }
{
    match text {
        [_, _, x, ..] => is_digit_of(radix, *x),
        _ => false,
    }
}

/// Whether a text begins with an offset: 4 to 16 digits, and what may follow them.
fn begins_offset(radix: Radix, text: &[u8]) -> bool
    ensures { result ≡ begins_offset radix text.now }
{
    let mut rest = text;
    let mut count = 0usize;
    while let [x, more @ ..] = rest {
        if count >= 16 || !is_digit_of(radix, *x) {
            break;
        }
        count += 1;
        rest = more;
    }
    count >= 4 && ends_offset(rest)
}

/// The digits that a text begins with, at most 16.
fn read_offset(radix: Radix, text: &[u8]) -> Offset<'_>
    ensures { offset_seen result ≡ offset_read radix 0 0 text.now }
{
    let mut rest = text;
    let mut count = 0;
    let mut number = 0;
    while let [x, more @ ..] = rest {
        if count >= 16 || !is_digit_of(radix, *x) {
            break;
        }
        number = number * base(radix) + u64::from(digit_value(*x));
        count += 1;
        rest = more;
    }
    Offset {
        count,
        number,
        rest,
    }
}

/// The number of a radix.
#[inline(always)]
fn base(radix: Radix) -> u64
    ensures value { result ≡ base radix }
    ensures few { result ≤ 16 }
{
    match radix {
        Radix::Hexadecimal => 16,
        Radix::Octal => 8,
    }
}

/// Whether this is a digit of the radix.
#[inline(always)]
fn is_digit_of(radix: Radix, character: u8) -> bool
    ensures digit { result ≡ is_digit_of radix character }
    ensures hexadecimal { result ≡ true → is_hex_digit character ≡ true }
{
    match radix {
        Radix::Hexadecimal => is_digit(character),
        Radix::Octal => matches!(character, b'0'..=b'7'),
    }
}

/// The text after a leading `0x` or `0X`, if it has one.
pub(super) fn after_prefix(text: &[u8]) -> &[u8]
    ensures { result.now ≡ after_prefix text.now }
{
    match text {
        [b'0', b'x' | b'X', rest @ ..] => rest,
        _ => text,
    }
}

/// Whether this may follow the digits of an offset.
fn ends_offset(text: &[u8]) -> bool
    ensures { result ≡ ends_offset text.now }
{
    matches!(text, [] | [b':' | b' ' | b'\t', ..])
}

/// Whether a text begins with a colon.
pub(super) fn begins_colon(text: &[u8]) -> bool
    ensures { result ≡ begins_colon text.now }
{
    matches!(text, [b':', ..])
}

/// Whether this is a space or a tab.
#[inline(always)]
pub(super) fn is_blank(character: u8) -> bool
    ensures { result ≡ is_dump_blank character }
{
    matches!(character, b' ' | b'\t')
}

/// Whether all of these are blanks.
pub(super) fn are_blanks(text: &[u8]) -> bool
    ensures { result ≡ list_all is_dump_blank text.now }
{
    for character in text {
        if !is_blank(*character) {
            return false;
        }
    }
    true
}

/// The text after its leading blanks.
pub(super) fn after_blanks(text: &[u8]) -> &[u8]
    ensures { result.now ≡ after_blanks text.now }
{
    let mut rest = text;
    while let [x, more @ ..] = rest {
        if !is_blank(*x) {
            break;
        }
        rest = more;
    }
    rest
}
