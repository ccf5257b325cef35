//! Runs of base64 inside another text: in LDIF, mail, XML and JSON.
ghost use Rattle.std.specs.Prelude.{◌≡◌, ◌<◌, ◌≤◌, ◌+◌, ◌^◌, length, MatchOption, true};
ghost use Rattle.tlv_text.specs.Base64.{is_symbol};
ghost use Rattle.tlv_text.specs.Runs.{HasNoRun, IsFirstRun, break_size, ends_symbols, is_run_blank, padding_size};
ghost use Rattle.tlv_text.specs.Runs.{across_line_end, begins_symbol, is_at_line_end, ends_reference, line_end_size};
ghost use Rattle.tlv_text.specs.Runs.{leading_symbols, reaches_line_end, stretch_size, up_to_symbol};
ghost use Rattle.tlv_text.specs.declared.base64_text.Alphabet.TheVariants.{Standard};

use crate::{Alphabet, symbols};

/// The minimum number of symbols with which a run begins.
const FEWEST: usize = 40;

/// A run of base64 in a text.
#[derive(Clone, Copy, Debug, PartialEq, Eq)]
pub struct Base64Run<'a> {
    /// The number of characters of the text before it.
    pub start: usize,
    /// From its first symbol to its last one or to its padding.
    pub text: &'a [u8],
    /// What comes after it.
    pub rest: &'a [u8],
}

/// Returns the first run of base64 in a text. It begins with at least 40 symbols of the standard alphabet (RFC 4648,
/// section 4), with no symbol right before them. A line end with blanks around it may stand between two symbols after
/// these, if the symbols after it reach to the end of their line: to the end of the text, a line feed or a carriage
/// return, perhaps after blanks; or to `<`, `&`, `)`, a backtick, a backslash, a quote, or a `=` without a symbol after
/// it. One or two `=` may follow. A line end is a line feed, perhaps with a carriage return before it, or `\n` or `\r\n`.
/// The carriage return may be written `&#13;` or `&#xD;`; base64 refuses a run with these.
pub fn first_run(text: &[u8]) -> Option<Base64Run<'_>>
    ensures { MatchOption result (HasNoRun text.now) (λ r. IsFirstRun text.now r.start r.text.now r.rest.now) }
{
    let mut start = 0;
    while start < text.len() {
        let here = &text[start..];
        let symbols = leading_symbols(here);
        if symbols >= FEWEST {
            let size = stretch_size(here);
            let padding = padding_size(&here[size..]);
            let (run, rest) = here.split_at(size + padding);
            return Some(Base64Run {
                start,
                text: run,
                rest,
            });
        }
        start += symbols.max(1);
    }
    None
}

/// The number of symbols that a text begins with.
fn leading_symbols(text: &[u8]) -> usize
    ensures count { result ≡ leading_symbols text.now }
    ensures within { result ≤ length text.now }
{
    let mut rest = text;
    let mut count = 0;
    while let [x, more @ ..] = rest
        && is_symbol(*x)
    {
        count += 1;
        rest = more;
    }
    count
}

/// The number of characters of the symbols that a text begins with, and of the breaks between them.
fn stretch_size(text: &[u8]) -> usize
    ensures size { result ≡ stretch_size text.now }
    ensures within { result ≤ length text.now }
{
    let mut rest = text;
    while let [x, more @ ..] = rest
        && is_symbol(*x)
    {
        rest = &more[break_size(more)..];
    }
    text.len() - rest.len()
}

/// The size of a break between two symbols: a line end, and blanks around it. It is 0 if the text does not begin with
/// such a break and symbols that reach to the end of their line.
#[inline(always)]
fn break_size(text: &[u8]) -> usize
    ensures size { result ≡ break_size text.now }
    ensures within { result ≤ length text.now }
{
    match text {
        [x, ..] if is_symbol(*x) => 0,
        _ => break_from(text),
    }
}

/// The same. A function of its own, since most calls of `break_size` find a symbol.
fn break_from(text: &[u8]) -> usize
    ensures size { result ≡ break_size text.now }
    ensures within { result ≤ length text.now }
{
    let mut rest = text;
    let mut blanks = 0;
    while let [x, more @ ..] = rest
        && is_blank(*x)
    {
        blanks += 1;
        rest = more;
    }
    across_line_end(blanks, rest)
}

/// The size of `blanks` blanks, the line end with which the text begins, and blanks after it, if symbols follow that
/// reach to the end of their line; otherwise 0.
fn across_line_end(blanks: usize, text: &[u8]) -> usize
    requires { blanks + length text.now < 2 ^ 64 }
    ensures size { result ≡ across_line_end blanks (line_end_size text.now) text.now }
    ensures within { result ≤ blanks + length text.now }
{
    match line_end_size(text) {
        0 => 0,
        size => up_to_symbol(blanks + size, &text[size..]),
    }
}

/// The size of the line end with which a text begins, or 0.
fn line_end_size(text: &[u8]) -> usize
    ensures size { result ≡ line_end_size text.now }
    ensures within { result ≤ length text.now }
{
    match text {
        [b'\n', ..] => 1,
        [b'\r', b'\n', ..] => 2,
        [b'&', more @ ..] if ends_reference(more) => 6,
        [b'\\', b'n', ..] => 2,
        [b'\\', b'r', b'\\', b'n', ..] => 4,
        _ => 0,
    }
}

/// Whether the text begins with a carriage return as XML writes it, without its `&`, and a line feed.
fn ends_reference(text: &[u8]) -> bool
    ensures whether { result ≡ ends_reference text.now }
    ensures long { result ≡ true → 5 ≤ length text.now }
{
    matches!(
        text,
        [b'#', b'1', b'3', b';', b'\n', ..] | [b'#', b'x', b'D', b';', b'\n', ..]
    )
}

/// The size of `before` characters and the blanks after them, if symbols follow that reach to the end of their line;
/// otherwise 0.
fn up_to_symbol(before: usize, text: &[u8]) -> usize
    requires { before + length text.now < 2 ^ 64 }
    ensures size { result ≡ up_to_symbol before text.now }
    ensures within { result ≤ before + length text.now }
{
    let mut rest = text;
    let mut size = before;
    loop {
        match rest {
            [x, more @ ..] if is_symbol(*x) && reaches_line_end(more) => return size,
            [x, more @ ..] if is_blank(*x) => {
                size += 1;
                rest = more;
            }
            _ => return 0,
        }
    }
}

/// Whether the leading symbols of a text reach to the end of their line.
fn reaches_line_end(text: &[u8]) -> bool
    ensures { result ≡ reaches_line_end text.now }
{
    let mut rest = text;
    while let [x, more @ ..] = rest {
        if !is_symbol(*x) {
            return ends_symbols(rest);
        }
        rest = more;
    }
    true
}

/// Whether symbols before this reach to the end of their line.
fn ends_symbols(text: &[u8]) -> bool
    ensures { result ≡ ends_symbols text.now }
{
    match text {
        [b'=', more @ ..] => !begins_symbol(more),
        [b'<' | b'&' | b')' | b'`' | b'\\' | b'"' | b'\'', ..] => true,
        _ => is_at_line_end(text),
    }
}

/// Whether a line ends here, or after blanks.
fn is_at_line_end(text: &[u8]) -> bool
    ensures { result ≡ is_at_line_end text.now }
{
    let mut rest = text;
    while let [x, more @ ..] = rest {
        if !is_blank(*x) {
            return matches!(*x, b'\n' | b'\r');
        }
        rest = more;
    }
    true
}

/// Whether a text begins with a symbol.
fn begins_symbol(text: &[u8]) -> bool
    ensures { result ≡ begins_symbol text.now }
{
    match text {
        [x, ..] => is_symbol(*x),
        [] => false,
    }
}

/// Whether this is a space or a tab.
#[inline(always)]
fn is_blank(character: u8) -> bool
    ensures { result ≡ is_run_blank character }
{
    matches!(character, b' ' | b'\t')
}

/// Whether this is a symbol of the standard alphabet.
#[inline(always)]
fn is_symbol(character: u8) -> bool
    ensures { result ≡ is_symbol Standard character }
{
    symbols::is_symbol(Alphabet::Standard, character)
}

/// The size of the padding that a text begins with: one or two `=`, or none.
fn padding_size(text: &[u8]) -> usize
    ensures size { result ≡ padding_size text.now }
    ensures within { result ≤ length text.now }
{
    match text {
        [x, y, ..] if *x == b'=' && *y == b'=' => 2,
        [x, ..] if *x == b'=' => 1,
        _ => 0,
    }
}
