//! What a line of a names file says.
ghost use Rattle.std.specs.Prelude.{◌≡◌, ◌==◌, ◌+◌, ◌≤◌, drop, length};
ghost use Rattle.std.specs.List.{position_or_len};
ghost use Rattle.tlv_value.specs.Names.{is_blank, is_name, names_line, without_first_blanks};
ghost use Rattle.tlv_value.specs.Names.{without_last_blanks, without_outer_blanks};
ghost use Rattle.std.specs.Str.Lines.{strip_carriage_return};
ghost use Rattle.tlv_value.specs.Private.NamesSteps.{entry_or_refusal, texts_of};

use super::NamesFault;
use super::arcs::is_dotted;
use crate::pairs::are_printable;
use std::str;

/// The largest number of octets in a line.
const LINE_LIMIT: usize = 400;

/// The dotted text and the name on the line with this number, or none if the line is blank or a comment.
pub(super) fn entry_or_refusal<'a>(
    line: &'a [u8],
    number: u32,
) -> Result<Option<(&'a str, &'a [u8])>, NamesFault>
    ensures { texts_of result ≡ entry_or_refusal number (names_line line.now) }
{
    if line.len() > LINE_LIMIT {
        return Err(NamesFault::TooLarge);
    }
    let text = without_outer_blanks(strip_carriage_return(line));
    if text.is_empty() || text[0] == b'#' {
        return Ok(None);
    }
    let end = end_before_blank(text);
    let dotted = &text[..end];
    if !is_dotted(dotted) {
        return Err(NamesFault::BadOid(number));
    }
    let name = without_first_blanks(&text[end..]);
    if !is_name(name) {
        return Err(NamesFault::BadName(number));
    }
    let Ok(dotted) = str::from_utf8(dotted) else {
        // Digits and dots are UTF-8.
        unreachable!();
    };
    Ok(Some((dotted, name)))
}

/// The position of the first such octet, or the end if there is none.
pub(super) fn end_before(text: &[u8], mark: u8) -> usize
    ensures value { result ≡ position_or_len (λ x. x == mark) text.now }
    ensures within { result ≤ length text.now }
{
    for (i, octet) in text.iter().enumerate() {
        if *octet == mark {
            return i;
        }
    }
    text.len()
}

/// The octets after the octet at `end`; none if the text ends there.
pub(super) fn rest_after(text: &[u8], end: usize) -> &[u8]
    ensures { result.now ≡ drop (end + 1) text.now }
{
    if end < text.len() {
        &text[end + 1..]
    } else {
        &[]
    }
}

/// The position of the first space or tab, or the end if there is none.
fn end_before_blank(text: &[u8]) -> usize
    ensures value { result ≡ position_or_len is_blank text.now }
    ensures within { result ≤ length text.now }
{
    for (i, octet) in text.iter().enumerate() {
        if is_blank(*octet) {
            return i;
        }
    }
    text.len()
}

fn is_blank(octet: u8) -> bool
    ensures { result ≡ is_blank octet }
{
    octet == b' ' || octet == b'\t'
}

/// The line without one CR at its end, if it has one there.
fn strip_carriage_return(line: &[u8]) -> &[u8]
    ensures { result.now ≡ strip_carriage_return line.now }
{
    match line.split_last() {
        Some((b'\r', prefix)) => prefix,
        _ => line,
    }
}

/// The text without the spaces and tabs at both ends.
fn without_outer_blanks(text: &[u8]) -> &[u8]
    ensures { result.now ≡ without_outer_blanks text.now }
{
    without_last_blanks(without_first_blanks(text))
}

fn without_first_blanks(text: &[u8]) -> &[u8]
    ensures { result.now ≡ without_first_blanks text.now }
{
    for (i, octet) in text.iter().enumerate() {
        if !is_blank(*octet) {
            return &text[i..];
        }
    }
    &[]
}

fn without_last_blanks(text: &[u8]) -> &[u8]
    ensures { result.now ≡ without_last_blanks text.now }
{
    let mut end = text.len();
    while end > 0 && is_blank(text[end - 1]) {
        end -= 1;
    }
    &text[..end]
}

/// Whether the text is one or more printable octets.
fn is_name(text: &[u8]) -> bool
    ensures { result ≡ is_name text.now }
{
    !text.is_empty() && are_printable(text)
}
