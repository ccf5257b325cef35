//! Octets as tokens of a source text.
ghost use Rattle.std.specs.Prelude.{◌≡◌, ◌<◌, ◌≤◌, ◌+◌, ◌↔◌, ◌||◌, ◌&&◌, IfOk, IsTrue, MatchOption, length};
ghost use Rattle.std.specs.Prelude.{nat_le, true};
ghost use Rattle.tlv_text.specs.Characters.{is_quote, is_white};
ghost use Rattle.tlv_text.specs.Private.TokenSteps.{IsTokenOrEnd, NoneMarked, token_from};
ghost use Rattle.tlv_text.specs.TextRead.{refused_at};
ghost use Rattle.tlv_text.specs.Tokens.{begins_like_token, begins_word, ends_escape, escape_token, is_word};
ghost use Rattle.tlv_text.specs.Tokens.{may_follow_backslash, number_token, pieces, token_at, token_count, tokens_in, tokens_read};

use crate::Decoded;
use crate::digits::{digit_value, is_digit};
use memchr::memmem::Finder;
use memchr::{memchr, memchr2};
use std::alloc::{AllocError, Global};

/// A token of a text.
#[derive(Clone, Copy, Debug, PartialEq, Eq)]
pub(crate) struct Token {
    /// Its octet.
    pub(crate) octet: u8,
    /// The number of its characters after the first.
    pub(crate) more: usize,
}

/// Decodes a text whose octets are written as tokens: `0x30`, `0x3` or `\x30`. Anything else may stand before the first
/// token and after the last. Between two tokens there may be no letter, no digit and no `_`: a text is refused at the
/// first such character. It is also refused, anywhere, at what begins like a token and is none: `0x30u8`, `\xg2`, or
/// `\x03` before `ab`. The time is linear: the search for another token runs at most once.
///
/// # Errors
///
/// `AllocError` if memory for the octets is refused.
pub fn decode_tokens(alloc: Global, text: &[u8]) -> Result<Decoded, AllocError>
    ensures octets { IfOk result (λ d. d.octets.items ≡ (tokens_read text.now).octets) }
    ensures refused { IfOk result (λ d. d.refused ≡ refused_at text.now (tokens_read text.now).rest) }
{
    let mut octets = Vec::new(alloc);
    let mut begun = false;
    let mut rest = text;
    let mut before = b' ';
    while let [x, more @ ..] = rest {
        match token_at(before, rest) {
            Some(token) => {
                octets.push(token.octet)?;
                begun = true;
                rest = &more[token.more..];
                before = b' ';
            }
            None if begins_like_token(before, rest) || (begun && is_between(*x, more)) => {
                return Ok(Decoded {
                    octets,
                    refused: Some(text.len() - rest.len()),
                });
            }
            None => {
                // A word that is not between tokens has no token after it.
                begun = begun && !is_word(*x);
                rest = more;
                before = *x;
            }
        }
    }
    Ok(Decoded {
        octets,
        refused: None,
    })
}

/// Whether this is a word character, and a token comes somewhere after it.
fn is_between(character: u8, more: &[u8]) -> bool
    ensures { result ≡ (is_word character && nat_le 1 (tokens_in (pieces 0 character more.now))) }
{
    is_word(character) && after_token(character, more).is_some()
}

/// Whether a text has two tokens or more.
pub fn has_tokens(text: &[u8]) -> bool
    ensures { IsTrue result ↔ (2 ≤ token_count text.now) }
{
    match after_token(b' ', text) {
        Some(rest) => after_token(b' ', rest).is_some(),
        None => false,
    }
}

/// What comes after the first token of a text, if it has one. `before` is the character before the text.
fn after_token(before: u8, text: &[u8]) -> Option<&[u8]>
    ensures { MatchOption result (tokens_in (pieces 0 before text.now) ≡ 0)
        (λ rest. tokens_in (pieces 0 before text.now) ≡ 1 + tokens_in (pieces 0 32 rest.now)) }
{
    // A text without an x has no token, and this search costs less than the others.
    memchr2(b'x', b'X', text)?;
    let end = first_marked(b"0x", before, text, text.len());
    let end = first_marked(b"0X", before, text, end);
    let place = first_marked(b"\\x", before, text, end);
    let token = token_from(place, before, text)?;
    Some(&text[place + 1 + token.more..])
}

/// The place of the first token that begins with this mark, if it is before `end`; if not, `end`, which is the place of
/// another token or the end of the text. `before` is the character before the text.
fn first_marked(mark: &[u8; 2], before: u8, text: &[u8], end: usize) -> usize
    requires within { end ≤ length text.now }
    requires end { IsTokenOrEnd before text.now end }
    ensures within { result ≤ end }
    ensures token { IsTokenOrEnd before text.now result }
    ensures first { NoneMarked mark.now before text.now result }
{
    // The second character of a token may be at the end.
    let part = &text[..text.len().min(end + 1)];
    // A search for one character costs less than a search for two, and few texts have a backslash.
    if memchr(mark[0], part).is_none() {
        return end;
    }
    let finder = Finder::new(mark);
    let mut start = 0;
    while let Some(more) = finder.find(&part[start..]) {
        let place = start + more;
        if token_from(place, before, text).is_some() {
            return place;
        }
        start = place + 1;
    }
    end
}

/// The token that begins at this place of a text. `before` is the character before the text.
fn token_from(place: usize, before: u8, text: &[u8]) -> Option<Token>
    requires { place ≤ length text.now }
    ensures token { result ≡ token_from place before text.now }
    ensures within { MatchOption result Unit (λ t. place + 1 + t.more ≤ length text.now) }
{
    match place {
        0 => token_at(before, text),
        _ => token_at(text[place - 1], &text[place..]),
    }
}

/// The token that a text begins with. `before` is the character before the text: a space at its start and after a
/// token.
fn token_at(before: u8, text: &[u8]) -> Option<Token>
    ensures token { result ≡ token_at before text.now }
    ensures within { MatchOption result Unit (λ t. 1 + t.more ≤ length text.now) }
{
    match text {
        [b'0', b'x' | b'X', digits @ ..] if !is_word(before) => number_token(digits),
        [b'\\', b'x', digits @ ..] if is_white_or_quote(before) => escape_token(digits),
        _ => None,
    }
}

/// Whether a text begins with the first two characters of a token. `before` is the character before the text.
fn begins_like_token(before: u8, text: &[u8]) -> bool
    ensures { result ≡ begins_like_token before text.now }
{
    match text {
        [b'0', b'x' | b'X', ..] => !is_word(before),
        [b'\\', b'x', ..] => is_white_or_quote(before),
        _ => false,
    }
}

/// The token of one or two digits after `0x`.
fn number_token(digits: &[u8]) -> Option<Token>
    ensures token { result ≡ number_token digits.now }
    ensures within { MatchOption result Unit (λ t. t.more ≤ 1 + length digits.now) }
{
    match digits {
        [x, rest @ ..] if is_digit(*x) && !begins_word(rest) => Some(Token {
            octet: digit_value(*x),
            more: 2,
        }),
        [x, y, rest @ ..] if is_digit(*x) && is_digit(*y) && !begins_word(rest) => Some(Token {
            octet: digit_value(*x) * 16 + digit_value(*y),
            more: 3,
        }),
        _ => None,
    }
}

/// The token of two digits after `\x`.
fn escape_token(digits: &[u8]) -> Option<Token>
    ensures token { result ≡ escape_token digits.now }
    ensures within { MatchOption result Unit (λ t. t.more ≤ 1 + length digits.now) }
{
    match digits {
        [x, y, rest @ ..] if is_digit(*x) && is_digit(*y) && ends_escape(rest) => Some(Token {
            octet: digit_value(*x) * 16 + digit_value(*y),
            more: 3,
        }),
        _ => None,
    }
}

/// Whether a text begins with a word character.
fn begins_word(text: &[u8]) -> bool
    ensures { result ≡ begins_word text.now }
{
    match text {
        [x, ..] => is_word(*x),
        [] => false,
    }
}

/// Whether this may follow the digits after `\x`.
fn ends_escape(text: &[u8]) -> bool
    ensures { result ≡ ends_escape text.now }
{
    match text {
        [] => true,
        [b'\\', rest @ ..] => may_follow_backslash(rest),
        [x, ..] => is_white_or_quote(*x),
    }
}

/// Whether this may follow a backslash after the digits of a token.
fn may_follow_backslash(text: &[u8]) -> bool
    ensures { result ≡ may_follow_backslash text.now }
{
    matches!(text, [] | [b'x' | b'\n' | b'\r', ..])
}

/// Whether this is a letter, a digit or `_`.
#[inline(always)]
fn is_word(character: u8) -> bool
    ensures { result ≡ is_word character }
{
    matches!(character, b'A'..=b'Z' | b'a'..=b'z' | b'0'..=b'9' | b'_')
}

/// Whether this is white space or a quote.
fn is_white_or_quote(character: u8) -> bool
    ensures { result ≡ (is_white character || is_quote character) }
{
    matches!(character, b' ' | b'\t' | b'\n' | b'\r' | b'"' | b'\'')
}
