//! What the body of a block of PEM holds.
ghost use Rattle.std.specs.Prelude.{◌≡◌, ◌≤◌, ◌&&◌, codes, length, true};
ghost use Rattle.tlv_text.specs.PemBody.{IsHeldBy, after_line, does_not_count, has_headers, has_word, headers_size};
ghost use Rattle.tlv_text.specs.PemBody.{is_escaped_line_feed, is_escaped_return};

use memchr::{memchr, memmem};

/// The word that the headers of an encrypted block contain.
const ENCRYPTED: &[u8; 9] = b"ENCRYPTED";

/// What the body of a block of PEM holds.
#[derive(Clone, Copy, Debug, PartialEq, Eq)]
pub enum PemBody<'a> {
    /// Base64 of octets that are encrypted, as its headers say.
    Encrypted,
    /// Base64, after the headers if there are any.
    Base64(&'a [u8]),
}

/// Returns what a body holds: only base64, or, if it has a colon, headers, a blank line and then base64 (RFC 7468;
/// RFC 1421, section 4.4). A line end may also be a backslash and n, as in JSON and C. If nothing comes after the
/// headers, as without a blank line, all of the body is taken for base64, and is refused at its first colon.
pub fn pem_body(body: &[u8]) -> PemBody<'_>
    ensures { IsHeldBy body.now result }
{
    if !has_headers(body) {
        return PemBody::Base64(body);
    }
    let lines = after_line(body);
    let (headers, base64) = lines.split_at(headers_size(lines));
    if is_encrypted(headers) {
        return PemBody::Encrypted;
    }
    if base64.is_empty() {
        return PemBody::Base64(body);
    }
    PemBody::Base64(base64)
}

/// Whether a body begins with headers: whether it has a colon.
fn has_headers(body: &[u8]) -> bool
    ensures { result ≡ has_headers body.now }
{
    memchr(b':', body).is_some()
}

/// Whether headers say that the block is encrypted.
fn is_encrypted(headers: &[u8]) -> bool
    ensures { result ≡ has_word (codes "ENCRYPTED") headers.now }
{
    memmem::find(headers, ENCRYPTED).is_some()
}

/// What comes after the first line end, if there is one.
fn after_line(text: &[u8]) -> &[u8]
    ensures { result.now ≡ after_line text.now }
{
    let mut rest = text;
    loop {
        match rest {
            [x, more @ ..] if *x == b'\n' => return more,
            [x, y, more @ ..] if is_escaped_line_feed(*x, *y) => return more,
            [_, more @ ..] => rest = more,
            [] => return rest,
        }
    }
}

/// The number of characters in the lines up to the first blank line, including that line and its end.
fn headers_size(text: &[u8]) -> usize
    ensures size { result ≡ headers_size true text.now }
    ensures within { result ≤ length text.now }
{
    let mut rest = text;
    let mut blank = true;
    loop {
        match rest {
            [x, more @ ..] if *x == b'\n' => {
                rest = more;
                if blank {
                    break;
                }
                blank = true;
            }
            [x, y, more @ ..] if is_escaped_line_feed(*x, *y) => {
                rest = more;
                if blank {
                    break;
                }
                blank = true;
            }
            [x, y, more @ ..] if is_escaped_return(*x, *y) => rest = more,
            [x, more @ ..] => {
                rest = more;
                blank = stays_blank(blank, *x);
            }
            [] => break,
        }
    }
    text.len() - rest.len()
}

/// Whether a line is still blank with one more character.
#[inline(always)]
fn stays_blank(blank: bool, character: u8) -> bool
    ensures { result ≡ (blank && does_not_count character) }
{
    blank && matches!(character, b' ' | b'\t' | b'\r' | b'"' | b'\'' | b'>')
}

/// Whether this is a carriage return as JSON and C write it.
#[inline(always)]
fn is_escaped_return(first: u8, second: u8) -> bool
    ensures { result ≡ is_escaped_return first second }
{
    first == b'\\' && second == b'r'
}

/// Whether this is a line feed as JSON and C write it.
#[inline(always)]
fn is_escaped_line_feed(first: u8, second: u8) -> bool
    ensures { result ≡ is_escaped_line_feed first second }
{
    first == b'\\' && second == b'n'
}
