//! Octets as pairs of hexadecimal digits.
ghost use Rattle.std.specs.Prelude.{◌≡◌, ◌<◌, ◌≤◌, IfOk, MatchOption, OnOk, Some, length, true};
ghost use Rattle.tlv_text.specs.Pairs.{is_between_pairs, pairs_read};
ghost use Rattle.tlv_text.specs.Plain.{IsLonePairs, IsNotLonePairs, are_lines_of_digits};
ghost use Rattle.tlv_text.specs.Private.PairSteps.{IsNotOfDigits, IsOfDigits, octet_of, zero_between_pairs};
ghost use Rattle.tlv_text.specs.Separated.{IsNotSeparated, IsSeparated, are_separated};
ghost use Rattle.tlv_text.specs.TextRead.{octets_then, refused_at};

use crate::Decoded;
use crate::decoded::refused_at;
use crate::digits::{begins_digit, octet_of, octet_or_more};
use crate::plain::is_line_end;
use std::alloc::{AllocError, Global};

/// 0 at the place of each character that may be between pairs, and 256 at every other place. A row is 16 characters.
#[rattlefmt::skip]
static NOT_BETWEEN: [u32; 256] = [
    256, 256, 256, 256, 256, 256, 256, 256, 256,   0,   0, 256, 256,   0, 256, 256,
    256, 256, 256, 256, 256, 256, 256, 256, 256, 256, 256, 256, 256, 256, 256, 256,
      0, 256,   0, 256, 256, 256, 256,   0, 256, 256, 256, 256,   0,   0, 256, 256,
    256, 256, 256, 256, 256, 256, 256, 256, 256, 256,   0, 256, 256, 256, 256, 256,
    256, 256, 256, 256, 256, 256, 256, 256, 256, 256, 256, 256, 256, 256, 256, 256,
    256, 256, 256, 256, 256, 256, 256, 256, 256, 256, 256, 256, 256, 256, 256, 256,
    256, 256, 256, 256, 256, 256, 256, 256, 256, 256, 256, 256, 256, 256, 256, 256,
    256, 256, 256, 256, 256, 256, 256, 256, 256, 256, 256, 256, 256, 256, 256, 256,
    256, 256, 256, 256, 256, 256, 256, 256, 256, 256, 256, 256, 256, 256, 256, 256,
    256, 256, 256, 256, 256, 256, 256, 256, 256, 256, 256, 256, 256, 256, 256, 256,
    256, 256, 256, 256, 256, 256, 256, 256, 256, 256, 256, 256, 256, 256, 256, 256,
    256, 256, 256, 256, 256, 256, 256, 256, 256, 256, 256, 256, 256, 256, 256, 256,
    256, 256, 256, 256, 256, 256, 256, 256, 256, 256, 256, 256, 256, 256, 256, 256,
    256, 256, 256, 256, 256, 256, 256, 256, 256, 256, 256, 256, 256, 256, 256, 256,
    256, 256, 256, 256, 256, 256, 256, 256, 256, 256, 256, 256, 256, 256, 256, 256,
    256, 256, 256, 256, 256, 256, 256, 256, 256, 256, 256, 256, 256, 256, 256, 256,
];

/// Decodes a text of pairs of hexadecimal digits in either case, with white space, colons, commas, hyphens and quotes
/// between them. A text is refused at the first character that may not stand between pairs and does not begin a pair.
///
/// # Errors
///
/// `AllocError` if memory for the octets is refused.
pub fn decode_pairs(alloc: Global, text: &[u8]) -> Result<Decoded, AllocError>
    ensures octets { IfOk result (λ d. d.octets.items ≡ (pairs_read text.now).octets) }
    ensures refused { IfOk result (λ d. d.refused ≡ refused_at text.now (pairs_read text.now).rest) }
{
    let mut octets = Vec::new(alloc);
    let mut rest = text;
    loop {
        take_four_pairs(&mut rest, &mut octets)?;
        take_four_separated(&mut rest, &mut octets)?;
        match rest {
            [x, more @ ..] if is_between_pairs(*x) => rest = more,
            [x, y, more @ ..] if let Some(octet) = octet_of(*x, *y) => {
                octets.push(octet)?;
                rest = more;
            }
            _ => {
                return Ok(Decoded {
                    octets,
                    refused: refused_at(text, rest),
                });
            }
        }
    }
}

/// Takes the leading pairs of a text, four at a time, and adds their octets: four at a time cost less than one by
/// one.
fn take_four_pairs(text: &mut &[u8], octets: &mut Vec<u8>) -> Result<(), AllocError>
    ensures read { OnOk result (octets_then octets.old.items (pairs_read text.old.now)
        ≡ octets_then octets.new.items (pairs_read text.new.now)) }
    ensures digits { are_lines_of_digits text.new.now ≡ are_lines_of_digits text.old.now }
    ensures less { length text.new.now ≤ length text.old.now }
{
    let mut rest = *text;
    while let [a, b, c, d, e, f, g, h, more @ ..] = rest {
        let first = octet_or_more(*a, *b);
        let second = octet_or_more(*c, *d);
        let third = octet_or_more(*e, *f);
        let fourth = octet_or_more(*g, *h);
        // All four are computed before the first test, which then is a single one.
        if first > 255 || second > 255 || third > 255 || fourth > 255 {
            break;
        }
        octets.extend_from_slice(&[first as u8, second as u8, third as u8, fourth as u8])?;
        rest = more;
    }
    *text = rest;
    Ok(())
}

/// Takes the leading pairs of a text, each with one character after it that may be between pairs, four at a time, and
/// adds their octets. It is inlined, so that its callers keep the place in the vector in a register.
#[inline(always)]
fn take_four_separated(text: &mut &[u8], octets: &mut Vec<u8>) -> Result<(), AllocError>
    ensures read { OnOk result (octets_then octets.old.items (pairs_read text.old.now)
        ≡ octets_then octets.new.items (pairs_read text.new.now)) }
    ensures apart { are_separated text.new.now ≡ are_separated text.old.now }
    ensures less { length text.new.now ≤ length text.old.now }
{
    let mut rest = *text;
    while let [a, b, c, d, e, f, g, h, i, j, k, l, more @ ..] = rest {
        let first = separated_octet(*a, *b, *c);
        let second = separated_octet(*d, *e, *f);
        let third = separated_octet(*g, *h, *i);
        let fourth = separated_octet(*j, *k, *l);
        if first > 255 || second > 255 || third > 255 || fourth > 255 {
            break;
        }
        octets.extend_from_slice(&[first as u8, second as u8, third as u8, fourth as u8])?;
        rest = more;
    }
    *text = rest;
    Ok(())
}

/// The octet of two digits with a character after them that may be between pairs; more than 255 for other characters.
#[inline(always)]
fn separated_octet(x: u8, y: u8, after: u8) -> u32
    ensures { result < 256 → (octet_of x y ≡ Some result) × (is_between_pairs after ≡ true) }
{
    octet_or_more(x, y) + zero_between_pairs(after)
}

/// Decodes a text of pairs of which none is followed by a digit at once. `None` for another text.
fn separated_octets(alloc: Global, text: &[u8]) -> Result<Option<Vec<u8>>, AllocError>
    ensures { IfOk result (λ octets. MatchOption octets (IsNotSeparated text.now) (λ o. IsSeparated text.now o.items)) }
{
    let mut octets = Vec::new(alloc);
    let mut rest = text;
    loop {
        take_four_separated(&mut rest, &mut octets)?;
        match rest {
            [] => return Ok(Some(octets)),
            [x, more @ ..] if is_between_pairs(*x) => rest = more,
            [x, y, more @ ..] if !begins_digit(more) && let Some(octet) = octet_of(*x, *y) => {
                octets.push(octet)?;
                rest = more;
            }
            _ => return Ok(None),
        }
    }
}

/// Decodes a text of pairs of digits and line ends alone. `None` for another text, at the first other character.
fn joined_octets(alloc: Global, text: &[u8]) -> Result<Option<Vec<u8>>, AllocError>
    ensures { IfOk result (λ octets. MatchOption octets (IsNotOfDigits text.now) (λ o. IsOfDigits text.now o.items)) }
{
    let mut octets = Vec::new(alloc);
    let mut rest = text;
    loop {
        take_four_pairs(&mut rest, &mut octets)?;
        match rest {
            [] => break,
            [x, more @ ..] if is_line_end(*x) => rest = more,
            [x, y, more @ ..] if let Some(octet) = octet_of(*x, *y) => {
                octets.push(octet)?;
                rest = more;
            }
            _ => return Ok(None),
        }
    }
    Ok(Some(octets))
}

/// Decodes a text of pairs that has nothing but digits and line ends, or in which no pair is followed by a digit at
/// once. `None` for another text.
pub(crate) fn lone_octets(alloc: Global, text: &[u8]) -> Result<Option<Vec<u8>>, AllocError>
    ensures { IfOk result (λ octets. MatchOption octets (IsNotLonePairs text.now) (λ o. IsLonePairs text.now o.items)) }
{
    match separated_octets(alloc, text)? {
        Some(octets) => Ok(Some(octets)),
        None => joined_octets(alloc, text),
    }
}

/// Whether this may be between pairs.
#[inline(always)]
fn is_between_pairs(character: u8) -> bool
    ensures { result ≡ is_between_pairs character }
{
    zero_between_pairs(character) == 0
}

/// 0 if this may be between pairs, and 256 otherwise. A look-up costs less than a comparison with each of them.
#[inline(always)]
fn zero_between_pairs(character: u8) -> u32
    ensures { result ≡ zero_between_pairs character }
{
    NOT_BETWEEN[usize::from(character)]
}
