//! Octets in base64.
ghost use Rattle.std.specs.Prelude.{◌≡◌, ◌<◌, ◌≤◌, ◌%◌, [], IfErr, IfOk, OnErr, OnOk, length, true, false};
ghost use Rattle.tlv_text.specs.Base64.{ReadsBase64, fits_after, is_escaped_line_end};
ghost use Rattle.tlv_text.specs.Base64.{is_escaped_slash, is_left_out, no_symbols, padding_of, symbols_read};
ghost use Rattle.tlv_text.specs.Private.SymbolSteps.{AreAdded, AreSymbols, IsAtEnd, IsFailure, IsOfNone};
ghost use Rattle.tlv_text.specs.Private.SymbolSteps.{PaddingFits, symbols_then};

use crate::Decoded;
use crate::symbols::{SYMBOLS, take_run};
use arrayvec::ArrayVec;
use base64::DecodeAllocError;
use base64::engine::general_purpose::{STANDARD_NO_PAD, URL_SAFE_NO_PAD};
use std::alloc::{AllocError, Global};

/// The last two of the 64 symbols.
#[derive(Clone, Copy, Debug, PartialEq, Eq)]
pub enum Alphabet {
    /// `+` and `/` (RFC 4648, section 4).
    Standard,
    /// `-` and `_` (RFC 4648, section 5).
    UrlSafe,
}

/// Decodes a text that is base64, with padding or without (RFC 4648, sections 3.2, 4 and 5). White space, quotes, `>`
/// and the pairs `\n` and `\r` are left out, wherever they stand, and so is a backslash before `/`. A text that is
/// not the base64 of any octets is refused after its last symbol; the result then has the octets of the whole groups
/// of four symbols.
///
/// # Errors
///
/// `AllocError` if memory for the octets is refused.
pub fn decode_base64(alloc: Global, alphabet: Alphabet, text: &[u8]) -> Result<Decoded, AllocError>
    ensures { IfOk result (λ d. ReadsBase64 alphabet text.now d.octets.items d.refused) }
{
    decode_with(alloc, alphabet, text, &mut ArrayVec::new())
}

/// [`decode_base64`], with room for symbols. What it holds before is dropped. One room serves many texts, and need not be
/// cleared for each.
pub(crate) fn decode_with(
    alloc: Global,
    alphabet: Alphabet,
    text: &[u8],
    symbols: &mut ArrayVec<u8, SYMBOLS>,
) -> Result<Decoded, AllocError>
    ensures { IfOk result (λ d. ReadsBase64 alphabet text.now d.octets.items d.refused) }
{
    let mut octets = Vec::new(alloc);
    let mut rest = text;
    loop {
        symbols.clear();
        take_symbols(alphabet, &mut rest, symbols);
        if symbols.len() < SYMBOLS {
            return finish(alphabet, text, rest, symbols.as_slice(), octets);
        }
        add_groups(alphabet, symbols.as_slice(), &mut octets)?;
    }
}

/// Takes at most 4096 symbols from the front of a text, up to the first character that is neither a symbol nor left
/// out.
fn take_symbols(alphabet: Alphabet, rest: &mut &[u8], symbols: &mut ArrayVec<u8, SYMBOLS>)
    requires { symbols.old.items ≡ [] }
    ensures symbols { AreSymbols alphabet symbols.new.items }
    ensures read { symbols_read alphabet rest.old.now
        ≡ symbols_then symbols.new.items (symbols_read alphabet rest.new.now) }
    ensures few { length symbols.new.items ≤ 4096 }
    ensures last { length symbols.new.items < 4096
        → symbols_read alphabet rest.new.now ≡ no_symbols rest.new.now }
    ensures less { length rest.new.now ≤ length rest.old.now }
    ensures used { 0 < length symbols.new.items → length rest.new.now < length rest.old.now }
{
    loop {
        take_run(alphabet, rest, symbols);
        if symbols.len() == SYMBOLS {
            return;
        }
        match *rest {
            [x, more @ ..] if is_left_out(*x) => *rest = more,
            [x, y, more @ ..] if is_escaped_line_end(*x, *y) => *rest = more,
            [x, y, ..] if is_escaped_slash(*x, *y) => *rest = &rest[1..],
            _ => return,
        }
    }
}

/// Whether this character is left out.
#[inline(always)]
fn is_left_out(character: u8) -> bool
    ensures { result ≡ is_left_out character }
{
    matches!(
        character,
        b' ' | b'\t' | b'\n' | b'\r' | b'"' | b'\'' | b'>'
    )
}

/// Whether this is a line feed or a carriage return as JSON and C write it.
#[inline(always)]
fn is_escaped_line_end(first: u8, second: u8) -> bool
    ensures { result ≡ is_escaped_line_end first second }
{
    first == b'\\' && matches!(second, b'n' | b'r')
}

/// Whether this is a slash as JSON may write it.
#[inline(always)]
fn is_escaped_slash(first: u8, second: u8) -> bool
    ensures { result ≡ is_escaped_slash first second }
{
    first == b'\\' && second == b'/'
}

/// Adds the octets of whole groups of symbols.
pub(crate) fn add_groups(
    alphabet: Alphabet,
    symbols: &[u8],
    octets: &mut Vec<u8>,
) -> Result<(), AllocError>
    requires whole { length symbols.now % 4 ≡ 0 }
    requires symbols { AreSymbols alphabet symbols.now }
    ensures { OnOk result (AreAdded alphabet symbols.now octets.old.items octets.new.items) }
{
    match decode(alphabet, symbols, octets) {
        Ok(()) => Ok(()),
        Err(DecodeAllocError::OutOfMemory) => Err(AllocError),
        // Whole groups of symbols always decode.
        Err(DecodeAllocError::DecodeError(_)) => unreachable!(),
    }
}

/// Adds the octets of symbols. On an error, adds none.
fn decode(alphabet: Alphabet, symbols: &[u8], octets: &mut Vec<u8>) -> Result<(), DecodeAllocError>
    ensures added { OnOk result (AreAdded alphabet symbols.now octets.old.items octets.new.items) }
    ensures same { OnErr result (octets.new.items ≡ octets.old.items) }
    ensures failure { IfErr result (λ error. IsFailure alphabet symbols.now error) }
{
    match alphabet {
        Alphabet::Standard => STANDARD_NO_PAD.decode_vec(symbols, octets),
        Alphabet::UrlSafe => URL_SAFE_NO_PAD.decode_vec(symbols, octets),
    }
}

/// Decodes the last symbols of a text. `rest` is what follows them.
pub(crate) fn finish(
    alphabet: Alphabet,
    text: &[u8],
    rest: &[u8],
    symbols: &[u8],
    octets: Vec<u8>,
) -> Result<Decoded, AllocError>
    requires end { IsAtEnd alphabet text.now octets.items symbols.now rest.now }
    requires symbols { AreSymbols alphabet symbols.now }
    ensures { IfOk result (λ d. ReadsBase64 alphabet text.now d.octets.items d.refused) }
{
    let mut octets = octets;
    if add_last(alphabet, symbols, rest, &mut octets)? {
        return Ok(Decoded {
            octets,
            refused: None,
        });
    }
    let groups = &symbols[..symbols.len() / 4 * 4];
    add_groups(alphabet, groups, &mut octets)?;
    Ok(Decoded {
        octets,
        refused: Some(text.len() - rest.len()),
    })
}

/// Adds the octets of the last symbols of a text, unless what follows is not their padding or they are not the base64
/// of any octets.
fn add_last(
    alphabet: Alphabet,
    symbols: &[u8],
    rest: &[u8],
    octets: &mut Vec<u8>,
) -> Result<bool, AllocError>
    ensures padding { IfOk result (λ done. done ≡ true → PaddingFits symbols.now rest.now) }
    ensures added { IfOk result (λ done. done ≡ true
        → AreAdded alphabet symbols.now octets.old.items octets.new.items) }
    ensures same { IfOk result (λ done. done ≡ false → octets.new.items ≡ octets.old.items) }
    ensures refused { IfOk result (λ done. done ≡ false
        → PaddingFits symbols.now rest.now → IsOfNone alphabet symbols.now) }
{
    if !fits_after(symbols.len(), padding_of(rest)) {
        return Ok(false);
    }
    match decode(alphabet, symbols, octets) {
        Ok(()) => Ok(true),
        Err(DecodeAllocError::OutOfMemory) => Err(AllocError),
        Err(DecodeAllocError::DecodeError(_)) => Ok(false),
    }
}

/// The amount of padding in a text, if the text has nothing else but left-out characters.
fn padding_of(text: &[u8]) -> Option<usize>
    ensures { result ≡ padding_of text.now }
{
    let mut rest = text;
    let mut count = 0;
    loop {
        match rest {
            [] => return Some(count),
            [x, more @ ..] if *x == b'=' => {
                count += 1;
                rest = more;
            }
            [x, more @ ..] if is_left_out(*x) => rest = more,
            [x, y, more @ ..] if is_escaped_line_end(*x, *y) => rest = more,
            _ => return None,
        }
    }
}

/// Whether `padding` characters of padding may follow `count` symbols.
fn fits_after(count: usize, padding: Option<usize>) -> bool
    ensures { result ≡ fits_after count padding }
{
    match padding {
        Some(0) => true,
        Some(1) => count % 4 == 3,
        Some(2) => count % 4 == 2,
        _ => false,
    }
}
