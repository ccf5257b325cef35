//! Base64 in texts that have nothing else.
ghost use Rattle.std.specs.List.{list_all};
ghost use Rattle.std.specs.Prelude.{◌≡◌, ◌<◌, ◌≤◌, [], IfOk, MatchOption, length};
ghost use Rattle.tlv_text.specs.Base64.{symbols_read};
ghost use Rattle.tlv_text.specs.Plain.{IsNotPlainBase64, IsPlainBase64, is_line_end, is_padding_or_end};
ghost use Rattle.tlv_text.specs.Plain.{is_plain_text};
ghost use Rattle.tlv_text.specs.Private.SymbolSteps.{AreSymbols, IsPastSymbols, symbols_then};
ghost use Rattle.tlv_text.specs.declared.base64_text.Alphabet.TheVariants.{Standard};

use crate::Alphabet;
use crate::base64_text::{add_groups, finish};
use crate::symbols::{SYMBOLS, take_run};
use arrayvec::ArrayVec;
use std::alloc::{AllocError, Global};

/// Decodes a text that is base64 and has nothing but symbols, padding and line ends. `None` for another text, at the
/// first other character.
pub(crate) fn plain_octets(alloc: Global, text: &[u8]) -> Result<Option<Vec<u8>>, AllocError>
    ensures { IfOk result
        (λ octets. MatchOption octets (IsNotPlainBase64 text.now) (λ o. IsPlainBase64 text.now o.items)) }
{
    let mut symbols = ArrayVec::new();
    let mut octets = Vec::new(alloc);
    let mut rest = text;
    loop {
        symbols.clear();
        take_plain_symbols(&mut rest, &mut symbols);
        if symbols.len() < SYMBOLS {
            if !are_padding_or_ends(rest) {
                return Ok(None);
            }
            let decoded = finish(Alphabet::Standard, text, rest, symbols.as_slice(), octets)?;
            if decoded.refused.is_some() {
                return Ok(None);
            }
            return Ok(Some(decoded.octets));
        }
        add_groups(Alphabet::Standard, symbols.as_slice(), &mut octets)?;
    }
}

/// Takes at most 4096 symbols from the front of a text, up to the first character that is neither a symbol nor a line
/// end.
fn take_plain_symbols(rest: &mut &[u8], symbols: &mut ArrayVec<u8, SYMBOLS>)
    requires { symbols.old.items ≡ [] }
    ensures symbols { AreSymbols Standard symbols.new.items }
    ensures read { symbols_read Standard rest.old.now
        ≡ symbols_then symbols.new.items (symbols_read Standard rest.new.now) }
    ensures plain { is_plain_text Standard rest.new.now ≡ is_plain_text Standard rest.old.now }
    ensures few { length symbols.new.items ≤ 4096 }
    ensures last { length symbols.new.items < 4096 → IsPastSymbols rest.new.now }
    ensures less { length rest.new.now ≤ length rest.old.now }
    ensures used { 0 < length symbols.new.items → length rest.new.now < length rest.old.now }
{
    loop {
        take_run(Alphabet::Standard, rest, symbols);
        if symbols.len() == SYMBOLS {
            return;
        }
        match *rest {
            [x, more @ ..] if is_line_end(*x) => *rest = more,
            _ => return,
        }
    }
}

/// Whether a text has nothing but padding and line ends.
fn are_padding_or_ends(text: &[u8]) -> bool
    ensures { result ≡ list_all is_padding_or_end text.now }
{
    for character in text {
        if *character != b'=' && !is_line_end(*character) {
            return false;
        }
    }
    true
}

/// Whether this is a line feed or a carriage return.
#[inline(always)]
pub(crate) fn is_line_end(character: u8) -> bool
    ensures { result ≡ is_line_end character }
{
    matches!(character, b'\n' | b'\r')
}
