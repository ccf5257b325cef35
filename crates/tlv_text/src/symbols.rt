//! Symbols of base64.
ghost use Rattle.std.specs.List.{list_all};
ghost use Rattle.std.specs.Prelude.{◌≡◌, ◌<◌, ◌≤◌, false, length, slice_index};
ghost use Rattle.tlv_text.specs.Base64.{is_letter_or_digit, is_symbol};
ghost use Rattle.tlv_text.specs.Private.SymbolSteps.{AreSymbols, TakesSymbols};

use crate::Alphabet;
use arrayvec::ArrayVec;

/// The number of symbols that are decoded at once: whole groups of four.
pub(crate) const SYMBOLS: usize = 4096;

/// The number of characters that are tested at once.
const BLOCK: usize = 32;

/// Takes the leading symbols of a text, as many as there is room for.
pub(crate) fn take_run(alphabet: Alphabet, rest: &mut &[u8], symbols: &mut ArrayVec<u8, SYMBOLS>)
    requires symbols { AreSymbols alphabet symbols.old.items }
    requires few { length symbols.old.items ≤ 4096 }
    ensures takes { TakesSymbols alphabet rest.old.now symbols.old.items rest.new.now symbols.new.items }
    ensures few { length symbols.new.items ≤ 4096 }
    ensures last { length symbols.new.items < 4096 → 0 < length rest.new.now
        → is_symbol alphabet (slice_index rest.new.now 0) ≡ false }
{
    take_blocks(alphabet, rest, symbols);
    take_few(alphabet, rest, symbols);
}

/// Takes leading blocks of symbols of a text, while there is room for them: a block at a time costs less than one by
/// one.
fn take_blocks(alphabet: Alphabet, rest: &mut &[u8], symbols: &mut ArrayVec<u8, SYMBOLS>)
    requires symbols { AreSymbols alphabet symbols.old.items }
    requires few { length symbols.old.items ≤ 4096 }
    ensures takes { TakesSymbols alphabet rest.old.now symbols.old.items rest.new.now symbols.new.items }
    ensures few { length symbols.new.items ≤ 4096 }
{
    while rest.len() >= BLOCK && symbols.len() <= SYMBOLS - BLOCK {
        let (block, more) = rest.split_at(BLOCK);
        // Most runs end with a line, and a line end is below all symbols.
        if block[0] < b'+' || !are_symbols(alphabet, block) {
            break;
        }
        let _ = symbols.try_extend_from_slice(block);
        *rest = more;
    }
}

/// Takes the leading symbols of a text one by one, as many as there is room for.
fn take_few(alphabet: Alphabet, rest: &mut &[u8], symbols: &mut ArrayVec<u8, SYMBOLS>)
    requires symbols { AreSymbols alphabet symbols.old.items }
    requires few { length symbols.old.items ≤ 4096 }
    ensures takes { TakesSymbols alphabet rest.old.now symbols.old.items rest.new.now symbols.new.items }
    ensures few { length symbols.new.items ≤ 4096 }
    ensures last { length symbols.new.items < 4096 → 0 < length rest.new.now
        → is_symbol alphabet (slice_index rest.new.now 0) ≡ false }
{
    while let [x, more @ ..] = *rest {
        if symbols.len() == SYMBOLS || !is_symbol(alphabet, *x) {
            break;
        }
        symbols.push(*x);
        *rest = more;
    }
}

/// Whether all of these are symbols. None is passed over, so that many are tested at a time.
fn are_symbols(alphabet: Alphabet, text: &[u8]) -> bool
    ensures { result ≡ list_all (is_symbol alphabet) text.now }
{
    let mut all = true;
    for character in text {
        all &= is_symbol(alphabet, *character);
    }
    all
}

/// Whether this is a symbol of the alphabet.
#[inline(always)]
pub(crate) fn is_symbol(alphabet: Alphabet, character: u8) -> bool
    ensures { result ≡ is_symbol alphabet character }
{
    // With `|`, since a branch for each range would keep characters from being tested many at a time.
    is_letter_or_digit(character)
        | match alphabet {
            Alphabet::Standard => (character == b'+') | (character == b'/'),
            Alphabet::UrlSafe => (character == b'-') | (character == b'_'),
        }
}

/// Whether this is a letter or a digit.
#[inline(always)]
fn is_letter_or_digit(character: u8) -> bool
    ensures { result ≡ is_letter_or_digit character }
{
    (character >= b'A') & (character <= b'Z')
        | (character >= b'a') & (character <= b'z')
        | (character >= b'0') & (character <= b'9')
}
