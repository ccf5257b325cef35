//! Rows whose pairs are not their octets in order.
ghost use Rattle.std.specs.List.{list_all};
ghost use Rattle.std.specs.Prelude.{◌≡◌, ◌<◌, ◌≤◌, ◌||◌, length};
ghost use Rattle.tlv_text.specs.DumpWords.{are_bits, are_other_octets, are_reversed, has_bits, has_other_octets};
ghost use Rattle.tlv_text.specs.DumpWords.{is_text_of_words, place_in_word, shown_octet};
ghost use Rattle.tlv_text.specs.Private.DumpSteps.{row_seen};
ghost use Rattle.tlv_text.specs.Private.PairSteps.{AreWholePairs, pair_octets};

use super::lines::{RowLine, after_blanks};
use super::pairs::{before_pairs, begins_pair, gap_of, take_first, take_pairs};
use arrayvec::ArrayVec;

/// The maximum number of octets of a row that are compared with its characters.
const OCTETS: usize = 256;

/// Whether the characters of a row show that its pairs are not its octets in order: its words are in reverse, as
/// `xxd -e` writes them, or bits, as `xxd -b` does.
pub(super) fn has_other_octets(row: RowLine<'_>) -> bool
    ensures { result ≡ has_other_octets (row_seen row.entry) }
{
    let mut rest = before_pairs(row.rest);
    if !begins_pair(rest) {
        return false;
    }
    let mut digits = ArrayVec::new();
    take_first(&mut rest, &mut digits);
    take_pairs(OCTETS - 1, gap_of(1, row.rest), &mut rest, &mut digits);
    are_others_shown(digits.as_slice(), after_blanks(rest))
}

/// Whether a text behind these pairs of digits, at most 256, shows that they are not the octets in order.
fn are_others_shown(digits: &[u8], text: &[u8]) -> bool
    requires pairs { AreWholePairs digits.now }
    requires few { length digits.now ≤ 512 }
    ensures { result ≡ are_other_octets (pair_octets digits.now) text.now }
{
    let mut room = [0; OCTETS];
    let octets = &mut room[..digits.len() / 2];
    let _ = hex::decode_to_slice(digits, octets);
    are_other_octets(octets, text)
}

/// Whether a text behind the pairs of these octets shows that they are not the octets in order.
fn are_other_octets(octets: &[u8], text: &[u8]) -> bool
    requires { length octets.now ≤ 256 }
    ensures { result ≡ are_other_octets octets.now text.now }
{
    are_reversed(octets, text) || are_bits(octets, text)
}

/// Whether for each character of a text there are eight digits, all of them 0 or 1, and there is a character.
fn are_bits(octets: &[u8], text: &[u8]) -> bool
    requires { length octets.now ≤ 256 }
    ensures { result ≡ are_bits octets.now text.now }
{
    !text.is_empty() && text.len() <= OCTETS && octets.len() == 4 * text.len() && have_bits(octets)
}

/// Whether all digits of these octets are 0 or 1.
fn have_bits(octets: &[u8]) -> bool
    ensures { result ≡ list_all has_bits octets.now }
{
    for octet in octets {
        if *octet / 16 > 1 || *octet % 16 > 1 {
            return false;
        }
    }
    true
}

/// Whether a text is not the characters of these octets as they are, and is those of the same octets in words of 2, 4,
/// 8 or 16, or in a single word, each of them reversed.
fn are_reversed(octets: &[u8], text: &[u8]) -> bool
    requires { length octets.now ≤ 256 }
    ensures { result ≡ are_reversed octets.now text.now }
{
    !octets.is_empty() && !is_text_of_words(1, octets, text) && are_in_words(octets, text)
}

/// Whether a text is the characters of these octets in words of 2, 4, 8 or 16, or in a single word, each of them
/// reversed.
fn are_in_words(octets: &[u8], text: &[u8]) -> bool
    requires some { 0 < length octets.now }
    requires few { length octets.now ≤ 256 }
    ensures { result
        ≡ (is_text_of_words 2 octets.now text.now || is_text_of_words 4 octets.now text.now
        || is_text_of_words 8 octets.now text.now || is_text_of_words 16 octets.now text.now
        || is_text_of_words (length octets.now) octets.now text.now) }
{
    is_text_of_words(2, octets, text)
        || is_text_of_words(4, octets, text)
        || is_text_of_words(8, octets, text)
        || is_text_of_words(16, octets, text)
        || is_text_of_words(octets.len(), octets, text)
}

/// Whether a text is the characters of these octets, of which each word of this size is reversed.
fn is_text_of_words(size: usize, octets: &[u8], text: &[u8]) -> bool
    requires size { (0 < size) × (size ≤ 256) }
    requires few { length octets.now ≤ 256 }
    ensures { result ≡ is_text_of_words size octets.now text.now }
{
    if text.len() != octets.len() || octets.len() % size != 0 {
        return false;
    }
    for at in 0..octets.len() {
        let octet = octets.get(place_in_word(size, at)).copied().unwrap_or(0);
        if text[at] != shown_octet(octet) {
            return false;
        }
    }
    true
}

/// The place of an octet after each word of this size is reversed.
fn place_in_word(size: usize, at: usize) -> usize
    requires size { (0 < size) × (size ≤ 256) }
    requires few { at < 256 }
    ensures { result ≡ place_in_word size at }
{
    (at + (size - 1)).saturating_sub(2 * (at % size))
}

/// The character that a dump shows for an octet: a full stop for what is not printable ASCII.
fn shown_octet(octet: u8) -> u8
    ensures { result ≡ shown_octet octet }
{
    match octet {
        b' '..=b'~' => octet,
        _ => b'.',
    }
}
