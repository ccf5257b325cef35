//! Whether the units of BMPString and UniversalString are characters (8.23, ISO/IEC 10646).
ghost use Rattle.std.specs.Prelude.{◌≡◌, ◌<◌, ◌==◌, ◌||◌, ◌++◌, ◌∷◌, [], length, not, true};
ghost use Rattle.tlv_head.specs.Header.{value_of};
ghost use Rattle.tlv_value.specs.Characters.{is_no_character, is_wrong_unit};
ghost use Rattle.tlv_value.specs.UnitsSoFar.{are_characters_after, character_size, open_unit, unit_with};

use super::both;
use arrayvec::ArrayVec;
use tlv_head::universal;

/// How many octets a character of the type with this universal number has: BMPString, UniversalString.
pub(super) fn character_size(number: u64) -> usize
    ensures { result ≡ character_size number }
{
    if number == universal::BMP_STRING {
        2
    } else {
        4
    }
}

/// Takes octets after the unit that has begun. Returns whether the units that are then whole are characters.
#[inline(never)]
pub(super) fn take_units(size: usize, unit: &mut ArrayVec<u8, 4>, octets: &[u8]) -> bool
    requires begun { length unit.old.items < size }
    requires size { (size == 2 || size == 4) ≡ true }
    ensures characters { result ≡ are_characters_after size unit.old.items octets.now }
    ensures unit { unit.new.items ≡ open_unit size unit.old.items octets.now }
    ensures short { length unit.new.items < size }
{
    // Most contents come at once.
    if unit.is_empty() && octets.len() % size == 0 {
        return are_characters(size, octets);
    }
    let mut all = true;
    for octet in octets {
        all = both(all, take_octet(size, unit, *octet));
    }
    all
}

/// Takes an octet after the unit that has begun. Returns whether the unit is not yet whole, or is a character.
fn take_octet(size: usize, unit: &mut ArrayVec<u8, 4>, octet: u8) -> bool
    requires begun { length unit.old.items < size }
    requires size { (size == 2 || size == 4) ≡ true }
    ensures character { result ≡ not (is_wrong_unit size (unit.old.items ++ octet ∷ [])) }
    ensures unit { unit.new.items ≡ unit_with size unit.old.items octet }
    ensures short { length unit.new.items < size }
{
    unit.push(octet);
    if unit.len() < size {
        return true;
    }
    let is_character = is_character_unit(unit.as_slice());
    unit.clear();
    is_character
}

/// Whether a unit of two or four octets is a character.
fn is_character_unit(unit: &[u8]) -> bool
    requires { (length unit.now == 2 || length unit.now == 4) ≡ true }
    ensures { result ≡ not (is_no_character (value_of 256 unit.now)) }
{
    match unit {
        [a, b] => is_character(number_of_two(*a, *b)),
        [a, b, c, d] => is_character(number_of_four(*a, *b, *c, *d)),
        _ => false,
    }
}

/// Whether all units of two octets, or of four, are characters.
fn are_characters(size: usize, octets: &[u8]) -> bool
    requires { (size == 2 || size == 4) ≡ true }
    ensures { result ≡ are_characters_after size [] octets.now }
{
    if size == 2 {
        are_characters_of_two(octets)
    } else {
        are_characters_of_four(octets)
    }
}

/// Whether all units of two octets are characters.
#[inline(never)]
pub(crate) fn are_characters_of_two(octets: &[u8]) -> bool
    ensures { result ≡ are_characters_after 2 [] octets.now }
{
    let mut all = true;
    let mut rest = octets;
    while let [a, b, more @ ..] = rest {
        all = both(all, is_character(number_of_two(*a, *b)));
        rest = more;
    }
    all
}

/// Whether all units of four octets are characters.
#[inline(never)]
pub(crate) fn are_characters_of_four(octets: &[u8]) -> bool
    ensures { result ≡ are_characters_after 4 [] octets.now }
{
    let mut all = true;
    let mut rest = octets;
    while let [a, b, c, d, more @ ..] = rest {
        all = both(all, is_character(number_of_four(*a, *b, *c, *d)));
        rest = more;
    }
    all
}

/// The number of a unit of two octets.
#[inline(always)]
fn number_of_two(a: u8, b: u8) -> u32
    ensures { result ≡ value_of 256 (a ∷ b ∷ []) }
{
    256 * u32::from(a) + u32::from(b)
}

/// The number of a unit of four octets.
#[inline(always)]
fn number_of_four(a: u8, b: u8, c: u8, d: u8) -> u32
    ensures { result ≡ value_of 256 (a ∷ b ∷ c ∷ d ∷ []) }
{
    16_777_216 * u32::from(a) + 65_536 * u32::from(b) + 256 * u32::from(c) + u32::from(d)
}

/// Whether this is the number of a character: it is no surrogate, and not above 10ffff.
#[inline(always)]
fn is_character(number: u32) -> bool
    ensures { result ≡ not (is_no_character number) }
{
    !matches!(number, 0xd800..=0xdfff) && number <= 0x0010_ffff
}
