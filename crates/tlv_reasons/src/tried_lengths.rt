//! The lengths that are tried for a header.
ghost use Rattle.std.specs.Prelude.{◌≡◌, ◌<◌, ◌≤◌, ◌+◌, ◌++◌, ◌-◌, ◌^◌, All, length};
ghost use Rattle.tlv_reasons.specs.WrongLength.{ending_lengths, flipped, flips, lengths_at_distance, lengths_within};
ghost use Rattle.tlv_reasons.specs.WrongLength.{reversed, reversed_lengths, search_limit, tried_lengths};

use crate::length_octets::LengthPlace;
use arrayvec::ArrayVec;

/// Lengths, in the order in which they are tried.
type Lengths = ArrayVec<u64, 64>;

/// The lengths that are tried for a header that states the length `said` in the octets at this place: all in a wide
/// framing, bounds, or else only those nearby. The element should end at the offset `reach`.
pub(crate) fn tried_lengths(
    place: LengthPlace,
    constructed: bool,
    wide: bool,
    reach: usize,
    said: u64,
) -> Lengths
    requires place { place.start ≤ place.end }
    requires said { said < 2 ^ 40 }
    requires reach { reach ≤ search_limit }
    ensures lengths { result.items
        ≡ tried_lengths (place.end - place.start) constructed place.end wide reach said }
    ensures below { All (λ n. n < 2 ^ 41) result.items }
{
    let mut lengths = near_lengths(said);
    if wide {
        add_flips(said, &mut lengths);
        add_reversed(place.end - place.start, said, &mut lengths);
        add_distant(said, &mut lengths);
        add_ending(constructed, place.end, reach, &mut lengths);
    }
    lengths
}

/// The lengths at distances from 1 to 5 from this one: nearer ones first, and of two that are equally near the greater.
fn near_lengths(said: u64) -> Lengths
    requires { said < 2 ^ 40 }
    ensures lengths { result.items ≡ lengths_within said 5 }
    ensures few { length result.items ≤ 10 }
    ensures below { All (λ n. n < 2 ^ 41) result.items }
{
    let mut lengths = Lengths::new();
    for by in 0..5 {
        lengths.push(said + (by + 1));
        if by < said {
            lengths.push(said - (by + 1));
        }
    }
    lengths
}

/// Adds the lengths that differ from this one in one bit, the lowest first.
fn add_flips(said: u64, lengths: &mut Lengths)
    requires said { said < 2 ^ 40 }
    requires few { length lengths.old.items ≤ 10 }
    requires below { All (λ n. n < 2 ^ 41) lengths.old.items }
    ensures added { lengths.new.items ≡ lengths.old.items ++ flips said 40 }
    ensures few { length lengths.new.items ≤ 50 }
    ensures below { All (λ n. n < 2 ^ 41) lengths.new.items }
{
    for bit in 0..40 {
        lengths.push(flipped(said, bit));
    }
}

/// The number that differs from this one in this bit.
fn flipped(said: u64, bit: u32) -> u64
    requires said { said < 2 ^ 40 }
    requires bit { bit < 40 }
    ensures flipped { result ≡ flipped said bit }
    ensures below { result < 2 ^ 41 }
{
    let value = 2u64.pow(bit);
    if said / value % 2 == 0 {
        said + value
    } else {
        said - value
    }
}

/// Adds the length with its octets in reverse order, if `count` length octets are a long form with two to five octets
/// after the first.
fn add_reversed(count: usize, said: u64, lengths: &mut Lengths)
    requires said { said < 2 ^ 40 }
    requires few { length lengths.old.items ≤ 50 }
    requires below { All (λ n. n < 2 ^ 41) lengths.old.items }
    ensures added { lengths.new.items ≡ lengths.old.items ++ reversed_lengths count said }
    ensures few { length lengths.new.items ≤ 51 }
    ensures below { All (λ n. n < 2 ^ 41) lengths.new.items }
{
    if 3 <= count && count <= 6 {
        lengths.push(reversed(count - 1, said));
    }
}

/// The number of so many octets, from the least significant octet of this one on.
fn reversed(count: usize, said: u64) -> u64
    requires { count ≤ 5 }
    ensures reversed { result ≡ reversed count said 0 }
    ensures below { result < 2 ^ 41 }
{
    let mut front = 0;
    let mut rest = said;
    let mut left = count;
    while left > 0 {
        front = front * 256 + rest % 256;
        rest /= 256;
        left -= 1;
    }
    front
}

/// Adds the lengths 256 octets away.
fn add_distant(said: u64, lengths: &mut Lengths)
    requires said { said < 2 ^ 40 }
    requires few { length lengths.old.items ≤ 51 }
    requires below { All (λ n. n < 2 ^ 41) lengths.old.items }
    ensures added { lengths.new.items ≡ lengths.old.items ++ lengths_at_distance said 256 }
    ensures few { length lengths.new.items ≤ 53 }
    ensures below { All (λ n. n < 2 ^ 41) lengths.new.items }
{
    lengths.push(said + 256);
    if 256 <= said {
        lengths.push(said - 256);
    }
}

/// Adds the length with which an element ends at the offset `reach`, if it is constructed. Its contents begin at `start`.
fn add_ending(constructed: bool, start: usize, reach: usize, lengths: &mut Lengths)
    requires reach { reach ≤ search_limit }
    requires few { length lengths.old.items ≤ 53 }
    requires below { All (λ n. n < 2 ^ 41) lengths.old.items }
    ensures added { lengths.new.items ≡ lengths.old.items ++ ending_lengths constructed start reach }
    ensures below { All (λ n. n < 2 ^ 41) lengths.new.items }
{
    if constructed && start <= reach {
        lengths.push((reach - start) as u64);
    }
}
