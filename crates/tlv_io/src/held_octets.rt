//! The octets that an `Out` holds, to which texts are added in place.
ghost use Rattle.std.specs.Prelude.{◌≡◌, ◌+◌, ◌*◌, ◌≤◌, ◌++◌, [], length, take};
ghost use Rattle.tlv_io.specs.OutLimits.{held_limit};
ghost use Rattle.tlv_io.specs.LineTexts.{AddsIfRoom, HasRoomFor, spaced_pairs, spaces};

mod numbers;
mod offset_text;
mod pair_table;
mod texts;

use offset_text::OffsetText;
use pair_table::PairTable;
use std::marker::Model;
use texts::{fill_spaces, write_spaced_pairs, write_spaced_row};

/// The most octets that are held.
pub(crate) const CAPACITY: usize = 4096;

/// At most 4096 octets, to which texts are added in place.
///
/// This is not an `ArrayVec`: clearing an `ArrayVec` fills it with blanks, and an [`Out`](crate::Out) would pay for
/// that at each flush.
#[derive(Drop)]
pub struct HeldOctets {
    len: usize,
    octets: [u8; CAPACITY],
    /// Filled once, so that no pair of digits costs a call of `hex`.
    pairs: PairTable,
    /// Kept from line to line, so that mostly two digits of an offset are written.
    offsets: OffsetText,
}

impl Model for HeldOctets {
    ghost use Rattle.std.specs.Prelude.{◌≤◌, ℕ, List, take};
    ghost use Rattle.tlv_io.specs.OutLimits.{held_limit};

    ghost Value = { List ℕ };

    ghost view = { λ held. take held.len held.octets };

    ghost invariant = { λ held. held.len ≤ held_limit };
}

impl HeldOctets {
    /// No octets.
    pub fn new() -> HeldOctets
        ensures { result ≡ [] }
    {
        // First, so that the octets are cleared at their place.
        let pairs = PairTable::new();
        HeldOctets {
            len: 0,
            octets: [0; CAPACITY],
            pairs,
            offsets: OffsetText::new(),
        }
    }

    /// The octets.
    #[inline]
    pub fn as_slice(&self) -> &[u8]
        ensures octets { result.now ≡ self.now }
        ensures short { length self.now ≤ held_limit }
    {
        &self.octets[..self.len()]
    }

    /// The number of octets.
    ///
    /// The compiler cannot see the invariant. The test tells it that the count is small, so that a write after the
    /// first `len` octets cannot overwrite the count, and the count need not be read again after each text.
    #[inline(always)]
    pub fn len(&self) -> usize
        ensures count { result ≡ length self.now }
        ensures within { result ≤ held_limit }
    {
        if self.len > CAPACITY {
            unreachable!();
        }
        self.len
    }

    /// Drops all octets but the first `len`.
    #[inline]
    pub fn truncate(&mut self, len: usize)
        requires { len ≤ length self.old }
        ensures { self.new ≡ take len self.old }
    {
        self.len = len;
    }

    /// Adds octets, for which there is room.
    #[inline(always)]
    pub fn add(&mut self, octets: &[u8])
        requires { HasRoomFor self.old (length octets.now) }
        ensures { self.new ≡ self.old ++ octets.now }
    {
        let len = self.len();
        let end = len + octets.len();
        self.octets[len..end].copy_from_slice(octets);
        self.len = end;
    }

    /// Adds the first `count` of these octets. Requires room for all of them, so that they can be copied at once.
    #[inline(always)]
    pub fn add_prefix<const N: usize>(&mut self, octets: &[u8; N], count: usize)
        requires within { count ≤ N }
        requires room { HasRoomFor self.old N }
        ensures { self.new ≡ self.old ++ take count octets.now }
    {
        let len = self.len();
        // The compiler sees that a local copy does not overlap with the line. Otherwise it tests that each time.
        let block = *octets;
        self.octets[len..len + N].copy_from_slice(&block);
        self.len = len + count;
    }

    /// Adds octets if there is room for them; otherwise adds nothing.
    #[inline]
    pub fn add_if_room(&mut self, octets: &[u8])
        ensures added { AddsIfRoom self.old self.new octets.now }
        ensures unchanged { (HasRoomFor self.old (length octets.now) → ⊥) → self.new ≡ self.old }
    {
        if octets.len() <= self.room() {
            self.add(octets);
        }
    }

    /// Adds spaces. Requires room for 32 more, so that spaces can be copied many at a time.
    #[inline(always)]
    pub fn spaces(&mut self, count: usize)
        requires { HasRoomFor self.old (count + 32) }
        ensures { self.new ≡ self.old ++ spaces count }
    {
        let len = self.len();
        fill_spaces(&mut self.octets[len..], count);
        self.len = len + count;
    }

    /// Adds octets as pairs of digits, each pair after a space.
    #[inline(always)]
    pub fn spaced_pairs(&mut self, octets: &[u8])
        requires { HasRoomFor self.old (3 * length octets.now) }
        ensures { self.new ≡ self.old ++ spaced_pairs octets.now }
    {
        let len = self.len();
        self.pairs.fill();
        write_spaced_pairs(octets, &self.pairs, &mut self.octets[len..]);
        self.len = len + 3 * octets.len();
    }

    /// Adds 16 octets as pairs of digits, each pair after a space.
    #[inline(always)]
    pub fn spaced_row(&mut self, octets: &[u8; 16])
        requires { HasRoomFor self.old 48 }
        ensures { self.new ≡ self.old ++ spaced_pairs octets.now }
    {
        let len = self.len();
        self.pairs.fill();
        write_spaced_row(octets, &self.pairs, &mut self.octets[len..]);
        self.len = len + 48;
    }

    /// The number of octets that can still be added.
    #[inline(always)]
    pub(crate) fn room(&self) -> usize
        ensures { result + length self.now ≡ held_limit }
    {
        CAPACITY - self.len()
    }

    /// Drops all octets.
    #[inline]
    pub(crate) fn clear(&mut self)
        ensures { self.new ≡ [] }
    {
        self.len = 0;
    }
}
