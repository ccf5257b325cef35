//! The first columns of a line, most of which are those of the line before.
ghost use Rattle.std.specs.Prelude.{◌≡◌, ◌+◌, ◌-◌, ◌/◌, ◌%◌, ◌<◌, ◌≤◌, ◌++◌, ◌∷◌, [], MatchOption, drop, length, take};
ghost use Rattle.tlv_io.specs.LineTexts.{columns};
ghost use Rattle.tlv_io.specs.Private.OffsetText.{zero_bit_of};

use super::numbers::in_two_places;
use itoa::write_digits;

/// The first columns of a line, without a size, for an offset whose last two digits are zeros. Most elements are short,
/// so the offset of the next line mostly differs from this one in the last two digits alone. Then the columns are
/// copied as a block, and only two digits are written.
#[derive(Drop)]
pub(super) struct OffsetText {
    /// The offset: the first of the hundred whose other digits are the same.
    first: u64,
    text: [u8; 17],
    /// The bit that makes a digit 0 of a space; no bit if the offset is 0, since a space then stays before one digit.
    zero_bit: u8,
    ghost is: { text ≡ columns first [] },
    ghost zeros: { first % 100 ≡ 0 },
    ghost within: { first < 100000000 },
    ghost bit: { zero_bit ≡ zero_bit_of first },
}

impl OffsetText {
    /// The columns for the offsets from 0 to 99.
    pub fn new() -> OffsetText {
        OffsetText {
            first: 0,
            text: *b"       0       : ",
            zero_bit: 0,
        }
    }

    /// Takes the columns for an offset, and returns the number that its last two digits are. Returns `None` if the
    /// offset has more than eight digits.
    #[inline(always)]
    pub fn take_for(&mut self, offset: u64) -> Option<u64>
        ensures { MatchOption result (100000000 ≤ offset)
            (λ last. (self.new.first + last ≡ offset) × (last < 100)) }
    {
        // One comparison for both bounds: if the offset is less, the difference wraps, and is large.
        let last = offset.wrapping_sub(self.first);
        if last < 100 {
            Some(last)
        } else if offset >= 100_000_000 {
            None
        } else {
            self.take_other(offset);
            Some(offset % 100)
        }
    }

    /// Takes the columns for an offset of another hundred.
    #[inline(never)]
    fn take_other(&mut self, offset: u64)
        requires { offset < 100000000 }
        ensures { self.new.first ≡ offset - offset % 100 }
    {
        let first = offset - offset % 100;
        let ten_thousands = self.first / 10_000;
        if ten_thousands > 0 && first / 10_000 == ten_thousands {
            // Two more digits are enough. Below 10,000 there may be spaces in their places.
            let [tens, ones] = two_digits(first / 100 % 100);
            self.text[4] = tens;
            self.text[5] = ones;
        } else {
            let mut text = *b"               : ";
            let _ = write_digits(first, &mut text, 8);
            self.text = text;
        }
        self.zero_bit = if first > 0 { 0x10 } else { 0 };
        self.first = first;
    }

    /// Writes the columns for the offset that has `last` as its last two digits, without a size.
    #[inline(always)]
    pub fn write(&self, last: u64, octets: &mut [u8], start: usize)
        requires digits { last < 100 }
        requires within { start + 17 ≤ length octets.old }
        ensures { octets.new
            ≡ take start octets.old ++ (columns (self.now.first + last) [] ++ drop (start + 17) octets.old) }
    {
        // A local copy, as in `HeldOctets::add_prefix`.
        let text = self.text;
        octets[start..start + 17].copy_from_slice(&text);
        let [tens, ones] = in_two_places(last);
        // A digit 0 is a space with this bit set, and the other digits have it.
        octets[start + 6] = tens | self.zero_bit;
        octets[start + 7] = ones;
    }
}

/// The two digits of a number below 100.
#[inline(always)]
fn two_digits(number: u64) -> [u8; 2]
    requires { number < 100 }
    ensures { result ≡ (48 + number / 10) ∷ (48 + number % 10) ∷ [] }
{
    // As in `OffsetText::write`.
    let [tens, ones] = in_two_places(number);
    [tens | 0x10, ones]
}
