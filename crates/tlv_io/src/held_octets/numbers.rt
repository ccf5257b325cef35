//! Numbers that are added to the octets held.
ghost use Rattle.std.specs.Prelude.{◌≡◌, ◌+◌, ◌<◌, ◌≤◌, ◌++◌, decimal, drop, length, take};
ghost use Rattle.tlv_io.specs.LineTexts.{HasRoomFor, columns, at_right, spaces};

use super::HeldOctets;
use itoa::{Buffer, write_digits};

/// The numbers below 100, each right-aligned in two places.
static TWO_PLACES: [[u8; 2]; 100] = [
    *b" 0", *b" 1", *b" 2", *b" 3", *b" 4", *b" 5", *b" 6", *b" 7", *b" 8", *b" 9", *b"10", *b"11",
    *b"12", *b"13", *b"14", *b"15", *b"16", *b"17", *b"18", *b"19", *b"20", *b"21", *b"22", *b"23",
    *b"24", *b"25", *b"26", *b"27", *b"28", *b"29", *b"30", *b"31", *b"32", *b"33", *b"34", *b"35",
    *b"36", *b"37", *b"38", *b"39", *b"40", *b"41", *b"42", *b"43", *b"44", *b"45", *b"46", *b"47",
    *b"48", *b"49", *b"50", *b"51", *b"52", *b"53", *b"54", *b"55", *b"56", *b"57", *b"58", *b"59",
    *b"60", *b"61", *b"62", *b"63", *b"64", *b"65", *b"66", *b"67", *b"68", *b"69", *b"70", *b"71",
    *b"72", *b"73", *b"74", *b"75", *b"76", *b"77", *b"78", *b"79", *b"80", *b"81", *b"82", *b"83",
    *b"84", *b"85", *b"86", *b"87", *b"88", *b"89", *b"90", *b"91", *b"92", *b"93", *b"94", *b"95",
    *b"96", *b"97", *b"98", *b"99",
];

impl HeldOctets {
    /// Adds a number in decimal.
    #[inline(always)]
    pub fn number(&mut self, number: u64)
        requires { HasRoomFor self.old 20 }
        ensures { self.new ≡ self.old ++ decimal number }
    {
        // Many numbers are below 100, and one that has one digit often follows one that has two. Both are copied as a
        // block of two octets, so that no branch depends on the number of their digits.
        if number < 100 {
            let (digits, count) = short_digits(number);
            self.add_prefix(&digits, count);
        } else {
            self.long_number(number);
        }
    }

    /// Adds a number in decimal, which may have many digits.
    #[inline(always)]
    fn long_number(&mut self, number: u64)
        requires { HasRoomFor self.old 20 }
        ensures { self.new ≡ self.old ++ decimal number }
    {
        let end = self.len() + digit_count(number);
        let _ = write_digits(number, &mut self.octets, end);
        self.len = end;
    }

    /// Adds a number, possibly of more than 64 bits, in decimal.
    #[inline(always)]
    pub fn wide_number(&mut self, number: u128)
        requires { HasRoomFor self.old 40 }
        ensures { self.new ≡ self.old ++ decimal number }
    {
        if number < 1 << 64 {
            self.number(number as u64);
        } else {
            self.wider_number(number);
        }
    }

    /// Adds a number of more than 64 bits, in decimal.
    #[inline(never)]
    fn wider_number(&mut self, number: u128)
        requires { HasRoomFor self.old 40 }
        ensures { self.new ≡ self.old ++ decimal number }
    {
        let mut digits = Buffer::new();
        self.add(digits.format(number).as_bytes());
    }

    /// Adds the first columns of a line: an offset and a number of contents octets, in decimal. They are at most 43
    /// octets: two numbers of 20 digits, a space, and a colon with a space.
    #[inline(always)]
    pub fn columns(&mut self, offset: u64, size: u64)
        requires { HasRoomFor self.old 43 }
        ensures { self.new ≡ self.old ++ columns offset (decimal size) }
    {
        if size >= 1_000_000 {
            return self.wide_columns(offset, size);
        }
        let Some(last) = self.offsets.take_for(offset) else {
            return self.wide_columns(offset, size);
        };
        let start = self.len();
        self.offsets.write(last, &mut self.octets, start);
        write_size(size, &mut self.octets, start + 9);
        self.len = start + 17;
    }

    /// Adds the same columns, one after the other, so that each can be as wide as needed.
    #[inline(never)]
    fn wide_columns(&mut self, offset: u64, size: u64)
        requires { HasRoomFor self.old 43 }
        ensures { self.new ≡ self.old ++ columns offset (decimal size) }
    {
        self.right(offset, 8);
        self.add(b" ");
        self.right(size, 6);
        self.add(b": ");
    }

    /// Adds the first columns of a line: an offset, in decimal, and a word. They are at most 29 octets: 20 digits, a
    /// space, the word, and a colon with a space.
    #[inline(always)]
    pub fn word_columns(&mut self, offset: u64, word: &[u8; 6])
        requires { HasRoomFor self.old 29 }
        ensures { self.new ≡ self.old ++ columns offset word.now }
    {
        let Some(last) = self.offsets.take_for(offset) else {
            return self.wide_word_columns(offset, word);
        };
        let start = self.len();
        self.offsets.write(last, &mut self.octets, start);
        // A local copy, as in `add_prefix`.
        let word = *word;
        self.octets[start + 9..start + 15].copy_from_slice(&word);
        self.len = start + 17;
    }

    /// Adds the same columns, one after the other, so that the offset can be as wide as needed.
    #[inline(never)]
    fn wide_word_columns(&mut self, offset: u64, word: &[u8; 6])
        requires { HasRoomFor self.old 29 }
        ensures { self.new ≡ self.old ++ columns offset word.now }
    {
        self.right(offset, 8);
        self.add(b" ");
        self.add(word);
        self.add(b": ");
    }

    /// Adds a number in decimal, right-aligned in `places` places; a longer number takes as many places as it needs.
    fn right(&mut self, number: u64, places: usize)
        requires places { places ≤ 20 }
        requires room { HasRoomFor self.old 20 }
        ensures { self.new ≡ self.old ++ at_right places (decimal number) }
    {
        let start = self.len();
        let end = start + digit_count(number).max(places);
        // A number has at most 20 digits, so 20 spaces are enough; what stands after the end does not count.
        self.octets[start..start + 20].copy_from_slice(&[b' '; 20]);
        let _ = write_digits(number, &mut self.octets, end);
        self.len = end;
    }
}

/// The number of digits of a number.
#[inline(always)]
fn digit_count(number: u64) -> usize
    ensures { result ≡ length (decimal number) }
{
    if number < 10 {
        1
    } else {
        number.ilog10() as usize + 1
    }
}

/// Writes a number of contents octets over six spaces at `start`, right-aligned.
#[inline(always)]
fn write_size(size: u64, octets: &mut [u8], start: usize)
    requires places { size < 1000000 }
    requires within { start + 6 ≤ length octets.old }
    requires blank { take 6 (drop start octets.old) ≡ spaces 6 }
    ensures { octets.new ≡ take start octets.old
        ++ (at_right 6 (decimal size) ++ drop (start + 6) octets.old) }
{
    // Most sizes have one or two digits, and the size before often has the other number of them. So no branch depends
    // on which it is.
    if size < 100 {
        let [tens, ones] = in_two_places(size);
        octets[start + 4] = tens;
        octets[start + 5] = ones;
    } else {
        let _ = write_digits(size, octets, start + 6);
    }
}

/// A number below 100, right-aligned in two places.
#[inline(always)]
pub(super) fn in_two_places(number: u64) -> [u8; 2]
    requires { number < 100 }
    ensures { result ≡ at_right 2 (decimal number) }
{
    TWO_PLACES[number as usize]
}

/// A block that begins with the digits of a number below 100, and the number of these digits.
#[inline(always)]
fn short_digits(number: u64) -> ([u8; 2], usize)
    requires { number < 100 }
    ensures digits { take result.1 result.0 ≡ decimal number }
    ensures count { result.1 ≤ 2 }
{
    let [tens, ones] = in_two_places(number);
    if number < 10 {
        ([ones, ones], 1)
    } else {
        ([tens, ones], 2)
    }
}
