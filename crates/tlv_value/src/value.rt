//! The texts of values.
ghost use Rattle.std.specs.Prelude.{◌≡◌, ◌*◌, ◌<◌, ◌≤◌, ◌++◌, ◌∷◌, [], length, true};
ghost use Rattle.std.specs.Fmt.{signed_decimal};
ghost use Rattle.tlv_io.specs.LineTexts.{AddsAtMost, HasRoomFor};
ghost use Rattle.tlv_value.specs.Bits.{last_bits};
ghost use Rattle.tlv_value.specs.Private.UndottedText.{integer_text, undotted_text};
ghost use Rattle.tlv_value.specs.Units.{quoted_text};
ghost use Rattle.tlv_value.specs.Value.{bit_count_text, bits_value, boolean_value};
ghost use Rattle.tlv_value.specs.Value.{is_long, is_unused_count, long_text, most_not_long};
ghost use Rattle.tlv_value.specs.TextBeside.{on_line_text_with, row_text_with};
ghost use Rattle.tlv_value.specs.Value.{used_digits};
ghost use Rattle.tlv_value.specs.Private.Rows.{digits_of_bits};

use crate::decimal::{decimal_of, short_decimal_of};
use crate::pairs::{write_pairs, write_row_pairs};
use crate::units::write_characters;
use tlv_head::Kind;
use tlv_io::HeldOctets;

/// A space, a sign, and spaces up to 32 octets.
const SIGN: &[u8; 32] = b" -                              ";

/// Adds a row of long contents after a space. If `with_text` is set, text is shown beside pairs of digits.
pub(crate) fn write_row(held: &mut HeldOctets, kind: Kind, with_text: bool, row: &[u8])
    requires short { length row.now ≤ 64 }
    requires room { HasRoomFor held.old 400 }
    ensures { AddsAtMost 323 held.old held.new (32 ∷ row_text_with with_text kind row.now) }
{
    match kind {
        Kind::Text | Kind::Utf8 | Kind::Ucs2 | Kind::Ucs4 => write_quoted(held, kind, row),
        _ => write_row_pairs(held, with_text, row),
    }
}

/// Adds a value that is not long, after a space if there is a value. Shows an object identifier in hexadecimal. If
/// `with_text` is set, text is shown beside pairs of digits.
#[inline(always)]
pub(crate) fn write_undotted(held: &mut HeldOctets, kind: Kind, with_text: bool, contents: &[u8])
    requires short { length contents.now ≤ most_not_long kind }
    requires room { HasRoomFor held.old 400 }
    ensures { AddsAtMost 330 held.old held.new (undotted_text with_text kind contents.now) }
{
    match kind {
        Kind::Boolean => write_boolean(held, with_text, contents),
        Kind::Integer => write_integer(held, contents),
        Kind::Bits => write_bits(held, with_text, contents),
        Kind::Text | Kind::Utf8 | Kind::Ucs2 | Kind::Ucs4 => write_quoted(held, kind, contents),
        Kind::Octets | Kind::Object | Kind::Relative => write_pairs(held, with_text, contents),
    }
}

/// Adds a row of characters after a space, in quotation marks.
#[inline(never)]
fn write_quoted(held: &mut HeldOctets, kind: Kind, row: &[u8])
    requires short { length row.now ≤ 64 }
    requires room { HasRoomFor held.old 400 }
    ensures { held.new ≡ held.old ++ 32 ∷ quoted_text kind row.now }
{
    held.add(b" \"");
    write_characters(held, kind, row);
    held.add(b"\"");
}

/// Adds a BOOLEAN (8.2.2).
fn write_boolean(held: &mut HeldOctets, with_text: bool, contents: &[u8])
    requires short { length contents.now ≤ 16 }
    requires room { HasRoomFor held.old 68 }
    ensures { held.new ≡ held.old ++ on_line_text_with with_text (boolean_value contents.now).on_line }
{
    match contents {
        [0] => held.add(b" FALSE"),
        [_] => held.add(b" TRUE"),
        _ => write_pairs(held, with_text, contents),
    }
}

/// Adds an INTEGER or ENUMERATED (8.3.3).
#[inline(always)]
fn write_integer(held: &mut HeldOctets, contents: &[u8])
    requires short { length contents.now ≤ 16 }
    requires room { HasRoomFor held.old 48 }
    ensures { held.new ≡ held.old ++ integer_text contents.now }
{
    if contents.len() > 8 {
        write_wide_integer(held, contents);
    } else if let Some(number) = short_decimal_of(contents) {
        // The first octet of `SIGN`, or the first two if the number is negative: no branch depends on the sign.
        held.add_prefix(SIGN, 1 + usize::from(number < 0));
        held.number(number.unsigned_abs());
    }
}

/// Adds an INTEGER or ENUMERATED of more than eight octets.
#[inline(never)]
fn write_wide_integer(held: &mut HeldOctets, contents: &[u8])
    requires short { length contents.now ≤ 16 }
    requires room { HasRoomFor held.old 48 }
    ensures { held.new ≡ held.old ++ integer_text contents.now }
{
    if let Some(number) = decimal_of(contents) {
        held.add(b" ");
        write_signed(held, number);
    }
}

/// Adds a number, after a sign if it is negative.
fn write_signed(held: &mut HeldOctets, number: i128)
    requires { HasRoomFor held.old 41 }
    ensures { held.new ≡ held.old ++ signed_decimal number }
{
    if number < 0 {
        held.add(b"-");
    }
    held.wide_number(number.unsigned_abs());
}

/// Adds a BIT STRING (8.6.2).
#[inline(never)]
fn write_bits(held: &mut HeldOctets, with_text: bool, contents: &[u8])
    requires short { length contents.now ≤ 9 }
    requires room { HasRoomFor held.old 128 }
    ensures { held.new ≡ held.old ++ on_line_text_with with_text (bits_value contents.now).on_line }
{
    match contents {
        [unused_bits, octets @ ..] if is_unused_count(*unused_bits, octets.len()) => {
            write_bit_count(held, *unused_bits, octets.len() as u64);
            write_used_digits(held, *unused_bits, octets);
        }
        _ => write_pairs(held, with_text, contents),
    }
}

/// Adds what the line of a long value of this size shows: for a BIT STRING, the number of its bits.
#[inline(always)]
pub(crate) fn write_long_value(held: &mut HeldOctets, kind: Kind, size: u64, contents: &[u8])
    requires long { is_long kind size ≡ true }
    requires room { HasRoomFor held.old 64 }
    ensures { AddsAtMost 45 held.old held.new (long_text kind size contents.now) }
{
    if let (Kind::Bits, [unused_bits, ..]) = (kind, contents) {
        write_long_bits(held, size, *unused_bits);
    }
}

/// Adds what the line of a long BIT STRING of this size shows: the number of its bits, if its first contents octet
/// can be read.
pub(crate) fn write_long_bits(held: &mut HeldOctets, size: u64, unused_bits: u8)
    requires long { 9 < size }
    requires room { HasRoomFor held.old 64 }
    ensures { AddsAtMost 45 held.old held.new (long_text Kind.Bits size (unused_bits ∷ [])) }
{
    if unused_bits <= 7 {
        write_bit_count(held, unused_bits, size - 1);
    }
}

/// Adds the number of bits in `octet_count` octets, without the unused bits.
fn write_bit_count(held: &mut HeldOctets, unused_bits: u8, octet_count: u64)
    requires within { unused_bits ≤ 8 * octet_count }
    requires room { HasRoomFor held.old 64 }
    ensures { AddsAtMost 45 held.old held.new (32 ∷ bit_count_text unused_bits octet_count) }
{
    held.add(b" ");
    held.wide_number(8 * u128::from(octet_count) - u128::from(unused_bits));
    held.add(b" bits");
}

/// Adds the bits of octets, without the unused bits, after a space if there are any.
fn write_used_digits(held: &mut HeldOctets, unused_bits: u8, octets: &[u8])
    requires unused_bits { unused_bits ≤ 7 }
    requires short { length octets.now ≤ 8 }
    requires room { HasRoomFor held.old 65 }
    ensures { held.new ≡ held.old ++ used_digits unused_bits octets.now }
{
    let Some((last, prefix)) = octets.split_last() else {
        return;
    };
    held.add(b" ");
    for octet in prefix {
        held.add(&digits_of_octet(*octet));
    }
    held.add(&digits_of_octet(*last));
    held.truncate(held.len() - usize::from(unused_bits));
}

/// Whether the first contents octet of a BIT STRING can be read, if `octet_count` others follow it.
fn is_unused_count(unused_bits: u8, octet_count: usize) -> bool
    ensures { result ≡ is_unused_count unused_bits octet_count }
{
    unused_bits <= 7 && (unused_bits == 0 || octet_count != 0)
}

/// The bits of an octet as digits, the most significant first.
fn digits_of_octet(octet: u8) -> [u8; 8]
    ensures { result ≡ digits_of_bits (last_bits 8 octet) }
{
    [
        b'0' + octet / 128 % 2,
        b'0' + octet / 64 % 2,
        b'0' + octet / 32 % 2,
        b'0' + octet / 16 % 2,
        b'0' + octet / 8 % 2,
        b'0' + octet / 4 % 2,
        b'0' + octet / 2 % 2,
        b'0' + octet % 2,
    ]
}
