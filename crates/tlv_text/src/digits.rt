//! Hexadecimal digits.
ghost use Rattle.hex.specs.Hex.{is_hex_digit};
ghost use Rattle.std.specs.Prelude.{◌≡◌, ◌<◌, ◌≤◌, None, Some, nat_lt, true};
ghost use Rattle.tlv_text.specs.DumpPairs.{begins_digit};
ghost use Rattle.tlv_text.specs.Pairs.{hex_value};
ghost use Rattle.tlv_text.specs.Private.PairSteps.{octet_of, value_or_256};

/// The value of each hexadecimal digit at the digit's own place, and 256 at every other place. A row is 16 characters.
#[rattlefmt::skip]
static VALUES: [u32; 256] = [
    256, 256, 256, 256, 256, 256, 256, 256, 256, 256, 256, 256, 256, 256, 256, 256,
    256, 256, 256, 256, 256, 256, 256, 256, 256, 256, 256, 256, 256, 256, 256, 256,
    256, 256, 256, 256, 256, 256, 256, 256, 256, 256, 256, 256, 256, 256, 256, 256,
      0,   1,   2,   3,   4,   5,   6,   7,   8,   9, 256, 256, 256, 256, 256, 256,
    256,  10,  11,  12,  13,  14,  15, 256, 256, 256, 256, 256, 256, 256, 256, 256,
    256, 256, 256, 256, 256, 256, 256, 256, 256, 256, 256, 256, 256, 256, 256, 256,
    256,  10,  11,  12,  13,  14,  15, 256, 256, 256, 256, 256, 256, 256, 256, 256,
    256, 256, 256, 256, 256, 256, 256, 256, 256, 256, 256, 256, 256, 256, 256, 256,
    256, 256, 256, 256, 256, 256, 256, 256, 256, 256, 256, 256, 256, 256, 256, 256,
    256, 256, 256, 256, 256, 256, 256, 256, 256, 256, 256, 256, 256, 256, 256, 256,
    256, 256, 256, 256, 256, 256, 256, 256, 256, 256, 256, 256, 256, 256, 256, 256,
    256, 256, 256, 256, 256, 256, 256, 256, 256, 256, 256, 256, 256, 256, 256, 256,
    256, 256, 256, 256, 256, 256, 256, 256, 256, 256, 256, 256, 256, 256, 256, 256,
    256, 256, 256, 256, 256, 256, 256, 256, 256, 256, 256, 256, 256, 256, 256, 256,
    256, 256, 256, 256, 256, 256, 256, 256, 256, 256, 256, 256, 256, 256, 256, 256,
    256, 256, 256, 256, 256, 256, 256, 256, 256, 256, 256, 256, 256, 256, 256, 256,
];

/// Whether this is a hexadecimal digit.
#[inline(always)]
pub(crate) fn is_digit(character: u8) -> bool
    ensures { result ≡ is_hex_digit character }
{
    value_or_256(character) < 16
}

/// Whether a digit comes first.
pub(crate) fn begins_digit(text: &[u8]) -> bool
    ensures { result ≡ begins_digit text.now }
{
    match text {
        [x, ..] => is_digit(*x),
        [] => false,
    }
}

/// The value of a hexadecimal digit.
#[inline(always)]
pub(crate) fn digit_value(digit: u8) -> u8
    requires { is_hex_digit digit ≡ true }
    ensures value { result ≡ hex_value digit }
    ensures few { result < 16 }
{
    value_or_256(digit) as u8
}

/// The octet of two hexadecimal digits. `None` if one of the two characters is no digit.
#[inline(always)]
pub(crate) fn octet_of(x: u8, y: u8) -> Option<u8>
    ensures { result ≡ octet_of x y }
{
    let octet = octet_or_more(x, y);
    if octet < 256 { Some(octet as u8) } else { None }
}

/// The octet of two hexadecimal digits; more than 255 if one of the two characters is no digit. One comparison tells,
/// since the value of another character is 256.
#[inline(always)]
pub(crate) fn octet_or_more(x: u8, y: u8) -> u32
    ensures octet { result < 256 → octet_of x y ≡ Some result }
    ensures none { 256 ≤ result → octet_of x y ≡ None }
    ensures few { result ≤ 4352 }
{
    value_or_256(x) * 16 + value_or_256(y)
}

/// The value of a hexadecimal digit, or 256 for another character. A look-up costs less than a comparison with each
/// range of characters.
#[inline(always)]
fn value_or_256(character: u8) -> u32
    ensures value { result ≡ value_or_256 character }
    ensures digit { nat_lt result 16 ≡ is_hex_digit character }
    ensures few { result ≤ 256 }
{
    VALUES[usize::from(character)]
}
