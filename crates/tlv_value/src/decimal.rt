//! The numbers that INTEGER and ENUMERATED stand for.
ghost use Rattle.std.specs.Prelude.{◌≡◌, ◌≤◌, length};
ghost use Rattle.tlv_value.specs.Number.{decimal_of};

/// The number that up to eight octets stand for, in two's complement. None if there are no octets.
#[inline(always)]
pub(crate) fn short_decimal_of(contents: &[u8]) -> Option<i64>
    requires { length contents.now ≤ 8 }
    ensures { result ≡ decimal_of contents.now }
{
    let (first, rest) = contents.split_first()?;
    let mut number = i64::from(*first);
    if *first >= 128 {
        number -= 256;
    }
    for octet in rest {
        number = number * 256 + i64::from(*octet);
    }
    Some(number)
}

/// The number that the contents of an INTEGER or ENUMERATED stand for, in two's complement (8.3.3). None if there are
/// no octets, or more than 16.
pub fn decimal_of(contents: &[u8]) -> Option<i128>
    ensures { result ≡ decimal_of contents.now }
{
    if contents.len() > 16 {
        return None;
    }
    let (first, rest) = contents.split_first()?;
    let mut number = i128::from(*first);
    if number >= 128 {
        number -= 256;
    }
    for octet in rest {
        number = number * 256 + i128::from(*octet);
    }
    Some(number)
}
