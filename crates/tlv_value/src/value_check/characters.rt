//! Which octets NumericString, PrintableString, IA5String and VisibleString allow.
ghost use Rattle.std.specs.List.{list_all};
ghost use Rattle.std.specs.Prelude.{◌≡◌, true};
ghost use Rattle.tlv_value.specs.Checks.{is_printable_string_octet};
ghost use Rattle.tlv_value.specs.Characters.{allows_octet};

use super::both;
use crate::units::block_of;
use tlv_head::universal;

/// Whether the type with this universal number allows all of the octets.
#[inline(never)]
pub fn are_allowed(number: u64, octets: &[u8]) -> bool
    ensures { result ≡ list_all (allows_octet number) octets.now }
{
    // A call for each type: where the call is inlined, the type is not checked again at each octet.
    match number {
        universal::NUMERIC_STRING => is_each_allowed(universal::NUMERIC_STRING, octets),
        universal::PRINTABLE_STRING => is_each_allowed(universal::PRINTABLE_STRING, octets),
        universal::IA5_STRING => is_each_allowed(universal::IA5_STRING, octets),
        universal::VISIBLE_STRING => is_each_allowed(universal::VISIBLE_STRING, octets),
        _ => true,
    }
}

/// Whether the type with this universal number allows each of the octets. Most texts are short. A short text is looked
/// at as a block of one size, so that no branch depends on its length.
#[inline(always)]
fn is_each_allowed(number: u64, octets: &[u8]) -> bool
    requires { allows_octet number 32 ≡ true }
    ensures { result ≡ list_all (allows_octet number) octets.now }
{
    if octets.len() > 64 {
        return is_all_allowed(number, octets);
    }
    // All of these types allow the spaces after the text.
    is_all_allowed(number, &block_of(octets))
}

/// Whether the type with this universal number allows each of the octets, of which there may be many.
#[inline(always)]
fn is_all_allowed(number: u64, octets: &[u8]) -> bool
    ensures { result ≡ list_all (allows_octet number) octets.now }
{
    // The loop has no early exit, so that many octets are checked at once.
    let mut all = true;
    for octet in octets {
        all = both(all, allows_octet(number, *octet));
    }
    all
}

/// Whether the type with this number allows the octet: NumericString, PrintableString, IA5String, VisibleString.
#[inline(always)]
fn allows_octet(number: u64, octet: u8) -> bool
    ensures { result ≡ allows_octet number octet }
{
    match number {
        universal::NUMERIC_STRING => matches!(octet, b' ' | b'0'..=b'9'),
        universal::PRINTABLE_STRING => is_printable_string_octet(octet),
        universal::IA5_STRING => octet < 128,
        universal::VISIBLE_STRING => matches!(octet, 0x20..=0x7e),
        _ => true,
    }
}

/// Whether PrintableString allows the octet (X.680 41.4). The comparisons have no branch, so that the compiler makes
/// vectors of them.
#[inline(always)]
fn is_printable_string_octet(octet: u8) -> bool
    ensures { result ≡ is_printable_string_octet octet }
{
    let small = octet | 0x20;
    (small >= b'a') & (small <= b'z')
        | (octet >= b'+') & (octet <= b':')
        | (octet >= b'\'') & (octet <= b')')
        | (octet == b' ')
        | (octet == b'=')
        | (octet == b'?')
}
