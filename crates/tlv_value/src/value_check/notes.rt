//! What is noted of contents octets while they come.
ghost use Rattle.std.specs.Prelude.{◌≡◌, ◌++◌, take};
ghost use Rattle.tlv_value.specs.ValueCheckState.{has_empty_label_after, has_empty_label_with};
ghost use Rattle.tlv_value.specs.ValueCheckState.{is_padded_after, is_padded_with, last_octet_after, notes_each};
ghost use Rattle.tlv_value.specs.ValueCheckState.{notes_first, notes_iri, notes_time, notes_units};

use arrayvec::ArrayVec;
use tlv_head::universal;

/// Whether the first octets and the last octet of the type with this universal number are checked: BOOLEAN, INTEGER,
/// BIT STRING, ENUMERATED.
#[inline(always)]
pub(super) fn notes_first(number: u64) -> bool
    ensures { result ≡ notes_first number }
{
    matches!(
        number,
        universal::BOOLEAN | universal::INTEGER | universal::BIT_STRING | universal::ENUMERATED
    )
}

/// Whether each contents octet of the type with this universal number is checked.
#[inline(always)]
pub(super) fn notes_each(number: u64) -> bool
    ensures { result ≡ notes_each number }
{
    matches!(
        number,
        universal::OBJECT_IDENTIFIER
            | universal::UTF8_STRING
            | universal::RELATIVE_OID
            | universal::NUMERIC_STRING
            | universal::PRINTABLE_STRING
            | universal::IA5_STRING
            | universal::VISIBLE_STRING
    )
}

/// Whether the type with this universal number is one of the two times, or DATE, TIME-OF-DAY or DATE-TIME.
#[inline(always)]
pub(super) fn notes_time(number: u64) -> bool
    ensures { result ≡ notes_time number }
{
    matches!(
        number,
        universal::UTC_TIME
            | universal::GENERALIZED_TIME
            | universal::DATE
            | universal::TIME_OF_DAY
            | universal::DATE_TIME
    )
}

/// Whether the type with this universal number is BMPString or UniversalString.
#[inline(always)]
pub(super) fn notes_units(number: u64) -> bool
    ensures { result ≡ notes_units number }
{
    matches!(number, universal::UNIVERSAL_STRING | universal::BMP_STRING)
}

/// Whether the type with this universal number is OID-IRI or RELATIVE-OID-IRI.
#[inline(always)]
pub(super) fn notes_iri(number: u64) -> bool
    ensures { result ≡ notes_iri number }
{
    matches!(number, universal::OID_IRI | universal::RELATIVE_OID_IRI)
}

/// The last of the octets, or `previous` if there are none.
pub(crate) fn last_octet(previous: u8, octets: &[u8]) -> u8
    ensures { result ≡ last_octet_after previous octets.now }
{
    match octets {
        [.., last] => *last,
        [] => previous,
    }
}

/// Whether a subidentifier begins with `80`, in the octets before or in these.
pub(super) fn is_padded_with(is_padded: bool, previous: u8, octets: &[u8]) -> bool
    ensures { result ≡ is_padded_with is_padded previous octets.now }
{
    is_padded || is_padded_after(previous, octets)
}

/// Whether a subidentifier in these octets, which follow `previous`, begins with `80`.
pub(crate) fn is_padded_after(previous: u8, octets: &[u8]) -> bool
    ensures { result ≡ is_padded_after previous octets.now }
{
    // Most contents have no octet 80, which can be checked for many octets at once. The loop is then skipped.
    if !octets.contains(&128) {
        return false;
    }
    let mut previous = previous;
    for octet in octets {
        if previous < 128 && *octet == 128 {
            return true;
        }
        previous = *octet;
    }
    false
}

/// Whether a label of an OID-IRI or RELATIVE-OID-IRI is empty, in the octets before or in these.
pub(super) fn has_empty_label_with(has_empty_label: bool, previous: u8, octets: &[u8]) -> bool
    ensures { result ≡ has_empty_label_with has_empty_label previous octets.now }
{
    has_empty_label || has_empty_label_after(previous, octets)
}

/// Whether two octets `/` stand side by side in these octets, which follow `previous`.
pub(crate) fn has_empty_label_after(previous: u8, octets: &[u8]) -> bool
    ensures { result ≡ has_empty_label_after previous octets.now }
{
    let mut previous = previous;
    for octet in octets {
        if previous == b'/' && *octet == b'/' {
            return true;
        }
        previous = *octet;
    }
    false
}

/// Keeps the first octets of a time or date.
#[inline(never)]
pub(super) fn note_time(time: &mut ArrayVec<u8, 64>, octets: &[u8])
    ensures { time.new.items ≡ take 64 (time.old.items ++ octets.now) }
{
    let room = octets.len().min(time.remaining_capacity());
    let _ = time.try_extend_from_slice(&octets[..room]);
}
