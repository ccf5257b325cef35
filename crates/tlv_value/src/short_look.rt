//! A short look at all of the contents of a primitive.
ghost use Rattle.std.specs.Prelude.{◌≡◌, ◌||◌, ◌==◌, [], IsTrue, eqb, false, length, nat_le, true};
ghost use Rattle.tlv_head.specs.UniversalTypes.{bit_string, boolean, generalized_time, utc_time};
ghost use Rattle.tlv_value.specs.AllChecks.{all_contents_findings, are_labels, is_iri, type_findings};
ghost use Rattle.tlv_value.specs.Checks.{begins_with, is_padded_integer, last_octet};
ghost use Rattle.std.specs.List.{list_any};
ghost use Rattle.tlv_value.specs.Arcs.{parts_of};
ghost use Rattle.tlv_value.specs.Private.TimeFindings.{generalized_time_findings, utc_time_findings};
ghost use Rattle.std.specs.Option.{is_none, option_map_or};
ghost use Rattle.tlv_head.specs.TypeTable.{are_same_encodings, type_at};
ghost use Rattle.tlv_head.specs.declared.type_table.Encodings.TheVariants.{Constructed};
ghost use Rattle.tlv_value.specs.Types.{has_primitives};

use crate::dates::{is_date_or_time, month_has_day, month_has_day_in_some_century};
use crate::real::is_clear_real;
use crate::time::{general_canonical, utc_canonical};
use crate::value_check::{
    are_allowed, are_characters_of_four, are_characters_of_two, has_empty_label_after, is_any_set,
    is_padded_after, is_utf8, last_octet,
};
use tlv_head::{Class, Header, universal};

/// Whether a short look shows that there is no finding on these contents of a primitive with this header. `false`
/// says nothing. It is also returned if the type has no primitives, or if no universal type has the number.
#[inline(always)]
pub fn is_clear(header: &Header, contents: &[u8]) -> bool
    ensures contents { IsTrue result → all_contents_findings header.now contents.now ≡ [] }
    ensures form { IsTrue result
        → has_primitives header.now ≡ true }
{
    !matches!(header.class, Class::Universal) || is_type_clear(header.number, contents)
}

/// Whether a short look shows that the universal type with this number has primitives, and that there is no finding
/// on these contents of one. `false` says nothing.
#[inline(always)]
fn is_type_clear(number: u64, contents: &[u8]) -> bool
    ensures contents { IsTrue result → type_findings number contents.now ≡ [] }
    ensures form { IsTrue result
        → (is_none (type_at number)
        || option_map_or (λ t. are_same_encodings Constructed t.encodings) (type_at number) false) ≡ false }
{
    match number {
        universal::BOOLEAN => is_canonical_boolean(contents),
        universal::INTEGER | universal::ENUMERATED => is_shortest(contents),
        universal::BIT_STRING => has_clear_bits(contents),
        universal::NULL => contents.is_empty(),
        universal::OBJECT_IDENTIFIER | universal::RELATIVE_OID => {
            !contents.is_empty() && are_subidentifiers(contents)
        }
        universal::UTF8_STRING => is_utf8(contents),
        universal::NUMERIC_STRING => are_allowed(universal::NUMERIC_STRING, contents),
        universal::PRINTABLE_STRING => are_allowed(universal::PRINTABLE_STRING, contents),
        universal::IA5_STRING => are_allowed(universal::IA5_STRING, contents),
        universal::VISIBLE_STRING => are_allowed(universal::VISIBLE_STRING, contents),
        universal::REAL => is_clear_real(contents),
        universal::UTC_TIME => contents.len() > 64 || is_utc_clear(contents),
        universal::GENERALIZED_TIME => contents.len() > 64 || is_generalized_clear(contents),
        universal::UNIVERSAL_STRING => contents.len() % 4 == 0 && are_characters_of_four(contents),
        universal::BMP_STRING => contents.len() % 2 == 0 && are_characters_of_two(contents),
        universal::DATE | universal::TIME_OF_DAY | universal::DATE_TIME => is_date_or_time(
            number, contents,
        ),
        universal::OID_IRI | universal::RELATIVE_OID_IRI => is_iri(number, contents),
        // The other types that have primitives are not checked here.
        universal::OCTET_STRING
        | universal::OBJECT_DESCRIPTOR
        | universal::TIME
        | universal::TELETEX_STRING
        | universal::VIDEOTEX_STRING
        | universal::GRAPHIC_STRING
        | universal::GENERAL_STRING
        | universal::DURATION => true,
        _ => false,
    }
}

/// Whether there is one octet, and it is FALSE or TRUE (8.2.1, 11.1).
#[inline(always)]
fn is_canonical_boolean(contents: &[u8]) -> bool
    ensures { IsTrue result → type_findings boolean contents.now ≡ [] }
{
    matches!(contents, [0 | 255])
}

/// Whether there is a number, and it has the fewest octets: its first nine bits are not all equal (8.3.1, 8.3.2).
#[inline(always)]
fn is_shortest(contents: &[u8]) -> bool
    ensures some { IsTrue result → (length contents.now == 0) ≡ false }
    ensures shortest { IsTrue result → is_padded_integer contents.now ≡ false }
{
    let [first, ..] = contents else {
        return false;
    };
    // No branch depends on the length, which often differs from the length of the number before. If there is no
    // second octet, one is taken whose first bit differs from the first bit of the first octet.
    let is_single = contents.len() == 1;
    let flip = if is_single { 255 } else { 0 };
    let second = contents[usize::from(!is_single)] ^ flip;
    let nine_bits = u16::from(*first) * 2 + u16::from(second / 128);
    nine_bits != 0 && nine_bits != 511
}

/// Whether there is a number of unused bits, and there are that many bits, all 0 (8.6.2, 11.2.1).
#[inline(always)]
#[tactic(auto, using(crate::proofs::CheckLemmas::LastAndPadded::of_all))]
fn has_clear_bits(contents: &[u8]) -> bool
    ensures { IsTrue result → type_findings bit_string contents.now ≡ [] }
{
    match contents {
        [0, ..] => true,
        [unused_bits, _, ..] => *unused_bits <= 7
            && !is_any_set(*unused_bits, last_octet(0, contents)),
        _ => false,
    }
}

/// Whether each subidentifier begins and ends as it has to (8.19.2, 8.20.2).
#[inline(always)]
#[tactic(auto, using(crate::proofs::CheckLemmas::LastAndPadded::of_all))]
fn are_subidentifiers(contents: &[u8]) -> bool
    ensures unpadded { IsTrue result → list_any (begins_with 0x80) (parts_of contents.now) ≡ false }
    ensures finished { IsTrue result → nat_le 128 (last_octet contents.now) ≡ false }
{
    last_octet(0, contents) < 128 && !is_padded_after(0, contents)
}

/// Whether the contents are those of an OID-IRI or RELATIVE-OID-IRI, the type with this number (8.21, 8.22).
fn is_iri(number: u64, contents: &[u8]) -> bool
    ensures { result ≡ is_iri number contents.now }
{
    let has_labels = if number == universal::OID_IRI {
        match contents {
            [b'/', labels @ ..] => are_labels(labels),
            _ => false,
        }
    } else {
        are_labels(contents)
    };
    is_utf8(contents) && has_labels
}

/// Whether the text is one label or more, with `/` between them, and no label is empty (X.680 34, 36).
fn are_labels(text: &[u8]) -> bool
    ensures { result ≡ are_labels text.now }
{
    // Before the first label, as before each other one, is a `/`.
    !has_empty_label_after(b'/', text) && last_octet(b'/', text) != b'/'
}

/// Whether nothing is found on a UTCTime.
#[inline(never)]
#[tactic(auto, using(crate::proofs::CheckLemmas::NestedForms::utc_clear))]
fn is_utc_clear(time: &[u8]) -> bool
    ensures clear { result ≡ eqb (length (utc_time_findings time.now)) 0 }
    ensures contents { IsTrue result → type_findings utc_time time.now ≡ [] }
{
    // A canonical time follows the grammar of its type.
    utc_canonical(time) && month_has_day_in_some_century(time)
}

/// Whether nothing is found on a GeneralizedTime.
#[inline(never)]
#[tactic(auto, using(crate::proofs::CheckLemmas::NestedForms::generalized_clear))]
fn is_generalized_clear(time: &[u8]) -> bool
    ensures clear { result ≡ eqb (length (generalized_time_findings time.now)) 0 }
    ensures contents { IsTrue result → type_findings generalized_time time.now ≡ [] }
{
    // A canonical time follows the grammar of its type.
    general_canonical(time) && month_has_day(time)
}
