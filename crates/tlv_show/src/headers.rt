//! What a header says of its element. The functions on types have lists of their own, which agree with the table of
//! types: a look-up in the table at each use would make these functions too large to be inlined.
ghost use Rattle.std.specs.Prelude.{◌≡◌, ◌&&◌, ◌||◌, ◌==◌};
ghost use Rattle.tlv_head.specs.Header.{announced_length, is_universal};
ghost use Rattle.tlv_head.specs.UniversalTypes.{bit_string, external, sequence, set};
ghost use Rattle.tlv_head.specs.declared.type_table.Encodings.TheVariants.{Constructed, Primitive};
ghost use Rattle.tlv_value.specs.Types.{has_encodings, has_segments, is_a, is_string, is_unassigned};
ghost use Rattle.tlv_walk.specs.Place.{is_indefinite};
ghost use Rattle.tlv_show.specs.AllConditions.{has_components, is_component, is_context, is_time_or_iri};
ghost use Rattle.tlv_show.specs.Conditions.{has_high_form};
ghost use Rattle.tlv_show.specs.KeptConditions.{has_long_form, is_length_padded, segment_type};

use tlv_head::{Class, Header, Size, universal};

/// Whether the tag is in the high form (8.1.2.4).
#[inline(always)]
pub(crate) fn has_high_form(header: &Header) -> bool
    ensures { result ≡ has_high_form header.now }
{
    header.id_len > 1
}

/// Whether the length is in the long form (8.1.3.5).
#[inline(always)]
fn has_long_form(header: &Header) -> bool
    ensures { result ≡ has_long_form header.now }
{
    header.raw().len() > usize::from(header.id_len) + 1
}

/// Whether fewer length octets would do (9.1, 10.1).
#[inline(always)]
pub(crate) fn is_length_padded(header: &Header) -> bool
    ensures { result ≡ is_length_padded header.now }
{
    has_long_form(header) && (announced_length(header) < 128 || header.second_length_octet() == 0)
}

/// The number of contents octets that the header announces; 0 in the indefinite form.
#[inline(always)]
pub(crate) fn announced_length(header: &Header) -> u64
    ensures { result ≡ announced_length header.now.size }
{
    header.size.announced_length()
}

#[inline(always)]
pub(crate) fn is_indefinite(header: &Header) -> bool
    ensures { result ≡ is_indefinite header.now.size }
{
    matches!(header.size, Size::Indefinite)
}

#[inline(always)]
pub(crate) fn is_universal(header: &Header) -> bool
    ensures { result ≡ is_universal header.now.class }
{
    matches!(header.class, Class::Universal)
}

/// Whether no type has this universal number.
#[inline(always)]
pub(crate) fn is_unassigned(header: &Header) -> bool
    ensures { result ≡ is_unassigned header.now }
{
    is_universal(header)
        && (header.number == 0
            || header.number == 15
            || header.number > universal::RELATIVE_OID_IRI)
}

/// Whether the encodings of the type are primitive.
#[inline(always)]
pub(crate) fn is_always_primitive(header: &Header) -> bool
    ensures { result ≡ has_encodings Primitive header.now }
{
    is_universal(header)
        && matches!(
            header.number,
            universal::BOOLEAN
                | universal::INTEGER
                | universal::NULL
                | universal::OBJECT_IDENTIFIER
                | universal::REAL
                | universal::ENUMERATED
                | universal::RELATIVE_OID
        )
}

/// Whether the encodings of the type are constructed.
#[inline(always)]
pub(crate) fn is_always_constructed(header: &Header) -> bool
    ensures { result ≡ has_encodings Constructed header.now }
{
    is_universal(header)
        && matches!(
            header.number,
            universal::EXTERNAL
                | universal::EMBEDDED_PDV
                | universal::SEQUENCE
                | universal::SET
                | universal::CHARACTER_STRING
        )
}

/// Whether the encodings of the type are primitive, and it is one of the times and identifiers that were added later
/// (8.21, 8.22, 8.26).
#[inline(always)]
pub(crate) fn is_time_or_iri(header: &Header) -> bool
    ensures { result ≡ is_time_or_iri header.now }
{
    is_universal(header)
        && matches!(
            header.number,
            universal::TIME | universal::DATE..=universal::RELATIVE_OID_IRI
        )
}

/// Whether it is a constructed element of a type whose components have to be there (8.17, 8.18, 8.24).
#[inline(always)]
pub(crate) fn has_components(header: &Header) -> bool
    ensures { result ≡ has_components header.now }
{
    header.constructed
        && is_universal(header)
        && matches!(
            header.number,
            universal::EXTERNAL | universal::EMBEDDED_PDV | universal::CHARACTER_STRING
        )
}

/// Whether the type is EXTERNAL.
#[inline(always)]
pub(crate) fn is_external(header: &Header) -> bool
    ensures { result ≡ is_a external header.now }
{
    is_universal(header) && header.number == universal::EXTERNAL
}

/// Whether the class is context-specific.
#[inline(always)]
fn is_context(header: &Header) -> bool
    ensures { result ≡ is_context header.now.class }
{
    matches!(header.class, Class::Context)
}

/// Whether a component has the tag: of an EXTERNAL if `of_external` is set, else of an EMBEDDED PDV or CHARACTER STRING.
#[inline(always)]
pub(crate) fn is_component(of_external: bool, header: &Header) -> bool
    ensures { result ≡ is_component of_external header.now }
{
    (is_context(header) && header.number <= 2)
        || (of_external
            && is_universal(header)
            && matches!(
                header.number,
                universal::OBJECT_IDENTIFIER | universal::INTEGER | universal::OBJECT_DESCRIPTOR
            ))
}

/// Whether it is a SEQUENCE or a SET.
#[inline(always)]
pub(crate) fn is_sequence_or_set(header: &Header) -> bool
    ensures { result ≡ (is_universal header.now.class && (header.now.number == sequence || header.now.number == set)) }
{
    is_universal(header) && matches!(header.number, universal::SEQUENCE | universal::SET)
}

/// Whether the type is a string type: the character strings and the two times are string types too.
#[inline(always)]
pub(crate) fn is_string(header: &Header) -> bool
    ensures { result ≡ is_string header.now }
{
    is_universal(header)
        && matches!(
            header.number,
            universal::BIT_STRING
                | universal::OCTET_STRING
                | universal::OBJECT_DESCRIPTOR
                | universal::UTF8_STRING
                | universal::BMP_STRING
                | universal::NUMERIC_STRING..=universal::UNIVERSAL_STRING
        )
}

/// Whether it is a constructed string, which holds segments.
#[inline(always)]
pub(crate) fn has_segments(header: &Header) -> bool
    ensures { result ≡ has_segments header.now }
{
    header.constructed && is_string(header)
}

/// Whether the type is BIT STRING.
#[inline(always)]
pub(crate) fn is_bit_string(header: &Header) -> bool
    ensures { result ≡ is_a bit_string header.now }
{
    is_universal(header) && header.number == universal::BIT_STRING
}

/// Whether the tag is the tag of a segment: of a BIT STRING if `in_bit_string` is set, else of any other string.
#[inline(always)]
pub(crate) fn is_segment(in_bit_string: bool, header: &Header) -> bool
    ensures { result ≡ is_a (segment_type in_bit_string) header.now }
{
    is_universal(header)
        && header.number
            == if in_bit_string {
                universal::BIT_STRING
            } else {
                universal::OCTET_STRING
            }
}
