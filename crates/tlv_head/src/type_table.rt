//! The table of the universal types.
ghost use Rattle.std.specs.Option.{option_map};
ghost use Rattle.std.specs.Prelude.{◌≡◌};
ghost use Rattle.tlv_head.specs.TypeTable.{type_at};

use crate::{Kind, universal};

/// Which encodings the values of a type may have.
#[derive(Clone, Copy, Debug, PartialEq, Eq)]
pub enum Encodings {
    /// Primitive ones (8.2.1, 8.3.1, 8.4, 8.5.1, 8.8.1, 8.19.1, 8.20.1).
    Primitive,
    /// Constructed ones (8.9.1, 8.11.1, 8.17, 8.18, 8.24).
    Constructed,
    /// Primitive ones, and constructed ones that hold segments (8.6.1, 8.7.1, 8.23, 8.25).
    Segmented,
    /// Primitive ones (8.21, 8.22, 8.26), as for [`Encodings::Primitive`]. A constructed one has B22, which `tlvdump`
    /// does not list, and not B04.
    Unjudged,
}

/// What the contents of a primitive must be; if they are not, there is a finding. What a rule asks of each type is
/// defined beside the findings, in tlv_value. DER and CER ask for more.
#[derive(Clone, Copy, Debug, PartialEq, Eq)]
pub enum Rule {
    /// Anything: nothing is checked.
    Any,
    /// One octet (8.2.1).
    OneOctet,
    /// A number in the fewest octets, which are one or more (8.3, 8.4).
    Shortest,
    /// The number of unused bits, and then the bits (8.6.2).
    UnusedBits,
    /// No octets (8.8.2).
    NoOctets,
    /// Subidentifiers, one or more, each in the fewest octets (8.19, 8.20).
    Subidentifiers,
    /// A form of a REAL (8.5).
    RealForm,
    /// Characters that the type allows (8.23, X.680 41).
    Characters,
    /// A time by the grammar of its type (8.25, X.680 46 and 47).
    TimeForm,
    /// A date, a time of day, or both (8.26).
    DateForm,
    /// UTF-8 that begins as the type says (8.21, 8.22).
    IriForm,
}

/// What the table says about a universal type, besides its name.
#[derive(Clone, Copy, Debug, PartialEq, Eq)]
pub struct UniversalType {
    /// Which encodings its values may have.
    pub encodings: Encodings,
    /// How the contents of a primitive are shown.
    pub kind: Kind,
    /// The rule for the contents of a primitive.
    pub rule: Rule,
}

/// The universal type with this number (X.680, table 1). `None` if no type has the number.
#[inline(always)]
pub fn type_at(number: u64) -> Option<UniversalType>
    ensures encodings { option_map (λ t. t.encodings) result ≡ option_map (λ row. row.encodings) (type_at number) }
    ensures kind { option_map (λ t. t.kind) result ≡ option_map (λ row. row.kind) (type_at number) }
    ensures rule { option_map (λ t. t.rule) result ≡ option_map (λ row. row.rule) (type_at number) }
{
    use Encodings::{Constructed, Primitive, Segmented, Unjudged};
    use Kind::{Bits, Boolean, Integer, Object, Octets, Relative, Text, Ucs2, Ucs4, Utf8};
    use Rule::{
        Any, Characters, DateForm, IriForm, NoOctets, OneOctet, RealForm, Shortest, Subidentifiers,
        TimeForm, UnusedBits,
    };
    Some(match number {
        universal::BOOLEAN => row(Primitive, Boolean, OneOctet),
        universal::INTEGER => row(Primitive, Integer, Shortest),
        universal::BIT_STRING => row(Segmented, Bits, UnusedBits),
        universal::OCTET_STRING => row(Segmented, Octets, Any),
        universal::NULL => row(Primitive, Octets, NoOctets),
        universal::OBJECT_IDENTIFIER => row(Primitive, Object, Subidentifiers),
        universal::OBJECT_DESCRIPTOR => row(Segmented, Text, Any),
        universal::EXTERNAL => row(Constructed, Octets, Any),
        universal::REAL => row(Primitive, Octets, RealForm),
        universal::ENUMERATED => row(Primitive, Integer, Shortest),
        universal::EMBEDDED_PDV => row(Constructed, Octets, Any),
        universal::UTF8_STRING => row(Segmented, Utf8, Characters),
        universal::RELATIVE_OID => row(Primitive, Relative, Subidentifiers),
        universal::TIME => row(Unjudged, Octets, Any),
        universal::SEQUENCE => row(Constructed, Octets, Any),
        universal::SET => row(Constructed, Octets, Any),
        universal::NUMERIC_STRING => row(Segmented, Text, Characters),
        universal::PRINTABLE_STRING => row(Segmented, Text, Characters),
        universal::TELETEX_STRING => row(Segmented, Text, Any),
        universal::VIDEOTEX_STRING => row(Segmented, Text, Any),
        universal::IA5_STRING => row(Segmented, Text, Characters),
        universal::UTC_TIME => row(Segmented, Text, TimeForm),
        universal::GENERALIZED_TIME => row(Segmented, Text, TimeForm),
        universal::GRAPHIC_STRING => row(Segmented, Text, Any),
        universal::VISIBLE_STRING => row(Segmented, Text, Characters),
        universal::GENERAL_STRING => row(Segmented, Text, Any),
        universal::UNIVERSAL_STRING => row(Segmented, Ucs4, Characters),
        universal::CHARACTER_STRING => row(Constructed, Octets, Any),
        universal::BMP_STRING => row(Segmented, Ucs2, Characters),
        universal::DATE => row(Unjudged, Octets, DateForm),
        universal::TIME_OF_DAY => row(Unjudged, Octets, DateForm),
        universal::DATE_TIME => row(Unjudged, Octets, DateForm),
        universal::DURATION => row(Unjudged, Octets, Any),
        universal::OID_IRI => row(Unjudged, Octets, IriForm),
        universal::RELATIVE_OID_IRI => row(Unjudged, Octets, IriForm),
        _ => return None,
    })
}

/// Which encodings the universal type with this number may have. `None` if no type has the number.
#[inline(always)]
pub fn encodings_of(number: u64) -> Option<Encodings>
    ensures { result ≡ option_map (λ t. t.encodings) (type_at number) }
{
    let found = type_at(number)?;
    Some(found.encodings)
}

/// A row of the table.
#[inline(always)]
fn row(encodings: Encodings, kind: Kind, rule: Rule) -> UniversalType
    ensures { result ≡ record { encodings = encodings; kind = kind; rule = rule } }
{
    UniversalType {
        encodings,
        kind,
        rule,
    }
}
