//! The octets of a header so far, and the effect of a further octet.
ghost use Rattle.std.specs.Prelude.{◌≡◌, ◌≢◌, ℕ, ◌/◌, List, [], ◌∷◌, false};
ghost use Rattle.tlv_head.specs.Header.{class_bits};
ghost use Rattle.tlv_head.specs.HeaderSoFar.{Carries, CarriesNumber, CarriesIdentifier, CarriesLength, is_whole_header};
ghost use Rattle.tlv_head.specs.Private.NextOctet.{MakesNext};

use crate::{Class, FaultCode, HeaderFields, Size};

/// The meaning of the identifier octets so far, without the octets.
#[derive(Clone, Copy)]
pub(crate) struct IdentifierFields {
    pub(crate) class: Class,
    pub(crate) constructed: bool,
    pub(crate) number: u64,
    /// The number of identifier octets.
    pub(crate) id_len: u8,
}

/// The state of the octets so far.
#[derive(Clone, Copy)]
pub(crate) enum Part {
    /// No octet.
    Start,
    /// Identifier octets in the high form (8.1.2.4), with at least one more to come.
    Number(IdentifierFields),
    /// All the identifier octets, and no length octet.
    Identifier(IdentifierFields),
    /// The identifier octets, the length so far (8.1.3.5), and the number of length octets still to come.
    Length {
        identifier: IdentifierFields,
        length: u64,
        left: u8,
    },
    /// A whole header, with nothing more to come.
    Whole,
}

/// The result of adding an octet to the octets before.
#[derive(Clone, Copy)]
pub(crate) enum Next {
    /// The octets are not a header yet, but this part of one.
    Unfinished(Part),
    /// The octets are a header with this identifier and this size.
    Whole(IdentifierFields, Size),
    /// No header begins with the octets.
    Refused(FaultCode),
}

/// The fields of a header with this identifier and this size.
#[inline(always)]
pub(crate) fn header_fields(
    offset: u64,
    named: bool,
    identifier: IdentifierFields,
    size: Size,
) -> HeaderFields
    ensures { result ≡ record {
      offset = offset;
      named = named;
      class = identifier.class;
      constructed = identifier.constructed;
      number = identifier.number;
      size = size;
      id_len = identifier.id_len;
    } }
{
    HeaderFields {
        offset,
        named,
        class: identifier.class,
        constructed: identifier.constructed,
        number: identifier.number,
        size,
        id_len: identifier.id_len,
    }
}

pub(crate) fn read_octet(part: Part, octet: u8) -> Next
    requires carried { (octets : List ℕ) × Carries part octets }
    requires unfinished { is_whole_header part ≡ false }
    requires first { part ≡ Part.Start → octet ≢ 0 }
    ensures { (octets : List ℕ) → Carries part octets → MakesNext octets octet result }
{
    match part {
        Part::Start => Next::Unfinished(first_identifier(octet)),
        Part::Number(identifier) => next_number(identifier, octet),
        Part::Identifier(identifier) => first_length(identifier, octet),
        Part::Length {
            identifier,
            length,
            left,
        } => next_length(identifier, length, left, octet),
        Part::Whole => unreachable!(),
    }
}

#[inline(always)]
fn class_of(octet: u8) -> Class
    ensures { class_bits result ≡ octet / 64 }
{
    match octet >> 6 {
        0 => Class::Universal,
        1 => Class::Application,
        2 => Class::Context,
        _ => Class::Private,
    }
}

/// The first identifier octet (8.1.2.2, 8.1.2.4.1).
#[inline(always)]
pub(crate) fn first_identifier(octet: u8) -> Part
    requires { octet ≢ 0 }
    ensures { Carries result (octet ∷ []) }
{
    let low = octet & 0x1f;
    let identifier = IdentifierFields {
        class: class_of(octet),
        constructed: octet >> 5 & 1 == 1,
        number: if low == 0x1f { 0 } else { u64::from(low) },
        id_len: 1,
    };
    if low == 0x1f {
        Part::Number(identifier)
    } else {
        Part::Identifier(identifier)
    }
}

/// A subsequent identifier octet (8.1.2.4.2).
#[inline(always)]
pub(crate) fn next_number(identifier: IdentifierFields, octet: u8) -> Next
    requires { (octets : List ℕ) × CarriesNumber identifier octets }
    ensures { (octets : List ℕ) → CarriesNumber identifier octets → MakesNext octets octet result }
{
    if octet >= 0x80 && identifier.id_len >= 9 {
        return Next::Refused(FaultCode::TagTooLong);
    }
    let identifier = IdentifierFields {
        number: identifier.number * 128 + u64::from(octet & 0x7f),
        id_len: identifier.id_len + 1,
        ..identifier
    };
    if octet >= 0x80 {
        Next::Unfinished(Part::Number(identifier))
    } else {
        Next::Unfinished(Part::Identifier(identifier))
    }
}

/// The first length octet (8.1.3.4 to 8.1.3.6).
fn first_length(identifier: IdentifierFields, octet: u8) -> Next
    ensures { (octets : List ℕ) → CarriesIdentifier identifier octets
        → MakesNext octets octet result }
{
    if octet < 0x80 {
        Next::Whole(identifier, Size::Definite(u64::from(octet)))
    } else if octet == 0xff {
        Next::Refused(FaultCode::ReservedLength)
    } else if octet > 0x80 {
        Next::Unfinished(Part::Length {
            identifier,
            length: 0,
            left: octet - 0x80,
        })
    } else if identifier.constructed {
        Next::Whole(identifier, Size::Indefinite)
    } else {
        Next::Refused(FaultCode::IndefinitePrimitive)
    }
}

/// A further length octet (8.1.3.5). A length of 2^40 or more is refused at the octet that makes it so large,
/// whatever follows.
fn next_length(identifier: IdentifierFields, length: u64, left: u8, octet: u8) -> Next
    requires { (octets : List ℕ) × CarriesLength identifier length left octets }
    ensures { (octets : List ℕ) → CarriesLength identifier length left octets
        → MakesNext octets octet result }
{
    let left = left - 1;
    if octet != 0 && left >= 5 {
        return Next::Refused(FaultCode::LengthTooLarge);
    }
    let length = length * 256 + u64::from(octet);
    if left == 0 {
        Next::Whole(identifier, Size::Definite(length))
    } else {
        Next::Unfinished(Part::Length {
            identifier,
            length,
            left,
        })
    }
}
