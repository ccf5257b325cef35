//! An element's header: its identifier and length octets, and their meaning.
use crate::universal;
use arrayvec::ArrayVec;
use std::marker::Model;

/// The class of a tag (8.1.2.2).
#[derive(Clone, Copy, PartialEq, Eq, Debug)]
pub enum Class {
    /// Bits 8 and 7 of the first identifier octet are 00 (8.1.2.2 a).
    Universal,
    /// Bits 8 and 7 are 01.
    Application,
    /// Bits 8 and 7 are 10: context-specific.
    Context,
    /// Bits 8 and 7 are 11.
    Private,
}

/// The meaning of the length octets (8.1.3).
#[derive(Clone, Copy, PartialEq, Eq, Debug)]
pub enum Size {
    /// This number of contents octets follows, fewer than 2^40.
    Definite(u64),
    /// Contents follow up to the end-of-contents octets.
    Indefinite,
}

impl Size {
    ghost use Rattle.std.specs.Prelude.{◌≡◌};
    ghost use Rattle.tlv_head.specs.Header.{announced_length};

    /// The number of contents octets that the length announces; 0 in the indefinite form.
    #[inline(always)]
    pub fn announced_length(self) -> u64
        ensures { result ≡ announced_length self }
    {
        match self {
            Size::Definite(length) => length,
            Size::Indefinite => 0,
        }
    }
}

/// The identifier and length octets of an element, with their meaning.
#[derive(Clone, PartialEq, Eq, Debug, Drop)]
pub struct Header {
    /// The offset of the first identifier octet, in octets from the start of the input.
    pub offset: u64,
    /// The class of the tag (8.1.2.2).
    pub class: Class,
    /// Whether the element is constructed; otherwise it is primitive (8.1.2.5).
    pub constructed: bool,
    /// The number of the tag (8.1.2.2, 8.1.2.4.2).
    pub number: u64,
    /// The meaning of the length octets (8.1.3).
    pub size: Size,
    pub(crate) raw: ArrayVec<u8, 137>,
    /// The number of identifier octets.
    pub id_len: u8,
    pub(crate) named: bool,
    /// Kept beside `raw`, like the next field, so that reading it moves no 137 octets.
    pub(crate) second_identifier_octet: u8,
    pub(crate) second_length_octet: u8,
}

/// The meaning of a header, without its octets: small, while a [`Header`] has room for 137 octets.
#[derive(Clone, Copy, PartialEq, Eq, Debug)]
pub struct HeaderFields {
    /// The offset of the first identifier octet, in octets from the start of the input.
    pub offset: u64,
    /// Whether the user named this offset as the offset of a string that holds encodings.
    pub named: bool,
    /// The class of the tag (8.1.2.2).
    pub class: Class,
    /// Whether the element is constructed; otherwise it is primitive (8.1.2.5).
    pub constructed: bool,
    /// The number of the tag (8.1.2.2, 8.1.2.4.2).
    pub number: u64,
    /// The meaning of the length octets (8.1.3).
    pub size: Size,
    /// The number of identifier octets.
    pub id_len: u8,
}

impl Model for Header {
    ghost use Rattle.tlv_head.specs.Header.{HeaderValue};

    ghost Value = { HeaderValue };

    ghost use Rattle.tlv_head.specs.StoredHeader.{HeaderFieldsAgree, header_value_of, stored_header};

    ghost view = { header_value_of };

    ghost invariant = { HeaderFieldsAgree };

    ghost inverse = { stored_header };

    ghost use Rattle.std.proofs.Common.{length-take-le, le_of_lt, sym, take-append-drop};

    ghost inverse_ok = { λ h k i. record {
      offset = h.offset;
      class = h.class;
      constructed = h.constructed;
      number = h.number;
      size = h.size;
      raw = record { items = take-append-drop h.id_len h.raw.items i };
      id_len = length-take-le h.id_len h.raw.items (le_of_lt k.0.identifier) i;
      named = h.named;
      second_identifier_octet = sym k.1 i;
      second_length_octet = sym k.2 i;
    } };
}

impl HeaderFields {
    ghost use Rattle.std.specs.Prelude.{◌≡◌};
    ghost use Rattle.tlv_head.specs.HeaderFields.{fields_wrap};

    /// [`Header::wraps`], for the header with these fields (8.6.2, 8.7.2).
    pub fn wraps(&self) -> bool
        ensures { result ≡ fields_wrap self.now }
    {
        if !self.named || self.constructed {
            return false;
        }
        match (self.class, self.number) {
            (Class::Universal, universal::BIT_STRING) => self.size.announced_length() != 0,
            (Class::Universal, universal::OCTET_STRING) => true,
            _ => false,
        }
    }
}

impl Header {
    ghost use Rattle.std.specs.Prelude.{◌≤◌, length, slice_index};
    ghost use Rattle.tlv_head.specs.Header.{octets_of, wraps};
    ghost use Rattle.tlv_head.specs.HeaderFields.{IsHeaderSized, fields_of, new_header};

    /// The header with these fields and octets. Requires at most 137 octets, of which at most ten, and not all, are
    /// the identifier. The caller must ensure that the octets say these fields, as
    /// [`read_header`](crate::read_header) does.
    #[inline]
    pub fn new(fields: &HeaderFields, octets: &[u8]) -> Header
        requires { IsHeaderSized fields.now octets.now }
        ensures { result ≡ new_header fields.now octets.now }
    {
        let mut raw = ArrayVec::new();
        let _ = raw.try_extend_from_slice(octets);
        let (second_identifier_octet, second_length_octet) = second_octets(fields.id_len, octets);
        Header {
            offset: fields.offset,
            class: fields.class,
            constructed: fields.constructed,
            number: fields.number,
            size: fields.size,
            raw,
            id_len: fields.id_len,
            named: fields.named,
            second_identifier_octet,
            second_length_octet,
        }
    }

    /// The header with these fields and octets; the octets are moved. ([`Header::new`] reads the second octets that it
    /// keeps beside `raw` from the given slice, so that nothing need be written to `raw` if nobody asks for it.)
    pub(crate) fn with_raw(fields: &HeaderFields, raw: ArrayVec<u8, 137>) -> Header
        requires { IsHeaderSized fields.now raw.items }
        ensures { result ≡ new_header fields.now raw.items }
    {
        let (second_identifier_octet, second_length_octet) = second_octets(
            fields.id_len,
            raw.as_slice(),
        );
        Header {
            offset: fields.offset,
            class: fields.class,
            constructed: fields.constructed,
            number: fields.number,
            size: fields.size,
            raw,
            id_len: fields.id_len,
            named: fields.named,
            second_identifier_octet,
            second_length_octet,
        }
    }

    /// The meaning of the header, without its octets.
    pub fn fields(&self) -> HeaderFields
        ensures { result ≡ fields_of self.now }
    {
        HeaderFields {
            offset: self.offset,
            named: self.named,
            class: self.class,
            constructed: self.constructed,
            number: self.number,
            size: self.size,
            id_len: self.id_len,
        }
    }

    /// The octets as they are, at most 137: the identifier octets, [`Header::id_len`] in number, and then the length
    /// octets.
    pub fn raw(&self) -> &[u8]
        ensures value { result.now ≡ octets_of self.now }
        ensures short { length result.now ≤ 137 }
    {
        self.raw.as_slice()
    }

    /// The identifier octets: the first [`Header::id_len`] of [`Header::raw`]. There are at most ten.
    pub fn identifier(&self) -> &[u8]
        ensures value { result.now ≡ self.now.identifier_octets }
        ensures short { length result.now ≤ 10 }
    {
        &self.raw.as_slice()[..usize::from(self.id_len)]
    }

    /// The first subsequent identifier octet (8.1.2.4.2), or 0 if there is none.
    #[inline]
    pub fn second_identifier_octet(&self) -> u8
        ensures { result ≡ slice_index self.now.identifier_octets 1 }
    {
        self.second_identifier_octet
    }

    /// The first subsequent length octet (8.1.3.5), or 0 if there is none.
    #[inline]
    pub fn second_length_octet(&self) -> u8
        ensures { result ≡ slice_index self.now.length_octets 1 }
    {
        self.second_length_octet
    }

    /// Whether the contents are to be read as encodings although the element is primitive: the user named its offset,
    /// and it is an OCTET STRING, or a BIT STRING of one or more contents octets.
    pub fn wraps(&self) -> bool
        ensures { result ≡ wraps self.now }
    {
        self.fields().wraps()
    }
}

ghost use Rattle.std.specs.Prelude.{◌≡◌, ◌≤◌, drop, length, slice_index, take, true};
ghost use Rattle.tlv_head.specs.Header.{spell_indefinite};

/// The second octet of an identifier with `id_len` octets and the second octet of the length after it; 0 for one that
/// does not exist.
pub(crate) fn second_octets(id_len: u8, octets: &[u8]) -> (u8, u8)
    requires { id_len ≤ length octets.now }
    ensures identifier { result.0 ≡ slice_index (take id_len octets.now) 1 }
    ensures lengths { result.1 ≡ slice_index (drop id_len octets.now) 1 }
{
    let (identifier, lengths) = octets.split_at(usize::from(id_len));
    (second_of(identifier), second_of(lengths))
}

/// The second octet, or 0 if there is none.
fn second_of(octets: &[u8]) -> u8
    ensures { result ≡ slice_index octets.now 1 }
{
    match octets {
        [_, second, ..] => *second,
        _ => 0,
    }
}

/// The identifier octets of a constructed element, and `80`: the same header with the indefinite
/// form of the length (8.1.3.6).
pub fn spell_indefinite(header: &Header) -> ArrayVec<u8, 11>
    requires { header.now.constructed ≡ true }
    ensures { result.items ≡ spell_indefinite header.now }
{
    let mut octets = ArrayVec::new();
    let _ = octets.try_extend_from_slice(header.identifier());
    octets.push(0x80);
    octets
}
