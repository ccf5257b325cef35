//! An element as the sentences describe it.
ghost use Rattle.std.specs.Prelude.{◌≡◌};
ghost use Rattle.std.specs.Option.{option_map};
ghost use Rattle.tlv_head.specs.Header.{definite_length};
ghost use Rattle.tlv_reasons.specs.Elements.{element_of, element_with, offset_sum};

use tlv_head::{Class, Header, HeaderFields, Size};

/// An element as its header describes it. Offsets are in octets from the start of the input.
#[derive(Clone, Copy, Debug, PartialEq, Eq)]
pub struct Element {
    /// Where its first identifier octet is.
    pub offset: u64,
    /// The class of the tag.
    pub class: Class,
    /// The number of the tag.
    pub number: u64,
    /// What the length octets say.
    pub size: Size,
    /// Where its contents begin: the offset after its header.
    pub contents: u64,
    /// Where its contents end, if their length is definite.
    pub end: Option<u64>,
}

/// Only for filling arrays: every element has a header.
impl Default for Element {
    fn default() -> Element {
        Element {
            offset: 0,
            class: Class::Universal,
            number: 0,
            size: Size::Definite(0),
            contents: 0,
            end: None,
        }
    }
}

/// The element with this header.
pub(crate) fn element_of(header: &Header) -> Element
    ensures { result ≡ element_of header.now }
{
    element_with(&header.fields(), header.raw().len())
}

/// The element whose header has these fields and this number of octets.
pub(crate) fn element_with(fields: &HeaderFields, count: usize) -> Element
    ensures { result ≡ element_with fields.now count }
{
    let contents = fields.offset.saturating_add(count as u64);
    Element {
        offset: fields.offset,
        class: fields.class,
        number: fields.number,
        size: fields.size,
        contents,
        end: content_end(contents, fields.size),
    }
}

/// Where contents that begin at this offset end, if their length is definite.
fn content_end(contents: u64, size: Size) -> Option<u64>
    ensures { result ≡ option_map (offset_sum contents) (definite_length size) }
{
    match size {
        Size::Definite(length) => Some(contents.saturating_add(length)),
        Size::Indefinite => None,
    }
}
