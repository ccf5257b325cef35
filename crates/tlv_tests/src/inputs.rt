//! Headers, elements and framings that the tests use.
ghost use Rattle.std.specs.Prelude.{IfSome};
ghost use Rattle.tlv_head.specs.Header.{HasAllContents};

use std::process::Abort;
use tlv_head::{Header, Size, read_header};
use tlv_walk::{Framing, Inside};

/// Returns the header at the start of the octets, if there is one. The header has this offset.
pub(crate) fn header_at(offset: u64, named: bool, octets: &[u8]) -> Option<Header> {
    let (fields, count) = read_header(offset, named, octets)?;
    Some(Header::new(&fields, &octets[..count]))
}

/// Returns the header at the start of the octets. The header has this offset. Panics if there is none.
pub(crate) fn header(rt: &impl Abort, offset: u64, named: bool, octets: &[u8]) -> Header {
    let Some(header) = header_at(offset, named, octets) else {
        panic!(rt; "no header");
    };
    header
}

/// Splits an element of definite length into its header and its contents octets. The header has this offset. Returns
/// `None` if the octets are not exactly one such element.
pub(crate) fn element_at<'a>(offset: u64, octets: &'a [u8]) -> Option<(Header, &'a [u8])>
    ensures { IfSome result (λ (header, contents). HasAllContents header contents.now) }
{
    let (fields, count) = read_header(offset, false, octets)?;
    let header = Header::new(&fields, &octets[..count]);
    let contents = &octets[count..];
    if header.size != Size::Definite(contents.len() as u64) {
        return None;
    }
    Some((header, contents))
}

/// Returns the framing that names these offsets. Panics if they do not rise.
pub(crate) fn framing_of(rt: &impl Abort, offsets: &[u64], padding: bool) -> Framing<'static> {
    let Some(inside) = Inside::new(offsets) else {
        panic!(rt; "the offsets rise");
    };
    Framing { inside, padding }
}
