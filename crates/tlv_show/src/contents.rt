//! The contents of a primitive whose octets are all available.
ghost use Rattle.std.specs.Prelude.{◌≡◌};
ghost use Rattle.tlv_walk.specs.Follow.{IsWholeElement, contents_in};

use tlv_head::Header;

/// The octets of a primitive after its header.
#[inline(always)]
pub(crate) fn contents_in<'a>(header: &Header, octets: &'a [u8]) -> &'a [u8]
    requires { IsWholeElement header.now octets.now }
    ensures { result.now ≡ contents_in header.now octets.now }
{
    let (_, contents) = octets.split_at(header.raw().len());
    contents
}
