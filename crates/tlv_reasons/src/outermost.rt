//! Whether the outermost elements of an input end with it, by what their headers say.
ghost use Rattle.std.specs.Prelude.{◌≡◌, ◌<◌, ◌≤◌, ◌↔◌, IsTrue, length};
ghost use Rattle.tlv_head.specs.Limits.{input_limit};
ghost use Rattle.tlv_reasons.specs.OutermostSizes.{SizesAgree, is_padded_at};
ghost use Rattle.tlv_reasons.specs.Private.Sizes.{IsFollowing};

use tlv_head::{Size, read_header};

/// Where to look next, after what begins at an offset.
#[derive(Clone, Copy)]
pub(crate) enum Following {
    /// At this offset.
    At(usize),
    /// It cannot be told: the length of the element is indefinite.
    Unknown,
    /// Nowhere: there is no whole header, or the element ends behind the input.
    Nowhere,
}

/// Whether the outermost elements from this offset on, in octets from the start of the input, end with the input, by
/// what their headers say (8.1.3). With an element of indefinite length nothing speaks against it. With `padding`,
/// octets `00` are allowed between the elements.
pub(crate) fn sizes_agree(octets: &[u8], padding: bool, top: usize) -> bool
    requires { length octets.now ≤ input_limit }
    ensures { IsTrue result ↔ SizesAgree padding octets.now top }
{
    let mut offset = top;
    while offset < octets.len() {
        match behind(octets, padding, offset) {
            Following::At(next) => offset = next,
            Following::Unknown => return true,
            Following::Nowhere => return false,
        }
    }
    offset == octets.len()
}

/// Where to look next, after what begins at this offset.
fn behind(octets: &[u8], padding: bool, offset: usize) -> Following
    requires limit { length octets.now ≤ input_limit }
    requires within { offset < length octets.now }
    ensures { IsFollowing padding octets.now offset result }
{
    if is_padded_at(octets, padding, offset) {
        return Following::At(offset + 1);
    }
    let Some((fields, count)) = read_header(offset as u64, false, &octets[offset..]) else {
        return Following::Nowhere;
    };
    let Size::Definite(size) = fields.size else {
        return Following::Unknown;
    };
    if size > (octets.len() - offset - count) as u64 {
        return Following::Nowhere;
    }
    Following::At(offset + count + size as usize)
}

/// Whether an octet of padding is at this offset.
pub(crate) fn is_padded_at(octets: &[u8], padding: bool, offset: usize) -> bool
    requires { offset < length octets.now }
    ensures { result ≡ is_padded_at padding octets.now offset }
{
    padding && octets[offset] == 0
}
