//! The size in octets of elements, and whether they are sound.
ghost use Rattle.std.specs.Prelude.{◌≡◌, ◌≤◌, IfSome, false, length};
ghost use Rattle.tlv_open.specs.Private.Adds.{IsPlain};

use crate::spot::is_octet_or_bit_string;
use tlv_head::HeaderFields;

/// The size in octets of a run of elements, and whether they are sound.
#[derive(Clone, Copy)]
pub(crate) struct Extent {
    /// The number of octets.
    pub(crate) size: usize,
    /// Whether the elements are sound and end where they must.
    pub(crate) sound: bool,
}

/// The extent of an unfinished element: all these octets.
#[inline(always)]
pub(crate) fn unended(octets: &[u8]) -> Extent
    ensures { result ≡ record { size = length octets.now; sound = false } }
{
    Extent {
        size: octets.len(),
        sound: false,
    }
}

/// The size in octets of the primitive that the octets begin with, if it is neither an OCTET STRING nor a BIT STRING
/// and need not be `likely`. Its header has these fields and `count` octets. Most primitives are like this, and need
/// no further check.
#[inline(always)]
pub(crate) fn plain_size(
    octets: &[u8],
    fields: &HeaderFields,
    count: usize,
    likely: bool,
) -> Option<usize>
    requires { count ≤ length octets.now }
    ensures { IfSome result (λ n. IsPlain octets.now fields.now count likely n) }
{
    if likely || fields.constructed || is_octet_or_bit_string(fields) {
        return None;
    }
    let length = fields.size.announced_length();
    if length > (octets.len() - count) as u64 {
        return None;
    }
    Some(count + length as usize)
}
