//! Length octets, changed in place.
ghost use Rattle.std.specs.Prelude.{◌≡◌, ◌<◌, ◌≤◌, ◌-◌, ◌^◌, ◌↔◌, IsTrue, length, nat_lt, true};
ghost use Rattle.tlv_reasons.specs.Private.Lengths.{MendedWithOctets};
ghost use Rattle.tlv_reasons.specs.WrongLength.{base_256, length_bound, length_octets_saying, search_limit};

use crate::bounds::{Bounds, is_mended};
use tlv_walk::Framing;

/// Where length octets are in an input.
#[derive(Clone, Copy)]
pub(crate) struct LengthPlace {
    /// Where the first is, in octets from the start of the input.
    pub(crate) start: usize,
    /// Where they end.
    pub(crate) end: usize,
}

/// Whether this number of length octets can state this length.
pub(crate) fn can_say(count: usize, would: u64) -> bool
    requires some { 0 < count }
    requires below { would < 2 ^ 41 }
    ensures { result ≡ nat_lt would (length_bound count) }
{
    if count == 1 {
        would < 0x80
    } else {
        count > 6 || would < 256u64.pow(count as u32 - 1)
    }
}

/// Whether the input is mended if the length octets there state this length. Changes the copy, and then restores it.
pub(crate) fn is_mended_with(
    octets: &[u8],
    copy: &mut [u8],
    framing: &Framing<'_>,
    bounds: Bounds,
    place: LengthPlace,
    would: u64,
) -> bool
    requires copied { copy.old ≡ octets.now }
    requires limit { length octets.now ≤ search_limit }
    requires some { place.start < place.end }
    requires within { place.end ≤ length octets.now }
    requires sayable { nat_lt would (length_bound (place.end - place.start)) ≡ true }
    ensures copied { copy.new ≡ octets.now }
    ensures mended { IsTrue result ↔ MendedWithOctets framing.now bounds place.start place.end octets.now would }
{
    set_length(&mut copy[place.start..place.end], would);
    let mended = is_mended(copy, framing, bounds);
    copy[place.start..place.end].copy_from_slice(&octets[place.start..place.end]);
    mended
}

/// Makes length octets state another length, in the same form.
pub(crate) fn set_length(octets: &mut [u8], would: u64)
    requires some { 0 < length octets.old }
    requires short { length octets.old ≡ 1 → would < 128 }
    ensures { octets.new ≡ length_octets_saying would octets.old }
{
    if octets.len() == 1 {
        octets[0] = would as u8;
    } else {
        set_base_256(&mut octets[1..], would);
    }
}

/// Sets octets to a number in base 256, the most significant octet first.
fn set_base_256(octets: &mut [u8], number: u64)
    ensures { octets.new ≡ base_256 (length octets.old) number }
{
    let mut rest = number;
    let mut at = octets.len();
    while at > 0 {
        at -= 1;
        octets[at] = (rest % 256) as u8;
        rest /= 256;
    }
}
