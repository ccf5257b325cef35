//! What a string holds.
ghost use Rattle.std.specs.Prelude.{◌≡◌, ◌↔◌, ◌<◌, ◌≤◌, IfSome, IsTrue, List, MatchOption, ℕ, Some, None, length};
ghost use Rattle.tlv_head.specs.Limits.{depth_limit};
ghost use Rattle.tlv_head.specs.Header.{HeaderValue};
ghost use Rattle.tlv_open.specs.Held.{HoldsEncodings, inner_octets};
ghost use Rattle.tlv_open.specs.Private.Held.{inner_octets_of};
ghost use Rattle.tlv_walk.specs.Forest.{Forest};

use crate::elements::{DEPTH_LIMIT, elements_size};
use tlv_head::{Class, Header, universal};

/// Whether a primitive with this header and these contents, inside `depth` elements that hold others, is a string
/// that holds encodings. It is an OCTET STRING, or a BIT STRING with no unused bits. Read by themselves, its octets
/// are one or more sound elements, and each outermost element is constructed, or a primitive of the universal class
/// that has no findings under BER. The string itself counts among the 128 elements that may hold others.
pub fn holds_encodings(header: &Header, contents: &[u8], depth: u8) -> bool
    ensures { IsTrue result ↔ ((inner : Forest) × HoldsEncodings depth header.now contents.now inner) }
{
    match held_octets(header.class, header.number, contents) {
        Some(octets) => are_held(octets, depth),
        None => false,
    }
}

/// Whether these octets, inside `depth` elements that hold others, are encodings that a string holds.
pub(crate) fn are_held(octets: &[u8], depth: u8) -> bool
    ensures held { (h : HeaderValue) (contents : List ℕ) → inner_octets h contents ≡ Some octets.now
        → IsTrue result ↔ ((inner : Forest) × HoldsEncodings depth h contents inner) }
    ensures shallow { IsTrue result → depth < depth_limit }
{
    if depth >= DEPTH_LIMIT {
        return false;
    }
    !octets.is_empty() && elements_size(octets, 0, depth + 1, true, false).is_some()
}

/// The octets of a primitive of this class and number that may be encodings (8.6.2, 8.7.2): the contents of an OCTET
/// STRING, or the contents of a BIT STRING after a first octet `00`. `None` for any other primitive.
pub(crate) fn held_octets(class: Class, number: u64, contents: &[u8]) -> Option<&[u8]>
    ensures inner { MatchOption result (inner_octets_of class number contents.now ≡ None)
        (λ octets. inner_octets_of class number contents.now ≡ Some octets.now) }
    ensures within { IfSome result (λ octets. length octets.now ≤ length contents.now) }
{
    match (class, number) {
        (Class::Universal, universal::OCTET_STRING) => Some(contents),
        (Class::Universal, universal::BIT_STRING) => match contents {
            [0, octets @ ..] => Some(octets),
            _ => None,
        },
        _ => None,
    }
}
