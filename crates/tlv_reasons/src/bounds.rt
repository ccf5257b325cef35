//! How far octets are searched for a wrong length, and whether a change mends them.
ghost use Rattle.std.specs.Prelude.{◌≡◌, ◌≤◌, ◌↔◌, IsTrue, length};
ghost use Rattle.tlv_head.specs.Limits.{input_limit};
ghost use Rattle.tlv_reasons.specs.Mended.{BeginsWhole, IsMended, whole_bounds};

use crate::facts_call::facts_of;
use crate::sizes::says_sizes;
use crate::sound::ending_in;
use tlv_walk::{Ending, Framing};

/// The greatest number of octets of an input of which further lengths are tried.
pub(crate) const WIDE_LIMIT: usize = 1 << 18;

/// How far octets are searched for a wrong length.
#[derive(Clone, Copy, Debug, PartialEq, Eq)]
pub struct Bounds {
    /// Whether more octets of the input follow that are not searched. Then a change mends these octets also if they
    /// begin with a whole element, and nothing is wrong with them but that they end inside another.
    pub cut: bool,
    /// Whether all lengths are tried, and not only those nearby, and up to three headers are named, and not only one.
    pub wide: bool,
}

impl Bounds {
    /// The bounds for an input as a whole. All lengths are tried if it has at most 262144 octets.
    pub fn whole(octets: &[u8]) -> Bounds
        ensures { result ≡ whole_bounds octets.now }
    {
        Bounds {
            cut: false,
            wide: octets.len() <= WIDE_LIMIT,
        }
    }
}

/// Whether these octets, as a change leaves them, are mended.
pub(crate) fn is_mended(octets: &[u8], framing: &Framing<'_>, bounds: Bounds) -> bool
    requires { length octets.now ≤ input_limit }
    ensures { IsTrue result ↔ IsMended framing.now bounds octets.now }
{
    let fault = match ending_in(octets, framing) {
        Ending::Done => return true,
        Ending::Fault(fault) => fault,
    };
    if !bounds.cut {
        return false;
    }
    if !says_sizes(Some(fault)) {
        return false;
    }
    begins_whole(octets, framing)
}

/// Whether these octets begin with one or more whole elements.
fn begins_whole(octets: &[u8], framing: &Framing<'_>) -> bool
    requires { length octets.now ≤ input_limit }
    ensures { IsTrue result ↔ BeginsWhole framing.now octets.now }
{
    facts_of(octets, framing).top > 0
}
