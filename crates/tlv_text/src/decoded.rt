//! What is decoded from a text.
ghost use Rattle.std.specs.Prelude.{◌≡◌, ◌≤◌, length};
ghost use Rattle.tlv_text.specs.TextRead.{refused_at, refused_in};

use std::alloc::{Allocator, Global};

/// What is decoded from a text.
#[derive(Debug, Drop)]
pub struct Decoded<A: Allocator = Global> {
    /// The octets; if the text is refused, the octets before the refused place.
    pub octets: Vec<u8, A>,
    /// The number of characters before the place where the text is refused, if it is refused.
    pub refused: Option<usize>,
}

/// The number of characters before the rest of a text; `None` if the rest is empty.
pub(crate) fn refused_at(text: &[u8], rest: &[u8]) -> Option<usize>
    requires { length rest.now ≤ length text.now }
    ensures { result ≡ refused_at text.now rest.now }
{
    if rest.is_empty() {
        None
    } else {
        Some(text.len() - rest.len())
    }
}

/// The number of characters before the place where a text is refused, given the number of characters from there to the
/// end of the text; `None` if it is not refused.
pub(crate) fn refused_in(text: &[u8], left: Option<usize>) -> Option<usize>
    ensures { result ≡ refused_in text.now left }
{
    match left {
        Some(left) => Some(text.len().saturating_sub(left)),
        None => None,
    }
}
