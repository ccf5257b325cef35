//! The events of a walk.
use tlv_head::{Fault, Header};

/// An event of a walk. Events come in the order of the octets.
#[derive(Clone, PartialEq, Eq, Debug, Drop)]
pub enum Event<'a> {
    /// The header of a constructed element.
    Open(Header),
    /// The header of a primitive.
    Begin(Header),
    /// A part of a primitive's contents; never empty.
    Bytes(&'a [u8]),
    /// The end of a primitive.
    End,
    /// The end of a constructed element, with the offset of its end-of-contents octets, if any, in octets from the
    /// start of the input.
    Close(Option<u64>),
    /// The header of a string that holds encodings.
    Enter(Header),
    /// The first contents octet of a BIT STRING that holds encodings: `00`, no unused bits (8.6.2.2).
    Unused,
    /// The end of a string that holds encodings.
    Leave,
    /// A part of the padding: octets `00` at the top level, before, between or after encodings. Never empty.
    Pad(&'a [u8]),
}

/// The result of a step.
#[derive(Clone, PartialEq, Eq, Debug, Drop)]
pub enum Step<'a> {
    /// The next event.
    Event(Event<'a>),
    /// The piece is used up, and no event waits.
    NeedMore,
    /// An octet is refused. The walker takes no more octets.
    Fault(Fault),
}
