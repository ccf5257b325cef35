//! The ending of an input.
use tlv_head::Fault;

/// The ending of an input.
#[derive(Clone, Copy, PartialEq, Eq, Debug)]
pub enum Ending {
    /// One or more whole encodings, and nothing is open.
    Done,
    /// The input, or one of its octets, is refused.
    Fault(Fault),
}
