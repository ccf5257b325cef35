//! What is open where the reading of an input ends.

use crate::Element;
use arrayvec::ArrayVec;
use tlv_head::Fault;

/// What is unfinished at the point where the reading of an input ends.
#[derive(Clone, Copy, Debug, PartialEq, Eq)]
pub enum Unfinished {
    /// Nothing: an element or end-of-contents octets could begin there.
    Nothing,
    /// A primitive that lacks contents octets.
    Primitive(Element),
    /// A header that lacks octets, or the whole header of a BIT STRING that is named and holds encodings, if nothing
    /// follows that header.
    Header,
    /// The first of two end-of-contents octets.
    EndOctets,
}

/// The result of reading octets: why they do not parse, what is open where the reading ends, and what comes before
/// that. A string that is named and holds encodings counts as an element that holds others. Offsets are in octets from
/// the start of the input.
#[derive(Debug, Drop)]
pub struct Facts {
    /// Why the octets do not parse, if they do not.
    pub fault: Option<Fault>,
    /// The elements that hold others and have not ended, outermost first.
    pub holders: ArrayVec<Element, 128>,
    /// The last whole element before the open end that is directly inside the innermost open element.
    pub before: Option<Element>,
    /// The offset after the last whole outermost element; 0 if there is none.
    pub top: u64,
    /// The offsets of the last 25 elements before the open end, the nearest first.
    pub nearest: ArrayVec<u64, 25>,
    /// Where the open end begins.
    pub next: u64,
    /// What is unfinished there.
    pub unfinished: Unfinished,
    /// The element whose whole header is in the input there, even if it is refused.
    pub there: Option<Element>,
}
