//! Blocks of a text.
use arrayvec::ArrayVec;

/// How octets are written in a text.
#[derive(Clone, Copy, Debug, PartialEq, Eq)]
pub enum Form {
    /// Blocks of PEM (RFC 7468).
    Pem,
    /// A hex dump with offsets.
    Dump,
    /// Pairs of hexadecimal digits, or tokens of a source text.
    Hex,
    /// Decimal numbers in brackets or braces.
    Numbers,
    /// Base64, and nothing else (RFC 4648).
    Base64,
    /// Runs of base64 inside another text.
    Runs,
}

/// The state of a block, beside its octets.
#[derive(Clone, Copy, Debug, PartialEq, Eq)]
pub enum BlockState {
    /// Nothing is wrong: all of the block is decoded.
    Whole,
    /// All of the block is decoded: it is a hex dump, and its first row has this offset, which is not 0.
    BeginsAt(u64),
    /// All of the block is decoded: it is numbers that may be pairs of hexadecimal digits. No number has a minus or
    /// three digits, and one has two digits, of which the first is 0.
    MayBePairs,
    /// It is PEM, and the text ends before its end marker.
    Unended,
    /// It is a hex dump, and ends in front of this line, counted from 1: from there on it has no row. All rows before
    /// it are decoded.
    Ended(usize),
    /// It is PEM, and its headers say that it is encrypted. It has no octets.
    Encrypted,
    /// The text is refused in this line, counted from 1. The block has the octets decoded before that place.
    Refused(usize),
    /// The text has no block of the form.
    Absent,
}

/// Octets that are written in a text in one form.
#[derive(Debug, Drop)]
pub struct Block {
    /// The line at which the block begins, counted from 1. It is 1 for a form that has one block.
    pub line: usize,
    /// The label of a block of PEM; otherwise empty.
    pub label: ArrayVec<u8, 64>,
    /// The octets.
    pub octets: Vec<u8>,
    /// The state of the block.
    pub state: BlockState,
}
