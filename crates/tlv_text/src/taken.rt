//! What an input is taken for.
use crate::{Block, Form};
use arrayvec::ArrayVec;

/// What the octets of an input are taken for.
#[derive(Clone, Copy, Debug, PartialEq, Eq)]
pub enum TakenFor {
    /// Octets as they stand.
    Octets,
    /// A text of this form.
    Text(Form),
    /// A text of no known form. Its block has no octets, and has its first words as the label.
    OtherText,
}

/// A block of an input, and what it was taken for.
#[derive(Debug, Drop)]
pub struct Taken {
    /// What it was taken for.
    pub taken_for: TakenFor,
    /// The layers of base64 that its text is written in, innermost first: the line of a run, or `None` for a text
    /// that is only base64.
    pub layers: ArrayVec<Option<usize>, 3>,
    /// The block, with its octets.
    pub block: Block,
}
