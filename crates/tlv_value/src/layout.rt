//! How the lines of a dump are laid out.

/// How the lines of a dump are laid out.
#[derive(Clone, Copy, Debug, PartialEq, Eq)]
pub struct Layout {
    /// The number of elements that hold the element of the line.
    pub level: u8,
    /// The number of rows of a value that are written. If there are more, the next is written as `...`, and the rest
    /// are left out. With `None`, all rows are written.
    pub limit: Option<u32>,
    /// Whether the first columns are left out.
    pub pure: bool,
}
