//! How a dump is to be written.
use crate::Rules;
use tlv_walk::Framing;

/// How a dump is to be written.
#[derive(Debug, Drop)]
pub struct Options<'a> {
    /// The rules by which findings are reported.
    pub rules: Rules,
    /// The number of rows of one value that are written. One more row is written as `...`, and the rest are left out.
    /// Without a limit, all rows are written.
    pub limit: Option<u32>,
    /// Whether the first columns of each line are left out: offsets, lengths, and the spaces in their place. The
    /// lines of findings are left out too, but the findings are counted.
    pub pure: bool,
    /// How the input is to be read.
    pub framing: Framing<'a>,
}
