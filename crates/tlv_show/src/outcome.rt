//! The outcome of a dump or a check.
use tlv_walk::Ending;

/// The outcome of a dump or a check.
#[derive(Clone, Copy, Debug, PartialEq, Eq)]
pub struct Outcome {
    /// The ending of the input.
    pub ending: Ending,
    /// The number of findings. A finding counts even if its line is left out.
    pub findings: u64,
    /// The first of the named offsets at which no string that holds encodings was found.
    pub unused: Option<u64>,
}
