//! Which findings are reported.

/// Which of the findings of the rules are reported.
#[derive(Clone, Copy, Debug, PartialEq, Eq)]
pub enum Scope {
    /// Those with the codes B01 to B19, S01 to S04, D01, D02 and C01 to C06.
    Listed,
    /// All of them.
    All,
}
