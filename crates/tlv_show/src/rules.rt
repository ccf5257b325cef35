//! The rules by which findings are reported.

/// The rules by which findings are reported: the basic rules, alone or with what one of the other two adds to them.
#[derive(Clone, Copy, Debug, PartialEq, Eq)]
pub enum Rules {
    /// The basic encoding rules.
    Ber,
    /// The distinguished encoding rules.
    Der,
    /// The canonical encoding rules.
    Cer,
}
