//! Why a names file is refused.
use thiserror::Error;

/// Why a names file is refused. Lines are numbered from 1.
#[derive(Clone, Copy, Debug, PartialEq, Eq, Error)]
pub enum NamesFault {
    /// N1: the line with this number does not begin with an object identifier.
    #[error("N1 line {0}: not an object identifier")]
    BadOid(u32),
    /// N2: the line with this number has no name, or a name with an octet outside `20` to `7e`.
    #[error("N2 line {0}: no usable name")]
    BadName(u32),
    /// N3: an earlier line has the object identifier of the line with this number.
    #[error("N3 line {0}: repeated")]
    Repeated(u32),
    /// N4: the file has more than 1,048,576 octets, a line of more than 400, or more than 65,536 entries.
    #[error("N4 names file too large")]
    TooLarge,
    /// N5: a read failed.
    #[error("N5 names file not read")]
    ReadFailed,
    /// N6: memory was refused.
    #[error("N6 out of memory")]
    Memory,
}
