//! The result of a walk over a source.
use crate::Ending;
use thiserror::Error;

/// The most octets that an input may have: 2^40.
pub const INPUT_LIMIT: u64 = 1 << 40;

/// The result of a walk.
#[derive(Clone, Copy, Debug, PartialEq, Eq)]
pub struct Run {
    /// `Done` if the follower had enough; otherwise the ending of the input.
    pub ending: Ending,
    /// The number of octets walked over: the octets before a fault, or up to the last event followed.
    pub octets: u64,
    /// Whether the follower had enough.
    pub enough: bool,
    /// The first of the named offsets at which no string that holds encodings was found, in octets
    /// from the start of the input.
    pub unused: Option<u64>,
}

/// The result of one read.
#[derive(Clone, Copy, Debug, PartialEq, Eq)]
pub enum Turn {
    /// More is to be read.
    Again,
    /// The walk has ended.
    Ended(Run),
}

/// Why a walk over a source has no result: a device failed, or the input is too long.
#[derive(Clone, Copy, Debug, PartialEq, Eq, Error)]
pub enum DeviceFault {
    /// A read of the source failed.
    #[error("read failed")]
    ReadFailed,
    /// A write to the drain failed.
    #[error("write failed")]
    WriteFailed,
    /// The source gave more octets than the limit, and the octets up to the limit hold no fault and are not enough
    /// for the follower.
    #[error("input too long")]
    InputTooLong,
}
