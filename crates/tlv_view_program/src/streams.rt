//! What the program works with.
ghost use Rattle.std.specs.Prelude.{◌≡◌, Bool, false};
ghost use Rattle.tlv_io.specs.Stream.{has_no_reader};

use std::io::Write;
use tlv_walk::{Drain, MemDrain, WriteDrain};

/// The system that the program runs on, and its streams.
#[derive(Drop)]
pub struct Streams<S, I, O, M> {
    /// Opens files, and prints.
    pub system: S,
    /// Standard input.
    pub input: I,
    /// Standard output.
    pub output: O,
    /// Standard error.
    pub messages: M,
}

/// A drain that can be standard output: it tells whether it has no reader any more.
pub trait Output: Drain {
    /// Whether the last failed write failed because nothing reads what is written.
    ghost reader_gone: { Self → Bool };

    /// Whether the last failed write failed because nothing reads what is written any more. False if no write failed.
    fn reader_is_gone(&self) -> bool
        ensures { result ≡ reader_gone self.now };
}

impl<W: Write + Drop> Output for WriteDrain<W> {
    ghost reader_gone = { has_no_reader };

    fn reader_is_gone(&self) -> bool {
        self.has_no_reader()
    }
}

/// Room in memory has no reader that could end.
impl Output for MemDrain<'_> {
    ghost reader_gone = { λ drain. false };

    fn reader_is_gone(&self) -> bool {
        false
    }
}
