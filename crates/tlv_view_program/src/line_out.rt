//! Lines on their way to a drain.
ghost use Rattle.std.specs.Prelude.{◌≡◌, [], OnOk};
ghost use Rattle.tlv_io.specs.Out.{drain_of, held_octets};
ghost use Rattle.tlv_view_program.specs.Private.LineOut.{PutsLine, as_out};

use arrayvec::ArrayVec;
use tlv_walk::{Drain, WriteFault, send};

/// The most octets that are held. Nearly all lines are shorter.
const ROOM: usize = 512;

/// Holds the octets of lines, as an `Out` does, but has less room. Room is cleared when it is made, and a text may have
/// thousands of blocks with two lines each.
#[derive(Drop)]
pub(crate) struct LineOut<'d, D> {
    drain: &'d mut D,
    held: ArrayVec<u8, ROOM>,
}

impl<'d, D: Drain> LineOut<'d, D> {
    /// Holds no octets yet.
    pub fn new(drain: &'d mut D) -> LineOut<'d, D>
        ensures same_reference { (drain_of (as_out result)).ghost_name ≡ drain.entry.ghost_name }
        ensures drain { (drain_of (as_out result)).now ≡ drain.old }
        ensures empty { held_octets (as_out result) ≡ [] }
    {
        LineOut {
            drain,
            held: ArrayVec::new(),
        }
    }

    /// Puts octets after the octets put before. They are held if there is room for them, and else handed to the drain.
    pub fn put(&mut self, octets: &[u8]) -> Result<(), WriteFault>
        ensures { PutsLine D.state self.old self.new octets.now result }
    {
        if self.held.try_extend_from_slice(octets).is_ok() {
            return Ok(());
        }
        self.flush()?;
        send(self.drain, octets)
    }

    /// Hands all the octets held to the drain.
    pub fn flush(&mut self) -> Result<(), WriteFault>
        ensures puts { PutsLine D.state self.old self.new [] result }
        ensures empty { OnOk result (held_octets (as_out self.new) ≡ []) }
    {
        send(self.drain, self.held.as_slice())?;
        self.held.clear();
        Ok(())
    }
}
