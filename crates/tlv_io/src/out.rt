//! An [`Out`]: it holds octets, and hands them to a drain.

ghost use Rattle.std.specs.Prelude.{◌≡◌, ◌≤◌, [], length, OnOk};
ghost use Rattle.tlv_io.specs.OutLimits.{held_limit, line_room};
ghost use Rattle.tlv_io.specs.LineTexts.{HasRoomFor};
ghost use Rattle.tlv_io.specs.Out.{Puts, Sends, held_octets, drain_of};

use crate::drain::{Drain, WriteFault};
use crate::held_octets::{CAPACITY, HeldOctets};

/// Room for the longest line without the name of an object identifier: the line of an element at level 255, with 64
/// octets of contents.
const LINE: usize = 1024;

/// Gathers octets, so that a drain takes many with each write.
///
/// The octets that the drain took, followed by the octets held, are the octets that were put, in order. After a
/// `WriteFault` the drain has a prefix of them, and the `Out` is of no further use. When an `Out` is dropped, the
/// octets that it holds are lost, so call `flush` first.
#[derive(Drop)]
pub struct Out<'d, D> {
    drain: &'d mut D,
    /// The octets held. A line is made at their end, after [`Out::make_room`].
    pub held: HeldOctets,
}

impl<'d, D: Drain> Out<'d, D> {
    /// An `Out` to this drain, which holds no octets yet.
    pub fn new(drain: &'d mut D) -> Out<'d, D>
        ensures same_reference { (drain_of result).ghost_name ≡ drain.entry.ghost_name }
        ensures drain { (drain_of result).now ≡ drain.old }
        ensures empty { held_octets result ≡ [] }
    {
        Out {
            drain,
            held: HeldOctets::new(),
        }
    }

    /// Makes room for a line of up to 1024 octets after the octets held.
    ///
    /// # Errors
    ///
    /// As for [`Out::flush`].
    #[inline(always)]
    pub fn make_room(&mut self) -> Result<(), WriteFault>
        ensures puts { Puts D.state self.old self.new [] result }
        ensures room { OnOk result (HasRoomFor (held_octets self.new) line_room) }
    {
        self.make_room_for(LINE)
    }

    /// Makes room for `count` octets, at most 4096, after the octets held.
    ///
    /// # Errors
    ///
    /// As for [`Out::flush`].
    #[inline(always)]
    pub fn make_room_for(&mut self, count: usize) -> Result<(), WriteFault>
        requires { count ≤ held_limit }
        ensures puts { Puts D.state self.old self.new [] result }
        ensures room { OnOk result (HasRoomFor (held_octets self.new) count) }
    {
        if self.held.room() < count {
            return self.flush();
        }
        Ok(())
    }

    /// Puts octets after the octets put before. They are held, or handed to the drain.
    ///
    /// # Errors
    ///
    /// `WriteFault` if a write failed. The drain then has a prefix of the octets put before and these octets.
    #[inline]
    pub fn put(&mut self, octets: &[u8]) -> Result<(), WriteFault>
        ensures puts { Puts D.state self.old self.new octets.now result }
        ensures short { length (held_octets self.new) ≤ held_limit }
    {
        if octets.len() < self.held.room() {
            self.held.add(octets);
            return Ok(());
        }
        self.put_past_room(octets)
    }

    /// Puts octets that leave no room, or do not fit. This is a separate function to keep `put` short where it is
    /// inlined.
    #[cold]
    #[inline(never)]
    fn put_past_room(&mut self, octets: &[u8]) -> Result<(), WriteFault>
        ensures puts { Puts D.state self.old self.new octets.now result }
        ensures short { length (held_octets self.new) ≤ held_limit }
    {
        if octets.len() > self.held.room() {
            self.flush()?;
        }
        // If there are this many octets, nothing is held at this point, and they need not be gathered.
        if octets.len() >= CAPACITY {
            return send(self.drain, octets);
        }
        self.held.add(octets);
        Ok(())
    }

    /// Hands all the octets held to the drain.
    ///
    /// # Errors
    ///
    /// `WriteFault` if a write failed. The drain then has a prefix of the octets put.
    #[inline(never)]
    pub fn flush(&mut self) -> Result<(), WriteFault>
        ensures puts { Puts D.state self.old self.new [] result }
        ensures empty { OnOk result (held_octets self.new ≡ []) }
        ensures short { length (held_octets self.new) ≤ held_limit }
    {
        send(self.drain, self.held.as_slice())?;
        self.held.clear();
        Ok(())
    }
}

/// Hands all the octets to the drain, in as many writes as needed.
///
/// # Errors
///
/// `WriteFault` if and only if a write failed. The drain then has a prefix of the octets.
pub fn send<D: Drain>(drain: &mut D, octets: &[u8]) -> Result<(), WriteFault>
    ensures { Sends (D.state drain.old) (D.state drain.new) octets.now result }
{
    let mut sent = 0;
    while sent < octets.len() {
        sent += drain.write(&octets[sent..])?;
    }
    Ok(())
}
