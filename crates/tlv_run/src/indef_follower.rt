//! The follower of `indef`: it writes indefinite lengths.
ghost use Rattle.std.specs.Prelude.{◌≡◌};
ghost use Rattle.tlv_io.specs.Out.{Puts};
ghost use Rattle.tlv_walk.specs.Events.{event_value_of};
ghost use Rattle.tlv_run.specs.IndefStep.{indef_event_text, new_indef};

use std::marker::Model;
use tlv_head::{Header, HeaderFields, spell_indefinite};
use tlv_walk::{Drain, Event, Follow, Go, Out, WriteFault};

/// A follower that writes the octets of a walk, with the indefinite form of the length in each constructed element
/// (X.690, 8.1.3.6): its identifier octets, the octet `80`, what it holds, and the octets `00 00` when it ends.
/// Primitives and padding are written unchanged.
///
/// It is made for walks in which no string is read as encodings. Such a string is a primitive: its header is written
/// unchanged, although what it holds may become longer.
#[derive(Clone, Copy, Debug)]
pub struct Indef;

impl Model for Indef {
    ghost use Rattle.tlv_run.specs.IndefStep.{IndefState, new_indef};

    ghost Value = { IndefState };

    ghost view = { λ i. new_indef };

    // A `Copy` struct with a model must say how its fields follow from the value.
    ghost inverse = { λ s. record {} };
}

impl Indef {
    /// Returns a follower that writes indefinite lengths. All such followers are equal, since they keep nothing.
    pub fn new() -> Indef
        ensures { result ≡ new_indef }
    {
        Indef
    }
}

impl Follow for Indef {
    ghost use Rattle.std.specs.Prelude.{refl};
    ghost use Rattle.tlv_run.specs.IndefStep.{indef_step};

    ghost next = { indef_step };

    ghost bytes_join = { λ s x y. refl };

    ghost bytes_empty = { λ s. refl };

    ghost bytes_go_on = { λ s x. refl };

    ghost pad_join = { λ s x y. refl };

    ghost pad_empty = { λ s. refl };

    ghost pad_go_on = { λ s x. refl };

    #[inline(always)]
    fn on<D: Drain>(&mut self, event: &Event<'_>, out: &mut Out<'_, D>) -> Result<Go, WriteFault> {
        put_event(event, out)?;
        Ok(Go::On)
    }

    #[inline(always)]
    fn whole<D: Drain>(
        &mut self,
        _header: &Header,
        octets: &[u8],
        out: &mut Out<'_, D>,
    ) -> Result<bool, WriteFault> {
        out.put(octets)?;
        Ok(true)
    }

    #[inline(always)]
    fn open<D: Drain>(
        &mut self,
        fields: &HeaderFields,
        octets: &[u8],
        out: &mut Out<'_, D>,
    ) -> Result<Go, WriteFault> {
        // The octets of `spell_indefinite`, put in two steps, so that no array is filled and copied.
        out.put(&octets[..usize::from(fields.id_len)])?;
        out.put(&[0x80])?;
        Ok(Go::On)
    }
}

/// Puts the octets of an event. The header of a constructed element has the indefinite form, and its end has
/// end-of-contents octets. All other octets are put unchanged.
#[inline(always)]
fn put_event<D: Drain>(event: &Event<'_>, out: &mut Out<'_, D>) -> Result<(), WriteFault>
    ensures { Puts D.state out.old out.new (indef_event_text (event_value_of event.now)) result }
{
    match event {
        Event::Open(header) if header.constructed => out.put(spell_indefinite(header).as_slice()),
        Event::Open(header) | Event::Begin(header) | Event::Enter(header) => out.put(header.raw()),
        Event::Bytes(octets) | Event::Pad(octets) => out.put(octets),
        Event::Unused => out.put(&[0]),
        Event::Close(_) => out.put(&[0, 0]),
        Event::End | Event::Leave => Ok(()),
    }
}
