//! The follower of `extract`: it writes one element, or its contents.
ghost use Rattle.std.specs.Prelude.{◌≡◌};
ghost use Rattle.tlv_walk.specs.Follow.{ReturnsEffect};
ghost use Rattle.tlv_io.specs.Out.{Puts};
ghost use Rattle.tlv_run.specs.ExtractStep.{extract_begin_step_at, extract_contents_step, extract_end_step};
ghost use Rattle.tlv_run.specs.ExtractStep.{has_found, new_extract, extract_octet_step};

use std::marker::Model;
use tlv_head::{Header, HeaderFields};
use tlv_walk::{Drain, Event, Follow, Go, Out, WriteFault};

/// Where the walk is, relative to the wanted element.
#[derive(Clone, Copy)]
enum Position {
    /// The wanted element has not begun.
    Before,
    /// Inside the wanted element, and inside this many of the elements that it holds. The count stops at 255.
    Within(u8),
    /// The wanted element has ended.
    After,
}

/// A follower that writes the octets of one element, or only its contents octets, as they come.
///
/// It has enough when the element ends.
#[derive(Drop)]
pub struct Extract {
    offset: u64,
    contents_only: bool,
    position: Position,
}

impl Model for Extract {
    ghost use Rattle.tlv_run.specs.ExtractStep.{ExtractState};

    ghost Value = { ExtractState };

    ghost view = { λ e. record {
      offset = e.offset;
      contents_only = e.contents_only;
      position = e.position;
    } };
}

impl Extract {
    /// Returns a follower for the element whose first identifier octet is at `offset`, in octets from the start of
    /// the input. With `contents_only` it writes only the contents octets.
    pub fn new(offset: u64, contents_only: bool) -> Extract
        ensures { result ≡ new_extract offset contents_only }
    {
        Extract {
            offset,
            contents_only,
            position: Position::Before,
        }
    }

    /// Returns whether the header of the element is complete.
    pub fn has_found(&self) -> bool
        ensures { result ≡ has_found self.now }
    {
        !matches!(self.position, Position::Before)
    }

    /// Handles the beginning of an element at this offset, with these octets for its header: the wanted element, one
    /// that it holds, or another.
    fn begin<D: Drain>(
        &mut self,
        offset: u64,
        octets: &[u8],
        out: &mut Out<'_, D>,
    ) -> Result<Go, WriteFault>
        ensures { ReturnsEffect D.state (extract_begin_step_at self.old offset octets.now)
            out.old out.new self.new result }
    {
        match self.position {
            Position::Before if offset == self.offset => {
                if !self.contents_only {
                    out.put(octets)?;
                }
                self.position = Position::Within(0);
            }
            Position::Within(count) => {
                out.put(octets)?;
                self.position = Position::Within(count.saturating_add(1));
            }
            _ => {}
        }
        Ok(Go::On)
    }

    /// Handles contents octets.
    fn contents<D: Drain>(&self, octets: &[u8], out: &mut Out<'_, D>) -> Result<Go, WriteFault>
        ensures { ReturnsEffect D.state (extract_contents_step self.now octets.now)
            out.old out.new self.now result }
    {
        self.put_contents(octets, out)?;
        Ok(Go::On)
    }

    /// Puts these contents octets if they are inside the wanted element.
    fn put_contents<D: Drain>(&self, octets: &[u8], out: &mut Out<'_, D>) -> Result<(), WriteFault>
        ensures { Puts D.state out.old out.new
            (extract_contents_step self.now octets.now).put result }
    {
        match self.position {
            Position::Within(_) => out.put(octets),
            _ => Ok(()),
        }
    }

    /// Handles the end of an element, with these end-of-contents octets.
    fn end<D: Drain>(&mut self, octets: &[u8], out: &mut Out<'_, D>) -> Result<Go, WriteFault>
        ensures { ReturnsEffect D.state (extract_end_step self.old octets.now)
            out.old out.new self.new result }
    {
        match self.position {
            Position::Within(0) => {
                if !self.contents_only {
                    out.put(octets)?;
                }
                self.position = Position::After;
                Ok(Go::Enough)
            }
            Position::Within(count) => {
                out.put(octets)?;
                self.position = Position::Within(count - 1);
                Ok(Go::On)
            }
            _ => Ok(Go::On),
        }
    }
}

impl Follow for Extract {
    ghost use Rattle.std.specs.Prelude.{refl};
    ghost use Rattle.tlv_walk.proofs.FollowerLemmas.FollowedEvents.{each_octet-goes_on, each_octet-joins};
    ghost use Rattle.tlv_run.specs.ExtractStep.{extract_step};

    ghost next = { extract_step };

    ghost bytes_join = { each_octet-joins extract_octet_step };

    ghost bytes_empty = { λ s. refl };

    ghost bytes_go_on = { each_octet-goes_on extract_octet_step };

    ghost pad_join = { λ s x y. refl };

    ghost pad_empty = { λ s. refl };

    ghost pad_go_on = { λ s x. refl };

    #[inline(always)]
    fn on<D: Drain>(&mut self, event: &Event<'_>, out: &mut Out<'_, D>) -> Result<Go, WriteFault> {
        match event {
            Event::Open(header) | Event::Begin(header) | Event::Enter(header) => {
                self.begin(header.offset, header.raw(), out)
            }
            Event::Bytes(octets) => self.contents(octets, out),
            Event::Unused => self.contents(&[0], out),
            Event::Close(Some(_)) => self.end(&[0, 0], out),
            Event::Close(None) | Event::End | Event::Leave => self.end(&[], out),
            Event::Pad(_) => Ok(Go::On),
        }
    }

    #[inline(always)]
    fn whole<D: Drain>(
        &mut self,
        header: &Header,
        octets: &[u8],
        out: &mut Out<'_, D>,
    ) -> Result<bool, WriteFault> {
        match self.position {
            // The wanted element goes to `on`, which has enough at its end.
            Position::Before => Ok(header.offset != self.offset),
            Position::Within(count) if count < 255 => {
                out.put(octets)?;
                Ok(true)
            }
            // At 255 the count would not rise before it falls, so this goes to `on` too.
            Position::Within(_) => Ok(false),
            Position::After => Ok(true),
        }
    }

    #[inline(always)]
    fn open<D: Drain>(
        &mut self,
        fields: &HeaderFields,
        octets: &[u8],
        out: &mut Out<'_, D>,
    ) -> Result<Go, WriteFault> {
        self.begin(fields.offset, octets, out)
    }
}
