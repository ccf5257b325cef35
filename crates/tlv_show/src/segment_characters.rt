//! Strings whose segments have characters that are not of their type, event by event.
ghost use Rattle.std.specs.Prelude.{◌≡◌, ◌<◌, [], ◌∷◌, length, true};
ghost use Rattle.tlv_head.specs.Header.{octets_of};
ghost use Rattle.tlv_show.specs.Private.SegmentCharacters.{AreDone, StayAtPrimitives, segments_after_octets_from};
ghost use Rattle.tlv_show.specs.SegmentCharactersState.{at_innermost, closing_string, new_segment_frame, segment_ended};
ghost use Rattle.tlv_show.specs.SegmentCharactersState.{segments_after_octets};
ghost use Rattle.tlv_show.specs.SegmentCharactersState.{segments_begun, segments_closed, segments_entered};
ghost use Rattle.tlv_show.specs.SegmentCharactersState.{segments_left, segments_opened};

use crate::segment_frame::{
    SegmentFrame, begin_in, close_in, end_in, enter_in, is_done, is_tested_string, look_at,
    new_segment_frame,
};
use crate::set_frame::lead_of;
use arrayvec::ArrayVec;
use std::marker::Model;
use tlv_head::Header;

/// What is kept of the open strings whose octets are looked at one by one.
#[derive(Drop)]
pub(crate) struct SegmentCharacters {
    /// Whether such a string is open.
    is_open: bool,
    /// The frame of the innermost one.
    frame: SegmentFrame,
    /// The frames outside of it, outermost first.
    outer: ArrayVec<SegmentFrame, 128>,
    /// The number of these, from the outermost on, for which no octets are looked at while there are others inside.
    done: usize,
}

impl Model for SegmentCharacters {
    ghost use Rattle.std.specs.Prelude.{◌≡◌, List, [], false};
    ghost use Rattle.tlv_show.specs.declared.segment_frame.SegmentFrame.{SegmentFrame};
    ghost use Rattle.tlv_show.specs.Private.SegmentCharacters.{AreDone, kept_frames};

    ghost Value = { List SegmentFrame };

    ghost view = { λ s. kept_frames s.is_open s.frame s.outer.items };

    ghost invariant = { λ s. record {
      done : AreDone s.done s.outer.items;
      none : s.is_open ≡ false → s.outer.items ≡ [];
    } };
}

impl SegmentCharacters {
    /// Before the first event.
    pub fn new() -> SegmentCharacters
        ensures { result ≡ [] }
    {
        SegmentCharacters {
            is_open: false,
            frame: SegmentFrame::default(),
            outer: ArrayVec::new(),
            done: 0,
        }
    }

    /// Whether primitives that are whole change nothing.
    #[inline(always)]
    pub fn passes_primitives(&self) -> bool
        ensures { result ≡ true → StayAtPrimitives self.now }
    {
        !self.is_open
    }

    /// A primitive begins, with a header of these octets.
    #[inline(always)]
    pub fn begin(&mut self, header: &Header, raw: &[u8])
        requires { raw.now ≡ octets_of header.now }
        ensures { self.new ≡ segments_begun self.old header.now }
    {
        self.octets(raw);
        if self.is_open {
            begin_in(&mut self.frame, header);
        }
    }

    /// A primitive ends.
    #[inline]
    pub fn end(&mut self)
        ensures { self.new ≡ at_innermost segment_ended self.old }
    {
        if self.is_open {
            end_in(&mut self.frame);
        }
    }

    /// An element that holds others begins. Of a BIT STRING that holds encodings, the first contents octet is taken
    /// too.
    #[inline(always)]
    pub fn open(&mut self, header: &Header, octets: &[u8])
        requires { octets.now ≡ octets_of header.now }
        ensures { self.new ≡ segments_opened self.old header.now }
    {
        self.begin(header, octets);
        self.octets(lead_of(header));
        self.enter(header);
    }

    /// The elements that come next are in the element with this header.
    #[inline(always)]
    fn enter(&mut self, header: &Header)
        ensures { self.new ≡ segments_entered self.old header.now }
    {
        if self.is_open {
            enter_in(&mut self.frame);
        }
        if is_tested_string(header) && self.count() < 128 {
            self.push(header);
        }
    }

    /// The number of frames.
    #[inline]
    fn count(&self) -> usize
        ensures { result ≡ length self.now }
    {
        if self.is_open {
            self.outer.len() + 1
        } else {
            0
        }
    }

    /// A string begins in which octets are looked at.
    #[inline(always)]
    fn push(&mut self, header: &Header)
        requires { length self.old < 128 }
        ensures { self.new ≡ new_segment_frame header.now ∷ self.old }
    {
        if self.is_open {
            self.outer.push(self.frame);
        }
        self.frame = new_segment_frame(header);
        self.is_open = true;
    }

    /// Octets of the input.
    #[inline(never)]
    pub fn octets(&mut self, octets: &[u8])
        ensures { self.new ≡ segments_after_octets octets.now self.old }
    {
        if self.is_open {
            look_at(&mut self.frame, octets);
            self.done = look_outside(&mut self.outer, self.done, octets);
        }
    }

    /// An element that holds others ends with these end-of-contents octets, if any. Returns the offset of the string
    /// that ends, if one of its segments has a wrong octet.
    #[inline]
    pub fn close(&mut self, octets: &[u8]) -> Option<u64>
        ensures state { self.new ≡ segments_closed self.old octets.now }
        ensures found { result ≡ closing_string self.old }
    {
        let found = self.closing();
        self.leave();
        self.octets(octets);
        if self.is_open {
            close_in(&mut self.frame);
        }
        found
    }

    /// The offset of the string that ends, if one of its segments has a wrong octet.
    #[inline(always)]
    fn closing(&self) -> Option<u64>
        ensures { result ≡ closing_string self.now }
    {
        if self.is_open && self.frame.open_count == 0 && self.frame.has_wrong {
            Some(self.frame.offset)
        } else {
            None
        }
    }

    /// If the innermost string ends, goes on in the one around it.
    #[inline]
    fn leave(&mut self)
        ensures { self.new ≡ segments_left self.old }
    {
        if !self.is_open || self.frame.open_count != 0 {
            return;
        }
        if let Some(frame) = self.outer.pop() {
            self.frame = frame;
            self.done = self.done.min(self.outer.len());
        } else {
            self.is_open = false;
        }
    }
}

/// Octets of the input for these frames, of which the first ones look at none, as many as `done`. Returns for how many
/// this is known afterwards.
#[inline(always)]
fn look_outside(outer: &mut ArrayVec<SegmentFrame, 128>, done: usize, octets: &[u8]) -> usize
    requires { AreDone done outer.old.items }
    ensures frames { outer.new.items ≡ segments_after_octets octets.now outer.old.items }
    ensures done { AreDone result outer.new.items }
{
    if done >= outer.len() {
        return done;
    }
    look_from(outer, done, octets);
    if is_done(&outer[done]) {
        done + 1
    } else {
        done
    }
}

/// Octets of the input for the frames from the index `first` on.
#[inline(never)]
fn look_from(outer: &mut ArrayVec<SegmentFrame, 128>, first: usize, octets: &[u8])
    ensures { outer.new.items ≡ segments_after_octets_from first octets.now outer.old.items }
{
    for i in first..outer.len() {
        look_at(&mut outer[i], octets);
    }
}
