//! The frames of the open elements about which something must be known.
ghost use Rattle.std.specs.Prelude.{◌≡◌, false, true};
ghost use Rattle.tlv_show.specs.NestingState.{depth_in, has_frame, nesting_close_step, nesting_open_step};
ghost use Rattle.tlv_show.specs.NestingState.{nesting_primitive_step, new_nesting, surroundings_in};
ghost use Rattle.tlv_show.specs.Private.Nesting.{TakesBack, closed_frame, nesting_with_element};

use crate::headers::{has_components, has_segments};
use crate::holder_frame::{HolderFrame, KeptFrame, frame_of, set_frame_after, top_frame};
use std::marker::Model;
use tlv_head::Header;
use tlv_walk::Frames;

/// The frames of the open elements that hold others; at most 128 are kept. An element that is neither a string nor of a
/// type with components, and is not in one, is only counted: such elements are many, and a frame is long.
#[derive(Drop)]
pub(crate) struct Nesting {
    /// The number of open elements that hold others.
    depth: u8,
    /// The number of elements that hold what is directly in the element of `frame`: its floor. The `depth - floor`
    /// elements that are open inside of that element have no frame.
    floor: u8,
    /// The innermost frame that is kept, or the frame of the top.
    frame: HolderFrame,
    /// The frames outside of it that are kept. No padding is before them: with it, the compiler would clear their room
    /// elsewhere and copy it.
    outer: Frames<KeptFrame>,
}

impl Model for Nesting {
    ghost use Rattle.std.specs.Prelude.{◌≤◌, ◌-◌};
    ghost use Rattle.tlv_head.specs.Limits.{depth_limit};
    ghost use Rattle.tlv_show.specs.NestingState.{NestingState};
    ghost use Rattle.tlv_show.specs.Private.Nesting.{HaveRisingFloors, SaysTheSame, all_frames};
    ghost use Rattle.tlv_show.specs.Private.Nesting.{innermost_frame, outer_frames};

    ghost Value = { NestingState };

    ghost view = { λ n. record {
      frame = innermost_frame n.frame (n.depth - n.floor);
      outer = outer_frames n.frame (n.depth - n.floor) (all_frames n.floor n.outer);
    } };

    ghost invariant = { λ n. record {
      shallow : n.depth ≤ depth_limit;
      within : n.floor ≤ n.depth;
      innermost : SaysTheSame n.frame (n.depth - n.floor);
      rising : HaveRisingFloors n.floor n.outer;
    } };
}

impl Nesting {
    /// At the top, where no element is open.
    pub fn new() -> Nesting
        ensures { result ≡ new_nesting }
    {
        Nesting {
            depth: 0,
            floor: 0,
            frame: top_frame(),
            outer: Frames::new(),
        }
    }

    /// The number of open elements that hold others.
    #[tactic(auto, using(crate::proofs::FindingLemmas::KeptFrames::one_each))]
    #[inline(always)]
    pub fn depth(&self) -> u8
        ensures { result ≡ depth_in self.now }
    {
        self.depth
    }

    /// A frame that gives a header the same surroundings as the innermost frame does.
    #[inline(always)]
    pub fn frame(&self) -> &HolderFrame
        ensures segments { result.now.has_segments ≡ self.now.frame.has_segments }
        ensures components { result.now.has_components ≡ self.now.frame.has_components }
        ensures around { surroundings_in result.now ≡ surroundings_in self.now.frame }
    {
        &self.frame
    }

    /// An element that holds others begins.
    #[tactic(auto, using(crate::proofs::FindingLemmas::KeptFrames::one_each))]
    #[inline(always)]
    pub fn open(&mut self, header: &Header)
        ensures { self.new ≡ nesting_open_step self.old header.now }
    {
        if !has_frame(&self.frame, header) {
            return self.open_without_frame(header);
        }
        if self.depth == 128 {
            return;
        }
        self.depth += 1;
        self.frame.lacks_components = false;
        self.outer.push(KeptFrame {
            frame: self.frame,
            floor: self.floor,
        });
        self.frame = frame_of(header);
        self.floor = self.depth;
    }

    /// An element that holds others begins. It is neither a string nor of a type with components, and is not in one.
    #[tactic(auto, using(crate::proofs::FindingLemmas::KeptFrames::one_each))]
    #[inline(always)]
    pub fn open_without_frame(&mut self, header: &Header)
        requires { has_frame self.old.frame header.now ≡ false }
        ensures { self.new ≡ nesting_open_step self.old header.now }
    {
        if self.depth < 128 {
            self.depth += 1;
            self.frame.lacks_components = false;
        }
    }

    /// An element begins in the innermost one.
    #[inline(always)]
    pub fn note_element(&mut self)
        ensures { self.new ≡ nesting_with_element self.old }
    {
        self.frame.lacks_components = false;
    }

    /// A primitive ends: how many contents octets it announces, and whether it has unused bits.
    #[inline(always)]
    pub fn primitive(&mut self, announced_length: u64, has_unused_bits: bool)
        ensures { self.new ≡ nesting_primitive_step self.old announced_length has_unused_bits }
    {
        self.frame.lacks_components = false;
        set_frame_after(&mut self.frame, true, announced_length, has_unused_bits);
    }

    /// An element that holds others ends. Returns its frame, if it held segments or lacks components.
    #[inline(always)]
    pub fn close(&mut self) -> Option<HolderFrame>
        ensures state { self.new ≡ nesting_close_step self.old }
        ensures closed { result ≡ closed_frame self.old }
    {
        if self.depth > self.floor {
            // It has no frame.
            self.depth -= 1;
            return None;
        }
        if self.depth == 0 {
            return None;
        }
        self.depth -= 1;
        let closed = self.frame;
        take_back(&mut self.frame, &mut self.floor, &mut self.outer);
        if closed.has_segments || closed.lacks_components {
            Some(closed)
        } else {
            None
        }
    }
}

/// Whether an element needs a frame of its own, inside the element with this frame.
#[inline(always)]
fn has_frame(frame: &HolderFrame, header: &Header) -> bool
    ensures { result ≡ has_frame frame.now header.now }
{
    (frame.has_segments | frame.has_components) || has_segments(header) || has_components(header)
}

/// An element that has a frame ends: the frame around it is the innermost one again, and keeps what
/// must be known of the element.
#[inline(never)]
fn take_back(frame: &mut HolderFrame, floor: &mut u8, outer: &mut Frames<KeptFrame>)
    ensures { TakesBack frame.old outer.old frame.new floor.new outer.new }
{
    if let Some(kept) = outer.pop() {
        let closed = *frame;
        *frame = kept.frame;
        *floor = kept.floor;
        set_frame_after(frame, closed.is_primitive, closed.announced_length, false);
    }
}
