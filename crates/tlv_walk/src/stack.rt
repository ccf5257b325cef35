//! The open elements that hold other elements.
ghost use Rattle.tlv_head.specs.Limits.{depth_limit};
ghost use Rattle.std.specs.Prelude.{◌≡◌, ◌≢◌, ◌<◌, ◌≤◌, ◌↔◌, ◌∷◌, IfSome, IsTrue, None, [], length};
ghost use Rattle.std.specs.Prelude.{drop, true};
ghost use Rattle.tlv_walk.specs.Stack.{IsInIndefinite, IsInWrapper, bound_of};
ghost use Rattle.tlv_walk.specs.Stack.{IsWithin};
ghost use Rattle.tlv_walk.specs.Private.FrameFields.{no_bound_mark};
ghost use Rattle.tlv_walk.specs.Private.Stack.{IsFilled, frame_inside, innermost_wraps, room_in, room_to};

use crate::frames::Frames;
use std::marker::Model;

/// What holds the elements that come next.
#[derive(Clone, Copy, Default)]
enum FrameKind {
    /// No element: the input itself.
    #[default]
    Input,
    /// A constructed element of a definite length.
    Definite,
    /// A constructed element of the indefinite length.
    Indefinite,
    /// A string that holds encodings. Its length is definite.
    Wrapper,
}

/// The input, or an open element that holds others.
#[derive(Clone, Copy, Default)]
struct Frame {
    /// The end of the innermost definite element, which is this one or the nearest around it; `u64::MAX` if there is
    /// none.
    bound: u64,
    kind: FrameKind,
}

/// The open elements that hold others, at most 128.
///
/// Each event asks about the innermost element, and seldom about another. So its frame is kept separately: reading it
/// costs one load and one comparison.
#[derive(Drop)]
pub(crate) struct Stack {
    /// The innermost open element, or the input if none is open.
    innermost: Frame,
    /// What holds the innermost one, the input last; empty if the innermost one is the input.
    outer: Frames<Frame>,
}

impl Model for Stack {
    ghost use Rattle.std.specs.Prelude.{List};
    ghost use Rattle.tlv_walk.specs.Stack.{FrameValue};

    ghost Value = { List FrameValue };

    ghost use Rattle.tlv_walk.specs.Private.FrameFields.{AreHolders, frames_from};

    ghost view = { λ s. frames_from s.innermost s.outer };

    ghost invariant = { λ s. AreHolders s.innermost s.outer };
}

impl Stack {
    pub fn new() -> Stack
        ensures { result ≡ [] }
    {
        Stack {
            innermost: Frame {
                bound: u64::MAX,
                kind: FrameKind::Input,
            },
            outer: Frames::new(),
        }
    }

    /// The number of open elements that hold others.
    #[inline(always)]
    pub fn len(&self) -> u8
        ensures count { result ≡ length self.now }
        ensures within { result ≤ depth_limit }
    {
        self.outer.len() as u8
    }

    #[inline(always)]
    pub fn is_empty(&self) -> bool
        ensures { IsTrue result ↔ (self.now ≡ []) }
    {
        self.outer.is_empty()
    }

    /// Opens an element inside the innermost one. The arguments say where its contents end, if its length is
    /// definite, and whether it is a string that holds encodings. Such a string has a definite length. `u64::MAX` is
    /// not a valid end: it stands for no bound.
    #[inline(always)]
    pub fn push(&mut self, end: Option<u64>, wrapper: bool)
        requires shallow { length self.old < depth_limit }
        requires end { IfSome end (λ e. e < no_bound_mark) }
        requires definite { wrapper ≡ true → end ≢ None }
        ensures { self.new ≡ frame_inside self.old end wrapper ∷ self.old }
    {
        self.outer.push(self.innermost);
        match end {
            Some(end) => {
                self.innermost.bound = end;
                self.innermost.kind = if wrapper {
                    FrameKind::Wrapper
                } else {
                    FrameKind::Definite
                };
            }
            None => self.innermost.kind = FrameKind::Indefinite,
        }
    }

    /// Closes the innermost element, and returns whether it is a string that holds encodings.
    #[inline(always)]
    pub fn pop(&mut self) -> Option<bool>
        ensures value { result ≡ innermost_wraps self.old }
        ensures rest { self.new ≡ drop 1 self.old }
    {
        let wrapper = self.is_in_wrapper();
        match self.outer.pop() {
            Some(frame) => {
                // Field by field: to assign the whole frame is to write its padding too.
                self.innermost.bound = frame.bound;
                self.innermost.kind = frame.kind;
                Some(wrapper)
            }
            None => None,
        }
    }

    /// Whether the innermost element is definite and its contents end at this offset.
    #[inline(always)]
    pub fn is_filled(&self, offset: u64) -> bool
        ensures { IsTrue result ↔ IsFilled self.now offset }
    {
        self.innermost.bound == offset
            && matches!(
                self.innermost.kind,
                FrameKind::Definite | FrameKind::Wrapper
            )
    }

    /// Whether the innermost element is a string that holds encodings.
    #[inline(always)]
    pub fn is_in_wrapper(&self) -> bool
        ensures { IsTrue result ↔ IsInWrapper self.now }
    {
        matches!(self.innermost.kind, FrameKind::Wrapper)
    }

    /// Whether the innermost element has the indefinite length.
    #[inline(always)]
    pub fn is_in_indefinite(&self) -> bool
        ensures { IsTrue result ↔ IsInIndefinite self.now }
    {
        matches!(self.innermost.kind, FrameKind::Indefinite)
    }

    /// Where the innermost definite element ends.
    #[inline(always)]
    pub fn bound(&self) -> Option<u64>
        ensures { result ≡ bound_of self.now }
    {
        if self.innermost.bound == u64::MAX {
            None
        } else {
            Some(self.innermost.bound)
        }
    }

    /// Whether contents may extend to this offset: the innermost definite element, if any, ends there or later.
    #[inline(always)]
    pub fn is_within(&self, end: u64) -> bool
        ensures { IsTrue result ↔ IsWithin (bound_of self.now) end }
    {
        end <= self.innermost.bound
    }

    /// The number of octets from this offset to the bound.
    pub fn room_in(&self, offset: u64) -> Option<u64>
        requires { IsWithin (bound_of self.now) offset }
        ensures { result ≡ room_in self.now offset }
    {
        room_to(self.bound(), offset)
    }
}

/// The number of octets from an offset to a bound.
pub(crate) fn room_to(bound: Option<u64>, offset: u64) -> Option<u64>
    requires { IsWithin bound offset }
    ensures { result ≡ room_to bound offset }
{
    match bound {
        Some(bound) => Some(bound - offset),
        None => None,
    }
}
