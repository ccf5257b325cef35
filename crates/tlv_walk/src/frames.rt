//! A stack of frames.
ghost use Rattle.tlv_head.specs.Limits.{depth_limit};
ghost use Rattle.std.specs.Prelude.{◌≡◌, ◌<◌, ◌≤◌, ◌↔◌, ◌∷◌, IsTrue, MatchOption, [], length};

use arrayvec::ArrayVec;
use std::marker::Model;

/// A stack of frames, at most 128, in an array. Its value lists the innermost frame first.
#[derive(Drop)]
pub struct Frames<T> {
    outermost_first: ArrayVec<T, 128>,
}

impl<T> Model for Frames<T> {
    ghost use Rattle.std.specs.Prelude.{◌≤◌, List, length, reverse};
    ghost use Rattle.tlv_head.specs.Limits.{depth_limit};

    ghost Value = { List T };

    ghost view = { λ s. reverse s.outermost_first.items };

    ghost invariant = { λ s. length s.outermost_first.items ≤ depth_limit };
}

impl<T: Copy + Default> Frames<T> {
    /// An empty stack.
    pub fn new() -> Frames<T>
        ensures { result ≡ [] }
    {
        Frames {
            outermost_first: ArrayVec::new(),
        }
    }

    /// The number of frames.
    #[inline(always)]
    pub fn len(&self) -> usize
        ensures count { result ≡ length self.now }
        ensures within { result ≤ depth_limit }
    {
        self.outermost_first.len()
    }

    /// Whether the stack is empty.
    #[inline(always)]
    pub fn is_empty(&self) -> bool
        ensures { IsTrue result ↔ (self.now ≡ []) }
    {
        self.outermost_first.is_empty()
    }

    /// Adds a frame inside the innermost one.
    #[inline(always)]
    pub fn push(&mut self, frame: T)
        requires { length self.old < depth_limit }
        ensures { self.new ≡ frame ∷ self.old }
    {
        self.outermost_first.push(frame);
    }

    /// Removes the innermost frame and returns it. If there is none, nothing changes.
    #[inline(always)]
    pub fn pop(&mut self) -> Option<T>
        ensures { MatchOption result
            ((self.old ≡ []) × (self.new ≡ []))
            (λ frame. self.old ≡ frame ∷ self.new) }
    {
        self.outermost_first.pop()
    }
}
