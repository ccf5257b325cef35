//! Where a walk is among the named offsets.
ghost use Rattle.std.specs.Prelude.{◌≡◌, ◌≤◌, false, get_or, slice_get, true};
ghost use Rattle.tlv_head.specs.Limits.{input_limit};
ghost use Rattle.tlv_walk.specs.Inside.{are_rising};
ghost use Rattle.tlv_head.specs.Lists.{is_among};
ghost use Rattle.tlv_walk.specs.Private.Cursor.{IsCursorAt, no_offset_mark};

/// Where a walk is among the named offsets. Both the named offsets and the offsets of headers rise, so over a whole
/// walk a cursor goes over the list once, and most headers cost one comparison.
#[derive(Clone, Copy)]
pub(crate) struct Cursor {
    /// The number of named offsets, from the first on, that are before the walk's offset.
    passed: usize,
    /// The next named offset, or `u64::MAX` if there is none.
    next: u64,
}

impl Cursor {
    /// A cursor before all of these offsets.
    pub fn new(inside: &[u64]) -> Cursor
        ensures { IsCursorAt inside.now result 0 }
    {
        Cursor {
            passed: 0,
            next: next_after(inside, 0),
        }
    }

    /// Whether the walk's current offset is a named one. Each header asks this, and usually no offset is named.
    #[inline(always)]
    pub fn is_at(&mut self, inside: &[u64], offset: u64) -> bool
        requires rising { are_rising 0 inside.now ≡ true }
        requires limit { offset ≤ input_limit }
        requires cursor { IsCursorAt inside.now self.old offset }
        ensures value { result ≡ is_among offset inside.now }
        ensures cursor { IsCursorAt inside.now self.new offset }
    {
        if self.next < offset {
            self.move_to(inside, offset);
        }
        self.next == offset
    }

    /// Whether the walk's current offset may be a named one, without moving the cursor: `false` only if it is not
    /// one. For speed, this first checks whether any offset is named.
    #[inline(always)]
    #[tactic(auto, using(crate::proofs::CursorLemmas::before_next))]
    pub fn may_be_at(&self, inside: &[u64], offset: u64) -> bool
        requires rising { are_rising 0 inside.now ≡ true }
        requires limit { offset ≤ input_limit }
        requires cursor { IsCursorAt inside.now self.now offset }
        ensures { result ≡ false → is_among offset inside.now ≡ false }
    {
        !inside.is_empty() && self.next <= offset
    }

    /// Moves on to the first named offset that is not before this one. A separate function keeps the loop out of the
    /// functions that ask where the cursor is.
    #[inline(never)]
    pub fn move_to(&mut self, inside: &[u64], offset: u64)
        requires { IsCursorAt inside.now self.old offset }
        ensures cursor { IsCursorAt inside.now self.new offset }
        ensures next { offset ≤ self.new.next }
    {
        while self.next < offset {
            self.passed += 1;
            self.next = next_after(inside, self.passed);
        }
    }
}

/// The offset at this index, if there is one.
pub(crate) fn offset_at(inside: &[u64], index: usize) -> Option<u64>
    ensures { result ≡ slice_get inside.now index }
{
    inside.get(index).copied()
}

/// The offset at the index `passed`, or `u64::MAX` if there is none.
fn next_after(inside: &[u64], passed: usize) -> u64
    ensures { result ≡ get_or inside.now passed no_offset_mark }
{
    match inside.get(passed) {
        Some(&offset) => offset,
        None => u64::MAX,
    }
}
