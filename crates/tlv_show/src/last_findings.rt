//! The findings of an event.
ghost use Rattle.std.specs.Prelude.{◌≡◌, []};

use arrayvec::ArrayVec;
use tlv_value::Finding;

/// The findings in an element, in order, with the number of elements that hold it and its offset.
#[derive(Drop)]
pub(crate) struct LastFindings {
    pub level: u8,
    pub offset: u64,
    pub findings: ArrayVec<Finding, 17>,
}

impl LastFindings {
    /// Starts again without findings, for the element at this level and offset.
    #[inline(always)]
    pub fn restart(&mut self, level: u8, offset: u64)
        ensures level { self.new.level ≡ level }
        ensures offset { self.new.offset ≡ offset }
        ensures findings { self.new.findings.items ≡ [] }
    {
        self.level = level;
        self.offset = offset;
        // `clear` would fill the room with blanks, by a call of memset.
        self.findings = ArrayVec::new();
    }
}
