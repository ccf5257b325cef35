//! What is kept of an open string, so that wrong characters of its segments are found.
ghost use Rattle.std.specs.Prelude.{◌≡◌};
ghost use Rattle.tlv_show.specs.Private.SegmentCharacters.{is_done};
ghost use Rattle.tlv_show.specs.SegmentCharacters.{is_tested_string};
ghost use Rattle.tlv_show.specs.SegmentCharactersState.{new_segment_frame, segment_after_octets, segment_begun};
ghost use Rattle.tlv_show.specs.SegmentCharactersState.{segment_closed, segment_ended, segment_entered};

use crate::headers::is_universal;
use tlv_head::{Header, universal};
use tlv_value::are_allowed;

/// What is kept of an open constructed NumericString, PrintableString, IA5String or VisibleString.
#[derive(Clone, Copy, Default)]
pub(crate) struct SegmentFrame {
    /// The offset of the string.
    pub offset: u64,
    /// The number of its type.
    pub number: u64,
    /// How many elements that hold others are open inside of it, but not inside of such a string that it holds.
    pub open_count: u8,
    /// Whether the octets that come are contents octets of a primitive segment.
    pub in_contents: bool,
    /// Whether a primitive segment has an octet that the type does not allow.
    pub has_wrong: bool,
}

/// Whether the element is a constructed string whose octets are looked at one by one.
#[inline(always)]
pub(crate) fn is_tested_string(header: &Header) -> bool
    ensures { result ≡ is_tested_string header.now }
{
    header.constructed
        && is_universal(header)
        && matches!(
            header.number,
            universal::NUMERIC_STRING
                | universal::PRINTABLE_STRING
                | universal::IA5_STRING
                | universal::VISIBLE_STRING
        )
}

/// The frame of a string before its first segment.
#[inline(always)]
pub(crate) fn new_segment_frame(header: &Header) -> SegmentFrame
    ensures { result ≡ new_segment_frame header.now }
{
    SegmentFrame {
        offset: header.offset,
        number: header.number,
        open_count: 0,
        in_contents: false,
        has_wrong: false,
    }
}

/// Whether no octets are looked at for the string.
#[inline(always)]
pub(crate) fn is_done(frame: &SegmentFrame) -> bool
    ensures { result ≡ is_done frame.now }
{
    !frame.in_contents || frame.has_wrong
}

/// Octets of the input.
#[inline]
pub(crate) fn look_at(frame: &mut SegmentFrame, octets: &[u8])
    ensures { frame.new ≡ segment_after_octets frame.old octets.now }
{
    if frame.in_contents && !frame.has_wrong {
        frame.has_wrong = !are_allowed(frame.number, octets);
    }
}

/// After the header of an element, its contents octets come.
#[inline(always)]
pub(crate) fn begin_in(frame: &mut SegmentFrame, header: &Header)
    ensures { frame.new ≡ segment_begun frame.old header.now }
{
    if frame.open_count == 0 {
        frame.in_contents = !header.constructed;
    }
}

/// One more element that holds others is open in the string.
#[inline]
pub(crate) fn enter_in(frame: &mut SegmentFrame)
    ensures { frame.new ≡ segment_entered frame.old }
{
    frame.open_count = frame.open_count.saturating_add(1);
}

/// An element ends.
#[inline]
pub(crate) fn end_in(frame: &mut SegmentFrame)
    ensures { frame.new ≡ segment_ended frame.old }
{
    if frame.open_count == 0 {
        frame.in_contents = false;
    }
}

/// An element that holds others ends.
#[inline]
pub(crate) fn close_in(frame: &mut SegmentFrame)
    ensures { frame.new ≡ segment_closed frame.old }
{
    frame.open_count = frame.open_count.saturating_sub(1);
    end_in(frame);
}
