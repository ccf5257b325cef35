//! What is kept of an element that holds others, and of the elements that it holds so far.
ghost use Rattle.std.specs.Prelude.{◌≡◌};
ghost use Rattle.tlv_show.specs.NestingState.{frame_after, frame_of, top_frame};

use crate::headers::{announced_length, has_components, has_segments, is_bit_string, is_external};
use tlv_head::Header;

/// What is kept of an element that holds others, and of the elements that it holds so far.
#[derive(Clone, Copy, Default)]
pub(crate) struct HolderFrame {
    /// The offset of the holder.
    pub offset: u64,
    /// The number of contents octets that its header announces.
    pub announced_length: u64,
    /// The number of octets of the value in the segments so far. It stops at 1001.
    pub value_length: u16,
    /// Whether it is primitive: a string that holds encodings.
    pub is_primitive: bool,
    /// Whether it is a constructed string, which holds segments.
    pub has_segments: bool,
    /// Whether it is constructed, and its type has components.
    pub has_components: bool,
    /// Whether it is a constructed BIT STRING.
    pub is_bit_string: bool,
    /// Whether it is an EXTERNAL.
    pub is_external: bool,
    /// Whether its type has components, and it holds none so far.
    pub lacks_components: bool,
    /// Whether the last segment so far has unused bits.
    pub last_has_unused_bits: bool,
    /// Whether the last segment so far is not a primitive of 1000 contents octets.
    pub last_is_not_full: bool,
    /// Whether all elements that it holds so far are primitive.
    pub all_primitive: bool,
    /// Whether the last element that it holds is a primitive without contents octets.
    pub ends_empty: bool,
}

/// The frame of the top.
pub(crate) fn top_frame() -> HolderFrame
    ensures { result ≡ top_frame }
{
    HolderFrame {
        all_primitive: true,
        ..HolderFrame::default()
    }
}

/// The frame of an element before anything inside it.
#[inline(always)]
pub(crate) fn frame_of(header: &Header) -> HolderFrame
    ensures { result ≡ frame_of header.now }
{
    let has_segments = has_segments(header);
    let has_components = has_components(header);
    HolderFrame {
        offset: header.offset,
        announced_length: announced_length(header),
        is_primitive: !header.constructed,
        has_segments,
        is_bit_string: has_segments && is_bit_string(header),
        has_components,
        is_external: is_external(header),
        lacks_components: has_components,
        all_primitive: true,
        ..HolderFrame::default()
    }
}

/// Updates a frame after one more element: whether this is primitive, how many contents octets it announces, and
/// whether it has unused bits. Outside of strings nothing is kept of the element.
#[inline(always)]
pub(crate) fn set_frame_after(
    frame: &mut HolderFrame,
    is_primitive: bool,
    announced_length: u64,
    has_unused_bits: bool,
)
    ensures { frame.new ≡ frame_after frame.old is_primitive announced_length has_unused_bits }
{
    if !frame.has_segments {
        return;
    }
    let length = announced_length.saturating_sub(u64::from(frame.is_bit_string));
    frame.last_has_unused_bits = has_unused_bits;
    frame.last_is_not_full = !(is_primitive && announced_length == 1000);
    frame.all_primitive = frame.all_primitive && is_primitive;
    frame.value_length = u64::from(frame.value_length)
        .saturating_add(length)
        .min(1001) as u16;
    frame.ends_empty = is_primitive && announced_length == 0;
}

/// A frame, and its floor: the number of elements that hold what is directly in its element.
#[derive(Clone, Copy, Default)]
pub(crate) struct KeptFrame {
    pub frame: HolderFrame,
    pub floor: u8,
}
