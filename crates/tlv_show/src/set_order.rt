//! Elements of a SET that are out of order, event by event.
ghost use Rattle.std.specs.Prelude.{◌≡◌, true};
ghost use Rattle.tlv_head.specs.Header.{octets_of};
ghost use Rattle.tlv_show.specs.Private.SetOrder.{NeedNoOctets, IsUnchangedByPrimitives, frames_after_octets_from};
ghost use Rattle.tlv_show.specs.SetOrderState.{frames_after_octets};
ghost use Rattle.tlv_show.specs.SetOrderState.{is_last_out_of_order, new_set_order, set_order_begin_step};
ghost use Rattle.tlv_show.specs.SetOrderState.{set_order_close_step, set_order_end_step, set_order_entered};
ghost use Rattle.tlv_show.specs.SetOrderState.{set_order_left, set_order_octets_step, set_order_open_step};

use crate::Rules;
use crate::set_frame::{
    SetFrame, add_octets, begin_in, end_in, has_all_compared, is_last_out_of_order, is_set,
    lead_of, new_set_frame, outermost_frame,
};
use arrayvec::ArrayVec;
use std::marker::Model;
use tlv_head::Header;

/// What is kept of the open SETs. An octet of the input counts for each SET around it, while no more than 64 octets of
/// the element that is directly in this SET have come.
#[derive(Drop)]
pub(crate) struct SetOrder<const KEPT: usize> {
    /// The frame of the innermost open SET, or of the outside of all SETs.
    frame: SetFrame,
    /// The frames outside of it, outermost first.
    outer: ArrayVec<SetFrame, KEPT>,
    /// The number of these, from the outermost on, that need no more octets. When a frame needs no more, this is so of
    /// the frames outside of it too: their elements have begun before.
    full: usize,
}

impl<const KEPT: usize> Model for SetOrder<KEPT> {
    ghost use Rattle.std.specs.Prelude.{reverse};
    ghost use Rattle.tlv_show.specs.Private.SetOrder.{NeedNoOctets};
    ghost use Rattle.tlv_show.specs.SetOrderState.{SetOrderState};

    ghost Value = { SetOrderState };

    ghost view = { λ s. record { frame = s.frame; outer = reverse s.outer.items } };

    ghost invariant = { λ s. NeedNoOctets s.full s.outer.items };
}

impl<const KEPT: usize> SetOrder<KEPT> {
    /// Before the first event.
    pub fn new() -> SetOrder<KEPT>
        ensures { result ≡ new_set_order }
    {
        SetOrder {
            frame: outermost_frame(),
            outer: ArrayVec::new(),
            full: 0,
        }
    }

    /// The offset of the element that has just ended, if it is directly in a SET.
    #[inline(always)]
    pub fn offset(&self) -> u64
        ensures { result ≡ self.now.frame.offset }
    {
        self.frame.offset
    }

    /// Whether primitives that are whole change nothing.
    #[inline(always)]
    pub fn passes_primitives(&self) -> bool
        ensures { result ≡ true → IsUnchangedByPrimitives self.now }
    {
        if self.frame.open_count == 0 || !has_all_compared(&self.frame) {
            return false;
        }
        self.full == self.outer.len()
    }

    /// A primitive begins, with a header of these octets.
    #[inline(always)]
    pub fn begin(&mut self, rules: Rules, header: &Header, raw: &[u8])
        requires { raw.now ≡ octets_of header.now }
        ensures { self.new ≡ set_order_begin_step rules self.old header.now }
    {
        if self.frame.open_count == 0 {
            begin_in(&mut self.frame, rules, header);
        }
        self.octets(raw);
    }

    /// An element that holds others begins. Of a BIT STRING that holds encodings, the first contents octet is taken too.
    #[inline(always)]
    pub fn open(&mut self, rules: Rules, header: &Header, octets: &[u8])
        requires kept { KEPT ≡ 128 }
        requires octets { octets.now ≡ octets_of header.now }
        ensures { self.new ≡ set_order_open_step rules self.old header.now }
    {
        self.begin(rules, header, octets);
        self.octets(lead_of(header));
        self.enter(header);
    }

    /// The elements that come next are in the element with this header.
    #[inline(always)]
    fn enter(&mut self, header: &Header)
        requires { KEPT ≡ 128 }
        ensures { self.new ≡ set_order_entered self.old header.now }
    {
        self.frame.open_count = self.frame.open_count.saturating_add(1);
        if is_set(header) && self.outer.len() < KEPT {
            self.outer.push(self.frame);
            self.frame = new_set_frame();
        }
    }

    /// Octets of the open elements, after their headers.
    #[tactic(auto, using(crate::proofs::SetOrderLemmas::KeptFrames::reverse_after))]
    #[inline(never)]
    pub fn octets(&mut self, octets: &[u8])
        ensures { self.new ≡ set_order_octets_step self.old octets.now }
    {
        add_octets(&mut self.frame, octets);
        self.full = add_octets_outside(&mut self.outer, self.full, octets);
    }

    /// An element ends. Returns whether it is in a SET and out of order.
    #[inline]
    pub fn end(&mut self) -> bool
        ensures state { self.new ≡ set_order_end_step self.old }
        ensures found { result ≡ is_last_out_of_order self.new.frame }
    {
        if self.frame.open_count == 0 {
            end_in(&mut self.frame);
        }
        is_last_out_of_order(&self.frame)
    }

    /// An element that holds others ends with these end-of-contents octets, if any. Returns whether it is in a SET and
    /// out of order.
    #[inline]
    pub fn close(&mut self, octets: &[u8]) -> bool
        ensures state { self.new ≡ set_order_close_step self.old octets.now }
        ensures found { result ≡ is_last_out_of_order self.new.frame }
    {
        self.leave();
        self.octets(octets);
        self.frame.open_count = self.frame.open_count.saturating_sub(1);
        self.end()
    }

    /// If the innermost SET ends, goes on in what holds it.
    #[inline]
    fn leave(&mut self)
        ensures { self.new ≡ set_order_left self.old }
    {
        if self.frame.open_count != 0 {
            return;
        }
        if let Some(frame) = self.outer.pop() {
            self.frame = frame;
            self.full = self.full.min(self.outer.len());
        }
    }
}

/// Octets of the elements in these frames, of which the first ones need no more, as many as `full`. Returns for how many
/// this is known afterwards.
#[inline(always)]
fn add_octets_outside<const KEPT: usize>(
    outer: &mut ArrayVec<SetFrame, KEPT>,
    full: usize,
    octets: &[u8],
) -> usize
    requires { NeedNoOctets full outer.old.items }
    ensures frames { outer.new.items ≡ frames_after_octets octets.now outer.old.items }
    ensures full { NeedNoOctets result outer.new.items }
{
    if full >= outer.len() {
        return full;
    }
    add_octets_from(outer, full, octets);
    if has_all_compared(&outer[full]) {
        full + 1
    } else {
        full
    }
}

/// Octets of the elements in the frames from the index `first` on.
#[inline(never)]
fn add_octets_from<const KEPT: usize>(
    outer: &mut ArrayVec<SetFrame, KEPT>,
    first: usize,
    octets: &[u8],
)
    ensures { outer.new.items ≡ frames_after_octets_from first octets.now outer.old.items }
{
    for i in first..outer.len() {
        add_octets(&mut outer[i], octets);
    }
}
