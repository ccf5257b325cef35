//! What is kept of an open SET, so that elements out of order are found.
ghost use Rattle.std.specs.Prelude.{◌≡◌};
ghost use Rattle.tlv_head.specs.Header.{class_bits};
ghost use Rattle.tlv_walk.specs.Forest.{lead};
ghost use Rattle.tlv_show.specs.SetOrder.{do_octets_decide, is_set};
ghost use Rattle.tlv_show.specs.SetOrderState.{frame_after_octets, frame_begun, frame_ended, has_all_compared, new_set_frame};
ghost use Rattle.tlv_show.specs.SetOrderState.{is_last_out_of_order, outermost_frame};

use crate::Rules;
use crate::headers::is_universal;
use tlv_head::{Class, Header, universal};

/// The number of octets of each element that are compared.
pub(crate) const COMPARED: usize = 64;

/// What is kept of an open SET: its present element, or the last one, and the neighbour of this.
#[derive(Clone, Copy)]
pub(crate) struct SetFrame {
    /// The first octets of the present element, and then those of its neighbour with which the next ones are compared.
    pub octets: [u8; COMPARED],
    /// The offset of the present element.
    pub offset: u64,
    /// The number of its tag.
    pub number: u64,
    /// The class of its tag.
    pub class: Class,
    /// How many octets of it have come; it stops at 64.
    pub count: u8,
    /// How many elements are open inside of this SET, but not inside of a SET that it holds.
    pub open_count: u8,
    /// Whether the present element is out of order if its octets are before those of its neighbour.
    pub octets_decide: bool,
    /// Whether an octet of it so far is another one than that of its neighbour.
    pub differs: bool,
    /// Whether the first such octet is smaller than that of its neighbour.
    pub is_smaller: bool,
}

/// Only for filling arrays: all octets of it are zero, so that the compiler clears an array of frames at once.
impl Default for SetFrame {
    fn default() -> SetFrame {
        SetFrame {
            octets: [0; COMPARED],
            offset: 0,
            number: 0,
            class: Class::Universal,
            count: 0,
            open_count: 0,
            octets_decide: false,
            differs: false,
            is_smaller: false,
        }
    }
}

/// The frame of a SET before its first element.
#[tactic(auto, unfolding(crate::specs::SetOrder::zeros))]
pub(crate) fn new_set_frame() -> SetFrame
    ensures { result ≡ new_set_frame }
{
    SetFrame {
        octets: [0; COMPARED],
        offset: 0,
        number: 0,
        class: Class::Universal,
        count: 64,
        open_count: 0,
        octets_decide: false,
        differs: false,
        is_smaller: false,
    }
}

/// The frame of the outside of all SETs.
pub(crate) fn outermost_frame() -> SetFrame
    ensures { result ≡ outermost_frame }
{
    SetFrame {
        open_count: 1,
        ..new_set_frame()
    }
}

/// Whether the element is a SET or a SET OF.
#[inline(always)]
pub(crate) fn is_set(header: &Header) -> bool
    ensures { result ≡ is_set header.now }
{
    header.constructed && is_universal(header) && header.number == universal::SET
}

/// The contents octets before the elements in an element that holds others: those of a BIT STRING begin with 00.
#[inline(always)]
pub(crate) fn lead_of(header: &Header) -> &'static [u8]
    ensures { result.now ≡ lead header.now }
{
    if !header.constructed && header.number == universal::BIT_STRING {
        b"\0"
    } else {
        b""
    }
}

/// The place of a class in the order of tags (X.680 8.6).
#[inline(always)]
fn class_rank(class: Class) -> u8
    ensures { result ≡ class_bits class }
{
    match class {
        Class::Universal => 0,
        Class::Application => 1,
        Class::Context => 2,
        Class::Private => 3,
    }
}

/// Whether octets decide about two neighbours in a SET, by the tag of the later one and that of the other.
fn do_octets_decide(
    rules: Rules,
    class: Class,
    number: u64,
    other_class: Class,
    other_number: u64,
) -> bool
    ensures { result ≡ do_octets_decide rules class number other_class other_number }
{
    let rank = class_rank(class);
    let other_rank = class_rank(other_class);
    match rules {
        Rules::Ber | Rules::Der => !(other_rank < rank
            || (rank == other_rank && other_number < number)),
        Rules::Cer => rank == other_rank && number == other_number,
    }
}

/// Whether the frame needs no more octets.
#[inline(always)]
pub(crate) fn has_all_compared(frame: &SetFrame) -> bool
    ensures { result ≡ has_all_compared frame.now }
{
    frame.count == 64
}

/// An element begins directly in the SET.
#[inline(always)]
pub(crate) fn begin_in(frame: &mut SetFrame, rules: Rules, header: &Header)
    ensures { frame.new ≡ frame_begun rules frame.old header.now }
{
    frame.octets_decide = do_octets_decide(
        rules,
        header.class,
        header.number,
        frame.class,
        frame.number,
    );
    frame.offset = header.offset;
    frame.number = header.number;
    frame.class = header.class;
    frame.count = 0;
    frame.differs = false;
    frame.is_smaller = false;
}

/// Octets of the present element.
#[tactic(auto, using(crate::proofs::SetOrderLemmas::Compared::past_stays))]
#[inline(always)]
pub(crate) fn add_octets(frame: &mut SetFrame, octets: &[u8])
    ensures { frame.new ≡ frame_after_octets frame.old octets.now }
{
    if frame.count < 64 {
        compare_octets(frame, octets);
    }
}

/// Octets of the present element: each is compared with its neighbour's, and takes its place.
#[inline(never)]
fn compare_octets(frame: &mut SetFrame, octets: &[u8])
    ensures { frame.new ≡ frame_after_octets frame.old octets.now }
{
    for octet in octets {
        let at = usize::from(frame.count);
        if at >= COMPARED {
            return;
        }
        let other = frame.octets[at];
        frame.is_smaller = frame.is_smaller || (!frame.differs && *octet < other);
        frame.differs = frame.differs || *octet != other;
        frame.octets[at] = *octet;
        frame.count += 1;
    }
}

/// The present element ends: it is filled up with octets 00.
#[tactic(auto, unfolding(crate::specs::SetOrder::zeros))]
pub(crate) fn end_in(frame: &mut SetFrame)
    ensures { frame.new ≡ frame_ended frame.old }
{
    add_octets(frame, &[0; COMPARED]);
}

/// Whether the element that has just ended is directly in the SET and out of order.
#[inline(always)]
pub(crate) fn is_last_out_of_order(frame: &SetFrame) -> bool
    ensures { result ≡ is_last_out_of_order frame.now }
{
    frame.open_count == 0 && frame.octets_decide && frame.is_smaller
}
