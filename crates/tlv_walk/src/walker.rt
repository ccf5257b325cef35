//! A machine that takes the octets of an input in pieces, and keeps a frame for each open element
//! that holds others.
ghost use Rattle.tlv_head.specs.Limits.{depth_limit};
ghost use Rattle.std.specs.Prelude.{◌≡◌, ◌≤◌, ◌↔◌, IsTrue, length};

mod contents;
mod ends;
mod headers;
mod short_way;

use crate::cursor::{Cursor, offset_at};
use crate::stack::Stack;
use crate::{Ending, Event, Framing, Step};
pub(crate) use short_way::{HolderEnd, WholePrimitive};
use std::marker::Model;
use tlv_head::{Fault, FaultCode, HeadReader};

/// What the next octet belongs to.
#[derive(Clone, Copy)]
enum Phase {
    /// A new element, or the end of the innermost one.
    Between,
    /// An unfinished header: the walker's reader has its octets.
    InHeader,
    /// A primitive's contents, with this many octets still to come.
    InPrimitive(u64),
    /// A BIT STRING that holds encodings, whose first contents octet is still to come.
    InBitString,
    /// The end of an indefinite element, whose first `00` has come.
    InEndOctets,
    /// Nothing: an octet was refused.
    Refused(Fault),
}

/// Takes the octets of an input in whatever pieces they come, and yields event after event. It
/// holds a frame for each open element that holds others, and no contents.
#[derive(Drop)]
pub struct Walker<'f> {
    phase: Phase,
    stack: Stack,
    /// Used only in an unfinished header. It is large, so it is not part of the phase, which changes with each event.
    reader: HeadReader,
    offset: u64,
    /// Where the offset is among the named offsets.
    cursor: Cursor,
    /// The named offsets.
    inside: &'f [u64],
    /// Whether padding is allowed.
    padding: bool,
    /// Kept apart from the offset: next to it, LLVM would join the two additions into vector code, which is slower.
    events: u64,
    /// Whether any octet of an element came, as opposed to padding alone.
    has_element: bool,
    /// The number of named offsets, from the first on, at which a string that holds encodings was found.
    wrapper_count: usize,
}

impl<'f> Model for Walker<'f> {
    ghost use Rattle.tlv_walk.specs.WalkerState.{IsWalkerState, WalkerState};

    ghost Value = { WalkerState };

    ghost use Rattle.tlv_walk.specs.Private.Cursor.{IsCursorAt};
    ghost use Rattle.tlv_walk.specs.WalkerFields.{walker_state_of};

    ghost view = { walker_state_of };

    ghost invariant = { λ w. IsWalkerState (walker_state_of w) × IsCursorAt w.inside.now w.cursor w.offset };
}

impl<'f> Walker<'f> {
    ghost use Rattle.std.specs.Prelude.{[], false};
    ghost use Rattle.tlv_walk.specs.WalkerState.{Between, Refused, new_walker};
    ghost use Rattle.tlv_walk.specs.Walker.{IfRead, IfRefused, IfStands, IsIdle, IsReady, IsWithinInputLimit};
    ghost use Rattle.tlv_walk.specs.Walker.{RefusesAgain, Stands, StepsTo, depth_of, unused_offset};
    ghost use Rattle.tlv_walk.specs.Ending.{HasEnding, fault_at};
    ghost use Rattle.tlv_walk.specs.Wrappers.{first_without_wrapper};
    ghost use Rattle.tlv_walk.specs.Private.Yields.{Steps};
    ghost use Rattle.tlv_head.specs.Limits.{input_limit};

    /// A walker that has taken nothing. It borrows the framing.
    pub fn new(framing: &'f Framing<'_>) -> Walker<'f>
        ensures state { result ≡ new_walker framing.now }
        ensures stands { Stands result [] [] }
        ensures ready { IsReady result }
    {
        let inside = framing.inside.as_slice();
        Walker {
            phase: Phase::Between,
            stack: Stack::new(),
            reader: HeadReader::new(0, false),
            offset: 0,
            cursor: Cursor::new(inside),
            inside,
            padding: framing.padding,
            events: 0,
            has_element: false,
            wrapper_count: 0,
        }
    }

    /// The number of open elements that hold others: constructed elements, and strings that hold encodings. At most
    /// 128. A filled element counts until its end is yielded.
    pub fn depth(&self) -> u8
        ensures value { result ≡ length self.now.stack }
        ensures within { result ≤ depth_limit }
        ensures open_elements { IsIdle self.now
            → IfRead self.now (λ b f. result ≡ depth_of f) }
    {
        self.stack.len()
    }

    /// The number of octets taken.
    pub fn offset(&self) -> u64
        ensures value { result ≡ self.now.offset }
        ensures within { result ≤ input_limit }
        ensures taken { IfRead self.now (λ b f. result ≡ length b) }
    {
        self.offset
    }

    /// The number of events yielded: at most the number of octets taken.
    pub fn events(&self) -> u64
        ensures value { result ≡ self.now.events }
        ensures within { result ≤ self.now.offset }
    {
        self.events
    }

    /// The first of the named offsets at which no string that holds encodings was found, in octets
    /// from the start of the input.
    pub fn unused(&self) -> Option<u64>
        ensures value { result ≡ unused_offset self.now }
        ensures first { IfRead self.now
            (λ b f. result ≡ first_without_wrapper self.now.framing.inside f) }
    {
        offset_at(self.inside, self.wrapper_count)
    }

    /// Whether an event still waits that needs no further octet.
    pub fn waiting(&self) -> bool
        ensures { (result ≡ false) ↔ IsIdle self.now }
    {
        match &self.phase {
            Phase::InPrimitive(left) => *left == 0,
            Phase::Between => self.stack.is_filled(self.offset),
            _ => false,
        }
    }

    /// The ending of the input, if it ends here; after a fault, that fault. The ending is `Done` if and only if the
    /// input is a sound list of encodings. After a fault, no input that begins with the octets taken and the refused
    /// octet is a sound list, as [`Walker::step`] says (`never_sound`). Requires that no event waits
    /// ([`Walker::waiting`]).
    pub fn finish(&self) -> Ending
        requires { IsIdle self.now }
        ensures ending { IfStands self.now (λ octets yielded. HasEnding self.now.framing octets result) }
        ensures refused { IfRefused self.now (λ fault. result ≡ Ending.Fault fault) }
    {
        if let Phase::Refused(fault) = &self.phase {
            return Ending::Fault(*fault);
        }
        if !self.has_nothing_open() {
            return self.ended_by(FaultCode::Short);
        }
        if self.has_element {
            return Ending::Done;
        }
        self.ended_by(FaultCode::Empty)
    }

    /// Whether nothing is open.
    fn has_nothing_open(&self) -> bool
        ensures { IsTrue result ↔ ((self.now.phase ≡ Between) × (self.now.stack ≡ [])) }
    {
        match &self.phase {
            Phase::Between => self.stack.is_empty(),
            _ => false,
        }
    }

    /// The fault at the end of the input.
    fn ended_by(&self, code: FaultCode) -> Ending
        ensures { result ≡ Ending.Fault (fault_at code self.now.offset) }
    {
        Ending::Fault(Fault {
            code,
            offset: self.offset,
        })
    }

    /// Takes octets from the start of `piece`, up to the next event. Requires the octets taken before and the octets
    /// of the piece to be together at most 2^40.
    ///
    /// Returns `NeedMore` only if it took the whole piece and no event waits. After a fault each step returns the
    /// same fault and takes nothing. A fault is no false alarm: no input that begins with the octets taken and the
    /// refused octet is a sound list of encodings.
    #[inline(never)]
    pub fn step<'a>(&mut self, piece: &mut &'a [u8]) -> Step<'a>
        requires { IsWithinInputLimit self.old piece.old.now }
        ensures { StepsTo self.old self.new piece.old.now piece.new.now result }
    {
        self.next_step(piece)
    }

    /// Takes octets from the start of the piece, up to the next event, according to what they belong to.
    fn next_step<'a>(&mut self, piece: &mut &'a [u8]) -> Step<'a>
        requires { IsWithinInputLimit self.old piece.old.now }
        ensures steps { Steps self.old self.new piece.old.now piece.new.now result }
        ensures again { IfRefused self.old (λ fault. (result ≡ Step.Fault fault)
            × RefusesAgain self.old self.new piece.old.now piece.new.now fault) }
    {
        if let Some(event) = self.contents_event(piece) {
            return Step::Event(event);
        }
        if matches!(self.phase, Phase::Between) {
            if self.stack.is_filled(self.offset) {
                return Step::Event(self.end_filled());
            }
            return self.between(piece);
        }
        if matches!(self.phase, Phase::InBitString) {
            return self.unused_octet(piece);
        }
        if matches!(self.phase, Phase::InEndOctets) {
            return self.second_zero(piece);
        }
        if let Phase::Refused(fault) = &self.phase {
            return Step::Fault(*fault);
        }
        // A primitive or a header is open, and goes on with the next octet.
        if piece.is_empty() {
            return Step::NeedMore;
        }
        self.header(piece)
    }

    /// Refuses the next octet.
    fn refuse<'a>(&mut self, code: FaultCode) -> Step<'a>
        ensures { (result ≡ Step.Fault (fault_at code self.old.offset))
            × (self.new
            ≡ record self.old { phase = Refused (fault_at code self.old.offset) }) }
    {
        let fault = Fault {
            code,
            offset: self.offset,
        };
        self.phase = Phase::Refused(fault);
        Step::Fault(fault)
    }
}
