//! How a walker takes what is between elements, and the ends of elements that hold others.
ghost use Rattle.std.specs.Prelude.{◌≡◌};
ghost use Rattle.tlv_walk.specs.WalkerState.{Between, InEndOctets};
ghost use Rattle.tlv_walk.specs.Walker.{IsWithinInputLimit};
ghost use Rattle.tlv_walk.specs.Private.Stack.{IsFilled};
ghost use Rattle.tlv_walk.specs.Private.WalkerCalls.{end_event_if_taken};
ghost use Rattle.tlv_walk.specs.Private.Yields.{EndsElement, Steps, StepsAtOnce};

use super::{HolderEnd, Phase, Walker};
use crate::{Event, Step};
use tlv_head::FaultCode;

impl Walker<'_> {
    /// Takes what is between two elements, or begins one.
    pub(super) fn between<'a>(&mut self, piece: &mut &'a [u8]) -> Step<'a>
        requires phase { self.old.phase ≡ Between }
        requires not_filled { IsFilled self.old.stack self.old.offset → ⊥ }
        requires limit { IsWithinInputLimit self.old piece.old.now }
        ensures { Steps self.old self.new piece.old.now piece.new.now result }
    {
        let octets: &'a [u8] = *piece;
        let [octet, rest @ ..] = octets else {
            return Step::NeedMore;
        };
        let indefinite = self.stack.is_in_indefinite();
        if indefinite && self.stack.room_in(self.offset) == Some(0) {
            return self.refuse(FaultCode::MissingEnd);
        }
        if *octet != 0 {
            return self.header(piece);
        }
        if indefinite {
            *piece = rest;
            self.offset += 1;
            self.phase = Phase::InEndOctets;
            return self.second_zero(piece);
        }
        if self.padding && self.stack.is_empty() {
            return Step::Event(self.padding(piece));
        }
        self.refuse(FaultCode::StrayEnd)
    }

    /// The end of the innermost element, which is definite and whose contents have all come.
    #[inline(always)]
    pub(super) fn end_filled<'a>(&mut self) -> Event<'a>
        requires phase { self.old.phase ≡ Between }
        requires filled { IsFilled self.old.stack self.old.offset }
        ensures { EndsElement self.old self.new result }
    {
        self.events += 1;
        let Some(wrapper) = self.stack.pop() else {
            unreachable!();
        };
        if wrapper {
            return Event::Leave;
        }
        Event::Close(None)
    }

    /// Takes the end-of-contents octets if both are in the piece and they are allowed here.
    #[inline(always)]
    pub(super) fn take_end_octets<'a>(&mut self, piece: &mut &'a [u8]) -> Option<HolderEnd>
        requires phase { self.old.phase ≡ Between }
        requires limit { IsWithinInputLimit self.old piece.old.now }
        ensures { StepsAtOnce self.old self.new piece.old.now piece.new.now
            (end_event_if_taken result) }
    {
        let octets: &'a [u8] = *piece;
        let [first, second, rest @ ..] = octets else {
            return None;
        };
        if *first != 0 || *second != 0 {
            return None;
        }
        if !self.stack.is_in_indefinite() || !self.stack.is_within(self.offset + 2) {
            return None;
        }
        *piece = rest;
        let offset = self.offset;
        self.stack.pop();
        self.offset += 2;
        self.events += 1;
        Some(HolderEnd::Close(Some(offset)))
    }

    /// Takes the second of the end-of-contents octets.
    pub(super) fn second_zero<'a>(&mut self, piece: &mut &'a [u8]) -> Step<'a>
        requires phase { self.old.phase ≡ InEndOctets }
        requires limit { IsWithinInputLimit self.old piece.old.now }
        ensures { Steps self.old self.new piece.old.now piece.new.now result }
    {
        let octets: &'a [u8] = *piece;
        let [octet, rest @ ..] = octets else {
            return Step::NeedMore;
        };
        if self.stack.room_in(self.offset) == Some(0) {
            return self.refuse(FaultCode::MissingEnd);
        }
        if *octet != 0 {
            return self.refuse(FaultCode::BadEnd);
        }
        *piece = rest;
        let offset = self.offset - 1;
        self.stack.pop();
        self.phase = Phase::Between;
        self.offset += 1;
        self.events += 1;
        Step::Event(Event::Close(Some(offset)))
    }
}
