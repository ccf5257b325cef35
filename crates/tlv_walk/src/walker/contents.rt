//! How a walker takes the contents of primitives, and padding.
ghost use Rattle.std.specs.Prelude.{◌≡◌, ◌≢◌, ◌<◌, ◌≤◌, [], All, IfSome, Some, length, slice_get, take, true};
ghost use Rattle.tlv_walk.specs.declared.event.Step.TheVariants as step;
ghost use Rattle.tlv_walk.specs.WalkerState.{Between, InBitString, InPrimitive};
ghost use Rattle.tlv_walk.specs.Walker.{IsWithinInputLimit};
ghost use Rattle.tlv_walk.specs.Private.WalkerCalls.{EndsBeyond, UsesUp};
ghost use Rattle.tlv_walk.specs.Private.Yields.{EndsElement, Steps};

use super::{Phase, Walker};
use crate::{Event, Step};
use tlv_head::FaultCode;

impl Walker<'_> {
    /// The number of contents octets of the open primitive that are still to come, if the piece has some of them and
    /// nothing else, and does not have all.
    #[inline(always)]
    pub(crate) fn left_beyond(&self, piece: &[u8]) -> Option<u64>
        ensures { IfSome result (λ left. EndsBeyond self.now left piece.now) }
    {
        let Phase::InPrimitive(left) = self.phase else {
            return None;
        };
        if piece.is_empty() || piece.len() as u64 >= left {
            return None;
        }
        Some(left)
    }

    /// Takes contents of a primitive.
    #[inline(always)]
    pub(crate) fn contents<'a>(&mut self, left: u64, piece: &mut &'a [u8]) -> Event<'a>
        requires phase { self.old.phase ≡ InPrimitive left }
        requires some { (0 < left) × (piece.old.now ≢ []) }
        requires limit { IsWithinInputLimit self.old piece.old.now }
        ensures steps { Steps self.old self.new piece.old.now piece.new.now (step.Event result) }
        ensures used_up { length piece.old.now < left → UsesUp self.new piece.new.now }
    {
        let octets: &'a [u8] = *piece;
        let count = left.min(octets.len() as u64);
        let (front, rest) = octets.split_at(count as usize);
        *piece = rest;
        self.offset += count;
        self.phase = Phase::InPrimitive(left - count);
        self.events += 1;
        Event::Bytes(front)
    }

    /// The end of a primitive whose contents have all come.
    #[inline(always)]
    pub(super) fn end_primitive<'a>(&mut self) -> Event<'a>
        requires { self.old.phase ≡ InPrimitive 0 }
        ensures { EndsElement self.old self.new result }
    {
        self.events += 1;
        self.phase = Phase::Between;
        Event::End
    }

    /// Takes the padding with which the piece begins.
    pub(super) fn padding<'a>(&mut self, piece: &mut &'a [u8]) -> Event<'a>
        requires phase { self.old.phase ≡ Between }
        requires zero { slice_get piece.old.now 0 ≡ Some 0 }
        requires limit { IsWithinInputLimit self.old piece.old.now }
        requires top { self.old.stack ≡ [] }
        requires padding { self.old.framing.padding ≡ true }
        ensures { Steps self.old self.new piece.old.now piece.new.now (step.Event result) }
    {
        let octets: &'a [u8] = *piece;
        let count = zeros(octets);
        let (front, rest) = octets.split_at(count);
        *piece = rest;
        self.offset += count as u64;
        self.events += 1;
        Event::Pad(front)
    }

    /// Takes the first contents octet of a BIT STRING that holds encodings.
    pub(super) fn unused_octet<'a>(&mut self, piece: &mut &'a [u8]) -> Step<'a>
        requires phase { self.old.phase ≡ InBitString }
        requires limit { IsWithinInputLimit self.old piece.old.now }
        ensures { Steps self.old self.new piece.old.now piece.new.now result }
    {
        let octets: &'a [u8] = *piece;
        let [octet, rest @ ..] = octets else {
            return Step::NeedMore;
        };
        if *octet != 0 {
            return self.refuse(FaultCode::BadInside);
        }
        *piece = rest;
        self.offset += 1;
        self.events += 1;
        self.phase = Phase::Between;
        Step::Event(Event::Unused)
    }
}

/// The number of octets `00` at the start.
fn zeros(octets: &[u8]) -> usize
    ensures within { result ≤ length octets.now }
    ensures zeros { All (λ x. x ≡ 0) (take result octets.now) }
    ensures some { slice_get octets.now 0 ≡ Some 0 → 0 < result }
    ensures all { slice_get octets.now result ≢ Some 0 }
{
    let mut count = 0;
    while count < octets.len() && octets[count] == 0 {
        count += 1;
    }
    count
}
