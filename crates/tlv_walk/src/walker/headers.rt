//! How a walker takes headers.
ghost use Rattle.std.specs.Prelude.{◌≡◌, ◌≢◌, ◌+◌, ◌^◌, ◌<◌, ◌≤◌, [], IsTrue, Some, length, true};
ghost use Rattle.tlv_head.specs.Limits.{depth_limit, input_limit};
ghost use Rattle.tlv_head.specs.HeaderFields.{IsHeaderSized, new_header};
ghost use Rattle.tlv_head.specs.Header.{announced_length, holds, octets_of};
ghost use Rattle.tlv_walk.specs.WalkerState.{Between};
ghost use Rattle.tlv_walk.specs.Walker.{IsWithinInputLimit};
ghost use Rattle.tlv_walk.specs.Events.{IsNoEmptyPart, event_value_of};
ghost use Rattle.tlv_walk.specs.Private.WalkerCalls.{CanTakeHeader, CanRead, CanReadOn, CountsStep};
ghost use Rattle.tlv_walk.specs.Private.WalkerCalls.{TakesHeader, CountsAt};
ghost use Rattle.tlv_walk.specs.Private.WrapperCount.{next_wrapper_count};
ghost use Rattle.tlv_walk.specs.Private.HandsOver.{YieldsFrom, YieldsHeader};
ghost use Rattle.tlv_walk.specs.Stack.{bound_of};
ghost use Rattle.tlv_walk.specs.Stack.{IsWithin};
ghost use Rattle.tlv_walk.specs.Private.Yields.{Steps};

use super::{Phase, Walker};
use crate::stack::room_to;
use crate::{Event, Step};
use std::mem::replace;
use tlv_head::{Head, HeadReader, Header, HeaderFields, Size, universal};

/// What a header begins.
#[derive(Clone, Copy)]
pub(super) enum HeaderKind {
    /// A constructed element.
    Constructed,
    /// A string that holds encodings.
    Wrapper,
    /// Another primitive.
    Primitive,
}

impl Walker<'_> {
    /// Begins or continues a header, octet by octet.
    pub(super) fn header<'a>(&mut self, piece: &mut &'a [u8]) -> Step<'a>
        requires can { CanRead self.old piece.old.now }
        requires limit { IsWithinInputLimit self.old piece.old.now }
        ensures { Steps self.old self.new piece.old.now piece.new.now result }
    {
        if matches!(self.phase, Phase::InHeader) {
            let reader = replace(&mut self.reader, HeadReader::new(0, false));
            self.phase = Phase::Between;
            return self.read_on(reader, piece);
        }
        let named = self.cursor.is_at(self.inside, self.offset);
        self.has_element = true;
        self.read_on(HeadReader::new(self.offset, named), piece)
    }

    /// Continues a header, octet by octet.
    fn read_on<'a>(&mut self, reader: HeadReader, piece: &mut &'a [u8]) -> Step<'a>
        requires phase { self.old.phase ≡ Between }
        requires can { CanReadOn self.old reader piece.old.now }
        requires some { piece.old.now ≢ [] }
        requires limit { IsWithinInputLimit self.old piece.old.now }
        ensures counts { CountsStep self.old self.new piece.old.now piece.new.now result }
        ensures yields { YieldsFrom self.old reader self.new piece.old.now piece.new.now result }
    {
        let mut reader = reader;
        let depth = self.stack.len();
        let bound = self.stack.bound();
        let mut offset = self.offset;
        while let [octet, rest @ ..] = *piece {
            match reader.push(*octet, room_to(bound, offset), depth) {
                Head::More => {
                    *piece = rest;
                    offset += 1;
                }
                Head::Whole(header) => {
                    *piece = rest;
                    return Step::Event(self.take_whole_header(header));
                }
                Head::Refused(fault) => {
                    self.offset = offset;
                    self.phase = Phase::Refused(fault);
                    return Step::Fault(fault);
                }
            }
        }
        self.offset = offset;
        self.reader = reader;
        self.phase = Phase::InHeader;
        Step::NeedMore
    }

    /// Takes a header that the reader has read to its end, and returns its event.
    fn take_whole_header<'a>(&mut self, header: Header) -> Event<'a>
        requires phase { self.old.phase ≡ Between }
        requires can { CanTakeHeader self.old header }
        ensures counts { CountsAt self.old self.new (header.offset + length (octets_of header)) }
        ensures yields { YieldsHeader self.old self.new header (event_value_of result) }
        ensures has_octets { IsNoEmptyPart result }
    {
        let fields = header.fields();
        match self.take_header(&fields, header.raw()) {
            HeaderKind::Constructed => Event::Open(header),
            HeaderKind::Wrapper => Event::Enter(header),
            HeaderKind::Primitive => Event::Begin(header),
        }
    }

    /// Takes a header that is allowed here: counts its octets and the event, and opens a frame if its element holds
    /// others.
    #[inline(always)]
    pub(super) fn take_header(&mut self, fields: &HeaderFields, octets: &[u8]) -> HeaderKind
        requires phase { self.old.phase ≡ Between }
        requires sized { IsHeaderSized fields.now octets.now }
        requires can { CanTakeHeader self.old (new_header fields.now octets.now) }
        ensures counts { CountsAt self.old self.new (fields.now.offset + length octets.now) }
        ensures takes { TakesHeader self.old self.new fields.now
            (fields.now.offset + length octets.now) result }
    {
        self.offset = fields.offset + octets.len() as u64;
        self.events += 1;
        self.has_element = true;
        let (end, length) = match fields.size {
            Size::Definite(length) => (Some(self.offset + length), length),
            Size::Indefinite => (None, 0),
        };
        if !fields.constructed && !fields.wraps() {
            self.phase = Phase::InPrimitive(length);
            return HeaderKind::Primitive;
        }
        self.stack.push(end, !fields.constructed);
        if fields.constructed {
            return HeaderKind::Constructed;
        }
        self.found_wrapper(fields.offset);
        if fields.number == universal::BIT_STRING {
            self.phase = Phase::InBitString;
        }
        HeaderKind::Wrapper
    }

    /// Counts a string that holds encodings, if its offset is the first named offset not counted yet. Strings come in
    /// the order of their offsets, so an offset that is skipped stays unused.
    #[tactic(auto, using(std::proofs::lemmas::Option::slice_get_within))]
    fn found_wrapper(&mut self, offset: u64)
        ensures { self.new
            ≡ record self.old {
              wrapper_count = next_wrapper_count
                  self.old.framing.inside self.old.wrapper_count offset;
            } }
    {
        if self.unused() == Some(offset) {
            self.wrapper_count += 1;
        }
        // The short way, which most elements take, also elements inside the string, does not move the cursor.
        self.cursor.move_to(self.inside, self.offset);
    }

    /// Returns `true` only if an element with this header is allowed here: it is not too deep, and its contents end
    /// within the bound.
    #[inline(always)]
    pub(super) fn fits_there(&self, fields: &HeaderFields, octets: &[u8]) -> bool
        requires offset { fields.now.offset ≡ self.now.offset }
        requires limit { fields.now.offset + length octets.now ≤ input_limit }
        requires length { announced_length fields.now.size < 2 ^ 40 }
        ensures shallow { IsTrue result → holds (new_header fields.now octets.now) ≡ true
            → length self.now.stack < depth_limit }
        ensures fits { IsTrue result → IsWithin (bound_of self.now.stack)
            (fields.now.offset + length octets.now + announced_length fields.now.size) }
    {
        if self.stack.len() >= 128 && (fields.constructed || fields.wraps()) {
            return false;
        }
        self.stack.is_within(self.offset + octets.len() as u64 + fields.size.announced_length())
    }
}
