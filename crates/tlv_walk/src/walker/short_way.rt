//! How a walker finds the next event in few instructions.
ghost use Rattle.std.specs.Prelude.{◌≡◌, IfNone, IfSome, take, true};
ghost use Rattle.tlv_head.specs.HeaderFields.{IsHeaderSized};
ghost use Rattle.tlv_walk.specs.Follow.{whole_events};
ghost use Rattle.tlv_walk.specs.Walker.{IsWithinInputLimit};
ghost use Rattle.tlv_walk.specs.Private.WalkerCalls.{CanPass, HasNoContents, HasOpenPrimitive, Passes};
ghost use Rattle.tlv_walk.specs.Private.WalkerCalls.{end_event_if_taken, enter_event_if_taken, header_at};
ghost use Rattle.tlv_walk.specs.Private.WalkerCalls.{open_event_if_taken, unused_event_if_taken};
ghost use Rattle.tlv_walk.specs.Private.Yields.{StepsAtOnce, YieldsEvents};

use super::{Phase, Walker};
use crate::Event;
use tlv_head::{HeaderFields, Size, read_short};

/// A whole primitive with which a piece begins.
#[derive(Clone, Copy)]
pub(crate) struct WholePrimitive {
    /// The fields of its header.
    pub fields: HeaderFields,
    /// The number of octets of its header.
    pub header_length: usize,
    /// The number of its octets, contents included.
    pub octet_count: usize,
}

/// The end of an element that holds others.
#[derive(Clone, Copy)]
pub(crate) enum HolderEnd {
    /// Of a constructed element, with the offset of its end-of-contents octets, if any.
    Close(Option<u64>),
    /// Of a string that holds encodings.
    Leave,
}

impl Walker<'_> {
    /// The primitive with which these octets begin, if they hold all of it, its header has few octets, its offset is
    /// not named, and it is allowed here. With `two_octets`, only if its header has two octets.
    #[inline(always)]
    pub(crate) fn primitive(&self, octets: &[u8], two_octets: bool) -> Option<WholePrimitive>
        requires { IsWithinInputLimit self.now octets.now }
        ensures { IfSome result (λ p. CanPass self.now octets.now p) }
    {
        let [first, ..] = octets else {
            return None;
        };
        // An octet 00 is padding or ends an element (8.1.5). To ask for it last takes the fewest instructions.
        if *first & 0x20 != 0
            || !matches!(self.phase, Phase::Between)
            || self.cursor.may_be_at(self.inside, self.offset)
            || *first == 0
        {
            return None;
        }
        if two_octets && !has_two_octets(octets) {
            return None;
        }
        let (fields, header_length) = read_short(self.offset, false, octets)?;
        if fields.constructed {
            return None;
        }
        let Size::Definite(length) = fields.size else {
            return None;
        };
        let octet_count = header_length + length as usize;
        if octet_count > octets.len() || !self.stack.is_within(self.offset + octet_count as u64) {
            return None;
        }
        Some(WholePrimitive {
            fields,
            header_length,
            octet_count,
        })
    }

    /// Takes the primitive with which the piece begins: its header, its contents and its end.
    #[inline(always)]
    pub(crate) fn pass<'a>(&mut self, primitive: &WholePrimitive, piece: &mut &'a [u8])
        requires can { CanPass self.old piece.old.now primitive.now }
        requires limit { IsWithinInputLimit self.old piece.old.now }
        ensures passes { Passes self.old self.new piece.old.now piece.new.now }
        ensures yields { YieldsEvents self.old self.new piece.old.now piece.new.now
            (whole_events (header_at primitive.now piece.old.now)
            (take primitive.now.octet_count piece.old.now)) }
    {
        let octets: &'a [u8] = *piece;
        let (_, rest) = octets.split_at(primitive.octet_count);
        *piece = rest;
        self.offset += primitive.octet_count as u64;
        // The events: the header, the contents if there are any, and the end.
        self.events += if primitive.header_length == primitive.octet_count {
            2
        } else {
            3
        };
        self.has_element = true;
    }

    /// Takes the header with which the piece begins, if it is a short header of a constructed element that is allowed
    /// here; otherwise takes nothing.
    #[inline(always)]
    pub(crate) fn constructed<'a>(
        &mut self,
        piece: &mut &'a [u8],
    ) -> Option<(HeaderFields, &'a [u8])>
        requires { IsWithinInputLimit self.old piece.old.now }
        ensures steps { StepsAtOnce self.old self.new piece.old.now piece.new.now
            (open_event_if_taken result) }
        ensures sized { IfSome result (λ found. IsHeaderSized found.0 found.1.now) }
        ensures constructed { IfSome result (λ found. found.0.constructed ≡ true) }
    {
        if !matches!(self.phase, Phase::Between) {
            return None;
        }
        let octets: &'a [u8] = *piece;
        let [first, ..] = octets else {
            return None;
        };
        if *first & 0x20 == 0 {
            return None;
        }
        let named = self.cursor.is_at(self.inside, self.offset);
        let (fields, count) = read_short(self.offset, named, octets)?;
        if !fields.constructed {
            return None;
        }
        let (front, rest) = octets.split_at(count);
        if !self.fits_there(&fields, front) {
            return None;
        }
        *piece = rest;
        self.take_header(&fields, front);
        Some((fields, front))
    }

    /// Takes the end of the innermost element if it ends here: its contents are complete, or both end-of-contents
    /// octets are in the piece. Otherwise takes nothing.
    #[inline(always)]
    pub(crate) fn close<'a>(&mut self, piece: &mut &'a [u8]) -> Option<HolderEnd>
        requires { IsWithinInputLimit self.old piece.old.now }
        ensures { StepsAtOnce self.old self.new piece.old.now piece.new.now
            (end_event_if_taken result) }
    {
        if !matches!(self.phase, Phase::Between) {
            return None;
        }
        if !self.stack.is_filled(self.offset) {
            return self.take_end_octets(piece);
        }
        self.events += 1;
        if self.stack.is_in_wrapper() {
            self.stack.pop();
            return Some(HolderEnd::Leave);
        }
        self.stack.pop();
        Some(HolderEnd::Close(None))
    }

    /// Takes contents of the open primitive, or its end. Takes nothing if no primitive is open, or if its next
    /// contents octet is not in the piece.
    #[inline(always)]
    pub(crate) fn contents_event<'a>(&mut self, piece: &mut &'a [u8]) -> Option<Event<'a>>
        requires { IsWithinInputLimit self.old piece.old.now }
        ensures steps { StepsAtOnce self.old self.new piece.old.now piece.new.now result }
        ensures none { IfNone result (HasNoContents self.old piece.old.now) }
        ensures some { IfSome result (λ e. HasOpenPrimitive self.old.phase) }
    {
        let Phase::InPrimitive(left) = self.phase else {
            return None;
        };
        if left == 0 {
            return Some(self.end_primitive());
        }
        if piece.is_empty() {
            return None;
        }
        Some(self.contents(left, piece))
    }

    /// Takes the header with which the piece begins, if it is a short header of a string that holds encodings and is
    /// allowed here; otherwise takes nothing.
    #[inline(always)]
    pub(crate) fn wrapper<'a>(&mut self, piece: &mut &'a [u8]) -> Option<(HeaderFields, &'a [u8])>
        requires { IsWithinInputLimit self.old piece.old.now }
        ensures steps { StepsAtOnce self.old self.new piece.old.now piece.new.now
            (enter_event_if_taken result) }
        ensures sized { IfSome result (λ found. IsHeaderSized found.0 found.1.now) }
    {
        if !matches!(self.phase, Phase::Between) {
            return None;
        }
        if !self.cursor.is_at(self.inside, self.offset) {
            return None;
        }
        let octets: &'a [u8] = *piece;
        let (fields, count) = read_short(self.offset, true, octets)?;
        if fields.constructed || !fields.wraps() {
            return None;
        }
        let (front, rest) = octets.split_at(count);
        if !self.fits_there(&fields, front) {
            return None;
        }
        *piece = rest;
        self.take_header(&fields, front);
        Some((fields, front))
    }

    /// Takes the first contents octet of a BIT STRING that holds encodings, if it comes next and is `00`. Returns
    /// whether it did; otherwise takes nothing.
    #[inline(always)]
    pub(crate) fn no_unused_bits<'a>(&mut self, piece: &mut &'a [u8]) -> bool
        requires { IsWithinInputLimit self.old piece.old.now }
        ensures { StepsAtOnce self.old self.new piece.old.now piece.new.now
            (unused_event_if_taken result) }
    {
        if !matches!(self.phase, Phase::InBitString) {
            return false;
        }
        let octets: &'a [u8] = *piece;
        let [octet, rest @ ..] = octets else {
            return false;
        };
        if *octet != 0 {
            return false;
        }
        *piece = rest;
        self.offset += 1;
        self.events += 1;
        self.phase = Phase::Between;
        true
    }
}

/// Whether the octets begin with a tag in the low form and a length in the short form, one octet each.
#[inline(always)]
fn has_two_octets(octets: &[u8]) -> bool {
    match octets {
        [identifier, length, ..] => *identifier & 0x1f != 0x1f && *length < 0x80,
        _ => false,
    }
}
