//! Reads a header, one octet at a time.
ghost use Rattle.std.specs.Prelude.{◌≡◌, ◌≢◌, ◌↔◌, [], ◌∷◌, false, IsTrue, Some};
ghost use Rattle.tlv_head.specs.HeaderFields.{fields_hold};
ghost use Rattle.tlv_head.specs.HeadReader.{ContentsFit};

use crate::next_octet::{Next, Part, header_fields, read_octet};
use crate::{Fault, FaultCode, Header, HeaderFields, Size};
use arrayvec::ArrayVec;
use std::marker::Model;

/// The result of pushing an octet to a header that is being read.
#[derive(Clone, PartialEq, Eq, Debug, Drop)]
pub enum Head {
    /// The octet was taken, and the header needs more octets.
    More,
    /// The octet was taken, and completes this header.
    Whole(Header),
    /// The octet was not taken. The fault has the octet's offset.
    Refused(Fault),
}

/// Reads a header, one octet at a time.
#[derive(Drop)]
pub struct HeadReader {
    offset: u64,
    named: bool,
    part: Part,
    raw: ArrayVec<u8, 137>,
}

impl Model for HeadReader {
    ghost use Rattle.tlv_head.specs.HeadReader.{HeadReaderState};

    ghost Value = { HeadReaderState };

    ghost use Rattle.tlv_head.specs.HeaderSoFar.{Carries, head_reader_state_of};

    ghost view = { head_reader_state_of };

    ghost invariant = { λ r. Carries r.part r.raw.items };
}

impl HeadReader {
    ghost use Rattle.std.specs.Prelude.{true};
    ghost use Rattle.tlv_head.specs.Header.{HeaderValue};
    ghost use Rattle.tlv_head.specs.HeadReader.{Completes, FitsThere, Pushes, CanPush};

    /// A reader of the header whose first octet is at `offset`. `named` says that the user named this offset as the
    /// offset of a string that holds encodings ([`Header::wraps`]).
    pub fn new(offset: u64, named: bool) -> HeadReader
        ensures { result ≡ record { offset = offset; named = named; octets = []; done = false } }
    {
        HeadReader {
            offset,
            named,
            part: Part::Start,
            raw: ArrayVec::new(),
        }
    }

    /// Whether the header is whole. No octet may be pushed after that.
    pub fn done(&self) -> bool
        ensures { result ≡ self.now.done }
    {
        matches!(self.part, Part::Whole)
    }

    /// Takes the next octet. `room` is the number of octets up to the end of the innermost definite element, this
    /// octet included (`None` if there is no such element), and `depth` is the number of open elements that hold
    /// others.
    ///
    /// Requires that the header is not whole yet ([`HeadReader::done`]), its offset is at most 2^40, and `depth` is
    /// at most 128. For the first octet, requires that the octet is not `00` and `room` is not 0.
    ///
    /// Returns [`Head::Whole`] if and only if the octet completes a header whose element is allowed here.
    /// [`Head::Refused`] leaves the reader unchanged. The causes are checked in this order: Overrun if the bound is
    /// reached; TagTooLong, ReservedLength, IndefinitePrimitive and LengthTooLarge by what the octets say; TooDeep if
    /// the octet completes the header of an element that holds others, and 128 such elements are open; Overrun if the
    /// octet completes a header whose contents end beyond the bound.
    pub fn push(&mut self, octet: u8, room: Option<u64>, depth: u8) -> Head
        requires { CanPush self.old octet room depth }
        ensures pushes { Pushes self.old octet room depth self.new result }

        // For an octet that completes a header that is allowed here, nothing else is returned.
        ensures whole { (h : HeaderValue) → Completes self.old (octet ∷ []) h
            → FitsThere h room depth → result ≡ Head.Whole h }
    {
        let offset = self.offset + self.raw.len() as u64;
        if room == Some(0) {
            return refusal(FaultCode::Overrun, offset);
        }
        match read_octet(self.part, octet) {
            Next::Refused(code) => refusal(code, offset),
            Next::Unfinished(part) => {
                self.raw.push(octet);
                self.part = part;
                Head::More
            }
            Next::Whole(identifier, size) => {
                let fields = header_fields(self.offset, self.named, identifier, size);
                if depth >= 128 && fields_hold(&fields) {
                    return refusal(FaultCode::TooDeep, offset);
                }
                if !contents_fit(size, room) {
                    return refusal(FaultCode::Overrun, offset);
                }
                self.raw.push(octet);
                self.part = Part::Whole;
                Head::Whole(Header::with_raw(&fields, self.raw.take()))
            }
        }
    }
}

fn refusal(code: FaultCode, offset: u64) -> Head
    ensures { result ≡ Head.Refused (record { code = code; offset = offset }) }
{
    Head::Refused(Fault { code, offset })
}

/// Whether an element with these fields holds others: it is constructed, or a string that holds encodings.
fn fields_hold(fields: &HeaderFields) -> bool
    ensures { result ≡ fields_hold fields.now }
{
    fields.constructed || fields.wraps()
}

/// Whether contents of this size end within the bound; `room` counts from the header's last octet on.
fn contents_fit(size: Size, room: Option<u64>) -> bool
    requires { room ≢ Some 0 }
    ensures { IsTrue result ↔ ContentsFit size room }
{
    match (size, room) {
        (Size::Definite(length), Some(room)) => length < room,
        _ => true,
    }
}
