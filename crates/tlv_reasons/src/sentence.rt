//! The sentences that say why an input does not parse, and what to try.

use crate::{
    Chain, Doubled, Element, FileKind, Move, OctetChange, OutermostKinds, Run, Spacing, TextChange,
    Trace, Unfinished, WrongLength,
};
use tlv_head::{Fault, FaultCode};
use tlv_open::BrokenString;

/// A line about an input. Its words are those of the contract of
/// [`write_sentences`](crate::write_sentences). Offsets are in octets from the start of the input.
#[derive(Clone, Copy)]
pub enum Sentence {
    /// It parses, and has so many octets.
    Parses(u64),
    /// Its outermost elements begin with many different octets.
    ManyKinds(OutermostKinds),
    /// It does not parse: the fault.
    DoesNotParse(Fault),
    /// A string in it breaks.
    Breaks(BrokenString),
    /// So many octets are left over where whole encodings end.
    LeftOver {
        end: u64,
        left: u64,
    },
    /// So many spaces or line ends follow where whole encodings end.
    BlanksFollow {
        end: u64,
        left: u64,
    },
    /// So many equal octets follow where whole encodings end.
    FillerFollows {
        end: u64,
        left: u64,
    },
    /// So many octets of printable text follow where whole encodings end.
    TextFollows {
        end: u64,
        left: u64,
    },
    /// How to have the whole encodings alone, which end there.
    TryWhole(u64),
    /// It has no octets.
    NoOctets,
    /// It has so many octets `00`, and no others.
    ZerosAlone(u64),
    /// To look at the program that should write it.
    TryWriter,
    /// It ends, at `end`, in the header that begins there.
    EndsInHeader {
        offset: u64,
        end: u64,
    },
    /// It ends in the contents of a primitive.
    EndsInPrimitive(Element),
    /// So many octets are missing there.
    MissingThere(u64),
    /// It ends after the first of the two octets `00` that end this element.
    EndsBetweenZeros(Element),
    /// It ends in an element that holds others.
    EndsInHolder(Element),
    /// This element, to which something is missing, ends with the input.
    EndsWithInput(Element),
    /// The outermost open element would end behind the input, which ends at `end`.
    EndsBehindInput {
        element: Element,
        end: u64,
    },
    /// So many elements of indefinite length are not ended.
    NotEnded(u64),
    /// To look for a length that is too small.
    TryGreater,
    /// To fetch it anew, since it was cut.
    TryWholeCopy,
    /// It begins with so many octets `00`.
    BeginsWithZeros(u64),
    /// So many octets `00` follow where whole encodings end, and so many octets are left over.
    ZerosFollow {
        end: u64,
        zeros: u64,
        left: u64,
    },
    /// To allow octets `00` between the encodings.
    TryPadding,
    /// How to have what stands in front of this offset.
    TryFront(u64),
    /// There is an octet `00` inside this element, where none may be.
    ZeroInside {
        element: Element,
        offset: u64,
    },
    /// So many octets of that element are left over.
    LeftInside(u64),
    /// The octet there is not the second `00` that should end this element.
    NoSecondZero {
        element: Element,
        offset: u64,
    },
    /// The element is not ended where the holder ends.
    EndMissing {
        element: Element,
        holder: Element,
        unfinished: Unfinished,
    },
    /// The octet at `refused` of the header there is refused.
    RefusedHeader {
        code: FaultCode,
        offset: u64,
        refused: u64,
    },
    /// No encoding begins as the input does.
    NoEncoding,
    /// To look at the elements that end and begin there.
    TryLook(u64),
    /// The element there would be one open element too many.
    TooDeep(u64),
    /// To begin some levels deep.
    TryDeeper,
    /// The header there runs past the end of its holder.
    HeaderPast {
        offset: u64,
        holder: Element,
    },
    /// The octets from there up to the end of the holder are left over.
    LeftInHolder {
        offset: u64,
        holder: Element,
    },
    /// The octet there completes the header of this element.
    CompletesHeader {
        offset: u64,
        element: Element,
    },
    /// The element runs past the end of its holder.
    ElementPast {
        element: Element,
        holder: Element,
    },
    /// One of two lengths is wrong.
    OneOfTwo,
    /// To fetch the input anew, or to go on at the next record.
    TryAnew,
    /// The length of this element may be wrong.
    LengthInFront(Element),
    /// With another length all would parse, or all up to the offset `end`.
    OtherLength {
        first: WrongLength,
        end: Option<u64>,
    },
    /// With one of two other lengths all would parse, or all up to the offset `end`.
    TwoLengths {
        first: WrongLength,
        second: WrongLength,
        end: Option<u64>,
    },
    /// With one of three other lengths all would parse, or all up to the offset `end`.
    ThreeLengths {
        first: WrongLength,
        second: WrongLength,
        third: WrongLength,
        end: Option<u64>,
    },
    /// With an octet more or fewer all would parse.
    OneOctet(OctetChange),
    /// The outermost open element ends with the input.
    NoneLost(Element),
    /// The outermost open element ends behind the input, which ends at `end`.
    SomeLost {
        element: Element,
        end: u64,
    },
    /// The outermost open element ends in front of the end of the input, which is at `end`.
    SomePutIn {
        element: Element,
        end: u64,
    },
    /// With other lengths of several elements inside one another all would parse.
    OtherChain(Chain),
    /// Without a block that stands twice all would parse.
    StandsTwice(Doubled),
    /// Equal octets in a row, which may stand in place of others.
    Overwritten(Run),
    /// Encodings, between each two of which other octets stand.
    Spaced(Spacing),
    /// What was done to it as if it were a text.
    TextChanged(TextChange),
    /// What shows that it was taken for a text.
    Traced(Trace),
    /// What was done to all of its octets.
    OctetsMoved(Move),
    /// It is a file of another kind.
    OtherKind(FileKind),
    /// From this offset on it parses: what stands in front is no part of it.
    ParsesFrom(u64),
    /// From this offset on it parses: the next record may begin there.
    NextRecord(u64),
    /// From this offset on it parses up to another fault: the next record may begin there.
    NextRecordUpTo {
        offset: u64,
        fault: u64,
    },
}

/// Only for filling arrays.
impl Default for Sentence {
    fn default() -> Sentence {
        Sentence::NoOctets
    }
}
