//! Why an input is refused, and where.

/// Why an input is refused.
#[derive(Clone, Copy, PartialEq, Eq, Debug)]
pub enum FaultCode {
    /// F01: no octet of an element came.
    Empty,
    /// F02: the input ends inside an encoding.
    Short,
    /// F03: `00` where end-of-contents octets are not allowed (8.1.5).
    StrayEnd,
    /// F04: the second end-of-contents octet is not `00` (8.1.5).
    BadEnd,
    /// F05: the enclosing element's length is used up before the end-of-contents octets (8.1.5).
    MissingEnd,
    /// F06: more than nine octets of tag number, a limit of our own (8.1.2.4.2 has none).
    TagTooLong,
    /// F07: the first length octet is `ff` (8.1.3.5 c).
    ReservedLength,
    /// F08: the indefinite form in a primitive (8.1.3.2 a).
    IndefinitePrimitive,
    /// F09: a length of 2^40 or more, a limit of our own.
    LengthTooLarge,
    /// F10: more than 128 open elements that hold others, a limit of our own.
    TooDeep,
    /// F11: an element extends beyond the enclosing element's length (8.1.3.3).
    Overrun,
    /// F12: the first contents octet of a BIT STRING that holds encodings is not `00` (8.6.2.2).
    BadInside,
}

/// A refusal, with the offset of the refused octet. For [`FaultCode::Empty`] and [`FaultCode::Short`] the offset is
/// the number of octets of the input.
#[derive(Clone, Copy, PartialEq, Eq, Debug)]
pub struct Fault {
    /// Why the input is refused.
    pub code: FaultCode,
    /// The offset of the refused octet, in octets from the start of the input.
    pub offset: u64,
}

impl FaultCode {
    ghost use Rattle.std.specs.Prelude.{◌≡◌, length};
    ghost use Rattle.tlv_head.specs.Fault.{fault_code};

    /// The three characters of the code, such as `F01`.
    pub fn code(self) -> &'static [u8]
        ensures code { result.now ≡ fault_code self }
        ensures size { length result.now ≡ 3 }
    {
        match self {
            FaultCode::Empty => b"F01",
            FaultCode::Short => b"F02",
            FaultCode::StrayEnd => b"F03",
            FaultCode::BadEnd => b"F04",
            FaultCode::MissingEnd => b"F05",
            FaultCode::TagTooLong => b"F06",
            FaultCode::ReservedLength => b"F07",
            FaultCode::IndefinitePrimitive => b"F08",
            FaultCode::LengthTooLarge => b"F09",
            FaultCode::TooDeep => b"F10",
            FaultCode::Overrun => b"F11",
            FaultCode::BadInside => b"F12",
        }
    }
}

impl Fault {
    ghost use Rattle.std.specs.Prelude.{◌≡◌, ◌≤◌, length};
    ghost use Rattle.tlv_head.specs.Fault.{fault_text};

    /// The text for the code, in ASCII: at most 64 octets.
    pub fn text(&self) -> &'static [u8]
        ensures text { result.now ≡ fault_text self.now.code }
        ensures short { length result.now ≤ 64 }
    {
        match self.code {
            FaultCode::Empty => b"empty input",
            FaultCode::Short => b"input ends inside an encoding",
            FaultCode::StrayEnd => b"end-of-contents outside an indefinite element",
            FaultCode::BadEnd => b"octet 00 not followed by 00",
            FaultCode::MissingEnd => b"no end-of-contents inside the enclosing length",
            FaultCode::TagTooLong => b"more than nine octets of tag number",
            FaultCode::ReservedLength => b"length octet ff is reserved",
            FaultCode::IndefinitePrimitive => b"indefinite length of a primitive",
            FaultCode::LengthTooLarge => b"length of 2^40 or more",
            FaultCode::TooDeep => b"more than 128 open elements",
            FaultCode::Overrun => b"element runs past the enclosing length",
            FaultCode::BadInside => b"first octet of a wrapped BIT STRING is not 00",
        }
    }
}
