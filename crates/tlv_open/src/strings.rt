//! The strings of an input that are opened, and the strings that break.
ghost use Rattle.std.specs.Prelude.{◌≡◌, ◌≤◌, ◌+◌, ◌++◌, decimal, length};
ghost use Rattle.tlv_open.specs.BrokenLine.{broken_line};

use arrayvec::ArrayVec;
use itoa::Buffer;
use tlv_head::Fault;

/// Why a string that is not opened looks like encodings.
#[derive(Clone, Copy, PartialEq, Eq, Debug)]
pub enum Suspicion {
    /// It has more than 24 inner octets. They begin with `30`, as a SEQUENCE does, and are at most 8 octets more or
    /// fewer than their header announces.
    Sequence,
    /// The same, but the octets begin with `31`, as a SET does.
    Set,
    /// It is the value of a certificate's extension: the last element of a SEQUENCE that begins with an OBJECT
    /// IDENTIFIER below 2.5.29 or 1.3.6.1.5.5.7.1.
    Extension,
}

/// A string that looks like encodings, is not opened, and breaks when it is read as encodings.
#[derive(Clone, Copy, PartialEq, Eq, Debug)]
pub struct BrokenString {
    /// Where it begins, in octets from the start of the input.
    pub offset: u64,
    /// Why it looks like encodings.
    pub reason: Suspicion,
    /// The fault, with its offset in octets from the start of the input.
    pub fault: Fault,
}

/// The strings of an input that are opened, and the strings that break.
#[derive(Drop)]
pub struct Strings {
    /// The offsets of the opened strings, rising, in octets from the start of the input.
    pub opened: Vec<u64>,
    /// The strings that break, in order.
    pub broken: Vec<BrokenString>,
}

impl Suspicion {
    ghost use Rattle.std.specs.Prelude.{◌≡◌, ◌≤◌, length};
    ghost use Rattle.tlv_open.specs.BrokenLine.{suspicion_text};

    /// The text for it in a line, in ASCII: at most 32 octets.
    pub fn text(self) -> &'static [u8]
        ensures text { result.now ≡ suspicion_text self }
        ensures short { length result.now ≤ 32 }
    {
        match self {
            Suspicion::Sequence => b"begins as a SEQUENCE of its size",
            Suspicion::Set => b"begins as a SET of its size",
            Suspicion::Extension => b"is the value of an extension",
        }
    }
}

/// Returns the line for a broken string, in ASCII, without its line end: its offset, why it looks like encodings, and
/// where it breaks with which fault. Offsets are decimal, in octets from the start of the input.
pub fn broken_line(broken: &BrokenString) -> ArrayVec<u8, 256>
    ensures { result.items ≡ broken_line broken.now }
{
    let mut line = ArrayVec::new();
    add_text(&mut line, b"string at ");
    add_number(&mut line, broken.offset);
    add_text(&mut line, b" ");
    add_text(&mut line, broken.reason.text());
    add_text(&mut line, b" and breaks at ");
    add_number(&mut line, broken.fault.offset);
    add_text(&mut line, b": ");
    add_text(&mut line, broken.fault.code.code());
    add_text(&mut line, b" ");
    add_text(&mut line, broken.fault.text());
    line
}

/// Adds a text to a line.
fn add_text(line: &mut ArrayVec<u8, 256>, text: &[u8])
    requires { length line.old.items + length text.now ≤ 256 }
    ensures text { line.new.items ≡ line.old.items ++ text.now }
    ensures size { length line.new.items ≡ length line.old.items + length text.now }
{
    let _ = line.try_extend_from_slice(text);
}

/// Adds a number to a line, in decimal.
fn add_number(line: &mut ArrayVec<u8, 256>, number: u64)
    requires { length line.old.items + 40 ≤ 256 }
    ensures text { line.new.items ≡ line.old.items ++ decimal number }
    ensures size { length line.new.items ≤ length line.old.items + 40 }
{
    let mut digits = Buffer::new();
    add_text(line, digits.format(number).as_bytes());
}
