//! The dotted texts of object identifiers, kept from line to line.
ghost use Rattle.std.specs.Prelude.{◌≡◌, ◌≤◌, ◌∷◌, [], if◌then◌else◌, false, is_some, length, take, true, unwrap_or};
ghost use Rattle.tlv_io.specs.LineTexts.{AddsAtMost, HasRoomFor};
ghost use Rattle.tlv_value.specs.Arcs.{dotted_of};

use crate::dotted_texts::write_dotted;
use tlv_io::HeldOctets;

/// The most contents octets of an object identifier whose text is kept.
const MOST_CONTENTS: usize = 13;

/// The most octets of a text that is kept, with the space before it.
const MOST_TEXT: usize = 32;

/// Contents octets, and the dotted text of the object identifier that has them, after a space, if there is such a text.
#[derive(Clone, Copy)]
struct KnownText {
    /// The contents octets, and other octets after them.
    contents: [u8; MOST_CONTENTS],
    contents_size: u8,
    has_text: bool,
    /// The text, and other octets after it.
    text: [u8; MOST_TEXT],
    text_size: u8,
    ghost contents_within: { contents_size ≤ 13 },
    ghost text_within: { text_size ≤ 32 },
    ghost exists: { has_text ≡ is_some (dotted_of false (take contents_size contents)) },
    ghost is: { take text_size text
        ≡ (if has_text then 32 ∷ unwrap_or (dotted_of false (take contents_size contents)) [] else []) },
}

/// The dotted texts of up to 64 object identifiers that were shown. In certificates the same few come again and again,
/// and a text that is kept is added as one block. What is added does not depend on what is kept.
#[derive(Drop)]
pub struct KnownTexts {
    /// Each has its place by its contents octets.
    texts: [KnownText; 64],
}

impl KnownTexts {
    /// No texts: only that no octets have none is known. This is all zeros, which are set at once.
    pub fn new() -> KnownTexts {
        let none = KnownText {
            contents: [0; MOST_CONTENTS],
            contents_size: 0,
            has_text: false,
            text: [0; MOST_TEXT],
            text_size: 0,
        };
        KnownTexts { texts: [none; 64] }
    }

    /// Adds the dotted text of an object identifier after a space, as [`write_dotted`] does. Returns whether there is
    /// such a text; adds nothing if there is none.
    #[inline(always)]
    pub(crate) fn write_dotted(&mut self, held: &mut HeldOctets, contents: &[u8]) -> bool
        requires short { length contents.now ≤ 64 }
        requires room { HasRoomFor held.old 320 }
        ensures exists { result ≡ is_some (dotted_of false contents.now) }
        ensures adds { AddsAtMost 259 held.old held.new
            (if result then 32 ∷ unwrap_or (dotted_of false contents.now) [] else []) }
    {
        let known = &self.texts[place_of(contents)];
        if contents == &known.contents[..usize::from(known.contents_size)] {
            held.add_prefix(&known.text, usize::from(known.text_size));
            return known.has_text;
        }
        self.write_other(held, contents)
    }

    /// Adds a text that is not known, and keeps it.
    #[inline(never)]
    fn write_other(&mut self, held: &mut HeldOctets, contents: &[u8]) -> bool
        requires short { length contents.now ≤ 64 }
        requires room { HasRoomFor held.old 320 }
        ensures exists { result ≡ is_some (dotted_of false contents.now) }
        ensures adds { AddsAtMost 259 held.old held.new
            (if result then 32 ∷ unwrap_or (dotted_of false contents.now) [] else []) }
    {
        let start = held.len();
        if !write_dotted(held, contents, false) {
            return false;
        }
        self.keep(contents, &held.as_slice()[start..]);
        true
    }

    /// Keeps a text, if it and its contents octets are short. Another text at the same place is kept no longer.
    fn keep(&mut self, contents: &[u8], text: &[u8])
        requires exists { is_some (dotted_of false contents.now) ≡ true }
        requires is { text.now ≡ 32 ∷ unwrap_or (dotted_of false contents.now) [] }
    {
        if contents.len() > MOST_CONTENTS || text.len() > MOST_TEXT {
            return;
        }
        self.texts[place_of(contents)] = KnownText {
            contents: block_of(contents),
            contents_size: contents.len() as u8,
            has_text: true,
            text: block_of(text),
            text_size: text.len() as u8,
        };
    }
}

/// A block that begins with these octets. Zeros follow them.
fn block_of<const N: usize>(octets: &[u8]) -> [u8; N]
    requires { length octets.now ≤ N }
    ensures { take (length octets.now) result ≡ octets.now }
{
    let mut block = [0; N];
    block[..octets.len()].copy_from_slice(octets);
    block
}

/// The place of an object identifier among the texts. Most differ in their last two octets.
#[inline(always)]
fn place_of(contents: &[u8]) -> usize
    ensures { result ≤ 63 }
{
    let last_two = match contents {
        [.., before, last] => 8 * usize::from(*before) + usize::from(*last),
        _ => 0,
    };
    (last_two + contents.len()) % 64
}
