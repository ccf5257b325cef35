//! Lines of a text.
ghost use Rattle.std.specs.Prelude.{◌≡◌, ◌≤◌, ◌+◌, ◌-◌, length};
ghost use Rattle.tlv_text.specs.Blocks.{line_feeds, state_at_place};
ghost use Rattle.tlv_text.specs.Private.BlockSteps.{IsLineIn, IsRefusedWithin};

use crate::BlockState;

/// The number of characters in a part whose line feeds are counted in one octet: under 256, in whole vectors of 32.
const PART: usize = 224;

/// A place in a text.
#[derive(Clone, Copy)]
pub(super) struct LinePlace {
    /// The number of characters before it.
    pub(super) place: usize,
    /// The number of its line, counted from 1.
    pub(super) line: usize,
}

/// Where a text begins.
pub(super) const TEXT_START: LinePlace = LinePlace { place: 0, line: 1 };

/// The place in a text with `place` characters before it, given an earlier place. Reads only what is between them.
pub(super) fn line_from(text: &[u8], from: LinePlace, place: usize) -> LinePlace
    requires from { IsLineIn text.now from }
    requires order { from.place ≤ place }
    requires within { place ≤ length text.now }
    ensures line { IsLineIn text.now result }
    ensures place { result.place ≡ place }
{
    LinePlace {
        place,
        line: from.line + line_feeds(&text[from.place..place]),
    }
}

/// The number of line feeds in a text, counted part by part.
fn line_feeds(text: &[u8]) -> usize
    ensures value { result ≡ line_feeds text.now }
    ensures within { result ≤ length text.now }
{
    let mut count = 0;
    let mut rest = text;
    while rest.len() > PART {
        let (part, more) = rest.split_at(PART);
        count += usize::from(few_line_feeds(part));
        rest = more;
    }
    count + usize::from(few_line_feeds(rest))
}

/// The number of line feeds in a short text. It fits in an octet, so many characters are compared and counted at a
/// time, which costs less than a search for each line feed.
fn few_line_feeds(text: &[u8]) -> u8
    requires { length text.now ≤ 224 }
    ensures { result ≡ line_feeds text.now }
{
    let mut count = 0;
    for character in text {
        if *character == b'\n' {
            count += 1;
        }
    }
    count
}

/// The state of octets that are refused at a place in a text, if they are: `refused` characters come before it in the
/// decoded part, and `before` characters come before that part. Lines are counted from an earlier place on.
pub(super) fn state_at_place(
    text: &[u8],
    from: LinePlace,
    before: usize,
    refused: Option<usize>,
) -> BlockState
    requires from { IsLineIn text.now from }
    requires order { from.place ≤ before }
    requires before { before ≤ length text.now }
    requires within { IsRefusedWithin (length text.now - before) refused }
    ensures { result ≡ state_at_place text.now before refused }
{
    match refused {
        None => BlockState::Whole,
        Some(place) => BlockState::Refused(line_from(text, from, before + place).line),
    }
}
