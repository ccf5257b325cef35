//! With how many different octets the outermost elements of an input begin.
ghost use Rattle.std.specs.Prelude.{◌≡◌, ◌<◌, ◌≤◌, length, slice_index};
ghost use Rattle.tlv_head.specs.Limits.{input_limit};
ghost use Rattle.tlv_reasons.specs.OutermostKinds.{AreKinds};
ghost use Rattle.tlv_reasons.specs.Private.OutermostKinds.{IsNext, kinds_counted, new_counts, counting_element};

use crate::outermost::is_padded_at;
use crate::suspects::add_unless_seen;
use arrayvec::ArrayVec;
use tlv_head::{Size, read_header};

/// The fewest different octets that are many.
const MANY: usize = 3;

/// The number of different octets at which the counting ends.
const TOO_MANY: usize = 64;

/// The outermost elements of an input.
#[derive(Clone, Copy, PartialEq, Eq, Debug)]
pub struct OutermostKinds {
    /// How many they are.
    pub elements: u64,
    /// With how many different octets they begin.
    pub kinds: u64,
    /// How many of them are primitive.
    pub primitives: u64,
}

/// What is counted of outermost elements.
#[derive(Drop)]
pub(crate) struct Counts {
    /// How many they are.
    pub elements: u64,
    /// How many of them are primitive.
    pub primitives: u64,
    /// The octets with which they begin, each only once.
    pub firsts: ArrayVec<usize, TOO_MANY>,
}

/// What comes next.
#[derive(Clone, Copy)]
pub(crate) enum Next {
    /// An octet of padding.
    Padding,
    /// An element, which ends at this offset.
    Element { end: usize, primitive: bool },
}

/// How many outermost elements an input has, if they begin with three different octets or more, and fewer than 64, and
/// each has a definite length. With `padding`, octets `00` are allowed between them.
pub fn outermost_kinds(octets: &[u8], padding: bool) -> Option<OutermostKinds>
    requires { length octets.now ≤ input_limit }
    ensures { AreKinds padding octets.now result }
{
    let mut counts = new_counts();
    let mut offset = 0;
    while offset < octets.len() {
        if counts.firsts.len() >= TOO_MANY {
            return None;
        }
        match next_outermost(octets, padding, offset) {
            Some(Next::Padding) => offset += 1,
            Some(Next::Element { end, primitive }) => {
                count_element(octets[offset], primitive, &mut counts);
                offset = end;
            }
            None => return None,
        }
    }
    kinds_counted(&counts)
}

/// The counts of no elements.
fn new_counts() -> Counts
    ensures { result ≡ new_counts }
{
    Counts {
        elements: 0,
        primitives: 0,
        firsts: ArrayVec::new(),
    }
}

/// What begins at this offset, if it is padding, or an element that ends in the input by its header.
fn next_outermost(octets: &[u8], padding: bool, offset: usize) -> Option<Next>
    requires limit { length octets.now ≤ input_limit }
    requires within { offset < length octets.now }
    ensures { IsNext padding octets.now offset result }
{
    if is_padded_at(octets, padding, offset) {
        return Some(Next::Padding);
    }
    let Some((fields, count)) = read_header(offset as u64, false, &octets[offset..]) else {
        return None;
    };
    let Size::Definite(size) = fields.size else {
        return None;
    };
    if size > (octets.len() - offset - count) as u64 {
        return None;
    }
    Some(Next::Element {
        end: offset + count + size as usize,
        primitive: !fields.constructed,
    })
}

/// Counts one more element, which begins with this octet.
fn count_element(first: u8, primitive: bool, counts: &mut Counts)
    requires room { length counts.old.firsts.items < 64 }
    requires elements { counts.old.elements ≤ input_limit }
    requires primitives { counts.old.primitives ≤ input_limit }
    ensures { counts.new ≡ counting_element first primitive counts.old }
{
    counts.elements += 1;
    if primitive {
        counts.primitives += 1;
    }
    add_unless_seen(usize::from(first), &mut counts.firsts);
}

/// What was counted, if the elements begin with many different octets.
fn kinds_counted(counts: &Counts) -> Option<OutermostKinds>
    ensures { result ≡ kinds_counted counts.now }
{
    let kinds = counts.firsts.len();
    if kinds >= MANY && kinds < TOO_MANY {
        Some(OutermostKinds {
            elements: counts.elements,
            kinds: kinds as u64,
            primitives: counts.primitives,
        })
    } else {
        None
    }
}
