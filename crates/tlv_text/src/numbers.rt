//! Octets as decimal numbers.
ghost use Rattle.std.specs.Prelude.{◌≡◌, ◌≤◌, ◌+◌, ◌-◌, IfOk, IfSome, MatchOption, None, Some, drop, length, option_map, true};
ghost use Rattle.tlv_text.specs.Characters.{is_white};
ghost use Rattle.tlv_text.specs.Numbers.{after_number, alone_before, before_number, digits_at, from_list, has_no_pair};
ghost use Rattle.tlv_text.specs.Numbers.{has_zero_pair, is_closing, is_decimal, items_read, list_at, may_be_pairs};
ghost use Rattle.tlv_text.specs.Numbers.{may_follow_number, number_at, numbers_read, step_at, two_or_more};
ghost use Rattle.tlv_text.specs.Private.NumberSteps.{IsWithinText, list_value};
ghost use Rattle.tlv_text.specs.TextRead.{PartRead, refused_in};
ghost use Rattle.tlv_text.specs.declared.numbers.Place.TheVariants.{AtStart};

use crate::Decoded;
use crate::decoded::refused_in;
use memchr::memchr2;
use std::alloc::{AllocError, Global};

/// One to three digits of a text.
#[derive(Clone, Copy, Debug, PartialEq, Eq)]
pub(crate) struct Digits {
    /// Their value.
    pub(crate) value: u16,
    /// The number of digits after the first.
    pub(crate) more: usize,
}

/// A number of a text.
#[derive(Clone, Copy, Debug, PartialEq, Eq)]
pub(crate) struct Number {
    /// Its octet.
    pub(crate) octet: u8,
    /// The number of its characters after the first.
    pub(crate) more: usize,
}

/// A place in a list of numbers.
#[derive(Clone, Copy, Debug, PartialEq, Eq)]
pub(crate) enum Place {
    /// After the opening of the list.
    AtStart,
    /// After a number.
    AfterNumber,
    /// After a comma.
    AfterComma,
}

/// What the first characters of a text are at a place of a list.
#[derive(Clone, Copy, Debug, PartialEq, Eq)]
pub(crate) enum Step {
    /// White space or a comma. The list goes on at this place.
    Passes(Place),
    /// A number.
    Reads(Number),
    /// The end of the list.
    Closes,
    /// No part of a list.
    Fails,
}

/// A list of numbers, as far as it is read.
#[derive(Debug, Drop)]
pub(crate) struct ListRead {
    /// The octets of its numbers.
    pub(crate) octets: Vec<u8>,
    /// If the text is refused, because the list breaks or a second one begins, the number of characters from there to
    /// its end.
    pub(crate) left: Option<usize>,
}

/// The octets of the only list of a text.
#[derive(Debug, Drop)]
pub(crate) struct NumbersRead {
    pub(crate) decoded: Decoded,
    /// Whether the numbers may be pairs of hexadecimal digits.
    pub(crate) may_be_pairs: bool,
}

/// Decodes the only list in a text: two or more decimal numbers from -128 to 255, in brackets or in braces, with commas
/// between them and perhaps one after the last. Anything may stand around the list. A text with such numbers is refused
/// where their list breaks, or where a second list begins. Returns `None` for a text without a list. The time is
/// linear, since no list has a second opening in it.
///
/// # Errors
///
/// `AllocError` if memory for the octets is refused.
pub fn decode_numbers(alloc: Global, text: &[u8]) -> Result<Option<Decoded>, AllocError>
    ensures { IfOk result (λ decoded. MatchOption decoded (numbers_read text.now ≡ None)
        (λ d. (list : PartRead) × (numbers_read text.now ≡ Some list) × (d.octets.items ≡ list.octets)
        × (d.refused ≡ refused_in text.now list.left))) }
{
    match read_numbers(alloc, text)? {
        Some(numbers) => Ok(Some(numbers.decoded)),
        None => Ok(None),
    }
}

/// Decodes the only list in a text, and says whether its numbers may be pairs of hexadecimal digits.
pub(crate) fn read_numbers(alloc: Global, text: &[u8]) -> Result<Option<NumbersRead>, AllocError>
    ensures list { IfOk result (λ numbers. MatchOption numbers (numbers_read text.now ≡ None)
        (λ n. (list : PartRead) × (numbers_read text.now ≡ Some list) × (n.decoded.octets.items ≡ list.octets)
        × (n.decoded.refused ≡ refused_in text.now list.left))) }
    ensures pairs { IfOk result (λ numbers. IfSome numbers (λ n. n.may_be_pairs ≡ may_be_pairs text.now)) }
{
    let mut rest = text;
    let Some(list) = first_list(alloc, &mut rest)? else {
        return Ok(None);
    };
    let may_be_pairs = has_zero_pair(rest) && !has_no_pair(rest);
    let list = only_list(alloc, list, rest)?;
    Ok(Some(NumbersRead {
        decoded: Decoded {
            refused: refused_in(text, list.left),
            octets: list.octets,
        },
        may_be_pairs,
    }))
}

/// The first list of a text. It is refused where the next list begins, if it does not break before. `rest` comes after
/// its opening.
fn only_list(alloc: Global, list: ListRead, rest: &[u8]) -> Result<ListRead, AllocError>
    ensures { IfOk result (λ only. list_value only ≡ alone_before (from_list rest.now) (list_value list)) }
{
    let mut after = rest;
    if first_list(alloc, &mut after)?.is_none() {
        return Ok(list);
    }
    Ok(ListRead {
        left: list.left.or(Some(after.len() + 1)),
        octets: list.octets,
    })
}

/// Whether two digits of a list, the first of them 0, come before another character. `text` comes after the opening of
/// the list.
fn has_zero_pair(text: &[u8]) -> bool
    ensures { result ≡ has_zero_pair text.now }
{
    let mut rest = text;
    while let [x, y, z, ..] = rest {
        if is_closing(*x) {
            return false;
        }
        if *x == b'0' && is_decimal(*y) && !is_decimal(*z) {
            return true;
        }
        rest = &rest[1..];
    }
    false
}

/// Whether a number of a list has a minus or three digits. `text` comes after the opening of the list.
fn has_no_pair(text: &[u8]) -> bool
    ensures { result ≡ has_no_pair text.now }
{
    let mut rest = text;
    while let [x, y, z, ..] = rest {
        if is_closing(*x) {
            return false;
        }
        if *x == b'-' || (is_decimal(*x) && is_decimal(*y) && is_decimal(*z)) {
            return true;
        }
        rest = &rest[1..];
    }
    false
}

/// Whether this closes a list.
fn is_closing(character: u8) -> bool
    ensures { result ≡ is_closing character }
{
    matches!(character, b']' | b'}')
}

/// Reads the first list of a text. Leaves what comes after its opening, or nothing if there is no list.
fn first_list(alloc: Global, text: &mut &[u8]) -> Result<Option<ListRead>, AllocError>
    ensures list { IfOk result (λ list. option_map list_value list ≡ list_at (from_list text.old.now)) }
    ensures rest { IfOk result (λ list. text.new.now ≡ drop 1 (from_list text.old.now)) }
    ensures shorter { IfOk result (λ list. length text.new.now ≤ length text.old.now - 1) }
{
    while let Some(place) = memchr2(b'[', b'{', text) {
        let list = list_at(alloc, &text[place..])?;
        *text = &text[place + 1..];
        if list.is_some() {
            return Ok(list);
        }
    }
    *text = &text[text.len()..];
    Ok(None)
}

/// Reads the list that a text begins with.
fn list_at(alloc: Global, text: &[u8]) -> Result<Option<ListRead>, AllocError>
    ensures { IfOk result (λ list. option_map list_value list ≡ list_at text.now) }
{
    match text {
        [b'[', rest @ ..] => Ok(two_or_more(read_items(alloc, b']', rest)?)),
        [b'{', rest @ ..] => Ok(two_or_more(read_items(alloc, b'}', rest)?)),
        _ => Ok(None),
    }
}

/// A list, unless it is one number alone: that may be a size, as in `[5]byte{48, 3, 2, 1, 5}`.
fn two_or_more(list: ListRead) -> Option<ListRead>
    ensures { option_map list_value result ≡ two_or_more (list_value list) }
{
    if list.octets.len() >= 2 {
        Some(list)
    } else {
        None
    }
}

/// Reads a list after its opening, up to this character, which closes it, or to where it breaks.
fn read_items(alloc: Global, close: u8, text: &[u8]) -> Result<ListRead, AllocError>
    ensures { IfOk result (λ list. list_value list ≡ items_read close 0 AtStart text.now) }
{
    let mut octets = Vec::new(alloc);
    let mut place = Place::AtStart;
    let mut rest = text;
    while let [_, more @ ..] = rest {
        match step_at(close, place, rest) {
            Step::Passes(next) => {
                place = next;
                rest = more;
            }
            Step::Reads(number) => {
                octets.push(number.octet)?;
                place = Place::AfterNumber;
                rest = &more[number.more..];
            }
            Step::Closes => return Ok(ListRead { octets, left: None }),
            Step::Fails => break,
        }
    }
    Ok(ListRead {
        octets,
        left: Some(rest.len()),
    })
}

/// What the first characters of a text are at a place of a list that this character closes.
fn step_at(close: u8, place: Place, text: &[u8]) -> Step
    ensures step { result ≡ step_at close place text.now }
    ensures within { IsWithinText result (length text.now) }
{
    match place {
        Place::AtStart => before_number(place, false, close, text),
        Place::AfterComma => before_number(place, true, close, text),
        Place::AfterNumber => after_number(close, text),
    }
}

/// The step where a number may begin.
fn before_number(place: Place, may_close: bool, close: u8, text: &[u8]) -> Step
    ensures step { result ≡ before_number place may_close close text.now }
    ensures within { IsWithinText result (length text.now) }
{
    match text {
        [x, ..] if is_white(*x) => Step::Passes(place),
        [x, ..] if may_close && *x == close => Step::Closes,
        _ => match number_at(close, text) {
            Some(number) => Step::Reads(number),
            None => Step::Fails,
        },
    }
}

/// The step after a number.
fn after_number(close: u8, text: &[u8]) -> Step
    ensures step { result ≡ after_number close text.now }
    ensures within { IsWithinText result (length text.now) }
{
    match text {
        [x, ..] if is_white(*x) => Step::Passes(Place::AfterNumber),
        [b',', ..] => Step::Passes(Place::AfterComma),
        [x, ..] if *x == close => Step::Closes,
        _ => Step::Fails,
    }
}

/// The number that a text begins with.
fn number_at(close: u8, text: &[u8]) -> Option<Number>
    ensures number { result ≡ number_at close text.now }
    ensures within { MatchOption result Unit (λ n. 1 + n.more ≤ length text.now) }
{
    match text {
        [b'-', rest @ ..] => {
            let digits = digits_at(close, rest)?;
            if digits.value > 128 {
                return None;
            }
            Some(Number {
                octet: ((256 - digits.value) % 256) as u8,
                more: 1 + digits.more,
            })
        }
        _ => {
            let digits = digits_at(close, text)?;
            if digits.value > 255 {
                return None;
            }
            Some(Number {
                octet: digits.value as u8,
                more: digits.more,
            })
        }
    }
}

/// The digits that a text begins with, one to three, if the end of a number follows them.
fn digits_at(close: u8, text: &[u8]) -> Option<Digits>
    ensures digits { result ≡ digits_at close text.now }
    ensures within { MatchOption result Unit (λ d. 1 + d.more ≤ length text.now) }
{
    match text {
        [x, y, z, rest @ ..]
            if is_decimal(*x)
                && is_decimal(*y)
                && is_decimal(*z)
                && may_follow_number(close, rest) => {
            Some(Digits {
                value: digit_value(*x) * 100 + digit_value(*y) * 10 + digit_value(*z),
                more: 2,
            })
        }
        [x, y, rest @ ..] if is_decimal(*x) && is_decimal(*y) && may_follow_number(close, rest) => {
            Some(Digits {
                value: digit_value(*x) * 10 + digit_value(*y),
                more: 1,
            })
        }
        [x, rest @ ..] if is_decimal(*x) && may_follow_number(close, rest) => Some(Digits {
            value: digit_value(*x),
            more: 0,
        }),
        _ => None,
    }
}

/// Whether this may follow a number: white space, a comma, or the character that closes the list.
#[inline(always)]
fn may_follow_number(close: u8, text: &[u8]) -> bool
    ensures { result ≡ may_follow_number close text.now }
{
    match text {
        [x, ..] => is_white(*x) || *x == b',' || *x == close,
        [] => false,
    }
}

/// The value of a digit.
#[inline(always)]
fn digit_value(digit: u8) -> u16
    requires { is_decimal digit ≡ true }
    ensures value { result ≡ digit - 48 }
    ensures few { result ≤ 9 }
{
    u16::from(digit - b'0')
}

/// Whether this is a digit.
#[inline(always)]
fn is_decimal(character: u8) -> bool
    ensures { result ≡ is_decimal character }
{
    character.is_ascii_digit()
}

/// Whether this is white space.
#[inline(always)]
fn is_white(character: u8) -> bool
    ensures { result ≡ is_white character }
{
    matches!(character, b' ' | b'\t' | b'\n' | b'\r')
}
