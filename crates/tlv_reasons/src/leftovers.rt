//! The sentences about the octets after the last whole encoding.
ghost use Rattle.std.specs.Prelude.{◌≡◌, ◌≤◌, length};
ghost use Rattle.std.specs.List.{list_all};
ghost use Rattle.tlv_reasons.specs.Leftovers.{are_all, are_text, are_blank_octets, are_filler, following_reasons, is_blank_octet};
ghost use Rattle.tlv_reasons.specs.Leftovers.{is_followed_by_other, is_text_octet, left_over, what_follows};

use crate::Sentence;
use crate::facts_call::{octet_at, octets_from};
use crate::fault_reasons::{Reasons, said};

/// How many octets are left over after the whole encodings, which end at the offset `top`, if there are any.
pub(crate) fn left_over(top: u64, left: u64) -> Reasons
    ensures reasons { result.items ≡ left_over top left }
    ensures few { length result.items ≤ 2 }
{
    if top == 0 {
        return Reasons::new();
    }
    said(&[
        Some(Sentence::LeftOver { end: top, left }),
        Some(Sentence::TryWhole(top)),
    ])
}

/// Whether there are whole encodings, and only blanks, filler or text follow them.
pub(crate) fn is_followed_by_other(octets: &[u8], top: u64) -> bool
    ensures { result ≡ is_followed_by_other octets.now top }
{
    if top == 0 || top >= octets.len() as u64 {
        return false;
    }
    let rest = octets_from(octets, top);
    are_blank_octets(rest) || are_filler(rest) || are_text(rest)
}

/// What follows the whole encodings, which end at the offset `top`, and how to have these alone.
pub(crate) fn following_reasons(octets: &[u8], top: u64) -> Reasons
    ensures reasons { result.items ≡ following_reasons octets.now top }
    ensures few { length result.items ≤ 2 }
{
    said(&[
        Some(what_follows(octets, top)),
        Some(Sentence::TryWhole(top)),
    ])
}

/// What follows the whole encodings: blanks, filler or text.
fn what_follows(octets: &[u8], top: u64) -> Sentence
    ensures { result ≡ what_follows octets.now top }
{
    let rest = octets_from(octets, top);
    let left = (octets.len() as u64).saturating_sub(top);
    if are_blank_octets(rest) {
        Sentence::BlanksFollow { end: top, left }
    } else if are_filler(rest) {
        Sentence::FillerFollows { end: top, left }
    } else {
        Sentence::TextFollows { end: top, left }
    }
}

/// Whether all of these octets are blank.
fn are_blank_octets(octets: &[u8]) -> bool
    ensures { result ≡ are_blank_octets octets.now }
{
    for octet in octets {
        if !is_blank_octet(*octet) {
            return false;
        }
    }
    true
}

/// Whether this octet is blank: a space, HT, LF, CR or SUB.
fn is_blank_octet(octet: u8) -> bool
    ensures { result ≡ is_blank_octet octet }
{
    octet == b' ' || octet == b'\t' || octet == b'\n' || octet == b'\r' || octet == 0x1a
}

/// Whether these are two or more equal octets other than `00`.
fn are_filler(octets: &[u8]) -> bool
    ensures { result ≡ are_filler octets.now }
{
    let first = octet_at(octets, 0);
    octets.len() > 1 && first != 0 && are_all(first, octets)
}

/// Whether all octets equal this one.
fn are_all(octet: u8, octets: &[u8]) -> bool
    ensures { result ≡ are_all octet octets.now }
{
    for other in octets {
        if *other != octet {
            return false;
        }
    }
    true
}

/// Whether these are eight or more octets of printable text.
fn are_text(octets: &[u8]) -> bool
    ensures { result ≡ are_text octets.now }
{
    octets.len() >= 8 && are_text_octets(octets)
}

/// Whether all of these octets are of printable text.
fn are_text_octets(octets: &[u8]) -> bool
    ensures { result ≡ list_all is_text_octet octets.now }
{
    for octet in octets {
        if !is_text_octet(*octet) {
            return false;
        }
    }
    true
}

/// Whether this is an octet of printable text: HT, LF, CR, or a character of ASCII that is shown.
fn is_text_octet(octet: u8) -> bool
    ensures { result ≡ is_text_octet octet }
{
    octet == b'\t' || octet == b'\n' || octet == b'\r' || (octet >= 0x20 && octet <= 0x7e)
}
