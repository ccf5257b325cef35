//! Reads a header at once, from a slice that begins with it.
ghost use Rattle.std.specs.Prelude.{◌≤◌, IfSome, MatchOption};
ghost use Rattle.tlv_head.specs.Refusal.{BeginsWithNoHeader};
ghost use Rattle.tlv_head.specs.ReadHeader.{BeginsWithFields, BeginsWithNoShortHeader, IsShortHeader};
ghost use Rattle.tlv_head.specs.Private.NextOctet.{BeginsWithIdentifier, BeginsWithLength, BeginsWithNoIdentifier};
ghost use Rattle.tlv_head.specs.Private.NextOctet.{BeginsWithNoLength};

use crate::next_octet::{
    IdentifierFields, Next, Part, first_identifier, header_fields, next_number, read_octet,
};
use crate::{HeaderFields, Size};

/// The header with which the octets begin, whatever follows it, and its number of octets. `None` if the octets begin
/// with no header: the header is unfinished or refused, the first octet is `00`, or there is no octet. To read a
/// header that is cut into pieces, use a [`HeadReader`](crate::HeadReader).
#[inline]
pub fn read_header(offset: u64, named: bool, octets: &[u8]) -> Option<(HeaderFields, usize)>
    ensures { MatchOption result (BeginsWithNoHeader octets.now)
        (λ (fields, count). BeginsWithFields octets.now offset named fields count) }
{
    let mut part = Part::Start;
    for i in 0..octets.len() {
        // No header begins with `00`: it ends contents, or is refused (8.1.5).
        if i == 0 && octets[i] == 0 {
            return None;
        }
        match read_octet(part, octets[i]) {
            Next::Unfinished(next) => part = next,
            Next::Whole(identifier, size) => {
                return Some((header_fields(offset, named, identifier, size), i + 1));
            }
            Next::Refused(_) => return None,
        }
    }
    None
}

/// The header with which the octets begin, and its number of octets, if it has one to three identifier octets and one
/// to three length octets. `None` if the octets begin with no such header; [`read_header`] finds a longer one. It is
/// a separate function because most headers are this short, and can be read with few instructions.
#[inline(always)]
pub fn read_short(offset: u64, named: bool, octets: &[u8]) -> Option<(HeaderFields, usize)>
    ensures begins { MatchOption result (BeginsWithNoShortHeader octets.now)
        (λ (fields, count). BeginsWithFields octets.now offset named fields count) }
    ensures short { IfSome result (λ (fields, count). IsShortHeader fields count) }
{
    let identifier = short_identifier(octets)?;
    let id_len = usize::from(identifier.id_len);
    let (size, count) = short_length(identifier.constructed, &octets[id_len..])?;
    Some((
        header_fields(offset, named, identifier, size),
        id_len + count,
    ))
}

/// The identifier with which the octets begin, if it has at most three octets. `None` if the octets begin with no
/// such identifier with an octet after it.
#[inline(always)]
fn short_identifier(octets: &[u8]) -> Option<IdentifierFields>
    ensures { MatchOption result (BeginsWithNoIdentifier octets.now)
        (λ id. BeginsWithIdentifier octets.now id × (id.id_len ≤ 3)) }
{
    if octets.is_empty() || octets[0] == 0 {
        return None;
    }
    let high = match first_identifier(octets[0]) {
        Part::Identifier(identifier) => return Some(identifier),
        Part::Number(identifier) => identifier,
        _ => return None,
    };
    if octets.len() < 3 {
        return None;
    }
    match next_number(high, octets[1]) {
        Next::Unfinished(Part::Identifier(identifier)) => Some(identifier),
        Next::Unfinished(Part::Number(higher)) => match next_number(higher, octets[2]) {
            Next::Unfinished(Part::Identifier(identifier)) => Some(identifier),
            _ => None,
        },
        _ => None,
    }
}

/// The length with which the octets after the identifier begin, and its number of octets, if it has at most three.
/// `None` if they begin with no such length, or with one that an element of this form cannot have.
#[inline(always)]
fn short_length(constructed: bool, octets: &[u8]) -> Option<(Size, usize)>
    ensures { MatchOption result (BeginsWithNoLength octets.now constructed)
        (λ (size, count). BeginsWithLength octets.now constructed size count × (count ≤ 3)) }
{
    if octets.is_empty() {
        return None;
    }
    if octets[0] < 0x80 {
        return Some((Size::Definite(u64::from(octets[0])), 1));
    }
    if octets[0] == 0x80 {
        return if constructed {
            Some((Size::Indefinite, 1))
        } else {
            None
        };
    }
    if octets[0] == 0x81 && octets.len() >= 2 {
        return Some((Size::Definite(u64::from(octets[1])), 2));
    }
    if octets[0] == 0x82 && octets.len() >= 3 {
        let length = u64::from(octets[1]) * 256 + u64::from(octets[2]);
        return Some((Size::Definite(length), 3));
    }
    None
}
