//! Which single octet, missing from the contents of an element or put into them, would make an input sound.
ghost use Rattle.std.specs.Prelude.{◌<◌, ◌≤◌, ◌↔◌, IfOk, IsTrue, None, length};
ghost use Rattle.tlv_reasons.specs.OneOctet.{IsChangeAt, IsFirstChange, IsOctetChange, IsSoundWithoutLast, with_octet_at};
ghost use Rattle.tlv_reasons.specs.OneOctet.{without_octet_at};
ghost use Rattle.tlv_reasons.specs.WrongLength.{search_limit};
ghost use Rattle.tlv_walk.specs.Reading.{IsSoundList};

use crate::lengths::{SEARCH_LIMIT, WrongLength};
use crate::sound::is_sound_list;
use std::alloc::{AllocError, Global};
use tlv_head::read_header;
use tlv_walk::Framing;

/// An octet that is missing from the contents of an element, or was put into them: without this change, the input would
/// be sound. Each has the offset of the element, in octets from the start of the input.
#[derive(Clone, Copy, PartialEq, Eq, Debug)]
pub enum OctetChange {
    /// One octet more would have to stand after the header.
    Missing(usize),
    /// One octet fewer would have to stand after the header.
    PutIn(usize),
}

/// Finds after which of the headers at these offsets, in octets from the start of the input, one octet more or one octet
/// fewer would make the input sound: the first of them. At each header that announces contents, one octet more is tried
/// first. `None` if there is no such header, if another length was found (`wrong`), if the input has more than
/// [`SEARCH_LIMIT`] octets, or if it is sound without its last octet. `framing` says how the input is read: which strings
/// hold encodings, and whether octets `00` are allowed at the top level.
///
/// # Errors
///
/// `AllocError` if memory for a copy of the input is refused.
pub fn octet_change(
    alloc: Global,
    octets: &[u8],
    framing: &Framing<'_>,
    candidates: &[usize],
    wrong: Option<WrongLength>,
) -> Result<Option<OctetChange>, AllocError>
    ensures { IfOk result (λ found. IsOctetChange framing.now octets.now candidates.now wrong found) }
{
    match wrong {
        Some(_) => Ok(None),
        None => change_without_length(alloc, octets, framing, candidates),
    }
}

/// [`octet_change`], if no other length was found.
fn change_without_length(
    alloc: Global,
    octets: &[u8],
    framing: &Framing<'_>,
    candidates: &[usize],
) -> Result<Option<OctetChange>, AllocError>
    ensures { IfOk result (λ found. IsOctetChange framing.now octets.now candidates.now None found) }
{
    if octets.len() > SEARCH_LIMIT {
        return Ok(None);
    }
    if is_sound_without_last(octets, framing) {
        return Ok(None);
    }
    first_change(alloc, octets, framing, candidates)
}

/// Whether the input is sound without its last octet.
fn is_sound_without_last(octets: &[u8], framing: &Framing<'_>) -> bool
    requires { length octets.now ≤ search_limit }
    ensures { IsTrue result ↔ IsSoundWithoutLast framing.now octets.now }
{
    is_sound_list(&octets[..octets.len().saturating_sub(1)], framing)
}

/// [`octet_change`] of an input that is searched.
fn first_change(
    alloc: Global,
    octets: &[u8],
    framing: &Framing<'_>,
    candidates: &[usize],
) -> Result<Option<OctetChange>, AllocError>
    requires { length octets.now ≤ search_limit }
    ensures { IfOk result (λ found. IsFirstChange framing.now octets.now candidates.now found) }
{
    for &candidate in candidates {
        if let Some(change) = change_at(alloc, octets, framing, candidate)? {
            return Ok(Some(change));
        }
    }
    Ok(None)
}

/// Which of the two changes after the header at this offset would make the input sound.
fn change_at(
    alloc: Global,
    octets: &[u8],
    framing: &Framing<'_>,
    offset: usize,
) -> Result<Option<OctetChange>, AllocError>
    requires { length octets.now ≤ search_limit }
    ensures { IfOk result (λ found. IsChangeAt framing.now octets.now offset found) }
{
    if offset > octets.len() {
        return Ok(None);
    }
    let Some((fields, count)) = read_header(offset as u64, false, &octets[offset..]) else {
        return Ok(None);
    };
    let announced = fields.size.announced_length();
    if is_sound_with_octet(alloc, octets, framing, announced, offset + count)? {
        return Ok(Some(OctetChange::Missing(offset)));
    }
    if is_sound_without_octet(alloc, octets, framing, offset + count)? {
        return Ok(Some(OctetChange::PutIn(offset)));
    }
    Ok(None)
}

/// Whether contents are announced, and the input would be sound with an octet more at this place.
fn is_sound_with_octet(
    alloc: Global,
    octets: &[u8],
    framing: &Framing<'_>,
    announced: u64,
    place: usize,
) -> Result<bool, AllocError>
    requires limit { length octets.now ≤ search_limit }
    requires within { place ≤ length octets.now }
    ensures { IfOk result (λ sound.
        IsTrue sound ↔ (0 < announced) × IsSoundList framing.now (with_octet_at place octets.now)) }
{
    if announced == 0 {
        return Ok(false);
    }
    let mut copy = Vec::new(alloc);
    copy.extend_from_slice(&octets[..place])?;
    copy.push(0)?;
    copy.extend_from_slice(&octets[place..])?;
    Ok(is_sound_list(copy.as_slice(), framing))
}

/// Whether the input would be sound without the octet at this place. At the end of the input there is none.
fn is_sound_without_octet(
    alloc: Global,
    octets: &[u8],
    framing: &Framing<'_>,
    place: usize,
) -> Result<bool, AllocError>
    requires limit { length octets.now ≤ search_limit }
    requires within { place ≤ length octets.now }
    ensures { IfOk result (λ sound. IsTrue sound ↔ IsSoundList framing.now (without_octet_at place octets.now)) }
{
    let mut copy = Vec::new(alloc);
    copy.extend_from_slice(&octets[..place])?;
    if place < octets.len() {
        copy.extend_from_slice(&octets[place + 1..])?;
    }
    Ok(is_sound_list(copy.as_slice(), framing))
}
