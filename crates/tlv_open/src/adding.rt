//! Adds the strings found among elements, and returns whether the elements are sound.
ghost use Rattle.std.specs.Prelude.{◌≡◌, ◌≢◌, ◌≤◌, ◌+◌, ◌<◌, ◌↔◌, IfOk, IsTrue, List, OnOk, ℕ};
ghost use Rattle.std.specs.Prelude.{Some, false, length, slice_index, true};
ghost use Rattle.tlv_head.specs.Limits.{depth_limit, input_limit};
ghost use Rattle.tlv_head.specs.Header.{HeaderValue};
ghost use Rattle.tlv_head.specs.ReadHeader.{BeginsWithFields};
ghost use Rattle.tlv_open.specs.Held.{HoldsEncodings, inner_octets};
ghost use Rattle.tlv_open.specs.Private.Adds.{AddsAt, AddsElement, AddsElements, IsKept, Tries};
ghost use Rattle.tlv_open.specs.Private.Finds.{found_of};
ghost use Rattle.tlv_walk.specs.Forest.{Forest};

use crate::Strings;
use crate::breaking::{add_broken, broken_string};
use crate::elements::{
    DEPTH_LIMIT, is_elements_end, is_likely_if, quick_header_at, two_octet_header,
};
use crate::extent::{Extent, plain_size, unended};
use crate::held::held_octets;
use crate::spot::{Spot, inside, inside_lacking, is_octet_or_bit_string, is_value_before};
use std::alloc::AllocError;
use tlv_head::{HeaderFields, Size};

/// Adds the strings found among the elements that make up the octets, and inside those elements. The octets begin at
/// this offset from `spot.start`. Returns whether the elements are sound.
#[cycle(find)]
#[inline(always)]
pub(crate) fn add_all_strings(
    octets: &[u8],
    offset: u64,
    spot: &Spot,
    found: &mut Strings,
) -> Result<bool, AllocError>
    requires { spot.now.start + (offset + length octets.now) ≤ input_limit }
    ensures { IfOk result (λ sound. AddsElements spot.now offset false octets.now
        (found_of found.old) (found_of found.new) (record { size = length octets.now; sound = sound })) }
{
    let extent = add_strings(octets, offset, spot, false, found)?;
    Ok(extent.sound)
}

/// Adds the strings found among the leading elements of the octets, up to `00 00`, and inside those elements. Returns
/// the size of the elements in octets, and whether they are sound.
#[cycle(find)]
#[inline(always)]
fn add_ended_strings(
    octets: &[u8],
    offset: u64,
    spot: &Spot,
    found: &mut Strings,
) -> Result<Extent, AllocError>
    requires { spot.now.start + (offset + length octets.now) ≤ input_limit }
    ensures { IfOk result (AddsElements spot.now offset true octets.now
        (found_of found.old) (found_of found.new)) }
{
    add_strings(octets, offset, spot, true, found)
}

/// Adds the strings found among the leading elements of the octets, which begin at this offset from `spot.start`, and
/// inside those elements. With `end_octets`, the elements end before `00 00`; otherwise they end with the octets.
/// Returns their size in octets, and whether they are sound. One loop for both callers: two of them, one in each, are
/// slower.
#[cycle(find)]
#[inline(never)]
fn add_strings(
    octets: &[u8],
    offset: u64,
    spot: &Spot,
    end_octets: bool,
    found: &mut Strings,
) -> Result<Extent, AllocError>
    requires { spot.now.start + (offset + length octets.now) ≤ input_limit }
    ensures adds { IfOk result (AddsElements spot.now offset end_octets octets.now
        (found_of found.old) (found_of found.new)) }
    ensures all { end_octets ≡ false → IfOk result (λ e. e.size ≡ length octets.now) }
{
    let mut at = 0;
    let mut sound = true;
    while at < octets.len() {
        let rest = &octets[at..];
        let begin = offset + at as u64;
        let element = match two_octet_header(rest, begin) {
            Some((fields, count)) => {
                if let Some(size) = plain_size(rest, &fields, count, spot.likely) {
                    at += size;
                    continue;
                }
                add_with(rest, begin, &fields, count, spot, end_octets, found)?
            }
            None if octets[at] != 0 => add_after_long(rest, begin, spot, end_octets, found)?,
            None if end_octets => {
                sound &= is_elements_end(rest, true);
                return Ok(Extent { size: at, sound });
            }
            None => Extent {
                size: 1,
                sound: spot.padding,
            },
        };
        at += element.size;
        sound &= element.sound;
    }
    sound &= !end_octets;
    Ok(Extent { size: at, sound })
}

/// Adds the strings found in the first element of the octets, which may itself be such a string. Returns its size in
/// octets, and whether it is sound; an element that has not ended takes all the octets. The header may have any length.
#[cycle(find)]
#[inline(never)]
fn add_after_long(
    octets: &[u8],
    offset: u64,
    spot: &Spot,
    end_octets: bool,
    found: &mut Strings,
) -> Result<Extent, AllocError>
    requires limit { spot.now.start + (offset + length octets.now) ≤ input_limit }
    requires begun { slice_index octets.now 0 ≢ 0 }
    ensures { IfOk result (AddsElement spot.now offset end_octets octets.now
        (found_of found.old) (found_of found.new)) }
{
    match quick_header_at(octets, offset) {
        Some((fields, count)) => {
            add_with(octets, offset, &fields, count, spot, end_octets, found)
        }
        None => Ok(unended(octets)),
    }
}

/// [`add_after_long`] for an element whose header has these fields and `count` octets.
#[cycle(find)]
#[inline(always)]
fn add_with(
    octets: &[u8],
    offset: u64,
    fields: &HeaderFields,
    count: usize,
    spot: &Spot,
    end_octets: bool,
    found: &mut Strings,
) -> Result<Extent, AllocError>
    requires limit { spot.now.start + (offset + length octets.now) ≤ input_limit }
    requires begins { BeginsWithFields octets.now offset false fields.now count }
    ensures { IfOk result (AddsElement spot.now offset end_octets octets.now
        (found_of found.old) (found_of found.new)) }
{
    if fields.constructed {
        return add_in_holder(octets, offset, fields, count, spot, end_octets, found);
    }
    let length = fields.size.announced_length();
    if length > (octets.len() - count) as u64 {
        return Ok(unended(octets));
    }
    let size = count + length as usize;
    let sound = is_likely_if(spot.likely, &octets[..size], offset);
    if !is_octet_or_bit_string(fields) {
        return Ok(Extent { size, sound });
    }
    let is_value = is_value_before(spot, &octets[size..], end_octets);
    add_string(&octets[..size], offset, is_value, spot, found)?;
    Ok(Extent { size, sound })
}

/// [`add_after_long`] for a constructed element whose header has these fields and `count` octets.
#[cycle(find)]
#[inline(always)]
fn add_in_holder(
    octets: &[u8],
    offset: u64,
    fields: &HeaderFields,
    count: usize,
    spot: &Spot,
    end_octets: bool,
    found: &mut Strings,
) -> Result<Extent, AllocError>
    requires limit { spot.now.start + (offset + length octets.now) ≤ input_limit }
    requires begins { BeginsWithFields octets.now offset false fields.now count }
    requires constructed { fields.now.constructed ≡ true }
    ensures { IfOk result (AddsElement spot.now offset end_octets octets.now
        (found_of found.old) (found_of found.new)) }
{
    if spot.depth >= DEPTH_LIMIT {
        return Ok(unended(octets));
    }
    let Size::Definite(length) = fields.size else {
        return add_in_indefinite(octets, offset, fields, count, spot, end_octets, found);
    };
    let rest = &octets[count..];
    let start = offset + count as u64;
    if length > rest.len() as u64 {
        add_all_strings(rest, start, &inside_lacking(spot, fields), found)?;
        return Ok(unended(octets));
    }
    let contents = &rest[..length as usize];
    let inner = inside(spot, fields, contents, start, false);
    let sound = add_all_strings(contents, start, &inner, found)?;
    Ok(Extent {
        size: count + contents.len(),
        sound,
    })
}

/// [`add_in_holder`], if the length is indefinite.
#[cycle(find)]
#[inline(always)]
fn add_in_indefinite(
    octets: &[u8],
    offset: u64,
    fields: &HeaderFields,
    count: usize,
    spot: &Spot,
    end_octets: bool,
    found: &mut Strings,
) -> Result<Extent, AllocError>
    requires limit { spot.now.start + (offset + length octets.now) ≤ input_limit }
    requires begins { BeginsWithFields octets.now offset false fields.now count }
    requires indefinite { fields.now.size ≡ Size.Indefinite }
    requires shallow { spot.now.depth < depth_limit }
    ensures { IfOk result (AddsElement spot.now offset end_octets octets.now
        (found_of found.old) (found_of found.new)) }
{
    let rest = &octets[count..];
    let start = offset + count as u64;
    let inner = inside(spot, fields, rest, start, true);
    let extent = add_ended_strings(rest, start, &inner, found)?;
    if is_elements_end(&rest[extent.size..], true) {
        return Ok(Extent {
            size: count + extent.size + 2,
            sound: extent.sound,
        });
    }
    Ok(unended(octets))
}

/// Adds the primitive at this offset, encoded by these octets, if it is an opened or broken string, and the strings
/// found in it. Reads its header again, so that the header need not be kept for all other elements.
#[cycle(find)]
#[inline(never)]
fn add_string(
    octets: &[u8],
    offset: u64,
    is_value: bool,
    spot: &Spot,
    found: &mut Strings,
) -> Result<(), AllocError>
    requires { spot.now.start + (offset + length octets.now) ≤ input_limit }
    ensures adds { OnOk result (AddsAt spot.now is_value octets.now offset
        (found_of found.old) (found_of found.new)) }
    ensures kept { OnOk result (IsKept (found_of found.old) (found_of found.new)) }
{
    if !spot.may_open {
        return Ok(());
    }
    let Some((fields, count)) = quick_header_at(octets, offset) else {
        return Ok(());
    };
    let Some(inner) = held_octets(fields.class, fields.number, &octets[count..]) else {
        return Ok(());
    };
    let begin = spot.start + offset;
    let start = begin + (octets.len() - inner.len()) as u64;
    if add_held(inner, begin, start, spot, found)? {
        return Ok(());
    }
    let broken = broken_string(begin, spot.depth, octets, inner, is_value);
    add_broken(broken, &mut found.broken)?;
    Ok(())
}

/// If these octets, which begin at `start`, are encodings, adds the string at this offset that holds them, and the
/// strings found in it. Returns whether they are encodings; if not, `found` is as before.
#[cycle(find)]
fn add_held(
    octets: &[u8],
    offset: u64,
    start: u64,
    spot: &Spot,
    found: &mut Strings,
) -> Result<bool, AllocError>
    requires { start + length octets.now ≤ input_limit }
    ensures held { IfOk result (λ b. (h : HeaderValue) (contents : List ℕ) → inner_octets h contents ≡ Some octets.now
        → IsTrue b ↔ ((inner : Forest) × HoldsEncodings spot.now.depth h contents inner)) }
    ensures tries { IfOk result (λ b. Tries spot.now start offset octets.now
        (found_of found.old) (found_of found.new) b) }
    ensures kept { OnOk result (IsKept (found_of found.old) (found_of found.new)) }
{
    if spot.depth >= DEPTH_LIMIT || octets.is_empty() {
        return Ok(false);
    }
    let opened = found.opened.len();
    let broken = found.broken.len();
    found.opened.push(offset)?;
    let held = Spot {
        start,
        depth: spot.depth + 1,
        may_open: true,
        in_extension: false,
        likely: true,
        padding: false,
    };
    let sound = add_all_strings(octets, 0, &held, found)?;
    if sound {
        return Ok(true);
    }
    found.opened.truncate(opened);
    found.broken.truncate(broken);
    Ok(false)
}
