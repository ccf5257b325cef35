//! A block of octets that stands twice.
ghost use Rattle.std.specs.Prelude.{◌≡◌, ◌≤◌, ◌+◌, ◌↔◌, IfOk, IfSome, IsTrue, Some, length};
ghost use Rattle.tlv_head.specs.Limits.{input_limit};
ghost use Rattle.tlv_reasons.specs.Doubled.{IsDoubled, IsDoubledBy, IsFirstDoubled, IsSoundWithout, begins_twice};
ghost use Rattle.tlv_reasons.specs.Doubled.{block_size, block_tries};
ghost use Rattle.tlv_reasons.specs.Mended.{wide_limit};

use crate::Facts;
use crate::bounds::WIDE_LIMIT;
use crate::sizes::{Difference, size_difference};
use crate::sound::is_sound;
use std::alloc::{AllocError, Global};

/// The most offsets that are tried.
const BLOCK_TRIES: u32 = 16;

/// A block of octets that stands twice: without one of the two, the input would be sound.
#[derive(Clone, Copy, PartialEq, Eq, Debug)]
pub struct Doubled {
    /// Where it stands first, in octets from the start of the input.
    pub offset: u64,
    /// The number of its octets.
    pub size: u64,
}

/// The block that stands twice, one right behind the other, if the input is longer by one block, of 2 octets or more,
/// than its outermost open element says: at the first of the first 16 such offsets for which the input is sound without
/// one of the two. `None` if there is none, or if the input has more than 262144 octets. With `padding`, octets `00` are
/// allowed at the top level.
///
/// # Errors
///
/// `AllocError` if memory for a copy of the input is refused.
pub fn doubled_block(
    alloc: Global,
    octets: &[u8],
    padding: bool,
    facts: &Facts,
) -> Result<Option<Doubled>, AllocError>
    requires { length octets.now ≤ input_limit }
    ensures { IfOk result (λ found. IsDoubled padding octets.now facts.now found) }
{
    match block_size(size_difference(octets, facts)) {
        Some(size) => block_of_size(alloc, octets, padding, size),
        None => Ok(None),
    }
}

/// How many octets a block has that would explain this difference.
fn block_size(difference: Option<Difference>) -> Option<usize>
    requires { IfSome difference (λ d. d.by ≤ 4096) }
    ensures size { result ≡ block_size difference }
    ensures short { IfSome result (λ n. n ≤ 4096) }
{
    match difference {
        Some(difference) if difference.is_longer && difference.by >= 2 => {
            Some(difference.by as usize)
        }
        _ => None,
    }
}

/// The block of this size that stands twice.
fn block_of_size(
    alloc: Global,
    octets: &[u8],
    padding: bool,
    size: usize,
) -> Result<Option<Doubled>, AllocError>
    requires short { size ≤ 4096 }
    requires limit { length octets.now ≤ input_limit }
    ensures { IfOk result (λ found. IsDoubledBy padding octets.now (Some size) found) }
{
    if octets.len() > WIDE_LIMIT {
        return Ok(None);
    }
    match first_doubled(alloc, octets, padding, size)? {
        Some(at) => Ok(Some(Doubled {
            offset: at as u64,
            size: size as u64,
        })),
        None => Ok(None),
    }
}

/// The first offset at which a block of this size stands twice, and without which the input would be sound.
fn first_doubled(
    alloc: Global,
    octets: &[u8],
    padding: bool,
    size: usize,
) -> Result<Option<usize>, AllocError>
    requires short { size ≤ 4096 }
    requires limit { length octets.now ≤ wide_limit }
    ensures { IfOk result (λ found. IsFirstDoubled padding octets.now size block_tries 0 found) }
{
    let mut tries = BLOCK_TRIES;
    for at in 0..octets.len() {
        if tries == 0 {
            return Ok(None);
        }
        if begins_twice(&octets[at..], size) {
            if is_sound_without(alloc, octets, padding, size, at)? {
                return Ok(Some(at));
            }
            tries -= 1;
        }
    }
    Ok(None)
}

/// Whether the octets begin with a block of this size and the same block again.
fn begins_twice(octets: &[u8], size: usize) -> bool
    requires { size ≤ 4096 }
    ensures { result ≡ begins_twice size octets.now }
{
    if octets.len() < 2 * size {
        return false;
    }
    let (front, more) = octets.split_at(size);
    front == &more[..size]
}

/// Whether the input would be sound without so many octets from this offset on.
fn is_sound_without(
    alloc: Global,
    octets: &[u8],
    padding: bool,
    size: usize,
    at: usize,
) -> Result<bool, AllocError>
    requires limit { length octets.now ≤ input_limit }
    requires within { at + size ≤ length octets.now }
    ensures { IfOk result (λ sound. IsTrue sound ↔ IsSoundWithout padding octets.now size at) }
{
    let mut copy = Vec::new(alloc);
    copy.extend_from_slice(&octets[..at])?;
    copy.extend_from_slice(&octets[at + size..])?;
    Ok(is_sound(copy.as_slice(), padding))
}
