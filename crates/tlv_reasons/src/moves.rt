//! What was done to the octets of an input as a whole: moved in pairs or fours, turned round, inverted.
ghost use Rattle.std.specs.Prelude.{◌≡◌, ◌≤◌, ◌↔◌, IfOk, IsTrue, length, reverse};
ghost use Rattle.tlv_head.specs.Limits.{input_limit};
ghost use Rattle.tlv_reasons.specs.Moves.{IsFirstMove, IsMove, IsUndoneMove, all_moves, inverted, turned_fours, turned_pairs};
ghost use Rattle.tlv_reasons.specs.Moves.{undone_move};

use crate::sound::is_sound;
use std::alloc::{AllocError, Global};

/// The least number of octets of an input of which this is looked for.
const LEAST_MOVED: usize = 256;

/// What was done to all octets of an input, so that undoing it makes it sound.
#[derive(Clone, Copy, PartialEq, Eq, Debug)]
pub enum Move {
    /// The two octets of each pair stand in reverse order.
    Pairs,
    /// The four octets of each four stand in reverse order.
    Fours,
    /// All octets stand in reverse order.
    Reversed,
    /// Each bit is inverted.
    Inverted,
}

/// What was done to all octets of the input, so that it would be sound if that were undone: the first of pairs and fours
/// in reverse order, all octets in reverse order, and inverted bits. `None` if there is nothing of this, or if the input
/// has fewer than 256 octets. With `padding`, octets `00` are allowed at the top level.
///
/// # Errors
///
/// `AllocError` if memory for a copy of the input is refused.
pub fn octets_moved(alloc: Global, octets: &[u8], padding: bool) -> Result<Option<Move>, AllocError>
    requires { length octets.now ≤ input_limit }
    ensures { IfOk result (λ found. IsMove padding octets.now found) }
{
    if octets.len() < LEAST_MOVED {
        return Ok(None);
    }
    first_move(alloc, octets, padding)
}

/// [`octets_moved`] of an input that has enough octets.
fn first_move(alloc: Global, octets: &[u8], padding: bool) -> Result<Option<Move>, AllocError>
    requires { length octets.now ≤ input_limit }
    ensures { IfOk result (λ found. IsFirstMove padding octets.now all_moves found) }
{
    if is_undone(alloc, octets, padding, Move::Pairs)? {
        return Ok(Some(Move::Pairs));
    }
    if is_undone(alloc, octets, padding, Move::Fours)? {
        return Ok(Some(Move::Fours));
    }
    if is_undone(alloc, octets, padding, Move::Reversed)? {
        return Ok(Some(Move::Reversed));
    }
    if is_undone(alloc, octets, padding, Move::Inverted)? {
        return Ok(Some(Move::Inverted));
    }
    Ok(None)
}

/// Whether the input would be sound if this were undone.
fn is_undone(alloc: Global, octets: &[u8], padding: bool, change: Move) -> Result<bool, AllocError>
    requires { length octets.now ≤ input_limit }
    ensures { IfOk result (λ undone. IsTrue undone ↔ IsUndoneMove padding octets.now change) }
{
    let copy = undone_move(alloc, octets, change)?;
    Ok(is_sound(copy.as_slice(), padding))
}

/// The octets that these were, if this was done to them.
fn undone_move(alloc: Global, octets: &[u8], change: Move) -> Result<Vec<u8>, AllocError>
    ensures { IfOk result (λ copy. copy.items ≡ undone_move change octets.now) }
{
    match change {
        Move::Pairs => turned_pairs(alloc, octets),
        Move::Fours => turned_fours(alloc, octets),
        Move::Reversed => reversed(alloc, octets),
        Move::Inverted => inverted(alloc, octets),
    }
}

/// The octets, with those of each pair in reverse order.
fn turned_pairs(alloc: Global, octets: &[u8]) -> Result<Vec<u8>, AllocError>
    ensures { IfOk result (λ copy. copy.items ≡ turned_pairs octets.now) }
{
    let mut copy = Vec::new(alloc);
    let mut rest = octets;
    while let [first, second, more @ ..] = rest {
        copy.push(*second)?;
        copy.push(*first)?;
        rest = more;
    }
    copy.extend_from_slice(rest)?;
    Ok(copy)
}

/// The octets, with those of each four in reverse order.
fn turned_fours(alloc: Global, octets: &[u8]) -> Result<Vec<u8>, AllocError>
    ensures { IfOk result (λ copy. copy.items ≡ turned_fours octets.now) }
{
    let mut copy = Vec::new(alloc);
    let mut rest = octets;
    while let [first, second, third, fourth, more @ ..] = rest {
        copy.extend_from_slice(&[*fourth, *third, *second, *first])?;
        rest = more;
    }
    copy.extend_from_slice(rest)?;
    Ok(copy)
}

/// The octets in reverse order.
fn reversed(alloc: Global, octets: &[u8]) -> Result<Vec<u8>, AllocError>
    ensures { IfOk result (λ copy. copy.items ≡ reverse octets.now) }
{
    let mut copy = Vec::new(alloc);
    copy.extend_from_slice(octets)?;
    copy.as_mut_slice().reverse();
    Ok(copy)
}

/// The octets with each bit inverted.
fn inverted(alloc: Global, octets: &[u8]) -> Result<Vec<u8>, AllocError>
    ensures { IfOk result (λ copy. copy.items ≡ inverted octets.now) }
{
    let mut copy = Vec::new(alloc);
    for octet in octets {
        copy.push(255 - *octet)?;
    }
    Ok(copy)
}
