//! The blocks of a text in a form.
ghost use Rattle.std.specs.Prelude.{◌≡◌, [], ◌∷◌, IfErr, IfOk, MatchOption, false, map};
ghost use Rattle.tlv_text.specs.Blocks.{AreBlocks, HasNoLoneBase64, HasNoLoneHex, IsBase64Alone};
ghost use Rattle.tlv_text.specs.Blocks.{IsBlocksFault, IsHexAlone, are_too_long, block_value, or_absent};

mod lines;
mod pem;
mod runs;
mod single;

use crate::dump::text_limit;
use crate::pairs::lone_octets;
use crate::plain::plain_octets;
use crate::{Block, BlockState, Form, TextFault};
use pem::pem_blocks;
use runs::run_blocks;
use single::{absent_block, base64_block, dump_block, hex_block, numbers_block, only_block};
use std::alloc::{AllocError, Global};

/// Returns the blocks of a text in a form, in order, each with its octets decoded. A dump, hexadecimal, numbers and
/// base64 have one block. If a text has no block of PEM, no run of base64 or no list of numbers, there is one block
/// that says so.
///
/// # Errors
///
/// `TextFault::TooLong` if the blocks have more than 2^30 octets in all, or 2^24 more than the text has characters.
/// `TextFault::Memory` if memory is refused.
pub fn blocks_of(alloc: Global, form: Form, text: &[u8]) -> Result<Vec<Block>, TextFault>
    ensures blocks { IfOk result (λ blocks. AreBlocks text.now form (map block_value blocks.items)) }
    ensures fit { IfOk result (λ blocks. are_too_long text.now (map block_value blocks.items) ≡ false) }
    ensures fault { IfErr result (IsBlocksFault text.now form) }
{
    let blocks = decoded_blocks(alloc, form, text)?;
    if are_too_long(text, blocks.as_slice()) {
        return Err(TextFault::TooLong);
    }
    Ok(blocks)
}

/// Returns the block of hexadecimal of a text of pairs, if the text has nothing but digits and line ends, or if no
/// digit follows a pair at once. Such a text has no block of PEM and no row of a dump. `None` for another text, or if
/// the block has more octets than `blocks_of` returns.
///
/// # Errors
///
/// `AllocError` if memory for the octets is refused.
pub fn lone_hex_block(alloc: Global, text: &[u8]) -> Result<Option<Block>, AllocError>
    ensures { IfOk result (λ block. MatchOption block (HasNoLoneHex text.now)
        (λ b. IsHexAlone text.now (block_value b))) }
{
    let Some(octets) = lone_octets(alloc, text)? else {
        return Ok(None);
    };
    if octets.len() > text_limit(text) {
        return Ok(None);
    }
    Ok(Some(only_block(octets, BlockState::Whole)))
}

/// Returns the block of a text that is base64 and has nothing but symbols (with `+` and `/`), padding and line ends.
/// Such a text has no block of PEM, no row of a dump and no list of numbers. `None` for another text, or if the block
/// has more octets than `blocks_of` returns.
///
/// # Errors
///
/// `AllocError` if memory for the octets is refused.
pub fn lone_base64_block(alloc: Global, text: &[u8]) -> Result<Option<Block>, AllocError>
    ensures { IfOk result (λ block. MatchOption block (HasNoLoneBase64 text.now)
        (λ b. IsBase64Alone text.now (block_value b))) }
{
    let Some(octets) = plain_octets(alloc, text)? else {
        return Ok(None);
    };
    if octets.len() > text_limit(text) {
        return Ok(None);
    }
    Ok(Some(only_block(octets, BlockState::Whole)))
}

/// The blocks of a text in a form, however long.
#[tactic(auto, using(crate::proofs::BlockLemmas::block_forms))]
fn decoded_blocks(alloc: Global, form: Form, text: &[u8]) -> Result<Vec<Block>, TextFault>
    ensures blocks { IfOk result (λ blocks. AreBlocks text.now form (map block_value blocks.items)) }
    ensures fault { IfErr result (IsBlocksFault text.now form) }
{
    match form {
        Form::Pem => Ok(or_absent(alloc, pem_blocks(alloc, text)?)?),
        Form::Dump => Ok(one_block(alloc, dump_block(alloc, text)?)?),
        Form::Hex => Ok(one_block(alloc, hex_block(alloc, text)?)?),
        Form::Numbers => Ok(one_block(alloc, numbers_block(alloc, text)?)?),
        Form::Base64 => Ok(one_block(alloc, base64_block(alloc, text)?)?),
        Form::Runs => Ok(or_absent(alloc, run_blocks(alloc, text)?)?),
    }
}

/// The blocks, or one that says that there is none.
fn or_absent(alloc: Global, blocks: Vec<Block>) -> Result<Vec<Block>, AllocError>
    ensures { IfOk result (λ all. map block_value all.items ≡ or_absent (map block_value blocks.items)) }
{
    if blocks.is_empty() {
        one_block(alloc, absent_block(alloc))
    } else {
        Ok(blocks)
    }
}

/// A list of one block.
fn one_block(alloc: Global, block: Block) -> Result<Vec<Block>, AllocError>
    ensures { IfOk result (λ blocks. map block_value blocks.items ≡ block_value block ∷ []) }
{
    let mut blocks = Vec::new(alloc);
    blocks.push(block)?;
    Ok(blocks)
}

/// Whether blocks have more octets in all than a text may have.
fn are_too_long(text: &[u8], blocks: &[Block]) -> bool
    ensures { result ≡ are_too_long text.now (map block_value blocks.now) }
{
    let mut left = text_limit(text);
    for block in blocks {
        let count = block.octets.len();
        if count > left {
            return true;
        }
        left -= count;
    }
    false
}
