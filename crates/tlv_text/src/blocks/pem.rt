//! Blocks of PEM.
ghost use Rattle.std.specs.Prelude.{◌≡◌, ◌≤◌, ◌+◌, IfOk, length, map};
ghost use Rattle.tlv_text.specs.Blocks.{ArePemBlocks, IsPemBlock, block_value, state_with_end};
ghost use Rattle.tlv_text.specs.Private.BlockSteps.{IsLineIn};

use super::lines::{LinePlace, TEXT_START, line_from, state_at_place};
use crate::base64_text::decode_with;
use crate::symbols::SYMBOLS;
use crate::{Alphabet, Block, BlockState, PemBlock, PemBody, first_block, pem_body};
use arrayvec::ArrayVec;
use std::alloc::{AllocError, Global};

/// The blocks of PEM of a text, in order.
pub(super) fn pem_blocks(alloc: Global, text: &[u8]) -> Result<Vec<Block>, AllocError>
    ensures { IfOk result (λ blocks. ArePemBlocks text.now text.now (map block_value blocks.items)) }
{
    let mut blocks = Vec::new(alloc);
    let mut symbols = ArrayVec::new();
    let mut here = TEXT_START;
    let mut rest = text;
    while let Some(found) = first_block(rest) {
        here = line_from(text, here, text.len() - rest.len() + found.start);
        let block = pem_block(alloc, text, here, found, &mut symbols)?;
        blocks.push(block)?;
        rest = found.rest;
    }
    Ok(blocks)
}

/// A block of PEM that begins at this place. `symbols` is room for symbols of base64.
fn pem_block(
    alloc: Global,
    text: &[u8],
    here: LinePlace,
    found: PemBlock<'_>,
    symbols: &mut ArrayVec<u8, SYMBOLS>,
) -> Result<Block, AllocError>
    requires line { IsLineIn text.now here }
    requires label { length found.label.now ≤ 64 }
    requires within { here.place + length found.body.now + length found.rest.now ≤ length text.now }
    ensures { IfOk result (λ b. IsPemBlock text.now here.place found.entry.label.now found.entry.body.now
        found.entry.rest.now (block_value b)) }
{
    let label = label_of(found.label);
    match pem_body(found.body) {
        PemBody::Encrypted => Ok(Block {
            line: here.line,
            label,
            octets: Vec::new(alloc),
            state: BlockState::Encrypted,
        }),
        PemBody::Base64(base64) => {
            let decoded = decode_with(alloc, Alphabet::Standard, base64, symbols)?;
            let before = text.len() - (base64.len() + found.rest.len());
            let state = state_at_place(text, here, before, decoded.refused);
            Ok(Block {
                line: here.line,
                label,
                octets: decoded.octets,
                state: state_with_end(found.rest, state),
            })
        }
    }
}

/// An owned copy of a label.
fn label_of(label: &[u8]) -> ArrayVec<u8, 64>
    requires { length label.now ≤ 64 }
    ensures { result.items ≡ label.now }
{
    let mut copy = ArrayVec::new();
    let _ = copy.try_extend_from_slice(label);
    copy
}

/// The state of a block, given the text after it: a block with nothing after it is not ended.
fn state_with_end(rest: &[u8], state: BlockState) -> BlockState
    ensures { result ≡ state_with_end rest.now state }
{
    match state {
        BlockState::Whole if rest.is_empty() => BlockState::Unended,
        _ => state,
    }
}
