//! Runs of base64.
ghost use Rattle.std.specs.Prelude.{IfOk, map};
ghost use Rattle.tlv_text.specs.Blocks.{AreRunBlocks, block_value};

use super::lines::{TEXT_START, line_from, state_at_place};
use crate::{Alphabet, Block, decode_base64, first_run};
use arrayvec::ArrayVec;
use std::alloc::{AllocError, Global};

/// The runs of base64 of a text, in order.
pub(super) fn run_blocks(alloc: Global, text: &[u8]) -> Result<Vec<Block>, AllocError>
    ensures { IfOk result (λ blocks. AreRunBlocks text.now text.now (map block_value blocks.items)) }
{
    let mut blocks = Vec::new(alloc);
    let mut here = TEXT_START;
    let mut rest = text;
    while let Some(run) = first_run(rest) {
        here = line_from(text, here, text.len() - rest.len() + run.start);
        let decoded = decode_base64(alloc, Alphabet::Standard, run.text)?;
        let state = state_at_place(text, here, here.place, decoded.refused);
        blocks.push(Block {
            line: here.line,
            label: ArrayVec::new(),
            octets: decoded.octets,
            state,
        })?;
        rest = run.rest;
    }
    Ok(blocks)
}
