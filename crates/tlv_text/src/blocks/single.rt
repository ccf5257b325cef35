//! Texts that are one block as a whole.
ghost use Rattle.std.specs.Prelude.{◌≡◌, IfErr, IfOk, length};
ghost use Rattle.tlv_text.specs.Blocks.{IsBase64Block, absent_block, alphabet_of, block_value, dump_block, hex_block};
ghost use Rattle.tlv_text.specs.Blocks.{hex_read, numbers_block, only_block, state_at_offset, state_at_place};
ghost use Rattle.tlv_text.specs.Blocks.{state_of_dump, state_of_list};
ghost use Rattle.tlv_text.specs.Dump.{IsFault};
ghost use Rattle.tlv_text.specs.DumpEnds.{dump_radix};
ghost use Rattle.tlv_text.specs.Numbers.{may_be_pairs};
ghost use Rattle.tlv_text.specs.Private.BlockSteps.{IsRefusedWithin};
ghost use Rattle.tlv_text.specs.TextRead.{refused_at};

use super::lines::{TEXT_START, line_from, state_at_place};
use crate::dump::{DumpDecoded, Radix, decode_with_radix, ends_dump, first_offset};
use crate::numbers::{NumbersRead, read_numbers};
use crate::{
    Alphabet, Block, BlockState, Decoded, TextFault, decode_base64, decode_pairs, decode_tokens,
    has_tokens,
};
use arrayvec::ArrayVec;
use memchr::memchr2;
use std::alloc::{AllocError, Global};

/// The block of a hex dump.
pub(super) fn dump_block(alloc: Global, text: &[u8]) -> Result<Block, TextFault>
    ensures block { IfOk result (λ b. block_value b ≡ dump_block text.now) }
    ensures fault { IfErr result (IsFault text.now) }
{
    match decode_with_radix(alloc, text) {
        Ok(DumpDecoded { decoded, radix }) => {
            let state = state_of_dump(text, radix, decoded.octets.as_slice(), decoded.refused);
            Ok(only_block(decoded.octets, state))
        }
        Err(fault) => Err(fault),
    }
}

/// The state of a dump with these octets, and with offsets of this radix.
fn state_of_dump(text: &[u8], radix: Radix, octets: &[u8], refused: Option<usize>) -> BlockState
    requires radix { radix ≡ dump_radix text.now }
    requires refused { IsRefusedWithin (length text.now) refused }
    ensures { result ≡ state_of_dump text.now octets.now refused }
{
    match refused {
        None => state_at_offset(first_offset(radix, text)),
        Some(place) if !octets.is_empty() && ends_dump(text, place) => {
            BlockState::Ended(line_from(text, TEXT_START, place).line)
        }
        Some(place) => BlockState::Refused(line_from(text, TEXT_START, place).line),
    }
}

/// The state of a dump of which nothing is refused, and that begins at this offset.
fn state_at_offset(offset: u64) -> BlockState
    ensures { result ≡ state_at_offset offset }
{
    if offset == 0 {
        BlockState::Whole
    } else {
        BlockState::BeginsAt(offset)
    }
}

/// The block of hexadecimal digits.
pub(super) fn hex_block(alloc: Global, text: &[u8]) -> Result<Block, AllocError>
    ensures { IfOk result (λ b. block_value b ≡ hex_block text.now) }
{
    let decoded = decode_hex(alloc, text)?;
    Ok(decoded_block(text, decoded))
}

/// The octets of tokens, if there are two or more of them, and otherwise of pairs.
fn decode_hex(alloc: Global, text: &[u8]) -> Result<Decoded, AllocError>
    ensures octets { IfOk result (λ d. d.octets.items ≡ (hex_read text.now).octets) }
    ensures refused { IfOk result (λ d. d.refused ≡ refused_at text.now (hex_read text.now).rest) }
{
    let pairs = decode_pairs(alloc, text)?;
    // A text that is pairs to its end has no token, so it need not be searched.
    if pairs.refused.is_none() || !has_tokens(text) {
        return Ok(pairs);
    }
    decode_tokens(alloc, text)
}

/// The block of decimal numbers.
pub(super) fn numbers_block(alloc: Global, text: &[u8]) -> Result<Block, AllocError>
    ensures { IfOk result (λ b. block_value b ≡ numbers_block text.now) }
{
    match read_numbers(alloc, text)? {
        Some(numbers) => Ok(list_block(text, numbers)),
        None => Ok(absent_block(alloc)),
    }
}

/// The block of a list of numbers.
fn list_block(text: &[u8], numbers: NumbersRead) -> Block
    requires refused { IsRefusedWithin (length text.now) numbers.decoded.refused }
    requires pairs { numbers.may_be_pairs ≡ may_be_pairs text.now }
    ensures { block_value result ≡ only_block numbers.decoded.octets.items
        (state_of_list text.now (state_at_place text.now 0 numbers.decoded.refused)) }
{
    let block = decoded_block(text, numbers.decoded);
    match block.state {
        BlockState::Whole if numbers.may_be_pairs => only_block(
            block.octets,
            BlockState::MayBePairs,
        ),
        _ => block,
    }
}

/// The block of a text that is base64.
pub(super) fn base64_block(alloc: Global, text: &[u8]) -> Result<Block, AllocError>
    ensures { IfOk result (λ b. IsBase64Block text.now (block_value b)) }
{
    let decoded = decode_base64(alloc, alphabet_of(text), text)?;
    Ok(decoded_block(text, decoded))
}

/// The alphabet of a text: `UrlSafe` if the text has `-` or `_`, otherwise `Standard`.
fn alphabet_of(text: &[u8]) -> Alphabet
    ensures { result ≡ alphabet_of text.now }
{
    match memchr2(b'-', b'_', text) {
        Some(_) => Alphabet::UrlSafe,
        None => Alphabet::Standard,
    }
}

/// A text without a block.
pub(super) fn absent_block(alloc: Global) -> Block
    ensures { block_value result ≡ absent_block }
{
    only_block(Vec::new(alloc), BlockState::Absent)
}

/// The block of a text that is decoded as a whole.
fn decoded_block(text: &[u8], decoded: Decoded) -> Block
    requires { IsRefusedWithin (length text.now) decoded.refused }
    ensures { block_value result ≡ only_block decoded.octets.items (state_at_place text.now 0 decoded.refused) }
{
    let state = state_at_place(text, TEXT_START, 0, decoded.refused);
    only_block(decoded.octets, state)
}

/// A block from the first line on, without a label.
pub(super) fn only_block(octets: Vec<u8>, state: BlockState) -> Block
    ensures { block_value result ≡ only_block octets.items state }
{
    Block {
        line: 1,
        label: ArrayVec::new(),
        octets,
        state,
    }
}
