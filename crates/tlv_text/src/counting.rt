//! Which blocks of a text count.
ghost use Rattle.std.specs.List.{list_any};
ghost use Rattle.std.specs.Prelude.{◌≡◌, ◌+◌, ◌<◌, ◌≤◌, All, IfErr, IfOk, MatchOption, Some, false, filter, map, true};
ghost use Rattle.tlv_text.specs.Private.Counting.{IsBounded, IsDumpCount, IsFittingForm, is_kept, is_too_long};
ghost use Rattle.tlv_text.specs.Taken.{AreFirstBlocks, BlocksCount, BlocksTooLong, Counts, DumpCounts, HasInner};
ghost use Rattle.tlv_text.specs.Taken.{HoldsTooLong, IsFirstTooLong, IsMemoryOr, TextBlocks, TextTooLong, all_forms};
ghost use Rattle.tlv_text.specs.Taken.{begins_with_zeros, is_complete, is_whole_block, taken_as, taken_count};
ghost use Rattle.tlv_text.specs.Taken.{taken_value};
ghost use Rattle.tlv_text.specs.Blocks.{IsBase64Alone, block_value};
ghost use Rattle.tlv_text.specs.declared.block.Form.{Form};
ghost use Rattle.tlv_text.specs.declared.block.Form.TheVariants.{Base64, Dump, Runs};

use crate::characters::{has_controls, text_in};
use crate::encodings::are_taken_as_encodings;
use crate::values::{add_layer, one_taken, taken_as};
use crate::{
    Block, BlockState, Form, Taken, TakenFor, TextFault, ascii_of_utf16, blocks_of,
    lone_base64_block, lone_hex_block,
};
use std::alloc::{AllocError, Global};

/// The maximum number of octets in all blocks of a text.
const LIMIT: usize = 1_073_741_824;

/// The forms in the order in which they are tried.
const FORMS: [Form; 6] = [
    Form::Pem,
    Form::Dump,
    Form::Hex,
    Form::Numbers,
    Form::Base64,
    Form::Runs,
];

/// The blocks of a text in the first form in which a block counts; none if the text has no form. Base64 in it may
/// hold a text in turn, in at most `layers` layers.
#[cycle(layers)]
pub(crate) fn first_blocks(alloc: Global, layers: u8, text: &[u8]) -> Result<Vec<Taken>, TextFault>
    requires { layers ≤ 3 }
    ensures taken { IfOk result
        (λ ts. AreFirstBlocks (TextBlocks layers) text.now all_forms (map taken_value ts.items)) }
    ensures bounded { IfOk result (λ ts. All (IsBounded (layers + 1)) ts.items) }
    ensures fault { IfErr result
        (IsMemoryOr (IsFirstTooLong (TextBlocks layers) (TextTooLong layers) text.now all_forms)) }
{
    // A text of such pairs has no block of PEM and no row of a dump. Not to look for them takes less time.
    if let Some(block) = lone_hex_block(alloc, text)?
        && is_kept(Form::Hex, &block)
    {
        return Ok(one_taken(alloc, taken_as(TakenFor::Text(Form::Hex), block))?);
    }
    // Nor has a text of base64 alone, and it has no list of numbers.
    match lone_base64_block(alloc, text)? {
        Some(base64) if is_complete(&base64) => lone_base64_blocks(alloc, layers, text, base64),
        _ => blocks_in_first_of(alloc, layers, &FORMS, text),
    }
}

/// The blocks of a text that is base64 alone, in the first form in which a block counts.
#[cycle(layers)]
fn lone_base64_blocks(
    alloc: Global,
    layers: u8,
    text: &[u8],
    block: Block,
) -> Result<Vec<Taken>, TextFault>
    requires few { layers ≤ 3 }
    requires alone { IsBase64Alone text.now (block_value block) }
    requires complete { is_complete (block_value block) ≡ true }
    ensures taken { IfOk result
        (λ ts. AreFirstBlocks (TextBlocks layers) text.now all_forms (map taken_value ts.items)) }
    ensures bounded { IfOk result (λ ts. All (IsBounded (layers + 1)) ts.items) }
    ensures fault { IfErr result
        (IsMemoryOr (IsFirstTooLong (TextBlocks layers) (TextTooLong layers) text.now all_forms)) }
{
    // Lines of tokens such as `0x30` are base64 too.
    let hexes = blocks_in_first_of(alloc, layers, &[Form::Hex], text)?;
    if !hexes.is_empty() {
        return Ok(hexes);
    }
    let taken = counted(alloc, layers, Form::Base64, None, block)?;
    if !taken.is_empty() {
        return Ok(taken);
    }
    blocks_in_first_of(alloc, layers, &[Form::Runs], text)
}

/// The blocks of a text in the first of these forms in which a block counts; none if there is no such form.
#[cycle(layers)]
fn blocks_in_first_of(
    alloc: Global,
    layers: u8,
    forms: &[Form],
    text: &[u8],
) -> Result<Vec<Taken>, TextFault>
    requires { layers ≤ 3 }
    ensures taken { IfOk result
        (λ ts. AreFirstBlocks (TextBlocks layers) text.now forms.now (map taken_value ts.items)) }
    ensures bounded { IfOk result (λ ts. All (IsBounded (layers + 1)) ts.items) }
    ensures fault { IfErr result
        (IsMemoryOr (IsFirstTooLong (TextBlocks layers) (TextTooLong layers) text.now forms.now)) }
{
    for form in forms {
        let blocks = blocks_of(alloc, *form, text)?;
        let taken = counted_blocks(alloc, layers, *form, blocks)?;
        if !taken.is_empty() {
            return Ok(taken);
        }
    }
    Ok(Vec::new(alloc))
}

/// What the blocks of a text in a form count as.
#[cycle(layers)]
fn counted_blocks(
    alloc: Global,
    layers: u8,
    form: Form,
    blocks: Vec<Block>,
) -> Result<Vec<Taken>, TextFault>
    requires few { layers ≤ 3 }
    requires fitting { IsFittingForm form (map block_value blocks.items) }
    requires fit { list_any is_too_long (map block_value blocks.items) ≡ false }
    ensures taken { IfOk result
        (λ ts. BlocksCount (TextBlocks layers) form (map block_value blocks.items) (map taken_value ts.items)) }
    ensures bounded { IfOk result (λ ts. All (IsBounded (layers + 1)) ts.items) }
    ensures fault { IfErr result
        (IsMemoryOr (BlocksTooLong (TextBlocks layers) (TextTooLong layers) form
        (map block_value blocks.items))) }
{
    match form {
        Form::Base64 => counted_base64(alloc, layers, blocks),
        Form::Runs => counted_runs(alloc, layers, blocks),
        Form::Dump => Ok(counted_dump(alloc, blocks)?),
        Form::Pem | Form::Hex | Form::Numbers => Ok(kept_blocks(alloc, form, blocks)?),
    }
}

/// What the block of a base64 text counts as.
#[cycle(layers)]
fn counted_base64(
    alloc: Global,
    layers: u8,
    mut blocks: Vec<Block>,
) -> Result<Vec<Taken>, TextFault>
    requires few { layers ≤ 3 }
    requires fitting { IsFittingForm Base64 (map block_value blocks.items) }
    requires fit { list_any is_too_long (map block_value blocks.items) ≡ false }
    ensures taken { IfOk result
        (λ ts. BlocksCount (TextBlocks layers) Base64 (map block_value blocks.items) (map taken_value ts.items)) }
    ensures bounded { IfOk result (λ ts. All (IsBounded (layers + 1)) ts.items) }
    ensures fault { IfErr result
        (IsMemoryOr (BlocksTooLong (TextBlocks layers) (TextTooLong layers) Base64
        (map block_value blocks.items))) }
{
    match blocks.pop() {
        Some(block) if is_complete(&block) => { counted(alloc, layers, Form::Base64, None, block) }
        _ => Ok(Vec::new(alloc)),
    }
}

/// What runs of base64 count as. They have at most 2^30 octets in all.
#[cycle(layers)]
fn counted_runs(alloc: Global, layers: u8, blocks: Vec<Block>) -> Result<Vec<Taken>, TextFault>
    requires few { layers ≤ 3 }
    requires fit { list_any is_too_long (map block_value blocks.items) ≡ false }
    ensures taken { IfOk result
        (λ ts. BlocksCount (TextBlocks layers) Runs (map block_value blocks.items) (map taken_value ts.items)) }
    ensures bounded { IfOk result (λ ts. All (IsBounded (layers + 1)) ts.items) }
    ensures fault { IfErr result
        (IsMemoryOr (BlocksTooLong (TextBlocks layers) (TextTooLong layers) Runs
        (map block_value blocks.items))) }
{
    let mut taken = Vec::new(alloc);
    let mut left = LIMIT;
    for block in blocks {
        let line = block.line;
        let mut more = counted(alloc, layers, Form::Runs, Some(line), block)?;
        let Some(room) = room_after(left, more.as_slice()) else {
            return Err(TextFault::TooLong);
        };
        left = room;
        taken.append(&mut more)?;
    }
    Ok(taken)
}

/// How many octets fewer than `left` the blocks have; `None` if they have more.
fn room_after(left: usize, taken: &[Taken]) -> Option<usize>
    ensures { MatchOption result (left < taken_count (map taken_value taken.now))
        (λ room. room + taken_count (map taken_value taken.now) ≡ left) }
{
    let mut room = left;
    for block in taken {
        let count = block.block.octets.len();
        if count > room {
            return None;
        }
        room -= count;
    }
    Some(room)
}

/// What a block of base64 counts as: the blocks of the text that it decodes to, or the block itself.
#[cycle(layers)]
fn counted(
    alloc: Global,
    layers: u8,
    form: Form,
    layer: Option<usize>,
    block: Block,
) -> Result<Vec<Taken>, TextFault>
    requires few { layers ≤ 3 }
    requires fit { is_too_long (block_value block) ≡ false }
    ensures taken { IfOk result
        (λ ts. Counts (TextBlocks layers) form layer (block_value block) (map taken_value ts.items)) }
    ensures bounded { IfOk result (λ ts. All (IsBounded (layers + 1)) ts.items) }
    ensures fault { IfErr result (IsMemoryOr (HoldsTooLong (TextTooLong layers) (block_value block))) }
{
    if block.octets.is_empty() {
        return Ok(Vec::new(alloc));
    }
    let mut inner = inner_blocks(alloc, layers, &block)?;
    if inner.is_empty() && are_taken_as_encodings(block.octets.as_slice()) {
        return Ok(one_taken(alloc, taken_as(TakenFor::Text(form), block))?);
    }
    add_layer(inner.as_mut_slice(), layer);
    Ok(inner)
}

/// The blocks of the text that a block of base64 decodes to; none if the block is not decoded completely.
#[cycle(layers)]
fn inner_blocks(alloc: Global, layers: u8, block: &Block) -> Result<Vec<Taken>, TextFault>
    requires { layers ≤ 3 }
    ensures taken { IfOk result
        (λ ts. HasInner (TextBlocks layers) (is_whole_block block.now.state) block.now.octets.items
        (map taken_value ts.items)) }
    ensures bounded { IfOk result (λ ts. All (IsBounded layers) ts.items) }
    ensures fault { IfErr result
        (IsMemoryOr ((is_whole_block block.now.state ≡ true) × TextTooLong layers block.now.octets.items)) }
{
    match block.state {
        BlockState::Whole | BlockState::BeginsAt(_) => {
            text_blocks(alloc, layers, block.octets.as_slice())
        }
        _ => Ok(Vec::new(alloc)),
    }
}

/// The blocks of octets that are a text, in at most `layers` layers of base64; none if the octets have a control
/// character, which no text has.
#[cycle(layers)]
fn text_blocks(alloc: Global, layers: u8, octets: &[u8]) -> Result<Vec<Taken>, TextFault>
    requires { layers ≤ 3 }
    ensures taken { IfOk result (λ ts. TextBlocks layers octets.now (map taken_value ts.items)) }
    ensures bounded { IfOk result (λ ts. All (IsBounded layers) ts.items) }
    ensures fault { IfErr result (IsMemoryOr (TextTooLong layers octets.now)) }
{
    if layers == 0 {
        return Ok(Vec::new(alloc));
    }
    let ascii = ascii_of_utf16(alloc, octets)?;
    let text = text_in(&ascii, octets);
    if has_controls(text) {
        return Ok(Vec::new(alloc));
    }
    first_blocks(alloc, layers - 1, text)
}

/// What the block of a dump counts as.
fn counted_dump(alloc: Global, mut blocks: Vec<Block>) -> Result<Vec<Taken>, AllocError>
    requires fitting { IsFittingForm Dump (map block_value blocks.items) }
    requires fit { list_any is_too_long (map block_value blocks.items) ≡ false }
    ensures taken { IfOk result (λ ts. IsDumpCount (map block_value blocks.items) (map taken_value ts.items)) }
    ensures bounded { IfOk result (λ ts. All (IsBounded 1) ts.items) }
{
    match blocks.pop() {
        Some(block) if dump_counts(&block) => {
            one_taken(alloc, taken_as(TakenFor::Text(Form::Dump), block))
        }
        _ => Ok(Vec::new(alloc)),
    }
}

/// Whether a dump counts. One that ends in front of a line that is no row may be a line of something else: so its
/// octets have to look like encodings.
fn dump_counts(block: &Block) -> bool
    requires { is_too_long (block_value block.now) ≡ false }
    ensures { DumpCounts (block_value block.now) result }
{
    match block.state {
        BlockState::Ended(_) => are_taken_as_encodings(block.octets.as_slice()),
        _ => is_complete(block),
    }
}

/// The blocks of a text that count, in a form in which each block counts by itself.
fn kept_blocks(alloc: Global, form: Form, blocks: Vec<Block>) -> Result<Vec<Taken>, AllocError>
    requires { list_any is_too_long (map block_value blocks.items) ≡ false }
    ensures taken { IfOk result
        (λ ts. map taken_value ts.items
        ≡ map (taken_as (TakenFor.Text form)) (filter (is_kept form) (map block_value blocks.items))) }
    ensures bounded { IfOk result (λ ts. All (IsBounded 1) ts.items) }
{
    let mut kept = Vec::new(alloc);
    for block in blocks {
        if is_kept(form, &block) {
            kept.push(taken_as(TakenFor::Text(form), block))?;
        }
    }
    Ok(kept)
}

/// Whether a block counts, in a form in which each block counts by itself. All blocks of PEM count. A refused dump is
/// not hexadecimal: its first offset gives two octets 00.
fn is_kept(form: Form, block: &Block) -> bool
    ensures { result ≡ is_kept form (block_value block.now) }
{
    match form {
        Form::Pem => block.state != BlockState::Absent,
        Form::Hex => is_complete(block) && !begins_with_zeros(block.octets.as_slice()),
        _ => is_complete(block),
    }
}

/// Whether all of a text is decoded, and gives octets.
fn is_complete(block: &Block) -> bool
    ensures { result ≡ is_complete (block_value block.now) }
{
    matches!(block.state, BlockState::Whole | BlockState::BeginsAt(_)) && !block.octets.is_empty()
}

/// Whether the octets begin with two octets 00, as no encoding does.
fn begins_with_zeros(octets: &[u8]) -> bool
    ensures { result ≡ begins_with_zeros octets.now }
{
    matches!(octets, [0, 0, ..])
}
