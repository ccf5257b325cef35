//! Blocks, and what they were taken for.
ghost use Rattle.std.specs.List.{list_any};
ghost use Rattle.std.specs.Prelude.{◌≡◌, [], ◌∷◌, ◌+◌, All, IfOk, false, map, ℕ};
ghost use Rattle.tlv_text.specs.Private.Counting.{IsBounded, is_too_long};
ghost use Rattle.tlv_text.specs.Taken.{in_layer, taken_as, taken_octets, taken_other_text, taken_value};
ghost use Rattle.tlv_text.specs.Blocks.{block_value};

use crate::characters::first_words;
use crate::{Block, BlockState, Form, Taken, TakenFor};
use arrayvec::ArrayVec;
use std::alloc::{AllocError, Global};

/// A block that is in no layers of base64.
pub(crate) fn taken_as(taken_for: TakenFor, block: Block) -> Taken
    ensures value { taken_value result ≡ taken_as taken_for (block_value block) }
    ensures no_layers { result.layers.items ≡ [] }
    ensures octets { result.block.octets.items ≡ block.octets.items }
{
    Taken {
        taken_for,
        layers: ArrayVec::new(),
        block,
    }
}

/// Octets as they stand.
pub(crate) fn taken_octets(octets: Vec<u8>) -> Taken
    ensures value { taken_value result ≡ taken_octets octets.items }
    ensures octets { result.block.octets.items ≡ octets.items }
{
    let block = Block {
        line: 1,
        label: ArrayVec::new(),
        octets,
        state: BlockState::Whole,
    };
    taken_as(TakenFor::Octets, block)
}

/// A text of no known form.
pub(crate) fn taken_other_text(alloc: Global, text: &[u8]) -> Taken
    ensures value { taken_value result ≡ taken_other_text text.now }
    ensures octets { result.block.octets.items ≡ [] }
{
    let block = Block {
        line: 1,
        label: first_words(text),
        octets: Vec::new(alloc),
        state: BlockState::Absent,
    };
    taken_as(TakenFor::OtherText, block)
}

/// A list of one block.
pub(crate) fn one_taken(alloc: Global, taken: Taken) -> Result<Vec<Taken>, AllocError>
    ensures { IfOk result (λ ts. ts.items ≡ taken ∷ []) }
{
    let mut all = Vec::new(alloc);
    all.push(taken)?;
    Ok(all)
}

/// All blocks of a text in a form.
pub(crate) fn all_taken_as(
    alloc: Global,
    form: Form,
    blocks: Vec<Block>,
) -> Result<Vec<Taken>, AllocError>
    requires { list_any is_too_long (map block_value blocks.items) ≡ false }
    ensures values { IfOk result
        (λ ts. map taken_value ts.items
        ≡ map (taken_as (TakenFor.Text form)) (map block_value blocks.items)) }
    ensures bounded { IfOk result (λ ts. All (IsBounded 1) ts.items) }
{
    let mut all = Vec::new(alloc);
    for block in blocks {
        all.push(taken_as(TakenFor::Text(form), block))?;
    }
    Ok(all)
}

/// Adds a layer of base64 outside the layers that the blocks are in.
pub(crate) fn add_layer(taken: &mut [Taken], layer: Option<usize>)
    requires { All (IsBounded 3) taken.old }
    ensures values { map taken_value taken.new ≡ map (in_layer layer) (map taken_value taken.old) }
    ensures layers { (n : ℕ) → All (IsBounded n) taken.old → All (IsBounded (n + 1)) taken.new }
{
    for block in taken.iter_mut() {
        block.layers.push(layer);
    }
}
