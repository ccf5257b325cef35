//! The blocks of an input.
ghost use Rattle.std.specs.Prelude.{◌≡◌, ◌≤◌, [], ◌∷◌, All, IfErr, IfOk, length, map};
ghost use Rattle.tlv_text.specs.Private.Counting.{or_octets};
ghost use Rattle.tlv_text.specs.Taken.{IsTakenAs, IsTakenFor, IsTakingFault, taken_octets, taken_value, text_of};
ghost use Rattle.tlv_head.specs.Limits.{input_limit};
ghost use Rattle.tlv_text.specs.Blocks.{IsBlocksFault};
ghost use Rattle.tlv_text.specs.declared.text_fault.TextFault.TheVariants.{Memory};

use crate::characters::{has_controls, is_other_text, text_in};
use crate::counting::first_blocks;
use crate::encodings::{are_encodings, are_surely_encodings};
use crate::values::{all_taken_as, one_taken, taken_octets, taken_other_text};
use crate::{Form, Taken, TextFault, ascii_of_utf16, blocks_of};
use std::alloc::Global;

/// The maximum number of layers of base64 that a text may be in.
const LAYERS: u8 = 3;

/// Returns the blocks of an input, as its octets decide: octets as they stand, or the blocks of a text. A text has no
/// control character among its first 4096 characters. It is not sound encodings with a character, wherever it stands,
/// that is neither printable ASCII nor a tab, a line feed or a carriage return. Its form is the first in which a block
/// counts, in this order: PEM, dumps, hexadecimal, numbers, base64, runs of base64. If there is no such form, the
/// input is octets if it is sound encodings or not a text; otherwise it is a text of no form. There is at least one
/// block.
///
/// # Errors
///
/// `TextFault::TooLong` if the input is taken for a text whose blocks have more than 2^30 octets in all, or 2^24 more
/// than the text has characters: no block counts in a form before its form. `TextFault::Memory` if memory is refused.
pub fn take_input(alloc: Global, octets: Vec<u8>) -> Result<Vec<Taken>, TextFault>
    requires { length octets.items ≤ input_limit }
    ensures taken { IfOk result (λ ts. IsTakenFor octets.items (map taken_value ts.items)) }
    ensures within { IfOk result (λ ts. All (λ t. length t.block.octets.items ≤ input_limit) ts.items) }
    ensures fault { IfErr result (IsTakingFault octets.items) }
{
    let taken = taken_from_text(alloc, octets.as_slice())?;
    if taken.is_empty() {
        take_octets(alloc, octets)
    } else {
        Ok(taken)
    }
}

/// The blocks of an input that is taken for a text; none if the input is taken for octets as they stand.
fn taken_from_text(alloc: Global, octets: &[u8]) -> Result<Vec<Taken>, TextFault>
    requires { length octets.now ≤ input_limit }
    ensures taken { IfOk result
        (λ ts. IsTakenFor octets.now (or_octets octets.now (map taken_value ts.items))) }
    ensures within { IfOk result (λ ts. All (λ t. length t.block.octets.items ≤ input_limit) ts.items) }
    ensures fault { IfErr result (IsTakingFault octets.now) }
{
    let ascii = ascii_of_utf16(alloc, octets)?;
    let text = text_in(&ascii, octets);
    if has_controls(text) {
        return Ok(Vec::new(alloc));
    }
    if are_surely_encodings(&ascii, octets, text) {
        return Ok(Vec::new(alloc));
    }
    let taken = first_blocks(alloc, LAYERS, text)?;
    if taken.is_empty() && is_other_text(text) && !are_encodings(&ascii, octets) {
        return Ok(one_taken(alloc, taken_other_text(alloc, text))?);
    }
    Ok(taken)
}

/// Returns the blocks of an input that is a text of this form. There is at least one block.
///
/// # Errors
///
/// `TextFault::TooLong` if the blocks in this form have more octets than that, `TextFault::Memory` if memory is
/// refused.
pub fn take_as(alloc: Global, form: Form, octets: &[u8]) -> Result<Vec<Taken>, TextFault>
    ensures taken { IfOk result (λ ts. IsTakenAs form octets.now (map taken_value ts.items)) }
    ensures within { IfOk result (λ ts. All (λ t. length t.block.octets.items ≤ input_limit) ts.items) }
    ensures fault { IfErr result (IsBlocksFault (text_of octets.now) form) }
{
    let ascii = ascii_of_utf16(alloc, octets)?;
    let blocks = blocks_of(alloc, form, text_in(&ascii, octets))?;
    Ok(all_taken_as(alloc, form, blocks)?)
}

/// Returns the only block of an input that is octets as they stand.
///
/// # Errors
///
/// `TextFault::Memory` if memory is refused.
pub fn take_octets(alloc: Global, octets: Vec<u8>) -> Result<Vec<Taken>, TextFault>
    requires { length octets.items ≤ input_limit }
    ensures taken { IfOk result (λ ts. map taken_value ts.items ≡ taken_octets octets.items ∷ []) }
    ensures within { IfOk result (λ ts. All (λ t. length t.block.octets.items ≤ input_limit) ts.items) }
    ensures fault { IfErr result (λ fault. fault ≡ Memory) }
{
    Ok(one_taken(alloc, taken_octets(octets))?)
}
