//! Octets that are written in a text, in the forms that people use: pairs of hexadecimal digits, tokens of a source
//! text, decimal numbers, hex dumps, base64, PEM; and marks at the start of a text. What an input is taken for: octets as
//! they stand, or a text in one of these forms.
#![tactic(auto)]

mod base64_text;
mod block;
mod blocks;
mod body;
mod characters;
mod counting;
mod decoded;
mod digits;
mod dump;
mod encodings;
pub mod laws;
mod marks;
mod numbers;
mod pairs;
mod pem;
mod plain;
mod runs;
mod symbols;
mod take_call;
mod taken;
mod text_fault;
mod tokens;
mod values;

pub use base64_text::{Alphabet, decode_base64};
pub use block::{Block, BlockState, Form};
pub use blocks::{blocks_of, lone_base64_block, lone_hex_block};
pub use body::{PemBody, pem_body};
pub use decoded::Decoded;
pub use dump::decode_dump;
pub use marks::{after_mark, ascii_of_utf16};
pub use numbers::decode_numbers;
pub use pairs::decode_pairs;
pub use pem::{PemBlock, first_block};
pub use runs::{Base64Run, first_run};
pub use take_call::{take_as, take_input, take_octets};
pub use taken::{Taken, TakenFor};
pub use text_fault::TextFault;
pub use tokens::{decode_tokens, has_tokens};
