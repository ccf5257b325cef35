//! Headers of BER, CER and DER encodings (ITU-T X.690, 8.1.2 and 8.1.3): a reader that takes one
//! octet at a time, the texts of tags, and the faults of an input.
#![tactic(auto)]

mod fault;
mod head_reader;
mod header;
mod header_at_once;
mod kind;
pub mod laws;
mod next_octet;
mod tag;
mod type_table;
pub mod universal;

pub use fault::{Fault, FaultCode};
pub use head_reader::{Head, HeadReader};
pub use header::{Class, Header, HeaderFields, Size, spell_indefinite};
pub use header_at_once::{read_header, read_short};
pub use kind::{Kind, kind_of};
pub use tag::{tag_text, type_name, type_name_block};
pub use type_table::{Encodings, Rule, UniversalType, encodings_of, type_at};
