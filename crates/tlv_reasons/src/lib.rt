//! Why octets do not parse (ITU-T X.690), and what may be done, in sentences: the fault and the headers around it; which
//! other length, or one octet more or fewer, would make an input sound; what a program did to it as to a text; and from
//! which offset on it is sound.
#![tactic(auto)]

mod bounds;
mod chains;
mod doubled;
mod element;
mod element_kinds;
mod facts;
mod facts_call;
mod fault_reasons;
mod holders;
mod kinds;
pub mod laws;
mod leftovers;
mod length_octets;
mod lengths;
mod mend;
mod moves;
mod octet_changes;
mod outermost;
mod overwritten;
mod records;
mod remedy;
mod sentence;
mod silence;
mod sizes;
mod sound;
mod spacing;
mod start;
mod suspects;
mod text_changes;
mod text_copies;
mod traces;
mod tracker;
mod tried_lengths;
mod value;
mod whole;
mod why;
mod window;
mod words;
mod write;

pub use bounds::Bounds;
pub use chains::{Chain, length_chain};
pub use doubled::{Doubled, doubled_block};
pub use element::Element;
pub use element_kinds::{OutermostKinds, outermost_kinds};
pub use facts::{Facts, Unfinished};
pub use facts_call::facts_of;
pub use fault_reasons::Reasons;
pub use kinds::{FileKind, file_kind};
pub use lengths::{SEARCH_LIMIT, WrongLength, WrongLengths, wrong_lengths};
pub use mend::{all_reasons, string_reasons};
pub use moves::{Move, octets_moved};
pub use octet_changes::{OctetChange, octet_change};
pub use overwritten::Run;
pub use records::{NextRecord, next_record};
pub use sentence::Sentence;
pub use spacing::{Spacing, spaced_encodings};
pub use start::next_start;
pub use text_changes::{TextChange, text_change};
pub use text_copies::{latin1_of_utf8, undone_line_ends, undone_utf8};
pub use traces::{Trace, trace_of};
pub use why::{first_sentence, reasons_of};
pub use write::write_sentences;
