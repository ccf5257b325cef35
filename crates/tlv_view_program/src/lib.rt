//! What `tlvdump-show` does, from the words of its command line to its status, over any system that opens files and
//! prints; a view of octets in memory, with the strings opened that hold encodings; and a whole input in memory.
#![tactic(auto)]

mod after_messages;
mod block;
mod explain;
mod file_names;
mod files;
mod form_value;
mod input;
mod input_blocks;
pub mod laws;
mod line_out;
mod lines;
mod matched;
mod names;
mod notes;
mod octets;
mod offsets;
mod parser;
mod reasons;
mod refusal;
mod request;
mod request_of_call;
mod show_call;
mod silent;
mod streams;
mod together;
mod view_call;
mod wanted;

pub use file_names::FileNames;
pub use input::{InputFault, WHOLE_LIMIT, input_report, read_whole};
pub use offsets::write_offsets;
pub use refusal::{Refusal, RequestFault, ShowOption, request_report};
pub use request::{InputForm, Request, Wanted};
pub use request_of_call::request_of;
pub use show_call::run_show;
pub use streams::{Output, Streams};
pub use view_call::{View, Viewed, view_octets};
