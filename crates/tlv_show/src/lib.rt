//! What `dump` and `check` write: the lines of each element, rows for the contents of a long primitive,
//! and a line for each finding.
#![tactic(auto)]

mod basic_findings;
mod check_call;
mod check_follower;
mod contents;
mod contents_findings;
mod dump_call;
mod dump_follower;
mod finder;
mod finding_lines;
mod finite_names;
mod header_findings;
mod headers;
mod holder_frame;
mod holder_lines;
mod last_findings;
pub mod laws;
mod lines;
mod nesting;
mod options;
mod order_finding;
mod outcome;
mod rules;
mod scope;
mod segment_characters;
mod segment_frame;
mod set_frame;
mod set_order;
mod wanted;
mod wanted_order;
mod wanted_strings;

pub use basic_findings::has_basic_findings;
pub use check_call::{check, check_with};
pub use check_follower::Check;
pub use dump_call::{dump, dump_with};
pub use dump_follower::Dump;
pub use finite_names::FiniteNames;
pub use options::Options;
pub use outcome::Outcome;
pub use rules::Rules;
pub use scope::Scope;
pub use wanted::Wanted;
