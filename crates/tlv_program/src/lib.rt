//! What `tlvdump` does, from the words of its command line to the report, on any system that opens files and prints; and
//! the system on which both programs run. For other programs: arguments of a command line, what is read from `clap`'s
//! matches, and the values of options.
#![tactic(auto)]

mod arguments;
mod command_of_call;
mod host;
mod matches;
mod parser;
mod places;
mod printable;
mod program;
mod system;
mod usage;
mod values;
mod words;
mod words_of_call;

pub use arguments::{flag, help_flag, option, version_flag};
pub use command_of_call::command_of;
pub use host::Host;
pub use matches::{first_of, has_flag, owned_text};
pub use parser::VERSION;
pub use places::is_beside_sources;
pub use program::{NoWords, run_program};
pub use system::{OpenFault, System};
pub use usage::{UsageFault, not_utf8_report, unprinted_report, usage_report};
pub use values::{limit_value, offset_value, rules_value};
pub use words::Words;
pub use words_of_call::words_of;
