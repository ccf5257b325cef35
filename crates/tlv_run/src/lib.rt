//! The commands of `tlvdump`, over any source and any drain: what each writes and reports for an input. `extract` writes
//! one element or its contents, `indef` writes all elements with indefinite lengths.
#![tactic(auto)]

mod command;
mod command_runs;
mod extract_call;
mod extract_follower;
mod indef_call;
mod indef_follower;
pub mod laws;
mod memory_devices;
mod message;
mod report;
mod run_call;
mod run_octets_call;
mod text;
mod unfailing_source;

pub use command::Command;
pub use command_runs::{
    run_check, run_check_with, run_dump, run_dump_with, run_extract, run_indef,
};
pub use extract_call::{Cut, extract};
pub use extract_follower::Extract;
pub use indef_call::indef;
pub use indef_follower::Indef;
pub use memory_devices::BoundedDrain;
pub use message::write_message;
pub use report::{Report, device_report, indef_report, names_report, unopened_report};
pub use run_call::run;
pub use run_octets_call::{OctetsRun, run_octets};
pub use text::Text;
pub use unfailing_source::UnfailingSource;
