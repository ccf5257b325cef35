//! Tests of the words of `tlvdump` and `tlvdump-show`, of what a run of a command writes and reports, and of both programs
//! over files in memory. Each row of tests/rows is run here in every way.
#![tactic(auto)]

#[cfg(test)]
mod expect;
#[cfg(test)]
mod generated;
#[cfg(test)]
mod messages;
#[cfg(test)]
mod program;
#[cfg(test)]
mod runs;
#[cfg(test)]
mod show;
#[cfg(test)]
mod show_words;
#[cfg(test)]
mod system;
#[cfg(test)]
mod words;

/// The sizes of reads of single octets: more reads than an input of these tests needs.
#[cfg(test)]
const ONES: [u64; 9000] = [1; 9000];

#[cfg(test)]
const READ_FAILED: &str = "E1 read failed";

#[cfg(test)]
const WRITE_FAILED: &str = "E2 write failed";
