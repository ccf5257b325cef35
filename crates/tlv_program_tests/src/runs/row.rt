//! The rows of the tests. A row is a line of text, from which a case is made.
//!
//! A line has nine fields, separated by `|`:
//!
//! 1. the place of the row: its file and line;
//! 2. the words after the program's name;
//! 3. the octets of the names file;
//! 4. the octets of the input;
//! 5. the octets of the output;
//! 6. how much output is written after how much input, as pairs separated by commas: `7:33` says that 33 octets of the
//!    output are written after 7 octets of the input. If the field is empty, the row does not say this;
//! 7. the status;
//! 8. the number of findings;
//! 9. the message.
//!
//! Octets are groups separated by spaces. A group is pairs of hexadecimal digits, followed by `*` and a count if it is
//! repeated. A group of the output may also stand for lines of nested elements: see `push_lines` in `long_inputs.rt`.
use super::long_inputs::push_lines;
use std::alloc::Global;
use std::test::Fail;
use tlv_program::{Words, command_of};
use tlv_run::Command;
use tlv_value::Names;
use tlv_walk::MemSource;

/// A command, an input, and what a run of it writes and reports.
#[derive(Drop)]
pub(crate) struct Case<'a> {
    /// The place of the row, shown in the message of a failure.
    pub place: &'a str,
    pub command: Command<'static>,
    pub names: Names,
    pub input: Vec<u8>,
    pub output: Vec<u8>,
    /// How many octets of the output are written after how many octets of the input, in the notation of the row.
    pub come: &'a str,
    pub status: u8,
    pub findings: u64,
    pub message: &'a str,
}

/// Returns the command that these words, without the program's name, ask for.
pub(crate) fn command_for(alloc: Global, text: &str) -> Result<Command<'static>, Fail> {
    let mut words = Words::new(alloc);
    words.push("tlvdump")?;
    for word in text.split(' ') {
        words.push(word)?;
    }
    Ok(command_of(alloc, &words)?)
}

/// Returns the decimal number that the text is, or a number that no run gives if it is none.
pub(crate) fn number(text: &str) -> u64 {
    text.parse::<u64>().unwrap_or(u64::MAX)
}

/// Adds the octets of `group`, repeated.
pub(crate) fn push_times(octets: &mut Vec<u8>, group: &[u8], times: u64) -> Result<(), Fail> {
    for _ in 0..times {
        octets.extend_from_slice(group)?;
    }
    Ok(())
}

/// Adds the octets that a group stands for.
fn push_group(alloc: Global, octets: &mut Vec<u8>, group: &str) -> Result<(), Fail> {
    if push_lines(octets, group)? {
        return Ok(());
    }
    let (digits, times) = group.split_once('*').unwrap_or((group, "1"));
    match hex::decode(alloc, digits) {
        Ok(part) => push_times(octets, part.as_slice(), number(times)),
        Err(_) => Err(Fail::from("a row has no octets where they must be")),
    }
}

/// Returns the octets that these groups stand for.
fn octets_of(alloc: Global, groups: &str) -> Result<Vec<u8>, Fail> {
    let mut octets = Vec::new(alloc);
    for group in groups.split(' ') {
        push_group(alloc, &mut octets, group)?;
    }
    Ok(octets)
}

/// Returns the table of a names file. An empty file gives an empty table, which takes no memory.
fn names_in(alloc: Global, groups: &str) -> Result<Names, Fail> {
    let file = octets_of(alloc, groups)?;
    if file.is_empty() {
        return Ok(Names::empty());
    }
    let mut source = MemSource::new(file.as_slice(), &[], None);
    Ok(Names::read(alloc, &mut source)?)
}

/// Splits the text into its first field and the rest.
fn cut(text: &str) -> (&str, &str) {
    text.split_once('|').unwrap_or((text, ""))
}

/// Returns the case of a row.
pub(crate) fn case_of<'a>(alloc: Global, line: &'a str) -> Result<Case<'a>, Fail> {
    let (place, rest) = cut(line);
    let (words, rest) = cut(rest);
    let (names, rest) = cut(rest);
    let (input, rest) = cut(rest);
    let (output, rest) = cut(rest);
    let (come, rest) = cut(rest);
    let (status, rest) = cut(rest);
    let (findings, message) = cut(rest);
    Ok(Case {
        place,
        command: command_for(alloc, words)?,
        names: names_in(alloc, names)?,
        input: octets_of(alloc, input)?,
        output: octets_of(alloc, output)?,
        come,
        status: status.parse::<u8>().unwrap_or(u8::MAX),
        findings: number(findings),
        message,
    })
}
