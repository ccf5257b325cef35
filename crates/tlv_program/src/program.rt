//! The program: what it does, and in which order.
ghost use Rattle.std.specs.Prelude.{◌≡◌};
ghost use Rattle.tlv_run.specs.Report.{report_value_of};
ghost use Rattle.tlv_program.specs.RunsProgram.{GetsNames, PrintsIfParser, RunsCommand, RunsOverInput, RunsProgram};
ghost use Rattle.tlv_program.specs.RunsProgram.{asks_for_text, program_states, refusal_report};

use crate::command_of_call::command_of;
use crate::system::System;
use crate::usage::{UsageFault, not_utf8_report, unprinted_report, usage_report};
use crate::words::Words;
use std::alloc::Global;
use tlv_run::{Command, Report, names_report, run, unopened_report};
use tlv_value::{Names, NamesFault};
use tlv_walk::{Drain, Source};

/// Why the program has no words.
#[derive(Clone, Copy, Debug, PartialEq, Eq)]
pub enum NoWords {
    /// U1: one of them is not UTF-8.
    NotUtf8,
    /// U3: memory was refused.
    Memory,
}

/// Runs the program on the words of its command line. The first word is the program's name.
///
/// Reads the words, then the names file, then opens the file, and runs the command: over standard input if the command
/// names no file. Stops at the first of these that is refused and returns its report: U1 to U3, what `clap` has to say,
/// N1 to N6 (N5 also if the names file does not open), E5. Otherwise returns the report of the run.
pub fn run_program<S: System, I: Source, O: Drain>(
    alloc: Global,
    words: &Result<Words, NoWords>,
    system: &mut S,
    input: &mut I,
    output: &mut O,
) -> Report
    ensures { RunsProgram S.allows
        (program_states system.old (I.state input.old) (O.state output.old))
        (program_states system.new (I.state input.new) (O.state output.new))
        words.now (report_value_of result) }
{
    let words = match words {
        Ok(words) => words,
        Err(NoWords::NotUtf8) => return not_utf8_report(),
        Err(NoWords::Memory) => return usage_report(&UsageFault::Memory),
    };
    match command_of(alloc, words) {
        Ok(command) => run_command(alloc, &command, system, input, output),
        Err(fault) => {
            let printed = print_if_parser(&fault, system);
            refusal_report(&fault, printed)
        }
    }
}

/// Prints what `clap` has to say, if the fault comes from `clap`. Returns whether nothing is left to print.
fn print_if_parser<S: System>(fault: &UsageFault, system: &mut S) -> bool
    ensures { PrintsIfParser S.allows system.old system.new fault.now result }
{
    match fault {
        UsageFault::Parser(error) => system.print(error),
        UsageFault::Value(_) => true,
        UsageFault::Memory => true,
    }
}

/// The report if there is no command to run, depending on whether what `clap` has to say is printed.
fn refusal_report(fault: &UsageFault, printed: bool) -> Report
    ensures { report_value_of result ≡ refusal_report fault.now printed }
{
    if printed || !asks_for_text(fault) {
        usage_report(fault)
    } else {
        unprinted_report()
    }
}

/// Whether the words ask for help or for the version.
fn asks_for_text(fault: &UsageFault) -> bool
    ensures { result ≡ asks_for_text fault.now }
{
    match fault {
        UsageFault::Parser(error) => !error.use_stderr(),
        UsageFault::Value(_) => false,
        UsageFault::Memory => false,
    }
}

/// Gets the names that the command asks for, and runs it over its input.
fn run_command<S: System, I: Source, O: Drain>(
    alloc: Global,
    command: &Command<'_>,
    system: &mut S,
    input: &mut I,
    output: &mut O,
) -> Report
    ensures { RunsCommand S.allows command.now
        (program_states system.old (I.state input.old) (O.state output.old))
        (program_states system.new (I.state input.new) (O.state output.new))
        (report_value_of result) }
{
    match names_for(alloc, command, system) {
        Ok(names) => run_over_input(command, &names, system, input, output),
        Err(fault) => names_report(fault),
    }
}

/// The names for object identifiers that the command asks for.
fn names_for<S: System>(
    alloc: Global,
    command: &Command<'_>,
    system: &mut S,
) -> Result<Names, NamesFault>
    ensures { GetsNames S.allows command.now system.old system.new result }
{
    let Some(name) = command.names_file() else {
        return Ok(Names::empty());
    };
    match system.open(name) {
        Ok(mut file) => {
            let names = Names::read(alloc, &mut file);
            system.close(file);
            names
        }
        Err(_) => Err(NamesFault::ReadFailed),
    }
}

/// Runs the command over the file that it names, or over standard input.
fn run_over_input<S: System, I: Source, O: Drain>(
    command: &Command<'_>,
    names: &Names,
    system: &mut S,
    input: &mut I,
    output: &mut O,
) -> Report
    ensures { RunsOverInput S.allows command.now names.now
        (program_states system.old (I.state input.old) (O.state output.old))
        (program_states system.new (I.state input.new) (O.state output.new))
        (report_value_of result) }
{
    let Some(name) = command.file() else {
        return run(command, names, input, output);
    };
    match system.open(name) {
        Ok(mut file) => {
            let report = run(command, names, &mut file, output);
            system.close(file);
            report
        }
        Err(_) => unopened_report(),
    }
}
