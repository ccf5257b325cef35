//! The parser of the command line, with the texts of its help.
ghost use Rattle.std.specs.Prelude.{[], IfOk};
ghost use Rattle.clap.specs.Words.{App, with_subcommand};
ghost use Rattle.tlv_program.specs.CommandLine.{check_app, command_app, dump_app, extract_app, indef_app};
ghost use Rattle.tlv_program.specs.CommandLine.{file, program_app, required_option, tlvdump_app};
ghost use Rattle.tlv_program.specs.Parsers.{IsArgumentOf, IsParserOf};

use crate::arguments::{flag, help_flag, option, version_flag};
use clap::{Arg, Command};
use std::alloc::{AllocError, Global};

mod help;

use help::Help;

/// The version of the programs, as `--version` prints it after their names.
pub const VERSION: &str = "0.1.0";

/// The file to read: an argument without an option name.
fn file<'a>(alloc: Global) -> Arg<'a>
    ensures { IsArgumentOf file result }
{
    Arg::new(alloc, "file").value_name("FILE").help(help::FILE)
}

/// An option with a value, which must be given.
fn required_option<'a>(alloc: Global, name: &'a str, value: &'a str, text: &'a str) -> Arg<'a>
    ensures { IsArgumentOf (required_option name.now) result }
{
    option(alloc, name, value, text).required(true)
}

/// A command with the parts that all commands have: a file to read, and help.
fn command_parser<'a>(
    alloc: Global,
    name: &'a str,
    help: Help<'a>,
) -> Result<Command<'a>, AllocError>
    ensures { IfOk result (IsParserOf (command_app name.now [])) }
{
    Command::new(alloc, name)
        .about(help.about)
        .long_about(help.more)
        .after_help(help.after)
        .arg(file(alloc))?
        .arg(help_flag(alloc))
}

fn dump_parser<'a>(alloc: Global) -> Result<Command<'a>, AllocError>
    ensures { IfOk result (IsParserOf dump_app) }
{
    command_parser(alloc, "dump", help::DUMP)?
        .arg(option(alloc, "rules", "RULES", help::DUMP_RULES))?
        .arg(option(alloc, "limit", "N", help::LIMIT))?
        .arg(flag(alloc, "pure", help::PURE))?
        .arg(option(alloc, "names", "NAMES", help::NAMES))?
        .arg(option(alloc, "inside", "LIST", help::INSIDE))?
        .arg(flag(alloc, "padding", help::PADDING))
}

fn check_parser<'a>(alloc: Global) -> Result<Command<'a>, AllocError>
    ensures { IfOk result (IsParserOf check_app) }
{
    command_parser(alloc, "check", help::CHECK)?
        .arg(option(alloc, "rules", "RULES", help::CHECK_RULES))?
        .arg(option(alloc, "inside", "LIST", help::INSIDE))?
        .arg(flag(alloc, "padding", help::PADDING))
}

fn extract_parser<'a>(alloc: Global) -> Result<Command<'a>, AllocError>
    ensures { IfOk result (IsParserOf extract_app) }
{
    command_parser(alloc, "extract", help::EXTRACT)?
        .arg(required_option(alloc, "offset", "N", help::OFFSET))?
        .arg(flag(alloc, "contents", help::CONTENTS))?
        .arg(option(alloc, "inside", "LIST", help::INSIDE))?
        .arg(flag(alloc, "padding", help::PADDING))
}

fn indef_parser<'a>(alloc: Global) -> Result<Command<'a>, AllocError>
    ensures { IfOk result (IsParserOf indef_app) }
{
    command_parser(alloc, "indef", help::INDEF)?.arg(flag(alloc, "padding", help::PADDING))
}

/// The program without its commands. One of them must be given, and none is called `help`.
fn program_parser<'a>(alloc: Global) -> Result<Command<'a>, AllocError>
    ensures { IfOk result (IsParserOf program_app) }
{
    Command::new(alloc, "tlvdump")
        .subcommand_required(true)
        .version(VERSION)
        .disable_help_flag(true)
        .disable_help_subcommand(true)
        .disable_version_flag(true)
        .about(help::PROGRAM.about)
        .long_about(help::PROGRAM.more)
        .after_help(help::PROGRAM.after)
        .arg(help_flag(alloc))?
        .arg(version_flag(alloc))
}

/// The parser with one more command. A function of its own: if the command cannot be made, only the parser is dropped.
fn with_command<'a>(
    parser: Command<'a>,
    command: Result<Command<'a>, AllocError>,
) -> Result<Command<'a>, AllocError>
    ensures { (app sub : App) → IsParserOf app parser.entry → IfOk command.entry (IsParserOf sub)
        → IfOk result (IsParserOf (with_subcommand app sub.top)) }
{
    parser.subcommand(command?)
}

/// The whole command line.
pub(crate) fn tlvdump_parser<'a>(alloc: Global) -> Result<Command<'a>, AllocError>
    ensures { IfOk result (IsParserOf tlvdump_app) }
{
    let parser = program_parser(alloc)?;
    let parser = with_command(parser, dump_parser(alloc))?;
    let parser = with_command(parser, check_parser(alloc))?;
    let parser = with_command(parser, extract_parser(alloc))?;
    with_command(parser, indef_parser(alloc))
}
