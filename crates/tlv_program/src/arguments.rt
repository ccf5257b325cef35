//! Arguments of command lines, as `clap` takes them.
ghost use Rattle.tlv_program.specs.CommandLine.{flag, help_flag, option, version_flag};
ghost use Rattle.tlv_program.specs.Parsers.{IsArgumentOf};

use clap::{Arg, ArgAction};
use std::alloc::Global;

/// An option with a value: its name without `--`, what help calls the value, and the text of its help.
pub fn option<'a>(alloc: Global, name: &'a str, value: &'a str, text: &'a str) -> Arg<'a>
    ensures { IsArgumentOf (option name.now) result }
{
    Arg::new(alloc, name)
        .long(name)
        .action(ArgAction::Set)
        .value_name(value)
        .help(text)
}

/// An option without a value: its name without `--`, and the text of its help.
pub fn flag<'a>(alloc: Global, name: &'a str, text: &'a str) -> Arg<'a>
    ensures { IsArgumentOf (flag name.now) result }
{
    Arg::new(alloc, name)
        .long(name)
        .action(ArgAction::SetTrue)
        .help(text)
}

/// `--help`, which has no short name.
pub fn help_flag<'a>(alloc: Global) -> Arg<'a>
    ensures { IsArgumentOf help_flag result }
{
    Arg::new(alloc, "help")
        .long("help")
        .action(ArgAction::Help)
        .help("Print help")
}

/// `--version`, which has no short name.
pub fn version_flag<'a>(alloc: Global) -> Arg<'a>
    ensures { IsArgumentOf version_flag result }
{
    Arg::new(alloc, "version")
        .long("version")
        .action(ArgAction::Version)
        .help("Print version")
}
