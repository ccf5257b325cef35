//! The parser of the command line, with the texts of its help.
ghost use Rattle.std.specs.Prelude.{IfOk, []};
ghost use Rattle.tlv_program.specs.Parsers.{IsArgumentOf, IsParserOf};
ghost use Rattle.tlv_view_program.specs.ShowCommandLine.{any_files, asking_arguments, show_app, show_app_with};

use clap::{Arg, ArgAction, Command};
use std::alloc::{AllocError, Global};
use tlv_program::{VERSION, flag, help_flag, option, version_flag};

mod help;

/// The files to read: arguments without an option name.
fn any_files<'a>(alloc: Global) -> Arg<'a>
    ensures { IsArgumentOf any_files result }
{
    Arg::new(alloc, "file")
        .action(ArgAction::Append)
        .value_name("FILE")
        .help(help::FILE)
}

/// The program without arguments.
fn bare_parser<'a>(alloc: Global) -> Command<'a>
    ensures { IsParserOf (show_app_with []) result }
{
    Command::new(alloc, "tlvdump-show")
        .version(VERSION)
        .disable_help_flag(true)
        .disable_version_flag(true)
        .override_usage(help::USAGE)
        .about(help::ABOUT)
        .long_about(help::MORE)
        .after_help(help::AFTER)
}

/// The program with the arguments that say what is asked for, and for which files.
fn asking_parser<'a>(alloc: Global) -> Result<Command<'a>, AllocError>
    ensures { IfOk result (IsParserOf (show_app_with asking_arguments)) }
{
    bare_parser(alloc)
        .arg(any_files(alloc))?
        .arg(flag(alloc, "check", help::CHECK))?
        .arg(option(alloc, "offset", "N", help::OFFSET))?
        .arg(flag(alloc, "contents", help::CONTENTS))?
        .arg(flag(alloc, "offsets", help::OFFSETS))?
        .arg(flag(alloc, "raw", help::RAW))?
        .arg(flag(alloc, "why", help::WHY))
}

/// The whole command line.
pub(crate) fn show_parser<'a>(alloc: Global) -> Result<Command<'a>, AllocError>
    ensures { IfOk result (IsParserOf show_app) }
{
    asking_parser(alloc)?
        .arg(option(alloc, "as", "FORM", help::AS))?
        .arg(option(alloc, "rules", "RULES", help::RULES))?
        .arg(option(alloc, "limit", "N", help::LIMIT))?
        .arg(flag(alloc, "pure", help::PURE))?
        .arg(option(alloc, "names", "NAMES", help::NAMES))?
        .arg(flag(alloc, "closed", help::CLOSED))?
        .arg(flag(alloc, "no-text", help::NO_TEXT))?
        .arg(flag(alloc, "padding", help::PADDING))?
        .arg(help_flag(alloc))?
        .arg(version_flag(alloc))
}
