//! The command that the words of a command line ask for.
ghost use Rattle.std.specs.Prelude.{◌≡◌, IfErr, IfOk, IfSome, Ok, is_some, true};
ghost use Rattle.clap.specs.Words.{subcommand_rows_of};
ghost use Rattle.tlv_program.specs.CommandOf.{AreReadAs, IsUsageFaultOf, check_command, dump_command, extract_command};
ghost use Rattle.tlv_program.specs.CommandOf.{framing_value, indef_command, matched_command};
ghost use Rattle.tlv_program.specs.Matches.{matched_rows};
ghost use Rattle.tlv_program.specs.Private.CommandOf.{IsFaultFor, Returns};

use crate::matches::{first_of, has_flag, owned_text};
use crate::parser::tlvdump_parser;
use crate::usage::UsageFault;
use crate::values::{inside_value, limit_value, offset_value, rules_value};
use crate::words::Words;
use clap::ArgMatches;
use clap::error::ErrorKind;
use std::alloc::Global;
use tlv_run::Command;
use tlv_show::{Options, Rules};
use tlv_walk::Framing;

/// The command that the words ask for.
///
/// # Errors
///
/// `Parser` if `clap` refuses the words, or if they ask for help or for the version: the kind of the error says which.
/// `Value` if `clap` accepts the words, but the text of an option is not a valid value: it names the first such option,
/// in the order rules, limit, offset, inside. `Memory` if memory is refused.
pub fn command_of(alloc: Global, words: &Words) -> Result<Command<'static>, UsageFault>
    ensures ok { IfOk result (λ command. AreReadAs words.now (Ok command)) }
    ensures err { IfErr result (IsUsageFaultOf words.now) }
{
    let Ok(parser) = tlvdump_parser(alloc) else {
        return Err(UsageFault::Memory);
    };
    match parser.try_get_matches_from(words.as_slice()) {
        Ok(matches) => matched_command(alloc, &matches),
        Err(error) => Err(usage_fault(error)),
    }
}

/// The fault for an error of `clap`.
fn usage_fault(error: clap::Error) -> UsageFault
    ensures { IsFaultFor error result }
{
    if error.kind() == ErrorKind::OutOfMemory {
        UsageFault::Memory
    } else {
        UsageFault::Parser(error)
    }
}

/// The command of the subcommand that `clap` matches.
fn matched_command(alloc: Global, matches: &ArgMatches<'_>) -> Result<Command<'static>, UsageFault>
    requires { is_some (subcommand_rows_of matches.now) ≡ true }
    ensures { IfSome (subcommand_rows_of matches.now)
        (λ (name, rows). Returns (matched_command name rows) result) }
{
    let Some((name, found)) = matches.subcommand() else {
        unreachable!();
    };
    match name {
        "dump" => dump_command(alloc, found),
        "check" => check_command(alloc, found),
        "extract" => extract_command(alloc, found),
        _ => indef_command(alloc, found),
    }
}

fn dump_command(alloc: Global, matches: &ArgMatches<'_>) -> Result<Command<'static>, UsageFault>
    ensures { Returns (dump_command (matched_rows matches.now)) result }
{
    let Some(rules) = rules_value(Rules::Ber, first_of(matches, "rules")) else {
        return Err(UsageFault::Value("--rules"));
    };
    let Some(limit) = limit_value(first_of(matches, "limit")) else {
        return Err(UsageFault::Value("--limit"));
    };
    let Some(framing) = framing_value(matches) else {
        return Err(UsageFault::Value("--inside"));
    };
    let options = Options {
        rules,
        limit,
        pure: has_flag(matches, "pure"),
        framing,
    };
    let names = owned_text(alloc, matches, "names")?;
    let file = owned_text(alloc, matches, "file")?;
    Ok(Command::Dump {
        options,
        names,
        file,
    })
}

fn check_command(alloc: Global, matches: &ArgMatches<'_>) -> Result<Command<'static>, UsageFault>
    ensures { Returns (check_command (matched_rows matches.now)) result }
{
    let Some(rules) = rules_value(Rules::Der, first_of(matches, "rules")) else {
        return Err(UsageFault::Value("--rules"));
    };
    let Some(framing) = framing_value(matches) else {
        return Err(UsageFault::Value("--inside"));
    };
    let file = owned_text(alloc, matches, "file")?;
    Ok(Command::Check {
        rules,
        framing,
        file,
    })
}

fn extract_command(alloc: Global, matches: &ArgMatches<'_>) -> Result<Command<'static>, UsageFault>
    ensures { Returns (extract_command (matched_rows matches.now)) result }
{
    let Some(offset) = offset_value(first_of(matches, "offset")) else {
        return Err(UsageFault::Value("--offset"));
    };
    let Some(framing) = framing_value(matches) else {
        return Err(UsageFault::Value("--inside"));
    };
    let file = owned_text(alloc, matches, "file")?;
    Ok(Command::Extract {
        offset,
        contents: has_flag(matches, "contents"),
        framing,
        file,
    })
}

fn indef_command(alloc: Global, matches: &ArgMatches<'_>) -> Result<Command<'static>, UsageFault>
    ensures { Returns (indef_command (matched_rows matches.now)) result }
{
    let padding = has_flag(matches, "padding");
    let file = owned_text(alloc, matches, "file")?;
    Ok(Command::Indef { padding, file })
}

/// The framing that `--inside` and `--padding` ask for, if the text of `--inside` is a value.
fn framing_value(matches: &ArgMatches<'_>) -> Option<Framing<'static>>
    ensures { result ≡ framing_value (matched_rows matches.now) }
{
    let inside = inside_value(first_of(matches, "inside"))?;
    Some(Framing {
        inside,
        padding: has_flag(matches, "padding"),
    })
}
