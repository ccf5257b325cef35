//! What the words of a command line ask for.
ghost use Rattle.std.specs.Prelude.{IfErr, IfOk, Ok};
ghost use Rattle.tlv_program.specs.Matches.{matched_rows};
ghost use Rattle.tlv_view_program.specs.Private.RequestOf.{IsParserFault, ReturnsAsked};
ghost use Rattle.tlv_view_program.specs.RequestOf.{AreAskedAs, IsRequestFaultOf, matched_request, wanted_check};
ghost use Rattle.tlv_view_program.specs.RequestOf.{wanted_dump, wanted_extract, wanted_of};

use crate::form_value::form_value;
use crate::matched::{file_names, is_given};
use crate::parser::show_parser;
use crate::refusal::{Refusal, RequestFault, ShowOption};
use crate::request::{Request, Wanted};
use crate::together::refused_together;
use clap::ArgMatches;
use clap::error::ErrorKind;
use std::alloc::Global;
use tlv_program::{Words, first_of, has_flag, limit_value, offset_value, owned_text, rules_value};
use tlv_show::Rules;

/// What the words ask for.
///
/// # Errors
///
/// `Parser` if `clap` refuses the words, or if they ask for help or for the version: the kind of the error says which.
/// `Refused` if `clap` accepts the words, but options do not go together, or else the text of an option is not a valid
/// value: it names the first such option, in the order rules, limit, offset, as. `Memory` if memory is refused.
pub fn request_of(alloc: Global, words: &Words) -> Result<Request, RequestFault>
    ensures ok { IfOk result (λ request. AreAskedAs words.now (Ok request)) }
    ensures err { IfErr result (IsRequestFaultOf words.now) }
{
    let Ok(parser) = show_parser(alloc) else {
        return Err(RequestFault::Memory);
    };
    match parser.try_get_matches_from(words.as_slice()) {
        Ok(matches) => matched_request(alloc, &matches),
        Err(error) => Err(parser_fault(error)),
    }
}

/// The fault for an error of `clap`.
fn parser_fault(error: clap::Error) -> RequestFault
    ensures { IsParserFault error result }
{
    if error.kind() == ErrorKind::OutOfMemory {
        RequestFault::Memory
    } else {
        RequestFault::Parser(error)
    }
}

/// What the matches ask for.
fn matched_request(alloc: Global, matches: &ArgMatches<'_>) -> Result<Request, RequestFault>
    ensures { ReturnsAsked (matched_request (matched_rows matches.now)) result }
{
    if let Some(refusal) = refused_together(matches) {
        return Err(RequestFault::Refused(refusal));
    }
    let wanted = wanted_of(alloc, matches)?;
    let Some(form) = form_value(first_of(matches, "as")) else {
        return Err(RequestFault::Refused(Refusal::FormValue));
    };
    let Ok(files) = file_names(alloc, matches) else {
        return Err(RequestFault::Memory);
    };
    Ok(Request {
        wanted,
        form,
        padding: has_flag(matches, "padding"),
        files,
    })
}

/// What is wanted of each file.
fn wanted_of(alloc: Global, matches: &ArgMatches<'_>) -> Result<Wanted, RequestFault>
    ensures { ReturnsAsked (wanted_of (matched_rows matches.now)) result }
{
    if is_given(matches, ShowOption::Check) {
        wanted_check(matches)
    } else if is_given(matches, ShowOption::Offset) {
        wanted_extract(matches)
    } else if is_given(matches, ShowOption::Offsets) {
        Ok(Wanted::Offsets)
    } else if is_given(matches, ShowOption::Raw) {
        Ok(Wanted::Raw)
    } else if is_given(matches, ShowOption::Why) {
        Ok(Wanted::Why {
            closed: has_flag(matches, "closed"),
        })
    } else {
        wanted_dump(alloc, matches)
    }
}

fn wanted_dump(alloc: Global, matches: &ArgMatches<'_>) -> Result<Wanted, RequestFault>
    ensures { ReturnsAsked (wanted_dump (matched_rows matches.now)) result }
{
    let Some(rules) = rules_value(Rules::Ber, first_of(matches, "rules")) else {
        return Err(RequestFault::Refused(Refusal::RulesValue));
    };
    let Some(limit) = limit_value(first_of(matches, "limit")) else {
        return Err(RequestFault::Refused(Refusal::LimitValue));
    };
    let Ok(names) = owned_text(alloc, matches, "names") else {
        return Err(RequestFault::Memory);
    };
    Ok(Wanted::Dump {
        rules,
        limit,
        pure: has_flag(matches, "pure"),
        text: !has_flag(matches, "no-text"),
        closed: has_flag(matches, "closed"),
        names,
    })
}

fn wanted_check(matches: &ArgMatches<'_>) -> Result<Wanted, RequestFault>
    ensures { ReturnsAsked (wanted_check (matched_rows matches.now)) result }
{
    let Some(rules) = rules_value(Rules::Der, first_of(matches, "rules")) else {
        return Err(RequestFault::Refused(Refusal::RulesValue));
    };
    Ok(Wanted::Check {
        rules,
        closed: has_flag(matches, "closed"),
    })
}

fn wanted_extract(matches: &ArgMatches<'_>) -> Result<Wanted, RequestFault>
    ensures { ReturnsAsked (wanted_extract (matched_rows matches.now)) result }
{
    let Some(offset) = offset_value(first_of(matches, "offset")) else {
        return Err(RequestFault::Refused(Refusal::OffsetValue));
    };
    Ok(Wanted::Extract {
        offset,
        contents: has_flag(matches, "contents"),
    })
}
