//! What is read from the matches that `clap` makes of words.
ghost use Rattle.std.specs.Prelude.{◌≡◌, IfErr, IfOk};
ghost use Rattle.clap.specs.Words.{first_of};
ghost use Rattle.tlv_run.specs.BorrowedText.{text_in};
ghost use Rattle.tlv_program.specs.Matches.{has_flag, matched_rows};

use crate::usage::UsageFault;
use clap::ArgMatches;
use std::alloc::Global;
use tlv_run::Text;

/// The first text of an option, or the file's name.
pub fn first_of<'a>(matches: &ArgMatches<'a>, name: &str) -> Option<&'a str>
    ensures { text_in result ≡ first_of name.now (matched_rows matches.now) }
{
    matches.get_str(name)
}

/// A copy of the first text of an option, or of the file's name.
///
/// # Errors
///
/// `Memory` if memory is refused.
pub fn owned_text(
    alloc: Global,
    matches: &ArgMatches<'_>,
    name: &str,
) -> Result<Option<Text>, UsageFault>
    ensures ok { IfOk result (λ text. text ≡ first_of name.now (matched_rows matches.now)) }
    ensures memory { IfErr result (λ fault. fault ≡ UsageFault.Memory) }
{
    let Some(text) = first_of(matches, name) else {
        return Ok(None);
    };
    match Text::new(alloc, text) {
        Ok(text) => Ok(Some(text)),
        Err(_) => Err(UsageFault::Memory),
    }
}

/// Whether the flag was given.
pub fn has_flag(matches: &ArgMatches<'_>, name: &str) -> bool
    ensures { result ≡ has_flag name.now (matched_rows matches.now) }
{
    match first_of(matches, name) {
        Some(text) => text == "true",
        None => false,
    }
}
