//! What is read from the matches that `clap` makes of words.
ghost use Rattle.std.specs.Prelude.{◌≡◌, IfOk, codes, map, option_map};
ghost use Rattle.clap.specs.Words.{all_of};
ghost use Rattle.tlv_program.specs.Matches.{matched_rows};
ghost use Rattle.tlv_view_program.specs.OptionsTogether.{given_files, is_option_given};

use crate::file_names::FileNames;
use crate::refusal::ShowOption;
use clap::ArgMatches;
use std::alloc::{AllocError, Global};
use tlv_program::{first_of, has_flag};

/// Whether the option was given.
pub(crate) fn is_given(matches: &ArgMatches<'_>, option: ShowOption) -> bool
    ensures { result ≡ is_option_given option (matched_rows matches.now) }
{
    match option {
        ShowOption::Check => has_flag(matches, "check"),
        ShowOption::Offset => first_of(matches, "offset").is_some(),
        ShowOption::Contents => has_flag(matches, "contents"),
        ShowOption::Offsets => has_flag(matches, "offsets"),
        ShowOption::Raw => has_flag(matches, "raw"),
        ShowOption::Why => has_flag(matches, "why"),
        ShowOption::Rules => first_of(matches, "rules").is_some(),
        ShowOption::Limit => first_of(matches, "limit").is_some(),
        ShowOption::Pure => has_flag(matches, "pure"),
        ShowOption::Names => first_of(matches, "names").is_some(),
        ShowOption::Closed => has_flag(matches, "closed"),
        ShowOption::NoText => has_flag(matches, "no-text"),
    }
}

/// The names of the files, as `clap` keeps them, if any.
pub(crate) fn file_texts<'m, 'a>(matches: &'m ArgMatches<'a>) -> Option<&'m [&'a str]>
    ensures { option_map (λ names. map (λ name. name.now) names.now) result
        ≡ all_of (codes "file") (matched_rows matches.now) }
{
    matches.get_strs("file")
}

/// Copies of the names of the files.
pub(crate) fn file_names(alloc: Global, matches: &ArgMatches<'_>) -> Result<FileNames, AllocError>
    ensures { IfOk result (λ files. files ≡ given_files (matched_rows matches.now)) }
{
    let mut files = FileNames::new(alloc);
    let Some(names) = file_texts(matches) else {
        return Ok(files);
    };
    for name in names {
        files.push(alloc, name)?;
    }
    Ok(files)
}
