//! Which options go together.
ghost use Rattle.std.specs.Prelude.{◌≡◌};
ghost use Rattle.tlv_program.specs.Matches.{matched_rows};
ghost use Rattle.tlv_view_program.specs.OptionsTogether.{apart_from, first_given, refused_apart, refused_contents};
ghost use Rattle.tlv_view_program.specs.OptionsTogether.{refused_files, refused_together};

use crate::matched::{file_texts, is_given};
use crate::refusal::{Refusal, ShowOption};
use clap::ArgMatches;

/// The options that may not be given with `--check`.
const APART_FROM_CHECK: &[ShowOption] = &[
    ShowOption::Offset,
    ShowOption::Offsets,
    ShowOption::Raw,
    ShowOption::Why,
    ShowOption::Limit,
    ShowOption::Pure,
    ShowOption::Names,
    ShowOption::NoText,
];

/// The options that may not be given with `--offset`.
const APART_FROM_OFFSET: &[ShowOption] = &[
    ShowOption::Offsets,
    ShowOption::Raw,
    ShowOption::Why,
    ShowOption::Rules,
    ShowOption::Limit,
    ShowOption::Pure,
    ShowOption::Names,
    ShowOption::Closed,
    ShowOption::NoText,
];

/// The options that may not be given with `--offsets`.
const APART_FROM_OFFSETS: &[ShowOption] = &[
    ShowOption::Raw,
    ShowOption::Why,
    ShowOption::Rules,
    ShowOption::Limit,
    ShowOption::Pure,
    ShowOption::Names,
    ShowOption::Closed,
    ShowOption::NoText,
];

/// The options that may not be given with `--raw`.
const APART_FROM_RAW: &[ShowOption] = &[
    ShowOption::Why,
    ShowOption::Rules,
    ShowOption::Limit,
    ShowOption::Pure,
    ShowOption::Names,
    ShowOption::Closed,
    ShowOption::NoText,
];

/// The options that may not be given with `--why`.
const APART_FROM_WHY: &[ShowOption] = &[
    ShowOption::Rules,
    ShowOption::Limit,
    ShowOption::Pure,
    ShowOption::Names,
    ShowOption::NoText,
];

/// Why the options do not go together, if they do not.
pub(crate) fn refused_together(matches: &ArgMatches<'_>) -> Option<Refusal>
    ensures { result ≡ refused_together (matched_rows matches.now) }
{
    if let Some(refusal) = refused_apart(matches) {
        return Some(refusal);
    }
    if let Some(refusal) = refused_contents(matches) {
        return Some(refusal);
    }
    refused_files(matches)
}

/// The first of `--check`, `--offset`, `--offsets`, `--raw` and `--why` that is given, with an option that may not be
/// given with it.
fn refused_apart(matches: &ArgMatches<'_>) -> Option<Refusal>
    ensures { result ≡ refused_apart (matched_rows matches.now) }
{
    let asked = first_given(
        matches,
        &[
            ShowOption::Check,
            ShowOption::Offset,
            ShowOption::Offsets,
            ShowOption::Raw,
            ShowOption::Why,
        ],
    )?;
    let option = first_given(matches, apart_from(asked))?;
    Some(Refusal::NotWith(asked, option))
}

/// `--contents` without `--offset`.
fn refused_contents(matches: &ArgMatches<'_>) -> Option<Refusal>
    ensures { result ≡ refused_contents (matched_rows matches.now) }
{
    if is_given(matches, ShowOption::Contents) && !is_given(matches, ShowOption::Offset) {
        Some(Refusal::ContentsAlone)
    } else {
        None
    }
}

/// Several files with an option that takes one.
fn refused_files(matches: &ArgMatches<'_>) -> Option<Refusal>
    ensures { result ≡ refused_files (matched_rows matches.now) }
{
    if file_texts(matches)?.len() <= 1 {
        return None;
    }
    let asked = first_given(matches, &[ShowOption::Offset, ShowOption::Offsets])?;
    Some(Refusal::SeveralFiles(asked))
}

/// The first of these options that is given.
fn first_given(matches: &ArgMatches<'_>, options: &[ShowOption]) -> Option<ShowOption>
    ensures { result ≡ first_given options.now (matched_rows matches.now) }
{
    for option in options {
        if is_given(matches, *option) {
            return Some(*option);
        }
    }
    None
}

/// The options that may not be given with this one, which asks for something other than a dump.
fn apart_from(asked: ShowOption) -> &'static [ShowOption]
    ensures { result.now ≡ apart_from asked }
{
    match asked {
        ShowOption::Check => APART_FROM_CHECK,
        ShowOption::Offset => APART_FROM_OFFSET,
        ShowOption::Offsets => APART_FROM_OFFSETS,
        ShowOption::Raw => APART_FROM_RAW,
        ShowOption::Why => APART_FROM_WHY,
        _ => &[],
    }
}
