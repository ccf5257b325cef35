//! Why words ask for nothing, and what is reported then.
ghost use Rattle.std.specs.Prelude.{◌≡◌, ◌≤◌, length};
ghost use Rattle.tlv_run.specs.Report.{report_value_of};
ghost use Rattle.tlv_view_program.specs.RequestReport.{option_spelling, refusal_message, request_report};

use arrayvec::ArrayVec;
use tlv_run::Report;

/// An option that a refusal may name.
#[derive(Clone, Copy, Debug, PartialEq, Eq)]
pub enum ShowOption {
    /// `--check`
    Check,
    /// `--offset`
    Offset,
    /// `--contents`
    Contents,
    /// `--offsets`
    Offsets,
    /// `--raw`
    Raw,
    /// `--why`
    Why,
    /// `--rules`
    Rules,
    /// `--limit`
    Limit,
    /// `--pure`
    Pure,
    /// `--names`
    Names,
    /// `--closed`
    Closed,
    /// `--no-text`
    NoText,
}

/// Why words that `clap` accepts ask for nothing.
#[derive(Clone, Copy, Debug, PartialEq, Eq)]
pub enum Refusal {
    /// U2: the text of `--rules` is not a valid value.
    RulesValue,
    /// U2: the text of `--limit` is not a valid value.
    LimitValue,
    /// U2: the text of `--offset` is not a valid value.
    OffsetValue,
    /// U2: the text of `--as` is not a valid value.
    FormValue,
    /// U4: the second of these options may not be given with the first.
    NotWith(ShowOption, ShowOption),
    /// U4: `--contents` is given without `--offset`.
    ContentsAlone,
    /// U4: several files are given with this option.
    SeveralFiles(ShowOption),
}

/// Why words ask for nothing.
#[derive(Debug, Drop)]
pub enum RequestFault {
    /// `clap` refuses the words, or they ask for help or for the version: the kind of the error says which. There is no
    /// code: the text is `clap`'s own.
    Parser(clap::Error),
    /// U2, U4: the text of an option is not a valid value, or options do not go together.
    Refused(Refusal),
    /// U3: memory was refused.
    Memory,
}

/// The report if words ask for nothing. It contains nothing of `clap`'s own text.
pub fn request_report(fault: &RequestFault) -> Report
    ensures { report_value_of result ≡ request_report fault.now }
{
    match fault {
        RequestFault::Parser(error) => Report::without_message(if error.use_stderr() {
            4
        } else {
            0
        }),
        RequestFault::Refused(refusal) => {
            Report::with_message(4, refusal_message(*refusal).as_slice())
        }
        RequestFault::Memory => Report::with_message(5, b"U3 out of memory"),
    }
}

/// The message of U2 and U4.
fn refusal_message(refusal: Refusal) -> ArrayVec<u8, 128>
    ensures text { result.items ≡ refusal_message refusal }
    ensures short { length result.items ≤ 128 }
{
    match refusal {
        Refusal::RulesValue => line_of(b"U2 value out of range: --rules (ber, der or cer)"),
        Refusal::LimitValue => line_of(b"U2 value out of range: --limit (0 to 4294967295)"),
        Refusal::OffsetValue => line_of(b"U2 value out of range: --offset (0 to 1099511627776)"),
        Refusal::FormValue => line_of(
            b"U2 value out of range: --as (octets, pem, dump, hex, numbers, base64 or runs)",
        ),
        Refusal::NotWith(asked, option) => {
            let mut line = line_of(b"U4 not with ");
            let _ = line.try_extend_from_slice(spelling(asked).as_bytes());
            let _ = line.try_extend_from_slice(b": ");
            let _ = line.try_extend_from_slice(spelling(option).as_bytes());
            line
        }
        Refusal::ContentsAlone => line_of(b"U4 only with --offset: --contents"),
        Refusal::SeveralFiles(asked) => {
            let mut line = line_of(b"U4 one FILE with ");
            let _ = line.try_extend_from_slice(spelling(asked).as_bytes());
            line
        }
    }
}

fn line_of(text: &[u8]) -> ArrayVec<u8, 128>
    requires { length text.now ≤ 128 }
    ensures { result.items ≡ text.now }
{
    let mut line = ArrayVec::new();
    let _ = line.try_extend_from_slice(text);
    line
}

/// The option as it is written.
fn spelling(option: ShowOption) -> &'static str
    ensures text { result.now ≡ option_spelling option }
    ensures short { length result.now ≤ 10 }
{
    match option {
        ShowOption::Check => "--check",
        ShowOption::Offset => "--offset",
        ShowOption::Contents => "--contents",
        ShowOption::Offsets => "--offsets",
        ShowOption::Raw => "--raw",
        ShowOption::Why => "--why",
        ShowOption::Rules => "--rules",
        ShowOption::Limit => "--limit",
        ShowOption::Pure => "--pure",
        ShowOption::Names => "--names",
        ShowOption::Closed => "--closed",
        ShowOption::NoText => "--no-text",
    }
}
