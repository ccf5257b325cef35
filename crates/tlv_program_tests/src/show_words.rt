//! Tests of the meaning of the words of `tlvdump-show`: the request that they make, or what is reported if they make
//! none.
use crate::expect::expect_eq_of;
use std::alloc::Global;
use std::process::Abort;
use std::test::Fail;
use tlv_program::Words;
use tlv_run::Text;
use tlv_show::Rules;
use tlv_text::Form;
use tlv_view_program::{InputForm, Request, RequestFault, Wanted, request_of, request_report};

/// Returns the request that these words, after the program's name, make.
fn request(alloc: Global, list: &[&str]) -> Result<Request, RequestFault> {
    let mut words = Words::new(alloc);
    if words.push("tlvdump-show").is_err() {
        return Err(RequestFault::Memory);
    }
    for word in list {
        if words.push(word).is_err() {
            return Err(RequestFault::Memory);
        }
    }
    request_of(alloc, &words)
}

/// Words that make no request, and the message. A text of `clap` is not part of the message.
static REFUSED: [(&[&str], &str); 14] = [
    (
        &["--as", "x", "--rules", "x"],
        "U2 value out of range: --rules (ber, der or cer)",
    ),
    (
        &["--limit=-5", "--as", "x"],
        "U2 value out of range: --limit (0 to 4294967295)",
    ),
    (
        &["--offset=+7"],
        "U2 value out of range: --offset (0 to 1099511627776)",
    ),
    (
        &["--as", "PEM"],
        "U2 value out of range: --as (octets, pem, dump, hex, numbers, base64 or runs)",
    ),
    (
        &["--raw", "--limit", "x", "--check"],
        "U4 not with --check: --raw",
    ),
    (
        &["--offsets", "--offset", "0"],
        "U4 not with --offset: --offsets",
    ),
    (&["--offsets", "--pure"], "U4 not with --offsets: --pure"),
    (
        &["--no-text", "--closed", "--raw"],
        "U4 not with --raw: --closed",
    ),
    (&["--why", "--no-text"], "U4 not with --why: --no-text"),
    (
        &["--contents", "--check"],
        "U4 only with --offset: --contents",
    ),
    (&["a", "--offset", "0", "b"], "U4 one FILE with --offset"),
    (&["--lim", "5"], ""),
    (&["--nonsense", "--help"], ""),
    (&["--offsets", "--version", "--offset", "x"], ""),
];

#[test]
fn refused_words_are_reported(rt: HostRuntime) {
    for (list, message) in REFUSED {
        let Err(fault) = request(rt.alloc(), list) else {
            panic!(rt; "there is a request");
        };
        let report = request_report(&fault);
        expect_eq_of(&rt, list, report.message.as_slice(), message.as_bytes());
    }
}

/// Returns the name of what is wanted.
fn name_of(wanted: &Wanted) -> &'static str {
    match wanted {
        Wanted::Dump { .. } => "dump",
        Wanted::Check { .. } => "check",
        Wanted::Extract { .. } => "extract",
        Wanted::Offsets => "offsets",
        Wanted::Raw => "raw",
        Wanted::Why { .. } => "why",
    }
}

/// Words, what is wanted, and the form of the input.
static WANTED: [(&[&str], &str, InputForm); 7] = [
    (&[], "dump", InputForm::Any),
    (&["--check", "--rules", "cer"], "check", InputForm::Any),
    (
        &["--contents", "--offset", "007", "--as=cer"],
        "extract",
        InputForm::Octets,
    ),
    (
        &["--offsets", "--as", "pem"],
        "offsets",
        InputForm::Text(Form::Pem),
    ),
    (&["--raw", "--as", "ber"], "raw", InputForm::Octets),
    (
        &["--closed", "--why", "--as", "runs"],
        "why",
        InputForm::Text(Form::Runs),
    ),
    (&["--", "--check"], "dump", InputForm::Any),
];

#[test]
fn words_make_requests(rt: HostRuntime) -> Result<(), Fail> {
    for (list, name, form) in WANTED {
        let made = request(rt.alloc(), list)?;
        expect_eq_of(&rt, list, name_of(&made.wanted), name);
        expect_eq_of(&rt, list, made.form, form);
    }
    Ok(())
}

fn expect_files(rt: &impl Abort, files: &[Text], want: &[&str]) {
    expect_eq_of(rt, want, files.len(), want.len());
    for (file, name) in files.iter().zip(want) {
        expect_eq_of(rt, want, file.as_str(), *name);
    }
}

/// Each option of a dump is passed on, and the files come in their order.
#[test]
fn options_are_passed_on(rt: HostRuntime) -> Result<(), Fail> {
    let list = [
        "a",
        "--no-text",
        "--closed",
        "--padding",
        "--names",
        "n",
        "--pure",
        "--limit",
        "0",
        "--rules",
        "der",
        "-",
    ];
    let made = request(rt.alloc(), &list)?;
    let Wanted::Dump {
        rules,
        limit,
        pure,
        text,
        closed,
        names: Some(names),
    } = &made.wanted
    else {
        panic!(rt; "no dump with a names file");
    };
    let values = (*rules, *limit, *pure, *text, *closed);
    expect_eq_of(
        &rt,
        "values",
        values,
        (Rules::Der, Some(0), true, false, true),
    );
    expect_eq_of(&rt, "names", names.as_str(), "n");
    expect_eq_of(&rt, "padding", made.padding, true);
    expect_files(&rt, made.files.as_slice(), &["a", "-"]);
    Ok(())
}
