//! Tests of the meaning of words: the command that they ask for, or why there is none.
use crate::expect::expect_eq_of;
use std::alloc::Global;
use std::test::Fail;
use tlv_program::{UsageFault, Words, command_of};
use tlv_run::Command;
use tlv_show::Rules;
use tlv_walk::{Framing, Inside};

/// Returns the command that these words, after the program's name, ask for.
fn command(alloc: Global, list: &[&str]) -> Result<Command<'static>, UsageFault> {
    let mut words = Words::new(alloc);
    words.push("tlvdump")?;
    for word in list {
        words.push(word)?;
    }
    command_of(alloc, &words)
}

/// Returns the name of the command that is asked for. If there is none, returns the option whose value is not allowed,
/// `refused` if `clap` refuses the words, or `printed` if they ask for help or the version.
fn meaning_of(alloc: Global, list: &[&str]) -> &'static str {
    match command(alloc, list) {
        Ok(Command::Dump { .. }) => "dump",
        Ok(Command::Check { .. }) => "check",
        Ok(Command::Extract { .. }) => "extract",
        Ok(Command::Indef { .. }) => "indef",
        Err(UsageFault::Value(name)) => name,
        Err(UsageFault::Memory) => "memory",
        Err(UsageFault::Parser(error)) => {
            if error.use_stderr() {
                "refused"
            } else {
                "printed"
            }
        }
    }
}

/// Words, and their meaning. If several values are not allowed, the order of the words does not decide which is reported.
static MEANINGS: [(&[&str], &str); 19] = [
    (&["dump"], "dump"),
    (&["check", "--rules", "cer", "--padding"], "check"),
    (&["extract", "--offset=007", "--contents"], "extract"),
    (&["indef", "-"], "indef"),
    (&["dump", "--limit", "x", "--inside", "4,"], "--limit"),
    (&["dump", "--inside", "4,", "--limit", "x"], "--limit"),
    (&["extract", "--inside", "5,3", "--offset", "7"], "--inside"),
    (&["dump", "--help"], "printed"),
    (&["--version"], "printed"),
    (&["dump", "--version"], "refused"),
    (&["help"], "refused"),
    (&["-h"], "refused"),
    (&[], "refused"),
    (&["dump", "--lim", "5"], "refused"),
    (&["dump", "--pure=1"], "refused"),
    (&["dump", "--limit", "-5"], "refused"),
    (&["dump", "--pure", "--pure"], "refused"),
    (&["dump", "a", "b"], "refused"),
    (&["extract"], "refused"),
];

#[test]
fn words_have_meanings(rt: HostRuntime) {
    for (list, want) in MEANINGS {
        expect_eq_of(&rt, list, meaning_of(rt.alloc(), list), want);
    }
}

/// Each option of a dump is passed on.
#[test]
fn options_are_passed_on(rt: HostRuntime) -> Result<(), Fail> {
    let list = [
        "dump",
        "--rules",
        "der",
        "--limit=05",
        "--pure",
        "--padding",
        "--inside",
        "0,5",
        "--names",
        "n",
        "-",
    ];
    let asked = command(rt.alloc(), &list)?;
    expect_eq_of(&rt, "names", asked.names_file(), Some("n"));
    expect_eq_of(&rt, "file", asked.file(), Some("-"));
    let (Command::Dump { options, .. }, Some(inside)) = (&asked, Inside::new(&[0, 5])) else {
        panic!(rt; "no dump");
    };
    let values = (options.rules, options.limit, options.pure);
    expect_eq_of(&rt, "values", values, (Rules::Der, Some(5), true));
    let framing = Framing {
        inside,
        padding: true,
    };
    expect_eq_of(&rt, "framing", &options.framing, &framing);
    Ok(())
}
