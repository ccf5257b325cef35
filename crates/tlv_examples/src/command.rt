//! Examples of commands.
use crate::expect::expect_eq;
use std::test::Fail;
use tlv_program::{Words, command_of};
use tlv_run::{Command, run_octets};
use tlv_show::Rules;
use tlv_value::Names;
use tlv_walk::Framing;

/// tlv_run: runs `check --rules der` over octets in memory. The result has what is written and the exit status.
#[test]
fn run_a_command(rt: HostRuntime) {
    let command = Command::Check {
        rules: Rules::Der,
        framing: Framing::plain(),
        file: None,
    };
    let run = run_octets::<64>(&command, &Names::empty(), b"\x30\x80\x00\x00", &[], false);
    expect_eq(&rt, run.written.as_slice(), b"0 D01 indefinite length\n");
    expect_eq(&rt, run.report.status, 1);
}

/// tlv_program: makes a command from the words of a command line.
#[test]
fn read_the_words_of_a_command(rt: HostRuntime) -> Result<(), Fail> {
    let mut words = Words::new(rt.alloc());
    words.push("tlvdump")?;
    words.push("check")?;
    let command = command_of(rt.alloc(), &words);
    expect_eq(&rt, matches!(command, Ok(Command::Check { .. })), true);
    Ok(())
}
