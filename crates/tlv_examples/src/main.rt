//! A run of each command over memory, which takes no memory from the heap, and short examples of how to call the
//! libraries, written as tests. `tests/program axioms` checks which C functions the prover lists for the program: none of
//! them is of the heap.
#![tactic(auto)]

#[cfg(test)]
mod command;
#[cfg(test)]
mod expect;
mod no_names;
#[cfg(test)]
mod programs;
#[cfg(test)]
mod reasons;
#[cfg(test)]
mod shown;
#[cfg(test)]
mod strings;
#[cfg(test)]
mod texts;
#[cfg(test)]
mod walk;

use no_names::NoNames;
use std::process::ExitCode;
use tlv_run::{run_check, run_dump, run_extract, run_indef};
use tlv_show::{Options, Rules};
use tlv_walk::{Framing, MemDrain, MemSource};

/// A SEQUENCE that holds an INTEGER.
const INPUT: &[u8] = b"\x30\x03\x02\x01\x05";

/// What `dump --pure`, `check` by CER, `extract` at offset 2 and `indef` write of it, one after another.
const WRITTEN: &[u8] = b"SEQUENCE {\n  INTEGER 5\n}\n\
0 C01 definite length of a constructed element\n\
\x02\x01\x05\
\x30\x80\x02\x01\x05\x00\x00";

/// Succeeds if the runs write that, and report one finding of `check`.
fn main(_rt: HostRuntime) -> ExitCode {
    let mut room = [0; 128];
    let mut drain = MemDrain::new(&mut room, 4096);
    let options = Options {
        rules: Rules::Ber,
        limit: None,
        pure: true,
        framing: Framing::plain(),
    };
    let dump = run_dump(&options, &NoNames, &mut source(), &mut drain);
    let check = run_check(Rules::Cer, &options.framing, &mut source(), &mut drain);
    let extract = run_extract(2, false, &options.framing, &mut source(), &mut drain);
    let indef = run_indef(false, &mut source(), &mut drain);
    let statuses = [dump.status, check.status, extract.status, indef.status];
    if statuses == [0, 1, 0, 0] && drain.written() == WRITTEN {
        ExitCode::SUCCESS
    } else {
        ExitCode::FAILURE
    }
}

fn source() -> MemSource<'static> {
    MemSource::new(INPUT, &[], None)
}
