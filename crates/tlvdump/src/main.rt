//! `tlvdump` shows BER, CER and DER encodings without their ASN.1 module.
#![tactic(auto)]

use std::process::ExitCode;
use tlv_program::{Host, run_program, words_of};
use tlv_run::write_message;
use tlv_walk::{ReadSource, WriteDrain};

fn main(rt: HostRuntime) -> ExitCode {
    let words = words_of(&rt);
    let mut input = ReadSource::new(rt.stdin());
    let mut output = WriteDrain::new(rt.stdout());
    let report = run_program(
        rt.alloc(),
        &words,
        &mut Host { rt: &rt },
        &mut input,
        &mut output,
    );
    let mut messages = WriteDrain::new(rt.stderr());
    ExitCode::from(write_message(&report, &mut messages))
}
