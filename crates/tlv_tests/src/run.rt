//! Tests of `tlv_run`: a dump with text, and a drain in memory. `tlv_program_tests` has those of the other runs.
use crate::expect::{expect_eq, expect_eq_of};
use tlv_run::{BoundedDrain, run_dump_with};
use tlv_show::{Options, Rules, Scope};
use tlv_value::Names;
use tlv_walk::{Drain, Framing, MemDrain, MemSource, WriteFault};

/// `run_dump_with` shows the text beside pairs of digits.
#[test]
fn a_dump_with_text_is_run(rt: HostRuntime) {
    let options = Options {
        rules: Rules::Ber,
        limit: None,
        pure: false,
        framing: Framing::plain(),
    };
    let mut room = [0; 128];
    let mut source = MemSource::new(b"\x04\x03abc", &[], None);
    let mut drain = MemDrain::new(&mut room, 4096);
    let names = Names::empty();
    let report = run_dump_with(
        &options,
        Scope::Listed,
        true,
        &names,
        &mut source,
        &mut drain,
    );
    let want = b"       0      3: OCTET STRING 61 62 63  |abc|\n";
    expect_eq_of(&rt, "written", drain.written(), want.as_slice());
    expect_eq_of(&rt, "status", report.status, 0);
}

/// A `BoundedDrain` keeps the first octets, and refuses what does not fit.
#[test]
fn a_drain_in_memory_keeps_what_fits(rt: HostRuntime) {
    let mut drain: BoundedDrain<3> = BoundedDrain::new();
    expect_eq(&rt, drain.write(b"ab"), Ok(2));
    expect_eq(&rt, drain.write(b"cd"), Ok(1));
    expect_eq(&rt, drain.write(b"e"), Err(WriteFault));
    let kept = drain.into_octets();
    expect_eq_of(&rt, "kept", kept.as_slice(), b"abc".as_slice());
}
