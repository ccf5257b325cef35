//! Tests of `tlv_show`: dumps and checks, and when their lines are written.
ghost use Rattle.std.specs.Prelude.{◌≤◌};
ghost use Rattle.tlv_walk.specs.Walker.{IsReady};
ghost use Rattle.tlv_walk.specs.OneTurn.{CanTurn};

use crate::expect::expect_eq;
use crate::inputs::element_at;
use std::process::Abort;
use tlv_show::{
    Check, Dump, Options, Outcome, Rules, Scope, Wanted, check_with, dump_with, has_basic_findings,
};
use tlv_value::Names;
use tlv_walk::{
    DeviceFault, Ending, Follow, Framing, MemDrain, MemSource, Run, Turn, Walker, drive, turn,
};

/// The options of a dump of everything.
fn plain() -> Options<'static> {
    Options {
        rules: Rules::Ber,
        limit: None,
        pure: false,
        framing: Framing::plain(),
    }
}

/// The result of a run over sound octets with this number of findings.
fn sound(findings: u64) -> Outcome {
    Outcome {
        ending: Ending::Done,
        findings,
        unused: None,
    }
}

/// An OCTET STRING, and an EXTERNAL that holds nothing, which is a finding that is not listed.
const INPUT: &[u8] = b"\x04\x03abc\x28\x00";

/// Dumps `INPUT`. Checks what is written and the result.
fn expect_dump(rt: &impl Abort, scope: Scope, with_text: bool, want: &[u8], findings: u64) {
    let mut room = [0; 200];
    let mut source = MemSource::new(INPUT, &[], None);
    let mut drain = MemDrain::new(&mut room, 7);
    let names = Names::empty();
    let outcome = dump_with(&mut source, &mut drain, &plain(), scope, with_text, &names);
    expect_eq(rt, drain.written(), want);
    expect_eq(rt, outcome, Ok(sound(findings)));
}

#[test]
fn dumps_have_a_scope_and_text(rt: HostRuntime) {
    let all: &[u8] = b"       0      3: OCTET STRING 61 62 63  |abc|
       5      0: EXTERNAL {
                 }
       5    B27: components are missing
";
    let listed: &[u8] = b"       0      3: OCTET STRING 61 62 63
       5      0: EXTERNAL {
                 }
";
    expect_dump(&rt, Scope::All, true, all, 1);
    expect_dump(&rt, Scope::Listed, false, listed, 0);
}

/// Checks `INPUT`. Checks what is listed and the result.
fn expect_check(rt: &impl Abort, wanted: Wanted, want: &[u8], findings: u64) {
    let mut room = [0; 100];
    let mut source = MemSource::new(INPUT, &[6], None);
    let mut drain = MemDrain::new(&mut room, 7);
    let outcome = check_with(&mut source, &mut drain, wanted, &Framing::plain());
    expect_eq(rt, drain.written(), want);
    expect_eq(rt, outcome, Ok(sound(findings)));
}

#[test]
fn checks_have_a_scope(rt: HostRuntime) {
    let all = b"5 B27 components are missing\n";
    expect_check(&rt, Wanted::all(Rules::Ber), all, 1);
    expect_check(&rt, Wanted::listed(Rules::Der), b"", 0);
}

/// Walks over `INPUT` with the follower. Returns the number of findings that it wrote.
fn findings_of<const TRACKED: usize>(follower: &mut Check<TRACKED>) -> Option<u64> {
    let mut room = [0; 100];
    let mut source = MemSource::new(INPUT, &[], None);
    let mut drain = MemDrain::new(&mut room, 7);
    let run = drive(&mut source, follower, &mut drain, &Framing::plain());
    if run.is_err() {
        return None;
    }
    Some(follower.findings())
}

/// `Check` counts the findings that it wrote.
#[test]
fn findings_are_counted(rt: HostRuntime) {
    let mut all = Check::new_with(Wanted::all(Rules::Ber));
    expect_eq(&rt, findings_of(&mut all), Some(1));
    expect_eq(&rt, findings_of(&mut Check::new(Rules::Ber)), Some(0));
}

/// Returns whether the primitive element has a finding of BER. Returns `None` if the octets are not one element.
fn found_in(octets: &[u8]) -> Option<bool> {
    let (header, contents) = element_at(0, octets)?;
    Some(has_basic_findings(&header, contents))
}

#[test]
fn primitives_have_findings(rt: HostRuntime) {
    expect_eq(&rt, found_in(b"\x02\x01\x05"), Some(false));
    expect_eq(&rt, found_in(b"\x02\x02\x00\x05"), Some(true));
}

/// The number of octets of the constructed string.
const LENGTH: u64 = 11;

/// The dump of the constructed string.
const TEXT: &[u8] = b"       0      9: VisibleString {
       2      3:   OCTET STRING 4a 6f 6e
       7      2:   OCTET STRING 65 73
                 }
";

/// Makes one read and follows its octets. Checks that more is to be read, and what is written so far.
fn expect_again<F: Follow>(
    rt: &impl Abort,
    walker: &mut Walker<'_>,
    follower: &mut F,
    source: &mut MemSource<'_>,
    drain: &mut MemDrain<'_>,
    room: &mut [u8],
    written: &[u8],
)
    requires { CanTurn walker.old room.old 11 }
    ensures within { walker.new.offset ≤ 11 }
    ensures ready { IsReady walker.new }
{
    let Ok(Turn::Again) = turn(walker, follower, source, drain, room, LENGTH) else {
        panic!(rt; "more is to be read");
    };
    expect_eq(rt, drain.written(), written);
}

/// Makes one read that fails. Checks that nothing more is written.
fn expect_failure<F: Follow>(
    rt: &impl Abort,
    walker: &mut Walker<'_>,
    follower: &mut F,
    source: &mut MemSource<'_>,
    drain: &mut MemDrain<'_>,
    room: &mut [u8],
    written: &[u8],
)
    requires { CanTurn walker.old room.old 11 }
    ensures within { walker.new.offset ≤ 11 }
    ensures ready { IsReady walker.new }
{
    let Err(DeviceFault::ReadFailed) = turn(walker, follower, source, drain, room, LENGTH) else {
        panic!(rt; "the read fails");
    };
    expect_eq(rt, drain.written(), written);
}

/// Each line is written as soon as its octets are read. A turn after a failed read goes on where the octets before it
/// ended.
#[test]
fn lines_come_with_their_octets(rt: HostRuntime) {
    let mut room = [0; 200];
    let mut piece = [0; 6];
    let framing = Framing::plain();
    let mut walker = Walker::new(&framing);
    let names = Names::empty();
    let mut dump = Dump::new(&plain(), &names);
    let mut source = MemSource::new(b"\x3a\x09\x04\x03Jon\x04\x02es", &[4], Some(1));
    let mut drain = MemDrain::new(&mut room, 4096);
    expect_again(
        &rt,
        &mut walker,
        &mut dump,
        &mut source,
        &mut drain,
        &mut piece,
        &TEXT[..33],
    );
    expect_failure(
        &rt,
        &mut walker,
        &mut dump,
        &mut source,
        &mut drain,
        &mut piece,
        &TEXT[..33],
    );
    expect_again(
        &rt,
        &mut walker,
        &mut dump,
        &mut source,
        &mut drain,
        &mut piece,
        &TEXT[..74],
    );
    expect_again(
        &rt,
        &mut walker,
        &mut dump,
        &mut source,
        &mut drain,
        &mut piece,
        TEXT,
    );
    let end = turn(
        &mut walker,
        &mut dump,
        &mut source,
        &mut drain,
        &mut piece,
        LENGTH,
    );
    let whole = Run {
        ending: Ending::Done,
        octets: LENGTH,
        enough: false,
        unused: None,
    };
    expect_eq(&rt, end, Ok(Turn::Ended(whole)));
}
