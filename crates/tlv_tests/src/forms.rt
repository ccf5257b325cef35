//! Tests of `tlv_text`: inputs that are taken for octets, or for a text of some form.
use crate::expect::expect_eq_of;
use std::alloc::Global;
use std::process::Abort;
use std::test::Fail;
use tlv_text::{BlockState, Form, Taken, TakenFor, laws, take_as, take_input, take_octets};

/// What a block is taken for, the layers around it (the line of each, if it is a run), its line, its label, its octets,
/// and its state.
type Want<'a> = (
    TakenFor,
    &'a [Option<usize>],
    usize,
    &'a [u8],
    &'a [u8],
    BlockState,
);

fn expect_taken(rt: &impl Abort, taken: &[Taken], wanted: &[Want<'_>]) {
    expect_eq_of(rt, "blocks", taken.len(), wanted.len());
    for (block, want) in taken.iter().zip(wanted) {
        let (taken_for, layers, line, label, octets, state) = *want;
        expect_eq_of(rt, octets, block.taken_for, taken_for);
        expect_eq_of(rt, octets, block.layers.as_slice(), layers);
        expect_eq_of(rt, octets, block.block.line, line);
        expect_eq_of(rt, octets, block.block.label.as_slice(), label);
        expect_eq_of(rt, octets, block.block.octets.as_slice(), octets);
        expect_eq_of(rt, octets, block.block.state, state);
    }
}

/// Octets as they stand, YAML with runs of base64 that hold PEM, and a text of no form.
static INPUTS: [(&[u8], &[Want<'static>]); 3] = [
    (
        b"\x30\x03\x02\x01\x05",
        &[(
            TakenFor::Octets,
            &[],
            1,
            b"",
            b"\x30\x03\x02\x01\x05",
            BlockState::Whole,
        )],
    ),
    (
        b"data:\n  tls.crt: LS0tLS1CRUdJTiBYLS0tLS0KTUFNQ0FRVT0KLS0tLS1FTkQgWC0tLS0tCgoK\n  \
        tls.key: LS0tLS1CRUdJTiBZLS0tLS0KTUFNQ0FRYz0KLS0tLS1FTkQgWS0tLS0tCg==\n",
        &[
            (
                TakenFor::Text(Form::Pem),
                &[Some(2)],
                1,
                b"X",
                b"\x30\x03\x02\x01\x05",
                BlockState::Whole,
            ),
            (
                TakenFor::Text(Form::Pem),
                &[Some(3)],
                1,
                b"Y",
                b"\x30\x03\x02\x01\x07",
                BlockState::Whole,
            ),
        ],
    ),
    (
        b"Hello, world\n",
        &[(
            TakenFor::OtherText,
            &[],
            1,
            b"Hello, world?",
            b"",
            BlockState::Absent,
        )],
    ),
];

/// Returns the blocks of the input. Checks first that the input is not too long.
fn taken_of(rt: &impl Abort, alloc: Global, input: &[u8]) -> Result<Vec<Taken>, Fail> {
    let octets = Vec::from_slice(alloc, input)?;
    assert!(rt; octets.len() <= 4096);
    Ok(take_input(alloc, octets)?)
}

/// Checks the blocks of an input.
fn expect_input(
    rt: &impl Abort,
    alloc: Global,
    input: &[u8],
    wanted: &[Want<'_>],
) -> Result<(), Fail> {
    let taken = taken_of(rt, alloc, input)?;
    expect_taken(rt, taken.as_slice(), wanted);
    Ok(())
}

#[test]
fn inputs_are_taken(rt: HostRuntime) -> Result<(), Fail> {
    for (input, wanted) in INPUTS {
        expect_input(&rt, rt.alloc(), input, wanted)?;
    }
    Ok(())
}

/// If the caller names a form, the block of that form is returned, even if it is refused.
#[test]
fn a_form_may_be_named(rt: HostRuntime) -> Result<(), Fail> {
    let taken = take_as(rt.alloc(), Form::Hex, b"30 03 zz")?;
    let refused: Want<'_> = (
        TakenFor::Text(Form::Hex),
        &[],
        1,
        b"",
        b"\x30\x03",
        BlockState::Refused(1),
    );
    expect_taken(&rt, taken.as_slice(), &[refused]);
    Ok(())
}

/// If the caller asks for octets, the input is taken as it stands, even if it looks like base64.
#[test]
fn octets_may_be_named(rt: HostRuntime) -> Result<(), Fail> {
    let octets = Vec::from_slice(rt.alloc(), b"MAMCAQU=")?;
    let taken = take_octets(rt.alloc(), octets)?;
    let whole: Want<'_> = (
        TakenFor::Octets,
        &[],
        1,
        b"",
        b"MAMCAQU=",
        BlockState::Whole,
    );
    expect_taken(&rt, taken.as_slice(), &[whole]);
    Ok(())
}

#[test]
fn the_law_may_be_called() {
    laws::inputs_are_taken_for_one_thing();
}
