//! What is said about a block before it is shown.
ghost use Rattle.std.specs.Prelude.{◌≡◌, ◌≤◌, ◌++◌, decimal, flat_map, length};
ghost use Rattle.tlv_text.specs.Taken.{taken_value};
ghost use Rattle.tlv_run.specs.Report.{report_value_of};
ghost use Rattle.tlv_text.specs.Blocks.{block_value};
ghost use Rattle.tlv_view_program.specs.Notes.{absent_words, expected_words, form_note, form_words, label_words};
ghost use Rattle.tlv_view_program.specs.Notes.{layer_words, other_text_note, run_words, state_words, taken_note};
ghost use Rattle.tlv_view_program.specs.Notes.{has_note, name_by, open_report, text_report};
ghost use Rattle.tlv_view_program.specs.Private.LineOut.{PutsLine};

use crate::input::{InputFault, input_report};
use crate::line_out::LineOut;
use arrayvec::ArrayVec;
use itoa::Buffer;
use tlv_program::OpenFault;
use tlv_run::{Report, unopened_report};
use tlv_text::{Block, BlockState, Form, Taken, TakenFor, TextFault};
use tlv_walk::{Drain, WriteFault};

/// The report if a file does not open, with the cause if it is a usual one.
pub(crate) fn open_report(why: OpenFault) -> Report
    ensures { report_value_of result ≡ open_report why }
{
    match why {
        OpenFault::Missing => Report::with_message(3, b"E5 cannot open the file: no such file"),
        OpenFault::Denied => Report::with_message(3, b"E5 cannot open the file: permission denied"),
        OpenFault::Other => unopened_report(),
    }
}

/// The report if the blocks of an input cannot be obtained.
pub(crate) fn text_report(fault: TextFault) -> Report
    ensures { report_value_of result ≡ text_report fault }
{
    match fault {
        TextFault::TooLong => Report::with_message(
            4,
            b"X4 texts of more than 1073741824 octets in all, or one of 16777216 more octets than characters",
        ),
        TextFault::Memory => input_report(InputFault::Memory),
    }
}

/// Whether a block has a note.
pub(crate) fn has_note(taken: &Taken) -> bool
    ensures { result ≡ has_note taken.now.taken_for }
{
    match taken.taken_for {
        TakenFor::Octets => false,
        TakenFor::OtherText | TakenFor::Text(_) => true,
    }
}

/// The name of a block of a text in the line before it; empty if it has no label.
pub(crate) fn block_label(taken: &Taken) -> ArrayVec<u8, 64>
    ensures { result.items ≡ name_by taken.now.taken_for (block_value taken.now.block) }
{
    match taken.taken_for {
        TakenFor::Text(Form::Pem) => words(taken.block.label.as_slice()),
        TakenFor::Text(Form::Runs) if taken.block.state != BlockState::Absent => {
            run_words(taken.block.line)
        }
        _ => ArrayVec::new(),
    }
}

/// Puts the note of a block.
pub(crate) fn put_note<D: Drain>(taken: &Taken, out: &mut LineOut<'_, D>) -> Result<(), WriteFault>
    ensures { PutsLine D.state out.old out.new (taken_note (taken_value taken.now)) result }
{
    match taken.taken_for {
        TakenFor::Octets => Ok(()),
        TakenFor::OtherText => put_other_text(taken.block.label.as_slice(), out),
        TakenFor::Text(form) => match taken.block.state {
            BlockState::Absent => out.put(absent_words(form)),
            _ => put_form_note(form, taken.layers.as_slice(), &taken.block, out),
        },
    }
}

/// Puts the note of a text whose form is not known, with its first words.
fn put_other_text<D: Drain>(words: &[u8], out: &mut LineOut<'_, D>) -> Result<(), WriteFault>
    ensures { PutsLine D.state out.old out.new (other_text_note words.now) result }
{
    out.put(b"X1 text of no form that is known: \"")?;
    out.put(words)?;
    out.put(b"\"; known are PEM, hex dumps, hexadecimal, decimal numbers and base64")
}

/// Puts the note of a block of a text in a form.
fn put_form_note<D: Drain>(
    form: Form,
    layers: &[Option<usize>],
    block: &Block,
    out: &mut LineOut<'_, D>,
) -> Result<(), WriteFault>
    ensures { PutsLine D.state out.old out.new (form_note form layers.now (block_value block.now)) result }
{
    out.put(b"taken for ")?;
    out.put(form_words(form, block.line).as_slice())?;
    put_label(block.label.as_slice(), out)?;
    put_layers(layers, out)?;
    out.put(state_words(form, block.state).as_slice())
}

/// Puts a label, if there is one.
fn put_label<D: Drain>(label: &[u8], out: &mut LineOut<'_, D>) -> Result<(), WriteFault>
    ensures { PutsLine D.state out.old out.new (label_words label.now) result }
{
    if label.is_empty() {
        return Ok(());
    }
    out.put(b", ")?;
    out.put(label)
}

/// Puts the base64 in which a block is written.
fn put_layers<D: Drain>(
    layers: &[Option<usize>],
    out: &mut LineOut<'_, D>,
) -> Result<(), WriteFault>
    ensures { PutsLine D.state out.old out.new (flat_map layer_words layers.now) result }
{
    for layer in layers {
        out.put(layer_words(*layer).as_slice())?;
    }
    Ok(())
}

/// The words for base64 in which a block is written.
fn layer_words(layer: Option<usize>) -> ArrayVec<u8, 64>
    ensures { result.items ≡ layer_words layer }
{
    match layer {
        None => words(b", in base64"),
        Some(line) => words_with_number(b", in base64 of line ", line),
    }
}

/// The words for the form of a block that begins at this line.
fn form_words(form: Form, line: usize) -> ArrayVec<u8, 64>
    ensures { result.items ≡ form_words form line }
{
    match form {
        Form::Pem => words(b"PEM"),
        Form::Dump => words(b"a hex dump"),
        Form::Hex => words(b"hexadecimal"),
        Form::Numbers => words(b"decimal numbers"),
        Form::Base64 => words(b"base64"),
        Form::Runs => run_words(line),
    }
}

/// The words for a run of base64, by its line.
fn run_words(line: usize) -> ArrayVec<u8, 64>
    ensures { result.items ≡ run_words line }
{
    words_with_number(b"base64 of line ", line)
}

/// The words for what is wrong with the text of a block, or for where a dump begins or ends.
fn state_words(form: Form, state: BlockState) -> ArrayVec<u8, 128>
    ensures { result.items ≡ state_words form state }
{
    let mut words = ArrayVec::new();
    match state {
        BlockState::Whole | BlockState::MayBePairs | BlockState::Absent => {}
        BlockState::BeginsAt(offset) => {
            let mut digits = Buffer::new();
            let _ = words.try_extend_from_slice(b"; it begins at offset ");
            let _ = words.try_extend_from_slice(digits.format(offset).as_bytes());
        }
        BlockState::Ended(line) => {
            let mut digits = Buffer::new();
            let _ = words.try_extend_from_slice(b"; it ends in front of line ");
            let _ = words.try_extend_from_slice(digits.format(line).as_bytes());
        }
        BlockState::Unended => {
            let _ = words.try_extend_from_slice(b"; its end marker is missing");
        }
        BlockState::Encrypted => {
            let _ = words.try_extend_from_slice(b"; X3 it is encrypted");
        }
        BlockState::Refused(line) => {
            let mut digits = Buffer::new();
            let _ = words.try_extend_from_slice(b"; X2 refused in line ");
            let _ = words.try_extend_from_slice(digits.format(line).as_bytes());
            let _ = words.try_extend_from_slice(b", where ");
            let _ = words.try_extend_from_slice(expected_words(form));
            let _ = words.try_extend_from_slice(b" is expected");
        }
    }
    words
}

/// The words for what is expected where a text is refused.
fn expected_words(form: Form) -> &'static [u8]
    ensures words { result.now ≡ expected_words form }
    ensures few { length result.now ≤ 41 }
{
    match form {
        Form::Dump => b"a row of a hex dump",
        Form::Hex => b"a pair of hexadecimal digits",
        Form::Numbers => b"only one list of numbers from -128 to 255",
        Form::Pem | Form::Base64 | Form::Runs => b"base64",
    }
}

/// The words for a text that has no block of its form.
fn absent_words(form: Form) -> &'static [u8]
    ensures { result.now ≡ absent_words form }
{
    match form {
        Form::Pem => b"X2 there is no block of PEM",
        Form::Dump => b"X2 there is no hex dump",
        Form::Hex => b"X2 there is no hexadecimal",
        Form::Numbers => b"X2 there is no list of decimal numbers",
        Form::Base64 | Form::Runs => b"X2 there is no base64",
    }
}

/// These words.
fn words(text: &[u8]) -> ArrayVec<u8, 64>
    requires { length text.now ≤ 64 }
    ensures { result.items ≡ text.now }
{
    let mut words = ArrayVec::new();
    let _ = words.try_extend_from_slice(text);
    words
}

/// These words and a number.
fn words_with_number(text: &[u8], number: usize) -> ArrayVec<u8, 64>
    requires { length text.now ≤ 40 }
    ensures { result.items ≡ text.now ++ decimal number }
{
    let mut words = ArrayVec::new();
    let mut digits = Buffer::new();
    let _ = words.try_extend_from_slice(text);
    let _ = words.try_extend_from_slice(digits.format(number).as_bytes());
    words
}
