//! The lines that are written beside views.
ghost use Rattle.std.specs.List.{list_all};
ghost use Rattle.std.specs.Prelude.{◌≡◌, flat_map};
ghost use Rattle.tlv_text.specs.Taken.{taken_value};
ghost use Rattle.tlv_io.specs.Out.{Sends};
ghost use Rattle.tlv_open.specs.BrokenLine.{broken_line};
ghost use Rattle.tlv_run.specs.BorrowedText.{text_in};
ghost use Rattle.tlv_value.specs.Units.{is_printable};
ghost use Rattle.tlv_view_program.specs.Lines.{block_line, block_start, block_title, file_words, number_words};
ghost use Rattle.tlv_view_program.specs.Lines.{place_words, placed_line, printable_name, printable_octet, shown_name};
ghost use Rattle.tlv_view_program.specs.Notes.{note_line};
ghost use Rattle.tlv_view_program.specs.Private.BlockParts.{name_value};
ghost use Rattle.tlv_view_program.specs.Private.LineOut.{PutsLine};
ghost use Rattle.tlv_view_program.specs.ShowsBlock.{block_messages};

use crate::line_out::LineOut;
use crate::notes::{has_note, put_note};
use arrayvec::ArrayVec;
use itoa::Buffer;
use tlv_open::{BrokenString, broken_line};
use tlv_text::Taken;
use tlv_walk::{Drain, WriteFault};

/// What comes before messages that concern a block.
#[derive(Clone, Copy)]
pub(crate) struct BlockName<'a> {
    /// The name of its file; standard input has none.
    pub file: Option<&'a str>,
    /// Its number, if it is one of several in the file.
    pub number: Option<usize>,
}

/// Writes the line before a block: its number, the number of blocks, and the title of the block.
///
/// A function of its own, as [`write_note`] is: its room is where that of the dump is afterwards, which takes up to 4 %
/// off the time of a text of many blocks.
#[tactic(auto, using(tlv_io::proofs::Sends::sends))]
#[inline(never)]
pub(crate) fn write_block_line<D: Drain>(
    number: usize,
    count: usize,
    several_files: bool,
    file: Option<&str>,
    label: &[u8],
    drain: &mut D,
) -> Result<(), WriteFault>
    ensures { Sends (D.state drain.old) (D.state drain.new)
        (block_line number count (block_title several_files (text_in file.entry) label.now)) result }
{
    let mut out = LineOut::new(drain);
    put_block_line(number, count, several_files, file, label, &mut out)?;
    out.flush()?;
    Ok(())
}

/// Puts that line.
fn put_block_line<D: Drain>(
    number: usize,
    count: usize,
    several_files: bool,
    file: Option<&str>,
    label: &[u8],
    out: &mut LineOut<'_, D>,
) -> Result<(), WriteFault>
    ensures { PutsLine D.state out.old out.new
        (block_line number count (block_title several_files (text_in file.entry) label.now)) result }
{
    out.put(block_start(number, count).as_slice())?;
    put_title(several_files, file, label, out)?;
    out.put(b"\n")
}

/// Puts the title of a block.
fn put_title<D: Drain>(
    several_files: bool,
    file: Option<&str>,
    label: &[u8],
    out: &mut LineOut<'_, D>,
) -> Result<(), WriteFault>
    ensures { PutsLine D.state out.old out.new (block_title several_files (text_in file.entry) label.now) result }
{
    if label.is_empty() {
        return put_shown_name(file, out);
    }
    if several_files {
        put_shown_name(file, out)?;
        out.put(b": ")?;
    }
    out.put(label)
}

/// The beginning of the line before a block.
fn block_start(number: usize, count: usize) -> ArrayVec<u8, 64>
    ensures { result.items ≡ block_start number count }
{
    let mut start = ArrayVec::new();
    let mut number_digits = Buffer::new();
    let mut count_digits = Buffer::new();
    let _ = start.try_extend_from_slice(b"# block ");
    let _ = start.try_extend_from_slice(number_digits.format(number).as_bytes());
    let _ = start.try_extend_from_slice(b" of ");
    let _ = start.try_extend_from_slice(count_digits.format(count).as_bytes());
    let _ = start.try_extend_from_slice(b": ");
    start
}

/// Puts the name of a file, or words for standard input.
fn put_shown_name<D: Drain>(file: Option<&str>, out: &mut LineOut<'_, D>) -> Result<(), WriteFault>
    ensures { PutsLine D.state out.old out.new (shown_name (text_in file.entry)) result }
{
    match file {
        Some(name) => put_printable(name, out),
        None => out.put(b"standard input"),
    }
}

/// Puts a name with a question mark in place of each octet that is not printable.
fn put_printable<D: Drain>(name: &str, out: &mut LineOut<'_, D>) -> Result<(), WriteFault>
    ensures { PutsLine D.state out.old out.new (printable_name name.now) result }
{
    // Nearly all names are, and a text may have thousands of blocks.
    if are_printable(name.as_bytes()) {
        return out.put(name.as_bytes());
    }
    for octet in name.as_bytes() {
        out.put(&printable_octet(*octet))?;
    }
    Ok(())
}

/// Whether all of these are printable ASCII.
fn are_printable(octets: &[u8]) -> bool
    ensures { result ≡ list_all is_printable octets.now }
{
    for octet in octets {
        if !matches!(*octet, b' '..=b'~') {
            return false;
        }
    }
    true
}

/// The octet, or a question mark if it is not printable ASCII.
fn printable_octet(octet: u8) -> [u8; 1]
    ensures { result ≡ printable_octet octet }
{
    match octet {
        b' '..=b'~' => [octet],
        _ => [b'?'],
    }
}

/// Writes the note of a block, if it has one.
#[tactic(auto, using(tlv_io::proofs::Sends::sends))]
#[inline(never)]
pub(crate) fn write_note<D: Drain>(
    name: BlockName<'_>,
    taken: &Taken,
    drain: &mut D,
) -> Result<(), WriteFault>
    ensures { Sends (D.state drain.old) (D.state drain.new)
        (note_line (name_value name.entry) (taken_value taken.now)) result }
{
    let mut out = LineOut::new(drain);
    put_note_line(name, taken, &mut out)?;
    out.flush()?;
    Ok(())
}

/// Puts the line of the note of a block.
fn put_note_line<D: Drain>(
    name: BlockName<'_>,
    taken: &Taken,
    out: &mut LineOut<'_, D>,
) -> Result<(), WriteFault>
    ensures { PutsLine D.state out.old out.new (note_line (name_value name.entry) (taken_value taken.now)) result }
{
    if !has_note(taken) {
        return Ok(());
    }
    put_place(name, out)?;
    put_note(taken, out)?;
    out.put(b"\n")
}

/// Writes what comes after a block: its message, if there is one, and a line for each broken string.
pub(crate) fn write_messages<D: Drain>(
    name: BlockName<'_>,
    message: &[u8],
    broken: &[BrokenString],
    drain: &mut D,
) -> Result<(), WriteFault>
    ensures { Sends (D.state drain.old) (D.state drain.new)
        (block_messages (name_value name.entry) message.now broken.now) result }
{
    if message.is_empty() && broken.is_empty() {
        return Ok(());
    }
    write_message_lines(name, message, broken, drain)
}

/// Writes these lines. A function of its own: each call clears its buffer, and most blocks need no lines.
#[tactic(auto, using(tlv_io::proofs::Sends::sends))]
#[inline(never)]
fn write_message_lines<D: Drain>(
    name: BlockName<'_>,
    message: &[u8],
    broken: &[BrokenString],
    drain: &mut D,
) -> Result<(), WriteFault>
    ensures { Sends (D.state drain.old) (D.state drain.new)
        (block_messages (name_value name.entry) message.now broken.now) result }
{
    let mut out = LineOut::new(drain);
    put_messages(name, message, broken, &mut out)?;
    out.flush()?;
    Ok(())
}

/// Puts what comes after a block.
#[tactic(auto, using(tlv_io::proofs::Puts::puts))]
fn put_messages<D: Drain>(
    name: BlockName<'_>,
    message: &[u8],
    broken: &[BrokenString],
    out: &mut LineOut<'_, D>,
) -> Result<(), WriteFault>
    ensures { PutsLine D.state out.old out.new (block_messages (name_value name.entry) message.now broken.now) result }
{
    put_placed_line(name, message, out)?;
    put_broken_lines(name, broken, out)
}

/// Puts a line for each broken string.
fn put_broken_lines<D: Drain>(
    name: BlockName<'_>,
    broken: &[BrokenString],
    out: &mut LineOut<'_, D>,
) -> Result<(), WriteFault>
    ensures { PutsLine D.state out.old out.new
        (flat_map (λ b. placed_line (name_value name.entry) (broken_line b)) broken.now) result }
{
    for string in broken {
        put_placed_line(name, broken_line(string).as_slice(), out)?;
    }
    Ok(())
}

/// Puts a line that concerns a block, with the name of the block before it; nothing if the text is empty.
fn put_placed_line<D: Drain>(
    name: BlockName<'_>,
    text: &[u8],
    out: &mut LineOut<'_, D>,
) -> Result<(), WriteFault>
    ensures { PutsLine D.state out.old out.new (placed_line (name_value name.entry) text.now) result }
{
    if text.is_empty() {
        return Ok(());
    }
    put_place(name, out)?;
    out.put(text)?;
    out.put(b"\n")
}

/// Puts what comes before a message that concerns a block.
#[tactic(auto, using(tlv_io::proofs::Puts::puts))]
fn put_place<D: Drain>(name: BlockName<'_>, out: &mut LineOut<'_, D>) -> Result<(), WriteFault>
    ensures { PutsLine D.state out.old out.new (place_words (name_value name.entry)) result }
{
    put_file_words(name.file, out)?;
    put_number_words(name.number, out)
}

/// Puts the name of a file, if it has one.
#[tactic(auto, using(tlv_io::proofs::Puts::puts))]
fn put_file_words<D: Drain>(file: Option<&str>, out: &mut LineOut<'_, D>) -> Result<(), WriteFault>
    ensures { PutsLine D.state out.old out.new (file_words (text_in file.entry)) result }
{
    match file {
        Some(name) => {
            put_printable(name, out)?;
            out.put(b": ")
        }
        None => Ok(()),
    }
}

/// Puts the number of a block, if it has one.
fn put_number_words<D: Drain>(
    number: Option<usize>,
    out: &mut LineOut<'_, D>,
) -> Result<(), WriteFault>
    ensures { PutsLine D.state out.old out.new (number_words number) result }
{
    match number {
        Some(number) => {
            let mut digits = Buffer::new();
            out.put(b"block ")?;
            out.put(digits.format(number).as_bytes())?;
            out.put(b": ")
        }
        None => Ok(()),
    }
}
