//! The blocks of all inputs.
ghost use Rattle.std.specs.Prelude.{◌≡◌, ◌≤◌, ◌<◌, ◌+◌, ◌++◌, ◌^◌, IfOk, IfSome, List, MatchOption, OnOk, SomeIff};
ghost use Rattle.std.specs.Prelude.{flat_map, length, map};
ghost use Rattle.std.specs.Result.{result_map_both};
ghost use Rattle.tlv_head.specs.Limits.{input_limit};
ghost use Rattle.tlv_run.specs.BorrowedText.{text_in};
ghost use Rattle.tlv_run.specs.Report.{report_value_of};
ghost use Rattle.tlv_view_program.specs.InputBlocks.{GetsAllBlocks, GetsBlocks, GetsOctets, InputBlockValue};
ghost use Rattle.tlv_text.specs.Taken.{taken_value};
ghost use Rattle.tlv_view_program.specs.InputBlocks.{TakesInput, decoded_count, decoded_size, octets_or_report};
ghost use Rattle.tlv_view_program.specs.InputBlocks.{run_limit};
ghost use Rattle.tlv_view_program.specs.Private.BlockParts.{all_fit, blocks_given, blocks_had, file_blocks};
ghost use Rattle.tlv_view_program.specs.Private.BlockParts.{octets_had, report_without_blocks, taken_fit};
ghost use Rattle.tlv_view_program.specs.Private.BlockParts.{taken_had};
ghost use Rattle.tlv_view_program.specs.ShowsAll.{files_of_words};
ghost use Rattle.tlv_view_program.specs.Streams.{streams_value};

use crate::files::file_of_word;
use crate::input::{InputFault, input_report, read_whole};
use crate::notes::{open_report, text_report};
use crate::request::{InputForm, Request};
use crate::streams::{Output, Streams};
use std::alloc::{AllocError, Global};
use tlv_program::{OpenFault, System};
use tlv_run::Report;
use tlv_text::{Taken, TakenFor, TextFault, take_as, take_input, take_octets};
use tlv_walk::{Drain, Source};

/// The maximum number of octets that are decoded from all texts of a run.
const RUN_LIMIT: usize = 1_073_741_824;

/// Why a file gives no block.
#[derive(Clone, Copy, Debug, PartialEq, Eq)]
pub(crate) enum NoBlocks {
    /// It does not open.
    Unopened(OpenFault),
    /// Its octets cannot be obtained.
    Input(InputFault),
    /// What is written in its text cannot be obtained.
    Text(TextFault),
}

/// What a file gave: its blocks, or why there are none.
#[derive(Debug, Drop)]
pub(crate) struct FileBlocks<'a> {
    /// The file; standard input has no name.
    pub file: Option<&'a str>,
    pub taken: Result<Vec<Taken>, NoBlocks>,
}

/// What a block holds.
#[derive(Clone, Copy, Debug)]
pub(crate) enum Contents<'a> {
    /// The file gives no block.
    Nothing(NoBlocks),
    /// What was taken for an encoding or a text.
    Taken(&'a Taken),
}

/// A block of all inputs.
#[derive(Clone, Copy, Debug)]
pub(crate) struct InputBlock<'a> {
    /// Its file; standard input has no name.
    pub file: Option<&'a str>,
    /// Whether the file has several blocks.
    pub is_one_of_several: bool,
    pub contents: Contents<'a>,
}

/// What all files of a request gave, in order, or standard input if there are no files. A text is refused if it and the
/// texts before it give more than 2^30 octets. `None` if memory for the list of files is refused.
pub(crate) fn blocks_of_files<'a, S: System, I: Source, O: Output, M: Drain>(
    alloc: Global,
    request: &'a Request,
    streams: &mut Streams<S, I, O, M>,
) -> Option<Vec<FileBlocks<'a>>>
    ensures gets { GetsAllBlocks S.allows request.now.form run_limit (files_of_words request.now.files)
        (streams_value I.state O.state O.reader_gone M.state streams.old)
        (streams_value I.state O.state O.reader_gone M.state streams.new)
        (blocks_had result) }
    ensures within { IfSome result (λ files. all_fit files.items) }
{
    let mut given = Vec::new(alloc);
    let mut room = RUN_LIMIT;
    let files = request.files.as_slice();
    if files.is_empty()
        && add_file(alloc, request.form, None, &mut room, streams, &mut given).is_err()
    {
        return None;
    }
    for word in files {
        let file = file_of_word(word.as_str());
        if add_file(alloc, request.form, file, &mut room, streams, &mut given).is_err() {
            return None;
        }
    }
    Some(given)
}

/// Adds what a file gives. Its texts may give `room` octets, which are then fewer.
fn add_file<'a, S: System, I: Source, O: Output, M: Drain>(
    alloc: Global,
    form: InputForm,
    file: Option<&'a str>,
    room: &mut usize,
    streams: &mut Streams<S, I, O, M>,
    given: &mut Vec<FileBlocks<'a>>,
) -> Result<(), AllocError>
    requires { all_fit given.old.items }
    ensures gets { (added : List InputBlockValue) × GetsBlocks S.allows form (text_in file.entry) room.old
        (streams_value I.state O.state O.reader_gone M.state streams.old)
        (streams_value I.state O.state O.reader_gone M.state streams.new) added room.new
        × OnOk result (flat_map file_blocks given.new.items ≡ flat_map file_blocks given.old.items ++ added) }
    ensures within { OnOk result (all_fit given.new.items) }
{
    let taken = blocks_of_file(alloc, form, file, room, streams);
    given.push(FileBlocks { file, taken })?;
    Ok(())
}

/// The blocks of a file, or why there are none. Its texts may give `room` octets, which are then fewer.
fn blocks_of_file<S: System, I: Source, O: Output, M: Drain>(
    alloc: Global,
    form: InputForm,
    file: Option<&str>,
    room: &mut usize,
    streams: &mut Streams<S, I, O, M>,
) -> Result<Vec<Taken>, NoBlocks>
    ensures gets { GetsBlocks S.allows form (text_in file.entry) room.old
        (streams_value I.state O.state O.reader_gone M.state streams.old)
        (streams_value I.state O.state O.reader_gone M.state streams.new)
        (blocks_given (text_in file.entry) result) room.new }
    ensures within { IfOk result (λ taken. taken_fit taken.items) }
{
    let octets = match octets_of_file(alloc, file, streams) {
        Ok(octets) => octets,
        Err(why) => return Err(why),
    };
    let taken = match take(alloc, form, octets) {
        Ok(taken) => taken,
        Err(fault) => return Err(NoBlocks::Text(fault)),
    };
    let Some(rest) = room_after(*room, taken.as_slice()) else {
        return Err(NoBlocks::Text(TextFault::TooLong));
    };
    *room = rest;
    Ok(taken)
}

/// How many octets fewer than `room` these texts give; `None` if they give more.
fn room_after(room: usize, taken: &[Taken]) -> Option<usize>
    ensures { MatchOption result (room < decoded_count (map taken_value taken.now))
        (λ rest. rest + decoded_count (map taken_value taken.now) ≡ room) }
{
    let mut rest = room;
    for block in taken {
        let size = decoded_size(block);
        if size > rest {
            return None;
        }
        rest -= size;
    }
    Some(rest)
}

/// The number of octets that are decoded from a text. Those of an input that is taken for octets stand in it.
fn decoded_size(taken: &Taken) -> usize
    ensures { result ≡ decoded_size (taken_value taken.now) }
{
    match taken.taken_for {
        TakenFor::Octets => 0,
        TakenFor::OtherText | TakenFor::Text(_) => taken.block.octets.len(),
    }
}

/// The number of blocks of all files. `None` if it is too large for its type.
pub(crate) fn block_count(files: &[FileBlocks<'_>]) -> Option<usize>
    ensures { SomeIff result (length (flat_map file_blocks files.now) < 2 ^ 64)
        (length (flat_map file_blocks files.now)) }
{
    let mut count: usize = 0;
    for file in files {
        let Some(more) = count.checked_add(file_block_count(file)) else {
            return None;
        };
        count = more;
    }
    Some(count)
}

/// The number of blocks of a file: one if it gives none, which says so.
pub(crate) fn file_block_count(file: &FileBlocks<'_>) -> usize
    ensures { result ≡ length (file_blocks file.now) }
{
    match &file.taken {
        Ok(taken) => taken.len(),
        Err(_) => 1,
    }
}

/// What an input is taken for, by the requested form.
fn take(alloc: Global, form: InputForm, octets: Vec<u8>) -> Result<Vec<Taken>, TextFault>
    requires { length octets.items ≤ input_limit }
    ensures takes { TakesInput form octets.items (taken_had result) }
    ensures within { IfOk result (λ taken. taken_fit taken.items) }
{
    match form {
        InputForm::Any => take_input(alloc, octets),
        InputForm::Octets => take_octets(alloc, octets),
        InputForm::Text(form) => take_as(alloc, form, octets.as_slice()),
    }
}

/// The octets of a file, or of standard input, or why there are none.
fn octets_of_file<S: System, I: Source, O: Output, M: Drain>(
    alloc: Global,
    file: Option<&str>,
    streams: &mut Streams<S, I, O, M>,
) -> Result<Vec<u8>, NoBlocks>
    ensures gets { GetsOctets S.allows (text_in file.entry)
        (streams_value I.state O.state O.reader_gone M.state streams.old)
        (streams_value I.state O.state O.reader_gone M.state streams.new)
        (octets_had result) }
    ensures within { IfOk result (λ octets. length octets.items ≤ input_limit) }
{
    let Some(name) = file else {
        return octets_read(read_whole(alloc, &mut streams.input));
    };
    match streams.system.open(name) {
        Ok(mut opened) => {
            let octets = read_whole(alloc, &mut opened);
            streams.system.close(opened);
            octets_read(octets)
        }
        Err(why) => Err(NoBlocks::Unopened(why)),
    }
}

/// The octets, or why there are none.
fn octets_read(octets: Result<Vec<u8>, InputFault>) -> Result<Vec<u8>, NoBlocks>
    requires { IfOk octets (λ octets. length octets.items ≤ input_limit) }
    ensures had { octets_had result ≡ octets_or_report (result_map_both (λ v. v.items) (λ fault. fault) octets) }
    ensures within { IfOk result (λ octets. length octets.items ≤ input_limit) }
{
    match octets {
        Ok(octets) => Ok(octets),
        Err(fault) => Err(NoBlocks::Input(fault)),
    }
}

/// The report for a file that gives no block.
pub(crate) fn report_without_blocks(why: NoBlocks) -> Report
    ensures { report_value_of result ≡ report_without_blocks why }
{
    match why {
        NoBlocks::Unopened(why) => open_report(why),
        NoBlocks::Input(fault) => input_report(fault),
        NoBlocks::Text(fault) => text_report(fault),
    }
}
