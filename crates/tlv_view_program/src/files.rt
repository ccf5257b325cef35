//! All files: their blocks, one after another.
ghost use Rattle.std.specs.Prelude.{◌≡◌, ◌<◌, ◌+◌, ◌^◌, ◌∷◌, [], Ok, false, flat_map, length, map, max};
ghost use Rattle.tlv_text.specs.Taken.{taken_value};
ghost use Rattle.tlv_run.specs.BorrowedText.{text_in};
ghost use Rattle.tlv_view_program.specs.InputBlocks.{BlockContents, block_of_file, blocks_taken};
ghost use Rattle.tlv_view_program.specs.Private.BlockParts.{all_fit, blocks_place, file_blocks, file_fits};
ghost use Rattle.tlv_view_program.specs.Private.BlockParts.{report_without_blocks, taken_fit};
ghost use Rattle.tlv_view_program.specs.Private.ShowsSome.{ShowsSome};
ghost use Rattle.tlv_view_program.specs.ShowsAll.{ShowsBlocks, ShowsFiles, file_of_word, files_of_words};
ghost use Rattle.tlv_view_program.specs.Streams.{streams_value};

use crate::block::{BlockResult, Task};
use crate::input::{InputFault, input_report};
use crate::input_blocks::{
    Contents, FileBlocks, InputBlock, NoBlocks, block_count, blocks_of_files, file_block_count,
};
use crate::request::Request;
use crate::streams::{Output, Streams};
use std::alloc::Global;
use tlv_program::System;
use tlv_run::write_message;
use tlv_text::Taken;
use tlv_value::Names;
use tlv_walk::{Drain, Source};

/// Reads the files of a request, or standard input if there are none, and shows their blocks in order. Returns the
/// highest status. Shows no other block after a failed write to standard output. More blocks than a number can count
/// are more than memory can hold, so they are reported as such.
pub(crate) fn show_files<S: System, I: Source, O: Output, M: Drain>(
    alloc: Global,
    request: &Request,
    names: &Names,
    streams: &mut Streams<S, I, O, M>,
) -> u8
    ensures { ShowsFiles S.allows request.now names.now (files_of_words request.now.files)
        (streams_value I.state O.state O.reader_gone M.state streams.old)
        (streams_value I.state O.state O.reader_gone M.state streams.new)
        result }
{
    let Some(files) = blocks_of_files(alloc, request, streams) else {
        return write_message(&input_report(InputFault::Memory), &mut streams.messages);
    };
    let Some(count) = block_count(files.as_slice()) else {
        return write_message(&input_report(InputFault::Memory), &mut streams.messages);
    };
    let task = Task {
        alloc,
        request,
        names,
        count,
        several_files: request.files.as_slice().len() > 1,
    };
    show_blocks(&task, files, streams)
}

/// Shows the blocks of all files in order. Returns the highest status.
fn show_blocks<S: System, I: Source, O: Output, M: Drain>(
    task: &Task<'_>,
    files: Vec<FileBlocks<'_>>,
    streams: &mut Streams<S, I, O, M>,
) -> u8
    requires fit { all_fit files.items }
    requires count { length (flat_map file_blocks files.items) < 2 ^ 64 }
    ensures { ShowsBlocks task.now.request.now task.now.names.now (blocks_place task.now) 1
        (flat_map file_blocks files.entry.items)
        (streams_value I.state O.state O.reader_gone M.state streams.old)
        (streams_value I.state O.state O.reader_gone M.state streams.new)
        result }
{
    let mut status = 0;
    let mut before = 0;
    for file in files {
        let count = file_block_count(&file);
        let outcome = show_file(task, before, file, streams);
        status = highest(status, outcome.status);
        if outcome.has_failed {
            return status;
        }
        before += count;
    }
    status
}

/// Shows the blocks of a file, after so many blocks of other files.
fn show_file<S: System, I: Source, O: Output, M: Drain>(
    task: &Task<'_>,
    before: usize,
    file: FileBlocks<'_>,
    streams: &mut Streams<S, I, O, M>,
) -> BlockResult
    requires fit { file_fits file }
    requires count { before + length (file_blocks file) < 2 ^ 64 }
    ensures { ShowsSome task.now.request.now task.now.names.now (blocks_place task.now) (before + 1)
        (file_blocks file.entry)
        (streams_value I.state O.state O.reader_gone M.state streams.old)
        (streams_value I.state O.state O.reader_gone M.state streams.new)
        result.has_failed result.status }
{
    let FileBlocks { file, taken } = file;
    match taken {
        Ok(taken) => show_taken(task, before, file, taken, streams),
        Err(why) => show_nothing(task, before, file, why, streams),
    }
}

/// Shows the block of a file that gives none.
fn show_nothing<S: System, I: Source, O: Output, M: Drain>(
    task: &Task<'_>,
    before: usize,
    file: Option<&str>,
    why: NoBlocks,
    streams: &mut Streams<S, I, O, M>,
) -> BlockResult
    requires { before + 1 < 2 ^ 64 }
    ensures { ShowsSome task.now.request.now task.now.names.now (blocks_place task.now) (before + 1)
        (block_of_file (text_in file.entry) false (BlockContents.reported (report_without_blocks why)) ∷ [])
        (streams_value I.state O.state O.reader_gone M.state streams.old)
        (streams_value I.state O.state O.reader_gone M.state streams.new)
        result.has_failed result.status }
{
    let block = InputBlock {
        file,
        is_one_of_several: false,
        contents: Contents::Nothing(why),
    };
    task.block(before + 1, &block, streams)
}

/// Shows the blocks of a file that were taken for something. Drops each before the next is shown, while its memory is
/// still in the cache.
fn show_taken<S: System, I: Source, O: Output, M: Drain>(
    task: &Task<'_>,
    before: usize,
    file: Option<&str>,
    taken: Vec<Taken>,
    streams: &mut Streams<S, I, O, M>,
) -> BlockResult
    requires fit { taken_fit taken.items }
    requires count { before + length taken.items < 2 ^ 64 }
    ensures { ShowsSome task.now.request.now task.now.names.now (blocks_place task.now) (before + 1)
        (blocks_taken (text_in file.entry) (Ok (map taken_value taken.items)))
        (streams_value I.state O.state O.reader_gone M.state streams.old)
        (streams_value I.state O.state O.reader_gone M.state streams.new)
        result.has_failed result.status }
{
    let is_one_of_several = taken.len() > 1;
    let mut status = 0;
    let mut number = before;
    for each in taken {
        number += 1;
        let block = InputBlock {
            file,
            is_one_of_several,
            contents: Contents::Taken(&each),
        };
        let shown = task.block(number, &block, streams);
        status = highest(status, shown.status);
        if shown.has_failed {
            return BlockResult {
                status,
                has_failed: true,
            };
        }
    }
    BlockResult {
        status,
        has_failed: false,
    }
}

/// The higher of two statuses.
pub(crate) fn highest(status: u8, other: u8) -> u8
    ensures { result ≡ max status other }
{
    status.max(other)
}

/// The file of a word: `-` is standard input, which has no name.
pub(crate) fn file_of_word(word: &str) -> Option<&str>
    ensures { text_in result ≡ file_of_word word.now }
{
    if word == "-" { None } else { Some(word) }
}
