//! What is shown of a block of the inputs, and what is said about it.
ghost use Rattle.std.specs.Prelude.{◌≡◌, []};
ghost use Rattle.tlv_io.specs.Out.{Sends};
ghost use Rattle.tlv_walk.specs.Reading.{AreOctets};
ghost use Rattle.tlv_run.specs.Report.{report_value_of};
ghost use Rattle.tlv_text.specs.Blocks.{block_value};
ghost use Rattle.tlv_view_program.specs.Private.BlockParts.{block_contents, contents_fit, input_block, name_value};
ghost use Rattle.tlv_view_program.specs.Private.BlockParts.{place_value};
ghost use Rattle.tlv_view_program.specs.ShowsBlock.{BlockPlace, ShowsBlock, ShowsContents, ShowsTitled};
ghost use Rattle.tlv_view_program.specs.ShowsBlock.{contents_name, contents_note};
ghost use Rattle.tlv_view_program.specs.ShowsBlock.{contents_status, has_failed_write, has_octets, is_undecoded};
ghost use Rattle.tlv_view_program.specs.ShowsBlock.{explained_in, message_place, octets_of_contents, refused_status};
ghost use Rattle.tlv_view_program.specs.ShowsBlock.{said_message, status_with, title};
ghost use Rattle.tlv_view_program.specs.Streams.{streams_value};
ghost use Rattle.tlv_view_program.specs.WritesReasons.{WritesReasons, block_reads};

use crate::after_messages::{explained_in, octets_of_contents, reasons_report};
use crate::files::highest;
use crate::input_blocks::{Contents, InputBlock, report_without_blocks};
use crate::lines::{BlockName, write_block_line, write_messages, write_note};
use crate::notes::block_label;
use crate::octets::show_octets;
use crate::reasons::{block_reads, write_explained};
use crate::request::{Request, Wanted};
use crate::streams::{Output, Streams};
use crate::view_call::Viewed;
use crate::wanted::has_titles;
use arrayvec::ArrayVec;
use std::alloc::{AllocError, Global};
use tlv_open::BrokenString;
use tlv_program::System;
use tlv_run::{Report, device_report};
use tlv_text::{Block, BlockState};
use tlv_value::Names;
use tlv_walk::{DeviceFault, Drain, Source, WriteFault};

/// What to do with each block.
#[derive(Clone, Copy)]
pub(crate) struct Task<'a> {
    pub alloc: Global,
    pub request: &'a Request,
    pub names: &'a Names,
    /// The number of blocks.
    pub count: usize,
    /// Whether there are several files.
    pub several_files: bool,
}

/// The result of showing a block.
#[derive(Clone, Copy)]
pub(crate) struct BlockResult {
    pub status: u8,
    /// Whether standard output failed.
    pub has_failed: bool,
}

impl Task<'_> {
    /// Shows the block with this number, and writes what there is to say before it and after it.
    pub fn block<S: System, I: Source, O: Output, M: Drain>(
        &self,
        number: usize,
        block: &InputBlock<'_>,
        streams: &mut Streams<S, I, O, M>,
    ) -> BlockResult
        requires { contents_fit block.now.contents }
        ensures { ShowsBlock self.now.request.now self.now.names.now (place_value number self.now)
            (input_block block.now)
            (streams_value I.state O.state O.reader_gone M.state streams.old)
            (streams_value I.state O.state O.reader_gone M.state streams.new)
            result.has_failed result.status }
    {
        let name = name_of(number, block);
        let _ = write_contents_note(name, block.contents, &mut streams.messages);
        let shown = self.titled(number, block, &mut streams.output);
        let message = said_message(streams.output.reader_is_gone(), &shown.report);
        let _ = write_messages(
            name,
            message,
            shown.broken.as_slice(),
            &mut streams.messages,
        );
        let outcome = self.explained(block.contents, &shown, &mut streams.messages);
        let refusal = reasons_report(outcome);
        let _ = write_messages(name, refusal.message.as_slice(), &[], &mut streams.messages);
        let shown_status = status_with(shown.report.status, shown.broken.as_slice());
        let status = contents_status(&self.request.wanted, block.contents, shown_status);
        BlockResult {
            status: highest(status, refusal.status),
            has_failed: has_failed_write(&shown.report),
        }
    }

    /// Writes the reasons that come after the messages.
    fn explained<D: Drain>(
        &self,
        contents: Contents<'_>,
        shown: &Viewed,
        drain: &mut D,
    ) -> Result<Result<(), WriteFault>, AllocError>
        requires { contents_fit contents }
        ensures reasons { WritesReasons (block_reads self.now.count) self.now.request.now.padding (octets_of_contents (block_contents contents.entry))
            (D.state drain.old) (D.state drain.new)
            (explained_in self.now.request.now.wanted (report_value_of shown.now.report) shown.now.broken.items)
            result }
        ensures octets { AreOctets (octets_of_contents (block_contents contents.entry)) }
    {
        let explained = explained_in(&self.request.wanted, shown);
        write_explained(
            self.alloc,
            block_reads(self.count),
            explained,
            self.request.padding,
            octets_of_contents(contents),
            drain,
        )
    }

    /// Writes the line before a block, if there are several, and shows it.
    fn titled<D: Drain>(&self, number: usize, block: &InputBlock<'_>, drain: &mut D) -> Viewed
        requires { contents_fit block.now.contents }
        ensures { ShowsTitled self.now.request.now self.now.names.now (place_value number self.now)
            (input_block block.now) (D.state drain.old) (D.state drain.new)
            (report_value_of result.report) result.broken.items }
    {
        match self.write_title(number, block, drain) {
            Ok(()) => self.contents(block.contents, drain),
            Err(_) => self.reported(device_report(DeviceFault::WriteFailed)),
        }
    }

    /// Writes the line before a block, if it has one.
    fn write_title<D: Drain>(
        &self,
        number: usize,
        block: &InputBlock<'_>,
        drain: &mut D,
    ) -> Result<(), WriteFault>
        ensures { Sends (D.state drain.old) (D.state drain.new)
            (title self.now.request.now.wanted (place_value number self.now) (input_block block.now)) result }
    {
        if !has_titles(&self.request.wanted) || self.count <= 1 {
            return Ok(());
        }
        let label = contents_name(block.contents);
        write_block_line(
            number,
            self.count,
            self.several_files,
            block.file,
            label.as_slice(),
            drain,
        )
    }

    /// Shows what a block holds.
    fn contents<D: Drain>(&self, contents: Contents<'_>, drain: &mut D) -> Viewed
        requires { contents_fit contents }
        ensures { ShowsContents (block_reads self.now.count) self.now.request.now self.now.names.now (D.state drain.old) (D.state drain.new)
            (block_contents contents.entry) (report_value_of result.report) result.broken.items }
    {
        match contents {
            Contents::Nothing(why) => self.reported(report_without_blocks(why)),
            Contents::Taken(taken) if has_octets(&taken.block) => show_octets(
                self.alloc,
                block_reads(self.count),
                self.request,
                self.names,
                taken.block.octets.as_slice(),
                drain,
            ),
            Contents::Taken(_) => self.reported(Report::without_message(0)),
        }
    }

    /// The result if nothing is shown and this is reported.
    fn reported(&self, report: Report) -> Viewed
        ensures report { report_value_of result.report ≡ report_value_of report }
        ensures none { result.broken.items ≡ [] }
    {
        Viewed {
            report,
            broken: Vec::new(self.alloc),
        }
    }
}

/// What comes before messages that concern a block.
fn name_of<'a>(number: usize, block: &InputBlock<'a>) -> BlockName<'a>
    ensures { (p : BlockPlace) → p.number ≡ number
        → name_value result ≡ message_place p (input_block block.now) }
{
    BlockName {
        file: block.file,
        number: if block.is_one_of_several {
            Some(number)
        } else {
            None
        },
    }
}

/// Writes what is said about a block before it is shown.
fn write_contents_note<D: Drain>(
    name: BlockName<'_>,
    contents: Contents<'_>,
    drain: &mut D,
) -> Result<(), WriteFault>
    ensures { Sends (D.state drain.old) (D.state drain.new)
        (contents_note (name_value name.entry) (block_contents contents.entry)) result }
{
    match contents {
        Contents::Nothing(_) => Ok(()),
        Contents::Taken(taken) => write_note(name, taken, drain),
    }
}

/// The name of a block in the line before it; empty if it has no label.
fn contents_name(contents: Contents<'_>) -> ArrayVec<u8, 64>
    ensures { result.items ≡ contents_name (block_contents contents.entry) }
{
    match contents {
        Contents::Nothing(_) => ArrayVec::new(),
        Contents::Taken(taken) => block_label(taken),
    }
}

/// Whether a block has octets that are shown.
fn has_octets(block: &Block) -> bool
    ensures { result ≡ has_octets (block_value block.now) }
{
    !is_undecoded(block.state) || !block.octets.is_empty()
}

/// Whether a text is not decoded, or not decoded to its end.
fn is_undecoded(state: BlockState) -> bool
    ensures { result ≡ is_undecoded state }
{
    !matches!(
        state,
        BlockState::Whole
            | BlockState::BeginsAt(_)
            | BlockState::MayBePairs
            | BlockState::Unended
            | BlockState::Ended(_)
    )
}

/// The status of a block, from the status of what is shown of it.
fn contents_status(wanted: &Wanted, contents: Contents<'_>, status: u8) -> u8
    ensures { result ≡ contents_status wanted.now (block_contents contents.entry) status }
{
    match contents {
        Contents::Taken(taken) if is_undecoded(taken.block.state) && status == 0 => {
            refused_status(wanted)
        }
        _ => status,
    }
}

/// The status if a text is not decoded to its end, and nothing else is wrong.
fn refused_status(wanted: &Wanted) -> u8
    ensures { result ≡ refused_status wanted.now }
{
    match wanted {
        Wanted::Raw => 2,
        _ => 4,
    }
}

/// The status, or 1 if that is higher and there are broken strings.
fn status_with(status: u8, broken: &[BrokenString]) -> u8
    ensures { result ≡ status_with status broken.now }
{
    if broken.is_empty() {
        status
    } else {
        status.max(1)
    }
}

/// The message of a report: none if a write failed because nothing reads standard output any more.
fn said_message(reader_gone: bool, report: &Report) -> &[u8]
    ensures { result.now ≡ said_message reader_gone (report_value_of report.now) }
{
    if reader_gone && has_failed_write(report) {
        &[]
    } else {
        report.message.as_slice()
    }
}

/// Whether the report says that a write failed.
pub(crate) fn has_failed_write(report: &Report) -> bool
    ensures { result ≡ has_failed_write (report_value_of report.now) }
{
    let failed = device_report(DeviceFault::WriteFailed);
    report.message.as_slice() == failed.message.as_slice()
}
