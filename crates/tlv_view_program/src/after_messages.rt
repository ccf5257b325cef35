//! What comes after the messages of a block: the reasons of its fault.
ghost use Rattle.std.specs.Prelude.{◌≡◌, ◌≤◌, length};
ghost use Rattle.tlv_head.specs.Limits.{input_limit};
ghost use Rattle.tlv_run.specs.Report.{report_value_of};
ghost use Rattle.tlv_view_program.specs.Private.BlockParts.{block_contents, contents_fit};
ghost use Rattle.tlv_view_program.specs.ShowsBlock.{explained_in, octets_of_contents, reasons_report};

use crate::block::has_failed_write;
use crate::input::{InputFault, input_report};
use crate::input_blocks::Contents;
use crate::reasons::{Explained, explained_by};
use crate::request::Wanted;
use crate::view_call::Viewed;
use std::alloc::AllocError;
use tlv_run::Report;
use tlv_walk::WriteFault;

/// What to explain after the messages: nothing if the octets are written as they are, or if reasons are what is shown.
pub(crate) fn explained_in(wanted: &Wanted, shown: &Viewed) -> Explained
    ensures { result ≡ explained_in wanted.now (report_value_of shown.now.report) shown.now.broken.items }
{
    match wanted {
        Wanted::Raw | Wanted::Why { .. } => Explained::Nothing,
        _ => explained_by(
            has_failed_write(&shown.report),
            shown.report.status,
            shown.broken.as_slice(),
        ),
    }
}

/// The octets of a block.
pub(crate) fn octets_of_contents(contents: Contents<'_>) -> &[u8]
    requires { contents_fit contents }
    ensures octets { result.now ≡ octets_of_contents (block_contents contents.entry) }
    ensures short { length result.now ≤ input_limit }
{
    match contents {
        Contents::Nothing(_) => &[],
        Contents::Taken(taken) => taken.block.octets.as_slice(),
    }
}

/// The report on the reasons: that memory for them is refused, if it is.
pub(crate) fn reasons_report(outcome: Result<Result<(), WriteFault>, AllocError>) -> Report
    ensures { report_value_of result ≡ reasons_report outcome }
{
    match outcome {
        Ok(_) => Report::without_message(0),
        Err(_) => input_report(InputFault::Memory),
    }
}
