//! What is shown of octets.
ghost use Rattle.std.specs.Prelude.{◌≡◌, ◌≤◌, [], Some, length, ℕ};
ghost use Rattle.tlv_head.specs.Limits.{input_limit};
ghost use Rattle.tlv_run.specs.Report.{report_value_of};
ghost use Rattle.tlv_value.specs.Names.{NamesValue};
ghost use Rattle.tlv_open.specs.Opens.{closed_framing};
ghost use Rattle.tlv_view_program.specs.ReadWhole.{input_report};
ghost use Rattle.tlv_walk.specs.Ending.{IsEnding};
ghost use Rattle.tlv_view_program.specs.ShowsBlock.{ShowsOctets, offsets_report, raw_report, view_of};
ghost use Rattle.tlv_view_program.specs.declared.request.Wanted.TheVariants.{Offsets, Raw};
ghost use Rattle.tlv_io.specs.Out.{Sends};

use crate::explain::explain;
use crate::input::{InputFault, input_report};
use crate::offsets::write_offsets;
use crate::request::{Request, Wanted};
use crate::view_call::{View, Viewed, view_octets};
use crate::wanted::{reports_broken, stays_closed};
use std::alloc::Global;
use tlv_open::{ending_of, opened};
use tlv_run::{Report, device_report, indef_report};
use tlv_show::FiniteNames;
use tlv_walk::{DeviceFault, Drain, Ending, Out, WriteFault};

/// Writes what is wanted of the octets. Tries for a next record may read `reads` octets in vain. Returns the report on them, and the strings in them that are reported as
/// broken.
pub(crate) fn show_octets<N: FiniteNames, D: Drain>(
    alloc: Global,
    reads: u64,
    request: &Request,
    names: &N,
    octets: &[u8],
    drain: &mut D,
) -> Viewed
    requires { length octets.now ≤ input_limit }
    ensures { ShowsOctets reads request.now (N.table names.now) octets.now (D.state drain.old) (D.state drain.new)
        (report_value_of result.report) result.broken.items }
{
    match &request.wanted {
        Wanted::Dump {
            rules,
            limit,
            pure,
            text,
            ..
        } => {
            let view = View::Dump {
                rules: *rules,
                limit: *limit,
                pure: *pure,
                text: *text,
            };
            show_view(alloc, request, &view, names, octets, drain)
        }
        Wanted::Check { rules, .. } => {
            let view = View::Check { rules: *rules };
            show_view(alloc, request, &view, names, octets, drain)
        }
        Wanted::Extract { offset, contents } => {
            let view = View::Extract {
                offset: *offset,
                contents: *contents,
            };
            show_view(alloc, request, &view, names, octets, drain)
        }
        Wanted::Offsets => list_offsets(alloc, request, octets, drain),
        Wanted::Raw => write_raw(alloc, request, octets, drain),
        Wanted::Why { closed } => {
            explain(alloc, reads, *closed, request.padding, names, octets, drain)
        }
    }
}

/// The result if memory is refused.
pub(crate) fn no_memory(alloc: Global) -> Viewed
    ensures report { report_value_of result.report ≡ input_report InputFault.Memory }
    ensures none { result.broken.items ≡ [] }
{
    Viewed {
        report: input_report(InputFault::Memory),
        broken: Vec::new(alloc),
    }
}

/// Writes the octets themselves.
fn write_raw<D: Drain>(alloc: Global, request: &Request, octets: &[u8], drain: &mut D) -> Viewed
    requires { request.now.wanted ≡ Raw }
    ensures { (reads : ℕ) (table : NamesValue) → ShowsOctets reads request.now table octets.now
        (D.state drain.old) (D.state drain.new) (report_value_of result.report) result.broken.items }
{
    let written = write_octets(octets, drain);
    Viewed {
        report: raw_report(written),
        broken: Vec::new(alloc),
    }
}

/// Writes octets.
#[tactic(auto, using(tlv_io::proofs::Sends::sends))]
pub(crate) fn write_octets<D: Drain>(octets: &[u8], drain: &mut D) -> Result<(), WriteFault>
    ensures { Sends (D.state drain.old) (D.state drain.new) octets.now result }
{
    let mut out = Out::new(drain);
    out.put(octets)?;
    out.flush()?;
    Ok(())
}

/// The report on octets that are written as they are.
fn raw_report(written: Result<(), WriteFault>) -> Report
    ensures { report_value_of result ≡ raw_report written }
{
    match written {
        Ok(()) => Report::without_message(0),
        Err(_) => device_report(DeviceFault::WriteFailed),
    }
}

/// Writes a view of the octets.
fn show_view<N: FiniteNames, D: Drain>(
    alloc: Global,
    request: &Request,
    view: &View,
    names: &N,
    octets: &[u8],
    drain: &mut D,
) -> Viewed
    requires short { length octets.now ≤ input_limit }
    requires wanted { view_of request.now.wanted ≡ Some view.now }
    ensures { (reads : ℕ) → ShowsOctets reads request.now (N.table names.now) octets.now
        (D.state drain.old) (D.state drain.new) (report_value_of result.report) result.broken.items }
{
    let closed = stays_closed(&request.wanted);
    match view_octets(alloc, view, names, closed, request.padding, octets, drain) {
        Ok(viewed) => {
            if reports_broken(&request.wanted) {
                viewed
            } else {
                Viewed {
                    report: viewed.report,
                    broken: Vec::new(alloc),
                }
            }
        }
        Err(_) => no_memory(alloc),
    }
}

/// Writes the offsets of the strings that are opened.
fn list_offsets<D: Drain>(alloc: Global, request: &Request, octets: &[u8], drain: &mut D) -> Viewed
    requires short { length octets.now ≤ input_limit }
    requires wanted { request.now.wanted ≡ Offsets }
    ensures { (reads : ℕ) (table : NamesValue) → ShowsOctets reads request.now table octets.now
        (D.state drain.old) (D.state drain.new) (report_value_of result.report) result.broken.items }
{
    let Ok(offsets) = opened(alloc, octets, request.padding) else {
        return no_memory(alloc);
    };
    let written = write_offsets(offsets.as_slice(), drain);
    Viewed {
        report: offsets_report(written, octets, request.padding),
        broken: Vec::new(alloc),
    }
}

/// The report on a list of offsets: that it could not be written, or else the fault of the input.
fn offsets_report(written: Result<(), WriteFault>, octets: &[u8], padding: bool) -> Report
    requires { length octets.now ≤ input_limit }
    ensures { (ending : Ending) × IsEnding (closed_framing padding) octets.now ending
        × (report_value_of result ≡ offsets_report ending written) }
{
    let ending = ending_of(octets, padding);
    match written {
        Ok(()) => indef_report(ending),
        Err(_) => device_report(DeviceFault::WriteFailed),
    }
}
