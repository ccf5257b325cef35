//! The program: what it does, and in which order.
ghost use Rattle.std.specs.Prelude.{◌≡◌, if◌then◌else◌, []};
ghost use Rattle.tlv_run.specs.Report.{report_value_of, report_with};
ghost use Rattle.tlv_view_program.specs.Lines.{no_names_note};
ghost use Rattle.tlv_view_program.specs.ShowsAll.{PrintsRefusal, RunsShow, ShowsRequest, asks_for_help, note_of_input};
ghost use Rattle.tlv_view_program.specs.ShowsAll.{refused_report};
ghost use Rattle.tlv_view_program.specs.Streams.{streams_value};

use crate::file_names::FileNames;
use crate::files::show_files;
use crate::names::table_for;
use crate::refusal::{RequestFault, request_report};
use crate::request::Request;
use crate::request_of_call::request_of;
use crate::streams::{Output, Streams};
use std::alloc::Global;
use tlv_program::{NoWords, System, Words, not_utf8_report, unprinted_report};
use tlv_run::{Report, names_report, write_message};
use tlv_walk::{Drain, Source};

/// Runs the program on the words of its command line. The first word is the program's name. Reads the names of
/// object identifiers from the file that the words name, or else from the first of these places that opens. Returns the
/// status.
///
/// Reads the words, then the names, then each file, or standard input if there is none, and shows their blocks in
/// order. Writes messages to standard error. If the words or the names are refused, says so and does nothing after it.
/// If a write to standard output fails and standard output says that nothing reads it any more, there is no message.
/// `typed` says whether standard input is a terminal: if it is, and no file is named, a note says that it is read.
pub fn run_show<S: System, I: Source, O: Output, M: Drain>(
    alloc: Global,
    words: &Result<Words, NoWords>,
    places: &FileNames,
    typed: bool,
    streams: &mut Streams<S, I, O, M>,
) -> u8
    ensures { RunsShow S.allows places.now typed
        (streams_value I.state O.state O.reader_gone M.state streams.old)
        (streams_value I.state O.state O.reader_gone M.state streams.new)
        words.now result }
{
    let words = match words {
        Ok(words) => words,
        Err(NoWords::NotUtf8) => return write_message(&not_utf8_report(), &mut streams.messages),
        Err(NoWords::Memory) => {
            return write_message(
                &request_report(&RequestFault::Memory),
                &mut streams.messages,
            );
        }
    };
    match request_of(alloc, words) {
        Ok(request) => show_request(alloc, &request, places, typed, streams),
        Err(fault) => {
            let printed = print_refusal(&fault, &mut streams.system);
            write_message(&refused_report(&fault, printed), &mut streams.messages)
        }
    }
}

/// Prints what `clap` has to say, if the fault comes from `clap`. Returns whether nothing is left to print.
fn print_refusal<S: System>(fault: &RequestFault, system: &mut S) -> bool
    ensures { PrintsRefusal S.allows system.old system.new fault.now result }
{
    match fault {
        RequestFault::Parser(error) => system.print(error),
        RequestFault::Refused(_) => true,
        RequestFault::Memory => true,
    }
}

/// The report if the words ask for nothing, depending on whether what `clap` has to say is printed.
fn refused_report(fault: &RequestFault, printed: bool) -> Report
    ensures { report_value_of result ≡ refused_report fault.now printed }
{
    if printed || !asks_for_help(fault) {
        request_report(fault)
    } else {
        unprinted_report()
    }
}

/// Whether the words ask for help or for the version.
fn asks_for_help(fault: &RequestFault) -> bool
    ensures { result ≡ asks_for_help fault.now }
{
    match fault {
        RequestFault::Parser(error) => !error.use_stderr(),
        RequestFault::Refused(_) => false,
        RequestFault::Memory => false,
    }
}

/// Gets the names, and shows the files.
fn show_request<S: System, I: Source, O: Output, M: Drain>(
    alloc: Global,
    request: &Request,
    places: &FileNames,
    typed: bool,
    streams: &mut Streams<S, I, O, M>,
) -> u8
    ensures { ShowsRequest S.allows places.now typed request.now
        (streams_value I.state O.state O.reader_gone M.state streams.old)
        (streams_value I.state O.state O.reader_gone M.state streams.new)
        result }
{
    match table_for(alloc, &request.wanted, places, &mut streams.system) {
        Ok(table) => {
            let _ = write_message(&names_note(table.is_missing), &mut streams.messages);
            let _ = write_message(&note_of_input(typed, &request.files), &mut streams.messages);
            show_files(alloc, request, &table.names, streams)
        }
        Err(fault) => write_message(&names_report(fault), &mut streams.messages),
    }
}

/// The note that no names file was found, or nothing.
fn names_note(is_missing: bool) -> Report
    ensures { report_value_of result ≡ report_with 0 (if is_missing then no_names_note else []) }
{
    if is_missing {
        Report::with_message(
            0,
            b"no names file was found: object identifiers have no names",
        )
    } else {
        Report::without_message(0)
    }
}

/// The note that standard input is read, or nothing.
fn note_of_input(typed: bool, files: &FileNames) -> Report
    ensures { report_value_of result ≡ report_with 0 (note_of_input typed files.now) }
{
    if typed && files.as_slice().is_empty() {
        Report::with_message(0, b"standard input is read, up to Ctrl-D")
    } else {
        Report::without_message(0)
    }
}
