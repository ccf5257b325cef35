//! `tlvdump-show` shows BER, CER and DER encodings, and opens the strings that hold encodings.
#![tactic(auto)]

use std::env;
use std::io::{ErrorKind, IsTerminal};
use std::path::Path;
use std::process::ExitCode;
use tlv_program::{Host, NoWords, Words, is_beside_sources, words_of};
use tlv_view_program::{FileNames, Streams, run_show};
use tlv_walk::{ReadSource, WriteDrain};

/// Where the names file of an installation is, from the folder of the program, which is `bin`.
const INSTALLED: &str = "../share/tlvdump/names.txt";

/// Where the names file beside the sources is, from the folder of the program.
const BESIDE_SOURCES: &str = "../../../data/names.txt";

fn main(rt: HostRuntime) -> ExitCode {
    let (words, places) = words_and_places(&rt);
    let mut streams = Streams {
        system: Host { rt: &rt },
        input: ReadSource::new(rt.stdin()),
        output: WriteDrain::new(rt.stdout()),
        messages: WriteDrain::new(rt.stderr()),
    };
    let typed = rt.stdin().is_terminal();
    ExitCode::from(run_show(rt.alloc(), &words, &places, typed, &mut streams))
}

/// The arguments, and the places of the names file.
fn words_and_places(rt: &HostRuntime) -> (Result<Words, NoWords>, FileNames) {
    match places_of(rt) {
        Ok(places) => (words_of(rt), places),
        Err(_) => (Err(NoWords::Memory), FileNames::new(rt.alloc())),
    }
}

/// Where the names file is looked for. There are no such places if the program does not know where it is itself. Beside
/// the sources it is looked for only by the program that lies there: elsewhere others may write in that folder.
fn places_of(rt: &HostRuntime) -> Result<FileNames, NoWords> {
    let mut places = FileNames::new(rt.alloc());
    let program = match env::current_exe(rt) {
        Ok(program) => program,
        Err(error) if error.kind() == ErrorKind::OutOfMemory => return Err(NoWords::Memory),
        Err(_) => return Ok(places),
    };
    let Some(folder) = program.parent() else {
        return Ok(places);
    };
    add_place(rt, &folder, INSTALLED, &mut places)?;
    if is_beside_sources(program.as_str()) {
        add_place(rt, &folder, BESIDE_SOURCES, &mut places)?;
    }
    Ok(places)
}

/// Adds a place, which is given from the folder of the program.
///
/// # Errors
///
/// `Memory` if memory for it is refused.
fn add_place(
    rt: &HostRuntime,
    folder: &Path<'_>,
    place: &str,
    places: &mut FileNames,
) -> Result<(), NoWords> {
    let Ok(path) = folder.join(rt.alloc(), place) else {
        return Err(NoWords::Memory);
    };
    match places.push(rt.alloc(), path.as_str()) {
        Ok(()) => Ok(()),
        Err(_) => Err(NoWords::Memory),
    }
}
