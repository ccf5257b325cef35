//! The system of a program, and its files.
ghost use Rattle.tlv_program.specs.System.{unknown_system};

use crate::printable::Printable;
use crate::system::{OpenFault, System};
use std::fs;
use std::io::{Eprint, ErrorKind, Print};
use std::rt::Files;
use tlv_walk::ReadSource;

/// The system on which a program runs. What it does is not known before it does it.
#[derive(Drop)]
pub struct Host<'a, R: Files + Print + Eprint> {
    /// The runtime that opens files and prints.
    pub rt: &'a R,
}

impl<R: Files + Print + Eprint> System for Host<'_, R> {
    type File = ReadSource<R::File>;

    ghost allows = { unknown_system };

    fn open(&mut self, name: &str) -> Result<ReadSource<R::File>, OpenFault> {
        match fs::open(self.rt, name) {
            Ok(file) => Ok(ReadSource::new(file)),
            Err(error) => Err(open_fault(error.kind())),
        }
    }

    fn close(&mut self, file: ReadSource<R::File>) {
        drop(file);
    }

    fn print(&mut self, error: &clap::Error) -> bool {
        let text = Printable { text: error };
        if error.use_stderr() {
            self.rt.eprint(text).is_ok()
        } else {
            self.rt.print(text).is_ok()
        }
    }
}

/// Why a file does not open.
fn open_fault(kind: ErrorKind) -> OpenFault {
    match kind {
        ErrorKind::NotFound | ErrorKind::NotADirectory => OpenFault::Missing,
        ErrorKind::PermissionDenied => OpenFault::Denied,
        _ => OpenFault::Other,
    }
}
