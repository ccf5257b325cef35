//! What the program asks of the system on which it runs.
ghost use Rattle.std.specs.Prelude.{IfOk};
ghost use Rattle.std.specs.Result.{result_map_both};
ghost use Rattle.tlv_program.specs.System.{Allows, IsUnread};

use tlv_walk::Source;

/// Why a file does not open.
#[derive(Clone, Copy, Debug, PartialEq, Eq)]
pub enum OpenFault {
    /// There is no file of this name.
    Missing,
    /// The file may not be read.
    Denied,
    /// Another cause.
    Other,
}

/// What the program asks of the system on which it runs: to open and close files, and to print what `clap` has to say.
pub trait System {
    /// A file that is open for reading.
    type File: Source + Drop;

    /// What the system may do.
    ghost allows: { Allows Self };

    /// Opens the file of this name for reading. Reads nothing of it yet.
    ///
    /// # Errors
    ///
    /// `OpenFault` if it does not open.
    fn open(&mut self, name: &str) -> Result<Self::File, OpenFault>
        ensures opens { allows.opens self.old self.new name.now
            (result_map_both Self.File.state (λ why. why) result) }
        ensures unread { IfOk result (λ file. IsUnread (Self.File.state file)) };

    /// Takes back a file that it opened and that is not read any more.
    fn close(&mut self, file: Self::File)
        ensures { allows.closes self.old self.new (Self.File.state file) };

    /// Prints what `clap` has to say: to standard output about words that ask for help or for the version, and to
    /// standard error about words that it refuses. Returns whether all of it is printed.
    fn print(&mut self, error: &clap::Error) -> bool
        ensures { allows.prints self.old self.new error.now result };
}
