//! The commands.
ghost use Rattle.std.specs.Prelude.{◌≡◌};
ghost use Rattle.tlv_run.specs.BorrowedText.{text_in};
ghost use Rattle.tlv_run.specs.CommandFiles.{file_of, names_file_of};

use crate::text::Text;
use tlv_show::{Options, Rules};
use tlv_walk::Framing;

/// A command of the program, with its options.
#[derive(Debug, Drop)]
pub enum Command<'a> {
    /// Writes each element on its own line.
    Dump {
        /// How the input is to be read, and its dump to be written.
        options: Options<'a>,
        /// The names file, for object identifiers.
        names: Option<Text>,
        /// The file to read; standard input if there is none.
        file: Option<Text>,
    },
    /// Lists what violates the rules.
    Check {
        /// The rules that decide which findings are reported.
        rules: Rules,
        /// How the input is to be read.
        framing: Framing<'a>,
        /// The file to read; standard input if there is none.
        file: Option<Text>,
    },
    /// Writes the octets of one element, or only its contents.
    Extract {
        /// The offset of the element's first identifier octet, in octets from the start of the input.
        offset: u64,
        /// Whether only the contents are written.
        contents: bool,
        /// How the input is to be read.
        framing: Framing<'a>,
        /// The file to read; standard input if there is none.
        file: Option<Text>,
    },
    /// Writes the input with the indefinite form of the length in each constructed element.
    Indef {
        /// Whether octets `00` are allowed before, between and after the encodings.
        padding: bool,
        /// The file to read; standard input if there is none.
        file: Option<Text>,
    },
}

impl Command<'_> {
    /// The name of the file to read, if any.
    pub fn file(&self) -> Option<&str>
        ensures { text_in result ≡ file_of self.now }
    {
        match self {
            Command::Dump { file, .. } => name_in(file),
            Command::Check { file, .. } => name_in(file),
            Command::Extract { file, .. } => name_in(file),
            Command::Indef { file, .. } => name_in(file),
        }
    }

    /// The name of the names file, if any.
    pub fn names_file(&self) -> Option<&str>
        ensures { text_in result ≡ names_file_of self.now }
    {
        match self {
            Command::Dump { names, .. } => name_in(names),
            Command::Check { .. } => None,
            Command::Extract { .. } => None,
            Command::Indef { .. } => None,
        }
    }
}

fn name_in(text: &Option<Text>) -> Option<&str>
    ensures { text_in result ≡ text.now }
{
    match text {
        Some(name) => Some(name.as_str()),
        None => None,
    }
}
