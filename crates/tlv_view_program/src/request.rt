//! What words ask for.
use crate::file_names::FileNames;
use tlv_run::Text;
use tlv_show::Rules;
use tlv_text::Form;

/// What the words of a command line ask for.
#[derive(Debug, Drop)]
pub struct Request {
    /// What is wanted of each file.
    pub wanted: Wanted,
    /// The form of each file.
    pub form: InputForm,
    /// Whether octets `00` may be before, between and after the encodings.
    pub padding: bool,
    /// The files to read, in their order: standard input if there is none. A name `-` is left as it is.
    pub files: FileNames,
}

/// The form of an input.
#[derive(Clone, Copy, Debug, PartialEq, Eq)]
pub enum InputForm {
    /// The form that its octets decide.
    Any,
    /// Octets as they stand.
    Octets,
    /// A text of this form.
    Text(Form),
}

/// What is wanted of a file.
#[derive(Debug, Drop)]
pub enum Wanted {
    /// Each element on a line of its own.
    Dump {
        /// The rules by which findings are shown.
        rules: Rules,
        /// The most rows of a value, or all.
        limit: Option<u32>,
        /// Whether the first columns and the lines of findings are left out.
        pure: bool,
        /// Whether printable octets are shown beside pairs of digits.
        text: bool,
        /// Whether all strings stay closed.
        closed: bool,
        /// The names file, for object identifiers.
        names: Option<Text>,
    },
    /// Only the findings.
    Check {
        /// The rules by which they are shown.
        rules: Rules,
        /// Whether all strings stay closed.
        closed: bool,
    },
    /// The octets of one element.
    Extract {
        /// Where its first octet is, in octets from the start.
        offset: u64,
        /// Whether only its contents are written.
        contents: bool,
    },
    /// The offsets of the strings that hold encodings.
    Offsets,
    /// The decoded octets.
    Raw,
    /// Why the input does not parse, in sentences.
    Why {
        /// Whether all strings stay closed.
        closed: bool,
    },
}
