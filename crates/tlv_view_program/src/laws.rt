//! Laws of what is said about inputs: each is the contract of a function that does nothing.
ghost use Rattle.tlv_view_program.specs.ShownLines.{DumpsAreShown, FindingsLinesAreShown, OutputsAreShown};
ghost use Rattle.tlv_view_program.specs.ShownLines.{MessagesAreShown, NamesAreShown, NotesAreShown, ReasonsAreShown};
ghost use Rattle.tlv_view_program.specs.ShownLines.{RunsAreShown, TitlesAreShown};

use tlv_program::System;

/// The note on what an input is taken for is printable ASCII and a line feed, whatever the input has, and whatever the
/// labels, the first words and the names of files are.
pub fn notes_are_shown()
    ensures { NotesAreShown }
{}

/// The line before a block is printable ASCII and a line feed, whatever the labels and the names of files are.
pub fn titles_are_shown()
    ensures { TitlesAreShown }
{}

/// The lines that report on a block, and on the broken strings in it, are printable ASCII and line feeds.
pub fn messages_are_shown()
    ensures { MessagesAreShown }
{}

/// The line of the findings in octets that parse is printable ASCII and a line feed.
pub fn findings_lines_are_shown()
    ensures { FindingsLinesAreShown }
{}

/// All that is written about octets with `--why` is printable ASCII and line feeds.
pub fn reasons_are_shown()
    ensures { ReasonsAreShown }
{}

/// The names in a names file are printable ASCII.
pub fn names_are_shown()
    ensures { NamesAreShown }
{}

/// All that a dump writes about octets is printable ASCII and line feeds, if the names of object identifiers are.
pub fn dumps_are_shown()
    ensures { DumpsAreShown }
{}

/// All that a run writes to standard output is printable ASCII and line feeds, whatever the names and the inputs are,
/// unless octets are wanted as they are (`--raw`, `--offset`).
pub fn outputs_are_shown<S: System>(_system: &S)
    ensures { OutputsAreShown S.allows }
{}

/// All that a run of the program writes to standard error is printable ASCII and line feeds, whatever its words, the
/// names and the inputs are. This does not include what `clap` has to say about words: the system prints that.
pub fn runs_are_shown<S: System>(_system: &S)
    ensures { RunsAreShown S.allows }
{}
