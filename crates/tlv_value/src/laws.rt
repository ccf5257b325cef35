//! Laws of the definitions: each is the contract of a function that does nothing.

ghost use Rattle.tlv_value.specs.CheckLaws.{ChecksJoin, FindingsEnd, ListedFindingsStay, RowsAreUtf8};
ghost use Rattle.tlv_value.specs.Laws.{LinesBegin, LinesEnd, LinesGoOn, PiecesJoin, RowsAreACut, RowsHaveOneCut};

/// The lines do not depend on how the contents are cut into pieces.
pub fn pieces_join()
    ensures { PiecesJoin }
{}

/// `begin` puts the lines of a primitive before its first contents octet. The state of a
/// [`ValueText`](crate::ValueText) is then the state before any contents octet.
pub fn lines_begin()
    ensures { LinesBegin }
{}

/// `bytes` puts what its octets add to the lines of a primitive that is still incomplete.
pub fn lines_go_on()
    ensures { LinesGoOn }
{}

/// `end` puts the rest of the lines of the whole primitive.
pub fn lines_end()
    ensures { LinesEnd }
{}

/// The findings do not depend on how the contents are cut into pieces.
pub fn checks_join()
    ensures { ChecksJoin }
{}

/// At the end of the contents [`ValueCheck::end_with_all`](crate::ValueCheck::end_with_all) returns all findings on
/// them, and no others.
pub fn findings_end()
    ensures { FindingsEnd }
{}

/// The listed findings on contents, which [`ValueCheck::end`](crate::ValueCheck::end) returns, are all findings on
/// them, in the same order, without those that are not listed.
pub fn listed_findings_stay()
    ensures { ListedFindingsStay }
{}

/// Contents are well-formed UTF-8 if and only if each of their rows is.
pub fn rows_are_utf8()
    ensures { RowsAreUtf8 }
{}

/// The rows of contents are a cut of them: no row has more octets than a row has room for, no row splits a character,
/// and each row but the last has no room for the character that begins with the next octet.
pub fn rows_are_a_cut()
    ensures { RowsAreACut }
{}

/// The rows of contents are the only cut of them that has the properties that [`rows_are_a_cut`] lists.
pub fn rows_have_one_cut()
    ensures { RowsHaveOneCut }
{}
