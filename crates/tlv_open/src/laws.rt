//! Laws of the definitions: each is the contract of a function that does nothing.
ghost use Rattle.tlv_open.specs.Laws.{InputsHaveOneBrokenList, InputsHaveOneList, OpeningIsSafe};

/// An input has exactly one list of opened strings.
pub fn inputs_have_one_list()
    ensures { InputsHaveOneList }
{}

/// An input has exactly one list of broken strings.
pub fn inputs_have_one_broken_list()
    ensures { InputsHaveOneBrokenList }
{}

/// The offsets of the opened strings rise. If these strings are named, then in the reading each of them holds
/// encodings, and no other string does; the reading has the same octets, and the input has the same ending.
pub fn opening_is_safe()
    ensures { OpeningIsSafe }
{}
