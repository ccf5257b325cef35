//! Laws of the definitions: each is the contract of a function that does nothing.

ghost use Rattle.tlv_walk.specs.Laws.{DoneIsSound, EventsGoOn, FaultsAreFinal, FaultsAreRight};
ghost use Rattle.tlv_walk.specs.Laws.{JoinedIsApart, OctetsHaveOneEnding, OctetsHaveOneReading};
ghost use Rattle.tlv_walk.specs.Laws.{PiecesDoNotShow, PrefixesObeyGrammar, SoundIsWhole};
ghost use Rattle.tlv_walk.specs.Laws.{SpellingsAreExact};

use crate::Follow;

/// If elements obey the grammar, the elements that any prefix of their octets spells obey it too.
pub fn prefixes_obey_grammar()
    ensures { PrefixesObeyGrammar }
{}

/// Octets can be read in only one way: if two lists of elements begin at one place, obey the grammar and have the
/// same spelling, they are the same, including the offsets of their headers.
pub fn spellings_are_exact()
    ensures { SpellingsAreExact }
{}

/// Each input has exactly one reading.
pub fn octets_have_one_reading()
    ensures { OctetsHaveOneReading }
{}

/// Each input has exactly one ending.
pub fn octets_have_one_ending()
    ensures { OctetsHaveOneEnding }
{}

/// A fault other than F01 and F02 is final: whatever octets follow the input, its ending stays the same fault at the
/// same offset, and no further octet is read.
pub fn faults_are_final()
    ensures { FaultsAreFinal }
{}

/// No false alarm: whatever octets follow an input with a fault other than F01 and F02, the whole is not a sound list
/// of encodings.
pub fn faults_are_right()
    ensures { FaultsAreRight }
{}

/// The inputs that end without a fault are the sound lists of encodings.
pub fn done_is_sound()
    ensures { DoneIsSound }
{}

/// Events that were yielded stay true: the events of a longer input are the events of the shorter input followed by
/// others, however contents octets and padding are cut into pieces.
pub fn events_go_on()
    ensures { EventsGoOn }
{}

/// Events are equal joined if and only if they are equal with contents and padding cut into single octets.
pub fn joined_is_apart()
    ensures { JoinedIsApart }
{}

/// Elements are sound if and only if they obey the grammar and nothing is left open.
pub fn sound_is_whole()
    ensures { SoundIsWhole }
{}

/// How contents and padding are cut into pieces has no effect on a follower: events that are equal joined lead to the
/// same state and the same octets.
pub fn pieces_do_not_show<F: Follow>(_follower: &F)
    ensures { PiecesDoNotShow F.next }
{}
