//! Laws of what `extract` and `indef` write, and of the results of all commands: each is the contract of a function that
//! does nothing.

ghost use Rattle.tlv_run.specs.CutLaws.{
  EnoughComesAtEnds,
  ExtractMakesItsText,
  ExtractTextGoesOn,
  ExtractTextIsInTheInput,
  FoundElementsStay,
  WholeElementsStay,
};
ghost use Rattle.tlv_run.specs.CutLaws.{
  IndefMakesItsText,
  IndefTextGoesOn,
  IndefTextIsDone,
  IndefTextIsReadBack,
  IndefTextObeysGrammar,
};
ghost use Rattle.tlv_run.specs.Laws.{InputsHaveOneResult, OutputsGoOn, RunsAreResults, SecondIndefIsTheFirst};
ghost use Rattle.tlv_run.specs.Laws.{SettledResultsStay, StatusesShowSoundness};

/// What `extract` writes for an element are octets of the input, unchanged and from the element's offset on: its
/// header, its contents and, if it is whole and its length is indefinite, its end-of-contents octets.
pub fn extract_text_is_in_the_input()
    ensures { ExtractTextIsInTheInput }
{}

/// What `extract` writes for a longer input begins with what it writes for the shorter input.
pub fn extract_text_goes_on()
    ensures { ExtractTextGoesOn }
{}

/// An element whose header is complete is found in every longer input.
pub fn found_elements_stay()
    ensures { FoundElementsStay }
{}

/// Nothing after a whole element matters: `extract` writes the same for every longer input.
pub fn whole_elements_stay()
    ensures { WholeElementsStay }
{}

/// An `Extract` that follows the events of a reading writes what `extract` is to write. It has enough if and only if
/// the element is whole.
pub fn extract_makes_its_text()
    ensures { ExtractMakesItsText }
{}

/// An `Extract` has enough only at the end of an element, whatever it followed before.
pub fn enough_comes_at_ends()
    ensures { EnoughComesAtEnds }
{}

/// An `Indef` that follows the events of elements, none of which is a string that holds encodings, writes what `indef` is
/// to write: the same elements with indefinite lengths.
pub fn indef_makes_its_text()
    ensures { IndefMakesItsText }
{}

/// What `indef` writes for a longer input begins with what it writes for the shorter input.
pub fn indef_text_goes_on()
    ensures { IndefTextGoesOn }
{}

/// What `indef` writes are the octets of the same elements with indefinite lengths, and these elements obey the
/// grammar.
pub fn indef_text_obeys_grammar()
    ensures { IndefTextObeysGrammar }
{}

/// What `indef` writes is read as the same elements with indefinite lengths, and for these elements `indef` writes
/// the same octets again.
pub fn indef_text_is_read_back()
    ensures { IndefTextIsReadBack }
{}

/// If an input ends without a fault, what `indef` writes for it also ends without a fault.
pub fn indef_text_is_done()
    ensures { IndefTextIsDone }
{}

/// Each input has exactly one result under each command.
pub fn inputs_have_one_result()
    ensures { InputsHaveOneResult }
{}

/// If a source knows its octets, at most 2^40, and neither device fails, a run writes and reports the result of these
/// octets, in whatever pieces the source gives them. This follows from the contract of `run` alone.
pub fn runs_are_results()
    ensures { RunsAreResults }
{}

/// Nothing matters that follows a fault other than F01 and F02, or the whole element of `extract`: however the input
/// continues, what is written and what is reported stay the same.
pub fn settled_results_stay()
    ensures { SettledResultsStay }
{}

/// What a command writes for a longer input, of at most 2^40 octets, begins with what it writes for the shorter
/// input.
pub fn outputs_go_on()
    ensures { OutputsGoOn }
{}

/// When `indef` reads its own output, it writes it unchanged. If the input ended without a fault, so does the output.
pub fn second_indef_is_the_first()
    ensures { SecondIndefIsTheFirst }
{}

/// The status is 2 if and only if the input is not a sound list of encodings, read as the command says. For `extract`
/// this holds if its element is not whole.
pub fn statuses_show_soundness()
    ensures { StatusesShowSoundness }
{}
