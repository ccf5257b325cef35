//! Laws of the definitions: each is the contract of a function that does nothing.
ghost use Rattle.tlv_reasons.specs.Laws.{InputsHaveOneChain, InputsHaveOneNextRecord};
ghost use Rattle.tlv_reasons.specs.Laws.{InputsHaveOneOctetChange, InputsHaveOneWrongLength};
ghost use Rattle.tlv_reasons.specs.Laws.{OtherLengthsMakeHeaders, SentencesAreShown};

/// A framing, bounds, an input, its open elements and candidates determine the other lengths that are named.
pub fn inputs_have_one_wrong_length()
    ensures { InputsHaveOneWrongLength }
{}

/// With the first of these they also determine the octet that is missing or was put in, or that there is none.
pub fn inputs_have_one_octet_change()
    ensures { InputsHaveOneOctetChange }
{}

/// An input with its facts, and candidates, determine the chain of lengths, or that there is none.
pub fn inputs_have_one_chain()
    ensures { InputsHaveOneChain }
{}

/// An input, with what was found before, determines the next record, or that there is none.
pub fn inputs_have_one_next_record()
    ensures { InputsHaveOneNextRecord }
{}

/// A header with another length that its length octets can state is a header of the same number of octets.
pub fn other_lengths_make_headers()
    ensures { OtherLengthsMakeHeaders }
{}

/// Whatever sentences about octets are written ([`write_sentences`](crate::write_sentences)), they are printable ASCII and
/// line feeds.
pub fn sentences_are_shown()
    ensures { SentencesAreShown }
{}
