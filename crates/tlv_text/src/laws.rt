//! Laws of the definitions: each is the contract of a function that does nothing.
ghost use Rattle.tlv_text.specs.Laws.{InputsAreTakenForOneThing};

/// An input is taken for one thing: it has one list of blocks.
pub fn inputs_are_taken_for_one_thing()
    ensures { InputsAreTakenForOneThing }
{}
