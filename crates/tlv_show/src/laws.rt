//! Laws of a dump and of a check: each is the contract of a function that does nothing.

ghost use Rattle.tlv_show.specs.Laws.{BasicFindingsStay, ChecksGoOn, ChecksMakeTexts, DumpsGoOn};
ghost use Rattle.tlv_show.specs.Laws.{DumpsMakeTexts, ListedItemsStay, PrimitivesAreShown};
ghost use Rattle.tlv_show.specs.PlainJobs.{PlainJobsStay};
ghost use Rattle.tlv_show.specs.Spellings.{LongerIdentifiersAreFound, LongerLengthsAreFound, OneSpelling, SomeSpelling};
ghost use Rattle.tlv_show.specs.SetOrderState.{OutOfOrderIsFound};
ghost use Rattle.tlv_show.specs.SegmentCharactersState.{WrongCharactersAreFound};

/// For the events of the reading of an input of at most 2^40 octets, a `Dump` writes the text of that reading and
/// counts its findings. It always wants more.
pub fn dumps_make_texts()
    ensures { DumpsMakeTexts }
{}

/// For the events of the reading of an input of at most 2^40 octets, a `Check` writes the list of its findings and
/// counts them. It always wants more.
pub fn checks_make_texts()
    ensures { ChecksMakeTexts }
{}

/// The text written for a longer input, of at most 2^40 octets, begins with the text written for the shorter input.
pub fn dumps_go_on()
    ensures { DumpsGoOn }
{}

/// The list that a check writes for a longer input, of at most 2^40 octets, begins with its list for the shorter
/// input.
pub fn checks_go_on()
    ensures { ChecksGoOn }
{}

/// A primitive is shown with all of its contents octets, by the definition of a value's lines. The findings of its
/// header come before these lines, and the findings on its contents after them. Once it has ended, nothing of it is
/// kept.
pub fn primitives_are_shown()
    ensures { PrimitivesAreShown }
{}

/// What a check lists under BER is among what it lists under DER and under CER, in the same order.
pub fn basic_findings_stay()
    ensures { BasicFindingsStay }
{}

/// What is reported with the listed findings is what is reported in the scope of all findings, in the same order,
/// without those that are not listed. It is also what is reported in the scope of the listed findings.
pub fn listed_items_stay()
    ensures { ListedItemsStay }
{}

/// Without text beside pairs of digits, and with the listed findings alone, the jobs of [`dump_with`](crate::dump_with)
/// and [`check_with`](crate::check_with) are those of [`dump`](crate::dump) and [`check`](crate::check). Without the
/// text, the lines of each primitive are those of a plain dump. The listed findings on its contents are all findings on
/// them, without those that are not listed and those that the rules do not have.
pub fn plain_jobs_stay()
    ensures { PlainJobsStay }
{}

/// Encodings by DER, and by CER, have one spelling. Two sound inputs are the same octets if their elements agree, one
/// by one, in class, form, number and contents, with as much padding between them, and if a check under DER, or under
/// CER, finds none of B01, B02, S01, D01 and C01 in either (X.690 8.1.2.2, 8.1.2.4.2 c), 9.1 and 10.1).
pub fn one_spelling()
    ensures { OneSpelling }
{}

/// Each sound input has a spelling by DER, and one by CER: a sound input whose elements agree with its own, one by
/// one, in class, form, number and contents, with as much padding between them, and in which a check under DER, or
/// under CER, finds none of B01, B02, S01, D01 and C01. In the spelling, exactly the strings that hold encodings are
/// named, at the offsets that they have there. If a user may name the offsets of the input, a user may name these too.
/// This holds for inputs of at most 2^38 octets in which no primitive is the universal 0.
pub fn some_spelling()
    ensures { SomeSpelling }
{}

/// B01 or B02 is found with a header if and only if another header of that class, form, number and size has fewer
/// identifier octets. This excludes the universal primitive 0: its low form would be the `00` of end-of-contents
/// octets (8.1.5).
pub fn longer_identifiers_are_found()
    ensures { LongerIdentifiersAreFound }
{}

/// Under DER and under CER, S01 is found with a header if and only if another header of that class, form, number and
/// size has fewer length octets.
pub fn longer_lengths_are_found()
    ensures { LongerLengthsAreFound }
{}

/// Event by event, exactly those whole elements are found that are out of order in a SET.
pub fn out_of_order_is_found()
    ensures { OutOfOrderIsFound }
{}

/// Event by event, exactly those whole strings are found that have a segment with an octet that their type does not
/// allow.
pub fn wrong_characters_are_found()
    ensures { WrongCharactersAreFound }
{}
