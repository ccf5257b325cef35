//! The words of the sentences.
ghost use Rattle.std.specs.Prelude.{◌≡◌, ◌≤◌, length};
ghost use Rattle.tlv_reasons.specs.Sentences.{chain_words, file_kind_words, move_words, refused_header_words};
ghost use Rattle.tlv_reasons.specs.Sentences.{text_change_words, trace_words, words_of};

use crate::holders::element_end;
use crate::value::Value;
use crate::{Chain, FileKind, Move, OctetChange, Sentence, TextChange, Trace};
use arrayvec::ArrayVec;
use tlv_head::FaultCode;

/// The words of a sentence.
#[derive(Drop)]
pub(crate) struct Words {
    /// The words, with `%` for each value.
    pub(crate) text: &'static [u8],
    /// The values.
    pub(crate) values: ArrayVec<Value, 10>,
}

/// These words, with these values.
fn say(text: &'static [u8], values: &[Value]) -> Words
    requires { length values.now ≤ 10 }
    ensures text { result.text.now ≡ text.now }
    ensures values { result.values.items ≡ values.now }
{
    let mut kept = ArrayVec::new();
    let _ = kept.try_extend_from_slice(values);
    Words { text, values: kept }
}

/// The words of a sentence: a table.
pub(crate) fn words_of(sentence: &Sentence) -> Words
    ensures text { result.text.now ≡ (words_of sentence.now).0 }
    ensures values { result.values.items ≡ (words_of sentence.now).1 }
{
    match *sentence {
        Sentence::Parses(size) => say(
            b"It parses: %, which are whole encodings.\n",
            &[Value::Octets(size)],
        ),
        Sentence::ManyKinds(kinds) => say(
            b"It has % outermost elements, which begin with % different octets. Primitive: %. \
              Octets that are no encodings may parse so by chance.\n",
            &[
                Value::Number(kinds.elements),
                Value::Number(kinds.kinds),
                Value::Number(kinds.primitives),
            ],
        ),
        Sentence::DoesNotParse(fault) => say(
            b"It does not parse: fault at %: % %.\n",
            &[
                Value::Number(fault.offset),
                Value::Code(fault),
                Value::Message(fault),
            ],
        ),
        Sentence::Breaks(string) => say(b"The %.\n", &[Value::Broken(string)]),
        Sentence::LeftOver { end, left } => say(
            b"Whole encodings end at offset %. Left over: %.\n",
            &[Value::Number(end), Value::Octets(left)],
        ),
        Sentence::BlanksFollow { end, left } => say(
            b"Whole encodings end at offset %. The octets after them are line ends or spaces: %.\n",
            &[Value::Number(end), Value::Number(left)],
        ),
        Sentence::FillerFollows { end, left } => say(
            b"Whole encodings end at offset %. The octets after them are% alone, as filler is: %.\n",
            &[
                Value::Number(end),
                Value::Pairs(end, end.saturating_add(1)),
                Value::Number(left),
            ],
        ),
        Sentence::TextFollows { end, left } => say(
            b"Whole encodings end at offset %. The octets after them are printable text: %.\n",
            &[Value::Number(end), Value::Number(left)],
        ),
        Sentence::TryWhole(end) => say(
            b"Try: head -c % FILE, for the whole encodings.\n",
            &[Value::Number(end)],
        ),
        Sentence::NoOctets => say(b"The input is empty.\n", &[]),
        Sentence::ZerosAlone(size) => say(
            b"The input has octets 00 alone: %.\n",
            &[Value::Number(size)],
        ),
        Sentence::TryWriter => say(
            b"Try: look whether the program that should write it failed.\n",
            &[],
        ),
        Sentence::EndsInHeader { offset, end } => say(
            b"The input ends inside the header at offset %:%.\n",
            &[Value::Number(offset), Value::Pairs(offset, end)],
        ),
        Sentence::EndsInPrimitive(element) | Sentence::EndsInHolder(element) => say(
            b"The input ends inside the %. %\n",
            &[Value::Name(element), Value::Header(element)],
        ),
        Sentence::MissingThere(count) => say(b"Missing there: %.\n", &[Value::Octets(count)]),
        Sentence::EndsBetweenZeros(element) => say(
            b"The input ends between the two octets 00 that end the %.\n",
            &[Value::Name(element)],
        ),
        Sentence::EndsWithInput(element) => say(
            b"The % ends with the input, at offset %: its length leaves no room for what is missing.\n",
            &[Value::Name(element), Value::Number(element_end(&element))],
        ),
        Sentence::EndsBehindInput { element, end } => say(
            b"The outermost element of definite length that is not whole, the %, would end at offset %. \
              Missing up to there: %.\n",
            &[
                Value::Name(element),
                Value::Number(element_end(&element)),
                Value::Octets(element_end(&element).saturating_sub(end)),
            ],
        ),
        Sentence::NotEnded(count) => say(
            b"Elements with an indefinite length that are not ended: %; each needs two octets 00.\n",
            &[Value::Number(count)],
        ),
        Sentence::TryGreater => say(
            b"Try: look for a length that is too small, or fetch the input anew, in binary.\n",
            &[],
        ),
        Sentence::TryWholeCopy => say(
            b"Try: fetch the input anew, since the copy was cut; or, where it is whole, \
              look for a length that is too great.\n",
            &[],
        ),
        Sentence::BeginsWithZeros(zeros) => say(
            b"The input begins with octets 00: %. No element begins with such an octet.\n",
            &[Value::Number(zeros)],
        ),
        Sentence::ZerosFollow { end, zeros, left } => say(
            b"Whole encodings end at offset %. Octets 00 follow: %. Left over: %.\n",
            &[
                Value::Number(end),
                Value::Number(zeros),
                Value::Octets(left),
            ],
        ),
        Sentence::TryPadding => say(
            b"Try: --padding, which allows octets 00 between the encodings.\n",
            &[],
        ),
        Sentence::TryFront(offset) => say(
            b"Try: head -c % FILE, for what stands in front of them.\n",
            &[Value::Number(offset)],
        ),
        Sentence::ZeroInside { element, offset } => say(
            b"Inside the %, which ends at offset %, an element should begin at offset %. \
              There is an octet 00, with which none begins. %\n",
            &[
                Value::Name(element),
                Value::Number(element_end(&element)),
                Value::Number(offset),
                Value::Header(element),
            ],
        ),
        Sentence::LeftInside(left) => say(
            b"Left over: %. Its length, or one in front of that offset, is wrong.\n",
            &[Value::Octets(left)],
        ),
        Sentence::NoSecondZero { element, offset } => say(
            b"At offset % the octets 00 00 should end the %, but the second is%. %\n",
            &[
                Value::Number(offset.saturating_sub(1)),
                Value::Name(element),
                Value::Pairs(offset, offset.saturating_add(1)),
                Value::Header(element),
            ],
        ),
        Sentence::EndMissing {
            element,
            holder,
            unfinished,
        } => say(
            b"The % is not ended where the % ends, at offset %. Missing there: %. % %\n",
            &[
                Value::Name(element),
                Value::Name(holder),
                Value::Number(element_end(&holder)),
                Value::LackingZeros(unfinished),
                Value::Header(element),
                Value::Header(holder),
            ],
        ),
        Sentence::RefusedHeader {
            code,
            offset,
            refused,
        } => say(
            refused_header_words(code),
            &[
                Value::Number(offset),
                Value::Pairs(offset, refused.saturating_add(1)),
            ],
        ),
        Sentence::NoEncoding => say(
            b"No encoding begins so. Try: file FILE, which knows files of other kinds.\n",
            &[],
        ),
        Sentence::TryLook(offset) => say(
            b"Try: look at the element that ends at offset %, or begins there: its length may be wrong; \
              or fetch the input anew, in binary.\n",
            &[Value::Number(offset)],
        ),
        Sentence::TooDeep(offset) => say(
            b"At offset % element 129 would be open. The program holds 128.\n",
            &[Value::Number(offset)],
        ),
        Sentence::TryDeeper => say(
            b"Try: tail -c +M FILE, where M is 1 and the offset of an element some levels deep.\n",
            &[],
        ),
        Sentence::HeaderPast { offset, holder } => say(
            b"The header at offset % runs past the end of the %, which ends at offset %. %\n",
            &[
                Value::Number(offset),
                Value::Name(holder),
                Value::Number(element_end(&holder)),
                Value::Header(holder),
            ],
        ),
        Sentence::LeftInHolder { offset, holder } => say(
            b"Left over: %,%.\n",
            &[
                Value::Octets(element_end(&holder).saturating_sub(offset)),
                Value::Pairs(offset, element_end(&holder)),
            ],
        ),
        Sentence::CompletesHeader { offset, element } => say(
            b"The octet at offset % completes the header of the %. %\n",
            &[
                Value::Number(offset),
                Value::Name(element),
                Value::Header(element),
            ],
        ),
        Sentence::ElementPast { element, holder } => say(
            b"It would end at offset %, but the % ends at offset %. Missing there: %. %\n",
            &[
                Value::Number(element_end(&element)),
                Value::Name(holder),
                Value::Number(element_end(&holder)),
                Value::Octets(element_end(&element).saturating_sub(element_end(&holder))),
                Value::Header(holder),
            ],
        ),
        Sentence::OneOfTwo => say(
            b"One of the two lengths is wrong, or octets between them are missing or were put in.\n",
            &[],
        ),
        Sentence::TryAnew => say(
            b"Try: fetch the input anew, in binary; or go on at the next record, with tail -c +M FILE, \
              where M is its offset and 1.\n",
            &[],
        ),
        Sentence::LengthInFront(element) => say(
            b"Or a length in front is wrong: that of the %. %\n",
            &[Value::Name(element), Value::Header(element)],
        ),
        Sentence::OtherLength { first, end } => say(
            b"If the header at offset % said % and not %, % would parse.\n",
            &[
                Value::Number(first.offset as u64),
                Value::Octets(first.would),
                Value::Number(first.said),
                Value::All(end),
            ],
        ),
        Sentence::TwoLengths { first, second, end } => say(
            b"If the header at offset % said % and not %, or that at offset % said % and not %, % would parse.\n",
            &[
                Value::Number(first.offset as u64),
                Value::Octets(first.would),
                Value::Number(first.said),
                Value::Number(second.offset as u64),
                Value::Octets(second.would),
                Value::Number(second.said),
                Value::All(end),
            ],
        ),
        Sentence::ThreeLengths {
            first,
            second,
            third,
            end,
        } => say(
            b"If the header at offset % said % and not %, or that at offset % said % and not %, \
              or that at offset % said % and not %, % would parse.\n",
            &[
                Value::Number(first.offset as u64),
                Value::Octets(first.would),
                Value::Number(first.said),
                Value::Number(second.offset as u64),
                Value::Octets(second.would),
                Value::Number(second.said),
                Value::Number(third.offset as u64),
                Value::Octets(third.would),
                Value::Number(third.said),
                Value::All(end),
            ],
        ),
        Sentence::OneOctet(OctetChange::Missing(offset)) => say(
            b"If one octet more stood after the header at offset %, all would parse: \
              an octet of its contents may be missing.\n",
            &[Value::Number(offset as u64)],
        ),
        Sentence::OneOctet(OctetChange::PutIn(offset)) => say(
            b"If one octet fewer stood after the header at offset %, all would parse: \
              an octet may have been put in there.\n",
            &[Value::Number(offset as u64)],
        ),
        Sentence::NoneLost(element) => say(
            b"By its length the % ends with the input, at offset %: no octet was lost or put in.\n",
            &[Value::Name(element), Value::Number(element_end(&element))],
        ),
        Sentence::SomeLost { element, end } => say(
            b"By its length the % ends at offset %, the input at offset %. Missing: %.\n",
            &[
                Value::Name(element),
                Value::Number(element_end(&element)),
                Value::Number(end),
                Value::Octets(element_end(&element).saturating_sub(end)),
            ],
        ),
        Sentence::SomePutIn { element, end } => say(
            b"By its length the % ends at offset %, the input at offset %. Too many: %.\n",
            &[
                Value::Name(element),
                Value::Number(element_end(&element)),
                Value::Number(end),
                Value::Octets(end.saturating_sub(element_end(&element))),
            ],
        ),
        Sentence::OtherChain(chain) => say(
            chain_words(&chain),
            &[
                Value::Offsets(chain),
                Value::Number(chain.by),
                Value::Octets(chain.by),
            ],
        ),
        Sentence::StandsTwice(block) => say(
            b"The % from offset % on stand twice. If they stood once, all would parse.\n",
            &[Value::Octets(block.size), Value::Number(block.offset)],
        ),
        Sentence::Overwritten(run) => say(
            b"The octets from offset % on are% alone: %. They may stand in place of others.\n",
            &[
                Value::Number(run.start),
                Value::Pairs(run.start, run.start.saturating_add(1)),
                Value::Number(run.end.saturating_sub(run.start)),
            ],
        ),
        Sentence::Spaced(spacing) => say(
            b"There are encodings from offset % on: %. Between each two of them other octets stand: %, \
              first% at offset %. Try: tail -c +% FILE | head -c % | tlvdump-show, for the first.\n",
            &[
                Value::Number(spacing.first),
                Value::Number(spacing.count),
                Value::Octets(spacing.gap),
                Value::Pairs(spacing.end, spacing.end.saturating_add(spacing.gap)),
                Value::Number(spacing.end),
                Value::Number(spacing.first.saturating_add(1)),
                Value::Number(spacing.end.saturating_sub(spacing.first)),
            ],
        ),
        Sentence::TextChanged(change) => say(text_change_words(change), &[]),
        Sentence::Traced(trace) => trace_words(trace),
        Sentence::OctetsMoved(change) => say(move_words(change), &[]),
        Sentence::OtherKind(kind) => say(file_kind_words(kind), &[]),
        Sentence::ParsesFrom(offset) => say(
            b"From offset % on it parses: what stands in front may be a header of the file or of the record, or damaged. \
              Try: tail -c +% FILE | tlvdump-show\n",
            &[
                Value::Number(offset),
                Value::Number(offset.saturating_add(1)),
            ],
        ),
        Sentence::NextRecord(offset) => say(
            b"From offset % on it parses: the next record may begin there. Try: tail -c +% FILE | tlvdump-show\n",
            &[
                Value::Number(offset),
                Value::Number(offset.saturating_add(1)),
            ],
        ),
        Sentence::NextRecordUpTo { offset, fault } => say(
            b"The next record may begin at offset %: from there on it parses up to another fault, at offset %. \
              Try: tail -c +% FILE | tlvdump-show\n",
            &[
                Value::Number(offset),
                Value::Number(fault),
                Value::Number(offset.saturating_add(1)),
            ],
        ),
    }
}

/// The words about a header that is refused with this code.
fn refused_header_words(code: FaultCode) -> &'static [u8]
    ensures { result.now ≡ refused_header_words code }
{
    match code {
        FaultCode::TagTooLong =>
            b"The header at offset % has more than nine octets of tag number:%.\n",
        FaultCode::ReservedLength => {
            b"The header at offset % has the first length octet ff, which X.690 reserves:%.\n"
        }
        FaultCode::IndefinitePrimitive => {
            b"The header at offset % is that of a primitive, which cannot have the indefinite length:%.\n"
        }
        FaultCode::LengthTooLarge =>
            b"The header at offset % announces a length of 2^40 or more:%.\n",
        _ => b"The header at offset %:%.\n",
    }
}

/// The words about what was done to an input as if it were a text.
fn text_change_words(change: TextChange) -> &'static [u8]
    ensures { result.now ≡ text_change_words change }
{
    match change {
        TextChange::Utf8 => {
            b"It was taken for a text in Latin-1 and written in UTF-8. \
              Try: fetch it anew, in binary, or: iconv -f UTF-8 -t ISO-8859-1 FILE | tlvdump-show\n"
        }
        TextChange::LineEnds => {
            b"It was taken for a text: octets 0d were put in front of 0a. Try: fetch it anew, in binary.\n"
        }
        TextChange::Replaced => {
            b"It has the octets ef bf bd, with which programs replace what is no UTF-8: it was copied as a text. \
              Try: fetch it anew, in binary.\n"
        }
    }
}

/// The words about other lengths of elements inside one another.
fn chain_words(chain: &Chain) -> &'static [u8]
    ensures { result.now ≡ chain_words chain.now }
{
    match (chain.is_greater, chain.count == 1) {
        (true, true) => {
            b"If the length at % were % more, all would parse: % may have been put in there, and it was not raised.\n"
        }
        (true, false) => {
            b"If each of the lengths at % were % more, all would parse: % may have been put in there, \
              and they were not raised.\n"
        }
        (false, true) => {
            b"If the length at % were % less, all would parse: % may have been lost there, and it was not lowered.\n"
        }
        (false, false) => {
            b"If each of the lengths at % were % less, all would parse: % may have been lost there, \
              and they were not lowered.\n"
        }
    }
}

/// The words about what shows that an input was taken for a text.
fn trace_words(trace: Trace) -> Words
    ensures text { result.text.now ≡ (trace_words trace).0 }
    ensures values { result.values.items ≡ (trace_words trace).1 }
{
    match trace {
        Trace::AsUtf8(count) => say(
            b"It is UTF-8 throughout, with characters beyond ASCII: %. It was taken for a text. \
              Try: fetch it anew, in binary.\n",
            &[Value::Number(count)],
        ),
        Trace::LineEnds(count) => say(
            b"Each of its octets 0a stands behind 0d: %. It was taken for a text. Try: fetch it anew, in binary.\n",
            &[Value::Number(count)],
        ),
        Trace::SevenBits(count) => say(
            b"None of its octets is above 7f: %. It was taken for a text, or the highest bits were cleared. \
              Try: fetch it anew, in binary.\n",
            &[Value::Number(count)],
        ),
        Trace::QuestionMarks(count) => say(
            b"None of its octets is above 7f, and many are the character ?: %. It was taken for a text. \
              Try: fetch it anew, in binary.\n",
            &[Value::Number(count)],
        ),
        Trace::HalfZeros => say(
            b"Nearly every second of its octets is 00. It was taken for a text and written in UTF-16. \
              Try: fetch it anew, in binary.\n",
            &[],
        ),
    }
}

/// The words about what was done to all octets of an input.
fn move_words(change: Move) -> &'static [u8]
    ensures { result.now ≡ move_words change }
{
    match change {
        Move::Pairs => {
            b"Its octets stand in reverse order in pairs: if each pair were turned round, all would parse. \
              Try: dd conv=swab status=none <FILE | tlvdump-show\n"
        }
        Move::Fours => {
            b"Its octets stand in reverse order in fours: if each four were turned round, all would parse. \
              Try: fetch it anew, in binary.\n"
        }
        Move::Reversed => {
            b"Its octets stand in reverse order: read from the last to the first, all would parse. \
              Try: fetch it anew, in binary.\n"
        }
        Move::Inverted => {
            b"Its bits are inverted: if each were turned round, all would parse. Try: fetch it anew, in binary.\n"
        }
    }
}

/// The words about another kind of file.
fn file_kind_words(kind: FileKind) -> &'static [u8]
    ensures { result.now ≡ file_kind_words kind }
{
    match kind {
        FileKind::Zip => b"It begins as a ZIP file does: unpack it first.\n",
        FileKind::Gzip => b"It begins as a file of gzip does. Try: gzip -dc FILE | tlvdump-show\n",
        FileKind::Bzip2 =>
            b"It begins as a file of bzip2 does. Try: bzip2 -dc FILE | tlvdump-show\n",
        FileKind::Pdf => b"It begins as a PDF file does.\n",
        FileKind::Markup => b"It begins with the character <, as XML and HTML do.\n",
        FileKind::OpenSsh => b"It is a key of OpenSSH, which is no encoding by X.690.\n",
        FileKind::Utf16 =>
            b"It begins as text in UTF-16 does. Try: iconv -f UTF-16 -t UTF-8 FILE | tlvdump-show\n",
        FileKind::Capture =>
            b"It begins as a capture of packets (pcap) does: export the octets of a packet first.\n",
        FileKind::KeyStore =>
            b"It begins as a key store of Java (JKS) does: export what you need first.\n",
        FileKind::Http => {
            b"It begins with the header of an answer of HTTP. Try: sed '1,/^.$/d' FILE | tlvdump-show\n"
        }
        FileKind::ByteOrderMark => {
            b"It begins with the byte order mark of a text in UTF-8. Try: tail -c +4 FILE | tlvdump-show\n"
        }
        FileKind::Chunks => {
            b"It begins with a chunk of HTTP and its size. Try: fetch it anew with a program that joins the chunks, \
              as curl does.\n"
        }
    }
}
