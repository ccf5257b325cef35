//! The values in sentences: numbers, octets, elements.
ghost use Rattle.std.specs.Prelude.{◌≡◌, ◌≤◌, ◌+◌, ◌++◌, decimal, length, nat_lt, take};
ghost use Rattle.tlv_io.specs.LineTexts.{spaced_pairs};
ghost use Rattle.tlv_io.specs.Out.{Puts};
ghost use Rattle.tlv_reasons.specs.Values.{chain_offsets, dots_if, first_pairs, header_closing, header_octets, header_opening};
ghost use Rattle.tlv_reasons.specs.Values.{all_in_words, header_sentence, lacking_zeros, named_element, octets_between};
ghost use Rattle.tlv_reasons.specs.Values.{mark_before, octets_in_words, offsets_in_words, size_in_words, value_text};

use crate::{Chain, Element, Unfinished};
use arrayvec::ArrayVec;
use itoa::Buffer;
use tlv_head::{Fault, Size, tag_text};
use tlv_io::{Drain, Out, WriteFault};
use tlv_open::{BrokenString, broken_line};

/// A value in a sentence.
#[derive(Clone, Copy)]
pub(crate) enum Value {
    /// A number in decimal.
    Number(u64),
    /// A number of octets, in words.
    Octets(u64),
    /// The octets of the input from the first offset up to the second, in hexadecimal, each after a space: at most 16.
    Pairs(u64, u64),
    /// The name of an element, and where it is.
    Name(Element),
    /// A sentence about the header of an element.
    Header(Element),
    /// What is missing of two octets `00`.
    LackingZeros(Unfinished),
    /// The code of a fault.
    Code(Fault),
    /// The text of a fault.
    Message(Fault),
    /// Where a string begins, and how it breaks.
    Broken(BrokenString),
    /// The offsets of headers, one after another, with `and` before the last.
    Offsets(Chain),
    /// All octets, or all up to an offset.
    All(Option<u64>),
}

/// Only for filling arrays.
impl Default for Value {
    fn default() -> Value {
        Value::Number(0)
    }
}

/// Puts a value of a sentence about these octets.
pub(crate) fn put_value<D: Drain>(
    value: &Value,
    octets: &[u8],
    out: &mut Out<'_, D>,
) -> Result<(), WriteFault>
    ensures { Puts D.state out.old out.new (value_text octets.now value.now) result }
{
    match value {
        Value::Number(number) => put_number(*number, out),
        Value::Octets(count) => put_octet_count(*count, out),
        Value::Pairs(start, end) => put_range(octets, *start, *end, out),
        Value::Name(element) => put_name(element, out),
        Value::Header(element) => put_header(element, octets, out),
        Value::LackingZeros(unfinished) => out.put(lacking_zeros(*unfinished)),
        Value::Code(fault) => out.put(fault.code.code()),
        Value::Message(fault) => out.put(fault.text()),
        Value::Broken(string) => out.put(broken_line(string).as_slice()),
        Value::Offsets(chain) => out.put(offsets_in_words(chain_offsets(chain)).as_slice()),
        Value::All(end) => out.put(all_in_words(*end).as_slice()),
    }
}

/// What is missing of two octets `00`.
fn lacking_zeros(unfinished: Unfinished) -> &'static [u8]
    ensures { result.now ≡ lacking_zeros unfinished }
{
    match unfinished {
        Unfinished::EndOctets => b"1 octet, 00",
        Unfinished::Nothing | Unfinished::Primitive(_) | Unfinished::Header => b"2 octets, 00 00",
    }
}

/// Puts a number in decimal.
fn put_number<D: Drain>(number: u64, out: &mut Out<'_, D>) -> Result<(), WriteFault>
    ensures { Puts D.state out.old out.new (decimal number) result }
{
    let mut digits = Buffer::new();
    out.put(digits.format(number).as_bytes())
}

/// Puts a number of octets, in words.
fn put_octet_count<D: Drain>(count: u64, out: &mut Out<'_, D>) -> Result<(), WriteFault>
    ensures { Puts D.state out.old out.new (octets_in_words count) result }
{
    out.put(octets_in_words(count).as_slice())
}

/// All octets, or all up to an offset, in words.
#[tactic(auto, unfolding(crate::specs::Values::all_in_words))]
fn all_in_words(end: Option<u64>) -> ArrayVec<u8, 48>
    ensures { result.items ≡ all_in_words end }
{
    let mut text = ArrayVec::new();
    let Some(end) = end else {
        let _ = text.try_extend_from_slice(b"all");
        return text;
    };
    let mut digits = Buffer::new();
    let _ = text.try_extend_from_slice(b"all up to offset ");
    let _ = text.try_extend_from_slice(digits.format(end).as_bytes());
    text
}

/// The offsets of the headers of a chain.
fn chain_offsets(chain: &Chain) -> &[u64]
    ensures offsets { result.now ≡ chain_offsets chain.now }
    ensures few { length result.now ≤ 8 }
{
    &chain.offsets[..chain.count.min(chain.offsets.len())]
}

/// Offsets, one after another, with `and` before the last.
fn offsets_in_words(offsets: &[u64]) -> ArrayVec<u8, 256>
    requires { length offsets.now ≤ 8 }
    ensures { result.items ≡ offsets_in_words offsets.now }
{
    let mut text = ArrayVec::new();
    let mut left = offsets;
    while let [offset, more @ ..] = left {
        add_offset(*offset, more, &mut text);
        left = more;
    }
    text
}

/// Adds an offset, and what stands between it and these others, to a text that has room for them.
fn add_offset(offset: u64, others: &[u64], text: &mut ArrayVec<u8, 256>)
    requires { length text.old.items ≤ 228 }
    ensures added { text.new.items ≡ text.old.items ++ (decimal offset ++ mark_before others.now) }
    ensures few { length text.new.items ≤ length text.old.items + 28 }
{
    let mut digits = Buffer::new();
    let _ = text.try_extend_from_slice(digits.format(offset).as_bytes());
    let _ = text.try_extend_from_slice(mark_before(others));
}

/// What stands between an offset and these others.
fn mark_before(offsets: &[u64]) -> &'static [u8]
    ensures mark { result.now ≡ mark_before offsets.now }
    ensures few { length result.now ≤ 5 }
{
    match offsets {
        [] => b"",
        [_] => b" and ",
        _ => b", ",
    }
}

/// Puts octets in hexadecimal, each after a space: at most 16, and then dots if there are more.
#[tactic(auto, using(tlv_io::proofs::Puts::puts), unfolding(crate::specs::Values::first_pairs))]
fn put_pairs<D: Drain>(octets: &[u8], out: &mut Out<'_, D>) -> Result<(), WriteFault>
    ensures { Puts D.state out.old out.new (first_pairs octets.now) result }
{
    put_shown_pairs(octets, out)?;
    put_dots_if(has_more(octets), out)
}

/// Puts the first 16 octets in hexadecimal, each after a space.
fn put_shown_pairs<D: Drain>(octets: &[u8], out: &mut Out<'_, D>) -> Result<(), WriteFault>
    ensures { Puts D.state out.old out.new (spaced_pairs (take 16 octets.now)) result }
{
    put_few_pairs(&octets[..octets.len().min(16)], out)
}

/// Whether there are more than 16 octets.
fn has_more(octets: &[u8]) -> bool
    ensures { result ≡ nat_lt 16 (length octets.now) }
{
    octets.len() > 16
}

/// Puts dots if there are more octets.
fn put_dots_if<D: Drain>(is_more: bool, out: &mut Out<'_, D>) -> Result<(), WriteFault>
    ensures { Puts D.state out.old out.new (dots_if is_more) result }
{
    out.put(if is_more { b" ..." } else { b"" })
}

/// Puts at most 16 octets in hexadecimal, each after a space.
#[tactic(auto, using(tlv_io::proofs::Puts::lines))]
fn put_few_pairs<D: Drain>(octets: &[u8], out: &mut Out<'_, D>) -> Result<(), WriteFault>
    requires { length octets.now ≤ 16 }
    ensures { Puts D.state out.old out.new (spaced_pairs octets.now) result }
{
    out.make_room()?;
    out.held.spaced_pairs(octets);
    Ok(())
}

/// Puts the name of an element, and where it is.
fn put_name<D: Drain>(element: &Element, out: &mut Out<'_, D>) -> Result<(), WriteFault>
    ensures { Puts D.state out.old out.new (named_element element.now) result }
{
    out.put(named_element(element).as_slice())
}

/// The name of an element, and where it is.
#[tactic(auto, unfolding(crate::specs::Values::named_element))]
fn named_element(element: &Element) -> ArrayVec<u8, 96>
    ensures { result.items ≡ named_element element.now }
{
    let mut text = ArrayVec::new();
    let mut digits = Buffer::new();
    let _ = text.try_extend_from_slice(tag_text(element.class, element.number).as_slice());
    let _ = text.try_extend_from_slice(b" at offset ");
    let _ = text.try_extend_from_slice(digits.format(element.offset).as_bytes());
    text
}

/// Puts a sentence about the header of an element.
#[tactic(auto, using(tlv_io::proofs::Puts::puts), unfolding(crate::specs::Values::header_sentence))]
fn put_header<D: Drain>(
    element: &Element,
    octets: &[u8],
    out: &mut Out<'_, D>,
) -> Result<(), WriteFault>
    ensures { Puts D.state out.old out.new (header_sentence octets.now element.now) result }
{
    put_header_octets(element, octets, out)?;
    put_header_end(element.size, out)
}

/// Puts the offset of a header and its octets.
#[tactic(auto, using(tlv_io::proofs::Puts::puts), unfolding(crate::specs::Values::header_octets))]
fn put_header_octets<D: Drain>(
    element: &Element,
    octets: &[u8],
    out: &mut Out<'_, D>,
) -> Result<(), WriteFault>
    ensures { Puts D.state out.old out.new (header_octets octets.now element.now) result }
{
    put_header_start(element.offset, out)?;
    put_range(octets, element.offset, element.contents, out)
}

/// Puts the octets from the first offset up to the second in hexadecimal, each after a space: at most 16.
fn put_range<D: Drain>(
    octets: &[u8],
    start: u64,
    end: u64,
    out: &mut Out<'_, D>,
) -> Result<(), WriteFault>
    ensures { Puts D.state out.old out.new (first_pairs (octets_between octets.now start end)) result }
{
    put_pairs(octets_between(octets, start, end), out)
}

/// Puts the beginning of a sentence about a header.
#[tactic(auto, unfolding(crate::specs::Values::header_opening))]
fn put_header_start<D: Drain>(offset: u64, out: &mut Out<'_, D>) -> Result<(), WriteFault>
    ensures { Puts D.state out.old out.new (header_opening offset) result }
{
    let mut text = ArrayVec::<u8, 64>::new();
    let mut digits = Buffer::new();
    let _ = text.try_extend_from_slice(b"The header at offset ");
    let _ = text.try_extend_from_slice(digits.format(offset).as_bytes());
    let _ = text.try_extend_from_slice(b",");
    out.put(text.as_slice())
}

/// Puts the end of a sentence about a header: the number of contents octets that it announces.
#[tactic(auto, unfolding(crate::specs::Values::header_closing))]
fn put_header_end<D: Drain>(size: Size, out: &mut Out<'_, D>) -> Result<(), WriteFault>
    ensures { Puts D.state out.old out.new (header_closing size) result }
{
    let mut text = ArrayVec::<u8, 96>::new();
    let _ = text.try_extend_from_slice(b", says that its contents are ");
    let _ = text.try_extend_from_slice(size_in_words(size).as_slice());
    let _ = text.try_extend_from_slice(b".");
    out.put(text.as_slice())
}

/// The number of contents octets that a header announces, in words.
#[tactic(auto, unfolding(crate::specs::Values::size_in_words))]
fn size_in_words(size: Size) -> ArrayVec<u8, 48>
    ensures { result.items ≡ size_in_words size }
{
    let Size::Definite(count) = size else {
        let mut text = ArrayVec::new();
        let _ = text.try_extend_from_slice(b"an indefinite number of octets");
        return text;
    };
    octets_in_words(count)
}

/// A number of octets, in words.
#[tactic(auto, unfolding(crate::specs::Values::octets_in_words))]
fn octets_in_words(count: u64) -> ArrayVec<u8, 48>
    ensures { result.items ≡ octets_in_words count }
{
    let mut text = ArrayVec::new();
    let mut digits = Buffer::new();
    let _ = text.try_extend_from_slice(digits.format(count).as_bytes());
    let _ = text.try_extend_from_slice(if count == 1 { b" octet" } else { b" octets" });
    text
}

/// The octets from the first offset up to the second.
#[tactic(auto, unfolding(crate::specs::Values::octets_between))]
pub(crate) fn octets_between(octets: &[u8], start: u64, end: u64) -> &[u8]
    ensures { result.now ≡ octets_between octets.now start end }
{
    let size = octets.len() as u64;
    let from = start.min(size) as usize;
    let to = end.min(size).max(start.min(size)) as usize;
    &octets[from..to]
}
