//! Writes sentences.
ghost use Rattle.std.specs.Prelude.{◌≡◌};
ghost use Rattle.tlv_io.specs.Out.{Puts, Sends};
ghost use Rattle.tlv_reasons.specs.Sentences.{filled, octet_or_value, sentence_text, sentences_text, values_after};

use crate::Sentence;
use crate::value::{Value, put_value};
use crate::words::words_of;
use tlv_io::{Drain, Out, WriteFault};

/// Writes sentences about these octets, one after another. All text is printable ASCII, in lines that end with a line
/// feed.
///
/// # Errors
///
/// `WriteFault` if a write failed. What was written is then a prefix of the text.
#[tactic(auto, using(tlv_io::proofs::Sends::sends))]
pub fn write_sentences<D: Drain>(
    octets: &[u8],
    sentences: &[Sentence],
    drain: &mut D,
) -> Result<(), WriteFault>
    ensures { Sends (D.state drain.old) (D.state drain.new) (sentences_text octets.now sentences.now) result }
{
    let mut out = Out::new(drain);
    put_sentences(octets, sentences, &mut out)?;
    out.flush()?;
    Ok(())
}

/// Puts sentences, one after another.
fn put_sentences<D: Drain>(
    octets: &[u8],
    sentences: &[Sentence],
    out: &mut Out<'_, D>,
) -> Result<(), WriteFault>
    ensures { Puts D.state out.old out.new (sentences_text octets.now sentences.now) result }
{
    for sentence in sentences {
        put_sentence(octets, sentence, out)?;
    }
    Ok(())
}

/// Puts a sentence.
#[tactic(auto, unfolding(crate::specs::Sentences::sentence_text))]
fn put_sentence<D: Drain>(
    octets: &[u8],
    sentence: &Sentence,
    out: &mut Out<'_, D>,
) -> Result<(), WriteFault>
    ensures { Puts D.state out.old out.new (sentence_text octets.now sentence.now) result }
{
    let words = words_of(sentence);
    put_filled(octets, words.text, words.values.as_slice(), out)
}

/// Puts words with these values.
fn put_filled<D: Drain>(
    octets: &[u8],
    words: &[u8],
    values: &[Value],
    out: &mut Out<'_, D>,
) -> Result<(), WriteFault>
    ensures { Puts D.state out.old out.new (filled octets.now words.now values.now) result }
{
    let mut left = values;
    for octet in words {
        put_octet_or_value(octets, *octet, left, out)?;
        left = values_after(*octet, left);
    }
    Ok(())
}

/// Puts what stands for an octet of the words: for `%` the first of the values.
fn put_octet_or_value<D: Drain>(
    octets: &[u8],
    octet: u8,
    values: &[Value],
    out: &mut Out<'_, D>,
) -> Result<(), WriteFault>
    ensures { Puts D.state out.old out.new (octet_or_value octets.now octet values.now) result }
{
    match values {
        [value, ..] if octet == b'%' => put_value(value, octets, out),
        _ => out.put(&[octet]),
    }
}

/// The values that come after this octet of the words.
fn values_after(octet: u8, values: &[Value]) -> &[Value]
    ensures { result.now ≡ values_after octet values.now }
{
    match values {
        [_, more @ ..] if octet == b'%' => more,
        _ => values,
    }
}
