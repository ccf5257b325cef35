//! Blocks of PEM in a text.
ghost use Rattle.std.specs.List.{list_all};
ghost use Rattle.std.specs.Prelude.{◌≡◌, ◌<◌, ◌≤◌, ◌&&◌, ℕ, MatchOption, drop, length, take};
ghost use Rattle.memchr.specs.Find.{OccursAt};
ghost use Rattle.tlv_text.specs.Pem.{EndsBody, HasNoBlock, IsFirstBlock, dashes, is_label, is_label_character};
ghost use Rattle.tlv_text.specs.Private.PemSteps.{BeginsLabel, BeginsNoLabel, begin_dashes};

use memchr::{memchr, memmem};

/// What comes before a label.
const BEGIN_MARKER: &[u8; 11] = b"-----BEGIN ";

/// What comes after a label, and where a body ends.
const DASHES: &[u8; 5] = b"-----";

/// The maximum number of characters in a label.
const LABEL_LIMIT: usize = 64;

/// A block of PEM in a text.
#[derive(Clone, Copy, Debug, PartialEq, Eq)]
pub struct PemBlock<'a> {
    /// The number of characters of the text before its marker.
    pub start: usize,
    /// Its label: 1 to 64 printable characters, none of them a hyphen.
    pub label: &'a [u8],
    /// What is between its marker and the next five hyphens, or the end of the text.
    pub body: &'a [u8],
    /// What comes after the body. It begins with `-----END ` if the block is ended, and is empty if the text ends
    /// before.
    pub rest: &'a [u8],
}

/// Returns the first block of PEM in a text (RFC 7468), wherever in a line it begins: `-----BEGIN `, a label,
/// `-----`, and a body up to the next `-----`.
pub fn first_block(text: &[u8]) -> Option<PemBlock<'_>>
    ensures { MatchOption result (HasNoBlock text.now)
        (λ b. IsFirstBlock text.now b.start b.label.now b.body.now b.rest.now) }
{
    let mut start = 0;
    while let Some(more) = memmem::find(&text[start..], BEGIN_MARKER) {
        start += more;
        let after_marker = &text[start + BEGIN_MARKER.len()..];
        if let Some(length) = label_length(after_marker) {
            let (label, after) = after_marker.split_at(length);
            let (body, rest) = split_body(&after[DASHES.len()..]);
            return Some(PemBlock {
                start,
                label,
                body,
                rest,
            });
        }
        start += 1;
    }
    None
}

/// The number of characters of the label that the text begins with, if five hyphens follow it.
fn label_length(text: &[u8]) -> Option<usize>
    ensures { MatchOption result (BeginsNoLabel text.now) (BeginsLabel text.now) }
{
    match memchr(b'-', text) {
        Some(length) if is_label_before_dashes(text, length) => Some(length),
        _ => None,
    }
}

/// Whether the first `count` characters are a label, and five hyphens follow.
fn is_label_before_dashes(text: &[u8], count: usize) -> bool
    requires { count ≤ length text.now }
    ensures { result ≡ (is_label (take count text.now) && begin_dashes (drop count text.now)) }
{
    is_label(&text[..count]) && begin_dashes(&text[count..])
}

/// Whether the text begins with five hyphens.
fn begin_dashes(text: &[u8]) -> bool
    ensures { result ≡ begin_dashes text.now }
{
    matches!(text, [b'-', b'-', b'-', b'-', b'-', ..])
}

/// Whether this is a label.
fn is_label(label: &[u8]) -> bool
    ensures { result ≡ is_label label.now }
{
    !label.is_empty() && label.len() <= LABEL_LIMIT && are_label_characters(label)
}

/// Whether all of these characters may be in a label.
fn are_label_characters(label: &[u8]) -> bool
    ensures { result ≡ list_all is_label_character label.now }
{
    for character in label {
        if !matches!(*character, b' '..=b'~') || *character == b'-' {
            return false;
        }
    }
    true
}

/// A body, and what comes after it.
fn split_body(after: &[u8]) -> (&[u8], &[u8])
    ensures { EndsBody after.now result.0.now result.1.now }
{
    // The base64 of PEM has no hyphen, and a search for one is faster than a search for five.
    let start = first_hyphen(after);
    match memmem::find(&after[start..], DASHES) {
        Some(length) => after.split_at(start + length),
        None => after.split_at(after.len()),
    }
}

/// The number of characters before the first hyphen, or of all characters if there is none.
fn first_hyphen(text: &[u8]) -> usize
    ensures none { (k : ℕ) → k < result → OccursAt text.now dashes k → ⊥ }
    ensures within { result ≤ length text.now }
{
    match memchr(b'-', text) {
        Some(length) => length,
        None => text.len(),
    }
}
