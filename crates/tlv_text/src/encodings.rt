//! Which octets are taken for encodings.
ghost use Rattle.std.specs.Prelude.{◌≡◌, ◌≤◌, ◌↔◌, IsTrue, length, option_map};
ghost use Rattle.tlv_text.specs.Taken.{AreEncodings, AreSurelyEncodings, AreTakenAsEncodings, IsSoundInput};
ghost use Rattle.tlv_text.specs.Taken.{begins_as_sequence, text_of};
ghost use Rattle.tlv_head.specs.Limits.{input_limit};
ghost use Rattle.tlv_text.specs.Marks.{ascii_of_utf16};

use crate::characters::has_rare;
use tlv_open::ending_of;
use tlv_walk::Ending;

/// Whether octets from base64 are taken for encodings: they begin as a SEQUENCE or a SET, or are sound.
pub(crate) fn are_taken_as_encodings(octets: &[u8]) -> bool
    requires { length octets.now ≤ input_limit }
    ensures { AreTakenAsEncodings octets.now result }
{
    begins_as_sequence(octets) || are_sound(octets)
}

/// Whether the first octet is the identifier octet of a SEQUENCE or a SET (8.9, 8.11).
fn begins_as_sequence(octets: &[u8]) -> bool
    ensures { result ≡ begins_as_sequence octets.now }
{
    matches!(octets, [0x30 | 0x31, ..])
}

/// Whether the octets of an input are sound encodings. ASCII in UTF-16 does not count: it is sound only by chance.
pub(crate) fn are_encodings(ascii: &Option<Vec<u8>>, octets: &[u8]) -> bool
    requires size { length octets.now ≤ input_limit }
    requires ascii { option_map (λ text. text.items) ascii.now ≡ ascii_of_utf16 octets.now }
    ensures { IsTrue result ↔ AreEncodings octets.now }
{
    ascii.is_none() && are_sound(octets)
}

/// Whether the octets of an input are sound encodings, and its text has a character that is rarely typed. So they are
/// not base64 or hexadecimal that is sound by chance.
pub(crate) fn are_surely_encodings(ascii: &Option<Vec<u8>>, octets: &[u8], text: &[u8]) -> bool
    requires size { length octets.now ≤ input_limit }
    requires ascii { option_map (λ text. text.items) ascii.now ≡ ascii_of_utf16 octets.now }
    requires text { text.now ≡ text_of octets.now }
    ensures { IsTrue result ↔ AreSurelyEncodings octets.now }
{
    has_rare(text) && are_encodings(ascii, octets)
}

/// Whether octets are sound encodings. Padding is allowed.
fn are_sound(octets: &[u8]) -> bool
    requires { length octets.now ≤ input_limit }
    ensures { IsTrue result ↔ IsSoundInput octets.now }
{
    match ending_of(octets, true) {
        Ending::Done => true,
        Ending::Fault(_) => false,
    }
}
