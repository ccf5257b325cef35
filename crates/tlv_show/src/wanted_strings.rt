//! What is kept of the open strings, if the characters of their segments are wanted.
#![tactic(auto, unfolding(crate::specs::Private::Suits::Suits))]

ghost use Rattle.std.specs.Prelude.{◌≡◌, true};
ghost use Rattle.tlv_head.specs.Header.{octets_of};
ghost use Rattle.tlv_show.specs.FinderState.{end_octets_if, string_found, strings_if};
ghost use Rattle.tlv_show.specs.Private.SegmentCharacters.{StayAtPrimitives};
ghost use Rattle.tlv_show.specs.SegmentCharactersState.{at_innermost, segment_ended, segments_after_octets};
ghost use Rattle.tlv_show.specs.SegmentCharactersState.{segments_begun, segments_closed, segments_opened};
ghost use Rattle.tlv_show.specs.Private.Suits.{Suits};
ghost use Rattle.tlv_show.specs.ShownFindings.{wants_characters};

use crate::segment_characters::SegmentCharacters;
use crate::{Rules, Scope, Wanted};
use tlv_head::Header;

/// Whether wrong characters of segments are to be found.
#[inline(always)]
fn wants_characters(wanted: Wanted) -> bool
    ensures { result ≡ wants_characters wanted }
{
    // All rules have the finding.
    match wanted.rules {
        Rules::Ber | Rules::Der | Rules::Cer => matches!(wanted.scope, Scope::All),
    }
}

/// Whether primitives that are whole change nothing.
#[inline(always)]
pub(crate) fn passes_in_strings<const TRACKED: usize>(
    strings: &SegmentCharacters,
    wanted: Wanted,
) -> bool
    requires suits { Suits TRACKED wanted }
    ensures { result ≡ true → wants_characters wanted ≡ true → StayAtPrimitives strings.now }
{
    if TRACKED != 0 && wants_characters(wanted) {
        strings.passes_primitives()
    } else {
        true
    }
}

/// A primitive begins.
#[inline(always)]
pub(crate) fn begin_in_strings<const TRACKED: usize>(
    strings: &mut SegmentCharacters,
    wanted: Wanted,
    header: &Header,
    octets: &[u8],
)
    requires suits { Suits TRACKED wanted }
    requires raw { octets.now ≡ octets_of header.now }
    ensures { strings.new ≡ strings_if wanted (segments_begun strings.old header.now) strings.old }
{
    if TRACKED != 0 && wants_characters(wanted) {
        strings.begin(header, octets);
    }
}

/// An element that holds others begins.
#[inline(always)]
pub(crate) fn open_in_strings<const TRACKED: usize>(
    strings: &mut SegmentCharacters,
    wanted: Wanted,
    header: &Header,
    octets: &[u8],
)
    requires suits { Suits TRACKED wanted }
    requires raw { octets.now ≡ octets_of header.now }
    ensures { strings.new ≡ strings_if wanted (segments_opened strings.old header.now) strings.old }
{
    if TRACKED != 0 && wants_characters(wanted) {
        strings.open(header, octets);
    }
}

/// Contents of a primitive go on.
#[inline(always)]
pub(crate) fn bytes_in_strings<const TRACKED: usize>(
    strings: &mut SegmentCharacters,
    wanted: Wanted,
    octets: &[u8],
)
    requires suits { Suits TRACKED wanted }
    ensures { strings.new ≡ strings_if wanted (segments_after_octets octets.now strings.old) strings.old }
{
    if TRACKED != 0 && wants_characters(wanted) {
        strings.octets(octets);
    }
}

/// A primitive ends.
#[inline(always)]
pub(crate) fn end_in_strings<const TRACKED: usize>(strings: &mut SegmentCharacters, wanted: Wanted)
    requires suits { Suits TRACKED wanted }
    ensures { strings.new ≡ strings_if wanted (at_innermost segment_ended strings.old) strings.old }
{
    if TRACKED != 0 && wants_characters(wanted) {
        strings.end();
    }
}

/// An element that holds others ends, with end-of-contents octets or without them. Returns the offset of the string
/// that ends, if a segment of it has wrong characters.
#[inline(always)]
pub(crate) fn close_in_strings<const TRACKED: usize>(
    strings: &mut SegmentCharacters,
    wanted: Wanted,
    has_end_octets: bool,
) -> Option<u64>
    requires suits { Suits TRACKED wanted }
    ensures state { strings.new
        ≡ strings_if wanted (segments_closed strings.old (end_octets_if has_end_octets)) strings.old }
    ensures found { result ≡ string_found wanted strings.old }
{
    if TRACKED != 0 && wants_characters(wanted) {
        strings.close(if has_end_octets { b"\0\0" } else { b"" })
    } else {
        None
    }
}
