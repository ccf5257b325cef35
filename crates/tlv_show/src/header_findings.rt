//! The findings of a header, and of the end of an element that holds others.
ghost use Rattle.std.specs.Prelude.{IsTrue, false, ◌≡◌, ◌<◌, ◌≤◌, ◌+◌, ◌++◌, nat_le};
ghost use Rattle.std.specs.Prelude.{length, [], ◌∷◌};
ghost use Rattle.tlv_value.specs.Checks.{findings_by};
ghost use Rattle.tlv_show.specs.KeptConditions.{begins_with_zero_bits, cer_conditions_in, der_conditions};
ghost use Rattle.tlv_show.specs.KeptConditions.{end_findings_in, first_basic_conditions_in, header_findings_in};
ghost use Rattle.tlv_show.specs.KeptConditions.{is_high_form_needless, length_conditions};
ghost use Rattle.tlv_show.specs.NestingState.{has_frame, segments_in, surroundings_in};
ghost use Rattle.tlv_show.specs.Private.UsualTypes.{IsUsual, later_basic_conditions_in};
ghost use Rattle.tlv_value.specs.ValueCheckState.{finding_if};
ghost use Rattle.tlv_value.specs.declared.finding.Finding.TheVariants.{D01};

use crate::headers::{
    announced_length, has_high_form, has_segments, is_always_constructed, is_always_primitive,
    is_component, is_indefinite, is_length_padded, is_segment, is_sequence_or_set, is_string,
    is_time_or_iri, is_unassigned, is_universal,
};
use crate::holder_frame::HolderFrame;
use crate::{Rules, Scope, Wanted};
use arrayvec::ArrayVec;
use tlv_head::Header;
use tlv_value::Finding;

/// Adds the findings of a header, in order, from the frame of the element that holds it.
#[inline(always)]
pub(crate) fn add_header_findings(
    wanted: Wanted,
    frame: &HolderFrame,
    header: &Header,
    found: &mut ArrayVec<Finding, 17>,
)
    requires { found.old.items ≡ [] }
    ensures { found.new.items ≡ header_findings_in wanted (surroundings_in frame.now) header.now }
{
    add_basic_findings(frame, header, found);
    add_later_basic_findings(wanted.scope, frame, header, found);
    match wanted.rules {
        Rules::Ber => {}
        Rules::Der => {
            add_length_findings(header, found);
            add_der_findings(header, found);
        }
        Rules::Cer => {
            add_length_findings(header, found);
            add_cer_findings(frame, header, found);
        }
    }
}

/// Whether a short look shows that a header has no findings by these rules, in any scope.
#[inline(always)]
pub(crate) fn has_no_header_findings(rules: Rules, frame: &HolderFrame, header: &Header) -> bool
    ensures no_findings { IsTrue result → (scope : Scope)
        → header_findings_in (record { rules = rules; scope = scope }) (surroundings_in frame.now) header.now ≡ [] }
    ensures no_frame { IsTrue result → has_frame frame.now header.now ≡ false }
{
    is_usual(header) && has_no_header_findings_if_usual(rules, frame, header)
}

/// Whether a short look shows that the header of a usual element has no findings by these rules, in any scope. It does
/// not check the type: callers check it first, or with the contents.
#[inline(always)]
pub(crate) fn has_no_header_findings_if_usual(
    rules: Rules,
    frame: &HolderFrame,
    header: &Header,
) -> bool
    ensures no_findings { IsTrue result → IsUsual header.now → (scope : Scope)
        → header_findings_in (record { rules = rules; scope = scope }) (surroundings_in frame.now) header.now ≡ [] }
    ensures no_segments { IsTrue result → frame.now.has_segments ≡ false }
    ensures no_components { IsTrue result → frame.now.has_components ≡ false }
{
    if !is_frame_usual(frame) || !is_tag_usual(header) {
        return false;
    }
    match rules {
        Rules::Ber => true,
        Rules::Der => !is_indefinite(header) && !is_length_padded(header),
        Rules::Cer => {
            header.constructed == is_indefinite(header)
                && announced_length(header) <= 1000
                && !is_length_padded(header)
        }
    }
}

/// Whether a short look shows that D01 is the only finding of a header by these rules, in any scope.
#[inline(always)]
pub(crate) fn is_only_indefinite(rules: Rules, frame: &HolderFrame, header: &Header) -> bool
    ensures finding { IsTrue result → (scope : Scope)
        → header_findings_in (record { rules = rules; scope = scope }) (surroundings_in frame.now) header.now
        ≡ D01 ∷ [] }
    ensures no_frame { IsTrue result → has_frame frame.now header.now ≡ false }
{
    matches!(rules, Rules::Der)
        && is_indefinite(header)
        && is_usual(header)
        && is_frame_usual(frame)
        && is_tag_usual(header)
        && !is_length_padded(header)
}

/// Whether what holds an element has no segments, and is not of a type with components. So an element may have any tag
/// there.
#[inline(always)]
fn is_frame_usual(frame: &HolderFrame) -> bool
    ensures no_segments { IsTrue result → frame.now.has_segments ≡ false }
    ensures no_components { IsTrue result → frame.now.has_components ≡ false }
{
    // One branch for both: each element asks this.
    !(frame.has_segments | frame.has_components)
}

/// Whether the form of the tag has no findings: it is the low form, or the high form as it has to be.
#[inline(always)]
fn is_tag_usual(header: &Header) -> bool
    ensures needed { IsTrue result → is_high_form_needless header.now ≡ false }
    ensures shortest { IsTrue result → begins_with_zero_bits header.now ≡ false }
{
    !has_high_form(header) || (header.number >= 31 && header.second_identifier_octet() % 128 != 0)
}

/// Whether an element is constructed, and is a SEQUENCE or a SET, or its class is not universal. Most elements that hold
/// others are so: the rest are strings in segments, primitives that hold encodings, and the types with components, which
/// are few.
#[inline(always)]
fn is_usual(header: &Header) -> bool
    ensures { IsTrue result → IsUsual header.now }
{
    header.constructed && (!is_universal(header) || is_sequence_or_set(header))
}

/// Adds the findings of the end of the element with this frame.
#[inline(always)]
pub(crate) fn add_end_findings(
    wanted: Wanted,
    frame: &HolderFrame,
    found: &mut ArrayVec<Finding, 17>,
)
    requires { found.old.items ≡ [] }
    ensures found { found.new.items ≡ end_findings_in wanted (segments_in frame.now) }
    ensures short { length found.new.items ≤ 3 }
{
    if matches!(wanted.scope, Scope::All) {
        add_if(frame.lacks_components, Finding::B27, found);
    }
    if matches!(wanted.rules, Rules::Cer) {
        add_if(
            frame.has_segments && frame.all_primitive && fits_in_primitive(frame),
            Finding::C05,
            found,
        );
        add_if(frame.has_segments && frame.ends_empty, Finding::C06, found);
    }
}

/// Whether a string with the segments of this frame has at most 1000 contents octets as a primitive.
#[inline(always)]
fn fits_in_primitive(frame: &HolderFrame) -> bool
    ensures { result ≡ nat_le (segments_in frame.now).length_as_primitive 1000 }
{
    frame.value_length <= if frame.is_bit_string { 999 } else { 1000 }
}

/// Adds a finding if `there` is set.
#[inline(always)]
fn add_if(there: bool, finding: Finding, found: &mut ArrayVec<Finding, 17>)
    requires { length found.old.items < 16 }
    ensures items { found.new.items ≡ found.old.items ++ finding_if there finding }
    ensures short { length found.new.items ≤ length found.old.items + 1 }
{
    if there {
        found.push(finding);
    }
}

/// Adds what violates the rules of all encodings, of the listed findings.
#[inline(always)]
fn add_basic_findings(frame: &HolderFrame, header: &Header, found: &mut ArrayVec<Finding, 17>)
    requires { found.old.items ≡ [] }
    ensures items { found.new.items
        ≡ findings_by (first_basic_conditions_in (surroundings_in frame.now) header.now) }
    ensures short { length found.new.items ≤ 7 }
{
    let is_high = has_high_form(header);
    add_if(is_high && header.number < 31, Finding::B01, found);
    add_if(
        is_high && header.second_identifier_octet() % 128 == 0,
        Finding::B02,
        found,
    );
    add_if(is_unassigned(header), Finding::B03, found);
    add_if(
        header.constructed && is_always_primitive(header),
        Finding::B04,
        found,
    );
    add_if(
        !header.constructed && is_always_constructed(header),
        Finding::B05,
        found,
    );
    add_if(
        frame.has_segments && frame.is_bit_string && frame.last_has_unused_bits,
        Finding::B16,
        found,
    );
    add_if(
        frame.has_segments && !is_segment(frame.is_bit_string, header),
        Finding::B17,
        found,
    );
}

/// Adds the rest of what violates the rules of all encodings, if it is in the scope.
#[inline(always)]
fn add_later_basic_findings(
    scope: Scope,
    frame: &HolderFrame,
    header: &Header,
    found: &mut ArrayVec<Finding, 17>,
)
    requires { length found.old.items ≤ 7 }
    ensures items { found.new.items
        ≡ found.old.items ++ findings_by (later_basic_conditions_in scope (surroundings_in frame.now) header.now) }
    ensures short { length found.new.items ≤ 9 }
{
    if matches!(scope, Scope::All) {
        add_if(
            header.constructed && is_time_or_iri(header),
            Finding::B22,
            found,
        );
        add_if(
            frame.has_components && !is_component(frame.is_external, header),
            Finding::B30,
            found,
        );
    }
}

/// Adds a length that is not the shortest.
#[inline(always)]
fn add_length_findings(header: &Header, found: &mut ArrayVec<Finding, 17>)
    requires { length found.old.items ≤ 9 }
    ensures items { found.new.items
        ≡ found.old.items ++ findings_by (length_conditions header.now) }
    ensures short { length found.new.items ≤ 10 }
{
    add_if(is_length_padded(header), Finding::S01, found);
}

/// Adds what violates the rules of DER alone.
#[inline(always)]
fn add_der_findings(header: &Header, found: &mut ArrayVec<Finding, 17>)
    requires { length found.old.items ≤ 10 }
    ensures { found.new.items ≡ found.old.items ++ findings_by (der_conditions header.now) }
{
    add_if(is_indefinite(header), Finding::D01, found);
    add_if(has_segments(header), Finding::D02, found);
}

/// Adds what violates the rules of CER alone.
#[inline(always)]
fn add_cer_findings(frame: &HolderFrame, header: &Header, found: &mut ArrayVec<Finding, 17>)
    requires { length found.old.items ≤ 10 }
    ensures { found.new.items
        ≡ found.old.items ++ findings_by (cer_conditions_in (surroundings_in frame.now) header.now) }
{
    add_if(
        header.constructed && !is_indefinite(header),
        Finding::C01,
        found,
    );
    add_if(
        !header.constructed && is_string(header) && announced_length(header) > 1000,
        Finding::C02,
        found,
    );
    add_if(
        header.constructed && frame.has_segments,
        Finding::C03,
        found,
    );
    add_if(
        frame.has_segments && frame.last_is_not_full,
        Finding::C04,
        found,
    );
}
