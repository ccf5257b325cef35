//! The finding on the order of a SET, among others.
ghost use Rattle.std.specs.Prelude.{true, ◌≡◌, ◌<◌, ◌≤◌, length};
ghost use Rattle.tlv_value.specs.declared.finding.Finding.TheVariants.{S05};
ghost use Rattle.tlv_show.specs.Private.SetOrder.{inserted};
ghost use Rattle.tlv_show.specs.ShownFindings.{comes_after_order, with_characters_if, with_order};

use arrayvec::ArrayVec;
use tlv_value::Finding;

/// Adds the finding that an element of a SET is out of order to its other findings, in the order of the codes.
#[inline(never)]
pub(crate) fn insert_order_finding(found: &mut ArrayVec<Finding, 17>)
    requires { length found.old.items < 17 }
    ensures { found.new.items ≡ with_order found.old.items }
{
    let at = order_index(found.as_slice());
    found.insert(at, Finding::S05);
}

/// Adds the finding that a segment of a string has wrong characters to the other findings of the string's end: it comes
/// first.
pub(crate) fn insert_character_finding(found: &mut ArrayVec<Finding, 17>)
    requires { length found.old.items < 17 }
    ensures { found.new.items ≡ with_characters_if true found.old.items }
{
    found.insert(0, Finding::B28);
}

/// Where it is among these findings.
fn order_index(findings: &[Finding]) -> usize
    ensures within { result ≤ length findings.now }
    ensures placed { inserted findings.now result S05 ≡ with_order findings.now }
{
    for (i, finding) in findings.iter().enumerate() {
        if comes_after_order(*finding) {
            return i;
        }
    }
    findings.len()
}

/// Whether the code comes after S05.
fn comes_after_order(finding: Finding) -> bool
    ensures { result ≡ comes_after_order finding }
{
    matches!(
        finding,
        Finding::S06
            | Finding::D01
            | Finding::D02
            | Finding::C01
            | Finding::C02
            | Finding::C03
            | Finding::C04
            | Finding::C05
            | Finding::C06
    )
}
