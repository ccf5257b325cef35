//! The findings on contents, and all those at the end of a primitive.
ghost use Rattle.std.specs.Prelude.{◌≡◌, ◌≤◌, [], length};
ghost use Rattle.tlv_show.specs.FinderState.{contents_findings_in};
ghost use Rattle.tlv_show.specs.ListedFindings.{rules_have};
ghost use Rattle.tlv_show.specs.ShownFindings.{is_shown, with_order_if};

use crate::order_finding::insert_order_finding;
use crate::{Rules, Scope, Wanted};
use arrayvec::ArrayVec;
use tlv_value::{Finding, ValueCheck};

/// Adds the findings at the end of a primitive: those on its contents, if all of them have come, and that it is out of
/// order.
#[inline(always)]
pub(crate) fn add_findings_at_end(
    wanted: Wanted,
    check: &ValueCheck,
    is_out_of_order: bool,
    found: &mut ArrayVec<Finding, 17>,
)
    requires { found.old.items ≡ [] }
    ensures { found.new.items
        ≡ with_order_if is_out_of_order (contents_findings_in wanted check.now) }
{
    if check.left() == 0 {
        add_contents_findings(wanted, check, found);
    }
    if is_out_of_order {
        insert_order_finding(found);
    }
}

/// Adds the findings on the contents of a primitive, after all its contents octets.
#[inline(never)]
pub(crate) fn add_contents_findings(
    wanted: Wanted,
    check: &ValueCheck,
    found: &mut ArrayVec<Finding, 17>,
)
    requires left { check.now.left ≡ 0 }
    requires none { found.old.items ≡ [] }
    ensures found { found.new.items ≡ contents_findings_in wanted check.now }
    ensures short { length found.new.items ≤ 16 }
{
    for finding in check.end_with_all().as_slice() {
        if is_shown(wanted, *finding) {
            found.push(*finding);
        }
    }
}

/// Whether the finding is wanted.
fn is_shown(wanted: Wanted, finding: Finding) -> bool
    ensures { result ≡ is_shown wanted finding }
{
    rules_have(wanted.rules, finding)
        && match wanted.scope {
            Scope::Listed => finding.is_listed(),
            Scope::All => true,
        }
}

/// Whether the rules have the finding, by the letter of its code.
fn rules_have(rules: Rules, finding: Finding) -> bool
    ensures { result ≡ rules_have rules finding }
{
    match finding.code() {
        [letter, ..] => match rules {
            Rules::Ber => *letter == b'B',
            Rules::Der => matches!(*letter, b'B' | b'S' | b'D'),
            Rules::Cer => matches!(*letter, b'B' | b'S' | b'C'),
        },
        [] => false,
    }
}
