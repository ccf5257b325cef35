//! The open elements, selected by their lengths.
ghost use Rattle.std.specs.Prelude.{◌≡◌, None};
ghost use Rattle.tlv_reasons.specs.OpenHolders.{element_end, has_end, indefinite_count, innermost_definite};
ghost use Rattle.tlv_reasons.specs.OpenHolders.{innermost_holder, outermost_definite};

use crate::{Element, Facts};

/// The innermost open element.
pub(crate) fn innermost_holder(facts: &Facts) -> Option<Element>
    ensures { result ≡ innermost_holder facts.now }
{
    facts.holders.as_slice().last().copied()
}

/// Whether the length is definite.
pub(crate) fn has_end(element: &Element) -> bool
    ensures { result ≡ has_end element.now }
{
    element.end.is_some()
}

/// Where the contents end; 0 if the length is indefinite.
pub(crate) fn element_end(element: &Element) -> u64
    ensures { result ≡ element_end element.now }
{
    element.end.unwrap_or(0)
}

/// The outermost of these elements that has a definite length.
pub(crate) fn outermost_definite(holders: &[Element]) -> Option<Element>
    ensures { result ≡ outermost_definite holders.now }
{
    for element in holders {
        if has_end(element) {
            return Some(*element);
        }
    }
    None
}

/// The innermost of these elements that has a definite length.
pub(crate) fn innermost_definite(holders: &[Element]) -> Option<Element>
    ensures { result ≡ innermost_definite None holders.now }
{
    let mut found = None;
    for element in holders {
        if has_end(element) {
            found = Some(*element);
        }
    }
    found
}

/// The number of these elements that have the indefinite length.
pub(crate) fn indefinite_count(holders: &[Element]) -> u64
    ensures { result ≡ indefinite_count holders.now }
{
    let mut count = 0;
    for element in holders {
        if !has_end(element) {
            count += 1;
        }
    }
    count
}
