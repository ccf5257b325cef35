//! What is kept of the open SETs, if their order is wanted.
#![tactic(auto, unfolding(crate::specs::Private::Suits::Suits))]

ghost use Rattle.std.specs.Prelude.{◌≡◌, true};
ghost use Rattle.tlv_head.specs.Header.{octets_of};
ghost use Rattle.tlv_show.specs.Private.SetOrder.{IsUnchangedByPrimitives};
ghost use Rattle.tlv_show.specs.FinderState.{end_octets_if, is_order_found, order_if};
ghost use Rattle.tlv_show.specs.SetOrderState.{set_order_begin_step, set_order_close_step, set_order_end_step};
ghost use Rattle.tlv_show.specs.SetOrderState.{set_order_octets_step, set_order_open_step};
ghost use Rattle.tlv_show.specs.Private.Suits.{Suits};
ghost use Rattle.tlv_show.specs.ShownFindings.{wants_order};

use crate::set_order::SetOrder;
use crate::{Rules, Scope, Wanted};
use tlv_head::Header;

/// Whether elements of a SET that are out of order are to be found.
#[inline(always)]
pub(crate) fn wants_order(wanted: Wanted) -> bool
    ensures { result ≡ wants_order wanted }
{
    matches!(wanted.scope, Scope::All) && !matches!(wanted.rules, Rules::Ber)
}

/// Whether primitives that are whole change nothing.
#[inline(always)]
pub(crate) fn passes_in_order<const TRACKED: usize>(
    order: &SetOrder<TRACKED>,
    wanted: Wanted,
) -> bool
    requires suits { Suits TRACKED wanted }
    ensures { result ≡ true → wants_order wanted ≡ true → IsUnchangedByPrimitives order.now }
{
    if TRACKED == 128 && wants_order(wanted) {
        order.passes_primitives()
    } else {
        true
    }
}

/// A primitive begins.
#[inline(always)]
pub(crate) fn begin_in_order<const TRACKED: usize>(
    order: &mut SetOrder<TRACKED>,
    wanted: Wanted,
    header: &Header,
    octets: &[u8],
)
    requires suits { Suits TRACKED wanted }
    requires raw { octets.now ≡ octets_of header.now }
    ensures { order.new
        ≡ order_if wanted (set_order_begin_step wanted.rules order.old header.now) order.old }
{
    if TRACKED == 128 && wants_order(wanted) {
        order.begin(wanted.rules, header, octets);
    }
}

/// An element that holds others begins.
#[inline(always)]
pub(crate) fn open_in_order<const TRACKED: usize>(
    order: &mut SetOrder<TRACKED>,
    wanted: Wanted,
    header: &Header,
    octets: &[u8],
)
    requires suits { Suits TRACKED wanted }
    requires raw { octets.now ≡ octets_of header.now }
    ensures { order.new
        ≡ order_if wanted (set_order_open_step wanted.rules order.old header.now) order.old }
{
    if TRACKED == 128 && wants_order(wanted) {
        order.open(wanted.rules, header, octets);
    }
}

/// Contents of a primitive go on.
#[inline(always)]
pub(crate) fn bytes_in_order<const TRACKED: usize>(
    order: &mut SetOrder<TRACKED>,
    wanted: Wanted,
    octets: &[u8],
)
    requires suits { Suits TRACKED wanted }
    ensures { order.new ≡ order_if wanted (set_order_octets_step order.old octets.now) order.old }
{
    if TRACKED == 128 && wants_order(wanted) {
        order.octets(octets);
    }
}

/// A primitive ends. Returns whether it is out of order.
#[inline(always)]
pub(crate) fn end_in_order<const TRACKED: usize>(
    order: &mut SetOrder<TRACKED>,
    wanted: Wanted,
) -> bool
    requires suits { Suits TRACKED wanted }
    ensures state { order.new ≡ order_if wanted (set_order_end_step order.old) order.old }
    ensures found { result ≡ is_order_found wanted order.new }
{
    if TRACKED == 128 && wants_order(wanted) {
        order.end()
    } else {
        false
    }
}

/// An element that holds others ends, with end-of-contents octets or without them. Returns whether it is out of order.
#[inline(always)]
pub(crate) fn close_in_order<const TRACKED: usize>(
    order: &mut SetOrder<TRACKED>,
    wanted: Wanted,
    has_end_octets: bool,
) -> bool
    requires suits { Suits TRACKED wanted }
    ensures state { order.new
        ≡ order_if wanted (set_order_close_step order.old (end_octets_if has_end_octets)) order.old }
    ensures found { result ≡ is_order_found wanted order.new }
{
    if TRACKED == 128 && wants_order(wanted) {
        order.close(if has_end_octets { b"\0\0" } else { b"" })
    } else {
        false
    }
}
