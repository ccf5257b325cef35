//! Object identifiers as dotted texts.
ghost use Rattle.std.specs.Prelude.{◌≡◌, ◌≤◌, ◌++◌, ◌∷◌, [], if◌then◌else◌, is_some, length, true, unwrap_or};
ghost use Rattle.tlv_io.specs.LineTexts.{AddsAtMost, HasRoomFor};
ghost use Rattle.tlv_value.specs.Arcs.{dotted_of, first_arcs, is_finished};
ghost use Rattle.tlv_value.specs.Private.Arcs.{arcs_text, dotted_arcs};

use arrayvec::ArrayVec;
use tlv_io::HeldOctets;

/// Writes to `to` the arcs of an object identifier (8.19), or of a relative one (8.20), in decimal with dots between
/// them. Replaces what `to` held before.
///
/// Returns whether there is such a text. If the contents are empty, end inside a subidentifier, have more than 64
/// octets, or have a subidentifier of 2^128 or more, there is none, and `to` is left empty.
pub fn dotted_of(contents: &[u8], relative: bool, to: &mut ArrayVec<u8, 320>) -> bool
    ensures exists { result ≡ is_some (dotted_of relative contents.now) }
    ensures text { to.new.items ≡ unwrap_or (dotted_of relative contents.now) [] }
{
    to.clear();
    let mut held = HeldOctets::new();
    if contents.len() > 64 || !write_dotted(&mut held, contents, relative) {
        return false;
    }
    let _ = to.try_extend_from_slice(&held.as_slice()[1..]);
    true
}

/// Adds the dotted text of an object identifier, or of a relative one, after a space. Returns whether there is such a
/// text; adds nothing if there is none.
pub(crate) fn write_dotted(held: &mut HeldOctets, contents: &[u8], relative: bool) -> bool
    requires short { length contents.now ≤ 64 }
    requires room { HasRoomFor held.old 320 }
    ensures exists { result ≡ is_some (dotted_of relative contents.now) }
    ensures adds { AddsAtMost 259 held.old held.new
        (if result then 32 ∷ unwrap_or (dotted_of relative contents.now) [] else []) }
{
    if !is_finished(contents) {
        return false;
    }
    if contents.len() <= 9 {
        write_short(held, contents, relative);
        return true;
    }
    let start = held.len();
    held.add(b" ");
    let mut first = true;
    let mut number: u128 = 0;
    for octet in contents {
        if number >= 1 << 121 {
            held.truncate(start);
            return false;
        }
        number = number * 128 + u128::from(*octet % 128);
        if *octet < 128 {
            write_arcs(held, number, first, relative);
            first = false;
            number = 0;
        }
    }
    true
}

/// Adds the dotted text of at most nine octets, after a space. The subidentifiers fit into 64 bits, which saves work
/// at each octet.
#[inline(always)]
fn write_short(held: &mut HeldOctets, contents: &[u8], relative: bool)
    requires finished { is_finished contents.now ≡ true }
    requires short { length contents.now ≤ 9 }
    requires room { HasRoomFor held.old 320 }
    ensures exists { is_some (dotted_of relative contents.now) ≡ true }
    ensures adds { AddsAtMost 259 held.old held.new
        (32 ∷ unwrap_or (dotted_of relative contents.now) []) }
{
    held.add(b" ");
    let mut first = true;
    let mut number: u64 = 0;
    for octet in contents {
        number = number * 128 + u64::from(*octet % 128);
        if *octet < 128 {
            write_arcs(held, u128::from(number), first, relative);
            first = false;
            number = 0;
        }
    }
}

/// Whether the octets end with a whole subidentifier.
fn is_finished(contents: &[u8]) -> bool
    ensures { result ≡ is_finished contents.now }
{
    matches!(contents.last(), Some(octet) if *octet < 128)
}

/// Adds the arc or arcs that a subidentifier stands for, after a dot if they are not the first.
#[inline(always)]
fn write_arcs(held: &mut HeldOctets, number: u128, first: bool, relative: bool)
    requires { HasRoomFor held.old 42 }
    ensures { held.new ≡ held.old ++ arcs_text first relative number }
{
    if !first {
        held.add(b".");
        held.wide_number(number);
    } else if relative {
        held.wide_number(number);
    } else {
        write_first_arcs(held, number);
    }
}

/// Adds the two arcs that the first subidentifier stands for.
#[inline(always)]
fn write_first_arcs(held: &mut HeldOctets, number: u128)
    requires { HasRoomFor held.old 42 }
    ensures { held.new ≡ held.old ++ dotted_arcs (first_arcs number) }
{
    if number < 40 {
        held.add(b"0.");
        held.wide_number(number);
    } else if number < 80 {
        held.add(b"1.");
        held.wide_number(number - 40);
    } else {
        held.add(b"2.");
        held.wide_number(number - 80);
    }
}
