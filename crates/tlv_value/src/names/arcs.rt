//! Whether a text is an object identifier in dotted form.
ghost use Rattle.std.specs.Prelude.{◌≡◌, nat_le, true};
ghost use Rattle.std.specs.Char.{is_ascii_digit};
ghost use Rattle.std.specs.List.{list_all};
ghost use Rattle.std.specs.Str.Parse.{digits_value};
ghost use Rattle.tlv_value.specs.Names.{are_first_arcs, dotted_parts, is_arc, is_dotted, may_begin};

use super::names_line::{end_before, rest_after};

/// Whether the text is two or more arcs with dots between them. The first arc is 0, 1 or 2; if it is 0 or 1, the
/// second is at most 39 (ITU-T X.660). Arcs are decimals of any size without a leading zero.
pub(super) fn is_dotted(text: &[u8]) -> bool
    ensures { result ≡ is_dotted text.now }
{
    are_arcs(text) && are_first_arcs(text)
}

/// Whether each part between dots is an arc.
fn are_arcs(text: &[u8]) -> bool
    ensures { result ≡ list_all is_arc (dotted_parts text.now) }
{
    let mut rest = text;
    loop {
        let end = end_before(rest, b'.');
        if !is_arc(&rest[..end]) {
            return false;
        }
        if end == rest.len() {
            return true;
        }
        rest = rest_after(rest, end);
    }
}

/// Whether the part is digits without a leading zero.
fn is_arc(part: &[u8]) -> bool
    ensures { result ≡ is_arc part.now }
{
    match part.len() {
        0 => false,
        1 => are_digits(part),
        _ => part[0] != b'0' && are_digits(part),
    }
}

fn are_digits(part: &[u8]) -> bool
    ensures { result ≡ list_all is_ascii_digit part.now }
{
    for octet in part {
        if *octet < b'0' || *octet > b'9' {
            return false;
        }
    }
    true
}

/// Whether there are at least two arcs, and an object identifier may begin with the first two.
fn are_first_arcs(text: &[u8]) -> bool
    requires { list_all is_arc (dotted_parts text.now) ≡ true }
    ensures { result ≡ are_first_arcs (dotted_parts text.now) }
{
    let end = end_before(text, b'.');
    if end == text.len() {
        return false;
    }
    let rest = rest_after(text, end);
    may_begin(&text[..end], &rest[..end_before(rest, b'.')])
}

/// Whether an object identifier may begin with these arcs.
fn may_begin(first: &[u8], second: &[u8]) -> bool
    requires first { is_arc first.now ≡ true }
    requires second { is_arc second.now ≡ true }
    ensures { result ≡ may_begin first.now second.now }
{
    if first.len() > 1 || first[0] > b'2' {
        return false;
    }
    first[0] == b'2' || is_below_forty(second)
}

fn is_below_forty(arc: &[u8]) -> bool
    requires { is_arc arc.now ≡ true }
    ensures { result ≡ nat_le (digits_value 10 arc.now) 39 }
{
    match arc.len() {
        1 => true,
        2 => arc[0] <= b'3',
        _ => false,
    }
}
