//! What all octets of an input show of a program that took them for a text, though it cannot be undone.
ghost use Rattle.std.specs.List.{list_all};
ghost use Rattle.std.specs.Prelude.{◌≡◌, ◌≤◌, IfSome, count_by, eqb, length, nat_le};
ghost use Rattle.tlv_head.specs.Limits.{input_limit};
ghost use Rattle.tlv_reasons.specs.Traces.{are_characters, are_ends_paired, are_few_lines, are_nearly_half, are_seven_bits};
ghost use Rattle.tlv_reasons.specs.Traces.{are_some_high, begins_cleared, is_second_beyond};
ghost use Rattle.tlv_reasons.specs.Traces.{beyond_ascii, bits_trace, counted_zero, following_count, half_trace, line_end_trace, line_feed_count};
ghost use Rattle.tlv_reasons.specs.Traces.{question_marks, seven_bit_trace, trace_of, utf8_trace, wanted_after, zeros_at};

use crate::facts_call::octet_at;

/// What shows that an input was taken for a text.
#[derive(Clone, Copy, PartialEq, Eq, Debug)]
pub enum Trace {
    /// It is UTF-8 throughout, with so many characters beyond ASCII.
    AsUtf8(u64),
    /// Each octet `0a` stands behind `0d`; there are so many.
    LineEnds(u64),
    /// None of its octets, of which there are so many, is above `7f`.
    SevenBits(u64),
    /// None is above `7f`, and so many are `3f`, the character `?`.
    QuestionMarks(u64),
    /// Nearly every second of its octets is `00`.
    HalfZeros,
}

/// What the octets show of a program that took them for a text, if they show anything: the first of these that holds.
/// They are UTF-8 (RFC 3629) by the numbers of octets of the characters, the last of which may be cut off, with 8 or more
/// characters beyond ASCII, one of them the second; they have 3 or more octets `0a`, each behind `0d`, and at most one in
/// a hundred; of 200 octets or more, 9 of 20 or more are
/// `00` at every second place, and one of sixteen is above `7f`; of 128 octets or more, none is above `7f`, and a tenth
/// are `?` or the first header looks as if the highest bits were cleared.
pub fn trace_of(octets: &[u8]) -> Option<Trace>
    requires { length octets.now ≤ input_limit }
    ensures { result ≡ trace_of octets.now }
{
    if let Some(trace) = utf8_trace(octets) {
        return Some(trace);
    }
    if let Some(trace) = line_end_trace(octets) {
        return Some(trace);
    }
    if let Some(trace) = half_trace(octets) {
        return Some(trace);
    }
    seven_bit_trace(octets)
}

/// That they are UTF-8, with enough characters beyond ASCII.
fn utf8_trace(octets: &[u8]) -> Option<Trace>
    ensures { result ≡ utf8_trace octets.now }
{
    if is_second_beyond(octets) && are_characters(octets) && beyond_ascii(octets) >= 8 {
        Some(Trace::AsUtf8(beyond_ascii(octets)))
    } else {
        None
    }
}

/// Whether the second octet begins a character beyond ASCII.
fn is_second_beyond(octets: &[u8]) -> bool
    ensures { result ≡ is_second_beyond octets.now }
{
    octet_at(octets, 1) > 0xbf
}

/// Whether the octets are characters of UTF-8 by their numbers of octets. The last may be cut off.
fn are_characters(octets: &[u8]) -> bool
    ensures { result ≡ are_characters 0 octets.now }
{
    let mut wanted = 0;
    for octet in octets {
        let Some(next) = wanted_after(wanted, *octet) else {
            return false;
        };
        wanted = next;
    }
    true
}

/// The number of octets that a character wants after this one, in front of which it wanted so many. `None` if this octet
/// cannot stand here.
fn wanted_after(wanted: u8, octet: u8) -> Option<u8>
    ensures { result ≡ wanted_after wanted octet }
{
    if wanted == 0 {
        following_count(octet)
    } else if 0x80 <= octet && octet <= 0xbf {
        Some(wanted - 1)
    } else {
        None
    }
}

/// The number of octets that follow this one, which is the first of a character.
fn following_count(octet: u8) -> Option<u8>
    ensures { result ≡ following_count octet }
{
    if octet < 0x80 {
        Some(0)
    } else if octet < 0xc2 {
        None
    } else if octet < 0xe0 {
        Some(1)
    } else if octet < 0xf0 {
        Some(2)
    } else if octet < 0xf5 {
        Some(3)
    } else {
        None
    }
}

/// The number of characters beyond ASCII.
fn beyond_ascii(octets: &[u8]) -> u64
    ensures { result ≡ beyond_ascii octets.now }
{
    let mut count = 0;
    for octet in octets {
        if *octet > 0xbf {
            count += 1;
        }
    }
    count
}

/// That each of enough octets `0a` stands behind `0d`.
fn line_end_trace(octets: &[u8]) -> Option<Trace>
    requires { length octets.now ≤ input_limit }
    ensures { result ≡ line_end_trace octets.now }
{
    if are_ends_paired(octets) && are_few_lines(octets.len() as u64, count_of(b'\n', octets)) {
        Some(Trace::LineEnds(count_of(b'\n', octets)))
    } else {
        None
    }
}

/// Whether so many octets `0a` in so many octets are three or more, but not more than one in a hundred.
fn are_few_lines(size: u64, count: u64) -> bool
    requires { count ≤ input_limit }
    ensures { result ≡ are_few_lines size count }
{
    count >= 3 && 100 * count <= size
}

/// Whether each octet `0a` stands behind `0d`.
fn are_ends_paired(octets: &[u8]) -> bool
    ensures { result ≡ are_ends_paired 0 octets.now }
{
    let mut before = 0;
    for octet in octets {
        if before != b'\r' && *octet == b'\n' {
            return false;
        }
        before = *octet;
    }
    true
}

/// The number of these octets that are this one.
fn count_of(wanted: u8, octets: &[u8]) -> u64
    ensures count { result ≡ count_by (λ x. eqb x wanted) octets.now }
    ensures within { result ≤ length octets.now }
{
    let mut count = 0;
    for octet in octets {
        if *octet == wanted {
            count += 1;
        }
    }
    count
}

/// That nearly every second of enough octets is `00`.
fn half_trace(octets: &[u8]) -> Option<Trace>
    requires { length octets.now ≤ input_limit }
    ensures { result ≡ half_trace octets.now }
{
    if octets.len() >= 200
        && are_some_high(octets)
        && (has_nearly_half(octets, true) || has_nearly_half(octets, false))
    {
        Some(Trace::HalfZeros)
    } else {
        None
    }
}

/// Whether one octet of sixteen, or more, is above `7f`.
fn are_some_high(octets: &[u8]) -> bool
    requires { length octets.now ≤ input_limit }
    ensures { result ≡ are_some_high octets.now }
{
    octets.len() as u64 <= 16 * high_count(octets)
}

/// The number of octets above `7f`.
fn high_count(octets: &[u8]) -> u64
    ensures count { result ≡ count_by (λ x. nat_le 0x80 x) octets.now }
    ensures within { result ≤ length octets.now }
{
    let mut count = 0;
    for octet in octets {
        if *octet >= 0x80 {
            count += 1;
        }
    }
    count
}

/// Whether nine of twenty octets or more are `00` at the first, third, and so on, or at the others.
fn has_nearly_half(octets: &[u8], is_here: bool) -> bool
    requires { length octets.now ≤ input_limit }
    ensures { result ≡ are_nearly_half (length octets.now) (zeros_at is_here octets.now) }
{
    9 * octets.len() as u64 <= 20 * zeros_at(octets, is_here)
}

/// The number of octets `00` at the first place, the third, and so on, or at the others.
fn zeros_at(octets: &[u8], is_here: bool) -> u64
    ensures count { result ≡ zeros_at is_here octets.now }
    ensures within { result ≤ length octets.now }
{
    let mut count = 0;
    let mut is_counted = is_here;
    for octet in octets {
        count += counted_zero(is_counted, *octet);
        is_counted = !is_counted;
    }
    count
}

/// 1 if an octet `00` is at one of these places; else 0.
fn counted_zero(is_here: bool, octet: u8) -> u64
    ensures counted { result ≡ counted_zero is_here octet }
    ensures within { result ≤ 1 }
{
    if is_here && octet == 0 { 1 } else { 0 }
}

/// That none of enough octets is above `7f`.
fn seven_bit_trace(octets: &[u8]) -> Option<Trace>
    requires { length octets.now ≤ input_limit }
    ensures { result ≡ seven_bit_trace octets.now }
{
    if octets.len() >= 128 && are_seven_bits(octets) {
        bits_trace(
            octets.len() as u64,
            count_of(b'?', octets),
            begins_cleared(octets),
        )
    } else {
        None
    }
}

/// Whether none of the octets is above `7f`.
fn are_seven_bits(octets: &[u8]) -> bool
    ensures { result ≡ are_seven_bits octets.now }
{
    for octet in octets {
        if *octet >= 0x80 {
            return false;
        }
    }
    true
}

/// Whether the first element is constructed and says 1 or 2, as a length that began with `81` or `82` does if the highest
/// bit is cleared.
fn begins_cleared(octets: &[u8]) -> bool
    ensures { result ≡ begins_cleared octets.now }
{
    octet_at(octets, 0) / 32 % 2 == 1 && (octet_at(octets, 1) == 1 || octet_at(octets, 1) == 2)
}

/// The trace of so many octets of seven bits, of which so many are question marks, if a tenth of them are, or the first
/// header looks as if the highest bits were cleared.
fn bits_trace(size: u64, marks: u64, is_cleared: bool) -> Option<Trace>
    requires { marks ≤ input_limit }
    ensures { result ≡ bits_trace size marks is_cleared }
{
    if size <= 10 * marks {
        Some(Trace::QuestionMarks(marks))
    } else if is_cleared {
        Some(Trace::SevenBits(size))
    } else {
        None
    }
}
