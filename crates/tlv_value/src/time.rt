//! Times as texts: UTCTime and GeneralizedTime (X.680 46 and 47), and their canonical forms (11.7, 11.8).
//!
//! `after_..` returns the octets after a part with which the octets begin, or none if they do not begin with it.
//! `is_..` returns whether the octets are such parts, and no more.
ghost use Rattle.std.specs.Prelude.{◌≡◌, option_copied};
ghost use Rattle.tlv_value.specs.Private.TimeParts.{canonical_second, generalized_hour, generalized_tail};
ghost use Rattle.tlv_value.specs.Private.TimeParts.{LeavesRest, utc_minute};
ghost use Rattle.tlv_value.specs.Times.{canonical_generalized_time_form, canonical_utc_time_form};
ghost use Rattle.tlv_value.specs.Times.{digits, fraction, generalized_time_form};
ghost use Rattle.tlv_value.specs.Times.{generalized_zone, hour, mark, maybe, minute, month_and_day};
ghost use Rattle.tlv_value.specs.Times.{octet_between, second, sign, two_digits, utc_time_form, utc_zone};
ghost use Rattle.tlv_value.specs.Times.{◌followed_by◌};

/// Whether the octets follow the grammar of UTCTime: `YYMMDDhhmm`, `ss` or nothing, and `Z`, `+hhmm` or `-hhmm`.
#[inline(never)]
pub fn utc_ok(contents: &[u8]) -> bool
    ensures { result ≡ utc_time_form contents.now }
{
    let Some(rest) = after_utc_minute(contents) else {
        return false;
    };
    match after_two_digits(rest, 0, 60) {
        Some(after) => is_utc_zone(after) || is_utc_zone(rest),
        None => is_utc_zone(rest),
    }
}

/// Whether the octets are a canonical UTCTime (11.8): `YYMMDDhhmmssZ`, with an hour of at most 23.
pub fn utc_canonical(contents: &[u8]) -> bool
    ensures { result ≡ canonical_utc_time_form contents.now }
{
    match after_canonical_second(contents) {
        Some(rest) => is_zulu(rest),
        None => false,
    }
}

/// Whether the octets follow the grammar of GeneralizedTime: `YYYYMMDDhh`, `mm`, `mmss` or nothing, a fraction of one
/// or more digits after `.` or `,` or nothing, and `Z`, `+hh`, `-hh`, `+hhmm`, `-hhmm` or nothing.
#[inline(never)]
pub fn general_ok(contents: &[u8]) -> bool
    ensures { result ≡ generalized_time_form contents.now }
{
    let Some(rest) = after_generalized_hour(contents) else {
        return false;
    };
    match after_two_digits(rest, 0, 59) {
        Some(after) => is_second_and_tail(after) || is_generalized_tail(rest),
        None => is_generalized_tail(rest),
    }
}

/// Whether the octets are a canonical GeneralizedTime (11.7): `YYYYMMDDhhmmssZ`, with an hour of at most 23. Before
/// the `Z` there may be `.` and digits; the last digit is not 0.
pub fn general_canonical(contents: &[u8]) -> bool
    ensures { result ≡ canonical_generalized_time_form contents.now }
{
    let Some(rest) = after_two_digits(contents, 0, 99) else {
        return false;
    };
    let Some(rest) = after_canonical_second(rest) else {
        return false;
    };
    match after_mark(rest, b'.') {
        Some(fraction) => is_canonical_fraction_rest(fraction) || is_zulu(rest),
        None => is_zulu(rest),
    }
}

/// What is after `YYMMDDhhmm`.
fn after_utc_minute(octets: &[u8]) -> Option<&[u8]>
    ensures { LeavesRest utc_minute octets.now (option_copied result) }
{
    let rest = after_two_digits(octets, 0, 99)?;
    let rest = after_month_and_day(rest)?;
    let rest = after_two_digits(rest, 0, 24)?;
    after_two_digits(rest, 0, 59)
}

/// What is after `YYYYMMDDhh`.
fn after_generalized_hour(octets: &[u8]) -> Option<&[u8]>
    ensures { LeavesRest generalized_hour octets.now (option_copied result) }
{
    let rest = after_two_digits(octets, 0, 99)?;
    let rest = after_two_digits(rest, 0, 99)?;
    let rest = after_month_and_day(rest)?;
    after_two_digits(rest, 0, 24)
}

/// What is after `YYMMDDhhmmss`, with an hour of at most 23.
fn after_canonical_second(octets: &[u8]) -> Option<&[u8]>
    ensures { LeavesRest canonical_second octets.now (option_copied result) }
{
    let rest = after_two_digits(octets, 0, 99)?;
    let rest = after_month_and_day(rest)?;
    let rest = after_two_digits(rest, 0, 23)?;
    let rest = after_two_digits(rest, 0, 59)?;
    after_two_digits(rest, 0, 60)
}

/// What is after `MMDD`.
pub(crate) fn after_month_and_day(octets: &[u8]) -> Option<&[u8]>
    ensures { LeavesRest month_and_day octets.now (option_copied result) }
{
    let rest = after_two_digits(octets, 1, 12)?;
    after_two_digits(rest, 1, 31)
}

/// `Z`, `+hhmm` or `-hhmm`, and no more.
fn is_utc_zone(octets: &[u8]) -> bool
    ensures { result ≡ utc_zone octets.now }
{
    is_zulu(octets) || is_utc_difference(octets)
}

/// `+hhmm` or `-hhmm`, and no more.
fn is_utc_difference(octets: &[u8]) -> bool
    ensures { result ≡ (sign followed_by hour followed_by minute) octets.now }
{
    match after_difference(octets) {
        Some(rest) => is_minute(rest),
        None => false,
    }
}

/// `ss` or nothing, a fraction or nothing, and a zone or nothing.
fn is_second_and_tail(octets: &[u8]) -> bool
    ensures { result ≡ (maybe second followed_by generalized_tail) octets.now }
{
    match after_two_digits(octets, 0, 60) {
        Some(after) => is_generalized_tail(after) || is_generalized_tail(octets),
        None => is_generalized_tail(octets),
    }
}

/// A fraction or nothing, and a zone or nothing.
fn is_generalized_tail(octets: &[u8]) -> bool
    ensures { result ≡ generalized_tail octets.now }
{
    is_fraction_and_zone(octets) || is_generalized_zone_or_nothing(octets)
}

/// A fraction, and a zone or nothing.
fn is_fraction_and_zone(octets: &[u8]) -> bool
    ensures { result ≡ (fraction followed_by maybe generalized_zone) octets.now }
{
    let [b'.' | b',', b'0'..=b'9', rest @ ..] = octets else {
        return false;
    };
    let mut rest = rest;
    while let [b'0'..=b'9', more @ ..] = rest {
        rest = more;
    }
    is_generalized_zone_or_nothing(rest)
}

/// `Z`, `+hh`, `-hh`, `+hhmm`, `-hhmm` or nothing, and no more.
fn is_generalized_zone_or_nothing(octets: &[u8]) -> bool
    ensures { result ≡ (maybe generalized_zone) octets.now }
{
    octets.is_empty() || is_zulu(octets) || is_generalized_difference(octets)
}

/// `+hh`, `-hh`, `+hhmm` or `-hhmm`, and no more.
fn is_generalized_difference(octets: &[u8]) -> bool
    ensures { result ≡ (sign followed_by hour followed_by maybe minute) octets.now }
{
    match after_difference(octets) {
        Some(rest) => rest.is_empty() || is_minute(rest),
        None => false,
    }
}

/// Digits, the last of which is not 0, and `Z`, and no more.
fn is_canonical_fraction_rest(octets: &[u8]) -> bool
    ensures { result ≡ ((digits followed_by octet_between 0x31 0x39) followed_by mark 0x5a) octets.now }
{
    let mut rest = octets;
    while let [b'0'..=b'9', more @ ..] = rest {
        if matches!(rest, [b'1'..=b'9', b'Z']) {
            return true;
        }
        rest = more;
    }
    false
}

/// `mm`, and no more.
fn is_minute(octets: &[u8]) -> bool
    ensures { result ≡ minute octets.now }
{
    match after_two_digits(octets, 0, 59) {
        Some(rest) => rest.is_empty(),
        None => false,
    }
}

/// `Z`, and no more.
fn is_zulu(octets: &[u8]) -> bool
    ensures { result ≡ (mark 0x5a) octets.now }
{
    matches!(octets, [b'Z'])
}

/// What is after `+hh` or `-hh`.
fn after_difference(octets: &[u8]) -> Option<&[u8]>
    ensures { LeavesRest (sign followed_by hour) octets.now (option_copied result) }
{
    match octets {
        [b'+' | b'-', rest @ ..] => after_two_digits(rest, 0, 24),
        _ => None,
    }
}

/// What is after this octet.
fn after_mark(octets: &[u8], octet: u8) -> Option<&[u8]>
    ensures { LeavesRest (mark octet) octets.now (option_copied result) }
{
    match octets {
        [first, rest @ ..] if *first == octet => Some(rest),
        _ => None,
    }
}

/// What is after two digits of a number from `low` to `high`.
#[inline(always)]
pub(crate) fn after_two_digits(octets: &[u8], low: u8, high: u8) -> Option<&[u8]>
    ensures { LeavesRest (two_digits low high) octets.now (option_copied result) }
{
    let [tens @ b'0'..=b'9', ones @ b'0'..=b'9', rest @ ..] = octets else {
        return None;
    };
    let number = 10 * (tens - b'0') + (ones - b'0');
    if number < low || number > high {
        return None;
    }
    Some(rest)
}
