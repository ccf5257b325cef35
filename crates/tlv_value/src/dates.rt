//! Dates: which days a month has, and DATE, TIME-OF-DAY and DATE-TIME (8.26).
ghost use Rattle.std.specs.Prelude.{◌≡◌, ◌<◌, option_copied};
ghost use Rattle.tlv_value.specs.Dates.{clock_form, date_form, date_time_form, has_thirty_days, is_date_or_time};
ghost use Rattle.tlv_value.specs.Dates.{is_leap_year, last_day, midnight_form, month_has_day};
ghost use Rattle.tlv_value.specs.Dates.{month_has_day_in_some_century, time_of_day_form};
ghost use Rattle.tlv_value.specs.Private.TimeParts.{LeavesRest};
ghost use Rattle.tlv_value.specs.Times.{month_and_day, two_digit_number, two_digits, ◌followed_by◌};

use crate::time::{after_month_and_day, after_two_digits};
use tlv_head::universal;

/// Whether the contents are those of a DATE, TIME-OF-DAY or DATE-TIME, the type with this number (8.26).
pub(crate) fn is_date_or_time(number: u64, contents: &[u8]) -> bool
    ensures { result ≡ is_date_or_time number contents.now }
{
    match number {
        universal::TIME_OF_DAY => is_time_of_day(contents),
        universal::DATE => is_date(contents) && month_has_day(contents),
        _ => is_date_time(contents) && month_has_day(contents),
    }
}

/// In octets that begin with `YYYYMMDD`: whether the month has the day.
#[inline(always)]
pub(crate) fn month_has_day(octets: &[u8]) -> bool
    ensures { result ≡ month_has_day octets.now }
{
    match octets {
        [a, b, c, d, e, f, g, h, ..] => {
            let day = two_digit_number(*g, *h);
            // Each month has 28 days.
            if day <= 28 {
                return true;
            }
            let year = 100 * two_digit_number(*a, *b) + two_digit_number(*c, *d);
            day <= last_day(is_leap_year(year), two_digit_number(*e, *f))
        }
        _ => false,
    }
}

/// In octets that begin with `YYMMDD`: whether the month has the day in some century.
#[inline(always)]
pub(crate) fn month_has_day_in_some_century(octets: &[u8]) -> bool
    ensures { result ≡ month_has_day_in_some_century octets.now }
{
    match octets {
        [c, d, e, f, g, h, ..] => {
            let day = two_digit_number(*g, *h);
            // Each month has 28 days.
            if day <= 28 {
                return true;
            }
            let year = two_digit_number(*c, *d);
            day <= last_day(year % 4 == 0, two_digit_number(*e, *f))
        }
        _ => false,
    }
}

/// The last day of a month, in a leap year or in another year.
fn last_day(is_leap: bool, month: u32) -> u32
    ensures { result ≡ last_day is_leap month }
{
    match month {
        2 => if is_leap { 29 } else { 28 },
        4 | 6 | 9 | 11 => 30,
        _ => 31,
    }
}

/// Whether a year is a leap year of the Gregorian calendar.
fn is_leap_year(year: u32) -> bool
    ensures { result ≡ is_leap_year year }
{
    year % 4 == 0 && (year % 100 != 0 || year % 400 == 0)
}

/// The number that two digits stand for.
#[inline(always)]
fn two_digit_number(tens: u8, ones: u8) -> u32
    ensures value { result ≡ two_digit_number tens ones }
    ensures bound { result < 4096 }
{
    10 * u32::from(tens.saturating_sub(b'0')) + u32::from(ones.saturating_sub(b'0'))
}

/// `YYYYMMDD`, and no more.
fn is_date(octets: &[u8]) -> bool
    ensures { result ≡ date_form octets.now }
{
    match after_date(octets) {
        Some(rest) => rest.is_empty(),
        None => false,
    }
}

/// `YYYYMMDDhhmmss`, and no more.
fn is_date_time(octets: &[u8]) -> bool
    ensures { result ≡ date_time_form octets.now }
{
    match after_date(octets) {
        Some(rest) => is_time_of_day(rest),
        None => false,
    }
}

/// `hhmmss`, and no more: an hour of at most 23, or midnight at the end of a day.
fn is_time_of_day(octets: &[u8]) -> bool
    ensures { result ≡ time_of_day_form octets.now }
{
    is_clock(octets) || is_midnight(octets)
}

/// `hhmmss` with an hour of at most 23, and no more.
fn is_clock(octets: &[u8]) -> bool
    ensures { result ≡ clock_form octets.now }
{
    match after_clock(octets) {
        Some(rest) => rest.is_empty(),
        None => false,
    }
}

/// `240000`, and no more.
fn is_midnight(octets: &[u8]) -> bool
    ensures { result ≡ midnight_form octets.now }
{
    match after_midnight(octets) {
        Some(rest) => rest.is_empty(),
        None => false,
    }
}

/// What is after `YYYYMMDD`.
fn after_date(octets: &[u8]) -> Option<&[u8]>
    ensures { LeavesRest date_form octets.now (option_copied result) }
{
    let rest = after_two_digits(octets, 0, 99)?;
    let rest = after_two_digits(rest, 0, 99)?;
    after_month_and_day(rest)
}

/// What is after `hhmmss`, with an hour of at most 23 and a second of at most 60.
fn after_clock(octets: &[u8]) -> Option<&[u8]>
    ensures { LeavesRest clock_form octets.now (option_copied result) }
{
    let rest = after_two_digits(octets, 0, 23)?;
    let rest = after_two_digits(rest, 0, 59)?;
    after_two_digits(rest, 0, 60)
}

/// What is after `240000`.
fn after_midnight(octets: &[u8]) -> Option<&[u8]>
    ensures { LeavesRest midnight_form octets.now (option_copied result) }
{
    let rest = after_two_digits(octets, 24, 24)?;
    let rest = after_two_digits(rest, 0, 0)?;
    after_two_digits(rest, 0, 0)
}
