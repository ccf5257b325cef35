//! Equal octets in a row that stand in place of others.
ghost use Rattle.std.specs.Prelude.{◌≡◌, ◌<◌, ◌≤◌, ◌+◌, ◌^◌, length};
ghost use Rattle.tlv_head.specs.Limits.{input_limit};
ghost use Rattle.tlv_reasons.specs.Overwritten.{count_back, count_front, counted_on, is_erased, long_run, run_around, octet_run};

/// The least number of equal octets in a row that is told of.
const LEAST_RUN: u64 = 24;

/// Equal octets in a row. Offsets are in octets from the start of the input.
#[derive(Clone, Copy, PartialEq, Eq, Debug)]
pub struct Run {
    /// Where the first of them is.
    pub start: u64,
    /// Where they end.
    pub end: u64,
}

/// The octets `00` or `ff` in a row around this offset, in octets from the start of the input. `None` if another octet is
/// there, or none, or if there are fewer than 24.
pub(crate) fn run_around(octets: &[u8], at: usize) -> Option<Run>
    requires { length octets.now ≤ input_limit }
    ensures { result ≡ run_around octets.now at }
{
    if at < octets.len() && is_erased(octets[at]) {
        long_run(octet_run(octets[at], octets, at))
    } else {
        None
    }
}

/// Whether this is an octet that erased memory has, or a block that was not read.
fn is_erased(octet: u8) -> bool
    ensures { result ≡ is_erased octet }
{
    octet == 0 || octet == 0xff
}

/// Where the octets that are this one begin around this offset, and where they end.
fn octet_run(octet: u8, octets: &[u8], at: usize) -> Run
    requires limit { length octets.now ≤ input_limit }
    requires within { at < length octets.now }
    ensures run { result ≡ octet_run octet octets.now at }
    ensures start { result.start < 2 ^ 63 }
{
    Run {
        start: at as u64 - count_back(octet, &octets[..at]),
        end: at as u64 + count_front(octet, &octets[at..]),
    }
}

/// This run, if it has enough octets.
fn long_run(run: Run) -> Option<Run>
    requires { run.start < 2 ^ 63 }
    ensures { result ≡ long_run run }
{
    if run.start + LEAST_RUN <= run.end {
        Some(run)
    } else {
        None
    }
}

/// The number of octets with which these begin that are this one.
fn count_front(octet: u8, octets: &[u8]) -> u64
    ensures count { result ≡ count_front octet octets.now }
    ensures within { result ≤ length octets.now }
{
    let mut count = 0;
    for other in octets {
        if *other != octet {
            return count;
        }
        count += 1;
    }
    count
}

/// The number of octets with which these end that are this one.
fn count_back(octet: u8, octets: &[u8]) -> u64
    ensures count { result ≡ count_back octet 0 octets.now }
    ensures within { result ≤ length octets.now }
{
    let mut count = 0;
    for other in octets {
        count = counted_on(octet, count, *other);
    }
    count
}

/// The number of octets in a row that are this one, after one octet more.
fn counted_on(octet: u8, count: u64, other: u8) -> u64
    requires { count < 2 ^ 63 }
    ensures count { result ≡ counted_on octet count other }
    ensures within { result ≤ count + 1 }
{
    if other == octet { count + 1 } else { 0 }
}
