//! The octets decoded so far from a hex dump.
ghost use Rattle.std.specs.Prelude.{◌<◌, ◌≤◌, ◌↔◌, ◌+◌, ◌*◌, [], IsTrue, OnOk};
ghost use Rattle.tlv_text.specs.Dump.{octets_repeated};
ghost use Rattle.tlv_text.specs.Private.DumpSteps.{RowHolds, IsAdded};
ghost use Rattle.tlv_text.specs.Private.PairSteps.{AreWholePairs, pair_octets};

use std::alloc::{AllocError, Global};

/// The octets so far, unless there are more than a limit.
#[derive(Debug, Drop)]
pub(crate) struct Output {
    /// The octets.
    pub(crate) octets: Vec<u8>,
    /// Whether there are too many octets; then `octets` does not have all of them.
    pub(crate) over: bool,
    /// The maximum number of octets.
    pub(crate) limit: usize,
}

/// No octets, of which there may be at most `limit`.
pub(super) fn no_octets(alloc: Global, limit: usize) -> Output
    ensures { RowHolds limit result [] }
{
    Output {
        octets: Vec::new(alloc),
        over: false,
        limit,
    }
}

/// Adds the octets of pairs of digits, repeated `times` times.
pub(super) fn add_octets(
    alloc: Global,
    digits: &[u8],
    times: u64,
    output: &mut Output,
) -> Result<(), AllocError>
    requires pairs { AreWholePairs digits.now }
    ensures { OnOk result (IsAdded (octets_repeated times (pair_octets digits.now)) output.old output.new) }
{
    if output.over || times == 0 {
        return Ok(());
    }
    let count = output.octets.as_slice().len();
    if !fits(output.limit, count, digits.len() / 2, times) {
        output.over = true;
        return Ok(());
    }
    // Decoding pairs of digits fails only if memory is refused.
    let Ok(row) = hex::decode(alloc, digits) else {
        return Err(AllocError);
    };
    for _ in 0..times {
        output.octets.extend_from_slice(row.as_slice())?;
    }
    Ok(())
}

/// Whether `count` octets and then, `times` times, a row of `row` octets are at most `limit` octets.
fn fits(limit: usize, count: usize, row: usize, times: u64) -> bool
    ensures { IsTrue result ↔ (count + times * row ≤ limit) }
{
    count <= limit && (row == 0 || times <= (limit - count) as u64 / row as u64)
}
