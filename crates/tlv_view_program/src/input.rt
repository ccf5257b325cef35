//! A whole input in memory.
ghost use Rattle.std.specs.Prelude.{◌≡◌, ◌≤◌, IfOk, length};
ghost use Rattle.std.specs.Result.{result_map_both};
ghost use Rattle.tlv_run.specs.Report.{report_value_of};
ghost use Rattle.tlv_view_program.specs.ReadWhole.{ReadsWhole, input_report, whole_limit};

use std::alloc::Allocator;
use tlv_run::{Report, device_report};
use tlv_walk::{DeviceFault, Source};

/// The maximum number of octets of an input that is read into memory.
pub const WHOLE_LIMIT: u64 = 4_294_967_296;

/// Why an input cannot be read into memory.
#[derive(Clone, Copy, Debug, PartialEq, Eq)]
pub enum InputFault {
    /// E1: a read failed.
    ReadFailed,
    /// E3: there are more than 2^32 octets.
    TooLong,
    /// E8: memory for the octets was refused.
    Memory,
}

/// Reads the source to its end, and returns its octets. Each read gives at most 4096 octets. The allocated memory
/// doubles as the octets come.
///
/// # Errors
///
/// `ReadFailed` if and only if a read failed. `TooLong` once the source gave more than 2^32 octets
/// ([`WHOLE_LIMIT`]). `Memory` after
/// any read that gave octets, if memory for them is refused. Reads nothing after an error or after the end.
pub fn read_whole<A: Allocator, S: Source>(
    alloc: A,
    source: &mut S,
) -> Result<Vec<u8, A>, InputFault>
    ensures reads { ReadsWhole (S.state source.old) (S.state source.new)
        (result_map_both (λ octets. octets.items) (λ fault. fault) result) }
    ensures within { IfOk result (λ octets. length octets.items ≤ whole_limit) }
{
    let mut octets = Vec::new(alloc);
    let mut piece = [0u8; 4096];
    loop {
        let Ok(count) = source.read(&mut piece) else {
            return Err(InputFault::ReadFailed);
        };
        if count == 0 {
            return Ok(octets);
        }
        if octets.len() as u64 + count as u64 > WHOLE_LIMIT {
            return Err(InputFault::TooLong);
        }
        if octets.extend_from_slice(&piece[..count]).is_err() {
            return Err(InputFault::Memory);
        }
    }
}

/// Returns the report for an input that cannot be read into memory.
pub fn input_report(fault: InputFault) -> Report
    ensures { report_value_of result ≡ input_report fault }
{
    match fault {
        InputFault::ReadFailed => device_report(DeviceFault::ReadFailed),
        InputFault::TooLong => Report::with_message(
            3,
            b"E3 input of more than 4294967296 octets; tlvdump dump reads longer ones",
        ),
        InputFault::Memory => Report::with_message(5, b"E8 out of memory"),
    }
}
