//! The octets of a names file.
ghost use Rattle.tlv_value.specs.NamesReading.{ReadsFrom};
ghost use Rattle.tlv_value.specs.Private.NamesSteps.{Gives, result_in};

use super::NamesFault;
use super::table::{Table, names_of};
use std::alloc::Allocator;
use tlv_io::Source;

/// The largest number of octets in a names file.
const FILE_LIMIT: usize = 1_048_576;

/// Reads the source to its end, and then checks its lines.
pub(super) fn read_in<A: Allocator + Copy, S: Source>(
    alloc: A,
    source: &mut S,
) -> Result<Table<A>, NamesFault>
    ensures { ReadsFrom (S.state source.old) (S.state source.new) (result_in result) }
{
    let octets = read_octets(alloc, source)?;
    names_of(alloc, octets.as_slice())
}

/// All octets of the source.
fn read_octets<A: Allocator, S: Source>(alloc: A, source: &mut S) -> Result<Vec<u8, A>, NamesFault>
    ensures { Gives (S.state source.old) (S.state source.new) result }
{
    let mut octets = Vec::new(alloc);
    let mut piece = [0u8; 4096];
    loop {
        let Ok(count) = source.read(&mut piece) else {
            return Err(NamesFault::ReadFailed);
        };
        if count == 0 {
            return Ok(octets);
        }
        if count > FILE_LIMIT - octets.len() {
            return Err(NamesFault::TooLarge);
        }
        if octets.extend_from_slice(&piece[..count]).is_err() {
            return Err(NamesFault::Memory);
        }
    }
}
