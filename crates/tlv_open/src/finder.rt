//! Finds the strings that are opened, and the strings that break.
ghost use Rattle.std.specs.Prelude.{◌≤◌, IfOk, length};
ghost use Rattle.tlv_head.specs.Limits.{input_limit};
ghost use Rattle.tlv_open.specs.Breaks.{AreBroken};
ghost use Rattle.tlv_open.specs.Opens.{AreOpened};

use crate::Strings;
use crate::adding::add_all_strings;
use crate::reading::count_read;
use crate::spot::Spot;
use std::alloc::{AllocError, Global};

/// The number of opened strings for which memory is taken at first. Most certificates have no more, and a text may have
/// thousands of them.
const FIRST_CAPACITY: usize = 16;

/// Returns the offsets of the opened strings of an input, in order, in octets from its start. A string is opened if
/// it holds encodings, and is either no segment or the only segment of a whole string. With `padding`, octets `00`
/// are allowed at the top. The input may be sound or damaged; in a damaged input, only what is read before the fault
/// counts.
///
/// # Errors
///
/// `AllocError` if memory is refused, and for no other reason.
pub fn opened(alloc: Global, octets: &[u8], padding: bool) -> Result<Vec<u64>, AllocError>
    requires { length octets.now ≤ input_limit }
    ensures { IfOk result (λ list. AreOpened padding octets.now list.items) }
{
    let Strings { opened, broken: _ } = strings_of(alloc, octets, padding)?;
    Ok(opened)
}

/// Returns the opened strings of an input, as [`opened`] defines them, and the broken strings. A broken string looks
/// like encodings ([`Suspicion`](crate::Suspicion)), is not opened, and breaks when it is read as encodings. The
/// search continues inside an opened string, but not inside a broken one. With `padding`, octets `00` are allowed at
/// the top. The input may be sound or damaged; in a damaged input, only what is read before the fault counts. Needs
/// some memory even if there are no such strings; more for the strings that it finds, and for those that it tries but
/// does not open.
///
/// # Errors
///
/// `AllocError` if memory is refused, and for no other reason.
pub fn strings_of(alloc: Global, octets: &[u8], padding: bool) -> Result<Strings, AllocError>
    requires { length octets.now ≤ input_limit }
    ensures opened { IfOk result (λ s. AreOpened padding octets.now s.opened.items) }
    ensures broken { IfOk result (λ s. AreBroken padding octets.now s.broken.items) }
{
    let mut found = Strings {
        opened: Vec::with_capacity(alloc, FIRST_CAPACITY)?,
        broken: Vec::new(alloc),
    };
    let spot = Spot {
        start: 0,
        depth: 0,
        may_open: true,
        in_extension: false,
        likely: false,
        padding,
    };
    // Most inputs are sound, and then one pass is enough.
    let sound = add_all_strings(octets, 0, &spot, &mut found)?;
    if sound {
        return Ok(found);
    }
    found.opened.truncate(0);
    found.broken.truncate(0);
    let read = &octets[..count_read(octets, padding)];
    add_all_strings(read, 0, &spot, &mut found)?;
    Ok(found)
}
