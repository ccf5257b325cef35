//! How much of an input is read.
ghost use Rattle.std.specs.Prelude.{◌≡◌, ◌≤◌, ◌+◌, Bool, IsTrue, length};
ghost use Rattle.tlv_head.specs.Limits.{input_limit};
ghost use Rattle.tlv_open.specs.Opens.{closed_framing};
ghost use Rattle.tlv_open.specs.Private.Walks.{HasWalkedOver, WalksOverMore};
ghost use Rattle.tlv_walk.specs.Ending.{IsEnding};
ghost use Rattle.tlv_walk.specs.Forest.{Forest, spelling};
ghost use Rattle.tlv_walk.specs.Reading.{IsReading, IsSoundList};
ghost use Rattle.tlv_walk.specs.Walker.{IsWithinInputLimit};

use crate::elements::elements_size;
use tlv_walk::{Ending, Framing, Inside, Step, Walker};

/// The number of octets of the input that are read with no string named: all, or the number before the refused octet.
pub(crate) fn count_read(octets: &[u8], padding: bool) -> usize
    requires { length octets.now ≤ input_limit }
    ensures { (f : Forest) → IsReading (closed_framing padding) octets.now f
        → result ≡ length (spelling f) }
{
    match ending_of(octets, padding) {
        Ending::Done => octets.len(),
        Ending::Fault(fault) => fault.offset as usize,
    }
}

/// Returns how an input of these octets ends with no string named. With `padding`, octets `00` are allowed at the top.
pub fn ending_of(octets: &[u8], padding: bool) -> Ending
    requires { length octets.now ≤ input_limit }
    ensures { IsEnding (closed_framing padding) octets.now result }
{
    // Most inputs are sound, and checking that takes much less time than a walk.
    if are_sound_elements(octets) {
        return Ending::Done;
    }
    let framing = Framing {
        inside: Inside::none(),
        padding,
    };
    walk_over(octets, &framing).finish()
}

/// Whether the octets are one or more sound elements, without padding.
fn are_sound_elements(octets: &[u8]) -> bool
    requires { length octets.now ≤ input_limit }
    ensures { IsTrue result → (padding : Bool) → IsSoundList (closed_framing padding) octets.now }
{
    !octets.is_empty() && elements_size(octets, 0, 0, false, false).is_some()
}

/// A walker that has walked over the octets in this framing.
fn walk_over<'f>(octets: &[u8], framing: &'f Framing<'_>) -> Walker<'f>
    requires { length octets.now ≤ input_limit }
    ensures { HasWalkedOver framing.now octets.now result }
{
    let mut walker = Walker::new(framing);
    walk_on(&mut walker, octets);
    walker
}

/// Walks on over these octets, up to an octet that is refused.
pub(crate) fn walk_on(walker: &mut Walker<'_>, octets: &[u8])
    requires { IsWithinInputLimit walker.old octets.now }
    ensures walks { WalksOverMore walker.old walker.new octets.now }
    ensures within { walker.new.offset ≤ walker.old.offset + length octets.now }
{
    let mut rest: &[u8] = octets;
    'steps: loop {
        match walker.step(&mut rest) {
            Step::Event(_) => {}
            Step::NeedMore | Step::Fault(_) => return,
        }
    }
}
