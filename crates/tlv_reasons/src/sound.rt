//! Whether octets are sound.
ghost use Rattle.std.specs.Prelude.{◌≡◌, ◌≤◌, ◌↔◌, IsTrue, length};
ghost use Rattle.tlv_head.specs.Limits.{input_limit};
ghost use Rattle.tlv_open.specs.Opens.{closed_framing};
ghost use Rattle.tlv_walk.specs.Ending.{IsEnding};
ghost use Rattle.tlv_walk.specs.Reading.{IsSoundList};

use crate::silence::{Nowhere, Silent};
use tlv_run::UnfailingSource;
use tlv_walk::{Ending, Framing, Inside, drive};

/// Whether the octets are one or more whole encodings, with nothing left open. With `padding`, octets `00` are allowed
/// at the top level.
pub(crate) fn is_sound(octets: &[u8], padding: bool) -> bool
    requires { length octets.now ≤ input_limit }
    ensures { IsTrue result ↔ IsSoundList (closed_framing padding) octets.now }
{
    is_sound_list(octets, &closed_framing(padding))
}

/// The framing in which no string is named.
pub(crate) fn closed_framing(padding: bool) -> Framing<'static>
    ensures { result ≡ closed_framing padding }
{
    Framing {
        inside: Inside::none(),
        padding,
    }
}

/// Whether the octets, read with this framing, are one or more whole encodings, with nothing left open.
pub(crate) fn is_sound_list(octets: &[u8], framing: &Framing<'_>) -> bool
    requires { length octets.now ≤ input_limit }
    ensures { IsTrue result ↔ IsSoundList framing.now octets.now }
{
    matches!(ending_in(octets, framing), Ending::Done)
}

/// How an input of these octets ends, read with this framing.
pub(crate) fn ending_in(octets: &[u8], framing: &Framing<'_>) -> Ending
    requires { length octets.now ≤ input_limit }
    ensures { IsEnding framing.now octets.now result }
{
    // `drive` takes whole elements at once, where `Walker::step` goes event by event: that is much slower.
    let mut source = UnfailingSource::new(octets, &[]);
    match drive(&mut source, &mut Silent, &mut Nowhere, framing) {
        Ok(run) => run.ending,
        Err(_) => unreachable!(),
    }
}
