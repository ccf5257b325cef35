//! A drain that keeps nothing.
ghost use Rattle.tlv_view_program.specs.Reasons.{silent_drain};

use tlv_walk::{Drain, WriteFault};

/// Takes all octets, and keeps none.
#[derive(Drop)]
pub(crate) struct SilentDrain;

impl Drain for SilentDrain {
    ghost state = { λ drain. silent_drain };

    fn write(&mut self, from: &[u8]) -> Result<usize, WriteFault> {
        Ok(from.len())
    }
}
