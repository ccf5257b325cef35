//! A follower that ignores the events of a walk, and a drain that keeps nothing.
use tlv_head::{Header, HeaderFields};
use tlv_walk::{Drain, Event, Follow, Go, Out, WriteFault};

/// A follower that ignores the events of a walk: only the ending counts.
#[derive(Clone, Copy)]
pub(crate) struct Silent;

impl Follow for Silent {
    ghost use Rattle.std.specs.Prelude.{refl};
    ghost use Rattle.tlv_reasons.specs.Private.Silence.{silent_step};

    ghost next = { silent_step };

    ghost bytes_join = { λ s x y. refl };

    ghost bytes_empty = { λ s. refl };

    ghost bytes_go_on = { λ s x. refl };

    ghost pad_join = { λ s x y. refl };

    ghost pad_empty = { λ s. refl };

    ghost pad_go_on = { λ s x. refl };

    #[inline(always)]
    fn on<D: Drain>(
        &mut self,
        _event: &Event<'_>,
        _out: &mut Out<'_, D>,
    ) -> Result<Go, WriteFault> {
        Ok(Go::On)
    }

    #[inline(always)]
    fn whole<D: Drain>(
        &mut self,
        _header: &Header,
        _octets: &[u8],
        _out: &mut Out<'_, D>,
    ) -> Result<bool, WriteFault> {
        Ok(true)
    }

    #[inline(always)]
    fn open<D: Drain>(
        &mut self,
        _fields: &HeaderFields,
        _octets: &[u8],
        _out: &mut Out<'_, D>,
    ) -> Result<Go, WriteFault> {
        Ok(Go::On)
    }
}

/// A drain that keeps nothing of what it takes, and whose writes never fail.
#[derive(Clone, Copy)]
pub(crate) struct Nowhere;

impl Drain for Nowhere {
    ghost use Rattle.tlv_reasons.specs.Private.Silence.{nowhere_state};

    ghost state = { nowhere_state };

    fn write(&mut self, from: &[u8]) -> Result<usize, WriteFault> {
        Ok(from.len())
    }
}
