//! A source over octets in memory whose reads never fail.
ghost use Rattle.std.specs.Prelude.{◌≡◌, Some};
ghost use Rattle.tlv_io.specs.Device.{new_source};
ghost use Rattle.tlv_run.specs.UnfailingSource.{unfailing_source_state};

use std::marker::Model;
use tlv_walk::{MemSource, ReadFault, Source};

/// A source over octets in memory whose reads never fail.
#[derive(Drop)]
pub struct UnfailingSource<'a> {
    source: MemSource<'a>,
}

impl<'a> Model for UnfailingSource<'a> {
    ghost use Rattle.std.specs.Prelude.{◌≡◌, None};
    ghost use Rattle.tlv_io.specs.MemSource.{MemSourceState};

    ghost Value = { MemSourceState };

    ghost view = { λ s. s.source };

    ghost invariant = { λ s. s.source.fail_at ≡ None };
}

impl<'a> UnfailingSource<'a> {
    /// A source that gives the octets and then ends. `cuts` says into which pieces they are cut, as for
    /// `MemSource::new`.
    pub fn new(octets: &'a [u8], cuts: &'a [u64]) -> UnfailingSource<'a>
        ensures { unfailing_source_state result ≡ new_source (Some octets.now) }
    {
        UnfailingSource {
            source: MemSource::new(octets, cuts, None),
        }
    }
}

impl Source for UnfailingSource<'_> {
    ghost state = { unfailing_source_state };

    fn read(&mut self, to: &mut [u8]) -> Result<usize, ReadFault> {
        self.source.read(to)
    }
}
