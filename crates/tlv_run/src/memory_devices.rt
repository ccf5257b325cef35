//! Devices in memory: a source that fails after its octets, and a drain with limited room.
ghost use Rattle.std.specs.Prelude.{◌≡◌, ◌<◌, ◌≤◌, [], Some, length};
ghost use Rattle.tlv_io.specs.Device.{new_source};
ghost use Rattle.tlv_run.specs.Private.MemoryDevices.{failing_source_state};

use arrayvec::ArrayVec;
use std::marker::Model;
use tlv_walk::{Drain, MemSource, ReadFault, Source, WriteFault};

/// Octets in memory as a source whose reads fail once all octets are given.
#[derive(Drop)]
pub(crate) struct FailingSource<'a> {
    source: MemSource<'a>,
    failures: u64,
}

impl<'a> Model for FailingSource<'a> {
    ghost use Rattle.std.specs.Prelude.{◌≡◌, ◌<◌, [], None};
    ghost use Rattle.tlv_run.specs.Private.MemoryDevices.{FailingSourceState};

    ghost Value = { FailingSourceState };

    ghost view = { λ s. record { source = s.source; failures = s.failures } };

    ghost invariant = { λ s. (s.source.fail_at ≡ None) × (0 < s.failures → s.source.left ≡ []) };
}

impl<'a> FailingSource<'a> {
    /// A source that gives the octets, in pieces of at most `cuts`, and then fails.
    pub(crate) fn new(octets: &'a [u8], cuts: &'a [u64]) -> FailingSource<'a>
        ensures { failing_source_state result ≡ new_source (Some octets.now) }
    {
        FailingSource {
            source: MemSource::new(octets, cuts, None),
            failures: 0,
        }
    }
}

impl Source for FailingSource<'_> {
    ghost state = { failing_source_state };

    fn read(&mut self, to: &mut [u8]) -> Result<usize, ReadFault> {
        match self.source.read(to) {
            Ok(count) if count > 0 => Ok(count),
            _ => {
                self.failures = self.failures.saturating_add(1);
                Err(ReadFault)
            }
        }
    }
}

/// A drain with room for `N` octets; a write fails if no room is left.
#[derive(Drop)]
pub struct BoundedDrain<const N: usize> {
    octets: ArrayVec<u8, N>,
    failures: u64,
}

impl<const N: usize> Model for BoundedDrain<N> {
    ghost use Rattle.std.specs.Prelude.{◌≡◌, ◌<◌, Some, length};
    ghost use Rattle.tlv_io.specs.Device.{DrainState};

    ghost Value = { DrainState };

    ghost view = { λ d. record { octets = Some d.octets.items; failures = d.failures } };

    ghost invariant = { λ d. length d.octets.items < N → d.failures ≡ 0 };
}

impl<const N: usize> BoundedDrain<N> {
    /// A drain that has taken nothing.
    pub fn new() -> BoundedDrain<N>
        ensures { result ≡ record { octets = Some []; failures = 0 } }
    {
        BoundedDrain {
            octets: ArrayVec::new(),
            failures: 0,
        }
    }

    /// The octets taken, in order. If there is room for more, no write has failed.
    pub fn into_octets(self) -> ArrayVec<u8, N>
        ensures octets_are { self.entry.octets ≡ Some result.items }
        ensures short { length result.items ≤ N }
        ensures full_if_failed { length result.items < N → self.entry.failures ≡ 0 }
    {
        let octets = self.octets;
        let _fits = octets.len();
        octets
    }
}

impl<const N: usize> Drain for BoundedDrain<N> {
    ghost state = { λ d. d };

    fn write(&mut self, from: &[u8]) -> Result<usize, WriteFault> {
        let count = from.len().min(self.octets.remaining_capacity());
        if count == 0 {
            self.failures = self.failures.saturating_add(1);
            return Err(WriteFault);
        }
        let _ = self.octets.try_extend_from_slice(&from[..count]);
        Ok(count)
    }
}
