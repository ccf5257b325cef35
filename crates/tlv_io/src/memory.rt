//! A source and a drain over memory.

ghost use Rattle.std.specs.Prelude.{◌≡◌, ◌<◌, ◌≤◌, ◌↔◌, [], IfOk, IsErr, Some, length, max, take};
ghost use Rattle.tlv_io.specs.Device.{ReadsOnce, WritesOnce, new_read_log};
ghost use Rattle.tlv_io.specs.MemSource.{cut_count, read_count, source_state_of};

use crate::drain::{Drain, WriteFault};
use crate::source::{ReadFault, ReadLog, Source};
use std::marker::Model;

/// Octets in memory as a source, which gives them in pieces of chosen sizes.
#[derive(Drop)]
pub struct MemSource<'a> {
    octets: &'a [u8],
    cuts: &'a [u64],
    fail_at: Option<u64>,
    log: ReadLog,
}

impl<'a> Model for MemSource<'a> {
    ghost use Rattle.tlv_io.specs.MemSource.{MemSourceState};

    ghost Value = { MemSourceState };

    ghost view = { λ source. record {
      left = source.octets.now;
      cuts = source.cuts.now;
      fail_at = source.fail_at;
      log = source.log;
    } };
}

impl<'a> MemSource<'a> {
    /// A source that gives `octets` and then ends.
    ///
    /// Read `i`, counted from 0, gives at most `cuts[i]` octets; reads after the end of `cuts` give as many as there
    /// is room for. A cut of 0 counts as 1, so a read gives no octets only if none are left. Read `fail_at` fails.
    pub fn new(octets: &'a [u8], cuts: &'a [u64], fail_at: Option<u64>) -> MemSource<'a>
        ensures { result ≡ record {
          left = octets.now;
          cuts = cuts.now;
          fail_at = fail_at;
          log = new_read_log;
        } }
    {
        MemSource {
            octets,
            cuts,
            fail_at,
            log: ReadLog::new(),
        }
    }
}

impl Source for MemSource<'_> {
    ghost state = { source_state_of };

    fn read(&mut self, to: &mut [u8]) -> Result<usize, ReadFault>
        requires { 0 < length to.old }

        // The contract of each source.
        ensures reads { ReadsOnce (source_state_of self.old)
            (source_state_of self.new) result to.new }

        // The number of octets that it gives, and which read fails.
        ensures count { IfOk result (λ n. n ≡ read_count self.old (length to.old)) }
        ensures fails { IsErr result ↔ (self.old.fail_at ≡ Some self.old.log.reads) }

        // What stays the same.
        ensures cuts { self.new.cuts ≡ self.old.cuts }
        ensures fail_at { self.new.fail_at ≡ self.old.fail_at }
    {
        let read = self.log.reads();
        if self.fail_at == Some(read) {
            return self.log.count(Err(ReadFault));
        }
        let count = cut_count(self.cuts, read, to.len()).min(self.octets.len());
        let (piece, rest) = self.octets.split_at(count);
        to[..count].copy_from_slice(piece);
        self.octets = rest;
        self.log.count(Ok(count))
    }
}

/// The number of octets, at most `count`, that the read with this index may give.
fn cut_count(cuts: &[u64], index: u64, count: usize) -> usize
    ensures { result ≡ cut_count cuts.now index count }
{
    match cuts.get(index as usize) {
        Some(cut) => count.min((*cut).max(1) as usize),
        None => count,
    }
}

/// Room in memory as a drain, which takes at most a chosen number of octets with each write.
#[derive(Drop)]
pub struct MemDrain<'a> {
    room: &'a mut [u8],
    used: usize,
    most: usize,
    failures: u64,
    ghost fits: { used ≤ length room.now },
}

impl<'a> MemDrain<'a> {
    ghost use Rattle.tlv_io.specs.MemDrain.{drain_room, mem_drain_state_of};

    /// A drain that fills `room` from its first octet on.
    ///
    /// A write takes as many octets as fit, but at most `most`, where 0 counts as 1. It fails if no room is left.
    pub fn new(room: &'a mut [u8], most: usize) -> MemDrain<'a>
        ensures same_reference { (drain_room result).ghost_name ≡ room.entry.ghost_name }
        ensures room { (drain_room result).now ≡ room.old }
        ensures state { mem_drain_state_of result
            ≡ record { taken = []; rest = room.old; most = max 1 most; failures = 0 } }
    {
        MemDrain {
            room,
            used: 0,
            most,
            failures: 0,
        }
    }

    /// The octets taken, in order: a prefix of the room.
    pub fn written(&self) -> &[u8]
        ensures taken { result.now ≡ (mem_drain_state_of self.now).taken }
        ensures prefix { result.now ≡ take (length result.now) (drain_room self.now).now }
    {
        &self.room[..self.used]
    }
}

impl Drain for MemDrain<'_> {
    ghost use Rattle.tlv_io.specs.MemDrain.{mem_drain_after, drain_room, drain_state_of, mem_drain_state_of};
    ghost use Rattle.tlv_io.specs.MemDrain.{write_count};

    ghost state = { λ drain. drain_state_of (mem_drain_state_of drain) };

    fn write(&mut self, from: &[u8]) -> Result<usize, WriteFault>
        requires { 0 < length from.now }

        // The contract of each drain.
        ensures writes { WritesOnce (drain_state_of (mem_drain_state_of self.old))
            (drain_state_of (mem_drain_state_of self.new)) result from.now }

        // The number of octets that it takes, and when it fails.
        ensures count { IfOk result (λ n. n ≡ write_count (mem_drain_state_of self.old)
            (length from.now)) }
        ensures fails { IsErr result ↔ ((mem_drain_state_of self.old).rest ≡ []) }

        // Its state after the write. The room is the same, and unchanged after the octets taken.
        ensures state { mem_drain_state_of self.new
            ≡ mem_drain_after result from.now (mem_drain_state_of self.old) }
        ensures same_reference { (drain_room self.new).ghost_name
            ≡ (drain_room self.old).ghost_name }
    {
        let used = self.used;
        let free = self.room.len() - used;
        if free == 0 {
            self.failures = self.failures.saturating_add(1);
            return Err(WriteFault);
        }
        let count = from.len().min(self.most.max(1)).min(free);
        self.room[used..used + count].copy_from_slice(&from[..count]);
        self.used = used + count;
        Ok(count)
    }
}
