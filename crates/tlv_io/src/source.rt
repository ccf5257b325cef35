//! Where octets are read from.

ghost use Rattle.std.specs.Prelude.{◌≡◌, ◌<◌, length};
ghost use Rattle.tlv_io.specs.Device.{ReadsOnce, SourceState, new_read_log};
ghost use Rattle.tlv_io.specs.Private.ReadLog.{read_log_after};

use std::marker::Model;

/// A read failed.
#[derive(Clone, Copy, Debug, PartialEq, Eq)]
pub struct ReadFault;

/// A source of octets, read in order and each one once. The counts of reads and of failed reads stop at 2^64 - 1.
pub trait Source {
    /// What contracts see of it: its octets, its reads and its failures.
    ghost state: { Self → SourceState };

    /// Reads octets into the first places of `to`, which has room for at least one. Returns the number read; 0 is the
    /// end.
    ///
    /// # Errors
    ///
    /// `ReadFault` if the read failed. It then gave nothing, and no octet is lost.
    fn read(&mut self, to: &mut [u8]) -> Result<usize, ReadFault>
        requires { 0 < length to.old }
        ensures { ReadsOnce (state self.old) (state self.new) result to.new };
}

#[derive(Clone, Copy, Debug, PartialEq, Eq)]
enum LastRead {
    Never,
    Gave(usize),
    Failed,
}

/// What a source keeps of its reads. The counts of reads and of failed reads stop at 2^64 - 1.
#[derive(Drop)]
pub(crate) struct ReadLog {
    reads: u64,
    last: LastRead,
    failures: u64,
}

impl Model for ReadLog {
    ghost use Rattle.tlv_io.specs.Device.{ReadLogState};
    ghost use Rattle.tlv_io.specs.Private.ReadLog.{last_read};

    ghost Value = { ReadLogState };

    ghost view = { λ log. record {
      reads = log.reads;
      last = last_read log.last;
      failures = log.failures;
    } };
}

impl ReadLog {
    /// The log of a source that has not been read yet.
    pub(crate) fn new() -> ReadLog
        ensures { result ≡ new_read_log }
    {
        ReadLog {
            reads: 0,
            last: LastRead::Never,
            failures: 0,
        }
    }

    /// The number of reads so far, including failed ones.
    pub(crate) fn reads(&self) -> u64
        ensures { result ≡ self.now.reads }
    {
        self.reads
    }

    /// Counts a read with this result, and returns the result.
    pub(crate) fn count(&mut self, read: Result<usize, ReadFault>) -> Result<usize, ReadFault>
        ensures same { result ≡ read }
        ensures log { self.new ≡ read_log_after read self.old }
    {
        self.reads = self.reads.saturating_add(1);
        match read {
            Ok(count) => self.last = LastRead::Gave(count),
            Err(ReadFault) => {
                self.last = LastRead::Failed;
                self.failures = self.failures.saturating_add(1);
            }
        }
        read
    }
}
