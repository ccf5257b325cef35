//! A reader as a source, and a writer as a drain.

ghost use Rattle.std.specs.Prelude.{◌≡◌};
ghost use Rattle.tlv_io.specs.Device.{new_source, source_with};
ghost use Rattle.tlv_io.specs.Stream.{finds_no_reader, has_no_reader};

use crate::drain::{Drain, WriteFault};
use crate::source::{ReadFault, ReadLog, Source};
use std::io::{Error, ErrorKind, Read, Write};

/// A reader as a source. Each error of the reader is a failed read, including an error of kind `Interrupted`.
#[derive(Drop)]
pub struct ReadSource<R> {
    reader: R,
    log: ReadLog,
}

impl<R: Read + Drop> ReadSource<R> {
    /// A source that gives the octets that `reader` has left, and has not been read. If the reader knows these
    /// octets, so does the source.
    pub fn new(reader: R) -> ReadSource<R>
        ensures { ⟦<ReadSource<R> as Source>⟧.state result ≡ new_source (R.remaining reader) }
    {
        ReadSource {
            reader,
            log: ReadLog::new(),
        }
    }
}

impl<R: Read + Drop> Source for ReadSource<R> {
    ghost state = { λ source. source_with (R.remaining source.reader) source.log };

    fn read(&mut self, to: &mut [u8]) -> Result<usize, ReadFault> {
        // Calls `read` itself: the reader's other methods try again after an interruption.
        let read = self.reader.read(to).map_err(|_| ReadFault);
        self.log.count(read)
    }
}

/// A writer as a drain. Each error of the writer is a failed write, and so is a write that takes no octet.
#[derive(Drop)]
pub struct WriteDrain<W> {
    writer: W,
    failures: u64,
    /// Whether the last failed write found that nothing reads what is written.
    has_no_reader: bool,
}

impl<W: Write + Drop> WriteDrain<W> {
    /// A drain that writes after what `writer` holds, without a failed write so far. If the writer knows what it
    /// holds, so does the drain.
    pub fn new(writer: W) -> WriteDrain<W>
        ensures { ⟦<WriteDrain<W> as Drain>⟧.state result
            ≡ record { octets = W.contents writer; failures = 0 } }
    {
        WriteDrain {
            writer,
            failures: 0,
            has_no_reader: false,
        }
    }

    /// Whether the last failed write failed because nothing reads what is written any more: the kind of its error is
    /// `BrokenPipe`. False if no write failed.
    pub fn has_no_reader(&self) -> bool
        ensures { result ≡ has_no_reader self.now }
    {
        self.has_no_reader
    }
}

impl<W: Write + Drop> Drain for WriteDrain<W> {
    ghost state = { λ drain. record {
      octets = W.contents drain.writer;
      failures = drain.failures;
    } };

    fn write(&mut self, from: &[u8]) -> Result<usize, WriteFault> {
        match self.writer.write(from) {
            Ok(count) if count > 0 => Ok(count),
            other => {
                self.has_no_reader = finds_no_reader(&other);
                self.failures = self.failures.saturating_add(1);
                Err(WriteFault)
            }
        }
    }
}

/// Whether a write found that nothing reads what is written any more.
fn finds_no_reader(written: &Result<usize, Error>) -> bool
    ensures { result ≡ finds_no_reader written.now }
{
    match written {
        Ok(_) => false,
        Err(error) => error.kind() == ErrorKind::BrokenPipe,
    }
}
