ghost use Rattle.std.specs.Prelude.{◌≡◌, None};

use crate::streams::{Failed, Sink, Source};
use std::io::{Read, Write};

/// A reader as a source. It tells nothing of content.
#[derive(Drop)]
pub struct ReaderSource<T: Read + Drop> {
    reader: T,
    failed: u64,
}

impl<T: Read + Drop> ReaderSource<T> {
    /// No read has failed yet.
    pub fn new(reader: T) -> ReaderSource<T>
        ensures { ⟦<ReaderSource<T> as Source>⟧.faults result ≡ 0 }
    {
        ReaderSource { reader, failed: 0 }
    }
}

impl<T: Read + Drop> Source for ReaderSource<T> {
    ghost left = { λ _. None };

    ghost faults = { λ s. s.failed };

    fn read(&mut self, into: &mut [u8]) -> Result<usize, Failed> {
        match self.reader.read(into) {
            Ok(n) => Ok(n),
            Err(_) => {
                self.failed = self.failed.saturating_add(1);
                Err(Failed)
            }
        }
    }
}

/// A writer as a sink. It tells nothing of content.
#[derive(Drop)]
pub struct WriterSink<T: Write + Drop> {
    writer: T,
    failed: u64,
}

impl<T: Write + Drop> WriterSink<T> {
    /// No write has failed yet.
    pub fn new(writer: T) -> WriterSink<T>
        ensures { ⟦<WriterSink<T> as Sink>⟧.faults result ≡ 0 }
    {
        WriterSink { writer, failed: 0 }
    }
}

impl<T: Write + Drop> Sink for WriterSink<T> {
    ghost holds = { λ _. None };

    ghost faults = { λ s. s.failed };

    fn write(&mut self, bytes: &[u8]) -> Result<usize, Failed> {
        match self.writer.write(bytes) {
            Ok(n) if n > 0 || bytes.is_empty() => Ok(n),
            _ => {
                self.failed = self.failed.saturating_add(1);
                Err(Failed)
            }
        }
    }
}
