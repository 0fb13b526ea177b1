// Streams over bytes that go one byte at a time.

use store_api::{BytesSink, BytesSource, Failed, Sink, Source};

/// Gives one byte at each read.
#[derive(Drop)]
pub struct BytewiseSource {
    pub inner: BytesSource,
}

impl Source for BytewiseSource {
    ghost left = { λ s. ⟦<BytesSource as Source>⟧.left s.inner };

    ghost faults = { λ s. ⟦<BytesSource as Source>⟧.faults s.inner };

    fn read(&mut self, into: &mut [u8]) -> Result<usize, Failed> {
        let most = into.len().min(1);
        let n = self.inner.read(&mut into[..most])?;
        Ok(n)
    }
}

/// Takes one byte at each write.
#[derive(Drop)]
pub struct BytewiseSink {
    pub inner: BytesSink,
}

impl Sink for BytewiseSink {
    ghost holds = { λ s. ⟦<BytesSink as Sink>⟧.holds s.inner };

    ghost faults = { λ s. ⟦<BytesSink as Sink>⟧.faults s.inner };

    fn write(&mut self, bytes: &[u8]) -> Result<usize, Failed> {
        let most = bytes.len().min(1);
        let n = self.inner.write(&bytes[..most])?;
        Ok(n)
    }
}
