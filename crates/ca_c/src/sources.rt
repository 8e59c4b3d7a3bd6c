//! The source `SliceSource`, which reads from borrowed bytes.
ghost use Rattle.std.specs.Prelude.{◌≡◌, Some};

use ca_io::{Failed, Source};

/// A source over borrowed bytes, which are read from the first one to the last one. No read fails.
#[derive(Drop)]
pub struct SliceSource<'a> {
    // The bytes that haven't been read yet.
    rest: &'a [u8],
}

impl<'a> SliceSource<'a> {
    /// Makes a source of these bytes.
    pub fn new(bytes: &'a [u8]) -> SliceSource<'a>
        ensures { result.rest.now ≡ bytes.now }
    {
        SliceSource { rest: bytes }
    }
}

impl Source for SliceSource<'_> {
    ghost left = { λ s. Some s.rest.now };

    ghost faults = { λ _. 0 };

    /// Reads as many bytes as `buf` has room for and as are left, and returns how many it read.
    fn read(&mut self, buf: &mut [u8]) -> Result<usize, Failed> {
        let n = buf.len().min(self.rest.len());
        buf[..n].copy_from_slice(&self.rest[..n]);
        self.rest = &self.rest[n..];
        Ok(n)
    }
}
