//! A stream that returns one byte at a time.

use std::io;
use std::io::Read;

/// Returns one byte per read, and fails after `before` reads.
#[derive(Drop)]
pub(crate) struct OneByte<'a> {
    pub(crate) bytes: &'a [u8],
    pub(crate) before: usize,
}

impl<'a> Read for OneByte<'a> {
    fn read(&mut self, buf: &mut [u8]) -> io::Result<usize> {
        if self.before == 0 {
            return Err(io::ErrorKind::Other.into());
        }
        self.before -= 1;
        if self.bytes.is_empty() || buf.is_empty() {
            return Ok(0);
        }
        buf[0] = self.bytes[0];
        self.bytes = &self.bytes[1..];
        Ok(1)
    }
}
