//! Plain writes to a file, each as a batch is stored: all but its last byte, a sync, that byte, a sync.

use crate::Fault;
use crate::context::Context;
use std::fs::File;
use std::io::{self, Write};

/// Maximum number of bytes before the first sync: more than a batch of 4,096 messages of 1 KiB has.
const MOST: usize = 4_800_000;

/// Number of bytes between the syncs of a pair: those of a batch with one small record.
pub(crate) const PAIR: u64 = 54;

/// A file, and bytes to be written.
#[derive(Drop)]
pub(crate) struct Plain {
    file: File,
    bytes: Vec<u8>,
}

impl Plain {
    /// Creates a new file.
    pub(crate) fn create(context: &Context<'_>) -> Result<Plain, Fault> {
        let file = context.new_file()?;
        match Vec::from_elem(context.alloc, 0x61, MOST) {
            Ok(bytes) => Ok(Plain { file, bytes }),
            Err(_) => Err(Fault::Memory),
        }
    }

    fn write(&mut self, count: usize) -> io::Result<()> {
        let count = count.min(self.bytes.len());
        self.file.write_all(&self.bytes[..count])?;
        self.file.sync_all()?;
        self.file.write_all(&[0x5a])?;
        self.file.sync_all()
    }

    /// Returns the time for `count` writes of this many bytes each.
    pub(crate) fn time(
        &mut self,
        context: &Context<'_>,
        bytes: u64,
        count: u64,
    ) -> Result<u64, Fault> {
        let start = context.nanos();
        for _ in 0..count {
            self.write(bytes.saturating_sub(1) as usize)?;
        }
        Ok(context.since(start))
    }
}
