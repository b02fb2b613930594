//! The environment in which scripts run: a disk, and the server of its store. The methods have no contracts, so that
//! proofs about scripts needn't carry the contracts of a disk or a core through each exit of a function that owns one.

use disk::{Disk, MemDisk, Slot, Torn};
use server::{Alone, open, serve};
use std::alloc::Global;
use store_fault::StoreFault;

/// A disk that crashes as planned.
pub trait Device {
    /// The server of the store on such a disk.
    type Server: Drop;

    /// Creates an empty disk.
    fn empty(alloc: Global) -> Self;

    /// Plans a crash at a call of the disk, and the contents that it leaves.
    fn plan_crash(&mut self, stop_at: u64, torn: Torn);

    /// Returns the disk after a crash, or `None` if out of memory.
    fn stop(self) -> Option<Self>;

    /// Returns the length of segment 0 in bytes.
    fn segment_length(&self) -> u64;

    /// Opens the store: returns its server and the number of its records.
    fn start(self, alloc: Global) -> Result<(Self::Server, u64), StoreFault>;

    /// Returns the reply to a frame, if there is one.
    fn answer(server: &mut Self::Server, alloc: Global, frame: &[u8]) -> Option<Vec<u8>>;

    /// Ends the server, and returns the disk.
    fn end(server: Self::Server) -> Self;
}

impl Device for MemDisk {
    type Server = Alone<MemDisk>;

    fn empty(alloc: Global) -> MemDisk {
        MemDisk::new(alloc)
    }

    fn plan_crash(&mut self, stop_at: u64, torn: Torn) {
        self.plan(Some(stop_at), None, torn);
    }

    fn stop(self) -> Option<MemDisk> {
        self.after_crash().ok()
    }

    fn segment_length(&self) -> u64 {
        self.length(Slot::Segment0)
    }

    fn start(self, alloc: Global) -> Result<(Alone<MemDisk>, u64), StoreFault> {
        match open(alloc, self) {
            Ok(opened) => {
                let records = opened.segment.records;
                Ok((Alone::new(alloc, opened), records))
            }
            Err((fault, disk)) => {
                drop(disk);
                Err(fault)
            }
        }
    }

    fn answer(server: &mut Alone<MemDisk>, alloc: Global, frame: &[u8]) -> Option<Vec<u8>> {
        let mut rest = frame;
        let mut output = Vec::new(alloc);
        match serve(alloc, &mut rest, &mut output, server) {
            Ok(()) => Some(output),
            Err(_) => None,
        }
    }

    fn end(server: Alone<MemDisk>) -> MemDisk {
        server.into_disk()
    }
}
