//! Frames that the tests send, and what serves them. No function has a clause, and all are generic in the disk and the
//! caller, so that a test's proof carries nothing of a disk or of a core.
use disk::Disk;
use server::{Alone, Caller, ServeFault, open, serve};
use std::alloc::Global;

/// `mach_port_allocate` of a receive right.
pub(crate) const ALLOCATE: [u8; 12] = [8, 0, 0, 0, 5, 0, 0, 0, 1, 0, 0, 0];

/// `mach_port_allocate` of a port set.
pub(crate) const ALLOCATE_SET: [u8; 12] = [8, 0, 0, 0, 5, 0, 0, 0, 3, 0, 0, 0];

/// `mach_port_type` of the name 0x100.
pub(crate) const TYPE: [u8; 12] = [8, 0, 0, 0, 2, 0, 0, 0, 0, 1, 0, 0];

/// The answer to the first allocation: the name 0x100.
pub(crate) const ALLOCATED: [u8; 16] = [12, 0, 0, 0, 5, 0, 0, 0, 0, 0, 0, 0, 0, 1, 0, 0];

/// How a run on one caller ended.
#[derive(Drop)]
pub(crate) struct Run {
    pub(crate) output: Vec<u8>,
    pub(crate) end: Result<(), ServeFault>,
}

/// The caller of the store on a disk, or the disk if the store can't be opened.
pub(crate) fn caller<D: Disk + Drop>(alloc: Global, disk: D) -> Result<Alone<D>, D> {
    match open(alloc, disk) {
        Ok(opened) => Ok(Alone::new(alloc, opened)),
        Err((_, disk)) => Err(disk),
    }
}

/// Serves an input on a caller.
pub(crate) fn serve_on<C: Caller>(alloc: Global, caller: &mut C, input: &[u8]) -> Run {
    let mut rest = input;
    let mut output = Vec::new(alloc);
    let end = serve(alloc, &mut rest, &mut output, caller);
    Run { output, end }
}

/// Serves an input on the store of a disk, if it can be opened. The disk is what is left of it.
pub(crate) fn served<D: Disk + Drop>(alloc: Global, disk: D, input: &[u8]) -> (Option<Run>, D) {
    match caller(alloc, disk) {
        Ok(mut caller) => {
            let run = serve_on(alloc, &mut caller, input);
            (Some(run), caller.into_disk())
        }
        Err(disk) => (None, disk),
    }
}

/// Two allocations and a type.
pub(crate) fn three_calls() -> [u8; 36] {
    let mut input = [0; 36];
    input[..12].copy_from_slice(&ALLOCATE);
    input[12..24].copy_from_slice(&ALLOCATE_SET);
    input[24..].copy_from_slice(&TYPE);
    input
}
