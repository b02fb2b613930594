//! The time and the memory for opening a store, by its records.

use crate::Fault;
use crate::context::{Context, Folder, hundredths};
use crate::lines::{Maker, make_line};
use crate::makers::open_core;
use crate::messages::{BY_SEND, send_line};
use crate::watched::{Watch, Watched};
use crate::ways::HERE;
use disk::{Disk, Slot};
use server::{System, open};
use std::alloc::Global;

/// A small call, and the one that undoes it.
const SMALL: (&str, &str) = ("allocate receive", "destroy 0x102");

/// The call that receives the message of 8 KiB that was sent.
const RECEIPT: &str = "receive 0x100 limit 8192";

/// Numbers of pairs of calls, after the two calls with which each store begins: 32,768 and 65,536 records.
const HALF: u32 = 16_383;

const ALL: u32 = 32_767;

/// Makes two ports, then pairs of calls.
fn make_records<M: Maker>(
    alloc: Global,
    maker: &mut M,
    pair: (&str, &str),
    count: u32,
) -> Result<(), Fault> {
    make_line(alloc, maker, (HERE, "allocate receive", 0, 2))?;
    for _ in 0..count {
        make_line(alloc, maker, (HERE, pair.0, 0, 1))?;
        make_line(alloc, maker, (HERE, pair.1, 0, 1))?;
    }
    Ok(())
}

/// Makes a store with these records on a disk that has none, without syncs.
fn make_store<D: Disk + Drop>(
    alloc: Global,
    disk: D,
    pair: (&str, &str),
    count: u32,
) -> Result<D, Fault> {
    let watch = Watch::new(false);
    let watched = Watched {
        disk,
        watch: &watch,
    };
    let mut core = open_core(alloc, watched)?;
    let made = make_records(alloc, &mut core, pair, count);
    let disk = core.into_disk().disk;
    made?;
    Ok(disk)
}

/// Returns the time for opening a store, and the store's disk.
pub(crate) fn time_opening<D: Disk + Drop>(
    context: &Context<'_>,
    disk: D,
) -> Result<(u64, D), Fault> {
    let start = context.nanos();
    let opened = open(context.alloc, disk);
    let nanos = context.since(start);
    match opened {
        Ok(opened) => Ok((nanos, System::new(context.alloc, opened).into_disk())),
        Err(_) => Err(Fault::Store),
    }
}

/// Returns the shortest of three times to open a store, and the store's disk.
pub(crate) fn shortest_opening<D: Disk + Drop>(
    context: &Context<'_>,
    disk: D,
) -> Result<(u64, D), Fault> {
    let (first, disk) = time_opening(context, disk)?;
    let (second, disk) = time_opening(context, disk)?;
    let (third, disk) = time_opening(context, disk)?;
    Ok((first.min(second).min(third), disk))
}

/// Returns the microseconds for opening a store with this many pairs of small records, on a disk that has none.
fn micros_of_small<D: Disk + Drop>(
    context: &Context<'_>,
    disk: Result<D, Fault>,
    count: u32,
) -> Result<u64, Fault> {
    let disk = make_store(context.alloc, disk?, SMALL, count)?;
    let (nanos, _) = shortest_opening(context, disk)?;
    Ok(nanos / 1_000)
}

/// Makes a store with messages of 8 KiB and their receives, on a disk that has none.
fn store_of_messages<D: Disk + Drop>(context: &Context<'_>, disk: D) -> Result<D, Fault> {
    let line = send_line(context.alloc, BY_SEND, 8_192, 0)?;
    make_store(context.alloc, disk, (line.as_str(), RECEIPT), ALL)
}

/// Prints the memory for opening such a store.
fn print_memory<D: Disk + Drop>(
    context: &Context<'_>,
    disk: Result<D, Fault>,
) -> Result<(), Fault> {
    let disk = store_of_messages(context, disk?)?;
    let length = disk.length(Slot::Segment0) / 1_024;
    let before = context.memory("VmHWM:");
    let (nanos, _) = time_opening(context, disk)?;
    let after = context.memory("VmHWM:");
    context.print_row(
        "a segment of 8 KiB messages: kB; the most memory before opening it and after, kB; the opening and its syncs, ms",
        &[length, before, after, nanos / 1_000_000],
        &[],
    );
    Ok(())
}

/// Prints the time for opening stores of small records, and the memory for opening one of large records.
pub(crate) fn print_openings<F: Folder>(context: &Context<'_>, folder: &F) -> Result<(), Fault> {
    print_memory(context, folder.new_files())?;
    let half = micros_of_small(context, folder.new_files(), HALF)?;
    let all = micros_of_small(context, folder.new_files(), ALL)?;
    context.print_row(
        "microseconds for opening 32,768 small records, and 65,536; how many times as long",
        &[half, all],
        &[hundredths(all, half)],
    );
    Ok(())
}
