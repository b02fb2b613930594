use crate::expect::same_in_row;
use crate::frames::{served, three_calls};
use crate::lists::KINDS;
use crate::store::Store;
use disk::{Disk, MemDisk, Torn};
use ipc_model::{PlainReply, Reply};
use server::{Opened, open};
use std::alloc::Global;

/// Returns whether a name has this type.
fn has_type<D: Disk>(opened: &Opened<D>, name: u32, bits: u32) -> bool {
    match opened.kernel.port_type(1, name) {
        Reply::Plain(PlainReply::Type { bits: acknowledged }) => acknowledged == bits,
        _ => false,
    }
}

/// How many records a store has, and whether it knows the port and the set.
type Known = (u64, bool, bool);

fn known<D: Disk>(opened: &Opened<D>) -> Known {
    (
        opened.segment.records,
        has_type(opened, 0x100, 0x20000),
        has_type(opened, 0x101, 0x80000),
    )
}

/// What a store knows, if it can be opened.
fn known_again<D: Disk + Drop>(alloc: Global, disk: D) -> Option<Known> {
    match open(alloc, disk) {
        Ok(opened) => {
            let known = known(&opened);
            drop(opened);
            Some(known)
        }
        Err(_) => None,
    }
}

/// Three calls on a new store, up to a planned crash: how many of them were answered, each with 16 bytes, and what a
/// store that the crash left knows again.
fn stopped<S: Store + Drop>(alloc: Global, stop_at: u64, torn: Torn) -> (u64, Option<Known>) {
    let mut disk = S::empty(alloc);
    disk.plan_faults(Some(stop_at), None, torn);
    let (run, disk) = served(alloc, disk, &three_calls());
    let acknowledged = match &run {
        Some(run) => run.output.len() as u64 / 16,
        None => 0,
    };
    drop(run);
    match disk.stop() {
        Some(disk) => (acknowledged, known_again(alloc, disk)),
        None => (acknowledged, None),
    }
}

/// Returns whether a crash at this device call left what was answered.
fn is_left(stop_at: u64, seen: (u64, Option<Known>)) -> bool {
    let (acknowledged, Some((found, port, set))) = seen else {
        return false;
    };
    // The call after the last answered one was being made; the third has no record.
    let is_found = acknowledged.min(2) <= found && found <= acknowledged.saturating_add(1).min(2);
    is_found && (port, set, acknowledged == 3) == (1 <= found, 2 <= found, stop_at == 32)
}

#[test]
fn a_crash_leaves_the_calls_that_were_answered(rt: HostRuntime) {
    // A new store is made with 23 device calls, and two appends make eight.
    for torn in &KINDS {
        for stop_at in 1..33 {
            let seen = stopped::<MemDisk>(rt.alloc(), stop_at, *torn);
            same_in_row(&rt, (torn, stop_at, seen), is_left(stop_at, seen), true);
        }
    }
}
