//! Which places a call looks up that may give a waiting call something to do.

use crate::expect::same;
use disk::MemDisk;
use ipc_model::{Call, PlainCall};
use std::alloc::Global;
use system::{KernelHalf, Opened, open};
use waiting::Places;

/// Makes an allocation on a new store, with these places. Returns whether it was made.
fn is_made(alloc: Global, places: &mut Places) -> bool {
    let Ok(opened) = open(alloc, MemDisk::new(alloc)) else {
        return false;
    };
    let Opened {
        kernel,
        disk,
        segment,
    } = opened;
    drop(disk);
    let mut half = KernelHalf::new(alloc, kernel, segment.epoch, segment.records);
    let call = Call::Plain(PlainCall::Allocate { right: 1 });
    let is_made = half.submit(1, &call, places).is_ok();
    drop(half);
    is_made
}

/// Returns whether an allocation is made, and whether it lists no place, if all places are named before or none is.
fn lists_none(alloc: Global, are_all: bool) -> (bool, bool) {
    let mut places = Places::none(alloc);
    if are_all {
        places.add_all();
    }
    let is_made = is_made(alloc, &mut places);
    (is_made, places.changed().is_empty())
}

#[test]
fn no_place_is_looked_up_if_all_are_named(rt: HostRuntime) {
    same(&rt, lists_none(rt.alloc(), true), (true, true));
    same(&rt, lists_none(rt.alloc(), false), (true, false));
}
