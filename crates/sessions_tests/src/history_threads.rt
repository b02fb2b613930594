//! Two threads and a history: one of them sets a cell.
ghost use Rattle.std.specs.Prelude.{◌≡◌};
ghost use Rattle.std.specs.Arc.{arc_value};

use crate::entries::{add, row_of, space_at};
use crate::expect::same;
use history::{EntryBlock, Founding, Past};
use std::alloc::{AllocError, Global};
use std::marker::Brand;
use std::sync::Arc;
use std::thread::{Threads, join};

/// Adds an entry, and says whether it could.
fn tried<L: Founding>(mut past: Past<L>, space: u32) -> (bool, Past<L>) {
    let added = add(&mut past, space).is_ok();
    (added, past)
}

/// The space of the first call that one learns of another.
fn first_of<L: Founding>(shorter: &mut Past<L>, longer: &mut Past<L>) -> Option<u32> {
    let _ = shorter.catch_up(longer);
    space_at(shorter, 0)
}

/// What the one whose entry wasn't added learns of the other, and what was added.
fn read_by_the_other<L: Founding>(
    first: bool,
    one: &mut Past<L>,
    other: &mut Past<L>,
) -> (Option<u32>, u32) {
    if first {
        (first_of(other, one), 1)
    } else {
        (first_of(one, other), 2)
    }
}

/// Two threads add an entry to the same entry block. Returns whether exactly one did, and the other learns what it
/// added.
fn raced<L: Founding + Send + Sync, R: Threads + Sync>(
    rt: &R,
    alloc: Global,
    row: Arc<EntryBlock, Global>,
) -> Result<bool, AllocError>
    requires { arc_value row ≡ L.first }
{
    let mut one: Past<L> = Past::new(alloc, row);
    let other = one.again();
    let other = other?;
    let ((first, mut one), (second, mut other)) = join(
        rt,
        move || tried(one, 1),
        move || tried(other, 2),
    );
    let (space, wanted) = read_by_the_other(first, &mut one, &mut other);
    Ok(first != second && space == Some(wanted))
}

/// The same in a new entry block.
fn raced_on_new<R: Threads + Sync>(rt: &R, alloc: Global) -> Option<bool> {
    let row = row_of(alloc, 2).ok()?;
    raced::<Brand, R>(rt, alloc, row).ok()
}

#[test]
fn one_of_two_threads_sets_a_cell(rt: HostRuntime) {
    same(&rt, raced_on_new(&rt, rt.alloc()), Some(true));
}
