//! The entry blocks of a history: each call that takes memory is done if there is enough. The rest is proved.
ghost use Rattle.std.specs.Prelude.{◌≡◌};
ghost use Rattle.std.specs.Arc.{arc_value};

use crate::entries::{add, add_to_both, begin_block, row_of, space_at};
use crate::expect::same;
use history::{AddFault, CatchUpFault, EntryBlock, Founding, Past};
use std::alloc::{AllocError, Global};
use std::marker::Brand;
use std::sync::Arc;

/// What is seen of one prefix that goes on in a second entry block, and of another that was left behind.
#[derive(Debug, Drop, PartialEq)]
struct Seen {
    /// What became of one more entry, of one more than there is room for, of the second entry block and of an entry
    /// there.
    added: [Result<(), AddFault>; 4],
    agreed: bool,
    caught_up: Result<(), CatchUpFault>,
    /// What became of an entry that was then added to both.
    both: Option<Result<(), AddFault>>,
    /// How many entries the one that was left behind has then, and how many came before its entry block.
    places: [usize; 2],
    /// The spaces of the first three calls of that entry block.
    spaces: [Option<u32>; 3],
}

fn fill<L: Founding>(alloc: Global, past: &mut Past<L>) -> [Result<(), AddFault>; 4] {
    let last = add(past, 11);
    let full = add(past, 12);
    let begun = begin_block(alloc, past, 2);
    [last, full, begun, add(past, 13)]
}

fn read<L: Founding>(late: &mut Past<L>) -> [Option<u32>; 3] {
    [space_at(late, 0), space_at(late, 1), space_at(late, 2)]
}

fn see<L: Founding>(alloc: Global, past: &mut Past<L>, late: &mut Past<L>) -> Seen {
    let added = fill(alloc, past);
    let agreed = late.agree(past);
    let caught_up = late.catch_up(past);
    let both = add_to_both(past, late, 14);
    let places = [late.len(), late.start()];
    let spaces = read(late);
    Seen {
        added,
        agreed,
        caught_up,
        both,
        places,
        spaces,
    }
}

/// Both have the first entry of an entry block of two.
fn see_from<L: Founding>(alloc: Global, row: Arc<EntryBlock, Global>) -> Result<Seen, AllocError>
    requires { arc_value row ≡ L.first }
{
    let mut past: Past<L> = Past::new(alloc, row);
    let _ = add(&mut past, 10);
    let late = past.again();
    let mut late = late?;
    let seen = see(alloc, &mut past, &mut late);
    Ok(seen)
}

/// What is seen if both begin in a new entry block.
fn seen_on_new(alloc: Global) -> Option<Seen> {
    let row = row_of(alloc, 2).ok()?;
    see_from::<Brand>(alloc, row).ok()
}

#[test]
fn one_that_was_left_behind_catches_up(rt: HostRuntime) {
    let wanted = Seen {
        added: [Ok(()), Err(AddFault::BlockFull), Ok(()), Ok(())],
        agreed: true,
        caught_up: Ok(()),
        both: Some(Ok(())),
        places: [4, 2],
        spaces: [Some(13), Some(14), None],
    };
    same(&rt, seen_on_new(rt.alloc()), Some(wanted));
}
