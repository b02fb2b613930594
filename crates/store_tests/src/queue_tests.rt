use crate::expect::same;
use crate::sample::empty;
use queue::{PushFault, Queue};
use std::alloc::Global;

/// Queues empty messages with these ids, and commits that.
fn fill(alloc: Global, queue: &mut Queue, ids: &[u32]) -> Option<()> {
    for id in ids {
        queue.push_forced(empty(alloc, *id)).ok()?;
    }
    queue.commit();
    Some(())
}

/// Returns the id of the message at an index, if there is one.
fn id_at(queue: &Queue, index: u32) -> Option<u32> {
    if index < queue.len() {
        Some(queue.message(index).id)
    } else {
        None
    }
}

/// The ids of the three oldest messages.
type Ids = [Option<u32>; 3];

fn ids(queue: &Queue) -> Ids {
    [id_at(queue, 0), id_at(queue, 1), id_at(queue, 2)]
}

/// A first message was queued, and one regardless of the limit; the results of two pushes under a limit between them;
/// and the number of messages then.
type Pushed = ([Option<()>; 2], [Result<(), PushFault>; 2], u32);

fn pushed(alloc: Global, queue: &mut Queue) -> Pushed {
    let filled = fill(alloc, queue, &[1]);
    let first = queue.push(2, empty(alloc, 2));
    let second = queue.push(2, empty(alloc, 3));
    let forced = queue.push_forced(empty(alloc, 4)).ok();
    ([filled, forced], [first, second], queue.len())
}

#[test]
fn a_queue_is_full_at_its_limit(rt: HostRuntime) {
    let mut queue = Queue::new(rt.alloc());
    let seen = pushed(rt.alloc(), &mut queue);
    drop(queue);
    let answers = [Ok(()), Err(PushFault::Full)];
    same(&rt, seen, ([Some(()); 2], answers, 3));
}

/// Takes one message, and pushes one.
fn take_and_push(alloc: Global, queue: &mut Queue) -> Option<()> {
    queue.take();
    queue.push_forced(empty(alloc, 3)).ok()
}

/// Returns the steps that were done; and the ids of messages after one was taken and one pushed, after a rollback, and
/// after the same is done again and committed.
fn changed(alloc: Global, queue: &mut Queue) -> ([Option<()>; 3], [Ids; 3]) {
    let filled = fill(alloc, queue, &[1, 2]);
    let pushed = take_and_push(alloc, queue);
    let now = ids(queue);
    queue.roll_back();
    let given_up = ids(queue);
    let pushed_again = take_and_push(alloc, queue);
    queue.commit();
    ([filled, pushed, pushed_again], [now, given_up, ids(queue)])
}

#[test]
fn changes_are_committed_or_rolled_back(rt: HostRuntime) {
    let mut queue = Queue::new(rt.alloc());
    let seen = changed(rt.alloc(), &mut queue);
    drop(queue);
    let now = [Some(2), Some(3), None];
    let wanted = [now, [Some(1), Some(2), None], now];
    same(&rt, seen, ([Some(()); 3], wanted));
}
