//! A caller that is given time between frames, and breaks in it.
use crate::expect::same;
use crate::frames::{ALLOCATED, Run, caller, serve_on, three_calls};
use crate::store::Store;
use disk::MemDisk;
use ipc_model::{Call, Reply};
use server::{Caller, ServeFault, serve};
use std::alloc::Global;
use store_fault::StoreFault;

/// The answer to the second allocation: the name 0x101.
const ALLOCATED_NEXT: [u8; 16] = [12, 0, 0, 0, 5, 0, 0, 0, 0, 0, 0, 0, 1, 1, 0, 0];

/// A caller that takes time `bears` times, and breaks the next time.
#[derive(Drop)]
struct Tiring<C> {
    caller: C,
    bears: u32,
}

impl<C: Caller> Caller for Tiring<C> {
    ghost answers = { λ _ _ _ _. Unit {0} };

    ghost fails = { λ _ _ _ _. Unit {0} };

    ghost rests = { λ _ _. Unit {0} };

    ghost breaks = { λ _ _ _. Unit {0} };

    fn call(&mut self, call: Call) -> Result<Reply, StoreFault> {
        self.caller.call(call)
    }

    fn confine(&mut self) -> Result<Reply, StoreFault> {
        self.caller.confine()
    }

    fn rest(&mut self) -> Result<bool, StoreFault> {
        match self.bears.checked_sub(1) {
            Some(left) => {
                self.bears = left;
                Ok(true)
            }
            None => Err(StoreFault::Device),
        }
    }
}

/// Serves an input on a caller that breaks: how it ended, and how many bytes weren't read.
fn serve_tiring<C: Caller + Drop>(
    alloc: Global,
    caller: C,
    bears: u32,
    input: &[u8],
) -> (Run, usize) {
    let mut tiring = Tiring { caller, bears };
    let mut rest = input;
    let mut output = Vec::new(alloc);
    let end = serve(alloc, &mut rest, &mut output, &mut tiring);
    (Run { output, end }, rest.len())
}

/// Three calls on a new store, whose caller takes time after `bears` replies.
fn tired<S: Store + Drop>(alloc: Global, bears: u32) -> Option<(Run, usize)> {
    let caller = caller(alloc, S::empty(alloc)).ok()?;
    Some(serve_tiring(alloc, caller, bears, &three_calls()))
}

/// Returns whether only the two allocations were answered.
fn has_two_replies(run: &Run) -> bool {
    match run.output.split_at_checked(16) {
        Some((first, second)) => first == ALLOCATED.as_slice()
            && second == ALLOCATED_NEXT.as_slice(),
        None => false,
    }
}

fn tired_once<S: Store + Drop>(alloc: Global) -> Option<(bool, Result<(), ServeFault>, usize)> {
    let (run, unread) = tired::<S>(alloc, 1)?;
    Some((has_two_replies(&run), run.end, unread))
}

#[test]
fn a_fault_after_a_reply_ends_after_it(rt: HostRuntime) {
    let seen = tired_once::<MemDisk>(rt.alloc());
    // The third frame has twelve bytes.
    let end = Err(ServeFault::Store(StoreFault::Device));
    same(&rt, seen, Some((true, end, 12)));
}
