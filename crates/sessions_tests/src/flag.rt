//! What one thread tells others while they run.

use std::sync::atomic::{AtomicBool, Ordering};
use std::thread::{sleep, yield_now};
use std::time::{Clock, Duration};

/// For how many turns of a millisecond a thread waits for what has to come.
const MOST_TURNS: u32 = 10_000;

/// Something that may have happened.
#[derive(Drop)]
pub(crate) struct Flag {
    is_set: AtomicBool,
}

impl Flag {
    pub(crate) fn new() -> Flag {
        Flag {
            is_set: AtomicBool::new(false),
        }
    }

    pub(crate) fn set(&self) {
        self.is_set.store(true, Ordering::SeqCst);
    }

    pub(crate) fn is_set(&self) -> bool {
        self.is_set.load(Ordering::SeqCst)
    }

    /// Waits until it is set. Returns whether it was, before `turns` turns were over.
    pub(crate) fn comes_within<R: Clock>(&self, rt: &R, turns: u32) -> bool {
        for _ in 0..turns {
            if self.is_set() {
                return true;
            }
            sleep(rt, Duration::from_millis(1));
        }
        false
    }

    /// Returns whether it is set while this thread gives way to others this many times.
    pub(crate) fn comes_in_turns(&self, turns: u32) -> bool {
        for _ in 0..turns {
            if self.is_set() {
                return true;
            }
            yield_now();
        }
        false
    }

    /// Waits until it is set, which has to happen. Returns whether it was.
    pub(crate) fn comes<R: Clock>(&self, rt: &R) -> bool {
        self.comes_within(rt, MOST_TURNS)
    }
}
