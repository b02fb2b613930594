//! A gate that holds a loop up at one step.

use crate::flag::Flag;
use sessions::{Gate, LoopStep};
use std::sync::Wait;
use std::time::Clock;

/// For how many milliseconds, and then how many turns of other threads, a reply mustn't come.
const MILLISECONDS: u32 = 100;

const TURNS: u32 = 100_000;

/// What becomes of the loop that is held up.
#[derive(Drop)]
pub(crate) struct Stay {
    pub(crate) has_come: Flag,
    pub(crate) may_go: Flag,
    /// It wasn't let go in time, and went on.
    pub(crate) was_late: Flag,
    /// A checkpoint is over.
    pub(crate) has_finished: Flag,
}

impl Stay {
    pub(crate) fn new() -> Stay {
        Stay {
            has_come: Flag::new(),
            may_go: Flag::new(),
            was_late: Flag::new(),
            has_finished: Flag::new(),
        }
    }

    /// Holds the loop up until it may go on.
    pub(crate) fn hold<R: Clock>(&self, rt: &R) {
        self.has_come.set();
        if !self.may_go.comes(rt) {
            self.was_late.set();
        }
    }

    /// Watches for a reply while the loop is held up, and lets it go. Returns whether it was held up, and whether the
    /// reply came nevertheless.
    pub(crate) fn watch<R: Clock>(&self, rt: &R, has_answered: &Flag) -> (bool, bool) {
        let has_come = self.has_come.comes(rt);
        let came_early = has_answered.comes_within(rt, MILLISECONDS)
            || has_answered.comes_in_turns(TURNS);
        let was_held = has_come && !self.was_late.is_set();
        self.may_go.set();
        (was_held, came_early)
    }
}

/// A gate that holds up any thread that comes to a step, until it may go on.
#[derive(Drop)]
pub(crate) struct Stop<'a, R> {
    pub(crate) rt: &'a R,
    pub(crate) at: LoopStep,
    pub(crate) stay: &'a Stay,
}

impl<'a, C: Clock> Gate for Stop<'a, C> {
    fn pass<R: Wait>(&self, _rt: &R, step: LoopStep) {
        if step == self.at {
            self.stay.hold(self.rt);
        }
        if step == LoopStep::Finished {
            self.stay.has_finished.set();
        }
    }
}
