use std::sync::Wait;

/// The steps of the loops, before each of which a gate is passed.
#[derive(Clone, Copy, PartialEq, Eq)]
pub enum LoopStep {
    /// Records are waited for, and taken.
    Take,
    /// They are stored.
    Append,
    /// The kernel's half learns that they are.
    Durable,
    /// An epoch ends.
    Cut,
    /// The next segment's slot is closed.
    RollClose,
    /// Its header is written.
    RollHead,
    /// It is opened.
    RollOpen,
    /// The next image's slot is closed.
    ImageClose,
    /// A piece of the image is written: the first is 0.
    Piece(u64),
    /// The image is finished.
    Finish,
    /// The kernel's half learns that the checkpoint is over.
    Finished,
    /// A piece of the segment that nothing needs any more is truncated.
    Clear,
}

/// May hold a loop up between its steps, as tests do.
pub trait Gate: Drop {
    /// Is called with no lock held, just before a step.
    fn pass<R: Wait>(&self, rt: &R, step: LoopStep);
}

/// A gate that holds no loop up.
#[derive(Clone, Copy)]
pub struct OpenGate;

impl Gate for OpenGate {
    fn pass<R: Wait>(&self, _rt: &R, _step: LoopStep) {}
}
