ghost use Rattle.std.specs.Prelude.{◌≡◌, ◌≤◌, [], IfOk};
ghost use Rattle.std.specs.VecDeque.{deque_capacity};
ghost use Rattle.frame_service.specs.declared.rounds.TheConstants.{MOST_PENDING_FRAMES};

use crate::asking::PendingFrame;
use crate::rounds::MOST_PENDING_FRAMES;
use std::alloc::{AllocError, Global};
use std::collections::VecDeque;

/// The frames of a connection that are in hand, in order, with room for as many as may be. It has no bound, so that a
/// struct that holds a conversation has none to repeat.
#[derive(Drop)]
pub struct PendingFrames<T> {
    pub(crate) frames: VecDeque<PendingFrame<T>>,

    ghost room: { MOST_PENDING_FRAMES ≤ deque_capacity frames },
}

impl<T: Drop> PendingFrames<T> {
    /// Allocates room for as many frames as may be in hand.
    pub fn new(alloc: Global) -> Result<Self, AllocError>
        ensures { IfOk result (λ pending. pending.frames.items ≡ []) }
    {
        let frames = VecDeque::with_capacity(alloc, MOST_PENDING_FRAMES)?;
        Ok(PendingFrames { frames })
    }
}
