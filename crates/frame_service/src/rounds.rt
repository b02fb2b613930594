ghost use Rattle.std.specs.Prelude.{◌≡◌, ◌≤◌, [], IfSome};
ghost use Rattle.std.specs.VecDeque.{deque_capacity, deque_len};
ghost use Rattle.frame_service.specs.Boxes.{inbox_remaining};
ghost use Rattle.frame_service.specs.Asking.{TookFrames, TookNext};
ghost use Rattle.frame_service.specs.declared.rounds.TheConstants.{MOST_PENDING_FRAMES};

use crate::Inbox;
use crate::ahead::{holds_frame, whole_frame};
use crate::asking::{Asker, PendingFrame};
use crate::taking::take_frame;
use std::alloc::Global;
use std::collections::VecDeque;
use std::io::Read;
use wire::{WireFault, read_frame};

/// How many bytes a frame's length takes.
const LENGTH_BYTES: usize = 4;

/// How many frames of a connection are in hand at most.
pub const MOST_PENDING_FRAMES: usize = 64;

/// Takes the next frame, and all others that are there, up to a call that has to wait. Returns whether the input goes
/// on.
pub(crate) fn take_frames<S: Read, A: Asker>(
    alloc: Global,
    inbox: &mut Inbox<S>,
    asker: &mut A,
    all_pending: &mut VecDeque<PendingFrame<A::Ticket>>,
) -> Result<bool, WireFault>
    requires none { (all_pending.old.items ≡ []) × (deque_len all_pending.old ≡ 0) }
    requires capacity { MOST_PENDING_FRAMES ≤ deque_capacity all_pending.old }
    ensures capacity { MOST_PENDING_FRAMES ≤ deque_capacity all_pending.new }
    ensures took { IfSome (inbox_remaining S.remaining inbox.old) (λ input.
        TookFrames A.answer A.makes A.lacks A.acknowledges A.fails A.looks asker.old asker.new all_pending.new.items
        input (inbox_remaining S.remaining inbox.new) result) }
{
    for _ in 0..MOST_PENDING_FRAMES {
        let Some(pending) = take_next(alloc, inbox, asker)? else {
            return Ok(false);
        };
        let waits = waits(&pending);
        all_pending.push_back_reserved(pending);
        if waits {
            return Ok(true);
        }
        if !holds_frame(inbox.unread()) {
            return Ok(true);
        }
    }
    Ok(true)
}

/// Takes the next frame in hand, where it lies if all of it has come: it isn't copied then. `None`: the input has ended.
fn take_next<S: Read, A: Asker>(
    alloc: Global,
    inbox: &mut Inbox<S>,
    asker: &mut A,
) -> Result<Option<PendingFrame<A::Ticket>>, WireFault>
    ensures { IfSome (inbox_remaining S.remaining inbox.old) (λ input. TookNext A.answer A.makes A.lacks asker.old input
        result asker.new (inbox_remaining S.remaining inbox.new)) }
{
    if let Some((content, _)) = whole_frame(inbox.unread()) {
        let count = LENGTH_BYTES + content.len();
        let pending = take_frame(alloc, asker, content);
        inbox.advance(count);
        return Ok(Some(pending));
    }
    match read_frame(alloc, inbox)? {
        Some(frame) => Ok(Some(take_frame(alloc, asker, frame.content()))),
        None => Ok(None),
    }
}

/// Returns whether a frame in hand has calls that are to be made again after a wait.
fn waits<T>(pending: &PendingFrame<T>) -> bool {
    match pending {
        PendingFrame::Settled(_) => false,
        PendingFrame::Waits(_) => true,
    }
}
