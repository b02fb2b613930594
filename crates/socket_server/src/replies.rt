//! Where a worker encodes replies.
ghost use Rattle.std.specs.Prelude.{◌≤◌};
ghost use Rattle.codes.specs.declared.limits.TheConstants.{MAX_FRAME_CONTENT};
ghost use Rattle.frame_service.specs.Conversing.{Kept};

use codes::MAX_FRAME_CONTENT;
use frame_service::{Asker, Conversation, ServeFault};
use std::alloc::{AllocError, Global};
use std::io::{Read, Write};
use wire::Frame;

/// A frame with room for any reply, used again for each.
#[derive(Drop)]
pub(crate) struct ReplyFrame {
    frame: Frame,

    ghost room: { MAX_FRAME_CONTENT ≤ frame.room },
}

impl ReplyFrame {
    pub(crate) fn new(alloc: Global) -> Result<Self, AllocError> {
        let frame = Frame::with_room(alloc, MAX_FRAME_CONTENT as usize)?;
        Ok(ReplyFrame { frame })
    }

    /// Answers what can be answered of a conversation by this report.
    pub(crate) fn answer<S: Read, W: Write, A: Asker>(
        &mut self,
        talk: &mut Conversation<S, W, A>,
        known: &mut A::Known,
    ) -> Result<(), ServeFault>
        ensures keeps { Kept S.remaining W.contents A.answer A.makes A.lacks A.acknowledges A.fails A.looks talk.old
            talk.new }
    {
        talk.answer(&mut self.frame, known)
    }
}
