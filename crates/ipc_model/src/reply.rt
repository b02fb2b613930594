use crate::PlainReply;
use codes::KernReturn;
use std::alloc::{AllocError, Global};

/// The reply to a numbered call. A space keeps that of its last one.
#[derive(Drop)]
pub struct NumberedReply {
    /// The task's number for the call.
    pub request: u32,
    pub reply: PlainReply,
}

impl NumberedReply {
    ghost use Rattle.std.specs.Prelude.{◌≡◌, ◌↔◌, IfOk, IsTrue};

    /// The same reply again. If an allocation fails, there is none.
    pub fn copy(&self, alloc: Global) -> Result<NumberedReply, AllocError>
        ensures { IfOk result (λ copy. copy ≡ self.now) }
    {
        Ok(NumberedReply {
            request: self.request,
            reply: self.reply.copy(alloc)?,
        })
    }

    /// Returns whether two replies are the same.
    pub fn is_same(&self, other: &NumberedReply) -> bool
        ensures { IsTrue result ↔ (self.now ≡ other.now) }
    {
        self.request == other.request && self.reply.is_same(&other.reply)
    }
}

/// The answer to a call.
#[derive(Drop)]
pub enum Reply {
    /// To a plain call, or the refusal of a numbered one.
    Plain(PlainReply),
    /// To a numbered call that was made.
    Numbered(NumberedReply),
    /// To a numbered call that had been made before: its reply, again. In bytes it is the same as the first one.
    Repeated(NumberedReply),
}

impl Reply {
    ghost use Rattle.std.specs.Prelude.{◌≡◌};
    ghost use Rattle.ipc_model.specs.calls.Refusals.{refused_of};
    ghost use Rattle.ipc_model.specs.calls.Step.{succeeded};

    /// The reply that refuses the call with this number. It takes no memory.
    pub fn refused(alloc: Global, number: u32, code: KernReturn) -> Self
        ensures { result ≡ refused_of number code }
    {
        Reply::Plain(PlainReply::refused(alloc, number, code))
    }

    /// Returns whether the call was done, which is code 0; of a numbered one, whether the call that it numbers was.
    pub fn is_success(&self) -> bool
        ensures { result ≡ succeeded self.now }
    {
        match self {
            Reply::Plain(reply) => reply.is_success(),
            Reply::Numbered(answer) | Reply::Repeated(answer) => answer.reply.is_success(),
        }
    }
}
