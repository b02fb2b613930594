ghost use Rattle.std.specs.Prelude.{◌≡◌, ◌≤◌, false, length, IfErr, IfOk, OnOk};
ghost use Rattle.ipc_model.specs.calls.PlainStep as plain;
ghost use Rattle.ipc_model.specs.calls.Step.{has_record};
ghost use Rattle.ipc_model.specs.encodings.PlainCalls as plain_calls;
ghost use Rattle.calls.specs.declared.request.Request.{Request};
ghost use Rattle.ipc_model.specs.declared.reply.Reply.{Reply};
ghost use Rattle.ipc_model.specs.encodings.Encodings.{reply_encoding};
ghost use Rattle.store_fault.specs.declared.fault.StoreFault.{StoreFault};
ghost use Rattle.frame_service.specs.Serving.{plain_shortage_of, shortage_of};

use calls::Request;
use codes::{KernReturn, MACH_PORT_NULL, MAX_FRAME_CONTENT, NUMBERED};
use ipc_model::{Call, PlainCall, PlainReply, Reply};
use std::alloc::Global;
use store_fault::StoreFault;

/// Makes the calls of a connection.
pub trait Caller {
    /// What it may answer to what it is asked for, and what it is afterwards. It is asked for one call at a time, or to
    /// confine its connection.
    ghost answers: { Self → Request → Reply → Self → Type 0 };

    /// How that may fail in the store, and what it is afterwards.
    ghost fails: { Self → Request → StoreFault → Self → Type 0 };

    /// What it may be after it was given time between two frames.
    ghost rests: { Self → Self → Type 0 };

    /// How that may fail in the store, and what it is afterwards.
    ghost breaks: { Self → StoreFault → Self → Type 0 };

    /// Makes a call. A reply is given only when all that it reports is stored, and it fits in a frame.
    fn call(&mut self, call: Call) -> Result<Reply, StoreFault>
        ensures answers { IfOk result (λ reply. answers self.old (Request.One call) reply self.new) }
        ensures fits { IfOk result (λ reply. length (reply_encoding reply) ≤ MAX_FRAME_CONTENT) }
        ensures fails { IfErr result (λ fault. fails self.old (Request.One call) fault self.new) };

    /// Confines its connection to the space that it is attached to. The reply is that of number 23.
    fn confine(&mut self) -> Result<Reply, StoreFault>
        ensures answers { IfOk result (λ reply. answers self.old Request.Confine reply self.new) }
        ensures fits { IfOk result (λ reply. length (reply_encoding reply) ≤ MAX_FRAME_CONTENT) }
        ensures fails { IfErr result (λ fault. fails self.old Request.Confine fault self.new) };

    /// Takes time after a frame's reply was written, for what no reply waits for. Returns whether there was memory for
    /// it.
    fn rest(&mut self) -> Result<bool, StoreFault>
        ensures rests { OnOk result (rests self.old self.new) }
        ensures breaks { IfErr result (λ fault. breaks self.old fault self.new) };
}

/// The answer to a call without a number of its task's for which memory or room for the record ran out.
#[tactic(auto, using(crate::proofs::Answered::message_fits, crate::proofs::Answered::refused_fits))]
fn plain_shortage(alloc: Global, call: &PlainCall) -> PlainReply
    ensures answer { result ≡ plain_shortage_of call.now }
    ensures unrecorded { plain.has_record call.now result ≡ false }
    ensures fits { length (plain_calls.reply_encoding result) ≤ MAX_FRAME_CONTENT }
{
    match call {
        PlainCall::Send { .. } => {
            PlainReply::without_message(alloc, KernReturn::SendNoBuffer, 0, MACH_PORT_NULL)
        }
        PlainCall::Receive { .. } => {
            PlainReply::without_message(alloc, KernReturn::RcvHeaderErrorKernel, 0, MACH_PORT_NULL)
        }
        _ => PlainReply::Refused {
            number: call.number(),
            code: KernReturn::ResourceShortage,
        },
    }
}

/// The answer to a call for which memory or room for the record ran out. It takes no memory.
#[tactic(auto, using(crate::proofs::Answered::refused_fits))]
pub fn shortage(alloc: Global, call: &Call) -> Reply
    ensures answer { result ≡ shortage_of call.now }
    ensures unrecorded { has_record call.now result ≡ false }
    ensures fits { length (reply_encoding result) ≤ MAX_FRAME_CONTENT }
{
    match call {
        Call::Plain(call) => Reply::Plain(plain_shortage(alloc, call)),
        Call::Numbered(_) | Call::Unnumberable => Reply::Plain(PlainReply::Refused {
            number: NUMBERED,
            code: KernReturn::ResourceShortage,
        }),
    }
}
