ghost use Rattle.std.specs.Prelude.{◌≡◌, ◌≢◌, ◌≤◌, ◌<◌, length, IfErr, IfOk, IfSome, OnOk};
ghost use Rattle.ipc_model.specs.calls.Refusals.{refused_of};
ghost use Rattle.ipc_model.specs.encodings.Encodings.{reply_encoding};
ghost use Rattle.frame_service.specs.Serving.{AnswersBoth, AnswersMessage, AnswersRequest, Ends, FailsBoth, FailsMessage, FailsRequest, IsAnswered, IsFailed, only_code};

use crate::Caller;
use calls::{CallFault, Request, read_request, reply_frame};
use codes::{KernReturn, MACH_PORT_NULL, MAX_FRAME_CONTENT, NUMBERED};
use ipc_model::{Call, PlainReply, Reply};
use std::alloc::Global;
use std::io::{Read, Write};
use store_fault::StoreFault;
use wire::{Frame, WireFault, read_frame, write_frame};

/// Why a connection ended before the end of its input.
#[derive(Clone, Copy, Debug, PartialEq, Eq)]
pub enum ServeFault {
    /// Reading a frame or writing a reply failed.
    Wire(WireFault),
    /// The store failed.
    Store(StoreFault),
}

impl From<WireFault> for ServeFault {
    ghost use Rattle.std.specs.Prelude.{◌≡◌};
    ghost use Rattle.frame_service.specs.declared.service.ServeFault.TheVariants.{Wire};

    ghost from_gives = { λ fault e. e ≡ Wire fault };

    fn from(fault: WireFault) -> Self {
        ServeFault::Wire(fault)
    }
}

impl From<StoreFault> for ServeFault {
    ghost use Rattle.std.specs.Prelude.{◌≡◌};
    ghost use Rattle.frame_service.specs.declared.service.ServeFault.TheVariants.{Store};

    ghost from_gives = { λ fault e. e ≡ Store fault };

    fn from(fault: StoreFault) -> Self {
        ServeFault::Store(fault)
    }
}

/// Serves one connection up to the end of its input: reads frame by frame, and writes the reply of each before the next
/// is read. After each reply the caller is given time.
pub fn serve<R: Read, W: Write, C: Caller>(
    alloc: Global,
    reader: &mut R,
    writer: &mut W,
    caller: &mut C,
) -> Result<(), ServeFault>
    // All that was read, called and written, by how it ended.
    ensures ended { IfSome (R.remaining reader.old) (λ input. IfSome (W.contents writer.old) (λ before.
        Ends C.answers C.fails C.rests C.breaks caller.old caller.new input before (R.remaining reader.new)
        (W.contents writer.new) result)) }
{
    let Ok(mut reply) = Frame::with_room(alloc, MAX_FRAME_CONTENT as usize) else {
        return Err(ServeFault::Wire(WireFault::NoMemory));
    };
    for _ in 0..u64::MAX {
        let Some(request) = read_frame(alloc, reader)? else {
            return Ok(());
        };
        answer(alloc, caller, &request, &mut reply)?;
        drop(request);
        write_frame(writer, &reply)?;
        if writer.flush().is_err() {
            return Err(ServeFault::Wire(WireFault::Device));
        }
        caller.rest()?;
    }
    Err(ServeFault::Wire(WireFault::Device))
}

/// Makes the calls that a frame asks for, and writes the reply into the other frame. A frame that asks for nothing gets
/// the reply for that.
fn answer<C: Caller>(
    alloc: Global,
    caller: &mut C,
    request: &Frame,
    reply: &mut Frame,
) -> Result<(), StoreFault>
    requires { MAX_FRAME_CONTENT ≤ reply.old.room }
    ensures room { reply.old.room ≤ reply.new.room }
    ensures answered { OnOk result ((answer : Reply) × (reply.new.content ≡ reply_encoding answer)
        × IsAnswered C.answers caller.old request.now.content answer caller.new) }
    ensures failed { IfErr result
        (λ fault. IsFailed C.answers C.fails caller.old request.now.content fault caller.new) }
{
    let answer = answer_of(alloc, caller, request)?;
    reply_frame(&answer, reply);
    drop(answer);
    Ok(())
}

/// The reply to a frame, after the calls that it asks for were made.
fn answer_of<C: Caller>(alloc: Global, caller: &mut C, request: &Frame) -> Result<Reply, StoreFault>
    ensures answered { IfOk result (λ reply. IsAnswered C.answers caller.old request.now.content reply caller.new) }
    ensures failed { IfErr result
        (λ fault. IsFailed C.answers C.fails caller.old request.now.content fault caller.new) }
    ensures fits { IfOk result (λ reply. length (reply_encoding reply) ≤ MAX_FRAME_CONTENT) }
{
    match read_request(alloc, request.content()) {
        Ok(asked) => answer_request(alloc, caller, asked),
        Err(CallFault::NoCall) => Ok(no_call(alloc, request.number())),
        Err(CallFault::NoMemory) => Ok(no_memory(alloc, request.number())),
    }
}

/// Makes the calls that a frame asks for.
fn answer_request<C: Caller>(
    alloc: Global,
    caller: &mut C,
    asked: Request,
) -> Result<Reply, StoreFault>
    ensures answered { IfOk result (λ reply. AnswersRequest C.answers caller.old asked reply caller.new) }
    ensures failed { IfErr result (λ fault. FailsRequest C.answers C.fails caller.old asked fault caller.new) }
    ensures fits { IfOk result (λ reply. length (reply_encoding reply) ≤ MAX_FRAME_CONTENT) }
{
    match asked {
        Request::One(call) => caller.call(call),
        Request::Message(message) => answer_message(alloc, caller, message.send, message.receive),
        Request::Answered(code) => Ok(only_code(alloc, code)),
        Request::Confine => caller.confine(),
    }
}

/// Makes the calls of a `mach_msg`.
fn answer_message<C: Caller>(
    alloc: Global,
    caller: &mut C,
    send: Option<Call>,
    receive: Option<Call>,
) -> Result<Reply, StoreFault>
    ensures answered { IfOk result (λ reply. AnswersMessage C.answers caller.old send receive reply caller.new) }
    ensures failed { IfErr result (λ fault. FailsMessage C.answers C.fails caller.old send receive fault caller.new) }
    ensures fits { IfOk result (λ reply. length (reply_encoding reply) ≤ MAX_FRAME_CONTENT) }
{
    match (send, receive) {
        (Some(send), Some(receive)) => send_and_receive(caller, send, receive),
        (Some(call), None) | (None, Some(call)) => caller.call(call),
        (None, None) => Ok(only_code(alloc, KernReturn::Success)),
    }
}

/// Makes a send and, if it is done, a receive.
fn send_and_receive<C: Caller>(
    caller: &mut C,
    send: Call,
    receive: Call,
) -> Result<Reply, StoreFault>
    ensures answered { IfOk result (λ reply. AnswersBoth C.answers caller.old send receive reply caller.new) }
    ensures failed { IfErr result (λ fault. FailsBoth C.answers C.fails caller.old send receive fault caller.new) }
    ensures fits { IfOk result (λ reply. length (reply_encoding reply) ≤ MAX_FRAME_CONTENT) }
{
    let sent = caller.call(send)?;
    if !sent.is_success() {
        drop(receive);
        return Ok(sent);
    }
    drop(sent);
    caller.call(receive)
}

/// The answer to a frame that asks for nothing.
pub(crate) fn no_call(alloc: Global, number: u32) -> Reply
    ensures answer { result ≡ refused_of number KernReturn.InvalidArgument }
    ensures fits { length (reply_encoding result) ≤ MAX_FRAME_CONTENT }
{
    Reply::refused(alloc, number, KernReturn::InvalidArgument)
}

/// The answer to a send with this number, 22 if it is numbered, for whose message there is no memory.
pub(crate) fn no_memory(alloc: Global, number: u32) -> Reply
    ensures numbered { number ≡ NUMBERED → result ≡ refused_of NUMBERED KernReturn.ResourceShortage }
    ensures other { number ≢ NUMBERED → result ≡ only_code KernReturn.SendNoBuffer }
    ensures fits { length (reply_encoding result) ≤ MAX_FRAME_CONTENT }
{
    if number == NUMBERED {
        Reply::refused(alloc, NUMBERED, KernReturn::ResourceShortage)
    } else {
        only_code(alloc, KernReturn::SendNoBuffer)
    }
}

/// The answer of `mach_msg` that has only a code.
pub(crate) fn only_code(alloc: Global, code: KernReturn) -> Reply
    ensures answer { result ≡ only_code code }
    ensures fits { length (reply_encoding result) ≤ MAX_FRAME_CONTENT }
{
    Reply::Plain(PlainReply::without_message(alloc, code, 0, MACH_PORT_NULL))
}
