ghost use Rattle.std.specs.Prelude.{◌≡◌, ◌⊎◌, true, false, None, Some, IfErr, IfOk, length};
ghost use Rattle.ipc_model.specs.calls.Step.{succeeded};
ghost use Rattle.calls.specs.declared.request.Request.{Request};
ghost use Rattle.ipc_model.specs.declared.call.Call.{Call};
ghost use Rattle.frame_service.specs.Asking.{AsksConfine, AsksOne, IsTaken, Proceeds, TakesRequest, Tries, again, found_nothing, is_patient, is_sent, left_of, timed_out};
ghost use Rattle.frame_service.specs.Serving.{confine_shortage, only_code, shortage_of};
ghost use Rattle.frame_service.specs.declared.asking.PendingFrame.TheVariants.{Settled, Waits};
ghost use Rattle.frame_service.specs.declared.asking.Ready.TheVariants as ready;
ghost use Rattle.wire.specs.Frame.{IsContentLength};

use crate::asking::{Asker, PendingFrame, Ready};
use crate::caller::shortage;
use crate::confining::confine_shortage;
use crate::service::{no_call, no_memory, only_code};
use crate::short_reply::ShortReply;
use byteorder::{ByteOrder, LittleEndian};
use calls::{CallFault, MessageRequest, Request, read_request};
use codes::KernReturn;
use ipc_model::{Call, PlainCall};
use std::alloc::Global;

/// Takes a frame of this content in hand: makes its calls as far as they can be made now. A frame that asks for nothing
/// gets the reply for that.
pub(crate) fn take_frame<A: Asker>(
    alloc: Global,
    asker: &mut A,
    content: &[u8],
) -> PendingFrame<A::Ticket>
    requires { IsContentLength (length content.now) }
    ensures { IsTaken A.answer A.makes A.lacks asker.old content.now result asker.new }
{
    match read_request(alloc, content) {
        Ok(asked) => take_request(alloc, asker, asked),
        Err(CallFault::NoCall) => PendingFrame::Settled(Ready::Known(ShortReply::new(no_call(
            alloc,
            LittleEndian::read_u32(content),
        )))),
        Err(CallFault::NoMemory) => PendingFrame::Settled(Ready::Known(ShortReply::new(no_memory(
            alloc,
            LittleEndian::read_u32(content),
        )))),
    }
}

/// The answer of a `mach_msg` that has only a code and reports no message.
fn known_code<T>(alloc: Global, code: KernReturn) -> Ready<T>
    ensures { result ≡ ready.Known (only_code code) }
{
    Ready::Known(ShortReply::new(only_code(alloc, code)))
}

/// The answer to a call for which memory or room for the record ran out.
fn lacking<T>(alloc: Global, call: &Call) -> Ready<T>
    ensures { result ≡ ready.Known (shortage_of call.now) }
{
    Ready::Known(ShortReply::new(shortage(alloc, call)))
}

/// Makes the calls that a frame asks for, as far as they can be made now.
fn take_request<A: Asker>(alloc: Global, asker: &mut A, asked: Request) -> PendingFrame<A::Ticket>
    ensures { TakesRequest A.answer A.makes A.lacks asker.old asked result asker.new }
{
    match asked {
        Request::One(call) => PendingFrame::Settled(ask_one(alloc, asker, &call)),
        Request::Message(message) => proceed(alloc, asker, message, true),
        Request::Answered(code) => PendingFrame::Settled(known_code(alloc, code)),
        Request::Confine => PendingFrame::Settled(ask_to_confine(alloc, asker)),
    }
}

/// Makes a call that doesn't wait.
fn ask_one<A: Asker>(alloc: Global, asker: &mut A, call: &Call) -> Ready<A::Ticket>
    ensures { AsksOne A.answer A.makes A.lacks asker.old call.now result asker.new }
{
    match asker.submit(call, false) {
        Some(ticket) => Ready::Made(ticket),
        None => lacking(alloc, call),
    }
}

/// Confines the connection.
fn ask_to_confine<A: Asker>(alloc: Global, asker: &mut A) -> Ready<A::Ticket>
    ensures { AsksConfine A.answer A.makes A.lacks asker.old result asker.new }
{
    match asker.confine() {
        Some(ticket) => Ready::Made(ticket),
        None => unconfined(alloc),
    }
}

/// The answer to number 23 where memory ran out.
fn unconfined<T>(alloc: Global) -> Ready<T>
    ensures { result ≡ ready.Known confine_shortage }
{
    Ready::Known(ShortReply::new(confine_shortage(alloc)))
}

/// Makes the calls of a `mach_msg` as far as they can be made now. One that finds nothing to do and may wait is left to
/// be made again.
pub(crate) fn proceed<A: Asker>(
    alloc: Global,
    asker: &mut A,
    message: MessageRequest,
    may_wait: bool,
) -> PendingFrame<A::Ticket>
    ensures { Proceeds A.answer A.makes A.lacks asker.old message message.send message.receive result asker.new }
{
    let MessageRequest {
        send,
        receive,
        send_timeout,
        receive_timeout,
    } = message;
    let bounds = Bounds {
        send: send_timeout,
        receive: receive_timeout,
    };
    match (send, receive) {
        (None, None) => PendingFrame::Settled(known_code(alloc, KernReturn::Success)),
        (Some(send), None) => send_now(alloc, asker, send, bounds, may_wait),
        (None, Some(receive)) => receive_now(alloc, asker, receive, bounds, may_wait),
        (Some(send), Some(receive)) => send_and_receive(
            alloc, asker, send, receive, bounds, may_wait,
        ),
    }
}

/// How long the halves of a `mach_msg` may wait, in milliseconds.
#[derive(Clone, Copy)]
struct Bounds {
    send: Option<u32>,
    receive: Option<u32>,
}

/// Makes the send of a `mach_msg` that doesn't receive.
fn send_now<A: Asker>(
    alloc: Global,
    asker: &mut A,
    send: Call,
    bounds: Bounds,
    may_wait: bool,
) -> PendingFrame<A::Ticket>
    ensures { Tries A.answer A.makes A.lacks asker.old send bounds.send
        (left_of (Some (again send)) None bounds.send bounds.receive) result asker.new }
{
    match try_call(alloc, asker, send, bounds.send, may_wait) {
        Ok(ready) => PendingFrame::Settled(ready),
        Err(send) => left(Some(send), None, bounds),
    }
}

/// Makes the receive of a `mach_msg`.
fn receive_now<A: Asker>(
    alloc: Global,
    asker: &mut A,
    receive: Call,
    bounds: Bounds,
    may_wait: bool,
) -> PendingFrame<A::Ticket>
    ensures { Tries A.answer A.makes A.lacks asker.old receive bounds.receive
        (left_of None (Some (again receive)) bounds.send bounds.receive) result asker.new }
{
    match try_call(alloc, asker, receive, bounds.receive, may_wait) {
        Ok(ready) => PendingFrame::Settled(ready),
        Err(receive) => left(None, Some(receive), bounds),
    }
}

/// Makes the send of a `mach_msg` and, if it is done, the receive.
fn send_and_receive<A: Asker>(
    alloc: Global,
    asker: &mut A,
    send: Call,
    receive: Call,
    bounds: Bounds,
    may_wait: bool,
) -> PendingFrame<A::Ticket>
    ensures { (Tries A.answer A.makes A.lacks asker.old send bounds.send
        (left_of (Some (again send)) (Some receive) bounds.send bounds.receive) result asker.new
        × (is_sent A.answer A.makes A.lacks send result ≡ false))
        ⊎ ((ticket : A.Ticket) × (mid : A) × A.makes asker.old (Request.One send) ticket mid
        × (succeeded (A.answer ticket) ≡ true)
        × Tries A.answer A.makes A.lacks mid receive bounds.receive
        (left_of None (Some (again receive)) bounds.send bounds.receive) result asker.new) }
{
    match try_call(alloc, asker, send, bounds.send, may_wait) {
        Err(send) => left(Some(send), Some(receive), bounds),
        Ok(ready) => {
            if !is_sent(asker, &ready) {
                return PendingFrame::Settled(ready);
            }
            receive_now(alloc, asker, receive, bounds, true)
        }
    }
}

/// Returns whether a send was made and done.
fn is_sent<A: Asker>(asker: &A, ready: &Ready<A::Ticket>) -> bool
    ensures { (call : Call) → result ≡ is_sent A.answer A.makes A.lacks call (Settled ready.now) }
{
    match ready {
        Ready::Made(ticket) => asker.is_done(ticket),
        Ready::Known(_) => false,
    }
}

/// What is left of a `mach_msg`.
fn left<T>(send: Option<Call>, receive: Option<Call>, bounds: Bounds) -> PendingFrame<T>
    ensures { result ≡ Waits (left_of send receive bounds.send bounds.receive) }
{
    PendingFrame::Waits(MessageRequest {
        send,
        receive,
        send_timeout: bounds.send,
        receive_timeout: bounds.receive,
    })
}

/// Makes a call. If it finds nothing to do and may wait, it comes back to be made again. One without a bound comes back
/// then even if it may wait no longer, since it is never answered that there was nothing to do.
fn try_call<A: Asker>(
    alloc: Global,
    asker: &mut A,
    call: Call,
    bound: Option<u32>,
    may_wait: bool,
) -> Result<Ready<A::Ticket>, Call>
    ensures asks { IfOk result (λ ready. AsksOne A.answer A.makes A.lacks asker.old call ready asker.new) }
    ensures endless { IfOk result
        (λ ready. bound ≡ None → found_nothing A.answer A.makes A.lacks ready ≡ false) }
    ensures again { IfErr result (λ next. next ≡ again call) }
    ensures patient { IfErr result (λ next. is_patient bound ≡ true) }
    ensures found { IfErr result (λ next. (ticket : A.Ticket) × A.makes asker.old (Request.One call) ticket asker.new
        × (timed_out (A.answer ticket) ≡ true)) }
{
    let may_wait = may_wait && is_patient(bound);
    let Some(ticket) = asker.submit(&call, may_wait) else {
        return Ok(lacking(alloc, &call));
    };
    if !may_wait && bound.is_some() {
        return Ok(Ready::Made(ticket));
    }
    if !asker.is_timed_out(&ticket) {
        return Ok(Ready::Made(ticket));
    }
    Err(again(call))
}

/// Returns whether a call with this bound may wait.
fn is_patient(bound: Option<u32>) -> bool
    ensures { result ≡ is_patient bound }
{
    match bound {
        None => true,
        Some(milliseconds) => milliseconds != 0,
    }
}

/// A call as it is made again.
fn again(call: Call) -> Call
    ensures { result ≡ again call }
{
    match call {
        Call::Plain(
            PlainCall::Receive {
                limit,
                large,
                name,
                ..
            },
        ) => Call::Plain(PlainCall::Receive {
            limit,
            large,
            name,
            waited: true,
        }),
        call => call,
    }
}
