ghost use Rattle.std.specs.Prelude.{◌≡◌, ◌≢◌, ◌⊎◌, ◌++◌, List, ℕ, Some, IfOk, IfSome, Ok, Err, OnErr, IsErrOf};
ghost use Rattle.ipc_model.specs.declared.call.Call.{Call};
ghost use Rattle.ipc_model.specs.declared.plain_call.PlainCall.{PlainCall};
ghost use Rattle.ipc_model.specs.declared.plain_call.PlainCall.TheVariants as call;
ghost use Rattle.words.specs.Words.{word};
ghost use Rattle.calls.specs.declared.request.CallFault.{CallFault};
ghost use Rattle.calls.specs.Requests.{attempt_of, one_attempt, AsksAttempt, AsksNumbered, FitsMachMsg, MachMsg, Numbers, mach_msg_arguments};

use crate::arguments::read_arguments;
use crate::request::{CallFault, take_four};
use codes::MACH_MSG;
use ipc_model::{Call, NumberedCall, PlainCall, Sequence};
use std::alloc::{AllocError, Global};
use words::take_word;

/// The options of attempts that may be numbered: `SEND` or `RECEIVE` with its timeout, or `RECEIVE` with its timeout
/// and `LARGE`.
const SEND_ATTEMPT: u32 = 0x11;

const RECEIVE_ATTEMPT: u32 = 0x102;

const LARGE_ATTEMPT: u32 = 0x902;

/// Returns the one attempt to send or to receive that a `mach_msg` with a timeout of 0 asks for, or `None` if it may
/// not be numbered.
fn attempt_of(
    alloc: Global,
    option: u32,
    limit: u32,
    name: u32,
    message: &[u8],
) -> Result<Option<PlainCall>, AllocError>
    ensures asked { IfOk result (λ attempt. attempt ≡ attempt_of option limit name message.now) }
    ensures memory { OnErr result (attempt_of option limit name message.now ≡ Some (call.Send message.now)) }
{
    match option {
        SEND_ATTEMPT => {
            let message = Sequence::new(Vec::from_slice(alloc, message)?);
            Ok(Some(PlainCall::Send { message }))
        }
        RECEIVE_ATTEMPT | LARGE_ATTEMPT => Ok(Some(PlainCall::Receive {
            limit,
            large: option == LARGE_ATTEMPT,
            name,
            waited: false,
        })),
        _ => Ok(None),
    }
}

/// Decodes the arguments of a `mach_msg` that may be numbered.
fn read_attempt(alloc: Global, arguments: &[u8]) -> Result<Option<PlainCall>, AllocError>
    ensures found { IfOk result (λ found. IfSome found (AsksAttempt arguments.now)) }
    ensures only { (c : PlainCall) → AsksAttempt arguments.now c → IfOk result (λ found. found ≡ Some c) }
    ensures memory { OnErr result ((message : List ℕ) × AsksAttempt arguments.now (call.Send message)) }
{
    let Some((option, limit, name, timeout, message)) = take_four(arguments) else {
        return Ok(None);
    };
    if timeout != 0 {
        return Ok(None);
    }
    attempt_of(alloc, option, limit, name, message)
}

/// Decodes a call that may be numbered, other than `mach_msg`.
fn read_other(number: u32, arguments: &[u8]) -> Option<PlainCall>
    requires { number ≢ MACH_MSG }
    ensures found { IfSome result (Numbers (word number ++ arguments.now)) }
    ensures only { (c : PlainCall) → Numbers (word number ++ arguments.now) c → result ≡ Some c }
{
    let Some(call) = read_arguments(number, arguments) else {
        return None;
    };
    if !call.may_be_numbered() {
        return None;
    }
    Some(call)
}

/// Decodes the content of the frame of a call that may be numbered.
fn read_numberable(alloc: Global, content: &[u8]) -> Result<Option<PlainCall>, AllocError>
    ensures found { IfOk result (λ found. IfSome found (Numbers content.now)) }
    ensures only { (c : PlainCall) → Numbers content.now c → IfOk result (λ found. found ≡ Some c) }
    ensures memory { OnErr result ((message : List ℕ) × Numbers content.now (call.Send message)) }
{
    let Some((number, arguments)) = take_word(content) else {
        return Ok(None);
    };
    if number == MACH_MSG {
        read_attempt(alloc, arguments)
    } else {
        Ok(read_other(number, arguments))
    }
}

/// Decodes the arguments of number 22. `NoMemory`: out of memory for the message of a send.
pub(crate) fn read_numbered(alloc: Global, arguments: &[u8]) -> Result<Call, CallFault>
    ensures found { IfOk result (AsksNumbered arguments.now) }
    ensures only { (asks : Call) → AsksNumbered arguments.now asks
        → (result ≡ Ok asks) ⊎ (result ≡ Err CallFault.NoMemory) }
    ensures memory { IsErrOf result CallFault.NoMemory → (numbered : ℕ) × (message : List ℕ)
        × AsksNumbered arguments.now (Call.Numbered (record { request = numbered; call = call.Send message })) }
{
    let Some((request, content)) = take_word(arguments) else {
        return Err(CallFault::NoCall);
    };
    if content.len() < 4 {
        return Err(CallFault::NoCall);
    }
    let Ok(found) = read_numberable(alloc, content) else {
        return Err(CallFault::NoMemory);
    };
    match found {
        Some(call) => Ok(Call::Numbered(NumberedCall { request, call })),
        None => Ok(Call::Unnumberable),
    }
}
