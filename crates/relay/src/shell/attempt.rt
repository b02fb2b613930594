ghost use Rattle.std.specs.Prelude.{◌≡◌, ◌++◌, OnOk};
ghost use Rattle.words.specs.Words.{word};
ghost use Rattle.relay.specs.shell.Asking.{attempt_text, plain_attempt_text, receive_options};

use calls::push_plain_call;
use codes::{MACH_MSG, NUMBERED};
use ipc_model::{Call, PlainCall};
use std::alloc::AllocError;
use words::push_word;

/// Returns the options of a receive: one attempt (a timeout of 0), unless it may wait.
fn receive_options(large: bool, waits: bool) -> u32
    ensures { result ≡ receive_options large waits }
{
    match (large, waits) {
        (false, false) => 0x102,
        (false, true) => 0x2,
        (true, false) => 0x902,
        (true, true) => 0x802,
    }
}

/// Appends two words.
fn push_two(out: &mut Vec<u8>, a: u32, b: u32) -> Result<(), AllocError>
    ensures { OnOk result (out.new.items ≡ out.old.items ++ (word a ++ word b)) }
{
    push_word(out, a)?;
    push_word(out, b)
}

/// Appends a call's number, an option, a limit, a name, a timeout and a message.
fn push_message(
    out: &mut Vec<u8>,
    call: (u32, u32),
    receipt: (u32, u32),
    timeout: u32,
    message: &[u8],
) -> Result<(), AllocError>
    ensures { OnOk result (out.new.items ≡ out.old.items
        ++ (word call.0 ++ (word call.1 ++ (word receipt.0 ++ (word receipt.1 ++ (word timeout ++ message.now)))))) }
{
    push_two(out, call.0, call.1)?;
    push_two(out, receipt.0, receipt.1)?;
    push_word(out, timeout)?;
    out.extend_from_slice(message)
}

/// Appends the content of the frame of a call that isn't numbered.
fn push_plain_attempt(out: &mut Vec<u8>, call: &PlainCall) -> Result<(), AllocError>
    ensures { OnOk result (out.new.items ≡ out.old.items ++ plain_attempt_text call.now) }
{
    match call {
        PlainCall::Send { message } => push_message(
            out,
            (MACH_MSG, 0x11),
            (0, 0),
            0,
            message.as_slice(),
        ),
        &PlainCall::Receive {
            limit,
            large,
            name,
            waited,
        } => push_message(
            out,
            (MACH_MSG, receive_options(large, waited)),
            (limit, name),
            0,
            &[],
        ),
        _ => push_plain_call(out, call),
    }
}

/// Appends the content of the frame of a call. A send or a receive is one attempt, which doesn't wait, except a receive
/// with `waited`, which may wait. If an allocation fails, part of it may have been appended.
pub fn push_attempt(out: &mut Vec<u8>, call: &Call) -> Result<(), AllocError>
    ensures { OnOk result (out.new.items ≡ out.old.items ++ attempt_text call.now) }
{
    match call {
        Call::Plain(call) => push_plain_attempt(out, call),
        Call::Numbered(numbered) => {
            push_two(out, NUMBERED, numbered.request)?;
            push_plain_attempt(out, &numbered.call)
        }
        Call::Unnumberable => push_word(out, NUMBERED),
    }
}
