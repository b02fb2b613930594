use crate::failure::{Difference, Failure, Place, Unanswered};
use crate::reading::ReadFault;
use crate::row::{Script, ScriptStep};
use calls::read_reply;
use ipc_model::{Call, Reply};
use script::{push_call, push_reply};
use std::alloc::{AllocError, Global};
use std::{io, str};

/// Decodes the frame of a reply to a call, or returns `None` if it isn't one.
fn reply_of(alloc: Global, call: &Call, frame: &[u8]) -> Result<Option<Reply>, AllocError> {
    match frame {
        [_, _, _, _, content @ ..] => read_reply(alloc, call.number(), content),
        _ => Ok(None),
    }
}

/// Returns a call and its reply as the line of a script, or the bytes of the reply's frame.
fn exchange_text(
    alloc: Global,
    call: &Call,
    reply: &Reply,
    frame: &[u8],
) -> Result<String, AllocError> {
    let mut line = Vec::new(alloc);
    push_call(&mut line, call)?;
    push_reply(&mut line, reply)?;
    match str::from_utf8(&line) {
        Ok(line) => String::from_str(alloc, line),
        Err(_) => hex::encode(alloc, frame),
    }
}

/// Returns a reply's frame as the line of a script, or its bytes if it isn't a reply.
fn frame_encoding(alloc: Global, call: Option<&Call>, frame: &[u8]) -> Result<String, AllocError> {
    if let Some(call) = call
        && let Some(reply) = reply_of(alloc, call, frame)?
    {
        let text = exchange_text(alloc, call, &reply, frame);
        drop(reply);
        return text;
    }
    hex::encode(alloc, frame)
}

/// Returns the call of a line of a script, if it has one.
fn call_of(script: &Script, line: u32) -> Option<&Call> {
    for row in &script.rows {
        if row.line == line
            && let ScriptStep::Ask(ask) = &row.step
        {
            return ask.call.as_ref();
        }
    }
    None
}

/// Returns the line of a text with this number, from 1.
fn line_of(text: &[u8], number: u32) -> &str {
    let mut line = 0_u32;
    for part in text.split(|byte| *byte == b'\n') {
        line = line.saturating_add(1);
        if line == number {
            return str::from_utf8(part).unwrap_or("");
        }
    }
    ""
}

/// Describes the actual result in place of the expected one.
fn difference_text(
    alloc: Global,
    script: &Script,
    line: u32,
    difference: &Difference,
) -> Result<String, AllocError> {
    match difference {
        Difference::Reply(frame) => frame_encoding(alloc, call_of(script, line), frame),
        Difference::Unanswered(Unanswered::NoReply) => String::from_str(alloc, "no reply"),
        Difference::Unanswered(Unanswered::Detached) => {
            String::from_str(alloc, "a task that isn't attached again")
        }
        Difference::Length(length) => format!(in alloc; "{length} bytes"),
        Difference::Unopened(fault) => format!(in alloc; "a store that isn't opened: {fault}"),
        Difference::Records => String::from_str(alloc, "another count of records"),
    }
}

/// Prints the fault of a script that can't be read.
pub fn tell_fault(rt: &impl Print, name: &str, fault: &ReadFault) -> io::Result<()> {
    println!(rt; "{name} {fault}")
}

/// Prints the line at which a script failed, the expected and the actual result.
pub fn tell_failure(
    rt: &(impl Print + AllocGlobal),
    name: &str,
    text: &[u8],
    script: &Script,
    failure: &Failure,
) -> io::Result<()> {
    let Failure::At { place, difference } = failure else {
        return println!(rt; "{name}: no memory");
    };
    let Place { line, way } = *place;
    let wanted = line_of(text, line);
    let came = difference_text(rt.alloc(), script, line, difference)?;
    println!(rt; "{name} line {line}, {way}\n  wanted {wanted}\n  came   {came}")
}
