ghost use Rattle.std.specs.Prelude.{◌≡◌, ◌++◌, [], length, true, false, IfOk, OnOk, None, Some, MatchOption, if◌then◌else◌};
ghost use Rattle.std.specs.Io.Buffered.{writer_buffer, writer_contents};
ghost use Rattle.std.specs.Io.KnownBytes.{Appends, Consumes};
ghost use Rattle.ipc_model.specs.calls.Step.{succeeded};
ghost use Rattle.ipc_model.specs.history.History.{attached_by};
ghost use Rattle.relay.specs.shell.Asking.{asked_read, attempt_text, call_of, is_content_length};
ghost use Rattle.relay.specs.shell.Telling.{difference_line, long_line, strange_line, wrong_line};
ghost use Rattle.relay.specs.shell.Turns.{AsksCall, Hears, HearsAsked, Tells, said_text, said_well};
ghost use Rattle.relay.specs.Relaying.{side};
ghost use Rattle.wire.specs.Frame.{IsContentLength};
ghost use Rattle.words.specs.Words.{frame_encoding};

use crate::shell::asked::{Asked, read_asked};
use crate::shell::attempt::push_attempt;
use crate::shell::printed::{
    is_same_reply, push_answered, push_difference, push_long, push_strange, push_wrong,
};
use crate::shell::reply::read_reply;
use crate::{next_reply, send};
use codes::{MAX_FRAME_CONTENT, MIN_FRAME_CONTENT};
use ipc_model::{Call, Reply};
use script::{Exchange, Expected, LineFault};
use std::alloc::{AllocError, Global};
use std::io::{BufWriter, Read, Write};
use wire::{Frame, WireFault};

/// The place of a line in the session.
#[derive(Clone, Copy)]
pub struct Place {
    /// The line's number, from 1.
    pub number: u64,
    /// The space that the task is attached to.
    pub space: u32,
}

/// The text that is printed for a line.
#[derive(Drop)]
pub struct Printed {
    /// The text, with its ends of lines.
    pub text: Vec<u8>,
    /// True if the line could be read, and its call got the expected reply, if one is expected.
    pub is_well: bool,
    /// The space that the task is attached to after this line.
    pub space: u32,
}

/// Returns the call of a request.
fn call_of(asked: &Asked) -> Option<&Call>
    ensures { MatchOption result (call_of asked.now ≡ None) (λ c. call_of asked.now ≡ Some c.now) }
{
    match asked {
        Asked::Nothing => None,
        Asked::Call(call) => Some(call),
        Asked::Exchange(exchange) => Some(&exchange.call),
    }
}

/// Returns the space of a task after a call with this reply.
fn space_after(space: u32, call: &Call, reply: &Reply) -> u32
    ensures { result ≡ (if succeeded reply.now then attached_by space call.now else space) }
{
    if reply.is_success() {
        call.attached_by(space)
    } else {
        space
    }
}

/// Appends the comment that another reply was expected, if it was.
fn push_unless_same(
    text: &mut Vec<u8>,
    number: u64,
    exchange: &Exchange,
    is_same: bool,
) -> Result<(), AllocError>
    ensures { OnOk result (text.new.items ≡ text.old.items
        ++ (if is_same then [] else difference_line number exchange.now.call exchange.now.reply)) }
{
    if is_same {
        return Ok(());
    }
    push_difference(text, number, &exchange.call, &exchange.reply)
}

/// Appends the line of a call and its reply, and a comment if another one was expected. Returns true if the reply is
/// the expected one.
fn push_compared(
    alloc: Global,
    text: &mut Vec<u8>,
    number: u64,
    exchange: &Exchange,
    reply: &Reply,
) -> Result<bool, AllocError>
    ensures text { OnOk result (text.new.items ≡ text.old.items
        ++ said_text number (Asked.Exchange exchange.now) reply.now) }
    ensures well { IfOk result (λ well. well ≡ said_well (Asked.Exchange exchange.now) reply.now) }
{
    let is_same = is_same_reply(alloc, reply, &exchange.reply)?;
    push_answered(text, &exchange.call, reply)?;
    push_unless_same(text, number, exchange, is_same)?;
    Ok(is_same)
}

/// Appends the text for a line whose call got this reply. Returns true if the reply is the expected one, or none is
/// expected.
fn push_said(
    alloc: Global,
    text: &mut Vec<u8>,
    number: u64,
    asked: &Asked,
    reply: &Reply,
) -> Result<bool, AllocError>
    ensures text { OnOk result (text.new.items ≡ text.old.items ++ said_text number asked.now reply.now) }
    ensures well { IfOk result (λ well. well ≡ said_well asked.now reply.now) }
{
    match asked {
        Asked::Nothing => Ok(true),
        Asked::Call(call) => {
            push_answered(text, call, reply)?;
            Ok(true)
        }
        Asked::Exchange(exchange) => push_compared(alloc, text, number, exchange, reply),
    }
}

/// Returns the text for a line whose call got this reply.
fn tell_reply(
    alloc: Global,
    place: Place,
    call: &Call,
    asked: &Asked,
    reply: &Reply,
) -> Result<Printed, AllocError>
    ensures text { IfOk result (λ printed. printed.text.items ≡ said_text place.number asked.now reply.now) }
    ensures well { IfOk result (λ printed. printed.is_well ≡ said_well asked.now reply.now) }
    ensures space { IfOk result (λ printed. printed.space
        ≡ (if succeeded reply.now then attached_by place.space call.now else place.space)) }
{
    let mut text = Vec::new(alloc);
    let is_well = push_said(alloc, &mut text, place.number, asked, reply)?;
    Ok(Printed {
        text,
        is_well,
        space: space_after(place.space, call, reply),
    })
}

/// Returns the text for a line whose call got a frame that isn't a reply to it.
fn tell_strange(alloc: Global, place: Place) -> Result<Printed, AllocError>
    ensures text { IfOk result (λ printed. printed.text.items ≡ strange_line place.number) }
    ensures well { IfOk result (λ printed. printed.is_well ≡ false) }
{
    let mut text = Vec::new(alloc);
    push_strange(&mut text, place.number)?;
    Ok(Printed {
        text,
        is_well: false,
        space: place.space,
    })
}

/// Returns the text for a line whose call got a frame with this content.
fn tell_content(
    alloc: Global,
    place: Place,
    call: &Call,
    asked: &Asked,
    content: &[u8],
) -> Result<Printed, AllocError>
    ensures { IfOk result (λ printed. Tells place.number call.now asked.now content.now printed.text.items
        printed.is_well) }
{
    let found = read_reply(alloc, call.number(), content)?;
    match found {
        None => tell_strange(alloc, place),
        Some(reply) => {
            let printed = tell_reply(alloc, place, call, asked, &reply);
            drop(reply);
            printed
        }
    }
}

/// Returns the text for a line whose call is too long for a frame.
fn tell_long(alloc: Global, place: Place) -> Result<Printed, AllocError>
    ensures text { IfOk result (λ printed. printed.text.items ≡ long_line place.number) }
    ensures well { IfOk result (λ printed. printed.is_well ≡ false) }
{
    let mut text = Vec::new(alloc);
    push_long(&mut text, place.number)?;
    Ok(Printed {
        text,
        is_well: false,
        space: place.space,
    })
}

/// Returns the text for a line that can't be read.
fn tell_wrong(
    alloc: Global,
    place: Place,
    column: usize,
    expected: Expected,
) -> Result<Printed, AllocError>
    ensures text { IfOk result (λ printed. printed.text.items ≡ wrong_line place.number column expected) }
    ensures well { IfOk result (λ printed. printed.is_well ≡ false) }
{
    let mut text = Vec::new(alloc);
    push_wrong(&mut text, place.number, column, expected)?;
    Ok(Printed {
        text,
        is_well: false,
        space: place.space,
    })
}

/// Returns the content of the frame of a call.
fn content_of(alloc: Global, call: &Call) -> Result<Vec<u8>, AllocError>
    ensures { IfOk result (λ content. content.items ≡ attempt_text call.now) }
{
    let mut content = Vec::new(alloc);
    push_attempt(&mut content, call)?;
    Ok(content)
}

/// Returns true if a frame can have this many bytes of content.
fn is_content_length(length: usize) -> bool
    ensures { result ≡ is_content_length length }
{
    length >= MIN_FRAME_CONTENT as usize && length <= MAX_FRAME_CONTENT as usize
}

/// Sends a frame with this content to the server, and reads the reply.
fn exchange<P: Read, S: Write + Drop>(
    alloc: Global,
    content: &[u8],
    replies: &mut P,
    requests: &mut BufWriter<S>,
) -> Result<Frame, WireFault>
    requires { IsContentLength (length content.now) }
    ensures sent { OnOk result (Appends (writer_contents S.contents requests.old)
        (writer_contents S.contents requests.new) (frame_encoding content.now)) }
    ensures heard { IfOk result
        (λ reply. Consumes (P.remaining replies.old) (P.remaining replies.new) (frame_encoding reply.content)) }
{
    let frame = Frame::from_content(alloc, content)?;
    send(requests, &frame)?;
    next_reply(alloc, replies)
}

/// Sends the frame of a line's call, and returns the text for its reply.
fn ask_call<P: Read, S: Write + Drop>(
    alloc: Global,
    place: Place,
    call: &Call,
    asked: &Asked,
    replies: &mut P,
    requests: &mut BufWriter<S>,
) -> Result<Printed, WireFault>
    ensures { IfOk result (λ printed. AsksCall place.number call.now asked.now
        (side (P.remaining replies.old) (writer_contents S.contents requests.old) (writer_buffer requests.old))
        (side (P.remaining replies.new) (writer_contents S.contents requests.new) (writer_buffer requests.new))
        printed.text.items printed.is_well) }
{
    let content = content_of(alloc, call)?;
    if !is_content_length(content.len()) {
        let printed = tell_long(alloc, place)?;
        return Ok(printed);
    }
    let reply = exchange(alloc, content.as_slice(), replies, requests)?;
    let printed = tell_content(alloc, place, call, asked, reply.content())?;
    Ok(printed)
}

/// Makes the call of a request, if it has one.
fn ask<P: Read, S: Write + Drop>(
    alloc: Global,
    place: Place,
    asked: &Asked,
    replies: &mut P,
    requests: &mut BufWriter<S>,
) -> Result<Printed, WireFault>
    ensures { IfOk result (λ printed. HearsAsked place.number asked.now (call_of asked.now)
        (side (P.remaining replies.old) (writer_contents S.contents requests.old) (writer_buffer requests.old))
        (side (P.remaining replies.new) (writer_contents S.contents requests.new) (writer_buffer requests.new))
        printed.text.items printed.is_well) }
{
    match call_of(asked) {
        Some(call) => ask_call(alloc, place, call, asked, replies, requests),
        None => Ok(Printed {
            text: Vec::new(alloc),
            is_well: true,
            space: place.space,
        }),
    }
}

/// Makes the call of a line, if it has one, and returns the text that is printed for the line.
///
/// `NoMemory`: out of memory for the contents of the line or the reply, or for the text. `Short`: the server ended
/// before the reply. The other faults are those of the streams.
pub fn hear<P: Read, S: Write + Drop>(
    alloc: Global,
    place: Place,
    line: &[u8],
    replies: &mut P,
    requests: &mut BufWriter<S>,
) -> Result<Printed, WireFault>
    ensures { IfOk result (λ printed. Hears place.number (asked_read line.now)
        (side (P.remaining replies.old) (writer_contents S.contents requests.old) (writer_buffer requests.old))
        (side (P.remaining replies.new) (writer_contents S.contents requests.new) (writer_buffer requests.new))
        printed.text.items printed.is_well) }
{
    match read_asked(alloc, line) {
        Ok(asked) => {
            let printed = ask(alloc, place, &asked, replies, requests);
            drop(asked);
            printed
        }
        Err(LineFault::NoMemory) => Err(WireFault::NoMemory),
        Err(LineFault::Unreadable { column, expected }) => {
            let printed = tell_wrong(alloc, place, column, expected)?;
            Ok(printed)
        }
    }
}
