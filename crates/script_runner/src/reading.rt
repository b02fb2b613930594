ghost use Rattle.std.specs.Prelude.{◌≡◌, ◌<◌, ◌^◌, length, IsTrue};
ghost use Rattle.ipc_model.specs.encodings.Encodings.{reply_encoding};
ghost use Rattle.script_runner.specs.Replies.{item_count, plain_item_count};

use crate::directive::{Directive, directive_of};
use crate::row::{Ask, Script, ScriptLine, ScriptStep, Wanted};
use calls::{push_call, push_reply};
use codes::MAX_FRAME_CONTENT;
use ipc_model::{Call, PlainReply, Reply};
use relay::push_attempt;
use script::{Exchange, LineFault, read_line, read_request_line};
use std::alloc::{AllocError, AllocFailed, Global};
use std::fmt;
use words::push_word;

/// The reason why a script can't be read.
#[derive(Clone, Copy)]
pub enum ReadFault {
    /// Out of memory for the script's contents.
    NoMemory,
    /// A line is neither a call nor a directive.
    Line { line: u32, fault: LineFault },
    /// The digits of a frame aren't digits.
    Digits { line: u32 },
    /// A reply is longer than any reply can be.
    Long { line: u32 },
}

impl fmt::Display for ReadFault {
    fn fmt<W: fmt::Write>(&self, f: &mut fmt::Formatter<W>) -> fmt::Result {
        let (line, problem) = match self {
            ReadFault::NoMemory => return f.write_str("no memory"),
            ReadFault::Line { line, fault } => return write!(f, "line {line}, {fault}"),
            ReadFault::Digits { line } => (line, "no hexadecimal digits"),
            ReadFault::Long { line } => (line, "a reply that is too long"),
        };
        write!(f, "line {line}: {problem}")
    }
}

impl From<AllocError> for ReadFault {
    fn from(_: AllocError) -> Self {
        ReadFault::NoMemory
    }
}

impl<T: Drop> From<AllocFailed<T>> for ReadFault {
    fn from(_: AllocFailed<T>) -> Self {
        ReadFault::NoMemory
    }
}

/// Returns the bytes of a frame: its length, and its content.
fn frame_of(alloc: Global, content: &[u8]) -> Result<Vec<u8>, AllocError> {
    let mut frame = Vec::new(alloc);
    let length = u32::try_from(content.len()).unwrap_or(u32::MAX);
    push_word(&mut frame, length)?;
    frame.extend_from_slice(content)?;
    Ok(frame)
}

/// Returns the frame of a call. A numbered call is one attempt.
fn call_frame(alloc: Global, call: &Call) -> Result<Vec<u8>, AllocError> {
    let mut content = Vec::new(alloc);
    match call {
        Call::Numbered(_) => push_attempt(&mut content, call)?,
        _ => push_call(&mut content, call)?,
    }
    frame_of(alloc, &content)
}

/// Returns the number of names, members or bytes of a message in a reply.
fn count_plain_items(reply: &PlainReply) -> usize
    ensures { result ≡ plain_item_count reply.now }
{
    match reply {
        PlainReply::Names { names } => names.as_slice().len(),
        PlainReply::SetStatus { members } => members.as_slice().len(),
        PlainReply::Message { message, .. } => message.as_slice().len(),
        _ => 0,
    }
}

/// Returns the number of items in any reply. For a numbered call it is that of the inner reply.
fn count_items(reply: &Reply) -> usize
    ensures { result ≡ item_count reply.now }
{
    match reply {
        Reply::Plain(answer) => count_plain_items(answer),
        Reply::Numbered(answer) | Reply::Repeated(answer) => count_plain_items(&answer.reply),
    }
}

/// Returns true if a reply has few enough names, members or bytes of a message to be encoded.
#[tactic(auto, using(crate::proofs::Lengths::short_reply))]
fn is_short(reply: &Reply) -> bool
    ensures { IsTrue result → length (reply_encoding reply.now) < 2 ^ 32 }
{
    count_items(reply) <= MAX_FRAME_CONTENT as usize
}

/// Returns the frame of a reply, or the fault that it is too long.
fn reply_frame(alloc: Global, reply: &Reply, line: u32) -> Result<Vec<u8>, ReadFault> {
    if !is_short(reply) {
        return Err(ReadFault::Long { line });
    }
    let mut content = Vec::new(alloc);
    push_reply(&mut content, reply)?;
    Ok(frame_of(alloc, &content)?)
}

/// Returns the bytes with these hexadecimal digits, which may have spaces between them.
fn bytes_of(alloc: Global, text: &[u8], line: u32) -> Result<Vec<u8>, ReadFault> {
    let mut digits = Vec::new(alloc);
    for byte in text {
        if *byte > b' ' {
            digits.push(*byte)?;
        }
    }
    match hex::decode(alloc, digits) {
        Ok(bytes) => Ok(bytes),
        Err(_) => Err(ReadFault::Digits { line }),
    }
}

/// Returns the call of a line and its reply.
fn exchange_of(alloc: Global, text: &[u8], line: u32) -> Result<Option<Exchange>, ReadFault> {
    match read_line(alloc, text) {
        Ok(exchange) => Ok(exchange),
        Err(fault) => Err(ReadFault::Line { line, fault }),
    }
}

/// Returns the return code of a reply.
fn code_of(reply: &Reply) -> u32 {
    match reply {
        Reply::Plain(PlainReply::Refused { code, .. })
        | Reply::Plain(PlainReply::Message { code, .. }) => code.number(),
        _ => 0,
    }
}

/// Returns the step that makes a call `times` times, each with the expected reply.
fn asking(alloc: Global, call: Call, wanted: Wanted, times: u32) -> Result<ScriptStep, ReadFault> {
    match call_frame(alloc, &call) {
        Ok(frame) => Ok(ScriptStep::Ask(Ask {
            frame,
            wanted,
            times,
            call: Some(call),
        })),
        Err(_) => {
            drop(call);
            Err(ReadFault::NoMemory)
        }
    }
}

/// Returns the step that makes a call with its reply.
fn call_step(alloc: Global, exchange: Exchange, line: u32) -> Result<ScriptStep, ReadFault> {
    let Exchange { call, reply } = exchange;
    let wanted = reply_frame(alloc, &reply, line);
    drop(reply);
    match wanted {
        Ok(wanted) => asking(alloc, call, Wanted::Frame(wanted), 1),
        Err(fault) => {
            drop(call);
            Err(fault)
        }
    }
}

/// Returns the step that makes a call `times` times, each with the return code at the end of the line.
fn refused_step(
    alloc: Global,
    times: u32,
    text: &[u8],
    line: u32,
) -> Result<Option<ScriptStep>, ReadFault> {
    let Some(Exchange { call, reply }) = exchange_of(alloc, text, line)? else {
        return Ok(None);
    };
    let wanted = Wanted::Code(code_of(&reply));
    drop(reply);
    Ok(Some(asking(alloc, call, wanted, times)?))
}

/// Returns the step that makes a call `times` times, each with success.
fn done_step(alloc: Global, times: u32, text: &[u8], line: u32) -> Result<ScriptStep, ReadFault> {
    match read_request_line(alloc, text) {
        Ok(call) => asking(alloc, call, Wanted::Code(0), times),
        Err(fault) => Err(ReadFault::Line { line, fault }),
    }
}

/// Returns the step that makes a call `times` times, each with the return code at the end of the line, or with success
/// if there is none.
fn repeat_step(
    alloc: Global,
    times: u32,
    text: &[u8],
    line: u32,
) -> Result<Option<ScriptStep>, ReadFault> {
    if text.contains(&b'!') {
        return refused_step(alloc, times, text, line);
    }
    Ok(Some(done_step(alloc, times, text, line)?))
}

/// Returns the step that sends a frame with these digits and expects its reply.
fn frame_step(
    alloc: Global,
    sent: &[u8],
    wanted: &[u8],
    line: u32,
) -> Result<ScriptStep, ReadFault> {
    let sent = bytes_of(alloc, sent, line)?;
    let wanted = bytes_of(alloc, wanted, line)?;
    Ok(ScriptStep::Ask(Ask {
        frame: frame_of(alloc, &sent)?,
        wanted: Wanted::Frame(frame_of(alloc, &wanted)?),
        times: 1,
        call: None,
    }))
}

/// Returns the step of a line, if it has one.
fn step_of(alloc: Global, text: &[u8], line: u32) -> Result<Option<ScriptStep>, ReadFault> {
    match directive_of(text) {
        Directive::Nothing | Directive::Straight => Ok(None),
        Directive::Connect => Ok(Some(ScriptStep::Connect)),
        Directive::Slot { length } => Ok(Some(ScriptStep::Length(length))),
        Directive::Frame { sent, wanted } => Ok(Some(frame_step(alloc, sent, wanted, line)?)),
        Directive::Repeat { times, call } => repeat_step(alloc, times, call, line),
        Directive::Call => match exchange_of(alloc, text, line)? {
            Some(exchange) => Ok(Some(call_step(alloc, exchange, line)?)),
            None => Ok(None),
        },
    }
}

/// Appends the step of a line, if it has one.
fn add_line(
    alloc: Global,
    rows: &mut Vec<ScriptLine>,
    text: &[u8],
    line: u32,
) -> Result<(), ReadFault> {
    if let Some(step) = step_of(alloc, text, line)? {
        rows.push(ScriptLine { line, step })?;
    }
    Ok(())
}

/// Appends the steps of a script's lines. Returns true if the script is only run straight.
fn add_lines(alloc: Global, rows: &mut Vec<ScriptLine>, text: &[u8]) -> Result<bool, ReadFault> {
    let mut is_straight = false;
    let mut line = 0_u32;
    for text in text.split(|byte| *byte == b'\n') {
        line = line.saturating_add(1);
        if matches!(directive_of(text), Directive::Straight) {
            is_straight = true;
        }
        add_line(alloc, rows, text, line)?;
    }
    Ok(is_straight)
}

/// Returns the lines of a script.
pub fn read_script(alloc: Global, text: &[u8]) -> Result<Script, ReadFault> {
    let mut rows = Vec::new(alloc);
    match add_lines(alloc, &mut rows, text) {
        Ok(is_straight) => Ok(Script { is_straight, rows }),
        Err(fault) => {
            drop(rows);
            Err(fault)
        }
    }
}
