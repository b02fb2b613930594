ghost use Rattle.std.specs.Prelude.{◌≡◌, ◌<◌, ◌≤◌, ◌^◌, ◌+◌, ◌++◌, ℕ, List, length, Some, IfOk, IfSome, IsSomeAnd, OnOk, OnErr};
ghost use Rattle.std.specs.Vec.{vec_len, vec_capacity};
ghost use Rattle.codes.specs.declared.call_number.TheConstants.{NUMBERED};
ghost use Rattle.ipc_model.specs.calls.Step.{number_of_call};
ghost use Rattle.ipc_model.specs.declared.call.Call.TheVariants as call;
ghost use Rattle.ipc_model.specs.declared.plain_reply.PlainReply.{PlainReply};
ghost use Rattle.ipc_model.specs.declared.reply.NumberedReply.{NumberedReply};
ghost use Rattle.ipc_model.specs.declared.reply.Reply.{Reply};
ghost use Rattle.ipc_model.specs.declared.reply.Reply.TheVariants as reply;
ghost use Rattle.ipc_model.specs.encodings.Encodings.{numbered_encoding, reply_encoding, IsRecordedReply};
ghost use Rattle.ipc_model.specs.encodings.PlainCalls.{done_encoding};
ghost use Rattle.words.specs.Words.{word};
ghost use Rattle.calls.specs.Replies.{Answers};

use crate::encode::push_plain_reply;
use crate::frame::put_plain_reply;
use crate::reply::read_plain_reply;
use crate::results::read_recorded_plain_reply;
use crate::word_rows::push_words;
use codes::{MAX_FRAME_CONTENT, NUMBERED};
use ipc_model::{Call, NumberedCall, NumberedReply, Reply};
use std::alloc::{AllocError, Global};
use wire::Frame;
use words::take_word;

/// Writes a reply into a frame. It allocates nothing.
pub fn reply_frame(reply: &Reply, frame: &mut Frame)
    requires room { MAX_FRAME_CONTENT ≤ frame.old.room }
    // The names of a space fit, and so do the members of a set and a message of the maximum size.
    requires limit { length (reply_encoding reply.now) ≤ MAX_FRAME_CONTENT }
    ensures content { frame.new.content ≡ reply_encoding reply.now }
    ensures room { frame.old.room ≤ frame.new.room }
{
    match reply {
        Reply::Plain(reply) => put_plain_reply(&[], reply, frame),
        Reply::Numbered(answer) | Reply::Repeated(answer) => {
            put_plain_reply(&[NUMBERED, 0, answer.request], &answer.reply, frame);
        }
    }
}

/// Appends the reply to a numbered call. If an allocation fails, part of it may have been appended. It allocates
/// nothing if there is room.
pub fn push_numbered_reply(out: &mut Vec<u8>, answer: &NumberedReply) -> Result<(), AllocError>
    requires { length (numbered_encoding answer.now) < 2 ^ 32 }
    ensures ok { OnOk result (out.new.items ≡ out.old.items ++ numbered_encoding answer.now) }
    ensures full { OnErr result (vec_capacity out.old < vec_len out.old + length (numbered_encoding answer.now)) }
    ensures room { vec_capacity out.old ≤ vec_capacity out.new }
{
    push_words(out, &[NUMBERED, 0, answer.request])?;
    push_plain_reply(out, &answer.reply)
}

/// Appends the number, the code and the results of a reply. If an allocation fails, part of them may have been
/// appended. It allocates nothing if there is room.
pub fn push_reply(out: &mut Vec<u8>, reply: &Reply) -> Result<(), AllocError>
    requires { length (reply_encoding reply.now) < 2 ^ 32 }
    ensures ok { OnOk result (out.new.items ≡ out.old.items ++ reply_encoding reply.now) }
    ensures full { OnErr result (vec_capacity out.old < vec_len out.old + length (reply_encoding reply.now)) }
    ensures room { vec_capacity out.old ≤ vec_capacity out.new }
{
    match reply {
        Reply::Plain(reply) => push_plain_reply(out, reply),
        Reply::Numbered(answer) | Reply::Repeated(answer) => push_numbered_reply(out, answer),
    }
}

/// Splits the reply to a numbered call into its request and the encoding of the reply to the call that is numbered.
fn take_numbered(content: &[u8]) -> Option<(u32, &[u8])>
    ensures found { IfSome result (λ r. (content.now ≡ done_encoding NUMBERED (word r.0 ++ r.1.now))
        × (r.0 < 2 ^ 32)) }
    ensures only { (request : ℕ) (inner : List ℕ) → request < 2 ^ 32
        → content.now ≡ done_encoding NUMBERED (word request ++ inner)
        → IsSomeAnd result (λ r. (r.0 ≡ request) × (r.1.now ≡ inner)) }
{
    let (number, rest) = take_word(content)?;
    let (code, rest) = take_word(rest)?;
    let (request, inner) = take_word(rest)?;
    if number == NUMBERED && code == 0 {
        Some((request, inner))
    } else {
        None
    }
}

/// Decodes the reply to this numbered call in its record, or returns `None` if the bytes aren't one.
fn read_recorded_numbered(
    alloc: Global,
    numbered: &NumberedCall,
    content: &[u8],
) -> Result<Option<NumberedReply>, AllocError>
    ensures found { IfOk result (λ found. IfSome found (λ answer. (content.now ≡ numbered_encoding answer)
        × IsRecordedReply (call.Numbered numbered.now) (reply.Numbered answer))) }
    ensures only { (answer : NumberedReply) → IsRecordedReply (call.Numbered numbered.now) (reply.Numbered answer)
        → content.now ≡ numbered_encoding answer → IfOk result (λ found. found ≡ Some answer) }
{
    if !numbered.call.may_be_numbered() {
        return Ok(None);
    }
    let Some((request, inner)) = take_numbered(content) else {
        return Ok(None);
    };
    if request != numbered.request {
        return Ok(None);
    }
    let Some(reply) = read_recorded_plain_reply(alloc, &numbered.call, inner)? else {
        return Ok(None);
    };
    Ok(Some(NumberedReply { request, reply }))
}

/// Decodes the reply in a record of this call, or returns `None` if the bytes aren't one. It can run out of memory only
/// for a received message.
pub fn read_recorded_reply(
    alloc: Global,
    call: &Call,
    content: &[u8],
) -> Result<Option<Reply>, AllocError>
    ensures found { IfOk result (λ found. IfSome found (λ answer.
        (content.now ≡ reply_encoding answer) × IsRecordedReply call.now answer)) }
    ensures only { (answer : Reply) → IsRecordedReply call.now answer → content.now ≡ reply_encoding answer
        → IfOk result (λ found. found ≡ Some answer) }
{
    match call {
        Call::Plain(call) => {
            let found = read_recorded_plain_reply(alloc, call, content)?;
            match found {
                Some(reply) => Ok(Some(Reply::Plain(reply))),
                None => Ok(None),
            }
        }
        Call::Numbered(numbered) => {
            let found = read_recorded_numbered(alloc, numbered, content)?;
            match found {
                Some(answer) => Ok(Some(Reply::Numbered(answer))),
                None => Ok(None),
            }
        }
        Call::Unnumberable => Ok(None),
    }
}

/// Decodes the reply to a numbered call that was made with this request, from the encoding of the reply to the call
/// that is numbered.
fn read_made(alloc: Global, request: u32, inner: &[u8]) -> Result<Option<Reply>, AllocError>
    ensures found { IfOk result (λ found. IfSome found
        (Answers NUMBERED (done_encoding NUMBERED (word request ++ inner.now)))) }
    ensures only { (answer : Reply) → Answers NUMBERED (done_encoding NUMBERED (word request ++ inner.now)) answer
        → IfOk result (λ found. found ≡ Some answer) }
{
    let Some((number, _)) = take_word(inner) else {
        return Ok(None);
    };
    let Some(reply) = read_plain_reply(alloc, number, inner)? else {
        return Ok(None);
    };
    Ok(Some(Reply::Numbered(NumberedReply { request, reply })))
}

/// Decodes the reply to a call with this number that wasn't made as a numbered call.
fn read_own_reply(alloc: Global, number: u32, content: &[u8]) -> Result<Option<Reply>, AllocError>
    ensures found { IfOk result (λ found. IfSome found (Answers number content.now)) }
    ensures only { (answer : PlainReply) → Answers number content.now (reply.Plain answer)
        → IfOk result (λ found. found ≡ Some (reply.Plain answer)) }
{
    let found = read_plain_reply(alloc, number, content)?;
    match found {
        Some(reply) => Ok(Some(Reply::Plain(reply))),
        None => Ok(None),
    }
}

/// Decodes the content of the frame of a reply to a call with this number, or returns `None` if it isn't one. It can
/// run out of memory only for a message, names or members.
pub fn read_reply(alloc: Global, number: u32, content: &[u8]) -> Result<Option<Reply>, AllocError>
    ensures found { IfOk result (λ found. IfSome found (Answers number content.now)) }
    ensures only { (answer : Reply) → Answers number content.now answer → IfOk result (λ found. found ≡ Some answer) }
{
    if number != NUMBERED {
        return read_own_reply(alloc, number, content);
    }
    match take_numbered(content) {
        Some((request, inner)) => read_made(alloc, request, inner),
        None => read_own_reply(alloc, number, content),
    }
}
