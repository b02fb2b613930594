ghost use Rattle.std.specs.Prelude.{◌≡◌, ◌<◌, ◌^◌, ◌++◌, ℕ, List, Some, IfOk, IfSome, IsSomeAnd, length};
ghost use Rattle.ipc_model.specs.declared.record.Record.{Record};
ghost use Rattle.ipc_model.specs.encodings.Encodings.{call_encoding, reply_encoding, record_encoding, IsRecord};
ghost use Rattle.words.specs.Words.{word, long_word, frame_encoding};

use crate::frame::take_frame;
use calls::{read_call, read_recorded_reply};
use codes::MAX_FRAME_CONTENT;
use ipc_model::Record;
use std::alloc::{AllocError, Global};
use words::{take_long_word, take_word};

/// Splits the first record into its number, its space and the encodings of its call and its reply.
fn take_parts(bytes: &[u8]) -> Option<(u64, u32, &[u8], &[u8], &[u8])>
    ensures found { IfSome result (λ r. bytes.now
        ≡ long_word r.0 ++ (word r.1 ++ (frame_encoding r.2.now ++ (frame_encoding r.3.now ++ r.4.now)))) }
    ensures fits { IfSome result (λ r. (r.1 < 2 ^ 32) × (length r.2.now < 2 ^ 32) × (length r.3.now < 2 ^ 32)) }
    ensures only { (number space : ℕ) (call reply rest : List ℕ) → number < 2 ^ 64 → space < 2 ^ 32
        → length call < 2 ^ 32 → length reply < 2 ^ 32
        → bytes.now ≡ long_word number ++ (word space ++ (frame_encoding call ++ (frame_encoding reply ++ rest)))
        → IsSomeAnd result (λ r. (r.0 ≡ number) × (r.1 ≡ space) × (r.2.now ≡ call) × (r.3.now ≡ reply)
        × (r.4.now ≡ rest)) }
{
    let (number, rest) = take_long_word(bytes)?;
    let (space, rest) = take_word(rest)?;
    let (call, rest) = take_frame(rest)?;
    let (reply, rest) = take_frame(rest)?;
    Some((number, space, call, reply, rest))
}

/// Decodes the record of this space from the encodings of its call and its reply.
fn read_record(
    alloc: Global,
    space: u32,
    call: &[u8],
    reply: &[u8],
) -> Result<Option<Record>, AllocError>
    ensures found { IfOk result (λ found. IfSome found (λ entry. (entry.space ≡ space)
        × (call.now ≡ call_encoding entry.call) × (reply.now ≡ reply_encoding entry.reply) × IsRecord entry)) }
    ensures only { (entry : Record) → IsRecord entry → entry.space ≡ space → call.now ≡ call_encoding entry.call
        → reply.now ≡ reply_encoding entry.reply → IfOk result (λ found. found ≡ Some entry) }
{
    let most = MAX_FRAME_CONTENT as usize;
    if most < call.len() || most < reply.len() {
        return Ok(None);
    }
    let Some(call) = read_call(alloc, call)? else {
        return Ok(None);
    };
    let Some(reply) = read_recorded_reply(alloc, &call, reply)? else {
        return Ok(None);
    };
    Ok(Some(Record { space, call, reply }))
}

/// Splits off the first record, with its number. It can run out of memory only for messages.
#[tactic(auto, unfolding(ipc_model::specs::encodings::Encodings::record_encoding))]
pub fn take_record(alloc: Global, bytes: &[u8]) -> Result<Option<(u64, Record, &[u8])>, AllocError>
    ensures found { IfOk result (λ found. IfSome found (λ r.
        (bytes.now ≡ record_encoding r.0 r.1 ++ r.2.now) × IsRecord r.1)) }
    ensures only { (number : ℕ) (entry : Record) (rest : List ℕ) → number < 2 ^ 64 → IsRecord entry
        → bytes.now ≡ record_encoding number entry ++ rest
        → IfOk result (λ found. IsSomeAnd found (λ r. (r.0 ≡ number) × (r.1 ≡ entry) × (r.2.now ≡ rest))) }
{
    let Some((number, space, call, reply, rest)) = take_parts(bytes) else {
        return Ok(None);
    };
    let Some(record) = read_record(alloc, space, call, reply)? else {
        return Ok(None);
    };
    Ok(Some((number, record, rest)))
}
