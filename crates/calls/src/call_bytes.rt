ghost use Rattle.std.specs.Prelude.{◌≡◌, ◌<◌, ◌≤◌, ◌+◌, ◌++◌, length, Some, IfOk, IfSome, OnOk, OnErr};
ghost use Rattle.std.specs.Vec.{vec_len, vec_capacity};
ghost use Rattle.codes.specs.declared.call_number.TheConstants.{NUMBERED};
ghost use Rattle.ipc_model.specs.declared.call.Call.{Call};
ghost use Rattle.ipc_model.specs.declared.call.Call.TheVariants as variants;
ghost use Rattle.ipc_model.specs.declared.plain_call.PlainCall.{PlainCall};
ghost use Rattle.ipc_model.specs.encodings.PlainCalls as plain_calls;
ghost use Rattle.ipc_model.specs.encodings.Encodings.{call_encoding, canonical_call, IsCanonicalCall};
ghost use Rattle.words.specs.Words.{word};

use crate::encode::{push_canonical_plain_call, push_plain_call};
use crate::read::read_plain_call;
use crate::word_rows::push_words;
use codes::NUMBERED;
use ipc_model::{Call, NumberedCall};
use std::alloc::{AllocError, Global};
use words::take_word;

/// Appends the number and the arguments of a call. If an allocation fails, part of them may have been appended. It
/// allocates nothing if there is room.
pub fn push_call(out: &mut Vec<u8>, call: &Call) -> Result<(), AllocError>
    ensures ok { OnOk result (out.new.items ≡ out.old.items ++ call_encoding call.now) }
    ensures full { OnErr result (vec_capacity out.old < vec_len out.old + length (call_encoding call.now)) }
    ensures room { vec_capacity out.old ≤ vec_capacity out.new }
{
    match call {
        Call::Plain(call) => push_plain_call(out, call),
        Call::Numbered(numbered) => {
            push_words(out, &[NUMBERED, numbered.request])?;
            push_plain_call(out, &numbered.call)
        }
        Call::Unnumberable => push_words(out, &[NUMBERED]),
    }
}

/// Appends the canonical encoding of a call, which records contain: in a send's message each bit that a send ignores is
/// 0. If an allocation fails, part of it may have been appended. It allocates nothing if there is room.
pub fn push_canonical_call(out: &mut Vec<u8>, call: &Call) -> Result<(), AllocError>
    ensures ok { OnOk result (out.new.items ≡ out.old.items ++ call_encoding (canonical_call call.now)) }
    ensures full { OnErr result (vec_capacity out.old < vec_len out.old + length (call_encoding call.now)) }
    ensures room { vec_capacity out.old ≤ vec_capacity out.new }
{
    match call {
        Call::Plain(call) => push_canonical_plain_call(out, call),
        Call::Numbered(numbered) => {
            push_words(out, &[NUMBERED, numbered.request])?;
            push_canonical_plain_call(out, &numbered.call)
        }
        Call::Unnumberable => push_words(out, &[NUMBERED]),
    }
}

/// Decodes the arguments of a call of number 22 in a record.
fn read_numbered_call(alloc: Global, arguments: &[u8]) -> Result<Option<Call>, AllocError>
    ensures found { IfOk result (λ found. IfSome found
        (λ call. (word NUMBERED ++ arguments.now ≡ call_encoding call) × IsCanonicalCall call)) }
    ensures only { (call : Call) → IsCanonicalCall call → word NUMBERED ++ arguments.now ≡ call_encoding call
        → IfOk result (λ found. found ≡ Some call) }
{
    let Some((request, content)) = take_word(arguments) else {
        return Ok(unnumberable_of(arguments));
    };
    let Some(call) = read_plain_call(alloc, content)? else {
        return Ok(None);
    };
    Ok(Some(Call::Numbered(NumberedCall { request, call })))
}

/// Decodes fewer than four bytes of arguments of a call of number 22 in a record.
fn unnumberable_of(arguments: &[u8]) -> Option<Call>
    requires { length arguments.now < 4 }
    ensures found { IfSome result (λ call. (word NUMBERED ++ arguments.now ≡ call_encoding call)
        × IsCanonicalCall call) }
    ensures only { (call : Call) → IsCanonicalCall call → word NUMBERED ++ arguments.now ≡ call_encoding call
        → result ≡ Some call }
{
    if arguments.is_empty() {
        Some(Call::Unnumberable)
    } else {
        None
    }
}

/// Decodes a call in a record that isn't numbered: one with a number other than 22.
fn read_own_call(alloc: Global, content: &[u8]) -> Result<Option<Call>, AllocError>
    ensures found { IfOk result (λ found. IfSome found
        (λ call. (content.now ≡ call_encoding call) × IsCanonicalCall call)) }
    ensures only { (call : PlainCall) → plain_calls.IsCanonicalCall call → content.now ≡ plain_calls.call_encoding call
        → IfOk result (λ found. found ≡ Some (variants.Plain call)) }
{
    let found = read_plain_call(alloc, content)?;
    match found {
        Some(call) => Ok(Some(Call::Plain(call))),
        None => Ok(None),
    }
}

/// Decodes a call in a record. Returns `None` if the bytes aren't a canonical encoding. It can run out of memory only
/// for the message of a send.
pub fn read_call(alloc: Global, content: &[u8]) -> Result<Option<Call>, AllocError>
    ensures found { IfOk result (λ found. IfSome found
        (λ call. (content.now ≡ call_encoding call) × IsCanonicalCall call)) }
    ensures only { (call : Call) → IsCanonicalCall call → content.now ≡ call_encoding call
        → IfOk result (λ found. found ≡ Some call) }
{
    let Some((number, arguments)) = take_word(content) else {
        return Ok(None);
    };
    if number == NUMBERED {
        read_numbered_call(alloc, arguments)
    } else {
        read_own_call(alloc, content)
    }
}
