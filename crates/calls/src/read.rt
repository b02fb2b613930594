ghost use Rattle.std.specs.Prelude.{◌≡◌, ◌≢◌, ◌<◌, ◌^◌, ◌++◌, Bool, ℕ, List, None, Some, IfOk, IfSome, IfNone};
ghost use Rattle.ipc_model.specs.declared.plain_call.PlainCall.{PlainCall};
ghost use Rattle.ipc_model.specs.declared.plain_call.PlainCall.TheVariants as call_variants;
ghost use Rattle.ipc_model.specs.calls.PlainStep.{number_of_call};
ghost use Rattle.ipc_model.specs.encodings.PlainCalls.{arguments_encoding, call_encoding, receive_option, number_of_bool, IsCanonicalCall};
ghost use Rattle.words.specs.Words.{word};

use crate::arguments::read_arguments;
use crate::canonical_message::canonical_message_of;
use crate::record_options::receives_large;
use crate::word_rows::three_words;
use bitflags::Flags;
use codes::{MACH_MSG, MessageOptions};
use ipc_model::{PlainCall, Sequence, is_message_size};
use std::alloc::{AllocError, Global};
use words::take_word;

/// Returns true for 1, false for 0 and `None` for another number.
fn flag_of(number: u32) -> Option<bool>
    ensures found { IfSome result (λ flag. number ≡ number_of_bool flag) }
    ensures none { IfNone result ((number ≢ 0) × (number ≢ 1)) }
{
    match number {
        0 => Some(false),
        1 => Some(true),
        _ => None,
    }
}

/// Decodes the arguments of a receive in a record, after its option.
fn read_receive(large: bool, words: &[u8]) -> Option<PlainCall>
    ensures found { IfSome result (λ call. (word (receive_option large) ++ words.now ≡ arguments_encoding call)
        × (number_of_call call ≡ MACH_MSG) × IsCanonicalCall call) }
    ensures only { (limit name : ℕ) (waited : Bool) → limit < 2 ^ 32 → name < 2 ^ 32
        → words.now ≡ word limit ++ (word name ++ word (number_of_bool waited))
        → result ≡ Some (call_variants.Receive limit large name waited) }
{
    let (limit, name, waited) = three_words(words)?;
    let waited = flag_of(waited)?;
    Some(PlainCall::Receive {
        limit,
        large,
        name,
        waited,
    })
}

/// Returns the bytes after three words that are 0.
fn after_zeros(bytes: &[u8]) -> Option<&[u8]>
    ensures found { IfSome result (λ beyond. bytes.now ≡ word 0 ++ (word 0 ++ (word 0 ++ beyond.now))) }
    ensures none { IfNone result ((beyond : List ℕ) → bytes.now ≡ word 0 ++ (word 0 ++ (word 0 ++ beyond)) → ⊥) }
{
    match bytes {
        [0, 0, 0, 0, 0, 0, 0, 0, 0, 0, 0, 0, beyond @ ..] => Some(beyond),
        _ => None,
    }
}

/// Decodes the arguments of a send in a record, after its option.
fn read_send(alloc: Global, words: &[u8]) -> Result<Option<PlainCall>, AllocError>
    ensures found { IfOk result (λ found. IfSome found (λ call. (word 1 ++ words.now ≡ arguments_encoding call)
        × (number_of_call call ≡ MACH_MSG) × IsCanonicalCall call)) }
    ensures only { (message : List ℕ) → IsCanonicalCall (call_variants.Send message)
        → words.now ≡ word 0 ++ (word 0 ++ (word 0 ++ message))
        → IfOk result (λ found. found ≡ Some (call_variants.Send message)) }
{
    let Some(message) = after_zeros(words) else {
        return Ok(None);
    };
    if !is_message_size(message.len()) {
        return Ok(None);
    }
    let kept = canonical_message_of(alloc, message)?;
    if kept.as_slice() != message {
        return Ok(None);
    }
    let message = Sequence::new(kept);
    Ok(Some(PlainCall::Send { message }))
}

/// Decodes the arguments of a send or a receive in a record.
fn read_message_call(alloc: Global, arguments: &[u8]) -> Result<Option<PlainCall>, AllocError>
    ensures found { IfOk result (λ found. IfSome found (λ call. (arguments.now ≡ arguments_encoding call)
        × (number_of_call call ≡ MACH_MSG) × IsCanonicalCall call)) }
    ensures only { (call : PlainCall) → IsCanonicalCall call → number_of_call call ≡ MACH_MSG
        → arguments.now ≡ arguments_encoding call
        → IfOk result (λ found. found ≡ Some call) }
{
    let Some((option, words)) = take_word(arguments) else {
        return Ok(None);
    };
    let Some(options) = MessageOptions::from_bits(option) else {
        return Ok(None);
    };
    if options == MessageOptions::SEND {
        return read_send(alloc, words);
    }
    match receives_large(options) {
        Some(large) => Ok(read_receive(large, words)),
        None => Ok(None),
    }
}

/// Decodes a plain call in a record. Returns `None` if the bytes aren't a canonical encoding. It can run out of memory
/// only for the message of a send.
#[tactic(auto, unfolding(ipc_model::specs::encodings::PlainCalls::call_encoding))]
pub(crate) fn read_plain_call(
    alloc: Global,
    content: &[u8],
) -> Result<Option<PlainCall>, AllocError>
    ensures found { IfOk result (λ found. IfSome found
        (λ call. (content.now ≡ call_encoding call) × IsCanonicalCall call)) }
    ensures only { (call : PlainCall) → IsCanonicalCall call → content.now ≡ call_encoding call
        → IfOk result (λ found. found ≡ Some call) }
{
    let Some((number, arguments)) = take_word(content) else {
        return Ok(None);
    };
    if number == MACH_MSG {
        read_message_call(alloc, arguments)
    } else {
        Ok(read_arguments(number, arguments))
    }
}
