ghost use Rattle.script.specs.vocabulary.Spaced.{words_of};
ghost use Rattle.script.specs.Calls.{after_at, call_at, numbered_at, own_call_at, plain_call_at, receive_at, send_at};
ghost use Rattle.script.specs.Reading.{Gives};

use crate::fault::{Expected, Fault};
use crate::message::read_message;
use crate::plain::read_plain;
use crate::values::{after_label, read_flag, read_labelled, read_value};
use crate::vocabulary::{Kind, Verb, large_word, take_word};
use ipc_model::{Call, NumberedCall, PlainCall, Sequence};
use std::alloc::Global;

/// Reads the arguments of a receive.
#[tactic(auto, unfolding(crate::specs::Calls::receive_at))]
fn read_receive(text: &[u8]) -> Result<(PlainCall, &[u8]), Fault>
    ensures { Gives (λ r. (r.0, words_of r.1.now)) result (receive_at (words_of text.now)) }
{
    let (name, rest) = read_value(Kind::Hexadecimal, text)?;
    let (limit, rest) = read_labelled(b"limit", Kind::Decimal, rest)?;
    let (large, rest) = read_flag(large_word(), rest);
    let (waited, rest) = read_flag(b"waited", rest);
    let call = PlainCall::Receive {
        limit,
        large,
        name,
        waited,
    };
    Ok((call, rest))
}

/// Reads the message of a send.
#[tactic(auto, unfolding(crate::specs::Calls::send_at))]
fn read_send(alloc: Global, text: &[u8]) -> Result<(PlainCall, &[u8]), Fault>
    ensures { Gives (λ r. (r.0, words_of r.1.now)) result (send_at (words_of text.now)) }
{
    let (message, rest) = read_message(alloc, text)?;
    let message = Sequence::new(message);
    Ok((PlainCall::Send { message }, rest))
}

/// Reads the arguments of a verb's call.
#[tactic(auto, unfolding(crate::specs::Calls::after_at))]
fn read_after(alloc: Global, verb: Verb, text: &[u8]) -> Result<(PlainCall, &[u8]), Fault>
    ensures { Gives (λ r. (r.0, words_of r.1.now)) result (after_at verb (words_of text.now)) }
{
    match verb {
        Verb::Send => read_send(alloc, text),
        Verb::Receive => read_receive(text),
        _ => read_plain(verb, text),
    }
}

/// Reads a call that isn't numbered, and returns the text after it.
#[tactic(auto, unfolding(crate::specs::Calls::plain_call_at))]
fn read_plain_call(alloc: Global, text: &[u8]) -> Result<(PlainCall, &[u8]), Fault>
    ensures { Gives (λ r. (r.0, words_of r.1.now)) result (plain_call_at (words_of text.now)) }
{
    let Some((word, rest)) = take_word(text) else {
        return Err(Fault::expected(Expected::CallName, text));
    };
    match Verb::of_word(word) {
        Some(verb) => read_after(alloc, verb, rest),
        None => Err(Fault::expected(Expected::CallName, text)),
    }
}

/// Reads a call that isn't numbered as a `Call`.
#[tactic(auto, unfolding(crate::specs::Calls::own_call_at))]
fn read_own_call(alloc: Global, text: &[u8]) -> Result<(Call, &[u8]), Fault>
    ensures { Gives (λ r. (r.0, words_of r.1.now)) result (own_call_at (words_of text.now)) }
{
    let (call, rest) = read_plain_call(alloc, text)?;
    Ok((Call::Plain(call), rest))
}

/// Reads the request and the numbered call after it.
#[tactic(auto, unfolding(crate::specs::Calls::numbered_at))]
fn read_numbered(alloc: Global, text: &[u8]) -> Result<(Call, &[u8]), Fault>
    ensures { Gives (λ r. (r.0, words_of r.1.now)) result (numbered_at (words_of text.now)) }
{
    let (request, rest) = read_value(Kind::Decimal, text)?;
    let (call, rest) = read_plain_call(alloc, rest)?;
    let numbered = NumberedCall { request, call };
    Ok((Call::Numbered(numbered), rest))
}

/// Reads a call, and returns the text after it.
#[tactic(auto, unfolding(crate::specs::Calls::call_at))]
pub(crate) fn read_call(alloc: Global, text: &[u8]) -> Result<(Call, &[u8]), Fault>
    ensures { Gives (λ r. (r.0, words_of r.1.now)) result (call_at (words_of text.now)) }
{
    match after_label(b"numbered", text) {
        Some(rest) => read_numbered(alloc, rest),
        None => read_own_call(alloc, text),
    }
}
