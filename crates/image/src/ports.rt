ghost use Rattle.std.specs.Prelude.{◌≡◌, ◌<◌, ◌^◌, ◌++◌, ℕ, List, Option, All, IfOk, IfSome, IsSomeAnd, OnOk, flat_map, length};
ghost use Rattle.image.specs.Fitting.{FitsMessage, FitsPort};
ghost use Rattle.ipc_laws.specs.ImageLaws.{EncodableSet};
ghost use Rattle.ipc_model.specs.declared.message.Message.{Message};
ghost use Rattle.ipc_model.specs.declared.port.PortState.{PortState};
ghost use Rattle.ipc_model.specs.encodings.Images.{message_image, number_or_0, port_encoding};
ghost use Rattle.words.specs.Words.{word};

use crate::encoded::{Encoded, push_length, push_rows, take_rows};
use crate::entries::{push_target, take_serials, target_of};
use codes::StoreVersion;
use ipc_model::{Message, PortState, Sequence};
use snapshot::LivePort;
use std::alloc::{AllocError, Global};
use words::{push_long_word, push_word, take_long_word, take_word};

/// Returns the name that a number encodes, or `None` for 0.
fn set_of(number: u32) -> Option<u32>
    ensures encoded { number ≡ number_or_0 result }
    ensures fits { EncodableSet result }
    ensures only { (set : Option ℕ) → EncodableSet set → number ≡ number_or_0 set → result ≡ set }
{
    match number {
        0 => None,
        _ => Some(number),
    }
}

/// Returns the number that encodes a set's name, 0 for none.
fn number_of(set: Option<u32>) -> u32
    ensures { result ≡ number_or_0 set }
{
    set.unwrap_or(0)
}

/// Splits off the limit of a port's queue, its sequence number, its make-send count and the number of its set.
fn take_numbers(bytes: &[u8]) -> Option<(u32, u32, u32, u32, &[u8])>
    ensures found { IfSome result (λ r. bytes.now ≡ word r.0 ++ (word r.1 ++ (word r.2 ++ (word r.3 ++ r.4.now)))) }
    ensures fits { IfSome result (λ r. (r.0 < 2 ^ 32) × (r.1 < 2 ^ 32) × (r.2 < 2 ^ 32) × (r.3 < 2 ^ 32)) }
    ensures only { (limit sequence_number make_send_count set : ℕ) (rest : List ℕ)
        → limit < 2 ^ 32 → sequence_number < 2 ^ 32 → make_send_count < 2 ^ 32 → set < 2 ^ 32
        → bytes.now ≡ word limit ++ (word sequence_number ++ (word make_send_count ++ (word set ++ rest)))
        → IsSomeAnd result (λ r. (r.0 ≡ limit) × (r.1 ≡ sequence_number) × (r.2 ≡ make_send_count) × (r.3 ≡ set)
        × (r.4.now ≡ rest)) }
{
    let (limit, rest) = take_word(bytes)?;
    let (sequence_number, rest) = take_word(rest)?;
    let (make_send_count, rest) = take_word(rest)?;
    let (set, rest) = take_word(rest)?;
    Some((limit, sequence_number, make_send_count, set, rest))
}

/// Splits off the number of messages, then the messages.
fn take_messages(
    alloc: Global,
    version: StoreVersion,
    bytes: &[u8],
) -> Result<Option<(Sequence<Message>, &[u8])>, AllocError>
    ensures found { IfOk result (λ found. IfSome found
        (λ r. (bytes.now ≡ word (length r.0) ++ (flat_map message_image r.0 ++ r.1.now))
        × (length r.0 < 2 ^ 32) × All FitsMessage r.0)) }
    ensures only { (messages : List Message) (rest : List ℕ) → length messages < 2 ^ 32 → All FitsMessage messages
        → bytes.now ≡ word (length messages) ++ (flat_map message_image messages ++ rest)
        → IfOk result (λ found. IsSomeAnd found (λ r. (r.0 ≡ messages) × (r.1.now ≡ rest))) }
{
    let Some((count, rest)) = take_word(bytes) else {
        return Ok(None);
    };
    take_rows(alloc, version, count, rest)
}

/// Splits off the state of a port.
fn take_port(
    alloc: Global,
    version: StoreVersion,
    bytes: &[u8],
) -> Result<Option<(PortState, &[u8])>, AllocError>
    ensures found { IfOk result (λ found. IfSome found
        (λ r. (bytes.now ≡ port_encoding r.0 ++ r.1.now) × FitsPort r.0)) }
    ensures only { (port : PortState) (rest : List ℕ) → FitsPort port → bytes.now ≡ port_encoding port ++ rest
        → IfOk result (λ found. IsSomeAnd found (λ r. (r.0 ≡ port) × (r.1.now ≡ rest))) }
{
    let Some((limit, sequence_number, make_send_count, set, rest)) = take_numbers(bytes) else {
        return Ok(None);
    };
    let Some((no_senders, port_destroyed, rest)) = take_serials(rest) else {
        return Ok(None);
    };
    let Some((messages, rest)) = take_messages(alloc, version, rest)? else {
        return Ok(None);
    };
    let port = PortState {
        limit,
        sequence_number,
        make_send_count,
        set: set_of(set),
        messages,
        no_senders_target: target_of(no_senders),
        port_destroyed_target: target_of(port_destroyed),
    };
    Ok(Some((port, rest)))
}

/// Appends the state of a port. If an allocation fails, part of it may have been appended.
fn push_port(out: &mut Vec<u8>, port: &PortState) -> Result<(), AllocError>
    ensures { OnOk result (out.new.items ≡ out.old.items ++ port_encoding port.now) }
{
    let messages = port.messages.as_slice();
    push_word(out, port.limit)?;
    push_word(out, port.sequence_number)?;
    push_word(out, port.make_send_count)?;
    push_word(out, number_of(port.set))?;
    push_target(out, port.no_senders_target)?;
    push_target(out, port.port_destroyed_target)?;
    push_length(out, messages.len())?;
    push_rows(out, messages)?;
    Ok(())
}

impl Encoded for LivePort {
    ghost use Rattle.image.specs.Fitting.{FitsLivePort};
    ghost use Rattle.image.specs.Rows.{live_port_encoding};

    ghost encoding = { λ version. live_port_encoding };

    ghost fits = { FitsLivePort };

    fn take(
        alloc: Global,
        version: StoreVersion,
        bytes: &[u8],
    ) -> Result<Option<(Self, &[u8])>, AllocError> {
        let Some((serial, rest)) = take_long_word(bytes) else {
            return Ok(None);
        };
        let Some((state, rest)) = take_port(alloc, version, rest)? else {
            return Ok(None);
        };
        Ok(Some((LivePort { serial, state }, rest)))
    }

    fn push(&self, out: &mut Vec<u8>) -> Result<(), AllocError> {
        push_long_word(out, self.serial)?;
        push_port(out, &self.state)?;
        Ok(())
    }
}
