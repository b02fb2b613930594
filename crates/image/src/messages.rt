ghost use Rattle.std.specs.Prelude.{◌≡◌, ◌≢◌, ◌<◌, ◌^◌, ◌+◌, ◌++◌, ◌∷◌, ℕ, Bool, List, Option, IfOk, IfSome, IfNone, IsSomeAnd, OnOk, length};
ghost use Rattle.ipc_laws.specs.ImageLaws.{EncodablePlace, EncodableReplyRight, EncodableRight};
ghost use Rattle.ipc_model.specs.declared.message.CarriedRight.{CarriedRight};
ghost use Rattle.ipc_model.specs.declared.message.PortInMessage.{PortInMessage};
ghost use Rattle.ipc_model.specs.declared.message.RightKind.{RightKind};
ghost use Rattle.ipc_model.specs.declared.message.RightKind.TheVariants as kind_variants;
ghost use Rattle.ipc_model.specs.rights.Dispositions.{number_of_kind};
ghost use Rattle.ipc_model.specs.encodings.Images.{carried_encoding, place_encoding, reply_right_encoding};
ghost use Rattle.ipc_model.specs.encodings.PlainCalls.{number_of_bool, IsMessageSize};
ghost use Rattle.words.specs.Words.{AreBytes, word, long_word};

use crate::encoded::{Encoded, push_length, push_rows, take_rows};
use crate::entries::{byte_of, push_byte, take_byte, take_flag};
use codes::{HEADER_LENGTH, StoreVersion};
use ipc_model::{CarriedRight, Message, PortInMessage, RightKind, Sequence, is_message_size};
use std::alloc::{AllocError, Global};
use words::{push_long_word, push_word, take_long_word, take_word};

/// Splits off the byte of a kind of right.
fn take_kind(bytes: &[u8]) -> Option<(RightKind, &[u8])>
    ensures found { IfSome result (λ r. bytes.now ≡ number_of_kind r.0 ∷ r.1.now) }
    ensures only { (kind : RightKind) (rest : List ℕ) → bytes.now ≡ number_of_kind kind ∷ rest
        → IsSomeAnd result (λ r. (r.0 ≡ kind) × (r.1.now ≡ rest)) }
{
    let (byte, rest) = take_byte(bytes)?;
    let kind = RightKind::from_number(u32::from(byte))?;
    Some((kind, rest))
}

/// Returns the byte of a kind of right.
fn byte_of_kind(kind: RightKind) -> u8
    ensures { result ≡ number_of_kind kind }
{
    kind as u8
}

/// Splits off a port in a message.
fn take_place(bytes: &[u8]) -> Option<(PortInMessage, &[u8])>
    ensures found { IfSome result (λ r. (bytes.now ≡ place_encoding r.0 ++ r.1.now) × EncodablePlace r.0) }
    ensures only { (place : PortInMessage) (rest : List ℕ) → EncodablePlace place
        → bytes.now ≡ place_encoding place ++ rest
        → IsSomeAnd result (λ r. (r.0 ≡ place) × (r.1.now ≡ rest)) }
{
    let (what, rest) = take_byte(bytes)?;
    let (serial, rest) = take_long_word(rest)?;
    let place = place_of(what, serial)?;
    Some((place, rest))
}

/// Decodes a port in a message from its byte and its serial.
fn place_of(what: u8, serial: u64) -> Option<PortInMessage>
    ensures found { IfSome result (λ place. (what ∷ long_word serial ≡ place_encoding place) × EncodablePlace place) }
    ensures only { (place : PortInMessage) → EncodablePlace place → what ∷ long_word serial ≡ place_encoding place
        → IsSomeAnd result (λ found. found ≡ place) }
{
    match (what, serial) {
        (0, 0) => Some(PortInMessage::Null),
        (1, 0) => Some(PortInMessage::Dead),
        (2, _) => Some(PortInMessage::Live(serial)),
        _ => None,
    }
}

/// Appends a port in a message. If an allocation fails, part of it may have been appended.
fn push_place(out: &mut Vec<u8>, place: PortInMessage) -> Result<(), AllocError>
    ensures { OnOk result (out.new.items ≡ out.old.items ++ place_encoding place) }
{
    match place {
        PortInMessage::Null => out.extend_from_slice(&[0; 9]),
        PortInMessage::Dead => {
            push_byte(out, 1)?;
            push_long_word(out, 0)
        }
        PortInMessage::Live(serial) => {
            push_byte(out, 2)?;
            push_long_word(out, serial)
        }
    }
}

/// Splits off a right.
fn take_right(bytes: &[u8]) -> Option<(CarriedRight, &[u8])>
    ensures found { IfSome result (λ r. (bytes.now ≡ carried_encoding r.0 ++ r.1.now) × EncodableRight r.0) }
    ensures only { (right : CarriedRight) (rest : List ℕ) → EncodableRight right
        → bytes.now ≡ carried_encoding right ++ rest
        → IsSomeAnd result (λ r. (r.0 ≡ right) × (r.1.now ≡ rest)) }
{
    let (kind, rest) = take_kind(bytes)?;
    let (port, rest) = take_place(rest)?;
    Some((CarriedRight { kind, port }, rest))
}

/// Appends a right. If an allocation fails, part of it may have been appended.
fn push_right(out: &mut Vec<u8>, right: CarriedRight) -> Result<(), AllocError>
    ensures { OnOk result (out.new.items ≡ out.old.items ++ carried_encoding right) }
{
    push_byte(out, byte_of_kind(right.kind))?;
    push_place(out, right.port)
}

impl Encoded for CarriedRight {
    ghost use Rattle.ipc_laws.specs.ImageLaws.{EncodableRight};
    ghost use Rattle.ipc_model.specs.encodings.Images.{carried_encoding};

    ghost encoding = { λ version. carried_encoding };

    ghost fits = { EncodableRight };

    fn take(_: Global, _: StoreVersion, bytes: &[u8]) -> Result<Option<(Self, &[u8])>, AllocError> {
        Ok(take_right(bytes))
    }

    fn push(&self, out: &mut Vec<u8>) -> Result<(), AllocError> {
        push_right(out, *self)
    }
}

/// Returns the bytes after ten zeros, which encode that there is no reply right.
fn after_no_reply(bytes: &[u8]) -> Option<&[u8]>
    ensures found { IfSome result (λ beyond. bytes.now ≡ 0 ∷ (0 ∷ (long_word 0 ++ beyond.now))) }
    ensures none { IfNone result ((beyond : List ℕ) → bytes.now ≡ 0 ∷ (0 ∷ (long_word 0 ++ beyond)) → ⊥) }
{
    match bytes {
        [0, 0, 0, 0, 0, 0, 0, 0, 0, 0, beyond @ ..] => Some(beyond),
        _ => None,
    }
}

/// Splits off the reply right, or the zeros that encode none.
fn take_reply(bytes: &[u8]) -> Option<(Option<CarriedRight>, &[u8])>
    ensures found { IfSome result (λ r. (bytes.now ≡ reply_right_encoding r.0 ++ r.1.now) × EncodableReplyRight r.0) }
    ensures only { (reply : Option CarriedRight) (rest : List ℕ) → EncodableReplyRight reply
        → bytes.now ≡ reply_right_encoding reply ++ rest
        → IsSomeAnd result (λ r. (r.0 ≡ reply) × (r.1.now ≡ rest)) }
{
    if let Some(beyond) = after_no_reply(bytes) {
        return Some((None, beyond));
    }
    let (right, rest) = take_right(bytes)?;
    Some((Some(right), rest))
}

/// Appends the reply right. If an allocation fails, part of it may have been appended.
fn push_reply(out: &mut Vec<u8>, reply: Option<CarriedRight>) -> Result<(), AllocError>
    ensures { OnOk result (out.new.items ≡ out.old.items ++ reply_right_encoding reply) }
{
    match reply {
        Some(right) => push_right(out, right),
        None => out.extend_from_slice(&[0; 10]),
    }
}

/// The fields of a message before its rights.
#[derive(Clone, Copy)]
struct Head {
    destination: RightKind,
    reply: Option<CarriedRight>,
    id: u32,
    size: u32,
    complex: bool,
}

/// Splits off the size of a message.
fn take_size(bytes: &[u8]) -> Option<(u32, &[u8])>
    ensures found { IfSome result (λ r. bytes.now ≡ word r.0 ++ r.1.now) }
    ensures fits { IfSome result (λ r. IsMessageSize r.0) }
    ensures only { (size : ℕ) (rest : List ℕ) → IsMessageSize size → bytes.now ≡ word size ++ rest
        → IsSomeAnd result (λ r. (r.0 ≡ size) × (r.1.now ≡ rest)) }
{
    let (size, rest) = take_word(bytes)?;
    if !is_message_size(size as usize) {
        return None;
    }
    Some((size, rest))
}

/// Splits off the fields of a message before its rights.
fn take_head(bytes: &[u8]) -> Option<(Head, &[u8])>
    ensures found { IfSome result (λ r. bytes.now ≡ number_of_kind r.0.destination ∷ (reply_right_encoding r.0.reply
        ++ (word r.0.id ++ (word r.0.size ++ (number_of_bool r.0.complex ∷ r.1.now))))) }
    ensures fits { IfSome result (λ r. (r.0.destination ≢ kind_variants.Receive) × EncodableReplyRight r.0.reply
        × (r.0.id < 2 ^ 32) × IsMessageSize r.0.size) }
    ensures only { (destination : RightKind) (reply : Option CarriedRight) (id size : ℕ) (complex : Bool)
        (rest : List ℕ)
        → destination ≢ kind_variants.Receive → EncodableReplyRight reply → id < 2 ^ 32 → IsMessageSize size
        → bytes.now ≡ number_of_kind destination ∷
        (reply_right_encoding reply ++ (word id ++ (word size ++ (number_of_bool complex ∷ rest))))
        → IsSomeAnd result (λ r. (r.0.destination ≡ destination) × (r.0.reply ≡ reply) × (r.0.id ≡ id)
        × (r.0.size ≡ size) × (r.0.complex ≡ complex) × (r.1.now ≡ rest)) }
{
    let (destination, rest) = take_kind(bytes)?;
    if destination == RightKind::Receive {
        return None;
    }
    let (reply, rest) = take_reply(rest)?;
    let (id, rest) = take_word(rest)?;
    let (size, rest) = take_size(rest)?;
    let (complex, rest) = take_flag(rest)?;
    let head = Head {
        destination,
        reply,
        id,
        size,
        complex,
    };
    Some((head, rest))
}

/// Splits off the body of a message of this size.
fn take_body(
    alloc: Global,
    size: u32,
    bytes: &[u8],
) -> Result<Option<(Sequence<u8>, &[u8])>, AllocError>
    ensures found { IfOk result (λ found. IfSome found
        (λ r. (bytes.now ≡ r.0 ++ r.1.now) × (size ≡ 24 + length r.0) × AreBytes r.0)) }
    ensures only { (body rest : List ℕ) → size ≡ 24 + length body → bytes.now ≡ body ++ rest
        → IfOk result (λ found. IsSomeAnd found (λ r. (r.0 ≡ body) × (r.1.now ≡ rest))) }
{
    let size = size as usize;
    if size < HEADER_LENGTH || bytes.len() < size - HEADER_LENGTH {
        return Ok(None);
    }
    let (body, rest) = bytes.split_at(size - HEADER_LENGTH);
    let body = Sequence::new(Vec::from_slice(alloc, body)?);
    Ok(Some((body, rest)))
}

impl Encoded for Message {
    ghost use Rattle.image.specs.Fitting.{FitsMessage};
    ghost use Rattle.ipc_model.specs.encodings.Images.{message_image};

    ghost encoding = { λ version. message_image };

    ghost fits = { FitsMessage };

    fn take(
        alloc: Global,
        version: StoreVersion,
        bytes: &[u8],
    ) -> Result<Option<(Self, &[u8])>, AllocError> {
        let Some((head, rest)) = take_head(bytes) else {
            return Ok(None);
        };
        let Some((count, rest)) = take_word(rest) else {
            return Ok(None);
        };
        let Some((rights, rest)) = take_rows(alloc, version, count, rest)? else {
            return Ok(None);
        };
        let Some((body, rest)) = take_body(alloc, head.size, rest)? else {
            return Ok(None);
        };
        let message = Message {
            destination: head.destination,
            reply: head.reply,
            id: head.id,
            complex: head.complex,
            rights,
            body,
        };
        Ok(Some((message, rest)))
    }

    fn push(&self, out: &mut Vec<u8>) -> Result<(), AllocError> {
        let (rights, body) = (self.rights.as_slice(), self.body.as_slice());
        push_byte(out, byte_of_kind(self.destination))?;
        push_reply(out, self.reply)?;
        push_word(out, self.id)?;
        push_length(out, HEADER_LENGTH + body.len())?;
        push_byte(out, byte_of(self.complex))?;
        push_length(out, rights.len())?;
        push_rows(out, rights)?;
        out.extend_from_slice(body)?;
        Ok(())
    }
}
