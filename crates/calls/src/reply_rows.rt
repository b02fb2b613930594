ghost use Rattle.std.specs.Prelude.{◌≡◌, ◌<◌, ◌^◌, ◌++◌, All, flat_map, length, ℕ, List, Bool, IfSome, IfNone, IfOk};
ghost use Rattle.ipc_model.specs.declared.plain_reply.NamedType.{NamedType};
ghost use Rattle.ipc_model.specs.declared.plain_reply.ReceiveStatus.{ReceiveStatus};
ghost use Rattle.ipc_model.specs.declared.plain_reply.PlainReply.TheVariants as reply;
ghost use Rattle.ipc_model.specs.encodings.PlainCalls.{number_of_bool, status_encoding, FitsReply};
ghost use Rattle.words.specs.Words.{word};
ghost use Rattle.calls.specs.Rows.{names_encoding};

use ipc_model::{NamedType, ReceiveStatus};
use std::alloc::{AllocError, Global};
use words::take_word;

/// Splits off a name and its type bits.
fn take_named(bytes: &[u8]) -> Option<(NamedType, &[u8])>
    ensures found { IfSome result (λ r. bytes.now ≡ word r.0.name ++ (word r.0.bits ++ r.1.now)) }
    ensures fits { IfSome result (λ r. (r.0.name < 2 ^ 32) × (r.0.bits < 2 ^ 32)) }
    ensures none { IfNone result (length bytes.now < 8) }
{
    let (name, rest) = take_word(bytes)?;
    let (bits, rest) = take_word(rest)?;
    Some((NamedType { name, bits }, rest))
}

/// Decodes names with their type bits.
pub(crate) fn read_names(alloc: Global, bytes: &[u8]) -> Result<Option<Vec<NamedType>>, AllocError>
    ensures found { IfOk result (λ found. IfSome found (λ names. bytes.now ≡ names_encoding names.items)) }
    ensures fits { IfOk result (λ found. IfSome found
        (λ names. All (λ (n : NamedType). (n.name < 2 ^ 32) × (n.bits < 2 ^ 32)) names.items)) }
    ensures none { IfOk result (λ found. IfNone found
        ((names : List NamedType) → bytes.now ≡ names_encoding names → ⊥)) }
{
    let mut names = Vec::new(alloc);
    let mut rest = bytes;
    while let Some((named, beyond)) = take_named(rest) {
        names.push(named)?;
        rest = beyond;
    }
    if rest.is_empty() {
        return Ok(Some(names));
    }
    Ok(None)
}

/// Decodes names.
pub(crate) fn read_members(alloc: Global, bytes: &[u8]) -> Result<Option<Vec<u32>>, AllocError>
    ensures found { IfOk result (λ found. IfSome found (λ members. bytes.now ≡ flat_map word members.items)) }
    ensures fits { IfOk result (λ found. IfSome found (λ members. All (λ name. name < 2 ^ 32) members.items)) }
    ensures none { IfOk result (λ found. IfNone found
        ((members : List ℕ) → bytes.now ≡ flat_map word members → ⊥)) }
{
    let mut members = Vec::new(alloc);
    let mut rest = bytes;
    while let Some((name, beyond)) = take_word(rest) {
        members.push(name)?;
        rest = beyond;
    }
    if rest.is_empty() {
        return Ok(Some(members));
    }
    Ok(None)
}

/// Splits off a flag.
fn take_flag(bytes: &[u8]) -> Option<(bool, &[u8])>
    ensures found { IfSome result (λ r. bytes.now ≡ word (number_of_bool r.0) ++ r.1.now) }
    ensures none { IfNone result ((flag : Bool) (rest : List ℕ) → bytes.now ≡ word (number_of_bool flag) ++ rest → ⊥) }
{
    let (number, rest) = take_word(bytes)?;
    match number {
        0 => Some((false, rest)),
        1 => Some((true, rest)),
        _ => None,
    }
}

/// Splits off three words.
fn take_three(bytes: &[u8]) -> Option<(u32, u32, u32, &[u8])>
    ensures found { IfSome result (λ r. bytes.now ≡ word r.0 ++ (word r.1 ++ (word r.2 ++ r.3.now))) }
    ensures fits { IfSome result (λ r. (r.0 < 2 ^ 32) × (r.1 < 2 ^ 32) × (r.2 < 2 ^ 32)) }
    ensures none { IfNone result (length bytes.now < 12) }
{
    let (a, rest) = take_word(bytes)?;
    let (b, rest) = take_word(rest)?;
    let (c, rest) = take_word(rest)?;
    Some((a, b, c, rest))
}

/// Decodes three flags.
fn three_flags(bytes: &[u8]) -> Option<(bool, bool, bool)>
    ensures found { IfSome result (λ r. bytes.now ≡ word (number_of_bool r.0)
        ++ (word (number_of_bool r.1) ++ word (number_of_bool r.2))) }
    ensures none { IfNone result ((a b c : Bool) → bytes.now ≡ word (number_of_bool a)
        ++ (word (number_of_bool b) ++ word (number_of_bool c)) → ⊥) }
{
    let (a, rest) = take_flag(bytes)?;
    let (b, rest) = take_flag(rest)?;
    let (c, rest) = take_flag(rest)?;
    if rest.is_empty() {
        Some((a, b, c))
    } else {
        None
    }
}

/// Decodes a port's state.
pub(crate) fn read_status(bytes: &[u8]) -> Option<ReceiveStatus>
    ensures found { IfSome result (λ status. bytes.now ≡ status_encoding status) }
    ensures fits { IfSome result (λ status. FitsReply (reply.ReceiveStatus status)) }
    ensures none { IfNone result ((status : ReceiveStatus) → bytes.now ≡ status_encoding status → ⊥) }
{
    let (set, sequence_number, make_send_count, rest) = take_three(bytes)?;
    let (limit, messages, send_once_count, rest) = take_three(rest)?;
    let (has_senders, has_port_destroyed_request, has_no_senders_request) = three_flags(rest)?;
    Some(ReceiveStatus {
        set,
        sequence_number,
        make_send_count,
        limit,
        messages,
        send_once_count,
        has_senders,
        has_port_destroyed_request,
        has_no_senders_request,
    })
}
