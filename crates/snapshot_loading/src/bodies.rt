//! Checks that queued messages are lawful.
ghost use Rattle.std.specs.Prelude.{◌≡◌, ◌↔◌, ◌+◌, ◌++◌, ◌%◌, ◌≤◌, All, List, IfOk, IsTrue, MatchOption, length, map};
ghost use Rattle.std.specs.List.{list_any};
ghost use Rattle.ipc_model.specs.declared.message.RightKind.{RightKind as Kind};
ghost use Rattle.ipc_model.specs.messages.Items.{is_port_item};
ghost use Rattle.ipc_model.specs.messages.Messages.{header_length};
ghost use Rattle.ipc_model.specs.state.Lawful.{HoldsPorts, IsStoredItem, LawfulMessage, LawfulReply, kind_of_number, kinds_of_item};
ghost use Rattle.codes.specs.declared.limits.TheConstants.{MAX_MESSAGE_SIZE};
ghost use Rattle.snapshot_loading.specs.Bodies.{HoldsRights, carried_kind, HasKinds};
ghost use Rattle.type_desc.specs.Values.{item_value};
ghost use Rattle.words.specs.Words.{AreBytes};

use crate::linking::is_receive;
use codes::{HEADER_LENGTH, MAX_MESSAGE_PORTS, MAX_MESSAGE_SIZE};
use ipc_model::{CarriedRight, Message, RightKind};
use std::alloc::{AllocError, Global};
use type_desc::{Item, ItemFault, items};

/// Returns true if a message may be queued.
pub(crate) fn is_lawful_message(alloc: Global, message: &Message) -> Result<bool, AllocError>
    ensures { IfOk result (λ yes. IsTrue yes ↔ LawfulMessage message.now) }
{
    let body = message.body.as_slice();
    let _id = message.id;
    are_bytes(body);
    if is_receive(message.destination) || !is_lawful_reply(message.reply) || !has_size(body) {
        return Ok(false);
    }
    if message.complex {
        holds_ports(alloc, body, message.rights.as_slice())
    } else {
        Ok(message.rights.as_slice().is_empty())
    }
}

/// Proves that a body consists of bytes. It does nothing else.
fn are_bytes(body: &[u8])
    ensures { AreBytes body.now }
{
    let _ = body;
}

/// Returns true if a reply right isn't a receive right.
fn is_lawful_reply(reply: Option<CarriedRight>) -> bool
    ensures { IsTrue result ↔ LawfulReply reply }
{
    match reply {
        Some(right) => !is_receive(right.kind),
        None => true,
    }
}

/// Returns true if a message may have a body of this length: whole words, and not too many.
fn has_size(body: &[u8]) -> bool
    ensures { IsTrue result ↔ (((header_length + length body.now) % 4 ≡ 0)
        × (header_length + length body.now ≤ MAX_MESSAGE_SIZE)) }
{
    let room = MAX_MESSAGE_SIZE as usize - HEADER_LENGTH;
    body.len() % 4 == 0 && body.len() <= room
}

/// Returns true if these are the rights of the body's ports.
fn holds_ports(alloc: Global, body: &[u8], rights: &[CarriedRight]) -> Result<bool, AllocError>
    ensures { IfOk result (λ yes. IsTrue yes ↔ HoldsPorts body.now rights.now) }
{
    match items(alloc, body) {
        Ok(items) => Ok(hold_rights(items.as_slice(), rights)),
        Err(ItemFault::Code(_)) => Ok(false),
        Err(ItemFault::NoMemory) => Err(AllocError),
    }
}

fn hold_rights(items: &[Item<'_>], rights: &[CarriedRight]) -> bool
    ensures { IsTrue result ↔ HoldsRights (map item_value items.now) rights.now }
{
    if rights.len() > MAX_MESSAGE_PORTS || !have_port(items) {
        return false;
    }
    if !are_stored(items) {
        return false;
    }
    have_kinds(items, rights)
}

fn have_port(items: &[Item<'_>]) -> bool
    ensures { result ≡ list_any is_port_item (map item_value items.now) }
{
    for item in items {
        if item.is_port() {
            return true;
        }
    }
    false
}

fn are_stored(items: &[Item<'_>]) -> bool
    ensures { IsTrue result ↔ All (λ item. IsStoredItem (item_value item)) items.now }
{
    items.iter().all(|item| is_stored(item))
}

/// Returns true if an item is in its queued form: a port item has a type as received, and 0 in place of each port.
fn is_stored(item: &Item<'_>) -> bool
    ensures { IsTrue result ↔ IsStoredItem (item_value item.now) }
{
    !item.is_port() || (item.type_name <= 18 && are_zeros(item.content))
}

fn are_zeros(content: &[u8]) -> bool
    ensures { IsTrue result ↔ All (λ byte. byte ≡ 0) content.now }
{
    content.iter().all(|byte| *byte == 0)
}

/// Returns true if the rights are of the kinds of the items' ports, in their order.
fn have_kinds(items: &[Item<'_>], rights: &[CarriedRight]) -> bool
    ensures { IsTrue result ↔ HasKinds (map item_value items.now) (map carried_kind rights.now) }
{
    let mut rest = rights;
    for item in items {
        let Some(beyond) = after_kinds(item, rest) else {
            return false;
        };
        rest = beyond;
    }
    rest.is_empty()
}

/// Returns the rights after those of an item, if the first ones are of the item's kind.
fn after_kinds<'a>(item: &Item<'_>, rights: &'a [CarriedRight]) -> Option<&'a [CarriedRight]>
    ensures { MatchOption result
        ((more : List Kind) → map carried_kind rights.now ≡ kinds_of_item (item_value item.now) ++ more → ⊥)
        (λ beyond. map carried_kind rights.now ≡ kinds_of_item (item_value item.now) ++ map carried_kind beyond.now) }
{
    if !item.is_port() {
        return Some(rights);
    }
    let count = item.number as usize;
    if rights.len() < count {
        return None;
    }
    let (front, beyond) = rights.split_at(count);
    if are_all(front, kind_of(item.type_name)) {
        Some(beyond)
    } else {
        None
    }
}

/// Returns the kind of right of a port item's type.
fn kind_of(type_name: u16) -> RightKind
    ensures { result ≡ kind_of_number type_name }
{
    match type_name {
        16 => RightKind::Receive,
        17 => RightKind::Send,
        _ => RightKind::SendOnce,
    }
}

fn are_all(rights: &[CarriedRight], kind: RightKind) -> bool
    ensures { IsTrue result ↔ All (λ right. right.kind ≡ kind) rights.now }
{
    rights.iter().all(|right| right.kind == kind)
}
