ghost use Rattle.std.specs.Prelude.{◌≡◌, [], ◌++◌, IfOk, None, false};
ghost use Rattle.words.specs.Words.{word};
ghost use Rattle.ipc_model.specs.messages.Notices.{notice_message};
ghost use Rattle.effects.specs.Meaning.{notice_meant};
ghost use Rattle.ipc_model.specs.messages.Notices as notice;

use codes::{
    MACH_NOTIFY_DEAD_NAME, MACH_NOTIFY_NO_SENDERS, MACH_NOTIFY_PORT_DELETED,
    MACH_NOTIFY_PORT_DESTROYED, MACH_NOTIFY_SEND_ONCE,
};
use effects::Notice;
use ipc_model::{CarriedRight, Message, PortInMessage, RightKind, Sequence};
use std::alloc::{AllocError, Global};
use words::push_word;

/// The descriptor of one inline port name (type 15).
const ONE_NAME: u32 = 0x1001_200f;
/// The descriptor of one inline receive right (type 16).
const ONE_RECEIVE_RIGHT: u32 = 0x1001_2010;
/// The descriptor of one inline 32-bit integer (type 2).
const ONE_INTEGER: u32 = 0x1001_2002;

/// Returns a notice as a message that is sent by a send-once right, names no reply and carries no rights.
pub fn message(alloc: Global, notice: Notice) -> Result<Message, AllocError>
    ensures message { IfOk result (λ message. message ≡ notice_message (notice_meant notice)) }
    ensures plain { IfOk result (λ message. (message.reply ≡ None) × (message.rights ≡ [])) }
{
    match notice {
        Notice::PortDeleted { name } => plain(alloc, MACH_NOTIFY_PORT_DELETED, ONE_NAME, name),
        Notice::NoSenders { count } => plain(alloc, MACH_NOTIFY_NO_SENDERS, ONE_INTEGER, count),
        Notice::SendOnce => Ok(without_rights(MACH_NOTIFY_SEND_ONCE, alloc, Vec::new(alloc))),
        Notice::DeadName { name } => plain(alloc, MACH_NOTIFY_DEAD_NAME, ONE_NAME, name),
    }
}

/// Returns a notice that contains one word.
fn plain(alloc: Global, id: u32, descriptor: u32, number: u32) -> Result<Message, AllocError>
    ensures { IfOk result (λ message. message
        ≡ record {
          destination = RightKind.SendOnce;
          reply = None;
          id = id;
          complex = false;
          rights = [];
          body = word descriptor ++ word number;
        }) }
{
    let body = one_item(alloc, descriptor, number)?;
    Ok(without_rights(id, alloc, body))
}

fn without_rights(id: u32, alloc: Global, body: Vec<u8>) -> Message
    ensures { result ≡ record {
      destination = RightKind.SendOnce;
      reply = None;
      id = id;
      complex = false;
      rights = [];
      body = body.items;
    } }
{
    Message {
        destination: RightKind::SendOnce,
        reply: None,
        id,
        complex: false,
        rights: Sequence::new(Vec::new(alloc)),
        body: Sequence::new(body),
    }
}

/// Returns the notice that a port's receive right would have been destroyed, in a message that carries the right
/// (`MACH_NOTIFY_PORT_DESTROYED`).
pub fn port_destroyed(alloc: Global, serial: u64) -> Result<Message, AllocError>
    ensures { IfOk result (λ message. message ≡ notice_message (notice.PortDestroyed serial)) }
{
    let body = one_item(alloc, ONE_RECEIVE_RIGHT, 0)?;
    let mut rights = Vec::new(alloc);
    rights.push(CarriedRight {
        kind: RightKind::Receive,
        port: PortInMessage::Live(serial),
    })?;
    Ok(Message {
        destination: RightKind::SendOnce,
        reply: None,
        id: MACH_NOTIFY_PORT_DESTROYED,
        complex: true,
        rights: Sequence::new(rights),
        body: Sequence::new(body),
    })
}

/// Returns a body with one item of one word.
fn one_item(alloc: Global, descriptor: u32, number: u32) -> Result<Vec<u8>, AllocError>
    ensures { IfOk result (λ body. body.items ≡ word descriptor ++ word number) }
{
    let mut body = Vec::new(alloc);
    push_word(&mut body, descriptor)?;
    push_word(&mut body, number)?;
    Ok(body)
}
