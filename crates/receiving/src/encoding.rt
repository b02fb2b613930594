//! The bytes of a received message.
ghost use Rattle.std.specs.Prelude.{◌≡◌, ◌++◌, ◌<◌, ◌^◌, IfOk, OnOk, length};
ghost use Rattle.ipc_model.specs.messages.Receiving.{body_names, first_name, message_size, received_body, received_encoding, reply_kind_number, reply_name};
ghost use Rattle.ipc_model.specs.rights.Dispositions.{number_of_kind};

use crate::looking::size_of;
use codes::MACH_PORT_NULL;
use ipc_model::{CarriedRight, Message, RightKind};
use msg_header::Header;
use std::alloc::{AllocError, Global};
use type_desc::push_filled_body;

/// Returns the bytes of a message that is received under this name of its port, with this sequence number, and whose
/// rights got these names.
pub(crate) fn received_encoding(
    alloc: Global,
    message: &Message,
    member: u32,
    sequence_number: u32,
    given: &[u32],
) -> Result<Vec<u8>, AllocError>
    requires small { message_size message.now < 2 ^ 32 }
    requires long { length (received_body message.now (body_names message.now.reply given.now))
        ≡ length message.now.body }
    ensures { IfOk result (λ encoding. encoding.items
        ≡ received_encoding message.now member sequence_number given.now) }
{
    let header = header_of(message, member, given);
    let mut encoding = Vec::with_capacity(alloc, header.size)?;
    header.write_into(sequence_number, &mut encoding)?;
    push_body(message, body_names(message.reply, given), &mut encoding)?;
    Ok(encoding)
}

fn header_of(message: &Message, member: u32, given: &[u32]) -> Header
    ensures { result ≡ record {
      size = message_size message.now;
      remote_disposition = reply_kind_number message.now.reply;
      local_disposition = number_of_kind message.now.destination;
      complex = message.now.complex;
      remote = reply_name message.now.reply given.now;
      local = member;
      id = message.now.id;
    } }
{
    Header {
        size: size_of(message),
        remote_disposition: reply_kind(message.reply),
        local_disposition: kind_number(message.destination),
        complex: message.complex,
        remote: reply_name(message.reply, given),
        local: member,
        id: message.id,
    }
}

/// Returns the number of a reply right's kind, or 0 if there is no reply right.
fn reply_kind(reply: Option<CarriedRight>) -> u8
    ensures { result ≡ reply_kind_number reply }
{
    match reply {
        Some(right) => kind_number(right.kind),
        None => 0,
    }
}

/// Returns the number of a received right's kind (`MACH_MSG_TYPE_PORT_RECEIVE`, `_SEND` or `_SEND_ONCE`).
fn kind_number(right: RightKind) -> u8
    ensures { result ≡ number_of_kind right }
{
    right as u8
}

/// Returns the name that the reply right got: the first one.
fn reply_name(reply: Option<CarriedRight>, given: &[u32]) -> u32
    ensures { result ≡ reply_name reply given.now }
{
    match reply {
        Some(_) => first_name(given),
        None => MACH_PORT_NULL,
    }
}

fn first_name(given: &[u32]) -> u32
    ensures { result ≡ first_name given.now }
{
    match given.split_first() {
        Some((name, _)) => *name,
        None => MACH_PORT_NULL,
    }
}

/// Returns the names that the body's rights got: those after the reply right's.
fn body_names(reply: Option<CarriedRight>, given: &[u32]) -> &[u32]
    ensures { result.now ≡ body_names reply given.now }
{
    match (reply, given.split_first()) {
        (Some(_), Some((_, beyond))) => beyond,
        _ => given,
    }
}

/// Appends a body with names in place of its ports.
fn push_body(message: &Message, names: &[u32], encoding: &mut Vec<u8>) -> Result<(), AllocError>
    ensures { OnOk result (encoding.new.items ≡ encoding.old.items ++ received_body message.now names.now) }
{
    let body = message.body.as_slice();
    if message.complex {
        push_filled_body(body, names, encoding)
    } else {
        encoding.extend_from_slice(body)
    }
}
