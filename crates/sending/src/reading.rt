//! Decodes a task's message before any right is taken.
ghost use Rattle.std.specs.Prelude.{◌≡◌, ◌==◌, length, map, Ok};
ghost use Rattle.ipc_model.specs.calls.Tests.{or_refused, unless_failing};
ghost use Rattle.ipc_model.specs.messages.Messages.{used_parts};
ghost use Rattle.ipc_model.specs.messages.Sending as sending;
ghost use Rattle.msg_header.specs.Headers.{parts_by};
ghost use Rattle.sending.specs.Agrees.{Agrees};
ghost use Rattle.type_desc.specs.Values.{item_value};

use crate::SendFault;
use codes::{Disposition, HEADER_LENGTH, KernReturn, MACH_PORT_NULL, MAX_MESSAGE_SIZE};
use msg_header::{Header, parse};
use std::alloc::Global;
use type_desc::{Item, ItemFault, items};

/// Splits a message into header and body, if messages may have its size.
pub(crate) fn read_message(message: &[u8]) -> Result<(Header, &[u8]), SendFault>
    ensures { Agrees (unless_failing (sending.tests_of_size (length message.now)) (Ok (used_parts message.now)))
        (λ parts found. parts ≡ parts_by found.0 found.1.now) result }
{
    let Ok(header) = parse(message) else {
        return Err(SendFault::Refused(KernReturn::SendMsgTooSmall));
    };
    if header.size % 4 != 0 {
        return Err(SendFault::Refused(KernReturn::SendMsgTooSmall));
    }
    if header.size > MAX_MESSAGE_SIZE as usize {
        return Err(SendFault::Refused(KernReturn::SendNoBuffer));
    }
    let (_, body) = message.split_at(HEADER_LENGTH);
    Ok((header, body))
}

/// Returns the disposition of the destination right, which must give a send or send-once right.
pub(crate) fn destination_disposition(number: u8) -> Result<Disposition, SendFault>
    ensures { Agrees (or_refused KernReturn.SendInvalidHeader (sending.header_disposition number))
        (λ disposition found. found ≡ disposition) result }
{
    match Disposition::from_number(u32::from(number)) {
        Some(Disposition::MoveReceive) | None => {
            Err(SendFault::Refused(KernReturn::SendInvalidHeader))
        }
        Some(disposition) => Ok(disposition),
    }
}

/// Returns the disposition of the reply right, or `None` if there is no reply right.
pub(crate) fn reply_disposition(number: u8, name: u32) -> Result<Option<Disposition>, SendFault>
    ensures { Agrees (sending.reply_disposition number name) (λ disposition found. found ≡ disposition) result }
{
    if number == 0 && name == MACH_PORT_NULL {
        return Ok(None);
    }
    let disposition = destination_disposition(number)?;
    Ok(Some(disposition))
}

/// Returns the items of a body. Without `MACH_MSGH_BITS_COMPLEX` the body isn't decoded.
pub(crate) fn read_items(
    alloc: Global,
    complex: bool,
    body: &[u8],
) -> Result<Vec<Item<'_>>, SendFault>
    ensures { Agrees (sending.items_if_complex complex body.now)
        (λ items found. items ≡ map item_value found.items) result }
{
    if !complex {
        return Ok(Vec::new(alloc));
    }
    match items(alloc, body) {
        Ok(found) => Ok(found),
        Err(ItemFault::Code(code)) => Err(SendFault::Refused(code)),
        Err(ItemFault::NoMemory) => Err(SendFault::NoMemory),
    }
}
