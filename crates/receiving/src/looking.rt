//! Queries on a message before it is received.
ghost use Rattle.std.specs.Prelude.{◌≡◌, ◌+◌, ◌++◌, [], nat_lt, IfOk, OnOk, map, option_map};
ghost use Rattle.std.specs.FinMap as finmap;
ghost use Rattle.codes.specs.declared.limits.TheConstants.{MAX_NAMES};
ghost use Rattle.ipc_model.specs.calls.PortCalls.{names_in};
ghost use Rattle.ipc_model.specs.messages.Receiving.{arriving, lacks_names, message_size, reply_right};
ghost use Rattle.ipc_model.specs.rights.CopyOut.{names_needed};
ghost use Rattle.rights.specs.Passed.{lives_in, seen_message, seen_right};

use codes::{HEADER_LENGTH, MAX_NAMES};
use ipc_model::{CarriedRight, Message};
use rights::{IpcState, names_needed};
use std::alloc::{AllocError, Global};

/// Returns the length of a message in bytes, header and body.
pub(crate) fn size_of(message: &Message) -> usize
    ensures { result ≡ message_size message.now }
{
    HEADER_LENGTH + message.body.as_slice().len()
}

/// Returns true if a message is larger than a limit.
pub(crate) fn is_too_large(limit: u32, message: &Message) -> bool
    ensures { result ≡ nat_lt limit (message_size message.now) }
{
    (limit as usize) < size_of(message)
}

/// Returns the rights that arrive with a message, as they are now: its reply right, then those of its body.
pub(crate) fn arriving(
    alloc: Global,
    state: &IpcState,
    message: &Message,
) -> Result<Vec<CarriedRight>, AllocError>
    ensures { IfOk result (λ rights. rights.items
        ≡ arriving (seen_message (lives_in state.now.current.ports) message.now)) }
{
    let body = message.rights.as_slice();
    let mut rights = Vec::with_capacity(alloc, body.len() + 1)?;
    push_reply(state, message.reply, &mut rights)?;
    push_body(state, body, &mut rights)?;
    Ok(rights)
}

fn push_reply(
    state: &IpcState,
    reply: Option<CarriedRight>,
    rights: &mut Vec<CarriedRight>,
) -> Result<(), AllocError>
    ensures { OnOk result (rights.new.items ≡ rights.old.items
        ++ reply_right (option_map (seen_right (lives_in state.now.current.ports)) reply)) }
{
    match reply {
        Some(reply) => Ok(rights.push(state.seen(reply))?),
        None => Ok(()),
    }
}

fn push_body(
    state: &IpcState,
    body: &[CarriedRight],
    rights: &mut Vec<CarriedRight>,
) -> Result<(), AllocError>
    ensures { OnOk result (rights.new.items ≡ rights.old.items
        ++ map (seen_right (lives_in state.now.current.ports)) body.now) }
{
    for right in body {
        rights.push(state.seen(*right))?;
    }
    Ok(())
}

/// Returns true if the rights of a message need more new names than a space has left.
pub(crate) fn lacks_names(
    alloc: Global,
    state: &IpcState,
    space: u32,
    message: &Message,
) -> Result<bool, AllocError>
    ensures { IfOk result (λ lacks. lacks
        ≡ lacks_names (names_in state.now.current space)
        (seen_message (lives_in state.now.current.ports) message.now)) }
{
    let rights = arriving(alloc, state, message)?;
    Ok(lacks_room(state, space, rights.as_slice()))
}

/// Returns true if rights need more new names than a space has left.
pub(crate) fn lacks_room(state: &IpcState, space: u32, rights: &[CarriedRight]) -> bool
    ensures { result ≡ nat_lt MAX_NAMES
        (finmap.len (names_in state.now.current space) + names_needed (names_in state.now.current space)
        [] rights.now) }
{
    match MAX_NAMES.checked_sub(state.name_count(space)) {
        Some(left) => names_needed(state, space, rights) > left,
        None => true,
    }
}
