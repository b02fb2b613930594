//! Walks over the state, and copies of it: spaces and live ports by their numbers, names in their order, and a port
//! with all of its state.
ghost use Rattle.std.specs.Prelude.{◌≡◌, ◌<◌, ◌-◌, ◌^◌, IfOk, IfSome, map as mapped, option_map};
ghost use Rattle.std.specs.FinMap as map;
ghost use Rattle.ipc_model.specs.calls.PortCalls.{names_in};
ghost use Rattle.ports.specs.Passed.{messages_at, IsNextPort, lives_in, seen_message, seen_right};
ghost use Rattle.spaces.specs.Passed.{IsNextEntry};
ghost use Rattle.spaces.specs.NextSpace.{IsNextSpace};

use crate::IpcState;
use ipc_model::{CarriedRight, Entry, Message, PortState, Sequence};
use ports::Ports;
use std::alloc::{AllocError, Global};

impl IpcState {
    /// Returns the least number from `from` on that belongs to a space.
    pub fn next_space(&self, from: u64) -> Option<u32>
        ensures { IsNextSpace self.now.current.spaces from result }
    {
        self.spaces.next_space(from)
    }

    /// Returns the least name of a space from `from` on, with its entry.
    pub fn next_entry(&self, space: u32, from: u64) -> Option<(u32, Entry)>
        ensures next { IsNextEntry (names_in self.now.current space) from result }
        ensures fits { IfSome result (λ e. e.0 < 2 ^ 32) }
    {
        self.spaces.next_entry(space, from)
    }

    /// Returns the least serial from `from` on that belongs to a live port.
    pub fn next_port(&self, from: u64) -> Option<u64>
        ensures next { IsNextPort self.now.current.ports from result }
        ensures fits { IfSome result (λ serial. serial < 2 ^ 64 - 1) }
    {
        self.ports.next_port(from)
    }

    /// Returns a copy of a port's whole state, if it is live. In its messages `MACH_PORT_DEAD` replaces dead ports.
    pub fn port(&self, alloc: Global, serial: u64) -> Result<Option<PortState>, AllocError>
        ensures { IfOk result (λ port. port ≡ map.get self.now.current.ports serial) }
    {
        copy_of_port(alloc, &self.ports, serial)
    }
}

/// Returns a copy of a port's whole state, if it is live.
fn copy_of_port(alloc: Global, ports: &Ports, serial: u64) -> Result<Option<PortState>, AllocError>
    ensures { IfOk result (λ port. port ≡ map.get ports.now.current.ports serial) }
{
    let Some(numbers) = ports.numbers(serial) else {
        return Ok(None);
    };
    let messages = copy_of_messages(alloc, ports, serial)?;
    Ok(Some(PortState {
        limit: numbers.limit,
        sequence_number: numbers.sequence_number,
        make_send_count: numbers.make_send_count,
        set: numbers.set,
        messages: Sequence::new(messages),
        no_senders_target: numbers.no_senders_target,
        port_destroyed_target: numbers.port_destroyed_target,
    }))
}

/// Copies a port's messages, oldest first, with `MACH_PORT_DEAD` in place of dead ports.
fn copy_of_messages(alloc: Global, ports: &Ports, serial: u64) -> Result<Vec<Message>, AllocError>
    ensures { IfOk result (λ copy. copy.items ≡ messages_at ports.now.current.ports serial) }
{
    let mut copy = Vec::new(alloc);
    for index in 0..ports.message_count(serial) {
        if let Some(message) = ports.message_as_sent(serial, index) {
            copy.push(copy_as_seen(alloc, ports, message)?)?;
        }
    }
    Ok(copy)
}

/// Copies a message, with `MACH_PORT_DEAD` in place of dead ports.
fn copy_as_seen(alloc: Global, ports: &Ports, message: &Message) -> Result<Message, AllocError>
    ensures { IfOk result (λ copy. copy ≡ seen_message (lives_in ports.now.current.ports) message.now) }
{
    let rights = rights_as_seen(alloc, ports, message.rights.as_slice())?;
    let body = Vec::from_slice(alloc, message.body.as_slice())?;
    Ok(Message {
        destination: message.destination,
        reply: reply_as_seen(ports, message.reply),
        id: message.id,
        complex: message.complex,
        rights: Sequence::new(rights),
        body: Sequence::new(body),
    })
}

fn reply_as_seen(ports: &Ports, reply: Option<CarriedRight>) -> Option<CarriedRight>
    ensures { result ≡ option_map (seen_right (lives_in ports.now.current.ports)) reply }
{
    match reply {
        Some(reply) => Some(ports.seen(reply)),
        None => None,
    }
}

fn rights_as_seen(
    alloc: Global,
    ports: &Ports,
    rights: &[CarriedRight],
) -> Result<Vec<CarriedRight>, AllocError>
    ensures { IfOk result (λ seen. seen.items ≡ mapped (seen_right (lives_in ports.now.current.ports)) rights.now) }
{
    let mut seen = Vec::with_capacity(alloc, rights.len())?;
    for right in rights {
        seen.push(ports.seen(*right))?;
    }
    Ok(seen)
}
