ghost use Rattle.std.specs.Prelude.{◌≡◌, OnOk};
ghost use Rattle.inspect.specs.text.Walking.{target_seen, receive_seen, send_seen, request_target, entry_seen, names_seen, spaces_seen, carried_seen, reply_seen, rights_seen, message_seen, messages_seen, state_seen, ports_seen, snapshot_seen};

use crate::text::standing::{Standing, StandingRight};
use ipc_model::{CarriedRight, Entry, Message, PortInMessage, PortState, RightKind};
use snapshot::{IpcSnapshot, LivePort, NamedEntry, Space};
use std::alloc::AllocError;

/// Receives the rights of a state, one after another.
pub(crate) trait Visitor {
    ghost use Rattle.inspect.specs.declared.text.standing.StandingRight.{StandingRight};

    // The visitor's state.
    ghost View: { Type 0 };

    ghost view: { Self → View };

    // The visitor's state after one more right.
    ghost seen: { StandingRight → View → View };

    /// Receives a right. It fails only if out of memory.
    fn see(&mut self, right: StandingRight) -> Result<(), AllocError>
        ensures { OnOk result (view self.new ≡ seen right (view self.old)) };
}

fn see_target<V: Visitor>(
    visitor: &mut V,
    standing: Standing,
    target: Option<u64>,
) -> Result<(), AllocError>
    ensures { OnOk result (V.view visitor.new ≡ target_seen V.seen standing target (V.view visitor.old)) }
{
    match target {
        Some(port) => visitor.see(StandingRight {
            kind: RightKind::SendOnce,
            port,
            standing,
            references: 0,
        }),
        None => Ok(()),
    }
}

fn see_receive<V: Visitor>(
    visitor: &mut V,
    space: u32,
    name: u32,
    entry: &Entry,
) -> Result<(), AllocError>
    ensures { OnOk result (V.view visitor.new ≡ receive_seen V.seen space name entry.now (V.view visitor.old)) }
{
    match entry {
        Entry::Port(rights) if rights.receive => visitor.see(StandingRight {
            kind: RightKind::Receive,
            port: rights.port,
            standing: Standing::Held { space, name },
            references: rights.send,
        }),
        _ => Ok(()),
    }
}

fn see_send<V: Visitor>(
    visitor: &mut V,
    space: u32,
    name: u32,
    entry: &Entry,
) -> Result<(), AllocError>
    ensures { OnOk result (V.view visitor.new ≡ send_seen V.seen space name entry.now (V.view visitor.old)) }
{
    match entry {
        Entry::Port(rights) if rights.send == 0 => Ok(()),
        Entry::Port(rights) => visitor.see(StandingRight {
            kind: RightKind::Send,
            port: rights.port,
            standing: Standing::Held { space, name },
            references: rights.send,
        }),
        Entry::SendOnce { port, .. } => visitor.see(StandingRight {
            kind: RightKind::SendOnce,
            port: *port,
            standing: Standing::Held { space, name },
            references: 1,
        }),
        Entry::Set | Entry::Dead { .. } => Ok(()),
    }
}

/// Returns the target of a name's dead-name request.
fn request_target(entry: &Entry) -> Option<u64>
    ensures { result ≡ request_target entry.now }
{
    match entry {
        Entry::Port(rights) => rights.dead_name_target,
        Entry::SendOnce {
            dead_name_target,
            ..
        } => *dead_name_target,
        Entry::Set | Entry::Dead { .. } => None,
    }
}

#[tactic(auto, unfolding(crate::specs::text::Walking::entry_seen))]
fn see_entry<V: Visitor>(
    visitor: &mut V,
    space: u32,
    name: u32,
    entry: &Entry,
) -> Result<(), AllocError>
    ensures { OnOk result (V.view visitor.new ≡ entry_seen V.seen space name entry.now (V.view visitor.old)) }
{
    see_receive(visitor, space, name, entry)?;
    see_send(visitor, space, name, entry)?;
    see_target(
        visitor,
        Standing::DeadNameRequest { space, name },
        request_target(entry),
    )
}

fn see_names<V: Visitor>(
    visitor: &mut V,
    space: u32,
    names: &[NamedEntry],
) -> Result<(), AllocError>
    ensures { OnOk result (V.view visitor.new ≡ names_seen V.seen space names.now (V.view visitor.old)) }
{
    for named in names {
        see_entry(visitor, space, named.name, &named.entry)?;
    }
    Ok(())
}

fn see_spaces<V: Visitor>(visitor: &mut V, spaces: &[Space]) -> Result<(), AllocError>
    ensures { OnOk result (V.view visitor.new ≡ spaces_seen V.seen spaces.now (V.view visitor.old)) }
{
    for space in spaces {
        see_names(visitor, space.number, space.names.as_slice())?;
    }
    Ok(())
}

/// Passes a right in a message of this port's queue to the visitor.
fn see_carried<V: Visitor>(
    visitor: &mut V,
    queue: u64,
    carried: CarriedRight,
) -> Result<(), AllocError>
    ensures { OnOk result (V.view visitor.new ≡ carried_seen V.seen queue carried (V.view visitor.old)) }
{
    match carried.port {
        PortInMessage::Live(port) => visitor.see(StandingRight {
            kind: carried.kind,
            port,
            standing: Standing::Queued { queue },
            references: 0,
        }),
        PortInMessage::Null | PortInMessage::Dead => Ok(()),
    }
}

fn see_reply<V: Visitor>(
    visitor: &mut V,
    queue: u64,
    reply: Option<CarriedRight>,
) -> Result<(), AllocError>
    ensures { OnOk result (V.view visitor.new ≡ reply_seen V.seen queue reply (V.view visitor.old)) }
{
    match reply {
        Some(carried) => see_carried(visitor, queue, carried),
        None => Ok(()),
    }
}

fn see_rights<V: Visitor>(
    visitor: &mut V,
    queue: u64,
    rights: &[CarriedRight],
) -> Result<(), AllocError>
    ensures { OnOk result (V.view visitor.new ≡ rights_seen V.seen queue rights.now (V.view visitor.old)) }
{
    for carried in rights {
        see_carried(visitor, queue, *carried)?;
    }
    Ok(())
}

#[tactic(auto, unfolding(crate::specs::text::Walking::message_seen))]
fn see_message<V: Visitor>(visitor: &mut V, queue: u64, message: &Message) -> Result<(), AllocError>
    ensures { OnOk result (V.view visitor.new ≡ message_seen V.seen queue message.now (V.view visitor.old)) }
{
    visitor.see(StandingRight {
        kind: message.destination,
        port: queue,
        standing: Standing::Queued { queue },
        references: 0,
    })?;
    see_reply(visitor, queue, message.reply)?;
    see_rights(visitor, queue, message.rights.as_slice())
}

fn see_messages<V: Visitor>(
    visitor: &mut V,
    queue: u64,
    messages: &[Message],
) -> Result<(), AllocError>
    ensures { OnOk result (V.view visitor.new ≡ messages_seen V.seen queue messages.now (V.view visitor.old)) }
{
    for message in messages {
        see_message(visitor, queue, message)?;
    }
    Ok(())
}

#[tactic(auto, unfolding(crate::specs::text::Walking::state_seen))]
fn see_state<V: Visitor>(visitor: &mut V, serial: u64, port: &PortState) -> Result<(), AllocError>
    ensures { OnOk result (V.view visitor.new ≡ state_seen V.seen serial port.now (V.view visitor.old)) }
{
    see_messages(visitor, serial, port.messages.as_slice())?;
    see_target(
        visitor,
        Standing::NoSendersRequest { port: serial },
        port.no_senders_target,
    )?;
    see_target(
        visitor,
        Standing::PortDestroyedRequest { port: serial },
        port.port_destroyed_target,
    )
}

fn see_ports<V: Visitor>(visitor: &mut V, ports: &[LivePort]) -> Result<(), AllocError>
    ensures { OnOk result (V.view visitor.new ≡ ports_seen V.seen ports.now (V.view visitor.old)) }
{
    for port in ports {
        see_state(visitor, port.serial, &port.state)?;
    }
    Ok(())
}

/// Passes all rights of a snapshot to the visitor. It fails only if out of memory.
#[tactic(auto, unfolding(crate::specs::text::Walking::snapshot_seen))]
pub(crate) fn see_snapshot<V: Visitor>(
    visitor: &mut V,
    snapshot: &IpcSnapshot,
) -> Result<(), AllocError>
    ensures { OnOk result (V.view visitor.new ≡ snapshot_seen V.seen snapshot.now (V.view visitor.old)) }
{
    see_spaces(visitor, snapshot.spaces.as_slice())?;
    see_ports(visitor, snapshot.ports.as_slice())
}
