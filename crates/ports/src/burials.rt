//! Subtracts the rights of a queue or a message from the counts, and removes the counts of the rights to a dead port.
ghost use Rattle.std.specs.Prelude.{◌≡◌, ◌+◌, OnOk, drop, map, option_map, take};
ghost use Rattle.live_ports.specs.Changed.{messages_at};
ghost use Rattle.live_ports.specs.Seen.{lives_in, seen_message, seen_right};
ghost use Rattle.ports.specs.Burials.{IsCleared};
ghost use Rattle.ports.specs.Counting.{carried_fewer, carrier_fewer, carriers_fewer, message_fewer, messages_fewer, queue_fewer, reply_fewer, rights_fewer};

use ipc_model::{CarriedRight, Message, PortInMessage, RightKind};
use live_ports::LivePorts;
use port_indexes::PairCounts;
use std::alloc::AllocError;

/// Subtracts the rights of the messages in a port's queue.
pub(crate) fn subtract_queue(
    counts: &mut PairCounts,
    carriers: &mut PairCounts,
    ports: &LivePorts,
    queue: u64,
) -> Result<(), AllocError>
    ensures counts { OnOk result (counts.new.current
        ≡ messages_fewer counts.old.current queue (messages_at ports.now.current.ports queue)) }
    ensures carriers { OnOk result
        (carriers.new.current ≡ queue_fewer carriers.old.current queue (messages_at ports.now.current.ports queue)) }
    ensures before { counts.new.before ≡ counts.old.before }
    ensures carriers_before { carriers.new.before ≡ carriers.old.before }
{
    for index in 0..ports.message_count(queue) {
        subtract_message_at(counts, carriers, ports, queue, index)?;
    }
    Ok(())
}

/// Subtracts the rights of the oldest message in a port's queue, if there is one.
pub(crate) fn subtract_oldest(
    counts: &mut PairCounts,
    carriers: &mut PairCounts,
    ports: &LivePorts,
    queue: u64,
) -> Result<(), AllocError>
    ensures counts { OnOk result (counts.new.current
        ≡ messages_fewer counts.old.current queue (take 1 (messages_at ports.now.current.ports queue))) }
    ensures carriers { OnOk result
        (carriers.new.current ≡ queue_fewer carriers.old.current queue
        (take 1 (messages_at ports.now.current.ports queue))) }
    ensures before { counts.new.before ≡ counts.old.before }
    ensures carriers_before { carriers.new.before ≡ carriers.old.before }
{
    let Some(message) = ports.message_as_sent(queue, 0) else {
        return Ok(());
    };
    subtract_message(counts, carriers, ports, queue, message)?;
    Ok(())
}

/// Subtracts the rights of one message, if there is one. Subtracting this message and all later ones from the old
/// counts gives the same as subtracting the later ones from the new counts.
fn subtract_message_at(
    counts: &mut PairCounts,
    carriers: &mut PairCounts,
    ports: &LivePorts,
    queue: u64,
    index: u32,
) -> Result<(), AllocError>
    ensures counts { OnOk result (messages_fewer counts.new.current queue
        (drop (index + 1) (messages_at ports.now.current.ports queue))
        ≡ messages_fewer counts.old.current queue (drop index (messages_at ports.now.current.ports queue))) }
    ensures carriers { OnOk result
        (queue_fewer carriers.new.current queue (drop (index + 1) (messages_at ports.now.current.ports queue))
        ≡ queue_fewer carriers.old.current queue (drop index (messages_at ports.now.current.ports queue))) }
    ensures before { counts.new.before ≡ counts.old.before }
    ensures carriers_before { carriers.new.before ≡ carriers.old.before }
{
    let Some(message) = ports.message_as_sent(queue, index) else {
        return Ok(());
    };
    subtract_message(counts, carriers, ports, queue, message)?;
    Ok(())
}

/// Subtracts the rights of a message. A right whose port has died counts as none.
fn subtract_message(
    counts: &mut PairCounts,
    carriers: &mut PairCounts,
    ports: &LivePorts,
    queue: u64,
    message: &Message,
) -> Result<(), AllocError>
    ensures counts { OnOk result (counts.new.current
        ≡ message_fewer counts.old.current queue (seen_message (lives_in ports.now.current.ports) message.now)) }
    ensures carriers { OnOk result
        (carriers.new.current ≡ carriers_fewer carriers.old.current queue
        (seen_message (lives_in ports.now.current.ports) message.now).rights) }
    ensures before { counts.new.before ≡ counts.old.before }
    ensures carriers_before { carriers.new.before ≡ carriers.old.before }
{
    counts.subtract_right(message.destination, queue)?;
    subtract_reply(counts, ports, message.reply)?;
    let rights = message.rights.as_slice();
    subtract_body(counts, carriers, ports, queue, rights)
}

fn subtract_reply(
    counts: &mut PairCounts,
    ports: &LivePorts,
    reply: Option<CarriedRight>,
) -> Result<(), AllocError>
    ensures ok { OnOk result (counts.new.current
        ≡ reply_fewer counts.old.current (option_map (seen_right (lives_in ports.now.current.ports)) reply)) }
    ensures before { counts.new.before ≡ counts.old.before }
{
    match reply {
        Some(carried) => subtract_carried(counts, ports.seen(carried)),
        None => Ok(()),
    }
}

fn subtract_body(
    counts: &mut PairCounts,
    carriers: &mut PairCounts,
    ports: &LivePorts,
    queue: u64,
    rights: &[CarriedRight],
) -> Result<(), AllocError>
    ensures counts { OnOk result (counts.new.current
        ≡ rights_fewer counts.old.current (map (seen_right (lives_in ports.now.current.ports)) rights.now)) }
    ensures carriers { OnOk result
        (carriers.new.current ≡ carriers_fewer carriers.old.current queue
        (map (seen_right (lives_in ports.now.current.ports)) rights.now)) }
    ensures before { counts.new.before ≡ counts.old.before }
    ensures carriers_before { carriers.new.before ≡ carriers.old.before }
{
    let mut rest = rights;
    while let Some((carried, beyond)) = rest.split_first() {
        let now = ports.seen(*carried);
        subtract_carried(counts, now)?;
        subtract_carrier(carriers, queue, now)?;
        rest = beyond;
    }
    Ok(())
}

fn subtract_carried(counts: &mut PairCounts, carried: CarriedRight) -> Result<(), AllocError>
    ensures ok { OnOk result (counts.new.current ≡ carried_fewer counts.old.current carried) }
    ensures before { counts.new.before ≡ counts.old.before }
{
    match carried.port {
        PortInMessage::Live(port) => counts.subtract_right(carried.kind, port),
        PortInMessage::Null => Ok(()),
        PortInMessage::Dead => Ok(()),
    }
}

fn subtract_carrier(
    carriers: &mut PairCounts,
    queue: u64,
    carried: CarriedRight,
) -> Result<(), AllocError>
    ensures ok { OnOk result (carriers.new.current
        ≡ carrier_fewer carriers.old.current queue carried.kind carried.port) }
    ensures before { carriers.new.before ≡ carriers.old.before }
{
    match carried.kind {
        RightKind::Receive => subtract_received(carriers, queue, carried.port),
        RightKind::Send => Ok(()),
        RightKind::SendOnce => Ok(()),
    }
}

fn subtract_received(
    carriers: &mut PairCounts,
    queue: u64,
    port: PortInMessage,
) -> Result<(), AllocError>
    ensures ok { OnOk result (carriers.new.current ≡ carrier_fewer carriers.old.current queue RightKind.Receive port) }
    ensures before { carriers.new.before ≡ carriers.old.before }
{
    match port {
        PortInMessage::Live(inner) => carriers.subtract(inner, queue),
        PortInMessage::Null => Ok(()),
        PortInMessage::Dead => Ok(()),
    }
}

/// Removes a port's receive right from every queue's count.
pub(crate) fn clear_carriers(carriers: &mut PairCounts, inner: u64) -> Result<(), AllocError>
    ensures ok { OnOk result (IsCleared inner carriers.old.current carriers.new.current) }
    ensures before { carriers.new.before ≡ carriers.old.before }
{
    while let Some(outer) = carriers.least(inner) {
        carriers.clear(inner, outer)?;
    }
    Ok(())
}
