//! Counts the rights of a message.
ghost use Rattle.std.specs.Prelude.{◌≡◌, OnOk};
ghost use Rattle.ports.specs.Counting.{carried_more, carrier_more, carriers_more, reply_more, rights_more};

use ipc_model::{CarriedRight, PortInMessage, RightKind};
use port_indexes::PairCounts;
use std::alloc::AllocError;

/// Adds a reply right to the counts.
pub(crate) fn add_reply(
    counts: &mut PairCounts,
    reply: Option<CarriedRight>,
) -> Result<(), AllocError>
    ensures ok { OnOk result (counts.new.current ≡ reply_more counts.old.current reply) }
    ensures before { counts.new.before ≡ counts.old.before }
{
    match reply {
        Some(carried) => add_carried(counts, carried),
        None => Ok(()),
    }
}

/// Adds the rights of a body in a port's queue to the counts.
pub(crate) fn add_body(
    counts: &mut PairCounts,
    carriers: &mut PairCounts,
    queue: u64,
    rights: &[CarriedRight],
) -> Result<(), AllocError>
    ensures counts { OnOk result (counts.new.current ≡ rights_more counts.old.current rights.now) }
    ensures carriers { OnOk result (carriers.new.current ≡ carriers_more carriers.old.current queue rights.now) }
    ensures before { counts.new.before ≡ counts.old.before }
    ensures carriers_before { carriers.new.before ≡ carriers.old.before }
{
    let mut rest = rights;
    while let Some((carried, beyond)) = rest.split_first() {
        add_carried(counts, *carried)?;
        add_carrier(carriers, queue, *carried)?;
        rest = beyond;
    }
    Ok(())
}

fn add_carried(counts: &mut PairCounts, carried: CarriedRight) -> Result<(), AllocError>
    ensures ok { OnOk result (counts.new.current ≡ carried_more counts.old.current carried) }
    ensures before { counts.new.before ≡ counts.old.before }
{
    match carried.port {
        PortInMessage::Live(port) => counts.add_right(carried.kind, port),
        PortInMessage::Null => Ok(()),
        PortInMessage::Dead => Ok(()),
    }
}

fn add_carrier(
    carriers: &mut PairCounts,
    queue: u64,
    carried: CarriedRight,
) -> Result<(), AllocError>
    ensures ok { OnOk result (carriers.new.current
        ≡ carrier_more carriers.old.current queue carried.kind carried.port) }
    ensures before { carriers.new.before ≡ carriers.old.before }
{
    match carried.kind {
        RightKind::Receive => add_received(carriers, queue, carried.port),
        RightKind::Send => Ok(()),
        RightKind::SendOnce => Ok(()),
    }
}

fn add_received(
    carriers: &mut PairCounts,
    queue: u64,
    port: PortInMessage,
) -> Result<(), AllocError>
    ensures ok { OnOk result (carriers.new.current ≡ carrier_more carriers.old.current queue RightKind.Receive port) }
    ensures before { carriers.new.before ≡ carriers.old.before }
{
    match port {
        PortInMessage::Live(inner) => carriers.add(inner, queue),
        PortInMessage::Null => Ok(()),
        PortInMessage::Dead => Ok(()),
    }
}
