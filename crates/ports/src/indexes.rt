//! Indexes of the rights in queues and requests by the ports of the rights, as plain tables.
ghost use Rattle.std.specs.Prelude.{◌≡◌, OnOk, take};
ghost use Rattle.std.specs.FinMap as map;
ghost use Rattle.live_ports.specs.Changed.{messages_at};
ghost use Rattle.ports.specs.Burials.{AreWithout};
ghost use Rattle.ports.specs.Counting.{target_fewer, target_more};
ghost use Rattle.ports.specs.Indexes.{former_parts, present_parts, AreAtRest, AreOfFewer, AreOfMore, AreRetargeted, SameBefore, TargetsFit};

use crate::burials::{clear_carriers, subtract_oldest, subtract_queue};
use crate::rights::{add_body, add_reply};
use ipc_model::{Message, RightKind};
use live_ports::{LivePorts, PortNumbers};
use port_indexes::{PairCounts, PlaceIndex};
use std::alloc::{AllocError, Global};

/// Three indexes. The rights in messages and the targets of requests, counted by port. The receive rights in queues, by
/// their ports and the queues' ports. The ports that have a request, by the request's target.
#[derive(Drop)]
pub(crate) struct PortIndexes {
    pub(crate) counts: PairCounts,
    pub(crate) carriers: PairCounts,
    pub(crate) no_senders: PlaceIndex,
    pub(crate) port_destroyed: PlaceIndex,
}

impl PortIndexes {
    /// Creates empty indexes. It allocates nothing.
    pub(crate) fn new(alloc: Global) -> Self
        ensures { AreAtRest result
            (record { counts = map.empty; carriers = map.empty; no_senders = map.empty; destroyed = map.empty }) }
    {
        PortIndexes {
            counts: PairCounts::new(alloc),
            carriers: PairCounts::new(alloc),
            no_senders: PlaceIndex::new(alloc),
            port_destroyed: PlaceIndex::new(alloc),
        }
    }

    /// Replaces the numbers of a port. If an allocation fails, the changes must be rolled back.
    pub(crate) fn change_targets(
        &mut self,
        serial: u64,
        former: PortNumbers,
        numbers: PortNumbers,
    ) -> Result<(), AllocError>
        ensures ok { OnOk result (AreRetargeted self.old self.new serial former numbers) }
        ensures before { SameBefore self.old self.new }
    {
        let was = former.no_senders_target;
        let is = numbers.no_senders_target;
        replace_target(&mut self.counts, was, is)?;
        self.no_senders.change(serial, was, is)?;
        let was = former.port_destroyed_target;
        let is = numbers.port_destroyed_target;
        replace_target(&mut self.counts, was, is)?;
        self.port_destroyed.change(serial, was, is)
    }

    /// Adds a message to a port's queue. If an allocation fails, the changes must be rolled back.
    pub(crate) fn add_message(&mut self, serial: u64, message: &Message) -> Result<(), AllocError>
        ensures ok { OnOk result (AreOfMore self.old self.new serial message.now) }
        ensures before { SameBefore self.old self.new }
    {
        self.counts.add_right(message.destination, serial)?;
        add_reply(&mut self.counts, message.reply)?;
        let rights = message.rights.as_slice();
        add_body(&mut self.counts, &mut self.carriers, serial, rights)
    }

    /// Removes the oldest message from a port's queue, if there is one. If an allocation fails, the changes must be
    /// rolled back.
    pub(crate) fn remove_oldest(&mut self, ports: &LivePorts, serial: u64) -> Result<(), AllocError>
        ensures ok { OnOk result (AreOfFewer self.old self.new serial
            (take 1 (messages_at ports.now.current.ports serial))) }
        ensures before { SameBefore self.old self.new }
    {
        subtract_oldest(&mut self.counts, &mut self.carriers, ports, serial)
    }

    /// Removes a dying port that is no request's target and has no request: the rights in its queue, and all rights to
    /// it. If an allocation fails, the changes must be rolled back.
    pub(crate) fn bury(&mut self, ports: &LivePorts, serial: u64) -> Result<(), AllocError>
        ensures ok { OnOk result (AreWithout self.old self.new serial (messages_at ports.now.current.ports serial)) }
        ensures before { SameBefore self.old self.new }
    {
        subtract_queue(&mut self.counts, &mut self.carriers, ports, serial)?;
        self.counts.clear(0, serial)?;
        self.counts.clear(1, serial)?;
        clear_carriers(&mut self.carriers, serial)
    }

    /// Commits the changes. It allocates nothing.
    pub(crate) fn commit(&mut self)
        ensures { AreAtRest self.new (present_parts self.old) }
    {
        self.counts.commit();
        self.carriers.commit();
        self.no_senders.commit();
        self.port_destroyed.commit();
    }

    /// Rolls the changes back. It allocates nothing.
    pub(crate) fn roll_back(&mut self)
        ensures { AreAtRest self.new (former_parts self.old) }
    {
        self.counts.roll_back();
        self.carriers.roll_back();
        self.no_senders.roll_back();
        self.port_destroyed.roll_back();
    }
}

/// Proves that the targets of requests are serials. It does nothing else.
pub(crate) fn targets_fit(numbers: PortNumbers)
    ensures { TargetsFit numbers }
{
    let _ = numbers;
}

fn replace_target(
    counts: &mut PairCounts,
    former: Option<u64>,
    target: Option<u64>,
) -> Result<(), AllocError>
    ensures ok { OnOk result (counts.new.current ≡ target_more (target_fewer counts.old.current former) target) }
    ensures before { counts.new.before ≡ counts.old.before }
{
    subtract_target(counts, former)?;
    add_target(counts, target)
}

fn add_target(counts: &mut PairCounts, target: Option<u64>) -> Result<(), AllocError>
    ensures ok { OnOk result (counts.new.current ≡ target_more counts.old.current target) }
    ensures before { counts.new.before ≡ counts.old.before }
{
    match target {
        Some(target) => counts.add_right(RightKind::SendOnce, target),
        None => Ok(()),
    }
}

fn subtract_target(counts: &mut PairCounts, target: Option<u64>) -> Result<(), AllocError>
    ensures ok { OnOk result (counts.new.current ≡ target_fewer counts.old.current target) }
    ensures before { counts.new.before ≡ counts.old.before }
{
    match target {
        Some(target) => counts.subtract_right(RightKind::SendOnce, target),
        None => Ok(()),
    }
}
