//! The slots of ports as a plain table, with the serials of those that were changed.
ghost use Rattle.std.specs.Prelude.{◌≡◌, ◌<◌, ◌+◌, ◌-◌, ◌^◌, ◌∷◌, ◌++◌, [], None, Some, OnOk, OnErr, IfSome, is_some, length, option_map};
ghost use Rattle.std.specs.FinMap as map;
ghost use Rattle.codes.specs.declared.limits.TheConstants.{MAX_PORTS};
ghost use Rattle.ipc_model.specs.state.Ipc.{new_port};
ghost use Rattle.live_ports.specs.Changed.{IsMessageAt, changed, messages_at, numbers_of, with_message, with_numbers, without_first};
ghost use Rattle.live_ports.specs.Tables.{before_of, current_of, former_ports, present_ports, committed_slot, rolled_back_slot, AreMarked, SameBefore, AreNow, AreAtRest};
ghost use Rattle.live_ports.specs.Touched.{drained};

use crate::port::{Port, PortNumbers};
use crate::slots::PortSlots;
use ipc_model::Message;
use std::alloc::{AllocError, Global};

/// The ports by their serials, the serials of those that were changed, the numbers of live ports now and before, and
/// the next serial now and before.
#[derive(Drop)]
pub(crate) struct Tables {
    pub(crate) alloc: Global,
    pub(crate) slots: PortSlots,
    pub(crate) touched: Vec<u128>,
    pub(crate) count: usize,
    pub(crate) count_before: usize,
    pub(crate) next: u64,
    pub(crate) next_before: u64,
}

impl Tables {
    /// Creates an empty table. It allocates nothing.
    pub(crate) fn new(alloc: Global) -> Self
        ensures { AreAtRest result map.empty 0 1 }
    {
        Tables {
            alloc,
            slots: PortSlots::new(alloc),
            touched: Vec::new(alloc),
            count: 0,
            count_before: 0,
            next: 1,
            next_before: 1,
        }
    }

    /// Returns true if a port is live.
    pub(crate) fn contains(&self, serial: u64) -> bool
        ensures { result ≡ is_some (map.get (present_ports self.now.slots) serial) }
    {
        match self.slots.get(u128::from(serial)) {
            Some(port) => port.is_there(),
            None => false,
        }
    }

    /// Returns the numbers of a port, if it is live.
    pub(crate) fn numbers(&self, serial: u64) -> Option<PortNumbers>
        ensures { result ≡ option_map numbers_of (map.get (present_ports self.now.slots) serial) }
    {
        match self.slots.get(u128::from(serial)) {
            Some(port) => port.numbers(),
            None => None,
        }
    }

    /// Returns the number of messages in a port's queue, or 0 if it is dead.
    pub(crate) fn message_count(&self, serial: u64) -> u32
        ensures { result ≡ length (messages_at (present_ports self.now.slots) serial) }
    {
        match self.slots.get(u128::from(serial)) {
            Some(port) => port.message_count(),
            None => 0,
        }
    }

    /// Returns the message at an index in a port's queue as it was sent, counted from the oldest, if there is one.
    pub(crate) fn message(&self, serial: u64, index: u32) -> Option<&Message>
        ensures { IsMessageAt (messages_at (present_ports self.now.slots) serial) index result }
    {
        match self.slots.get(u128::from(serial)) {
            Some(port) => port.message_at(index),
            None => None,
        }
    }

    /// Replaces the numbers of a port, if it is live. If an allocation fails, the changes must be rolled back.
    pub(crate) fn set_numbers(
        &mut self,
        serial: u64,
        numbers: PortNumbers,
    ) -> Result<(), AllocError>
        requires { AreMarked self.old.slots self.old.touched.items }
        ensures ok { OnOk result (AreNow self.new
            (changed (present_ports self.old.slots) serial (with_numbers numbers)) self.old.count self.old.next) }
        ensures before { SameBefore self.old self.new }
    {
        touch(&mut self.touched, serial)?;
        self.slots.set_numbers(u128::from(serial), numbers);
        Ok(())
    }

    /// Appends a message to a port's queue, regardless of the limit, if the port is live. If an allocation fails, the
    /// changes must be rolled back.
    pub(crate) fn push(&mut self, serial: u64, message: Message) -> Result<(), AllocError>
        requires { AreMarked self.old.slots self.old.touched.items }
        ensures ok { OnOk result (AreNow self.new
            (changed (present_ports self.old.slots) serial (with_message message)) self.old.count self.old.next) }
        ensures room { OnOk result (IfSome (map.get (present_ports self.old.slots) serial)
            (λ port. length port.messages < 2 ^ 32 - 1)) }
        ensures before { SameBefore self.old self.new }
    {
        touch(&mut self.touched, serial)?;
        self.slots.push(u128::from(serial), message)
    }

    /// Removes the oldest message from a port's queue, if the port is live and has one. If an allocation fails, the
    /// changes must be rolled back.
    pub(crate) fn take(&mut self, serial: u64) -> Result<(), AllocError>
        requires { AreMarked self.old.slots self.old.touched.items }
        ensures ok { OnOk result (AreNow self.new
            (changed (present_ports self.old.slots) serial without_first) self.old.count self.old.next) }
        ensures before { SameBefore self.old self.new }
    {
        touch(&mut self.touched, serial)?;
        self.slots.take(u128::from(serial));
        Ok(())
    }

    /// Adds a port. If an allocation fails, the changes must be rolled back.
    pub(crate) fn add(&mut self) -> Result<(), AllocError>
        requires marked { AreMarked self.old.slots self.old.touched.items }
        requires unborn { map.get (former_ports self.old.slots) self.old.next ≡ None }
        requires room { self.old.count < MAX_PORTS }
        requires serials { self.old.next < 2 ^ 64 - 1 }
        ensures ok { OnOk result (AreNow self.new (map.insert (present_ports self.old.slots) self.old.next new_port)
            (self.old.count + 1) (self.old.next + 1)) }
        ensures before { SameBefore self.old self.new }
    {
        touch(&mut self.touched, self.next)?;
        let port = Port::new(self.alloc);
        self.slots.insert(u128::from(self.next), port)?;
        self.count += 1;
        self.next += 1;
        Ok(())
    }

    /// Sets the serial of the next port.
    pub(crate) fn set_next_serial(&mut self, serial: u64)
        requires { AreMarked self.old.slots self.old.touched.items }
        ensures ok { AreNow self.new (present_ports self.old.slots) self.old.count serial }
        ensures before { SameBefore self.old self.new }
    {
        self.next = serial;
    }

    /// Makes a live port die. If an allocation fails, the changes must be rolled back.
    pub(crate) fn bury(&mut self, serial: u64) -> Result<(), AllocError>
        requires marked { AreMarked self.old.slots self.old.touched.items }
        requires some { 0 < self.old.count }
        ensures ok { OnOk result (AreNow self.new (map.remove (present_ports self.old.slots) serial)
            (self.old.count - 1) self.old.next) }
        ensures before { SameBefore self.old self.new }
    {
        touch(&mut self.touched, serial)?;
        self.slots.bury(u128::from(serial));
        self.count -= 1;
        Ok(())
    }

    /// Commits the changes. It allocates nothing.
    pub(crate) fn commit(&mut self)
        requires { AreMarked self.old.slots self.old.touched.items }
        ensures { AreAtRest self.new (present_ports self.old.slots) self.old.count self.old.next }
    {
        commit_touched(&mut self.slots, &self.touched);
        self.touched.clear();
        self.count_before = self.count;
        self.next_before = self.next;
    }

    /// Rolls the changes back. It allocates nothing.
    pub(crate) fn roll_back(&mut self)
        requires { AreMarked self.old.slots self.old.touched.items }
        ensures { AreAtRest self.new (former_ports self.old.slots) self.old.count_before self.old.next_before }
    {
        roll_back_touched(&mut self.slots, &self.touched);
        self.touched.clear();
        self.count = self.count_before;
        self.next = self.next_before;
    }
}

/// Notes that a port was changed. If an allocation fails, nothing changed.
fn touch(touched: &mut Vec<u128>, serial: u64) -> Result<(), AllocError>
    ensures ok { OnOk result (touched.new.items ≡ touched.old.items ++ serial ∷ []) }
    ensures err { OnErr result (touched.new.items ≡ touched.old.items) }
{
    touched.reserve(1)?;
    touched.push_reserved(u128::from(serial));
    Ok(())
}

/// Commits the changes of these slots, which are among all that were changed.
fn commit_touched(slots: &mut PortSlots, touched: &[u128])
    requires { AreMarked slots.old touched.now }
    ensures seen { present_ports slots.new ≡ present_ports slots.old }
    ensures touched { AreMarked slots.new [] }
{
    let mut rest = touched;
    while let Some((serial, before)) = rest.split_last() {
        commit_slot(slots, *serial);
        rest = before;
    }
}

/// Rolls back the changes of these slots, which are among all that were changed.
fn roll_back_touched(slots: &mut PortSlots, touched: &[u128])
    requires { AreMarked slots.old touched.now }
    ensures seen { former_ports slots.new ≡ former_ports slots.old }
    ensures touched { AreMarked slots.new [] }
{
    let mut rest = touched;
    while let Some((serial, before)) = rest.split_last() {
        roll_back_slot(slots, *serial);
        rest = before;
    }
}

/// Commits the changes of a slot, which is removed if its port is dead.
fn commit_slot(slots: &mut PortSlots, serial: u128)
    ensures { slots.new ≡ drained current_of committed_slot slots.old serial }
{
    let Some(port) = slots.get(serial) else {
        return;
    };
    if port.is_there() {
        slots.commit(serial);
    } else {
        slots.remove(serial);
    }
}

/// Rolls back the changes of a slot, which is removed if its port wasn't live before.
fn roll_back_slot(slots: &mut PortSlots, serial: u128)
    ensures { slots.new ≡ drained before_of rolled_back_slot slots.old serial }
{
    let Some(port) = slots.get(serial) else {
        return;
    };
    if port.was_there() {
        slots.roll_back(serial);
    } else {
        slots.remove(serial);
    }
}
