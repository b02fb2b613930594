//! The slots of ports in a slab.
ghost use Rattle.std.specs.Prelude.{◌≡◌, ℕ, ◌≤◌, ◌<◌, ◌-◌, ◌^◌, None, IfSome, MatchOption, OnOk, OnErr, length, option_copied, option_and_then};
ghost use Rattle.std.specs.FinMap as map;
ghost use Rattle.live_ports.specs.Changed.{with_message, with_numbers, without_first};
ghost use Rattle.live_ports.specs.PortSlot.{PortSlot};
ghost use Rattle.live_ports.specs.Slabbed.{by_serial, AreKeyed, IsChangedAt};
ghost use Rattle.live_ports.specs.Tables.{current_of, slot_changed, present_changed, buried, committed_slot, rolled_back_slot};
ghost use Rattle.slab.specs.Slab as slab;
ghost use Rattle.slab.specs.Slab.{Updates};

use crate::keys::SerialKeys;
use crate::port::{Port, PortNumbers};
use ipc_model::Message;
use slab::Slab;
use std::alloc::{AllocError, Global};
use std::marker::Model;
use std::mem;

/// Ports by their serials, in a slab that reuses its keys, while serials are never reused. An ordered map contains the
/// key of each serial. Contracts see the finite map from serials to ports.
#[derive(Drop)]
pub(crate) struct PortSlots {
    ports: Slab<Port>,
    keys: SerialKeys,
}

impl Model for PortSlots {
    ghost use Rattle.std.specs.Coded.{coded_ℕ};
    ghost use Rattle.std.specs.FinMap as map;
    ghost use Rattle.std.specs.Ordering.{nat_cmp};
    ghost use Rattle.ipc_model.specs.contracts.port.PortState as state;
    ghost use Rattle.live_ports.specs.PortSlot.{PortSlot, slot_code};
    ghost use Rattle.live_ports.specs.Slabbed.{by_serial, AreKeyed};

    ghost Value = { map.FinMap nat_cmp PortSlot };

    ghost coded = { map.code coded_ℕ (slot_code state.the_row.coded) };

    ghost view = { λ s. by_serial s.ports s.keys };

    ghost invariant = { λ s. AreKeyed s.ports s.keys };
}

impl PortSlots {
    /// Creates an empty table. It allocates nothing.
    pub(crate) fn new(alloc: Global) -> Self
        ensures { result ≡ map.empty }
    {
        PortSlots {
            ports: Slab::new(alloc),
            keys: SerialKeys::new(alloc),
        }
    }

    /// Returns the port of a serial.
    pub(crate) fn get(&self, serial: u128) -> Option<&Port>
        ensures { option_copied result ≡ map.get self.now serial }
    {
        match self.keys.get(serial) {
            Some(key) => self.ports.get(key),
            None => None,
        }
    }

    /// Returns the least serial from `from` on that may have a port. No serial in between has one.
    pub(crate) fn next_serial(&self, from: u128) -> Option<u128>
        ensures { MatchOption result ((serial : ℕ) → from ≤ serial → map.get self.now serial ≡ None)
            (λ next. (from ≤ next) × ((serial : ℕ) → from ≤ serial → serial < next → map.get self.now serial ≡ None)) }
    {
        let Some((serial, _)) = self.keys.next_from(from) else {
            return None;
        };
        Some(serial)
    }

    /// Sets the port of a serial. If an allocation fails, nothing changed.
    pub(crate) fn insert(&mut self, serial: u128, port: Port) -> Result<(), AllocError>
        ensures ok { OnOk result (self.new ≡ map.insert self.old serial port) }
        ensures err { OnErr result (self.new ≡ self.old) }
    {
        if let Some(key) = self.keys.get(serial) {
            replace_at(&mut self.ports, key, port);
            return Ok(());
        }
        add_to_both(&mut self.ports, &mut self.keys, serial, port)
    }

    /// Removes the port of a serial, if there is one.
    pub(crate) fn remove(&mut self, serial: u128)
        ensures { self.new ≡ map.remove self.old serial }
    {
        if let Some(key) = self.keys.remove(serial) {
            remove_at(&mut self.ports, key);
        }
    }

    /// Replaces the numbers of a port, if it is live.
    pub(crate) fn set_numbers(&mut self, serial: u128, numbers: PortNumbers)
        ensures { self.new ≡ slot_changed self.old serial (present_changed (with_numbers numbers)) }
    {
        if let Some(key) = self.keys.get(serial) {
            set_numbers_at(&mut self.ports, key, numbers);
        }
    }

    /// Appends a message to a port's queue, if the port is live. If an allocation fails, nothing changed.
    pub(crate) fn push(&mut self, serial: u128, message: Message) -> Result<(), AllocError>
        ensures ok { OnOk result (self.new ≡ slot_changed self.old serial (present_changed (with_message message))) }
        ensures room { OnOk result (IfSome (option_and_then current_of (map.get self.old serial))
            (λ port. length port.messages < 2 ^ 32 - 1)) }
        ensures err { OnErr result (self.new ≡ self.old) }
    {
        match self.keys.get(serial) {
            Some(key) => push_at(&mut self.ports, key, message),
            None => Ok(()),
        }
    }

    /// Removes the oldest message from a port's queue, if the port is live and has one.
    pub(crate) fn take(&mut self, serial: u128)
        ensures { self.new ≡ slot_changed self.old serial (present_changed without_first) }
    {
        if let Some(key) = self.keys.get(serial) {
            take_at(&mut self.ports, key);
        }
    }

    /// Makes a port die.
    pub(crate) fn bury(&mut self, serial: u128)
        ensures { self.new ≡ slot_changed self.old serial buried }
    {
        if let Some(key) = self.keys.get(serial) {
            bury_at(&mut self.ports, key);
        }
    }

    /// Commits the changes of a port, and caches its key for the next call.
    pub(crate) fn commit(&mut self, serial: u128)
        ensures { self.new ≡ slot_changed self.old serial committed_slot }
    {
        if let Some(key) = self.keys.find(serial) {
            commit_at(&mut self.ports, key);
        }
    }

    /// Rolls back the changes of a port.
    pub(crate) fn roll_back(&mut self, serial: u128)
        ensures { self.new ≡ slot_changed self.old serial rolled_back_slot }
    {
        if let Some(key) = self.keys.get(serial) {
            roll_back_at(&mut self.ports, key);
        }
    }
}

/// Adds a port under a serial that has none. If an allocation fails, nothing changed.
fn add_to_both(
    ports: &mut Slab<Port>,
    keys: &mut SerialKeys,
    serial: u128,
    port: Port,
) -> Result<(), AllocError>
    requires absent { map.get keys.old serial ≡ None }
    requires keyed { AreKeyed ports.old keys.old }
    ensures ok { OnOk result (by_serial ports.new keys.new ≡ map.insert (by_serial ports.old keys.old) serial port) }
    ensures err { OnErr result (by_serial ports.new keys.new ≡ by_serial ports.old keys.old) }
    ensures keyed { AreKeyed ports.new keys.new }
{
    ports.reserve(1)?;
    keys.insert(serial, ports.vacant_key())?;
    ports.insert_reserved(port);
    Ok(())
}

fn remove_at(ports: &mut Slab<Port>, key: usize)
    ensures { Updates ports.old ports.new key None }
{
    drop(ports.try_remove(key));
}

fn replace_at(ports: &mut Slab<Port>, key: usize, new: Port)
    ensures { IsChangedAt (λ (old : PortSlot). new) ports.old ports.new key }
{
    match ports.get_mut(key) {
        Some(port) => drop(mem::replace(port, new)),
        None => drop(new),
    }
}

fn set_numbers_at(ports: &mut Slab<Port>, key: usize, numbers: PortNumbers)
    ensures { IsChangedAt (present_changed (with_numbers numbers)) ports.old ports.new key }
{
    if let Some(port) = ports.get_mut(key) {
        port.set_numbers(numbers);
    }
}

fn push_at(ports: &mut Slab<Port>, key: usize, message: Message) -> Result<(), AllocError>
    ensures ok { OnOk result (IsChangedAt (present_changed (with_message message)) ports.old ports.new key) }
    ensures room { OnOk result (IfSome (option_and_then current_of (slab.get ports.old key))
        (λ port. length port.messages < 2 ^ 32 - 1)) }
    ensures err { OnErr result (IsChangedAt (λ (port : PortSlot). port) ports.old ports.new key) }
{
    let Some(port) = ports.get_mut(key) else {
        drop(message);
        return Ok(());
    };
    port.push_forced(message)?;
    Ok(())
}

fn take_at(ports: &mut Slab<Port>, key: usize)
    ensures { IsChangedAt (present_changed without_first) ports.old ports.new key }
{
    if let Some(port) = ports.get_mut(key) {
        port.take();
    }
}

fn bury_at(ports: &mut Slab<Port>, key: usize)
    ensures { IsChangedAt buried ports.old ports.new key }
{
    if let Some(port) = ports.get_mut(key) {
        port.bury();
    }
}

fn commit_at(ports: &mut Slab<Port>, key: usize)
    ensures { IsChangedAt committed_slot ports.old ports.new key }
{
    if let Some(port) = ports.get_mut(key) {
        port.commit();
    }
}

fn roll_back_at(ports: &mut Slab<Port>, key: usize)
    ensures { IsChangedAt rolled_back_slot ports.old ports.new key }
{
    if let Some(port) = ports.get_mut(key) {
        port.roll_back();
    }
}
