//! The names of a space as plain tables, with their indexes.
ghost use Rattle.std.specs.Prelude.{◌≡◌, ◌≤◌, ◌<◌, ◌^◌, ℕ, true, false, None, Some, IfOk, OnOk, MatchOption, is_some, option_and_then};
ghost use Rattle.std.specs.FinMap as map;
ghost use Rattle.ipc_model.specs.state.Ipc.{port_held};
ghost use Rattle.port_space.specs.Alongside.{holds, with_port, without_port, port_key, AreByPort, AreFree, GoesOn};
ghost use Rattle.port_space.specs.Tables.{IsPut, IsRemoved, SameBefore, AreRolledBack, AreCommitted, AreNew, AreSmall};

use codes::FIRST_NAME;
use ipc_model::Entry;
use std::alloc::{AllocError, Global};
use tracked_map::TrackedMap;

/// The entries by name; the names by the ports of which they hold send or receive rights; and the gaps, which are the
/// unused names below `low`. `low` itself is unused.
#[derive(Drop)]
pub(crate) struct Tables {
    pub(crate) names: TrackedMap<Entry>,
    pub(crate) by_port: TrackedMap<()>,
    pub(crate) gaps: TrackedMap<()>,
    pub(crate) low: u128,
    pub(crate) low_before: u128,
}

impl Tables {
    /// Creates empty tables. It allocates nothing.
    pub(crate) fn new(alloc: Global) -> Self
        ensures { AreNew result }
    {
        Tables {
            names: TrackedMap::new(alloc),
            by_port: TrackedMap::new(alloc),
            gaps: TrackedMap::new(alloc),
            low: u128::from(FIRST_NAME),
            low_before: u128::from(FIRST_NAME),
        }
    }

    /// Returns the least name from `from` on that holds a send or receive right of a port.
    pub(crate) fn next_name(&self, port: u64, from: u32) -> Option<u32>
        requires ports { AreByPort self.now.names.current self.now.by_port.current }
        ensures { MatchOption result ((name : ℕ) → from ≤ name → name < 2 ^ 32
            → holds self.now.names.current port name ≡ false)
            (λ found. (from ≤ found) × (holds self.now.names.current port found ≡ true)
            × ((name : ℕ) → from ≤ name → name < found → holds self.now.names.current port name ≡ false)) }
    {
        // The walk ends with the names of this port, because those of other ports may have left many marks.
        let last = port_key(port, u32::MAX);
        let Some((key, _)) = self.by_port.next_within(port_key(port, from), last) else {
            return None;
        };
        Some((key - port_key(port, 0)) as u32)
    }

    /// Replaces the entry of a name, and returns the former one. If an allocation fails, the changes must be rolled
    /// back.
    pub(crate) fn put(&mut self, name: u32, entry: Entry) -> Result<Option<Entry>, AllocError>
        requires small { AreSmall self.old.names.current }
        requires free { AreFree self.old.names.current self.old.gaps.current self.old.low }
        ensures former { IfOk result (λ former. former ≡ map.get self.old.names.current name) }
        ensures ok { OnOk result (IsPut self.old self.new name entry) }
        ensures before { SameBefore self.old self.new }
    {
        let key = u128::from(name);
        let former = self.names.replace(key, entry)?;
        change_port(&mut self.by_port, held_by(former), port_held(&entry), name)?;
        // A name in use is neither a gap nor `low`.
        if former.is_some() {
            return Ok(former);
        }
        self.gaps.remove(key)?;
        self.low = next_unused(&self.names, key, self.low);
        Ok(former)
    }

    /// Removes a name, and returns its entry. If an allocation fails, the changes must be rolled back.
    pub(crate) fn remove(&mut self, name: u32) -> Result<Option<Entry>, AllocError>
        ensures former { IfOk result (λ former. former ≡ map.get self.old.names.current name) }
        ensures ok { OnOk result (IsRemoved self.old self.new name) }
        ensures before { SameBefore self.old self.new }
    {
        let former = self.names.take(u128::from(name))?;
        leave_port(&mut self.by_port, held_by(former), name)?;
        if FIRST_NAME <= name && u128::from(name) < self.low {
            self.gaps.set(u128::from(name), ())?;
        }
        Ok(former)
    }

    /// Commits the changes. It allocates nothing.
    pub(crate) fn commit(&mut self)
        ensures { AreCommitted self.old self.new }
    {
        self.names.commit();
        self.by_port.commit();
        self.gaps.commit();
        self.low_before = self.low;
    }

    /// Rolls the changes back. It allocates nothing.
    pub(crate) fn roll_back(&mut self)
        ensures { AreRolledBack self.old self.new }
    {
        self.names.roll_back();
        self.by_port.roll_back();
        self.gaps.roll_back();
        self.low = self.low_before;
    }
}

/// Returns the port of which an entry holds a send or receive right, if the name is in use and holds one.
fn held_by(entry: Option<Entry>) -> Option<u64>
    ensures { result ≡ option_and_then port_held entry }
{
    match entry {
        Some(entry) => port_held(&entry),
        None => None,
    }
}

/// Returns the port of which an entry holds a send or receive right, if it holds one.
pub(crate) fn port_held(entry: &Entry) -> Option<u64>
    ensures { result ≡ port_held entry.now }
{
    match entry {
        Entry::Port(rights) => Some(rights.port),
        _ => None,
    }
}

/// Returns the key of a name in the index by port.
pub(crate) fn port_key(port: u64, name: u32) -> u128
    ensures key { result ≡ port_key port name }
    ensures fits { result < 2 ^ 128 }
{
    u128::from(port) * (1 << 32) + u128::from(name)
}

/// Moves a name in the index from its former port, if any, to the new one, if any.
fn change_port(
    by_port: &mut TrackedMap<()>,
    former: Option<u64>,
    port: Option<u64>,
    name: u32,
) -> Result<(), AllocError>
    ensures ok { OnOk result (by_port.new.current
        ≡ with_port (without_port by_port.old.current former name) port name) }
    ensures before { by_port.new.before ≡ by_port.old.before }
{
    if former == port {
        return stay_with_port(by_port, port, name);
    }
    leave_port(by_port, former, name)?;
    join_port(by_port, port, name)
}

/// Keeps a name in the index under the port of which it holds a right, if it holds one.
fn stay_with_port(
    by_port: &mut TrackedMap<()>,
    port: Option<u64>,
    name: u32,
) -> Result<(), AllocError>
    ensures ok { OnOk result (by_port.new.current ≡ with_port by_port.old.current port name) }
    ensures before { by_port.new.before ≡ by_port.old.before }
{
    let Some(port) = port else {
        return Ok(());
    };
    let key = port_key(port, name);
    if by_port.contains_key(key) {
        return Ok(());
    }
    by_port.set(key, ())
}

fn leave_port(by_port: &mut TrackedMap<()>, port: Option<u64>, name: u32) -> Result<(), AllocError>
    ensures ok { OnOk result (by_port.new.current ≡ without_port by_port.old.current port name) }
    ensures before { by_port.new.before ≡ by_port.old.before }
{
    match port {
        Some(port) => by_port.remove(port_key(port, name)),
        None => Ok(()),
    }
}

fn join_port(by_port: &mut TrackedMap<()>, port: Option<u64>, name: u32) -> Result<(), AllocError>
    ensures ok { OnOk result (by_port.new.current ≡ with_port by_port.old.current port name) }
    ensures before { by_port.new.before ≡ by_port.old.before }
{
    match port {
        Some(port) => by_port.set(port_key(port, name), ()),
        None => Ok(()),
    }
}

/// Returns `low` after this name is used: the next unused name if it was `low`, else `low`.
fn next_unused(names: &TrackedMap<Entry>, name: u128, low: u128) -> u128
    requires small { AreSmall names.now.current }
    requires fits { name < 2 ^ 32 }
    ensures { GoesOn names.now.current name low result }
{
    if name != low {
        return low;
    }
    let mut next = low + 1;
    while names.contains_key(next) {
        next += 1;
    }
    next
}
