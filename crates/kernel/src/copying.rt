//! Copies the kernel's state as plain rows.
ghost use Rattle.std.specs.Prelude.{◌≡◌, ◌++◌, IfOk, OnOk, map as mapped, option_copied};
ghost use Rattle.std.specs.FinMap as map;
ghost use Rattle.ipc_model.specs.calls.PortCalls.{names_in};
ghost use Rattle.ipc_model.specs.state.Lawful.{Lawful};
ghost use Rattle.kernel.specs.Copying.{kept_row, port_rows};
ghost use Rattle.snapshot.specs.Rows.{port_row, space_row};
ghost use Rattle.snapshot.specs.Snapshots.{ipc_snapshot_of, names_of, snapshot_of};

use crate::Kernel;
use ipc_model::{NumberedReply, Sequence};
use number_table::NumberTable;
use port_calls::IpcState;
use snapshot::{IpcSnapshot, LivePort, NamedEntry, Snapshot, Space};
use std::alloc::{AllocError, Global};

impl Kernel {
    /// Returns the state as plain rows: the spaces with their names and with the replies that they keep, and the live
    /// ports with their queued messages, in which `MACH_PORT_DEAD` replaces dead ports. If an allocation fails, nothing
    /// changed.
    #[tactic(auto, unfolding(snapshot::specs::Snapshots::snapshot_of))]
    pub fn copy(&self, alloc: Global) -> Result<Snapshot, AllocError>
        ensures { IfOk result (λ copy. copy ≡ snapshot_of self.now) }
    {
        let ipc = copy_ipc(alloc, &self.state)?;
        let kept = kept_of(alloc, &self.state, &self.kept)?;
        Ok(Snapshot {
            ipc,
            kept: Sequence::new(kept),
        })
    }
}

/// Copies the spaces and the live ports.
#[tactic(auto, unfolding(snapshot::specs::Snapshots::ipc_snapshot_of))]
fn copy_ipc(alloc: Global, state: &IpcState) -> Result<IpcSnapshot, AllocError>
    requires { Lawful state.now.current }
    ensures { IfOk result (λ copy. copy ≡ ipc_snapshot_of state.now.current) }
{
    let spaces = spaces_of(alloc, state)?;
    let ports = ports_of(alloc, state)?;
    Ok(IpcSnapshot {
        next_serial: state.next_serial(),
        spaces: Sequence::new(spaces),
        ports: Sequence::new(ports),
    })
}

/// Copies the kept replies, in ascending order of their spaces.
fn kept_of(
    alloc: Global,
    state: &IpcState,
    kept: &NumberTable<NumberedReply>,
) -> Result<Vec<Option<NumberedReply>>, AllocError>
    requires { Lawful state.now.current }
    ensures { IfOk result (λ rows. rows.items ≡ mapped (kept_row kept.now) (map.entries state.now.current.spaces)) }
{
    let mut rows = Vec::new(alloc);
    let mut at: u64 = 0;
    while let Some(number) = state.next_space(at) {
        let row = copy_kept(alloc, kept.get(number))?;
        rows.push(row)?;
        at = u64::from(number) + 1;
    }
    Ok(rows)
}

/// Copies the reply that a space keeps.
fn copy_kept(
    alloc: Global,
    kept: Option<&NumberedReply>,
) -> Result<Option<NumberedReply>, AllocError>
    ensures { IfOk result (λ copy. copy ≡ option_copied kept.entry) }
{
    let Some(answer) = kept else {
        return Ok(None);
    };
    let copy = answer.copy(alloc)?;
    Ok(Some(copy))
}

/// Copies the spaces in ascending order, each with its names.
fn spaces_of(alloc: Global, state: &IpcState) -> Result<Vec<Space>, AllocError>
    requires { Lawful state.now.current }
    ensures { IfOk result (λ spaces. spaces.items ≡ mapped space_row (map.entries state.now.current.spaces)) }
{
    let mut spaces = Vec::new(alloc);
    let mut at: u64 = 0;
    while let Some(number) = state.next_space(at) {
        let names = names_of(alloc, state, number)?;
        spaces.push(Space {
            number,
            names: Sequence::new(names),
        })?;
        at = u64::from(number) + 1;
    }
    Ok(spaces)
}

/// Copies the names of a space, in ascending order.
fn names_of(alloc: Global, state: &IpcState, space: u32) -> Result<Vec<NamedEntry>, AllocError>
    ensures { IfOk result (λ names. names.items ≡ names_of (names_in state.now.current space)) }
{
    let mut names = Vec::new(alloc);
    let mut at: u64 = 0;
    while let Some((name, entry)) = state.next_entry(space, at) {
        names.push(NamedEntry { name, entry })?;
        at = u64::from(name) + 1;
    }
    Ok(names)
}

/// Copies the live ports, in ascending order of serials.
fn ports_of(alloc: Global, state: &IpcState) -> Result<Vec<LivePort>, AllocError>
    ensures { IfOk result (λ ports. ports.items ≡ mapped port_row (map.entries state.now.current.ports)) }
{
    let mut ports = Vec::new(alloc);
    let mut at: u64 = 0;
    while let Some(serial) = state.next_port(at) {
        push_port(alloc, state, serial, &mut ports)?;
        at = serial + 1;
    }
    Ok(ports)
}

/// Appends the row of a port if it is live.
fn push_port(
    alloc: Global,
    state: &IpcState,
    serial: u64,
    ports: &mut Vec<LivePort>,
) -> Result<(), AllocError>
    ensures { OnOk result (ports.new.items ≡ ports.old.items
        ++ port_rows serial (map.get state.now.current.ports serial)) }
{
    let Some(port) = state.port(alloc, serial)? else {
        return Ok(());
    };
    ports.push(LivePort {
        serial,
        state: port,
    })?;
    Ok(())
}
