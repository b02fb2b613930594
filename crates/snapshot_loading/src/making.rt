ghost use Rattle.std.specs.Prelude.{◌≡◌, ◌↔◌, ◌<◌, ◌^◌, false, true, IfOk, IsErrOf, IsOk, IsTrue, OnOk};
ghost use Rattle.ipc_model.specs.state.Circular.{Acyclic};
ghost use Rattle.ipc_model.specs.state.Lawful.{Lawful, ShortQueues};
ghost use Rattle.ipc_state.specs.Running.{at_rest};
ghost use Rattle.snapshot_loading.specs.FillLaws.{nothing, skeleton};
ghost use Rattle.snapshot_loading.specs.Linked.{is_linked, looks_of};
ghost use Rattle.snapshot_loading.specs.Shaped.{IsShaped};
ghost use Rattle.snapshot.specs.LawfulSnapshot.{IsLawfulIpc};
ghost use Rattle.snapshot.specs.Snapshots.{ipc_snapshot_of};

use crate::climbing::is_acyclic;
use crate::filling::{fill_queues, fill_spaces, open_ports};
use crate::linking::is_linked;
use crate::receivers::are_received_once;
use crate::shape::is_shaped;
use ipc_state::IpcState;
use snapshot::IpcSnapshot;
use std::alloc::{AllocError, Global};

/// The reason why a snapshot couldn't be loaded.
#[derive(Clone, Copy, Debug, PartialEq, Eq)]
pub enum SnapshotFault {
    /// It isn't the snapshot of a lawful state.
    NotLawful = 1,
    /// Out of memory.
    NoMemory = 2,
}

impl From<AllocError> for SnapshotFault {
    ghost use Rattle.std.specs.Prelude.{◌≡◌};
    ghost use Rattle.snapshot_loading.specs.declared.making.SnapshotFault.TheVariants.{NoMemory};

    ghost from_gives = { λ _ e. e ≡ NoMemory };

    fn from(_: AllocError) -> Self {
        SnapshotFault::NoMemory
    }
}

/// Returns true if a snapshot is of a lawful state in which no ports carry one another in a cycle.
pub fn lawful(alloc: Global, snapshot: &IpcSnapshot) -> Result<bool, AllocError>
    ensures { IfOk result (λ yes. IsTrue yes ↔ IsLawfulIpc snapshot.now) }
{
    let mut state = IpcState::new(alloc);
    let filled = fill(alloc, &mut state, snapshot);
    drop(state);
    verdict(filled)
}

/// Returns true if the state was filled, and false if the snapshot isn't lawful.
fn verdict(outcome: Result<(), SnapshotFault>) -> Result<bool, AllocError>
    ensures yes { IfOk result (λ yes. IsTrue yes → IsOk outcome) }
    ensures no { IfOk result (λ yes. yes ≡ false → IsErrOf outcome SnapshotFault.NotLawful) }
{
    match outcome {
        Ok(()) => Ok(true),
        Err(SnapshotFault::NotLawful) => Ok(false),
        Err(SnapshotFault::NoMemory) => Err(AllocError),
    }
}

/// Returns the running state of a snapshot, without changes to commit or roll back.
pub fn restore(alloc: Global, snapshot: &IpcSnapshot) -> Result<IpcState, SnapshotFault>
    ensures same { IfOk result (λ state. snapshot.now ≡ ipc_snapshot_of state.current) }
    ensures rest { IfOk result (λ state. state ≡ at_rest state.current) }
    ensures lawful { IfOk result (λ state. Lawful state.current × Acyclic state.current) }
    ensures valid { IfOk result (λ state. IsLawfulIpc snapshot.now) }
    ensures unlawful { IsErrOf result SnapshotFault.NotLawful → IsLawfulIpc snapshot.now → ⊥ }
{
    let mut state = IpcState::new(alloc);
    match fill(alloc, &mut state, snapshot) {
        Ok(()) => {
            state.commit();
            Ok(state)
        }
        Err(fault) => {
            drop(state);
            Err(fault)
        }
    }
}

/// Fills an empty state with the rows of a snapshot. At a fault, the state must be rolled back.
fn fill(alloc: Global, state: &mut IpcState, snapshot: &IpcSnapshot) -> Result<(), SnapshotFault>
    requires { state.old.current ≡ nothing }
    ensures filled { OnOk result ((snapshot.now ≡ ipc_snapshot_of state.new.current) × Lawful state.new.current
        × Acyclic state.new.current × ShortQueues state.new.current) }
    ensures unlawful { IsErrOf result SnapshotFault.NotLawful → IsLawfulIpc snapshot.now → ⊥ }
{
    if !is_shaped(alloc, snapshot)? {
        return Err(SnapshotFault::NotLawful);
    }
    open_rows(state, snapshot)?;
    if !is_linked(state, snapshot) {
        return Err(SnapshotFault::NotLawful);
    }
    fill_messages(alloc, state, snapshot)
}

/// Fills a state of ports and spaces with the messages of their rows, which are linked. At a fault, the state must be
/// rolled back.
fn fill_messages(
    alloc: Global,
    state: &mut IpcState,
    snapshot: &IpcSnapshot,
) -> Result<(), SnapshotFault>
    requires shaped { IsShaped snapshot.now }
    requires opened { state.old.current ≡ skeleton snapshot.now }
    requires linked { is_linked (looks_of state.old.current) snapshot.now ≡ true }
    ensures filled { OnOk result ((snapshot.now ≡ ipc_snapshot_of state.new.current) × Lawful state.new.current
        × Acyclic state.new.current × ShortQueues state.new.current) }
    ensures unlawful { IsErrOf result SnapshotFault.NotLawful → IsLawfulIpc snapshot.now → ⊥ }
{
    serial_fits(snapshot);
    if !are_received_once(alloc, snapshot)? {
        return Err(SnapshotFault::NotLawful);
    }
    fill_queues(alloc, state, snapshot.ports.as_slice())?;
    if !is_acyclic(alloc, state)? {
        return Err(SnapshotFault::NotLawful);
    }
    Ok(())
}

/// Adds the ports and spaces of rows of a lawful shape, without their messages.
fn open_rows(state: &mut IpcState, snapshot: &IpcSnapshot) -> Result<(), AllocError>
    requires nothing { state.old.current ≡ nothing }
    requires shaped { IsShaped snapshot.now }
    ensures { OnOk result (state.new.current ≡ skeleton snapshot.now) }
{
    serial_fits(snapshot);
    open_ports(state, snapshot.ports.as_slice())?;
    state.set_next_serial(snapshot.next_serial);
    fill_spaces(state, snapshot.spaces.as_slice())?;
    Ok(())
}

/// Proves that the next serial fits 64 bits. It does nothing else.
fn serial_fits(snapshot: &IpcSnapshot)
    ensures { snapshot.now.next_serial < 2 ^ 64 }
{
    let _next_serial = snapshot.next_serial;
}
