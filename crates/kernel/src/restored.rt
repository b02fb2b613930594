//! Builds a kernel from the plain rows of a state.
ghost use Rattle.std.specs.Prelude.{◌≡◌, ◌↔◌, IfOk, OnOk, IsTrue, IsErrOf, All};
ghost use Rattle.kernel.specs.Restoring.{AreKept, MayStay, kept_in_rows, put_row};
ghost use Rattle.snapshot.specs.LawfulSnapshot.{IsLawfulSnapshot};
ghost use Rattle.snapshot.specs.Snapshots.{snapshot_of};

use crate::Kernel;
use ipc_model::NumberedReply;
use kept_reply::may_be_kept;
use number_table::NumberTable;
use snapshot::{Snapshot, Space};
use snapshot_loading::{SnapshotFault, restore};
use std::alloc::{AllocError, Global};

impl Kernel {
    /// Returns the kernel with the state of a snapshot. `NotLawful`: the snapshot is of no lawful state. The snapshot
    /// is consumed.
    pub fn from_snapshot(alloc: Global, snapshot: Snapshot) -> Result<Kernel, SnapshotFault>
        ensures same { IfOk result (λ kernel. snapshot ≡ snapshot_of kernel) }
        ensures lawful { IfOk result (λ kernel. IsLawfulSnapshot snapshot) }
        ensures unlawful { IsErrOf result SnapshotFault.NotLawful → IsLawfulSnapshot snapshot → ⊥ }
    {
        let Snapshot { ipc, kept } = snapshot;
        let state = restore(alloc, &ipc)?;
        if !are_kept(ipc.spaces.as_slice(), kept.as_slice()) {
            return Err(SnapshotFault::NotLawful);
        }
        let kept = kept_in_rows(alloc, ipc.spaces.as_slice(), kept.into_vec())?;
        state.show_queues_short();
        Ok(Kernel { alloc, state, kept })
    }
}

/// Returns true if a snapshot is of a lawful state.
pub fn lawful(alloc: Global, snapshot: &Snapshot) -> Result<bool, AllocError>
    ensures { IfOk result (λ yes. IsTrue yes ↔ IsLawfulSnapshot snapshot.now) }
{
    if !snapshot_loading::lawful(alloc, &snapshot.ipc)? {
        return Ok(false);
    }
    Ok(are_kept(snapshot.ipc.spaces.as_slice(), snapshot.kept.as_slice()))
}

/// Returns true if there is one row for each space, and each reply in the rows may be kept.
fn are_kept(spaces: &[Space], rows: &[Option<NumberedReply>]) -> bool
    ensures { IsTrue result ↔ AreKept spaces.now rows.now }
{
    if spaces.len() != rows.len() {
        return false;
    }
    may_all_stay(rows)
}

/// Returns true if each reply in the rows may be kept.
fn may_all_stay(rows: &[Option<NumberedReply>]) -> bool
    ensures { IsTrue result ↔ All MayStay rows.now }
{
    rows.iter().all(may_stay)
}

/// Returns true if the row is empty, or a reply that may be kept.
fn may_stay(row: &Option<NumberedReply>) -> bool
    ensures { IsTrue result ↔ MayStay row.now }
{
    match row {
        Some(answer) => may_be_kept(answer),
        None => true,
    }
}

/// Builds the table of kept replies by space number.
fn kept_in_rows(
    alloc: Global,
    spaces: &[Space],
    rows: Vec<Option<NumberedReply>>,
) -> Result<NumberTable<NumberedReply>, AllocError>
    ensures { IfOk result (λ kept. kept ≡ kept_in_rows spaces.now rows.items) }
{
    let mut kept = NumberTable::new(alloc);
    let mut rest = spaces;
    for row in rows {
        let Some((space, behind)) = rest.split_first() else {
            return Ok(kept);
        };
        put_row(&mut kept, space.number, row)?;
        rest = behind;
    }
    Ok(kept)
}

/// Inserts the kept reply of a space's row, if it has one.
fn put_row(
    kept: &mut NumberTable<NumberedReply>,
    space: u32,
    row: Option<NumberedReply>,
) -> Result<(), AllocError>
    ensures { OnOk result (kept.new ≡ put_row kept.old space row) }
{
    if let Some(answer) = row {
        let _ = kept.insert(space, answer)?;
    }
    Ok(())
}
