//! New stores that are shared.
ghost use Rattle.std.specs.Prelude.{◌≡◌};
ghost use Rattle.std.specs.Arc.{arc_value};
ghost use Rattle.keepers.specs.declared.admissions.TheConstants.{MOST_SESSIONS};

use crate::service::Admitting;
use codes::MAX_RECORDS;
use disk::Disk;
use sessions::{Admissions, EntryBlock, Founding, Gate, MOST_SESSIONS, NewMark, Shared};
use std::alloc::Global;
use std::sync::ledger::Blank;
use std::sync::{Arc, Mutex};
use system::{Opened, open};

/// What a history begins with: an opened store, its first entry block, a ledger for its sessions, and a mark of what is
/// stored.
#[derive(Drop)]
pub(crate) struct Start<D: Disk> {
    pub(crate) opened: Opened<D>,
    pub(crate) row: Arc<EntryBlock, Global>,
    pub(crate) blank: Blank,
    pub(crate) mark: NewMark,
    ghost parts: { blank.parts ≡ MOST_SESSIONS },
}

fn first_row(alloc: Global) -> Option<Arc<EntryBlock, Global>> {
    let row = EntryBlock::new(alloc, MAX_RECORDS as usize).ok()?;
    Arc::new(alloc, row).ok()
}

/// The beginning on a disk. `None` if its store can't be opened.
pub(crate) fn start_on<D: Disk + Drop>(alloc: Global, disk: D) -> Option<Start<D>> {
    let row = first_row(alloc)?;
    let mark = NewMark::new(alloc).ok()?;
    match open(alloc, disk) {
        Ok(opened) => Some(Start {
            opened,
            row,
            blank: Blank::new(u64::from(MOST_SESSIONS)),
            mark,
        }),
        Err(_) => None,
    }
}

/// The history that begins there, shared. `None` if memory runs out.
pub(crate) fn shared_from<L: Founding, D: Disk + Drop, G: Gate>(
    alloc: Global,
    start: Start<D>,
    gate: G,
) -> Option<Admitting<L, D, G>>
    requires base { start.opened.kernel ≡ L.base }
    requires row { arc_value start.row ≡ L.first }
    requires blank { (start.blank.name ≡ L.name) × (start.blank.parts ≡ L.parts) }
    requires mark { start.mark ≡ L.table }
{
    let Start {
        opened,
        row,
        blank,
        mark,
    } = start;
    let (book, admissions) = Admissions::open(blank);
    match Shared::new(alloc, opened, row, book, mark.named(), gate) {
        Ok(shared) => Some(Admitting {
            shared,
            admissions: Mutex::new(admissions),
        }),
        Err(_) => None,
    }
}
