ghost use Rattle.std.specs.Prelude.{◌≡◌, ◌<◌, ◌≤◌, length, All, AllPairs, IfOk, IfErr};
ghost use Rattle.disk.specs.Moments.{MayLeave};
ghost use Rattle.disk.specs.Slots.{Slots};
ghost use Rattle.history.specs.Entries.{Begins, records_of};
ghost use Rattle.ipc_model.specs.history.History.{AreAll, AreApart};
ghost use Rattle.keepers.specs.Belonging.{tasks_of};
ghost use Rattle.keepers.specs.Tokens.{IsHistory};
ghost use Rattle.ipc_model.specs.state.LawfulState.{LawfulState};
ghost use Rattle.sessions.specs.Closing.{AreLegal, IsLeft, IsMadeOnce};
ghost use Rattle.keepers.specs.Storing.{StandsFor};

use crate::guarded::KernelGuarded;
use crate::shared::Shared;
use disk::Disk;
use keepers::{Admissions, Founding, KernelKeeper, Past, Session, StoreKeeper};

/// What is left once both halves are closed: the disk, how many records of the history are stored there, and the
/// history itself, with the entry blocks that are left of it.
#[derive(Drop)]
pub struct Book<L: Founding, D: Disk> {
    pub disk: D,
    pub stored: u64,
    pub past: Past<L>,
}

/// The disk, with how many records are stored there, if what is known of the history couldn't be shown to be of one
/// history.
#[derive(Drop)]
pub struct Unmatched<D: Disk> {
    pub disk: D,
    pub stored: u64,
}

/// Closes both halves, and compares what they and these sessions know of the history. It takes no lock and no memory.
/// The sessions must be in the order of their numbers, the least first. The admissions that are left tell whether these
/// are all sessions: whoever began them held the admissions, so none can have been begun besides.
///
/// `Unmatched`: the numbers don't ascend; a session or the store's half is ahead of the kernel's half, or isn't seen to
/// be in a prefix of its history; or more was acknowledged to a session than is stored.
pub fn close<L: Founding, D: Disk, G: Drop>(
    shared: Shared<L, D, G>,
    sessions: Vec<Session<L>>,
    admissions: Admissions<L>,
) -> Result<Book<L, D>, Unmatched<D>>
    ensures history { IfOk result (λ book. IsHistory L.base book.past.entries) }
    ensures once { IfOk result (λ book. IsMadeOnce L.base book.past.entries) }
    ensures seen { IfOk result (λ book. All (λ session. Begins session.past.entries book.past.entries) sessions.items) }
    ensures ascend { IfOk result (λ book. AllPairs (λ one other. one.number < other.number) sessions.items) }
    ensures apart { IfOk result (λ book. AreApart (tasks_of sessions.items)) }
    ensures legal { IfOk result (λ book. AreLegal L.base book.past.entries sessions.items) }
    ensures most { IfOk result (λ book. length sessions.items ≤ admissions) }
    ensures all { IfOk result (λ book. length sessions.items ≡ admissions
        → AreAll (records_of book.past.entries) (tasks_of sessions.items)) }
    ensures acknowledged { IfOk result
        (λ book. All (λ session. session.task.acknowledged ≤ book.stored) sessions.items) }
    ensures left { IfOk result (λ book. D.honest → (c : Slots) → MayLeave (D.view book.disk) c
        → StandsFor L.base book.stored (records_of book.past.entries) c) }
    ensures unmatched { IfErr result (λ unmatched. D.honest → IsLeft L.base unmatched.stored (D.view unmatched.disk)) }
{
    let (keeper, store_keeper) = into_halves(shared);
    let stored = store_keeper.stored();
    let (disk, known) = store_keeper.into_parts();
    let Some(past) = keeper.into_matched(known, stored, sessions, admissions) else {
        return Err(Unmatched { disk, stored });
    };
    Ok(Book { disk, stored, past })
}

/// What lies under the two locks.
fn into_halves<L: Founding, D: Disk, G: Drop>(
    shared: Shared<L, D, G>,
) -> (KernelKeeper<L>, StoreKeeper<L, D>) {
    let Shared {
        guarded,
        store_keeper,
        ..
    } = shared;
    let KernelGuarded { keeper, .. } = guarded.into_inner();
    (keeper, store_keeper.into_inner())
}
