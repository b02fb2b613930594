ghost use Rattle.std.specs.Prelude.{◌≡◌, ◌≤◌};
ghost use Rattle.disk.specs.Moments.{MayLeave};
ghost use Rattle.disk.specs.Slots.{Slots};
ghost use Rattle.history.specs.Entries.{records_of};
ghost use Rattle.keepers.specs.Storing.{StandsFor};

use crate::session::Session;
use crate::store_keeper::StoreKeeper;
use disk::Disk;
use history::{Founding, Mark};
use std::sync::Wait;

/// Shows that what was acknowledged to a session is stored, by whoever holds the lock of the store: a crash then leaves
/// at least as many records, and from then on too. It does nothing else.
pub fn show_stored<L: Founding, D: Disk, R: Wait>(
    rt: &R,
    mark: &Mark<L>,
    session: &mut Session<L>,
    keeper: &mut StoreKeeper<L, D>,
)
    ensures same { (session.new ≡ session.old) × (keeper.new ≡ keeper.old) }
    ensures stored { session.old.task.acknowledged ≤ keeper.old.stored }
    ensures left { D.honest → (c : Slots) → MayLeave (D.view keeper.old.store.disk) c
        → StandsFor L.base session.old.task.acknowledged (records_of keeper.old.entries) c }
{
    let known = session.stored(mark);
    keeper.covers(rt, mark, known);
}
