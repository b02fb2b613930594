// Laws over the definitions, each the contract of a function that does nothing, so that the check proves it.
ghost use Rattle.std.specs.Prelude.{ℕ};
ghost use Rattle.store_half.specs.phases.Passed.{CrashesKeep};
ghost use Rattle.ipc_model.specs.history.Once.{Once};
ghost use Rattle.ipc_model.specs.state.State.{State};
ghost use Rattle.ipc_model.specs.world.World.{World};
ghost use Rattle.system.specs.Core.{Stands, StandsFor, StandsFrom, SystemValue};

use disk::Disk;

/// Any number of crashes in a row lose nothing that was acknowledged. What a crash leaves of a core stands for the
/// state after the first calls of a world (`System::step`, `System::run`); after crashes in the openings that follow,
/// so does what each leaves, of as many calls.
pub fn crashes_keep_calls<D: Disk>()
    ensures calls { D.honest → (base : State) → (world : World) → (k : ℕ) → CrashesKeep D.view (Stands base world k) }
    ensures least { D.honest → (base : State) → (least : ℕ) → (world : World)
        → CrashesKeep D.view (StandsFrom base least world) }
{}

/// Numbered calls are made once: in whatever world a core stands for (`System::step`, `System::run`), the calls that
/// were applied. Each space keeps the reply of its last numbered call that has a record. Asked for again, a call is
/// answered by this reply, and isn't applied again.
pub fn calls_are_made_once<D: Disk>()
    ensures { (base : State) → (world : World) → (system : SystemValue D)
        → StandsFor D.honest D.view base world system → Once base world.applied system.core.kernel }
{}
