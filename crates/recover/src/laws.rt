// Laws of the definitions. Each is the contract of a function that does nothing, so that the prover checks it.
ghost use Rattle.disk.specs.Slots.{empty_slots};
ghost use Rattle.ipc_model.specs.state.State.{State, opening_state};
ghost use Rattle.store_layout.specs.Gates.{StandForState};
ghost use Rattle.recover.specs.Crashing.{AppendKeepsGate, CrashesKeep};

use disk::Disk;

/// If a crash interrupts the append of a batch, the segment still has a gate after its batches.
pub fn append_keeps_gate()
    ensures { AppendKeepsGate }
{}

/// Any number of consecutive crashes keeps the state, where each interrupts the opening of the slots that the previous
/// one left. If all slots that a crash might leave before the first opening represent a state, so do all slots that a
/// crash leaves after each opening.
pub fn crashes_keep_state<D: Disk>()
    ensures { D.honest → (state : State) → CrashesKeep D.view (StandForState state) }
{}

/// Slots without a byte represent the state of a new store.
pub fn empty_slots_stand()
    ensures { StandForState opening_state empty_slots }
{}
