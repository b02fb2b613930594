ghost use Rattle.std.specs.Prelude.{◌≡◌, IfOk};
ghost use Rattle.std.specs.FinMap as map;
ghost use Rattle.ipc_model.specs.state.Lawful.{ShortQueues};
ghost use Rattle.ipc_model.specs.state.Ipc.{opening_ipc};
ghost use Rattle.ipc_state.specs.Running.{at_rest};

use codes::FIRST_SPACE;
use ports::Ports;
use spaces::{PlaceIndex, Spaces};
use std::alloc::{AllocError, Global};
use std::marker::Model;

/// The spaces, the live ports and the serial of the next port. Changes are committed or rolled back. Contracts see two
/// states of the abstract specification: at the last commit or rollback, and the current one.
///
/// A change whose allocation fails rolls all changes back.
pub struct IpcState {
    pub(crate) spaces: Spaces,
    pub(crate) ports: Ports,
    /// The place of each name that holds a member's receive right, mapped to the place of its set.
    pub(crate) members: PlaceIndex,
}

// Written by hand, so that proofs of the crates above depend on one function instead of its parts.
impl Drop for IpcState {
    fn drop(self) {
        let IpcState {
            spaces,
            ports,
            members,
        } = self;
        drop(spaces);
        drop(ports);
        drop(members);
    }
}

impl Model for IpcState {
    ghost use Rattle.ipc_state.specs.Members.{state_of, AreMembers};
    ghost use Rattle.ipc_state.specs.Running.{Running, running_code};

    ghost Value = { Running };

    ghost coded = { running_code };

    ghost view = { λ s. record {
      before = state_of s.spaces.before s.ports.before;
      current = state_of s.spaces.current s.ports.current;
    } };

    ghost invariant = { λ s.
        AreMembers s.spaces.before s.ports.before.ports s.members.before
        × AreMembers s.spaces.current s.ports.current.ports s.members.current };
}

impl IpcState {
    /// Creates a state without spaces and ports. The first port gets the serial 1. It allocates nothing.
    pub fn new(alloc: Global) -> Self
        ensures { result ≡ at_rest (record { spaces = map.empty; ports = map.empty; next = 1 }) }
    {
        IpcState {
            spaces: Spaces::new(alloc),
            ports: Ports::new(alloc),
            members: PlaceIndex::new(alloc),
        }
    }

    /// Creates the state of a new store: space 1 without names, and no port.
    pub fn opening(alloc: Global) -> Result<Self, AllocError>
        ensures { IfOk result (λ state. state ≡ at_rest opening_ipc) }
    {
        let mut state = IpcState::new(alloc);
        match state.add_space(FIRST_SPACE) {
            Ok(()) => {
                state.commit();
                Ok(state)
            }
            Err(error) => {
                drop(state);
                Err(error)
            }
        }
    }

    /// Commits the changes. It allocates nothing.
    pub fn commit(&mut self)
        ensures { self.new ≡ at_rest self.old.current }
    {
        self.spaces.commit();
        self.ports.commit();
        self.members.commit();
    }

    /// Rolls the changes back. It allocates nothing.
    pub fn roll_back(&mut self)
        ensures { self.new ≡ at_rest self.old.before }
    {
        self.spaces.roll_back();
        self.ports.roll_back();
        self.members.roll_back();
    }

    /// Proves that the number of messages in each queue fits a `u32`. It does nothing else.
    pub fn show_queues_short(&self)
        ensures { ShortQueues self.now.current }
    {
        self.ports.show_queues_short();
    }
}
