ghost use Rattle.std.specs.Prelude.{◌≡◌};
ghost use Rattle.std.specs.FinMap as map;
ghost use Rattle.live_ports.specs.PortTable.{ports_at_rest};

use crate::indexes::PortIndexes;
use live_ports::LivePorts;
use std::alloc::Global;
use std::marker::Model;

/// The live ports by their serials. The rights in their queues and the targets of their requests are counted and
/// indexed by port. Contracts see the ports and the next serial at the last commit or rollback, and the current ones.
#[derive(Drop)]
pub struct Ports {
    pub(crate) ports: LivePorts,
    pub(crate) indexes: PortIndexes,
}

impl Model for Ports {
    ghost use Rattle.ipc_model.specs.contracts.port.PortState as state;
    ghost use Rattle.live_ports.specs.PortTable.{TrackedPorts, tracked_ports_code};
    ghost use Rattle.ports.specs.Indexes.{former_parts, present_parts, AreIndexed};

    ghost Value = { TrackedPorts };

    ghost coded = { tracked_ports_code state.the_row.coded };

    ghost view = { λ p. p.ports };

    ghost invariant = { λ p. AreIndexed p.ports.before (former_parts p.indexes)
        × AreIndexed p.ports.current (present_parts p.indexes) };
}

impl Ports {
    /// Creates an empty table, whose first port gets the serial 1. It allocates nothing.
    pub fn new(alloc: Global) -> Self
        ensures { result ≡ ports_at_rest (record { ports = map.empty; next = 1 }) }
    {
        Ports {
            ports: LivePorts::new(alloc),
            indexes: PortIndexes::new(alloc),
        }
    }

    /// Commits the changes. It allocates nothing.
    pub fn commit(&mut self)
        ensures { self.new ≡ ports_at_rest self.old.current }
    {
        self.ports.commit();
        self.indexes.commit();
    }

    /// Rolls the changes back. It allocates nothing.
    pub fn roll_back(&mut self)
        ensures { self.new ≡ ports_at_rest self.old.before }
    {
        self.ports.roll_back();
        self.indexes.roll_back();
    }
}
