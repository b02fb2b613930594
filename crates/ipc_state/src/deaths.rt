//! The effects of a port's death on the state, and its notices.
ghost use Rattle.std.specs.Prelude.{◌≡◌, ◌++◌, None, OnOk, OnErr, flat_map};
ghost use Rattle.std.specs.FinMap as map;
ghost use Rattle.ipc_model.specs.effects.Effects.{after_death, dead_name_notices, dead_name_of_entry, entry_after_death, map_values, port_after_death};
ghost use Rattle.ipc_model.specs.state.Ipc.{with_port};
ghost use Rattle.ipc_state.specs.Members.{set_in};
ghost use Rattle.ipc_state.specs.Running.{at_rest};

use crate::IpcState;
use effects::Effects;
use ports::{PortNumbers, Ports};
use spaces::Spaces;
use std::alloc::AllocError;

impl IpcState {
    /// Removes a dying port. Names of it become dead names, each with a dead-name notice if one was requested, in the
    /// order of space and name. Carried rights to it become `MACH_PORT_DEAD`, and requests whose target it is are
    /// removed. If an allocation fails, the changes are rolled back.
    pub fn bury(&mut self, serial: u64, effects: &mut Effects) -> Result<(), AllocError>
        ensures ok { OnOk result (self.new ≡ record self.old { current = after_death self.old.current serial }) }
        ensures notified { OnOk result (effects.new ≡ effects.old ++ dead_name_notices self.old.current serial) }
        ensures err { OnErr result (self.new ≡ at_rest self.old.before) }
    {
        self.leave_set(serial)?;
        self.bury_outside(serial, effects)?;
        Ok(())
    }

    /// Removes a port from its set. If an allocation fails, the changes are rolled back.
    fn leave_set(&mut self, serial: u64) -> Result<(), AllocError>
        ensures ok { OnOk result (self.new
            ≡ record self.old { current = with_port self.old.current serial (λ port. record port { set = None }) }) }
        ensures err { OnErr result (self.new ≡ at_rest self.old.before) }
    {
        let Some(numbers) = self.numbers(serial) else {
            return Ok(());
        };
        let outside = PortNumbers {
            set: None,
            ..numbers
        };
        self.set_numbers(serial, outside)
    }

    /// Removes a dying port that is in no set.
    fn bury_outside(&mut self, serial: u64, effects: &mut Effects) -> Result<(), AllocError>
        requires outside { set_in self.old.current.ports serial ≡ None }
        ensures ok { OnOk result (self.new ≡ record self.old { current = after_death self.old.current serial }) }
        ensures notified { OnOk result (effects.new ≡ effects.old ++ dead_name_notices self.old.current serial) }
        ensures err { OnErr result (self.new ≡ at_rest self.old.before) }
    {
        match bury_in_both(&mut self.spaces, &mut self.ports, serial, effects) {
            Ok(()) => Ok(()),
            Err(error) => {
                self.spaces.roll_back();
                self.ports.roll_back();
                self.members.roll_back();
                Err(error)
            }
        }
    }
}

fn bury_in_both(
    spaces: &mut Spaces,
    ports: &mut Ports,
    serial: u64,
    effects: &mut Effects,
) -> Result<(), AllocError>
    ensures spaces { OnOk result (spaces.new
        ≡ record spaces.old { current = map_values (map_values (entry_after_death serial)) spaces.old.current }) }
    ensures ports { OnOk result (ports.new ≡ record ports.old {
      current = record ports.old.current {
        ports = map_values (port_after_death serial) (map.remove ports.old.current.ports serial);
      };
    }) }
    ensures notified { OnOk result
        (effects.new ≡ effects.old ++ flat_map
        (λ s. flat_map (λ e. dead_name_of_entry serial e.0 e.1) (map.entries s.1))
        (map.entries spaces.old.current)) }
    ensures before { spaces.new.before ≡ spaces.old.before }
    ensures ports_before { ports.new.before ≡ ports.old.before }
{
    spaces.bury(serial, effects)?;
    ports.bury(serial)
}
