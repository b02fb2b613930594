// The effect of a port's death on the other ports.
ghost use Rattle.std.specs.Prelude.{◌≡◌, ◌<◌, ◌-◌, ◌^◌, OnOk, OnErr, IfSome};
ghost use Rattle.std.specs.FinMap as map;
ghost use Rattle.ipc_model.specs.effects.Effects.{map_values, port_after_death};
ghost use Rattle.live_ports.specs.Changed.{changed, messages_at};
ghost use Rattle.live_ports.specs.PortTable.{ports_at_rest};
ghost use Rattle.live_ports.specs.Seen.{queue_after_death};
ghost use Rattle.ports.specs.Indexes.{destroyed_of, no_senders_of, SameBefore};
ghost use Rattle.ports.specs.Requests.{destroyed_cleared, destroyed_forgotten, no_senders_cleared, no_senders_forgotten, requests_cleared, IsNextRequester, IsUntargeted};
ghost use Rattle.ports.specs.Burials.{AreWithout};

use crate::Ports;
use crate::indexes::PortIndexes;
use live_ports::{LivePorts, PortNumbers};
use std::alloc::AllocError;

impl Ports {
    /// Removes a dying port. Rights to it in other queues become `MACH_PORT_DEAD`, and requests of ports whose target
    /// it is are removed. If it is dead already, nothing changes. If an allocation fails, the changes are rolled back.
    pub fn bury(&mut self, serial: u64) -> Result<(), AllocError>
        ensures ok { OnOk result (self.new ≡ record self.old {
          current = record self.old.current {
            ports = map_values (port_after_death serial) (map.remove self.old.current.ports serial);
          };
        }) }
        ensures err { OnErr result (self.new ≡ ports_at_rest self.old.before) }
    {
        self.forget_no_senders(serial)?;
        self.forget_port_destroyed(serial)?;
        self.clear_requests(serial)?;
        self.bury_queue(serial)?;
        Ok(())
    }

    /// Removes the no-senders requests whose target is a port. If an allocation fails, the changes are rolled back.
    fn forget_no_senders(&mut self, target: u64) -> Result<(), AllocError>
        ensures ok { OnOk result (self.new ≡ record self.old {
          current = record self.old.current {
            ports = map_values (no_senders_forgotten target) self.old.current.ports;
          };
        }) }
        ensures err { OnErr result (self.new ≡ ports_at_rest self.old.before) }
    {
        // The walk ascends: each removed request leaves a mark, which a walk from the start would pass again.
        let mut at: u64 = 0;
        while let Some(other) = self.no_senders_requester(target, at) {
            self.clear_no_senders(other)?;
            at = other + 1;
        }
        Ok(())
    }

    /// Removes the port-destroyed requests whose target is a port. If an allocation fails, the changes are rolled back.
    fn forget_port_destroyed(&mut self, target: u64) -> Result<(), AllocError>
        ensures ok { OnOk result (self.new ≡ record self.old {
          current = record self.old.current {
            ports = map_values (destroyed_forgotten target) self.old.current.ports;
          };
        }) }
        ensures err { OnErr result (self.new ≡ ports_at_rest self.old.before) }
    {
        // The walk ascends, as for the no-senders requests.
        let mut at: u64 = 0;
        while let Some(other) = self.port_destroyed_requester(target, at) {
            self.clear_port_destroyed(other)?;
            at = other + 1;
        }
        Ok(())
    }

    /// Returns the first port from `from` on whose no-senders request has this target.
    fn no_senders_requester(&self, target: u64, from: u64) -> Option<u64>
        ensures next { IsNextRequester no_senders_of self.now.current.ports target from result }
        ensures fits { IfSome result (λ serial. serial < 2 ^ 64 - 1) }
    {
        self.indexes.no_senders.next(target, from)
    }

    /// Returns the first port from `from` on whose port-destroyed request has this target.
    fn port_destroyed_requester(&self, target: u64, from: u64) -> Option<u64>
        ensures next { IsNextRequester destroyed_of self.now.current.ports target from result }
        ensures fits { IfSome result (λ serial. serial < 2 ^ 64 - 1) }
    {
        self.indexes.port_destroyed.next(target, from)
    }

    /// Removes the no-senders request of a port.
    fn clear_no_senders(&mut self, serial: u64) -> Result<(), AllocError>
        ensures ok { OnOk result (self.new ≡ record self.old {
          current = record self.old.current {
            ports = changed self.old.current.ports serial no_senders_cleared;
          };
        }) }
        ensures err { OnErr result (self.new ≡ ports_at_rest self.old.before) }
    {
        let Some(numbers) = self.numbers(serial) else {
            return Ok(());
        };
        let fewer = PortNumbers {
            no_senders_target: None,
            ..numbers
        };
        self.set_numbers(serial, fewer)?;
        Ok(())
    }

    /// Removes the port-destroyed request of a port.
    fn clear_port_destroyed(&mut self, serial: u64) -> Result<(), AllocError>
        ensures ok { OnOk result (self.new ≡ record self.old {
          current = record self.old.current {
            ports = changed self.old.current.ports serial destroyed_cleared;
          };
        }) }
        ensures err { OnErr result (self.new ≡ ports_at_rest self.old.before) }
    {
        let Some(numbers) = self.numbers(serial) else {
            return Ok(());
        };
        let fewer = PortNumbers {
            port_destroyed_target: None,
            ..numbers
        };
        self.set_numbers(serial, fewer)?;
        Ok(())
    }

    /// Removes both requests of a port.
    fn clear_requests(&mut self, serial: u64) -> Result<(), AllocError>
        ensures ok { OnOk result (self.new ≡ record self.old {
          current = record self.old.current {
            ports = changed self.old.current.ports serial requests_cleared;
          };
        }) }
        ensures err { OnErr result (self.new ≡ ports_at_rest self.old.before) }
    {
        let Some(numbers) = self.numbers(serial) else {
            return Ok(());
        };
        let fewer = PortNumbers {
            no_senders_target: None,
            port_destroyed_target: None,
            ..numbers
        };
        self.set_numbers(serial, fewer)?;
        Ok(())
    }

    /// Removes a dying port that is no request's target and has no request.
    fn bury_queue(&mut self, serial: u64) -> Result<(), AllocError>
        requires { IsUntargeted serial self.old.current.ports }
        ensures ok { OnOk result (self.new ≡ record self.old {
          current = record self.old.current {
            ports = map_values (queue_after_death serial) (map.remove self.old.current.ports serial);
          };
        }) }
        ensures err { OnErr result (self.new ≡ ports_at_rest self.old.before) }
    {
        match bury_in_both(&mut self.ports, &mut self.indexes, serial) {
            Ok(()) => Ok(()),
            Err(error) => {
                self.ports.roll_back();
                self.indexes.roll_back();
                Err(error)
            }
        }
    }
}

fn bury_in_both(
    ports: &mut LivePorts,
    indexes: &mut PortIndexes,
    serial: u64,
) -> Result<(), AllocError>
    ensures ports { OnOk result (ports.new ≡ record ports.old {
      current = record ports.old.current {
        ports = map_values (queue_after_death serial) (map.remove ports.old.current.ports serial);
      };
    }) }
    ensures indexes { OnOk result (AreWithout indexes.old indexes.new serial
        (messages_at ports.old.current.ports serial)) }
    ensures before { ports.new.before ≡ ports.old.before }
    ensures indexes_before { SameBefore indexes.old indexes.new }
{
    indexes.bury(ports, serial)?;
    ports.bury(serial)
}
