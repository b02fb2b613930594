//! A walk over the live ports by their serials.
ghost use Rattle.std.specs.Prelude.{◌<◌, ◌-◌, ◌^◌, IfSome};
ghost use Rattle.live_ports.specs.NextPort.{IsNextPort};

use crate::Ports;

impl Ports {
    /// Returns the least serial from `from` on that belongs to a live port. Ports that died since the last commit are
    /// skipped.
    pub fn next_port(&self, from: u64) -> Option<u64>
        ensures next { IsNextPort self.now.current.ports from result }
        ensures fits { IfSome result (λ serial. serial < 2 ^ 64 - 1) }
    {
        self.ports.next_port(from)
    }
}
