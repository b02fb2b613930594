//! Receive rights in messages, and cycles of ports that carry one another.
#![tactic(auto)]

ghost use Rattle.std.specs.Prelude.{◌≡◌};
ghost use Rattle.std.specs.FinMap as map;
ghost use Rattle.ipc_model.specs.state.Circular.{is_circular, meets};

pub use ipc_state::{IpcState, PortNumbers};

/// Returns true if a port's receive right, put into this queue, would travel to the port's own queue, directly or
/// through other ports. It allocates nothing.
#[tactic(auto, unfolding(ipc_model::specs::state::Circular::is_circular))]
pub fn would_circle(state: &IpcState, port: u64, queue: u64) -> bool
    ensures { result ≡ is_circular state.now.current port queue }
{
    climbs_to(state, port, queue)
}

/// Returns true if the port is on the way up from a queue, from each port to the one whose queue carries its receive
/// right.
fn climbs_to(state: &IpcState, port: u64, queue: u64) -> bool
    ensures { result ≡ meets state.now.current (map.len state.now.current.ports) port queue }
{
    let mut at = queue;
    for _hop in 0..state.port_count() {
        if at == port {
            return true;
        }
        let Some(carrier) = state.carrier(at) else {
            return false;
        };
        at = carrier;
    }
    at == port
}
