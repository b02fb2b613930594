//! Checks that no ports carry one another in a cycle. The hop from each port to the one that carries its receive right
//! is doubled, until no hop is left, or each would pass more ports than there may be.
ghost use Rattle.std.specs.Prelude.{◌≡◌, ℕ, false, None, IfOk, OnOk, IsTrue, Option};
ghost use Rattle.std.specs.FinMap as map;
ghost use Rattle.ipc_model.specs.state.Ipc.{lives};
ghost use Rattle.snapshot_loading.specs.Climbing.{EndsSomewhere, doubled, twice, up_of, with_hop};

use ipc_state::IpcState;
use number_map::NumberMap;
use std::alloc::{AllocError, Global};

/// Number of times that hops are doubled. After that each hop would pass more than `MAX_PORTS` ports.
const ROUNDS: usize = 15;

/// Returns true if no ports carry one another in a cycle.
pub(crate) fn is_acyclic(alloc: Global, state: &IpcState) -> Result<bool, AllocError>
    ensures ends { IfOk result (λ yes. IsTrue yes → EndsSomewhere state.now.current) }
    ensures circles { IfOk result (λ yes. yes ≡ false → ((q : ℕ) → doubled 15 (up_of state.now.current) q ≡ None) → ⊥) }
{
    let mut up = hops(alloc, state)?;
    for _round in 0..ROUNDS {
        if up.is_empty() {
            return Ok(true);
        }
        up = doubled(alloc, state, &up)?;
    }
    Ok(up.is_empty())
}

/// Returns the hops from each live port whose receive right is in a queue to the queue's port.
fn hops(alloc: Global, state: &IpcState) -> Result<NumberMap<u64>, AllocError>
    ensures { IfOk result (λ up. (q : ℕ) → map.get up q ≡ up_of state.now.current q) }
{
    let mut up = NumberMap::new(alloc);
    let mut at: u64 = 0;
    while let Some(serial) = state.next_port(at) {
        add_hop(&mut up, serial, state.carrier(serial))?;
        at = serial + 1;
    }
    Ok(up)
}

/// Returns the hops of double length: each hop followed by the next one.
fn doubled(
    alloc: Global,
    state: &IpcState,
    up: &NumberMap<u64>,
) -> Result<NumberMap<u64>, AllocError>
    requires { (q : ℕ) → lives state.now.current q ≡ false → map.get up.now q ≡ None }
    ensures { IfOk result (λ farther. (q : ℕ) → map.get farther q ≡ twice (map.get up.now) q) }
{
    let mut farther = NumberMap::new(alloc);
    let mut at: u64 = 0;
    while let Some(serial) = state.next_port(at) {
        add_hop(&mut farther, serial, hop_twice(up, serial))?;
        at = serial + 1;
    }
    Ok(farther)
}

fn hop_twice(up: &NumberMap<u64>, serial: u64) -> Option<u64>
    ensures { result ≡ twice (map.get up.now) serial }
{
    match hop(up, serial) {
        Some(next) => hop(up, next),
        None => None,
    }
}

fn hop(up: &NumberMap<u64>, serial: u64) -> Option<u64>
    ensures { result ≡ map.get up.now serial }
{
    up.get(u128::from(serial)).copied()
}

/// Adds a hop, if there is one.
fn add_hop(up: &mut NumberMap<u64>, serial: u64, to: Option<u64>) -> Result<(), AllocError>
    ensures { OnOk result (up.new ≡ with_hop up.old serial to) }
{
    if let Some(to) = to {
        up.insert(u128::from(serial), to)?;
    }
    Ok(())
}
