//! The places where a call waits that can't proceed.
ghost use Rattle.std.specs.Prelude.{◌≡◌, ◌++◌, ◌∷◌, [], map, option_and_then, IfSome, OnOk};
ghost use Rattle.ipc_model.specs.state.Ipc.{entry_at};
ghost use Rattle.waiting.specs.Places.{place_of_name};
ghost use Rattle.waiting.specs.CallPlaces.{places_of_call};
ghost use Rattle.waiting.specs.Waiting as plain;
ghost use Rattle.waiting.specs.Waiting.{place_of_destination, places_of_send, port_of};
ghost use Rattle.ipc_model.specs.messages.Messages.{used_parts};

use crate::Kernel;
use ipc_model::{Call, Entry, PlainCall};
use port_calls::IpcState;
use sending::cited_names;
use std::alloc::{AllocError, Global};
use waiting::{place_of_name, place_of_port};

impl Kernel {
    /// Returns the places where a call of a task in this space waits if it can't proceed. `None`: an allocation failed,
    /// or the call is a send that is refused whatever its names denote.
    pub fn places_of_call(&self, space: u32, call: &Call) -> Option<Vec<u128>>
        ensures { IfSome result (λ places. places.items ≡ places_of_call self.now space call.now) }
    {
        match call {
            Call::Plain(call) => places_of_plain(self.alloc, &self.state, space, call),
            // A numbered call never waits.
            Call::Numbered(_) | Call::Unnumberable => Some(Vec::new(self.alloc)),
        }
    }
}

/// Returns the places where a plain call waits.
fn places_of_plain(
    alloc: Global,
    state: &IpcState,
    space: u32,
    call: &PlainCall,
) -> Option<Vec<u128>>
    ensures { IfSome result (λ places. places.items ≡ plain.places_of_call state.now.current space call.now) }
{
    match call {
        PlainCall::Receive { name, .. } => place_of_receive(alloc, space, *name),
        PlainCall::Send { message } => places_of_send(alloc, state, space, message.as_slice()),
        _ => Some(Vec::new(alloc)),
    }
}

/// Returns the place where a receive waits.
fn place_of_receive(alloc: Global, space: u32, name: u32) -> Option<Vec<u128>>
    ensures { IfSome result (λ places. places.items ≡ place_of_name space name ∷ []) }
{
    let mut places = Vec::new(alloc);
    places.push(place_of_name(space, name)).ok()?;
    Some(places)
}

/// Returns the places where a send waits.
fn places_of_send(alloc: Global, state: &IpcState, space: u32, message: &[u8]) -> Option<Vec<u128>>
    ensures { IfSome result (λ places. places.items ≡ places_of_send state.now.current space (used_parts message.now)) }
{
    let names = cited_names(alloc, message).ok()?;
    let mut places = Vec::new(alloc);
    push_names(space, &names, &mut places).ok()?;
    let destination = *names.first()?;
    if let Some(serial) = port_at(state, space, destination) {
        places.push(place_of_port(serial)).ok()?;
    }
    Some(places)
}

/// Appends the places of names in a space.
fn push_names(space: u32, names: &[u32], places: &mut Vec<u128>) -> Result<(), AllocError>
    ensures { OnOk result (places.new.items ≡ places.old.items ++ map (place_of_name space) names.now) }
{
    for name in names {
        places.push(place_of_name(space, *name))?;
    }
    Ok(())
}

/// Returns the port of the right under a name.
fn port_at(state: &IpcState, space: u32, name: u32) -> Option<u64>
    ensures { result ≡ option_and_then port_of (entry_at state.now.current space name) }
{
    match state.entry(space, name)? {
        Entry::Port(rights) => Some(rights.port),
        Entry::SendOnce { port, .. } => Some(port),
        Entry::Set | Entry::Dead { .. } => None,
    }
}
