ghost use Rattle.std.specs.Prelude.{◌≡◌, ◌⊎◌, ◌<◌, ◌≤◌, ◌^◌, ◌++◌, ◌∷◌, [], true, false, MatchBool};
ghost use Rattle.waiting.specs.Places.{IsMore, names, place_of_name, place_of_port};

use std::alloc::Global;
use std::marker::Model;

/// Returns the place of a name in a space. Receives from the name wait there, and sends whose messages contain it.
pub fn place_of_name(space: u32, name: u32) -> u128
    ensures { result ≡ place_of_name space name }
{
    u128::from(space) * (1 << 32) + u128::from(name)
}

/// Returns the place of a port. Sends to the port wait there.
pub fn place_of_port(serial: u64) -> u128
    ensures { result ≡ place_of_port serial }
{
    (1 << 64) + u128::from(serial)
}

/// Returns true if a place is a port's and not a name's.
pub fn is_place_of_port(place: u128) -> bool
    ensures { MatchBool result (2 ^ 64 ≤ place) (place < 2 ^ 64) }
{
    1 << 64 <= place
}

/// The places at which waiting calls may succeed after a step.
#[derive(Drop)]
pub struct Places {
    changed: Vec<u128>,
    ready: Vec<u128>,
    are_all: bool,
}

impl Model for Places {
    ghost use Rattle.std.specs.Prelude.{◌≡◌};
    ghost use Rattle.waiting.specs.Places.{Named};
    ghost use Rattle.waiting.specs.PlacesCode.{named_code};

    ghost Value = { Named };

    ghost coded = { named_code };

    ghost view = { λ p. record { changed = p.changed.items; ready = p.ready.items; are_all = p.are_all } };
}

impl Places {
    /// Creates an empty list of places. It allocates nothing.
    pub fn none(alloc: Global) -> Self
        ensures { result ≡ record { changed = []; ready = []; are_all = false } }
    {
        Places {
            changed: Vec::new(alloc),
            ready: Vec::new(alloc),
            are_all: false,
        }
    }

    /// Removes all places.
    pub fn clear(&mut self)
        ensures { self.new ≡ record { changed = []; ready = []; are_all = false } }
    {
        self.changed.clear();
        self.ready.clear();
        self.are_all = false;
    }

    /// Adds a place that changed: each call that waits there may be answered now. If an allocation fails, all places
    /// count as reported.
    pub fn add_changed(&mut self, place: u128)
        ensures added { names self.new place ≡ true }
        ensures kept { IsMore self.old self.new }
        ensures exact { (self.new ≡ record self.old { changed = self.old.changed ++ place ∷ [] })
            ⊎ (self.new ≡ record self.old { are_all = true }) }
    {
        self.list_changed(place);
    }

    fn list_changed(&mut self, place: u128)
        ensures { (self.new ≡ record self.old { changed = self.old.changed ++ place ∷ [] })
            ⊎ (self.new ≡ record self.old { are_all = true }) }
    {
        if self.changed.push(place).is_err() {
            self.are_all = true;
        }
    }

    /// Adds a place at which one of the waiting calls may succeed now. If an allocation fails, all places count as
    /// reported.
    pub fn add_ready(&mut self, place: u128)
        ensures added { names self.new place ≡ true }
        ensures kept { IsMore self.old self.new }
        ensures exact { (self.new ≡ record self.old { ready = self.old.ready ++ place ∷ [] })
            ⊎ (self.new ≡ record self.old { are_all = true }) }
    {
        self.list_ready(place);
    }

    fn list_ready(&mut self, place: u128)
        ensures { (self.new ≡ record self.old { ready = self.old.ready ++ place ∷ [] })
            ⊎ (self.new ≡ record self.old { are_all = true }) }
    {
        if self.ready.push(place).is_err() {
            self.are_all = true;
        }
    }

    /// Reports all places.
    pub fn add_all(&mut self)
        ensures { self.new ≡ record self.old { are_all = true } }
    {
        self.are_all = true;
    }

    /// Returns the places that changed.
    pub fn changed(&self) -> &[u128]
        ensures { result.now ≡ self.now.changed }
    {
        self.changed.as_slice()
    }

    /// Returns the places at which one waiting call may succeed.
    pub fn ready(&self) -> &[u128]
        ensures { result.now ≡ self.now.ready }
    {
        self.ready.as_slice()
    }

    /// Returns true if all places count as reported, because an allocation for the list failed.
    pub fn are_all(&self) -> bool
        ensures { result ≡ self.now.are_all }
    {
        self.are_all
    }
}
