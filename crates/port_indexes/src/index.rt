ghost use Rattle.std.specs.Prelude.{◌≡◌, ◌<◌, ◌^◌, OnOk, OnErr};
ghost use Rattle.std.specs.FinMap as map;
ghost use Rattle.port_indexes.specs.Places.{key, moved, with_place, without_place, IsNext};
ghost use Rattle.tracked_map.specs.Tracked.{at_rest};

use std::alloc::{AllocError, Global};
use std::marker::Model;
use tracked_map::TrackedMap;

/// An index of places by the number that each place has, such as the port of a name. Changes are committed or rolled
/// back. Contracts see the set of pairs of number and place, with each pair as one number.
#[derive(Drop)]
pub struct PlaceIndex {
    places: TrackedMap<()>,
}

impl Model for PlaceIndex {
    ghost use Rattle.port_indexes.specs.Places.{coded_unit};
    ghost use Rattle.tracked_map.specs.Tracked.{Tracked, tracked_code};

    ghost Value = { Tracked (Unit {0}) };

    ghost coded = { tracked_code coded_unit };

    ghost view = { λ i. i.places };
}

impl PlaceIndex {
    /// Creates an empty index. It allocates nothing.
    pub fn new(alloc: Global) -> Self
        ensures { result ≡ at_rest map.empty }
    {
        PlaceIndex {
            places: TrackedMap::new(alloc),
        }
    }

    /// Replaces the number of a place, if it had one, by another one or by none. If an allocation fails, the changes
    /// are rolled back.
    pub fn change(
        &mut self,
        place: u64,
        former: Option<u64>,
        number: Option<u64>,
    ) -> Result<(), AllocError>
        ensures ok { OnOk result (self.new ≡ record self.old { current = moved self.old.current place former number }) }
        ensures err { OnErr result (self.new ≡ at_rest self.old.before) }
    {
        match replace(&mut self.places, place, former, number) {
            Ok(()) => Ok(()),
            Err(error) => {
                self.places.roll_back();
                Err(error)
            }
        }
    }

    /// Returns the first place from `from` on that has this number.
    pub fn next(&self, number: u64, from: u64) -> Option<u64>
        ensures { IsNext self.now.current number from result }
    {
        // The walk ends with the places of this number, because those of others may have left many marks.
        let last = key(number, u64::MAX);
        let Some((found, _)) = self.places.next_within(key(number, from), last) else {
            return None;
        };
        Some((found - key(number, 0)) as u64)
    }

    /// Commits the changes. It allocates nothing.
    pub fn commit(&mut self)
        ensures { self.new ≡ at_rest self.old.current }
    {
        self.places.commit();
    }

    /// Rolls the changes back. It allocates nothing.
    pub fn roll_back(&mut self)
        ensures { self.new ≡ at_rest self.old.before }
    {
        self.places.roll_back();
    }
}

/// Returns a number and a place as one key.
fn key(number: u64, place: u64) -> u128
    ensures key { result ≡ key number place }
    ensures fits { result < 2 ^ 128 }
{
    u128::from(number) * (1 << 64) + u128::from(place)
}

fn replace(
    places: &mut TrackedMap<()>,
    place: u64,
    former: Option<u64>,
    number: Option<u64>,
) -> Result<(), AllocError>
    ensures ok { OnOk result (places.new.current ≡ moved places.old.current place former number) }
    ensures before { places.new.before ≡ places.old.before }
{
    if former == number {
        return stay(places, number, place);
    }
    leave(places, former, place)?;
    join(places, number, place)
}

/// Keeps a place in the index under its number, if it has one.
fn stay(places: &mut TrackedMap<()>, number: Option<u64>, place: u64) -> Result<(), AllocError>
    ensures ok { OnOk result (places.new.current ≡ with_place places.old.current number place) }
    ensures before { places.new.before ≡ places.old.before }
{
    let Some(number) = number else {
        return Ok(());
    };
    let key = key(number, place);
    if places.contains_key(key) {
        return Ok(());
    }
    places.set(key, ())
}

fn leave(places: &mut TrackedMap<()>, number: Option<u64>, place: u64) -> Result<(), AllocError>
    ensures ok { OnOk result (places.new.current ≡ without_place places.old.current number place) }
    ensures before { places.new.before ≡ places.old.before }
{
    match number {
        Some(number) => places.remove(key(number, place)),
        None => Ok(()),
    }
}

fn join(places: &mut TrackedMap<()>, number: Option<u64>, place: u64) -> Result<(), AllocError>
    ensures ok { OnOk result (places.new.current ≡ with_place places.old.current number place) }
    ensures before { places.new.before ≡ places.old.before }
{
    match number {
        Some(number) => places.set(key(number, place), ()),
        None => Ok(()),
    }
}
