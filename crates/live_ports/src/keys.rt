//! The slab keys of the live ports, by serial.
ghost use Rattle.std.specs.Prelude.{◌≡◌, ◌<◌, ◌≤◌, ℕ, None, Some, IfSome, MatchOption, OnOk, OnErr};
ghost use Rattle.std.specs.FinMap as map;
ghost use Rattle.live_ports.specs.Recent.{at, place_of, IsNoted};

use number_map::NumberMap;
use std::alloc::{AllocError, Global};
use std::marker::Model;

const PLACES: usize = 16384;

/// The slab keys of serials. An ordered map contains all of them. A cache of `PLACES` places finds most of them by one
/// array access; it is created at the first insertion for which there is memory. No serial above `last` has a key.
/// Contracts see the finite map from serials to keys.
#[derive(Drop)]
pub(crate) struct SerialKeys {
    alloc: Global,
    keys: NumberMap<usize>,
    recent: Vec<Option<(u64, usize)>>,
    last: u128,
}

impl Model for SerialKeys {
    ghost use Rattle.std.specs.Coded.{coded_ℕ};
    ghost use Rattle.std.specs.FinMap as map;
    ghost use Rattle.live_ports.specs.Slabbed.{Keys};
    ghost use Rattle.live_ports.specs.Recent.{AreRecent, IsLast};

    ghost Value = { Keys };

    ghost coded = { map.code coded_ℕ coded_ℕ };

    ghost view = { λ s. s.keys };

    ghost invariant = { λ s. AreRecent s.recent.items s.keys × IsLast s.last s.keys };
}

impl SerialKeys {
    /// Creates an empty map. It allocates nothing.
    pub(crate) fn new(alloc: Global) -> Self
        ensures { result ≡ map.empty }
    {
        SerialKeys {
            alloc,
            keys: NumberMap::new(alloc),
            recent: Vec::new(alloc),
            last: 0,
        }
    }

    /// Returns the key of a serial.
    pub(crate) fn get(&self, serial: u128) -> Option<usize>
        ensures { result ≡ map.get self.now serial }
    {
        if let Some(key) = noted_key(&self.recent, serial) {
            return Some(key);
        }
        if self.last < serial {
            return None;
        }
        self.keys.get(serial).copied()
    }

    /// Returns the key of a serial, and caches it, until another serial takes its place.
    pub(crate) fn find(&mut self, serial: u128) -> Option<usize>
        ensures found { result ≡ map.get self.old serial }
        ensures same { self.new ≡ self.old }
    {
        if let Some(key) = noted_key(&self.recent, serial) {
            return Some(key);
        }
        let Some(key) = self.keys.get(serial).copied() else {
            return None;
        };
        note(&mut self.recent, place(serial), noted(serial, key));
        Some(key)
    }

    /// Returns the least serial with a key from `from` on, and its key.
    pub(crate) fn next_from(&self, from: u128) -> Option<(u128, &usize)>
        ensures { MatchOption result ((serial : ℕ) → from ≤ serial → map.get self.now serial ≡ None)
            (λ e. (from ≤ e.0) × (map.get self.now e.0 ≡ Some e.1.now)
            × ((serial : ℕ) → from ≤ serial → serial < e.0 → map.get self.now serial ≡ None)) }
    {
        self.keys.next_from(from)
    }

    /// Sets the key of a serial. If an allocation fails, nothing changed.
    pub(crate) fn insert(&mut self, serial: u128, key: usize) -> Result<(), AllocError>
        ensures ok { OnOk result (self.new ≡ map.insert self.old serial key) }
        ensures err { OnErr result (self.new ≡ self.old) }
    {
        self.keys.insert(serial, key)?;
        self.last = self.last.max(serial);
        make_places(&mut self.recent, self.alloc);
        note(&mut self.recent, place(serial), noted(serial, key));
        Ok(())
    }

    /// Removes the key of a serial, and returns it.
    pub(crate) fn remove(&mut self, serial: u128) -> Option<usize>
        ensures before { result ≡ map.get self.old serial }
        ensures removed { self.new ≡ map.remove self.old serial }
    {
        note(&mut self.recent, place(serial), None);
        self.keys.remove(serial)
    }
}

/// Returns the place of a serial in the cache.
fn place(serial: u128) -> usize
    ensures { result ≡ place_of serial }
{
    (serial % PLACES as u128) as usize
}

/// Returns the content of a place for a serial and its key, or `None` if the serial isn't a `u64`.
fn noted(serial: u128, key: usize) -> Option<(u64, usize)>
    ensures { IfSome result (λ noted. (noted.0 ≡ serial) × (noted.1 ≡ key)) }
{
    let short = u64::try_from(serial).ok()?;
    Some((short, key))
}

/// Returns the key in a serial's place, if it is this serial's.
fn noted_key(recent: &[Option<(u64, usize)>], serial: u128) -> Option<usize>
    ensures { IfSome result (λ key. at recent.now (place_of serial) ≡ Some (serial, key)) }
{
    let Some(Some((other, key))) = recent.get(place(serial)) else {
        return None;
    };
    if u128::from(*other) == serial {
        Some(*key)
    } else {
        None
    }
}

/// Creates the cache, if there is none and there is memory for it.
fn make_places(recent: &mut Vec<Option<(u64, usize)>>, alloc: Global)
    ensures { (place : ℕ) → at recent.new.items place ≡ at recent.old.items place }
{
    if recent.is_empty() {
        *recent = free_places(alloc);
    }
}

/// Returns a cache of free places, or an empty one if an allocation fails.
fn free_places(alloc: Global) -> Vec<Option<(u64, usize)>>
    ensures { (place : ℕ) → at result.items place ≡ None }
{
    match vec![in alloc; None; PLACES] {
        Ok(places) => places,
        Err(_) => Vec::new(alloc),
    }
}

fn note(recent: &mut Vec<Option<(u64, usize)>>, place: usize, content: Option<(u64, usize)>)
    ensures { IsNoted content place recent.old.items recent.new.items }
{
    if place < recent.len() {
        recent[place] = content;
    }
}
