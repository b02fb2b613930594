//! Lines of waiting calls, one at each place, each in the order of arrival.

use std::alloc::{AllocError, Global};
use std::collections::BTreeMap;

/// Sessions by the places where they wait.
#[derive(Drop)]
pub(crate) struct Lines {
    // By the place and when the wait began.
    sessions: BTreeMap<(u128, u64), u32>,
}

impl Lines {
    /// Empty lines.
    pub(crate) fn none(alloc: Global) -> Self {
        Lines {
            sessions: BTreeMap::new(alloc),
        }
    }

    /// Returns whether no call stands in line.
    pub(crate) fn are_empty(&self) -> bool {
        self.sessions.is_empty()
    }

    /// The first session of all.
    pub(crate) fn first(&self) -> Option<u32> {
        let (_, session) = self.sessions.first_key_value()?;
        Some(*session)
    }

    /// The first session in line at a place.
    pub(crate) fn first_at(&self, place: u128) -> Option<u32> {
        let ((at, _), session) = self.sessions.range((place, 0)..).next()?;
        if *at == place { Some(*session) } else { None }
    }

    /// Puts a session in line.
    pub(crate) fn add(&mut self, place: u128, order: u64, session: u32) -> Result<(), AllocError> {
        match self.sessions.insert((place, order), session) {
            Ok(_) => Ok(()),
            Err(_) => Err(AllocError),
        }
    }

    /// Removes from the line the call that began to wait then.
    pub(crate) fn remove(&mut self, place: u128, order: u64) {
        let _ = self.sessions.remove(&(place, order));
    }
}
