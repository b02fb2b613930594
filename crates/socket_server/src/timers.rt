//! When something is to be done for a session though nothing came.

use std::alloc::Global;
use std::collections::BTreeMap;
use std::io;
use std::time::{Clock, Duration, Instant};

/// Times in microseconds since the timers began, with the sessions that they are for.
#[derive(Drop)]
pub(crate) struct Timers {
    start: Instant,
    ends: BTreeMap<(u64, u32), ()>,
}

impl Timers {
    /// None.
    pub(crate) fn begin(alloc: Global, clock: &impl Clock) -> io::Result<Self> {
        Ok(Timers {
            start: Instant::now(clock)?,
            ends: BTreeMap::new(alloc),
        })
    }

    /// The time now.
    fn now(&self, clock: &impl Clock) -> u64 {
        match self.start.elapsed(clock) {
            Ok(time) => u64::try_from(time.as_micros()).unwrap_or(u64::MAX),
            Err(_) => 0,
        }
    }

    /// Sets a timer of a session to so many milliseconds from now. `None` if an allocation fails.
    pub(crate) fn set(
        &mut self,
        clock: &impl Clock,
        session: u32,
        milliseconds: u32,
    ) -> Option<u64> {
        let end = self
            .now(clock)
            .saturating_add(u64::from(milliseconds).saturating_mul(1_000));
        match self.ends.insert((end, session), ()) {
            Ok(_) => Some(end),
            Err(_) => None,
        }
    }

    /// A timer of a session isn't wanted any more.
    pub(crate) fn clear(&mut self, end: u64, session: u32) {
        let _ = self.ends.remove(&(end, session));
    }

    /// How long it is until the next time, if there is one.
    pub(crate) fn left(&self, clock: &impl Clock) -> Option<Duration> {
        let ((end, _), _) = self.ends.first_key_value()?;
        Some(Duration::from_micros(end.saturating_sub(self.now(clock))))
    }

    /// A session whose time is over. Its timer is cleared.
    pub(crate) fn take_over(&mut self, clock: &impl Clock) -> Option<u32> {
        let ((end, session), _) = self.ends.first_key_value()?;
        let (end, session) = (*end, *session);
        if self.now(clock) < end {
            return None;
        }
        self.clear(end, session);
        Some(session)
    }
}
