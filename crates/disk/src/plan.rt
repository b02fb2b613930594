// Which calls of a disk in memory fail, and what a crash then leaves.
ghost use Rattle.std.specs.Prelude.{◌≡◌, ◌↔◌, ◌+◌, ◌-◌, ◌^◌, min, IsTrue};
ghost use Rattle.disk.specs.Plan.{no_plan, IsAdmitted};

/// What a crash leaves of the writes and truncations since a slot's last sync.
#[derive(Clone, Copy, Debug, PartialEq, Eq)]
pub enum Torn {
    /// The least length, with each range as it was before.
    Old,
    /// The greatest length, with each range as it was written.
    New,
    /// The greatest length, with the first half of each range, rounded up, as it was written. The rest is as before,
    /// and 0 past the old end.
    Half,
    /// The greatest length, with this byte all over each range.
    Fill(u8),
}

#[derive(Clone, Copy)]
pub struct Plan {
    pub stop_at: Option<u64>,
    pub fail_at: Option<u64>,
    pub torn: Torn,
    pub calls: u64,
}

impl Plan {
    pub fn none() -> Plan
        ensures { result ≡ no_plan }
    {
        Plan {
            stop_at: None,
            fail_at: None,
            torn: Torn::Old,
            calls: 0,
        }
    }

    // Counts a call, and returns whether it goes through.
    pub fn admit(&mut self) -> bool
        ensures counted { self.new ≡ record self.old { calls = min (self.old.calls + 1) (2 ^ 64 - 1) } }
        ensures admitted { IsTrue result ↔ IsAdmitted self.new }
    {
        self.calls = self.calls.saturating_add(1);
        if let Some(stop_at) = self.stop_at
            && stop_at <= self.calls
        {
            return false;
        }
        match self.fail_at {
            Some(fail_at) => fail_at != self.calls,
            None => true,
        }
    }
}
