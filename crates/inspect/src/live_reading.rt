//! A law of reading a store while its server runs, and the definitions for it.
ghost use Rattle.std.specs.Prelude.{◌+◌, ◌≤◌};
ghost use Rattle.disk.specs.Slots.{Slots};
ghost use Rattle.inspect.specs.still_disk.Live.{IsReading};
ghost use Rattle.inspect.specs.live_reading.Moments.{Later, Moment};
ghost use Rattle.inspect.specs.live_reading.Standing.{StandFor};

/// A reading copies the slots between two reads of their fronts that agree. The copies represent a state that the store
/// had during the reading, if at most one epoch ended meanwhile.
pub fn copies_stand()
    ensures { (begun ended : Moment) (copies : Slots) → IsReading Later (λ m. m.slots) begun ended copies
        → ended.epoch ≤ begun.epoch + 1 → StandFor begun ended copies }
{}
