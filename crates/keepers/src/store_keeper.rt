ghost use Rattle.std.specs.Prelude.{◌≡◌, ◌⊎◌, ◌+◌, ◌<◌, ◌≤◌, [], None, Some, true, false, IfErr, OnOk, MatchBool, is_some};
ghost use Rattle.disk.specs.Moments.{MayLeave};
ghost use Rattle.disk.specs.Slots.{Slots};
ghost use Rattle.history.specs.Entries.{Begins, records_of};
ghost use Rattle.ipc_model.specs.state.Circular.{Acyclic};
ghost use Rattle.ipc_model.specs.state.LawfulState.{LawfulState};
ghost use Rattle.store_half.specs.phases.Passed.{IsKept};
ghost use Rattle.keepers.specs.Appending.{CountsDevice, GivesLoadBack, HadFailed, OnlyFails, StoresLoad, WouldOverfill, WritesNothingElse};
ghost use Rattle.keepers.specs.Faults.{IsWhyNotStored};
ghost use Rattle.keepers.specs.Storing.{CanBegin, IsNext, IsRecorded, LosesNothing, StandsFor};
ghost use Rattle.store_half.specs.Values.{begun};

use crate::fault::{NotBegun, NotStored};
use crate::load::{End, Load};
use disk::Disk;
use history::{Founding, Mark, Past, Stored, Storing};
use journal::Segment;
use std::marker::Model;
use std::sync::Wait;
use store_fault::StoreFault;
use store_half::{Receipt, StoreHalf};

/// What lies under the lock of the store: the half that stores, and what it knows of the history.
pub struct StoreKeeper<L: Founding, D: Disk> {
    pub(crate) store: StoreHalf<D>,
    past: Past<L>,

    // How many records of the history are stored, and how many led to the state of which a checkpoint under way makes
    // an image.
    pub(crate) stored: Storing<L>,
    pub(crate) earlier: u64,
}

// Written out, so that proofs above know one function and not its parts.
impl<L: Founding, D: Disk + Drop> Drop for StoreKeeper<L, D> {
    fn drop(self) {
        let StoreKeeper {
            store,
            past,
            stored,
            earlier: _,
        } = self;
        drop(store);
        drop(past);
        drop(stored);
    }
}

impl<L: Founding, D: Disk> Model for StoreKeeper<L, D> {
    ghost use Rattle.keepers.specs.Storing.{StoreKeeperValue, IsStoreKeeper, storer_code};

    ghost Value = { StoreKeeperValue D };

    ghost coded = { storer_code D.code };

    ghost view = { λ s. record { store = s.store; entries = s.past.entries; stored = s.stored; earlier = s.earlier } };

    ghost invariant = { λ s. IsStoreKeeper D.honest D.view L.base
        (record { store = s.store; entries = s.past.entries; stored = s.stored; earlier = s.earlier }) };
}

impl<L: Founding, D: Disk> StoreKeeper<L, D> {
    /// Continues from the disk of an opened store and its segment in use, with the history that begins here, and the
    /// right to count what is stored of it.
    pub fn new(disk: D, segment: Segment, past: Past<L>, stored: Storing<L>) -> Self
        requires none { past.entries ≡ [] }
        requires none_stored { stored ≡ 0 }
        requires base { LawfulState L.base × Acyclic L.base.ipc }
        requires kept { D.honest → IsKept (D.view disk) segment L.base }
        ensures { result ≡ record {
          store = record {
            disk = disk;
            segment = segment;
            failed = false;
            checkpoint = None;
          };
          entries = [];
          stored = 0;
          earlier = 0;
        } }
    {
        StoreKeeper {
            store: StoreHalf::new(disk, segment),
            past,
            stored,
            earlier: 0,
        }
    }

    /// Returns how many records of the history are stored: a crash leaves at least that many.
    pub fn stored(&self) -> u64
        ensures stored { result ≡ self.now.stored }
        ensures left { D.honest → (c : Slots) → MayLeave (D.view self.now.store.disk) c
            → StandsFor L.base self.now.stored (records_of self.now.entries) c }
    {
        self.stored.count()
    }

    /// What is known to be stored is: a crash leaves at least that many records.
    pub fn covers<R: Wait>(&mut self, rt: &R, mark: &Mark<L>, known: Stored<L>)
        ensures same { self.new ≡ self.old }
        ensures covered { known ≤ self.old.stored }
        ensures left { D.honest → (c : Slots) → MayLeave (D.view self.old.store.disk) c
            → StandsFor L.base known (records_of self.old.entries) c }
    {
        let _ = self.stored();
        self.stored.covers(rt, mark, known);
    }

    /// Returns whether the device failed; then the store has to be opened again.
    pub fn has_failed(&self) -> bool
        ensures { result ≡ self.now.store.failed }
    {
        self.store.has_failed()
    }

    /// The epoch whose batches are stored now.
    pub fn epoch(&self) -> u64
        ensures { result ≡ self.now.store.segment.epoch }
    {
        self.store.epoch()
    }

    /// Returns whether a checkpoint is under way.
    pub fn is_checkpointing(&self) -> bool
        ensures { result ≡ is_some self.now.store.checkpoint }
    {
        self.store.is_checkpointing()
    }

    /// Returns whether some records that led to a checkpoint's state aren't stored yet, and the device works.
    pub fn is_after(&self) -> bool
        ensures { MatchBool result ((self.now.stored < self.now.earlier) × (self.now.store.failed ≡ false))
            ((self.now.earlier ≤ self.now.stored) ⊎ (self.now.store.failed ≡ true)) }
    {
        self.stored.count() < self.earlier && !self.store.has_failed()
    }

    /// The disk of the store.
    pub fn into_disk(self) -> D
        ensures disk { result ≡ self.store.disk }
        ensures left { D.honest → (c : Slots) → MayLeave (D.view result) c
            → StandsFor L.base self.stored (records_of self.entries) c }
    {
        let StoreKeeper {
            store,
            past: _,
            stored: _,
            earlier: _,
        } = self;
        store.into_disk()
    }

    /// The disk of the store, and what it knows of the history.
    pub fn into_parts(self) -> (D, Past<L>)
        ensures disk { result.0 ≡ self.store.disk }
        ensures past { result.1.entries ≡ self.entries }
        ensures recorded { IsRecorded L.base self.entries }
        ensures left { D.honest → (c : Slots) → MayLeave (D.view result.0) c
            → StandsFor L.base self.stored (records_of self.entries) c }
    {
        let StoreKeeper {
            store,
            past,
            stored: _,
            earlier: _,
        } = self;
        (store.into_disk(), past)
    }

    /// Learns a history that it is in, or that is in it. Returns whether it did.
    fn learn(&mut self, past: &mut Past<L>) -> bool
        requires { IsRecorded L.base past.old.entries }
        ensures same { past.new ≡ past.old }
        ensures learned { result ≡ true → Begins past.old.entries self.new.entries }
        ensures begins { Begins self.old.entries self.new.entries }
        ensures rest { self.new ≡ record self.old { entries = self.new.entries } }
    {
        self.past.catch_up(past).is_ok()
    }

    /// Stores a load, if it is the next one and its segment is in use: all of it or nothing. At `Ok` it is on the disk,
    /// and what comes with its receipt knows for good how many records are stored. Else it comes back.
    ///
    /// With `Store(Device)` it isn't known whether it is stored until the store is opened again; from then on
    /// `Store(Failed)` is the only answer. `Store(Full)`, `NotNow`, `NoMemory`: nothing was written.
    pub fn append<R: Wait>(
        &mut self,
        rt: &R,
        mark: &Mark<L>,
        load: Load<L>,
    ) -> Result<(Receipt, Stored<L>), (NotStored, Load<L>)>
        ensures stored { StoresLoad self.old self.new load result }
        ensures next { OnOk result (IsNext self.old.store self.old.stored load) }
        ensures not_now { IfErr result
            (λ fault. fault.0 ≡ NotStored.NotNow → IsNext self.old.store self.old.stored load → ⊥) }
        ensures back { GivesLoadBack self.old self.new load result }
        ensures unwritten { WritesNothingElse self.old.store self.new.store result }
        ensures quiet { OnOk result (D.failed_calls self.new.store.disk ≡ D.failed_calls self.old.store.disk) }
        ensures calls { D.calls self.new.store.disk ≤ D.calls self.old.store.disk + 4 }
        ensures device { CountsDevice (D.failed_calls self.old.store.disk) (D.failed_calls self.new.store.disk) result }
        ensures failed { HadFailed self.old.store result }
        ensures only_failed { OnlyFails self.old self.new load result }
        ensures full { WouldOverfill self.old.store load result }
        ensures faults { IfErr result (λ fault. IsWhyNotStored fault.0) }
        ensures earlier { self.new.earlier ≡ self.old.earlier }
        ensures begins { Begins self.old.entries self.new.entries }
        ensures any_moment { D.honest → LosesNothing D.view L.base self.old self.new }
    {
        if self.has_failed() {
            return Err((NotStored::Store(StoreFault::Failed), load));
        }
        let mut load = load;
        if !self.learn(&mut load.past) {
            return Err((NotStored::NoMemory, load));
        }
        if !self.is_next(&load) {
            return Err((NotStored::NotNow, load));
        }
        self.store_next(rt, mark, load)
    }

    /// Returns whether a load is the next one, and of the segment in use.
    fn is_next(&self, load: &Load<L>) -> bool
        ensures { MatchBool result (IsNext self.now.store self.now.stored load.now)
            (IsNext self.now.store self.now.stored load.now → ⊥) }
    {
        load.first == self.stored.count()
            && load.taken.epoch() == self.store.epoch()
            && load.number == self.store.records()
    }

    /// Stores the next load.
    fn store_next<R: Wait>(
        &mut self,
        rt: &R,
        mark: &Mark<L>,
        load: Load<L>,
    ) -> Result<(Receipt, Stored<L>), (NotStored, Load<L>)>
        requires next { IsNext self.old.store self.old.stored load }
        requires begins { Begins load.entries self.old.entries }
        ensures stored { StoresLoad self.old self.new load result }
        ensures back { GivesLoadBack self.old self.new load result }
        ensures fault { IfErr result (λ fault. fault.0 ≡ NotStored.NotNow → ⊥) }
        ensures unwritten { WritesNothingElse self.old.store self.new.store result }
        ensures quiet { OnOk result (D.failed_calls self.new.store.disk ≡ D.failed_calls self.old.store.disk) }
        ensures calls { D.calls self.new.store.disk ≤ D.calls self.old.store.disk + 4 }
        ensures device { CountsDevice (D.failed_calls self.old.store.disk) (D.failed_calls self.new.store.disk) result }
        ensures failed { HadFailed self.old.store result }
        ensures full { WouldOverfill self.old.store load result }
        ensures faults { IfErr result (λ fault. IsWhyNotStored fault.0) }
        ensures earlier { self.new.earlier ≡ self.old.earlier }
        ensures entries { self.new.entries ≡ self.old.entries }
        ensures any_moment { D.honest → LosesNothing D.view L.base self.old self.new }
    {
        let Load {
            taken,
            past,
            first,
            number,
        } = load;
        let count = u64::from(taken.count());
        // The history has this many records, and no sum exceeds that.
        let _ = self.past.len();
        match self.store.append(taken) {
            Ok(receipt) => {
                self.stored.add(rt, mark, count);
                Ok((receipt, self.stored.stored(mark)))
            }
            Err((fault, taken)) => {
                let load = Load {
                    taken,
                    past,
                    first,
                    number,
                };
                Err((NotStored::Store(fault), load))
            }
        }
    }

    /// Begins a checkpoint with the state at the end of the epoch in use. It writes nothing. If it can't begin, the
    /// state comes back.
    pub fn begin(&mut self, end: End<L>) -> Result<(), (NotBegun, End<L>)>
        ensures begun { OnOk result (self.new.store ≡ record self.old.store { checkpoint = Some (begun end.cut) }) }
        ensures earlier { OnOk result (self.new.earlier ≡ end.earlier) }
        ensures possible { OnOk result (CanBegin self.old.store end) }
        ensures not_now { IfErr result (λ fault. fault.0 ≡ NotBegun.NotNow → CanBegin self.old.store end → ⊥) }
        ensures back { IfErr result (λ fault. (fault.1 ≡ end) × (self.new.store ≡ self.old.store)
            × (self.new.earlier ≡ self.old.earlier)) }
        ensures stored { self.new.stored ≡ self.old.stored }
        ensures begins { Begins self.old.entries self.new.entries }
        ensures any_moment { D.honest → LosesNothing D.view L.base self.old self.new }
    {
        let mut end = end;
        if !self.learn(&mut end.past) {
            return Err((NotBegun::NoMemory, end));
        }
        if !self.can_begin(&end) {
            return Err((NotBegun::NotNow, end));
        }
        self.begin_now(end);
        Ok(())
    }

    /// Returns whether a checkpoint can be begun with this state.
    fn can_begin(&self, end: &End<L>) -> bool
        ensures { MatchBool result (CanBegin self.now.store end.now) (CanBegin self.now.store end.now → ⊥) }
    {
        !self.store.has_failed()
            && !self.store.is_checkpointing()
            && self.store.epoch() < u64::MAX
            && end.epoch == self.store.epoch() + 1
    }

    fn begin_now(&mut self, end: End<L>)
        requires can { CanBegin self.old.store end }
        requires begins { Begins end.entries self.old.entries }
        ensures { self.new ≡ record self.old
            { store = record self.old.store { checkpoint = Some (begun end.cut) }; earlier = end.earlier } }
    {
        let End {
            cut,
            epoch: _,
            past: _,
            earlier,
        } = end;
        self.store.begin(cut);
        self.earlier = earlier;
    }
}
