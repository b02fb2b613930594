//! Indexes of names by the ports of their entries, as plain tables.
ghost use Rattle.std.specs.Prelude.{◌≡◌, [], OnOk, option_and_then};
ghost use Rattle.std.specs.FinMap as map;
ghost use Rattle.ipc_model.specs.state.Ipc.{received_port, request_of};
ghost use Rattle.spaces.specs.Indexes.{IsMoved, SameBefore, AreRolledBack, AreCommitted};
ghost use Rattle.spaces.specs.Looking.{port_shared};
ghost use Rattle.tracked_map.specs.Tracked.{at_rest};

use crate::counting::{are_words, count_anew};
use ipc_model::Entry;
use port_indexes::{PairCounts, PlaceIndex};
use std::alloc::{AllocError, Global};

/// Indexes of places, where a place is a space and a name as one number. They list places by the port whose receive
/// right the name holds, by the port of any other right of the name, and by the target of its dead-name request. The
/// send and send-once rights of names are counted, and the places that changed since the last commit or rollback are
/// noted.
#[derive(Drop)]
pub(crate) struct NameIndexes {
    pub(crate) sharers: PlaceIndex,
    pub(crate) requesters: PlaceIndex,
    pub(crate) receivers: PlaceIndex,
    pub(crate) counts: PairCounts,
    pub(crate) changed: Vec<u64>,
}

impl NameIndexes {
    /// Creates empty indexes. It allocates nothing.
    pub(crate) fn new(alloc: Global) -> Self
        ensures held { result.sharers ≡ at_rest map.empty }
        ensures requested { result.requesters ≡ at_rest map.empty }
        ensures received { result.receivers ≡ at_rest map.empty }
        ensures counted { result.counts ≡ at_rest map.empty }
        ensures noted { result.changed.items ≡ [] }
    {
        NameIndexes {
            sharers: PlaceIndex::new(alloc),
            requesters: PlaceIndex::new(alloc),
            receivers: PlaceIndex::new(alloc),
            counts: PairCounts::new(alloc),
            changed: Vec::new(alloc),
        }
    }

    /// Replaces the entry at a place. If an allocation fails, the changes must be rolled back.
    pub(crate) fn change(
        &mut self,
        place: u64,
        former: Option<Entry>,
        entry: Option<Entry>,
    ) -> Result<(), AllocError>
        ensures ok { OnOk result (IsMoved self.old self.new place former entry) }
        ensures before { SameBefore self.old self.new }
    {
        self.changed.push(place)?;
        self.sharers
            .change(place, shared_of(former), shared_of(entry))?;
        self.requesters
            .change(place, target_of(former), target_of(entry))?;
        self.receivers
            .change(place, received_of(former), received_of(entry))?;
        count_anew(&mut self.counts, former, entry)?;
        are_words(former);
        are_words(entry);
        Ok(())
    }

    /// Commits the changes. It allocates nothing.
    pub(crate) fn commit(&mut self)
        ensures { AreCommitted self.old self.new }
    {
        self.sharers.commit();
        self.requesters.commit();
        self.receivers.commit();
        self.counts.commit();
        self.changed.clear();
    }

    /// Rolls the changes back. It allocates nothing.
    pub(crate) fn roll_back(&mut self)
        ensures { AreRolledBack self.old self.new }
    {
        self.sharers.roll_back();
        self.requesters.roll_back();
        self.receivers.roll_back();
        self.counts.roll_back();
        self.changed.clear();
    }
}

/// Returns the port of an entry's right, unless it is the receive right.
fn shared_of(entry: Option<Entry>) -> Option<u64>
    ensures { result ≡ option_and_then port_shared entry }
{
    match entry {
        Some(Entry::Port(rights)) if !rights.receive => Some(rights.port),
        Some(Entry::SendOnce { port, .. }) => Some(port),
        _ => None,
    }
}

/// Returns the target of an entry's dead-name request.
pub(crate) fn target_of(entry: Option<Entry>) -> Option<u64>
    ensures { result ≡ option_and_then request_of entry }
{
    match entry {
        Some(Entry::Port(rights)) => rights.dead_name_target,
        Some(
            Entry::SendOnce {
                dead_name_target,
                ..
            },
        ) => dead_name_target,
        _ => None,
    }
}

/// Returns the port whose receive right an entry holds.
fn received_of(entry: Option<Entry>) -> Option<u64>
    ensures { result ≡ option_and_then received_port entry }
{
    match entry {
        Some(Entry::Port(rights)) if rights.receive => Some(rights.port),
        _ => None,
    }
}
