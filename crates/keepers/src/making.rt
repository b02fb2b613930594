ghost use Rattle.std.specs.Prelude.{◌≡◌, ◌⊎◌, ◌≤◌, ◌<◌, ◌-◌, ◌+◌, ◌^◌, ◌++◌, [], false, true, length, Some, IfOk, IfSome, IfNone, IsErrOf, OnOk, OnErr, MatchBool};
ghost use Rattle.history.specs.Entries.{Begins};
ghost use Rattle.ipc_model.specs.calls.Step.{has_record};
ghost use Rattle.ipc_model.specs.state.Circular.{Acyclic};
ghost use Rattle.ipc_model.specs.state.LawfulState.{LawfulState};
ghost use Rattle.keepers.specs.Destroying.{DestroysKnown};
ghost use Rattle.keepers.specs.Keeping.{Applies, Ends, IsApart, IsSame, Learns, Loads, Makes, blocks_in, both_learned, entries_in, entries_of_call, first_core, first_number};
ghost use Rattle.keepers.specs.Tokens.{IsHistory};
ghost use Rattle.system.specs.Halves.{CanCut, CannotTake, Gives, IsFullFor, with_receipt};
ghost use Rattle.waiting.specs.Places.{names};
ghost use Rattle.waiting.specs.Waiting.{Wakes};

use crate::SessionFault;
use crate::both_pasts::BothPasts;
use crate::load::{End, Load};
use history::{CatchUpFault, EntryBlock, Founding, Past};
use ipc_model::Call;
use std::alloc::{AllocError, Global};
use std::marker::Model;
use std::sync::Arc;
use store_half::{Finished, Receipt};
use system::{Kernel, KernelHalf, Ticket};
use waiting::Places;

/// The half that makes calls, together with the history of what it made.
#[derive(Drop)]
pub(crate) struct KernelCore<L: Founding> {
    alloc: Global,
    half: KernelHalf,

    // `None` while a call is being made.
    past: Option<Past<L>>,

    // Numbers of records: how many were in the epoch log when it was begun, were made before the epoch, were taken to
    // be stored, and are stored according to receipts; and how many the log of the previous epoch has.
    opened: u64,
    earlier: u64,
    taken: u64,
    handed: u64,
    older: u64,
}

impl<L: Founding> Model for KernelCore<L> {
    ghost use Rattle.std.specs.Prelude.{◌≡◌, ◌≤◌, MatchOption};
    ghost use Rattle.keepers.specs.Keeping.{KernelCoreValue, IsKernelCore, kernel_core_code};

    ghost Value = { KernelCoreValue };

    ghost coded = { kernel_core_code };

    ghost view = { λ c. record {
      half = c.half;
      past = c.past;
      opened = c.opened;
      earlier = c.earlier;
      taken = c.taken;
      older = c.older;
    } };

    ghost invariant = { λ c. (c.half.handed ≡ c.handed) × (c.handed ≤ c.taken)
        × MatchOption c.past ⊥ (λ past. IsKernelCore L.base c.half past.entries c.opened c.earlier c.taken c.older) };
}

impl<L: Founding> KernelCore<L> {
    /// Continues from a state in an epoch whose segment holds `records` records, with the history that begins here.
    pub(crate) fn new(
        alloc: Global,
        kernel: Kernel,
        epoch: u64,
        records: u64,
        past: Past<L>,
    ) -> Self
        requires base { (kernel ≡ L.base) × LawfulState L.base × Acyclic L.base.ipc }
        requires none { past.entries ≡ [] }
        ensures { result ≡ first_core kernel epoch records past }
    {
        KernelCore {
            alloc,
            half: KernelHalf::new(alloc, kernel, epoch, records),
            past: Some(past),
            opened: records,
            earlier: 0,
            taken: 0,
            handed: 0,
            older: 0,
        }
    }

    /// The kernel, as it stands.
    pub(crate) fn kernel(&self) -> &Kernel
        ensures { result.now ≡ self.now.half.kernel }
    {
        self.half.kernel()
    }

    /// Returns how many records were made, which are all of the history.
    pub(crate) fn made(&self) -> u64
        ensures made { result ≡ self.now.half.log.made }
        ensures all { IfSome (entries_in self.now) (λ entries. result ≡ length entries) }
    {
        self.half.made()
    }

    /// Makes a call of the session with this number, whose task is attached to this space. The session has then seen
    /// all of the history.
    pub(crate) fn apply(
        &mut self,
        number: u32,
        space: u32,
        seen: Past<L>,
        call: &Call,
        places: &mut Places,
    ) -> (Past<L>, Result<Ticket, SessionFault>)
        requires { IsHistory L.base seen.entries }
        ensures wakes { IfOk result.1 (λ ticket. Wakes self.old.half.kernel.ipc self.new.half.kernel.ipc (names places.new)) }
        ensures given { IfOk result.1
            (λ ticket. Applies L.base number space seen.entries call.now ticket result.0.entries self.old.half.log.made
            self.new.half.log.made) }
        ensures makes { IfOk result.1 (λ ticket. Makes self.old number space call.now ticket self.new) }
        ensures level { OnOk result.1 (entries_in self.new ≡ Some result.0.entries) }
        ensures known { IfOk result.1 (λ ticket. DestroysKnown space call.now ticket) }
        ensures full { IsErrOf result.1 SessionFault.EpochFull → IsFullFor self.old.half space call.now }
        ensures apart { IsErrOf result.1 SessionFault.Apart → IsApart self.old.past seen }
        ensures err { OnErr result.1 (Learns L.base seen.entries result.0.entries × (self.new ≡ self.old)) }
    {
        let Some(kept) = self.past.take() else {
            unreachable!()
        };
        let (kept, mine, made) = apply_with_witness(
            self.alloc,
            &mut self.half,
            number,
            space,
            kept,
            seen,
            call,
            places,
        );
        self.past = Some(kept);
        (mine, made)
    }

    /// Makes a session learn all of the history. Nothing else changes.
    pub(crate) fn show(&mut self, seen: &mut Past<L>) -> Result<(), SessionFault>
        requires { IsHistory L.base seen.old.entries }
        ensures same { self.new ≡ self.old }
        ensures level { OnOk result (entries_in self.old ≡ Some seen.new.entries) }
        ensures learns { Learns L.base seen.old.entries seen.new.entries }
    {
        let Some(past) = &mut self.past else {
            unreachable!()
        };
        level(seen, past)
    }

    /// Takes records that wait to be stored, with the history up to them. `None` while a load is out, or if no record
    /// waits.
    pub(crate) fn take(&mut self) -> Result<Option<Load<L>>, AllocError>
        ensures taken { IfOk result (λ load. IfSome load (λ load. Loads self.old load self.new)) }
        ensures none { IfOk result (λ load. IfNone load (CannotTake self.old.half × (self.new ≡ self.old))) }
        ensures err { OnErr result (self.new ≡ self.old) }
    {
        let past = self.again()?;
        let epoch = self.half.epoch();
        // No number below exceeds these.
        let _ = self.half.log_length();
        let _ = past.len();
        let Some(taken) = self.half.take() else {
            return Ok(None);
        };
        let first = self.taken;
        let number = first_number(
            self.opened,
            self.earlier,
            self.older,
            first,
            taken.epoch() < epoch,
        );
        self.taken = first + u64::from(taken.count());
        Ok(Some(Load {
            taken,
            past,
            first,
            number,
        }))
    }

    /// Learns that the load that was out is stored.
    pub(crate) fn durable(&mut self, receipt: Receipt)
        ensures known { receipt + self.old.half.handed ≤ self.old.taken
            → self.new ≡ record self.old { half = with_receipt self.old.half receipt } }
        ensures unknown { self.old.taken < receipt + self.old.half.handed → self.new ≡ self.old }
    {
        let count = u64::from(receipt.count());
        // No receipt is for more than was taken.
        if count <= self.taken - self.handed {
            self.handed += count;
            self.half.durable(receipt);
        }
    }

    /// Learns that a checkpoint is over.
    pub(crate) fn finished(&mut self, receipt: Finished)
        ensures { self.new ≡ record self.old { half = record self.old.half { is_cut = false } } }
    {
        self.half.finished(receipt);
    }

    /// Returns whether records wait to be taken.
    pub(crate) fn is_waiting(&self) -> bool
        ensures { MatchBool result (self.now.taken < self.now.half.log.made) (self.now.half.log.made ≤ self.now.taken) }
    {
        self.taken < self.half.made()
    }

    /// Returns how many records the epoch log has.
    pub(crate) fn log_length(&self) -> u64
        ensures { result ≡ self.now.half.log.length }
    {
        self.half.log_length()
    }

    /// Begins the next epoch, whose entries go into this entry block, with a snapshot of the state. `None` while a
    /// checkpoint is under way, or records of the previous epoch wait.
    pub(crate) fn cut(
        &mut self,
        block: Arc<EntryBlock, Global>,
    ) -> Result<Option<End<L>>, AllocError>
        ensures cut { IfOk result (λ end. IfSome end (λ end. Ends self.old end self.new)) }
        ensures not_now { IfOk result (λ end. IfNone end ((CanCut self.old.half → ⊥) × IsSame self.old self.new)) }
        ensures err { OnErr result (IsSame self.old self.new) }
    {
        self.begin_block(block)?;
        let past = self.again()?;
        let length = self.half.log_length();
        let cut = match self.half.cut(self.alloc) {
            Ok(Some(cut)) => cut,
            Ok(None) => {
                drop(past);
                return Ok(None);
            }
            Err(refused) => {
                drop(past);
                return Err(refused);
            }
        };
        let earlier = past.len() as u64;
        self.opened = 0;
        self.earlier = earlier;
        self.older = length;
        Ok(Some(End {
            cut,
            epoch: self.half.epoch(),
            past,
            earlier,
        }))
    }

    /// Goes on in another entry block, unless the one in use has no entry yet.
    fn begin_block(&mut self, block: Arc<EntryBlock, Global>) -> Result<(), AllocError>
        ensures { IsSame self.old self.new }
    {
        let Some(past) = &mut self.past else {
            unreachable!()
        };
        if past.len() == past.start() {
            return Ok(());
        }
        past.begin_block(block).or(Err(AllocError))
    }

    /// The history, with all that was made.
    pub(crate) fn into_past(self) -> Past<L>
        ensures past { self.past ≡ Some result }
        ensures history { IsHistory L.base result.entries }
        ensures all { self.half.log.made ≡ length result.entries }
    {
        let KernelCore {
            alloc: _,
            half,
            past,
            opened: _,
            earlier: _,
            taken: _,
            handed: _,
            older: _,
        } = self;
        drop(half);
        let Some(past) = past else { unreachable!() };
        past
    }

    /// The history again.
    pub(crate) fn again(&mut self) -> Result<Past<L>, AllocError>
        ensures same { self.new ≡ self.old }
        ensures history { IfOk result (λ past. IsHistory L.base past.entries) }
        ensures entries { IfOk result (λ past. entries_in self.old ≡ Some past.entries) }
        ensures block { IfOk result (λ past. blocks_in self.old ≡ Some past.blocks) }
    {
        let Some(past) = &mut self.past else {
            unreachable!()
        };
        past.again()
    }
}

/// Makes a call of the session with this number, whose task is attached to this space, together with what is kept of
/// the history and what the session has seen of it, which is then all.
fn apply_with_witness<L: Founding>(
    alloc: Global,
    half: &mut KernelHalf,
    number: u32,
    space: u32,
    kept: Past<L>,
    seen: Past<L>,
    call: &Call,
    places: &mut Places,
) -> (Past<L>, Past<L>, Result<Ticket, SessionFault>)
    ensures wakes { IfOk result.2 (λ ticket. Wakes half.old.kernel.ipc half.new.kernel.ipc (names places.new)) }
    ensures given { IfOk result.2 (λ ticket. Gives half.old space call.now ticket half.new) }
    ensures kept { IfOk result.2 (λ ticket. result.0.entries ≡ kept.entries
        ++ entries_of_call number space call.now ticket) }
    ensures seen { OnOk result.2 (result.1.entries ≡ result.0.entries) }
    ensures begins { Begins seen.entries result.1.entries }
    ensures more { OnOk result.2 (Begins seen.entries kept.entries) }
    ensures full { IsErrOf result.2 SessionFault.EpochFull → IsFullFor half.old space call.now }
    ensures apart { IsErrOf result.2 SessionFault.Apart → IsApart (Some kept) seen }
    ensures err { OnErr result.2 ((half.new ≡ half.old) × (result.0 ≡ kept)
        × ((result.1.entries ≡ seen.entries) ⊎ (result.1.entries ≡ kept.entries))) }
{
    let mut mine = seen;
    let mut kept = kept;
    if let Err(fault) = level(&mut mine, &mut kept) {
        return (kept, mine, Err(fault));
    }
    let both_pasts = BothPasts {
        alloc,
        number,
        kept,
        mine,
        lacks_cell: false,
    };
    let (both_pasts, made) = submit_with_both(half, space, call, both_pasts, places);
    let BothPasts {
        alloc: _,
        number: _,
        kept,
        mine,
        lacks_cell: _,
    } = both_pasts;
    (kept, mine, made)
}

/// Makes a call of which both pasts learn, if it has a record.
fn submit_with_both<L: Founding>(
    half: &mut KernelHalf,
    space: u32,
    call: &Call,
    both_pasts: BothPasts<L>,
    places: &mut Places,
) -> (BothPasts<L>, Result<Ticket, SessionFault>)
    ensures given { IfOk result.1 (λ ticket. Gives half.old space call.now ticket half.new) }
    ensures wakes { IfOk result.1 (λ ticket. Wakes half.old.kernel.ipc half.new.kernel.ipc (names places.new)) }
    ensures learned { IfOk result.1 (λ ticket. has_record call.now ticket.answer ≡ true
        → result.0 ≡ both_learned both_pasts space call.now ticket.answer) }
    ensures unlearned { IfOk result.1 (λ ticket. has_record call.now ticket.answer ≡ false → result.0 ≡ both_pasts) }
    ensures full { IsErrOf result.1 SessionFault.EpochFull → IsFullFor half.old space call.now }
    ensures apart { IsErrOf result.1 SessionFault.Apart → ⊥ }
    ensures err { OnErr result.1 ((half.new ≡ half.old) × (result.0 ≡ both_pasts)) }
{
    let (both_pasts, made) = half.submit_with_witness(space, call, both_pasts, places);
    match made {
        Ok(ticket) => (both_pasts, Ok(ticket)),
        Err(fault) => {
            let fault = both_pasts.session_fault(fault);
            (both_pasts, Err(fault))
        }
    }
}

/// The number in its epoch of the first record that wasn't taken, after `taken` that were: in the previous epoch, or in
/// this one.
fn first_number(opened: u64, earlier: u64, older: u64, taken: u64, is_older: bool) -> u64
    requires { MatchBool is_older ((taken ≤ earlier) × (earlier - taken ≤ older))
        ((earlier ≤ taken) × (opened + (taken - earlier) < 2 ^ 64)) }
    ensures { result ≡ first_number opened earlier older taken is_older }
{
    if is_older {
        older - (earlier - taken)
    } else {
        opened + (taken - earlier)
    }
}

/// Makes a session learn all of the history. `Apart` if it can't, since it is ahead, or in an entry block for which
/// that isn't known.
fn level<L: Founding>(mine: &mut Past<L>, kept: &mut Past<L>) -> Result<(), SessionFault>
    ensures same { kept.new ≡ kept.old }
    ensures blocks { OnOk result (mine.new.blocks ≡ kept.old.blocks) }
    ensures level { OnOk result (mine.new.entries ≡ kept.old.entries) }
    ensures begins { Begins mine.old.entries mine.new.entries }
    ensures full { IsErrOf result SessionFault.EpochFull → ⊥ }
    ensures apart { IsErrOf result SessionFault.Apart → IsApart (Some kept.old) mine.old }
    ensures err { OnErr result ((mine.new.entries ≡ mine.old.entries) ⊎ (mine.new.entries ≡ kept.old.entries)) }
{
    match mine.catch_up(kept) {
        Ok(()) => {
            if mine.blocks() != kept.blocks() || mine.len() != kept.len() {
                return Err(SessionFault::Apart);
            }
            Ok(())
        }
        Err(CatchUpFault::NoMemory) => Err(SessionFault::NoMemory),
        Err(CatchUpFault::Apart) => Err(SessionFault::Apart),
    }
}
