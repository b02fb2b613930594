ghost use Rattle.std.specs.Prelude.{◌≡◌, ◌+◌, ◌<◌, ◌≤◌, ◌||◌, true, false, if◌then◌else◌, length, IfErr, IfOk, MatchBool, OnOk, OnErr, IsErrOf};
ghost use Rattle.disk.specs.Moments.{LeftSince, Passes};
ghost use Rattle.disk.specs.Slots.{Slots};
ghost use Rattle.store_layout.specs.Gates.{StandForState};
ghost use Rattle.system.specs.Calling.{IsResting};
ghost use Rattle.system.specs.Core.{first_system};
ghost use Rattle.system.specs.Counting.{counted};
ghost use Rattle.system.specs.GoingOn.{GoesOn, IsStanding};
ghost use Rattle.server.specs.Keeping.{AnswersAsked, AnswersKept, BreaksKept, FailsAsked, FailsKept, IsBeforeOrAfter, IsCounted, IsHeld, IsMoved, IsShortOf, RestsKept};
ghost use Rattle.frame_service.specs.Confining.{attach_to};
ghost use Rattle.frame_service.specs.Serving.{StepOrShortage};
ghost use Rattle.ipc_model.specs.calls.Step.{has_record, succeeded};
ghost use Rattle.ipc_model.specs.encodings.Encodings.{reply_encoding};
ghost use Rattle.calls.specs.declared.request.Request.{Request};
ghost use Rattle.ipc_model.specs.declared.call.Call.{Call};
ghost use Rattle.ipc_model.specs.declared.reply.Reply.{Reply};
ghost use Rattle.store_fault.specs.declared.fault.StoreFault.{StoreFault};

use calls::Request;
use codes::{CHECKPOINT_RECORDS, FIRST_SPACE, MAX_FRAME_CONTENT};
use disk::Disk;
use frame_service::{Caller, Shown, attach_to, is_kept, shortage};
use ipc_model::{Call, Reply};
use std::alloc::Global;
use std::marker::Model;
use store_fault::StoreFault;
use system::{CallFault, Opened, System};

/// The caller of a single connection: the core over an opened store that nobody else uses.
pub struct Alone<D: Disk> {
    alloc: Global,
    system: System<D>,
    space: u32,
    confined: bool,
    failed: bool,
}

// Written out, so that proofs above know one function and not its parts.
impl<D: Disk + Drop> Drop for Alone<D> {
    fn drop(self) {
        let Alone {
            alloc: _,
            system,
            space: _,
            confined: _,
            failed: _,
        } = self;
        drop(system);
    }
}

impl<D: Disk> Model for Alone<D> {
    ghost use Rattle.std.specs.Prelude.{◌≡◌, false};
    ghost use Rattle.server.specs.Keeping.{AloneValue, alone_code};
    ghost use Rattle.system.specs.Calling.{IsResting};
    ghost use Rattle.system.specs.GoingOn.{IsStanding};

    ghost Value = { AloneValue D };

    ghost coded = { alone_code D.code };

    ghost view = { λ a. record {
      kernel = a.system.core.kernel;
      store = a.system.store;
      space = a.space;
      confined = a.confined;
      failed = a.failed;
    } };

    // Until a call fails, nothing waits between calls, and the store holds what the kernel holds.
    ghost invariant = { λ a. a.failed ≡ false → IsResting a.system
        × (D.honest → IsStanding D.view a.system.store a.system.core.kernel) };
}

impl<D: Disk> Alone<D> {
    /// A caller that continues from an opened store. It is attached to space 1, and not confined.
    pub fn new(alloc: Global, opened: Opened<D>) -> Self
        ensures kernel { result.kernel ≡ opened.kernel }
        ensures store { result.store ≡ (first_system opened.kernel opened.disk opened.segment).store }
        ensures space { result.space ≡ 1 }
        ensures confined { result.confined ≡ false }
        ensures failed { result.failed ≡ false }
        // A crash leaves the state that was opened.
        ensures held { D.honest → IsHeld (D.view result.store.disk) result.kernel }
    {
        Alone {
            alloc,
            system: System::new(alloc, opened),
            space: FIRST_SPACE,
            confined: false,
            failed: false,
        }
    }

    /// The disk of the store, which is closed.
    pub fn into_disk(self) -> D
        ensures disk { result ≡ self.store.disk }
        // Until a call fails, a crash leaves what was answered.
        ensures held { D.honest → self.failed ≡ false → IsHeld (D.view result) self.kernel }
    {
        let Alone {
            alloc: _,
            system,
            space: _,
            confined: _,
            failed: _,
        } = self;
        system.into_disk()
    }
}

impl<D: Disk> Alone<D> {
    /// Makes a call, in the space that it is attached to. It is what `call` makes of a call, where it isn't confined.
    fn make(&mut self, call: Call) -> Result<Reply, StoreFault>
        ensures answers { IfOk result (λ reply. AnswersKept D.honest D.view self.old call reply self.new) }
        ensures fits { IfOk result (λ reply. length (reply_encoding reply) ≤ MAX_FRAME_CONTENT) }
        ensures fails { IfErr result (λ fault. FailsKept D.honest D.view self.old call fault self.new) }
        ensures failures { D.failed_calls self.new.store.disk ≡ counted result (D.failed_calls self.old.store.disk) }
        ensures any_moment { D.honest → self.old.failed ≡ false → (c : Slots)
            → LeftSince (D.view self.new.store.disk) (D.view self.old.store.disk).moment c
            → IsBeforeOrAfter self.old.kernel self.old.space call self.new.kernel c }
        ensures passes { D.honest → Passes (D.view self.old.store.disk) (D.view self.new.store.disk)
            (IsBeforeOrAfter self.old.kernel self.old.space call self.new.kernel) }
        ensures stored { D.honest → OnOk result (IsHeld (D.view self.new.store.disk) self.new.kernel) }
        ensures unrecorded { IfOk result (λ reply. has_record call reply ≡ false → IsMoved self.old self.new) }
        ensures err { OnErr result (self.new.failed ≡ true) }
        ensures failed { self.old.failed ≡ true → (IsErrOf result StoreFault.Failed) × (self.new ≡ self.old) }
    {
        if self.failed {
            return Err(StoreFault::Failed);
        }
        let attached = call.attached_by(self.space);
        match make_call(self.alloc, &mut self.system, self.space, &call) {
            Ok(reply) => {
                self.space = space_after(self.space, attached, &reply);
                Ok(reply)
            }
            Err(fault) => {
                self.failed = true;
                Err(fault)
            }
        }
    }

    /// Makes the attach to the space that it is attached to, which asks whether that is there and changes nothing.
    fn attach_again(&mut self) -> Result<Reply, StoreFault>
        ensures answers { IfOk result
            (λ said. AnswersKept D.honest D.view self.old (attach_to self.old.space) said self.new) }
        ensures fits { IfOk result (λ said. length (reply_encoding said) ≤ MAX_FRAME_CONTENT) }
        ensures fails { IfErr result
            (λ fault. FailsKept D.honest D.view self.old (attach_to self.old.space) fault self.new) }
        ensures failures { D.failed_calls self.new.store.disk ≡ counted result (D.failed_calls self.old.store.disk) }
        ensures any_moment { D.honest → self.old.failed ≡ false → (c : Slots)
            → LeftSince (D.view self.new.store.disk) (D.view self.old.store.disk).moment c
            → StandForState self.old.kernel c }
        ensures passes { D.honest → Passes (D.view self.old.store.disk) (D.view self.new.store.disk)
            (StandForState self.old.kernel) }
        ensures stored { D.honest → OnOk result (IsHeld (D.view self.new.store.disk) self.new.kernel) }
        ensures moved { OnOk result (IsMoved self.old self.new) }
        ensures err { OnErr result (self.new.failed ≡ true) }
        ensures failed { self.old.failed ≡ true → (IsErrOf result StoreFault.Failed) × (self.new ≡ self.old) }
    {
        self.make(attach_to(self.space))
    }
}

impl<D: Disk> Caller for Alone<D> {
    ghost answers = { AnswersAsked D.honest D.view };

    ghost fails = { FailsAsked D.honest D.view };

    ghost rests = { RestsKept D.honest D.view };

    ghost breaks = { BreaksKept D.honest D.view };

    /// Makes a call. One that has a record is stored before it is answered. Its fault is `Device`. After that the
    /// caller is of no further use, and answers `Failed`, so that no reply shows a call that was made and not stored.
    /// Running out of memory or of room is a reply. Where it is confined, an attach isn't made: it only asks whether its
    /// own space is there.
    ///
    /// Of slots that stand for a state (`StandForState`), `recover::open` returns that state, and doesn't find them
    /// damaged or of another version; a crash while it runs leaves slots that stand for it too.
    fn call(&mut self, call: Call) -> Result<Reply, StoreFault>
        ensures answers { IfOk result (λ reply. AnswersAsked D.honest D.view self.old (Request.One call) reply self.new) }
        ensures fits { IfOk result (λ reply. length (reply_encoding reply) ≤ MAX_FRAME_CONTENT) }
        ensures fails { IfErr result (λ fault. FailsAsked D.honest D.view self.old (Request.One call) fault self.new) }
        ensures failures { D.failed_calls self.new.store.disk ≡ counted result (D.failed_calls self.old.store.disk) }
        // A crash at any moment from the beginning of the call to its end leaves the state before it or the state after
        // it, also if the call fails.
        ensures any_moment { D.honest → self.old.failed ≡ false → (c : Slots)
            → LeftSince (D.view self.new.store.disk) (D.view self.old.store.disk).moment c
            → IsBeforeOrAfter self.old.kernel self.old.space call self.new.kernel c }
        ensures passes { D.honest → Passes (D.view self.old.store.disk) (D.view self.new.store.disk)
            (IsBeforeOrAfter self.old.kernel self.old.space call self.new.kernel) }
        // A crash after the reply leaves the state after the call, so nothing that was answered is lost.
        ensures stored { D.honest → OnOk result (IsHeld (D.view self.new.store.disk) self.new.kernel) }
        // A call without a record, refused or a read, changes neither the state nor the disk. Unless it attaches to
        // another space, it changes nothing at all.
        ensures unrecorded { IfOk result (λ reply. has_record call reply ≡ false → IsMoved self.old self.new) }
        ensures err { OnErr result (self.new.failed ≡ true) }
        ensures failed { self.old.failed ≡ true → (IsErrOf result StoreFault.Failed) × (self.new ≡ self.old) }
    {
        if is_kept(self.confined, &call) {
            drop(call);
            return match self.attach_again() {
                Ok(said) => Ok(Shown::ToAttach.reply(self.alloc, said)),
                Err(fault) => Err(fault),
            };
        }
        self.make(call)
    }

    /// Confines it to the space that it is attached to, where that is there. It has no record.
    fn confine(&mut self) -> Result<Reply, StoreFault>
        ensures answers { IfOk result (λ reply. AnswersAsked D.honest D.view self.old Request.Confine reply self.new) }
        ensures fits { IfOk result (λ reply. length (reply_encoding reply) ≤ MAX_FRAME_CONTENT) }
        ensures fails { IfErr result (λ fault. FailsAsked D.honest D.view self.old Request.Confine fault self.new) }
        ensures failures { D.failed_calls self.new.store.disk ≡ counted result (D.failed_calls self.old.store.disk) }
        // A crash at any moment meanwhile leaves the state as it was, also if it fails.
        ensures any_moment { D.honest → self.old.failed ≡ false → (c : Slots)
            → LeftSince (D.view self.new.store.disk) (D.view self.old.store.disk).moment c
            → StandForState self.old.kernel c }
        ensures stored { D.honest → OnOk result (IsHeld (D.view self.new.store.disk) self.new.kernel) }
        ensures err { OnErr result (self.new.failed ≡ true) }
        ensures failed { self.old.failed ≡ true → (IsErrOf result StoreFault.Failed) × (self.new ≡ self.old) }
    {
        match self.attach_again() {
            Ok(said) => {
                self.confined = confined_after(self.confined, &said);
                Ok(Shown::ToConfine.reply(self.alloc, said))
            }
            Err(fault) => Err(fault),
        }
    }

    /// Takes time after a reply: if the epoch log has `CHECKPOINT_RECORDS` records, a checkpoint is begun, and while
    /// one is under way, one step of its image is done. If an allocation for that fails, nothing changes, and it is
    /// tried again the next time. Its faults are those of `call`.
    fn rest(&mut self) -> Result<bool, StoreFault>
        ensures rests { OnOk result (RestsKept D.honest D.view self.old self.new) }
        ensures goes { IfOk result (λ is_done. MatchBool is_done
            (GoesOn D.honest D.view CHECKPOINT_RECORDS self.old.kernel self.old.store.checkpoint self.old.store
            self.new.store) (IsShortOf self.old self.new)) }
        ensures breaks { IfErr result (λ fault. BreaksKept D.honest D.view self.old fault self.new) }
        ensures failures { D.failed_calls self.new.store.disk ≡ counted result (D.failed_calls self.old.store.disk) }
        // A crash at any moment from the beginning of that time to its end leaves the state as it was, also if it
        // fails.
        ensures any_moment { D.honest → self.old.failed ≡ false → (c : Slots)
            → LeftSince (D.view self.new.store.disk) (D.view self.old.store.disk).moment c
            → StandForState self.old.kernel c }
        ensures failed { self.old.failed ≡ true → (IsErrOf result StoreFault.Failed) × (self.new ≡ self.old) }
    {
        if self.failed {
            return Err(StoreFault::Failed);
        }
        match self.system.go_on(CHECKPOINT_RECORDS) {
            Ok(()) => Ok(true),
            Err(broken) => {
                if broken == StoreFault::NoMemory {
                    return Ok(false);
                }
                self.failed = true;
                Err(broken)
            }
        }
    }
}

/// The space that a caller is attached to after a call with this reply.
fn space_after(space: u32, attached: u32, reply: &Reply) -> u32
    ensures { result ≡ (if succeeded reply.now then attached else space) }
{
    if reply.is_success() { attached } else { space }
}

/// Returns whether a caller is confined after the attach that asked whether its space is there.
fn confined_after(confined: bool, said: &Reply) -> bool
    ensures { result ≡ (succeeded said.now || confined) }
{
    if said.is_success() { true } else { confined }
}

/// Makes a call, and stores its record before it is answered. If memory or room runs out, it isn't made.
fn make_call<D: Disk>(
    alloc: Global,
    system: &mut System<D>,
    space: u32,
    call: &Call,
) -> Result<Reply, StoreFault>
    requires { IsResting system.old }
    ensures answers { IfOk result
        (λ reply. StepOrShortage system.old.core.kernel space call.now reply system.new.core.kernel) }
    ensures frame { IfOk result (λ reply. length (reply_encoding reply) ≤ MAX_FRAME_CONTENT) }
    ensures passes { D.honest → IsStanding D.view system.old.store system.old.core.kernel
        → Passes (D.view system.old.store.disk) (D.view system.new.store.disk)
        (IsBeforeOrAfter system.old.core.kernel space call.now system.new.core.kernel) }
    ensures kept { D.honest → IsStanding D.view system.old.store system.old.core.kernel
        → OnOk result (IsStanding D.view system.new.store system.new.core.kernel) }
    ensures unrecorded { IfOk result (λ reply. has_record call.now reply ≡ false
        → (system.new.core.kernel ≡ system.old.core.kernel) × (system.new.store ≡ system.old.store)) }
    ensures counted { IfOk result (λ reply. IsCounted system.old.store call.now reply system.new.store) }
    ensures rests { OnOk result (IsResting system.new) }
    ensures device { IfErr result (λ fault. fault ≡ StoreFault.Device) }
    ensures failures { D.failed_calls system.new.store.disk ≡ counted result (D.failed_calls system.old.store.disk) }
{
    match system.call(space, call) {
        Ok(reply) => Ok(reply),
        Err(CallFault::Submit(_)) => Ok(shortage(alloc, call)),
        Err(CallFault::Store(fault)) => Err(fault),
    }
}
