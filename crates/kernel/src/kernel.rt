ghost use Rattle.std.specs.Prelude.{◌≡◌, ◌≤◌, true, false, length, IfOk, OnErr, IsErrOf, IfSome, IfNone};
ghost use Rattle.codes.specs.declared.limits.TheConstants.{MAX_FRAME_CONTENT};
ghost use Rattle.ipc_model.specs.state.State.{State, opening_state};
ghost use Rattle.ipc_model.specs.calls.Step.{Replays, Step, has_record, number_of_call};
ghost use Rattle.ipc_model.specs.encodings.Encodings.{number_of_reply, reply_encoding};
ghost use Rattle.ipc_laws.specs.ImageLaws.{Encodable};
ghost use Rattle.ipc_laws.specs.RecordedSteps.{IsAnsweredWhole};
ghost use Rattle.ipc_model.specs.state.Circular.{Acyclic};
ghost use Rattle.ipc_model.specs.state.Lawful.{ShortQueues};
ghost use Rattle.ipc_model.specs.state.LawfulState.{LawfulState};
ghost use Rattle.waiting.specs.Places.{names};
ghost use Rattle.waiting.specs.Waiting.{Wakes};

use crate::answering::try_answer;
use crate::recording::{Recorder, Unrecorded, step_recorded};
use crate::replaying::{is_kept_already, step_again};
use codes::{KernReturn, MACH_PORT_GET_RECEIVE_STATUS, MACH_PORT_GET_REFS, MACH_PORT_TYPE};
use ipc_model::{
    Call, NumberedReply, PlainCall, PlainReply, Record, Reply, call_in_range, reply_in_range,
};
use number_table::NumberTable;
use port_calls::IpcState;
use std::alloc::{AllocError, Global};
use std::marker::Model;
use waiting::Places;

/// The reason why a record couldn't be replayed.
#[derive(Clone, Copy, Debug, PartialEq, Eq)]
pub enum ReplayFault {
    /// The machine has no such step.
    Mismatch = 1,
    /// Out of memory.
    NoMemory = 2,
}

impl From<AllocError> for ReplayFault {
    ghost use Rattle.std.specs.Prelude.{◌≡◌};
    ghost use Rattle.kernel.specs.declared.kernel.ReplayFault.TheVariants.{NoMemory};

    ghost from_gives = { λ _ e. e ≡ NoMemory };

    fn from(_: AllocError) -> Self {
        ReplayFault::NoMemory
    }
}

/// The state of the machine. Contracts see it as a state of the abstract specification.
pub struct Kernel {
    pub(crate) alloc: Global,
    pub(crate) state: IpcState,
    /// The reply that each space keeps.
    pub(crate) kept: NumberTable<NumberedReply>,
}

// Written by hand, so that proofs of the crates above depend on one function instead of its parts.
impl Drop for Kernel {
    fn drop(self) {
        let Kernel {
            alloc: _,
            state,
            kept,
        } = self;
        drop(state);
        drop(kept);
    }
}

impl Model for Kernel {
    ghost use Rattle.std.specs.Prelude.{◌≡◌};
    ghost use Rattle.ipc_model.specs.state.Circular.{Acyclic};
    ghost use Rattle.ipc_model.specs.state.Lawful.{ShortQueues};
    ghost use Rattle.ipc_model.specs.state.LawfulState.{LawfulState};
    ghost use Rattle.ipc_model.specs.state.State.{State};
    ghost use Rattle.ipc_model.specs.state.StateCode.{state_code};

    ghost Value = { State };

    ghost coded = { state_code };

    ghost view = { λ k. record { ipc = k.state.current; kept = k.kept } };

    // Each live port has one receive right, each right names a live port, no ports carry one another in a cycle, and no
    // queue is too long for an image. Each kept reply belongs to a space that exists, and may be kept. Between calls
    // there are no changes to commit or to roll back.
    ghost invariant = { λ k. LawfulState (record { ipc = k.state.current; kept = k.kept }) × Acyclic k.state.current
        × ShortQueues k.state.current × (k.state.before ≡ k.state.current) };
}

impl Kernel {
    /// Creates the state of a new store: space 1 without names, and no port.
    pub fn opening(alloc: Global) -> Result<Self, AllocError>
        ensures { IfOk result (λ kernel. kernel ≡ opening_state) }
    {
        let state = IpcState::opening(alloc)?;
        state.show_queues_short();
        Ok(Kernel {
            alloc,
            state,
            kept: NumberTable::new(alloc),
        })
    }

    /// Proves that an image can encode the state, because it is lawful. It does nothing else.
    pub fn show_image(&self)
        ensures encoded { Encodable self.now }
        ensures lawful { LawfulState self.now }
        ensures acyclic { Acyclic self.now.ipc }
        ensures short { ShortQueues self.now.ipc }
    {
        let _ = &self.state;
    }

    /// Makes one step of the machine: the call of a task in this space. If an allocation fails, nothing changed.
    pub fn apply(&mut self, space: u32, call: &Call) -> Result<Reply, AllocError>
        ensures step { IfOk result (λ reply. Step self.old space call.now reply self.new) }
        // The reply has the call's number and fits in a frame. If the step is recorded, call and reply form a valid
        // record.
        ensures number { IfOk result (λ reply. number_of_reply reply ≡ number_of_call call.now) }
        ensures recorded { IfOk result (λ reply. has_record call.now reply ≡ true → IsAnsweredWhole call.now reply) }
        ensures fits { IfOk result (λ reply. length (reply_encoding reply) ≤ MAX_FRAME_CONTENT) }
        ensures err { OnErr result (self.new ≡ self.old) }
    {
        call_in_range(call);
        match step_recorded(
            self.alloc,
            &mut self.state,
            &mut self.kept,
            space,
            call,
            &mut Unrecorded,
        ) {
            Ok(reply) => {
                reply_in_range(call, &reply);
                self.state.commit();
                self.state.show_queues_short();
                Ok(reply)
            }
            Err(error) => {
                self.state.roll_back();
                Err(error)
            }
        }
    }

    /// Makes one step of the machine as `apply` does, and writes its record, if it is recorded, before it commits the
    /// step. If an allocation fails, neither the kernel nor the recorder changed.
    ///
    /// Reports the places at which a waiting call may now succeed. No wake-up is lost.
    pub fn apply_recorded<R: Recorder>(
        &mut self,
        space: u32,
        call: &Call,
        recorder: &mut R,
        places: &mut Places,
    ) -> Result<Reply, AllocError>
        requires { R.has_room recorder.old }
        ensures step { IfOk result (λ reply. Step self.old space call.now reply self.new) }
        ensures wakes { IfOk result (λ reply. Wakes self.old.ipc self.new.ipc (names places.new)) }
        ensures number { IfOk result (λ reply. number_of_reply reply ≡ number_of_call call.now) }
        ensures written { IfOk result (λ reply. has_record call.now reply ≡ true
            → R.wrote recorder.old space call.now reply recorder.new) }
        ensures unwritten { IfOk result (λ reply. has_record call.now reply ≡ false → recorder.new ≡ recorder.old) }
        ensures fits { IfOk result (λ reply. length (reply_encoding reply) ≤ MAX_FRAME_CONTENT) }
        ensures err { OnErr result ((self.new ≡ self.old) × (recorder.new ≡ recorder.old)) }
    {
        call_in_range(call);
        match step_recorded(
            self.alloc,
            &mut self.state,
            &mut self.kept,
            space,
            call,
            recorder,
        ) {
            Ok(reply) => {
                reply_in_range(call, &reply);
                self.state.name_places(places);
                self.state.commit();
                self.state.show_queues_short();
                Ok(reply)
            }
            Err(error) => {
                self.state.roll_back();
                Err(error)
            }
        }
    }

    /// Returns the reply of `apply` to a call whose step isn't recorded, or `None` if some step of the call is
    /// recorded. It changes nothing.
    pub fn answer(&self, space: u32, call: &Call) -> Result<Option<Reply>, AllocError>
        ensures answered { IfOk result (λ answer. IfSome answer
            (λ reply. Step self.now space call.now reply self.now × (has_record call.now reply ≡ false))) }
        ensures none { IfOk result (λ answer. IfNone answer ((reply : Reply) × (new : State)
            × Step self.now space call.now reply new × (has_record call.now reply ≡ true))) }
        ensures fits { IfOk result (λ answer. IfSome answer
            (λ reply. length (reply_encoding reply) ≤ MAX_FRAME_CONTENT)) }
    {
        let mut other = self.again()?;
        let answer = other.answer_in_place(space, call);
        drop(other);
        answer
    }

    /// Returns a second kernel with the same state, built from its plain rows.
    fn again(&self) -> Result<Kernel, AllocError>
        ensures { IfOk result (λ other. other ≡ self.now) }
    {
        let rows = self.copy(self.alloc)?;
        match Kernel::from_snapshot(self.alloc, rows) {
            Ok(kernel) => {
                kernel.show_image();
                Ok(kernel)
            }
            // The rows of a lawful state are lawful, so the fault is out of memory.
            Err(_) => Err(AllocError),
        }
    }

    /// Returns the reply of `answer` without a copy of the state: makes the call and rolls it back.
    pub fn answer_in_place(&mut self, space: u32, call: &Call) -> Result<Option<Reply>, AllocError>
        ensures answered { IfOk result (λ answer. IfSome answer
            (λ reply. Step self.old space call.now reply self.old × (has_record call.now reply ≡ false))) }
        ensures none { IfOk result (λ answer. IfNone answer ((reply : Reply) × (new : State)
            × Step self.old space call.now reply new × (has_record call.now reply ≡ true))) }
        ensures fits { IfOk result (λ answer. IfSome answer
            (λ reply. length (reply_encoding reply) ≤ MAX_FRAME_CONTENT)) }
        ensures same { self.new ≡ self.old }
    {
        let answer = try_answer(self.alloc, &mut self.state, &self.kept, space, call);
        self.state.roll_back();
        answer
    }

    /// Returns the reply of `apply` to `mach_port_type`, which changes nothing: the type bits of a name, `InvalidTask`
    /// if the space is gone, or `InvalidName` if the name isn't in use. It allocates nothing.
    pub fn port_type(&self, space: u32, name: u32) -> Reply
        ensures { Step self.now space (Call.Plain (PlainCall.Type name)) result self.now }
    {
        if !self.state.has_space(space) {
            return gone(MACH_PORT_TYPE);
        }
        Reply::Plain(port_calls::port_type(&self.state, space, name))
    }

    /// Returns the reply of `apply` to `mach_port_get_refs`, which changes nothing. It allocates nothing.
    pub fn get_refs(&self, space: u32, name: u32, right: u32) -> Reply
        ensures { Step self.now space (Call.Plain (PlainCall.GetRefs name right)) result self.now }
    {
        if !self.state.has_space(space) {
            return gone(MACH_PORT_GET_REFS);
        }
        Reply::Plain(port_calls::get_refs(&self.state, space, name, right))
    }

    /// Returns the reply of `apply` to `mach_port_get_receive_status`, which changes nothing. It allocates nothing.
    pub fn receive_status(&self, space: u32, name: u32) -> Reply
        ensures { Step self.now space (Call.Plain (PlainCall.GetReceiveStatus name)) result self.now }
    {
        if !self.state.has_space(space) {
            return gone(MACH_PORT_GET_RECEIVE_STATUS);
        }
        Reply::Plain(port_calls::receive_status(&self.state, space, name))
    }

    /// Makes the step of a record. Returns the new state, or `Mismatch` if the machine has no such step. A record of a
    /// numbered call changes nothing if the space already keeps the call's reply. At a fault, the kernel is dropped.
    pub fn replay(self, record: &Record) -> Result<Kernel, ReplayFault>
        ensures step { IfOk result (λ new. Replays self «record».now new) }
        ensures only { IfOk result (λ new. (other : State) → Replays self «record».now other → other ≡ new) }
        ensures mismatch { IsErrOf result ReplayFault.Mismatch → (new : State) → Replays self «record».now new → ⊥ }
    {
        if is_kept_already(&self.kept, record) {
            return Ok(self);
        }
        let Kernel {
            alloc,
            mut state,
            mut kept,
        } = self;
        call_in_range(&record.call);
        reply_in_range(&record.call, &record.reply);
        match step_again(alloc, &mut state, &mut kept, record) {
            Ok(()) => {
                state.commit();
                state.show_queues_short();
                Ok(Kernel { alloc, state, kept })
            }
            Err(fault) => {
                drop(state);
                drop(kept);
                Err(fault)
            }
        }
    }
}

/// Returns the refusal of a caller whose space is gone.
fn gone(number: u32) -> Reply
    ensures { result ≡ Reply.Plain (PlainReply.Refused number KernReturn.InvalidTask) }
{
    Reply::Plain(PlainReply::Refused {
        number,
        code: KernReturn::InvalidTask,
    })
}
