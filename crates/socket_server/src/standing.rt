//! What a worker knows of a connection, besides its conversation.
ghost use Rattle.std.specs.Prelude.{◌≡◌};
ghost use Rattle.socket_server.specs.Closing.{MayClose};
ghost use Rattle.socket_server.specs.declared.standing.Timer.TheVariants.{Expired};

use frame_service::{Filled, Tried};
use std::mem;

/// How many bytes may wait for their frames' turn before no more are read.
const MOST_AHEAD: usize = 131_072;

/// For how many milliseconds a peer may leave output unread before its connection is closed.
const UNREAD_MILLISECONDS: u32 = 5_000;

/// After how many milliseconds a failed allocation is tried again.
const RETRY_MILLISECONDS: u32 = 10;

/// What a connection waits for, once all was done for it that could be.
#[derive(Clone, Copy)]
pub(crate) enum Awaits {
    /// More input.
    Input,
    /// Nothing: there is more to do.
    Nothing,
    /// So many records to be stored.
    Records(u64),
    /// The turn of its call; at most so many milliseconds, if there is a bound.
    Turn(Option<u32>),
    /// Room for output at the peer, for at most so many milliseconds.
    Room(u32),
    /// Memory, which is asked for again after so many milliseconds.
    Memory(u32),
    /// Nothing: it has ended.
    End,
}

/// What a connection's timer is set for.
#[derive(Clone, Copy, PartialEq, Eq)]
pub(crate) enum Timed {
    Turn,
    Room,
    Memory,
}

impl Awaits {
    /// Returns what a timer is set for meanwhile, and to how many milliseconds.
    pub(crate) fn timed(self) -> Option<(Timed, u32)> {
        match self {
            Awaits::Turn(Some(most)) => Some((Timed::Turn, most)),
            Awaits::Room(most) => Some((Timed::Room, most)),
            Awaits::Memory(most) => Some((Timed::Memory, most)),
            _ => None,
        }
    }
}

/// Why a connection is closed though its conversation hasn't ended.
#[derive(Clone, Copy, PartialEq, Eq)]
pub(crate) enum Failure {
    /// A step of the conversation failed.
    Step,
    /// Its socket can't be registered.
    Registration,
    /// Its peer hung up while a call waited.
    HungUp,
}

/// How far a conversation has come.
#[derive(Clone, Copy)]
pub(crate) struct Progress {
    /// The number of output bytes that the peer hasn't accepted.
    pub(crate) unsent: usize,
    /// How many records have to be stored before the first frame in hand is answered.
    pub(crate) awaited: Option<u64>,
    /// The bound of the call that the first frame in hand waits for.
    pub(crate) waits: Option<Option<u32>>,
    /// True if the input is over and every frame is answered.
    pub(crate) has_ended: bool,
    /// True if a frame is there, and none is in hand.
    pub(crate) has_next: bool,
}

/// Whether there may be input to read.
#[derive(Clone, Copy, PartialEq, Eq)]
enum Input {
    Ready,
    Drained,
    /// Memory for it ran out.
    NoMemory,
}

/// Where the call stands that waits, if one does.
#[derive(Clone, Copy, PartialEq, Eq)]
enum Line {
    /// In line.
    In,
    /// Its turn has come.
    Due,
    /// In no line, since an allocation failed.
    Nowhere,
}

/// A connection's timer.
#[derive(Clone, Copy, PartialEq, Eq)]
pub(crate) enum Timer {
    Unset,
    /// Set to this deadline.
    Set(u64, Timed),
    /// Set to this deadline, for a wait that is over.
    Stale(u64),
    Expired(Timed),
}

/// What a worker knows of a connection, besides its conversation.
#[derive(Clone, Copy)]
pub(crate) struct Standing {
    input: Input,
    line: Line,
    pub(crate) timer: Timer,

    /// Why it failed, if it did.
    pub(crate) failure: Option<Failure>,

    // Whether the socket had an event of which the conversation wasn't asked, and whether room for output is reported.
    has_event: bool,
    awaits_room: bool,

    /// Whether it is among the runnable sessions, and among those that ran in this round.
    pub(crate) is_ready: bool,
    pub(crate) is_worked: bool,
}

impl Standing {
    /// A connection of which nothing was read yet.
    pub(crate) fn new() -> Self {
        Standing {
            input: Input::Ready,
            line: Line::In,
            timer: Timer::Unset,
            failure: None,
            has_event: false,
            awaits_room: false,
            is_ready: false,
            is_worked: false,
        }
    }

    /// Notes that something came, or that there is room, or that the peer closed its side.
    pub(crate) fn note_event(&mut self) {
        self.has_event = true;
        self.input = Input::Ready;
    }

    /// Returns true if an event was noted since this was asked last.
    pub(crate) fn take_event(&mut self) -> bool {
        mem::replace(&mut self.has_event, false)
    }

    /// Notes that the turn of its call has come.
    pub(crate) fn note_turn(&mut self) {
        self.line = Line::Due;
    }

    /// Notes that its timer has expired.
    pub(crate) fn note_time(&mut self) {
        match self.timer {
            Timer::Set(_, Timed::Memory) => {
                self.timer = Timer::Unset;
                self.input = Input::Ready;
            }
            Timer::Set(_, timed) => self.timer = Timer::Expired(timed),
            Timer::Stale(_) => self.timer = Timer::Unset,
            _ => {}
        }
    }

    /// Returns true if more may be read while so many bytes wait for their frames' turn.
    pub(crate) fn may_read(&self, ahead: usize) -> bool {
        self.input == Input::Ready && ahead < MOST_AHEAD
    }

    /// Notes what came of a read.
    pub(crate) fn note_filled(&mut self, filled: Filled) {
        match filled {
            Filled::Some => {}
            Filled::None | Filled::Over => self.input = Input::Drained,
            Filled::NoMemory => self.input = Input::NoMemory,
        }
    }

    /// Returns true if there is a call to be made.
    pub(crate) fn has_work(&self, progress: Progress) -> bool {
        if self.failure.is_some() || progress.unsent != 0 {
            return false;
        }
        if progress.waits.is_some() {
            return self.line != Line::In || self.timer == Timer::Expired(Timed::Turn);
        }
        progress.has_next
    }

    /// Begins to make the waiting call again. Returns true if it may wait on.
    pub(crate) fn begin_try(&mut self) -> bool {
        self.line = Line::In;
        if self.timer != Timer::Expired(Timed::Turn) {
            return true;
        }
        self.timer = Timer::Unset;
        false
    }

    /// Notes what came of the waiting call.
    pub(crate) fn note_tried(&mut self, tried: Tried, may_wait: bool) {
        match tried {
            Tried::Settled => {}
            Tried::Waits => {
                if !may_wait {
                    self.note_failure(Failure::Step);
                }
            }
            Tried::WaitsForReceive => self.end_wait(),
        }
    }

    /// Notes that what its timer is set for is over.
    fn end_wait(&mut self) {
        if let Timer::Set(end, _) = self.timer {
            self.timer = Timer::Stale(end);
        }
    }

    /// Notes whether a call that waits is in line, or its turn has come.
    pub(crate) fn note_line(&mut self, is_in_line: bool) {
        if !is_in_line {
            self.line = Line::Nowhere;
        } else if self.line == Line::Nowhere {
            self.line = Line::In;
        }
    }

    /// Notes why the connection is to be closed. The first reason stays.
    pub(crate) fn note_failure(&mut self, failure: Failure) {
        if self.failure.is_none() {
            self.failure = Some(failure);
        }
    }

    /// Notes output. The time in which the peer has to accept some begins if it accepted some, or had none before, and
    /// some is left.
    pub(crate) fn note_sent(&mut self, begins: bool, is_left: bool) {
        if !begins && is_left {
            return;
        }
        if self.timer == Timer::Expired(Timed::Room) {
            self.timer = Timer::Unset;
        }
        if is_left {
            self.end_wait();
        }
    }

    /// Notes whether room is to be reported. Returns true if that is new.
    pub(crate) fn note_room(&mut self, awaits_room: bool) -> bool {
        mem::replace(&mut self.awaits_room, awaits_room) != awaits_room
    }

    /// Returns the deadline that its timer is set to.
    pub(crate) fn deadline(&self) -> Option<u64> {
        match self.timer {
            Timer::Set(end, _) | Timer::Stale(end) => Some(end),
            _ => None,
        }
    }

    /// Returns true if its timer is set for this.
    pub(crate) fn is_timed(&self, awaited: Timed) -> bool {
        match self.timer {
            Timer::Set(_, timed) => timed == awaited,
            _ => false,
        }
    }

    /// Notes that its timer is set to this deadline.
    pub(crate) fn set_timer(&mut self, end: u64, timed: Timed) {
        self.timer = Timer::Set(end, timed);
    }

    /// Cancels its timer, and returns the deadline that it was set to.
    pub(crate) fn cancel_timer(&mut self) -> Option<u64> {
        let end = self.deadline()?;
        self.timer = Timer::Unset;
        Some(end)
    }

    /// Returns true if it awaits the turn of a call that is in no line, so that the call is to be made again.
    pub(crate) fn lacks_line(&self, awaits: Awaits) -> bool {
        match awaits {
            Awaits::Turn(_) => self.line == Line::Nowhere,
            _ => false,
        }
    }

    /// Returns what it waits for now.
    pub(crate) fn awaits(&self, progress: Progress) -> Awaits
        ensures { result ≡ Awaits.End → MayClose self.now progress }
    {
        if self.failure.is_some() {
            return Awaits::End;
        }
        if progress.unsent != 0 {
            return self.awaits_peer();
        }
        if let Some(seen) = progress.awaited {
            return Awaits::Records(seen);
        }
        if let Some(bound) = progress.waits {
            return Awaits::Turn(bound);
        }
        if progress.has_ended {
            return Awaits::End;
        }
        self.awaits_input(progress.has_next)
    }

    /// Returns what it waits for with output that the peer hasn't accepted.
    fn awaits_peer(&self) -> Awaits
        ensures { result ≡ Awaits.End → self.now.timer ≡ Expired Timed.Room }
    {
        match self.timer {
            Timer::Expired(Timed::Room) => Awaits::End,
            _ => Awaits::Room(UNREAD_MILLISECONDS),
        }
    }

    /// Returns what it waits for with no frame in hand.
    fn awaits_input(&self, has_next: bool) -> Awaits
        ensures { result ≡ Awaits.End → ⊥ }
    {
        match self.input {
            Input::NoMemory => Awaits::Memory(RETRY_MILLISECONDS),
            Input::Ready => Awaits::Nothing,
            Input::Drained if has_next => Awaits::Nothing,
            Input::Drained => Awaits::Input,
        }
    }
}
