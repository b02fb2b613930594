//! Makers of calls: a kernel alone in memory, and a core that stores each call before it continues.

use crate::Fault;
use crate::lines::Maker;
use crate::turns::Machine;
use disk::Disk;
use ipc_model::Call;
use server::{Alone, Event, Kernel, Outcome, System, open};
use std::alloc::Global;

impl Maker for Kernel {
    fn make(&mut self, space: u32, call: &Call, is_done: bool) -> bool {
        match self.apply(space, call) {
            Ok(reply) => reply.is_success() == is_done,
            Err(_) => false,
        }
    }
}

impl Machine for Kernel {
    fn opened(alloc: Global) -> Option<Kernel> {
        Kernel::opening(alloc).ok()
    }
}

/// The work of a core between calls.
#[derive(Clone, Copy)]
pub(crate) enum Work {
    Take,
    Append,
    Durable,
    Cut,
    RollClose,
    RollHead,
    RollOpen,
    ImageClose,
    Piece,
    Finish,
}

/// A core that stores calls.
pub(crate) trait CostCore {
    /// Makes a call, and returns its ticket, or `None` if the call wasn't made.
    fn submit_call(&mut self, space: u32, call: &Call) -> Option<u64>;

    /// Does a piece of work. Returns true if it was done.
    fn work(&mut self, work: Work) -> bool;

    /// Asks for a ticket's reply. Returns true if its call was done, or refused if that is expected.
    fn answer(&mut self, ticket: u64, is_done: bool) -> bool;
}

/// Returns the event for a piece of work.
fn event_of(work: Work) -> Event {
    match work {
        Work::Take => Event::Take,
        Work::Append => Event::Append,
        Work::Durable => Event::Durable,
        Work::Cut => Event::Cut,
        Work::RollClose => Event::RollClose,
        Work::RollHead => Event::RollHead,
        Work::RollOpen => Event::RollOpen,
        Work::ImageClose => Event::ImageClose,
        Work::Piece => Event::Piece,
        Work::Finish => Event::Finish,
    }
}

impl<D: Disk> CostCore for System<D> {
    fn submit_call(&mut self, space: u32, call: &Call) -> Option<u64> {
        self.submit(space, call).ok()
    }

    fn work(&mut self, work: Work) -> bool {
        let outcome = self.step(&event_of(work));
        matches!(&outcome, Outcome::Done)
    }

    fn answer(&mut self, ticket: u64, is_done: bool) -> bool {
        match self.reply(ticket) {
            Some(reply) => reply.is_success() == is_done,
            None => false,
        }
    }
}

impl<D: Disk> Maker for System<D> {
    fn make(&mut self, space: u32, call: &Call, is_done: bool) -> bool {
        make_stored(self, space, call, is_done)
    }
}

/// The work that stores waiting records; the work of a checkpoint before the pieces of its image; and the work after
/// them.
pub(crate) static STORE: [Work; 3] = [Work::Take, Work::Append, Work::Durable];

pub(crate) static ROLL: [Work; 3] = [Work::RollClose, Work::RollHead, Work::RollOpen];

static BEGIN: [Work; 5] = [
    Work::Cut,
    Work::RollClose,
    Work::RollHead,
    Work::RollOpen,
    Work::ImageClose,
];

static END: [Work; 2] = [Work::Finish, Work::Durable];

/// Does pieces of work, each of which must be done.
pub(crate) fn work_all<C: CostCore>(core: &mut C, works: &[Work]) -> Result<(), Fault> {
    for work in works {
        if !core.work(*work) {
            return Err(Fault::Store);
        }
    }
    Ok(())
}

/// Makes a whole checkpoint.
pub(crate) fn make_checkpoint<C: CostCore>(core: &mut C) -> Result<(), Fault> {
    work_all(core, &BEGIN)?;
    for _ in 0..u64::MAX {
        if !core.work(Work::Piece) {
            break;
        }
    }
    work_all(core, &END)
}

/// Makes a call. If the epoch log is full, it makes a checkpoint first.
fn submit<C: CostCore>(core: &mut C, space: u32, call: &Call) -> Result<u64, Fault> {
    if let Some(ticket) = core.submit_call(space, call) {
        return Ok(ticket);
    }
    make_checkpoint(core)?;
    core.submit_call(space, call).ok_or(Fault::Call)
}

/// Makes a recorded call, stores it and asks for its reply. Returns true if it was done, or refused if that is
/// expected.
fn make_stored<C: CostCore>(core: &mut C, space: u32, call: &Call, is_done: bool) -> bool {
    let Ok(ticket) = submit(core, space, call) else {
        return false;
    };
    if work_all(core, &STORE).is_err() {
        return false;
    }
    core.answer(ticket, is_done)
}

/// Returns the core of a store on a disk.
pub(crate) fn open_core<D: Disk + Drop>(alloc: Global, disk: D) -> Result<System<D>, Fault> {
    match open(alloc, disk) {
        Ok(opened) => Ok(System::new(alloc, opened)),
        Err(_) => Err(Fault::Store),
    }
}

/// Returns a single caller of a store on a disk.
pub(crate) fn open_alone<D: Disk + Drop>(alloc: Global, disk: D) -> Result<Alone<D>, Fault> {
    match open(alloc, disk) {
        Ok(opened) => Ok(Alone::new(alloc, opened)),
        Err(_) => Err(Fault::Store),
    }
}
