//! The slowest calls of a single caller on files, without and during a checkpoint.

use crate::Fault;
use crate::context::{Context, Folder};
use crate::lines::{Maker, make_line};
use crate::makers::{open_alone, open_core};
use crate::states::{LEAST, Shape, make_state};
use crate::watched::{Watch, Watched};
use crate::ways::HERE;
use codes::CHECKPOINT_RECORDS;
use disk::Disk;
use ipc_model::{Call, PlainCall};
use server::Caller;
use std::alloc::Global;

/// The states that are measured: the number of ports, of spaces, of stores, and of calls in each store before a
/// checkpoint begins. A checkpoint of 10 ports is over after three more calls, so that state needs more stores.
static STATES: [(u32, u32, u32, u32); 2] = [(10, 1, 20, 20), (16_000, 4, 1, 400)];

/// Maximum number of calls to a store. An image of 16,000 ports has some hundreds of pieces, of which one is written
/// after each call.
const MOST_CALLS: u32 = 4_000;

/// A name of a port, and a recorded call that leaves the state unchanged.
const FIRST_NAME: u32 = 0x100;

const RECORDED: &str = "set_mscount 0x100 1";

/// Times of calls, each from its beginning to its reply, or of the rests after them.
#[derive(Clone, Copy)]
struct Times {
    count: u64,
    longest: u64,
    sum: u64,
}

const NONE: Times = Times {
    count: 0,
    longest: 0,
    sum: 0,
};

impl Times {
    fn add(&mut self, nanos: u64) {
        self.count = self.count.saturating_add(1);
        self.longest = self.longest.max(nanos);
        self.sum = self.sum.saturating_add(nanos);
    }

    /// Returns the longest and the mean time in microseconds.
    fn micros(&self) -> (u64, u64) {
        let mean = self.sum.checked_div(self.count).unwrap_or(0);
        (self.longest / 1_000, mean / 1_000)
    }
}

/// Times of calls and of rests.
#[derive(Clone, Copy)]
struct Both {
    calls: Times,
    rests: Times,
}

const NEITHER: Both = Both {
    calls: NONE,
    rests: NONE,
};

/// The times of a call and of the rest after it, and true if anything was written meanwhile, which only a step of a
/// checkpoint does.
#[derive(Clone, Copy)]
struct Round {
    call: u64,
    rest: u64,
    is_step: bool,
}

/// Makes ports, and then other calls until this many are left before a checkpoint begins.
fn prepare<M: Maker>(
    alloc: Global,
    maker: &mut M,
    shape: Shape,
    calls_left: u32,
) -> Result<(), Fault> {
    make_state(alloc, maker, shape)?;
    let records = shape
        .ports
        .saturating_add(shape.spaces)
        .saturating_add(calls_left);
    let all = u32::try_from(CHECKPOINT_RECORDS).unwrap_or(0);
    let count = all.saturating_add(1).saturating_sub(records);
    make_line(alloc, maker, (HERE, RECORDED, 0, count))
}

/// Makes a new store with these contents.
fn prepared<D: Disk + Drop>(
    alloc: Global,
    disk: D,
    shape: Shape,
    calls_left: u32,
) -> Result<D, Fault> {
    let mut core = open_core(alloc, disk)?;
    let made = prepare(alloc, &mut core, shape, calls_left);
    let disk = core.into_disk();
    made?;
    Ok(disk)
}

/// Makes a call and rests, and returns both times.
fn time_round<C: Caller>(
    context: &Context<'_>,
    caller: &mut C,
    watch: &Watch,
) -> Result<Round, Fault> {
    let recorded = Call::Plain(PlainCall::SetMscount {
        name: FIRST_NAME,
        count: 1,
    });
    let start = context.nanos();
    match caller.call(recorded) {
        Ok(reply) if reply.is_success() => {}
        _ => return Err(Fault::Call),
    }
    let call = context.since(start);
    let writes = watch.writes();
    let start = context.nanos();
    if caller.rest().is_err() {
        return Err(Fault::Store);
    }
    Ok(Round {
        call,
        rest: context.since(start),
        is_step: watch.writes() != writes,
    })
}

/// Makes calls until a checkpoint has begun and ended. A call counts as made during the checkpoint if a step of it
/// precedes the call and another one follows.
fn time_rounds<C: Caller>(
    context: &Context<'_>,
    caller: &mut C,
    watch: &Watch,
    idle: &mut Both,
    under_way: &mut Both,
) -> Result<(), Fault> {
    let mut is_after_step = false;
    for _ in 0..MOST_CALLS {
        let round = time_round(context, caller, watch)?;
        if is_after_step && !round.is_step {
            return Ok(());
        }
        if is_after_step {
            under_way.calls.add(round.call);
        } else {
            idle.calls.add(round.call);
        }
        if round.is_step {
            under_way.rests.add(round.rest);
        } else {
            idle.rests.add(round.rest);
        }
        is_after_step = round.is_step;
    }
    Err(Fault::Store)
}

/// Times the calls of one store. Syncs are skipped until all is prepared; then the store is reopened, which syncs
/// everything.
fn time_store<D: Disk + Drop>(
    context: &Context<'_>,
    disk: Result<D, Fault>,
    shape: Shape,
    calls_left: u32,
    idle: &mut Both,
    under_way: &mut Both,
) -> Result<(), Fault> {
    let watch = Watch::new(false);
    let watched = Watched {
        disk: disk?,
        watch: &watch,
    };
    let watched = prepared(context.alloc, watched, shape, calls_left)?;
    watch.begin_syncs();
    let mut alone = open_alone(context.alloc, watched)?;
    let timed = time_rounds(context, &mut alone, &watch, idle, under_way);
    let _ = alone.into_disk();
    timed
}

fn print_times(context: &Context<'_>, label: &str, times: &Both) {
    let (longest_call, mean_call) = times.calls.micros();
    let (longest_rest, mean_rest) = times.rests.micros();
    let figures = [
        times.calls.count,
        longest_call,
        mean_call,
        times.rests.count,
        longest_rest,
        mean_rest,
    ];
    context.print_row(label, &figures, &[]);
}

/// Measures the calls of a state in new stores, and prints the results.
fn print_state<F: Folder>(
    context: &Context<'_>,
    folder: &F,
    state: (u32, u32, u32, u32),
) -> Result<(), Fault> {
    let (ports, spaces, stores, calls_left) = state;
    let shape = Shape {
        spaces,
        ports,
        ..LEAST
    };
    let (mut idle, mut under_way) = (NEITHER, NEITHER);
    for _ in 0..stores {
        let files = folder.new_files();
        time_store(context, files, shape, calls_left, &mut idle, &mut under_way)?;
    }
    context.print_row("ports", &[u64::from(ports)], &[]);
    print_times(context, "no checkpoint under way", &idle);
    print_times(context, "a checkpoint under way", &under_way);
    Ok(())
}

/// Prints the slowest calls of each state.
pub(crate) fn print_slowest<F: Folder>(context: &Context<'_>, folder: &F) -> Result<(), Fault> {
    context.print_row(
        "microseconds on files: calls, the longest, the mean; rests beyond replies, the longest, the mean",
        &[],
        &[],
    );
    for state in &STATES {
        print_state(context, folder, *state)?;
    }
    Ok(())
}
