//! The cost of batches: records stored per second with each size of batch, next to plain writes of as many bytes and to
//! pairs of syncs.

use crate::Fault;
use crate::context::{Context, Folder, hundredths, per_second};
use crate::lines::{CostStep, Line, Maker, make_steps, steps_of};
use crate::makers::{CostCore, STORE, make_checkpoint, open_core, work_all};
use crate::messages::send_line;
use crate::plain::{PAIR, Plain};
use crate::watched::{Watch, Watched};
use crate::ways::HERE;
use disk::Disk;
use std::alloc::Global;

/// The number of records in a batch, and the number of batches in a turn, with as many plain writes and as many pairs
/// of syncs.
static SIZES: [(u64, u64); 5] = [(1, 16), (16, 16), (64, 16), (256, 8), (4_096, 1)];

/// Number of turns. The shortest time of each measurement counts.
const TURNS: u32 = 14;

/// A kind of batch: the lines of its calls, which are made in rotation, and the lines that are made before the first
/// turn and after each turn, and aren't measured.
#[derive(Drop)]
struct Kind {
    steps: Vec<CostStep>,
    before: Vec<CostStep>,
    beyond: Vec<CostStep>,
}

/// Names are allocated in two spaces, because one has at most 4,096. They are removed with their space.
static ALLOCATE: [Line<'static>; 2] = [
    (2, "allocate dead_name", 0, 1),
    (3, "allocate dead_name", 0, 1),
];

static TWO_SPACES: [Line<'static>; 2] = [
    (HERE, "allocate receive", 0, 1),
    (HERE, "space_create 0x100 make_send", 0, 2),
];

static NEW_SPACES: [Line<'static>; 3] = [
    (2, "space_destroy", 0, 1),
    (3, "space_destroy", 0, 1),
    (HERE, "space_create 0x100 make_send", 0, 2),
];

/// Messages are sent to a port by send-once rights, to which the limit of its queue doesn't apply. They are removed
/// with their port.
static ONE_PORT: [Line<'static>; 1] = [(HERE, "allocate receive", 0, 1)];

static NEW_PORT: [Line<'static>; 2] = [
    (HERE, "destroy 0x100", 0, 1),
    (HERE, "allocate receive", 0, 1),
];

/// Nanoseconds for batches with their calls and replies, and for storing them alone; for plain writes, each in place of
/// a batch, and then back to back; and for pairs of syncs.
#[derive(Clone, Copy)]
struct Times {
    whole: u64,
    stored: u64,
    instead: u64,
    plain: u64,
    pairs: u64,
}

const LONGEST: Times = Times {
    whole: u64::MAX,
    stored: u64::MAX,
    instead: u64::MAX,
    plain: u64::MAX,
    pairs: u64::MAX,
};

/// Returns the kind of these lines.
fn kind_of(
    alloc: Global,
    calls: &[Line<'_>],
    before: &[Line<'_>],
    beyond: &[Line<'_>],
) -> Result<Kind, Fault> {
    Ok(Kind {
        steps: steps_of(alloc, calls)?,
        before: steps_of(alloc, before)?,
        beyond: steps_of(alloc, beyond)?,
    })
}

/// Makes `count` calls in rotation, and returns the last one's ticket.
fn submit_all<C: CostCore>(core: &mut C, steps: &[CostStep], count: u64) -> Result<u64, Fault> {
    let mut last = 0;
    for index in 0..count {
        let Some(step) = steps.get((index % 2) as usize) else {
            return Err(Fault::Call);
        };
        let Some(ticket) = core.submit_call(step.space, &step.call) else {
            return Err(Fault::Call);
        };
        last = ticket;
    }
    Ok(last)
}

/// Asks for the `count` replies up to a ticket's. Each call must have been done.
fn answer_all<C: CostCore>(core: &mut C, last: u64, count: u64) -> Result<(), Fault> {
    let beyond = last.saturating_add(1);
    for ticket in beyond.saturating_sub(count)..beyond {
        if !core.answer(ticket, true) {
            return Err(Fault::Call);
        }
    }
    Ok(())
}

/// Makes `count` calls and stores them as one batch. Returns the time for all of that, and the time for storing alone.
fn time_batch<C: CostCore>(
    context: &Context<'_>,
    core: &mut C,
    steps: &[CostStep],
    count: u64,
) -> Result<(u64, u64), Fault> {
    let start = context.nanos();
    let last = submit_all(core, steps, count)?;
    let submitted = context.nanos();
    work_all(core, &STORE)?;
    let stored = context.since(submitted);
    answer_all(core, last, count)?;
    Ok((context.since(start), stored))
}

/// Makes batches. Returns the time for all of that, and the time for storing alone.
fn time_batches<C: CostCore>(
    context: &Context<'_>,
    core: &mut C,
    steps: &[CostStep],
    size: (u64, u64),
) -> Result<(u64, u64), Fault> {
    let (mut whole, mut stored) = (0u64, 0u64);
    for _ in 0..size.1 {
        let (one, one_stored) = time_batch(context, core, steps, size.0)?;
        whole = whole.saturating_add(one);
        stored = stored.saturating_add(one_stored);
    }
    Ok((whole, stored))
}

/// Makes as many calls as such batches have, with a plain write in place of each batch, and stores them after that.
/// Returns the time for the writes. Each write follows the same calls as the storing of a batch, because they affect
/// its time.
fn time_instead<C: CostCore>(
    context: &Context<'_>,
    core: &mut C,
    steps: &[CostStep],
    size: (u64, u64),
    plain: &mut Plain,
    bytes: u64,
) -> Result<u64, Fault> {
    let mut written = 0u64;
    for _ in 0..size.1 {
        let last = submit_all(core, steps, size.0)?;
        written = written.saturating_add(plain.time(context, bytes, 1)?);
        work_all(core, &STORE)?;
        answer_all(core, last, size.0)?;
    }
    Ok(written)
}

/// Measures one turn: batches, plain writes of this many bytes, and pairs of syncs. Shorter times replace the former
/// ones.
fn time_turn<C: CostCore + Maker>(
    context: &Context<'_>,
    core: &mut C,
    kind: &Kind,
    size: (u64, u64),
    plain: &mut Plain,
    bytes: u64,
    least: Times,
) -> Result<Times, Fault> {
    let (whole, stored) = time_batches(context, core, &kind.steps, size)?;
    let written = plain.time(context, bytes, size.1)?;
    let pairs = plain.time(context, PAIR, size.1)?;
    make_steps(core, &kind.beyond)?;
    let instead = time_instead(context, core, &kind.steps, size, plain, bytes)?;
    Ok(Times {
        whole: whole.min(least.whole),
        stored: stored.min(least.stored),
        instead: instead.min(least.instead),
        plain: written.min(least.plain),
        pairs: pairs.min(least.pairs),
    })
}

/// Removes the results of a turn, and its records, of which a journal holds at most 65,536.
fn end_turn<C: CostCore + Maker>(core: &mut C, kind: &Kind) -> Result<(), Fault> {
    make_steps(core, &kind.beyond)?;
    make_checkpoint(core)
}

/// Returns the shortest times of all turns.
fn time_turns<C: CostCore + Maker>(
    context: &Context<'_>,
    core: &mut C,
    kind: &Kind,
    size: (u64, u64),
    plain: &mut Plain,
    bytes: u64,
) -> Result<Times, Fault> {
    let mut least = LONGEST;
    for _ in 0..TURNS {
        least = time_turn(context, core, kind, size, plain, bytes, least)?;
        end_turn(core, kind)?;
    }
    Ok(least)
}

/// Returns the number of bytes that a batch of this size adds to the segment.
fn bytes_of<C: CostCore + Maker>(
    context: &Context<'_>,
    core: &mut C,
    watch: &Watch,
    kind: &Kind,
    count: u64,
) -> Result<u64, Fault> {
    make_steps(core, &kind.before)?;
    let before = watch.bytes();
    time_batch(context, core, &kind.steps, count)?;
    let bytes = watch.bytes().saturating_sub(before);
    make_steps(core, &kind.beyond)?;
    Ok(bytes)
}

/// Prints batches of this size, of this many bytes each.
fn print_times(context: &Context<'_>, label: &str, size: (u64, u64), bytes: u64, times: &Times) {
    let (count, batches) = size;
    let moved = bytes.saturating_mul(batches);
    let figures = [
        count,
        per_second(count.saturating_mul(batches), times.whole),
        per_second(moved, times.whole) / 1_024,
        per_second(moved, times.plain) / 1_024,
        per_second(batches, times.whole),
        per_second(batches, times.pairs),
    ];
    let ratios = [
        hundredths(times.plain, times.whole),
        hundredths(times.instead, times.stored),
        hundredths(times.pairs, times.whole),
    ];
    context.print_row(label, &figures, &ratios);
}

/// Measures batches of a kind and a size: the bytes of each, and the shortest times.
fn measure<C: CostCore + Maker>(
    context: &Context<'_>,
    core: &mut C,
    watch: &Watch,
    kind: &Kind,
    size: (u64, u64),
    plain: &mut Plain,
) -> Result<(u64, Times), Fault> {
    let bytes = bytes_of(context, core, watch, kind, size.0)?;
    let times = time_turns(context, core, kind, size, plain, bytes)?;
    Ok((bytes, times))
}

/// Measures batches on a disk that has no store yet.
fn measure_on<D: Disk + Drop>(
    context: &Context<'_>,
    disk: Result<D, Fault>,
    kind: &Kind,
    size: (u64, u64),
    plain: &mut Plain,
) -> Result<(u64, Times), Fault> {
    let watch = Watch::new(true);
    let watched = Watched {
        disk: disk?,
        watch: &watch,
    };
    let mut core = open_core(context.alloc, watched)?;
    let measured = measure(context, &mut core, &watch, kind, size, plain);
    let _ = core.into_disk();
    measured
}

/// Measures a kind of batch in each size, each on a new store, and prints the results.
fn print_kind<F: Folder>(
    context: &Context<'_>,
    folder: &F,
    label: &str,
    kind: &Kind,
    plain: &mut Plain,
) -> Result<(), Fault> {
    for size in &SIZES {
        let (bytes, times) = measure_on(context, folder.new_files(), kind, *size, plain)?;
        print_times(context, label, *size, bytes, &times);
    }
    Ok(())
}

/// Returns the kind of batch that allocates names.
fn allocations(alloc: Global) -> Result<Kind, Fault> {
    kind_of(alloc, &ALLOCATE, &TWO_SPACES, &NEW_SPACES)
}

/// Returns the kind of batch that sends messages of 1 KiB.
fn messages(alloc: Global) -> Result<Kind, Fault> {
    let send = send_line(alloc, "send make_send_once 0x100 id 7", 1_024, 0)?;
    let calls = [(HERE, send.as_str(), 0, 2)];
    kind_of(alloc, &calls, &ONE_PORT, &NEW_PORT)
}

/// Prints the cost of batches of both kinds and each size.
pub(crate) fn print_batches<F: Folder>(
    context: &Context<'_>,
    folder: &F,
    plain: &mut Plain,
) -> Result<(), Fault> {
    context.print_row(
        "batches: records; a second records, kB, kB of plain writes, batches, pairs of syncs; batches for a plain write, with their calls and replies; batches stored for a plain write in their place; batches for a pair",
        &[],
        &[],
    );
    print_kind(
        context,
        folder,
        "allocate",
        &allocations(context.alloc)?,
        plain,
    )?;
    print_kind(context, folder, "send", &messages(context.alloc)?, plain)
}
