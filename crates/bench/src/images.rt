//! The time of a checkpoint's steps in memory, and of opening a store from its image, by the contents of the state.

use crate::Fault;
use crate::context::Context;
use crate::lines::Maker;
use crate::makers::{CostCore, ROLL, Work, open_core, work_all};
use crate::openings::shortest_opening;
use crate::states::{LEAST, Shape, make_state};
use disk::{Disk, Slot};
use plain_disk::PlainDisk;

/// Number of checkpoints of a state. The shortest time of each part counts, because other work can only make it longer.
const CHECKPOINTS: u32 = 3;

/// The states that are measured.
static STATES: [(&str, Shape); 8] = [
    ("10 ports", Shape { ports: 10, ..LEAST }),
    (
        "1,000 ports",
        Shape {
            ports: 1_000,
            ..LEAST
        },
    ),
    (
        "16,000 ports in 4 spaces",
        Shape {
            spaces: 4,
            ports: 16_000,
            ..LEAST
        },
    ),
    (
        "4,096 names",
        Shape {
            names: 4_096,
            ..LEAST
        },
    ),
    (
        "4,096 names in each of 16 spaces",
        Shape {
            spaces: 16,
            names: 4_096,
            ..LEAST
        },
    ),
    (
        "4,096 names in each of 256 spaces",
        Shape {
            spaces: 256,
            names: 4_096,
            ..LEAST
        },
    ),
    (
        "1,000 messages of 24 bytes in 200 queues",
        Shape {
            ports: 200,
            messages: 1_000,
            size: 24,
            ..LEAST
        },
    ),
    (
        "1,000 messages of 8,192 bytes in 200 queues",
        Shape {
            ports: 200,
            messages: 1_000,
            size: 8_192,
            ..LEAST
        },
    ),
];

/// The times of a checkpoint's parts in nanoseconds, and the number of pieces in its image.
#[derive(Clone, Copy)]
struct Parts {
    cut: u64,
    closing: u64,
    slowest_piece: u64,
    end: u64,
    pieces: u64,
}

const LONGEST: Parts = Parts {
    cut: u64::MAX,
    closing: u64::MAX,
    slowest_piece: u64::MAX,
    end: u64::MAX,
    pieces: 0,
};

/// Returns the time for a piece of work, which must be done.
fn time_work<C: CostCore>(context: &Context<'_>, core: &mut C, work: Work) -> Result<u64, Fault> {
    let start = context.nanos();
    if !core.work(work) {
        return Err(Fault::Store);
    }
    Ok(context.since(start))
}

/// Writes the image's pieces. Returns their number and the time for the slowest one.
fn time_pieces<C: CostCore>(context: &Context<'_>, core: &mut C) -> (u64, u64) {
    let (mut pieces, mut slowest) = (0u64, 0u64);
    for _ in 0..u64::MAX {
        let start = context.nanos();
        if !core.work(Work::Piece) {
            break;
        }
        slowest = slowest.max(context.since(start));
        pieces = pieces.saturating_add(1);
    }
    (pieces, slowest)
}

/// Makes a whole checkpoint. Shorter times replace the former ones.
fn time_checkpoint<C: CostCore>(
    context: &Context<'_>,
    core: &mut C,
    least: Parts,
) -> Result<Parts, Fault> {
    let cut = time_work(context, core, Work::Cut)?;
    work_all(core, &ROLL)?;
    let closing = time_work(context, core, Work::ImageClose)?;
    let (pieces, slowest_piece) = time_pieces(context, core);
    let end = time_work(context, core, Work::Finish)?;
    work_all(core, &[Work::Durable])?;
    Ok(Parts {
        cut: cut.min(least.cut),
        closing: closing.min(least.closing),
        slowest_piece: slowest_piece.min(least.slowest_piece),
        end: end.min(least.end),
        pieces,
    })
}

/// Makes a state and its checkpoints, and returns the shortest time of each part.
fn time_parts<C: CostCore + Maker>(
    context: &Context<'_>,
    core: &mut C,
    shape: Shape,
) -> Result<Parts, Fault> {
    make_state(context.alloc, core, shape)?;
    let mut least = LONGEST;
    for _ in 0..CHECKPOINTS {
        least = time_checkpoint(context, core, least)?;
    }
    Ok(least)
}

/// Makes a state in a new store, with its checkpoints, and returns their times and the disk.
fn make_store<D: Disk + Drop>(
    context: &Context<'_>,
    disk: D,
    shape: Shape,
) -> Result<(Parts, D), Fault> {
    let mut core = open_core(context.alloc, disk)?;
    let parts = time_parts(context, &mut core, shape);
    let disk = core.into_disk();
    Ok((parts?, disk))
}

/// Measures a state in a new store on this disk, and prints the result.
fn print_state<D: Disk + Drop>(
    context: &Context<'_>,
    disk: D,
    label: &str,
    shape: Shape,
) -> Result<(), Fault> {
    let (parts, disk) = make_store(context, disk, shape)?;
    let (opening, disk) = shortest_opening(context, disk)?;
    let bytes = disk.length(Slot::Image0).max(disk.length(Slot::Image1));
    let figures = [
        parts.cut,
        parts.closing,
        parts.slowest_piece,
        parts.end,
        bytes,
        parts.pieces,
        opening,
    ];
    context.print_row(label, &figures, &[]);
    Ok(())
}

/// Prints the cost of checkpoints and openings.
pub(crate) fn print_images(context: &Context<'_>) -> Result<(), Fault> {
    context.print_row(
        "nanoseconds of a checkpoint in memory: the cut, the image's closing, its slowest piece, its end; the image's bytes and pieces; nanoseconds for opening a store from it",
        &[],
        &[],
    );
    for (label, shape) in &STATES {
        print_state(context, PlainDisk::new(context.alloc), label, *shape)?;
    }
    Ok(())
}
