//! The memory and the size of a store whose single connection runs for long, with calls that leave the state unchanged.

use crate::Fault;
use crate::context::{Context, Folder, hundredths};
use crate::makers::open_alone;
use crate::watched::{Watch, Watched};
use disk::Disk;
use plain_disk::PlainDisk;
use server::{Caller, serve};
use std::alloc::Global;
use words::take_word;

/// The call before the others: it allocates the receive right 0x100.
static BEFORE: [u8; 12] = [8, 0, 0, 0, 5, 0, 0, 0, 1, 0, 0, 0];

/// The calls that are repeated. They change only the sequence number and the make-send count of the first port, and the
/// next port's serial number.
static CYCLE: [&[u8]; 8] = [
    // Allocates the receive right 0x101.
    &[8, 0, 0, 0, 5, 0, 0, 0, 1, 0, 0, 0],
    // Adds a send right to the name.
    &[
        16, 0, 0, 0, 17, 0, 0, 0, 1, 1, 0, 0, 1, 1, 0, 0, 20, 0, 0, 0,
    ],
    // Sends a message of 24 bytes to 0x100, with a send-once right to 0x101.
    &[
        44, 0, 0, 0, 19, 0, 0, 0, 1, 0, 0, 0, 0, 0, 0, 0, 0, 0, 0, 0, 0, 0, 0, 0, 20, 21, 0, 0, 24,
        0, 0, 0, 0, 1, 0, 0, 1, 1, 0, 0, 0, 0, 0, 0, 7, 0, 0, 0,
    ],
    // Receives the message; the right gets the name 0x102.
    &[
        20, 0, 0, 0, 19, 0, 0, 0, 2, 0, 0, 0, 24, 0, 0, 0, 0, 1, 0, 0, 0, 0, 0, 0,
    ],
    // Two reads: the type of 0x102, and the number of send rights under 0x101.
    &[8, 0, 0, 0, 2, 0, 0, 0, 2, 1, 0, 0],
    &[12, 0, 0, 0, 8, 0, 0, 0, 1, 1, 0, 0, 0, 0, 0, 0],
    // Releases the send-once right, which sends a notice to 0x101, and destroys 0x101 with the notice.
    &[8, 0, 0, 0, 7, 0, 0, 0, 2, 1, 0, 0],
    &[8, 0, 0, 0, 6, 0, 0, 0, 1, 1, 0, 0],
];

/// Number of cycles that are sent at once: 1,000 frames, of which 750 are recorded.
const AT_ONCE: u32 = 125;

const FRAMES: u64 = 1_000;

/// Thousands of calls in memory, and on files, at which the first period and the second one end.
const IN_MEMORY: (u32, u32) = (100, 1_000);

const ON_FILES: (u32, u32) = (100, 300);

/// Length of a period in thousands of calls. It has 33,000 records, so that it includes each phase of an epoch of
/// 32,768 records, with the checkpoint, wherever it ends. The two periods end in different phases: with the first call,
/// 100,000 calls have 75,001 records, 9,465 of them in the third epoch, and 1,000,000 calls have 750,001, 29,105 of
/// them in the twenty-third.
const LOOK: u32 = 44;

/// Maximum values: resident memory in kilobytes, and the size of the store in bytes.
#[derive(Clone, Copy)]
struct Most {
    memory: u64,
    bytes: u64,
}

const NOTHING: Most = Most {
    memory: 0,
    bytes: 0,
};

/// Returns the bytes after a reply with code 0.
fn after_done(replies: &[u8]) -> Option<&[u8]> {
    let (length, reply) = take_word(replies)?;
    let (_, results) = take_word(reply)?;
    let (code, _) = take_word(results)?;
    if code != 0 {
        return None;
    }
    reply.get(length as usize..)
}

/// Returns true if the bytes are `count` replies, each with code 0.
fn are_done(replies: &[u8], count: u64) -> bool {
    let mut rest = replies;
    for _ in 0..count {
        match after_done(rest) {
            Some(beyond) => rest = beyond,
            None => return false,
        }
    }
    rest.is_empty()
}

/// Returns the frames that are sent at once.
fn frames_at_once(alloc: Global) -> Result<Vec<u8>, Fault> {
    let mut frames = Vec::new(alloc);
    for _ in 0..AT_ONCE {
        for frame in &CYCLE {
            if frames.extend_from_slice(frame).is_err() {
                return Err(Fault::Call);
            }
        }
    }
    Ok(frames)
}

/// Sends frames to a caller; each must be done.
fn serve_frames<C: Caller>(
    alloc: Global,
    caller: &mut C,
    frames: &[u8],
    count: u64,
) -> Result<(), Fault> {
    let mut rest = frames;
    let mut replies = Vec::new(alloc);
    if serve(alloc, &mut rest, &mut replies, caller).is_err() {
        return Err(Fault::Store);
    }
    if are_done(&replies, count) {
        Ok(())
    } else {
        Err(Fault::Call)
    }
}

/// Sends `thousands` thousands of frames, and returns the maximum values after each thousand.
fn serve_thousands<C: Caller>(
    context: &Context<'_>,
    caller: &mut C,
    watch: &Watch,
    frames: &[u8],
    thousands: u32,
) -> Result<Most, Fault> {
    let mut most = NOTHING;
    for _ in 0..thousands {
        serve_frames(context.alloc, caller, frames, FRAMES)?;
        most.memory = most.memory.max(context.memory("VmRSS:"));
        most.bytes = most.bytes.max(watch.bytes());
    }
    Ok(most)
}

/// Sends frames up to two counts of calls, and returns the maximum values of the period that ends at each.
fn serve_long<C: Caller>(
    context: &Context<'_>,
    caller: &mut C,
    watch: &Watch,
    frames: &[u8],
    thousands: (u32, u32),
) -> Result<(Most, Most), Fault> {
    let (first, second) = thousands;
    serve_frames(context.alloc, caller, &BEFORE, 1)?;
    serve_thousands(context, caller, watch, frames, first.saturating_sub(LOOK))?;
    let early = serve_thousands(context, caller, watch, frames, LOOK)?;
    let between = second.saturating_sub(first).saturating_sub(LOOK);
    serve_thousands(context, caller, watch, frames, between)?;
    let late = serve_thousands(context, caller, watch, frames, LOOK)?;
    Ok((early, late))
}

/// Prints the maximum values of both periods, and the ratio of the second to the first.
fn print_looks(context: &Context<'_>, early: Most, late: Most) {
    for (label, first, second) in [
        ("resident memory, kB", early.memory, late.memory),
        ("bytes of the four slots", early.bytes, late.bytes),
    ] {
        context.print_row(label, &[first, second], &[hundredths(second, first)]);
    }
}

/// Prints the values of a store on a disk after two counts of thousands of calls.
fn print_on<D: Disk + Drop>(
    context: &Context<'_>,
    disk: Result<D, Fault>,
    frames: &[u8],
    thousands: (u32, u32),
) -> Result<(), Fault> {
    let watch = Watch::new(false);
    let watched = Watched {
        disk: disk?,
        watch: &watch,
    };
    let mut alone = open_alone(context.alloc, watched)?;
    let served = serve_long(context, &mut alone, &watch, frames, thousands);
    let _ = alone.into_disk();
    let (early, late) = served?;
    print_looks(context, early, late);
    Ok(())
}

/// Prints the values of stores that run for long.
pub(crate) fn print_steady<F: Folder>(context: &Context<'_>, folder: &F) -> Result<(), Fault> {
    let frames = frames_at_once(context.alloc)?;
    context.print_row(
        "the most within an epoch of a store that goes on for long, in memory: after 100 thousand calls, after a million",
        &[],
        &[],
    );
    print_on(
        context,
        Ok(PlainDisk::new(context.alloc)),
        &frames,
        IN_MEMORY,
    )?;
    context.print_row(
        "on files, without syncs: after 100 thousand calls, after 300 thousand",
        &[],
        &[],
    );
    print_on(context, folder.new_files(), &frames, ON_FILES)
}
