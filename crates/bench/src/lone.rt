//! The cost of calls of a single connection, next to plain writes of as many bytes with two syncs each, which is the
//! least cost of a stored call.

use crate::Fault;
use crate::context::{Context, hundredths, per_second};
use crate::lines::call_of;
use crate::makers::open_alone;
use crate::plain::{PAIR, Plain};
use disk::Disk;
use server::Caller;
use std::alloc::Global;

/// Number of times that calls, requests and plain writes are timed, interleaved. The shortest time of each counts.
const TURNS: u32 = 25;

/// Number of times that the lines of each kind are made in a turn, number of request numbers that they use, and number
/// of plain writes.
const PAIRS: u64 = 25;

const NUMBERS: u32 = 50;

const TRIPS: u64 = 12;

const WRITES: u64 = 50;

/// Two ports: one for requests, and one for the replies.
static BEFORE: [&str; 2] = ["allocate receive", "allocate receive"];

/// Calls that are stored one by one.
static CALLS: [&str; 2] = ["allocate dead_name", "deallocate 0x102"];

/// The same calls with numbers.
static NUMBERED: [&str; 2] = [
    "numbered # allocate dead_name",
    "numbered # deallocate 0x102",
];

/// The calls of a request and its reply.
static TRIP: [&str; 4] = [
    "send make_send 0x100 local make_send_once 0x101 id 1",
    "receive 0x100 limit 100",
    "send move_send_once 0x102 id 2",
    "receive 0x101 limit 100",
];

/// Nanoseconds for calls, numbered calls, requests with their replies, and plain writes.
#[derive(Clone, Copy)]
struct Times {
    calls: u64,
    numbered: u64,
    trips: u64,
    writes: u64,
}

/// Makes a call, which must be acknowledged, with this number if its line has one.
fn make<C: Caller>(alloc: Global, caller: &mut C, line: &str, number: u32) -> Result<(), Fault> {
    match caller.call(call_of(alloc, line, number)?) {
        Ok(reply) if reply.is_success() => Ok(()),
        _ => Err(Fault::Call),
    }
}

/// Makes the calls of lines `times` times, with numbers after this one, and returns the time.
fn time_lines<C: Caller>(
    context: &Context<'_>,
    caller: &mut C,
    lines: &[&'static str],
    times: u64,
    last: u32,
) -> Result<u64, Fault> {
    let start = context.nanos();
    let mut number = last;
    for _ in 0..times {
        for line in lines {
            number = number.saturating_add(1);
            make(context.alloc, caller, line, number)?;
        }
    }
    Ok(context.since(start))
}

/// Measures one turn. Shorter times replace the former ones. Its numbers follow this one.
fn time_turn<C: Caller>(
    context: &Context<'_>,
    caller: &mut C,
    plain: &mut Plain,
    last: u32,
    least: Times,
) -> Result<Times, Fault> {
    let calls = time_lines(context, caller, &CALLS, PAIRS, 0)?;
    let numbered = time_lines(context, caller, &NUMBERED, PAIRS, last)?;
    let trips = time_lines(context, caller, &TRIP, TRIPS, 0)?;
    let writes = plain.time(context, PAIR, WRITES)?;
    Ok(Times {
        calls: calls.min(least.calls),
        numbered: numbered.min(least.numbered),
        trips: trips.min(least.trips),
        writes: writes.min(least.writes),
    })
}

fn time_turns<C: Caller>(
    context: &Context<'_>,
    caller: &mut C,
    plain: &mut Plain,
) -> Result<Times, Fault> {
    time_lines(context, caller, &BEFORE, 1, 0)?;
    let mut least = Times {
        calls: u64::MAX,
        numbered: u64::MAX,
        trips: u64::MAX,
        writes: u64::MAX,
    };
    let mut last = 0u32;
    for _ in 0..TURNS {
        least = time_turn(context, caller, plain, last, least)?;
        last = last.saturating_add(NUMBERS);
    }
    Ok(least)
}

/// Measures on a disk that has no store yet.
fn time_disk<D: Disk + Drop>(
    context: &Context<'_>,
    disk: D,
    plain: &mut Plain,
) -> Result<Times, Fault> {
    let mut alone = open_alone(context.alloc, disk)?;
    let times = time_turns(context, &mut alone, plain);
    let _ = alone.into_disk();
    times
}

/// Prints how many calls, numbered calls, requests with their replies (four calls each) and plain writes are made per
/// second, on a disk that has no store yet.
pub(crate) fn print_lone<D: Disk + Drop>(
    context: &Context<'_>,
    disk: Result<D, Fault>,
    plain: &mut Plain,
) -> Result<(), Fault> {
    let times = time_disk(context, disk?, plain)?;
    let calls = per_second(PAIRS.saturating_mul(2), times.calls);
    let numbered = per_second(PAIRS.saturating_mul(2), times.numbered);
    let trips = per_second(TRIPS, times.trips);
    let writes = per_second(WRITES, times.writes);
    context.print_row(
        "a second, of a lone connection: calls, numbered calls, round trips, pairs of syncs; each of the first three for a pair",
        &[],
        &[],
    );
    let ratios = [calls, numbered, trips].map(|rate| hundredths(rate, writes));
    context.print_row("lone", &[calls, numbered, trips, writes], &ratios);
    Ok(())
}
