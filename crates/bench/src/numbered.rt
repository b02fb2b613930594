//! The cost of numbered calls in memory, interleaved with the same calls without numbers.

use crate::Fault;
use crate::context::{Context, hundredths};
use crate::lines::{CostStep, call_of, make_steps};
use crate::messages::send_line;
use crate::turns::Machine;
use crate::ways::{ALL_WAYS, HERE};
use std::alloc::Global;

/// Number of times that calls are timed with numbers and without. The shortest time of each counts.
const TURNS: u32 = 15;

/// Number of calls in a turn, in pairs that leave the state unchanged.
const CALLS: u32 = 200;

/// Pairs of calls, and the length of the first one's message in bytes, if it is a send.
static PAIRS: [(&str, [&str; 2], u32); 4] = [
    (
        "allocate, destroy",
        ["allocate receive", "destroy 0x10c"],
        0,
    ),
    (
        "set_qlimit, twice",
        ["set_qlimit 0x100 6", "set_qlimit 0x100 5"],
        0,
    ),
    (
        "send, receive: 24 bytes",
        ["send make_send 0x100 id 7", "receive 0x100 limit 8192"],
        24,
    ),
    (
        "send, receive: 8 KiB",
        ["send make_send 0x100 id 7", "receive 0x100 limit 8192"],
        8_192,
    ),
];

/// Nanoseconds of a turn without numbers, and with them.
#[derive(Clone, Copy)]
struct Nanos {
    plain: u64,
    numbered: u64,
}

/// Returns the lines of a pair, with this prefix.
fn lines_of(
    alloc: Global,
    before: &str,
    pair: &[&'static str; 2],
    size: u32,
) -> Result<[String; 2], Fault> {
    let (first, second) = (pair[0], pair[1]);
    let (Ok(first), Ok(second)) = (
        format!(in alloc; "{before}{first}"),
        format!(in alloc; "{before}{second}"),
    ) else {
        return Err(Fault::Memory);
    };
    Ok([send_line(alloc, first.as_str(), size, 0)?, second])
}

/// Returns the calls of a turn. Lines with a number use numbers from this one on.
fn calls_of(alloc: Global, lines: &[String; 2], from: u32) -> Result<Vec<CostStep>, Fault> {
    let mut steps = Vec::new(alloc);
    for place in 0..CALLS {
        let line = if place % 2 == 0 { &lines[0] } else { &lines[1] };
        let call = call_of(alloc, line.as_str(), from.saturating_add(place))?;
        if steps.push(CostStep { space: HERE, call }).is_err() {
            return Err(Fault::Memory);
        }
    }
    Ok(steps)
}

/// Returns the time for the calls of a turn.
fn time_calls<M: Machine>(
    context: &Context<'_>,
    machine: &mut M,
    lines: &[String; 2],
    from: u32,
) -> Result<u64, Fault> {
    let steps = calls_of(context.alloc, lines, from)?;
    let start = context.nanos();
    make_steps(machine, &steps)?;
    Ok(context.since(start))
}

/// Returns the shortest times of a pair of calls.
fn time_pair<M: Machine>(
    context: &Context<'_>,
    machine: &mut M,
    plain: &[String; 2],
    numbered: &[String; 2],
    from: u32,
) -> Result<Nanos, Fault> {
    let mut least = Nanos {
        plain: u64::MAX,
        numbered: u64::MAX,
    };
    for turn in 0..TURNS {
        let from = from.saturating_add(turn.saturating_mul(CALLS));
        least = Nanos {
            plain: least.plain.min(time_calls(context, machine, plain, from)?),
            numbered: least
                .numbered
                .min(time_calls(context, machine, numbered, from)?),
        };
    }
    Ok(least)
}

/// Measures the pairs in the small state, and prints the time of one call of each.
fn print_pairs<M: Machine>(context: &Context<'_>, machine: &mut M) -> Result<(), Fault> {
    let mut from = 1u32;
    for (label, pair, size) in &PAIRS {
        let plain = lines_of(context.alloc, "", pair, *size)?;
        let numbered = lines_of(context.alloc, "numbered # ", pair, *size)?;
        let least = time_pair(context, machine, &plain, &numbered, from)?;
        let calls = u64::from(CALLS);
        context.print_row(
            label,
            &[least.plain / calls, least.numbered / calls],
            &[hundredths(least.numbered, least.plain)],
        );
        from = from.saturating_add(TURNS.saturating_mul(CALLS));
    }
    Ok(())
}

/// Prints the cost of numbered calls.
pub(crate) fn print_numbered<M: Machine + Drop>(context: &Context<'_>) -> Result<(), Fault> {
    context.print_row(
        "nanoseconds of a call without a number, and with one; how many times as long",
        &[],
        &[],
    );
    let Some(mut machine) = M::opened(context.alloc) else {
        return Err(Fault::Memory);
    };
    ALL_WAYS[0].make(context.alloc, &mut machine)?;
    print_pairs(context, &mut machine)
}
