//! Calls that are measured in memory, interleaved, in a small state and in larger ones.

use crate::Fault;
use crate::context::{Context, hundredths};
use crate::lines::{CostStep, Maker, steps_of};
use crate::ways::{ALL_WAYS, Alongside, NEXT, WAYS};
use std::alloc::Global;

/// Maximum number of parts in a row.
const MOST_PARTS: usize = 16;

/// Number of times that a row is measured in each way, interleaved. The shortest time of each counts, because other
/// work slows the machine for longer than a turn.
const TURNS: u32 = 15;

/// Calls that are timed together: a label, which is empty if they aren't printed, and their line.
pub(crate) type Part<'a> = (&'a str, u32, &'a str, u32, u32);

/// Parts that together leave the state unchanged: a label for all of them, which is empty if it isn't printed; the
/// number of repetitions in a turn; and true if they are done instead of refused.
#[derive(Clone, Copy)]
pub(crate) struct CostLine<'a> {
    pub(crate) label: &'a str,
    pub(crate) parts: &'a [Part<'a>],
    pub(crate) rounds: u64,
    pub(crate) is_done: bool,
}

/// Makes calls in memory.
pub(crate) trait Machine: Maker {
    /// Creates a machine in the opening state.
    fn opened(alloc: Global) -> Option<Self>;
}

/// A machine in the state of a way.
#[derive(Drop)]
pub(crate) struct Placed<M> {
    machine: M,
    next_space: u32,
}

/// Nanoseconds of the parts of a row.
type Nanos = [u64; MOST_PARTS];

fn place<M: Machine + Drop>(alloc: Global, alongside: Alongside) -> Result<Placed<M>, Fault> {
    let Some(mut machine) = M::opened(alloc) else {
        return Err(Fault::Memory);
    };
    alongside.make(alloc, &mut machine)?;
    let next_space = alongside.next_space();
    Ok(Placed {
        machine,
        next_space,
    })
}

/// Returns a machine in the state of each way, with at most this many extra names.
pub(crate) fn place_all<M: Machine + Drop>(
    alloc: Global,
    most_names: u32,
) -> Result<Vec<Placed<M>>, Fault> {
    let mut machines = Vec::new(alloc);
    for alongside in &ALL_WAYS {
        let placed = place(alloc, alongside.with_names(most_names))?;
        if machines.push(placed).is_err() {
            return Err(Fault::Memory);
        }
    }
    Ok(machines)
}

/// Returns the calls of each part.
fn parts_of(alloc: Global, row: &CostLine<'_>) -> Result<Vec<Vec<CostStep>>, Fault> {
    let mut parts = Vec::new(alloc);
    for (_, space, line, first, count) in row.parts {
        let steps = steps_of(alloc, &[(*space, *line, *first, *count)])?;
        if parts.push(steps).is_err() {
            return Err(Fault::Memory);
        }
    }
    Ok(parts)
}

/// Returns the time for calls.
fn time_steps<M: Machine>(
    context: &Context<'_>,
    placed: &mut Placed<M>,
    steps: &[CostStep],
    is_done: bool,
) -> Result<u64, Fault> {
    let start = context.nanos();
    for step in steps {
        let space = if step.space == NEXT {
            placed.next_space
        } else {
            step.space
        };
        if !placed.machine.make(space, &step.call, is_done) {
            return Err(Fault::Call);
        }
    }
    Ok(context.since(start))
}

/// Makes each part once, and adds the time of each.
fn time_round<M: Machine>(
    context: &Context<'_>,
    placed: &mut Placed<M>,
    parts: &[Vec<CostStep>],
    is_done: bool,
    sums: &mut Nanos,
) -> Result<(), Fault> {
    for (steps, sum) in parts.iter().zip(sums.iter_mut()) {
        let nanos = time_steps(context, placed, steps, is_done)?;
        *sum = sum.saturating_add(nanos);
    }
    Ok(())
}

/// Returns the times for the parts of a row in a turn.
fn time_turn<M: Machine>(
    context: &Context<'_>,
    placed: &mut Placed<M>,
    parts: &[Vec<CostStep>],
    row: &CostLine<'_>,
) -> Result<Nanos, Fault> {
    let mut sums = [0; MOST_PARTS];
    for _ in 0..row.rounds {
        time_round(context, placed, parts, row.is_done, &mut sums)?;
    }
    Ok(sums)
}

/// Replaces times by shorter ones.
fn lower(least: &mut Nanos, nanos: &Nanos) {
    for (shortest, time) in least.iter_mut().zip(nanos) {
        *shortest = (*shortest).min(*time);
    }
}

/// Measures one turn in each way.
fn time_ways<M: Machine>(
    context: &Context<'_>,
    machines: &mut [Placed<M>],
    parts: &[Vec<CostStep>],
    row: &CostLine<'_>,
    least: &mut [Nanos; WAYS],
) -> Result<(), Fault> {
    for (placed, shortest) in machines.iter_mut().zip(least.iter_mut()) {
        let nanos = time_turn(context, placed, parts, row)?;
        lower(shortest, &nanos);
    }
    Ok(())
}

/// Returns the shortest times of each part in each way.
fn time_row<M: Machine>(
    context: &Context<'_>,
    machines: &mut [Placed<M>],
    row: &CostLine<'_>,
) -> Result<[Nanos; WAYS], Fault> {
    let parts = parts_of(context.alloc, row)?;
    let mut least = [[u64::MAX; MOST_PARTS]; WAYS];
    for _ in 0..TURNS {
        time_ways(context, machines, &parts, row, &mut least)?;
    }
    Ok(least)
}

/// Returns the times of a part in each way.
fn times_of(least: &[Nanos; WAYS], place: usize) -> [u64; WAYS] {
    let mut times = [0; WAYS];
    for (time, nanos) in times.iter_mut().zip(least) {
        *time = nanos.get(place).copied().unwrap_or(0);
    }
    times
}

/// Returns the times of all parts together in each way.
fn sums_of(least: &[Nanos; WAYS]) -> [u64; WAYS] {
    let mut sums = [0u64; WAYS];
    for (sum, nanos) in sums.iter_mut().zip(least) {
        *sum = nanos
            .iter()
            .fold(0, |all: u64, one| all.saturating_add(*one));
    }
    sums
}

/// Prints the nanoseconds for one of `count` in the small state, and the ratio of each other way to it.
fn print_times(context: &Context<'_>, label: &str, count: u64, times: &[u64; WAYS]) {
    if label.is_empty() {
        return;
    }
    let little = times[0];
    let mut ratios = [0; WAYS];
    for (ratio, time) in ratios.iter_mut().zip(times) {
        *ratio = hundredths(*time, little);
    }
    let each = little.checked_div(count).unwrap_or(0);
    context.print_row(label, &[each], &ratios[1..]);
}

/// Measures the calls of a row, and prints the time for one of `count`: of each part, and of all parts together.
pub(crate) fn print_row<M: Machine>(
    context: &Context<'_>,
    machines: &mut [Placed<M>],
    row: &CostLine<'_>,
    count: u64,
) -> Result<(), Fault> {
    let least = time_row(context, machines, row)?;
    for (place, (label, _, _, _, count)) in row.parts.iter().enumerate() {
        let count = row.rounds.saturating_mul(u64::from(*count));
        print_times(context, label, count, &times_of(&least, place));
    }
    let count = row.rounds.saturating_mul(count);
    print_times(context, row.label, count, &sums_of(&least));
    Ok(())
}
