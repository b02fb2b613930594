//! Calls as lines of a script, each made by the task of a space, and the trait that makes them.

use crate::Fault;
use ipc_model::Call;
use script::read_request_line;
use std::alloc::Global;

/// A line: the space of the task, the text, the first number for its `#`, which increases by one each time, and the
/// number of repetitions.
pub(crate) type Line<'a> = (u32, &'a str, u32, u32);

/// Makes calls.
pub(crate) trait Maker {
    /// Makes a call of a task in this space. Returns true if it was done, or refused if that is expected.
    fn make(&mut self, space: u32, call: &Call, is_done: bool) -> bool;
}

/// A call of a task in a space.
#[derive(Drop)]
pub(crate) struct CostStep {
    pub(crate) space: u32,
    pub(crate) call: Call,
}

fn read_line(alloc: Global, line: &str) -> Result<Call, Fault> {
    match read_request_line(alloc, line.as_bytes()) {
        Ok(call) => Ok(call),
        Err(_) => Err(Fault::Call),
    }
}

/// Returns the call of a line, with this number in place of its `#`.
pub(crate) fn call_of(alloc: Global, line: &str, number: u32) -> Result<Call, Fault> {
    let Some((front, beyond)) = line.split_once('#') else {
        return read_line(alloc, line);
    };
    match format!(in alloc; "{front}{number}{beyond}") {
        Ok(encoding) => read_line(alloc, encoding.as_str()),
        Err(_) => Err(Fault::Memory),
    }
}

/// Makes the call of a line, which must be done.
pub(crate) fn make_once<M: Maker>(
    alloc: Global,
    maker: &mut M,
    space: u32,
    line: &str,
    number: u32,
) -> Result<(), Fault> {
    let call = call_of(alloc, line, number)?;
    if maker.make(space, &call, true) {
        Ok(())
    } else {
        Err(Fault::Call)
    }
}

/// Makes the calls of a line.
pub(crate) fn make_line<M: Maker>(
    alloc: Global,
    maker: &mut M,
    line: Line<'_>,
) -> Result<(), Fault> {
    let (space, encoding, first, count) = line;
    for number in first..first.saturating_add(count) {
        make_once(alloc, maker, space, encoding, number)?;
    }
    Ok(())
}

/// Makes the calls of lines.
pub(crate) fn make_lines<M: Maker>(
    alloc: Global,
    maker: &mut M,
    lines: &[Line<'_>],
) -> Result<(), Fault> {
    for line in lines {
        make_line(alloc, maker, *line)?;
    }
    Ok(())
}

/// Appends the calls of a line.
fn push_steps(alloc: Global, steps: &mut Vec<CostStep>, line: Line<'_>) -> Result<(), Fault> {
    let (space, encoding, first, count) = line;
    for number in first..first.saturating_add(count) {
        let call = call_of(alloc, encoding, number)?;
        if steps.push(CostStep { space, call }).is_err() {
            return Err(Fault::Memory);
        }
    }
    Ok(())
}

/// Returns the calls of lines.
pub(crate) fn steps_of(alloc: Global, lines: &[Line<'_>]) -> Result<Vec<CostStep>, Fault> {
    let mut steps = Vec::new(alloc);
    for line in lines {
        push_steps(alloc, &mut steps, *line)?;
    }
    Ok(steps)
}

/// Makes calls, each of which must be done.
pub(crate) fn make_steps<M: Maker>(maker: &mut M, steps: &[CostStep]) -> Result<(), Fault> {
    for step in steps {
        if !maker.make(step.space, &step.call, true) {
            return Err(Fault::Call);
        }
    }
    Ok(())
}
