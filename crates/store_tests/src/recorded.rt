use crate::asked::Asked;
use crate::calls_made::read;
use crate::expect::same;
use crate::machine::{Machine, Words, after_allocated};
use ipc_model::{Call, Reply};
use kernel::{Kernel, Recorder};
use std::alloc::{AllocError, Global};

/// Counts the records that it is given, unless it is out of memory.
#[derive(Drop)]
pub(crate) struct Counter {
    has_memory: bool,
    written: u32,
}

impl Recorder for Counter {
    ghost has_room = { λ _. Unit {0} };

    ghost wrote = { λ _ _ _ _ _. Unit {0} };

    fn write(&mut self, _space: u32, _call: &Call, _reply: &Reply) -> Result<(), AllocError> {
        if !self.has_memory {
            return Err(AllocError);
        }
        self.written = self.written.saturating_add(1);
        Ok(())
    }
}

/// The observed state of a kernel: its calls that allocate nothing, the type of the next name, and the number of
/// counted records.
type Seen = ([Words; 4], Words, u32);

fn seen<M: Machine>(machine: &M, counter: &Counter) -> Seen {
    (read(machine), machine.type_of(1, 0x101), counter.written)
}

/// Returns true if a call changes nothing when there is no memory for its record; and the reply when there is memory.
fn tried<M: Machine>(alloc: Global, machine: &mut M, call: &Call) -> (bool, Option<Words>, u32) {
    let mut counter = Counter {
        has_memory: false,
        written: 0,
    };
    let before = seen(machine, &counter);
    let refused = machine.make_recorded(alloc, call, &mut counter).is_none();
    let is_same = seen(machine, &counter) == before;
    counter.has_memory = true;
    let answer = machine.make_recorded(alloc, call, &mut counter);
    (refused && is_same, answer, counter.written)
}

/// Returns the same for a call in a state with one port.
fn tried_alongside_one_port<M: Machine + Drop>(
    alloc: Global,
    asked: Asked,
) -> Option<(bool, Option<Words>, u32)> {
    let mut machine: M = after_allocated(alloc, 1, 0x100)?;
    let call = asked.call();
    let seen = tried(alloc, &mut machine, &call);
    drop(call);
    drop(machine);
    Some(seen)
}

/// A call, and its reply's words.
static RECORDED: [(Asked, Words); 2] = [
    (Asked::Allocate(1), [5, 0, 0x101, 0]),
    (Asked::Destroy(0x100), [6, 0, 0, 0]),
];

#[test]
fn a_step_without_its_record_is_rolled_back(rt: HostRuntime) {
    for (asked, words) in &RECORDED {
        let found = tried_alongside_one_port::<Kernel>(rt.alloc(), *asked);
        same(&rt, found, Some((true, Some(*words), 1)));
    }
}
