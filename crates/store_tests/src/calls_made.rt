//! Calls and their replies.
use crate::asked::Asked;
use crate::expect::same;
use crate::machine::{Machine, Words, after_allocated, ask, ask_all};
use crate::replayed::PORTS_IN_A_SET;
use kernel::Kernel;
use std::alloc::Global;

/// Returns the replies to the calls that allocate nothing, as words.
pub(crate) fn read<M: Machine>(machine: &M) -> [Words; 4] {
    [
        machine.type_of(1, 0x100),
        machine.type_of(2, 0x100),
        machine.references(),
        machine.status(),
    ]
}

/// Returns these replies in a state with one port.
fn read_one_port<M: Machine + Drop>(alloc: Global) -> Option<[Words; 4]> {
    let machine: M = after_allocated(alloc, 1, 0x100)?;
    let words = read(&machine);
    drop(machine);
    Some(words)
}

#[test]
fn reads_without_memory(rt: HostRuntime) {
    let answered = read_one_port::<Kernel>(rt.alloc());
    let wanted = [
        [2, 0, 0x2_0000, 0],
        [2, 16, 0, 0],
        [8, 0, 1, 0],
        [13, 0, 0, 0],
    ];
    same(&rt, answered, Some(wanted));
}

/// The caller's space, a call, and its reply's words.
type Row = (u32, Asked, Words);

static UNRECORDED: [Row; 3] = [
    (1, Asked::Allocate(2), [5, 18, 0, 0]),
    (1, Asked::Type(0x100), [2, 0, 0x2_0000, 0]),
    (2, Asked::Type(0x100), [2, 16, 0, 0]),
];

/// Returns the reply to a call, from a copy and in place.
fn both_answers<M: Machine>(
    machine: &mut M,
    space: u32,
    asked: Asked,
) -> [Option<Option<Words>>; 2] {
    let call = asked.call();
    let answers = [
        machine.answered(space, &call),
        machine.answered_in_place(space, &call),
    ];
    drop(call);
    answers
}

/// Returns true if each of these calls gets this reply, in place too, and a recorded call gets none.
fn answers_so<M: Machine>(machine: &mut M) -> bool {
    for (space, asked, words) in &UNRECORDED {
        if both_answers(machine, *space, *asked) != [Some(Some(*words)); 2] {
            return false;
        }
    }
    both_answers(machine, 1, Asked::Allocate(1)) == [Some(None); 2]
}

/// Returns true if the calls get these replies in a state with one port.
fn answers_alongside_one_port<M: Machine + Drop>(alloc: Global) -> Option<bool> {
    let mut machine: M = after_allocated(alloc, 1, 0x100)?;
    let answers = answers_so(&mut machine);
    drop(machine);
    Some(answers)
}

#[test]
fn answers_what_has_no_record(rt: HostRuntime) {
    let answered = answers_alongside_one_port::<Kernel>(rt.alloc());
    same(&rt, answered, Some(true));
}

/// Allocates ports under the names from 0x101 to 0x10ff in spaces 1 to 4.
fn nearly_fill<M: Machine>(machine: &mut M) -> Option<()> {
    for space in 1..5 {
        for _ in 0x101..0x1100 {
            ask(machine, space, Asked::Allocate(1))?;
        }
    }
    Some(())
}

/// Spaces 2 to 5 are created, each with a port under 0x100, as in space 1.
static SPACES_MADE: [Row; 5] = [
    (1, Asked::Allocate(1), [5, 0, 0x100, 0]),
    (1, Asked::SpaceCreate, [20, 0, 2, 0x100]),
    (1, Asked::SpaceCreate, [20, 0, 3, 0x100]),
    (1, Asked::SpaceCreate, [20, 0, 4, 0x100]),
    (1, Asked::SpaceCreate, [20, 0, 5, 0x100]),
];

static FULL_OF_PORTS: [Row; 10] = [
    (5, Asked::Allocate(1), [5, 0, 0x101, 0]),
    (5, Asked::Allocate(1), [5, 0, 0x102, 0]),
    (5, Asked::Allocate(1), [5, 0, 0x103, 0]),
    (5, Asked::Allocate(1), [5, 6, 0, 0]),
    (5, Asked::AllocateName, [4, 6, 0, 0]),
    (5, Asked::Allocate(3), [5, 0, 0x104, 0]),
    (1, Asked::Allocate(1), [5, 3, 0, 0]),
    (1, Asked::AllocateName, [4, 3, 0, 0]),
    (5, Asked::Destroy(0x103), [6, 0, 0, 0]),
    (5, Asked::AllocateName, [4, 0, 0, 0]),
];

/// Makes calls, and returns true if each gets its reply.
fn is_answered_so<M: Machine>(machine: &mut M, rows: &[Row]) -> bool {
    for (space, asked, words) in rows {
        if ask(machine, *space, *asked) != Some(*words) {
            return false;
        }
    }
    true
}

/// Four spaces hold 16,381 ports; three more ports can be made, and no others. Returns flags: the spaces are created,
/// they are filled, and this is true.
fn fills_up<M: Machine + Drop>(alloc: Global) -> Option<(bool, Option<()>, bool)> {
    let mut machine = M::opened(alloc)?;
    let made = is_answered_so(&mut machine, &SPACES_MADE);
    let filled = nearly_fill(&mut machine);
    let full = is_answered_so(&mut machine, &FULL_OF_PORTS);
    drop(machine);
    Some((made, filled, full))
}

// The ports are made in a kernel alone, because a disk in memory copies a slot at each write.
#[test]
fn there_are_16384_ports(rt: HostRuntime) {
    let seen = fills_up::<Kernel>(rt.alloc());
    same(&rt, seen, Some((true, Some(()), true)));
}

/// Returns the code of a receive.
fn code_of_receive<M: Machine>(machine: &mut M, name: u32, waited: bool) -> Option<u32> {
    let [code, ..] = ask(machine, 1, Asked::Receive(name, waited))?;
    Some(code)
}

/// Two ports were put in a set; and the codes of receives from a port in the set and from one that doesn't exist,
/// without and after a wait.
type Receipts = (Option<()>, [Option<u32>; 4]);

fn receives_without_a_port<M: Machine + Drop>(alloc: Global) -> Option<Receipts> {
    let mut machine = M::opened(alloc)?;
    let made = ask_all(&mut machine, &PORTS_IN_A_SET);
    let codes = [
        code_of_receive(&mut machine, 0x100, false),
        code_of_receive(&mut machine, 0x100, true),
        code_of_receive(&mut machine, 0x1ff, false),
        code_of_receive(&mut machine, 0x1ff, true),
    ];
    Some((made, codes))
}

#[test]
fn a_wait_changes_the_code(rt: HostRuntime) {
    let codes = receives_without_a_port::<Kernel>(rt.alloc());
    // IN_SET and PORT_CHANGED, INVALID_NAME and PORT_DIED.
    let wanted = [
        Some(0x1000_400a),
        Some(0x1000_4006),
        Some(0x1000_4002),
        Some(0x1000_4009),
    ];
    same(&rt, codes, Some((Some(()), wanted)));
}
