use crate::expect::same;
use crate::names::{add_space, hold, hold_once, remove, rename};
use effects::{Effect, Effects, Notice};
use ipc_model::{Entry, PortRights};
use spaces::Spaces;
use std::alloc::Global;

/// Adds spaces 2 and 1, and commits them. The names 0x102 and 0x105 of space 2 and 0x103 of space 1 have rights to port
/// 7, each with a request.
fn fill(spaces: &mut Spaces) -> [Option<()>; 5] {
    let filled = [
        add_space(spaces, 2),
        add_space(spaces, 1),
        hold(spaces, 2, 0x105, 7, Some(9)),
        hold_once(spaces, 2, 0x102, 7, Some(9)),
        hold(spaces, 1, 0x103, 7, Some(8)),
    ];
    spaces.commit();
    filled
}

/// All of that was done.
const FILLED: [Option<()>; 5] = [Some(()); 5];

fn name_at(entries: &[(u32, Entry)], index: usize) -> Option<u32> {
    Some(entries.get(index)?.0)
}

/// The least three names of space 2.
type Names = [Option<u32>; 3];

fn names(alloc: Global, spaces: &Spaces) -> Option<Names> {
    let entries = spaces.entries(alloc, 2).ok()?;
    let names = [
        name_at(&entries, 0),
        name_at(&entries, 1),
        name_at(&entries, 2),
    ];
    drop(entries);
    Some(names)
}

/// Renames one name of space 2, removes one, and adds one.
fn rename_and_remove(spaces: &mut Spaces) -> [Option<()>; 3] {
    [
        rename(spaces, 2, 0x105, 0x101),
        remove(spaces, 2, 0x102),
        hold(spaces, 2, 0x100, 9, None),
    ]
}

/// The space was filled and twice changed; and its names.
type Renamed = ([Option<()>; 5], [[Option<()>; 3]; 2], [Option<Names>; 4]);

/// Returns the steps that were done; and the names of space 2: at first, after the changes, after a rollback, and after
/// the changes are made again and committed.
fn renamed(alloc: Global, spaces: &mut Spaces) -> Renamed {
    let filled = fill(spaces);
    let first = names(alloc, spaces);
    let changed = rename_and_remove(spaces);
    let now = names(alloc, spaces);
    spaces.roll_back();
    let given_up = names(alloc, spaces);
    let changed_again = rename_and_remove(spaces);
    spaces.commit();
    (
        filled,
        [changed, changed_again],
        [first, now, given_up, names(alloc, spaces)],
    )
}

#[test]
fn names_are_put_renamed_and_removed(rt: HostRuntime) {
    let mut spaces = Spaces::new(rt.alloc());
    let seen = renamed(rt.alloc(), &mut spaces);
    drop(spaces);
    let first = Some([Some(0x102), Some(0x105), None]);
    let now = Some([Some(0x100), Some(0x101), None]);
    let changed = [[Some(()); 3]; 2];
    same(&rt, seen, (FILLED, changed, [first, now, first, now]));
}

/// The name and the target of the next dead-name notice.
type NoticeSeen = Option<(u32, u64)>;

fn next_notice(effects: &mut Effects) -> NoticeSeen {
    match effects.take() {
        Some(
            Effect::Notify {
                target,
                notice: Notice::DeadName { name },
            },
        ) => Some((name, target)),
        _ => None,
    }
}

/// Returns the dead-name notices about port 7 when it dies, in their order.
fn reported(spaces: &mut Spaces, effects: &mut Effects) -> Option<[NoticeSeen; 4]> {
    spaces.bury(7, effects).ok()?;
    Some([
        next_notice(effects),
        next_notice(effects),
        next_notice(effects),
        next_notice(effects),
    ])
}

fn notices(alloc: Global, spaces: &mut Spaces) -> ([Option<()>; 5], Option<[NoticeSeen; 4]>) {
    let filled = fill(spaces);
    let mut effects = Effects::new(alloc);
    let seen = reported(spaces, &mut effects);
    drop(effects);
    (filled, seen)
}

#[test]
fn dead_names_come_by_space_and_name(rt: HostRuntime) {
    let mut spaces = Spaces::new(rt.alloc());
    let seen = notices(rt.alloc(), &mut spaces);
    drop(spaces);
    let wanted = [Some((0x103, 8)), Some((0x102, 9)), Some((0x105, 9)), None];
    same(&rt, seen, (FILLED, Some(wanted)));
}

/// The entries of the names; the numbers of their send and send-once rights to port 7, and of their send-once rights to
/// port 9.
type Held = ([Option<Entry>; 3], [u64; 3]);

fn held(spaces: &Spaces) -> Held {
    let entries = [
        spaces.entry(2, 0x105),
        spaces.entry(2, 0x102),
        spaces.entry(1, 0x103),
    ];
    let counts = [spaces.sends(7), spaces.send_onces(7), spaces.send_onces(9)];
    (entries, counts)
}

/// Makes a port die; no notice is sent.
fn die(alloc: Global, spaces: &mut Spaces, port: u64) -> Option<()> {
    let mut effects = Effects::new(alloc);
    let done = spaces.bury(port, &mut effects).ok();
    drop(effects);
    done
}

/// Returns the steps that were done; and the entries: after port 9 has died, after port 7 has died too, after space 2
/// is removed, and after a rollback.
fn buried(alloc: Global, spaces: &mut Spaces) -> ([Option<()>; 5], [Option<()>; 3], [Held; 4]) {
    let filled = fill(spaces);
    let first_died = die(alloc, spaces, 9);
    let without_9 = held(spaces);
    let second_died = die(alloc, spaces, 7);
    let without_7 = held(spaces);
    let removed = spaces.remove(2).ok();
    let without_space = held(spaces);
    spaces.roll_back();
    (
        filled,
        [first_died, second_died, removed],
        [without_9, without_7, without_space, held(spaces)],
    )
}

/// Returns an entry with a send right to port 7.
fn send(dead_name_target: Option<u64>) -> Option<Entry> {
    Some(Entry::Port(PortRights {
        port: 7,
        receive: false,
        send: 1,
        dead_name_target,
    }))
}

/// Returns an entry with a send-once right to port 7.
fn once(dead_name_target: Option<u64>) -> Option<Entry> {
    Some(Entry::SendOnce {
        port: 7,
        dead_name_target,
    })
}

/// Returns a dead name.
fn dead(references: u32) -> Option<Entry> {
    Some(Entry::Dead { references })
}

#[test]
fn names_die_and_a_space_goes(rt: HostRuntime) {
    let mut spaces = Spaces::new(rt.alloc());
    let (filled, done, seen) = buried(rt.alloc(), &mut spaces);
    drop(spaces);
    let wanted = [
        ([send(None), once(None), send(Some(8))], [2, 1, 0]),
        ([dead(1), dead(1), dead(2)], [0, 0, 0]),
        ([None, None, dead(2)], [0, 0, 0]),
        ([send(Some(9)), once(Some(9)), send(Some(8))], [2, 1, 2]),
    ];
    same(&rt, (filled, done), (FILLED, [Some(()); 3]));
    same(&rt, seen, wanted);
}
