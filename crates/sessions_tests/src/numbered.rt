//! A numbered call that two connections of a space ask for, and a third after a crash at each call of the device.
ghost use Rattle.std.specs.Prelude.{◌≡◌};
ghost use Rattle.std.specs.Arc.{arc_value};

use crate::asking::asked;
use crate::expect::same;
use crate::service::{Admitting, Service, run_both_loops};
use crate::shares::{Start, shared_from, start_on};
use disk::{MemDisk, Torn};
use ipc_model::{Call, NumberedCall, PlainCall, PlainReply, Reply};
use sessions::{Founding, OpenGate};
use std::alloc::Global;
use std::marker::Brand;
use std::sync::Wait;
use std::thread::{Threads, join};
use std::time::Clock;

/// The device calls at which a crash comes: a new store is made with 24, and then records are stored, the segment
/// rotates and an image is made.
const FIRST_CRASH: u64 = 25;

const LAST_CRASH: u64 = 45;

static KINDS: [Torn; 3] = [Torn::Old, Torn::New, Torn::Half];

/// The names that the first and the second connection were given, and how many names their space has then.
type Given = (Option<u32>, Option<u32>, Option<usize>);

/// What each is given where the call was made once.
const ONCE: Given = (Some(0x100), Some(0x100), Some(1));

/// What is seen before a crash, and of a store that it left.
type Seen = (Option<Given>, Option<Given>);

fn name_in(reply: Option<Reply>) -> Option<u32> {
    match reply {
        Some(Reply::Numbered(answer)) | Some(Reply::Repeated(answer)) => match answer.reply {
            PlainReply::Allocate { name } => Some(name),
            _ => None,
        },
        _ => None,
    }
}

fn count_in(reply: Option<Reply>) -> Option<usize> {
    match reply {
        Some(Reply::Plain(PlainReply::Names { names })) => Some(names.as_slice().len()),
        _ => None,
    }
}

/// Allocates a receive right under number 1, once.
fn allocates_once<S: Service, R: Wait>(
    rt: &R,
    service: &S,
    session: S::Session,
) -> (S::Session, Option<u32>) {
    let call = Call::Numbered(NumberedCall {
        request: 1,
        call: PlainCall::Allocate { right: 1 },
    });
    let (session, reply) = asked(rt, service, session, &call);
    (session, name_in(reply))
}

/// Asks in two new sessions, and then for the names of their space.
fn ask_twice<S: Service, R: Wait>(rt: &R, service: &S) -> Option<Given> {
    let one = service.begin(rt)?;
    let other = service.begin(rt)?;
    let (one, first) = allocates_once(rt, service, one);
    let (_, second) = allocates_once(rt, service, other);
    let (_, names) = asked(rt, service, one, &Call::Plain(PlainCall::Names));
    Some((first, second, count_in(names)))
}

/// The same, after which the loops are told to end.
fn ask_and_end<S: Service, R: Wait>(rt: &R, service: &S) -> Option<Given> {
    let given = ask_twice(rt, service);
    service.end(rt);
    given
}

/// The same alongside both loops, of which one makes an image after the first record.
fn ask_alongside_the_loops<S: Service + Sync, R: Threads + Wait + Clock + Sync>(
    rt: &R,
    service: &S,
) -> Option<Given> {
    let (_, given) = join(
        rt,
        || run_both_loops(rt, service, 1),
        || ask_and_end(rt, service),
    );
    given
}

/// The same in the history that begins there, and its disk.
fn given_from<L: Founding + Send + Sync, R: Threads + Wait + Clock + Sync>(
    rt: &R,
    alloc: Global,
    start: Start<MemDisk>,
) -> Option<(Option<Given>, MemDisk)>
    requires base { start.opened.kernel ≡ L.base }
    requires row { arc_value start.row ≡ L.first }
    requires blank { (start.blank.name ≡ L.name) × (start.blank.parts ≡ L.parts) }
    requires mark { start.mark ≡ L.table }
{
    let shared: Admitting<L, MemDisk, OpenGate> = shared_from(alloc, start, OpenGate)?;
    let given = ask_alongside_the_loops(rt, &shared);
    Some((given, shared.into_disk(Vec::new(alloc))))
}

/// The same on a disk. `None` if its store can't be opened.
fn given_on<R: Threads + Wait + Clock + Sync>(
    rt: &R,
    alloc: Global,
    disk: MemDisk,
) -> Option<(Option<Given>, MemDisk)> {
    let start = start_on(alloc, disk)?;
    given_from::<Brand, R>(rt, alloc, start)
}

/// What is seen of a new store before a crash at this device call and after it.
fn seen_with_crash<R: Threads + Wait + Clock + Sync>(
    rt: &R,
    alloc: Global,
    stop_at: u64,
    torn: Torn,
) -> Option<Seen> {
    let mut disk = MemDisk::new(alloc);
    disk.plan(Some(stop_at), None, torn);
    let (before, disk) = given_on(rt, alloc, disk)?;
    let (after, disk) = given_on(rt, alloc, disk.after_crash().ok()?)?;
    drop(disk);
    Some((before, after))
}

fn is_first_or_none(name: Option<u32>) -> bool {
    name.is_none() || name == Some(0x100)
}

/// Returns whether the call was made once: whoever was given a name was given the first one, and after the crash
/// everybody is.
fn is_once(seen: &Option<Seen>) -> bool {
    let Some((Some((first, second, _)), Some(after))) = seen else {
        return false;
    };
    is_first_or_none(*first) && is_first_or_none(*second) && *after == ONCE
}

/// The first crash after which the call was made twice or not at all, with what was seen.
fn first_wrong<R: Threads + Wait + Clock + Sync>(
    rt: &R,
    alloc: Global,
) -> Option<(u64, Torn, Option<Seen>)> {
    for torn in &KINDS {
        for stop_at in FIRST_CRASH..=LAST_CRASH {
            let seen = seen_with_crash(rt, alloc, stop_at, *torn);
            if !is_once(&seen) {
                return Some((stop_at, *torn, seen));
            }
        }
    }
    None
}

#[test]
fn a_numbered_call_is_made_once_with_a_crash_at_each_device_call(rt: HostRuntime) {
    same(&rt, first_wrong(&rt, rt.alloc()), None);
}

#[test]
fn two_connections_of_a_space_share_its_request(rt: HostRuntime) {
    let seen = given_on(&rt, rt.alloc(), MemDisk::new(rt.alloc()));
    let given = match seen {
        Some((given, _)) => given,
        None => None,
    };
    same(&rt, given, Some(ONCE));
}
