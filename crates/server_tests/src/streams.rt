//! Readers and writers that show how a connection reads and writes.
use crate::expect::same;
use crate::frames::{Run, caller, serve_on, three_calls};
use crate::store::Store;
use disk::MemDisk;
use server::{Caller, ServeFault, serve};
use std::alloc::Global;
use std::cell::Cell;
use std::io;
use std::io::{ErrorKind, Read, Write};
use wire::WireFault;

/// What a stream was asked for.
#[derive(Drop)]
pub(crate) struct Seen {
    /// Bytes that were written since the last flush.
    unflushed: Cell<usize>,
    /// How many times a byte was asked for while a reply wasn't flushed.
    early: Cell<usize>,
    /// How many bytes were read.
    read: Cell<usize>,
}

impl Seen {
    pub(crate) fn new() -> Seen {
        Seen {
            unflushed: Cell::new(0),
            early: Cell::new(0),
            read: Cell::new(0),
        }
    }
}

/// Gives one byte per read.
#[derive(Drop)]
struct Dripping<'a> {
    rest: &'a [u8],
    seen: &'a Seen,
}

impl<'a> Read for Dripping<'a> {
    fn read(&mut self, buffer: &mut [u8]) -> io::Result<usize> {
        if self.seen.unflushed.get() != 0 {
            self.seen.early.set(self.seen.early.get().saturating_add(1));
        }
        let (Some((first, beyond)), Some(place)) = (self.rest.split_first(), buffer.first_mut())
        else {
            return Ok(0);
        };
        *place = *first;
        self.rest = beyond;
        self.seen.read.set(self.seen.read.get().saturating_add(1));
        Ok(1)
    }
}

/// Takes one byte per write, up to some number of bytes, and fails from then on.
#[derive(Drop)]
pub(crate) struct Filling<'a> {
    pub(crate) output: Vec<u8>,
    pub(crate) room: usize,
    pub(crate) seen: &'a Seen,
}

impl<'a> Write for Filling<'a> {
    fn write(&mut self, bytes: &[u8]) -> io::Result<usize> {
        let Some(first) = bytes.first() else {
            return Ok(0);
        };
        if self.output.len() >= self.room {
            return Err(io::Error::from(ErrorKind::BrokenPipe));
        }
        self.output.push(*first)?;
        self.seen
            .unflushed
            .set(self.seen.unflushed.get().saturating_add(1));
        Ok(1)
    }

    fn flush(&mut self) -> io::Result<()> {
        self.seen.unflushed.set(0);
        Ok(())
    }
}

/// Serves an input byte by byte, to a writer with room for `room` bytes.
fn drip<C: Caller>(alloc: Global, caller: &mut C, input: &[u8], room: usize, seen: &Seen) -> Run {
    let mut reader = Dripping { rest: input, seen };
    let mut writer = Filling {
        output: Vec::new(alloc),
        room,
        seen,
    };
    let end = serve(alloc, &mut reader, &mut writer, caller);
    Run {
        output: writer.output,
        end,
    }
}

/// Three calls byte by byte, and then all of them again at once on the same caller.
fn drip_twice<C: Caller>(alloc: Global, caller: &mut C, room: usize, seen: &Seen) -> (Run, Run) {
    let input = three_calls();
    let first = drip(alloc, caller, &input, room, seen);
    (first, serve_on(alloc, caller, &input))
}

/// The same on a new store.
fn dripped<S: Store + Drop>(alloc: Global, room: usize, seen: &Seen) -> Option<(Run, Run)> {
    let mut caller = caller(alloc, S::empty(alloc)).ok()?;
    let runs = drip_twice(alloc, &mut caller, room, seen);
    drop(caller);
    Some(runs)
}

/// Three calls on a new store, at once.
fn whole<S: Store + Drop>(alloc: Global) -> Option<Run> {
    let mut caller = caller(alloc, S::empty(alloc)).ok()?;
    let run = serve_on(alloc, &mut caller, &three_calls());
    drop(caller);
    Some(run)
}

/// Returns whether three calls byte by byte end well, and return what they return at once; and how many bytes that is.
fn dripped_as_whole<S: Store + Drop>(alloc: Global, seen: &Seen) -> Option<(bool, usize)> {
    let all = whole::<S>(alloc)?;
    let (run, _) = dripped::<S>(alloc, 1000, seen)?;
    let is_same = run.end == Ok(()) && run.output == all.output;
    Some((is_same, all.output.len()))
}

#[test]
fn how_a_stream_is_cut_changes_nothing(rt: HostRuntime) {
    let seen = Seen::new();
    let dripped = dripped_as_whole::<MemDisk>(rt.alloc(), &seen);
    same(&rt, dripped, Some((true, 48)));
    // Each reply was flushed before a byte of the next frame was asked for.
    let counts = (seen.read.get(), seen.early.get(), seen.unflushed.get());
    same(&rt, counts, (36, 0, 0));
}

/// What a writer with this much room has: whether it is the first bytes of all replies, how the connection ended, how
/// many bytes were read, and the lowest byte of the name that the next allocation gives.
type Written = (bool, Result<(), ServeFault>, usize, Option<u8>);

fn written<S: Store + Drop>(alloc: Global, all: &[u8], room: usize) -> Option<Written> {
    let seen = Seen::new();
    let (run, next) = dripped::<S>(alloc, room, &seen)?;
    let is_front = Some(run.output.as_slice()) == all.get(..room);
    Some((
        is_front,
        run.end,
        seen.read.get(),
        next.output.get(12).copied(),
    ))
}

/// Nothing after the call whose reply failed is read, and that call was made: the next allocation has the next name.
fn wanted(room: usize) -> Written {
    let calls = (room / 16).saturating_add(1);
    (
        true,
        Err(ServeFault::Wire(WireFault::Device)),
        calls.saturating_mul(12),
        Some(calls.min(2) as u8),
    )
}

/// The first room for which this doesn't hold.
fn unlike<S: Store + Drop>(alloc: Global) -> Option<Option<(usize, Option<Written>)>> {
    let all = whole::<S>(alloc)?;
    for room in 0..48usize {
        let seen = written::<S>(alloc, all.output.as_slice(), room);
        if seen != Some(wanted(room)) {
            return Some(Some((room, seen)));
        }
    }
    Some(None)
}

#[test]
fn a_writer_that_fails_has_whole_replies_and_a_part(rt: HostRuntime) {
    same(&rt, unlike::<MemDisk>(rt.alloc()), Some(None));
}
