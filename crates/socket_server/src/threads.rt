//! The threads: one that stores, one that makes images, some that serve connections.

use crate::door::{Arrival, Door};
use crate::host::Host;
use crate::worker::{Tools, open_door, run};
use codes::CHECKPOINT_RECORDS;
use disk::Disk;
use sessions::{Admissions, Founding, OpenGate, Shared};
use std::alloc::Global;
use std::net::{Net, TcpListener, TcpStream};
use std::os::unix::net::{UnixListener, UnixStream};
use std::sync::Arc;
use std::time::Duration;
use std::{io, thread};
use store_fault::StoreFault;

/// The workers that connections are handed to.
pub(crate) type Doors<L> = Vec<Arc<Door<L>, Global>>;

/// Starts a worker for each processor.
pub(crate) fn start_workers<
    L: Founding + Send + Sync + 'static,
    D: Disk + Drop + Send + 'static,
    R: Host + Net<Listener = TcpListener, Stream = TcpStream>,
>(rt: R, shared: &Arc<Shared<L, D, OpenGate>, Global>) -> io::Result<Doors<L>> {
    let count = thread::available_parallelism(&rt)?.get();
    let mut doors = Vec::new(rt.alloc());
    for _ in 0..count {
        doors.push(start_worker(rt, shared)?)?;
    }
    Ok(doors)
}

/// Starts a worker.
fn start_worker<
    L: Founding + Send + Sync + 'static,
    D: Disk + Drop + Send + 'static,
    R: Host + Net<Listener = TcpListener, Stream = TcpStream>,
>(rt: R, shared: &Arc<Shared<L, D, OpenGate>, Global>) -> io::Result<Arc<Door<L>, Global>> {
    let tools = Tools::new(&rt)?;
    let door = open_door(&rt, shared, &tools)?;
    let mine = Arc::try_clone(shared)?;
    let same = Arc::try_clone(&door)?;
    thread::spawn(&rt, move || run(&rt, &*mine, &*same, tools))?;
    Ok(door)
}

/// Hands each connection to a worker, until the store fails.
pub(crate) fn accept<L: Founding + Send + Sync + 'static, D: Disk + Drop + Send + 'static, R: Host>(
    rt: R,
    listener: &UnixListener,
    shared: &Arc<Shared<L, D, OpenGate>, Global>,
    doors: &Doors<L>,
    admissions: Admissions<L>,
) -> StoreFault {
    let mut admissions = admissions;
    let mut next = 0;
    for stream in listener.incoming() {
        if let Some(fault) = shared.fault(&rt) {
            return fault;
        }
        match stream {
            Ok(socket) => {
                if let Some(admission) = admissions.next() {
                    next = after(next, doors.len());
                    if let Some(door) = doors.get(next) {
                        door.hand_in(&rt, Arrival { socket, admission });
                    }
                }
            }
            // No descriptor is left: wait for one.
            Err(_) => thread::sleep(&rt, Duration::from_millis(20)),
        }
    }
    StoreFault::Failed
}

/// The number after this one of so many, or the first.
fn after(number: usize, count: usize) -> usize {
    let next = number.saturating_add(1);
    if next < count { next } else { 0 }
}

/// Starts the loops that store and make images. Returns whether both run.
pub(crate) fn start_loops<
    L: Founding + Send + Sync + 'static,
    D: Disk + Drop + Send + 'static,
    R: Host + Net<Listener = TcpListener, Stream = TcpStream>,
>(
    rt: R,
    alloc: Global,
    shared: &Arc<Shared<L, D, OpenGate>, Global>,
    path: &str,
) -> io::Result<()> {
    let mine = Arc::try_clone(shared)?;
    let own = String::from_str(alloc, path)?;
    thread::spawn(&rt, move || {
        mine.flusher(&rt);
        wake(&rt, own.as_str());
    })?;
    let mine = Arc::try_clone(shared)?;
    let own = String::from_str(alloc, path)?;
    thread::spawn(&rt, move || {
        mine.checkpointer(&rt, CHECKPOINT_RECORDS);
        wake(&rt, own.as_str());
    })?;
    Ok(())
}

/// Wakes the thread that accepts, which then checks whether the store failed.
fn wake<R: Net>(rt: &R, path: &str) {
    let _ = UnixStream::connect(rt, path);
}
