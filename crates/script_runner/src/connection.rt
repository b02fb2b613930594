use crate::device::Device;
use crate::failure::{Difference, Failure, Place, Unanswered};
use crate::row::code_of;
use disk::Torn;
use std::alloc::Global;
use std::mem;
use words::take_word;

/// The space to which a connection's task is attached at first.
const FIRST_SPACE: u32 = 1;

/// The number of the call that attaches a task to a space.
const ATTACH: u32 = 0;

/// The store that a script left: its disk, and the space to which the script's task is attached.
#[derive(Drop)]
pub struct Store<D> {
    disk: D,
    alloc: Global,
    space: u32,
}

impl<D: Device + Drop> Store<D> {
    /// Creates an empty store.
    pub fn new(alloc: Global) -> Store<D> {
        Store {
            disk: D::empty(alloc),
            alloc,
            space: FIRST_SPACE,
        }
    }

    /// Prepares the store for another connection.
    pub fn connect_anew(&mut self) {
        self.space = FIRST_SPACE;
    }

    /// Plans a crash at a call of the disk, and the contents that it leaves.
    pub fn plan_crash(&mut self, stop_at: u64, torn: Torn) {
        self.disk.plan_crash(stop_at, torn);
    }

    /// Returns the store, and leaves an empty one.
    fn take(&mut self) -> Store<D> {
        let empty = D::empty(self.alloc);
        Store {
            disk: mem::replace(&mut self.disk, empty),
            alloc: self.alloc,
            space: self.space,
        }
    }

    /// Returns the length of segment 0 in bytes.
    pub fn length(&self) -> u64 {
        self.disk.segment_length()
    }
}

/// A connection to a server over an opened store.
#[derive(Drop)]
pub struct Connection<D: Device> {
    alloc: Global,
    server: D::Server,
    /// The space to which this task is attached.
    attached: u32,
    /// The space to which the script's task is attached, and this task from its next call on.
    space: u32,
    records: u64,
}

/// Returns the frame that attaches to a space.
fn attach_frame(space: u32) -> [u8; 12] {
    let [a, b, c, d] = space.to_le_bytes();
    [8, 0, 0, 0, 0, 0, 0, 0, a, b, c, d]
}

/// Returns the space that a frame of number 0 names, or `None` for another frame.
fn attached_by(frame: &[u8]) -> Option<u32> {
    let (_, content) = take_word(frame)?;
    let (number, arguments) = take_word(content)?;
    let (space, beyond) = take_word(arguments)?;
    if number == ATTACH && beyond.is_empty() {
        Some(space)
    } else {
        None
    }
}

impl<D: Device + Drop> Connection<D> {
    /// Opens a store.
    pub fn open(store: Store<D>, place: Place) -> Result<Connection<D>, Failure> {
        let Store { disk, alloc, space } = store;
        match disk.start(alloc) {
            Ok((server, records)) => Ok(Connection {
                alloc,
                server,
                attached: FIRST_SPACE,
                space,
                records,
            }),
            Err(fault) => Err(place.differs(Difference::Unopened(fault))),
        }
    }

    /// Opens a store, which `stop` returns; meanwhile `store` is empty. So a caller that still uses it has no store to
    /// drop if a call fails.
    pub fn borrow(store: &mut Store<D>, place: Place) -> Result<Connection<D>, Failure> {
        Connection::open(store.take(), place)
    }

    /// Returns the number of records that the store had when it was opened.
    pub fn records(&self) -> u64 {
        self.records
    }

    /// Returns the reply to a frame, if there is one.
    fn send(&mut self, frame: &[u8]) -> Option<Vec<u8>> {
        D::answer(&mut self.server, self.alloc, frame)
    }

    /// Attaches the task to the script's space.
    fn attach(&mut self) -> Result<(), Unanswered> {
        let Some(reply) = self.send(&attach_frame(self.space)) else {
            return Err(Unanswered::NoReply);
        };
        if code_of(&reply) != Some(0) {
            return Err(Unanswered::Detached);
        }
        self.attached = self.space;
        Ok(())
    }

    /// Returns the reply to a frame of the script.
    pub fn ask(&mut self, frame: &[u8]) -> Result<Vec<u8>, Unanswered> {
        if self.attached != self.space {
            self.attach()?;
        }
        let Some(reply) = self.send(frame) else {
            return Err(Unanswered::NoReply);
        };
        if let Some(space) = attached_by(frame)
            && code_of(&reply) == Some(0)
        {
            self.attached = space;
            self.space = space;
        }
        Ok(reply)
    }

    /// Ends the server, and returns the store.
    pub fn close(self) -> Store<D> {
        let Connection {
            alloc,
            server,
            attached: _,
            space,
            records: _,
        } = self;
        Store {
            disk: D::end(server),
            alloc,
            space,
        }
    }

    /// Returns the store after a crash: the planned one, if it occurred.
    pub fn stop(self) -> Result<Store<D>, Failure> {
        let Store { disk, alloc, space } = self.close();
        match disk.stop() {
            Some(disk) => Ok(Store { disk, alloc, space }),
            None => Err(Failure::NoMemory),
        }
    }

    /// Crashes, and puts the store that the crash leaves into `store`.
    pub fn crash_in(self, store: &mut Store<D>) -> Result<(), Failure> {
        *store = self.stop()?;
        Ok(())
    }
}
