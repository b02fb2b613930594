//! One server at a time: the lock on a store's folder.
ghost use Rattle.std.specs.Prelude.{◌≡◌, ◌⊎◌, IfErr, IfOk};
ghost use Rattle.std.specs.String.{string_bytes};
ghost use Rattle.server.specs.Program.{unlocked_end};
ghost use Rattle.server.specs.Ending as socket;

use crate::{LoneEnd, ServeFault, SocketEnd};
use disk::{FileDisk, HostFolder};
use std::alloc::Global;
use std::fs::{File, TryLockError};
use std::marker::Model;
use std::rt::Files;
use store_fault::StoreFault;

/// An open file that can be locked against other processes. The lock goes with the file, and with the process.
pub trait LockFile {
    /// Takes the lock without waiting for it.
    fn try_lock_whole(&self) -> Result<(), TryLockError>;
}

impl LockFile for File {
    fn try_lock_whole(&self) -> Result<(), TryLockError> {
        self.try_lock()
    }
}

/// Why the folder of a store isn't locked.
#[derive(Clone, Copy, Debug, PartialEq, Eq)]
pub enum LockFault {
    /// Another process holds the lock.
    InUse,
    /// The system can't lock it, as some network file systems can't.
    Unlockable,
    /// The folder can't be opened.
    Device,
}

impl LockFault {
    /// How a run for one connection ends after this fault.
    pub fn lone_end(self) -> LoneEnd
        ensures { result ≡ unlocked_end self }
    {
        match self {
            LockFault::InUse => LoneEnd::InUse,
            LockFault::Unlockable => LoneEnd::Unlockable,
            LockFault::Device => LoneEnd::Fault(ServeFault::Store(StoreFault::Device)),
        }
    }

    /// How a run for many connections ends after this fault.
    pub fn socket_end(self) -> SocketEnd
        ensures { result ≡ socket.unlocked_end self }
    {
        match self {
            LockFault::InUse => SocketEnd::InUse,
            LockFault::Unlockable => SocketEnd::Unlockable,
            LockFault::Device => SocketEnd::Store(StoreFault::Device),
        }
    }
}

/// The lock of the folder at a path. It is held until it is dropped.
#[derive(Drop)]
pub struct FolderLock<'a, K> {
    path: &'a str,
    file: K,
}

impl<'a, K> Model for FolderLock<'a, K> {
    ghost use Rattle.std.specs.Prelude.{ℕ, List};
    ghost use Rattle.std.specs.Coded.{coded_list, coded_ℕ};

    ghost Value = { List ℕ };

    ghost coded = { coded_list coded_ℕ };

    ghost view = { λ l. l.path.now };
}

/// Locks a store's folder, so that it has one server at a time. No file is created for the lock.
///
/// No contract can say what the system answers.
pub fn lock_folder<'a, F: Files>(
    files: &F,
    folder: &'a str,
) -> Result<FolderLock<'a, F::File>, LockFault>
where
    F::File: LockFile,
    ensures { IfOk result (λ lock. lock ≡ folder.now) }
{
    let Ok(file) = File::open(files, folder) else {
        return Err(LockFault::Device);
    };
    match file.try_lock_whole() {
        Ok(()) => Ok(FolderLock { path: folder, file }),
        Err(TryLockError::WouldBlock) => Err(LockFault::InUse),
        Err(TryLockError::Error(_)) => Err(LockFault::Unlockable),
    }
}

/// Locks a store's folder, and then opens its files as a disk. The error is how a run for many connections ends:
/// `InUse`, `Unlockable`, or `Store(Device)` if the folder or its files can't be opened. Nothing of the store was read
/// or written.
pub fn lock_disk<'a, F: Files + Drop + Copy>(
    alloc: Global,
    files: F,
    folder: &'a str,
) -> Result<(FolderLock<'a, F::File>, FileDisk<HostFolder<F>>), SocketEnd>
where
    F::File: LockFile,
    ensures same { IfOk result
        (λ locked. (locked.0 ≡ folder.now) × (string_bytes locked.1.folder.path ≡ folder.now)) }
    ensures faults { IfErr result (λ end. (end ≡ SocketEnd.InUse) ⊎ ((end ≡ SocketEnd.Unlockable)
        ⊎ (end ≡ SocketEnd.Store StoreFault.Device))) }
{
    let lock = match lock_folder(&files, folder) {
        Ok(lock) => lock,
        Err(fault) => return Err(fault.socket_end()),
    };
    match FileDisk::at(alloc, files, folder) {
        Ok(disk) => Ok((lock, disk)),
        Err(_) => Err(SocketEnd::Store(StoreFault::Device)),
    }
}
