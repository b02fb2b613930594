//! The system's files, with counts of their syncs.

use std::alloc::Allocator;
use std::cell::Cell;
use std::fs::{File, Metadata, OpenFile, OpenOptions, Permissions};
use std::io::{self, ErrorKind, PipeReader, PipeWriter, Read, Seek, SeekFrom, Write};
use std::os::fd::BorrowedFd;
use std::os::unix::net::SocketAddr;
use std::path::PathBuf;
use std::rt::Files;

/// The number of syncs of files and of their folder, and true if syncs fail now.
#[derive(Drop)]
pub(crate) struct Syncs {
    files: Cell<u32>,
    folder: Cell<u32>,
    pub(crate) fails: Cell<bool>,
}

impl Syncs {
    pub(crate) fn new() -> Syncs {
        Syncs {
            files: Cell::new(0),
            folder: Cell::new(0),
            fails: Cell::new(false),
        }
    }

    /// Returns the counts of files and of the folder.
    pub(crate) fn counts(&self) -> (u32, u32) {
        (self.files.get(), self.folder.get())
    }
}

/// The files of the system, whose syncs are counted.
#[derive(Drop)]
pub(crate) struct CountedFiles<'a> {
    pub(crate) files: &'a HostRuntime,
    pub(crate) folder: &'a str,
    pub(crate) syncs: &'a Syncs,
}

/// A file or a folder of the system, whose syncs are counted.
#[derive(Drop)]
pub(crate) struct CountedFile<'a> {
    file: File,
    is_folder: bool,
    syncs: &'a Syncs,
}

impl<'a> Read for CountedFile<'a> {
    fn read(&mut self, buffer: &mut [u8]) -> io::Result<usize> {
        self.file.read(buffer)
    }
}

impl<'a> Write for CountedFile<'a> {
    fn write(&mut self, bytes: &[u8]) -> io::Result<usize> {
        self.file.write(bytes)
    }

    fn flush(&mut self) -> io::Result<()> {
        self.file.flush()
    }
}

impl<'a> Seek for CountedFile<'a> {
    fn seek(&mut self, to: SeekFrom) -> io::Result<u64> {
        self.file.seek(to)
    }
}

impl<'a> OpenFile for CountedFile<'a> {
    fn metadata(&self) -> io::Result<Metadata> {
        self.file.metadata()
    }

    fn set_len(&self, size: u64) -> io::Result<()> {
        self.file.set_len(size)
    }

    fn sync_all(&self) -> io::Result<()> {
        if self.syncs.fails.get() {
            return Err(ErrorKind::Other.into());
        }
        let count = if self.is_folder {
            &self.syncs.folder
        } else {
            &self.syncs.files
        };
        count.set(count.get().saturating_add(1));
        self.file.sync_all()
    }

    // It doesn't sync the length, so it isn't counted.
    fn sync_data(&self) -> io::Result<()> {
        self.file.sync_data()
    }
}

impl<'a> Files for CountedFiles<'a> {
    type File = CountedFile<'a>;

    type Dir = <HostRuntime as Files>::Dir;

    fn open_file(&self, how: &OpenOptions, path: &str) -> io::Result<CountedFile<'a>> {
        Ok(CountedFile {
            file: self.files.open_file(how, path)?,
            is_folder: path == self.folder,
            syncs: self.syncs,
        })
    }

    fn open_dir(&self, path: &str) -> io::Result<Self::Dir> {
        self.files.open_dir(path)
    }

    fn metadata(&self, path: &str) -> io::Result<Metadata> {
        self.files.metadata(path)
    }

    fn symlink_metadata(&self, path: &str) -> io::Result<Metadata> {
        self.files.symlink_metadata(path)
    }

    fn copy(&self, from: &str, to: &str) -> io::Result<u64> {
        self.files.copy(from, to)
    }

    fn rename(&self, from: &str, to: &str) -> io::Result<()> {
        self.files.rename(from, to)
    }

    fn remove_file(&self, path: &str) -> io::Result<()> {
        self.files.remove_file(path)
    }

    fn create_dir(&self, path: &str) -> io::Result<()> {
        self.files.create_dir(path)
    }

    fn remove_dir(&self, path: &str) -> io::Result<()> {
        self.files.remove_dir(path)
    }

    fn remove_dir_all<B: Allocator>(&self, alloc: B, path: &str) -> io::Result<()> {
        self.files.remove_dir_all(alloc, path)
    }

    // The rest could be left out, but then other code would be more expensive to prove.

    fn canonicalize<B: Allocator>(&self, alloc: B, path: &str) -> io::Result<PathBuf<B>> {
        self.files.canonicalize(alloc, path)
    }

    fn read_link<B: Allocator>(&self, alloc: B, path: &str) -> io::Result<PathBuf<B>> {
        self.files.read_link(alloc, path)
    }

    fn hard_link(&self, original: &str, link: &str) -> io::Result<()> {
        self.files.hard_link(original, link)
    }

    fn set_permissions(&self, path: &str, perm: Permissions) -> io::Result<()> {
        self.files.set_permissions(path, perm)
    }

    fn symlink(&self, original: &str, link: &str) -> io::Result<()> {
        self.files.symlink(original, link)
    }

    fn pipe(&self) -> io::Result<(PipeReader, PipeWriter)> {
        self.files.pipe()
    }

    fn chown(&self, path: &str, uid: Option<u32>, gid: Option<u32>) -> io::Result<()> {
        self.files.chown(path, uid, gid)
    }

    fn lchown(&self, path: &str, uid: Option<u32>, gid: Option<u32>) -> io::Result<()> {
        self.files.lchown(path, uid, gid)
    }

    fn create_dir_with_mode(&self, path: &str, mode: u32) -> io::Result<()> {
        self.files.create_dir_with_mode(path, mode)
    }

    fn bind_unix(&self, socket: BorrowedFd<'_>, addr: &SocketAddr) -> io::Result<()> {
        self.files.bind_unix(socket, addr)
    }
}
