// A folder of the operating system.
ghost use Rattle.std.specs.Prelude.{◌≡◌, ◌≤◌, false, length, IfOk};
ghost use Rattle.std.specs.String.{string_bytes};
ghost use Rattle.disk.specs.Files.{FilesKeepModel, folder_view};

use crate::{Folder, FolderFault};
use std::alloc::{AllocError, Global};
use std::fs::{self, File, OpenFile, OpenOptions};
use std::io::{self, ErrorKind, Read, Seek, SeekFrom, Write};
use std::rt::Files;

/// Files of a folder, which are opened for reading only, until they are first written to. A read looks again for a file
/// that wasn't there, since another process may write to the store. Lengths are those measured when the folder was
/// opened.
///
/// Nothing is proved of contents here: that the operating system keeps files as `Folder` says is a premise.
#[derive(Drop)]
pub struct HostFolder<R: Files + Drop> {
    files: R,
    path: String,
    named: Vec<NamedFile<R::File>>,
}

#[derive(Drop)]
struct NamedFile<F> {
    name: String,
    path: String,
    file: Option<F>,
    is_writable: bool,
    length: u64,
}

impl<R: Files + Drop> HostFolder<R> {
    /// Opens the files of these names that are in a folder. The error is that the folder doesn't exist or isn't a
    /// folder, that something of these names can't be opened as a file, or that memory ran out.
    pub fn open(alloc: Global, files: R, path: &str, names: &[&str]) -> io::Result<HostFolder<R>>
        ensures lost { IfOk result (λ folder. (⟦<HostFolder<R> as Folder>⟧.view folder).has_lost ≡ false) }
        ensures path { IfOk result (λ folder. string_bytes folder.path ≡ path.now) }
    {
        if !fs::metadata(&files, path)?.is_dir() {
            return Err(ErrorKind::NotADirectory.into());
        }
        let mut named = Vec::new(alloc);
        for name in names {
            named.push(NamedFile::find(alloc, &files, path, name)?)?;
        }
        Ok(HostFolder {
            files,
            path: String::from_str(alloc, path)?,
            named,
        })
    }
}

impl<F: Read + Write + Seek + OpenFile + Drop> NamedFile<F> {
    // A file for reading, if it exists.
    fn opened<R: Files<File = F>>(files: &R, path: &str) -> io::Result<Option<F>> {
        match fs::metadata(files, path) {
            Ok(found) if found.is_file() => Ok(Some(File::open(files, path)?)),
            Ok(_) => Err(ErrorKind::InvalidInput.into()),
            Err(error) if error.kind() == ErrorKind::NotFound => Ok(None),
            Err(error) => Err(error),
        }
    }

    // Opens the file for reading, if it exists.
    fn find<R: Files<File = F>>(
        alloc: Global,
        files: &R,
        folder: &str,
        name: &str,
    ) -> io::Result<NamedFile<F>> {
        let path = format!(in alloc; "{folder}/{name}")?;
        let file = NamedFile::opened(files, path.as_str())?;
        let length = match &file {
            Some(file) => file.metadata()?.len(),
            None => 0,
        };
        Ok(NamedFile {
            name: String::from_str(alloc, name)?,
            path,
            file,
            is_writable: false,
            length,
        })
    }

    // Opens the file for writing too, and makes it if it isn't there.
    fn open_for_writing<R: Files<File = F>>(&mut self, files: &R) -> io::Result<()> {
        if self.is_writable {
            return Ok(());
        }
        let file = OpenOptions::new()
            .read(true)
            .write(true)
            .create(true)
            .open(files, self.path.as_str())?;
        self.file = Some(file);
        self.is_writable = true;
        Ok(())
    }

    fn read<R: Files<File = F>>(
        &mut self,
        files: &R,
        at: u64,
        buffer: &mut [u8],
    ) -> io::Result<usize>
        ensures { IfOk result (λ count. count ≤ length buffer.old) }
    {
        if self.file.is_none() {
            self.file = NamedFile::opened(files, self.path.as_str())?;
        }
        match &mut self.file {
            None => Ok(0),
            Some(file) => {
                file.seek(SeekFrom::Start(at))?;
                read_full(file, buffer)
            }
        }
    }

    fn write<R: Files<File = F>>(&mut self, files: &R, at: u64, bytes: &[u8]) -> io::Result<()> {
        self.open_for_writing(files)?;
        let Some(file) = &mut self.file else {
            return Err(ErrorKind::NotFound.into());
        };
        let end = self.length.max(at.saturating_add(bytes.len() as u64));
        file.seek(SeekFrom::Start(at))?;
        let written = file.write_all(bytes);
        // A write that failed may have stopped anywhere between.
        self.length = match &written {
            Ok(()) => end,
            Err(_) => measured(file).unwrap_or(end),
        };
        written
    }

    fn cut<R: Files<File = F>>(&mut self, files: &R, len: u64) -> io::Result<()> {
        self.open_for_writing(files)?;
        let Some(file) = &mut self.file else {
            return Err(ErrorKind::NotFound.into());
        };
        let cut = file.set_len(len);
        self.length = match &cut {
            Ok(()) => len,
            Err(_) => measured(file).unwrap_or(self.length),
        };
        cut
    }

    fn sync(&self) -> io::Result<()> {
        match &self.file {
            None => Ok(()),
            Some(file) => file.sync_all(),
        }
    }
}

fn measured<F: OpenFile>(file: &F) -> Option<u64> {
    Some(file.metadata().ok()?.len())
}

// Reads until the buffer is full or the file ends.
fn read_full<F: Read>(file: &mut F, buffer: &mut [u8]) -> io::Result<usize>
    ensures { IfOk result (λ count. count ≤ length buffer.old) }
{
    let mut filled = 0;
    for _ in 0..u64::MAX {
        if filled >= buffer.len() {
            break;
        }
        match file.read(&mut buffer[filled..]) {
            Ok(0) => break,
            Ok(count) => filled += count,
            Err(error) if error.kind() == ErrorKind::Interrupted => {}
            Err(error) => return Err(error),
        }
    }
    Ok(filled)
}

impl<R: Files + Drop> HostFolder<R> {
    // Where a file of this name stands among those that were named as the folder was opened.
    fn place_of(&self, name: &str) -> Option<usize> {
        self.named
            .iter()
            .position(|file| file.name.as_str() == name)
    }

    fn named(&self, name: &str) -> Option<&NamedFile<R::File>> {
        self.named.get(self.place_of(name)?)
    }

    fn try_read(&mut self, name: &str, at: u64, buffer: &mut [u8]) -> io::Result<usize>
        ensures { IfOk result (λ count. count ≤ length buffer.old) }
    {
        let Some(place) = self.place_of(name) else {
            return Ok(0);
        };
        match self.named.get_mut(place) {
            None => Ok(0),
            Some(file) => file.read(&self.files, at, buffer),
        }
    }

    fn try_write(&mut self, name: &str, at: u64, bytes: &[u8]) -> io::Result<()> {
        let Some(place) = self.place_of(name) else {
            return Err(ErrorKind::NotFound.into());
        };
        match self.named.get_mut(place) {
            None => Err(ErrorKind::NotFound.into()),
            Some(file) => file.write(&self.files, at, bytes),
        }
    }

    fn try_cut(&mut self, name: &str, len: u64) -> io::Result<()> {
        let Some(place) = self.place_of(name) else {
            return Err(ErrorKind::NotFound.into());
        };
        match self.named.get_mut(place) {
            None => Err(ErrorKind::NotFound.into()),
            Some(file) => file.cut(&self.files, len),
        }
    }

    fn try_create(&mut self, name: &str) -> io::Result<()> {
        let Some(place) = self.place_of(name) else {
            return Err(ErrorKind::NotFound.into());
        };
        match self.named.get_mut(place) {
            None => Err(ErrorKind::NotFound.into()),
            Some(file) => file.open_for_writing(&self.files),
        }
    }

    // Without this, a crash could leave the folder without the name of a file that was made.
    fn try_sync_names(&self) -> io::Result<()> {
        File::open(&self.files, self.path.as_str())?.sync_all()
    }
}

// The one place where the premise is opened, to meet the clauses on contents, which only the operating system can keep.
#[tactic(auto, unfolding(crate::specs::Files::FilesKeepModel))]
impl<R: Files + Drop> Folder for HostFolder<R> {
    ghost use Rattle.disk.specs.Files.{FilesKeepModel, folder_view, view_lasts, view_returns_none};

    ghost honest = { FilesKeepModel };

    ghost view = { λ folder. folder_view folder };

    fn has(&self, name: &str) -> bool {
        match self.named(name) {
            None => false,
            Some(file) => file.file.is_some(),
        }
    }

    fn length(&self, name: &str) -> u64 {
        match self.named(name) {
            None => 0,
            Some(file) => file.length,
        }
    }

    fn read(&mut self, name: &str, at: u64, buffer: &mut [u8]) -> Result<usize, FolderFault> {
        match self.try_read(name, at, buffer) {
            Ok(count) => Ok(count),
            Err(_) => Err(FolderFault),
        }
    }

    fn create(&mut self, name: &str) -> Result<(), FolderFault> {
        self.try_create(name).or(Err(FolderFault))
    }

    fn write_at(&mut self, name: &str, at: u64, bytes: &[u8]) -> Result<(), FolderFault> {
        self.try_write(name, at, bytes).or(Err(FolderFault))
    }

    fn cut(&mut self, name: &str, len: u64) -> Result<(), FolderFault> {
        self.try_cut(name, len).or(Err(FolderFault))
    }

    fn sync(&mut self, name: &str) -> Result<(), FolderFault> {
        match self.named(name) {
            None => Ok(()),
            Some(file) => file.sync().or(Err(FolderFault)),
        }
    }

    fn sync_names(&mut self) -> Result<(), FolderFault> {
        self.try_sync_names().or(Err(FolderFault))
    }

    ghost lasts = { λ assumed folder. view_lasts folder };

    ghost returns_none = { λ assumed folder c left name none. view_returns_none folder c left name };
}
