//! The environment of each measurement: the clock, an unused folder, the memory of this process, and the printing of
//! rows.

use crate::Fault;
use disk::{Disk, FileDisk, HostFolder};
use std::alloc::Global;
use std::cell::Cell;
use std::fs::{self, File};
use std::time::Instant;

/// The runtime, its allocator, a folder, the number of files and folders that were created there, and the time when the
/// program began.
#[derive(Drop)]
pub(crate) struct Context<'a> {
    rt: &'a HostRuntime,
    pub(crate) alloc: Global,
    folder: &'a str,
    made: Cell<u64>,
    start: Instant,
}

impl<'a> Context<'a> {
    pub(crate) fn new(rt: &'a HostRuntime, folder: &'a str) -> Result<Context<'a>, Fault> {
        let start = Instant::now(rt)?;
        Ok(Context {
            rt,
            alloc: rt.alloc(),
            folder,
            made: Cell::new(0),
            start,
        })
    }

    /// Returns the nanoseconds since the program began, or 0 if the clock can't be read.
    pub(crate) fn nanos(&self) -> u64 {
        match self.start.elapsed(self.rt) {
            Ok(duration) => u64::try_from(duration.as_nanos()).unwrap_or(u64::MAX),
            Err(_) => 0,
        }
    }

    /// Returns the nanoseconds since then.
    pub(crate) fn since(&self, start: u64) -> u64 {
        self.nanos().saturating_sub(start)
    }

    /// Returns an unused path in the folder.
    fn new_path(&self) -> Result<String, Fault> {
        let (folder, number) = (self.folder, self.made.get());
        self.made.set(number.saturating_add(1));
        match format!(in self.alloc; "{folder}/{number}") {
            Ok(path) => Ok(path),
            Err(_) => Err(Fault::Memory),
        }
    }

    /// Creates a new file.
    pub(crate) fn new_file(&self) -> Result<File, Fault> {
        let path = self.new_path()?;
        Ok(File::create(self.rt, path.as_str())?)
    }

    /// Returns a number of this process in kilobytes from the system's label for it, or 0 if there is none.
    pub(crate) fn memory(&self, label: &str) -> u64 {
        match fs::read_to_string(self.rt, "/proc/self/status") {
            Ok(status) => figure_after(status.as_str(), label),
            Err(_) => 0,
        }
    }

    /// Prints a label, numbers, and then ratios, which are given in hundredths.
    pub(crate) fn print_row(&self, label: &str, figures: &[u64], ratios: &[u64]) {
        let _ = print!(self.rt; "{label}:");
        for figure in figures {
            let _ = print!(self.rt; " {figure}");
        }
        for ratio in ratios {
            let (whole, part) = (*ratio / 100, *ratio % 100);
            let _ = print!(self.rt; " {whole}.{part:02}");
        }
        let _ = println!(self.rt);
    }
}

/// A folder for stores on files. Measurements are generic in it, so that their proofs carry nothing about files.
pub(crate) trait Folder {
    type Files: Disk + Drop;

    /// Creates the files of a store in a new folder.
    fn new_files(&self) -> Result<Self::Files, Fault>;
}

impl<'a> Folder for Context<'a> {
    type Files = FileDisk<HostFolder<&'a HostRuntime>>;

    fn new_files(&self) -> Result<FileDisk<HostFolder<&'a HostRuntime>>, Fault> {
        let path = self.new_path()?;
        fs::create_dir(self.rt, path.as_str())?;
        match FileDisk::at(self.alloc, self.rt, path.as_str()) {
            Ok(files) => Ok(files),
            Err(_) => Err(Fault::Device),
        }
    }
}

/// Returns the number after the label with which a line begins, or 0 if there is none.
fn figure_after(encoding: &str, label: &str) -> u64 {
    for line in encoding.lines() {
        if let Some(rest) = line.strip_prefix(label) {
            return first_number(rest);
        }
    }
    0
}

/// Returns the first word of a line, as a number.
fn first_number(line: &str) -> u64 {
    match line.split_whitespace().next() {
        Some(word) => word.parse().unwrap_or(0),
        None => 0,
    }
}

/// Returns the ratio of two numbers in hundredths.
pub(crate) fn hundredths(figure: u64, of: u64) -> u64 {
    figure.saturating_mul(100).checked_div(of).unwrap_or(0)
}

/// Returns the rate per second of a count in these nanoseconds.
pub(crate) fn per_second(count: u64, nanos: u64) -> u64 {
    count
        .saturating_mul(1_000_000_000)
        .checked_div(nanos)
        .unwrap_or(0)
}
