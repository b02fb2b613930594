//! The four slots that a store is kept in, as a trait, in memory and in files.
#![tactic(auto)]

mod crash;
mod device;
mod file;
mod folder;
mod host;
mod log;
mod memory;
mod memory_folder;
mod plan;
mod slot;

pub use device::{Disk, DiskFault};
pub use file::FileDisk;
pub use folder::{Folder, FolderFault};
pub use host::HostFolder;
pub use memory::MemDisk;
pub use memory_folder::MemFolder;
pub use plan::Torn;
pub use slot::Slot;
