//! The calls of a system below an open folder, and what an honest system answers and does.
#![tactic(auto)]

mod attributes;
mod disk;
mod error;
mod finding;
mod memory;
mod memory_disk;
mod moving;
mod names;
mod placing;
mod reading;
mod schedule;
mod spot;
mod standing;
mod stat;
mod system;
mod unknown;
mod writing;

pub use disk::Disk;
pub use error::DiskError;
pub use memory::MemoryDisk;
pub use names::is_lawful;
pub use spot::{Content, MemoryHandle};
pub use stat::{Access, Change, FileId, Stat};
pub use system::System;
pub use unknown::Unknown;
