//! The disks whose folders are served.

ghost use Rattle.std.specs.Prelude.{◌≡◌, ◌≢◌, IfErr, IfOk};
ghost use Rattle.disk.specs.Errors.{errno_of};
ghost use Rattle.mirrord_sessions.specs.Starts.{IsMemoryOr, IsUnopenedBy, IsUnstartedBy};
ghost use Rattle.mirrord_sessions.specs.declared.folder.Unserved.TheVariants.{NoSocket};

use crate::folder::Unserved;
use disk::{Disk, DiskError, Unknown};
use errno::ENOMEM;
use linux_disk::{LibC, Linux, NoFiles, OpenFd, StartError, room_for_open};
use std::alloc::Global;
use terms::Settings;

/// A system whose folders are served, each as a disk.
pub trait Disks {
    /// A folder, and all that is below it.
    type Disk: Disk + Drop;

    /// How many of its files and folders may be kept open.
    fn capacity(&self) -> usize;

    /// The folder at the path, of which the kinds of files and the names of these settings are shown.
    fn open(&self, path: &str, settings: Settings) -> Result<Self::Disk, Unserved>
        ensures { IfErr result (λ why. why ≢ NoSocket) };
}

/// Linux. To open a folder makes `/proc/self/fd` the current directory of the process.
#[derive(Drop)]
pub struct LinuxDisks {
    alloc: Global,
}

impl LinuxDisks {
    pub fn new(alloc: Global) -> LinuxDisks {
        LinuxDisks { alloc }
    }
}

impl Disks for LinuxDisks {
    type Disk = Unknown<Linux<LibC, NoFiles<OpenFd>>>;

    fn capacity(&self) -> usize {
        room_for_open()
    }

    fn open(
        &self,
        path: &str,
        settings: Settings,
    ) -> Result<Unknown<Linux<LibC, NoFiles<OpenFd>>>, Unserved> {
        let Ok(calls) = LibC::new(self.alloc, settings) else {
            return Err(Unserved::Memory);
        };
        match Linux::open(calls, NoFiles::new(), self.alloc, path) {
            Ok(linux) => Ok(Unknown::new(linux)),
            Err(error) => Err(not_started(error)),
        }
    }
}

/// Why a folder of Linux is not served.
pub fn not_started(error: StartError) -> Unserved
    ensures by { IsUnstartedBy error result }
    ensures why { result ≢ NoSocket }
{
    match error {
        StartError::NoMemory => Unserved::Memory,
        StartError::NoFolder(error) => not_opened(error),
        StartError::NoDescriptors(error) => memory_or(error, Unserved::NoDescriptors),
        StartError::FollowsLinks => Unserved::NoDescriptors,
    }
}

/// Want of memory, or else that other reason.
fn memory_or(error: DiskError, other: Unserved) -> Unserved
    ensures { IsMemoryOr (errno_of error) other result }
{
    if error.errno() == ENOMEM {
        Unserved::Memory
    } else {
        other
    }
}

/// Why a folder of a disk is not served.
pub fn not_opened(error: DiskError) -> Unserved
    ensures by { IsUnopenedBy (errno_of error) result }
    ensures why { result ≢ NoSocket }
{
    memory_or(error, Unserved::NoFolder)
}
