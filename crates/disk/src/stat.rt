//! What a look tells, and what is set.

ghost use Rattle.std.specs.Prelude.{◌↔◌, ◌≡◌, IsTrue};
ghost use Rattle.disk.specs.Opened.{serves};

use backing::NewTime;
use payload::{Details, Kind};

/// Which file or folder it is, as the system numbers them.
#[derive(Clone, Copy, Debug, PartialEq, Eq)]
pub struct FileId {
    pub device: u64,
    pub inode: u64,
}

impl FileId {
    /// Whether both are the same file or folder.
    pub fn is(&self, other: &FileId) -> bool
        ensures { IsTrue result ↔ (self.now ≡ other.now) }
    {
        self.device == other.device && self.inode == other.inode
    }
}

/// What one look tells of what stands there.
#[derive(Clone, Copy, Debug, PartialEq, Eq)]
pub struct Stat {
    /// None where the system does not show what stands there.
    pub kind: Option<Kind>,
    pub id: FileId,
    /// In bytes, 0 for a folder.
    pub size: u64,
    pub details: Details,
}

/// What a file is opened for.
#[derive(Clone, Copy, Debug, PartialEq, Eq)]
pub enum Access {
    Read,
    /// To be read and written.
    Write,
}

impl Access {
    /// Whether a file that was opened for the one serves the other.
    pub fn serves(self, wanted: Access) -> bool
        ensures { result ≡ serves self wanted }
    {
        match (self, wanted) {
            (Access::Write, _) | (Access::Read, Access::Read) => true,
            (Access::Read, Access::Write) => false,
        }
    }
}

/// What is set of a file or a folder, beside its bytes.
#[derive(Clone, Copy, Debug, PartialEq, Eq)]
pub enum Change {
    /// The permission bits: the lowest twelve count.
    Permissions(u32),
    /// Whose it is. What is `None` stays.
    Owner {
        uid: Option<u32>,
        gid: Option<u32>,
    },
    /// When it was last read and when it was last changed. What is `None` stays.
    Times {
        accessed: Option<NewTime>,
        modified: Option<NewTime>,
    },
}
