//! Why a call of a system failed.

ghost use Rattle.std.specs.Prelude.{◌≡◌};
ghost use Rattle.disk.specs.Errors.{errno_of};

use errno::{EEXIST, EISDIR, ENOENT, ENOTDIR, ENOTEMPTY};

/// Why a call of a system failed, by what POSIX has its error number say of the name.
#[derive(Clone, Copy, Debug, PartialEq, Eq)]
pub enum DiskError {
    /// Nothing stands there (ENOENT).
    Absent,
    /// Something stands there (EEXIST).
    Exists,
    /// No folder stands there (ENOTDIR).
    NotFolder,
    /// A folder stands there (EISDIR).
    IsFolder,
    /// The folder has names (ENOTEMPTY).
    NotEmpty,
    /// Any other error number, which says nothing of what stands there.
    Failed(i32),
}

impl DiskError {
    /// Its error number.
    pub fn errno(self) -> i32
        ensures { result ≡ errno_of self }
    {
        match self {
            DiskError::Absent => ENOENT,
            DiskError::Exists => EEXIST,
            DiskError::NotFolder => ENOTDIR,
            DiskError::IsFolder => EISDIR,
            DiskError::NotEmpty => ENOTEMPTY,
            DiskError::Failed(errno) => errno,
        }
    }
}
