//! Why a call on a folder did not do its work.

ghost use Rattle.std.specs.Prelude.{◌≡◌};
ghost use Rattle.disk.specs.Errors.{errno_of};
ghost use Rattle.disk_folder.specs.declared.trouble.Trouble.TheVariants.{Failed};
ghost use Rattle.disk_folder.specs.Troubles.{IsFailure};

use disk::DiskError;
use errno::{EBUSY, EEXIST, EINVAL, EISDIR, ENOENT, ENOMEM, ENOTDIR, ENOTEMPTY};
use std::alloc::{AllocError, AllocFailed};

/// What is wrong with a path, or with what stands there.
#[derive(Clone, Copy, Debug, PartialEq, Eq)]
pub enum Reason {
    /// It is the root.
    Root,
    /// Nothing stands there.
    Nothing,
    /// Something stands there.
    Taken,
    /// No folder stands there.
    NoFolder,
    /// A folder stands there.
    Folder,
    /// Neither a file nor a folder stands there.
    NoFile,
    /// No link stands there.
    NoLink,
    /// It lies below what is to go there.
    Below,
    /// It has names.
    Names,
}

impl Reason {
    ghost use Rattle.disk_folder.specs.Troubles.{reason_errno};

    /// Its error number.
    pub fn errno(self) -> i32
        ensures { result ≡ reason_errno self }
    {
        match self {
            Reason::Root => EBUSY,
            Reason::Nothing => ENOENT,
            Reason::Taken => EEXIST,
            Reason::NoFolder => ENOTDIR,
            Reason::Folder => EISDIR,
            Reason::NoFile => EINVAL,
            Reason::NoLink => EINVAL,
            Reason::Below => EINVAL,
            Reason::Names => ENOTEMPTY,
        }
    }
}

/// Why a call did not do its work.
#[derive(Clone, Copy, Debug, PartialEq, Eq)]
pub enum Trouble {
    /// What stands in the folder does not allow it.
    Refused(Reason),
    /// A call of the system failed, by its error number.
    Failed(i32),
}

impl From<AllocError> for Trouble {
    ghost use Rattle.disk_folder.specs.declared.trouble.Trouble.TheVariants.{Failed};
    ghost use Rattle.errno.specs.declared.TheConstants.{ENOMEM};

    ghost from_gives = { λ _ trouble. trouble ≡ Failed ENOMEM };

    fn from(_: AllocError) -> Trouble {
        Trouble::Failed(ENOMEM)
    }
}

impl<T: Drop> From<AllocFailed<T>> for Trouble {
    ghost use Rattle.disk_folder.specs.declared.trouble.Trouble.TheVariants.{Failed};
    ghost use Rattle.errno.specs.declared.TheConstants.{ENOMEM};

    ghost from_gives = { λ _ trouble. trouble ≡ Failed ENOMEM };

    fn from(_: AllocFailed<T>) -> Trouble {
        Trouble::Failed(ENOMEM)
    }
}

/// The call of the system that failed is a failure of the whole call.
pub fn failure(error: DiskError) -> Trouble
    ensures { result ≡ Failed (errno_of error) }
{
    Trouble::Failed(error.errno())
}

/// A failure with the same error number.
pub fn as_failure(trouble: Trouble) -> Trouble
    ensures { IsFailure result }
{
    match trouble {
        Trouble::Refused(reason) => Trouble::Failed(reason.errno()),
        Trouble::Failed(errno) => Trouble::Failed(errno),
    }
}
