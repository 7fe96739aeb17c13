//! What the error number of a call that failed says.

ghost use Rattle.linux_disk.specs.Errors.{Means};

use disk::DiskError;

/// By the error numbers of Linux.
pub fn failure_of(errno: i32) -> DiskError
    ensures { Means errno result }
{
    match errno {
        2 => DiskError::Absent,
        17 => DiskError::Exists,
        20 => DiskError::NotFolder,
        21 => DiskError::IsFolder,
        39 => DiskError::NotEmpty,
        _ => DiskError::Failed(errno),
    }
}
