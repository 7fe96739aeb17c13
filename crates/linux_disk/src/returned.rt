//! What the functions of the C library return.

ghost use Rattle.std.specs.Prelude.{◌≡◌, pos, IfOk};

use crate::errors::failure_of;
use disk::DiskError;
use os::FromRawFd;
use std::os::fd::OwnedFd;

/// Why the call that was just made failed.
pub fn last_failure() -> DiskError {
    failure_of(os::errno())
}

/// It answers 0, or below it where it failed.
pub fn expect_done(ret: i32) -> Result<(), DiskError> {
    if ret < 0 { Err(last_failure()) } else { Ok(()) }
}

/// It answers a count, or below 0 where it failed.
pub fn count_of(ret: isize) -> Result<usize, DiskError>
    ensures { IfOk result (λ n. pos n ≡ ret) }
{
    if ret < 0 {
        Err(last_failure())
    } else {
        Ok(ret as usize)
    }
}

/// It answers a descriptor, or below 0 where it failed.
pub fn owned(fd: i32) -> Result<OwnedFd, DiskError> {
    if fd < 0 {
        return Err(last_failure());
    }
    Ok(unsafe { OwnedFd::from_raw_fd(fd) })
}
