//! What is set: as the C library takes it, and by which of its calls.

ghost use Rattle.std.specs.Prelude.{◌≡◌, IfSome};
ghost use Rattle.linux_disk.specs.Changes.{owner_number, time_words};

use crate::page::Page;
use crate::returned::expect_done;
use crate::stat::PERMISSION_BITS;
use backing::NewTime;
use disk::{Change, DiskError};
use errno::{EACCES, EINVAL};
use libc::types::timespec;

/// The nanoseconds that stand for the time at which the call is made.
const NOW: i64 = (1 << 30) - 1;

/// The number that an owner or a group stays by.
const STAYS: u32 = u32::MAX;

/// A second has so many.
const NANOS: u32 = 1_000_000_000;

/// What the system takes for an owner or a group, if it has such a number: it has none of 32 ones.
fn owner_number(owner: Option<u32>) -> Option<u32>
    ensures { result ≡ owner_number owner }
{
    match owner {
        None => Some(STAYS),
        Some(number) => { if number == STAYS { None } else { Some(number) } }
    }
}

/// What the system takes for a time, if it has less than a second of nanoseconds.
fn time_words(time: Option<NewTime>) -> Option<timespec>
    ensures { result ≡ time_words time }
{
    match time {
        None => Some(timespec {
            tv_sec: 0,
            tv_nsec: libc::UTIME_OMIT,
        }),
        Some(NewTime::Now) => Some(timespec {
            tv_sec: 0,
            tv_nsec: NOW,
        }),
        Some(NewTime::At(time)) => {
            if time.nanos < NANOS {
                Some(timespec {
                    tv_sec: time.seconds.cast_signed(),
                    tv_nsec: i64::from(time.nanos),
                })
            } else {
                None
            }
        }
    }
}

/// Of what is open: `fchmod`, `fchown` or `futimens`.
pub fn set_open(fd: i32, change: Change) -> Result<(), DiskError> {
    match change {
        Change::Permissions(bits) => expect_done(libc::fchmod(fd, bits & PERMISSION_BITS)),
        Change::Owner { uid, gid } => match (owner_number(uid), owner_number(gid)) {
            (Some(owner), Some(group)) => expect_done(libc::fchown(fd, owner, group)),
            _ => Err(DiskError::Failed(EINVAL)),
        },
        Change::Times { accessed, modified } => set_times(fd, accessed, modified),
    }
}

/// One `futimens`.
fn set_times(
    fd: i32,
    accessed: Option<NewTime>,
    modified: Option<NewTime>,
) -> Result<(), DiskError> {
    match (time_words(accessed), time_words(modified)) {
        (Some(accessed), Some(modified)) => expect_done(libc::futimens(fd, &[accessed, modified])),
        _ => Err(DiskError::Failed(EINVAL)),
    }
}

/// Of what stands there: `chmod`, which follows a link, or `lchown`.
pub fn set_named(path: &Page, change: Change) -> Result<(), DiskError> {
    let path = path.c_string();
    match change {
        Change::Permissions(bits) => {
            expect_done(unsafe { libc::chmod(path, bits & PERMISSION_BITS) })
        }
        Change::Owner { uid, gid } => match (owner_number(uid), owner_number(gid)) {
            (Some(owner), Some(group)) => expect_done(unsafe { libc::lchown(path, owner, group) }),
            _ => Err(DiskError::Failed(EINVAL)),
        },
        Change::Times { .. } => Err(DiskError::Failed(EACCES)),
    }
}
