//! Calls that are made again where a signal ended them (EINTR), as POSIX lets a system do. Making a file is not: it may have been done, and
//! would then be refused.

ghost use Rattle.std.specs.Prelude.{◌<◌, ◌≤◌, ◌^◌, IfOk, OnOk, length, take};
ghost use Rattle.disk.specs.Names.{IsLawfulName};
ghost use Rattle.linux_disk.specs.Calls.{OpenedAgain, OpenedDir, OpenedDirAt, OpenedFile, Read, Wrote, SetLen, Synced, Set, SetAt};
ghost use Rattle.linux_disk.specs.Places.{IsBelow, IsSafe};

use crate::calls::SystemCalls;
use crate::page::Page;
use disk::{Access, Change, DiskError};

/// Whether a signal ended the call.
fn was_interrupted<T>(told: &Result<T, DiskError>) -> bool {
    matches!(told, Err(DiskError::Failed(libc::EINTR)))
}

/// `openat`, of the same folder.
pub fn open_again<C: SystemCalls>(calls: &C, dir: &C::Fd) -> Result<C::Fd, DiskError>
    ensures { IfOk result (λ fd. C.did (OpenedAgain (C.stamp dir.now) (C.stamp fd))) }
{
    for _try in 0..u64::MAX {
        let told = calls.open_again(dir);
        if !was_interrupted(&told) {
            return told;
        }
    }
    calls.open_again(dir)
}

/// `openat`, of a folder in it.
pub fn open_dir<C: SystemCalls>(calls: &C, dir: &C::Fd, name: &[u8]) -> Result<C::Fd, DiskError>
    requires { IsLawfulName name.now }
    ensures { IfOk result (λ fd. C.did (OpenedDir (C.stamp dir.now) name.now (C.stamp fd))) }
{
    for _try in 0..u64::MAX {
        let told = calls.open_dir(dir, name);
        if !was_interrupted(&told) {
            return told;
        }
    }
    calls.open_dir(dir, name)
}

/// `openat`, of a folder below it.
pub fn open_dir_at<C: SystemCalls>(calls: &C, dir: &C::Fd, path: &Page) -> Result<C::Fd, DiskError>
    requires entered { ∥ C.entered ∥₁ }
    requires below { IsBelow C.guards (C.number dir.now) path.now }
    ensures { IfOk result (λ fd. C.did (OpenedDirAt path.now (C.stamp fd))) }
{
    for _try in 0..u64::MAX {
        let told = calls.open_dir_at(dir, path);
        if !was_interrupted(&told) {
            return told;
        }
    }
    calls.open_dir_at(dir, path)
}

/// `open`.
pub fn open_file<C: SystemCalls>(
    calls: &C,
    dir: &C::Fd,
    path: &Page,
    access: Access,
) -> Result<C::Fd, DiskError>
    requires entered { ∥ C.entered ∥₁ }
    requires safe { IsSafe C.guards C.did (C.user calls.now) (C.number dir.now) (C.stamp dir.now) path.now }
    ensures { IfOk result (λ fd. C.did (OpenedFile path.now access (C.stamp fd))) }
{
    for _try in 0..u64::MAX {
        let told = calls.open_file(dir, path, access);
        if !was_interrupted(&told) {
            return told;
        }
    }
    calls.open_file(dir, path, access)
}

/// `pread`.
pub fn read_at<C: SystemCalls>(
    calls: &C,
    file: &C::Fd,
    buffer: &mut [u8],
    offset: u64,
) -> Result<usize, DiskError>
    requires { offset < 2 ^ 63 }
    ensures within { IfOk result (λ n. n ≤ length buffer.new) }
    ensures done { IfOk result (λ n. C.did (Read (C.stamp file.now) offset (take n buffer.new))) }
{
    for _try in 0..u64::MAX {
        let told = calls.read_at(file, buffer, offset);
        if !was_interrupted(&told) {
            return told;
        }
    }
    calls.read_at(file, buffer, offset)
}

/// `pwrite`.
pub fn write_at<C: SystemCalls>(
    calls: &C,
    file: &C::Fd,
    bytes: &[u8],
    offset: u64,
) -> Result<usize, DiskError>
    requires { offset < 2 ^ 63 }
    ensures within { IfOk result (λ n. n ≤ length bytes.now) }
    ensures done { IfOk result (λ n. C.did (Wrote (C.stamp file.now) offset bytes.now n)) }
{
    for _try in 0..u64::MAX {
        let told = calls.write_at(file, bytes, offset);
        if !was_interrupted(&told) {
            return told;
        }
    }
    calls.write_at(file, bytes, offset)
}

/// `ftruncate`.
pub fn set_len<C: SystemCalls>(calls: &C, file: &C::Fd, size: u64) -> Result<(), DiskError>
    requires { size < 2 ^ 63 }
    ensures { OnOk result (C.did (SetLen (C.stamp file.now) size)) }
{
    for _try in 0..u64::MAX {
        let told = calls.set_len(file, size);
        if !was_interrupted(&told) {
            return told;
        }
    }
    calls.set_len(file, size)
}

/// `fsync`.
pub fn sync<C: SystemCalls>(calls: &C, fd: &C::Fd) -> Result<(), DiskError>
    ensures { OnOk result (C.did (Synced (C.stamp fd.now))) }
{
    for _try in 0..u64::MAX {
        let told = calls.sync(fd);
        if !was_interrupted(&told) {
            return told;
        }
    }
    calls.sync(fd)
}

/// `fchmod`, `fchown` or `futimens`.
pub fn set<C: SystemCalls>(calls: &C, fd: &C::Fd, change: Change) -> Result<(), DiskError>
    ensures { OnOk result (C.did (Set (C.stamp fd.now) change)) }
{
    for _try in 0..u64::MAX {
        let told = calls.set(fd, change);
        if !was_interrupted(&told) {
            return told;
        }
    }
    calls.set(fd, change)
}

/// `chmod` or `lchown`.
pub fn set_at<C: SystemCalls>(
    calls: &C,
    dir: &C::Fd,
    path: &Page,
    change: Change,
) -> Result<(), DiskError>
    requires entered { ∥ C.entered ∥₁ }
    requires safe { IsSafe C.guards C.did (C.user calls.now) (C.number dir.now) (C.stamp dir.now) path.now }
    ensures { OnOk result (C.did (SetAt path.now change)) }
{
    for _try in 0..u64::MAX {
        let told = calls.set_at(dir, path, change);
        if !was_interrupted(&told) {
            return told;
        }
    }
    calls.set_at(dir, path, change)
}
