//! Linux's calls, through the C library.

ghost use Rattle.std.specs.Prelude.{◌≡◌, ◌<◌, ◌≤◌, ◌^◌, pos, length};

use crate::calls::SystemCalls;
use crate::changes::{set_named, set_open};
use crate::errors::failure_of;
use crate::mask::read_mask;
use crate::open_fd::{OpenFd, Rewound};
use crate::page::Page;
use crate::returned::{count_of, expect_done, last_failure, owned};
use crate::stat::look;
use disk::{Access, Change, DiskError, Stat};
use errno::{EBADF, EIO};
use libc::types::timespec;
use std::alloc::{AllocError, Global};
use std::os::fd::AsRawFd;
use std::sync::Arc;
use std::sync::atomic::{AtomicU64, Ordering};
use terms::{Kinds, Names, Settings};

/// The folder of the process's descriptors.
const DESCRIPTORS: &[u8] = b"/proc/self/fd";

/// Linux. Each call is one of the system's, but where it says more.
#[derive(Drop)]
pub struct LibC {
    /// How many files and folders were opened.
    stamps: Arc<AtomicU64>,
    /// What a look shows.
    kinds: Kinds,
    /// What a listing has.
    names: Names,
    /// By whose rights it acts.
    user: u32,
    /// Which bits it takes of what it makes.
    mask: u32,
}

impl LibC {
    /// Nothing was opened yet; a look shows the kinds of these settings, and a listing has their names. The mask is read
    /// once: `open`, `read` and `close`.
    pub fn new(alloc: Global, settings: Settings) -> Result<LibC, AllocError> {
        Ok(LibC {
            stamps: Arc::new(alloc, AtomicU64::new(0))?,
            kinds: settings.kinds,
            names: settings.names,
            user: libc::geteuid(),
            mask: read_mask(),
        })
    }

    /// What the call opened.
    fn opened(&self, fd: i32) -> Result<OpenFd, DiskError> {
        let fd = owned(fd)?;
        let raw = fd.as_raw_fd();
        match u32::try_from(raw) {
            Ok(number) => Ok(OpenFd {
                fd,
                number,
                stamp: self.stamps.fetch_add(1, Ordering::SeqCst),
            }),
            Err(_) => Err(DiskError::Failed(EBADF)),
        }
    }
}

impl SystemCalls for LibC {
    type Fd = OpenFd;

    type Cursor = Rewound;

    ghost number = { λ fd. fd.number };

    ghost stamp = { λ fd. fd.stamp };

    ghost did = { λ _. Unit {0} };

    ghost begins = { λ _ _. Unit {0} };

    ghost advances = { λ _ _ _. Unit {0} };

    ghost entered = { Unit {0} };

    ghost guards = { λ _. Unit {0} };

    ghost user = { λ s. s.user };

    ghost mask = { λ s. s.mask };

    ghost kinds = { λ s. s.kinds };

    ghost names = { λ s. s.names };

    fn share(&self) -> Result<LibC, AllocError> {
        Ok(LibC {
            stamps: Arc::try_clone(&self.stamps)?,
            kinds: self.kinds,
            names: self.names,
            user: self.user,
            mask: self.mask,
        })
    }

    fn number(&self, fd: &OpenFd) -> u32 {
        fd.number
    }

    fn stamp(&self, fd: &OpenFd) -> u64 {
        fd.stamp
    }

    fn user(&self) -> u32 {
        self.user
    }

    fn mask(&self) -> u32 {
        self.mask
    }

    fn kinds(&self) -> Kinds {
        self.kinds
    }

    fn names(&self) -> Names {
        self.names
    }

    fn milliseconds(&self) -> u64 {
        let mut time = timespec {
            tv_sec: 0,
            tv_nsec: 0,
        };
        let _ = libc::clock_gettime(libc::CLOCK_MONOTONIC, &mut time);
        let seconds = u64::try_from(time.tv_sec).unwrap_or(0);
        let nanos = u64::try_from(time.tv_nsec).unwrap_or(0);
        seconds
            .saturating_mul(1_000)
            .saturating_add(nanos / 1_000_000)
    }

    fn enter_descriptors(&self) -> Result<(), DiskError> {
        expect_done(os::chdir(DESCRIPTORS))
    }

    fn open_top(&self, path: &[u8]) -> Result<OpenFd, DiskError> {
        self.opened(os::open_dir_at(libc::AT_FDCWD, path))
    }

    /// Two calls of `open`, of which the first must fail with ELOOP.
    fn refuses_links(&self, _own: &OpenFd, _guard: &Page, to_link: &Page, to_file: &Page) -> bool {
        match owned(os::open_with(to_link.text(), libc::O_RDONLY, 0)) {
            Err(DiskError::Failed(libc::ELOOP)) => {
                owned(os::open_with(to_file.text(), libc::O_RDONLY, 0)).is_ok()
            }
            _ => false,
        }
    }

    fn open_again(&self, dir: &OpenFd) -> Result<OpenFd, DiskError> {
        self.opened(os::open_dir_at(dir.fd.as_raw_fd(), b"."))
    }

    fn open_dir(&self, dir: &OpenFd, name: &[u8]) -> Result<OpenFd, DiskError> {
        self.opened(os::open_dir_at(dir.fd.as_raw_fd(), name))
    }

    fn open_dir_at(&self, _dir: &OpenFd, path: &Page) -> Result<OpenFd, DiskError> {
        self.opened(os::open_dir_at(libc::AT_FDCWD, path.text()))
    }

    fn look(&self, dir: &OpenFd, name: &Page) -> Result<Stat, DiskError> {
        look(
            self.kinds,
            dir.fd.as_raw_fd(),
            name,
            libc::AT_SYMLINK_NOFOLLOW,
        )
    }

    fn look_at(&self, _dir: &OpenFd, path: &Page) -> Result<Stat, DiskError> {
        look(self.kinds, libc::AT_FDCWD, path, libc::AT_SYMLINK_NOFOLLOW)
    }

    fn inspect(&self, fd: &OpenFd, none: &Page) -> Result<Stat, DiskError> {
        look(self.kinds, fd.fd.as_raw_fd(), none, libc::AT_EMPTY_PATH)
    }

    fn open_file(&self, _dir: &OpenFd, path: &Page, access: Access) -> Result<OpenFd, DiskError> {
        let flags = match access {
            Access::Read => libc::O_RDONLY,
            Access::Write => libc::O_RDWR,
        };
        self.opened(os::open_with(path.text(), flags, 0))
    }

    fn make_file(&self, _dir: &OpenFd, path: &Page, permissions: u32) -> Result<OpenFd, DiskError> {
        let flags = libc::O_RDWR | libc::O_CREAT | libc::O_EXCL;
        self.opened(os::open_with(path.text(), flags, permissions))
    }

    fn make_dir(&self, _dir: &OpenFd, path: &Page, permissions: u32) -> Result<(), DiskError> {
        expect_done(unsafe { libc::mkdir(path.c_string(), permissions) })
    }

    fn read_link(&self, _dir: &OpenFd, path: &Page, buffer: &mut [u8]) -> Result<usize, DiskError> {
        count_of(unsafe { libc::readlink(path.c_string(), buffer) })
    }

    fn make_link(&self, _dir: &OpenFd, path: &Page, target: &[u8]) -> Result<(), DiskError> {
        expect_done(os::symlink(target, path.text()))
    }

    fn remove_file(&self, dir: &OpenFd, name: &[u8]) -> Result<(), DiskError> {
        expect_done(os::unlink_at(dir.fd.as_raw_fd(), name))
    }

    fn remove_file_at(&self, _dir: &OpenFd, path: &Page) -> Result<(), DiskError> {
        expect_done(unsafe { libc::unlink(path.c_string()) })
    }

    fn remove_dir_at(&self, _dir: &OpenFd, path: &Page) -> Result<(), DiskError> {
        expect_done(unsafe { libc::rmdir(path.c_string()) })
    }

    fn remove_dir(&self, dir: &OpenFd, name: &[u8]) -> Result<(), DiskError> {
        expect_done(os::rmdir_at(dir.fd.as_raw_fd(), name))
    }

    fn rename(
        &self,
        _from_dir: &OpenFd,
        from: &Page,
        _to_dir: &OpenFd,
        to: &Page,
    ) -> Result<(), DiskError> {
        expect_done(unsafe { libc::rename(from.c_string(), to.c_string()) })
    }

    fn link(
        &self,
        _from_dir: &OpenFd,
        from: &Page,
        _to_dir: &OpenFd,
        to: &Page,
    ) -> Result<(), DiskError> {
        expect_done(unsafe { libc::link(from.c_string(), to.c_string()) })
    }

    fn read_at(&self, file: &OpenFd, buffer: &mut [u8], offset: u64) -> Result<usize, DiskError> {
        count_of(libc::pread(file.fd.as_raw_fd(), buffer, offset as i64))
    }

    fn write_at(&self, file: &OpenFd, bytes: &[u8], offset: u64) -> Result<usize, DiskError> {
        count_of(libc::pwrite(file.fd.as_raw_fd(), bytes, offset as i64))
    }

    fn set_len(&self, file: &OpenFd, size: u64) -> Result<(), DiskError> {
        expect_done(libc::ftruncate(file.fd.as_raw_fd(), size as i64))
    }

    fn sync(&self, fd: &OpenFd) -> Result<(), DiskError> {
        expect_done(libc::fsync(fd.fd.as_raw_fd()))
    }

    fn set(&self, fd: &OpenFd, change: Change) -> Result<(), DiskError> {
        set_open(fd.fd.as_raw_fd(), change)
    }

    fn set_at(&self, _dir: &OpenFd, path: &Page, change: Change) -> Result<(), DiskError> {
        set_named(path, change)
    }

    /// `lseek`.
    fn rewind(&self, dir: &OpenFd) -> Result<Rewound, DiskError> {
        let at = libc::lseek(dir.fd.as_raw_fd(), 0, libc::SEEK_SET);
        if at < 0 {
            return Err(last_failure());
        }
        if at == 0 {
            Ok(Rewound)
        } else {
            Err(DiskError::Failed(EIO))
        }
    }

    /// `getdents`.
    fn next_names(
        &self,
        dir: &OpenFd,
        _at: &mut Rewound,
        buffer: &mut [u8],
    ) -> Result<usize, DiskError> {
        let n = os::read_dir(dir.fd.as_raw_fd(), buffer);
        match os::errno() {
            0 => Ok(n),
            errno => Err(failure_of(errno)),
        }
    }
}
