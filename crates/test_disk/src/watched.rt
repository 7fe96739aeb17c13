//! A system whose calls are counted, of which some are ended by a signal, and where some folders may be entered and not read.

use disk::{Access, Change, DiskError, Stat};
use linux_disk::{Page, SystemCalls};
use std::alloc::AllocError;
use std::sync::Arc;
use std::sync::atomic::{AtomicU64, Ordering};
use terms::{Kinds, Names};

/// EINTR.
const INTERRUPTED: i32 = 4;

/// EACCES.
const DENIED: i32 = 13;

/// How the name of a folder ends that may not be read, whoever asks.
const SHUT: &[u8] = b".shut";

/// The same, where a slash is behind the name.
const SHUT_FOLDER: &[u8] = b".shut/";

/// How the name of a folder ends that may not be read where it is opened first, but later.
const LATER: &[u8] = b".later";

/// Whether the folder at the end of that may not be read.
fn is_shut(path: &[u8]) -> bool {
    path.ends_with(SHUT) || path.ends_with(SHUT_FOLDER) || path.ends_with(LATER)
}

/// What is counted, and what is to come.
#[derive(Drop)]
pub struct Watch {
    /// How many of the next calls a signal ends.
    pub left: AtomicU64,
    /// How many files were opened that were there.
    pub opened: AtomicU64,
}

impl Watch {
    pub fn new() -> Watch {
        Watch {
            left: AtomicU64::new(0),
            opened: AtomicU64::new(0),
        }
    }

    /// Whether a signal ends this call.
    fn ends(&self) -> bool {
        let left = self.left.load(Ordering::SeqCst);
        if left == 0 {
            return false;
        }
        self.left.store(left - 1, Ordering::SeqCst);
        true
    }
}

/// That system, watched.
#[derive(Drop)]
pub struct Watched<C: SystemCalls + Drop> {
    calls: C,
    watch: Arc<Watch>,
}

impl<C: SystemCalls + Drop> Watched<C> {
    pub fn new(calls: C, watch: Arc<Watch>) -> Watched<C> {
        Watched { calls, watch }
    }
}

impl<C: SystemCalls + Drop> SystemCalls for Watched<C> {
    type Fd = C::Fd;

    type Cursor = C::Cursor;

    ghost number = { C.number };

    ghost stamp = { C.stamp };

    ghost did = { C.did };

    ghost begins = { C.begins };

    ghost advances = { C.advances };

    ghost entered = { C.entered };

    ghost guards = { C.guards };

    ghost user = { λ s. C.user s.calls };

    ghost mask = { λ s. C.mask s.calls };

    ghost kinds = { λ s. C.kinds s.calls };

    ghost names = { λ s. C.names s.calls };

    fn share(&self) -> Result<Watched<C>, AllocError> {
        Ok(Watched {
            calls: self.calls.share()?,
            watch: Arc::try_clone(&self.watch)?,
        })
    }

    fn number(&self, fd: &C::Fd) -> u32 {
        self.calls.number(fd)
    }

    fn stamp(&self, fd: &C::Fd) -> u64 {
        self.calls.stamp(fd)
    }

    fn user(&self) -> u32 {
        self.calls.user()
    }

    fn mask(&self) -> u32 {
        self.calls.mask()
    }

    fn kinds(&self) -> Kinds {
        self.calls.kinds()
    }

    fn names(&self) -> Names {
        self.calls.names()
    }

    fn milliseconds(&self) -> u64 {
        self.calls.milliseconds()
    }

    fn enter_descriptors(&self) -> Result<(), DiskError> {
        self.calls.enter_descriptors()
    }

    fn open_top(&self, path: &[u8]) -> Result<C::Fd, DiskError> {
        self.calls.open_top(path)
    }

    fn refuses_links(&self, own: &C::Fd, guard: &Page, to_link: &Page, to_file: &Page) -> bool {
        self.calls.refuses_links(own, guard, to_link, to_file)
    }

    fn open_again(&self, dir: &C::Fd) -> Result<C::Fd, DiskError> {
        if self.watch.ends() {
            return Err(DiskError::Failed(INTERRUPTED));
        }
        self.calls.open_again(dir)
    }

    fn open_dir(&self, dir: &C::Fd, name: &[u8]) -> Result<C::Fd, DiskError> {
        if self.watch.ends() {
            return Err(DiskError::Failed(INTERRUPTED));
        }
        if is_shut(name) {
            return Err(DiskError::Failed(DENIED));
        }
        self.calls.open_dir(dir, name)
    }

    fn open_dir_at(&self, dir: &C::Fd, path: &Page) -> Result<C::Fd, DiskError> {
        if self.watch.ends() {
            return Err(DiskError::Failed(INTERRUPTED));
        }
        if is_shut(path.text()) {
            return Err(DiskError::Failed(DENIED));
        }
        self.calls.open_dir_at(dir, path)
    }

    fn look(&self, dir: &C::Fd, name: &Page) -> Result<Stat, DiskError> {
        self.calls.look(dir, name)
    }

    fn look_at(&self, dir: &C::Fd, path: &Page) -> Result<Stat, DiskError> {
        self.calls.look_at(dir, path)
    }

    fn inspect(&self, fd: &C::Fd, none: &Page) -> Result<Stat, DiskError> {
        self.calls.inspect(fd, none)
    }

    fn open_file(&self, dir: &C::Fd, path: &Page, access: Access) -> Result<C::Fd, DiskError> {
        if self.watch.ends() {
            return Err(DiskError::Failed(INTERRUPTED));
        }
        self.watch.opened.fetch_add(1, Ordering::SeqCst);
        self.calls.open_file(dir, path, access)
    }

    fn make_file(&self, dir: &C::Fd, path: &Page, permissions: u32) -> Result<C::Fd, DiskError> {
        if self.watch.ends() {
            return Err(DiskError::Failed(INTERRUPTED));
        }
        self.calls.make_file(dir, path, permissions)
    }

    fn make_dir(&self, dir: &C::Fd, path: &Page, permissions: u32) -> Result<(), DiskError> {
        self.calls.make_dir(dir, path, permissions)
    }

    fn read_link(&self, dir: &C::Fd, path: &Page, buffer: &mut [u8]) -> Result<usize, DiskError> {
        self.calls.read_link(dir, path, buffer)
    }

    fn make_link(&self, dir: &C::Fd, path: &Page, target: &[u8]) -> Result<(), DiskError> {
        self.calls.make_link(dir, path, target)
    }

    fn remove_file(&self, dir: &C::Fd, name: &[u8]) -> Result<(), DiskError> {
        self.calls.remove_file(dir, name)
    }

    fn remove_file_at(&self, dir: &C::Fd, path: &Page) -> Result<(), DiskError> {
        self.calls.remove_file_at(dir, path)
    }

    fn remove_dir_at(&self, dir: &C::Fd, path: &Page) -> Result<(), DiskError> {
        self.calls.remove_dir_at(dir, path)
    }

    fn remove_dir(&self, dir: &C::Fd, name: &[u8]) -> Result<(), DiskError> {
        self.calls.remove_dir(dir, name)
    }

    fn rename(
        &self,
        from_dir: &C::Fd,
        from: &Page,
        to_dir: &C::Fd,
        to: &Page,
    ) -> Result<(), DiskError> {
        self.calls.rename(from_dir, from, to_dir, to)
    }

    fn link(
        &self,
        from_dir: &C::Fd,
        from: &Page,
        to_dir: &C::Fd,
        to: &Page,
    ) -> Result<(), DiskError> {
        self.calls.link(from_dir, from, to_dir, to)
    }

    fn read_at(&self, file: &C::Fd, buffer: &mut [u8], offset: u64) -> Result<usize, DiskError> {
        if self.watch.ends() {
            return Err(DiskError::Failed(INTERRUPTED));
        }
        self.calls.read_at(file, buffer, offset)
    }

    fn write_at(&self, file: &C::Fd, bytes: &[u8], offset: u64) -> Result<usize, DiskError> {
        if self.watch.ends() {
            return Err(DiskError::Failed(INTERRUPTED));
        }
        self.calls.write_at(file, bytes, offset)
    }

    fn set_len(&self, file: &C::Fd, size: u64) -> Result<(), DiskError> {
        if self.watch.ends() {
            return Err(DiskError::Failed(INTERRUPTED));
        }
        self.calls.set_len(file, size)
    }

    fn sync(&self, fd: &C::Fd) -> Result<(), DiskError> {
        if self.watch.ends() {
            return Err(DiskError::Failed(INTERRUPTED));
        }
        self.calls.sync(fd)
    }

    fn set(&self, fd: &C::Fd, change: Change) -> Result<(), DiskError> {
        if self.watch.ends() {
            return Err(DiskError::Failed(INTERRUPTED));
        }
        self.calls.set(fd, change)
    }

    fn set_at(&self, dir: &C::Fd, path: &Page, change: Change) -> Result<(), DiskError> {
        if self.watch.ends() {
            return Err(DiskError::Failed(INTERRUPTED));
        }
        self.calls.set_at(dir, path, change)
    }

    fn rewind(&self, dir: &C::Fd) -> Result<C::Cursor, DiskError> {
        self.calls.rewind(dir)
    }

    fn next_names(
        &self,
        dir: &C::Fd,
        at: &mut C::Cursor,
        buffer: &mut [u8],
    ) -> Result<usize, DiskError> {
        self.calls.next_names(dir, at, buffer)
    }
}
