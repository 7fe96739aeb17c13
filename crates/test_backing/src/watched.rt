//! A system whose calls are watched.

use crate::watch::Watch;
use disk::{Access, Change, DiskError, Stat};
use linux_disk::{Page, SystemCalls};
use std::alloc::AllocError;
use std::rc::Rc;
use terms::{Kinds, Names};

/// That system, watched.
#[derive(Drop)]
pub struct Watched<C: SystemCalls + Drop> {
    calls: C,
    watch: Rc<Watch>,
}

impl<C: SystemCalls + Drop> Watched<C> {
    pub fn new(calls: C, watch: Rc<Watch>) -> Watched<C> {
        watch.note_user(calls.user());
        Watched { calls, watch }
    }
}

impl<C: SystemCalls + Drop> SystemCalls for Watched<C> {
    type Fd = C::Fd;

    type Cursor = C::Cursor;

    ghost number = { C.number };

    ghost stamp = { C.stamp };

    ghost did = { C.did };

    ghost begins = { C.begins };

    ghost advances = { C.advances };

    ghost entered = { C.entered };

    ghost guards = { C.guards };

    ghost user = { λ s. C.user s.calls };

    ghost mask = { λ s. C.mask s.calls };

    ghost kinds = { λ s. C.kinds s.calls };

    ghost names = { λ s. C.names s.calls };

    fn share(&self) -> Result<Watched<C>, AllocError> {
        Ok(Watched {
            calls: self.calls.share()?,
            watch: self.watch.clone()?,
        })
    }

    fn number(&self, fd: &C::Fd) -> u32 {
        self.calls.number(fd)
    }

    fn stamp(&self, fd: &C::Fd) -> u64 {
        self.calls.stamp(fd)
    }

    fn user(&self) -> u32 {
        self.calls.user()
    }

    fn mask(&self) -> u32 {
        self.calls.mask()
    }

    fn kinds(&self) -> Kinds {
        self.calls.kinds()
    }

    fn names(&self) -> Names {
        self.calls.names()
    }

    fn milliseconds(&self) -> u64 {
        self.watch.time(self.calls.milliseconds())
    }

    fn enter_descriptors(&self) -> Result<(), DiskError> {
        self.calls.enter_descriptors()
    }

    fn open_top(&self, path: &[u8]) -> Result<C::Fd, DiskError> {
        self.calls.open_top(path)
    }

    fn refuses_links(&self, own: &C::Fd, guard: &Page, to_link: &Page, to_file: &Page) -> bool {
        self.calls.refuses_links(own, guard, to_link, to_file)
    }

    fn open_again(&self, dir: &C::Fd) -> Result<C::Fd, DiskError> {
        self.calls.open_again(dir)
    }

    fn open_dir(&self, dir: &C::Fd, name: &[u8]) -> Result<C::Fd, DiskError> {
        self.watch.note("open-dir")?;
        self.watch.before_open(name)?;
        self.calls.open_dir(dir, name)
    }

    fn open_dir_at(&self, dir: &C::Fd, path: &Page) -> Result<C::Fd, DiskError> {
        self.watch.note("open-dir-at")?;
        self.calls.open_dir_at(dir, path)
    }

    fn look_at(&self, dir: &C::Fd, path: &Page) -> Result<Stat, DiskError> {
        self.watch.note("look-at")?;
        self.calls.look_at(dir, path)
    }

    fn look(&self, dir: &C::Fd, name: &Page) -> Result<Stat, DiskError> {
        self.watch.before_look(name.text())?;
        self.calls.look(dir, name)
    }

    fn inspect(&self, fd: &C::Fd, none: &Page) -> Result<Stat, DiskError> {
        self.watch.note("inspect")?;
        self.calls.inspect(fd, none)
    }

    fn open_file(&self, dir: &C::Fd, path: &Page, access: Access) -> Result<C::Fd, DiskError> {
        self.watch.note("open")?;
        self.watch.before_open(path.text())?;
        self.calls.open_file(dir, path, access)
    }

    fn make_file(&self, dir: &C::Fd, path: &Page, permissions: u32) -> Result<C::Fd, DiskError> {
        self.watch.note("make")?;
        self.calls.make_file(dir, path, permissions)
    }

    fn make_dir(&self, dir: &C::Fd, path: &Page, permissions: u32) -> Result<(), DiskError> {
        self.watch.note("mkdir")?;
        self.calls.make_dir(dir, path, permissions)
    }

    fn read_link(&self, dir: &C::Fd, path: &Page, buffer: &mut [u8]) -> Result<usize, DiskError> {
        self.watch.note("readlink")?;
        self.calls.read_link(dir, path, buffer)
    }

    fn make_link(&self, dir: &C::Fd, path: &Page, target: &[u8]) -> Result<(), DiskError> {
        self.watch.note("symlink")?;
        self.calls.make_link(dir, path, target)
    }

    fn remove_file(&self, dir: &C::Fd, name: &[u8]) -> Result<(), DiskError> {
        self.watch.note("unlink")?;
        self.calls.remove_file(dir, name)
    }

    fn remove_file_at(&self, dir: &C::Fd, path: &Page) -> Result<(), DiskError> {
        self.watch.note("unlink-at")?;
        self.calls.remove_file_at(dir, path)
    }

    fn remove_dir_at(&self, dir: &C::Fd, path: &Page) -> Result<(), DiskError> {
        self.watch.note("rmdir-at")?;
        self.calls.remove_dir_at(dir, path)
    }

    fn remove_dir(&self, dir: &C::Fd, name: &[u8]) -> Result<(), DiskError> {
        self.watch.note("rmdir")?;
        self.watch.before_rmdir(name)?;
        self.calls.remove_dir(dir, name)
    }

    fn rename(
        &self,
        from_dir: &C::Fd,
        from: &Page,
        to_dir: &C::Fd,
        to: &Page,
    ) -> Result<(), DiskError> {
        self.watch.note("rename")?;
        self.watch.before_rename(to.text())?;
        self.calls.rename(from_dir, from, to_dir, to)
    }

    fn link(
        &self,
        from_dir: &C::Fd,
        from: &Page,
        to_dir: &C::Fd,
        to: &Page,
    ) -> Result<(), DiskError> {
        self.watch.note("link")?;
        self.calls.link(from_dir, from, to_dir, to)
    }

    fn read_at(&self, file: &C::Fd, buffer: &mut [u8], offset: u64) -> Result<usize, DiskError> {
        self.watch.note("read")?;
        self.calls.read_at(file, buffer, offset)
    }

    fn write_at(&self, file: &C::Fd, bytes: &[u8], offset: u64) -> Result<usize, DiskError> {
        self.watch.note("write")?;
        self.calls.write_at(file, bytes, offset)
    }

    fn set_len(&self, file: &C::Fd, size: u64) -> Result<(), DiskError> {
        self.watch.note("cut")?;
        self.calls.set_len(file, size)
    }

    fn sync(&self, fd: &C::Fd) -> Result<(), DiskError> {
        self.watch.note("sync")?;
        self.calls.sync(fd)
    }

    fn set(&self, fd: &C::Fd, change: Change) -> Result<(), DiskError> {
        self.watch.note("set")?;
        self.calls.set(fd, change)
    }

    fn set_at(&self, dir: &C::Fd, path: &Page, change: Change) -> Result<(), DiskError> {
        self.watch.note("set-at")?;
        self.watch.before_set(path.text())?;
        self.calls.set_at(dir, path, change)
    }

    fn rewind(&self, dir: &C::Fd) -> Result<C::Cursor, DiskError> {
        self.watch.note("rewind")?;
        self.calls.rewind(dir)
    }

    fn next_names(
        &self,
        dir: &C::Fd,
        at: &mut C::Cursor,
        buffer: &mut [u8],
    ) -> Result<usize, DiskError> {
        self.watch.note("names")?;
        self.calls.next_names(dir, at, buffer)
    }
}
