//! The disk in memory as a disk.

use crate::disk::Disk;
use crate::error::DiskError;
use crate::memory::MemoryDisk;
use crate::schedule::ended;
use crate::spot::MemoryHandle;
use crate::stat::{Access, Change, Stat};
use errno::EBADF;
use paths::Name;
use std::alloc::Global;

impl Disk for MemoryDisk {
    ghost use Rattle.std.specs.Prelude.{IsSome};
    ghost use Rattle.disk.specs.Spots.{path_of, stands_in, tree_of};
    ghost use Rattle.disk.specs.ReachedLemmas.{tree_of_is_tree};

    type Handle = MemoryHandle;

    ghost tree = { λ disk. tree_of disk.standing };

    ghost stands = { λ disk. stands_in disk.standing };

    ghost has_set = { λ disk p _. IsSome (tree_of disk.standing p) };

    ghost has_synced = { λ disk p. IsSome (tree_of disk.standing p) };

    ghost honest = { Unit {0} };

    ghost is_tree = { λ disk. tree_of_is_tree disk.standing };

    fn alloc(&self) -> Global {
        self.alloc
    }

    fn now(&self) -> u64 {
        self.schedule.now()
    }

    /// As often as anything changed.
    fn moves(&self) -> u64 {
        self.schedule.changes()
    }

    fn changes(&self) -> u64 {
        self.schedule.changes()
    }

    fn note_move(&self) {}

    fn is_shared(&self) -> bool {
        self.schedule.is_shared()
    }

    fn shows_all(&self) -> bool {
        self.schedule.shows_all()
    }

    fn keeps_files(&self) -> bool {
        self.schedule.keeps_files()
    }

    /// It opens each anew.
    fn find_open(
        &self,
        _dir: &MemoryHandle,
        _name: &Name,
        _access: Access,
    ) -> Option<MemoryHandle> {
        None
    }

    fn is_by_name(&self, _dir: &MemoryHandle) -> bool {
        false
    }

    fn open_root(&self) -> Result<MemoryHandle, DiskError> {
        match self.schedule.pass() {
            Ok(()) => {}
            Err(error) => return Err(error),
        }
        let number = self.standing.root();
        Ok(MemoryHandle { number })
    }

    fn inspect(&self, handle: &MemoryHandle) -> Result<Stat, DiskError> {
        match self.schedule.pass() {
            Ok(()) => {}
            Err(error) => return Err(error),
        }
        match self.standing.of(handle.number) {
            Some(spot) => Ok(self.stat_of(spot)),
            None => Err(DiskError::Failed(EBADF)),
        }
    }

    fn look(&self, dir: &MemoryHandle, name: &Name) -> Result<Stat, DiskError> {
        match self.reach(dir, name) {
            Ok(path) => self.look_at(&path),
            Err(error) => Err(error),
        }
    }

    fn open_dir(&self, dir: &MemoryHandle, name: &Name) -> Result<MemoryHandle, DiskError> {
        match self.reach(dir, name) {
            Ok(path) => self.open_dir_at(&path),
            Err(error) => Err(error),
        }
    }

    fn open_file(
        &self,
        dir: &MemoryHandle,
        name: &Name,
        _access: Access,
    ) -> Result<MemoryHandle, DiskError> {
        match self.reach(dir, name) {
            Ok(path) => self.open_file_at(&path),
            Err(error) => Err(error),
        }
    }

    fn read_at(
        &self,
        file: &MemoryHandle,
        buffer: &mut [u8],
        offset: u64,
    ) -> Result<usize, DiskError> {
        match self.schedule.pass() {
            Ok(()) => {}
            Err(error) => return Err(error),
        }
        self.standing
            .read(file.number, buffer, offset, self.schedule.most())
    }

    fn read_link(&self, dir: &MemoryHandle, name: &Name) -> Result<Vec<u8>, DiskError> {
        match self.reach(dir, name) {
            Ok(path) => self.read_link_at(&path),
            Err(error) => Err(error),
        }
    }

    fn list(&self, dir: &MemoryHandle) -> Result<Vec<Name>, DiskError> {
        match self.schedule.pass() {
            Ok(()) => {}
            Err(error) => return Err(error),
        }
        self.standing.list(self.alloc, dir.number)
    }

    fn sync(&self, handle: &MemoryHandle) -> Result<(), DiskError> {
        match self.schedule.pass() {
            Ok(()) => {}
            Err(error) => return Err(error),
        }
        match self.standing.of(handle.number) {
            Some(_) => Ok(()),
            None => Err(DiskError::Failed(EBADF)),
        }
    }

    fn set(&self, handle: &MemoryHandle, change: Change) -> Result<(), DiskError> {
        match self.schedule.pass() {
            Ok(()) => {}
            Err(error) => return Err(error),
        }
        match self.standing.of(handle.number) {
            Some(spot) => self.set_of(spot, change),
            None => Err(DiskError::Failed(EBADF)),
        }
    }

    fn set_at(&self, dir: &MemoryHandle, name: &Name, change: Change) -> Result<(), DiskError> {
        match self.reach(dir, name) {
            Ok(path) => match self.standing.at(&path) {
                Some(spot) => self.set_of(spot, change),
                None => Err(DiskError::Absent),
            },
            Err(error) => Err(error),
        }
    }

    fn write_at(
        &mut self,
        file: &MemoryHandle,
        bytes: &[u8],
        offset: u64,
    ) -> Result<usize, DiskError> {
        match self.schedule.pass() {
            Ok(()) => {}
            Err(error) => return Err(error),
        }
        let most = self.schedule.most();
        self.standing.write(file.number, bytes, offset, most)
    }

    fn set_len(&mut self, file: &MemoryHandle, size: u64) -> Result<(), DiskError> {
        let later = match self.schedule.begin() {
            Ok(later) => later,
            Err(error) => return Err(error),
        };
        ended(later, self.standing.set_len(file.number, size))
    }

    fn make_file(
        &mut self,
        dir: &MemoryHandle,
        name: &Name,
        permissions: Option<u32>,
    ) -> Result<MemoryHandle, DiskError> {
        let later = match self.schedule.begin() {
            Ok(later) => later,
            Err(error) => return Err(error),
        };
        match self.standing.path_to(self.alloc, dir.number, name) {
            Ok(path) => ended(later, self.make_file_at(&path, permissions)),
            Err(error) => Err(error),
        }
    }

    fn make_dir(
        &mut self,
        dir: &MemoryHandle,
        name: &Name,
        permissions: Option<u32>,
    ) -> Result<(), DiskError> {
        let later = match self.schedule.begin() {
            Ok(later) => later,
            Err(error) => return Err(error),
        };
        match self.standing.path_to(self.alloc, dir.number, name) {
            Ok(path) => ended(later, self.make_dir_at(&path, permissions)),
            Err(error) => Err(error),
        }
    }

    fn make_link(&mut self, dir: &MemoryHandle, name: &Name, text: &[u8]) -> Result<(), DiskError> {
        let later = match self.schedule.begin() {
            Ok(later) => later,
            Err(error) => return Err(error),
        };
        match self.standing.path_to(self.alloc, dir.number, name) {
            Ok(path) => ended(later, self.make_link_at(&path, text)),
            Err(error) => Err(error),
        }
    }

    fn remove_file(&mut self, dir: &MemoryHandle, name: &Name) -> Result<(), DiskError> {
        let later = match self.schedule.begin() {
            Ok(later) => later,
            Err(error) => return Err(error),
        };
        match self.standing.path_to(self.alloc, dir.number, name) {
            Ok(path) => ended(later, self.standing.remove_file(&path)),
            Err(error) => Err(error),
        }
    }

    fn remove_dir(&mut self, dir: &MemoryHandle, name: &Name) -> Result<(), DiskError> {
        let later = match self.schedule.begin() {
            Ok(later) => later,
            Err(error) => return Err(error),
        };
        match self.standing.path_to(self.alloc, dir.number, name) {
            Ok(path) => ended(later, self.standing.remove_dir(&path)),
            Err(error) => Err(error),
        }
    }

    fn rename(
        &mut self,
        from_dir: &MemoryHandle,
        from: &Name,
        to_dir: &MemoryHandle,
        to: &Name,
    ) -> Result<(), DiskError> {
        let later = match self.schedule.begin() {
            Ok(later) => later,
            Err(error) => return Err(error),
        };
        let source = match self.standing.path_to(self.alloc, from_dir.number, from) {
            Ok(path) => path,
            Err(error) => return Err(error),
        };
        match self.standing.path_to(self.alloc, to_dir.number, to) {
            Ok(target) => ended(later, self.standing.rename(self.alloc, &source, &target)),
            Err(error) => Err(error),
        }
    }

    /// What stands in a tree of paths has one name: EPERM, as in a file system without hard links.
    fn link(
        &mut self,
        from_dir: &MemoryHandle,
        from: &Name,
        to_dir: &MemoryHandle,
        to: &Name,
    ) -> Result<(), DiskError> {
        match self.schedule.pass() {
            Ok(()) => {}
            Err(error) => return Err(error),
        }
        let source = match self.standing.path_to(self.alloc, from_dir.number, from) {
            Ok(path) => path,
            Err(error) => return Err(error),
        };
        match self.standing.path_to(self.alloc, to_dir.number, to) {
            Ok(target) => Err(self.standing.why_no_link(&source, &target)),
            Err(error) => Err(error),
        }
    }
}
