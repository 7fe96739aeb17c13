//! A system of which nothing is known, as a disk of which nothing is claimed.

ghost use Rattle.std.specs.Prelude.{◌≤◌, IfOk};

use crate::disk::Disk;
use crate::error::DiskError;
use crate::stat::{Access, Change, Stat};
use crate::system::System;
use errno::EIO;
use paths::Name;
use std::alloc::Global;

/// A system of which nothing is claimed: neither that it is honest, nor that anything stands anywhere. So every system meets the
/// clauses of a disk.
#[derive(Drop)]
pub struct Unknown<S: System + Drop> {
    system: S,
}

impl<S: System + Drop> Unknown<S> {
    /// It takes no memory.
    pub fn new(system: S) -> Unknown<S> {
        Unknown { system }
    }
}

/// The count, if no more than the limit. Else the system told what cannot be, which is EIO.
fn within(counted: Result<usize, DiskError>, limit: usize) -> Result<usize, DiskError>
    ensures { IfOk result (λ n. n ≤ limit) }
{
    match counted {
        Ok(n) => {
            if n <= limit {
                Ok(n)
            } else {
                Err(DiskError::Failed(EIO))
            }
        }
        Err(error) => Err(error),
    }
}

impl<S: System + Drop> Disk for Unknown<S> {
    ghost use Rattle.disk.specs.Alone.{root_alone, root_alone_is_tree};

    type Handle = S::Handle;

    ghost tree = { λ _. root_alone };

    ghost stands = { λ _ _ _. ⊥ };

    ghost has_set = { λ _ _ _. ⊥ };

    ghost has_synced = { λ _ _. ⊥ };

    ghost honest = { ⊥ };

    ghost is_tree = { λ _. root_alone_is_tree };

    fn alloc(&self) -> Global {
        self.system.alloc()
    }

    fn now(&self) -> u64 {
        self.system.now()
    }

    fn moves(&self) -> u64 {
        self.system.moves()
    }

    fn changes(&self) -> u64 {
        self.system.changes()
    }

    fn note_move(&self) {
        self.system.note_move();
    }

    fn is_shared(&self) -> bool {
        self.system.is_shared()
    }

    fn shows_all(&self) -> bool {
        self.system.shows_all()
    }

    fn keeps_files(&self) -> bool {
        self.system.keeps_files()
    }

    fn find_open(&self, dir: &Self::Handle, name: &Name, access: Access) -> Option<Self::Handle> {
        self.system.find_open(dir, name, access)
    }

    fn is_by_name(&self, dir: &Self::Handle) -> bool {
        self.system.is_by_name(dir)
    }

    fn open_root(&self) -> Result<Self::Handle, DiskError> {
        self.system.open_root()
    }

    fn inspect(&self, handle: &Self::Handle) -> Result<Stat, DiskError> {
        self.system.inspect(handle)
    }

    fn look(&self, dir: &Self::Handle, name: &Name) -> Result<Stat, DiskError> {
        self.system.look(dir, name)
    }

    fn open_dir(&self, dir: &Self::Handle, name: &Name) -> Result<Self::Handle, DiskError> {
        self.system.open_dir(dir, name)
    }

    fn open_file(
        &self,
        dir: &Self::Handle,
        name: &Name,
        access: Access,
    ) -> Result<Self::Handle, DiskError> {
        self.system.open_file(dir, name, access)
    }

    fn read_at(
        &self,
        file: &Self::Handle,
        buffer: &mut [u8],
        offset: u64,
    ) -> Result<usize, DiskError> {
        let read = self.system.read_at(file, buffer, offset);
        within(read, buffer.len())
    }

    fn read_link(&self, dir: &Self::Handle, name: &Name) -> Result<Vec<u8>, DiskError> {
        self.system.read_link(dir, name)
    }

    fn list(&self, dir: &Self::Handle) -> Result<Vec<Name>, DiskError> {
        self.system.list(dir)
    }

    fn sync(&self, handle: &Self::Handle) -> Result<(), DiskError> {
        self.system.sync(handle)
    }

    fn set(&self, handle: &Self::Handle, change: Change) -> Result<(), DiskError> {
        self.system.set(handle, change)
    }

    fn set_at(&self, dir: &Self::Handle, name: &Name, change: Change) -> Result<(), DiskError> {
        self.system.set_at(dir, name, change)
    }

    fn write_at(
        &mut self,
        file: &Self::Handle,
        bytes: &[u8],
        offset: u64,
    ) -> Result<usize, DiskError> {
        let written = self.system.write_at(file, bytes, offset);
        within(written, bytes.len())
    }

    fn set_len(&mut self, file: &Self::Handle, size: u64) -> Result<(), DiskError> {
        self.system.set_len(file, size)
    }

    fn make_file(
        &mut self,
        dir: &Self::Handle,
        name: &Name,
        permissions: Option<u32>,
    ) -> Result<Self::Handle, DiskError> {
        self.system.make_file(dir, name, permissions)
    }

    fn make_dir(
        &mut self,
        dir: &Self::Handle,
        name: &Name,
        permissions: Option<u32>,
    ) -> Result<(), DiskError> {
        self.system.make_dir(dir, name, permissions)
    }

    fn make_link(&mut self, dir: &Self::Handle, name: &Name, text: &[u8]) -> Result<(), DiskError> {
        self.system.make_link(dir, name, text)
    }

    fn remove_file(&mut self, dir: &Self::Handle, name: &Name) -> Result<(), DiskError> {
        self.system.remove_file(dir, name)
    }

    fn remove_dir(&mut self, dir: &Self::Handle, name: &Name) -> Result<(), DiskError> {
        self.system.remove_dir(dir, name)
    }

    fn rename(
        &mut self,
        from_dir: &Self::Handle,
        from: &Name,
        to_dir: &Self::Handle,
        to: &Name,
    ) -> Result<(), DiskError> {
        self.system.rename(from_dir, from, to_dir, to)
    }

    fn link(
        &mut self,
        from_dir: &Self::Handle,
        from: &Name,
        to_dir: &Self::Handle,
        to: &Name,
    ) -> Result<(), DiskError> {
        self.system.link(from_dir, from, to_dir, to)
    }
}
