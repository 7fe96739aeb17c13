//! The calls of a system of which nothing is known, as the real one.

ghost use Rattle.disk.specs.Names.{IsLawfulName, IsLinkText};

use crate::error::DiskError;
use crate::stat::{Access, Change, Stat};
use paths::Name;
use std::alloc::Global;

/// The calls of `Disk`, by the same names, of which nothing is said. Each name that is handed to them is lawful, each text is one
/// that a link can have, and neither the buffer of `read_at` nor the bytes of `write_at` are empty.
pub trait System {
    /// A file or folder that is open for as long as the value is there.
    type Handle: Drop;

    fn alloc(&self) -> Global;

    fn now(&self) -> u64;

    fn moves(&self) -> u64;

    fn changes(&self) -> u64;

    fn note_move(&self);

    fn is_shared(&self) -> bool;

    fn shows_all(&self) -> bool;

    fn keeps_files(&self) -> bool;

    fn find_open(&self, dir: &Self::Handle, name: &Name, access: Access) -> Option<Self::Handle>
        requires { IsLawfulName name.now };

    fn is_by_name(&self, dir: &Self::Handle) -> bool;

    fn open_root(&self) -> Result<Self::Handle, DiskError>;

    fn inspect(&self, handle: &Self::Handle) -> Result<Stat, DiskError>;

    fn look(&self, dir: &Self::Handle, name: &Name) -> Result<Stat, DiskError>
        requires { IsLawfulName name.now };

    fn open_dir(&self, dir: &Self::Handle, name: &Name) -> Result<Self::Handle, DiskError>
        requires { IsLawfulName name.now };

    fn open_file(
        &self,
        dir: &Self::Handle,
        name: &Name,
        access: Access,
    ) -> Result<Self::Handle, DiskError>
        requires { IsLawfulName name.now };

    /// A count above the buffer's length is a failure.
    fn read_at(
        &self,
        file: &Self::Handle,
        buffer: &mut [u8],
        offset: u64,
    ) -> Result<usize, DiskError>;

    fn read_link(&self, dir: &Self::Handle, name: &Name) -> Result<Vec<u8>, DiskError>
        requires { IsLawfulName name.now };

    fn list(&self, dir: &Self::Handle) -> Result<Vec<Name>, DiskError>;

    fn sync(&self, handle: &Self::Handle) -> Result<(), DiskError>;

    fn set(&self, handle: &Self::Handle, change: Change) -> Result<(), DiskError>;

    fn set_at(&self, dir: &Self::Handle, name: &Name, change: Change) -> Result<(), DiskError>
        requires { IsLawfulName name.now };

    /// A count above the number of bytes is a failure.
    fn write_at(
        &mut self,
        file: &Self::Handle,
        bytes: &[u8],
        offset: u64,
    ) -> Result<usize, DiskError>;

    fn set_len(&mut self, file: &Self::Handle, size: u64) -> Result<(), DiskError>;

    fn make_file(
        &mut self,
        dir: &Self::Handle,
        name: &Name,
        permissions: Option<u32>,
    ) -> Result<Self::Handle, DiskError>
        requires { IsLawfulName name.now };

    fn make_dir(
        &mut self,
        dir: &Self::Handle,
        name: &Name,
        permissions: Option<u32>,
    ) -> Result<(), DiskError>
        requires { IsLawfulName name.now };

    fn make_link(&mut self, dir: &Self::Handle, name: &Name, text: &[u8]) -> Result<(), DiskError>
        requires name { IsLawfulName name.now }
        requires text { IsLinkText text.now };

    fn remove_file(&mut self, dir: &Self::Handle, name: &Name) -> Result<(), DiskError>
        requires { IsLawfulName name.now };

    fn remove_dir(&mut self, dir: &Self::Handle, name: &Name) -> Result<(), DiskError>
        requires { IsLawfulName name.now };

    fn rename(
        &mut self,
        from_dir: &Self::Handle,
        from: &Name,
        to_dir: &Self::Handle,
        to: &Name,
    ) -> Result<(), DiskError>
        requires from { IsLawfulName from.now }
        requires to { IsLawfulName to.now };

    fn link(
        &mut self,
        from_dir: &Self::Handle,
        from: &Name,
        to_dir: &Self::Handle,
        to: &Name,
    ) -> Result<(), DiskError>
        requires from { IsLawfulName from.now }
        requires to { IsLawfulName to.now };
}
