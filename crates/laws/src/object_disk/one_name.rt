//! A disk by objects as a disk by paths, until a LINK is granted.

ghost use Rattle.std.specs.Prelude.{◌≡◌, false};
ghost use Rattle.laws.specs.Objects.{HasOneName};

use crate::object_disk::objects::ObjectDisk;
use disk::{Access, Change, Disk, DiskError, Stat};
use errno::EIO;
use paths::Name;
use std::alloc::Global;

/// A disk on which each object has one name, until a LINK is granted. No other call gives an object a second one, so till then it is a
/// disk by paths. From then on nothing is claimed of what stands at a path, and its root is not opened again.
#[derive(Drop)]
pub struct OneName<D: ObjectDisk + Drop> {
    disk: D,
    /// Whether a LINK was granted.
    linked: bool,
    ghost one_name: { linked ≡ false → HasOneName (D.objects disk).at },
}

impl<D: ObjectDisk + Drop> OneName<D> {
    ghost use Rattle.paths.specs.Prefixes.{Names};
    ghost use Rattle.laws.specs.Objects.{LeadsTo, tree_by_paths};

    /// A disk on which nothing has hard links: at each path is what the object is that stands there, and what is open stands where that
    /// does. It takes no memory.
    pub fn new(disk: D) -> OneName<D>
        requires { HasOneName (D.objects disk).at }
        ensures tree { ⟦<OneName<D> as Disk>⟧.tree result ≡ tree_by_paths (D.objects disk) }
        ensures stand { (handle : _) (p : Names) → LeadsTo (D.objects disk) (D.opens disk handle) p → ⟦<OneName<D> as Disk>⟧.stands result handle p }
    {
        OneName {
            disk,
            linked: false,
        }
    }
}

impl<D: ObjectDisk + Drop> Disk for OneName<D> {
    ghost use Rattle.laws.specs.Objects.{ObjectAt, stands_unlinked, tree_by_paths};

    type Handle = D::Handle;

    ghost tree = { λ one. tree_by_paths (D.objects one.disk) };

    ghost stands = { λ one. stands_unlinked one.linked (D.objects one.disk) (D.opens one.disk) };

    ghost has_set = { λ one p change. ObjectAt (D.objects one.disk) p (λ object. D.has_set one.disk object change) };

    ghost has_synced = { λ one p. ObjectAt (D.objects one.disk) p (D.has_synced one.disk) };

    ghost honest = { Unit {0} };

    ghost is_tree = { λ one. D.is_tree one.disk };

    fn alloc(&self) -> Global {
        self.disk.alloc()
    }

    fn now(&self) -> u64 {
        self.disk.now()
    }

    fn moves(&self) -> u64 {
        self.disk.moves()
    }

    fn changes(&self) -> u64 {
        self.disk.changes()
    }

    fn note_move(&self) {
        self.disk.note_move();
    }

    fn is_shared(&self) -> bool {
        self.disk.is_shared()
    }

    fn shows_all(&self) -> bool {
        self.disk.shows_all()
    }

    fn keeps_files(&self) -> bool {
        self.disk.keeps_files()
    }

    fn find_open(&self, dir: &Self::Handle, name: &Name, access: Access) -> Option<Self::Handle> {
        self.disk.find_open(dir, name, access)
    }

    fn is_by_name(&self, dir: &Self::Handle) -> bool {
        self.disk.is_by_name(dir)
    }

    /// Fails once a LINK was granted.
    fn open_root(&self) -> Result<Self::Handle, DiskError> {
        if self.linked {
            return Err(DiskError::Failed(EIO));
        }
        self.disk.open_root()
    }

    fn inspect(&self, handle: &Self::Handle) -> Result<Stat, DiskError> {
        self.disk.inspect(handle)
    }

    fn look(&self, dir: &Self::Handle, name: &Name) -> Result<Stat, DiskError> {
        self.disk.look(dir, name)
    }

    fn open_dir(&self, dir: &Self::Handle, name: &Name) -> Result<Self::Handle, DiskError> {
        self.disk.open_dir(dir, name)
    }

    fn open_file(
        &self,
        dir: &Self::Handle,
        name: &Name,
        access: Access,
    ) -> Result<Self::Handle, DiskError> {
        self.disk.open_file(dir, name, access)
    }

    fn read_at(
        &self,
        file: &Self::Handle,
        buffer: &mut [u8],
        offset: u64,
    ) -> Result<usize, DiskError> {
        self.disk.read_at(file, buffer, offset)
    }

    fn read_link(&self, dir: &Self::Handle, name: &Name) -> Result<Vec<u8>, DiskError> {
        self.disk.read_link(dir, name)
    }

    fn list(&self, dir: &Self::Handle) -> Result<Vec<Name>, DiskError> {
        self.disk.list(dir)
    }

    fn sync(&self, handle: &Self::Handle) -> Result<(), DiskError> {
        self.disk.sync(handle)
    }

    fn set(&self, handle: &Self::Handle, change: Change) -> Result<(), DiskError> {
        self.disk.set(handle, change)
    }

    fn set_at(&self, dir: &Self::Handle, name: &Name, change: Change) -> Result<(), DiskError> {
        self.disk.set_at(dir, name, change)
    }

    fn write_at(
        &mut self,
        file: &Self::Handle,
        bytes: &[u8],
        offset: u64,
    ) -> Result<usize, DiskError> {
        self.disk.write_at(file, bytes, offset)
    }

    fn set_len(&mut self, file: &Self::Handle, size: u64) -> Result<(), DiskError> {
        self.disk.set_len(file, size)
    }

    fn make_file(
        &mut self,
        dir: &Self::Handle,
        name: &Name,
        permissions: Option<u32>,
    ) -> Result<Self::Handle, DiskError> {
        self.disk.make_file(dir, name, permissions)
    }

    fn make_dir(
        &mut self,
        dir: &Self::Handle,
        name: &Name,
        permissions: Option<u32>,
    ) -> Result<(), DiskError> {
        self.disk.make_dir(dir, name, permissions)
    }

    fn make_link(&mut self, dir: &Self::Handle, name: &Name, text: &[u8]) -> Result<(), DiskError> {
        self.disk.make_link(dir, name, text)
    }

    fn remove_file(&mut self, dir: &Self::Handle, name: &Name) -> Result<(), DiskError> {
        self.disk.remove_file(dir, name)
    }

    fn remove_dir(&mut self, dir: &Self::Handle, name: &Name) -> Result<(), DiskError> {
        self.disk.remove_dir(dir, name)
    }

    fn rename(
        &mut self,
        from_dir: &Self::Handle,
        from: &Name,
        to_dir: &Self::Handle,
        to: &Name,
    ) -> Result<(), DiskError> {
        self.disk.rename(from_dir, from, to_dir, to)
    }

    fn link(
        &mut self,
        from_dir: &Self::Handle,
        from: &Name,
        to_dir: &Self::Handle,
        to: &Name,
    ) -> Result<(), DiskError> {
        match self.disk.link(from_dir, from, to_dir, to) {
            Ok(()) => {
                self.linked = true;
                Ok(())
            }
            Err(error) => Err(error),
        }
    }
}
