//! A folder with one file as a disk by objects.

use crate::object_disk::objects::ObjectDisk;
use crate::object_disk::one_file::{
    FileHandle, OneFile, drop_name, has_name, push_name, read_part,
};
use crate::object_disk::one_name::OneName;
use backing::MAX_FILE_LEN;
use disk::{Access, Change, DiskError, Stat};
use errno::{EBADF, EFBIG, ENOMEM, ENOTDIR, EPERM};
use paths::Name;
use std::alloc::{AllocError, Global};

impl ObjectDisk for OneFile {
    ghost use Rattle.laws.specs.FileNames.{objects_in, opens_in};
    ghost use Rattle.laws.specs.FileNamesLemmas.{file_tree, file_items, file_folders, file_stands};

    type Handle = FileHandle;

    ghost objects = { λ disk. objects_in disk.bytes disk.names.items };

    ghost opens = { λ disk. opens_in disk.names.items };

    ghost has_set = { λ _ _ _. ⊥ };

    ghost has_synced = { λ _ _. Unit {0} };

    ghost is_tree = { λ disk. file_tree disk.bytes disk.names.items };

    ghost are_items = { λ disk. file_items disk.bytes disk.names.items };

    ghost has_folders_once = { λ disk. file_folders disk.bytes disk.names.items };

    ghost all_stand = { λ disk. file_stands disk.bytes disk.names.items };

    fn alloc(&self) -> Global {
        self.alloc
    }

    fn now(&self) -> u64 {
        0
    }

    fn moves(&self) -> u64 {
        0
    }

    fn changes(&self) -> u64 {
        0
    }

    fn note_move(&self) {}

    fn is_shared(&self) -> bool {
        false
    }

    fn shows_all(&self) -> bool {
        true
    }

    fn keeps_files(&self) -> bool {
        false
    }

    fn find_open(&self, _dir: &FileHandle, _name: &Name, _access: Access) -> Option<FileHandle> {
        None
    }

    fn is_by_name(&self, _dir: &FileHandle) -> bool {
        false
    }

    fn open_root(&self) -> Result<FileHandle, DiskError> {
        Ok(FileHandle::Root)
    }

    fn inspect(&self, _handle: &FileHandle) -> Result<Stat, DiskError> {
        Err(DiskError::Failed(EPERM))
    }

    fn look(&self, _dir: &FileHandle, _name: &Name) -> Result<Stat, DiskError> {
        Err(DiskError::Failed(EPERM))
    }

    fn open_dir(&self, _dir: &FileHandle, _name: &Name) -> Result<FileHandle, DiskError> {
        Err(DiskError::Failed(EPERM))
    }

    fn open_file(
        &self,
        dir: &FileHandle,
        name: &Name,
        _access: Access,
    ) -> Result<FileHandle, DiskError> {
        match dir {
            FileHandle::Root => {
                if has_name(&self.names, name) {
                    Ok(FileHandle::OfFile)
                } else {
                    Err(DiskError::Absent)
                }
            }
            FileHandle::OfFile => Err(DiskError::Failed(ENOTDIR)),
        }
    }

    fn read_at(
        &self,
        file: &FileHandle,
        buffer: &mut [u8],
        offset: u64,
    ) -> Result<usize, DiskError> {
        match file {
            FileHandle::Root => Err(DiskError::IsFolder),
            FileHandle::OfFile => Ok(read_part(self.bytes.as_slice(), buffer, offset)),
        }
    }

    fn read_link(&self, _dir: &FileHandle, _name: &Name) -> Result<Vec<u8>, DiskError> {
        Err(DiskError::Failed(EPERM))
    }

    fn list(&self, _dir: &FileHandle) -> Result<Vec<Name>, DiskError> {
        Err(DiskError::Failed(EPERM))
    }

    fn sync(&self, _handle: &FileHandle) -> Result<(), DiskError> {
        Ok(())
    }

    fn set(&self, _handle: &FileHandle, _change: Change) -> Result<(), DiskError> {
        Err(DiskError::Failed(EPERM))
    }

    fn set_at(&self, _dir: &FileHandle, _name: &Name, _change: Change) -> Result<(), DiskError> {
        Err(DiskError::Failed(EPERM))
    }

    fn write_at(
        &mut self,
        file: &FileHandle,
        bytes: &[u8],
        offset: u64,
    ) -> Result<usize, DiskError> {
        match file {
            FileHandle::Root => Err(DiskError::Failed(EBADF)),
            FileHandle::OfFile => self.write(bytes, offset),
        }
    }

    fn set_len(&mut self, file: &FileHandle, size: u64) -> Result<(), DiskError> {
        match file {
            FileHandle::Root => Err(DiskError::Failed(EBADF)),
            FileHandle::OfFile => self.cut(size),
        }
    }

    fn make_file(
        &mut self,
        _dir: &FileHandle,
        _name: &Name,
        _permissions: Option<u32>,
    ) -> Result<FileHandle, DiskError> {
        Err(DiskError::Failed(EPERM))
    }

    fn make_dir(
        &mut self,
        _dir: &FileHandle,
        _name: &Name,
        _permissions: Option<u32>,
    ) -> Result<(), DiskError> {
        Err(DiskError::Failed(EPERM))
    }

    fn make_link(
        &mut self,
        _dir: &FileHandle,
        _name: &Name,
        _text: &[u8],
    ) -> Result<(), DiskError> {
        Err(DiskError::Failed(EPERM))
    }

    fn remove_file(&mut self, dir: &FileHandle, name: &Name) -> Result<(), DiskError> {
        match dir {
            FileHandle::Root => self.remove(name),
            FileHandle::OfFile => Err(DiskError::Failed(ENOTDIR)),
        }
    }

    fn remove_dir(&mut self, _dir: &FileHandle, _name: &Name) -> Result<(), DiskError> {
        Err(DiskError::Failed(EPERM))
    }

    fn rename(
        &mut self,
        from_dir: &FileHandle,
        from: &Name,
        to_dir: &FileHandle,
        to: &Name,
    ) -> Result<(), DiskError> {
        match (from_dir, to_dir) {
            (FileHandle::Root, FileHandle::Root) => self.move_name(from, to),
            (_, _) => Err(DiskError::Failed(ENOTDIR)),
        }
    }

    fn link(
        &mut self,
        from_dir: &FileHandle,
        from: &Name,
        to_dir: &FileHandle,
        to: &Name,
    ) -> Result<(), DiskError> {
        match (from_dir, to_dir) {
            (FileHandle::Root, FileHandle::Root) => self.add_name(from, to),
            (_, _) => Err(DiskError::Failed(ENOTDIR)),
        }
    }
}

impl OneFile {
    ghost use Rattle.std.specs.Prelude.{[], ◌∷◌, ◌<◌, ◌≤◌, ◌≡◌, IfOk, length};
    ghost use Rattle.laws.specs.ObjectAnswers.{Cuts, Links, Removes, Renames, Stays, Writes};
    ghost use Rattle.laws.specs.FileNames.{objects_in, opens_in};

    /// Writes the bytes into the file, whether it has a name or not.
    fn write(&mut self, bytes: &[u8], offset: u64) -> Result<usize, DiskError>
        requires { 0 < length bytes.now }
        ensures within { IfOk result (λ n. n ≤ length bytes.now) }
        ensures bytes { Writes (objects_in self.old.bytes self.old.names.items) (opens_in self.old.names.items) 1 offset bytes.now result (objects_in self.new.bytes self.new.names.items) (opens_in self.new.names.items) }
        ensures names { self.new.names.items ≡ self.old.names.items }
    {
        if offset.saturating_add(bytes.len() as u64) > MAX_FILE_LEN {
            return Err(DiskError::Failed(EFBIG));
        }
        match self.bytes.write(offset as usize, bytes) {
            Ok(()) => Ok(bytes.len()),
            Err(_) => Err(DiskError::Failed(ENOMEM)),
        }
    }

    /// Cuts the file, or fills it with zeros.
    fn cut(&mut self, size: u64) -> Result<(), DiskError>
        ensures cut { Cuts (objects_in self.old.bytes self.old.names.items) (opens_in self.old.names.items) 1 size result (objects_in self.new.bytes self.new.names.items) (opens_in self.new.names.items) }
        ensures names { self.new.names.items ≡ self.old.names.items }
    {
        if size > MAX_FILE_LEN {
            return Err(DiskError::Failed(EFBIG));
        }
        match self.bytes.set_len(size as usize) {
            Ok(()) => Ok(()),
            Err(_) => Err(DiskError::Failed(ENOMEM)),
        }
    }

    /// Removes one name.
    fn remove(&mut self, name: &Name) -> Result<(), DiskError>
        ensures { Removes (objects_in self.old.bytes self.old.names.items) (opens_in self.old.names.items) (name.now ∷ []) result (objects_in self.new.bytes self.new.names.items) (opens_in self.new.names.items) }
    {
        if !has_name(&self.names, name) {
            return Err(DiskError::Absent);
        }
        drop_name(&mut self.names, name);
        Ok(())
    }

    /// Gives the file the one name in place of the other. Where it has both, both stay.
    fn move_name(&mut self, from: &Name, to: &Name) -> Result<(), DiskError>
        ensures renamed { Renames (objects_in self.old.bytes self.old.names.items) (opens_in self.old.names.items) (from.now ∷ []) (to.now ∷ []) result (objects_in self.new.bytes self.new.names.items) (opens_in self.new.names.items) }
        ensures same { from.now ≡ to.now → Stays (objects_in self.old.bytes self.old.names.items) (opens_in self.old.names.items) (objects_in self.new.bytes self.new.names.items) (opens_in self.new.names.items) }
    {
        if !has_name(&self.names, from) {
            return Err(DiskError::Absent);
        }
        if has_name(&self.names, to) {
            return Ok(());
        }
        match push_name(&mut self.names, to) {
            Ok(()) => {
                drop_name(&mut self.names, from);
                Ok(())
            }
            Err(_) => Err(DiskError::Failed(ENOMEM)),
        }
    }

    /// Gives the file a further name.
    fn add_name(&mut self, from: &Name, to: &Name) -> Result<(), DiskError>
        ensures { Links (objects_in self.old.bytes self.old.names.items) (opens_in self.old.names.items) (from.now ∷ []) (to.now ∷ []) result (objects_in self.new.bytes self.new.names.items) (opens_in self.new.names.items) }
    {
        if !has_name(&self.names, from) {
            return Err(DiskError::Absent);
        }
        if has_name(&self.names, to) {
            return Err(DiskError::Exists);
        }
        match push_name(&mut self.names, to) {
            Ok(()) => Ok(()),
            Err(_) => Err(DiskError::Failed(ENOMEM)),
        }
    }
}

/// A folder with one file as a disk by paths, until the file gets a second name.
pub fn new_file_disk(alloc: Global, name: Name) -> Result<OneName<OneFile>, AllocError> {
    Ok(OneName::new(OneFile::new(alloc, name)?))
}
