//! What stands below the root of a disk in memory, and which number leads to it.

ghost use Rattle.std.specs.Prelude.{ℕ, List, ◌≡◌, ◌≢◌, ◌≤◌, ◌<◌, [], ◌∷◌, ◌++◌, Some, None, IfErr, IfNone, IfOk, IfSome, OnOk, length};
ghost use Rattle.backing.specs.Tree.{Resolves};
ghost use Rattle.disk.specs.Spots.{IsFailure};
ghost use Rattle.disk.specs.declared.spot.Content.TheVariants.{Folder};

use crate::error::DiskError;
use crate::finding::{index_at, index_of, names_in};
use crate::moving::rename;
use crate::placing::{make, remove_dir, remove_file};
use crate::reading::read;
use crate::spot::{Content, Spot};
use crate::writing::{set_len, write};
use errno::{EBADF, EBUSY, ENOENT, ENOMEM, ENOSPC, ENOTDIR, EPERM};
use paths::{Name, Path};
use std::alloc::{AllocError, Global};
use std::marker::Model;
use std::slice;

/// The number of the root.
pub const ROOT: u64 = 0;

/// Paths with numbers that count up. Contracts see the list.
#[derive(Drop)]
pub struct Standing {
    list: Vec<Spot>,
    next: u64,
}

impl Model for Standing {
    ghost use Rattle.std.specs.Prelude.{List};
    ghost use Rattle.disk.specs.declared.spot.Spot.{Spot};
    ghost use Rattle.disk.specs.Spots.{IsSound};

    ghost Value = { List Spot };

    ghost view = { λ s. s.list.items };

    ghost invariant = { λ s. IsSound s.list.items s.next };
}

impl Standing {
    ghost use Rattle.disk.specs.Alone.{root_alone};
    ghost use Rattle.disk.specs.Answers.{Cuts, ListsNames, MakesItem, MakesNone, Reads, Removes, RemovesDir, Renames, AreApart, Writes};
    ghost use Rattle.disk.specs.Spots.{CannotLink, IsFailure, IsSpot, item_of, path_of, stands_in, tree_of};

    /// The root alone.
    pub fn new(alloc: Global) -> Result<Standing, AllocError>
        ensures { IfOk result (λ s. tree_of s ≡ root_alone) }
    {
        let path = Path::from_names(Vec::new(alloc))?;
        let mut list = Vec::new(alloc);
        list.push(Spot {
            number: ROOT,
            path,
            content: Content::Folder,
        })?;
        Ok(Standing { list, next: 1 })
    }

    /// The root's number leads to it.
    pub fn root(&self) -> u64
        ensures { path_of self.now result ≡ Some [] }
    {
        let _list = &self.list;
        ROOT
    }

    /// What that number leads to.
    pub fn of(&self, number: u64) -> Option<&Spot>
        ensures none { IfNone result (path_of self.now number ≡ None) }
        ensures found { IfSome result (λ spot. (p : List (List ℕ)) → path_of self.now number ≡ Some p → IsSpot self.now p spot.now) }
    {
        match index_of(&self.list, number) {
            Some(i) => Some(&self.list[i]),
            None => None,
        }
    }

    /// What stands at the path.
    pub fn at(&self, path: &Path) -> Option<&Spot>
        ensures none { IfNone result (tree_of self.now path.now ≡ None) }
        ensures found { IfSome result (λ spot. IsSpot self.now path.now spot.now) }
    {
        match index_at(&self.list, path) {
            Some(i) => Some(&self.list[i]),
            None => None,
        }
    }

    /// The path of the name in what that number leads to, if that is a folder. The error says nothing.
    pub fn path_to(&self, alloc: Global, dir: u64, name: &Name) -> Result<Path, DiskError>
        ensures path { IfOk result (λ path. (up : List (List ℕ)) → path_of self.now dir ≡ Some up → path ≡ up ++ name.now ∷ []) }
        ensures leads { IfOk result (λ path. Resolves (tree_of self.now) path × (path ≢ [])) }
        ensures err { IfErr result IsFailure }
    {
        let Some(i) = index_of(&self.list, dir) else {
            return Err(DiskError::Failed(EBADF));
        };
        let spot = &self.list[i];
        match spot.content {
            Content::File(_) | Content::Link(_) | Content::Special(_) => {
                return Err(DiskError::Failed(ENOTDIR));
            }
            Content::Folder => {}
        }
        match joined(alloc, &spot.path, name) {
            Ok(path) => Ok(path),
            Err(_) => Err(DiskError::Failed(ENOMEM)),
        }
    }

    /// Folders lead down to the path, which is not the root's. The error says nothing.
    pub fn expect_led(&self, path: &Path) -> Result<(), DiskError>
        ensures ok { OnOk result (Resolves (tree_of self.now) path.now × (path.now ≢ [])) }
        ensures err { IfErr result IsFailure }
    {
        if path.len() == 0 {
            return Err(DiskError::Failed(EBUSY));
        }
        let Ok(up) = path.prefix(path.len() - 1) else {
            return Err(DiskError::Failed(ENOMEM));
        };
        match self.at(&up) {
            Some(spot) => expect_folder(&spot.content),
            None => Err(DiskError::Failed(ENOENT)),
        }
    }

    /// The names in the folder that the number leads to.
    pub fn list(&self, alloc: Global, number: u64) -> Result<Vec<Name>, DiskError>
        ensures { (p : List (List ℕ)) → path_of self.now number ≡ Some p → IfOk result (λ names. ListsNames (tree_of self.now) p names.items) }
    {
        let Some(i) = index_of(&self.list, number) else {
            return Err(DiskError::Failed(EBADF));
        };
        let spot = &self.list[i];
        match spot.content {
            Content::File(_) | Content::Link(_) | Content::Special(_) => {
                return Err(DiskError::NotFolder);
            }
            Content::Folder => {}
        }
        match names_in(alloc, &self.list, &spot.path) {
            Ok(names) => Ok(names),
            Err(_) => Err(DiskError::Failed(ENOMEM)),
        }
    }

    /// Puts what is given where nothing stands: its number.
    pub fn make(&mut self, path: &Path, content: Content) -> Result<u64, DiskError>
        requires { Resolves (tree_of self.old) path.now }
        ensures made { IfOk result (λ n. MakesItem (tree_of self.old) (stands_in self.old) path.now (item_of content) (tree_of self.new) (stands_in self.new) × (path_of self.new n ≡ Some path.now)) }
        ensures not { IfErr result (λ error. MakesNone (tree_of self.old) (stands_in self.old) path.now (item_of content) error (tree_of self.new) (stands_in self.new)) }
    {
        let number = self.next;
        let Some(next) = number.checked_add(1) else {
            return Err(DiskError::Failed(ENOSPC));
        };
        match make(&mut self.list, number, path, content) {
            Ok(()) => {
                self.next = next;
                Ok(number)
            }
            Err(error) => Err(error),
        }
    }

    /// Removes what is no folder.
    pub fn remove_file(&mut self, path: &Path) -> Result<(), DiskError>
        requires { path.now ≢ [] }
        ensures { Removes (tree_of self.old) (stands_in self.old) path.now result (tree_of self.new) (stands_in self.new) }
    {
        remove_file(&mut self.list, path)
    }

    /// Removes the folder, which has no names.
    pub fn remove_dir(&mut self, path: &Path) -> Result<(), DiskError>
        requires { path.now ≢ [] }
        ensures { RemovesDir (tree_of self.old) (stands_in self.old) path.now result (tree_of self.new) (stands_in self.new) }
    {
        remove_dir(&mut self.list, path)
    }

    /// Renames, and replaces what stands there.
    pub fn rename(&mut self, alloc: Global, from: &Path, to: &Path) -> Result<(), DiskError>
        requires below_root { (from.now ≢ []) × (to.now ≢ []) }
        requires leads { Resolves (tree_of self.old) to.now }
        ensures { AreApart from.now to.now → Renames (tree_of self.old) (stands_in self.old) from.now to.now result (tree_of self.new) (stands_in self.new) }
    {
        rename(alloc, &mut self.list, from, to)
    }

    /// Why what stands at the one path gets no further name at the other one: what is wrong there, or else EPERM.
    pub fn why_no_link(&self, from: &Path, to: &Path) -> DiskError
        ensures { CannotLink (tree_of self.now) from.now to.now result }
    {
        match self.at(from) {
            None => return DiskError::Absent,
            Some(_) => {}
        }
        match self.at(to) {
            Some(_) => DiskError::Exists,
            None => DiskError::Failed(EPERM),
        }
    }

    /// Reads so many bytes at most, or one where that is none.
    pub fn read(
        &self,
        number: u64,
        buffer: &mut [u8],
        offset: u64,
        most: usize,
    ) -> Result<usize, DiskError>
        requires { 0 < length buffer.old }
        ensures within { IfOk result (λ n. n ≤ length buffer.new) }
        ensures bytes { (p : List (List ℕ)) → path_of self.now number ≡ Some p → Reads (tree_of self.now) p offset result buffer.new }
    {
        match self.of(number) {
            Some(spot) => read(&spot.content, buffer, offset, most),
            None => Err(DiskError::Failed(EBADF)),
        }
    }

    /// Writes so many bytes at most, or one where that is none.
    pub fn write(
        &mut self,
        number: u64,
        bytes: &[u8],
        offset: u64,
        most: usize,
    ) -> Result<usize, DiskError>
        requires { 0 < length bytes.now }
        ensures within { IfOk result (λ n. n ≤ length bytes.now) }
        ensures bytes { (p : List (List ℕ)) → path_of self.old number ≡ Some p → Writes (tree_of self.old) (stands_in self.old) p offset bytes.now result (tree_of self.new) (stands_in self.new) }
    {
        write(&mut self.list, number, bytes, offset, most)
    }

    /// Cuts the file, or fills it with zeros.
    pub fn set_len(&mut self, number: u64, size: u64) -> Result<(), DiskError>
        ensures { (p : List (List ℕ)) → path_of self.old number ≡ Some p → Cuts (tree_of self.old) (stands_in self.old) p size result (tree_of self.new) (stands_in self.new) }
    {
        set_len(&mut self.list, number, size)
    }
}

/// The path of the name in the folder.
fn joined(alloc: Global, folder: &Path, name: &Name) -> Result<Path, AllocError>
    ensures { IfOk result (λ path. path ≡ folder.now ++ name.now ∷ []) }
{
    Path::joined(alloc, folder.names(), slice::from_ref(name))
}

/// It is a folder, else ENOTDIR.
fn expect_folder(content: &Content) -> Result<(), DiskError>
    ensures ok { OnOk result (content.now ≡ Folder) }
    ensures err { IfErr result IsFailure }
{
    match content {
        Content::Folder => Ok(()),
        Content::File(_) | Content::Link(_) | Content::Special(_) => {
            Err(DiskError::Failed(ENOTDIR))
        }
    }
}
