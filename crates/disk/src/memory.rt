//! An honest disk in memory, for tests.

use crate::attributes::Attributes;
use crate::error::DiskError;
use crate::reading::read_link;
use crate::schedule::Schedule;
use crate::spot::{Content, MemoryHandle, Spot};
use crate::standing::Standing;
use crate::stat::{Change, FileId, Stat};
use backing::{Bytes, PlannedFault};
use errno::{EINVAL, ENOMEM};
use paths::{Name, Path};
use payload::Kind;
use std::alloc::{AllocError, Global};

/// A disk in memory, which does what a disk is said to do. No file may be longer than `backing::MAX_FILE_LEN` (EFBIG). Calls of
/// `Disk` fail where a test has planned it, and read and write so many bytes at most.
#[derive(Drop)]
pub struct MemoryDisk {
    pub(crate) alloc: Global,
    pub(crate) standing: Standing,
    pub(crate) attributes: Attributes,
    pub(crate) schedule: Schedule,
}

impl MemoryDisk {
    ghost use Rattle.std.specs.Prelude.{ℕ, List, ◌≡◌, [], ◌∷◌, ◌++◌, Some, IfErr, IfOk, OnOk};
    ghost use Rattle.backing.specs.Tree.{Resolves, kind_of, size_of};
    ghost use Rattle.backing.specs.declared.entries.Item.TheVariants.{File, Link};
    ghost use Rattle.disk.specs.Alone.{root_alone};
    ghost use Rattle.disk.specs.Answers.{Looks, OpensDir, OpensFile, ReadsLink, Makes, MakesDir, MakesLink, MakesItem, MakesNone};
    ghost use Rattle.disk.specs.Spots.{IsFailure, item_of, path_of, stands_in, tree_of};

    /// The root alone; no call fails.
    pub fn new(alloc: Global) -> Result<MemoryDisk, AllocError>
        ensures { IfOk result (λ disk. tree_of disk.standing ≡ root_alone) }
    {
        let standing = Standing::new(alloc)?;
        Ok(MemoryDisk {
            alloc,
            standing,
            attributes: Attributes::new(alloc),
            schedule: Schedule::new(alloc),
        })
    }

    /// Makes an empty folder. It is no call: no failure is planned for it.
    pub fn put_dir(&mut self, path: &Path) -> Result<(), DiskError>
        ensures { MakesDir (tree_of self.old.standing) (stands_in self.old.standing) path.now result (tree_of self.new.standing) (stands_in self.new.standing) }
    {
        self.put(path, Content::Folder)
    }

    /// Makes a file of these bytes. It is no call: no failure is planned for it.
    pub fn put_file(&mut self, path: &Path, bytes: &[u8]) -> Result<(), DiskError>
        ensures made { OnOk result (MakesItem (tree_of self.old.standing) (stands_in self.old.standing) path.now (File bytes.now) (tree_of self.new.standing) (stands_in self.new.standing)) }
        ensures not { IfErr result (λ error. MakesNone (tree_of self.old.standing) (stands_in self.old.standing) path.now (File bytes.now) error (tree_of self.new.standing) (stands_in self.new.standing)) }
    {
        let Ok(bytes) = Vec::from_slice(self.alloc, bytes) else {
            return Err(DiskError::Failed(ENOMEM));
        };
        self.put(path, Content::File(Bytes::from_vec(bytes)))
    }

    /// Makes what is given, so also a link or what is special. It is no call: no failure is planned for it.
    pub fn put(&mut self, path: &Path, content: Content) -> Result<(), DiskError>
        ensures made { OnOk result (MakesItem (tree_of self.old.standing) (stands_in self.old.standing) path.now (item_of content) (tree_of self.new.standing) (stands_in self.new.standing)) }
        ensures not { IfErr result (λ error. MakesNone (tree_of self.old.standing) (stands_in self.old.standing) path.now (item_of content) error (tree_of self.new.standing) (stands_in self.new.standing)) }
    {
        match self.standing.expect_led(path) {
            Ok(()) => {}
            Err(error) => return Err(error),
        }
        match self.standing.make(path, content) {
            Ok(_) => Ok(()),
            Err(error) => Err(error),
        }
    }

    /// Has that call fail, counted from 1 since the disk was made: before its work; or after it, and a call that changes nothing
    /// or writes before it. It replaces what was planned for that call.
    pub fn fail_at(&self, call: u64, fault: PlannedFault) -> Result<(), AllocError> {
        self.schedule.fail_at(call, fault)
    }

    /// How many calls there have been.
    pub fn calls(&self) -> u64 {
        self.schedule.calls()
    }

    /// From now on a call reads or writes so many bytes at most, or one where that is none.
    pub fn set_most(&self, most: usize) {
        self.schedule.set_most(most);
    }

    /// Sets the clock, in milliseconds.
    pub fn set_now(&self, now: u64) {
        self.schedule.set_now(now);
    }

    /// Sets how often others have removed or moved a folder.
    pub fn set_changes(&self, changes: u64) {
        self.schedule.set_changes(changes);
    }

    /// Sets whether the disk keeps files open by itself.
    pub fn set_keeps_files(&self, keeps_files: bool) {
        self.schedule.set_keeps_files(keeps_files);
    }

    /// Sets whether others serve the same folder.
    pub fn set_is_shared(&self, is_shared: bool) {
        self.schedule.set_is_shared(is_shared);
    }

    /// Sets whether looks are said to show all kinds.
    pub fn set_shows_all(&self, shows_all: bool) {
        self.schedule.set_shows_all(shows_all);
    }

    /// Counts a call that changes nothing: the path of the name in an open folder. The error says nothing.
    pub(crate) fn reach(&self, dir: &MemoryHandle, name: &Name) -> Result<Path, DiskError>
        ensures path { IfOk result (λ path. (up : List (List ℕ)) → path_of self.now.standing dir.now.number ≡ Some up → path ≡ up ++ name.now ∷ []) }
        ensures err { IfErr result IsFailure }
    {
        match self.schedule.pass() {
            Ok(()) => {}
            Err(error) => return Err(error),
        }
        self.standing.path_to(self.alloc, dir.number, name)
    }

    /// What stands at the path.
    pub(crate) fn look_at(&self, path: &Path) -> Result<Stat, DiskError>
        ensures { Looks (tree_of self.now.standing) path.now result }
    {
        match self.standing.at(path) {
            Some(spot) => Ok(self.stat_of(spot)),
            None => Err(DiskError::Absent),
        }
    }

    /// Opens the folder at the path.
    pub(crate) fn open_dir_at(&self, path: &Path) -> Result<MemoryHandle, DiskError>
        ensures { OpensDir (tree_of self.now.standing) (stands_in self.now.standing) path.now result }
    {
        match self.standing.at(path) {
            Some(spot) => match spot.content {
                Content::Folder => Ok(MemoryHandle {
                    number: spot.number,
                }),
                Content::File(_) | Content::Link(_) | Content::Special(_) => {
                    Err(DiskError::NotFolder)
                }
            },
            None => Err(DiskError::Absent),
        }
    }

    /// Opens the file at the path.
    pub(crate) fn open_file_at(&self, path: &Path) -> Result<MemoryHandle, DiskError>
        ensures { OpensFile (tree_of self.now.standing) (stands_in self.now.standing) path.now result }
    {
        match self.standing.at(path) {
            Some(spot) => match spot.content {
                Content::File(_) => Ok(MemoryHandle {
                    number: spot.number,
                }),
                Content::Folder => Err(DiskError::IsFolder),
                Content::Link(_) | Content::Special(_) => Err(DiskError::Failed(EINVAL)),
            },
            None => Err(DiskError::Absent),
        }
    }

    /// The text of the link at the path.
    pub(crate) fn read_link_at(&self, path: &Path) -> Result<Vec<u8>, DiskError>
        ensures { ReadsLink (tree_of self.now.standing) path.now result }
    {
        match self.standing.at(path) {
            Some(spot) => read_link(self.alloc, &spot.content),
            None => Err(DiskError::Absent),
        }
    }

    /// What a look at it tells.
    pub(crate) fn stat_of(&self, spot: &Spot) -> Stat
        ensures kind { result.kind ≡ Some (kind_of (item_of spot.now.content)) }
        ensures size { result.size ≡ size_of (item_of spot.now.content) }
    {
        let kind = spot.content.kind();
        Stat {
            kind: Some(kind),
            id: FileId {
                device: 0,
                inode: spot.number,
            },
            size: spot.content.size() as u64,
            details: self.attributes.of(spot.number, kind),
        }
    }

    /// Sets it of what stands there. Want of memory is the only error.
    pub(crate) fn set_of(&self, spot: &Spot, change: Change) -> Result<(), DiskError> {
        let now = self.schedule.now();
        let kind = spot.content.kind();
        match self.attributes.set(spot.number, kind, change, now) {
            Ok(()) => Ok(()),
            Err(_) => Err(DiskError::Failed(ENOMEM)),
        }
    }

    /// Makes an empty file at the path.
    pub(crate) fn make_file_at(
        &mut self,
        path: &Path,
        permissions: Option<u32>,
    ) -> Result<MemoryHandle, DiskError>
        requires { Resolves (tree_of self.old.standing) path.now }
        ensures { Makes (tree_of self.old.standing) (stands_in self.old.standing) path.now result (tree_of self.new.standing) (stands_in self.new.standing) }
    {
        let empty = Content::File(Bytes::new(self.alloc));
        match self.standing.make(path, empty) {
            Ok(number) => {
                self.set_permissions(number, Kind::File, permissions);
                Ok(MemoryHandle { number })
            }
            Err(error) => Err(error),
        }
    }

    /// Makes an empty folder at the path.
    pub(crate) fn make_dir_at(
        &mut self,
        path: &Path,
        permissions: Option<u32>,
    ) -> Result<(), DiskError>
        requires { Resolves (tree_of self.old.standing) path.now }
        ensures { MakesDir (tree_of self.old.standing) (stands_in self.old.standing) path.now result (tree_of self.new.standing) (stands_in self.new.standing) }
    {
        match self.standing.make(path, Content::Folder) {
            Ok(number) => {
                self.set_permissions(number, Kind::Folder, permissions);
                Ok(())
            }
            Err(error) => Err(error),
        }
    }

    /// Makes a link with that text at the path.
    pub(crate) fn make_link_at(&mut self, path: &Path, text: &[u8]) -> Result<(), DiskError>
        requires { Resolves (tree_of self.old.standing) path.now }
        ensures { MakesLink (tree_of self.old.standing) (stands_in self.old.standing) path.now text.now result (tree_of self.new.standing) (stands_in self.new.standing) }
    {
        let Ok(text) = Vec::from_slice(self.alloc, text) else {
            return Err(DiskError::Failed(ENOMEM));
        };
        let link = Content::Link(Bytes::from_vec(text));
        match self.standing.make(path, link) {
            Ok(_) => Ok(()),
            Err(error) => Err(error),
        }
    }

    /// Sets the bits with which something was made. Without memory they are not kept.
    fn set_permissions(&self, number: u64, kind: Kind, permissions: Option<u32>) {
        match permissions {
            Some(permissions) => {
                let change = Change::Permissions(permissions);
                let _kept = self.attributes.set(number, kind, change, 0);
            }
            None => {}
        }
    }
}
