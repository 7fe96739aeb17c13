//! The calls of a system below an open folder.

ghost use Rattle.std.specs.Prelude.{ℕ, List, [], ◌∷◌, ◌++◌, ◌≡◌, ◌<◌, ◌≤◌, IfOk, IfSome, OnOk, length};
ghost use Rattle.paths.specs.Prefixes.{Names};
ghost use Rattle.disk.specs.Names.{IsLawfulName, IsLinkText};

use crate::error::DiskError;
use crate::stat::{Access, Change, Stat};
use paths::Name;
use std::alloc::Global;

/// A folder of a system, and all that is below it. What is below it is reached from a folder that is open, by one name.
///
/// Each clause is about one call of an honest system, and supposes that what is handed to it stands somewhere. A system of which
/// nothing is known says that nothing stands anywhere, and meets all of them.
pub trait Disk {
    ghost use Rattle.backing.specs.Tree.{Tree, IsTree};
    ghost use Rattle.disk.specs.declared.stat.Change.{Change};
    ghost use Rattle.disk.specs.Answers.{Inspects, Looks, OpensDir, OpensFile, StandsAsFile, Reads, ReadsLink, ListsNames, Makes, MakesDir, MakesLink, Removes, RemovesDir, Renames, Links, Writes, Cuts, AreApart};

    /// A file or folder that is open for as long as the value is there. No value ever comes back.
    type Handle: Drop;

    /// What stands at each path below the folder.
    ghost tree: { Self → Tree };

    /// At which path an open file or folder stands.
    ghost stands: { Self → Self.Handle → Names → Type 0 };

    /// What was set of what stands at a path.
    ghost has_set: { Self → Names → Change → Type 0 };

    /// What stands at that path was brought to the disk.
    ghost has_synced: { Self → Names → Type 0 };

    /// The system does what it says, nobody else changes the folder, and nothing in it has two names at first.
    ghost honest: { Type 0 };

    /// Where memory comes from.
    fn alloc(&self) -> Global;

    /// Milliseconds by a clock that does not go back.
    fn now(&self) -> u64;

    /// How often a folder was removed or moved, by those in this process who serve the same folder.
    fn moves(&self) -> u64;

    /// How often they changed anything.
    fn changes(&self) -> u64;

    /// A folder was moved, or may have been, by a call of ours. A folder that was removed is counted without that.
    fn note_move(&self);

    /// Whether others in this process serve the same folder, or may come to, and hear of the folders that are removed or moved.
    fn is_shared(&self) -> bool;

    /// Whether a look shows the kind of whatever stands there, so that no other call meets what a look would have hidden.
    fn shows_all(&self) -> bool;

    /// Whether the system keeps files open by itself, so that opening one again costs no call.
    fn keeps_files(&self) -> bool;

    /// The file that the system keeps open under the name, if it keeps one that serves.
    fn find_open(&self, dir: &Self::Handle, name: &Name, access: Access) -> Option<Self::Handle>
        requires { IsLawfulName name.now }
        ensures { (up : Names) → stands self.now dir.now up → IfSome result (StandsAsFile (tree self.now) (stands self.now) (up ++ name.now ∷ [])) };

    /// Whether the open folder is reached by its name at each call, so that it is lost where that name moves.
    fn is_by_name(&self, dir: &Self::Handle) -> bool;

    /// Opens the folder itself.
    fn open_root(&self) -> Result<Self::Handle, DiskError>
        ensures { IfOk result (λ handle. honest → stands self.now handle []) };

    /// What an open file or folder is: `fstat`.
    fn inspect(&self, handle: &Self::Handle) -> Result<Stat, DiskError>
        ensures { (p : Names) → stands self.now handle.now p → Inspects (tree self.now) p result };

    /// What stands at the name, a link itself: `fstatat`.
    fn look(&self, dir: &Self::Handle, name: &Name) -> Result<Stat, DiskError>
        requires { IsLawfulName name.now }
        ensures { (up : Names) → stands self.now dir.now up → Looks (tree self.now) (up ++ name.now ∷ []) result };

    /// Opens the folder at the name, and no link: `openat`.
    fn open_dir(&self, dir: &Self::Handle, name: &Name) -> Result<Self::Handle, DiskError>
        requires { IsLawfulName name.now }
        ensures { (up : Names) → stands self.now dir.now up → OpensDir (tree self.now) (stands self.now) (up ++ name.now ∷ []) result };

    /// Opens the file at the name, and no link: `openat`. It is neither made nor cut.
    fn open_file(
        &self,
        dir: &Self::Handle,
        name: &Name,
        access: Access,
    ) -> Result<Self::Handle, DiskError>
        requires { IsLawfulName name.now }
        ensures { (up : Names) → stands self.now dir.now up → OpensFile (tree self.now) (stands self.now) (up ++ name.now ∷ []) result };

    /// Reads a part, to the buffer's start: how many bytes (`pread`).
    fn read_at(
        &self,
        file: &Self::Handle,
        buffer: &mut [u8],
        offset: u64,
    ) -> Result<usize, DiskError>
        requires { 0 < length buffer.old }
        ensures within { IfOk result (λ n. n ≤ length buffer.new) }
        ensures bytes { (p : Names) → stands self.now file.now p → Reads (tree self.now) p offset result buffer.new };

    /// The text of the link at the name, which is not followed: `readlinkat`.
    fn read_link(&self, dir: &Self::Handle, name: &Name) -> Result<Vec<u8>, DiskError>
        requires { IsLawfulName name.now }
        ensures { (up : Names) → stands self.now dir.now up → ReadsLink (tree self.now) (up ++ name.now ∷ []) result };

    /// The names in an open folder, without `.` and `..`: `getdents`.
    fn list(&self, dir: &Self::Handle) -> Result<Vec<Name>, DiskError>
        ensures { (p : Names) → stands self.now dir.now p → IfOk result (λ names. ListsNames (tree self.now) p names.items) };

    /// Brings an open file or folder to the disk: `fsync`.
    fn sync(&self, handle: &Self::Handle) -> Result<(), DiskError>
        ensures { (p : Names) → stands self.now handle.now p → OnOk result (has_synced self.now p) };

    /// Sets it of an open file or folder: `fchmod`, `fchown`, `futimens`.
    fn set(&self, handle: &Self::Handle, change: Change) -> Result<(), DiskError>
        ensures { (p : Names) → stands self.now handle.now p → OnOk result (has_set self.now p change) };

    /// Sets it of what stands at the name and cannot be opened, a link itself: `fchmodat`, `fchownat`, `utimensat`.
    fn set_at(&self, dir: &Self::Handle, name: &Name, change: Change) -> Result<(), DiskError>
        requires { IsLawfulName name.now }
        ensures { (up : Names) → stands self.now dir.now up → OnOk result (has_set self.now (up ++ name.now ∷ []) change) };

    /// Writes a part: how many bytes (`pwrite`).
    fn write_at(
        &mut self,
        file: &Self::Handle,
        bytes: &[u8],
        offset: u64,
    ) -> Result<usize, DiskError>
        requires { 0 < length bytes.now }
        ensures within { IfOk result (λ n. n ≤ length bytes.now) }
        ensures bytes { (p : Names) → stands self.old file.now p → Writes (tree self.old) (stands self.old) p offset bytes.now result (tree self.new) (stands self.new) };

    /// Cuts the file, or fills it with zeros: `ftruncate`.
    fn set_len(&mut self, file: &Self::Handle, size: u64) -> Result<(), DiskError>
        ensures { (p : Names) → stands self.old file.now p → Cuts (tree self.old) (stands self.old) p size result (tree self.new) (stands self.new) };

    /// Makes an empty file where nothing stands, and opens it to be read and written: `openat`. It has these permission bits, or
    /// else the process's default.
    fn make_file(
        &mut self,
        dir: &Self::Handle,
        name: &Name,
        permissions: Option<u32>,
    ) -> Result<Self::Handle, DiskError>
        requires { IsLawfulName name.now }
        ensures { (up : Names) → stands self.old dir.now up → Makes (tree self.old) (stands self.old) (up ++ name.now ∷ []) result (tree self.new) (stands self.new) };

    /// Makes an empty folder where nothing stands, with permission bits as `make_file`: `mkdirat`.
    fn make_dir(
        &mut self,
        dir: &Self::Handle,
        name: &Name,
        permissions: Option<u32>,
    ) -> Result<(), DiskError>
        requires { IsLawfulName name.now }
        ensures { (up : Names) → stands self.old dir.now up → MakesDir (tree self.old) (stands self.old) (up ++ name.now ∷ []) result (tree self.new) (stands self.new) };

    /// Makes a link with that text where nothing stands: `symlinkat`.
    fn make_link(&mut self, dir: &Self::Handle, name: &Name, text: &[u8]) -> Result<(), DiskError>
        requires name { IsLawfulName name.now }
        requires text { IsLinkText text.now }
        ensures { (up : Names) → stands self.old dir.now up → MakesLink (tree self.old) (stands self.old) (up ++ name.now ∷ []) text.now result (tree self.new) (stands self.new) };

    /// Removes what is no folder: `unlinkat`.
    fn remove_file(&mut self, dir: &Self::Handle, name: &Name) -> Result<(), DiskError>
        requires { IsLawfulName name.now }
        ensures { (up : Names) → stands self.old dir.now up → Removes (tree self.old) (stands self.old) (up ++ name.now ∷ []) result (tree self.new) (stands self.new) };

    /// Removes the folder, which has no names: `unlinkat`.
    fn remove_dir(&mut self, dir: &Self::Handle, name: &Name) -> Result<(), DiskError>
        requires { IsLawfulName name.now }
        ensures { (up : Names) → stands self.old dir.now up → RemovesDir (tree self.old) (stands self.old) (up ++ name.now ∷ []) result (tree self.new) (stands self.new) };

    /// Renames, to another path, and replaces what stands there: `renameat`.
    fn rename(
        &mut self,
        from_dir: &Self::Handle,
        from: &Name,
        to_dir: &Self::Handle,
        to: &Name,
    ) -> Result<(), DiskError>
        requires from { IsLawfulName from.now }
        requires to { IsLawfulName to.now }
        ensures { (up up' : Names) → stands self.old from_dir.now up → stands self.old to_dir.now up' → AreApart (up ++ from.now ∷ []) (up' ++ to.now ∷ []) → Renames (tree self.old) (stands self.old) (up ++ from.now ∷ []) (up' ++ to.now ∷ []) result (tree self.new) (stands self.new) };

    /// Gives what stands at the one name a further one, at which nothing stands: `linkat`. A link at the name is not followed, and has
    /// two names then itself. Once it is given what is open need stand nowhere: no tree of paths says which writes show at both names.
    fn link(
        &mut self,
        from_dir: &Self::Handle,
        from: &Name,
        to_dir: &Self::Handle,
        to: &Name,
    ) -> Result<(), DiskError>
        requires from { IsLawfulName from.now }
        requires to { IsLawfulName to.now }
        ensures { (up up' : Names) → stands self.old from_dir.now up → stands self.old to_dir.now up' → Links (tree self.old) (stands self.old) (up ++ from.now ∷ []) (up' ++ to.now ∷ []) result (tree self.new) (stands self.new) };

    /// What stands below the folder is a tree.
    ghost is_tree: { (disk : Self) → IsTree (tree disk) };
}
