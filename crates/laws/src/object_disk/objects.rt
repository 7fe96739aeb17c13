//! The calls of a system below an open folder, by objects: what Disk says of paths, said of files that may have hard links.

ghost use Rattle.std.specs.Prelude.{ℕ, List, [], ◌∷◌, ◌++◌, ◌≡◌, ◌<◌, ◌≤◌, IfOk, IfSome, OnOk, length};
ghost use Rattle.paths.specs.Prefixes.{Names};
ghost use Rattle.disk.specs.Names.{IsLawfulName, IsLinkText};

use disk::{Access, Change, DiskError, Stat};
use paths::Name;
use std::alloc::Global;

/// A folder of a system, and all that is below it, as `Disk` has it; but a file may have several names, its hard links. Who writes by
/// one name changes what stands at all of them.
///
/// Each clause is about one call of an honest system. A call by a folder supposes that this stands somewhere. What is open and leads
/// to nothing that stands, as its last name is gone, changes nothing that stands.
pub trait ObjectDisk {
    ghost use Rattle.std.specs.Prelude.{Option};
    ghost use Rattle.backing.specs.Tree.{IsTree};
    ghost use Rattle.backing.specs.declared.entries.Item.TheVariants.{Folder, Link};
    ghost use Rattle.disk.specs.declared.stat.Change.{Change};
    ghost use Rattle.disk.specs.Answers.{Looks, OpensDir, OpensFile, StandsAsFile, ReadsLink, ListsNames, AreApart};
    ghost use Rattle.laws.specs.Objects.{Objects, ObjectAt, LeadsTo, AllAreItems, AllStand, FoldersOnce, stands_in, tree_by_paths};
    ghost use Rattle.laws.specs.ObjectAnswers.{AreNested, Cuts, Inspects, Links, Makes, MakesOther, Reads, Removes, RemovesDir, Renames, Stays, Writes};

    /// A file or folder that is open for as long as the value is there. No value ever comes back.
    type Handle: Drop;

    /// Which object stands at each path below the folder, and what each object is.
    ghost objects: { Self → Objects };

    /// To which object an open file or folder leads, as long as that stands somewhere.
    ghost opens: { Self → Self.Handle → Option ℕ };

    /// What was set of an object.
    ghost has_set: { Self → ℕ → Change → Type 0 };

    /// The object was brought to the disk.
    ghost has_synced: { Self → ℕ → Type 0 };

    /// Where memory comes from.
    fn alloc(&self) -> Global;

    /// Milliseconds by a clock that does not go back.
    fn now(&self) -> u64;

    /// How often a folder was removed or moved, by those in this process who serve the same folder.
    fn moves(&self) -> u64;

    /// How often they changed anything.
    fn changes(&self) -> u64;

    /// A folder was moved, or may have been, by a call of ours. A folder that was removed is counted without that.
    fn note_move(&self);

    /// Whether others in this process serve the same folder, or may come to, and hear of the folders that are removed or moved.
    fn is_shared(&self) -> bool;

    /// Whether a look shows the kind of whatever stands there, so that no other call meets what a look would have hidden.
    fn shows_all(&self) -> bool;

    /// Whether the system keeps files open by itself, so that opening one again costs no call.
    fn keeps_files(&self) -> bool;

    /// The file that the system keeps open under the name, if it keeps one that serves.
    fn find_open(&self, dir: &Self::Handle, name: &Name, access: Access) -> Option<Self::Handle>
        requires { IsLawfulName name.now }
        ensures { (up : Names) → LeadsTo (objects self.now) (opens self.now dir.now) up → IfSome result (StandsAsFile (tree_by_paths (objects self.now)) (stands_in (objects self.now) (opens self.now)) (up ++ name.now ∷ [])) };

    /// Whether the open folder is reached by its name at each call, so that it is lost where that name moves.
    fn is_by_name(&self, dir: &Self::Handle) -> bool;

    /// Opens the folder itself.
    fn open_root(&self) -> Result<Self::Handle, DiskError>
        ensures { IfOk result (λ handle. LeadsTo (objects self.now) (opens self.now handle) []) };

    /// What an open file or folder is: `fstat`.
    fn inspect(&self, handle: &Self::Handle) -> Result<Stat, DiskError>
        ensures { (object : ℕ) → opens self.now handle.now ≡ Some object → Inspects ((objects self.now).item object) result };

    /// What stands at the name, a link itself: `fstatat`.
    fn look(&self, dir: &Self::Handle, name: &Name) -> Result<Stat, DiskError>
        requires { IsLawfulName name.now }
        ensures { (up : Names) → LeadsTo (objects self.now) (opens self.now dir.now) up → Looks (tree_by_paths (objects self.now)) (up ++ name.now ∷ []) result };

    /// Opens the folder at the name, and no link: `openat`.
    fn open_dir(&self, dir: &Self::Handle, name: &Name) -> Result<Self::Handle, DiskError>
        requires { IsLawfulName name.now }
        ensures { (up : Names) → LeadsTo (objects self.now) (opens self.now dir.now) up → OpensDir (tree_by_paths (objects self.now)) (stands_in (objects self.now) (opens self.now)) (up ++ name.now ∷ []) result };

    /// Opens the file at the name, and no link: `openat`. It is neither made nor cut.
    fn open_file(
        &self,
        dir: &Self::Handle,
        name: &Name,
        access: Access,
    ) -> Result<Self::Handle, DiskError>
        requires { IsLawfulName name.now }
        ensures { (up : Names) → LeadsTo (objects self.now) (opens self.now dir.now) up → OpensFile (tree_by_paths (objects self.now)) (stands_in (objects self.now) (opens self.now)) (up ++ name.now ∷ []) result };

    /// Reads a part, to the buffer's start: how many bytes (`pread`).
    fn read_at(
        &self,
        file: &Self::Handle,
        buffer: &mut [u8],
        offset: u64,
    ) -> Result<usize, DiskError>
        requires { 0 < length buffer.old }
        ensures within { IfOk result (λ n. n ≤ length buffer.new) }
        ensures bytes { (object : ℕ) → opens self.now file.now ≡ Some object → Reads ((objects self.now).item object) offset result buffer.new };

    /// The text of the link at the name, which is not followed: `readlinkat`.
    fn read_link(&self, dir: &Self::Handle, name: &Name) -> Result<Vec<u8>, DiskError>
        requires { IsLawfulName name.now }
        ensures { (up : Names) → LeadsTo (objects self.now) (opens self.now dir.now) up → ReadsLink (tree_by_paths (objects self.now)) (up ++ name.now ∷ []) result };

    /// The names in an open folder, without `.` and `..`: `getdents`.
    fn list(&self, dir: &Self::Handle) -> Result<Vec<Name>, DiskError>
        ensures { (p : Names) → LeadsTo (objects self.now) (opens self.now dir.now) p → IfOk result (λ names. ListsNames (tree_by_paths (objects self.now)) p names.items) };

    /// Brings an open file or folder to the disk: `fsync`.
    fn sync(&self, handle: &Self::Handle) -> Result<(), DiskError>
        ensures { (object : ℕ) → opens self.now handle.now ≡ Some object → OnOk result (has_synced self.now object) };

    /// Sets it of an open file or folder: `fchmod`, `fchown`, `futimens`.
    fn set(&self, handle: &Self::Handle, change: Change) -> Result<(), DiskError>
        ensures { (object : ℕ) → opens self.now handle.now ≡ Some object → OnOk result (has_set self.now object change) };

    /// Sets it of what stands at the name and cannot be opened, a link itself: `fchmodat`, `fchownat`, `utimensat`.
    fn set_at(&self, dir: &Self::Handle, name: &Name, change: Change) -> Result<(), DiskError>
        requires { IsLawfulName name.now }
        ensures { (up : Names) → LeadsTo (objects self.now) (opens self.now dir.now) up → OnOk result (ObjectAt (objects self.now) (up ++ name.now ∷ []) (λ object. has_set self.now object change)) };

    /// Writes a part: how many bytes (`pwrite`).
    fn write_at(
        &mut self,
        file: &Self::Handle,
        bytes: &[u8],
        offset: u64,
    ) -> Result<usize, DiskError>
        requires { 0 < length bytes.now }
        ensures within { IfOk result (λ n. n ≤ length bytes.now) }
        ensures bytes { (object : ℕ) → opens self.old file.now ≡ Some object → Writes (objects self.old) (opens self.old) object offset bytes.now result (objects self.new) (opens self.new) }
        ensures nowhere { opens self.old file.now ≡ None → Stays (objects self.old) (opens self.old) (objects self.new) (opens self.new) };

    /// Cuts the file, or fills it with zeros: `ftruncate`.
    fn set_len(&mut self, file: &Self::Handle, size: u64) -> Result<(), DiskError>
        ensures cut { (object : ℕ) → opens self.old file.now ≡ Some object → Cuts (objects self.old) (opens self.old) object size result (objects self.new) (opens self.new) }
        ensures nowhere { opens self.old file.now ≡ None → Stays (objects self.old) (opens self.old) (objects self.new) (opens self.new) };

    /// Makes an empty file where nothing stands, and opens it to be read and written: `openat`. It has these permission bits, or
    /// else the process's default.
    fn make_file(
        &mut self,
        dir: &Self::Handle,
        name: &Name,
        permissions: Option<u32>,
    ) -> Result<Self::Handle, DiskError>
        requires { IsLawfulName name.now }
        ensures made { (up : Names) → LeadsTo (objects self.old) (opens self.old dir.now) up → Makes (objects self.old) (opens self.old) (up ++ name.now ∷ []) result (objects self.new) (opens self.new) }
        ensures nowhere { opens self.old dir.now ≡ None → Stays (objects self.old) (opens self.old) (objects self.new) (opens self.new) };

    /// Makes an empty folder where nothing stands, with permission bits as `make_file`: `mkdirat`.
    fn make_dir(
        &mut self,
        dir: &Self::Handle,
        name: &Name,
        permissions: Option<u32>,
    ) -> Result<(), DiskError>
        requires { IsLawfulName name.now }
        ensures made { (up : Names) → LeadsTo (objects self.old) (opens self.old dir.now) up → MakesOther (objects self.old) (opens self.old) (up ++ name.now ∷ []) Folder result (objects self.new) (opens self.new) }
        ensures nowhere { opens self.old dir.now ≡ None → Stays (objects self.old) (opens self.old) (objects self.new) (opens self.new) };

    /// Makes a link with that text where nothing stands: `symlinkat`.
    fn make_link(&mut self, dir: &Self::Handle, name: &Name, text: &[u8]) -> Result<(), DiskError>
        requires name { IsLawfulName name.now }
        requires text { IsLinkText text.now }
        ensures made { (up : Names) → LeadsTo (objects self.old) (opens self.old dir.now) up → MakesOther (objects self.old) (opens self.old) (up ++ name.now ∷ []) (Link text.now) result (objects self.new) (opens self.new) }
        ensures nowhere { opens self.old dir.now ≡ None → Stays (objects self.old) (opens self.old) (objects self.new) (opens self.new) };

    /// Removes a name of what is no folder: `unlinkat`.
    fn remove_file(&mut self, dir: &Self::Handle, name: &Name) -> Result<(), DiskError>
        requires { IsLawfulName name.now }
        ensures removed { (up : Names) → LeadsTo (objects self.old) (opens self.old dir.now) up → Removes (objects self.old) (opens self.old) (up ++ name.now ∷ []) result (objects self.new) (opens self.new) }
        ensures nowhere { opens self.old dir.now ≡ None → Stays (objects self.old) (opens self.old) (objects self.new) (opens self.new) };

    /// Removes the folder, which has no names: `unlinkat`.
    fn remove_dir(&mut self, dir: &Self::Handle, name: &Name) -> Result<(), DiskError>
        requires { IsLawfulName name.now }
        ensures removed { (up : Names) → LeadsTo (objects self.old) (opens self.old dir.now) up → RemovesDir (objects self.old) (opens self.old) (up ++ name.now ∷ []) result (objects self.new) (opens self.new) }
        ensures nowhere { opens self.old dir.now ≡ None → Stays (objects self.old) (opens self.old) (objects self.new) (opens self.new) };

    /// Renames, to another path, and replaces what stands there: `renameat`. Where both are names of one file both stay, and where the
    /// one path is the other or leads to it nothing is changed.
    fn rename(
        &mut self,
        from_dir: &Self::Handle,
        from: &Name,
        to_dir: &Self::Handle,
        to: &Name,
    ) -> Result<(), DiskError>
        requires from { IsLawfulName from.now }
        requires to { IsLawfulName to.now }
        ensures renamed { (up up' : Names) → LeadsTo (objects self.old) (opens self.old from_dir.now) up → LeadsTo (objects self.old) (opens self.old to_dir.now) up' → AreApart (up ++ from.now ∷ []) (up' ++ to.now ∷ []) → Renames (objects self.old) (opens self.old) (up ++ from.now ∷ []) (up' ++ to.now ∷ []) result (objects self.new) (opens self.new) }
        ensures nested { (up up' : Names) → LeadsTo (objects self.old) (opens self.old from_dir.now) up → LeadsTo (objects self.old) (opens self.old to_dir.now) up' → AreNested (up ++ from.now ∷ []) (up' ++ to.now ∷ []) → Stays (objects self.old) (opens self.old) (objects self.new) (opens self.new) }
        ensures from_nowhere { opens self.old from_dir.now ≡ None → Stays (objects self.old) (opens self.old) (objects self.new) (opens self.new) }
        ensures to_nowhere { opens self.old to_dir.now ≡ None → Stays (objects self.old) (opens self.old) (objects self.new) (opens self.new) };

    /// Gives what stands at the one name a further one, at which nothing stands: `linkat`. A link at the name is not followed, and has
    /// two names then itself.
    fn link(
        &mut self,
        from_dir: &Self::Handle,
        from: &Name,
        to_dir: &Self::Handle,
        to: &Name,
    ) -> Result<(), DiskError>
        requires from { IsLawfulName from.now }
        requires to { IsLawfulName to.now }
        ensures linked { (up up' : Names) → LeadsTo (objects self.old) (opens self.old from_dir.now) up → LeadsTo (objects self.old) (opens self.old to_dir.now) up' → Links (objects self.old) (opens self.old) (up ++ from.now ∷ []) (up' ++ to.now ∷ []) result (objects self.new) (opens self.new) }
        ensures from_nowhere { opens self.old from_dir.now ≡ None → Stays (objects self.old) (opens self.old) (objects self.new) (opens self.new) }
        ensures to_nowhere { opens self.old to_dir.now ≡ None → Stays (objects self.old) (opens self.old) (objects self.new) (opens self.new) };

    /// What stands below the folder is a tree.
    ghost is_tree: { (disk : Self) → IsTree (tree_by_paths (objects disk)) };

    /// What stands at a path is something.
    ghost are_items: { (disk : Self) → AllAreItems (objects disk) };

    /// A folder has no hard links.
    ghost has_folders_once: { (disk : Self) → FoldersOnce (objects disk) };

    /// What is open leads to what stands somewhere, or to nothing.
    ghost all_stand: { (disk : Self) → AllStand (objects disk) (opens disk) };
}
