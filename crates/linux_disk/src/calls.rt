//! The calls of a system that are made below an open folder.

ghost use Rattle.std.specs.Prelude.{ℕ, List, [], ◌≡◌, ◌<◌, ◌≤◌, ◌^◌, ◌++◌, IsTrue, IfOk, OnOk, codes, length, take};
ghost use Rattle.disk.specs.Names.{IsLawfulName, IsLinkText};
ghost use Rattle.linux_disk.specs.Calls.{Done, Looked, LookedAt, Inspected, OpenedAgain, OpenedDir, OpenedDirAt, OpenedFile, Read, Wrote, SetLen, Synced, Set, SetAt, MadeFile, MadeDir, ReadLink, MadeLink, RemovedFile, RemovedFileAt, RemovedDir, RemovedDirAt, Renamed, Linked};
ghost use Rattle.terms.specs.declared.settings.Kinds.{Kinds as Shown};
ghost use Rattle.terms.specs.declared.settings.Names.{Names as Spelled};
ghost use Rattle.linux_disk.specs.Places.{IsBelow, IsReached, IsSafe, way_to};

use crate::page::Page;
use disk::{Access, Change, DiskError, Stat};
use std::alloc::AllocError;
use terms::{Kinds, Names};

/// A system. What is handed to it is one lawful name below a folder that is open, or behind a guard some, and nothing else. Each call is made once: one that a signal
/// ended (EINTR) has failed.
pub trait SystemCalls {
    /// A file or folder that is open for as long as the value is there.
    type Fd: Drop;

    /// How far the names in a folder were read.
    type Cursor: Drop;

    /// The number under which it is open, which comes back after it was closed.
    ghost number: { Self.Fd → ℕ };

    /// A number that never comes back.
    ghost stamp: { Self.Fd → ℕ };

    /// Which calls were made and did their work.
    ghost did: { Done → Type 0 };

    /// That the reading of a folder's names begins there.
    ghost begins: { ℕ → Self.Cursor → Type 0 };

    /// How far they were read when these bytes came.
    ghost advances: { Self.Cursor → List ℕ → Self.Cursor → Type 0 };

    /// The process's working directory is the folder of its descriptors.
    ghost entered: { Type 0 };

    /// Behind which text no further link is followed.
    ghost guards: { List ℕ → Type 0 };

    /// The user by whose rights the process acts.
    ghost user: { Self → ℕ };

    /// Which permission bits the process's mask takes of what is made.
    ghost mask: { Self → ℕ };

    /// Of which kinds a look shows what stands there.
    ghost kinds: { Self → Shown };

    /// Which names a listing has.
    ghost names: { Self → Spelled };

    /// The same system once more, for another thread. No stamp comes twice.
    fn share(&self) -> Result<Self, AllocError>;

    /// The number under which it is open.
    fn number(&self, fd: &Self::Fd) -> u32
        ensures { result ≡ number fd.now };

    /// Its stamp.
    fn stamp(&self, fd: &Self::Fd) -> u64
        ensures { result ≡ stamp fd.now };

    /// The user by whose rights the process acts.
    fn user(&self) -> u32
        ensures { result ≡ user self.now };

    /// Which permission bits the process's mask takes.
    fn mask(&self) -> u32
        ensures { result ≡ mask self.now };

    /// Of which kinds a look shows what stands there.
    fn kinds(&self) -> Kinds
        ensures { result ≡ kinds self.now };

    /// Which names a listing has.
    fn names(&self) -> Names
        ensures { result ≡ names self.now };

    /// Milliseconds by a clock that does not go back, 0 where there is none.
    fn milliseconds(&self) -> u64;

    /// Makes the folder of the process's descriptors its working directory.
    fn enter_descriptors(&self) -> Result<(), DiskError>
        ensures { OnOk result entered };

    /// Opens the folder at a path, which alone is not below an open folder. A link at its end is not followed.
    fn open_top(&self, path: &[u8]) -> Result<Self::Fd, DiskError>;

    /// Whether the system follows no link behind the guard: in a folder of its own it refuses one, and opens a file.
    fn refuses_links(&self, own: &Self::Fd, guard: &Page, to_link: &Page, to_file: &Page) -> bool
        requires entered { ∥ entered ∥₁ }
        requires link { to_link.now ≡ guard.now ++ (way_to (number own.now) ++ codes "exe") }
        requires file { to_file.now ≡ guard.now ++ (way_to (number own.now) ++ codes "status") }
        ensures { IsTrue result → guards guard.now };

    /// Opens the same folder once more.
    fn open_again(&self, dir: &Self::Fd) -> Result<Self::Fd, DiskError>
        ensures { IfOk result (λ fd. did (OpenedAgain (stamp dir.now) (stamp fd))) };

    /// Opens a folder of it, and no link.
    fn open_dir(&self, dir: &Self::Fd, name: &[u8]) -> Result<Self::Fd, DiskError>
        requires { IsLawfulName name.now }
        ensures { IfOk result (λ fd. did (OpenedDir (stamp dir.now) name.now (stamp fd))) };

    /// Opens a folder below it, and no link.
    fn open_dir_at(&self, dir: &Self::Fd, path: &Page) -> Result<Self::Fd, DiskError>
        requires entered { ∥ entered ∥₁ }
        requires below { IsBelow guards (number dir.now) path.now }
        ensures { IfOk result (λ fd. did (OpenedDirAt path.now (stamp fd))) };

    /// What stands at the name, a link itself.
    fn look(&self, dir: &Self::Fd, name: &Page) -> Result<Stat, DiskError>
        requires { IsLawfulName name.now }
        ensures { IfOk result (λ stat. did (Looked (stamp dir.now) name.now stat)) };

    /// What stands there below it, a link itself.
    fn look_at(&self, dir: &Self::Fd, path: &Page) -> Result<Stat, DiskError>
        requires entered { ∥ entered ∥₁ }
        requires below { IsBelow guards (number dir.now) path.now }
        ensures { IfOk result (λ stat. did (LookedAt path.now stat)) };

    /// What is open. The page has no text.
    fn inspect(&self, fd: &Self::Fd, none: &Page) -> Result<Stat, DiskError>
        requires { none.now ≡ [] }
        ensures { IfOk result (λ stat. did (Inspected (stamp fd.now) stat)) };

    /// Opens a file that is there. It may wait, where that is a pipe that nobody writes to and it is opened to be read.
    fn open_file(&self, dir: &Self::Fd, path: &Page, access: Access) -> Result<Self::Fd, DiskError>
        requires entered { ∥ entered ∥₁ }
        requires safe { IsSafe guards did (user self.now) (number dir.now) (stamp dir.now) path.now }
        ensures { IfOk result (λ fd. did (OpenedFile path.now access (stamp fd))) };

    /// Makes an empty file where nothing stands, and opens it to be read and written. The process's mask takes some of the bits.
    fn make_file(
        &self,
        dir: &Self::Fd,
        path: &Page,
        permissions: u32,
    ) -> Result<Self::Fd, DiskError>
        requires entered { ∥ entered ∥₁ }
        requires reached { IsReached guards (number dir.now) path.now }
        ensures { IfOk result (λ fd. did (MadeFile path.now permissions (stamp fd))) };

    /// Makes an empty folder where nothing stands. The process's mask takes some of the bits.
    fn make_dir(&self, dir: &Self::Fd, path: &Page, permissions: u32) -> Result<(), DiskError>
        requires entered { ∥ entered ∥₁ }
        requires reached { IsReached guards (number dir.now) path.now }
        ensures { OnOk result (did (MadeDir path.now permissions)) };

    /// Puts the text of the link there at the buffer's start, as much as has room: how many bytes. The link is not followed.
    fn read_link(&self, dir: &Self::Fd, path: &Page, buffer: &mut [u8]) -> Result<usize, DiskError>
        requires entered { ∥ entered ∥₁ }
        requires reached { IsReached guards (number dir.now) path.now }
        ensures within { IfOk result (λ n. n ≤ length buffer.new) }
        ensures done { IfOk result (λ n. did (ReadLink path.now (length buffer.old) (take n buffer.new))) };

    /// Makes a link with that text where nothing stands.
    fn make_link(&self, dir: &Self::Fd, path: &Page, target: &[u8]) -> Result<(), DiskError>
        requires entered { ∥ entered ∥₁ }
        requires reached { IsReached guards (number dir.now) path.now }
        requires target { IsLinkText target.now }
        ensures { OnOk result (did (MadeLink path.now target.now)) };

    /// Removes what is no folder.
    fn remove_file(&self, dir: &Self::Fd, name: &[u8]) -> Result<(), DiskError>
        requires { IsLawfulName name.now }
        ensures { OnOk result (did (RemovedFile (stamp dir.now) name.now)) };

    /// Removes what is no folder, below it.
    fn remove_file_at(&self, dir: &Self::Fd, path: &Page) -> Result<(), DiskError>
        requires entered { ∥ entered ∥₁ }
        requires below { IsBelow guards (number dir.now) path.now }
        ensures { OnOk result (did (RemovedFileAt path.now)) };

    /// Removes an empty folder.
    fn remove_dir(&self, dir: &Self::Fd, name: &[u8]) -> Result<(), DiskError>
        requires { IsLawfulName name.now }
        ensures { OnOk result (did (RemovedDir (stamp dir.now) name.now)) };

    /// Removes an empty folder, below it.
    fn remove_dir_at(&self, dir: &Self::Fd, path: &Page) -> Result<(), DiskError>
        requires entered { ∥ entered ∥₁ }
        requires below { IsBelow guards (number dir.now) path.now }
        ensures { OnOk result (did (RemovedDirAt path.now)) };

    /// Renames, and replaces what stands there.
    fn rename(
        &self,
        from_dir: &Self::Fd,
        from: &Page,
        to_dir: &Self::Fd,
        to: &Page,
    ) -> Result<(), DiskError>
        requires entered { ∥ entered ∥₁ }
        requires from { IsReached guards (number from_dir.now) from.now }
        requires to { IsReached guards (number to_dir.now) to.now }
        ensures { OnOk result (did (Renamed from.now to.now)) };

    /// Gives what stands there a further name where nothing stands. A link is not followed, and no folder has two names.
    fn link(
        &self,
        from_dir: &Self::Fd,
        from: &Page,
        to_dir: &Self::Fd,
        to: &Page,
    ) -> Result<(), DiskError>
        requires entered { ∥ entered ∥₁ }
        requires from { IsReached guards (number from_dir.now) from.now }
        requires to { IsReached guards (number to_dir.now) to.now }
        ensures { OnOk result (did (Linked from.now to.now)) };

    /// Reads from the offset on, to the buffer's start: how many bytes.
    fn read_at(&self, file: &Self::Fd, buffer: &mut [u8], offset: u64) -> Result<usize, DiskError>
        requires { offset < 2 ^ 63 }
        ensures within { IfOk result (λ n. n ≤ length buffer.new) }
        ensures done { IfOk result (λ n. did (Read (stamp file.now) offset (take n buffer.new))) };

    /// Writes from the offset on: how many bytes.
    fn write_at(&self, file: &Self::Fd, bytes: &[u8], offset: u64) -> Result<usize, DiskError>
        requires { offset < 2 ^ 63 }
        ensures within { IfOk result (λ n. n ≤ length bytes.now) }
        ensures done { IfOk result (λ n. did (Wrote (stamp file.now) offset bytes.now n)) };

    /// Cuts the file, or fills it with zeros.
    fn set_len(&self, file: &Self::Fd, size: u64) -> Result<(), DiskError>
        requires { size < 2 ^ 63 }
        ensures { OnOk result (did (SetLen (stamp file.now) size)) };

    /// Brings it to the disk.
    fn sync(&self, fd: &Self::Fd) -> Result<(), DiskError>
        ensures { OnOk result (did (Synced (stamp fd.now))) };

    /// Sets it of what is open. There is no owner and no group 2^32 - 1, and no second of 10^9 nanoseconds (EINVAL, own).
    fn set(&self, fd: &Self::Fd, change: Change) -> Result<(), DiskError>
        ensures { OnOk result (did (Set (stamp fd.now) change)) };

    /// Sets it of what stands there, as `set`. There is no such call for times (EACCES, own).
    fn set_at(&self, dir: &Self::Fd, path: &Page, change: Change) -> Result<(), DiskError>
        requires entered { ∥ entered ∥₁ }
        requires safe { IsSafe guards did (user self.now) (number dir.now) (stamp dir.now) path.now }
        ensures { OnOk result (did (SetAt path.now change)) };

    /// Begins to read the names in the folder, from the first one on.
    fn rewind(&self, dir: &Self::Fd) -> Result<Self::Cursor, DiskError>
        ensures { IfOk result (begins (stamp dir.now)) };

    /// Puts the next names at the buffer's start, each with a NUL behind it: how many bytes, 0 behind the last name.
    fn next_names(
        &self,
        dir: &Self::Fd,
        at: &mut Self::Cursor,
        buffer: &mut [u8],
    ) -> Result<usize, DiskError>
        ensures within { IfOk result (λ n. n ≤ length buffer.new) }
        ensures done { IfOk result (λ n. advances at.old (take n buffer.new) at.new) };
}
