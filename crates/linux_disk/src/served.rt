//! A folder of Linux as a system. Which call of Linux's each one is, the function that it calls says.

ghost use Rattle.std.specs.Prelude.{◌≡◌, ◌⊎◌, ◌≤◌, ◌++◌, false, None, IsTrue, IfOk, OnOk, length, take};
ghost use Rattle.disk.specs.Names.{IsLawfulName, IsLinkText};
ghost use Rattle.terms.specs.declared.settings.Kinds.TheVariants.{All};
ghost use Rattle.linux_disk.specs.Held.{held_value};
ghost use Rattle.linux_disk.specs.Below.{EntersDir, HoldsOfOpen, Reaches, WasInspected, WasLinked, WasLooked, WasMadeDir, WasMadeFile, WasMadeLink, WasReadLink, WasRemovedDir, WasRemovedFile, WasRenamed};
ghost use Rattle.linux_disk.specs.Calls.{Done, OpenedAgain, Read, Wrote, SetLen, Synced};
ghost use Rattle.linux_disk.specs.Listings.{ListsAll};
ghost use Rattle.linux_disk.specs.Steps.{HasBits, HasBitsAt, IsNothing, ReadsNone, WasOpened, WasSet, WasSetAt, bits_of};
ghost use Rattle.linux_disk.specs.Ways.{way_in};

use crate::again;
use crate::calls::SystemCalls;
use crate::handle::Handle;
use crate::linux::{Linux, page_of};
use crate::store::FileStore;
use disk::{Access, Change, DiskError, Stat, System};
use errno::EFBIG;
use paths::Name;
use std::alloc::Global;
use terms::Kinds;

/// No file of the system has a byte at this place or behind it.
const END: u64 = 1 << 63;

impl<C: SystemCalls + Drop, S: FileStore<Fd = C::Fd> + Drop> System for Linux<C, S> {
    type Handle = Handle<C>;

    fn alloc(&self) -> Global {
        self.alloc
    }

    fn now(&self) -> u64 {
        self.calls.milliseconds()
    }

    fn moves(&self) -> u64 {
        self.counts.moves()
    }

    fn changes(&self) -> u64 {
        self.counts.changes()
    }

    fn note_move(&self) {
        self.counts.note_move();
    }

    fn is_shared(&self) -> bool {
        self.counts.is_shared()
    }

    fn shows_all(&self) -> bool
        ensures { IsTrue result → C.kinds self.now.calls ≡ All }
    {
        matches!(self.calls.kinds(), Kinds::All)
    }

    fn keeps_files(&self) -> bool {
        self.store.keeps()
    }

    /// No call, or two of `statx` where the file was not seen under its name within a second.
    fn find_open(&self, dir: &Handle<C>, name: &Name, access: Access) -> Option<Handle<C>>
        requires { IsLawfulName name.now }
    {
        if !self.store.keeps() {
            return None;
        }
        let mut page = page_of(self.alloc, &self.path).ok()?;
        let found = self.find_kept(&mut page, dir, name, access);
        self.path.keep(page);
        found
    }

    fn is_by_name(&self, dir: &Handle<C>) -> bool {
        dir.below.is_some()
    }

    /// `openat`.
    fn open_root(&self) -> Result<Handle<C>, DiskError>
        ensures { IfOk result (λ dir. C.did (OpenedAgain (C.stamp self.now.root) (C.stamp (held_value dir.held)))) }
    {
        let fd = again::open_again(&self.calls, &self.root)?;
        Ok(Handle::folder(fd))
    }

    /// `statx`.
    fn inspect(&self, handle: &Handle<C>) -> Result<Stat, DiskError>
        ensures { IfOk result (λ stat. WasInspected C.did C.guards (C.stamp (held_value handle.now.held)) (C.number (held_value handle.now.held)) handle.now.below stat) }
    {
        let mut page = page_of(self.alloc, &self.path)?;
        let told = self.inspect_open(&mut page, handle);
        self.path.keep(page);
        told
    }

    fn look(&self, dir: &Handle<C>, name: &Name) -> Result<Stat, DiskError>
        requires { IsLawfulName name.now }
        ensures { IfOk result (λ stat. WasLooked C.did C.guards (C.stamp (held_value dir.now.held)) (C.number (held_value dir.now.held)) dir.now.below name.now stat) }
    {
        let mut page = page_of(self.alloc, &self.path)?;
        let told = self.look_at(&mut page, dir, name);
        self.path.keep(page);
        told
    }

    /// `openat`. A folder that may be entered and not read is entered: `statx`, and `openat` of the one above that is open.
    fn open_dir(&self, dir: &Handle<C>, name: &Name) -> Result<Handle<C>, DiskError>
        requires { IsLawfulName name.now }
        ensures { IfOk result (λ sub. EntersDir C.did C.guards (C.stamp (held_value dir.now.held)) (C.number (held_value dir.now.held)) dir.now.below name.now (C.stamp (held_value sub.held)) sub.below) }
    {
        let mut page = page_of(self.alloc, &self.path)?;
        let told = self.open_dir_in(&mut page, dir, name);
        self.path.keep(page);
        told
    }

    fn open_file(
        &self,
        dir: &Handle<C>,
        name: &Name,
        access: Access,
    ) -> Result<Handle<C>, DiskError>
        requires { IsLawfulName name.now }
        ensures { S.keeps self.now.store ≡ false → IfOk result (λ file. WasOpened C.did (C.number (held_value dir.now.held)) (way_in dir.now.below ++ name.now) access (C.stamp (held_value file.held))) }
    {
        let mut page = page_of(self.alloc, &self.path)?;
        let told = self.open_at(&mut page, dir, name, access);
        self.path.keep(page);
        told
    }

    /// `pread`, or none where no file has a byte.
    fn read_at(&self, file: &Handle<C>, buffer: &mut [u8], offset: u64) -> Result<usize, DiskError>
        ensures within { IfOk result (λ n. n ≤ length buffer.new) }
        ensures done { IfOk result (λ n. ReadsNone offset n ⊎ C.did (Read (C.stamp (held_value file.now.held)) offset (take n buffer.new))) }
    {
        if offset >= END {
            return Ok(0);
        }
        again::read_at(&self.calls, file.fd(), buffer, offset)
    }

    fn read_link(&self, dir: &Handle<C>, name: &Name) -> Result<Vec<u8>, DiskError>
        requires { IsLawfulName name.now }
        ensures { IfOk result (λ target. WasReadLink C.did C.guards (C.number (held_value dir.now.held)) dir.now.below name.now target.items) }
    {
        let mut page = page_of(self.alloc, &self.path)?;
        let told = self.link_text(&mut page, dir, name);
        self.path.keep(page);
        told
    }

    /// `lseek`, and `getdents` until there is no name. A folder that could not be read is opened first: `openat`.
    fn list(&self, dir: &Handle<C>) -> Result<Vec<Name>, DiskError>
        ensures { IfOk result (λ names. HoldsOfOpen C.did C.guards (C.stamp (held_value dir.now.held)) (C.number (held_value dir.now.held)) dir.now.below (λ stamp. ListsAll (C.names self.now.calls) C.begins C.advances stamp names.items)) }
    {
        let mut room = self.names_room()?;
        let told = self.list_in(&mut room, dir);
        self.names.keep(room);
        told
    }

    /// `fsync`. A folder that could not be read is opened first: `openat`.
    fn sync(&self, handle: &Handle<C>) -> Result<(), DiskError>
        ensures { OnOk result (HoldsOfOpen C.did C.guards (C.stamp (held_value handle.now.held)) (C.number (held_value handle.now.held)) handle.now.below (λ stamp. C.did (Synced stamp))) }
    {
        match &handle.below {
            None => again::sync(&self.calls, handle.fd()),
            Some(way) => {
                let fd = self.open_now(handle.fd(), way)?;
                again::sync(&self.calls, &fd)
            }
        }
    }

    fn set(&self, handle: &Handle<C>, change: Change) -> Result<(), DiskError>
        ensures { OnOk result (IsNothing change ⊎ WasSet C.did C.guards (C.stamp (held_value handle.now.held)) (C.number (held_value handle.now.held)) handle.now.below change) }
    {
        let mut page = page_of(self.alloc, &self.path)?;
        let told = self.set_open(&mut page, handle, change);
        self.counts.note_change();
        self.path.keep(page);
        told
    }

    fn set_at(&self, dir: &Handle<C>, name: &Name, change: Change) -> Result<(), DiskError>
        requires { IsLawfulName name.now }
        ensures { OnOk result (IsNothing change ⊎ WasSetAt C.did (C.number (held_value dir.now.held)) (way_in dir.now.below ++ name.now) change) }
    {
        let mut page = page_of(self.alloc, &self.path)?;
        let told = self.set_named(&mut page, dir, name, change);
        self.counts.note_change();
        self.path.keep(page);
        told
    }

    /// `pwrite`.
    fn write_at(&mut self, file: &Handle<C>, bytes: &[u8], offset: u64) -> Result<usize, DiskError>
        ensures within { IfOk result (λ n. n ≤ length bytes.now) }
        ensures done { IfOk result (λ n. C.did (Wrote (C.stamp (held_value file.now.held)) offset bytes.now n)) }
    {
        if offset >= END {
            return Err(DiskError::Failed(EFBIG));
        }
        let told = again::write_at(&self.calls, file.fd(), bytes, offset);
        self.counts.note_change();
        told
    }

    /// `ftruncate`.
    fn set_len(&mut self, file: &Handle<C>, size: u64) -> Result<(), DiskError>
        ensures { OnOk result (C.did (SetLen (C.stamp (held_value file.now.held)) size)) }
    {
        if size >= END {
            return Err(DiskError::Failed(EFBIG));
        }
        let told = again::set_len(&self.calls, file.fd(), size);
        self.counts.note_change();
        told
    }

    fn make_file(
        &mut self,
        dir: &Handle<C>,
        name: &Name,
        permissions: Option<u32>,
    ) -> Result<Handle<C>, DiskError>
        requires { IsLawfulName name.now }
        ensures made { IfOk result (λ file. WasMadeFile C.did C.guards (C.number (held_value dir.now.held)) dir.now.below name.now (bits_of 438 permissions) (C.stamp (held_value file.held))) }
        ensures bits { IfOk result (λ file. HasBits C.did (C.mask self.old.calls) (C.stamp (held_value file.held)) permissions) }
    {
        let mut page = page_of(self.alloc, &self.path)?;
        let told = self.make_file_at(&mut page, dir, name, permissions);
        self.counts.note_change();
        self.path.keep(page);
        told
    }

    fn make_dir(
        &mut self,
        dir: &Handle<C>,
        name: &Name,
        permissions: Option<u32>,
    ) -> Result<(), DiskError>
        requires { IsLawfulName name.now }
        ensures made { OnOk result (WasMadeDir C.did C.guards (C.number (held_value dir.now.held)) dir.now.below name.now (bits_of 511 permissions)) }
        ensures bits { OnOk result (HasBitsAt C.did C.guards (C.mask self.old.calls) (C.stamp (held_value dir.now.held)) (C.number (held_value dir.now.held)) dir.now.below name.now permissions) }
    {
        let mut page = page_of(self.alloc, &self.path)?;
        let told = self.make_dir_at(&mut page, dir, name, permissions);
        self.counts.note_change();
        self.path.keep(page);
        told
    }

    fn make_link(&mut self, dir: &Handle<C>, name: &Name, text: &[u8]) -> Result<(), DiskError>
        requires name { IsLawfulName name.now }
        requires text { IsLinkText text.now }
        ensures { OnOk result (WasMadeLink C.did C.guards (C.number (held_value dir.now.held)) dir.now.below name.now text.now) }
    {
        let mut page = page_of(self.alloc, &self.path)?;
        let told = self.make_link_at(&mut page, dir, name, text);
        self.counts.note_change();
        self.path.keep(page);
        told
    }

    fn remove_file(&mut self, dir: &Handle<C>, name: &Name) -> Result<(), DiskError>
        requires { IsLawfulName name.now }
        ensures { OnOk result (WasRemovedFile C.did C.guards (C.stamp (held_value dir.now.held)) (C.number (held_value dir.now.held)) dir.now.below name.now) }
    {
        let told = self.remove_file_at(dir, name);
        self.counts.note_change();
        told
    }

    fn remove_dir(&mut self, dir: &Handle<C>, name: &Name) -> Result<(), DiskError>
        requires { IsLawfulName name.now }
        ensures { OnOk result (WasRemovedDir C.did C.guards (C.stamp (held_value dir.now.held)) (C.number (held_value dir.now.held)) dir.now.below name.now) }
    {
        let told = self.remove_dir_at(dir, name);
        self.counts.note_change();
        told
    }

    fn rename(
        &mut self,
        from_dir: &Handle<C>,
        from: &Name,
        to_dir: &Handle<C>,
        to: &Name,
    ) -> Result<(), DiskError>
        requires from { IsLawfulName from.now }
        requires to { IsLawfulName to.now }
        ensures { OnOk result (WasRenamed C.did (Reaches C.guards (C.number (held_value from_dir.now.held)) from_dir.now.below from.now) (Reaches C.guards (C.number (held_value to_dir.now.held)) to_dir.now.below to.now)) }
    {
        let mut old = page_of(self.alloc, &self.path)?;
        let mut new = page_of(self.alloc, &self.other)?;
        let told = self.rename_at((&mut old, &mut new), from_dir, from, to_dir, to);
        self.counts.note_change();
        self.path.keep(old);
        self.other.keep(new);
        told
    }

    fn link(
        &mut self,
        from_dir: &Handle<C>,
        from: &Name,
        to_dir: &Handle<C>,
        to: &Name,
    ) -> Result<(), DiskError>
        requires from { IsLawfulName from.now }
        requires to { IsLawfulName to.now }
        ensures { OnOk result (WasLinked C.did (Reaches C.guards (C.number (held_value from_dir.now.held)) from_dir.now.below from.now) (Reaches C.guards (C.number (held_value to_dir.now.held)) to_dir.now.below to.now)) }
    {
        let mut old = page_of(self.alloc, &self.path)?;
        let mut new = page_of(self.alloc, &self.other)?;
        let told = self.link_at((&mut old, &mut new), from_dir, from, to_dir, to);
        self.counts.note_change();
        self.path.keep(old);
        self.other.keep(new);
        told
    }
}
