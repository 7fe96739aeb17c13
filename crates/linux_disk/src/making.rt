//! Calls that make, remove and move.

ghost use Rattle.std.specs.Prelude.{◌≡◌, ◌++◌, IfOk, OnOk};
ghost use Rattle.disk.specs.Names.{IsLawfulName};
ghost use Rattle.linux_disk.specs.Held.{held_value};
ghost use Rattle.linux_disk.specs.Below.{Reaches, WasMadeDir, WasMadeFile, WasRemovedDir, WasRemovedDirAt, WasRemovedFile, WasRemovedFileAt, WasRenamed};
ghost use Rattle.linux_disk.specs.Places.{way_to};
ghost use Rattle.linux_disk.specs.Steps.{HasBits, HasBitsAt, WasCompleted, bits_of};

use crate::again;
use crate::calls::SystemCalls;
use crate::handle::Handle;
use crate::linux::{Linux, page_of};
use crate::page::Page;
use crate::stat::PERMISSION_BITS;
use crate::store::FileStore;
use crate::way::Way;
use disk::{Change, DiskError};
use errno::EIO;
use paths::Name;
use payload::Kind;

/// The bits of a file and of a folder that are made by the process's default.
const FILE_BITS: u32 = 0o666;

const FOLDER_BITS: u32 = 0o777;

/// The bits that it is asked to have.
fn bits_of(default: u32, permissions: Option<u32>) -> u32
    ensures { result ≡ bits_of default permissions }
{
    match permissions {
        None => default,
        Some(wanted) => wanted & PERMISSION_BITS,
    }
}

/// A folder that has names is told so by one of two numbers, as POSIX has it.
fn with_names(told: Result<(), DiskError>) -> Result<(), DiskError>
    ensures { OnOk result (told ≡ result) }
{
    match told {
        Err(DiskError::Exists) => Err(DiskError::NotEmpty),
        told => told,
    }
}

/// Whether the system has done it, or may have.
pub(crate) fn may_be_done(told: &Result<(), DiskError>) -> bool {
    matches!(told, Ok(()) | Err(DiskError::Failed(_)))
}

impl<C: SystemCalls + Drop, S: FileStore<Fd = C::Fd> + Drop> Linux<C, S> {
    /// Makes an empty file: `open` with O_EXCL, and `fchmod` where the mask takes some of the bits.
    pub(crate) fn make_new(
        &self,
        page: &mut Page,
        dir: &Handle<C>,
        name: &Name,
        permissions: Option<u32>,
    ) -> Result<C::Fd, DiskError>
        requires { IsLawfulName name.now }
        ensures made { IfOk result (λ fd. WasMadeFile C.did C.guards (C.number (held_value dir.now.held)) dir.now.below name.now (bits_of 438 permissions) (C.stamp fd)) }
        ensures bits { IfOk result (λ fd. HasBits C.did (C.mask self.now.calls) (C.stamp fd) permissions) }
    {
        self.reach(page, dir, name)?;
        let bits = bits_of(FILE_BITS, permissions);
        let fd = self.calls.make_file(dir.fd(), page, bits)?;
        self.complete(&fd, permissions)?;
        Ok(fd)
    }

    /// The file has all of the bits.
    fn complete(&self, fd: &C::Fd, permissions: Option<u32>) -> Result<(), DiskError>
        ensures { OnOk result (HasBits C.did (C.mask self.now.calls) (C.stamp fd.now) permissions) }
    {
        let Some(wanted) = permissions else {
            return Ok(());
        };
        if wanted & self.calls.mask() == 0 {
            return Ok(());
        }
        again::set(&self.calls, fd, Change::Permissions(wanted))
    }

    /// Makes an empty folder: `mkdir`, and `statx` and `chmod` where the mask takes some of the bits.
    pub(crate) fn make_dir_at(
        &self,
        page: &mut Page,
        dir: &Handle<C>,
        name: &Name,
        permissions: Option<u32>,
    ) -> Result<(), DiskError>
        requires { IsLawfulName name.now }
        ensures made { OnOk result (WasMadeDir C.did C.guards (C.number (held_value dir.now.held)) dir.now.below name.now (bits_of 511 permissions)) }
        ensures bits { OnOk result (HasBitsAt C.did C.guards (C.mask self.now.calls) (C.stamp (held_value dir.now.held)) (C.number (held_value dir.now.held)) dir.now.below name.now permissions) }
    {
        self.reach(page, dir, name)?;
        let bits = bits_of(FOLDER_BITS, permissions);
        self.calls.make_dir(dir.fd(), page, bits)?;
        match permissions {
            None => Ok(()),
            Some(wanted) => {
                if wanted & self.calls.mask() == 0 {
                    Ok(())
                } else {
                    self.complete_at(page, dir, name, wanted)
                }
            }
        }
    }

    /// The folder that was made has these bits too. A look shows which it has, as one that it has by the folder that it stands in.
    fn complete_at(
        &self,
        page: &mut Page,
        dir: &Handle<C>,
        name: &Name,
        wanted: u32,
    ) -> Result<(), DiskError>
        requires { IsLawfulName name.now }
        ensures { OnOk result (WasCompleted C.did C.guards (C.stamp (held_value dir.now.held)) (C.number (held_value dir.now.held)) dir.now.below name.now wanted) }
    {
        let stat = self.look_at(page, dir, name)?;
        match stat.kind {
            Some(Kind::Folder) => {
                let bits = stat.details.permissions | wanted;
                self.set_named(page, dir, name, Change::Permissions(bits))
            }
            // Somebody else has put that in its place.
            Some(Kind::File | Kind::Link | Kind::Special(_)) | None => Err(DiskError::Failed(EIO)),
        }
    }

    /// Removes what is no folder: `unlinkat`, or `unlink` where the folder may not be read.
    pub(crate) fn unlink(&self, dir: &Handle<C>, name: &Name) -> Result<(), DiskError>
        requires { IsLawfulName name.now }
        ensures { OnOk result (WasRemovedFile C.did C.guards (C.stamp (held_value dir.now.held)) (C.number (held_value dir.now.held)) dir.now.below name.now) }
    {
        match &dir.below {
            None => self.calls.remove_file(dir.fd(), name.as_bytes()),
            Some(way) => {
                let mut page = page_of(self.alloc, &self.path)?;
                let told = self.unlink_below(&mut page, dir.fd(), way, name);
                self.path.keep(page);
                told
            }
        }
    }

    fn unlink_below(
        &self,
        page: &mut Page,
        above: &C::Fd,
        way: &Way,
        name: &Name,
    ) -> Result<(), DiskError>
        requires { IsLawfulName name.now }
        ensures { OnOk result (WasRemovedFileAt C.did C.guards (way_to (C.number above.now) ++ (way.now ++ name.now))) }
    {
        self.reach_below(page, above, way, name)?;
        self.calls.remove_file_at(above, page)
    }

    /// Removes an empty folder: `unlinkat`, or `rmdir` where the folder that it stands in may not be read.
    pub(crate) fn remove_dir_at(&self, dir: &Handle<C>, name: &Name) -> Result<(), DiskError>
        requires { IsLawfulName name.now }
        ensures { OnOk result (WasRemovedDir C.did C.guards (C.stamp (held_value dir.now.held)) (C.number (held_value dir.now.held)) dir.now.below name.now) }
    {
        let told = self.unlink_dir(dir, name);
        if may_be_done(&told) {
            self.counts.note_move();
        }
        with_names(told)
    }

    fn unlink_dir(&self, dir: &Handle<C>, name: &Name) -> Result<(), DiskError>
        requires { IsLawfulName name.now }
        ensures { OnOk result (WasRemovedDir C.did C.guards (C.stamp (held_value dir.now.held)) (C.number (held_value dir.now.held)) dir.now.below name.now) }
    {
        match &dir.below {
            None => self.calls.remove_dir(dir.fd(), name.as_bytes()),
            Some(way) => {
                let mut page = page_of(self.alloc, &self.path)?;
                let told = self.unlink_dir_below(&mut page, dir.fd(), way, name);
                self.path.keep(page);
                told
            }
        }
    }

    fn unlink_dir_below(
        &self,
        page: &mut Page,
        above: &C::Fd,
        way: &Way,
        name: &Name,
    ) -> Result<(), DiskError>
        requires { IsLawfulName name.now }
        ensures { OnOk result (WasRemovedDirAt C.did C.guards (way_to (C.number above.now) ++ (way.now ++ name.now))) }
    {
        self.reach_below(page, above, way, name)?;
        self.calls.remove_dir_at(above, page)
    }

    /// Gives what stands at the name another one: `rename`.
    pub(crate) fn move_name(
        &self,
        pages: (&mut Page, &mut Page),
        from_dir: &Handle<C>,
        from: &Name,
        to_dir: &Handle<C>,
        to: &Name,
    ) -> Result<(), DiskError>
        requires from { IsLawfulName from.now }
        requires to { IsLawfulName to.now }
        ensures { OnOk result (WasRenamed C.did (Reaches C.guards (C.number (held_value from_dir.now.held)) from_dir.now.below from.now) (Reaches C.guards (C.number (held_value to_dir.now.held)) to_dir.now.below to.now)) }
    {
        let (old, new) = pages;
        self.reach(old, from_dir, from)?;
        self.reach(new, to_dir, to)?;
        let told = self.calls.rename(from_dir.fd(), old, to_dir.fd(), new);
        with_names(told)
    }
}
