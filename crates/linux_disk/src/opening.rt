//! Calls that open or set by a text.

ghost use Rattle.std.specs.Prelude.{◌≡◌, ◌⊎◌, ◌↔◌, ◌++◌, IsTrue, IfOk, OnOk};
ghost use Rattle.disk.specs.Names.{IsLawfulName};
ghost use Rattle.linux_disk.specs.Held.{held_value};
ghost use Rattle.linux_disk.specs.Below.{WasLooked};
ghost use Rattle.linux_disk.specs.Steps.{IsNothing, IsUnsupported, IsWhyNotSet, unsupported_errno, WasOpened, WasSet, WasSetAt, WasSetBelow};
ghost use Rattle.linux_disk.specs.Ways.{way_in};

use crate::again;
use crate::calls::SystemCalls;
use crate::handle::Handle;
use crate::linux::Linux;
use crate::page::Page;
use crate::places::name_alone;
use crate::store::FileStore;
use crate::way::Way;
use disk::{Access, Change, DiskError, Stat};
use errno::ENOSYS;
use paths::Name;
use payload::Kind;

/// Whether nothing is to be set.
fn is_nothing(change: Change) -> bool
    ensures { IsTrue result → IsNothing change }
{
    match change {
        Change::Permissions(_) => false,
        Change::Owner { uid, gid } => uid.is_none() && gid.is_none(),
        Change::Times { accessed, modified } => accessed.is_none() && modified.is_none(),
    }
}

/// Linux's number for what cannot be done to a file of that kind, which the crate of numbers and the C library's here lack.
const EOPNOTSUPP: i32 = 95;

/// Whether it cannot be set of what a look shows there: a link has no permission bits of its own, and times are set of what is open, as nothing
/// but a file or a folder ever is.
fn is_unsupported(kind: Option<Kind>, change: Change) -> bool
    ensures { IsTrue result ↔ IsUnsupported kind change }
{
    match change {
        Change::Owner { .. } => false,
        Change::Permissions(_) => match kind {
            Some(Kind::Link) => true,
            Some(Kind::Folder | Kind::File | Kind::Special(_)) | None => false,
        },
        Change::Times { .. } => match kind {
            Some(Kind::Link | Kind::Special(_)) => true,
            Some(Kind::Folder | Kind::File) | None => false,
        },
    }
}

/// The error number where it cannot be set. Of times it is ENOSYS: `rsync` and `tar` pass over links whose times no call can set.
fn unsupported_errno(change: Change) -> i32
    ensures { result ≡ unsupported_errno change }
{
    match change {
        Change::Permissions(_) | Change::Owner { .. } => EOPNOTSUPP,
        Change::Times { .. } => ENOSYS,
    }
}

/// Whether it may change who else may write in a folder.
fn is_about_rights(change: Change) -> bool {
    match change {
        Change::Permissions(_) | Change::Owner { .. } => true,
        Change::Times { .. } => false,
    }
}

impl<C: SystemCalls + Drop, S: FileStore<Fd = C::Fd> + Drop> Linux<C, S> {
    /// What stands at the name: `statx`.
    pub(crate) fn look_at(
        &self,
        page: &mut Page,
        dir: &Handle<C>,
        name: &Name,
    ) -> Result<Stat, DiskError>
        requires { IsLawfulName name.now }
        ensures { IfOk result (λ stat. WasLooked C.did C.guards (C.stamp (held_value dir.now.held)) (C.number (held_value dir.now.held)) dir.now.below name.now stat) }
    {
        match &dir.below {
            None => {
                name_alone(page, name.as_bytes())?;
                self.calls.look(dir.fd(), page)
            }
            Some(way) => {
                self.reach_below(page, dir.fd(), way, name)?;
                self.calls.look_at(dir.fd(), page)
            }
        }
    }

    /// Opens the file at the name: `open`, and `statx` where the folder has not been seen yet.
    pub(crate) fn open_new(
        &self,
        page: &mut Page,
        dir: &Handle<C>,
        name: &Name,
        access: Access,
    ) -> Result<C::Fd, DiskError>
        requires { IsLawfulName name.now }
        ensures { IfOk result (λ fd. WasOpened C.did (C.number (held_value dir.now.held)) (way_in dir.now.below ++ name.now) access (C.stamp fd)) }
    {
        self.safe_place(page, dir, name)?;
        again::open_file(&self.calls, dir.fd(), page, access)
    }

    /// Sets it of what is open: `fchmod`, `fchown` or `futimens`. Of a folder that could not be read: `chmod`, `lchown`, or `openat` and `futimens`.
    pub(crate) fn set_open(
        &self,
        page: &mut Page,
        handle: &Handle<C>,
        change: Change,
    ) -> Result<(), DiskError>
        ensures { OnOk result (IsNothing change ⊎ WasSet C.did C.guards (C.stamp (held_value handle.now.held)) (C.number (held_value handle.now.held)) handle.now.below change) }
    {
        if is_nothing(change) {
            return Ok(());
        }
        let told = self.set_once(page, handle, change);
        if handle.is_folder && is_about_rights(change) {
            self.counts.note_rights();
        }
        told
    }

    fn set_once(&self, page: &mut Page, handle: &Handle<C>, change: Change) -> Result<(), DiskError>
        ensures { OnOk result (WasSet C.did C.guards (C.stamp (held_value handle.now.held)) (C.number (held_value handle.now.held)) handle.now.below change) }
    {
        match &handle.below {
            None => again::set(&self.calls, handle.fd(), change),
            Some(way) => self.set_below(page, handle.fd(), way, change),
        }
    }

    /// No call of the kit sets times by a name, so for these the folder is opened.
    fn set_below(
        &self,
        page: &mut Page,
        above: &C::Fd,
        way: &Way,
        change: Change,
    ) -> Result<(), DiskError>
        ensures { OnOk result (WasSetBelow C.did C.guards (C.number above.now) way.now change) }
    {
        match change {
            Change::Permissions(_) | Change::Owner { .. } => {
                self.reach_way(page, above, way)?;
                again::set_at(&self.calls, above, page, change)
            }
            Change::Times { .. } => {
                let fd = self.open_way(page, above, way)?;
                again::set(&self.calls, &fd, change)
            }
        }
    }

    /// Sets it of what stands at the name: `chmod` or `lchown`, behind the guard, since nothing is compared afterwards.
    pub(crate) fn set_named(
        &self,
        page: &mut Page,
        dir: &Handle<C>,
        name: &Name,
        change: Change,
    ) -> Result<(), DiskError>
        requires { IsLawfulName name.now }
        ensures { OnOk result (IsNothing change ⊎ WasSetAt C.did (C.number (held_value dir.now.held)) (way_in dir.now.below ++ name.now) change) }
    {
        if is_nothing(change) {
            return Ok(());
        }
        self.guarded_place(page, dir, name)?;
        let told = again::set_at(&self.calls, dir.fd(), page, change);
        if is_about_rights(change) {
            self.counts.note_rights();
        }
        match told {
            Ok(()) => Ok(()),
            Err(error) => Err(self.why_not_set(page, dir, name, change, error)),
        }
    }

    /// The failure, or that there is no such thing to be set of what a look shows there: `statx`.
    fn why_not_set(
        &self,
        page: &mut Page,
        dir: &Handle<C>,
        name: &Name,
        change: Change,
        error: DiskError,
    ) -> DiskError
        requires { IsLawfulName name.now }
        ensures { IsWhyNotSet C.did C.guards (C.stamp (held_value dir.now.held)) (C.number (held_value dir.now.held)) dir.now.below name.now change error result }
    {
        match self.look_at(page, dir, name) {
            Ok(stat) => {
                if is_unsupported(stat.kind, change) {
                    DiskError::Failed(unsupported_errno(change))
                } else {
                    error
                }
            }
            Err(_) => error,
        }
    }
}
