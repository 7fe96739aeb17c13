//! Folders that may be entered and not read. No call of the kit opens one, so it is reached by its name, from the nearest folder above that is
//! open. The guard stands before that text, so that no name in it is followed as a link.

ghost use Rattle.std.specs.Prelude.{◌≡◌, ◌++◌, IfOk, OnOk, Some};
ghost use Rattle.disk.specs.Names.{IsLawfulName};
ghost use Rattle.linux_disk.specs.Below.{EntersDir, IsBehind, Reaches, WasLookedAt, WasOpenedDir, WasOpenedDirAt};
ghost use Rattle.linux_disk.specs.Held.{held_value};
ghost use Rattle.linux_disk.specs.Places.{IsBelow, IsReached, way_to};

use crate::again;
use crate::calls::SystemCalls;
use crate::handle::Handle;
use crate::linux::{Linux, page_of};
use crate::page::Page;
use crate::places::{place, place_below, place_way};
use crate::store::FileStore;
use crate::way::Way;
use disk::{DiskError, Stat};
use errno::EACCES;
use paths::Name;
use payload::Kind;

impl<C: SystemCalls + Drop, S: FileStore<Fd = C::Fd> + Drop> Linux<C, S> {
    /// The text leads to the name in the folder.
    pub(crate) fn reach(
        &self,
        page: &mut Page,
        dir: &Handle<C>,
        name: &Name,
    ) -> Result<(), DiskError>
        requires { IsLawfulName name.now }
        ensures reached { OnOk result (IsReached C.guards (C.number (held_value dir.now.held)) page.new) }
        ensures leads { OnOk result (Reaches C.guards (C.number (held_value dir.now.held)) dir.now.below name.now page.new) }
    {
        match &dir.below {
            None => place(page, b"", self.calls.number(dir.fd()), name.as_bytes()),
            Some(way) => self.reach_below(page, dir.fd(), way, name),
        }
    }

    /// The text leads to the name at the end of the way, behind the guard.
    pub(crate) fn reach_below(
        &self,
        page: &mut Page,
        above: &C::Fd,
        way: &Way,
        name: &Name,
    ) -> Result<(), DiskError>
        requires { IsLawfulName name.now }
        ensures below { OnOk result (IsBelow C.guards (C.number above.now) page.new) }
        ensures leads { OnOk result (Reaches C.guards (C.number above.now) (Some way.now) name.now page.new) }
    {
        place_below(
            page,
            self.guard.text.text(),
            self.calls.number(above),
            way.text(),
            name.as_bytes(),
        )
    }

    /// The text leads to the folder at the end of the way, behind the guard.
    pub(crate) fn reach_way(
        &self,
        page: &mut Page,
        above: &C::Fd,
        way: &Way,
    ) -> Result<(), DiskError>
        ensures below { OnOk result (IsBelow C.guards (C.number above.now) page.new) }
        ensures leads { OnOk result (IsBehind C.guards (way_to (C.number above.now) ++ way.now) page.new) }
    {
        place_way(
            page,
            self.guard.text.text(),
            self.calls.number(above),
            way.text(),
        )
    }

    /// What the folder at the end of the way is: `statx`.
    pub(crate) fn inspect_way(
        &self,
        page: &mut Page,
        above: &C::Fd,
        way: &Way,
    ) -> Result<Stat, DiskError>
        ensures { IfOk result (λ stat. WasLookedAt C.did C.guards (way_to (C.number above.now) ++ way.now) stat) }
    {
        self.reach_way(page, above, way)?;
        self.calls.look_at(above, page)
    }

    /// Opens the folder at the end of the way, which may be read by now: `openat`.
    pub(crate) fn open_now(&self, above: &C::Fd, way: &Way) -> Result<C::Fd, DiskError>
        ensures { IfOk result (λ fd. WasOpenedDirAt C.did C.guards (way_to (C.number above.now) ++ way.now) (C.stamp fd)) }
    {
        let mut page = page_of(self.alloc, &self.path)?;
        let told = self.open_way(&mut page, above, way);
        self.path.keep(page);
        told
    }

    /// The same, by that text.
    pub(crate) fn open_way(
        &self,
        page: &mut Page,
        above: &C::Fd,
        way: &Way,
    ) -> Result<C::Fd, DiskError>
        ensures { IfOk result (λ fd. WasOpenedDirAt C.did C.guards (way_to (C.number above.now) ++ way.now) (C.stamp fd)) }
    {
        self.reach_way(page, above, way)?;
        again::open_dir_at(&self.calls, above, page)
    }

    /// Opens the folder at the name: `openat`. One that may not be read (EACCES) is entered, where a look shows it.
    pub(crate) fn open_dir_in(
        &self,
        page: &mut Page,
        dir: &Handle<C>,
        name: &Name,
    ) -> Result<Handle<C>, DiskError>
        requires { IsLawfulName name.now }
        ensures { IfOk result (λ sub. EntersDir C.did C.guards (C.stamp (held_value dir.now.held)) (C.number (held_value dir.now.held)) dir.now.below name.now (C.stamp (held_value sub.held)) sub.below) }
    {
        match self.open_dir_once(page, dir, name) {
            Ok(fd) => Ok(Handle::folder(fd)),
            Err(DiskError::Failed(EACCES)) => self.enter(page, dir, name),
            Err(error) => Err(error),
        }
    }

    /// Opens the folder at the name, which may be read.
    fn open_dir_once(
        &self,
        page: &mut Page,
        dir: &Handle<C>,
        name: &Name,
    ) -> Result<C::Fd, DiskError>
        requires { IsLawfulName name.now }
        ensures { IfOk result (λ fd. WasOpenedDir C.did C.guards (C.stamp (held_value dir.now.held)) (C.number (held_value dir.now.held)) dir.now.below name.now (C.stamp fd)) }
    {
        match &dir.below {
            None => again::open_dir(&self.calls, dir.fd(), name.as_bytes()),
            Some(way) => {
                self.reach_below(page, dir.fd(), way, name)?;
                again::open_dir_at(&self.calls, dir.fd(), page)
            }
        }
    }

    /// The folder at the name, by the way that leads to it: `statx`, and `openat` of the folder where the way begins.
    fn enter(&self, page: &mut Page, dir: &Handle<C>, name: &Name) -> Result<Handle<C>, DiskError>
        requires { IsLawfulName name.now }
        ensures { IfOk result (λ sub. EntersDir C.did C.guards (C.stamp (held_value dir.now.held)) (C.number (held_value dir.now.held)) dir.now.below name.now (C.stamp (held_value sub.held)) sub.below) }
    {
        let stat = self.look_at(page, dir, name)?;
        match stat.kind {
            Some(Kind::Folder) => {
                let way = Way::into(self.alloc, &dir.below, name.as_bytes())?;
                let above = again::open_again(&self.calls, dir.fd())?;
                Ok(Handle::entered(above, way))
            }
            Some(Kind::File | Kind::Link | Kind::Special(_)) | None => Err(DiskError::NotFolder),
        }
    }
}
