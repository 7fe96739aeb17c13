//! Whether somebody else may change the names in a folder.

ghost use Rattle.std.specs.Prelude.{◌≡◌, ◌↔◌, ◌++◌, IsTrue, IfOk, OnOk};
ghost use Rattle.disk.specs.Names.{IsLawfulName};
ghost use Rattle.linux_disk.specs.Held.{held_value};
ghost use Rattle.linux_disk.specs.Below.{WasInspected};
ghost use Rattle.linux_disk.specs.Calls.{Inspected};
ghost use Rattle.linux_disk.specs.Places.{IsPrivate, IsSafe, WasPrivate};
ghost use Rattle.linux_disk.specs.Steps.{Leads};
ghost use Rattle.linux_disk.specs.Ways.{way_in};

use crate::calls::SystemCalls;
use crate::handle::{Handle, Seen};
use crate::keeping::TRUSTED;
use crate::linux::Linux;
use crate::page::Page;
use crate::places::place;
use crate::store::FileStore;
use disk::{DiskError, Stat};
use paths::Name;
use std::marker::PhantomData;

/// The bits by which a folder's group and others may write in it.
const OTHERS_WRITE: u32 = 0o022;

/// Whether the folder is that user's, and neither its group nor others may write in it.
fn is_private(stat: &Stat, user: u32) -> bool
    ensures { IsTrue result ↔ IsPrivate user stat.now }
{
    stat.details.uid == user && stat.details.permissions & OTHERS_WRITE == 0
}

/// What a look at the open folder has shown.
fn seen_of<C: SystemCalls>(calls: &C, dir: &C::Fd, stat: &Stat, rights: u64) -> Seen<C>
    requires { C.did (Inspected (C.stamp dir.now) stat.now) }
{
    let user = calls.user();
    Seen {
        stamp: calls.stamp(dir),
        id: stat.id,
        user,
        is_private: is_private(stat, user),
        rights,
        at: calls.milliseconds(),
        told_by: PhantomData,
    }
}

impl<C: SystemCalls + Drop, S: FileStore<Fd = C::Fd> + Drop> Linux<C, S> {
    /// What is open. It is kept of a folder, but not of one that is reached by its name, where another one may stand the next time.
    pub(crate) fn inspect_open(
        &self,
        page: &mut Page,
        handle: &Handle<C>,
    ) -> Result<Stat, DiskError>
        ensures { IfOk result (λ stat. WasInspected C.did C.guards (C.stamp (held_value handle.now.held)) (C.number (held_value handle.now.held)) handle.now.below stat) }
    {
        match &handle.below {
            None => self.inspect_itself(page, handle),
            Some(way) => self.inspect_way(page, handle.fd(), way),
        }
    }

    /// What is open itself, which is kept of a folder.
    fn inspect_itself(&self, page: &mut Page, handle: &Handle<C>) -> Result<Stat, DiskError>
        ensures { IfOk result (λ stat. C.did (Inspected (C.stamp (held_value handle.now.held)) stat)) }
    {
        let rights = self.counts.rights();
        page.clear();
        let stat = self.calls.inspect(handle.fd(), page)?;
        if handle.is_folder {
            let seen = seen_of(&self.calls, handle.fd(), &stat, rights);
            handle.seen.set(Some(seen));
        }
        Ok(stat)
    }

    /// Whether nobody else may change the names in the folder: as it was seen within a second, or by a look if the rights of a folder were set
    /// since.
    fn is_private(&self, page: &mut Page, dir: &Handle<C>) -> Result<bool, DiskError>
        ensures { IfOk result (λ safe. IsTrue safe → ∥ WasPrivate C.did (C.user self.now.calls) (C.stamp (held_value dir.now.held)) ∥₁) }
    {
        if let Some(seen) = dir.seen.replace(None) {
            let safe = seen.is_private;
            if self.is_fresh(dir, &seen) {
                dir.seen.set(Some(seen));
                return Ok(safe);
            }
        }
        let stat = self.inspect_itself(page, dir)?;
        Ok(is_private(&stat, self.calls.user()))
    }

    /// Whether that was seen of this very folder within a second, and no rights were set by us since.
    fn is_fresh(&self, dir: &Handle<C>, seen: &Seen<C>) -> bool
        ensures stamp { IsTrue result → seen.now.stamp ≡ C.stamp (held_value dir.now.held) }
        ensures user { IsTrue result → seen.now.user ≡ C.user self.now.calls }
    {
        seen.stamp == self.calls.stamp(dir.fd())
            && seen.user == self.calls.user()
            && seen.rights == self.counts.rights()
            && self.calls.milliseconds().saturating_sub(seen.at) <= TRUSTED
    }

    /// The text leads to the name in the folder and follows no link there: behind the guard, where somebody else may put a link in the folder.
    pub(crate) fn safe_place(
        &self,
        page: &mut Page,
        dir: &Handle<C>,
        name: &Name,
    ) -> Result<(), DiskError>
        requires { IsLawfulName name.now }
        ensures safe { OnOk result (IsSafe C.guards C.did (C.user self.now.calls) (C.number (held_value dir.now.held)) (C.stamp (held_value dir.now.held)) page.new) }
        ensures leads { OnOk result (Leads (C.number (held_value dir.now.held)) (way_in dir.now.below ++ name.now) page.new) }
    {
        match &dir.below {
            None => {
                if self.is_private(page, dir)? {
                    let number = self.calls.number(dir.fd());
                    place(page, b"", number, name.as_bytes())
                } else {
                    self.guarded_place(page, dir, name)
                }
            }
            Some(_) => self.guarded_place(page, dir, name),
        }
    }

    /// The same behind the guard, whoever may write in the folder.
    pub(crate) fn guarded_place(
        &self,
        page: &mut Page,
        dir: &Handle<C>,
        name: &Name,
    ) -> Result<(), DiskError>
        requires { IsLawfulName name.now }
        ensures safe { OnOk result (IsSafe C.guards C.did (C.user self.now.calls) (C.number (held_value dir.now.held)) (C.stamp (held_value dir.now.held)) page.new) }
        ensures leads { OnOk result (Leads (C.number (held_value dir.now.held)) (way_in dir.now.below ++ name.now) page.new) }
    {
        let guard = self.guard.text.text();
        let number = self.calls.number(dir.fd());
        match &dir.below {
            None => place(page, guard, number, name.as_bytes()),
            Some(way) => self.reach_below(page, dir.fd(), way, name),
        }
    }
}
