//! Calls on files that may be kept open.

ghost use Rattle.std.specs.Prelude.{◌≡◌, ◌++◌, false, IfOk, OnOk};
ghost use Rattle.disk.specs.Names.{IsLawfulName};
ghost use Rattle.linux_disk.specs.Below.{Reaches, WasLinked, WasMadeFile, WasRemovedFile, WasRenamed};
ghost use Rattle.linux_disk.specs.Held.{held_value};
ghost use Rattle.linux_disk.specs.Steps.{HasBits, WasOpened, bits_of};
ghost use Rattle.linux_disk.specs.Ways.{way_in};

use crate::calls::SystemCalls;
use crate::files::KeptFile;
use crate::handle::Handle;
use crate::held::Held;
use crate::keys::Query;
use crate::linux::{Linux, page_of};
use crate::making::may_be_done;
use crate::page::Page;
use crate::store::FileStore;
use disk::{Access, DiskError, FileId};
use errno::ENOMEM;
use paths::Name;
use std::sync::Arc;

/// How long what was seen is taken to be so without a look, in milliseconds: that a file that is kept open stands under its name, and that nobody
/// else may change the names in a folder.
pub(crate) const TRUSTED: u64 = 1_000;

impl<C: SystemCalls + Drop, S: FileStore<Fd = C::Fd> + Drop> Linux<C, S> {
    /// Opens the file at the name, or takes it where it is kept open.
    pub(crate) fn open_at(
        &self,
        page: &mut Page,
        dir: &Handle<C>,
        name: &Name,
        access: Access,
    ) -> Result<Handle<C>, DiskError>
        requires { IsLawfulName name.now }
        ensures { S.keeps self.now.store ≡ false → IfOk result (λ file. WasOpened C.did (C.number (held_value dir.now.held)) (way_in dir.now.below ++ name.now) access (C.stamp (held_value file.held))) }
    {
        if self.store.keeps() {
            return self.open_kept(page, dir, name, access);
        }
        let fd = self.open_new(page, dir, name, access)?;
        Ok(Handle::file(Held::Own(fd)))
    }

    /// The file that is kept open and stands under the name, or else what is opened. That is kept if a look then shows it there: a link that
    /// was followed is not.
    fn open_kept(
        &self,
        page: &mut Page,
        dir: &Handle<C>,
        name: &Name,
        access: Access,
    ) -> Result<Handle<C>, DiskError>
        requires { IsLawfulName name.now }
    {
        let query = Query::new(self.id_of(page, dir)?, name);
        if let Some(kept) = self.store.find(query, access) {
            if self.is_there(page, dir, query, &kept) {
                let KeptFile { file, .. } = kept;
                return Ok(Handle::file(Held::Shared(file)));
            }
        }
        let moves = self.store.moves();
        let fd = self.open_new(page, dir, name, access)?;
        match self.shows(page, dir, name, &fd) {
            Some(true) => self.keep_open(query, fd, access, moves),
            _ => Ok(Handle::file(Held::Own(fd))),
        }
    }

    /// The handle of what was opened, which is kept open too.
    fn keep_open(
        &self,
        query: Query<'_>,
        fd: C::Fd,
        access: Access,
        moves: u64,
    ) -> Result<Handle<C>, DiskError>
        ensures { IfOk result (λ file. held_value file.held ≡ fd) }
    {
        let Ok(file) = Arc::new(self.alloc, fd) else {
            return Err(DiskError::Failed(ENOMEM));
        };
        if let Ok(copy) = Arc::try_clone(&file) {
            let kept = KeptFile {
                file: copy,
                access,
                seen: self.calls.milliseconds(),
            };
            self.store.put(query, kept, moves);
        }
        Ok(Handle::file(Held::Shared(file)))
    }

    /// The file that is kept open under the name.
    pub(crate) fn find_kept(
        &self,
        page: &mut Page,
        dir: &Handle<C>,
        name: &Name,
        access: Access,
    ) -> Option<Handle<C>>
        requires { IsLawfulName name.now }
    {
        let query = Query::new(self.id_of(page, dir).ok()?, name);
        let kept = self.store.find(query, access)?;
        if self.is_still_there(page, dir, query, &kept) {
            let KeptFile { file, .. } = kept;
            Some(Handle::file(Held::Shared(file)))
        } else {
            None
        }
    }

    /// Whether the file that is kept stands under its name: as it was seen within a second, or by a look.
    fn is_still_there(
        &self,
        page: &mut Page,
        dir: &Handle<C>,
        query: Query<'_>,
        kept: &KeptFile<C::Fd>,
    ) -> bool
        requires { IsLawfulName query.name.now }
    {
        let now = self.calls.milliseconds();
        now.saturating_sub(kept.seen) <= TRUSTED || self.is_there(page, dir, query, kept)
    }

    /// Whether a look shows the file that is kept under its name. One that is not there is not kept any more. Where the system does not tell,
    /// as where rights are missing, it is taken to be there.
    fn is_there(
        &self,
        page: &mut Page,
        dir: &Handle<C>,
        query: Query<'_>,
        kept: &KeptFile<C::Fd>,
    ) -> bool
        requires { IsLawfulName query.name.now }
    {
        match self.shows(page, dir, query.name, &kept.file) {
            Some(false) => {
                self.store.forget(query);
                false
            }
            _ => {
                self.store.touch(query, self.calls.milliseconds());
                true
            }
        }
    }

    /// Whether the name leads to that file: two calls of `statx`. None where the system does not tell.
    fn shows(&self, page: &mut Page, dir: &Handle<C>, name: &Name, file: &C::Fd) -> Option<bool>
        requires { IsLawfulName name.now }
    {
        match self.look_at(page, dir, name) {
            Ok(there) => {
                page.clear();
                match self.calls.inspect(file, page) {
                    Ok(own) => Some(own.id.is(&there.id)),
                    Err(_) => Some(false),
                }
            }
            Err(DiskError::Absent) => Some(false),
            Err(_) => None,
        }
    }

    /// Makes an empty file, which may be kept open.
    pub(crate) fn make_file_at(
        &self,
        page: &mut Page,
        dir: &Handle<C>,
        name: &Name,
        permissions: Option<u32>,
    ) -> Result<Handle<C>, DiskError>
        requires { IsLawfulName name.now }
        ensures made { IfOk result (λ file. WasMadeFile C.did C.guards (C.number (held_value dir.now.held)) dir.now.below name.now (bits_of 438 permissions) (C.stamp (held_value file.held))) }
        ensures bits { IfOk result (λ file. HasBits C.did (C.mask self.now.calls) (C.stamp (held_value file.held)) permissions) }
    {
        if !self.store.keeps() {
            let fd = self.make_new(page, dir, name, permissions)?;
            return Ok(Handle::file(Held::Own(fd)));
        }
        let query = Query::new(self.id_of(page, dir)?, name);
        let moves = self.store.moves();
        let fd = self.make_new(page, dir, name, permissions)?;
        self.keep_open(query, fd, Access::Write, moves)
    }

    /// Removes what is no folder, which is not kept open any more.
    pub(crate) fn remove_file_at(&self, dir: &Handle<C>, name: &Name) -> Result<(), DiskError>
        requires { IsLawfulName name.now }
        ensures { OnOk result (WasRemovedFile C.did C.guards (C.stamp (held_value dir.now.held)) (C.number (held_value dir.now.held)) dir.now.below name.now) }
    {
        if !self.store.keeps() {
            return self.unlink(dir, name);
        }
        let folder = self.id_by_page(dir)?;
        let told = self.unlink(dir, name);
        if may_be_done(&told) {
            self.store.forget(Query::new(folder, name));
        }
        told
    }

    /// Gives what stands at the name another one, under which it may stay open.
    pub(crate) fn rename_at(
        &self,
        pages: (&mut Page, &mut Page),
        from_dir: &Handle<C>,
        from: &Name,
        to_dir: &Handle<C>,
        to: &Name,
    ) -> Result<(), DiskError>
        requires from { IsLawfulName from.now }
        requires to { IsLawfulName to.now }
        ensures { OnOk result (WasRenamed C.did (Reaches C.guards (C.number (held_value from_dir.now.held)) from_dir.now.below from.now) (Reaches C.guards (C.number (held_value to_dir.now.held)) to_dir.now.below to.now)) }
    {
        if !self.store.keeps() {
            return self.move_name(pages, from_dir, from, to_dir, to);
        }
        let (old, new) = pages;
        let from_key = Query::new(self.id_of(old, from_dir)?, from);
        let to_key = Query::new(self.id_of(new, to_dir)?, to);
        let told = self.move_name((old, new), from_dir, from, to_dir, to);
        match &told {
            Ok(()) => self.store.relocate(from_key, to_key),
            Err(DiskError::Failed(_)) => {
                self.store.forget(from_key);
                self.store.forget(to_key);
            }
            Err(_) => {}
        }
        told
    }

    /// Gives what stands at the name a further one, under which nothing else is kept open any more.
    pub(crate) fn link_at(
        &self,
        pages: (&mut Page, &mut Page),
        from_dir: &Handle<C>,
        from: &Name,
        to_dir: &Handle<C>,
        to: &Name,
    ) -> Result<(), DiskError>
        requires from { IsLawfulName from.now }
        requires to { IsLawfulName to.now }
        ensures { OnOk result (WasLinked C.did (Reaches C.guards (C.number (held_value from_dir.now.held)) from_dir.now.below from.now) (Reaches C.guards (C.number (held_value to_dir.now.held)) to_dir.now.below to.now)) }
    {
        if !self.store.keeps() {
            return self.link_name(pages, from_dir, from, to_dir, to);
        }
        let (old, new) = pages;
        let key = Query::new(self.id_of(new, to_dir)?, to);
        let told = self.link_name((old, new), from_dir, from, to_dir, to);
        if may_be_done(&told) {
            self.store.forget(key);
        }
        told
    }

    /// The numbers of the open folder: as they were seen, or by a look.
    fn id_of(&self, page: &mut Page, dir: &Handle<C>) -> Result<FileId, DiskError> {
        if let Some(seen) = dir.seen.replace(None) {
            let id = seen.id;
            dir.seen.set(Some(seen));
            return Ok(id);
        }
        let stat = self.inspect_open(page, dir)?;
        Ok(stat.id)
    }

    /// The same with a page that is kept.
    fn id_by_page(&self, dir: &Handle<C>) -> Result<FileId, DiskError> {
        let mut page = page_of(self.alloc, &self.path)?;
        let told = self.id_of(&mut page, dir);
        self.path.keep(page);
        told
    }
}
