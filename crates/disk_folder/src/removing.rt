//! Calls that remove what stands at a path.

ghost use Rattle.std.specs.Prelude.{◌≡◌, ◌++◌, ◌∷◌, [], IfOk};
ghost use Rattle.paths.specs.Prefixes.{Names};
ghost use Rattle.backing.specs.declared.call.Answer.TheVariants.{Done};
ghost use Rattle.backing.specs.Calls.{AskRemove, AskRemoveDir};
ghost use Rattle.disk_folder.specs.Changes.{IsFull, IsNoDir, IsWhyDirStays, IsWhyNotRemoved};
ghost use Rattle.disk_folder.specs.Ends.{Ends};
ghost use Rattle.disk_folder.specs.Standing.{AllStand, IsEntry, IsFolderAt};
ghost use Rattle.disk_folder.specs.Suits.{Suits};

use crate::look::{expect_lawful, look_at, look_in, look_only};
use crate::open_cache::OpenCache;
use crate::opened::Entry;
use crate::trouble::{Reason, Trouble, failure};
use crate::walk::{go_above, open_folder};
use backing::Answer;
use disk::{Disk, DiskError};
use errno::{ENOENT, ENOTDIR, ENOTEMPTY};
use paths::{Name, Path};
use payload::Kind;

/// Why nothing was removed that is no folder.
fn why_not_removed(error: DiskError) -> Trouble
    ensures { IsWhyNotRemoved error result }
{
    match error {
        DiskError::Absent => Trouble::Refused(Reason::Nothing),
        DiskError::IsFolder => Trouble::Refused(Reason::Folder),
        error => failure(error),
    }
}

/// Removes what is no folder from an open folder. A file is closed.
fn remove_file<D: Disk>(
    disk: &mut D,
    cache: &mut OpenCache<D::Handle>,
    entry: &Entry<'_, D::Handle>,
) -> Result<Answer, Trouble>
    requires { IsEntry cache.old entry.now }
    ensures suits { IfOk result (λ answer. answer ≡ Done) }
    ensures ends { (up : Names) → IsFolderAt (D.tree disk.old) (D.stands disk.old) cache.old entry.now.folder up → Ends (D.tree disk.old) (AskRemove (up ++ entry.now.name.now ∷ [])) result (D.tree disk.new) }
    ensures stand { (up : Names) → IsFolderAt (D.tree disk.old) (D.stands disk.old) cache.old entry.now.folder up → AllStand (D.tree disk.new) (D.stands disk.new) cache.new }
{
    let removed = disk.remove_file(&cache.open(&entry.folder).handle, entry.name);
    cache.forget(entry);
    match removed {
        Ok(()) => Ok(Answer::Done),
        Err(error) => Err(why_not_removed(error)),
    }
}

/// The same, behind a look where not all kinds are shown: what is hidden is not removed.
fn remove_in<D: Disk>(
    disk: &mut D,
    cache: &mut OpenCache<D::Handle>,
    entry: &Entry<'_, D::Handle>,
) -> Result<Answer, Trouble>
    requires { IsEntry cache.old entry.now }
    ensures suits { IfOk result (λ answer. answer ≡ Done) }
    ensures ends { (up : Names) → IsFolderAt (D.tree disk.old) (D.stands disk.old) cache.old entry.now.folder up → Ends (D.tree disk.old) (AskRemove (up ++ entry.now.name.now ∷ [])) result (D.tree disk.new) }
    ensures stand { (up : Names) → IsFolderAt (D.tree disk.old) (D.stands disk.old) cache.old entry.now.folder up → AllStand (D.tree disk.new) (D.stands disk.new) cache.new }
{
    if disk.shows_all() {
        return remove_file(disk, cache, entry);
    }
    match look_at(disk, cache, entry) {
        Ok(seen) => match seen.kind {
            Kind::Folder => Err(Trouble::Refused(Reason::Folder)),
            Kind::File | Kind::Link | Kind::Special(_) => remove_file(disk, cache, entry),
        },
        Err(trouble) => Err(trouble),
    }
}

/// Removes what is no folder. A file is closed.
pub fn remove<D: Disk>(
    disk: &mut D,
    cache: &mut OpenCache<D::Handle>,
    path: &Path,
) -> Result<Answer, Trouble>
    ensures suits { IfOk result (Suits (AskRemove path.now)) }
    ensures ends { AllStand (D.tree disk.old) (D.stands disk.old) cache.old → Ends (D.tree disk.old) (AskRemove path.now) result (D.tree disk.new) }
    ensures stand { AllStand (D.tree disk.old) (D.stands disk.old) cache.old → AllStand (D.tree disk.new) (D.stands disk.new) cache.new }
{
    if path.len() == 0 {
        return Err(Trouble::Refused(Reason::Folder));
    }
    match go_above(disk, cache, path) {
        Ok(entry) => remove_in(disk, cache, &entry),
        Err(trouble) => Err(trouble),
    }
}

/// What the disk shows stands at the name.
fn is_shown<D: Disk>(disk: &D, folder: &D::Handle, name: &Name) -> bool {
    match expect_lawful(name) {
        Ok(()) => match look_in(disk, folder, name) {
            Ok(_) => true,
            Err(_) => false,
        },
        Err(_) => false,
    }
}

/// What the disk shows stands at one of the names.
fn shows_any<D: Disk>(disk: &D, folder: &D::Handle, names: &[Name]) -> bool {
    for name in names {
        if is_shown(disk, folder, name) {
            return true;
        }
    }
    false
}

/// Why an open folder was not removed which has names: where all of them are hidden, the call fails.
fn why_full<D: Disk>(disk: &D, folder: &D::Handle) -> Trouble
    ensures { IsFull result }
{
    match disk.list(folder) {
        Ok(names) => {
            if shows_any(disk, folder, names.as_slice()) {
                Trouble::Refused(Reason::Names)
            } else {
                Trouble::Failed(ENOTEMPTY)
            }
        }
        Err(_) => Trouble::Failed(ENOTEMPTY),
    }
}

/// Why a folder was not replaced or removed which has names.
pub fn why_not_empty<D: Disk>(
    disk: &D,
    cache: &OpenCache<D::Handle>,
    entry: &Entry<'_, D::Handle>,
) -> Trouble
    requires { IsEntry cache.now entry.now }
    ensures { IsFull result }
{
    match open_folder(disk, cache, entry) {
        Ok(opened) => why_full(disk, &opened.handle),
        Err(_) => Trouble::Failed(ENOTEMPTY),
    }
}

/// Why the name was not removed as a folder: one look tells what is no folder from what is hidden, which makes the call fail.
fn why_no_dir<D: Disk>(
    disk: &D,
    cache: &OpenCache<D::Handle>,
    entry: &Entry<'_, D::Handle>,
) -> Trouble
    requires { IsEntry cache.now entry.now }
    ensures { IsNoDir result }
{
    match look_only(disk, cache, entry) {
        Ok(seen) => match seen.kind {
            Kind::Folder => Trouble::Failed(ENOTDIR),
            Kind::File | Kind::Link | Kind::Special(_) => Trouble::Refused(Reason::NoFolder),
        },
        Err(_) => Trouble::Failed(ENOENT),
    }
}

/// Why no folder was removed.
fn why_dir_stays<D: Disk>(
    disk: &D,
    cache: &OpenCache<D::Handle>,
    entry: &Entry<'_, D::Handle>,
    error: DiskError,
) -> Trouble
    requires { IsEntry cache.now entry.now }
    ensures { IsWhyDirStays error result }
{
    match error {
        DiskError::Absent => Trouble::Refused(Reason::Nothing),
        DiskError::NotFolder => why_no_dir(disk, cache, entry),
        DiskError::NotEmpty => why_not_empty(disk, cache, entry),
        error => failure(error),
    }
}

/// Removes the folder from an open folder.
fn remove_dir_in<D: Disk>(
    disk: &mut D,
    cache: &mut OpenCache<D::Handle>,
    entry: &Entry<'_, D::Handle>,
) -> Result<Answer, Trouble>
    requires { IsEntry cache.old entry.now }
    ensures suits { IfOk result (λ answer. answer ≡ Done) }
    ensures ends { (up : Names) → IsFolderAt (D.tree disk.old) (D.stands disk.old) cache.old entry.now.folder up → Ends (D.tree disk.old) (AskRemoveDir (up ++ entry.now.name.now ∷ [])) result (D.tree disk.new) }
    ensures stand { (up : Names) → IsFolderAt (D.tree disk.old) (D.stands disk.old) cache.old entry.now.folder up → AllStand (D.tree disk.new) (D.stands disk.new) cache.new }
{
    match disk.remove_dir(&cache.open(&entry.folder).handle, entry.name) {
        Ok(()) => {
            cache.forget(entry);
            Ok(Answer::Done)
        }
        Err(error) => {
            let why = why_dir_stays(disk, cache, entry, error);
            cache.forget(entry);
            Err(why)
        }
    }
}

/// Removes the folder, which has no names, and closes it.
pub fn remove_dir<D: Disk>(
    disk: &mut D,
    cache: &mut OpenCache<D::Handle>,
    path: &Path,
) -> Result<Answer, Trouble>
    ensures suits { IfOk result (Suits (AskRemoveDir path.now)) }
    ensures ends { AllStand (D.tree disk.old) (D.stands disk.old) cache.old → Ends (D.tree disk.old) (AskRemoveDir path.now) result (D.tree disk.new) }
    ensures stand { AllStand (D.tree disk.old) (D.stands disk.old) cache.old → AllStand (D.tree disk.new) (D.stands disk.new) cache.new }
{
    if path.len() == 0 {
        return Err(Trouble::Refused(Reason::Root));
    }
    match go_above(disk, cache, path) {
        Ok(entry) => remove_dir_in(disk, cache, &entry),
        Err(trouble) => Err(trouble),
    }
}
