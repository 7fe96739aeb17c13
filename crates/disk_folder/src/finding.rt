//! The open file at a path.

ghost use Rattle.std.specs.Prelude.{◌≡◌, ◌++◌, ◌∷◌, [], Some, IfOk, IfErr, IfNone, IfSome};
ghost use Rattle.paths.specs.Prefixes.{Names};
ghost use Rattle.path_cache.specs.Cache.{IsAt};
ghost use Rattle.payload.specs.declared.attributes.Kind.TheVariants as kinds;
ghost use Rattle.backing.specs.Checks.{file_tests};
ghost use Rattle.disk_folder.specs.Ends.{IsRefused};
ghost use Rattle.disk_folder.specs.Standing.{AllStand, IsEntry, IsFileAt, IsFolderAt, IsHeldAt, IsOpenFile, KeepsAll, kind_at};
ghost use Rattle.disk_folder.specs.Seen.{IsNoFile};
ghost use Rattle.disk_folder.specs.Troubles.{IsFailure};

use crate::look::look_at;
use crate::open_cache::OpenCache;
use crate::opened::{Entry, Held, Open};
use crate::trouble::{Reason, Trouble, failure};
use crate::walk::{go_above, identified};
use disk::{Access, Disk, DiskError, FileId};
use errno::EIO;
use path_cache::Place;
use paths::Path;
use payload::Kind;

/// Where the path is kept as a file that serves: no call of the system.
pub fn recall_file<'a, D: Disk>(
    cache: &mut OpenCache<D::Handle>,
    path: &'a Path,
    access: Access,
) -> Option<Place<'a>>
    ensures keeps { KeepsAll cache.old cache.new }
    ensures found { IfSome result (λ place. IsAt cache.new.cache place path.now) }
    ensures kind { IfSome result (λ place. kind_at cache.new place ≡ Some kinds.File) }
{
    match cache.recall(path.names()) {
        None => None,
        Some(place) => {
            let opened = cache.cache.value(place);
            match opened.kind {
                Kind::Folder | Kind::Link | Kind::Special(_) => None,
                Kind::File => {
                    if opened.access.serves(access) {
                        Some(place)
                    } else {
                        None
                    }
                }
            }
        }
    }
}

/// Opens the file at the name, to be read and written where that can be.
fn open_for<D: Disk>(
    disk: &D,
    cache: &OpenCache<D::Handle>,
    entry: &Entry<'_, D::Handle>,
    access: Access,
) -> Result<Open<D::Handle>, Trouble>
    requires { IsEntry cache.now entry.now }
    ensures ok { (up : Names) → IsFolderAt (D.tree disk.now) (D.stands disk.now) cache.now entry.now.folder up → IfOk result (IsOpenFile (D.tree disk.now) (D.stands disk.now) (up ++ entry.now.name.now ∷ [])) }
    ensures err { IfErr result IsFailure }
{
    match disk.open_file(&cache.open(&entry.folder).handle, entry.name, Access::Write) {
        Ok(handle) => identified(disk, Kind::File, Access::Write, handle),
        Err(DiskError::Failed(errno)) => match access {
            Access::Write => Err(Trouble::Failed(errno)),
            Access::Read => open_to_read(disk, cache, entry),
        },
        Err(error) => Err(failure(error)),
    }
}

/// Opens the file at the name, to be read alone.
fn open_to_read<D: Disk>(
    disk: &D,
    cache: &OpenCache<D::Handle>,
    entry: &Entry<'_, D::Handle>,
) -> Result<Open<D::Handle>, Trouble>
    requires { IsEntry cache.now entry.now }
    ensures ok { (up : Names) → IsFolderAt (D.tree disk.now) (D.stands disk.now) cache.now entry.now.folder up → IfOk result (IsOpenFile (D.tree disk.now) (D.stands disk.now) (up ++ entry.now.name.now ∷ [])) }
    ensures err { IfErr result IsFailure }
{
    match disk.open_file(&cache.open(&entry.folder).handle, entry.name, Access::Read) {
        Ok(handle) => identified(disk, Kind::File, Access::Read, handle),
        Err(error) => Err(failure(error)),
    }
}

/// Opens the file at the name, if that is the one that a look has shown.
pub fn open_same<D: Disk>(
    disk: &D,
    cache: &OpenCache<D::Handle>,
    entry: &Entry<'_, D::Handle>,
    id: FileId,
    access: Access,
) -> Result<Open<D::Handle>, Trouble>
    requires { IsEntry cache.now entry.now }
    ensures ok { (up : Names) → IsFolderAt (D.tree disk.now) (D.stands disk.now) cache.now entry.now.folder up → IfOk result (IsOpenFile (D.tree disk.now) (D.stands disk.now) (up ++ entry.now.name.now ∷ [])) }
    ensures same { IfOk result (λ opened. opened.id ≡ Some id) }
    ensures err { IfErr result IsFailure }
{
    match open_for(disk, cache, entry, access) {
        Ok(opened) => {
            if opened.is(&id) {
                Ok(opened)
            } else {
                Err(Trouble::Failed(EIO))
            }
        }
        Err(trouble) => Err(trouble),
    }
}

/// Keeps an open file, unless the system itself does.
fn keep_file<'a, D: Disk>(
    disk: &D,
    cache: &mut OpenCache<D::Handle>,
    entry: Entry<'a, D::Handle>,
    opened: Open<D::Handle>,
) -> Result<Held<'a, D::Handle>, Trouble>
    ensures held { (up : Names) → IsHeldAt cache.old entry.entry.folder up → IfOk result (λ held. IsHeldAt cache.new held (up ++ entry.entry.name.now ∷ [])) }
    ensures ok { (up : Names) → IsFolderAt (D.tree disk.now) (D.stands disk.now) cache.old entry.entry.folder up → IsOpenFile (D.tree disk.now) (D.stands disk.now) (up ++ entry.entry.name.now ∷ []) opened → IfOk result (λ held. IsFileAt (D.tree disk.now) (D.stands disk.now) cache.new held (up ++ entry.entry.name.now ∷ [])) }
    ensures stand { (up : Names) → IsFolderAt (D.tree disk.now) (D.stands disk.now) cache.old entry.entry.folder up → IsOpenFile (D.tree disk.now) (D.stands disk.now) (up ++ entry.entry.name.now ∷ []) opened → AllStand (D.tree disk.now) (D.stands disk.now) cache.new }
    ensures err { IfErr result IsFailure }
{
    if disk.keeps_files() {
        Ok(cache.hold(&entry, opened))
    } else {
        cache.keep(&entry, opened)
    }
}

/// Opens the file at the name that a look has shown, and keeps it.
pub fn open_and_keep<'a, D: Disk>(
    disk: &D,
    cache: &mut OpenCache<D::Handle>,
    entry: Entry<'a, D::Handle>,
    id: FileId,
    access: Access,
) -> Result<Held<'a, D::Handle>, Trouble>
    requires { IsEntry cache.old entry }
    ensures held { (up : Names) → IsHeldAt cache.old entry.entry.folder up → IfOk result (λ held. IsHeldAt cache.new held (up ++ entry.entry.name.now ∷ [])) }
    ensures ok { (up : Names) → IsFolderAt (D.tree disk.now) (D.stands disk.now) cache.old entry.entry.folder up → IfOk result (λ held. IsFileAt (D.tree disk.now) (D.stands disk.now) cache.new held (up ++ entry.entry.name.now ∷ [])) }
    ensures stand { (up : Names) → IsFolderAt (D.tree disk.now) (D.stands disk.now) cache.old entry.entry.folder up → AllStand (D.tree disk.now) (D.stands disk.now) cache.new }
    ensures err { IfErr result IsFailure }
{
    match open_same(disk, cache, &entry, id, access) {
        Ok(opened) => keep_file(disk, cache, entry, opened),
        Err(trouble) => Err(trouble),
    }
}

/// The file at the name that the system itself keeps open, for the length of the call: no look.
fn find_kept<'a, D: Disk>(
    disk: &D,
    cache: &mut OpenCache<D::Handle>,
    entry: &Entry<'a, D::Handle>,
    access: Access,
) -> Option<Held<'a, D::Handle>>
    requires { IsEntry cache.old entry.now }
    ensures held { (up : Names) → IsHeldAt cache.old entry.now.folder up → IfSome result (λ held. IsHeldAt cache.new held (up ++ entry.now.name.now ∷ [])) }
    ensures ok { (up : Names) → IsFolderAt (D.tree disk.now) (D.stands disk.now) cache.old entry.now.folder up → IfSome result (λ held. IsFileAt (D.tree disk.now) (D.stands disk.now) cache.new held (up ++ entry.now.name.now ∷ [])) }
    ensures none { IfNone result (cache.new ≡ cache.old) }
{
    match disk.find_open(&cache.open(&entry.folder).handle, entry.name, access) {
        None => None,
        Some(handle) => {
            let opened = Open {
                kind: Kind::File,
                id: None,
                access,
                handle,
            };
            Some(cache.hold(entry, opened))
        }
    }
}

/// The open file at the name: one that the system keeps open, or else behind a look.
pub fn find_in<'a, D: Disk>(
    disk: &D,
    cache: &mut OpenCache<D::Handle>,
    entry: Entry<'a, D::Handle>,
    access: Access,
) -> Result<Held<'a, D::Handle>, Trouble>
    requires { IsEntry cache.old entry }
    ensures held { (up : Names) → IsHeldAt cache.old entry.entry.folder up → IfOk result (λ held. IsHeldAt cache.new held (up ++ entry.entry.name.now ∷ [])) }
    ensures ok { (up : Names) → IsFolderAt (D.tree disk.now) (D.stands disk.now) cache.old entry.entry.folder up → IfOk result (λ held. IsFileAt (D.tree disk.now) (D.stands disk.now) cache.new held (up ++ entry.entry.name.now ∷ [])) }
    ensures stand { (up : Names) → IsFolderAt (D.tree disk.now) (D.stands disk.now) cache.old entry.entry.folder up → AllStand (D.tree disk.now) (D.stands disk.now) cache.new }
    ensures err { (up : Names) → IsFolderAt (D.tree disk.now) (D.stands disk.now) cache.old entry.entry.folder up → IfErr result (IsNoFile (D.tree disk.now) (up ++ entry.entry.name.now ∷ [])) }
{
    match find_kept(disk, cache, &entry, access) {
        Some(held) => Ok(held),
        None => find_seen(disk, cache, entry, access),
    }
}

/// The open file at the name, behind a look. What is neither a file nor a folder is not opened.
fn find_seen<'a, D: Disk>(
    disk: &D,
    cache: &mut OpenCache<D::Handle>,
    entry: Entry<'a, D::Handle>,
    access: Access,
) -> Result<Held<'a, D::Handle>, Trouble>
    requires { IsEntry cache.old entry }
    ensures held { (up : Names) → IsHeldAt cache.old entry.entry.folder up → IfOk result (λ held. IsHeldAt cache.new held (up ++ entry.entry.name.now ∷ [])) }
    ensures ok { (up : Names) → IsFolderAt (D.tree disk.now) (D.stands disk.now) cache.old entry.entry.folder up → IfOk result (λ held. IsFileAt (D.tree disk.now) (D.stands disk.now) cache.new held (up ++ entry.entry.name.now ∷ [])) }
    ensures stand { (up : Names) → IsFolderAt (D.tree disk.now) (D.stands disk.now) cache.old entry.entry.folder up → AllStand (D.tree disk.now) (D.stands disk.now) cache.new }
    ensures err { (up : Names) → IsFolderAt (D.tree disk.now) (D.stands disk.now) cache.old entry.entry.folder up → IfErr result (IsNoFile (D.tree disk.now) (up ++ entry.entry.name.now ∷ [])) }
{
    match look_at(disk, cache, &entry) {
        Ok(seen) => match seen.kind {
            Kind::Folder => Err(Trouble::Refused(Reason::Folder)),
            Kind::File => open_and_keep(disk, cache, entry, seen.id, access),
            Kind::Link | Kind::Special(_) => Err(Trouble::Refused(Reason::NoFile)),
        },
        Err(trouble) => Err(trouble),
    }
}

/// The open file at the path, which is not kept.
fn find_there<'a, D: Disk>(
    disk: &D,
    cache: &mut OpenCache<D::Handle>,
    path: &'a Path,
    access: Access,
) -> Result<Held<'a, D::Handle>, Trouble>
    ensures held { IfOk result (λ held. IsHeldAt cache.new held path.now) }
    ensures ok { AllStand (D.tree disk.now) (D.stands disk.now) cache.old → IfOk result (λ held. IsFileAt (D.tree disk.now) (D.stands disk.now) cache.new held path.now) }
    ensures stand { AllStand (D.tree disk.now) (D.stands disk.now) cache.old → AllStand (D.tree disk.now) (D.stands disk.now) cache.new }
    ensures err { AllStand (D.tree disk.now) (D.stands disk.now) cache.old → IfErr result (IsRefused (D.tree disk.now) (file_tests path.now)) }
{
    if path.len() == 0 {
        return Err(Trouble::Refused(Reason::Folder));
    }
    match go_above(disk, cache, path) {
        Ok(entry) => find_in(disk, cache, entry, access),
        Err(trouble) => Err(trouble),
    }
}

/// The open file at the path: no call of the system where it is kept.
pub fn find_file<'a, D: Disk>(
    disk: &D,
    cache: &mut OpenCache<D::Handle>,
    path: &'a Path,
    access: Access,
) -> Result<Held<'a, D::Handle>, Trouble>
    ensures held { IfOk result (λ held. IsHeldAt cache.new held path.now) }
    ensures ok { AllStand (D.tree disk.now) (D.stands disk.now) cache.old → IfOk result (λ held. IsFileAt (D.tree disk.now) (D.stands disk.now) cache.new held path.now) }
    ensures stand { AllStand (D.tree disk.now) (D.stands disk.now) cache.old → AllStand (D.tree disk.now) (D.stands disk.now) cache.new }
    ensures err { AllStand (D.tree disk.now) (D.stands disk.now) cache.old → IfErr result (IsRefused (D.tree disk.now) (file_tests path.now)) }
{
    // No file is kept here then.
    if disk.keeps_files() {
        return find_there(disk, cache, path, access);
    }
    match recall_file::<D>(cache, path, access) {
        Some(place) => Ok(Held::Kept(place)),
        None => find_there(disk, cache, path, access),
    }
}
