//! The way down to a path, from open folder to open folder.

ghost use Rattle.std.specs.Prelude.{ℕ, ◌≡◌, ◌++◌, ◌∷◌, [], IfOk, IfErr, IfSome, Some};
ghost use Rattle.paths.specs.Prefixes.{Names};
ghost use Rattle.path_cache.specs.Cache.{IsAt};
ghost use Rattle.payload.specs.declared.attributes.Kind.TheVariants as kinds;
ghost use Rattle.disk_folder.specs.Standing.{AllStand, IsEntry, IsEntryOf, IsFolderAt, IsHeld, IsHeldAt, IsKeptEntry, IsOpenFolder, StandsIn, kind_at};
ghost use Rattle.disk_folder.specs.Troubles.{IsBarred, IsBlocked, IsFailure, IsStopped};

use crate::look::{expect_lawful, look_at, look_only};
use crate::open_cache::OpenCache;
use crate::opened::{Entry, Held, KeptEntry, Open};
use crate::trouble::{Reason, Trouble, failure};
use disk::{Access, Disk, DiskError};
use errno::{EIO, ENOTDIR};
use path_cache::Place;
use paths::{Name, Path};
use payload::Kind;

/// What was opened, with which one it is: one `fstat`.
pub fn identified<D: Disk>(
    disk: &D,
    kind: Kind,
    access: Access,
    handle: D::Handle,
) -> Result<Open<D::Handle>, Trouble>
    ensures ok { IfOk result (λ opened. (opened.kind ≡ kind) × (opened.handle ≡ handle)) }
    ensures access { IfOk result (λ opened. opened.access ≡ access) }
    ensures err { IfErr result IsFailure }
{
    match disk.inspect(&handle) {
        Ok(stat) => Ok(Open {
            kind,
            id: Some(stat.id),
            access,
            handle,
        }),
        Err(error) => Err(failure(error)),
    }
}

/// Why the name was not opened as a folder: one look tells what is no folder from what is absent.
pub fn why_no_folder<D: Disk>(
    disk: &D,
    cache: &OpenCache<D::Handle>,
    entry: &Entry<'_, D::Handle>,
) -> Trouble
    requires { IsEntry cache.now entry.now }
    ensures { (up : Names) → IsFolderAt (D.tree disk.now) (D.stands disk.now) cache.now entry.now.folder up → IsBlocked (D.tree disk.now) (up ++ entry.now.name.now ∷ []) result }
{
    match look_only(disk, cache, entry) {
        Ok(seen) => match seen.kind {
            Kind::Folder => Trouble::Failed(ENOTDIR),
            Kind::File | Kind::Link | Kind::Special(_) => Trouble::Refused(Reason::NoFolder),
        },
        Err(trouble) => trouble,
    }
}

/// Opens the folder at the name.
pub fn open_folder<D: Disk>(
    disk: &D,
    cache: &OpenCache<D::Handle>,
    entry: &Entry<'_, D::Handle>,
) -> Result<Open<D::Handle>, Trouble>
    requires { IsEntry cache.now entry.now }
    ensures ok { (up : Names) → IsFolderAt (D.tree disk.now) (D.stands disk.now) cache.now entry.now.folder up → IfOk result (IsOpenFolder (D.tree disk.now) (D.stands disk.now) (up ++ entry.now.name.now ∷ [])) }
    ensures err { (up : Names) → IsFolderAt (D.tree disk.now) (D.stands disk.now) cache.now entry.now.folder up → IfErr result (IsBlocked (D.tree disk.now) (up ++ entry.now.name.now ∷ [])) }
{
    match disk.open_dir(&cache.open(&entry.folder).handle, entry.name) {
        Ok(handle) => identified(disk, Kind::Folder, Access::Read, handle),
        Err(DiskError::Absent) => Err(Trouble::Refused(Reason::Nothing)),
        Err(DiskError::NotFolder) => Err(why_no_folder(disk, cache, entry)),
        Err(error) => Err(failure(error)),
    }
}

/// Opens the folder at the name, and keeps it.
fn open_and_keep<'a, D: Disk>(
    disk: &D,
    cache: &mut OpenCache<D::Handle>,
    entry: Entry<'a, D::Handle>,
) -> Result<Held<'a, D::Handle>, Trouble>
    requires { IsEntry cache.old entry }
    ensures held { (up : Names) → IsHeldAt cache.old entry.entry.folder up → IfOk result (λ held. IsHeldAt cache.new held (up ++ entry.entry.name.now ∷ [])) }
    ensures ok { (up : Names) → IsFolderAt (D.tree disk.now) (D.stands disk.now) cache.old entry.entry.folder up → IfOk result (λ held. IsFolderAt (D.tree disk.now) (D.stands disk.now) cache.new held (up ++ entry.entry.name.now ∷ [])) }
    ensures stand { (up : Names) → IsFolderAt (D.tree disk.now) (D.stands disk.now) cache.old entry.entry.folder up → AllStand (D.tree disk.now) (D.stands disk.now) cache.new }
    ensures err { (up : Names) → IsFolderAt (D.tree disk.now) (D.stands disk.now) cache.old entry.entry.folder up → IfErr result (IsBlocked (D.tree disk.now) (up ++ entry.entry.name.now ∷ [])) }
{
    match open_folder(disk, cache, &entry) {
        Ok(opened) => cache.keep(&entry, opened),
        Err(trouble) => Err(trouble),
    }
}

/// Where the name is kept as a folder that is used. One that was not looked at for a while is looked at once more.
fn revisit<'a, D: Disk>(
    disk: &D,
    cache: &mut OpenCache<D::Handle>,
    entry: &Entry<'a, D::Handle>,
) -> Option<Place<'a>>
    requires { IsEntry cache.old entry.now }
    ensures found { (up : Names) → IsHeldAt cache.old entry.now.folder up → IfSome result (λ place. IsAt cache.new.cache place (up ++ entry.now.name.now ∷ [])) }
    ensures kind { IfSome result (λ place. kind_at cache.new place ≡ Some kinds.Folder) }
    ensures stand { AllStand (D.tree disk.now) (D.stands disk.now) cache.old → AllStand (D.tree disk.now) (D.stands disk.now) cache.new }
    ensures held { (up : Names) → IsHeldAt cache.old entry.now.folder up → IsHeldAt cache.new entry.now.folder up }
{
    match cache.child(&entry.folder, entry.name) {
        None => None,
        Some(_) => look_again(disk, cache, entry),
    }
}

/// Where the name is kept as a folder that one more look has shown.
fn look_again<'a, D: Disk>(
    disk: &D,
    cache: &mut OpenCache<D::Handle>,
    entry: &Entry<'a, D::Handle>,
) -> Option<Place<'a>>
    requires { IsEntry cache.old entry.now }
    ensures found { (up : Names) → IsHeldAt cache.old entry.now.folder up → IfSome result (λ place. IsAt cache.new.cache place (up ++ entry.now.name.now ∷ [])) }
    ensures kind { IfSome result (λ place. kind_at cache.new place ≡ Some kinds.Folder) }
    ensures stand { AllStand (D.tree disk.now) (D.stands disk.now) cache.old → AllStand (D.tree disk.now) (D.stands disk.now) cache.new }
    ensures held { (up : Names) → IsHeldAt cache.old entry.now.folder up → IsHeldAt cache.new entry.now.folder up }
{
    let _ = look_at(disk, cache, entry);
    cache.trusted_folder(&entry.folder, entry.name)
}

/// Goes down by a name of which no folder is kept that is trusted.
pub fn enter_entry<'a, D: Disk>(
    disk: &D,
    cache: &mut OpenCache<D::Handle>,
    entry: Entry<'a, D::Handle>,
) -> Result<Held<'a, D::Handle>, Trouble>
    requires { IsEntry cache.old entry }
    ensures held { (up : Names) → IsHeldAt cache.old entry.entry.folder up → IfOk result (λ held. IsHeldAt cache.new held (up ++ entry.entry.name.now ∷ [])) }
    ensures ok { (up : Names) → IsFolderAt (D.tree disk.now) (D.stands disk.now) cache.old entry.entry.folder up → IfOk result (λ held. IsFolderAt (D.tree disk.now) (D.stands disk.now) cache.new held (up ++ entry.entry.name.now ∷ [])) }
    ensures stand { (up : Names) → IsFolderAt (D.tree disk.now) (D.stands disk.now) cache.old entry.entry.folder up → AllStand (D.tree disk.now) (D.stands disk.now) cache.new }
    ensures err { (up : Names) → IsFolderAt (D.tree disk.now) (D.stands disk.now) cache.old entry.entry.folder up → IfErr result (IsBlocked (D.tree disk.now) (up ++ entry.entry.name.now ∷ [])) }
{
    match revisit(disk, cache, &entry) {
        Some(place) => Ok(Held::Kept(place)),
        None => open_and_keep(disk, cache, entry),
    }
}

/// Goes down by one name, to a folder.
fn enter<'a, D: Disk>(
    disk: &D,
    cache: &mut OpenCache<D::Handle>,
    folder: Held<'a, D::Handle>,
    name: &'a Name,
) -> Result<Held<'a, D::Handle>, Trouble>
    requires { IsHeld cache.old folder }
    ensures held { (up : Names) → IsHeldAt cache.old folder.entry up → IfOk result (λ held. IsHeldAt cache.new held (up ++ name.now ∷ [])) }
    ensures ok { (up : Names) → IsFolderAt (D.tree disk.now) (D.stands disk.now) cache.old folder.entry up → IfOk result (λ held. IsFolderAt (D.tree disk.now) (D.stands disk.now) cache.new held (up ++ name.now ∷ [])) }
    ensures stand { (up : Names) → IsFolderAt (D.tree disk.now) (D.stands disk.now) cache.old folder.entry up → AllStand (D.tree disk.now) (D.stands disk.now) cache.new }
    ensures err { (up : Names) → IsFolderAt (D.tree disk.now) (D.stands disk.now) cache.old folder.entry up → IfErr result (IsBlocked (D.tree disk.now) (up ++ name.now ∷ [])) }
{
    if let Some(place) = cache.trusted_folder(&folder, name) {
        return Ok(Held::Kept(place));
    }
    match expect_lawful(name) {
        Ok(()) => enter_entry(disk, cache, Entry { folder, name }),
        Err(trouble) => Err(trouble),
    }
}

/// Goes down to a folder.
pub fn reach<'a, D: Disk>(
    disk: &D,
    cache: &mut OpenCache<D::Handle>,
    names: &'a [Name],
) -> Result<Held<'a, D::Handle>, Trouble>
    ensures held { IfOk result (λ held. IsHeldAt cache.new held names.now) }
    ensures ok { AllStand (D.tree disk.now) (D.stands disk.now) cache.old → IfOk result (λ held. IsFolderAt (D.tree disk.now) (D.stands disk.now) cache.new held names.now) }
    ensures stand { AllStand (D.tree disk.now) (D.stands disk.now) cache.old → AllStand (D.tree disk.now) (D.stands disk.now) cache.new }
    ensures err { AllStand (D.tree disk.now) (D.stands disk.now) cache.old → IfErr result (IsBarred (D.tree disk.now) names.now) }
{
    let mut folder = Held::Kept(Place::Root);
    for name in names {
        match enter(disk, cache, folder, name) {
            Ok(held) => folder = held,
            Err(trouble) => return Err(trouble),
        }
    }
    Ok(folder)
}

/// The last name of the path, where its folder and each one above that are kept and used without a look: no call of the system.
pub fn kept_entry<'a, H: Drop>(cache: &OpenCache<H>, path: &'a Path) -> Option<KeptEntry<'a>>
    ensures { IfSome result (λ entry. IsKeptEntry cache.now entry path.now) }
{
    match path.names().split_last() {
        None => None,
        Some((name, above)) => match expect_lawful(name) {
            Ok(()) => match cache.trusted_way(above) {
                Some(folder) => Some(KeptEntry { folder, name }),
                None => None,
            },
            Err(_) => None,
        },
    }
}

/// Goes down to the folder that the path is in, which is not the root, by looks where they are needed.
fn walk_above<'a, D: Disk>(
    disk: &D,
    cache: &mut OpenCache<D::Handle>,
    path: &'a Path,
) -> Result<Entry<'a, D::Handle>, Trouble>
    ensures entry { IfOk result (λ entry. IsEntryOf cache.new entry path.now) }
    ensures ok { AllStand (D.tree disk.now) (D.stands disk.now) cache.old → IfOk result (λ entry. StandsIn (D.tree disk.now) (D.stands disk.now) cache.new entry path.now) }
    ensures stand { AllStand (D.tree disk.now) (D.stands disk.now) cache.old → AllStand (D.tree disk.now) (D.stands disk.now) cache.new }
    ensures err { AllStand (D.tree disk.now) (D.stands disk.now) cache.old → IfErr result (IsStopped (D.tree disk.now) path.now) }
{
    match path.names().split_last() {
        None => Err(Trouble::Failed(EIO)),
        Some((name, above)) => match expect_lawful(name) {
            Ok(()) => match reach(disk, cache, above) {
                Ok(folder) => Ok(Entry { folder, name }),
                Err(trouble) => Err(trouble),
            },
            Err(trouble) => Err(trouble),
        },
    }
}

/// Goes down to the folder that the path is in, which is not the root: that folder, and the last name.
pub fn go_above<'a, D: Disk>(
    disk: &D,
    cache: &mut OpenCache<D::Handle>,
    path: &'a Path,
) -> Result<Entry<'a, D::Handle>, Trouble>
    ensures entry { IfOk result (λ entry. IsEntryOf cache.new entry path.now) }
    ensures ok { AllStand (D.tree disk.now) (D.stands disk.now) cache.old → IfOk result (λ entry. StandsIn (D.tree disk.now) (D.stands disk.now) cache.new entry path.now) }
    ensures stand { AllStand (D.tree disk.now) (D.stands disk.now) cache.old → AllStand (D.tree disk.now) (D.stands disk.now) cache.new }
    ensures err { AllStand (D.tree disk.now) (D.stands disk.now) cache.old → IfErr result (IsStopped (D.tree disk.now) path.now) }
{
    match kept_entry(cache, path) {
        Some(KeptEntry { folder, name }) => Ok(Entry {
            folder: Held::Kept(folder),
            name,
        }),
        None => walk_above(disk, cache, path),
    }
}
