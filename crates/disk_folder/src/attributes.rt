//! Calls that set attributes, and that bring what stands at a path to the disk.

ghost use Rattle.std.specs.Prelude.{◌≡◌, ◌++◌, ◌∷◌, [], Some, Ok, Err, IfOk, IfErr, IfSome, OnOk, IsSome};
ghost use Rattle.paths.specs.Prefixes.{Names};
ghost use Rattle.path_cache.specs.Cache.{IsAt};
ghost use Rattle.backing.specs.declared.call.Answer.TheVariants.{Done};
ghost use Rattle.backing.specs.Checks.{present_tests};
ghost use Rattle.disk.specs.Errors.{errno_of};
ghost use Rattle.disk_folder.specs.declared.trouble.Trouble.TheVariants.{Failed};
ghost use Rattle.disk_folder.specs.Attributes.{IsPresent};
ghost use Rattle.disk_folder.specs.Ends.{IsRefused};
ghost use Rattle.disk_folder.specs.Seen.{IsMissing};
ghost use Rattle.disk_folder.specs.Standing.{AllStand, IsEntry, IsFolderAt, IsHeldAt, IsOpenFolder, KeepsAll, OwnStands};
ghost use Rattle.disk_folder.specs.Troubles.{IsFailure};

use crate::finding::{open_same, recall_file};
use crate::look::{Seen, look_at};
use crate::open_cache::OpenCache;
use crate::opened::{Entry, Held, Open};
use crate::trouble::{Trouble, as_failure, failure};
use crate::walk::{go_above, open_folder};
use backing::Answer;
use disk::{Access, Change, Disk, DiskError, FileId};
use errno::{EACCES, EINVAL, EIO};
use path_cache::Place;
use paths::Path;
use payload::Kind;

/// The call is done, or the system failed.
fn done(told: Result<(), DiskError>) -> Result<Answer, Trouble>
    ensures ok { OnOk told (result ≡ Ok Done) }
    ensures err { IfErr told (λ error. result ≡ Err (Failed (errno_of error))) }
{
    match told {
        Ok(()) => Ok(Answer::Done),
        Err(error) => Err(failure(error)),
    }
}

/// What is used without a look: the root, or a file that is kept open.
fn recall_used<'a, D: Disk>(cache: &mut OpenCache<D::Handle>, path: &'a Path) -> Option<Place<'a>>
    ensures keeps { KeepsAll cache.old cache.new }
    ensures found { IfSome result (λ place. IsAt cache.new.cache place path.now) }
{
    if path.len() == 0 {
        return Some(Place::Root);
    }
    recall_file::<D>(cache, path, Access::Read)
}

/// Opens the folder at the name, if that is the one that a look has shown.
fn open_same_folder<D: Disk>(
    disk: &D,
    cache: &OpenCache<D::Handle>,
    entry: &Entry<'_, D::Handle>,
    id: FileId,
) -> Result<Open<D::Handle>, Trouble>
    requires { IsEntry cache.now entry.now }
    ensures ok { (up : Names) → IsFolderAt (D.tree disk.now) (D.stands disk.now) cache.now entry.now.folder up → IfOk result (IsOpenFolder (D.tree disk.now) (D.stands disk.now) (up ++ entry.now.name.now ∷ [])) }
    ensures same { IfOk result (λ opened. opened.id ≡ Some id) }
    ensures err { IfErr result IsFailure }
{
    match open_folder(disk, cache, entry) {
        Ok(opened) => {
            if opened.is(&id) {
                Ok(opened)
            } else {
                Err(Trouble::Failed(EIO))
            }
        }
        Err(trouble) => Err(as_failure(trouble)),
    }
}

/// Opens what a look has shown at the name, for the length of the call. What is neither a file nor a folder is not opened.
fn open_alone<'a, D: Disk>(
    disk: &D,
    cache: &mut OpenCache<D::Handle>,
    entry: &Entry<'a, D::Handle>,
    seen: Seen,
) -> Result<Held<'a, D::Handle>, Trouble>
    requires { IsEntry cache.old entry.now }
    ensures held { (up : Names) → IsHeldAt cache.old entry.now.folder up → IfOk result (λ held. IsHeldAt cache.new held (up ++ entry.now.name.now ∷ [])) }
    ensures own { (up : Names) → IsFolderAt (D.tree disk.now) (D.stands disk.now) cache.old entry.now.folder up → IfOk result (λ held. OwnStands (D.tree disk.now) (D.stands disk.now) held (up ++ entry.now.name.now ∷ [])) }
    ensures stand { (up : Names) → IsFolderAt (D.tree disk.now) (D.stands disk.now) cache.old entry.now.folder up → AllStand (D.tree disk.now) (D.stands disk.now) cache.new }
    ensures folder { (up : Names) → IsHeldAt cache.old entry.now.folder up → IfErr result (λ _. IsHeldAt cache.new entry.now.folder up) }
    ensures err { IfErr result IsFailure }
{
    match seen.kind {
        Kind::File => match open_same(disk, cache, entry, seen.id, Access::Read) {
            Ok(opened) => Ok(cache.hold(entry, opened)),
            Err(trouble) => Err(trouble),
        },
        Kind::Folder => match open_same_folder(disk, cache, entry, seen.id) {
            Ok(opened) => Ok(cache.hold(entry, opened)),
            Err(trouble) => Err(trouble),
        },
        Kind::Link | Kind::Special(_) => Err(Trouble::Failed(EINVAL)),
    }
}

/// What stands at the name, open: what is kept there, which the look has shown, or what is opened for the length of the call.
fn open_seen<'a, D: Disk>(
    disk: &D,
    cache: &mut OpenCache<D::Handle>,
    entry: &Entry<'a, D::Handle>,
    seen: Seen,
) -> Result<Held<'a, D::Handle>, Trouble>
    requires { IsEntry cache.old entry.now }
    ensures held { (up : Names) → IsHeldAt cache.old entry.now.folder up → IfOk result (λ held. IsHeldAt cache.new held (up ++ entry.now.name.now ∷ [])) }
    ensures own { (up : Names) → IsFolderAt (D.tree disk.now) (D.stands disk.now) cache.old entry.now.folder up → IfOk result (λ held. OwnStands (D.tree disk.now) (D.stands disk.now) held (up ++ entry.now.name.now ∷ [])) }
    ensures stand { (up : Names) → IsFolderAt (D.tree disk.now) (D.stands disk.now) cache.old entry.now.folder up → AllStand (D.tree disk.now) (D.stands disk.now) cache.new }
    ensures folder { (up : Names) → IsHeldAt cache.old entry.now.folder up → IfErr result (λ _. IsHeldAt cache.new entry.now.folder up) }
    ensures err { IfErr result IsFailure }
{
    match cache.child(&entry.folder, entry.name) {
        Some(place) => Ok(Held::Kept(place)),
        None => open_alone(disk, cache, entry, seen),
    }
}

/// Brings what a look has shown to the disk.
fn sync_in<D: Disk>(
    disk: &D,
    cache: &mut OpenCache<D::Handle>,
    entry: &Entry<'_, D::Handle>,
) -> Result<Answer, Trouble>
    requires { IsEntry cache.old entry.now }
    ensures done { IfOk result (λ answer. answer ≡ Done) }
    ensures present { (up : Names) → IsFolderAt (D.tree disk.now) (D.stands disk.now) cache.old entry.now.folder up → OnOk result (IsSome (D.tree disk.now (up ++ entry.now.name.now ∷ []))) }
    ensures synced { (up : Names) → IsFolderAt (D.tree disk.now) (D.stands disk.now) cache.old entry.now.folder up → OnOk result (D.has_synced disk.now (up ++ entry.now.name.now ∷ [])) }
    ensures err { (up : Names) → IsFolderAt (D.tree disk.now) (D.stands disk.now) cache.old entry.now.folder up → IfErr result (IsMissing (D.tree disk.now) (up ++ entry.now.name.now ∷ [])) }
    ensures stand { (up : Names) → IsFolderAt (D.tree disk.now) (D.stands disk.now) cache.old entry.now.folder up → AllStand (D.tree disk.now) (D.stands disk.now) cache.new }
{
    match look_at(disk, cache, entry) {
        Ok(seen) => match open_seen(disk, cache, entry, seen) {
            Ok(held) => done(disk.sync(&cache.open(&held).handle)),
            Err(trouble) => Err(trouble),
        },
        Err(trouble) => Err(trouble),
    }
}

/// Brings what stands there to the disk: one call of the system where it is a file that is kept open.
pub fn sync<D: Disk>(
    disk: &D,
    cache: &mut OpenCache<D::Handle>,
    path: &Path,
) -> Result<Answer, Trouble>
    ensures done { IfOk result (λ answer. answer ≡ Done) }
    ensures present { AllStand (D.tree disk.now) (D.stands disk.now) cache.old → IfOk result (λ _. IsPresent (D.tree disk.now) path.now) }
    ensures err { AllStand (D.tree disk.now) (D.stands disk.now) cache.old → IfErr result (IsRefused (D.tree disk.now) (present_tests path.now)) }
    ensures stand { AllStand (D.tree disk.now) (D.stands disk.now) cache.old → AllStand (D.tree disk.now) (D.stands disk.now) cache.new }
    ensures synced { AllStand (D.tree disk.now) (D.stands disk.now) cache.old → IfOk result (λ _. D.has_synced disk.now path.now) }
{
    if let Some(place) = recall_used::<D>(cache, path) {
        return done(disk.sync(&cache.open(&Held::Kept(place)).handle));
    }
    match go_above(disk, cache, path) {
        Ok(entry) => sync_in(disk, cache, &entry),
        Err(trouble) => Err(trouble),
    }
}

/// Sets it by its name of what stands there.
fn set_by_name<D: Disk>(
    disk: &D,
    cache: &OpenCache<D::Handle>,
    entry: &Entry<'_, D::Handle>,
    change: Change,
) -> Result<Answer, Trouble>
    requires { IsEntry cache.now entry.now }
    ensures done { IfOk result (λ answer. answer ≡ Done) }
    ensures set { (up : Names) → IsFolderAt (D.tree disk.now) (D.stands disk.now) cache.now entry.now.folder up → OnOk result (D.has_set disk.now (up ++ entry.now.name.now ∷ []) change) }
    ensures err { IfErr result IsFailure }
{
    done(disk.set_at(&cache.open(&entry.folder).handle, entry.name, change))
}

/// Sets it of a file or folder that a look has shown at the name: of what may not be opened (EACCES), by its name.
fn set_opened<D: Disk>(
    disk: &D,
    cache: &mut OpenCache<D::Handle>,
    entry: &Entry<'_, D::Handle>,
    seen: Seen,
    change: Change,
) -> Result<Answer, Trouble>
    requires { IsEntry cache.old entry.now }
    ensures done { IfOk result (λ answer. answer ≡ Done) }
    ensures set { (up : Names) → IsFolderAt (D.tree disk.now) (D.stands disk.now) cache.old entry.now.folder up → OnOk result (D.has_set disk.now (up ++ entry.now.name.now ∷ []) change) }
    ensures err { IfErr result IsFailure }
    ensures stand { (up : Names) → IsFolderAt (D.tree disk.now) (D.stands disk.now) cache.old entry.now.folder up → AllStand (D.tree disk.now) (D.stands disk.now) cache.new }
{
    match open_seen(disk, cache, entry, seen) {
        Ok(held) => done(disk.set(&cache.open(&held).handle, change)),
        Err(Trouble::Failed(EACCES)) => set_by_name(disk, cache, entry, change),
        Err(trouble) => Err(trouble),
    }
}

/// Sets it of what a look has shown at the name: of what is neither a file nor a folder, by its name.
fn set_seen<D: Disk>(
    disk: &D,
    cache: &mut OpenCache<D::Handle>,
    entry: &Entry<'_, D::Handle>,
    seen: Seen,
    change: Change,
) -> Result<Answer, Trouble>
    requires { IsEntry cache.old entry.now }
    ensures done { IfOk result (λ answer. answer ≡ Done) }
    ensures set { (up : Names) → IsFolderAt (D.tree disk.now) (D.stands disk.now) cache.old entry.now.folder up → OnOk result (D.has_set disk.now (up ++ entry.now.name.now ∷ []) change) }
    ensures err { IfErr result IsFailure }
    ensures stand { (up : Names) → IsFolderAt (D.tree disk.now) (D.stands disk.now) cache.old entry.now.folder up → AllStand (D.tree disk.now) (D.stands disk.now) cache.new }
{
    match seen.kind {
        Kind::File | Kind::Folder => set_opened(disk, cache, entry, seen, change),
        Kind::Link | Kind::Special(_) => set_by_name(disk, cache, entry, change),
    }
}

/// Sets it of what stands at the name, behind a look.
fn set_in<D: Disk>(
    disk: &D,
    cache: &mut OpenCache<D::Handle>,
    entry: &Entry<'_, D::Handle>,
    change: Change,
) -> Result<Answer, Trouble>
    requires { IsEntry cache.old entry.now }
    ensures done { IfOk result (λ answer. answer ≡ Done) }
    ensures present { (up : Names) → IsFolderAt (D.tree disk.now) (D.stands disk.now) cache.old entry.now.folder up → OnOk result (IsSome (D.tree disk.now (up ++ entry.now.name.now ∷ []))) }
    ensures set { (up : Names) → IsFolderAt (D.tree disk.now) (D.stands disk.now) cache.old entry.now.folder up → OnOk result (D.has_set disk.now (up ++ entry.now.name.now ∷ []) change) }
    ensures err { (up : Names) → IsFolderAt (D.tree disk.now) (D.stands disk.now) cache.old entry.now.folder up → IfErr result (IsMissing (D.tree disk.now) (up ++ entry.now.name.now ∷ [])) }
    ensures stand { (up : Names) → IsFolderAt (D.tree disk.now) (D.stands disk.now) cache.old entry.now.folder up → AllStand (D.tree disk.now) (D.stands disk.now) cache.new }
{
    match look_at(disk, cache, entry) {
        Ok(seen) => set_seen(disk, cache, entry, seen, change),
        Err(trouble) => Err(trouble),
    }
}

/// Sets it of what stands there: one call of the system where it is a file that is kept open.
pub fn set<D: Disk>(
    disk: &D,
    cache: &mut OpenCache<D::Handle>,
    path: &Path,
    change: Change,
) -> Result<Answer, Trouble>
    ensures done { IfOk result (λ answer. answer ≡ Done) }
    ensures present { AllStand (D.tree disk.now) (D.stands disk.now) cache.old → IfOk result (λ _. IsPresent (D.tree disk.now) path.now) }
    ensures set { AllStand (D.tree disk.now) (D.stands disk.now) cache.old → IfOk result (λ _. D.has_set disk.now path.now change) }
    ensures err { AllStand (D.tree disk.now) (D.stands disk.now) cache.old → IfErr result (IsRefused (D.tree disk.now) (present_tests path.now)) }
    ensures stand { AllStand (D.tree disk.now) (D.stands disk.now) cache.old → AllStand (D.tree disk.now) (D.stands disk.now) cache.new }
{
    if let Some(place) = recall_used::<D>(cache, path) {
        return done(disk.set(&cache.open(&Held::Kept(place)).handle, change));
    }
    match go_above(disk, cache, path) {
        Ok(entry) => set_in(disk, cache, &entry, change),
        Err(trouble) => Err(trouble),
    }
}
