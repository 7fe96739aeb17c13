//! A second way down, beside a folder that was come to: what is kept stays kept.

ghost use Rattle.std.specs.Prelude.{◌≡◌, ◌++◌, ◌∷◌, [], IfOk, IfErr, IfSome};
ghost use Rattle.paths.specs.Prefixes.{Name, Names};
ghost use Rattle.backing.specs.Tree.{IsFolder, Resolves};
ghost use Rattle.disk_folder.specs.Standing.{AllStand, IsEntryOf, IsFolderAt, IsHeld, IsHeldAt, IsKeptEntry, KeepsAll, NoneKept, StandsIn};
ghost use Rattle.disk_folder.specs.Troubles.{IsFailure};

use crate::look::expect_lawful;
use crate::open_cache::OpenCache;
use crate::opened::{Entry, Held, KeptEntry};
use crate::trouble::{Trouble, as_failure};
use crate::walk::{kept_entry, open_folder};
use disk::Disk;
use errno::EIO;
use path_cache::Place;
use paths::{Name, Path};

/// Opens the folder at a name at which nothing is kept, for the length of the call.
fn open_beside<'a, D: Disk>(
    disk: &D,
    cache: &OpenCache<D::Handle>,
    folder: Held<'a, D::Handle>,
    name: &'a Name,
) -> Result<Held<'a, D::Handle>, Trouble>
    requires { IsHeld cache.now folder }
    ensures held { (p : Names) → NoneKept cache.now p → IfOk result (λ held. IsHeldAt cache.now held p) }
    ensures ok { (up : Names) → IsFolderAt (D.tree disk.now) (D.stands disk.now) cache.now folder.entry up → NoneKept cache.now (up ++ name.now ∷ []) → IfOk result (λ held. IsFolderAt (D.tree disk.now) (D.stands disk.now) cache.now held (up ++ name.now ∷ [])) }
    ensures err { IfErr result IsFailure }
{
    match expect_lawful(name) {
        Ok(()) => match open_folder(disk, cache, &Entry { folder, name }) {
            Ok(opened) => Ok(Held::Own(opened)),
            Err(trouble) => Err(as_failure(trouble)),
        },
        Err(trouble) => Err(trouble),
    }
}

/// Goes down by a name, to the folder that is kept there, or else opens it for the length of the call.
fn enter_beside<'a, D: Disk>(
    disk: &D,
    cache: &mut OpenCache<D::Handle>,
    folder: Held<'a, D::Handle>,
    name: &'a Name,
) -> Result<Held<'a, D::Handle>, Trouble>
    requires { IsHeld cache.old folder }
    ensures keeps { KeepsAll cache.old cache.new }
    ensures held { (up : Names) → IsHeldAt cache.old folder.entry up → IfOk result (λ held. IsHeldAt cache.new held (up ++ name.now ∷ [])) }
    ensures ok { (up : Names) → IsFolderAt (D.tree disk.now) (D.stands disk.now) cache.old folder.entry up → IsFolder (D.tree disk.now (up ++ name.now ∷ [])) → IfOk result (λ held. IsFolderAt (D.tree disk.now) (D.stands disk.now) cache.new held (up ++ name.now ∷ [])) }
    ensures err { IfErr result IsFailure }
{
    match cache.child(&folder, name) {
        Some(place) => Ok(Held::Kept(place)),
        None => open_beside(disk, cache, folder, name),
    }
}

/// Goes down to a folder that stands there.
fn reach_beside<'a, D: Disk>(
    disk: &D,
    cache: &mut OpenCache<D::Handle>,
    names: &'a [Name],
) -> Result<Held<'a, D::Handle>, Trouble>
    ensures keeps { KeepsAll cache.old cache.new }
    ensures held { IfOk result (λ held. IsHeldAt cache.new held names.now) }
    ensures ok { (name : Name) → AllStand (D.tree disk.now) (D.stands disk.now) cache.old → Resolves (D.tree disk.now) (names.now ++ name ∷ []) → IfOk result (λ held. IsFolderAt (D.tree disk.now) (D.stands disk.now) cache.new held names.now) }
    ensures err { IfErr result IsFailure }
{
    let mut folder = Held::Kept(Place::Root);
    for name in names {
        match enter_beside(disk, cache, folder, name) {
            Ok(held) => folder = held,
            Err(trouble) => return Err(trouble),
        }
    }
    Ok(folder)
}

/// Goes down to the folder that the path is in, and that stands: that folder, and the last name.
pub fn go_beside<'a, D: Disk>(
    disk: &D,
    cache: &mut OpenCache<D::Handle>,
    path: &'a Path,
) -> Result<Entry<'a, D::Handle>, Trouble>
    ensures keeps { KeepsAll cache.old cache.new }
    ensures entry { IfOk result (λ entry. IsEntryOf cache.new entry path.now) }
    ensures ok { AllStand (D.tree disk.now) (D.stands disk.now) cache.old → Resolves (D.tree disk.now) path.now → IfOk result (λ entry. StandsIn (D.tree disk.now) (D.stands disk.now) cache.new entry path.now) }
    ensures err { IfErr result IsFailure }
{
    match path.names().split_last() {
        None => Err(Trouble::Failed(EIO)),
        Some((name, above)) => match expect_lawful(name) {
            Ok(()) => match reach_beside(disk, cache, above) {
                Ok(folder) => Ok(Entry { folder, name }),
                Err(trouble) => Err(trouble),
            },
            Err(trouble) => Err(trouble),
        },
    }
}

/// The last name of the other path, if both are in one folder.
fn name_beside<'a>(path: &Path, other: &'a Path) -> Option<&'a Name>
    ensures { (up : Names) (last : Name) → path.now ≡ up ++ last ∷ [] → IfSome result (λ name. other.now ≡ up ++ name.now ∷ []) }
{
    match path.names().split_last() {
        None => None,
        Some((_, above)) => match other.names().split_last() {
            None => None,
            Some((name, above_too)) => { if above == above_too { Some(name) } else { None } }
        },
    }
}

/// The last name of the other path, beside an entry that is that of the path: the way to a folder that both are in is gone once.
fn kept_beside<'a, H: Drop>(
    cache: &OpenCache<H>,
    entry: KeptEntry<'a>,
    path: &Path,
    other: &'a Path,
) -> Option<KeptEntry<'a>>
    requires { IsKeptEntry cache.now entry path.now }
    ensures { IfSome result (λ found. IsKeptEntry cache.now found other.now) }
{
    match name_beside(path, other) {
        None => kept_entry(cache, other),
        Some(name) => match expect_lawful(name) {
            Ok(()) => Some(KeptEntry {
                folder: entry.folder,
                name,
            }),
            Err(_) => None,
        },
    }
}

/// The last names of both paths, where all folders on the way to each are kept and used without a look: no call of the system.
pub fn kept_both<'a, H: Drop>(
    cache: &OpenCache<H>,
    from: &'a Path,
    to: &'a Path,
) -> Option<(KeptEntry<'a>, KeptEntry<'a>)>
    ensures { IfSome result (λ both. IsKeptEntry cache.now both.0 from.now × IsKeptEntry cache.now both.1 to.now) }
{
    match kept_entry(cache, from) {
        None => None,
        Some(source) => match kept_beside(cache, source, from, to) {
            None => None,
            Some(target) => Some((source, target)),
        },
    }
}
