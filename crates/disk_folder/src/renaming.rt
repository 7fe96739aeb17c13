//! The two folders of a rename.

ghost use Rattle.std.specs.Prelude.{◌≡◌, ◌++◌, ◌∷◌, [], IfOk, IfErr, OnOk};
ghost use Rattle.paths.specs.Prefixes.{Names};
ghost use Rattle.backing.specs.Tree.{Resolves};
ghost use Rattle.disk_folder.specs.Moving.{IsTold, IsWhyNotMoved};
ghost use Rattle.disk_folder.specs.Standing.{AllStand, IsEntry, IsEntryOf, IsFolderAt, StandsIn};
ghost use Rattle.disk_folder.specs.Troubles.{IsFailure, IsStopped};

use crate::beside::go_beside;
use crate::open_cache::OpenCache;
use crate::opened::Entry;
use crate::removing::why_not_empty;
use crate::trouble::{Reason, Trouble, as_failure, failure};
use crate::walk::go_above;
use disk::{Disk, DiskError};
use errno::EEXIST;
use paths::Path;

/// Why nothing was renamed.
pub fn why_not_moved<D: Disk>(
    disk: &D,
    cache: &OpenCache<D::Handle>,
    target: &Entry<'_, D::Handle>,
    error: DiskError,
) -> Trouble
    requires { IsEntry cache.now target.now }
    ensures { IsWhyNotMoved error result }
{
    match error {
        DiskError::IsFolder => Trouble::Refused(Reason::Folder),
        DiskError::NotFolder => Trouble::Refused(Reason::NoFolder),
        DiskError::NotEmpty => why_not_empty(disk, cache, target),
        error => failure(error),
    }
}

/// Whether something stands at the name. What is hidden there makes the call fail.
fn is_taken<D: Disk>(
    disk: &D,
    cache: &OpenCache<D::Handle>,
    entry: &Entry<'_, D::Handle>,
) -> Result<bool, Trouble>
    requires { IsEntry cache.now entry.now }
    ensures ok { (up : Names) → IsFolderAt (D.tree disk.now) (D.stands disk.now) cache.now entry.now.folder up → IfOk result (λ taken. IsTold (D.tree disk.now) (up ++ entry.now.name.now ∷ []) taken) }
    ensures err { IfErr result IsFailure }
{
    match disk.look(&cache.open(&entry.folder).handle, entry.name) {
        Ok(stat) => match stat.kind {
            Some(_) => Ok(true),
            None => Err(Trouble::Failed(EEXIST)),
        },
        Err(DiskError::Absent) => Ok(false),
        Err(error) => Err(failure(error)),
    }
}

/// Whether something stands at the path that is renamed to.
pub fn see_target<D: Disk>(
    disk: &D,
    cache: &mut OpenCache<D::Handle>,
    to: &Path,
) -> Result<bool, Trouble>
    ensures ok { AllStand (D.tree disk.now) (D.stands disk.now) cache.old → IfOk result (λ taken. Resolves (D.tree disk.now) to.now × IsTold (D.tree disk.now) to.now taken) }
    ensures err { AllStand (D.tree disk.now) (D.stands disk.now) cache.old → IfErr result (IsStopped (D.tree disk.now) to.now) }
    ensures stand { AllStand (D.tree disk.now) (D.stands disk.now) cache.old → AllStand (D.tree disk.now) (D.stands disk.now) cache.new }
{
    match go_above(disk, cache, to) {
        Ok(target) => is_taken(disk, cache, &target),
        Err(trouble) => Err(trouble),
    }
}

/// What is hidden at the name makes the call fail: one look, where not all kinds are shown.
fn expect_shown<D: Disk>(
    disk: &D,
    cache: &OpenCache<D::Handle>,
    entry: &Entry<'_, D::Handle>,
) -> Result<(), Trouble>
    requires { IsEntry cache.now entry.now }
    ensures { IfErr result IsFailure }
{
    if disk.shows_all() {
        return Ok(());
    }
    match is_taken(disk, cache, entry) {
        Ok(_) => Ok(()),
        Err(trouble) => Err(trouble),
    }
}

/// Folders lead to the path that is renamed to, and nothing is hidden there.
pub fn expect_target<D: Disk>(
    disk: &D,
    cache: &mut OpenCache<D::Handle>,
    to: &Path,
) -> Result<(), Trouble>
    ensures ok { AllStand (D.tree disk.now) (D.stands disk.now) cache.old → OnOk result (Resolves (D.tree disk.now) to.now) }
    ensures err { AllStand (D.tree disk.now) (D.stands disk.now) cache.old → IfErr result (IsStopped (D.tree disk.now) to.now) }
    ensures stand { AllStand (D.tree disk.now) (D.stands disk.now) cache.old → AllStand (D.tree disk.now) (D.stands disk.now) cache.new }
{
    match go_above(disk, cache, to) {
        Ok(target) => expect_shown(disk, cache, &target),
        Err(trouble) => Err(trouble),
    }
}

/// Goes down to the folder that is renamed from, and to the one that is renamed to.
pub fn go_both<'a, D: Disk>(
    disk: &D,
    cache: &mut OpenCache<D::Handle>,
    from: &'a Path,
    to: &'a Path,
) -> Result<(Entry<'a, D::Handle>, Entry<'a, D::Handle>), Trouble>
    ensures entries { IfOk result (λ both. IsEntryOf cache.new both.0 from.now × IsEntryOf cache.new both.1 to.now) }
    ensures ok { AllStand (D.tree disk.now) (D.stands disk.now) cache.old → Resolves (D.tree disk.now) to.now → IfOk result (λ both. StandsIn (D.tree disk.now) (D.stands disk.now) cache.new both.0 from.now × StandsIn (D.tree disk.now) (D.stands disk.now) cache.new both.1 to.now) }
    ensures stand { AllStand (D.tree disk.now) (D.stands disk.now) cache.old → AllStand (D.tree disk.now) (D.stands disk.now) cache.new }
    ensures err { IfErr result IsFailure }
{
    match go_above(disk, cache, from) {
        Ok(source) => match go_beside(disk, cache, to) {
            Ok(target) => Ok((source, target)),
            Err(trouble) => Err(trouble),
        },
        Err(trouble) => Err(as_failure(trouble)),
    }
}
