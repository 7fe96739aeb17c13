//! What stands at a path.

ghost use Rattle.std.specs.Prelude.{◌≡◌, ◌++◌, ◌∷◌, [], IfOk, IfErr};
ghost use Rattle.backing.specs.Calls.{AskStat};
ghost use Rattle.backing.specs.Checks.{present_tests};
ghost use Rattle.disk_folder.specs.Ends.{Ends, IsRefused};
ghost use Rattle.disk_folder.specs.Remembered.{IsListed};
ghost use Rattle.disk_folder.specs.Seen.{IsSeen, told_by};
ghost use Rattle.disk_folder.specs.Standing.{AllStand};
ghost use Rattle.disk_folder.specs.Suits.{Suits};

use crate::listed::{Listed, recall_seen};
use crate::look::{Seen, look_at, look_open};
use crate::open_cache::OpenCache;
use crate::opened::{Entry, Held, KeptEntry};
use crate::trouble::Trouble;
use crate::walk::{go_above, kept_entry};
use backing::Answer;
use disk::Disk;
use path_cache::Place;
use paths::Path;
use payload::Kind;

/// One look at the root, which is open.
fn see_root<D: Disk>(disk: &D, cache: &OpenCache<D::Handle>) -> Result<Seen, Trouble>
    ensures ok { AllStand (D.tree disk.now) (D.stands disk.now) cache.now → IfOk result (IsSeen (D.tree disk.now) []) }
    ensures err { AllStand (D.tree disk.now) (D.stands disk.now) cache.now → IfErr result (IsRefused (D.tree disk.now) (present_tests [])) }
{
    look_open(disk, &cache.open(&Held::Kept(Place::Root)).handle)
}

/// What stands at a path below the root: one look, behind the way to its folder.
fn see_below<D: Disk>(
    disk: &D,
    cache: &mut OpenCache<D::Handle>,
    path: &Path,
) -> Result<Seen, Trouble>
    ensures ok { AllStand (D.tree disk.now) (D.stands disk.now) cache.old → IfOk result (IsSeen (D.tree disk.now) path.now) }
    ensures err { AllStand (D.tree disk.now) (D.stands disk.now) cache.old → IfErr result (IsRefused (D.tree disk.now) (present_tests path.now)) }
    ensures stand { AllStand (D.tree disk.now) (D.stands disk.now) cache.old → AllStand (D.tree disk.now) (D.stands disk.now) cache.new }
{
    match go_above(disk, cache, path) {
        Ok(entry) => look_at(disk, cache, &entry),
        Err(trouble) => Err(trouble),
    }
}

/// What stands there: one look, behind the way to its folder.
pub fn see<D: Disk>(
    disk: &D,
    cache: &mut OpenCache<D::Handle>,
    path: &Path,
) -> Result<Seen, Trouble>
    ensures ok { AllStand (D.tree disk.now) (D.stands disk.now) cache.old → IfOk result (IsSeen (D.tree disk.now) path.now) }
    ensures err { AllStand (D.tree disk.now) (D.stands disk.now) cache.old → IfErr result (IsRefused (D.tree disk.now) (present_tests path.now)) }
    ensures stand { AllStand (D.tree disk.now) (D.stands disk.now) cache.old → AllStand (D.tree disk.now) (D.stands disk.now) cache.new }
{
    if path.len() == 0 {
        return see_root(disk, cache);
    }
    match kept_entry(cache, path) {
        Some(KeptEntry { folder, name }) => {
            let folder = Held::Kept(folder);
            look_at(disk, cache, &Entry { folder, name })
        }
        None => see_below(disk, cache, path),
    }
}

/// What was seen, as an answer.
pub fn stat_of(seen: Seen) -> Answer
    ensures { result ≡ told_by seen.kind seen.size seen.details }
{
    let size = match seen.kind {
        Kind::Folder => 0,
        Kind::File | Kind::Link | Kind::Special(_) => seen.size,
    };
    Answer::Stat {
        kind: seen.kind,
        size,
        details: seen.details,
    }
}

/// What stands there: no call of the system where a list has looked a short time ago.
pub fn stat<D: Disk>(
    disk: &D,
    cache: &mut OpenCache<D::Handle>,
    listed: &Option<Listed>,
    path: &Path,
) -> Result<Answer, Trouble>
    ensures suits { IfOk result (Suits (AskStat path.now)) }
    ensures ends { AllStand (D.tree disk.now) (D.stands disk.now) cache.old → IsListed (D.tree disk.now) listed.now → Ends (D.tree disk.now) (AskStat path.now) result (D.tree disk.now) }
    ensures stand { AllStand (D.tree disk.now) (D.stands disk.now) cache.old → AllStand (D.tree disk.now) (D.stands disk.now) cache.new }
{
    if let Some(seen) = recall_seen(listed, path, cache.time, disk.changes()) {
        return Ok(stat_of(seen));
    }
    match see(disk, cache, path) {
        Ok(seen) => Ok(stat_of(seen)),
        Err(trouble) => Err(trouble),
    }
}
