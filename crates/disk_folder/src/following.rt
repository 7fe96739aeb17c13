//! What is kept open goes where names go.

ghost use Rattle.std.specs.Prelude.{◌≡◌, ◌++◌, ◌∷◌, []};
ghost use Rattle.paths.specs.Prefixes.{Names};
ghost use Rattle.disk.specs.Answers.{AreApart};
ghost use Rattle.disk_folder.specs.Moving.{Follows};
ghost use Rattle.disk_folder.specs.Standing.{IsHeld, IsHeldAt};

use crate::open_cache::OpenCache;
use crate::opened::Entry;
use crate::trouble::Trouble;
use backing::Answer;
use disk::Disk;
use payload::Kind;

/// What is kept under the one name is kept under the other one. Where it is reached by its name, all is closed; where nothing is kept, nothing
/// comes to the other name.
pub fn follow<D: Disk>(
    disk: &D,
    cache: &mut OpenCache<D::Handle>,
    source: &Entry<'_, D::Handle>,
    target: &Entry<'_, D::Handle>,
)
    requires { IsHeld cache.old source.now.folder }
    ensures { (up above : Names) → IsHeldAt cache.old source.now.folder up → IsHeldAt cache.old target.now.folder above → AreApart (up ++ source.now.name.now ∷ []) (above ++ target.now.name.now ∷ []) → Follows cache.old (up ++ source.now.name.now ∷ []) (above ++ target.now.name.now ∷ []) cache.new }
{
    match cache.child(&source.folder, source.name) {
        None => cache.forget(target),
        Some(place) => {
            if disk.is_by_name(&cache.cache.value(place).handle) {
                cache.clear();
            } else {
                cache.relocate(source, target);
            }
        }
    }
}

/// Where a folder was moved, or may have been, others who serve it hear of that.
pub fn note_move<D: Disk>(
    disk: &D,
    cache: &mut OpenCache<D::Handle>,
    kind: Kind,
    moved: &Result<Answer, Trouble>,
)
    ensures { cache.new.cache ≡ cache.old.cache }
{
    let is_done = matches!(moved, Ok(_) | Err(Trouble::Failed(_)));
    if !is_done || !matches!(kind, Kind::Folder) {
        return;
    }
    disk.note_move();
    if moved.is_ok() {
        cache.hear_own(disk.moves());
    }
}

/// The same where nothing may be told.
pub fn note_told<D: Disk>(
    disk: &D,
    cache: &mut OpenCache<D::Handle>,
    kind: Kind,
    moved: &Option<Result<Answer, Trouble>>,
)
    ensures { cache.new.cache ≡ cache.old.cache }
{
    if let Some(moved) = moved {
        note_move(disk, cache, kind, moved);
    }
}
