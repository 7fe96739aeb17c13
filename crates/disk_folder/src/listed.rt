//! What looks have shown a short time ago in a folder.

ghost use Rattle.std.specs.Prelude.{◌≡◌, ◌++◌, ◌∷◌, [], IfSome};
ghost use Rattle.std.specs.List.{All};
ghost use Rattle.std.specs.List.Sorted.{IsPermutation};
ghost use Rattle.paths.specs.Prefixes.{Names};
ghost use Rattle.backing.specs.Tree.{Tree};
ghost use Rattle.disk_folder.specs.Remembered.{IsListed};
ghost use Rattle.disk_folder.specs.Seen.{IsSeen};

use crate::listing::{SeenName, add};
use crate::look::Seen;
use paths::{Name, Path};
use std::alloc::Global;
use std::cell::Cell;
use std::cmp::Ordering;

/// How long what was looked at is told without another look, in milliseconds.
const FRESH: u64 = 100;

/// Names in a folder, each with what one look has shown there.
#[derive(Drop)]
pub struct Listed {
    /// The folder's path.
    pub path: Path,
    /// By rising bytes of the names.
    pub seen: Vec<SeenName>,
    /// Where the name is that comes behind the one that was last told: a client asks for one after the other.
    pub next: Cell<usize>,
    /// When the call was made that looked, in milliseconds by the disk's clock.
    pub time: u64,
    /// How often anything had been changed then.
    pub changes: u64,
}

/// By the bytes of the names, most of which differ in the first eight.
fn compare(one: &Name, other: &Name) -> Ordering {
    match one.leading().cmp(&other.leading()) {
        Ordering::Equal => one.as_bytes().cmp(other.as_bytes()),
        order => order,
    }
}

/// Sorts the names by their bytes. It takes no memory.
pub fn sort(names: &mut Vec<Name>)
    ensures { IsPermutation names.old.items names.new.items }
{
    names.sort_unstable_by(|one, other| compare(one, other));
}

/// When a call was made, in milliseconds by the disk's clock, and how often anything had been changed then.
#[derive(Clone, Copy)]
pub struct Moment {
    pub time: u64,
    pub changes: u64,
}

/// What was seen at a path that is not the root is remembered, unless memory is refused.
pub fn remember_one(
    alloc: Global,
    path: &Path,
    seen: Option<Seen>,
    moment: Moment,
) -> Option<Listed>
    ensures { (at : Tree) → IfSome seen (IsSeen at path.now) → IsListed at result }
{
    let Some((name, above)) = path.names().split_last() else {
        return None;
    };
    let Some(seen) = seen else {
        return None;
    };
    let Ok(folder) = path.prefix(above.len()) else {
        return None;
    };
    let mut one = Vec::new(alloc);
    match add(&mut one, name, Some(seen)) {
        Ok(()) => Some(Listed {
            path: folder,
            seen: one,
            next: Cell::new(0),
            time: moment.time,
            changes: moment.changes,
        }),
        Err(_) => None,
    }
}

/// What was seen under the name there, if that is the name.
fn seen_there(seen: &[SeenName], i: usize, name: &Name) -> Option<Seen>
    ensures { (at : Tree) (p : Names) → All (λ one. IsSeen at (p ++ one.name ∷ []) one.seen) seen.now → IfSome result (IsSeen at (p ++ name.now ∷ [])) }
{
    match seen.get(i) {
        Some(one) => {
            if one.name.is(name) {
                Some(one.seen)
            } else {
                None
            }
        }
        None => None,
    }
}

/// Where the name is, if it is there.
fn place_of(seen: &[SeenName], name: &Name) -> usize {
    match seen.binary_search_by(|one| compare(&one.name, name)) {
        Ok(i) => i,
        Err(_) => seen.len(),
    }
}

/// What was seen at the name: no search where it is the one behind that which was told before.
fn seen_at(listed: &Listed, name: &Name) -> Option<Seen>
    ensures { (at : Tree) (p : Names) → All (λ one. IsSeen at (p ++ one.name ∷ []) one.seen) listed.now.seen.items → IfSome result (IsSeen at (p ++ name.now ∷ [])) }
{
    let seen = listed.seen.as_slice();
    let next = listed.next.get();
    match seen_there(seen, next, name) {
        Some(found) => {
            listed.next.set(next.saturating_add(1));
            Some(found)
        }
        None => {
            let i = place_of(seen, name);
            listed.next.set(i.saturating_add(1));
            seen_there(seen, i, name)
        }
    }
}

/// What was seen at the path, if that is a name in the folder.
fn seen_in(listed: &Listed, path: &Path) -> Option<Seen>
    ensures { (at : Tree) → All (λ one. IsSeen at (listed.now.path ++ one.name ∷ []) one.seen) listed.now.seen.items → IfSome result (IsSeen at path.now) }
{
    match path.names().split_last() {
        None => None,
        Some((name, above)) => {
            if above.len() == listed.path.len() && listed.path.is_prefix_of(path) {
                seen_at(listed, name)
            } else {
                None
            }
        }
    }
}

/// What was seen at the path, if that was a short time ago and nothing has been changed since.
pub fn recall_seen(listed: &Option<Listed>, path: &Path, time: u64, changes: u64) -> Option<Seen>
    ensures { (at : Tree) → IsListed at listed.now → IfSome result (IsSeen at path.now) }
{
    match listed {
        None => None,
        Some(listed) => {
            if listed.changes != changes || time.saturating_sub(listed.time) > FRESH {
                None
            } else {
                seen_in(listed, path)
            }
        }
    }
}
