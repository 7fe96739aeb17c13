//! The names in a folder.

ghost use Rattle.std.specs.Prelude.{ℕ, ◌≡◌, ◌++◌, ◌∷◌, [], IfOk, IfErr, OnOk};
ghost use Rattle.paths.specs.Prefixes.{Name, Names};
ghost use Rattle.backing.specs.Tree.{Tree};
ghost use Rattle.backing.specs.Calls.{AskList};
ghost use Rattle.backing.specs.Checks.{folder_tests};
ghost use Rattle.backing.specs.declared.call.Answer.TheVariants.{Names as NamesAre};
ghost use Rattle.disk.specs.Answers.{ListsNames};
ghost use Rattle.disk_folder.specs.Ends.{Ends, IsRefused};
ghost use Rattle.disk_folder.specs.Listed.{AreSeen, EachSeen, IsListing, IsNamed, children_of, with_one};
ghost use Rattle.disk_folder.specs.Remembered.{IsListed};
ghost use Rattle.disk_folder.specs.Standing.{AllStand};
ghost use Rattle.disk_folder.specs.Suits.{Suits};
ghost use Rattle.disk_folder.specs.Troubles.{IsFailure};

use crate::listed::{Listed, sort};
use crate::look::{Seen, expect_lawful, look_in};
use crate::open_cache::OpenCache;
use crate::trouble::{Trouble, failure};
use crate::walk::reach;
use backing::{Answer, Child, Children};
use disk::Disk;
use errno::ENOMEM;
use paths::{Name, Path};
use std::alloc::{AllocError, Global};
use std::cell::Cell;

/// A name in a folder, and what a look has shown there.
#[derive(Drop)]
pub struct SeenName {
    pub name: Name,
    pub seen: Seen,
}

/// What stands at a name that the folder has. Nothing, where it has gone, or where the disk shows no kind of it.
fn look_listed<D: Disk>(disk: &D, folder: &D::Handle, name: &Name) -> Result<Option<Seen>, Trouble>
    ensures ok { (p : Names) → D.stands disk.now folder.now p → IfOk result (IsNamed (D.tree disk.now) (p ++ name.now ∷ [])) }
    ensures err { IfErr result IsFailure }
{
    match expect_lawful(name) {
        Ok(()) => match look_in(disk, folder, name) {
            Ok(seen) => Ok(Some(seen)),
            Err(Trouble::Refused(_)) => Ok(None),
            Err(Trouble::Failed(errno)) => Err(Trouble::Failed(errno)),
        },
        Err(trouble) => Err(trouble),
    }
}

/// One more name with what was seen there, if anything was.
pub fn add(all: &mut Vec<SeenName>, name: &Name, seen: Option<Seen>) -> Result<(), Trouble>
    ensures ok { OnOk result (all.new.items ≡ with_one all.old.items name.now seen) }
    ensures err { IfErr result IsFailure }
{
    match seen {
        None => Ok(()),
        Some(seen) => {
            let name = name.copy()?;
            all.push(SeenName { name, seen })?;
            Ok(())
        }
    }
}

/// What stands at each of these names, which the folder has: one look each. That of which the disk shows no kind is left out.
pub fn look_all<D: Disk>(
    disk: &D,
    folder: &D::Handle,
    names: &[Name],
) -> Result<Vec<SeenName>, Trouble>
    ensures ok { (p : Names) → D.stands disk.now folder.now p → ListsNames (D.tree disk.now) p names.now → IfOk result (λ seen. AreSeen (D.tree disk.now) p names.now seen.items) }
    ensures err { IfErr result IsFailure }
{
    let mut all = Vec::with_capacity(disk.alloc(), names.len())?;
    for name in names {
        match look_listed(disk, folder, name) {
            Ok(seen) => add(&mut all, name, seen)?,
            Err(trouble) => return Err(trouble),
        }
    }
    Ok(all)
}

/// The names and their kinds.
fn children_of(alloc: Global, seen: &[SeenName]) -> Result<Vec<Child>, AllocError>
    ensures { IfOk result (λ children. children.items ≡ children_of seen.now) }
{
    let mut children = Vec::with_capacity(alloc, seen.len())?;
    for one in seen {
        children.push(Child {
            name: one.name.copy()?,
            kind: one.seen.kind,
        })?;
    }
    Ok(children)
}

/// The names in an open folder by rising bytes, with what stands there: `getdents`, and one look each.
fn list_open<D: Disk>(disk: &D, folder: &D::Handle) -> Result<Vec<SeenName>, Trouble>
    ensures ok { (p : Names) → D.stands disk.now folder.now p → IfOk result (λ seen. (names : _) × ListsNames (D.tree disk.now) p names × AreSeen (D.tree disk.now) p names seen.items) }
    ensures err { IfErr result IsFailure }
{
    match disk.list(folder) {
        Ok(mut names) => {
            sort(&mut names);
            look_all(disk, folder, names.as_slice())
        }
        Err(error) => Err(failure(error)),
    }
}

/// The names in the folder, with what stands there.
fn list_seen<D: Disk>(
    disk: &D,
    cache: &mut OpenCache<D::Handle>,
    path: &Path,
) -> Result<Vec<SeenName>, Trouble>
    ensures ok { AllStand (D.tree disk.now) (D.stands disk.now) cache.old → IfOk result (λ seen. IsListing (D.tree disk.now) path.now seen.items) }
    ensures err { AllStand (D.tree disk.now) (D.stands disk.now) cache.old → IfErr result (IsRefused (D.tree disk.now) (folder_tests path.now)) }
    ensures stand { AllStand (D.tree disk.now) (D.stands disk.now) cache.old → AllStand (D.tree disk.now) (D.stands disk.now) cache.new }
{
    match reach(disk, cache, path.names()) {
        Ok(folder) => list_open(disk, &cache.open(&folder).handle),
        Err(trouble) => Err(trouble),
    }
}

/// What was seen, as an answer.
fn names_of(alloc: Global, seen: &[SeenName]) -> Result<Answer, Trouble>
    ensures ok { IfOk result (λ answer. answer ≡ NamesAre (children_of seen.now)) }
    ensures err { IfErr result IsFailure }
{
    match children_of(alloc, seen) {
        Ok(children) => Ok(Answer::Names(Children::from_vec(children))),
        Err(_) => Err(Trouble::Failed(ENOMEM)),
    }
}

/// What was seen is remembered.
fn remember(path: &Path, seen: Vec<SeenName>, time: u64, changes: u64) -> Option<Listed>
    ensures { (at : Tree) → EachSeen at path.now seen.items → IsListed at result }
{
    match path.copy() {
        Ok(path) => Some(Listed {
            path,
            seen,
            next: Cell::new(0),
            time,
            changes,
        }),
        Err(_) => None,
    }
}

/// The names in the folder. What the looks have shown is remembered.
pub fn list<D: Disk>(
    disk: &D,
    cache: &mut OpenCache<D::Handle>,
    listed: &mut Option<Listed>,
    path: &Path,
) -> Result<Answer, Trouble>
    ensures suits { IfOk result (Suits (AskList path.now)) }
    ensures ends { AllStand (D.tree disk.now) (D.stands disk.now) cache.old → Ends (D.tree disk.now) (AskList path.now) result (D.tree disk.now) }
    ensures stand { AllStand (D.tree disk.now) (D.stands disk.now) cache.old → AllStand (D.tree disk.now) (D.stands disk.now) cache.new }
    ensures listed { AllStand (D.tree disk.now) (D.stands disk.now) cache.old → IsListed (D.tree disk.now) listed.old → IsListed (D.tree disk.now) listed.new }
{
    let changes = disk.changes();
    match list_seen(disk, cache, path) {
        Ok(seen) => {
            let answer = names_of(disk.alloc(), seen.as_slice());
            *listed = remember(path, seen, cache.time, changes);
            answer
        }
        Err(trouble) => Err(trouble),
    }
}
