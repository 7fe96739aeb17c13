//! Spots that get other paths.

ghost use Rattle.std.specs.Prelude.{◌≡◌, ◌≢◌, ◌<◌, [], map, length, slice_set, slice_index_or, false, IfErr, IfOk, IfSome, OnOk, OnErr};
ghost use Rattle.paths.specs.Prefixes.{is_prefix};
ghost use Rattle.backing.specs.Tree.{Resolves, IsBare};
ghost use Rattle.disk.specs.declared.spot.Spot.{Spot};
ghost use Rattle.disk.specs.Answers.{Renames, AreApart, new_path};
ghost use Rattle.disk.specs.Spots.{tree_of, stands_in, IsLawful, NoneComes, CanMove, Clears, MovesAll, with_path, with_paths, CannotMove, FitsKinds};

use crate::error::DiskError;
use crate::finding::{has_names, index_at};
use crate::spot::{Content, Spot};
use errno::{EINVAL, ENOMEM};
use paths::Path;
use std::alloc::{AllocError, Global};

/// Renames, and replaces what stands there. Neither path leads to the other, else EINVAL.
pub fn rename(alloc: Global, spots: &mut Vec<Spot>, from: &Path, to: &Path) -> Result<(), DiskError>
    requires lawful { IsLawful spots.old.items }
    requires below_root { (from.now ≢ []) × (to.now ≢ []) }
    requires leads { Resolves (tree_of spots.old.items) to.now }
    ensures renames { AreApart from.now to.now → Renames (tree_of spots.old.items) (stands_in spots.old.items) from.now to.now result (tree_of spots.new.items) (stands_in spots.new.items) }
    ensures lawful { IsLawful spots.new.items }
    ensures none { NoneComes spots.old.items spots.new.items }
{
    if from.is_prefix_of(to) {
        return Err(DiskError::Failed(EINVAL));
    }
    if to.is_prefix_of(from) {
        return Err(DiskError::Failed(EINVAL));
    }
    match expect_room(spots, from, to) {
        Ok(()) => {}
        Err(error) => return Err(error),
    }
    match move_all(alloc, spots, from, to) {
        Ok(()) => Ok(()),
        Err(_) => Err(DiskError::Failed(ENOMEM)),
    }
}

/// Something stands there that may be renamed so.
fn expect_room(spots: &[Spot], from: &Path, to: &Path) -> Result<(), DiskError>
    requires { IsLawful spots.now }
    ensures ok { OnOk result (CanMove (tree_of spots.now) from.now to.now) }
    ensures err { IfErr result (λ error. CannotMove (tree_of spots.now) from.now to.now error) }
{
    let Some(i) = index_at(spots, from) else {
        return Err(DiskError::Absent);
    };
    let Some(j) = index_at(spots, to) else {
        return Ok(());
    };
    let source = &spots[i];
    let target = &spots[j];
    match expect_kinds(&source.content, &target.content) {
        Ok(()) => {}
        Err(error) => return Err(error),
    }
    if has_names(spots, to) {
        Err(DiskError::NotEmpty)
    } else {
        Ok(())
    }
}

/// A folder goes onto nothing but a folder, and nothing but a folder onto one.
fn expect_kinds(source: &Content, target: &Content) -> Result<(), DiskError>
    ensures { FitsKinds source.now target.now result }
{
    match source {
        Content::Folder => match target {
            Content::Folder => Ok(()),
            Content::File(_) | Content::Link(_) | Content::Special(_) => Err(DiskError::NotFolder),
        },
        Content::File(_) | Content::Link(_) | Content::Special(_) => match target {
            Content::Folder => Err(DiskError::IsFolder),
            Content::File(_) | Content::Link(_) | Content::Special(_) => Ok(()),
        },
    }
}

/// Moves the spots. All memory is taken before the first of them moves.
fn move_all(alloc: Global, spots: &mut Vec<Spot>, from: &Path, to: &Path) -> Result<(), AllocError>
    requires lawful { IsLawful spots.old.items }
    requires below_root { (from.now ≢ []) × (to.now ≢ []) }
    requires apart { AreApart from.now to.now }
    requires leads { Resolves (tree_of spots.old.items) to.now }
    requires bare { IsBare (tree_of spots.old.items) to.now }
    ensures ok { OnOk result (MovesAll spots.old.items from.now to.now spots.new.items) }
    ensures err { OnErr result (spots.new.items ≡ spots.old.items) }
    ensures lawful { IsLawful spots.new.items }
{
    let target = index_at(spots, to);
    let paths = new_paths(alloc, spots, from, to)?;
    set_paths(spots, paths);
    clear(spots, target);
    Ok(())
}

/// Removes the spot of that place, if there is one.
fn clear(spots: &mut Vec<Spot>, place: Option<usize>)
    requires { IfSome place (λ i. i < length spots.old.items) }
    ensures { Clears spots.old.items place spots.new.items }
{
    match place {
        Some(i) => {
            let _gone = spots.remove(i);
        }
        None => {}
    }
}

/// The path of each spot then. What stands at the other path keeps its own.
fn new_paths(alloc: Global, spots: &[Spot], from: &Path, to: &Path) -> Result<Vec<Path>, AllocError>
    ensures { IfOk result (λ paths. paths.items ≡ map (λ spot. new_path from.now to.now spot.path) spots.now) }
{
    let mut paths = Vec::with_capacity(alloc, spots.len())?;
    for spot in spots {
        paths.push(moved_path(alloc, from, to, &spot.path)?)?;
    }
    Ok(paths)
}

/// Where the path leads then.
fn moved_path(alloc: Global, from: &Path, to: &Path, path: &Path) -> Result<Path, AllocError>
    ensures { IfOk result (λ moved. moved ≡ new_path from.now to.now path.now) }
{
    if !from.is_prefix_of(path) {
        return path.copy();
    }
    let (_, below) = path.names().split_at(from.len());
    Path::joined(alloc, to.names(), below)
}

/// Gives each spot its new path.
fn set_paths(spots: &mut Vec<Spot>, paths: Vec<Path>)
    requires { length paths.items ≡ length spots.old.items }
    ensures { spots.new.items ≡ with_paths spots.old.items paths.items }
{
    let mut left = paths;
    let mut i = spots.len();
    while let Some(path) = left.pop() {
        i -= 1;
        set_path(spots, i, path);
    }
}

/// Gives the spot its new path.
fn set_path(spots: &mut Vec<Spot>, i: usize, path: Path)
    requires { i < length spots.old.items }
    ensures len { length spots.new.items ≡ length spots.old.items }
    ensures set { (d : Spot) → spots.new.items ≡ slice_set spots.old.items i (with_path (slice_index_or spots.old.items i d) path) }
{
    let spot = &mut spots[i];
    spot.path = path;
}
