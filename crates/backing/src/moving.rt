//! The calls that move items to other paths.

ghost use Rattle.std.specs.Prelude.{◌≡◌, ◌≢◌, ◌<◌, [], false, OnOk, OnErr, IfErr, IfOk, Some, None, length, map, slice_set, slice_index_or};
ghost use Rattle.std.specs.List.{remove};
ghost use Rattle.paths.specs.Prefixes.{is_prefix};
ghost use Rattle.backing.specs.declared.entries.TreeEntry.{TreeEntry};
ghost use Rattle.backing.specs.Tree.{IsBare, Resolves, moved};
ghost use Rattle.backing.specs.Calls.{AskRename, AskRenameNew, PassesAll, Refuses};
ghost use Rattle.backing.specs.Checks.{source_tests, kind_tests, room_tests, new_tests};
ghost use Rattle.backing.specs.Entries.{tree_of, IsEntryTree};
ghost use Rattle.backing.specs.Moves.{moved_path, with_path, with_paths, Clears};
ghost use Rattle.backing.specs.Refusals.{Ends};

use crate::call::Answer;
use crate::checks::{expect_bare, expect_below_root, expect_free, expect_present, expect_reached};
use crate::entries::TreeEntry;
use crate::lookups::{index_of, kind_at};
use crate::refusal::Refusal;
use errno::{EEXIST, EINVAL, EISDIR, ENOTDIR, ENOTEMPTY};
use paths::Path;
use payload::Kind;
use std::alloc::{AllocError, Global};

/// Moves what is at a path to another, with everything below it.
pub fn rename(
    alloc: Global,
    entries: &mut Vec<TreeEntry>,
    from: &Path,
    to: &Path,
) -> Result<Answer, Refusal>
    requires { IsEntryTree entries.old.items }
    ensures ends { Ends (tree_of entries.old.items) (AskRename from.now to.now) result (tree_of entries.new.items) }
    ensures lawful { IsEntryTree entries.new.items }
{
    expect_source(entries, from, to)?;
    if from.is(to) {
        return Ok(Answer::Done);
    }
    expect_room(entries, from, to)?;
    move_all(alloc, entries, from, to)?;
    Ok(Answer::Done)
}

/// Like `rename`, to a path with nothing at it.
pub fn rename_new(
    alloc: Global,
    entries: &mut Vec<TreeEntry>,
    from: &Path,
    to: &Path,
) -> Result<Answer, Refusal>
    requires { IsEntryTree entries.old.items }
    ensures ends { Ends (tree_of entries.old.items) (AskRenameNew from.now to.now) result (tree_of entries.new.items) }
    ensures lawful { IsEntryTree entries.new.items }
{
    expect_source(entries, from, to)?;
    expect_new(entries, from, to)?;
    move_all(alloc, entries, from, to)?;
    Ok(Answer::Done)
}

/// Something is at the source, and it may be renamed.
pub fn expect_source(entries: &[TreeEntry], from: &Path, to: &Path) -> Result<(), i32>
    ensures ok { OnOk result (PassesAll (tree_of entries.now) (source_tests from.now to.now)) }
    ensures err { IfErr result (Refuses (tree_of entries.now) (source_tests from.now to.now)) }
{
    expect_below_root(from)?;
    expect_below_root(to)?;
    expect_present(entries, from)?;
    Ok(())
}

/// It may be moved to the target.
fn expect_room(entries: &[TreeEntry], from: &Path, to: &Path) -> Result<(), i32>
    requires { IsEntryTree entries.now }
    ensures ok { OnOk result (PassesAll (tree_of entries.now) (room_tests from.now to.now)) }
    ensures err { IfErr result (Refuses (tree_of entries.now) (room_tests from.now to.now)) }
{
    if from.is_prefix_of(to) {
        return Err(EINVAL);
    }
    if to.is_prefix_of(from) {
        return Err(ENOTEMPTY);
    }
    expect_reached(entries, to)?;
    expect_kinds(entries, from, to)?;
    expect_bare(entries, to)
}

/// It may be moved to the target, which must have nothing at it.
fn expect_new(entries: &[TreeEntry], from: &Path, to: &Path) -> Result<(), i32>
    ensures ok { OnOk result (PassesAll (tree_of entries.now) (new_tests from.now to.now)) }
    ensures err { IfErr result (Refuses (tree_of entries.now) (new_tests from.now to.now)) }
{
    if from.is(to) {
        return Err(EEXIST);
    }
    if from.is_prefix_of(to) {
        return Err(EINVAL);
    }
    if to.is_prefix_of(from) {
        return Err(ENOTEMPTY);
    }
    expect_free(entries, to)
}

/// Only a folder replaces a folder, and a folder nothing else.
fn expect_kinds(entries: &[TreeEntry], from: &Path, to: &Path) -> Result<(), i32>
    ensures ok { OnOk result (PassesAll (tree_of entries.now) (kind_tests from.now to.now)) }
    ensures err { IfErr result (Refuses (tree_of entries.now) (kind_tests from.now to.now)) }
{
    let target = kind_at(entries, to.names());
    match kind_at(entries, from.names()) {
        Some(Kind::File | Kind::Link | Kind::Special(_)) => match target {
            Some(Kind::Folder) => Err(EISDIR),
            None | Some(Kind::File | Kind::Link | Kind::Special(_)) => Ok(()),
        },
        Some(Kind::Folder) => match target {
            Some(Kind::File | Kind::Link | Kind::Special(_)) => Err(ENOTDIR),
            None | Some(Kind::Folder) => Ok(()),
        },
        None => Ok(()),
    }
}

/// Moves the items. All memory is allocated before the first of them moves.
fn move_all(
    alloc: Global,
    entries: &mut Vec<TreeEntry>,
    from: &Path,
    to: &Path,
) -> Result<(), AllocError>
    requires lawful { IsEntryTree entries.old.items }
    requires below_root { (from.now ≢ []) × (to.now ≢ []) }
    requires apart { (is_prefix from.now to.now ≡ false) × (is_prefix to.now from.now ≡ false) }
    requires leads { Resolves (tree_of entries.old.items) to.now }
    requires bare { IsBare (tree_of entries.old.items) to.now }
    ensures ok { OnOk result (tree_of entries.new.items ≡ moved (tree_of entries.old.items) from.now to.now) }
    ensures err { OnErr result (entries.new.items ≡ entries.old.items) }
    ensures lawful { IsEntryTree entries.new.items }
{
    let mut paths = new_paths(alloc, entries, from, to)?;
    clear_place(entries, &mut paths, to);
    set_paths(entries, paths);
    Ok(())
}

/// The new path of each entry that moves.
fn new_paths(
    alloc: Global,
    entries: &[TreeEntry],
    from: &Path,
    to: &Path,
) -> Result<Vec<Option<Path>>, AllocError>
    ensures { IfOk result (λ paths. paths.items ≡ map (λ entry. moved_path from.now to.now entry.path) entries.now) }
{
    let mut paths = Vec::with_capacity(alloc, entries.len())?;
    for entry in entries {
        paths.push(new_path(alloc, from, to, &entry.path)?)?;
    }
    Ok(paths)
}

/// The new path of what is at this path, if it moves.
pub fn new_path(
    alloc: Global,
    from: &Path,
    to: &Path,
    path: &Path,
) -> Result<Option<Path>, AllocError>
    ensures { IfOk result (λ new. new ≡ moved_path from.now to.now path.now) }
{
    if !from.is_prefix_of(path) {
        return Ok(None);
    }
    let (_, below) = path.names().split_at(from.len());
    let moved = Path::joined(alloc, to.names(), below)?;
    Ok(Some(moved))
}

/// Removes what is at the target.
fn clear_place(entries: &mut Vec<TreeEntry>, paths: &mut Vec<Option<Path>>, to: &Path)
    requires { length paths.old.items ≡ length entries.old.items }
    ensures { Clears entries.old.items entries.new.items paths.old.items paths.new.items to.now }
{
    match index_of(entries, to.names()) {
        Some(i) => {
            let _gone = entries.remove(i);
            let _path = paths.remove(i);
        }
        None => {}
    }
}

/// Sets the new path of each entry.
pub fn set_paths(entries: &mut Vec<TreeEntry>, paths: Vec<Option<Path>>)
    requires { length paths.items ≡ length entries.old.items }
    ensures { entries.new.items ≡ with_paths entries.old.items paths.items }
{
    let mut left = paths;
    let mut i = entries.len();
    while let Some(path) = left.pop() {
        i -= 1;
        set_path(entries, i, path);
    }
}

/// Sets the new path of the entry.
fn set_path(entries: &mut Vec<TreeEntry>, i: usize, path: Option<Path>)
    requires { i < length entries.old.items }
    ensures len { length entries.new.items ≡ length entries.old.items }
    ensures set { (d : TreeEntry) → entries.new.items ≡ slice_set entries.old.items i (with_path (slice_index_or entries.old.items i d) path) }
{
    match path {
        Some(path) => {
            let entry = &mut entries[i];
            entry.path = path;
        }
        None => {}
    }
}
