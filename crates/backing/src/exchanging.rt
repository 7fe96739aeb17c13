//! The call that exchanges what is at two paths.

ghost use Rattle.std.specs.Prelude.{◌≡◌, ◌≢◌, [], false, OnOk, OnErr, IfErr, IfOk, IsSome, map};
ghost use Rattle.paths.specs.Prefixes.{is_prefix};
ghost use Rattle.backing.specs.Tree.{Resolves, exchanged};
ghost use Rattle.backing.specs.Calls.{AskExchange, PassesAll, Refuses};
ghost use Rattle.backing.specs.Checks.{exchange_tests};
ghost use Rattle.backing.specs.Entries.{tree_of, IsEntryTree};
ghost use Rattle.backing.specs.Moves.{exchanged_path};
ghost use Rattle.backing.specs.Refusals.{Ends};

use crate::call::Answer;
use crate::checks::expect_present;
use crate::entries::TreeEntry;
use crate::moving::{expect_source, new_path, set_paths};
use crate::refusal::Refusal;
use errno::EINVAL;
use paths::Path;
use std::alloc::{AllocError, Global};

/// Exchanges what is at the two paths, with everything below each.
pub fn exchange(
    alloc: Global,
    entries: &mut Vec<TreeEntry>,
    first: &Path,
    second: &Path,
) -> Result<Answer, Refusal>
    requires { IsEntryTree entries.old.items }
    ensures ends { Ends (tree_of entries.old.items) (AskExchange first.now second.now) result (tree_of entries.new.items) }
    ensures lawful { IsEntryTree entries.new.items }
{
    expect_source(entries, first, second)?;
    if first.is(second) {
        return Ok(Answer::Done);
    }
    expect_other(entries, first, second)?;
    exchange_all(alloc, entries, first, second)?;
    Ok(Answer::Done)
}

/// Something is at the second path, and neither path leads through the other.
fn expect_other(entries: &[TreeEntry], first: &Path, second: &Path) -> Result<(), i32>
    ensures ok { OnOk result (PassesAll (tree_of entries.now) (exchange_tests first.now second.now)) }
    ensures err { IfErr result (Refuses (tree_of entries.now) (exchange_tests first.now second.now)) }
{
    if first.is_prefix_of(second) {
        return Err(EINVAL);
    }
    if second.is_prefix_of(first) {
        return Err(EINVAL);
    }
    expect_present(entries, second)?;
    Ok(())
}

/// Exchanges the items. All memory is allocated before the first of them moves.
fn exchange_all(
    alloc: Global,
    entries: &mut Vec<TreeEntry>,
    first: &Path,
    second: &Path,
) -> Result<(), AllocError>
    requires lawful { IsEntryTree entries.old.items }
    requires below_root { (first.now ≢ []) × (second.now ≢ []) }
    requires apart { (is_prefix first.now second.now ≡ false) × (is_prefix second.now first.now ≡ false) }
    requires leads { Resolves (tree_of entries.old.items) first.now × Resolves (tree_of entries.old.items) second.now }
    ensures ok { OnOk result (tree_of entries.new.items ≡ exchanged (tree_of entries.old.items) first.now second.now) }
    ensures err { OnErr result (entries.new.items ≡ entries.old.items) }
    ensures lawful { IsEntryTree entries.new.items }
{
    let paths = other_paths(alloc, entries, first, second)?;
    set_paths(entries, paths);
    Ok(())
}

/// The new path of each entry that moves.
fn other_paths(
    alloc: Global,
    entries: &[TreeEntry],
    first: &Path,
    second: &Path,
) -> Result<Vec<Option<Path>>, AllocError>
    ensures { IfOk result (λ paths. paths.items ≡ map (λ entry. exchanged_path first.now second.now entry.path) entries.now) }
{
    let mut paths = Vec::with_capacity(alloc, entries.len())?;
    for entry in entries {
        paths.push(other_path(alloc, first, second, &entry.path)?)?;
    }
    Ok(paths)
}

/// The new path of what is at this path, if it moves.
fn other_path(
    alloc: Global,
    first: &Path,
    second: &Path,
    path: &Path,
) -> Result<Option<Path>, AllocError>
    ensures { IfOk result (λ new. new ≡ exchanged_path first.now second.now path.now) }
{
    if first.is_prefix_of(path) {
        return new_path(alloc, first, second, path);
    }
    new_path(alloc, second, first, path)
}
