//! The calls that remove an item.

ghost use Rattle.std.specs.Prelude.{◌≡◌, ◌≢◌, [], IsSome};
ghost use Rattle.std.specs.List.{remove};
ghost use Rattle.backing.specs.Tree.{IsBare, without};
ghost use Rattle.backing.specs.Calls.{AskRemove, AskRemoveDir};
ghost use Rattle.backing.specs.Entries.{tree_of, IsEntryTree};
ghost use Rattle.backing.specs.Refusals.{Ends};

use crate::call::Answer;
use crate::checks::{expect_bare, expect_below_root, expect_folder, expect_other};
use crate::entries::TreeEntry;
use crate::lookups::index_of;
use crate::refusal::Refusal;
use paths::Path;

/// Removes the file, or whatever else is there that is no folder.
pub fn remove(entries: &mut Vec<TreeEntry>, path: &Path) -> Result<Answer, Refusal>
    requires { IsEntryTree entries.old.items }
    ensures ends { Ends (tree_of entries.old.items) (AskRemove path.now) result (tree_of entries.new.items) }
    ensures lawful { IsEntryTree entries.new.items }
{
    expect_other(entries, path)?;
    take_out(entries, path);
    Ok(Answer::Done)
}

/// Removes the folder, which must be empty.
pub fn remove_dir(entries: &mut Vec<TreeEntry>, path: &Path) -> Result<Answer, Refusal>
    requires { IsEntryTree entries.old.items }
    ensures ends { Ends (tree_of entries.old.items) (AskRemoveDir path.now) result (tree_of entries.new.items) }
    ensures lawful { IsEntryTree entries.new.items }
{
    expect_below_root(path)?;
    expect_folder(entries, path)?;
    expect_bare(entries, path)?;
    take_out(entries, path);
    Ok(Answer::Done)
}

/// Removes what is at the path, which has nothing below it.
pub fn take_out(entries: &mut Vec<TreeEntry>, path: &Path)
    requires lawful { IsEntryTree entries.old.items }
    requires below_root { path.now ≢ [] }
    requires stands { IsSome (tree_of entries.old.items path.now) }
    requires bare { IsBare (tree_of entries.old.items) path.now }
    ensures taken { tree_of entries.new.items ≡ without (tree_of entries.old.items) path.now }
    ensures lawful { IsEntryTree entries.new.items }
{
    match index_of(entries, path.names()) {
        Some(i) => {
            let _gone = entries.remove(i);
        }
        None => unreachable!(),
    }
}
