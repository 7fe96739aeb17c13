//! Calls that make a file, a folder or a link.

ghost use Rattle.std.specs.Prelude.{◌≡◌, ℕ, Option, OnOk, OnErr, IfErr};
ghost use Rattle.backing.specs.Tree.{with_item};
ghost use Rattle.backing.specs.Calls.{AskMake, AskMakeDir, AskMakeLink, PassesAll};
ghost use Rattle.backing.specs.Checks.{free_tests};
ghost use Rattle.backing.specs.Entries.{tree_of, IsEntryTree};
ghost use Rattle.backing.specs.Refusals.{Ends, Refusing};

use crate::bytes::Bytes;
use crate::call::Answer;
use crate::checks::expect_free;
use crate::entries::{Item, TreeEntry};
use crate::refusal::Refusal;
use paths::Path;
use std::alloc::Global;

/// Makes an empty file. The tree stores no permission bits.
pub fn make(alloc: Global, entries: &mut Vec<TreeEntry>, path: &Path) -> Result<Answer, Refusal>
    requires { IsEntryTree entries.old.items }
    ensures ends { (permissions : Option ℕ) → Ends (tree_of entries.old.items) (AskMake path.now permissions) result (tree_of entries.new.items) }
    ensures lawful { IsEntryTree entries.new.items }
{
    put(entries, path, Item::File(Bytes::new(alloc)))?;
    Ok(Answer::Done)
}

/// Makes an empty folder. The tree stores no permission bits.
pub fn make_dir(entries: &mut Vec<TreeEntry>, path: &Path) -> Result<Answer, Refusal>
    requires { IsEntryTree entries.old.items }
    ensures ends { (permissions : Option ℕ) → Ends (tree_of entries.old.items) (AskMakeDir path.now permissions) result (tree_of entries.new.items) }
    ensures lawful { IsEntryTree entries.new.items }
{
    put(entries, path, Item::Folder)?;
    Ok(Answer::Done)
}

/// Makes a link with this text.
pub fn make_link(
    alloc: Global,
    entries: &mut Vec<TreeEntry>,
    path: &Path,
    text: &[u8],
) -> Result<Answer, Refusal>
    requires { IsEntryTree entries.old.items }
    ensures ends { Ends (tree_of entries.old.items) (AskMakeLink path.now text.now) result (tree_of entries.new.items) }
    ensures lawful { IsEntryTree entries.new.items }
{
    expect_free(entries, path)?;
    let text = Vec::from_slice(alloc, text)?;
    put(entries, path, Item::Link(Bytes::from_vec(text)))?;
    Ok(Answer::Done)
}

/// Adds the item at a path with nothing at it.
pub fn put(entries: &mut Vec<TreeEntry>, path: &Path, item: Item) -> Result<(), Refusal>
    requires { IsEntryTree entries.old.items }
    ensures passes { OnOk result (PassesAll (tree_of entries.old.items) (free_tests path.now)) }
    ensures ok { OnOk result (tree_of entries.new.items ≡ with_item (tree_of entries.old.items) path.now item) }
    ensures refuses { IfErr result (Refusing (tree_of entries.old.items) (free_tests path.now)) }
    ensures err { OnErr result (entries.new.items ≡ entries.old.items) }
    ensures lawful { IsEntryTree entries.new.items }
{
    expect_free(entries, path)?;
    let path = path.copy()?;
    entries.push(TreeEntry { path, item })?;
    Ok(())
}
