//! The calls that change nothing.

ghost use Rattle.std.specs.Prelude.{◌≡◌, ◌<◌, ◌+◌, [], ◌∷◌, ◌++◌, None, Some, IfOk, IfSome, OnOk, length};
ghost use Rattle.backing.specs.Tree.{size_of};
ghost use Rattle.backing.specs.Calls.{AskStat, AskList, AskRead, AskReadLink, AskSync, Lists};
ghost use Rattle.backing.specs.Entries.{tree_of, IsEntryTree};
ghost use Rattle.backing.specs.Refusals.{Ends};

use crate::call::{Answer, Child, Children};
use crate::checks::{expect_file, expect_folder, expect_link, expect_present};
use crate::details::details_of;
use crate::entries::{Item, TreeEntry};
use crate::lookups::{child_of, index_of};
use crate::refusal::Refusal;
use paths::{Name, Path};
use payload::{Kind, Payload};
use std::alloc::{AllocError, Global};

/// What is at the path.
pub fn stat(entries: &[TreeEntry], path: &Path) -> Result<Answer, Refusal>
    ensures { Ends (tree_of entries.now) (AskStat path.now) result (tree_of entries.now) }
{
    let kind = expect_present(entries, path)?;
    Ok(Answer::Stat {
        kind,
        size: size_at(entries, path) as u64,
        details: details_of(kind),
    })
}

/// The bytes of the file.
pub fn read(
    alloc: Global,
    entries: &[TreeEntry],
    path: &Path,
    offset: u64,
    size: u32,
) -> Result<Answer, Refusal>
    ensures { Ends (tree_of entries.now) (AskRead path.now offset size) result (tree_of entries.now) }
{
    let i = expect_file(entries, path)?;
    let entry = &entries[i];
    match &entry.item {
        Item::Folder | Item::Link(_) | Item::Special(_) => unreachable!(),
        Item::File(bytes) => {
            let piece = bytes.read(alloc, offset, size)?;
            Ok(Answer::Bytes(Payload::new(piece.into_vec())))
        }
    }
}

/// The text of the link.
pub fn read_link(alloc: Global, entries: &[TreeEntry], path: &Path) -> Result<Answer, Refusal>
    ensures { Ends (tree_of entries.now) (AskReadLink path.now) result (tree_of entries.now) }
{
    let i = expect_link(entries, path)?;
    let entry = &entries[i];
    match &entry.item {
        Item::Folder | Item::File(_) | Item::Special(_) => unreachable!(),
        Item::Link(text) => {
            let text = Vec::from_slice(alloc, text.as_slice())?;
            Ok(Answer::Bytes(Payload::new(text)))
        }
    }
}

/// Does nothing: there is no disk to write to.
pub fn sync(entries: &[TreeEntry], path: &Path) -> Result<Answer, Refusal>
    ensures { Ends (tree_of entries.now) (AskSync path.now) result (tree_of entries.now) }
{
    expect_present(entries, path)?;
    Ok(Answer::Done)
}

/// The names in the folder, with their kinds.
pub fn list(alloc: Global, entries: &[TreeEntry], path: &Path) -> Result<Answer, Refusal>
    requires { IsEntryTree entries.now }
    ensures { Ends (tree_of entries.now) (AskList path.now) result (tree_of entries.now) }
{
    expect_folder(entries, path)?;
    Ok(Answer::Names(children_of(alloc, entries, path)?))
}

/// The names in the folder.
fn children_of(alloc: Global, entries: &[TreeEntry], folder: &Path) -> Result<Children, AllocError>
    requires { IsEntryTree entries.now }
    ensures { IfOk result (Lists (tree_of entries.now) folder.now) }
{
    let mut list = Vec::new(alloc);
    for entry in entries {
        match child_of(&entry.path, folder.names()) {
            Some(name) => push_child(&mut list, name, entry.item.kind())?,
            None => {}
        }
    }
    Ok(Children::from_vec(list))
}

/// Appends one more name.
fn push_child(list: &mut Vec<Child>, name: &Name, kind: Kind) -> Result<(), AllocError>
    ensures { OnOk result (list.new.items ≡ list.old.items ++ (record { name = name.now; kind = kind }) ∷ []) }
{
    let name = name.copy()?;
    list.push(Child { name, kind })?;
    Ok(())
}

/// The length of what is at the path. The root has no entry.
fn size_at(entries: &[TreeEntry], path: &Path) -> usize
    ensures { IfSome (tree_of entries.now path.now) (λ item. result ≡ size_of item) }
{
    let names = path.names();
    if names.is_empty() {
        return 0;
    }
    match index_of(entries, names) {
        Some(i) => {
            let entry = &entries[i];
            entry.item.size()
        }
        None => 0,
    }
}
