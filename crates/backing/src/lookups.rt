//! Looking up what is at a path, in a tree stored as a flat list.

ghost use Rattle.std.specs.Prelude.{true, false, ◌≡◌, ◌<◌, ◌+◌, ℕ, List, [], ◌∷◌, ◌++◌, None, Some, IfSome, IfNone};
ghost use Rattle.std.specs.Option.{option_map};
ghost use Rattle.backing.specs.Tree.{is_path, kind_of, HasNames, IsBare};
ghost use Rattle.backing.specs.Entries.{look, tree_of, IsFoundAt, IsEntryTree};

use crate::entries::TreeEntry;
use paths::{Name, Path};
use payload::Kind;

/// Whether both paths have the same names.
pub fn are_same(names: &[Name], others: &[Name]) -> bool
    ensures { result ≡ is_path names.now others.now }
{
    if names.len() != others.len() {
        return false;
    }
    for (i, name) in names.iter().enumerate() {
        if !name.is(&others[i]) {
            return false;
        }
    }
    true
}

/// The index of the entry with that path.
pub fn index_of(entries: &[TreeEntry], names: &[Name]) -> Option<usize>
    ensures none { IfNone result (look entries.now names.now ≡ None) }
    ensures found { IfSome result (λ i. IsFoundAt entries.now names.now i) }
{
    for (i, entry) in entries.iter().enumerate() {
        if are_same(entry.path.names(), names) {
            return Some(i);
        }
    }
    None
}

/// The kind of what is at that path.
pub fn kind_at(entries: &[TreeEntry], names: &[Name]) -> Option<Kind>
    ensures { result ≡ option_map kind_of (tree_of entries.now names.now) }
{
    if names.is_empty() {
        return Some(Kind::Folder);
    }
    let i = index_of(entries, names)?;
    let entry = &entries[i];
    Some(entry.item.kind())
}

/// The last name of the path, if the rest is the path of that folder.
pub fn child_of<'a>(path: &'a Path, folder: &[Name]) -> Option<&'a Name>
    ensures some { IfSome result (λ name. path.now ≡ folder.now ++ name.now ∷ []) }
    ensures none { IfNone result ((name : List ℕ) → path.now ≡ folder.now ++ name ∷ [] → ⊥) }
{
    let (name, parent) = path.names().split_last()?;
    if are_same(parent, folder) {
        Some(name)
    } else {
        None
    }
}

/// Whether the folder has any names.
pub fn has_names(entries: &[TreeEntry], folder: &[Name]) -> bool
    requires { IsEntryTree entries.now }
    ensures yes { result ≡ true → HasNames (tree_of entries.now) folder.now }
    ensures no { result ≡ false → IsBare (tree_of entries.now) folder.now }
{
    for entry in entries {
        if child_of(&entry.path, folder).is_some() {
            return true;
        }
    }
    false
}
