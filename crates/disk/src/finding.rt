//! Spots that are looked for in a list of them.

ghost use Rattle.std.specs.Prelude.{true, false, ◌≡◌, ℕ, List, [], ◌∷◌, ◌++◌, None, IfOk, IfSome, IfNone, OnOk};
ghost use Rattle.backing.specs.Tree.{HasNames, IsBare};
ghost use Rattle.disk.specs.Answers.{ListsNames};
ghost use Rattle.disk.specs.Spots.{tree_of, path_of, IsLawful, IsSpotAt, LeadsTo};

use crate::spot::Spot;
use paths::{Name, Path};
use std::alloc::{AllocError, Global};

/// The place in the list of the spot of that number.
pub fn index_of(spots: &[Spot], number: u64) -> Option<usize>
    requires { IsLawful spots.now }
    ensures none { IfNone result (path_of spots.now number ≡ None) }
    ensures found { IfSome result (λ i. LeadsTo spots.now number i) }
{
    for (i, spot) in spots.iter().enumerate() {
        if spot.number == number {
            return Some(i);
        }
    }
    None
}

/// The place in the list of the spot at that path.
pub fn index_at(spots: &[Spot], path: &Path) -> Option<usize>
    requires { IsLawful spots.now }
    ensures none { IfNone result (tree_of spots.now path.now ≡ None) }
    ensures found { IfSome result (λ i. IsSpotAt spots.now path.now i) }
{
    for (i, spot) in spots.iter().enumerate() {
        if spot.path.is(path) {
            return Some(i);
        }
    }
    None
}

/// The last name of the path, where the rest is that folder's.
pub fn child_of<'a>(path: &'a Path, folder: &Path) -> Option<&'a Name>
    ensures some { IfSome result (λ name. path.now ≡ folder.now ++ name.now ∷ []) }
    ensures none { IfNone result ((name : List ℕ) → path.now ≡ folder.now ++ name ∷ [] → ⊥) }
{
    if !folder.is_prefix_of(path) {
        return None;
    }
    let (_, below) = path.names().split_at(folder.len());
    if below.len() == 1 {
        Some(&below[0])
    } else {
        None
    }
}

/// Whether a name stands in the folder.
pub fn has_names(spots: &[Spot], folder: &Path) -> bool
    requires { IsLawful spots.now }
    ensures yes { result ≡ true → HasNames (tree_of spots.now) folder.now }
    ensures no { result ≡ false → IsBare (tree_of spots.now) folder.now }
{
    for spot in spots {
        if child_of(&spot.path, folder).is_some() {
            return true;
        }
    }
    false
}

/// The names that stand in the folder.
pub fn names_in(alloc: Global, spots: &[Spot], folder: &Path) -> Result<Vec<Name>, AllocError>
    requires { IsLawful spots.now }
    ensures { IfOk result (λ names. ListsNames (tree_of spots.now) folder.now names.items) }
{
    let mut names = Vec::new(alloc);
    for spot in spots {
        match child_of(&spot.path, folder) {
            Some(name) => push_name(&mut names, name)?,
            None => {}
        }
    }
    Ok(names)
}

/// One more name.
fn push_name(names: &mut Vec<Name>, name: &Name) -> Result<(), AllocError>
    ensures { OnOk result (names.new.items ≡ names.old.items ++ name.now ∷ []) }
{
    names.push(name.copy()?)?;
    Ok(())
}
