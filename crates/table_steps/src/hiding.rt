//! Hiding what was to be cut or replaced.

ghost use Rattle.std.specs.Prelude.{◌≡◌, option_map};
ghost use Rattle.std.specs.List.{slice_get};
ghost use Rattle.table_steps.specs.Ending.{candidates_in, change_in, keyed_name, names_in};
ghost use Rattle.table_steps.specs.Steps.{hiding_at, replacing_at};

use crate::acts::NameChange;
use crate::keys::{FolderKeys, Keys};

/// The keys of the name with that index, counted from 0, if there is one.
fn key_at(keys: FolderKeys, index: u8) -> Option<Keys>
    ensures { option_map keyed_name result ≡ slice_get (names_in keys) index }
{
    let FolderKeys {
        folder,
        names,
        copies,
    } = keys;
    let mut names = names.into_vec();
    let mut copies = copies.into_vec();
    let i = index as usize;
    if i >= names.len() {
        return None;
    }
    let name = names.swap_remove(i);
    let copy = copies.swap_remove(i);
    Some(Keys::new(folder, name, Some(copy)))
}

/// The keys of the candidate with that index, counted from 0, if there is one.
fn candidate_at(candidates: Option<FolderKeys>, index: u8) -> Option<Keys>
    ensures { option_map keyed_name result ≡ slice_get (candidates_in candidates) index }
{
    match candidates {
        Some(keys) => key_at(keys, index),
        None => None,
    }
}

/// Instead of cutting, hides under the candidate with that index. If there is no such candidate, nothing changes.
pub(crate) fn hide(change: NameChange, candidates: Option<FolderKeys>, index: u8) -> NameChange
    ensures { change_in result ≡ hiding_at (change_in change) (slice_get (candidates_in candidates) index) }
{
    let Some(candidate) = candidate_at(candidates, index) else {
        return NameChange::Stays;
    };
    match change {
        NameChange::Cuts(key) => NameChange::Hides(key, candidate),
        _ => NameChange::Stays,
    }
}

/// Instead of replacing, hides what would be replaced under the candidate with that index, and then, if `moved`, makes
/// the move. If there is no such candidate, nothing changes.
pub(crate) fn replace(
    change: NameChange,
    candidates: Option<FolderKeys>,
    index: u8,
    moved: bool,
) -> NameChange
    ensures { change_in result ≡ replacing_at (change_in change) (slice_get (candidates_in candidates) index) moved }
{
    let Some(candidate) = candidate_at(candidates, index) else {
        return NameChange::Stays;
    };
    match change {
        NameChange::Moves(key, target) => NameChange::Replaces(key, target, candidate, moved),
        _ => NameChange::Stays,
    }
}
