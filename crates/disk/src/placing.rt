//! Spots that come and go.

ghost use Rattle.std.specs.Prelude.{ℕ, ◌≡◌, ◌≢◌, [], ◌∷◌, ◌++◌, Some, None, IfErr, OnErr, OnOk};
ghost use Rattle.backing.specs.Tree.{Resolves};
ghost use Rattle.disk.specs.Answers.{MakesItem, MakesNone, Removes, RemovesDir};
ghost use Rattle.disk.specs.Spots.{tree_of, path_of, stands_in, item_of, IsLawful, IsFailure, NoneComes};

use crate::error::DiskError;
use crate::finding::{has_names, index_at};
use crate::spot::{Content, Spot};
use errno::ENOMEM;
use paths::Path;

/// Puts what is given where nothing stands.
pub fn make(
    spots: &mut Vec<Spot>,
    number: u64,
    path: &Path,
    content: Content,
) -> Result<(), DiskError>
    requires lawful { IsLawful spots.old.items }
    requires leads { Resolves (tree_of spots.old.items) path.now }
    requires fresh { path_of spots.old.items number ≡ None }
    ensures made { OnOk result (MakesItem (tree_of spots.old.items) (stands_in spots.old.items) path.now (item_of content) (tree_of spots.new.items) (stands_in spots.new.items)) }
    ensures number { OnOk result (path_of spots.new.items number ≡ Some path.now) }
    ensures not { IfErr result (λ error. MakesNone (tree_of spots.old.items) (stands_in spots.old.items) path.now (item_of content) error (tree_of spots.new.items) (stands_in spots.new.items)) }
    ensures err { OnErr result (spots.new.items ≡ spots.old.items) }
    ensures lawful { IsLawful spots.new.items }
    ensures others { OnOk result ((n : ℕ) → n ≢ number → path_of spots.old.items n ≡ None → path_of spots.new.items n ≡ None) }
{
    match index_at(spots, path) {
        Some(_) => return Err(DiskError::Exists),
        None => {}
    }
    let Ok(path) = path.copy() else {
        return Err(DiskError::Failed(ENOMEM));
    };
    let spot = Spot {
        number,
        path,
        content,
    };
    match push(spots, spot) {
        Ok(()) => Ok(()),
        Err(error) => Err(error),
    }
}

/// One spot more. Want of memory is the only error.
fn push(spots: &mut Vec<Spot>, spot: Spot) -> Result<(), DiskError>
    ensures ok { OnOk result (spots.new.items ≡ spots.old.items ++ spot ∷ []) }
    ensures err { OnErr result (spots.new.items ≡ spots.old.items) }
    ensures failure { IfErr result IsFailure }
{
    match spots.push(spot) {
        Ok(()) => Ok(()),
        Err(_) => Err(DiskError::Failed(ENOMEM)),
    }
}

/// Removes what is no folder.
pub fn remove_file(spots: &mut Vec<Spot>, path: &Path) -> Result<(), DiskError>
    requires lawful { IsLawful spots.old.items }
    requires below_root { path.now ≢ [] }
    ensures removes { Removes (tree_of spots.old.items) (stands_in spots.old.items) path.now result (tree_of spots.new.items) (stands_in spots.new.items) }
    ensures lawful { IsLawful spots.new.items }
    ensures none { NoneComes spots.old.items spots.new.items }
{
    let Some(i) = index_at(spots, path) else {
        return Err(DiskError::Absent);
    };
    let spot = &spots[i];
    match spot.content {
        Content::Folder => return Err(DiskError::IsFolder),
        Content::File(_) | Content::Link(_) | Content::Special(_) => {}
    }
    let _gone = spots.remove(i);
    Ok(())
}

/// Removes the folder, which has no names.
pub fn remove_dir(spots: &mut Vec<Spot>, path: &Path) -> Result<(), DiskError>
    requires lawful { IsLawful spots.old.items }
    requires below_root { path.now ≢ [] }
    ensures removes { RemovesDir (tree_of spots.old.items) (stands_in spots.old.items) path.now result (tree_of spots.new.items) (stands_in spots.new.items) }
    ensures lawful { IsLawful spots.new.items }
    ensures none { NoneComes spots.old.items spots.new.items }
{
    let Some(i) = index_at(spots, path) else {
        return Err(DiskError::Absent);
    };
    let spot = &spots[i];
    match spot.content {
        Content::File(_) | Content::Link(_) | Content::Special(_) => {
            return Err(DiskError::NotFolder);
        }
        Content::Folder => {}
    }
    if has_names(spots, path) {
        return Err(DiskError::NotEmpty);
    }
    let _gone = spots.remove(i);
    Ok(())
}
