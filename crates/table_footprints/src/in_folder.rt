//! Looking up names in one folder, whose path is made once for all of them.

ghost use Rattle.std.specs.Prelude.{◌≡◌, ◌-◌, ◌++◌, ◌∷◌, [], All, Contains, IfOk, IfErr, OnOk, map};
ghost use Rattle.paths.specs.Prefixes.{path_bytes};
ghost use Rattle.holds.specs.declared.held.GivenPath.{GivenPath as Lead};
ghost use Rattle.tree.specs.Places.{IsPathOf, IsTree, Lookup, at_in};
ghost use Rattle.table_footprints.specs.Footprints.{AtName};
ghost use Rattle.table_footprints.specs.Gatherings.{IsBadPath};
ghost use Rattle.table_footprints.specs.InFolder.{IsFolderPath, IsNameFound};

use crate::refusal::FootprintRefusal;
use holds::GivenPath;
use paths::{Name, Path};
use std::alloc::{AllocError, Global};
use tree::{Key, Tree};

/// No path has more bytes.
const PATH_BYTES: usize = 4096;

/// The path of a folder, from which the paths of the names in it are made.
#[derive(Drop)]
pub(crate) struct FolderPath {
    path: Path,
    /// How many bytes a path in the folder may have more than this one.
    room: usize,
}

/// What is at a name in a folder.
#[derive(Drop)]
pub(crate) struct FoundName {
    pub(crate) path: Path,
    /// The node with the name, if any.
    pub(crate) node: Option<u64>,
}

/// How many bytes more a path may have than this one.
fn room_below(path: &Path) -> usize
    ensures { result ≡ 4096 - path_bytes path.now }
{
    match path.bytes() {
        Some(bytes) => PATH_BYTES.saturating_sub(bytes),
        None => 0,
    }
}

/// The path of a folder, which is one of the nodes that a request names. The only error is that of a copy.
pub(crate) fn folder_path(given: &[GivenPath], folder: u64) -> Result<FolderPath, AllocError>
    requires { Contains (map (λ (lead : Lead). lead.number) given.now) folder }
    ensures { IfOk result (λ place. (at : Lookup) → All (λ (lead : Lead). IsPathOf at lead.number lead.path) given.now → IsFolderPath at folder place) }
{
    for lead in given {
        if lead.number == folder {
            let path = lead.path.copy()?;
            let room = room_below(&path);
            return Ok(FolderPath { path, room });
        }
    }
    unreachable!()
}

/// The path of the name in a folder with that path.
fn path_under(alloc: Global, above: &Path, name: Name) -> Result<Path, AllocError>
    ensures { IfOk result (λ p. p ≡ above.now ++ name ∷ []) }
{
    let mut names = Vec::with_capacity(alloc, above.len().saturating_add(1))?;
    for other in above.names() {
        names.push(other.copy()?)?;
    }
    names.push(name)?;
    Path::from_names(names)
}

/// What is at a name in the folder.
pub(crate) fn find_in(
    alloc: Global,
    tree: &Tree,
    folder: u64,
    place: &FolderPath,
    name: &Name,
) -> Result<FoundName, FootprintRefusal>
    requires { IsFolderPath (at_in tree.now) folder place.now }
    ensures ok { IfOk result (IsNameFound (at_in tree.now) (AtName folder name.now)) }
    ensures err { IfErr result (IsBadPath (at_in tree.now) (AtName folder name.now)) }
{
    if name.len() >= place.room {
        return Err(FootprintRefusal::TooLong);
    }
    let key = Key {
        parent: folder,
        name: name.copy()?,
    };
    let node = tree.find(&key);
    // The copy that was looked up becomes the last name of the path.
    let Key { parent: _, name } = key;
    let path = path_under(alloc, &place.path, name)?;
    Ok(FoundName { path, node })
}
