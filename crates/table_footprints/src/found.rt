//! Looking up what is at a location.

ghost use Rattle.std.specs.Prelude.{◌<◌, ◌≡◌, ◌↔◌, ◌++◌, ◌∷◌, [], Any, IfOk, IfErr, IsTrue, OnOk, length};
ghost use Rattle.paths.specs.Prefixes.{Name as Spelt, Names};
ghost use Rattle.tree.specs.Places.{IsCensus, IsTree, Leads, at_in};
ghost use Rattle.table_footprints.specs.Gatherings.{AreEnough, AreExchangeable, AreRooted, CanMove, IsBadPath, IsFound, IsLost, IsWrongChange, MayChange, refusal_errno, location_of, told};
ghost use Rattle.table_footprints.specs.Asked.{IsProperPrefix, IsRefusedExchange, IsRefusedMove};
ghost use Rattle.table_footprints.specs.Laws.{base_of};
ghost use Rattle.table_footprints.specs.Footprints as footprints;

use crate::footprints::{ChangeKind, Location};
use crate::refusal::FootprintRefusal;
use paths::{Name, Path};
use std::alloc::{AllocError, Global};
use tree::{Key, Tree};

/// What is at a location.
#[derive(Drop)]
pub(crate) struct AtLocation {
    /// The path of the node, or of the parent of the name.
    pub(crate) above: Path,
    pub(crate) path: Path,
    /// The node at the location, if any.
    pub(crate) node: Option<u64>,
}

/// The path above the last name of this one.
pub(crate) fn above(path: &Path) -> Result<Path, AllocError>
    ensures { IfOk result (λ up. (above : Names) (name : Spelt) → path.now ≡ above ++ name ∷ [] → up ≡ above) }
{
    let up = path.prefix(path.len().saturating_sub(1))?;
    Ok(up)
}

/// What is at the place of a node.
fn find_node(alloc: Global, tree: &Tree, number: u64) -> Result<AtLocation, FootprintRefusal>
    requires { Leads (at_in tree.now) number }
    ensures ok { IfOk result (IsFound (at_in tree.now) (footprints.AtNode number)) }
    ensures err { IfErr result (IsBadPath (at_in tree.now) (footprints.AtNode number)) }
{
    let path = tree.path(alloc, number)?;
    let above = path.copy()?;
    Ok(AtLocation {
        above,
        path,
        node: Some(number),
    })
}

/// What is at a name under a node.
fn find_name(
    alloc: Global,
    tree: &Tree,
    parent: u64,
    name: &Name,
) -> Result<AtLocation, FootprintRefusal>
    requires { Leads (at_in tree.now) parent }
    ensures ok { IfOk result (IsFound (at_in tree.now) (footprints.AtName parent name.now)) }
    ensures err { IfErr result (IsBadPath (at_in tree.now) (footprints.AtName parent name.now)) }
{
    let name = name.copy()?;
    let key = Key { parent, name };
    let path = tree.path_of_name(alloc, &key)?;
    let node = tree.find(&key);
    let above = above(&path)?;
    Ok(AtLocation { above, path, node })
}

/// What is at the location.
pub(crate) fn find(
    alloc: Global,
    tree: &Tree,
    location: &Location,
) -> Result<AtLocation, FootprintRefusal>
    requires { Leads (at_in tree.now) (base_of (location_of location.now)) }
    ensures ok { IfOk result (IsFound (at_in tree.now) (location_of location.now)) }
    ensures err { IfErr result (IsBadPath (at_in tree.now) (location_of location.now)) }
{
    match location {
        Location::AtNode(number) => find_node(alloc, tree, *number),
        Location::AtName(parent, name) => find_name(alloc, tree, *parent, name),
    }
}

/// Checks that each node leads to the root.
pub(crate) fn expect_rooted(tree: &Tree, locations: &[Location]) -> Result<(), FootprintRefusal>
    requires { 0 < length locations.now }
    ensures ok { OnOk result (AreRooted (at_in tree.now) (told locations.now)) }
    ensures err { IfErr result (λ refusal. (refusal ≡ FootprintRefusal.Stale) × Any (IsLost (at_in tree.now)) (told locations.now)) }
    ensures census { IsCensus (at_in tree.now) tree.now.living tree.now.counts }
    ensures tree { IsTree (at_in tree.now) }
{
    for location in locations {
        if !tree.is_below(location.base(), 1) {
            return Err(FootprintRefusal::Stale);
        }
    }
    Ok(())
}

/// Whether the path leads to the other one, which is longer. Names are compared only if it is.
fn is_proper_prefix(path: &Path, other: &Path) -> bool
    ensures { IsTrue result ↔ IsProperPrefix path.now other.now }
{
    path.len() < other.len() && path.is_prefix_of(other)
}

/// Checks that the path may be moved to the target.
fn expect_movable(path: &Path, target: &Path) -> Result<(), FootprintRefusal>
    ensures ok { OnOk result (CanMove path.now target.now) }
    ensures err { IfErr result (λ refusal. IsRefusedMove path.now target.now (refusal_errno refusal)) }
{
    if is_proper_prefix(path, target) {
        return Err(FootprintRefusal::IntoItself);
    }
    if is_proper_prefix(target, path) {
        return Err(FootprintRefusal::OntoFolder);
    }
    Ok(())
}

/// Checks that the two paths may be exchanged.
fn expect_exchangeable(path: &Path, other: &Path) -> Result<(), FootprintRefusal>
    ensures ok { OnOk result (AreExchangeable path.now other.now) }
    ensures err { IfErr result (λ refusal. IsRefusedExchange path.now other.now (refusal_errno refusal)) }
{
    if is_proper_prefix(path, other) {
        return Err(FootprintRefusal::IntoItself);
    }
    if is_proper_prefix(other, path) {
        return Err(FootprintRefusal::IntoItself);
    }
    Ok(())
}

/// Checks that the paths allow the change.
pub(crate) fn expect_change(change: ChangeKind, paths: &[Path]) -> Result<(), FootprintRefusal>
    requires { AreEnough change (length paths.now) }
    ensures ok { OnOk result (MayChange change paths.now) }
    ensures err { IfErr result (λ refusal. IsWrongChange change paths.now (refusal_errno refusal)) }
{
    match change {
        ChangeKind::Stays | ChangeKind::Cuts => Ok(()),
        ChangeKind::Moves => expect_movable(&paths[0], &paths[1]),
        ChangeKind::Exchanges => expect_exchangeable(&paths[0], &paths[1]),
    }
}
