//! Reading the nodes in a slab.

ghost use Rattle.std.specs.Prelude.{true, false, ◌≡◌, ◌≢◌, ◌<◌, ◌≤◌, ◌+◌, ◌^◌, ◌↔◌, ℕ, List, [], ◌∷◌, ◌++◌, None, Some, IfNone, IfSome, IfOk, IfErr, OnOk, IsTrue, length};
ghost use Rattle.std.specs.Option.{option_copied};
ghost use Rattle.slab.specs.Slab.{get, slab_len};
ghost use Rattle.paths.specs.Prefixes.{Names, path_bytes};
ghost use Rattle.tree.specs.declared.nodes.Node.{Node};
ghost use Rattle.tree.specs.declared.nodes.TreeFault.TheVariants as TreeFault;
ghost use Rattle.tree.specs.declared.nodes.Place.TheVariants as Place;
ghost use Rattle.tree.specs.Places.{IsAlive, IsNextAlive, IsNamed, IsPathOf, Reaches, IsBelow, IsTree, Leads, HasChild, IsFree};
ghost use Rattle.tree.specs.Listed.{IsClimbed, IsClimbFault, IsNameTooLong, IsLeastFree};
ghost use Rattle.tree.specs.Moves.{IsFault};
ghost use Rattle.tree.specs.Stored.{slot_at, listed};

use crate::nodes::{Node, Place, TreeFault};
use collections::children::{Linked, value_in};
use paths::{Name, Path};
use slab::Slab;
use std::alloc::{AllocError, Global};

/// No path has more bytes.
const PATH_BYTES: usize = 4096;

/// Most paths have no more names than this. Counting those of a path first would walk up to the root once more.
const MOST_DEPTHS: usize = 16;

/// The node with that number.
pub(crate) fn node_in(nodes: &Slab<Linked<Node>>, number: u64) -> Option<&Node>
    ensures { option_copied result ≡ slot_at nodes.now number }
{
    value_in(nodes, number)
}

/// The number of the node's parent, if the node has a name.
pub(crate) fn parent_of(nodes: &Slab<Linked<Node>>, number: u64) -> Option<u64>
    ensures none { IfNone result ((p : ℕ) (name : List ℕ) → IsNamed (slot_at nodes.now) number p name → ⊥) }
    ensures some { IfSome result (λ p. (name : List ℕ) × IsNamed (slot_at nodes.now) number p name) }
{
    let node = node_in(nodes, number)?;
    match &node.place {
        Place::Root => None,
        Place::Named(key) => Some(key.parent),
        Place::Cut => None,
    }
}

/// Whether following parents from the node leads to the other number.
pub(crate) fn climbs_to(nodes: &Slab<Linked<Node>>, number: u64, other: u64) -> bool
    requires short { (way : Names) → Reaches (slot_at nodes.now) other number way → length way < slab_len nodes.now }
    ensures yes { result ≡ true → IsBelow (slot_at nodes.now) other number }
    ensures no { result ≡ false → IsBelow (slot_at nodes.now) other number → ⊥ }
{
    let mut current = number;
    for _step in 0..nodes.len() {
        if current == other {
            return true;
        }
        match parent_of(nodes, current) {
            Some(parent) => current = parent,
            None => return false,
        }
    }
    false
}

/// The least number of a node above `number`.
pub(crate) fn next_alive(nodes: &Slab<Linked<Node>>, number: u64) -> Option<u64>
    ensures none { IfNone result ((n : ℕ) → IsAlive (slot_at nodes.now) n → n ≤ number) }
    ensures some { IfSome result (IsNextAlive (slot_at nodes.now) number) }
{
    for key in number as usize..nodes.capacity() {
        if nodes.contains(key) {
            return Some(key as u64 + 1);
        }
    }
    None
}

/// Checks that the node has a path.
pub(crate) fn expect_path(nodes: &Slab<Linked<Node>>, number: u64) -> Result<(), TreeFault>
    requires { IsTree (slot_at nodes.now) }
    ensures ok { OnOk result (Leads (slot_at nodes.now) number) }
    ensures err { IfErr result (IsFault (slot_at nodes.now) number) }
{
    let Some(node) = node_in(nodes, number) else {
        return Err(TreeFault::Unknown);
    };
    match &node.place {
        Place::Root => Ok(()),
        Place::Named(_) => Ok(()),
        Place::Cut => Err(TreeFault::Cut),
    }
}

/// An empty list with room for the names of most paths. The path's own list is made of it, and has no more room than it
/// needs.
pub(crate) fn room_for_path(alloc: Global) -> Result<Vec<Name>, TreeFault>
    ensures ok { IfOk result (λ names. names.items ≡ []) }
    ensures err { IfErr result (λ fault. fault ≡ TreeFault.Memory) }
{
    match Vec::with_capacity(alloc, MOST_DEPTHS) {
        Ok(names) => Ok(names),
        Err(_) => Err(TreeFault::Memory),
    }
}

/// The path from the root to the node, followed by the names in `below`. Those are in reverse order and have
/// `below_bytes` bytes.
pub(crate) fn climb(
    nodes: &Slab<Linked<Node>>,
    number: u64,
    below: Vec<Name>,
    below_bytes: usize,
) -> Result<Path, TreeFault>
    requires tree { IsTree (slot_at nodes.now) }
    requires leads { Leads (slot_at nodes.now) number }
    requires bytes { below_bytes ≡ path_bytes below.items }
    requires few { below_bytes ≤ 4096 }
    ensures ok { IfOk result (λ p. IsClimbed (slot_at nodes.now) number below.items p × (path_bytes p ≤ 4096)) }
    ensures err { IfErr result (IsClimbFault (slot_at nodes.now) number below.items) }
{
    let mut names = below;
    let mut bytes = below_bytes;
    let mut current = number;
    for _step in 0..nodes.len() {
        if current == 1 {
            names.reverse();
            let path = path_of(names)?;
            return Ok(path);
        }
        let Some(node) = node_in(nodes, current) else {
            unreachable!();
        };
        let Place::Named(key) = &node.place else {
            unreachable!();
        };
        bytes = add_name(&mut names, bytes, &key.name)?;
        current = key.parent;
    }
    unreachable!()
}

/// The path from the root to the node, whatever its length.
pub(crate) fn way_to(
    alloc: Global,
    nodes: &Slab<Linked<Node>>,
    number: u64,
) -> Result<Path, AllocError>
    requires tree { IsTree (slot_at nodes.now) }
    requires leads { Leads (slot_at nodes.now) number }
    ensures { IfOk result (IsPathOf (slot_at nodes.now) number) }
{
    let mut names = Vec::new(alloc);
    let mut current = number;
    for _step in 0..nodes.len() {
        if current == 1 {
            names.reverse();
            let path = Path::from_names(names)?;
            return Ok(path);
        }
        let Some(node) = node_in(nodes, current) else {
            unreachable!();
        };
        let Place::Named(key) = &node.place else {
            unreachable!();
        };
        let name = key.name.copy()?;
        names.push(name)?;
        current = key.parent;
    }
    unreachable!()
}

/// The path with these names.
fn path_of(names: Vec<Name>) -> Result<Path, TreeFault>
    ensures ok { IfOk result (λ p. p ≡ names.items) }
    ensures err { IfErr result (λ fault. fault ≡ TreeFault.Memory) }
{
    match Path::from_names(names) {
        Ok(path) => Ok(path),
        Err(_) => Err(TreeFault::Memory),
    }
}

/// Appends a copy of the name to names that have `bytes` bytes, and returns the bytes of all.
pub(crate) fn add_name(names: &mut Vec<Name>, bytes: usize, name: &Name) -> Result<usize, TreeFault>
    requires { bytes ≤ 4096 }
    ensures ok { IfOk result (λ sum. (sum ≡ bytes + length name.now + 1) × (sum ≤ 4096)) }
    ensures names { OnOk result (names.new.items ≡ names.old.items ++ name.now ∷ []) }
    ensures err { IfErr result (IsNameTooLong bytes name.now) }
{
    let len = name.len();
    if len >= PATH_BYTES - bytes {
        return Err(TreeFault::PathLong);
    }
    let Ok(copy) = name.copy() else {
        return Err(TreeFault::Memory);
    };
    match names.push(copy) {
        Ok(()) => Ok(bytes + len + 1),
        Err(_) => Err(TreeFault::Memory),
    }
}

/// The least number from 1 on that no node has.
pub(crate) fn least_free(nodes: &Slab<Linked<Node>>) -> u64
    requires tree { IsTree (slot_at nodes.now) }
    requires few { slab_len nodes.now ≤ 2 ^ 62 }
    ensures { IsLeastFree (listed nodes.now.slots) result }
{
    let mut number = 1;
    while let Some(_node) = node_in(nodes, number) {
        number += 1;
    }
    number
}
