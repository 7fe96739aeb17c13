//! The law of the nodes.

ghost use Rattle.std.specs.Prelude.{◌≡◌, ◌≢◌, ◌↔◌, ◌+◌, ◌<◌, ◌^◌, ℕ, Bool, true, false, IsTrue, All, AllPairs, length, Some, None};
ghost use Rattle.std.specs.Option.{option_copied};
ghost use Rattle.tree.specs.declared.nodes.Node.{Node};
ghost use Rattle.tree.specs.declared.nodes.Key.{Key};
ghost use Rattle.tree.specs.declared.nodes.Place.TheVariants as Place;
ghost use Rattle.tree.specs.Places.{IsTree, IsRooted, IsNamed, Leads};
ghost use Rattle.tree.specs.Listed.{node_at, IsDistinct};
ghost use Rattle.table_law.specs.Law.{AreMarksNamed};
ghost use Rattle.table_image.specs.Parts.{HasOneRoot, AreNamesApart, AreAllReached, StandApart, IsMarkNamed, IsRootAlone, IsReached};

use tree::{Node, Place};

/// The node with this number.
pub fn find(nodes: &[Node], number: u64) -> Option<&Node>
    ensures { option_copied result ≡ node_at nodes.now number }
{
    for node in nodes {
        if node.number == number {
            return Some(node);
        }
    }
    None
}

/// Whether no number comes twice.
pub fn are_distinct(nodes: &[Node]) -> bool
    ensures { IsTrue result ↔ IsDistinct nodes.now }
{
    for (i, node) in nodes.iter().enumerate() {
        if find(&nodes[i + 1..], node.number).is_some() {
            return false;
        }
    }
    true
}

/// Whether number 1 is the root, in its first generation.
fn is_rooted(nodes: &[Node]) -> bool
    ensures { IsTrue result ↔ IsRooted (node_at nodes.now) }
{
    match find(nodes, 1) {
        Some(node) => matches!(&node.place, Place::Root) && node.generation == 0,
        None => false,
    }
}

/// Whether the node is number 1, or is not the root.
fn is_root_alone(node: &Node) -> bool
    ensures { IsTrue result ↔ IsRootAlone node.now }
{
    match &node.place {
        Place::Root => node.number == 1,
        _ => true,
    }
}

/// Whether no node but number 1 is the root.
fn has_one_root(nodes: &[Node]) -> bool
    requires { IsDistinct nodes.now }
    ensures { IsTrue result ↔ HasOneRoot (node_at nodes.now) }
{
    nodes.iter().all(|node| is_root_alone(node))
}

/// Whether the two nodes differ in their parent or in their name.
fn stand_apart(one: &Node, two: &Node) -> bool
    ensures { IsTrue result ↔ StandApart one.now two.now }
{
    match (&one.place, &two.place) {
        (Place::Named(key), Place::Named(other)) => {
            key.parent != other.parent || !key.name.is(&other.name)
        }
        _ => true,
    }
}

/// Whether the node differs from each of the others in its parent or in its name.
fn stands_apart(node: &Node, others: &[Node]) -> bool
    ensures { IsTrue result ↔ All (StandApart node.now) others.now }
{
    others.iter().all(|other| stand_apart(node, other))
}

/// Whether no two nodes have both the same parent and the same name.
fn are_names_apart(nodes: &[Node]) -> bool
    requires { IsDistinct nodes.now }
    ensures { IsTrue result ↔ AreNamesApart (node_at nodes.now) }
{
    for (i, node) in nodes.iter().enumerate() {
        if !stands_apart(node, &nodes[i + 1..]) {
            return false;
        }
    }
    true
}

/// Whether following parents from the number ends at the root.
fn leads_to_root(nodes: &[Node], number: u64) -> bool
    requires distinct { IsDistinct nodes.now }
    requires rooted { IsRooted (node_at nodes.now) }
    ensures { IsTrue result ↔ Leads (node_at nodes.now) number }
{
    let mut current = number;
    for _step in 0..nodes.len() {
        if current == 1 {
            return true;
        }
        let Some(node) = find(nodes, current) else {
            return false;
        };
        let Place::Named(key) = &node.place else {
            return false;
        };
        current = key.parent;
    }
    false
}

/// Whether following parents from the node, if it has a name, ends at the root.
fn is_reached(nodes: &[Node], node: &Node) -> bool
    requires distinct { IsDistinct nodes.now }
    requires rooted { IsRooted (node_at nodes.now) }
    ensures { IsTrue result ↔ IsReached (node_at nodes.now) node.now }
{
    match &node.place {
        Place::Named(_) => leads_to_root(nodes, node.number),
        _ => true,
    }
}

/// Whether following parents from any node with a name ends at the root.
fn are_all_reached(nodes: &[Node]) -> bool
    requires distinct { IsDistinct nodes.now }
    requires rooted { IsRooted (node_at nodes.now) }
    ensures { IsTrue result ↔ AreAllReached (node_at nodes.now) }
{
    nodes.iter().all(|node| is_reached(nodes, node))
}

#[tactic(auto, using(crate::proofs::Trees::tree_parts))]
/// Whether the nodes are a tree of names below the root, and nodes that are cut.
pub fn is_tree(nodes: &[Node]) -> bool
    requires { IsDistinct nodes.now }
    ensures { IsTrue result ↔ IsTree (node_at nodes.now) }
{
    is_rooted(nodes) && has_one_root(nodes) && are_names_apart(nodes) && are_all_reached(nodes)
}

/// Whether the node has a name if it has a hidden mark.
fn is_mark_named(node: &Node) -> bool
    ensures { IsTrue result ↔ IsMarkNamed node.now }
{
    match &node.place {
        Place::Named(_) => true,
        _ => !node.hidden,
    }
}

/// Whether each node with a hidden mark has a name.
pub fn are_marks_named(nodes: &[Node]) -> bool
    requires { IsDistinct nodes.now }
    ensures { IsTrue result ↔ AreMarksNamed (node_at nodes.now) }
{
    nodes.iter().all(|node| is_mark_named(node))
}
