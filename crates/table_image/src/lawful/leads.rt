//! The law of the paths recorded for the nodes of a request.

ghost use Rattle.std.specs.Prelude.{◌≡◌, ◌↔◌, ◌<◌, ◌≤◌, ◌+◌, IsTrue, All, Contains, take, length};
ghost use Rattle.tree.specs.Places.{IsPathOf};
ghost use Rattle.tree.specs.Listed.{node_at};
ghost use Rattle.holds.specs.Conflicts.{IsHeld};
ghost use Rattle.table_law.specs.Law.{IsGivenPath};
ghost use Rattle.table_image.specs.ImageLaw.{IsKnown, AreKnown};
ghost use Rattle.table_image.specs.Parts.{ArePrefixesHeld};

use crate::data::Record;
use crate::lawful::held::is_working;
use crate::lawful::nodes::find;
use holds::{GivenPath, Held};
use paths::Path;
use tree::{Node, Place};

/// Whether following parents from the number passes the names of the path, last one first, and then reaches the root.
fn is_path_of(nodes: &[Node], number: u64, path: &Path) -> bool
    ensures { IsTrue result ↔ IsPathOf (node_at nodes.now) number path.now }
{
    let names = path.names();
    let mut current = number;
    for k in (0..names.len()).rev() {
        let Some(node) = find(nodes, current) else {
            return false;
        };
        let Place::Named(key) = &node.place else {
            return false;
        };
        if !key.name.is(&names[k]) {
            return false;
        }
        current = key.parent;
    }
    current == 1
}

#[tactic(auto, using(crate::proofs::Leading::first_names))]
/// Whether `other` is the prefix of the path with `len` names.
fn is_prefix(other: &Path, path: &Path, len: usize) -> bool
    requires { len ≤ length path.now }
    ensures { IsTrue result ↔ (other.now ≡ take len path.now) }
{
    other.len() == len && other.is_prefix_of(path)
}

/// Whether the paths include the prefix with `len` names.
fn has_prefix(paths: &[Path], path: &Path, len: usize) -> bool
    requires { len ≤ length path.now }
    ensures { IsTrue result ↔ Contains paths.now (take len path.now) }
{
    paths.iter().any(|other| is_prefix(other, path, len))
}

/// Whether the request holds the prefix with `len` names.
fn is_prefix_held(held: &Held, path: &Path, len: usize) -> bool
    requires { len ≤ length path.now }
    ensures { IsTrue result ↔ IsHeld held.now (take len path.now) }
{
    has_prefix(held.shared.as_slice(), path, len)
        || has_prefix(held.exclusive.as_slice(), path, len)
}

/// Whether the request holds each prefix of the path except the empty one.
fn are_prefixes_held(held: &Held, path: &Path) -> bool
    ensures { IsTrue result ↔ ArePrefixesHeld held.now path.now }
{
    for i in 0..path.len() {
        if !is_prefix_held(held, path, i + 1) {
            return false;
        }
    }
    true
}

#[tactic(auto, unfolding(crate::specs::Parts::ArePrefixesHeld))]
/// Whether the path recorded for a node leads to it, and the request holds each prefix of it.
fn is_lead(nodes: &[Node], held: &Held, lead: &GivenPath) -> bool
    ensures { IsTrue result ↔ IsGivenPath (node_at nodes.now) held.now lead.now }
{
    is_path_of(nodes, lead.number, &lead.path) && are_prefixes_held(held, &lead.path)
}

/// Whether each recorded path leads to its node, and the request holds its prefixes.
fn are_leads(nodes: &[Node], held: &Held, leads: &[GivenPath]) -> bool
    ensures { IsTrue result ↔ All (IsGivenPath (node_at nodes.now) held.now) leads.now }
{
    leads.iter().all(|lead| is_lead(nodes, held, lead))
}

/// Whether the request is not in progress, or the paths recorded for it lead to their nodes.
fn is_known(nodes: &[Node], holder: &Record) -> bool
    ensures { IsTrue result ↔ IsKnown (node_at nodes.now) holder.now }
{
    !is_working(holder) || are_leads(nodes, &holder.held, holder.held.given.as_slice())
}

/// Whether the paths recorded for each request in progress lead to their nodes.
pub fn are_known(nodes: &[Node], records: &[Record]) -> bool
    ensures { IsTrue result ↔ AreKnown (node_at nodes.now) records.now }
{
    records.iter().all(|record| is_known(nodes, record))
}
