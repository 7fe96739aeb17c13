//! The law of the nodes and the requests together.

ghost use Rattle.std.specs.Prelude.{◌≡◌, ◌≢◌, ◌↔◌, IsTrue, All, AllPairs};
ghost use Rattle.tree.specs.declared.nodes.Node.{Node};
ghost use Rattle.table_image.specs.declared.data.Record.{Record};
ghost use Rattle.tree.specs.Places.{HasChild};
ghost use Rattle.tree.specs.Listed.{node_at, IsDistinct};
ghost use Rattle.table_law.specs.Law.{AreAlive, HaveReasons};
ghost use Rattle.table_image.specs.ImageLaw.{is_kept, is_pinned};
ghost use Rattle.table_image.specs.Parts.{IsLiving, PinsLiving, HaveOtherIds, IsChildOf, IsReasoned};

use crate::data::Record;
use crate::lawful::nodes::find;
use crate::lawful::opened::{are_files_alive, is_open};
use table_files::OpenEntry;
use tree::{Node, Place};

/// Whether the two requests have different ids.
fn has_other_id(one: &Record, two: &Record) -> bool
    ensures { IsTrue result ↔ HaveOtherIds one.now two.now }
{
    one.id != two.id
}

/// Whether none of the others has the same id.
fn has_own_id(one: &Record, others: &[Record]) -> bool
    ensures { IsTrue result ↔ All (HaveOtherIds one.now) others.now }
{
    others.iter().all(|other| has_other_id(one, other))
}

/// Whether no two requests have the same id.
pub fn are_ids_distinct(records: &[Record]) -> bool
    ensures { IsTrue result ↔ AllPairs (λ r s. r.id ≢ s.id) records.now }
{
    for (i, record) in records.iter().enumerate() {
        if !has_own_id(record, &records[i + 1..]) {
            return false;
        }
    }
    true
}

/// Whether some request pins the number.
fn is_pinned(records: &[Record], number: u64) -> bool
    ensures { result ≡ is_pinned records.now number }
{
    records.iter().any(|record| record.pins.contains(number))
}

/// Whether some request pins the number, or a file of it is open.
fn is_kept(records: &[Record], files: &[OpenEntry], number: u64) -> bool
    ensures { result ≡ is_kept records.now files.now number }
{
    is_pinned(records, number) || is_open(files, number)
}

#[tactic(auto, unfolding(crate::specs::Parts::IsLiving))]
/// Whether some node has the number.
pub fn is_alive(nodes: &[Node], number: u64) -> bool
    ensures { IsTrue result ↔ IsLiving (node_at nodes.now) number }
{
    find(nodes, number).is_some()
}

/// Whether each of the numbers has a living node.
fn are_alive(nodes: &[Node], numbers: &[u64]) -> bool
    ensures { IsTrue result ↔ All (IsLiving (node_at nodes.now)) numbers.now }
{
    numbers.iter().all(|number| is_alive(nodes, *number))
}

/// Whether each number that the request pins has a living node.
fn pins_living(nodes: &[Node], holder: &Record) -> bool
    ensures { IsTrue result ↔ PinsLiving (node_at nodes.now) holder.now }
{
    are_alive(nodes, holder.pins.as_slice())
}

/// Whether each pin is of a living node.
fn are_pins_alive(nodes: &[Node], records: &[Record]) -> bool
    ensures { IsTrue result ↔ AreAlive (node_at nodes.now) (is_pinned records.now) }
{
    records.iter().all(|record| pins_living(nodes, record))
}

/// Whether each pin and each open file is of a living node.
pub fn are_all_alive(nodes: &[Node], records: &[Record], files: &[OpenEntry]) -> bool
    ensures { IsTrue result ↔ AreAlive (node_at nodes.now) (is_kept records.now files.now) }
{
    are_pins_alive(nodes, records) && are_files_alive(nodes, files)
}

/// Whether the node has that parent.
fn is_child_of(node: &Node, parent: u64) -> bool
    ensures { IsTrue result ↔ IsChildOf parent node.now }
{
    match &node.place {
        Place::Named(key) => key.parent == parent,
        _ => false,
    }
}

/// Whether some node has that number as its parent.
fn has_child(nodes: &[Node], number: u64) -> bool
    requires { IsDistinct nodes.now }
    ensures { IsTrue result ↔ HasChild (node_at nodes.now) number }
{
    nodes.iter().any(|node| is_child_of(node, number))
}

/// Whether the node is the root, or has a lookup count, a mark, a pin, an open file or a child with a name.
fn is_reasoned(nodes: &[Node], records: &[Record], files: &[OpenEntry], node: &Node) -> bool
    requires { IsDistinct nodes.now }
    ensures { IsTrue result ↔ IsReasoned (node_at nodes.now) (is_kept records.now files.now) node.now }
{
    node.number == 1
        || node.count > 0
        || node.hidden
        || is_kept(records, files, node.number)
        || has_child(nodes, node.number)
}

/// Whether each node except the root has a reason to be alive.
pub fn have_reasons(nodes: &[Node], records: &[Record], files: &[OpenEntry]) -> bool
    requires { IsDistinct nodes.now }
    ensures { IsTrue result ↔ HaveReasons (node_at nodes.now) (is_kept records.now files.now) }
{
    nodes
        .iter()
        .all(|node| is_reasoned(nodes, records, files, node))
}
