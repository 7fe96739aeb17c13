//! The law of the open files.

ghost use Rattle.std.specs.Prelude.{◌≡◌, ◌≢◌, ◌↔◌, IsTrue, All, AllPairs};
ghost use Rattle.table_files.specs.declared.listed.OpenEntry.{OpenEntry};
ghost use Rattle.table_files.specs.OpenEntry.{opened_in};
ghost use Rattle.tree.specs.Listed.{node_at};
ghost use Rattle.table_law.specs.Law.{AreAlive, HasNode, IsKnownFile};
ghost use Rattle.table_image.specs.Parts.{HaveOtherHandles, IsOfLiving};

use crate::lawful::nodes::find;
use crate::lawful::records::is_alive;
use table_files::{OpenEntry, OpenFile};
use tree::Node;

/// Whether the two files have different handles.
fn has_other_handle(one: &OpenEntry, two: &OpenEntry) -> bool
    ensures { IsTrue result ↔ HaveOtherHandles one.now two.now }
{
    one.handle != two.handle
}

/// Whether none of the others has the same handle.
fn has_own_handle(one: &OpenEntry, others: &[OpenEntry]) -> bool
    ensures { IsTrue result ↔ All (HaveOtherHandles one.now) others.now }
{
    others.iter().all(|other| has_other_handle(one, other))
}

/// Whether no two files have the same handle.
pub fn are_handles_distinct(files: &[OpenEntry]) -> bool
    ensures { IsTrue result ↔ AllPairs (λ f g. f.handle ≢ g.handle) files.now }
{
    for (i, file) in files.iter().enumerate() {
        if !has_own_handle(file, &files[i + 1..]) {
            return false;
        }
    }
    true
}

/// Whether a file of the node is open.
pub fn is_open(files: &[OpenEntry], number: u64) -> bool
    ensures { result ≡ opened_in files.now number }
{
    files.iter().any(|file| file.file.number == number)
}

#[tactic(auto, unfolding(crate::specs::Parts::IsOfLiving, crate::specs::Parts::IsLiving))]
/// Whether the node of the file is alive.
fn is_of_living(nodes: &[Node], file: &OpenEntry) -> bool
    ensures { IsTrue result ↔ IsOfLiving (node_at nodes.now) file.now }
{
    is_alive(nodes, file.file.number)
}

/// Whether each open file is of a living node.
pub fn are_files_alive(nodes: &[Node], files: &[OpenEntry]) -> bool
    ensures { IsTrue result ↔ AreAlive (node_at nodes.now) (opened_in files.now) }
{
    files.iter().all(|file| is_of_living(nodes, file))
}

/// Whether the node of the open file is alive, with the generation that it had when the file was opened.
fn has_node(nodes: &[Node], file: &OpenFile) -> bool
    ensures { IsTrue result ↔ HasNode (node_at nodes.now) file.now }
{
    match find(nodes, file.number) {
        Some(node) => node.generation == file.generation,
        None => false,
    }
}

/// Whether the file is of a living node, and its handle was given out.
fn is_known_file(nodes: &[Node], file: &OpenEntry, last: u64) -> bool
    ensures { IsTrue result ↔ IsKnownFile (node_at nodes.now) last file.now }
{
    file.handle <= last && has_node(nodes, &file.file)
}

/// Whether each file is of a living node, and its handle was given out.
pub fn are_files_known(nodes: &[Node], files: &[OpenEntry], last: u64) -> bool
    ensures { IsTrue result ↔ All (IsKnownFile (node_at nodes.now) last) files.now }
{
    files.iter().all(|file| is_known_file(nodes, file, last))
}
