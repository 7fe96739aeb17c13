//! Hidden files that still exist.

ghost use Rattle.std.specs.Prelude.{◌+◌, ◌↔◌, IfOk, IsTrue, OnOk};
ghost use Rattle.table_steps.specs.Kept.{IsKept, world_of};
ghost use Rattle.table.specs.Leftovers.{AreLeftBelow, AreLeftovers, IsHidden};
ghost use Rattle.tree.specs.Places.{at_in};

use holds::Paths;
use paths::Path;
use paths::reserved::is_reserved;
use std::alloc::{AllocError, Global};
use table_steps::State;
use tree::{Node, Place, Tree};

/// Whether it is a file that was hidden: it has a hidden mark, and a name that the server keeps for itself.
fn is_hidden(node: &Node) -> bool
    ensures { IsTrue result ↔ IsHidden node.now }
{
    match &node.place {
        Place::Named(key) => node.hidden && is_reserved(key.name.as_bytes()),
        Place::Root | Place::Cut => false,
    }
}

/// Adds the path of the node, if it is a file that was hidden.
fn add_leftover(
    alloc: Global,
    paths: &mut Vec<Path>,
    tree: &Tree,
    number: u64,
) -> Result<(), AllocError>
    requires { AreLeftBelow (at_in tree.now) number paths.old.items }
    ensures { OnOk result (AreLeftBelow (at_in tree.now) (number + 1) paths.new.items) }
{
    let Some(node) = tree.at(number) else {
        return Ok(());
    };
    if !is_hidden(node) {
        return Ok(());
    }
    let Some(path) = tree.whole_path(alloc, number)? else {
        unreachable!();
    };
    paths.push(path)?;
    Ok(())
}

/// The paths of all files that were hidden, sorted by node number.
pub fn leftover(state: &State) -> Result<Paths, AllocError>
    requires { IsKept state.now }
    ensures { IfOk result (AreLeftovers (world_of state.now).at) }
{
    let mut paths = Vec::new(state.alloc);
    let mut number = 0;
    while let Some(next) = state.tree.after(number) {
        add_leftover(state.alloc, &mut paths, &state.tree, next)?;
        number = next;
    }
    Ok(Paths::from_vec(paths))
}
