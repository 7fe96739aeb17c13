//! The server's run compared with that of the slow program.

ghost use Rattle.std.specs.Prelude.{◌≡◌};

use crate::items::{Item, Told, stat};
use crate::product::{Ran, count_names, has_bytes, has_text, serve_session, what_stands};
use crate::session::REQUESTS;
use crate::slow::{Outcome, Plan, run_slow};
use crate::world::{SlowNode, World, count_of};
use backing::MemTree;
use ledger::{Blanks, Ledgers, Posting};
use std::alloc::{AllocError, Global};
use std::random::RandomSource;
use std::sync::Wait;
use std::test::Fail;
use table_image::Image;
use tree::{Node, Place};

/// A run that differs, and in what.
#[derive(Debug, Drop)]
struct Otherwise {
    plan: Plan,
    are_replies: bool,
    are_calls: bool,
    is_end: bool,
    is_image: bool,
    is_tree: bool,
}

/// Whether the table's node is the same as the slow program's.
fn is_node(node: &Node, slow: &SlowNode, ledger: &[Posting]) -> bool {
    let is_place = match (&node.place, slow.name) {
        (Place::Named(key), Some(name)) => key.parent == 1 && key.name.as_bytes() == name,
        (Place::Cut, None) => true,
        _ => false,
    };
    is_place
        && node.number == slow.number
        && node.generation == slow.generation
        && node.count == count_of(ledger, slow.number, slow.generation)
        && node.hidden == slow.is_hidden
}

/// Whether it is the root, which is never born and never counted.
fn is_root(node: &Node) -> bool {
    let is_place = match node.place {
        Place::Root => true,
        _ => false,
    };
    is_place && node.number == 1 && node.generation == 0 && node.count == 0 && !node.hidden
}

/// Whether the node is the root or one of the slow program's.
fn is_known(node: &Node, world: &World) -> bool {
    for slow in &world.nodes {
        if is_node(node, slow, &world.ledger) {
            return true;
        }
    }
    is_root(node)
}

/// Whether both have the same nodes. A lawful table's nodes have distinct numbers, so if all are known and there are as
/// many as the slow program's and the root, none is missing.
fn are_nodes(image: &Image, world: &World) -> bool {
    for node in image.nodes.as_slice() {
        if !is_known(node, world) {
            return false;
        }
    }
    image.nodes.as_slice().len() == world.nodes.len().saturating_add(1)
}

/// Whether the table's image is what the slow program keeps, with no request in progress.
fn is_image(image: &Image, world: &World) -> bool {
    are_nodes(image, world)
        && image.lawful()
        && image.postings.as_slice() == world.ledger.as_slice()
        && image.records.as_slice().is_empty()
        && image.holds.as_slice().is_empty()
        && image.files.as_slice() == world.files.as_slice()
        && image.counter == world.counter
        && image.last_handle == world.last_file
}

/// Whether the tree has what is at the item's name.
fn is_item(
    alloc: Global,
    tree: &mut MemTree,
    items: &[Item],
    item: &Item,
) -> Result<bool, AllocError> {
    let Some(name) = item.name else {
        return Ok(true);
    };
    let stands = what_stands(alloc, tree, name)?;
    if stands != stat(items, name) {
        return Ok(false);
    }
    match stands {
        Told::Folder => Ok(count_names(alloc, tree, Some(name))? == 0),
        Told::Link(_) => has_text(alloc, tree, name, &item.bytes),
        _ => has_bytes(alloc, tree, name, &item.bytes),
    }
}

/// How many items have a name.
fn count_items(items: &[Item]) -> usize {
    let mut count = 0usize;
    for item in items {
        if item.name.is_some() {
            count = count.saturating_add(1);
        }
    }
    count
}

/// Whether the tree has the items and nothing else.
pub fn is_tree(alloc: Global, tree: &mut MemTree, items: &[Item]) -> Result<bool, AllocError> {
    for item in items {
        if !is_item(alloc, tree, items, item)? {
            return Ok(false);
        }
    }
    Ok(count_names(alloc, tree, None)? == count_items(items))
}

/// Fails if the server's run differs from that of the slow program.
fn expect_same(alloc: Global, plan: &Plan, ran: &mut Ran, slow: &Outcome) -> Result<(), Fail> {
    let are_replies = ran.taken.as_slice() == slow.taken.as_slice() && ran.offers == slow.offers;
    let are_calls = ran.are_due;
    let is_end = ran.end == slow.end;
    let is_image = is_image(&ran.image, &slow.world);
    let is_tree = is_tree(alloc, &mut ran.tree, &slow.world.items)?;
    if are_replies && are_calls && is_end && is_image && is_tree {
        return Ok(());
    }
    Err(Otherwise {
        plan: *plan,
        are_replies,
        are_calls,
        is_end,
        is_image,
        is_tree,
    }
    .into())
}

/// Serves the session with that failure, and runs the slow program: replies, calls, end, table and tree are the same.
pub fn compare<H: Wait + RandomSource, T: Ledgers>(
    rt: &H,
    alloc: Global,
    blanks: Blanks,
    plan: &Plan,
) -> Result<(), Fail>
    requires names { blanks ≡ T.names }
    requires shares { T.names.parts ≡ 1 }
{
    let slow = run_slow(alloc, REQUESTS, plan)?;
    let mut ran = serve_session::<H, T>(rt, alloc, blanks, plan, &slow.world.asks)?;
    expect_same(alloc, plan, &mut ran, &slow)
}
