//! How a table differs from an earlier state.

use crate::looks::same_in;
use table_image::Image;
use tree::{Node, Place};

/// What a call changed.
#[derive(Clone, Copy, PartialEq, Eq)]
pub struct Change {
    /// How many postings were added.
    pub posted: usize,
    /// Nodes that were born.
    pub born: usize,
    /// Nodes that were dropped.
    pub gone: usize,
    /// Nodes that have another name.
    pub moved: usize,
    /// Nodes that lost their name.
    pub cut: usize,
    /// Nodes with a name that got or lost a hidden mark.
    pub marked: usize,
    /// Files that were opened.
    pub opened: usize,
    /// Files that were closed.
    pub closed: usize,
    /// By how much the counter of hidden names rose.
    pub counted: u32,
}

/// Nothing changed.
pub const NONE: Change = Change {
    posted: 0,
    born: 0,
    gone: 0,
    moved: 0,
    cut: 0,
    marked: 0,
    opened: 0,
    closed: 0,
    counted: 0,
};

/// How many nodes of the first image are not in the second.
fn missing(from: &Image, image: &Image) -> usize {
    let nodes = from.nodes.as_slice().iter();
    nodes.filter(|node| same_in(image, node).is_none()).count()
}

/// How many open files of the first image are not in the second.
fn missing_files(from: &Image, image: &Image) -> usize {
    let there = image.files.as_slice();
    let files = from.files.as_slice().iter();
    files.filter(|filed| !there.contains(filed)).count()
}

fn is_moved(old: &Node, new: &Node) -> bool {
    match (&old.place, &new.place) {
        (Place::Named(old), Place::Named(new)) => {
            old.parent != new.parent || !old.name.is(&new.name)
        }
        _ => false,
    }
}

fn is_cut(old: &Node, new: &Node) -> bool {
    matches!(&old.place, Place::Named(_)) && matches!(&new.place, Place::Cut)
}

fn is_marked(old: &Node, new: &Node) -> bool {
    old.hidden != new.hidden && matches!(&new.place, Place::Named(_))
}

impl Change {
    /// What changed between two images.
    pub fn between(old: &Image, new: &Image) -> Change {
        let mut change = Change {
            posted: new
                .postings
                .as_slice()
                .len()
                .saturating_sub(old.postings.as_slice().len()),
            born: missing(new, old),
            gone: missing(old, new),
            opened: missing_files(new, old),
            closed: missing_files(old, new),
            counted: new.counter.wrapping_sub(old.counter),
            ..NONE
        };
        for node in new.nodes.as_slice() {
            if let Some(was) = same_in(old, node) {
                change.moved = change.moved.saturating_add(is_moved(was, node) as usize);
                change.cut = change.cut.saturating_add(is_cut(was, node) as usize);
                change.marked = change.marked.saturating_add(is_marked(was, node) as usize);
            }
        }
        change
    }
}
