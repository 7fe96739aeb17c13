//! Looking up a node, a name or a handle in an image.

use std::str;
use table::{Access, OpenFile};
use table_image::Image;
use tree::{Node, Place};

/// The node with this number.
pub fn node_of(image: &Image, number: u64) -> Option<&Node> {
    image
        .nodes
        .as_slice()
        .iter()
        .find(|node| node.number == number)
}

/// The node with the same number and generation.
pub fn same_in<'a>(image: &'a Image, node: &Node) -> Option<&'a Node> {
    let same = node_of(image, node.number)?;
    if same.generation == node.generation {
        Some(same)
    } else {
        None
    }
}

/// The count of the node with this number, or 0.
pub fn count_of(image: &Image, number: u64) -> u64 {
    match node_of(image, number) {
        Some(node) => node.count,
        None => 0,
    }
}

/// Whether the node with this number has a hidden mark.
pub fn is_hidden(image: &Image, number: u64) -> bool {
    match node_of(image, number) {
        Some(node) => node.hidden,
        None => false,
    }
}

/// Whether the node with this number has no name any more.
pub fn is_cut(image: &Image, number: u64) -> bool {
    match node_of(image, number) {
        Some(node) => matches!(&node.place, Place::Cut),
        None => false,
    }
}

/// The place of a node with a name: its parent and its name, which is a text.
pub fn place_of(node: &Node) -> Option<(u64, &str)> {
    match &node.place {
        Place::Named(key) => Some((key.parent, str::from_utf8(key.name.as_bytes()).ok()?)),
        _ => None,
    }
}

/// The node with this name under this parent.
pub fn node_at<'a>(image: &'a Image, parent: u64, name: &str) -> Option<&'a Node> {
    image
        .nodes
        .as_slice()
        .iter()
        .find(|node| place_of(node) == Some((parent, name)))
}

/// How many files of the node are open.
pub fn openings(image: &Image, number: u64) -> usize {
    let files = image.files.as_slice().iter();
    files.filter(|filed| filed.file.number == number).count()
}

/// Whether the name has a node with an open file.
pub fn is_open_at(image: &Image, parent: u64, name: &str) -> bool {
    match node_at(image, parent, name) {
        Some(node) => openings(image, node.number) > 0,
        None => false,
    }
}

/// The file open under a handle.
pub fn file_of(image: &Image, handle: u64) -> Option<OpenFile> {
    let filed = image
        .files
        .as_slice()
        .iter()
        .find(|filed| filed.handle == handle)?;
    Some(filed.file)
}

/// Whether the handle is that of an open file of the node.
pub fn is_handle_of(image: &Image, number: u64, handle: u64) -> bool {
    match file_of(image, handle) {
        Some(file) => file.number == number,
        None => false,
    }
}

/// Whether the node may be read through the handle.
pub fn may_read(image: &Image, number: u64, handle: u64) -> bool {
    match file_of(image, handle) {
        Some(file) => file.number == number && file.access != Access::Writing,
        None => false,
    }
}
