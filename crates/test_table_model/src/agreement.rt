//! Comparing both tables.

use crate::list_table::{Bearer, ListFile, ListNode, ListRequest, ListTable, ROOT};
use crate::pairs::Pairs;
use crate::words::{Way, add_once};
use paths::{Name, Path};
use std::alloc::AllocError;
use table::Given;
use table_files::OpenEntry;
use table_image::{Image, ImageStage, Record};
use tree::{Node, Place};

fn node_of(image: &Image, number: u64) -> Option<&Node> {
    for node in image.nodes.as_slice() {
        if node.number == number {
            return Some(node);
        }
    }
    None
}

/// The parent of the node with that number, if it has that name.
fn parent_of(image: &Image, number: u64, name: &Name) -> Option<u64> {
    match &node_of(image, number)?.place {
        Place::Named(key) if key.name.is(name) => Some(key.parent),
        _ => None,
    }
}

/// Whether following parents from the node passes these names, last one first, and ends at the root.
fn stands_at(image: &Image, number: u64, path: &Path) -> bool {
    let mut number = number;
    for name in path.names().iter().rev() {
        match parent_of(image, number, name) {
            Some(parent) => number = parent,
            None => return false,
        }
    }
    number == ROOT
}

fn add_all(held: &mut Vec<Way>, ways: &[Way]) -> Result<(), AllocError> {
    for way in ways {
        add_once(held, way.copy()?)?;
    }
    Ok(())
}

/// Adds all paths that are held, each once.
fn add_held(held: &mut Vec<Way>, list: &ListTable) -> Result<(), AllocError> {
    for request in &list.requests {
        if request.working {
            add_all(held, request.plan.shared.as_slice())?;
            add_all(held, request.plan.exclusive.as_slice())?;
        }
    }
    Ok(())
}

fn holds(image: &Image, path: &Path, numbers: (u64, u64)) -> bool {
    for hold in image.holds.as_slice() {
        if (hold.shared, hold.exclusive) == numbers && hold.path.is(path) {
            return true;
        }
    }
    false
}

impl Pairs {
    /// Whether the node is the same in both tables: its pair, its mark and its count.
    fn same_node(&self, list: &ListTable, node: &ListNode, other: &Node) -> bool {
        self.are(node.bearer(), (other.number, other.generation))
            && node.hidden == other.hidden
            && list.count(node.bearer()) == other.count
    }

    fn same_place(&self, node: &ListNode, image: &Image, other: &Node) -> Result<bool, AllocError> {
        match (&node.way, &other.place) {
            (Some(way), Place::Root | Place::Named(_)) => {
                Ok(stands_at(image, other.number, &self.path(way)?))
            }
            (None, Place::Cut) => Ok(true),
            _ => Ok(false),
        }
    }

    fn has_node(
        &self,
        list: &ListTable,
        node: &ListNode,
        image: &Image,
    ) -> Result<bool, AllocError> {
        let Some((number, _)) = self.of(node.bearer()) else {
            return Ok(false);
        };
        match node_of(image, number) {
            Some(other) if self.same_node(list, node, other) => self.same_place(node, image, other),
            _ => Ok(false),
        }
    }

    /// Whether the living nodes are the same.
    fn same_nodes(&self, list: &ListTable, image: &Image) -> Result<bool, AllocError> {
        for node in &list.nodes {
            if !self.has_node(list, node, image)? {
                return Ok(false);
            }
        }
        Ok(list.nodes.len() == image.nodes.as_slice().len())
    }

    fn has_hold(&self, list: &ListTable, image: &Image, way: &Way) -> Result<bool, AllocError> {
        let path = self.path(way)?;
        Ok(holds(image, &path, list.holds_on(way)))
    }

    /// Whether these are the held paths, each held by the same number of requests in both tables.
    fn are_held(&self, list: &ListTable, image: &Image, held: &[Way]) -> Result<bool, AllocError> {
        for way in held {
            if !self.has_hold(list, image, way)? {
                return Ok(false);
            }
        }
        Ok(held.len() == image.holds.as_slice().len())
    }

    /// Whether the same paths are held, by the same number of requests.
    fn same_holds(&self, list: &ListTable, image: &Image) -> Result<bool, AllocError> {
        let mut held = Vec::new(list.alloc);
        add_held(&mut held, list)?;
        self.are_held(list, image, held.as_slice())
    }

    fn is_file(&self, file: ListFile, other: &OpenEntry) -> bool {
        other.handle == file.handle
            && other.file.access == file.access
            && self.are(file.bearer, (other.file.number, other.file.generation))
    }

    fn has_file(&self, file: ListFile, image: &Image) -> bool {
        for other in image.files.as_slice() {
            if self.is_file(file, other) {
                return true;
            }
        }
        false
    }

    /// Whether the same files are open.
    fn same_files(&self, list: &ListTable, image: &Image) -> bool {
        for file in &list.files {
            if !self.has_file(*file, image) {
                return false;
            }
        }
        list.files.len() == image.files.as_slice().len()
    }

    /// The other table's number of a living node.
    pub fn number(&self, list: &ListTable, number: u64) -> Option<u64> {
        let (other, _) = self.of(list.node(number)?.bearer())?;
        Some(other)
    }

    /// Whether each of these pins of the list table is among those of the other table.
    fn pins_all(&self, list: &ListTable, own: &[u64], others: &[u64]) -> bool {
        for pin in own {
            match self.number(list, *pin) {
                Some(number) if others.contains(&number) => {}
                _ => return false,
            }
        }
        true
    }

    /// Whether one of these pins of the list table is that number of the other table.
    fn pins(&self, list: &ListTable, own: &[u64], number: u64) -> bool {
        for pin in own {
            if self.number(list, *pin) == Some(number) {
                return true;
            }
        }
        false
    }

    /// Whether both pin the same nodes, in any order.
    fn same_pins(&self, list: &ListTable, own: &[u64], others: &[u64]) -> bool {
        for number in others {
            if !self.pins(list, own, *number) {
                return false;
            }
        }
        self.pins_all(list, own, others)
    }

    fn is_request(&self, list: &ListTable, request: &ListRequest, record: &Record) -> bool {
        record.unique == request.unique
            && (record.stage == ImageStage::Working) == request.working
            && self.same_pins(list, request.pins.as_slice(), record.pins.as_slice())
    }

    fn has_request(&self, list: &ListTable, request: &ListRequest, image: &Image) -> bool {
        for record in image.records.as_slice() {
            if self.is_request(list, request, record) {
                return true;
            }
        }
        false
    }

    /// Whether the same requests are in flight.
    fn same_requests(&self, list: &ListTable, image: &Image) -> bool {
        for request in &list.requests {
            if !self.has_request(list, request, image) {
                return false;
            }
        }
        list.requests.len() == image.records.as_slice().len()
    }

    /// What differs between the two tables, if anything.
    pub fn difference(
        &self,
        list: &ListTable,
        image: &Image,
    ) -> Result<Option<&'static str>, AllocError> {
        if !self.same_nodes(list, image)? {
            return Ok(Some("nodes"));
        }
        if !self.same_holds(list, image)? {
            return Ok(Some("holds"));
        }
        if !self.same_files(list, image) {
            return Ok(Some("open files"));
        }
        if !self.same_requests(list, image) {
            return Ok(Some("requests"));
        }
        if (list.counter, list.last_handle) != (image.counter, image.last_handle) {
            return Ok(Some("counters"));
        }
        Ok(None)
    }

    /// Whether both gave the same for a name.
    fn is_given(&self, list: Option<Bearer>, other: Option<Given>) -> bool {
        match (list, other) {
            (Some(bearer), Some(node)) => self.are(bearer, (node.number, node.generation)),
            (None, None) => true,
            _ => false,
        }
    }

    /// Whether both gave the same for each name.
    pub fn same_given(&self, listed: &[Option<Bearer>], given: &[Option<Given>]) -> bool {
        for (list, other) in listed.iter().zip(given) {
            if !self.is_given(*list, *other) {
                return false;
            }
        }
        listed.len() == given.len()
    }
}
