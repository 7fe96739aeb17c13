//! A table over plain lists: slow, and written only from the rules of the table. Each node stores its whole path, each
//! count is a sum over the ledger, and what is held is counted over the requests.

use crate::asks::Ask;
use crate::words::{Way, Word, is_among};
use std::alloc::{AllocError, Global};
use table::{Access, Limits};

/// The number of the root.
pub const ROOT: u64 = 1;

/// A number with its generation.
pub type Bearer = (u64, u64);

/// A living node. One that is cut has no path.
#[derive(Drop)]
pub struct ListNode {
    pub number: u64,
    pub generation: u64,
    pub way: Option<Way>,
    pub hidden: bool,
}

impl ListNode {
    pub fn bearer(&self) -> Bearer {
        (self.number, self.generation)
    }

    fn is_at(&self, way: &Way) -> bool {
        match &self.way {
            Some(own) => own.is(way),
            None => false,
        }
    }

    pub fn is_below(&self, way: &Way) -> bool {
        match &self.way {
            Some(own) => way.is_prefix_of(own),
            None => false,
        }
    }

    fn is_child_of(&self, way: &Way) -> bool {
        match &self.way {
            Some(own) => way.is_parent_of(own),
            None => false,
        }
    }

    fn is_parent_of(&self, way: &Way) -> bool {
        match &self.way {
            Some(own) => own.is_parent_of(way),
            None => false,
        }
    }

    /// Puts the new path in place of the old one, if the node's begins with that. Returns whether it does.
    pub fn relocate(&mut self, old: &Way, new: &Way) -> Result<bool, AllocError> {
        let moved = match &self.way {
            Some(way) if old.is_prefix_of(way) => way.with_prefix(old, new)?,
            _ => return Ok(false),
        };
        self.way = Some(moved);
        Ok(true)
    }
}

/// A posting, of a number and generation.
#[derive(Clone, Copy, PartialEq, Eq)]
pub enum Posted {
    Born(Bearer),
    Entry(Bearer),
    Back(Bearer),
    Forget(Bearer, u64),
}

/// An open file.
#[derive(Clone, Copy)]
pub struct ListFile {
    pub handle: u64,
    pub bearer: Bearer,
    pub access: Access,
}

/// What a request needs from its begin to its finish.
pub struct Plan {
    pub ask: Ask,
    /// The nodes that it names.
    pub given: Vec<u64>,
    /// The paths of its ticket.
    pub ways: Vec<Way>,
    pub shared: Vec<Way>,
    pub exclusive: Vec<Way>,
    pub same: bool,
    pub hide: bool,
    pub last: bool,
    /// How many nodes, entries and open files it was promised.
    pub births: u64,
    pub entries: u64,
    pub files: u64,
}

impl Drop for Plan {
    // This is a call so that code that drops the value is not checked for each of its parts.
    fn drop(self) {
        let Plan {
            ask: _,
            given: _,
            ways: _,
            shared: _,
            exclusive: _,
            same: _,
            hide: _,
            last: _,
            births: _,
            entries: _,
            files: _,
        } = self;
    }
}

/// A request in flight.
pub struct ListRequest {
    pub id: u64,
    pub unique: u64,
    /// Whether it is in progress. Otherwise it was answered.
    pub working: bool,
    pub plan: Plan,
    pub pins: Vec<u64>,
    /// What was given for each of its names.
    pub listed: Vec<Option<Bearer>>,
    pub opened: Option<u64>,
}

impl Drop for ListRequest {
    // This is a call so that code that drops the value is not checked for each of its parts.
    fn drop(self) {
        let ListRequest {
            id: _,
            unique: _,
            working: _,
            plan: _,
            pins: _,
            listed: _,
            opened: _,
        } = self;
    }
}

impl ListRequest {
    pub fn shares(&self, way: &Way) -> bool {
        self.working && is_among(way, self.plan.shared.as_slice())
    }

    pub fn excludes(&self, way: &Way) -> bool {
        self.working && is_among(way, self.plan.exclusive.as_slice())
    }

    /// How many of its names were given an entry.
    pub fn entries(&self) -> u64 {
        let mut entries = 0u64;
        for given in &self.listed {
            entries = entries.saturating_add(given.is_some() as u64);
        }
        entries
    }
}

/// The table.
pub struct ListTable {
    pub alloc: Global,
    pub limits: Limits,
    pub nodes: Vec<ListNode>,
    pub postings: Vec<Posted>,
    pub requests: Vec<ListRequest>,
    pub files: Vec<ListFile>,
    /// The counter of the next hidden name.
    pub counter: u32,
    /// The last handle that was used, or 0.
    pub last_handle: u64,
    pub last_id: u64,
}

impl Drop for ListTable {
    // This is a call so that code that drops the value is not checked for each of its parts.
    fn drop(self) {
        let ListTable {
            alloc: _,
            limits: _,
            nodes: _,
            postings: _,
            requests: _,
            files: _,
            counter: _,
            last_handle: _,
            last_id: _,
        } = self;
    }
}

impl ListTable {
    /// A table with only the root.
    pub fn open(alloc: Global, limits: Limits) -> Result<ListTable, AllocError> {
        let mut nodes = Vec::new(alloc);
        nodes.push(ListNode {
            number: ROOT,
            generation: 0,
            way: Some(Way::of(alloc, &[])?),
            hidden: false,
        })?;
        Ok(ListTable {
            alloc,
            limits,
            nodes,
            postings: Vec::new(alloc),
            requests: Vec::new(alloc),
            files: Vec::new(alloc),
            counter: 0,
            last_handle: 0,
            last_id: 0,
        })
    }

    /// The living node with this number.
    pub fn node(&self, number: u64) -> Option<&ListNode> {
        for node in &self.nodes {
            if node.number == number {
                return Some(node);
            }
        }
        None
    }

    /// The path of the node with this number, if it has a name.
    pub fn way_of(&self, number: u64) -> Option<&Way> {
        let node = self.node(number)?;
        node.way.as_ref()
    }

    /// The node at a path.
    pub fn at(&self, way: &Way) -> Option<&ListNode> {
        for node in &self.nodes {
            if node.is_at(way) {
                return Some(node);
            }
        }
        None
    }

    /// The parent's number and the name of a node, if it has a name.
    pub fn place_of(&self, node: &ListNode) -> Option<(u64, Word)> {
        let way = node.way.as_ref()?;
        let word = way.last()?;
        for other in &self.nodes {
            if other.is_parent_of(way) {
                return Some((other.number, word));
            }
        }
        None
    }

    pub fn has_child(&self, way: &Way) -> bool {
        for node in &self.nodes {
            if node.is_child_of(way) {
                return true;
            }
        }
        false
    }

    pub fn file(&self, handle: u64) -> Option<ListFile> {
        for file in &self.files {
            if file.handle == handle {
                return Some(*file);
            }
        }
        None
    }

    /// How many files of the node are open.
    pub fn openings(&self, bearer: Bearer) -> usize {
        let mut openings = 0usize;
        for file in &self.files {
            if file.bearer == bearer {
                openings = openings.saturating_add(1);
            }
        }
        openings
    }

    pub fn request(&self, id: u64) -> Option<&ListRequest> {
        for request in &self.requests {
            if request.id == id {
                return Some(request);
            }
        }
        None
    }

    /// How many requests in progress share the path, and how many hold it exclusively.
    pub fn holds_on(&self, way: &Way) -> (u64, u64) {
        let (mut shared, mut exclusive) = (0u64, 0u64);
        for request in &self.requests {
            shared = shared.saturating_add(request.shares(way) as u64);
            exclusive = exclusive.saturating_add(request.excludes(way) as u64);
        }
        (shared, exclusive)
    }
}
