//! What the slow program keeps: names instead of paths, the whole ledger, and no counts.

use crate::asks::Ask;
use crate::items::{Item, Told, sample_items, work};
use backing::PlannedFault;
use ledger::Posting;
use payload::Kind;
use std::alloc::{AllocError, Global};
use table_files::OpenEntry;
use terms::Kinds;

/// A living node other than the root.
#[derive(Clone, Copy, Debug, PartialEq, Eq)]
pub struct SlowNode {
    pub number: u64,
    pub generation: u64,
    /// In the root; `None` for a node that was cut.
    pub name: Option<&'static [u8]>,
    pub is_hidden: bool,
}

/// A name in a folder that was opened. `.` and `..` are not among them.
#[derive(Clone, Copy, Debug, PartialEq, Eq)]
pub struct Listed {
    pub name: &'static [u8],
    pub kind: Kind,
}

/// A call of the tree that fails, counted from 1.
#[derive(Clone, Copy, Debug, PartialEq, Eq)]
pub struct FaultAt {
    pub call: usize,
    pub fault: PlannedFault,
}

/// The whole state.
#[derive(Drop)]
pub struct World {
    pub alloc: Global,
    pub items: Vec<Item>,
    pub nodes: Vec<SlowNode>,
    pub ledger: Vec<Posting>,
    pub files: Vec<OpenEntry>,
    pub last_file: u64,
    pub counter: u32,
    /// The names in the root when it was opened, if it is open.
    pub listing: Option<Vec<Listed>>,
    /// How often a folder was opened, which is also the last handle of a folder.
    pub last_folder: u64,
    /// The calls of the tree that were made.
    pub asks: Vec<Ask>,
    pub planned: Option<FaultAt>,
    /// Which kinds of files are shown.
    pub kinds: Kinds,
}

/// How many entries of the number and generation were given.
fn entries_of(ledger: &[Posting], number: u64, generation: u64) -> u64 {
    let mut sum = 0u64;
    for posting in ledger {
        if *posting == (Posting::Entry { number, generation }) {
            sum = sum.saturating_add(1);
        }
    }
    sum
}

/// How many of them were taken back. No request of the session forgets.
fn backs_of(ledger: &[Posting], number: u64, generation: u64) -> u64 {
    let mut sum = 0u64;
    for posting in ledger {
        if *posting == (Posting::Back { number, generation }) {
            sum = sum.saturating_add(1);
        }
    }
    sum
}

/// The lookup count of the number in the generation.
pub fn count_of(ledger: &[Posting], number: u64, generation: u64) -> u64 {
    entries_of(ledger, number, generation).saturating_sub(backs_of(ledger, number, generation))
}

/// How often the number was born.
fn births_of(ledger: &[Posting], node: u64) -> u64 {
    let mut sum = 0u64;
    for posting in ledger {
        if let Posting::Born { number, .. } = posting {
            if *number == node {
                sum = sum.saturating_add(1);
            }
        }
    }
    sum
}

/// The living node with that number.
pub fn node_of(nodes: &[SlowNode], number: u64) -> Option<SlowNode> {
    for node in nodes {
        if node.number == number {
            return Some(*node);
        }
    }
    None
}

/// The node at the name.
pub fn node_at(nodes: &[SlowNode], name: &[u8]) -> Option<SlowNode> {
    for node in nodes {
        if node.name == Some(name) {
            return Some(*node);
        }
    }
    None
}

/// The least number from 2 on that no living node has.
fn free_number(nodes: &[SlowNode]) -> u64 {
    let mut number = 2u64;
    for _ in 0..nodes.len() {
        if node_of(nodes, number).is_some() {
            number = number.saturating_add(1);
        }
    }
    number
}

/// Whether some open file is of the node.
pub fn is_open(files: &[OpenEntry], number: u64) -> bool {
    for entry in files {
        if entry.file.number == number {
            return true;
        }
    }
    false
}

impl World {
    /// A new table and the sample tree, of which that call fails.
    pub fn new(alloc: Global, planned: Option<FaultAt>, kinds: Kinds) -> Result<World, AllocError> {
        Ok(World {
            alloc,
            items: sample_items(alloc)?,
            nodes: Vec::new(alloc),
            ledger: Vec::new(alloc),
            files: Vec::new(alloc),
            last_file: 0,
            counter: 0,
            listing: None,
            last_folder: 0,
            asks: Vec::new(alloc),
            planned,
            kinds,
        })
    }

    /// Makes a call of the tree. If it is planned to fail, it fails without its effect or after it.
    pub fn ask(&mut self, ask: Ask) -> Result<Told, AllocError> {
        self.asks.push(ask)?;
        let made = self.asks.len();
        match self.planned {
            Some(
                FaultAt {
                    call,
                    fault: PlannedFault::Before(errno),
                },
            ) if call == made => Ok(Told::Error(errno)),
            Some(
                FaultAt {
                    call,
                    fault: PlannedFault::After(errno),
                },
            ) if call == made => {
                work(&mut self.items, ask)?;
                Ok(Told::Error(errno))
            }
            _ => work(&mut self.items, ask),
        }
    }

    /// Gives an entry of the node at the name. If there is none, it is born.
    pub fn enter(&mut self, name: &'static [u8]) -> Result<SlowNode, AllocError> {
        let node = match node_at(&self.nodes, name) {
            Some(node) => node,
            None => {
                let number = free_number(&self.nodes);
                let generation = births_of(&self.ledger, number);
                let node = SlowNode {
                    number,
                    generation,
                    name: Some(name),
                    is_hidden: false,
                };
                self.ledger.push(Posting::Born { number, generation })?;
                self.nodes.push(node)?;
                node
            }
        };
        self.ledger.push(Posting::Entry {
            number: node.number,
            generation: node.generation,
        })?;
        Ok(node)
    }

    /// Gives the node at the name, if there is one, another place, and a hidden mark or none.
    pub fn place(&mut self, name: &[u8], new: Option<&'static [u8]>, is_hidden: bool) {
        for node in self.nodes.iter_mut() {
            if node.name == Some(name) {
                node.name = new;
                node.is_hidden = is_hidden;
            }
        }
    }

    /// Closes the file with that handle, if it is open.
    pub fn close(&mut self, handle: u64) -> Result<(), AllocError> {
        let mut left = Vec::new(self.alloc);
        for entry in &self.files {
            if entry.handle != handle {
                left.push(*entry)?;
            }
        }
        self.files = left;
        Ok(())
    }

    /// Drops each node that nothing keeps alive: no entry, no open file and no hidden mark.
    pub fn sweep(&mut self) -> Result<(), AllocError> {
        let mut left = Vec::new(self.alloc);
        for node in &self.nodes {
            let is_known = count_of(&self.ledger, node.number, node.generation) > 0;
            if is_known || is_open(&self.files, node.number) || node.is_hidden {
                left.push(*node)?;
            }
        }
        self.nodes = left;
        Ok(())
    }
}
