//! Pairs of numbers, with their generations, in the two tables, in the order of births.

use crate::draws::LONG;
use crate::list_table::{Bearer, ROOT};
use crate::words::{Way, Word};
use paths::{Name, Path};
use std::alloc::{AllocError, Global};

/// A node of the list table, and that of the other.
#[derive(Clone, Copy)]
struct Pair {
    list: Bearer,
    other: Bearer,
}

/// All nodes that were ever born, the root first.
#[derive(Drop)]
pub struct Pairs {
    pairs: Vec<Pair>,
    /// The longest name that is used, made only once.
    longest: Name,
}

/// The name of a file that is hidden.
fn hidden_name(alloc: Global, number: u64, counter: u32) -> Result<Name, AllocError> {
    let low = number % 0x1_0000_0000;
    let text = format!(in alloc; ".fuse_hidden{low:08x}{counter:08x}")?;
    Name::from_text(alloc, text.as_str())
}

fn plain_name(alloc: Global, letter: char, bytes: usize) -> Result<Name, AllocError> {
    let mut text = String::new(alloc);
    for _byte in 0..bytes {
        text.push(letter)?;
    }
    Name::from_text(alloc, text.as_str())
}

impl Pairs {
    /// Only the root.
    pub fn new(alloc: Global, longest: usize) -> Result<Pairs, AllocError> {
        let mut pairs = Pairs {
            pairs: Vec::new(alloc),
            longest: plain_name(alloc, LONG, longest)?,
        };
        pairs.add((ROOT, 0), (ROOT, 0))?;
        Ok(pairs)
    }

    /// Adds the next birth of each.
    pub fn add(&mut self, list: Bearer, other: Bearer) -> Result<(), AllocError> {
        self.pairs.push(Pair { list, other })?;
        Ok(())
    }

    /// The other table's number and generation for those of the list table.
    pub fn of(&self, list: Bearer) -> Option<Bearer> {
        for pair in &self.pairs {
            if pair.list == list {
                return Some(pair.other);
            }
        }
        None
    }

    /// Whether the other table's number and generation are paired with those of the list table.
    pub fn are(&self, list: Bearer, other: Bearer) -> bool {
        self.of(list) == Some(other)
    }

    /// The name in the other table.
    pub fn name(&self, word: Word) -> Result<Name, AllocError> {
        let alloc = *self.pairs.allocator();
        match word {
            Word::Plain { letter, bytes } if letter == LONG && bytes == self.longest.len() => {
                self.longest.copy()
            }
            Word::Plain { letter, bytes } => plain_name(alloc, letter, bytes),
            Word::Hidden {
                number,
                generation,
                counter,
            } => {
                let (other, _) = self.of((number, generation)).unwrap_or((0, 0));
                hidden_name(alloc, other, counter)
            }
        }
    }

    /// The path in the other table.
    pub fn path(&self, way: &Way) -> Result<Path, AllocError> {
        let mut names = Vec::new(*self.pairs.allocator());
        for word in &way.words {
            names.push(self.name(*word)?)?;
        }
        Path::from_names(names)
    }

    /// Whether these are the paths, in order.
    pub fn are_paths(&self, ways: &[Way], paths: &[Path]) -> Result<bool, AllocError> {
        for (way, path) in ways.iter().zip(paths) {
            if !self.path(way)?.is(path) {
                return Ok(false);
            }
        }
        Ok(ways.len() == paths.len())
    }
}
