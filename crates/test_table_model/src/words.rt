//! Names and ways as plain values. A way is a path: the names from the root down.

use std::alloc::{AllocError, Global};

/// A name: one letter repeated that many times, or one that the table gives to a file that it hides.
#[derive(Clone, Copy, PartialEq, Eq)]
pub enum Word {
    Plain {
        letter: char,
        bytes: usize,
    },
    /// Of the node with that number and generation, with a counter.
    Hidden {
        number: u64,
        generation: u64,
        counter: u32,
    },
}

/// How many bytes the name of a hidden file has: 12, and eight digits twice.
const HIDDEN_BYTES: usize = 28;

impl Word {
    /// A name of one letter.
    pub fn of(letter: char) -> Word {
        Word::Plain { letter, bytes: 1 }
    }

    fn bytes(self) -> usize {
        match self {
            Word::Plain { letter: _, bytes } => bytes,
            Word::Hidden { .. } => HIDDEN_BYTES,
        }
    }
}

/// A path. The root's has no names.
#[derive(Drop)]
pub struct Way {
    pub words: Vec<Word>,
}

impl Way {
    /// The path of these names.
    pub fn of(alloc: Global, words: &[Word]) -> Result<Way, AllocError> {
        let mut all = Vec::new(alloc);
        all.extend_from_slice(words)?;
        Ok(Way { words: all })
    }

    pub fn copy(&self) -> Result<Way, AllocError> {
        Way::of(*self.words.allocator(), self.words.as_slice())
    }

    /// The path with one more name.
    pub fn below(&self, word: Word) -> Result<Way, AllocError> {
        let mut way = self.copy()?;
        way.words.push(word)?;
        Ok(way)
    }

    /// The path without its last name. The root's path is its own parent.
    pub fn parent(&self) -> Result<Way, AllocError> {
        let mut way = self.copy()?;
        let _last = way.words.pop();
        Ok(way)
    }

    pub fn last(&self) -> Option<Word> {
        self.words.last().copied()
    }

    pub fn is(&self, other: &Way) -> bool {
        self.words.len() == other.words.len() && self.is_prefix_of(other)
    }

    /// Whether the other path begins with these names.
    pub fn is_prefix_of(&self, other: &Way) -> bool {
        if other.words.len() < self.words.len() {
            return false;
        }
        for (word, theirs) in self.words.iter().zip(other.words.iter()) {
            if *word != *theirs {
                return false;
            }
        }
        true
    }

    pub fn is_proper_prefix_of(&self, other: &Way) -> bool {
        self.words.len() < other.words.len() && self.is_prefix_of(other)
    }

    /// Whether the other path is this one with one more name.
    pub fn is_parent_of(&self, other: &Way) -> bool {
        self.words.len().saturating_add(1) == other.words.len() && self.is_prefix_of(other)
    }

    /// The length of each name plus one, summed over all names.
    pub fn bytes(&self) -> usize {
        let mut sum = 0usize;
        for word in &self.words {
            sum = sum.saturating_add(word.bytes()).saturating_add(1);
        }
        sum
    }

    /// The path with another prefix in place of this one, with which it begins.
    pub fn with_prefix(&self, old: &Way, new: &Way) -> Result<Way, AllocError> {
        let mut way = new.copy()?;
        let rest = self.words.get(old.words.len()..).unwrap_or(&[]);
        way.words.extend_from_slice(rest)?;
        Ok(way)
    }
}

pub fn is_among(way: &Way, ways: &[Way]) -> bool {
    for other in ways {
        if other.is(way) {
            return true;
        }
    }
    false
}

/// Adds the path, unless it is there.
pub fn add_once(ways: &mut Vec<Way>, way: Way) -> Result<(), AllocError> {
    if !is_among(&way, ways.as_slice()) {
        ways.push(way)?;
    }
    Ok(())
}

/// Adds each nonempty prefix of the path that is not there yet, including the path itself.
pub fn add_prefixes(ways: &mut Vec<Way>, way: &Way) -> Result<(), AllocError> {
    let mut prefix = Way::of(*ways.allocator(), &[])?;
    for word in &way.words {
        prefix = prefix.below(*word)?;
        add_once(ways, prefix.copy()?)?;
    }
    Ok(())
}
