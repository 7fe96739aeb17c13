//! Turning requests for the list table into requests for the other.

use crate::asks::{Ask, Batch};
use crate::known::Known;
use crate::words::Word;
use std::alloc::AllocError;
use table::{Handle, Names, Need, Want};

/// Above all numbers that a table uses in a run.
const STRANGE: u64 = 1_000_000;

/// The handle, which has the same number in both tables.
fn handle_of((fh, need): (u64, Need)) -> Handle {
    Handle { fh, need }
}

impl Known {
    /// Whether the other table has a living node with that number.
    fn is_known(&self, number: u64) -> bool {
        for node in &self.list.nodes {
            if self.pairs.number(&self.list, node.number) == Some(number) {
                return true;
            }
        }
        false
    }

    /// The other table's number of a living node. A number without a node is unknown to both.
    pub fn number(&self, number: u64) -> u64 {
        match self.pairs.number(&self.list, number) {
            Some(other) => other,
            None if self.is_known(number) => STRANGE.saturating_add(number),
            None => number,
        }
    }

    fn names(&self, batch: Batch) -> Result<Names, AllocError> {
        let mut names = Vec::new(self.list.alloc);
        let words = batch.words();
        for word in words.iter().take(batch.len()) {
            names.push(self.pairs.name(*word)?)?;
        }
        Ok(Names::from_vec(names))
    }

    fn want_of_move(
        &self,
        (parent, word): (u64, Word),
        (new_parent, new_word): (u64, Word),
        keep: bool,
    ) -> Result<Want, AllocError> {
        let name = self.pairs.name(word)?;
        let new_name = self.pairs.name(new_word)?;
        Ok(Want::Move {
            parent: self.number(parent),
            name,
            new_parent: self.number(new_parent),
            new_name,
            keep,
        })
    }

    fn want_of_exchange(
        &self,
        (parent, word): (u64, Word),
        (new_parent, new_word): (u64, Word),
    ) -> Result<Want, AllocError> {
        let name = self.pairs.name(word)?;
        let new_name = self.pairs.name(new_word)?;
        Ok(Want::Exchange {
            parent: self.number(parent),
            name,
            new_parent: self.number(new_parent),
            new_name,
        })
    }

    /// The want for the other table, of a request with one name.
    fn want_of_name(&self, ask: Ask, parent: u64, word: Word) -> Result<Want, AllocError> {
        let parent = self.number(parent);
        let name = self.pairs.name(word)?;
        Ok(match ask {
            Ask::Remove(_, _, may_hide) => Want::Remove {
                parent,
                name,
                may_hide,
            },
            Ask::Create(_, _, access) => Want::Create {
                parent,
                name,
                access,
            },
            Ask::Link(number, _, _) => Want::Link {
                number: self.number(number),
                parent,
                name,
            },
            _ => Want::Name { parent, name },
        })
    }

    /// The want for the other table.
    pub fn want(&self, ask: Ask) -> Result<Want, AllocError> {
        match ask {
            Ask::Node(number, handle) => Ok(Want::Node {
                number: self.number(number),
                handle: handle.map(handle_of),
            }),
            Ask::Name(parent, word)
            | Ask::Remove(parent, word, _)
            | Ask::Create(parent, word, _)
            | Ask::Link(_, parent, word) => self.want_of_name(ask, parent, word),
            Ask::Page(folder, batch) => Ok(Want::Page {
                folder: self.number(folder),
                names: self.names(batch)?,
            }),
            Ask::Move(parent, word, new_parent, new_word) => {
                self.want_of_move((parent, word), (new_parent, new_word), false)
            }
            Ask::Keep(parent, word, new_parent, new_word) => {
                self.want_of_move((parent, word), (new_parent, new_word), true)
            }
            Ask::Exchange(parent, word, new_parent, new_word) => {
                self.want_of_exchange((parent, word), (new_parent, new_word))
            }
            Ask::Open(number, access) => Ok(Want::Open {
                number: self.number(number),
                access,
            }),
            Ask::Release(number, fh) => Ok(Want::Release {
                number: self.number(number),
                fh,
            }),
        }
    }
}
