//! A tree below its root, stored as a flat list.

ghost use Rattle.std.specs.Prelude.{◌≡◌};

use crate::bytes::Bytes;
use paths::Path;
use payload::{Kind, Special};

/// What is at a path.
#[derive(Drop)]
pub enum Item {
    Folder,
    File(Bytes),
    /// A symbolic link, and its text.
    Link(Bytes),
    Special(Special),
}

impl Item {
    ghost use Rattle.backing.specs.Tree.{kind_of, size_of};

    pub fn kind(&self) -> Kind
        ensures { result ≡ kind_of self.now }
    {
        match self {
            Item::Folder => Kind::Folder,
            Item::File(_) => Kind::File,
            Item::Link(_) => Kind::Link,
            Item::Special(special) => Kind::Special(*special),
        }
    }

    /// In bytes: of a link its text, and 0 for what has neither.
    pub fn size(&self) -> usize
        ensures { result ≡ size_of self.now }
    {
        match self {
            Item::Folder | Item::Special(_) => 0,
            Item::File(bytes) | Item::Link(bytes) => bytes.len(),
        }
    }
}

/// A path below the root, and what is at it.
#[derive(Drop)]
pub struct TreeEntry {
    pub path: Path,
    pub item: Item,
}
