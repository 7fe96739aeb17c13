//! What stands in a disk in memory.

ghost use Rattle.std.specs.Prelude.{◌≡◌};

use backing::Bytes;
use paths::Path;
use payload::{Kind, Special};

/// What stands at a path.
#[derive(Drop)]
pub enum Content {
    Folder,
    File(Bytes),
    /// A symbolic link, and its text.
    Link(Bytes),
    Special(Special),
}

impl Content {
    ghost use Rattle.backing.specs.Tree.{kind_of, size_of};
    ghost use Rattle.disk.specs.Spots.{item_of};

    pub fn kind(&self) -> Kind
        ensures { result ≡ kind_of (item_of self.now) }
    {
        match self {
            Content::Folder => Kind::Folder,
            Content::File(_) => Kind::File,
            Content::Link(_) => Kind::Link,
            Content::Special(special) => Kind::Special(*special),
        }
    }

    /// In bytes: of a link its text, and 0 for what has neither.
    pub fn size(&self) -> usize
        ensures { result ≡ size_of (item_of self.now) }
    {
        match self {
            Content::Folder | Content::Special(_) => 0,
            Content::File(bytes) | Content::Link(bytes) => bytes.len(),
        }
    }
}

/// A path, and what stands there. Its number stays when it is renamed, and never comes back.
#[derive(Drop)]
pub struct Spot {
    pub number: u64,
    pub path: Path,
    pub content: Content,
}

/// What is open in a disk in memory. It stays as good when what it leads to is renamed, and leads to nothing when that is removed.
#[derive(Clone, Copy, Debug, PartialEq, Eq)]
pub struct MemoryHandle {
    pub(crate) number: u64,
}
