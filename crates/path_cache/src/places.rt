//! Where a value is kept.

ghost use Rattle.std.specs.Prelude.{◌≡◌};
ghost use Rattle.path_cache.specs.Places.{number_of};

use paths::Name;

/// Where a value is kept: at the root, or under a name in a folder.
#[derive(Clone, Copy)]
pub enum Place<'a> {
    Root,
    Child {
        /// The number of the folder's entry.
        parent: u64,
        name: &'a Name,
        /// The number of its own entry.
        number: u64,
    },
}

impl<'a> Place<'a> {
    /// The number of its entry. The root's is 0.
    pub(crate) fn number(self) -> u64
        ensures { result ≡ number_of self.entry }
    {
        match self {
            Place::Root => 0,
            Place::Child { number, .. } => number,
        }
    }
}

/// What one look-up has found under a name.
#[derive(Clone, Copy)]
pub struct Peeked<'a, 'b, V> {
    pub place: Place<'a>,
    pub value: &'b V,
    /// When it was last seen to stand there, in milliseconds as the caller gave it.
    pub looked: u64,
}
