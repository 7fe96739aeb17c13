//! Open files and folders.

ghost use Rattle.std.specs.Prelude.{◌≡◌, IsTrue, Some};

use disk::{Access, FileId};
use path_cache::Place;
use paths::Name;
use payload::Kind;

/// A file or folder that is open.
#[derive(Drop)]
pub struct Open<H: Drop> {
    pub kind: Kind,
    /// Which one it is, where that was asked for.
    pub id: Option<FileId>,
    /// What a file was opened for.
    pub access: Access,
    pub handle: H,
}

impl<H: Drop> Open<H> {
    /// Whether it is known to be that one.
    pub fn is(&self, id: &FileId) -> bool
        ensures { IsTrue result → self.now.id ≡ Some id.now }
    {
        match self.id {
            Some(own) => own.is(id),
            None => false,
        }
    }
}

/// An open file or folder, for the length of a call.
#[derive(Drop)]
pub enum Held<'a, H: Drop> {
    /// It stays open, in the cache.
    Kept(Place<'a>),
    /// It is closed after the call.
    Own(Open<H>),
}

/// A name in an open folder.
#[derive(Drop)]
pub struct Entry<'a, H: Drop> {
    pub folder: Held<'a, H>,
    pub name: &'a Name,
}

/// A name in a folder that stays open, and is used without a look at it.
#[derive(Clone, Copy)]
pub struct KeptEntry<'a> {
    pub folder: Place<'a>,
    pub name: &'a Name,
}
