//! What is open.

ghost use Rattle.std.specs.Prelude.{◌≡◌, IsTrue, None, Some};
ghost use Rattle.linux_disk.specs.Held.{held_value};
ghost use Rattle.linux_disk.specs.Places.{WasPrivate};

use crate::calls::SystemCalls;
use crate::held::Held;
use crate::way::Way;
use disk::FileId;
use std::cell::Cell;
use std::marker::PhantomData;

/// What was last seen of an open folder.
#[derive(Drop)]
pub(crate) struct Seen<C: SystemCalls> {
    /// Which folder it was.
    pub(crate) stamp: u64,
    pub(crate) id: FileId,
    /// The user by whose rights the process acts.
    pub(crate) user: u32,
    /// Nobody but that user may change the names in it.
    pub(crate) is_private: bool,
    /// How often the rights of folders had been set then.
    pub(crate) rights: u64,
    /// When, in milliseconds.
    pub(crate) at: u64,
    pub(crate) told_by: PhantomData<C>,
    ghost safe: { ∥ (IsTrue is_private → WasPrivate C.did user stamp) ∥₁ },
}

/// A file or folder that is open for as long as the value is there. No value ever comes back.
#[derive(Drop)]
pub struct Handle<C: SystemCalls> {
    pub(crate) held: Held<C::Fd>,
    /// The way to a folder that may not be read, from the nearest one above that may: that one is open then.
    pub(crate) below: Option<Way>,
    pub(crate) is_folder: bool,
    pub(crate) seen: Cell<Option<Seen<C>>>,
}

impl<C: SystemCalls> Handle<C> {
    /// A file.
    pub(crate) fn file(held: Held<C::Fd>) -> Handle<C>
        ensures held { result.held ≡ held }
        ensures open { result.below ≡ None }
    {
        Handle {
            held,
            below: None,
            is_folder: false,
            seen: Cell::new(None),
        }
    }

    /// A folder of which nothing was seen yet.
    pub(crate) fn folder(fd: C::Fd) -> Handle<C>
        ensures held { held_value result.held ≡ fd }
        ensures open { result.below ≡ None }
    {
        Handle {
            held: Held::Own(fd),
            below: None,
            is_folder: true,
            seen: Cell::new(None),
        }
    }

    /// The folder to which the way leads from the one that is open.
    pub(crate) fn entered(fd: C::Fd, way: Way) -> Handle<C>
        ensures held { held_value result.held ≡ fd }
        ensures below { result.below ≡ Some way }
    {
        Handle {
            held: Held::Own(fd),
            below: Some(way),
            is_folder: true,
            seen: Cell::new(None),
        }
    }

    /// What is open.
    pub(crate) fn fd(&self) -> &C::Fd
        ensures { result.now ≡ held_value self.now.held }
    {
        self.held.get()
    }
}
