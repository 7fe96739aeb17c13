//! What an open folder shows.

ghost use Rattle.std.specs.Prelude.{◌≡◌, ◌∷◌, IfOk, codes};
ghost use Rattle.handles.specs.Listings.{IsMade, IsListing, folder_at};

use crate::names::{drop_reserved, in_order};
use backing::{Child, Children};
use paths::Name;
use payload::Kind;
use std::alloc::{AllocError, Global};
use std::marker::Model;

/// Why a listing could not be made.
#[derive(Clone, Copy, Debug, PartialEq, Eq)]
pub enum ListingFault {
    /// A name is empty, longer than 255 bytes, `.` or `..`, contains a slash or a zero byte, or comes twice: EIO (own).
    /// Reserved names are checked like any others.
    Lawless,
    /// Out of memory: ENOMEM (own).
    Memory,
}

/// What an open folder shows: `.` and `..`, then its names sorted by bytes, without those that the server keeps for
/// itself. It has its node's number, and its handle after it was stored. Contracts see it as an `OpenFolder`.
#[derive(Drop)]
pub struct Listing {
    number: u64,
    fh: u64,
    entries: Vec<Child>,
}

impl Model for Listing {
    ghost use Rattle.handles.specs.Listings.{OpenFolder, IsListing};

    ghost Value = { OpenFolder };

    ghost view = { λ l. record { number = l.number; fh = l.fh; entries = l.entries.items } };

    ghost invariant = { λ l. IsListing l.entries.items };
}

impl Listing {
    /// The listing of a node's children, without a handle yet (0).
    pub fn new(alloc: Global, number: u64, children: Children) -> Result<Listing, ListingFault>
        ensures { IsMade number children result }
    {
        let Some(mut names) = in_order(children) else {
            return Err(ListingFault::Lawless);
        };
        drop_reserved(&mut names);
        let Ok(entries) = with_dots(alloc, names) else {
            return Err(ListingFault::Memory);
        };
        Ok(Listing {
            number,
            fh: 0,
            entries,
        })
    }

    /// The number of its node.
    pub fn number(&self) -> u64
        ensures { result ≡ self.now.number }
    {
        self.number
    }

    /// Its handle, or 0 before it is stored.
    pub fn fh(&self) -> u64
        ensures { result ≡ self.now.fh }
    {
        self.fh
    }

    /// For the prover: the type guarantees that it is lawful. It does nothing.
    pub fn attest(&self)
        ensures { IsListing self.now.entries }
    {
        let _ = &self.entries;
    }

    /// The same listing with that handle.
    pub fn under(self, fh: u64) -> Listing
        ensures { result ≡ record self { fh = fh } }
    {
        Listing { fh, ..self }
    }

    /// Everything that it shows, in order.
    pub fn entries(&self) -> &[Child]
        ensures { result.now ≡ self.now.entries }
    {
        self.entries.as_slice()
    }
}

/// `.` and `..`, followed by the names.
fn with_dots(alloc: Global, names: Vec<Child>) -> Result<Vec<Child>, AllocError>
    ensures { IfOk result (λ v. v.items ≡ folder_at (codes ".") ∷ folder_at (codes "..") ∷ names.items) }
{
    let mut entries = names;
    entries.reserve(2)?;
    entries.insert(0, folder(alloc, "..")?)?;
    entries.insert(0, folder(alloc, ".")?)?;
    Ok(entries)
}

/// A folder with this name.
fn folder(alloc: Global, name: &str) -> Result<Child, AllocError>
    ensures { IfOk result (λ child. child ≡ folder_at name.now) }
{
    let name = Name::from_text(alloc, name)?;
    Ok(Child {
        name,
        kind: Kind::Folder,
    })
}
