//! Open folders as a plain map.

ghost use Rattle.std.specs.Prelude.{◌≡◌};

use handles::{Folders, Listing, Loan};
use std::alloc::Global;
use std::boxed::Box;
use std::marker::Model;

/// The open folders of one thread, by handles that are counted from 0. A handle that was closed has none, and its
/// memory is not reused. Contracts see the list of what each handle has.
#[derive(Drop)]
pub struct PlainFolders {
    alloc: Global,
    kept: Vec<Option<&'static Listing>>,
}

impl Model for PlainFolders {
    ghost use Rattle.std.specs.Prelude.{List, Option};
    ghost use Rattle.handles.specs.Listings.{OpenFolder};

    ghost Value = { List (Option OpenFolder) };

    ghost use Rattle.test_support.specs.Plain.{shown, BearTheirs};

    ghost view = { λ p. shown p.kept.items };

    ghost invariant = { λ p. BearTheirs (shown p.kept.items) };
}

/// A listing that they lend.
#[derive(Drop)]
pub struct PlainLoan {
    listing: &'static Listing,
}

impl Loan for PlainLoan {
    ghost shows = { λ loan. loan.listing.now };

    fn listing(&self) -> &Listing {
        self.listing
    }
}

impl PlainFolders {
    /// No open folders.
    pub fn new(alloc: Global) -> PlainFolders {
        PlainFolders {
            alloc,
            kept: Vec::new(alloc),
        }
    }

    /// How many folders are open.
    pub fn open(&self) -> usize {
        self.kept.iter().filter(|folder| folder.is_some()).count()
    }
}

impl Folders for PlainFolders {
    ghost use Rattle.test_support.specs.Plain.{Keeps};

    type Lent = PlainLoan;

    ghost keeps = { Keeps };

    fn put(&mut self, listing: Listing) -> Option<u64> {
        let fh = self.kept.as_slice().len() as u64;
        let boxed = Box::new(self.alloc, listing.under(fh)).ok()?;
        self.kept.reserve(1).ok()?;
        let listing: &'static Listing = Box::leak(boxed);
        self.kept.push_reserved(Some(listing));
        Some(fh)
    }

    fn lend(&mut self, fh: u64) -> Option<PlainLoan> {
        let listing = (*self.kept.get(fh as usize)?)?;
        listing.attest(); // proof: its law
        Some(PlainLoan { listing })
    }

    fn retire(&mut self, fh: u64) -> bool {
        let Some(folder) = self.kept.get(fh as usize) else {
            return false;
        };
        let gone = folder.is_some();
        self.kept[fh as usize] = None;
        gone
    }

    ghost lends = { λ old new fh folder keeps. keeps.2 };
}
