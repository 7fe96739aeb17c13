//! Listings that are lent.

ghost use Rattle.std.specs.Prelude.{◌≡◌, IfSome};
ghost use Rattle.handles.specs.Listings.{IsLent};

use crate::folders::Loan;
use crate::listing::Listing;
use crate::stored::{OwnHandle, Stored};
use sharded_slab::Entry;
use std::alloc::Global;
use std::marker::Model;

/// A listing lent by the open folders. It does not change as long as this value exists, even if it is retired, and it
/// keeps no one waiting. Contracts see it as the listing.
#[derive(Drop)]
pub struct Lent<'a> {
    entry: Entry<'a, Stored, OwnHandle, Global>,
}

impl<'a> Model for Lent<'a> {
    ghost use Rattle.handles.specs.Lending.{shown};
    ghost use Rattle.handles.specs.Listings.{OpenFolder};

    ghost Value = { OpenFolder };

    ghost view = { λ l. shown l.entry.hand.value (λ stored. stored.value.listing) };
}

impl<'a> Lent<'a> {
    /// Lends the listing stored under a key.
    pub(crate) fn new(entry: Entry<'a, Stored, OwnHandle, Global>) -> Lent<'a>
        ensures { IsLent entry.entry.spot.key result }
    {
        Lent { entry }
    }

    /// The listing.
    pub fn listing(&self) -> &Listing
        ensures { result.now ≡ self.now }
    {
        &self.entry.value().listing
    }
}

impl<'a> Loan for Lent<'a> {
    ghost shows = { λ lent. lent };

    fn listing(&self) -> &Listing {
        Lent::listing(self)
    }
}
