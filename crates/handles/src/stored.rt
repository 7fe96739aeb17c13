//! Listings as they are stored.

ghost use Rattle.std.specs.Prelude.{◌≡◌, IfSome, length};
ghost use Rattle.std.specs.Arc.{arc_value};

use crate::counted::Counted;
use crate::counts::{Counts, Taken};
use crate::listing::Listing;
use atomic_table::Perch;
use sharded_slab::Keeps;
use std::alloc::Global;
use std::sync::Arc;

/// The token's word while the handle is closed.
const CLOSED: u64 = 0;

/// The token's word while the handle is open.
const OPEN: u64 = 2;

/// A listing that is stored, and the token of what was counted for it, as long as its handle is open.
#[derive(Drop)]
pub(crate) struct Stored {
    pub(crate) listing: Listing,
    token: Perch<u64, Counted>,
    counts: Arc<Counts>,
    ghost counted: { token.table_id ≡ (arc_value counts).table.shared.table_id },
    ghost folder: { token.view ≡ record { folders = 1; names = length listing.entries } },
}

/// The rule that a listing contains its own key.
pub(crate) struct OwnHandle;

impl Keeps<Stored> for OwnHandle {
    ghost use Rattle.std.specs.Prelude.{◌≡◌};

    ghost holds = { λ key stored. stored.listing.fh ≡ key };
}

impl Stored {
    /// A listing whose handle is open, with the token of what was counted for it.
    pub(crate) fn new(listing: Listing, counts: Arc<Counts>, taken: Taken) -> Stored
        requires counted { taken.seat.table_id ≡ (arc_value counts).table.shared.table_id }
        requires folder { taken.names ≡ length listing.entries }
        ensures { result.listing ≡ listing }
    {
        let Taken { seat, names: _ } = taken;
        let token = Perch::new(&seat, CLOSED);
        // It cannot fail, since no other thread knows the listing yet.
        let _ = token.give(seat, CLOSED, OPEN);
        Stored {
            listing,
            token,
            counts,
        }
    }

    /// The token of what was counted for the listing. Exactly one of all calls gets it.
    fn take(&self) -> Option<Taken>
        ensures counted { IfSome result (λ taken. taken.seat.table_id ≡ (arc_value self.now.counts).table.shared.table_id) }
        ensures folder { IfSome result (λ taken. taken.names ≡ length self.now.listing.entries) }
    {
        let (_, seat) = self.token.take(CLOSED);
        Some(Taken {
            seat: seat?,
            names: self.listing.entries().len() as u64,
        })
    }

    /// Closes its handle: what was counted for it is given back. Exactly one of all calls returns true.
    pub(crate) fn close(&self) -> bool {
        let Some(taken) = self.take() else {
            return false;
        };
        self.counts.give_back(taken);
        true
    }
}
