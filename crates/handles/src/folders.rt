//! Open folders, as far as their callers know about them.

ghost use Rattle.std.specs.Prelude.{◌≡◌};

use crate::listing::Listing;

/// A listing that is lent. It does not change as long as this value exists.
pub trait Loan: Drop {
    ghost use Rattle.handles.specs.Listings.{OpenFolder};

    ghost shows: { Self → OpenFolder };

    /// The listing.
    fn listing(&self) -> &Listing
        ensures { result.now ≡ shows self.now };
}

/// The open folders of a session, by their handles.
pub trait Folders {
    ghost use Rattle.std.specs.Prelude.{ℕ, Some};
    ghost use Rattle.std.specs.Option.{option_map};
    ghost use Rattle.handles.specs.Calls.{FolderCall, Put, Lend, Retire};
    ghost use Rattle.handles.specs.Listings.{IsLent, OpenFolder};

    /// The type of a listing that they lend.
    type Lent: Loan;

    /// Which answers a call may have, and which state they may be in afterwards.
    ghost keeps: { Self → FolderCall → Self → Type 0 };

    /// Stores the listing and returns its handle, which is written into it. None means that there is no room for it:
    /// ENFILE (own).
    fn put(&mut self, listing: Listing) -> Option<u64>
        ensures { keeps self.old (Put listing result) self.new };

    /// Lends the listing under the handle. None means EBADF (own).
    fn lend(&mut self, fh: u64) -> Option<Self::Lent>
        ensures { keeps self.old (Lend fh (option_map Self.Lent.shows result)) self.new };

    /// Closes the handle. The result says whether there was a listing; false means EBADF (own).
    fn retire(&mut self, fh: u64) -> bool
        ensures { keeps self.old (Retire fh result) self.new };

    /// What is lent has the handle that was asked for, and is a listing.
    ghost lends: { (old new : Self) (fh : ℕ) (folder : OpenFolder) → keeps old (Lend fh (Some folder)) new → IsLent fh folder };
}
