//! The open folders of a session.

ghost use Rattle.std.specs.Prelude.{◌≡◌, IfErr, IfOk, IfSome};
ghost use Rattle.handles.specs.Calls.{handle_in, IsPutWithin};
ghost use Rattle.handles.specs.Listings.{IsLent};

use crate::counts::Counts;
use crate::folders::Folders;
use crate::lent::Lent;
use crate::limits::FolderLimits;
use crate::listing::Listing;
use crate::stored::{OwnHandle, Stored};
use sharded_slab::RuledSlab;
use std::alloc::{AllocError, Global};
use std::marker::Model;
use std::sync::Arc;

/// The store has several parts, since one that another thread is just enlarging has no room for a moment, and then the
/// next one is tried.
const PARTS: usize = 8;

/// The open folders of a session, which several threads share without a lock. A listing is stored under its handle,
/// which it contains. Handles rise in no particular order, and 0 may be one. Contracts see only the limits.
#[derive(Drop)]
pub struct Dirs {
    stored: RuledSlab<Stored, OwnHandle>,
    counts: Arc<Counts>,
}

impl Model for Dirs {
    ghost use Rattle.handles.specs.declared.limits.FolderLimits.{FolderLimits};

    ghost Value = { FolderLimits };

    ghost use Rattle.std.specs.Arc.{arc_value};

    ghost view = { λ d. (arc_value d.counts).limits };
}

impl Dirs {
    /// No open folders, with the default limits of `FolderLimits`.
    pub fn new(alloc: Global) -> Result<Dirs, AllocError>
        ensures { IfOk result (λ dirs. dirs ≡ record { folders = 4096; names = 1048576 }) }
    {
        Dirs::with_limits(alloc, FolderLimits::default())
    }

    /// No open folders, with these limits.
    pub fn with_limits(alloc: Global, limits: FolderLimits) -> Result<Dirs, AllocError>
        ensures { IfOk result (λ dirs. dirs ≡ limits) }
    {
        Ok(Dirs {
            stored: RuledSlab::new(alloc, PARTS)?,
            counts: Arc::new(alloc, Counts::new(alloc, limits)?)?,
        })
    }

    /// Stores the listing and returns its handle, which is written into it. If that would exceed a limit, or memory is
    /// refused, the listing is returned unchanged: ENFILE (own). A call that is about to be refused is counted for a
    /// moment, so at the limit it may make another one be refused too.
    pub fn put(&self, listing: Listing) -> Result<u64, Listing>
        ensures within { IsPutWithin self.now listing (handle_in result) }
        ensures back { IfErr result (λ back. back ≡ listing) }
    {
        let Ok(counts) = Arc::try_clone(&self.counts) else {
            return Err(listing);
        };
        let Some(vacant) = self.stored.vacant_entry(0) else {
            return Err(listing);
        };
        let Some(taken) = counts.take(listing.entries().len() as u64) else {
            return Err(listing);
        };
        // The handle is written before the listing is shared, so that every reader finds the listing's own key in it.
        let fh = vacant.key() as u64;
        vacant.insert(Stored::new(listing.under(fh), counts, taken));
        Ok(fh)
    }

    /// Lends the listing under the handle. None means EBADF (own). It is also the answer if the listing is already lent
    /// too often (2^30 times).
    pub fn lend(&self, fh: u64) -> Option<Lent<'_>>
        ensures { IfSome result (IsLent fh) }
    {
        let entry = self.stored.get(fh as usize)?;
        Some(Lent::new(entry))
    }

    /// Closes the handle, and lends its listing once more. None means EBADF (own). If several calls close the same
    /// handle, exactly one gets the listing: the store has one token of what was counted for it, and gives it away once.
    pub fn close(&self, fh: u64) -> Option<Lent<'_>>
        ensures { IfSome result (IsLent fh) }
    {
        let last = self.stored.get(fh as usize)?;
        // The slab would confirm every removal while the listing is lent, so the token decides which call closed it.
        if !last.value().close() {
            return None;
        }
        self.stored.remove(fh as usize);
        Some(Lent::new(last))
    }

    /// Closes the handle. The result says whether there was a listing; false means EBADF (own). If several calls close
    /// the same handle, exactly one gets true.
    pub fn retire(&self, fh: u64) -> bool {
        self.close(fh).is_some()
    }
}

/// Open folders that others use too. The trait is implemented for the shared reference, so that each session's calls
/// are one chain of states.
impl<'d> Folders for &'d Dirs {
    ghost use Rattle.handles.specs.Calls.{Shares};

    type Lent = Lent<'d>;

    ghost keeps = { Shares };

    fn put(&mut self, listing: Listing) -> Option<u64> {
        let dirs: &'d Dirs = *self;
        dirs.put(listing).ok()
    }

    fn lend(&mut self, fh: u64) -> Option<Lent<'d>> {
        let dirs: &'d Dirs = *self;
        dirs.lend(fh)
    }

    fn retire(&mut self, fh: u64) -> bool {
        let dirs: &'d Dirs = *self;
        dirs.retire(fh)
    }

    ghost lends = { λ old new fh folder shares. shares.0 };
}
