//! The begin of a request.

ghost use Rattle.std.specs.Prelude.{◌≡◌, ◌≤◌, ◌<◌, ◌+◌, ◌*◌, ◌%◌, ◌^◌, if◌then◌else◌, ◌==◌, not, length, ◌↔◌, IfErr, IsTrue, OnOk};
ghost use Rattle.ledger.specs.Sums.{totals_over};
ghost use Rattle.table_files.specs.OpenEntry.{files_of};
ghost use Rattle.table_steps.specs.Beginning.{Allows, Forbids, HasHandles, HasPostings, IsHandleUsable, IsRefusedHandle, IsRoomForOne, IsSameButRoom};
ghost use Rattle.table_requests.specs.Listed.{requests_of};
ghost use Rattle.table_steps.specs.Kept.{IsKept, tally_of, world_of};
ghost use Rattle.table_steps.specs.Steps.{Begins, IsUsable};
ghost use Rattle.table_steps.specs.World.{IsTally};
ghost use Rattle.table_footprints.specs.NewRequests.{IsNewRequest};
ghost use Rattle.table_footprints.specs.Cases.{seen_of};

use crate::asked::{closed_by, is_last, is_same, used_by};
use crate::data::{Begin, Ticket};
use crate::state::State;
use errno::{EAGAIN, EBADF, ENFILE, ENOMEM};
use std::alloc::AllocError;
use table_files::Files;
use table_footprints::{NewRequest, new_request};
use table_requests::{Handle, Promise, RequestInFlight, Stage, Want, Work};
use terms::Counts;

/// Whether the handle is that of an open file of the node, and may be used for this.
fn is_usable(files: &Files, number: u64, handle: &Handle) -> bool
    ensures { IsTrue result ↔ IsUsable (files_of files.now).at (record { number = number; handle = handle.now }) }
{
    match files.get(handle.fh) {
        Some(file) => file.number == number && file.access.allows(handle.need),
        None => false,
    }
}

/// Whether an open file may have to be hidden; then candidates are reserved for it.
fn may_hide(work: &Work) -> bool
    ensures { result ≡ not (length work.now.candidates == 0) }
{
    !work.candidates.as_slice().is_empty()
}

/// How many candidates are reserved if a file may have to be hidden.
const CANDIDATES: u32 = 10;

/// The counter of the next hidden name, after a request began.
fn next_counter(counter: u32, hide: bool) -> u32
    ensures { result ≡ (if hide then (counter + 10) % 2 ^ 32 else counter) }
{
    if hide {
        counter.wrapping_add(CANDIDATES)
    } else {
        counter
    }
}

impl State {
    /// Begins a request, if its tests allow it, and reserves what its end may need. A handle that it closes is closed
    /// at once. Busy and a refusal change nothing.
    pub fn begin(&mut self, unique: u64, want: Want) -> Begin
        requires { IsKept self.old }
        ensures begins { Begins (world_of self.old) unique want result (world_of self.new) }
        ensures kept { IsKept self.new }
    {
        // The handle is tested before the node, so a bad handle is EBADF even if the node is not alive.
        match self.expect_handle(&want) {
            Ok(()) => {}
            Err(errno) => return Begin::Refused(errno),
        }
        match new_request(self.alloc, &self.tree, &self.files, self.counter, want) {
            Ok(new_request) => self.admit(unique, new_request),
            Err(errno) => Begin::Refused(errno),
        }
    }

    /// Checks that the handle used by the want is that of an open file of its node, and may be used for this.
    fn expect_handle(&self, want: &Want) -> Result<(), i32>
        requires { IsKept self.now }
        ensures ok { OnOk result (IsHandleUsable (world_of self.now) want.now) }
        ensures err { IfErr result (IsRefusedHandle (world_of self.now) want.now) }
    {
        let _nodes = self.tree.len(); // proof: its law
        let Some((number, handle)) = used_by(want) else {
            return Ok(());
        };
        if is_usable(&self.files, number, &handle) {
            Ok(())
        } else {
            Err(EBADF)
        }
    }

    /// Records a request that passed the tests of its paths, if no other request conflicts with it and the limits allow
    /// it.
    fn admit(&mut self, unique: u64, new_request: NewRequest) -> Begin
        requires kept { IsKept self.old }
        requires new_request { IsNewRequest (seen_of self.old.tree self.old.files self.old.counter) new_request.work.want new_request }
        requires handle { IsHandleUsable (world_of self.old) new_request.work.want }
        ensures begins { Begins (world_of self.old) unique new_request.work.want result (world_of self.new) }
        ensures kept { IsKept self.new }
    {
        let NewRequest { work, pins, paths } = new_request;
        if self.flights.holds_up(&work.held) {
            return Begin::Busy;
        }
        let promise = work.promise;
        match self.expect_within(&promise) {
            Ok(()) => {}
            Err(errno) => return Begin::Refused(errno),
        }
        // Whether a name has a node is judged once, at the begin. Judged again later, this room might not suffice,
        // since another request may have forgotten the node in between.
        match self.reserve(&promise) {
            Ok(()) => {}
            Err(_) => return Begin::Refused(ENOMEM),
        }
        let same = is_same(&work.want);
        let hide = may_hide(&work);
        let last = is_last(&work.want, work.case);
        let closes = closed_by(&work.want);
        let id = self.flights.free_id();
        let flight = RequestInFlight {
            id,
            unique,
            stage: Stage::Working(work),
            pins,
        };
        match self.flights.add(flight) {
            Ok(()) => {}
            Err(_) => return Begin::Refused(ENOMEM),
        }
        self.counter = next_counter(self.counter, hide);
        self.close_file(closes);
        Begin::Go(Ticket {
            id,
            paths,
            same,
            hide,
            last,
        })
    }

    /// Checks that the limits allow one more request with this promise.
    fn expect_within(&self, promise: &Promise) -> Result<(), i32>
        requires { IsKept self.now }
        ensures ok { OnOk result (Allows self.now promise.now) }
        ensures err { IfErr result (Forbids self.now promise.now) }
        ensures tally { IsTally (world_of self.now) (tally_of self.now) }
    {
        let promised = self.flights.promised();
        let free_nodes = self.limits.nodes - self.tree.len() - promised.nodes;
        if free_nodes < promise.nodes {
            return Err(ENFILE);
        }
        if !self.has_postings(promise) {
            return Err(ENFILE);
        }
        if !self.has_entries(promise) {
            return Err(ENFILE);
        }
        if !self.has_handles(promise) {
            return Err(ENFILE);
        }
        if self.limits.flights <= self.flights.len() as u64 {
            return Err(EAGAIN);
        }
        Ok(())
    }

    /// Whether the period has postings left for it; if counts are free, whether a period that has just begun has.
    fn has_postings(&self, promise: &Promise) -> bool
        requires { IsKept self.now }
        ensures { IsTrue result ↔ HasPostings self.now promise.now }
    {
        let promised = self.flights.promised().postings;
        let left = match self.limits.counts {
            // Each lookup count may be forgotten one by one, so a posting is kept free for each of them.
            Counts::Bounded => {
                let made = self.ledger.made() as u64;
                self.limits.postings - made - self.counts - promised
            }
            Counts::Free => self.limits.postings - self.limits.nodes - promised,
        };
        promise.postings <= left
    }

    /// Whether all entries ever made, including those promised, stay within 64 bits. Three postings are promised for
    /// each entry.
    fn has_entries(&self, promise: &Promise) -> bool
        requires kept { IsKept self.now }
        requires few { (requests_of self.now.flights).postings + promise.now.postings < 2 ^ 64 }
        ensures { IsTrue result ↔ (3 * (totals_over self.now.ledger.made).entries + (requests_of self.now.flights).postings + promise.now.postings < 3 * 2 ^ 64) }
    {
        let promised = self.flights.promised();
        let free = u64::MAX - self.ledger.totals().entries;
        (promised.postings + promise.postings) / 3 <= free
    }

    /// Whether the files that it may open stay within the limit, and handles are left for them.
    fn has_handles(&self, promise: &Promise) -> bool
        requires { IsKept self.now }
        ensures { IsTrue result ↔ HasHandles self.now promise.now }
    {
        let promised = self.flights.promised();
        let free_files = self.limits.files - self.files.len() as u64 - promised.files;
        let free_handles = self.files.handles_left() - promised.files;
        promise.files <= free_files && promise.files <= free_handles
    }

    /// Makes room for one more request with this promise.
    fn reserve(&mut self, promise: &Promise) -> Result<(), AllocError>
        requires kept { IsKept self.old }
        requires allowed { Allows self.old promise.now }
        ensures ok { OnOk result (IsRoomForOne self.new promise.now) }
        ensures same { IsSameButRoom self.old self.new }
        ensures kept { IsKept self.new }
    {
        let promised = self.flights.promised();
        let nodes = promised.nodes + promise.nodes;
        let postings = match self.limits.counts {
            Counts::Bounded => self.counts + promised.postings + promise.postings,
            Counts::Free => 0,
        };
        let files = promised.files + promise.files;
        if self.tree.reserve(nodes as usize).is_err() {
            return Err(AllocError);
        }
        if self
            .ledger
            .reserve(postings as usize, nodes as usize)
            .is_err()
        {
            return Err(AllocError);
        }
        if self.files.reserve(files as usize).is_err() {
            return Err(AllocError);
        }
        self.flights.reserve()
    }
}
