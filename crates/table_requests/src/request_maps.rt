//! The requests in flight, with the totals of what they were promised.

ghost use Rattle.std.specs.Prelude.{true, false, ◌≡◌, ◌≢◌, ◌<◌, ◌≤◌, ◌+◌, ◌^◌, ◌++◌, ◌∷◌, [], ℕ, None, Some, IfNone, IfSome, IsOk, OnErr, OnOk, IsTrue, AllPairs, ◌↔◌, option_copied, count_by, length};
ghost use Rattle.table_requests.specs.declared.data.RequestInFlight.{RequestInFlight};
ghost use Rattle.table_requests.specs.RequestMaps.{files_promised, no_requests, nodes_promised, postings_promised, AreLawfulRequests, IsTallied, HasNoneWorking, HasNoneAnswered, Adds, Answers, Notes, PinsMore, Goes, HoldsUp, HasExclusiveHolder, has_exclusive, has_shared, most_posted_by, pinned_at};
ghost use Rattle.table_requests.specs.Listed.{requests_of, flight_in, pinned_in};

use crate::data::{EndedRequest, Promise, RequestInFlight, Work};
use crate::held_paths::{
    HeldPaths, add_holder, drop_holder, exclusive_on, holds_exclusively, holds_up, nothing_held,
    shared_on,
};
use crate::listed::{
    end_work, least_free, most_posted, next_after, note_for, pin_for, pinned_at, take_answered,
};
use crate::pin_counts::{PinCounts, count, count_all, count_of, make_room, no_pins, uncount_all};
use holds::Held;
use paths::{Name, Path};
use std::alloc::{AllocError, Global};
use std::hash::RandomState;
use std::marker::Model;

/// The requests in flight, each with an id of its own.
#[derive(Drop)]
pub struct RequestsInFlight {
    flights: Vec<RequestInFlight>,
    pinned: PinCounts,
    /// How many requests hold each path.
    held: HeldPaths,
    promised: Promise,
    /// Above all ids, or the greatest number if no such number is known.
    next: u64,
}

impl Model for RequestsInFlight {
    ghost use Rattle.table_requests.specs.Listed.{InFlight, in_flight};
    ghost use Rattle.table_requests.specs.Totals.{IsTotalled};

    ghost Value = { InFlight };

    ghost view = { λ a. in_flight a.flights };

    ghost invariant = { λ a. IsTotalled a.flights.items a.pinned a.held a.promised a.next };
}

#[tactic(auto, using(crate::proofs::Kept::IsFlying_listed), unfolding(crate::specs::Listed::requests_of))]
impl RequestsInFlight {
    /// No requests. The paths that they hold are hashed with that seed.
    pub fn new(alloc: Global, seed: RandomState) -> RequestsInFlight
        ensures at { (requests_of result).at ≡ no_requests }
        ensures pinned { (requests_of result).pinned ≡ (λ _. false) }
        ensures many { (requests_of result).many ≡ 0 }
        ensures nodes { (requests_of result).nodes ≡ 0 }
        ensures postings { (requests_of result).postings ≡ 0 }
        ensures files { (requests_of result).files ≡ 0 }
        ensures law { AreLawfulRequests (requests_of result) }
    {
        let flights = Vec::new(alloc);
        RequestsInFlight {
            flights,
            pinned: no_pins(alloc),
            held: nothing_held(alloc, seed),
            promised: Promise::NONE,
            next: 0,
        }
    }

    /// How many requests are in flight.
    pub fn len(&self) -> usize
        ensures many { result ≡ (requests_of self.now).many }
        ensures law { AreLawfulRequests (requests_of self.now) }
    {
        self.flights.len()
    }

    /// The most postings that the next call on the request makes: those promised to its work, or one give-back for each
    /// node that it gave.
    pub fn most_posted(&self, id: u64) -> u64
        ensures { result ≡ most_posted_by ((requests_of self.now).at id) }
    {
        most_posted(self.flights.as_slice(), id)
    }

    /// The sum of what all requests were promised.
    pub fn promised(&self) -> Promise
        ensures nodes { result.nodes ≡ (requests_of self.now).nodes }
        ensures postings { result.postings ≡ (requests_of self.now).postings }
        ensures files { result.files ≡ (requests_of self.now).files }
        ensures tallied { IsTallied (requests_of self.now) }
        ensures law { AreLawfulRequests (requests_of self.now) }
    {
        self.promised
    }

    /// A number that is not an id.
    pub fn free_id(&self) -> u64
        ensures free { (requests_of self.now).at result ≡ None }
        ensures law { AreLawfulRequests (requests_of self.now) }
    {
        if self.next < u64::MAX {
            self.next
        } else {
            least_free(&self.flights)
        }
    }

    /// Whether some request pins the number.
    pub fn pins(&self, number: u64) -> bool
        ensures pinned { result ≡ (requests_of self.now).pinned number }
        ensures law { AreLawfulRequests (requests_of self.now) }
    {
        if count_of(&self.pinned, number) > 0 {
            return true;
        }
        if self.pinned.loose == 0 {
            return false;
        }
        self.flights.iter().any(|f| f.pins.contains(number))
    }

    /// Whether a request in progress holds a name that conflicts with these.
    pub fn holds_up(&self, wanted: &Held) -> bool
        ensures held { IsTrue result ↔ HoldsUp (requests_of self.now).at wanted.now }
        ensures law { AreLawfulRequests (requests_of self.now) }
    {
        holds_up(&self.held, self.flights.as_slice(), wanted)
    }

    /// Whether a request in progress holds the name under the parent exclusively.
    pub fn holds_exclusively(&self, parent: &Path, name: &Name) -> bool
        ensures owned { IsTrue result ↔ HasExclusiveHolder (requests_of self.now).at (parent.now ++ name.now ∷ []) }
        ensures law { AreLawfulRequests (requests_of self.now) }
    {
        holds_exclusively(&self.held, self.flights.as_slice(), parent, name)
    }

    /// How many requests in progress share the path.
    pub fn shared_on(&self, path: &Path) -> u64
        ensures { result ≡ count_by (λ (f : RequestInFlight). has_shared f.stage path.now) self.now.flights }
    {
        shared_on(&self.held, self.flights.as_slice(), path)
    }

    /// How many requests in progress hold the path exclusively.
    pub fn exclusive_on(&self, path: &Path) -> u64
        ensures { result ≡ count_by (λ (f : RequestInFlight). has_exclusive f.stage path.now) self.now.flights }
    {
        exclusive_on(&self.held, self.flights.as_slice(), path)
    }

    /// Makes room for one more request.
    pub fn reserve(&mut self) -> Result<(), AllocError>
        ensures ok { OnOk result (0 < (requests_of self.new).room) }
        ensures had_room { 0 < (requests_of self.old).room → IsOk result }
        ensures same { requests_of self.new ≡ record (requests_of self.old) { room = (requests_of self.new).room } }
        ensures room { (requests_of self.old).room ≤ (requests_of self.new).room }
        ensures law { AreLawfulRequests (requests_of self.new) }
    {
        make_room(&mut self.pinned);
        self.flights.reserve(1)
    }

    /// Adds a request, for which there is room. Out of memory for its paths is the only error; then it is not added.
    pub fn add(&mut self, flight: RequestInFlight) -> Result<(), AllocError>
        requires room { 0 < (requests_of self.old).room }
        requires fresh { (requests_of self.old).at flight.id ≡ None }
        requires nodes { (requests_of self.old).nodes + nodes_promised flight.stage < 2 ^ 64 }
        requires postings { (requests_of self.old).postings + postings_promised flight.stage < 2 ^ 64 }
        requires files { (requests_of self.old).files + files_promised flight.stage < 2 ^ 64 }
        ensures adds { OnOk result (Adds (requests_of self.old) flight (requests_of self.new)) }
        ensures same { OnErr result (self.new ≡ self.old) }
        ensures room { (requests_of self.old).room ≤ (requests_of self.new).room + 1 }
        ensures law { AreLawfulRequests (requests_of self.new) }
    {
        let _places = self.flights.capacity(); // proof: a `usize` counts them
        add_holder(&mut self.held, &flight)?;
        let promise = flight.stage.promise();
        self.promised.nodes += promise.nodes;
        self.promised.postings += promise.postings;
        self.promised.files += promise.files;
        self.next = next_after(self.next, flight.id);
        count_all(&mut self.pinned, flight.pins.as_slice());
        self.flights.push_reserved(flight);
        Ok(())
    }

    /// Ends the work on the request with that id and returns the work, if the request is in progress. The request keeps
    /// its pins and is promised nothing more.
    pub fn answer(&mut self, id: u64) -> Option<Work>
        ensures none { IfNone result (HasNoneWorking (requests_of self.old).at id) }
        ensures same { IfNone result (self.new ≡ self.old) }
        ensures some { IfSome result (λ work. Answers (requests_of self.old) id work (requests_of self.new)) }
        ensures room { (requests_of self.new).room ≡ (requests_of self.old).room }
        ensures law { AreLawfulRequests (requests_of self.new) }
    {
        let work = end_work(&mut self.flights, id)?;
        drop_holder(&mut self.held, id, &work.held);
        self.promised.nodes -= work.promise.nodes;
        self.promised.postings -= work.promise.postings;
        self.promised.files -= work.promise.files;
        Some(work)
    }

    /// Pins one more number for the request, which has room for it.
    pub fn pin(&mut self, id: u64, number: u64)
        requires { (f : RequestInFlight) × ((requests_of self.old).at id ≡ Some f) × (0 < f.pins.room) }
        ensures pins { (f : RequestInFlight) → (requests_of self.old).at id ≡ Some f → PinsMore (requests_of self.old) id f number (requests_of self.new) }
        ensures room { (requests_of self.new).room ≡ (requests_of self.old).room }
        ensures law { AreLawfulRequests (requests_of self.new) }
    {
        pin_for(&mut self.flights, id, number);
        count(&mut self.pinned, number);
    }

    /// The number at that index of the request's pins, if the request is in flight and has that many.
    pub fn pinned_at(&self, id: u64, place: usize) -> Option<u64>
        ensures { result ≡ pinned_at ((requests_of self.now).at id) place }
    {
        pinned_at(self.flights.as_slice(), id, place)
    }

    /// Notes the file that was opened at the end of the request's work.
    pub fn note_file(&mut self, id: u64, handle: u64)
        requires { (f : RequestInFlight) × ((requests_of self.old).at id ≡ Some f) }
        ensures notes { (f : RequestInFlight) → (requests_of self.old).at id ≡ Some f → Notes (requests_of self.old) id f handle (requests_of self.new) }
        ensures room { (requests_of self.new).room ≡ (requests_of self.old).room }
        ensures law { AreLawfulRequests (requests_of self.new) }
    {
        note_for(&mut self.flights, id, handle);
    }

    /// Removes the request with that id and returns what is left of it, if it was answered.
    pub fn take(&mut self, id: u64) -> Option<EndedRequest>
        ensures none { IfNone result (HasNoneAnswered (requests_of self.old).at id) }
        ensures same { IfNone result (self.new ≡ self.old) }
        ensures some { IfSome result (λ ended. Goes (requests_of self.old) id ended (requests_of self.new)) }
        ensures room { (requests_of self.old).room ≤ (requests_of self.new).room }
        ensures law { AreLawfulRequests (requests_of self.new) }
    {
        let ended = take_answered(&mut self.flights, id)?;
        uncount_all(&mut self.pinned, ended.pins.as_slice());
        Some(ended)
    }

    /// All requests, in some order.
    pub fn as_slice(&self) -> &[RequestInFlight]
        ensures at { flight_in result.now ≡ (requests_of self.now).at }
        ensures pinned { pinned_in result.now ≡ (requests_of self.now).pinned }
        ensures many { length result.now ≡ (requests_of self.now).many }
        ensures apart { AllPairs (λ (f g : RequestInFlight). f.id ≢ g.id) result.now }
        ensures law { AreLawfulRequests (requests_of self.now) }
    {
        self.flights.as_slice()
    }
}
