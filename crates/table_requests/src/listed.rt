//! The steps on the requests in flight, as a list.

ghost use Rattle.std.specs.Prelude.{true, false, ◌≡◌, nat_eq, if◌then◌else◌, ◌<◌, ◌≤◌, ◌+◌, ◌^◌, ℕ, None, Some, IfNone, IfSome, length, slice_get, slice_set, slice_index_or, vec_len, vec_capacity};
ghost use Rattle.std.specs.List.{remove};
ghost use Rattle.table_requests.specs.declared.data.RequestInFlight.{RequestInFlight};
ghost use Rattle.table_requests.specs.declared.data.Stage.TheVariants as Stage;
ghost use Rattle.table_requests.specs.HeldPaths.{HaveSameHolders, LoseHolder};
ghost use Rattle.table_requests.specs.RequestMaps.{is_working, answered, opening, pinning, HasNoneWorking, HasNoneAnswered, Answers, Notes, PinsMore, Goes, most_posted_by, pinned_at};
ghost use Rattle.table_requests.specs.Listed.{flight_in, in_flight, requests_of, AreBelow, HaveOwnIds};
ghost use Rattle.table_requests.specs.PinCounts.{pins_in, times};

use crate::data::{EndedRequest, RequestInFlight, Stage, Work};
use std::mem;

/// The index of the request in the list. Ids rise as long as each request gets the next one, and then it is found by
/// binary search.
pub(crate) fn index_of(flights: &[RequestInFlight], id: u64) -> Option<usize>
    requires { HaveOwnIds flights.now }
    ensures none { IfNone result (flight_in flights.now id ≡ None) }
    ensures within { IfSome result (λ i. i < length flights.now) }
    ensures found { IfSome result (λ i. slice_get flights.now i ≡ flight_in flights.now id) }
{
    let i = flights.partition_point(|f| f.id < id);
    if i < flights.len() && flights[i].id == id {
        return Some(i);
    }
    walk_to(flights, id)
}

/// The index of the request in the list, whatever its order.
fn walk_to(flights: &[RequestInFlight], id: u64) -> Option<usize>
    ensures none { IfNone result (flight_in flights.now id ≡ None) }
    ensures within { IfSome result (λ i. i < length flights.now) }
    ensures found { IfSome result (λ i. slice_get flights.now i ≡ flight_in flights.now id) }
{
    for (i, flight) in flights.iter().enumerate() {
        if flight.id == id {
            return Some(i);
        }
    }
    None
}

/// Ends the work on the request at that index, if it is in progress, and returns the work.
fn end_work_at(flights: &mut Vec<RequestInFlight>, i: usize) -> Option<Work>
    requires { i < vec_len flights.old }
    ensures none { IfNone result ((d : RequestInFlight) → is_working (slice_index_or flights.old.items i d).stage ≡ false) }
    ensures same { IfNone result (flights.new.items ≡ flights.old.items) }
    ensures some { IfSome result (λ work. (d : RequestInFlight) → (slice_index_or flights.old.items i d).stage ≡ Stage.Working work) }
    ensures items { IfSome result (λ _. (d : RequestInFlight) → flights.new.items ≡ slice_set flights.old.items i (answered (slice_index_or flights.old.items i d))) }
    ensures len { vec_len flights.new ≡ vec_len flights.old }
    ensures capacity { vec_capacity flights.new ≡ vec_capacity flights.old }
{
    let flight = &mut flights[i];
    if !flight.stage.is_working() {
        return None;
    }
    let stage = Stage::Answered {
        before: flight.pins.as_slice().len(),
        opened: None,
    };
    match mem::replace(&mut flight.stage, stage) {
        Stage::Working(work) => Some(work),
        Stage::Answered { .. } => unreachable!(),
    }
}

/// Ends the work on the request, and returns the work.
pub fn end_work(flights: &mut Vec<RequestInFlight>, id: u64) -> Option<Work>
    requires { HaveOwnIds flights.old.items }
    ensures none { IfNone result (HasNoneWorking (flight_in flights.old.items) id) }
    ensures same { IfNone result (flights.new.items ≡ flights.old.items) }
    ensures some { IfSome result (λ work. Answers (requests_of (in_flight flights.old)) id work (requests_of (in_flight flights.new))) }
    ensures pinned { (n : ℕ) → pins_in flights.new.items n ≡ pins_in flights.old.items n }
    ensures held { IfSome result (λ work. LoseHolder flights.old.items id work.held flights.new.items) }
    ensures apart { HaveOwnIds flights.new.items }
    ensures below { (n : ℕ) → AreBelow n (flight_in flights.old.items) → AreBelow n (flight_in flights.new.items) }
    ensures len { vec_len flights.new ≡ vec_len flights.old }
    ensures capacity { vec_capacity flights.new ≡ vec_capacity flights.old }
{
    let i = index_of(flights.as_slice(), id)?;
    end_work_at(flights, i)
}

/// Pins one more number for the request at that index.
fn pin_at(flights: &mut Vec<RequestInFlight>, i: usize, number: u64)
    requires within { i < vec_len flights.old }
    requires room { (d : RequestInFlight) → 0 < (slice_index_or flights.old.items i d).pins.room }
    ensures items { (d : RequestInFlight) → flights.new.items ≡ slice_set flights.old.items i (pinning (slice_index_or flights.old.items i d) number) }
    ensures len { vec_len flights.new ≡ vec_len flights.old }
    ensures capacity { vec_capacity flights.new ≡ vec_capacity flights.old }
{
    let flight = &mut flights[i];
    flight.pins.add(number);
}

/// Pins one more number for the request.
pub fn pin_for(flights: &mut Vec<RequestInFlight>, id: u64, number: u64)
    requires apart { HaveOwnIds flights.old.items }
    requires room { (f : RequestInFlight) × (flight_in flights.old.items id ≡ Some f) × (0 < f.pins.room) }
    ensures pins { (f : RequestInFlight) → flight_in flights.old.items id ≡ Some f → PinsMore (requests_of (in_flight flights.old)) id f number (requests_of (in_flight flights.new)) }
    ensures pinned { (n : ℕ) → pins_in flights.new.items n ≡ pins_in flights.old.items n + (if nat_eq number n then 1 else 0) }
    ensures held { HaveSameHolders flights.old.items flights.new.items }
    ensures apart { HaveOwnIds flights.new.items }
    ensures below { (n : ℕ) → AreBelow n (flight_in flights.old.items) → AreBelow n (flight_in flights.new.items) }
    ensures len { vec_len flights.new ≡ vec_len flights.old }
    ensures capacity { vec_capacity flights.new ≡ vec_capacity flights.old }
{
    match index_of(flights.as_slice(), id) {
        Some(i) => pin_at(flights, i, number),
        None => unreachable!(),
    }
}

/// Notes the file that the request at that index opened, if its work has ended.
fn note_at(flights: &mut Vec<RequestInFlight>, i: usize, handle: u64)
    requires { i < vec_len flights.old }
    ensures items { (d : RequestInFlight) → flights.new.items ≡ slice_set flights.old.items i (opening (slice_index_or flights.old.items i d) handle) }
    ensures len { vec_len flights.new ≡ vec_len flights.old }
    ensures capacity { vec_capacity flights.new ≡ vec_capacity flights.old }
{
    let flight = &mut flights[i];
    match &mut flight.stage {
        Stage::Working(_) => {}
        Stage::Answered { before: _, opened } => *opened = Some(handle),
    }
}

/// Notes the file that the request opened, if its work has ended.
pub fn note_for(flights: &mut Vec<RequestInFlight>, id: u64, handle: u64)
    requires apart { HaveOwnIds flights.old.items }
    requires here { (f : RequestInFlight) × (flight_in flights.old.items id ≡ Some f) }
    ensures notes { (f : RequestInFlight) → flight_in flights.old.items id ≡ Some f → Notes (requests_of (in_flight flights.old)) id f handle (requests_of (in_flight flights.new)) }
    ensures pinned { (n : ℕ) → pins_in flights.new.items n ≡ pins_in flights.old.items n }
    ensures held { HaveSameHolders flights.old.items flights.new.items }
    ensures apart { HaveOwnIds flights.new.items }
    ensures below { (n : ℕ) → AreBelow n (flight_in flights.old.items) → AreBelow n (flight_in flights.new.items) }
    ensures len { vec_len flights.new ≡ vec_len flights.old }
    ensures capacity { vec_capacity flights.new ≡ vec_capacity flights.old }
{
    match index_of(flights.as_slice(), id) {
        Some(i) => note_at(flights, i, handle),
        None => unreachable!(),
    }
}

/// Removes the request at that index if it was answered, and returns what is left of it.
fn take_at(flights: &mut Vec<RequestInFlight>, i: usize) -> Option<EndedRequest>
    requires { i < vec_len flights.old }
    ensures none { IfNone result ((d : RequestInFlight) → is_working (slice_index_or flights.old.items i d).stage ≡ true) }
    ensures same { IfNone result (flights.new.items ≡ flights.old.items) }
    ensures answered { IfSome result (λ ended. (d : RequestInFlight) → (slice_index_or flights.old.items i d).stage ≡ Stage.Answered ended.before ended.opened) }
    ensures pins { IfSome result (λ ended. (d : RequestInFlight) → (slice_index_or flights.old.items i d).pins ≡ ended.pins) }
    ensures items { IfSome result (λ _. flights.new.items ≡ remove flights.old.items i) }
    ensures capacity { vec_capacity flights.new ≡ vec_capacity flights.old }
{
    let flight = &flights[i];
    let Stage::Answered { before, opened } = &flight.stage else {
        return None;
    };
    let before = *before;
    let opened = *opened;
    let flight = flights.remove(i);
    Some(EndedRequest {
        pins: flight.pins,
        before,
        opened,
    })
}

/// Removes an answered request, and returns what is left of it.
pub fn take_answered(flights: &mut Vec<RequestInFlight>, id: u64) -> Option<EndedRequest>
    requires { HaveOwnIds flights.old.items }
    ensures none { IfNone result (HasNoneAnswered (flight_in flights.old.items) id) }
    ensures same { IfNone result (flights.new.items ≡ flights.old.items) }
    ensures some { IfSome result (λ ended. Goes (requests_of (in_flight flights.old)) id ended (requests_of (in_flight flights.new))) }
    ensures pinned { IfSome result (λ ended. (n : ℕ) → pins_in flights.new.items n + times n ended.pins.numbers ≡ pins_in flights.old.items n) }
    ensures held { HaveSameHolders flights.old.items flights.new.items }
    ensures apart { HaveOwnIds flights.new.items }
    ensures below { (n : ℕ) → AreBelow n (flight_in flights.old.items) → AreBelow n (flight_in flights.new.items) }
    ensures capacity { vec_capacity flights.new ≡ vec_capacity flights.old }
{
    let i = index_of(flights.as_slice(), id)?;
    take_at(flights, i)
}

/// The most postings that the next call on the request makes: those promised to its work, or one give-back for each
/// number that it gave.
pub fn most_posted(flights: &[RequestInFlight], id: u64) -> u64
    requires { HaveOwnIds flights.now }
    ensures { result ≡ most_posted_by (flight_in flights.now id) }
{
    let Some(i) = index_of(flights, id) else {
        return 0;
    };
    let flight = &flights[i];
    match &flight.stage {
        Stage::Working(work) => work.promise.postings,
        Stage::Answered { before, opened: _ } => {
            flight.pins.as_slice().len().saturating_sub(*before) as u64
        }
    }
}

/// The number at that index of the request's pins.
pub fn pinned_at(flights: &[RequestInFlight], id: u64, place: usize) -> Option<u64>
    requires { HaveOwnIds flights.now }
    ensures { result ≡ pinned_at (flight_in flights.now id) place }
{
    let Some(i) = index_of(flights, id) else {
        return None;
    };
    let flight = &flights[i];
    match flight.pins.as_slice().get(place) {
        Some(number) => Some(*number),
        None => None,
    }
}

/// A number above both `next` and the id, or the greatest number, which says that no such number is known.
pub fn next_after(next: u64, id: u64) -> u64
    ensures more { next ≤ result }
    ensures above { result + 1 < 2 ^ 64 → id < result }
{
    next.max(id.saturating_add(1))
}

/// The least number that is not an id.
pub fn least_free(flights: &[RequestInFlight]) -> u64
    requires apart { HaveOwnIds flights.now }
    requires short { length flights.now + 1 < 2 ^ 64 }
    ensures free { flight_in flights.now result ≡ None }
{
    let mut id = 0;
    while let Some(_place) = index_of(flights, id) {
        id += 1;
    }
    id
}
