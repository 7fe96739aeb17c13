//! The paths that requests hold while work on them is in progress.
//!
//! The holders of each path are counted, except for one request: the one that was added while all others were counted.
//! So the paths of a request that is alone are not counted: nothing is looked up or hashed for it, and it does not
//! allocate. A query about a path looks at the numbers, and then at the lists of that one request, which are short.

ghost use Rattle.std.specs.Prelude.{◌≡◌, ◌↔◌, ◌<◌, ◌+◌, ◌^◌, ◌++◌, ◌∷◌, [], ℕ, List, None, IsTrue, OnErr, OnOk, length};
ghost use Rattle.std.specs.Option.{option_copied};
ghost use Rattle.holds.specs.Numbers.{AreNumbers, holders_on};
ghost use Rattle.table_requests.specs.declared.data.RequestInFlight.{RequestInFlight};
ghost use Rattle.table_requests.specs.HeldPaths.{AreHolders, LoseHolder, held_under, owners_in, sharers_in};
ghost use Rattle.table_requests.specs.Listed.{HaveOwnIds, flight_in};
ghost use Rattle.table_requests.specs.RequestMaps.{HasExclusiveHolder, HoldsUp};

use crate::data::{RequestInFlight, Stage};
use crate::listed::index_of;
use holds::{Held, HoldNumbers};
use paths::{Name, Path};
use std::alloc::{AllocError, Global};
use std::hash::RandomState;

/// How many requests hold each path.
#[derive(Drop)]
pub(crate) struct HeldPaths {
    /// The two numbers of each path, over all requests in progress except one.
    pub(crate) numbers: HoldNumbers,
    /// The id of that one, if there is one.
    pub(crate) uncounted: Option<u64>,
}

/// Nothing is held. Paths are hashed with that seed.
pub(crate) fn nothing_held(alloc: Global, seed: RandomState) -> HeldPaths
    ensures { AreHolders result [] }
{
    HeldPaths {
        numbers: HoldNumbers::new(alloc, seed),
        uncounted: None,
    }
}

/// What the request with that id holds, if there is an id and the request is in progress.
fn held_under(flights: &[RequestInFlight], id: Option<u64>) -> Option<&Held>
    requires { HaveOwnIds flights.now }
    ensures { option_copied result ≡ held_under flights.now id }
{
    let i = index_of(flights, id?)?;
    match &flights[i].stage {
        Stage::Working(work) => Some(&work.held),
        Stage::Answered { .. } => None,
    }
}

/// Whether a request in progress holds a name that conflicts with these.
pub(crate) fn holds_up(held: &HeldPaths, flights: &[RequestInFlight], wanted: &Held) -> bool
    requires apart { HaveOwnIds flights.now }
    requires told { AreHolders held.now flights.now }
    ensures { IsTrue result ↔ HoldsUp (flight_in flights.now) wanted.now }
{
    if held.numbers.holds_up(wanted) {
        return true;
    }
    match held_under(flights, held.uncounted) {
        Some(held) => held.conflicts_with(wanted),
        None => false,
    }
}

/// Whether a counted request holds the name under the parent exclusively. If no counted request holds anything, nothing
/// is hashed: so it is while the entries of a page are given and no other request is in progress.
fn is_counted_exclusive(numbers: &HoldNumbers, parent: &Path, name: &Name) -> bool
    requires { AreNumbers numbers.now }
    ensures { IsTrue result ↔ (0 < (holders_on numbers.now (parent.now ++ name.now ∷ [])).exclusive) }
{
    if numbers.paths == 0 {
        return false;
    }
    numbers.is_held_exclusively(parent, name)
}

/// Whether a request in progress holds the name under the parent exclusively.
pub(crate) fn holds_exclusively(
    held: &HeldPaths,
    flights: &[RequestInFlight],
    parent: &Path,
    name: &Name,
) -> bool
    requires apart { HaveOwnIds flights.now }
    requires told { AreHolders held.now flights.now }
    ensures { IsTrue result ↔ HasExclusiveHolder (flight_in flights.now) (parent.now ++ name.now ∷ []) }
{
    if is_counted_exclusive(&held.numbers, parent, name) {
        return true;
    }
    match held_under(flights, held.uncounted) {
        Some(held) => held.exclusive.contains_name(parent, name),
        None => false,
    }
}

/// How many requests in progress share the path.
pub(crate) fn shared_on(held: &HeldPaths, flights: &[RequestInFlight], path: &Path) -> u64
    requires apart { HaveOwnIds flights.now }
    requires told { AreHolders held.now flights.now }
    ensures { result ≡ sharers_in flights.now path.now }
{
    let counted = held.numbers.holders_on(path).shared;
    match held_under(flights, held.uncounted) {
        Some(held) if held.shared.contains(path) => counted + 1,
        _ => counted,
    }
}

/// How many requests in progress hold the path exclusively.
pub(crate) fn exclusive_on(held: &HeldPaths, flights: &[RequestInFlight], path: &Path) -> u64
    requires apart { HaveOwnIds flights.now }
    requires told { AreHolders held.now flights.now }
    ensures { result ≡ owners_in flights.now path.now }
{
    let counted = held.numbers.holders_on(path).exclusive;
    match held_under(flights, held.uncounted) {
        Some(held) if held.exclusive.contains(path) => counted + 1,
        _ => counted,
    }
}

/// Adds the request as a holder of its paths, if it is in progress. If all others are counted, only its id is noted.
/// Out of memory is the only error; then each path has as many holders as before.
pub(crate) fn add_holder(held: &mut HeldPaths, flight: &RequestInFlight) -> Result<(), AllocError>
    requires told { (fs : List RequestInFlight) × AreHolders held.old fs × (length fs + 1 < 2 ^ 64) }
    ensures added { OnOk result ((fs : List RequestInFlight) → flight_in fs flight.now.id ≡ None → AreHolders held.old fs → AreHolders held.new (fs ++ flight.now ∷ [])) }
    ensures same { OnErr result ((fs : List RequestInFlight) → AreHolders held.old fs → AreHolders held.new fs) }
{
    let Stage::Working(work) = &flight.stage else {
        return Ok(());
    };
    // It stays uncounted when others come: counting it later would cost more, and another request's begin could fail
    // for it.
    if held.uncounted.is_none() {
        held.uncounted = Some(flight.id);
        return Ok(());
    }
    held.numbers.add(&work.held)
}

/// Removes the request with that id, which held this and is no longer in progress. If it is the uncounted one, no
/// number is lowered. It does not allocate.
pub(crate) fn drop_holder(held: &mut HeldPaths, id: u64, lost: &Held)
    requires loses { (fs : List RequestInFlight) × (gs : List RequestInFlight) × AreHolders held.old fs × LoseHolder fs id lost.now gs }
    ensures dropped { (fs gs : List RequestInFlight) → AreHolders held.old fs → LoseHolder fs id lost.now gs → AreHolders held.new gs }
{
    if held.uncounted == Some(id) {
        held.uncounted = None;
    } else {
        held.numbers.drop_holds(lost);
    }
}
