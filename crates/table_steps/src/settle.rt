//! The end of a request, after its reply was taken or was not.

ghost use Rattle.std.specs.Prelude.{◌≡◌, ◌<◌, ◌≤◌, ◌+◌, ◌⊎◌, drop, length};
ghost use Rattle.table_requests.specs.Listed.{requests_of};
ghost use Rattle.table_requests.specs.RequestMaps.{most_posted_by};
ghost use Rattle.table_steps.specs.Entries.{TakesAllBack, TakesBack, TakesNone, untaken_of};
ghost use Rattle.table_steps.specs.Keeping.{kept_by};
ghost use Rattle.table_steps.specs.Steps.{Settles, untaken_file};
ghost use Rattle.table_steps.specs.Sweeping.{IsAmong, IsNearly, IsTakenBack};
ghost use Rattle.table_steps.specs.Kept.{IsKept, world_of};
ghost use Rattle.tree.specs.Places.{at_in};

use crate::closing::close;
use crate::data::{Answered, Settled};
use crate::state::State;
use crate::sweep::sweep_pins;
use ledger::{Ledger, Posting};
use table_files::Files;
use table_requests::{EndedRequest, RequestsInFlight};
use terms::Counts;
use tree::Tree;

/// What keeps nodes alive apart from their counts: requests that pin them, and open files.
#[derive(Clone, Copy)]
struct Keepers<'a> {
    flights: &'a RequestsInFlight,
    files: &'a Files,
}

/// Takes back an entry of the node, if its count is above 0. The keepers and the pins are for the prover.
fn take_back(
    tree: &mut Tree,
    ledger: &mut Ledger,
    counts: &mut u64,
    _keepers: Keepers<'_>,
    number: u64,
    _pins: &[u64],
)
    requires counts { counts.old ≡ tree.old.counts }
    requires nearly { IsNearly (at_in tree.old) ledger.old.made (kept_by _keepers.flights.now _keepers.files.now) _pins.now }
    requires suspect { IsAmong number _pins.now }
    requires room { (tree.old.counts ≤ ledger.old.room) ⊎ (0 < ledger.old.room) }
    ensures back { TakesBack (at_in tree.old) ledger.old.made number (at_in tree.new) ledger.new.made ⊎ TakesNone (at_in tree.old) ledger.old.made number (at_in tree.new) ledger.new.made }
    ensures nearly { IsNearly (at_in tree.new) ledger.new.made (kept_by _keepers.entry.flights.now _keepers.entry.files.now) _pins.now }
    ensures rest { IsTakenBack tree.old ledger.old tree.new ledger.new }
    ensures one { ledger.old.room ≤ ledger.new.room + 1 }
    ensures counts { counts.new ≡ tree.new.counts }
{
    let Some(node) = tree.at(number) else {
        return;
    };
    if node.count == 0 {
        return;
    }
    let generation = node.generation;
    let count = node.count - 1;
    tree.set_count(number, count);
    *counts -= 1;
    ledger.post(Posting::Back { number, generation });
}

/// Takes back an entry of each of the nodes in turn, from that index on.
fn take_all_back(
    tree: &mut Tree,
    ledger: &mut Ledger,
    counts: &mut u64,
    keepers: Keepers<'_>,
    pins: &[u64],
    from: usize,
)
    requires counts { counts.old ≡ tree.old.counts }
    requires nearly { IsNearly (at_in tree.old) ledger.old.made (kept_by keepers.flights.now keepers.files.now) pins.now }
    requires room { (tree.old.counts ≤ ledger.old.room) ⊎ (length pins.now ≤ ledger.old.room + from) }
    ensures back { TakesAllBack (at_in tree.old) ledger.old.made (drop from pins.now) (at_in tree.new) ledger.new.made }
    ensures nearly { IsNearly (at_in tree.new) ledger.new.made (kept_by keepers.entry.flights.now keepers.entry.files.now) pins.now }
    ensures rest { IsTakenBack tree.old ledger.old tree.new ledger.new }
    ensures counts { counts.new ≡ tree.new.counts }
{
    for i in from..pins.len() {
        take_back(tree, ledger, counts, keepers, pins[i], pins);
    }
}

/// The index among the pins from which entries are taken back. The entries that the request gave begin at `before`; if
/// the reply was taken, none is taken back.
fn untaken_from(pins: &[u64], before: usize, taken: bool) -> usize
    ensures { drop result pins.now ≡ untaken_of taken (drop before pins.now) }
{
    if taken { pins.len() } else { before }
}

/// The handle that is closed, or none if the reply was taken.
fn untaken_file(opened: Option<u64>, taken: bool) -> Option<u64>
    ensures { result ≡ untaken_file taken opened }
{
    if taken { None } else { opened }
}

impl State {
    /// Ends a request: its record is removed, and what it gave and opened is taken back if the reply was not taken. The
    /// record says what that is, not the answer.
    pub fn settle(&mut self, answered: Answered, taken: bool) -> Settled
        requires kept { IsKept self.old }
        requires room { self.old.limits.counts ≡ Counts.Free → most_posted_by ((requests_of self.old.flights).at answered.id) ≤ self.old.ledger.room }
        ensures settles { Settles (world_of self.old) answered taken result (world_of self.new) }
        ensures kept { IsKept self.new }
    {
        let Answered {
            id,
            given,
            lost,
            opened: _,
        } = answered;
        let settled = Settled {
            id,
            entries: given.entries(),
            taken,
        };
        if lost {
            return settled;
        }
        let Some(ended) = self.flights.take(id) else {
            return settled;
        };
        let EndedRequest {
            pins,
            before,
            opened,
        } = ended;
        let pins = pins.as_slice();
        let from = untaken_from(pins, before, taken);
        let keepers = Keepers {
            flights: &self.flights,
            files: &self.files,
        };
        take_all_back(
            &mut self.tree,
            &mut self.ledger,
            &mut self.counts,
            keepers,
            pins,
            from,
        );
        close(
            &mut self.tree,
            &self.flights,
            &mut self.files,
            untaken_file(opened, taken),
            pins,
        );
        sweep_pins(&mut self.tree, &self.flights, &self.files, pins);
        settled
    }
}
