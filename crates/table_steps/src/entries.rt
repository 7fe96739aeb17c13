//! Entries for names, which are given to the client.

ghost use Rattle.std.specs.Prelude.{◌≡◌, ◌≤◌, ◌<◌, ◌+◌, ◌^◌, ℕ};
ghost use Rattle.ledger.specs.Sums.{totals_over};
ghost use Rattle.table_steps.specs.Upheld.{IsUpheld};
ghost use Rattle.table_steps.specs.Entries.{Bears, Enters, EntersAgain};
ghost use Rattle.table_steps.specs.Keeping.{kept_by};
ghost use Rattle.table_steps.specs.Sweeping.{IsEntered, IsOneMore};
ghost use Rattle.tree.specs.Places.{at_in, IsFree, IsNamed, IsTree, Leads};

use crate::keys::Keys;
use ledger::{Ledger, Posting};
use table_files::Files;
use table_requests::{Given, RequestsInFlight};
use tree::{Key, Tree};

/// Counts one more entry of the node with this name, and posts it.
fn enter_again(
    tree: &mut Tree,
    ledger: &mut Ledger,
    _flights: &RequestsInFlight,
    _files: &Files,
    number: u64,
    _key: &Key,
) -> Given
    requires law { IsUpheld (at_in tree.old) ledger.old.made (kept_by _flights.now _files.now) }
    requires named { IsNamed (at_in tree.old) number _key.now.parent _key.now.name }
    requires room { 0 < ledger.old.room }
    requires short { (totals_over ledger.old.made).entries + 1 < 2 ^ 64 }
    ensures enters { EntersAgain (at_in tree.old) ledger.old.made _key.now.parent _key.now.name result (at_in tree.new) ledger.new.made }
    ensures law { IsUpheld (at_in tree.new) ledger.new.made (kept_by _flights.now _files.now) }
    ensures more { IsOneMore 0 tree.old ledger.old tree.new ledger.new }
{
    let Some(node) = tree.at(number) else {
        unreachable!();
    };
    let (generation, count) = (node.generation, node.count + 1);
    tree.set_count(number, count);
    ledger.post(Posting::Entry { number, generation });
    Given { number, generation }
}

/// Creates a node with this name, and counts its first entry.
fn create(
    tree: &mut Tree,
    ledger: &mut Ledger,
    _flights: &RequestsInFlight,
    _files: &Files,
    keys: Keys,
) -> Given
    requires law { IsUpheld (at_in tree.old) ledger.old.made (kept_by _flights.now _files.now) }
    requires free { IsFree (at_in tree.old) keys.key.parent keys.key.name }
    requires above { Leads (at_in tree.old) keys.key.parent }
    requires node_room { 0 < tree.old.room }
    requires places { 0 < ledger.old.places }
    requires room { 2 ≤ ledger.old.room }
    requires short { (totals_over ledger.old.made).entries + 1 < 2 ^ 64 }
    requires births { (totals_over ledger.old.made).born ≤ (totals_over ledger.old.made).entries }
    ensures bears { Bears (at_in tree.old) ledger.old.made keys.key.parent keys.key.name result (at_in tree.new) ledger.new.made }
    ensures law { IsUpheld (at_in tree.new) ledger.new.made (kept_by _flights.now _files.now) }
    ensures more { IsOneMore 1 tree.old ledger.old tree.new ledger.new }
{
    let Keys { key, copy } = keys;
    let next = tree.next_free();
    let generation = ledger.births(next);
    let number = tree.birth(generation, key, copy);
    ledger.post(Posting::Born { number, generation });
    tree.set_count(number, 1);
    ledger.post(Posting::Entry { number, generation });
    Given { number, generation }
}

/// Gives an entry for the name: of the node with this name, which may be the guessed one, or of a new node.
pub(crate) fn enter(
    tree: &mut Tree,
    ledger: &mut Ledger,
    flights: &RequestsInFlight,
    files: &Files,
    keys: Keys,
    guess: Option<u64>,
) -> Given
    requires law { IsUpheld (at_in tree.old) ledger.old.made (kept_by flights.now files.now) }
    requires above { Leads (at_in tree.old) keys.key.parent }
    requires node_room { IsFree (at_in tree.old) keys.key.parent keys.key.name → (0 < tree.old.room) × (0 < ledger.old.places) }
    requires room { 2 ≤ ledger.old.room }
    requires short { (totals_over ledger.old.made).entries + 1 < 2 ^ 64 }
    requires births { (totals_over ledger.old.made).born ≤ (totals_over ledger.old.made).entries }
    ensures enters { Enters (at_in tree.old) ledger.old.made keys.key.parent keys.key.name result (at_in tree.new) ledger.new.made }
    ensures law { IsUpheld (at_in tree.new) ledger.new.made (kept_by flights.now files.now) }
    ensures more { IsEntered tree.old ledger.old keys.key.parent keys.key.name tree.new ledger.new }
{
    match tree.find_guessed(&keys.key, guess) {
        Some(number) => enter_again(tree, ledger, flights, files, number, &keys.key),
        None => create(tree, ledger, flights, files, keys),
    }
}
