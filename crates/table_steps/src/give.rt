//! Entries that the end of a request's work gives.

ghost use Rattle.std.specs.Prelude.{ℕ, ◌≡◌, ◌≤◌, true, false, List, [], ◌∷◌, None, Some, Contains, length, map};
ghost use Rattle.table_requests.specs.declared.data.RequestInFlight.{RequestInFlight as Recorded};
ghost use Rattle.table_requests.specs.Listed.{requests_of};
ghost use Rattle.holds.specs.declared.held.GivenPath.{GivenPath as Lead};
ghost use Rattle.table_steps.specs.Ending.{AreUnowned, EntersName, GivesAll, IsGivenFor, LeadsTo, MayEnter, MayFill, folders_in, is_page, keys_in};
ghost use Rattle.table_steps.specs.Kept.{IsKept, flight_of, world_of};
ghost use Rattle.table_steps.specs.Steps.{one_found, page_found};
ghost use Rattle.tree.specs.declared.nodes.Key.{Key as Under};
ghost use Rattle.tree.specs.Places.{IsAlive, IsPathOf, at_in};
ghost use Rattle.table_footprints.specs.Footprints.{page_keys};

use crate::acts::EnteredNames;
use crate::data::Answered;
use crate::entries::enter;
use crate::found::FoundNames;
use crate::keys::{FolderKeys, Keys};
use crate::state::State;
use holds::Held;
use paths::Path;
use table_requests::{Given, Givens};

/// The index, among a request's pins, of the node that its first name had when it began, if it had one. The node of the
/// parent comes before it.
pub(crate) const FIRST_FOUND: usize = 1;

impl EnteredNames {
    /// How many names there are.
    fn len(&self) -> usize
        ensures { result ≡ length (keys_in self.now) }
    {
        match self {
            EnteredNames::Nothing => 0,
            EnteredNames::One(_) => 1,
            EnteredNames::Page(page) => page.names.as_slice().len(),
        }
    }
}

/// The answer of a request that gives nothing for its names.
pub(crate) fn give_none(
    id: u64,
    entries: &EnteredNames,
    answer: Givens,
    opened: Option<u64>,
) -> Answered
    requires room { length (keys_in entries.now) ≤ answer.room }
    requires unanswered { answer.items ≡ [] }
    ensures { result ≡ record { id = id; given = map (λ _. None) (keys_in entries.now); lost = false; opened = opened } }
{
    let mut given = answer;
    for next in 0..entries.len() {
        given.add(None);
    }
    Answered {
        id,
        given,
        lost: false,
        opened,
    }
}

/// The path of the only node that a request names.
fn path_of(held: &Held) -> &Path
    requires { length held.now.given ≡ 1 }
    ensures { (lead : Lead) → held.now.given ≡ lead ∷ [] → result.now ≡ lead.path }
{
    &held.given.as_slice()[0].path
}

impl State {
    /// Gives an entry for the name, and pins its node for the request. It is probably the node pinned at this index.
    fn give(&mut self, id: u64, keys: Keys, place: usize) -> Given
        requires kept { IsKept self.old }
        requires may { MayEnter self.old id (keys.key ∷ []) }
        ensures enters { (f : Recorded) → (requests_of self.old.flights).at id ≡ Some f → EntersName (world_of self.old) id (flight_of f) keys.key result (world_of self.new) }
        ensures more { (rest : List Under) → MayFill self.old id (keys.key ∷ rest) → MayFill self.new id rest }
        ensures alive { IsAlive (at_in self.new.tree) result.number }
        ensures files { self.new.files ≡ self.old.files }
        ensures limits { self.new.limits ≡ self.old.limits }
        ensures promised { (requests_of self.new.flights).files ≡ (requests_of self.old.flights).files }
        ensures kept { IsKept self.new }
    {
        // Comparing the name of that node is cheaper than looking the name up in the index, which would hash it.
        let guess = self.flights.pinned_at(id, place);
        let entered = enter(
            &mut self.tree,
            &mut self.ledger,
            &self.flights,
            &self.files,
            keys,
            guess,
        );
        self.counts += 1;
        self.flights.pin(id, entered.number);
        entered
    }

    /// Gives an entry for a name of a page, if it was found and no request in progress holds it exclusively.
    fn give_found(
        &mut self,
        id: u64,
        folder: &Path,
        keys: Keys,
        found: bool,
        place: usize,
    ) -> Option<Given>
        requires kept { IsKept self.old }
        requires may { MayEnter self.old id (keys.key ∷ []) }
        requires leads { IsPathOf (at_in self.old.tree) keys.key.parent folder.now }
        ensures gives { (f : Recorded) → (requests_of self.old.flights).at id ≡ Some f → GivesAll (world_of self.old) id (flight_of f) (keys.key ∷ []) (found ∷ []) (result ∷ []) (world_of self.new) }
        ensures more { (rest : List Under) → MayFill self.old id (keys.key ∷ rest) → MayFill self.new id rest }
        ensures leads { IsPathOf (at_in self.new.tree) keys.key.parent folder.now }
        ensures kept { IsKept self.new }
    {
        if !found {
            return None;
        }
        // The folder's recorded path is still its path, so no path is built here, and the end of a page does not
        // allocate.
        if self.flights.holds_exclusively(folder, &keys.key.name) {
            return None;
        }
        Some(self.give(id, keys, place))
    }

    /// The index at which the node of the next name was probably pinned, after that entry was given: the nodes that
    /// names of a page had when it began were pinned in the order of the names.
    fn next_found(&self, id: u64, place: usize, given: Option<Given>) -> usize {
        match (self.flights.pinned_at(id, place), given) {
            (Some(pinned), Some(given)) if pinned == given.number => place.saturating_add(1),
            _ => place,
        }
    }

    /// Gives an entry for each name of the page that was found and that no request in progress holds exclusively.
    fn give_page(
        &mut self,
        id: u64,
        folder: &Path,
        page: FolderKeys,
        found: &[bool],
        answer: Givens,
    ) -> Answered
        requires kept { IsKept self.old }
        requires may { MayFill self.old id (page_keys page.folder page.names) }
        requires leads { IsPathOf (at_in self.old.tree) page.folder folder.now }
        requires fits { length found.now ≡ length page.names }
        requires room { length page.names ≤ answer.room }
        requires unanswered { answer.items ≡ [] }
        ensures told { result ≡ record { id = id; given = result.given; lost = false; opened = None } }
        ensures gives { (f : Recorded) → (requests_of self.old.flights).at id ≡ Some f → GivesAll (world_of self.old) id (flight_of f) (page_keys page.folder page.names) found.now result.given (world_of self.new) }
        ensures kept { IsKept self.new }
    {
        let FolderKeys {
            folder: parent,
            names,
            copies,
        } = page;
        let mut given = answer;
        let mut copies = copies.into_vec().into_iter();
        let mut place = FIRST_FOUND;
        let mut i = 0;
        for name in names.into_vec() {
            let copy = copies.next();
            let keys = Keys::new(parent, name, copy);
            let entered = self.give_found(id, folder, keys, found[i], place);
            place = self.next_found(id, place, entered);
            given.add(entered);
            i += 1;
        }
        Answered {
            id,
            given,
            lost: false,
            opened: None,
        }
    }

    /// Gives an entry for the only name of a request that is not a page.
    pub(crate) fn give_entry(
        &mut self,
        id: u64,
        entries: EnteredNames,
        answer: Givens,
    ) -> (Answered, Option<Given>)
        requires kept { IsKept self.old }
        requires may { MayEnter self.old id (keys_in entries) }
        requires unowned { is_page entries ≡ false → AreUnowned self.old (keys_in entries) }
        requires room { length (keys_in entries) ≤ answer.room }
        requires unanswered { answer.items ≡ [] }
        ensures told { result.0 ≡ record { id = id; given = result.0.given; lost = false; opened = None } }
        ensures gives { (f : Recorded) → (requests_of self.old.flights).at id ≡ Some f → GivesAll (world_of self.old) id (flight_of f) (keys_in entries) (one_found (is_page entries) (keys_in entries)) result.0.given (world_of self.new) }
        ensures given { IsGivenFor self.new entries result.0.given result.1 }
        ensures files { self.new.files ≡ self.old.files }
        ensures limits { self.new.limits ≡ self.old.limits }
        ensures promised { (requests_of self.new.flights).files ≡ (requests_of self.old.flights).files }
        ensures kept { IsKept self.new }
    {
        match entries {
            EnteredNames::One(keys) => {
                let mut given = answer;
                let entered = self.give(id, keys, FIRST_FOUND);
                given.add(Some(entered));
                let answered = Answered {
                    id,
                    given,
                    lost: false,
                    opened: None,
                };
                (answered, Some(entered))
            }
            EnteredNames::Nothing => (give_none(id, &EnteredNames::Nothing, answer, None), None),
            EnteredNames::Page(page) => (
                give_none(id, &EnteredNames::Page(page), answer, None),
                None,
            ),
        }
    }

    /// Gives an entry for each name of a page that was found and that no request in progress holds exclusively.
    pub(crate) fn give_entries(
        &mut self,
        id: u64,
        held: &Held,
        entries: EnteredNames,
        found: &FoundNames,
        answer: Givens,
    ) -> Answered
        requires kept { IsKept self.old }
        requires may { MayEnter self.old id (keys_in entries) }
        requires fill { is_page entries ≡ true → MayFill self.old id (keys_in entries) }
        requires leads { (n : ℕ) → Contains (folders_in entries) n → LeadsTo (at_in self.old.tree) held.now.given n }
        requires room { length (keys_in entries) ≤ answer.room }
        requires unanswered { answer.items ≡ [] }
        ensures told { result ≡ record { id = id; given = result.given; lost = false; opened = None } }
        ensures gives { (f : Recorded) → (requests_of self.old.flights).at id ≡ Some f → GivesAll (world_of self.old) id (flight_of f) (keys_in entries) (page_found (is_page entries) (keys_in entries) found.now) result.given (world_of self.new) }
        ensures kept { IsKept self.new }
    {
        match entries {
            EnteredNames::Page(page) => {
                let found = found.as_slice();
                if found.len() != page.names.as_slice().len() {
                    return give_none(id, &EnteredNames::Page(page), answer, None);
                }
                self.give_page(id, path_of(held), page, found, answer)
            }
            EnteredNames::Nothing => give_none(id, &EnteredNames::Nothing, answer, None),
            EnteredNames::One(keys) => give_none(id, &EnteredNames::One(keys), answer, None),
        }
    }
}
