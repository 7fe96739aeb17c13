//! The end of the work on a request.

ghost use Rattle.std.specs.Prelude.{◌≡◌, ◌≤◌};
ghost use Rattle.table_steps.specs.Ending.{ChangesNames, IsEnding, MayAlter, change_in};
ghost use Rattle.table_steps.specs.Kept.{IsKept, flight_of, world_of};
ghost use Rattle.table_steps.specs.Steps.{Ends, Finishes, act_of};
ghost use Rattle.table_footprints.specs.NewRequests.{footprint_in};
ghost use Rattle.table_requests.specs.Listed.{requests_of};
ghost use Rattle.table_requests.specs.RequestMaps.{most_posted_by};

use crate::acts::{Acts, EnteredNames, NameChange, acts_of};
use crate::asked::is_node;
use crate::data::{Answered, Outcome, Ticket};
use crate::give::{FIRST_FOUND, give_none};
use crate::hiding::{hide, replace};
use crate::name_changes::{alter, losing};
use crate::state::State;
use crate::sweep::sweep_change;
use table_requests::{Givens, Work};
use terms::Counts;

/// The same answer, with the handle of the file that was opened.
fn with_file(answered: Answered, opened: Option<u64>) -> Answered
    ensures { result ≡ record answered { opened = opened } }
{
    let Answered {
        id,
        given,
        lost,
        opened: _,
    } = answered;
    Answered {
        id,
        given,
        lost,
        opened,
    }
}

impl State {
    /// Cuts, moves or hides names, with everything below them, and drops what nothing keeps alive any more. The node at
    /// the first of the names is probably the one that the request pinned for it.
    fn change(&mut self, id: u64, change: NameChange)
        requires kept { IsKept self.old }
        requires may { MayAlter self.old (change_in change) }
        ensures changes { ChangesNames (world_of self.old) (change_in change) (world_of self.new) }
        ensures rest { self.new ≡ record self.old { tree = self.new.tree } }
        ensures kept { IsKept self.new }
    {
        if matches!(change, NameChange::Stays) {
            return;
        }
        // Comparing the name of that node is cheaper than looking the name up in the index, which would hash it.
        let guess = self.flights.pinned_at(id, FIRST_FOUND);
        let losing = losing(&self.tree, &change);
        alter(&mut self.tree, change, guess);
        sweep_change(&mut self.tree, &self.flights, &self.files, losing);
    }

    /// Carries out the outcome of a request whose work has ended. An outcome that does not fit its want does nothing.
    fn end(&mut self, id: u64, work: Work, outcome: Outcome) -> Answered
        requires kept { IsKept self.old }
        requires ending { IsEnding self.old id work }
        ensures ends { (e : IsEnding self.old id work) → Ends (world_of self.old) id (flight_of e.flight) (act_of (footprint_in work) outcome) (footprint_in work).entries result (world_of self.new) }
        ensures kept { IsKept self.new }
    {
        let Work {
            want,
            case,
            copy,
            candidates: beside,
            copies,
            held,
            promise: _,
            answer,
        } = work;
        if is_node(&want) {
            return give_none(id, &EnteredNames::Nothing, answer, None);
        }
        let Acts {
            entries,
            change,
            candidates,
            opens,
        } = acts_of(want, case, copy, beside, copies);
        match outcome {
            Outcome::Failed => give_none(id, &entries, answer, None),
            Outcome::Done => {
                self.change(id, change);
                let opened = self.open_node(id, opens);
                give_none(id, &entries, answer, opened)
            }
            Outcome::Entry => {
                let (answered, entered) = self.give_entry(id, entries, answer);
                let opened = self.open_given(id, opens, entered);
                with_file(answered, opened)
            }
            Outcome::Entries(found) => self.give_entries(id, &held, entries, &found, answer),
            Outcome::Hidden(index) => {
                self.change(id, hide(change, candidates, index));
                give_none(id, &entries, answer, None)
            }
            Outcome::HiddenMove { candidate, moved } => {
                self.change(id, replace(change, candidates, candidate, moved));
                give_none(id, &entries, answer, None)
            }
        }
    }

    /// Ends the work on a request: the client is given entries for its names, or its names change, or nothing is done.
    pub fn finish(&mut self, ticket: Ticket, outcome: Outcome) -> Answered
        requires kept { IsKept self.old }
        requires room { self.old.limits.counts ≡ Counts.Free → most_posted_by ((requests_of self.old.flights).at ticket.id) ≤ self.old.ledger.room }
        ensures finishes { Finishes (world_of self.old) ticket.id outcome result (world_of self.new) }
        ensures kept { IsKept self.new }
    {
        let Ticket {
            id,
            paths: _,
            same: _,
            hide: _,
            last: _,
        } = ticket;
        // The id and the want recorded under it decide, so a ticket of another table acts on what this table has under
        // its id.
        let Some(work) = self.flights.answer(id) else {
            return Answered {
                id,
                given: Givens::new(self.alloc),
                lost: true,
                opened: None,
            };
        };
        self.end(id, work, outcome)
    }
}
