//! Both tables in use, with the tickets and answers of the one under test that were not used up yet.

use crate::asks::{Ask, End, Findings, Step, Told};
use crate::known::Known;
use crate::under_test::UnderTest;
use ledger::Totals;
use std::alloc::{AllocError, Global};
use table::{Answered, Begin, FoundNames, Outcome, Settled, Ticket};

/// A ticket, and the id of the request in the list table.
pub struct Begun {
    pub id: u64,
    pub ticket: Ticket,
}

/// An answer, and the id of the request in the list table.
pub struct Ended {
    pub id: u64,
    pub answered: Answered,
}

/// Both tables.
pub struct Both<U: UnderTest> {
    pub known: Known,
    pub other: U,
    pub tickets: Vec<Begun>,
    /// The ids of these tickets.
    pub working: Vec<u64>,
    pub answers: Vec<Ended>,
}

/// The results of a call: that of the list table, and that of the other.
#[derive(Clone, Copy)]
pub struct Answers {
    pub list: Told,
    pub other: Told,
}

impl Answers {
    /// There was nothing to call with.
    const NOTHING: Answers = Answers {
        list: Told::Nothing,
        other: Told::Nothing,
    };
}

fn outcome_of(alloc: Global, end: End) -> Result<Outcome, AllocError> {
    Ok(match end {
        End::Failed => Outcome::Failed,
        End::Done => Outcome::Done,
        End::Entry => Outcome::Entry,
        End::Entries(findings) => Outcome::Entries(found_names(alloc, findings)?),
        End::Hidden(candidate) => Outcome::Hidden(candidate),
        End::HiddenMove(candidate, moved) => Outcome::HiddenMove { candidate, moved },
    })
}

fn found_names(alloc: Global, findings: Findings) -> Result<FoundNames, AllocError> {
    let mut all = Vec::new(alloc);
    let found = findings.found();
    for found in found.iter().take(findings.len()) {
        all.push(*found)?;
    }
    Ok(FoundNames::from_vec(all))
}

fn told_by_ticket(ticket: &Ticket) -> Told {
    Told::Go {
        same: ticket.same(),
        hide: ticket.hide(),
        last: ticket.last(),
    }
}

fn told_by_answer(answered: &Answered) -> Told {
    Told::Ended {
        names: answered.given().len(),
        opened: answered.opened(),
        lost: answered.lost(),
    }
}

/// The result of settling an answer with that id.
fn told_by_settle(settled: &Settled, id: u64) -> Told {
    if settled.id() != id {
        return Told::Nothing;
    }
    Told::Settled {
        entries: settled.entries(),
        taken: settled.taken(),
    }
}

impl<U: UnderTest> Both<U> {
    /// Whether memory is refused is asked last, when nothing is left that would have to be dropped then.
    fn begin(&mut self, unique: u64, ask: Ask) -> Result<Answers, AllocError> {
        self.tickets.reserve(1)?;
        self.working.reserve(1)?;
        let want = self.known.want(ask)?;
        let list = self.known.list.begin(unique, ask);
        let other = match self.other.begin(unique, want) {
            Begin::Go(ticket) => {
                let told = told_by_ticket(&ticket);
                let id = self.known.list.last_id;
                self.tickets.push_reserved(Begun { id, ticket });
                self.working.push_reserved(id);
                told
            }
            Begin::Busy => Told::Busy,
            Begin::Refused(errno) => Told::Refused(errno),
        };
        Ok(Answers { list: list?, other })
    }

    /// As for a begin.
    fn finish(&mut self, place: usize, end: End) -> Result<Answers, AllocError> {
        if place >= self.tickets.len() || place >= self.working.len() {
            return Ok(Answers::NOTHING);
        }
        self.answers.reserve(1)?;
        let outcome = outcome_of(self.known.list.alloc, end)?;
        let id = self.working.remove(place);
        let list = self.known.list.finish(id, end);
        let Begun { id, ticket } = self.tickets.remove(place);
        let answered = self.other.finish(ticket, outcome);
        let other = told_by_answer(&answered);
        self.answers.push_reserved(Ended { id, answered });
        Ok(Answers { list: list?, other })
    }

    fn settle(&mut self, place: usize, taken: bool) -> Result<Answers, AllocError> {
        let id = match self.answers.get(place) {
            Some(ended) => ended.id,
            None => return Ok(Answers::NOTHING),
        };
        let list = self.known.list.settle(id, taken)?;
        let Ended { id: _, answered } = self.answers.remove(place);
        let id = answered.id();
        let settled = self.other.settle(answered, taken);
        let other = told_by_settle(&settled, id);
        Ok(Answers { list, other })
    }

    fn forget(&mut self, number: u64, n: u64) -> Result<Answers, AllocError> {
        let theirs = self.known.number(number);
        let list = self.known.list.forget(number, n)?;
        let other = Told::Amount(self.other.forget(theirs, n));
        Ok(Answers { list, other })
    }

    /// Makes the step on both.
    pub fn call(&mut self, unique: u64, step: Step) -> Result<Answers, AllocError> {
        match step {
            Step::Begin(ask) => self.begin(unique, ask),
            Step::Finish(place, end) => self.finish(place, end),
            Step::Settle(place, taken) => self.settle(place, taken),
            Step::Forget(number, n) => self.forget(number, n),
        }
    }

    /// Whether the last ticket has the paths that the list table's has.
    pub fn same_paths(&self) -> Result<bool, AllocError> {
        match self.tickets.last() {
            Some(begun) => self.known.same_paths(begun.ticket.paths()),
            None => Ok(false),
        }
    }

    /// Whether the last answer has the nodes that the list table's has.
    pub fn same_given(&self) -> bool {
        match self.answers.last() {
            Some(ended) => self.known.same_given(ended.id, ended.answered.given()),
            None => false,
        }
    }

    /// Uses up everything that is pending, and gathers the shares.
    pub fn end(self) -> Option<Totals> {
        let Both {
            known: _,
            mut other,
            tickets,
            working: _,
            answers,
        } = self;
        end_all(&mut other, tickets);
        leave_all(answers);
        other.gather()
    }
}

/// Ends the work on each ticket without an entry.
fn end_all<U: UnderTest>(table: &mut U, mut tickets: Vec<Begun>) {
    while let Some(Begun { id: _, ticket }) = tickets.pop() {
        table.finish(ticket, Outcome::Failed).leave();
    }
    tickets.destroy_empty();
}

fn leave_all(mut answers: Vec<Ended>) {
    while let Some(Ended { id: _, answered }) = answers.pop() {
        answered.leave();
    }
    answers.destroy_empty();
}
