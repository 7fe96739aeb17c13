//! A table in use, with its shares, and with the tickets and answers that were not used up yet.

ghost use Rattle.std.specs.Prelude.{◌<◌, vec_len};

use crate::story::{Asks, Outcome, Reply, Sum, Told};
use ledger::{Gather, Ledgers, Share};
use paths::Name;
use std::alloc::{AllocError, AllocFailed, Global};
use std::mem::swap;
use table::{
    Access, Answered, Begin, FoundNames, Given, Handle, Need, Outcome as TableOutcome, Seeds,
    Table, Ticket,
};
use table_image::Image;
use table_requests::{Names, Want};

/// The ticket of the request with a unique number.
pub struct Begun {
    pub unique: u64,
    pub ticket: Ticket,
}

/// The answer to the request with a unique number.
pub struct Ended {
    pub unique: u64,
    pub answered: Answered,
}

/// A table in use.
pub struct TestTable<T: Ledgers> {
    pub alloc: Global,
    /// The seeds of this table, and of another one.
    pub seeds: Seeds,
    pub table: Table<T>,
    /// The share that is passed.
    pub share: Share<T>,
    pub others: Vec<Share<T>>,
    pub tickets: Vec<Begun>,
    pub answers: Vec<Ended>,
}

/// The want, with names of its own.
pub fn want_of(alloc: Global, asks: Asks) -> Result<Want, AllocError> {
    Ok(match asks {
        Asks::Node(number) => Want::Node {
            number,
            handle: None,
        },
        Asks::Name(parent, name) => Want::Name {
            parent,
            name: Name::from_text(alloc, name)?,
        },
        Asks::Remove(parent, name) => Want::Remove {
            parent,
            name: Name::from_text(alloc, name)?,
            may_hide: false,
        },
        Asks::Unlink(parent, name) => Want::Remove {
            parent,
            name: Name::from_text(alloc, name)?,
            may_hide: true,
        },
        Asks::Move(parent, name, new_parent, new_name) => Want::Move {
            parent,
            name: Name::from_text(alloc, name)?,
            new_parent,
            new_name: Name::from_text(alloc, new_name)?,
            keep: false,
        },
        Asks::Keep(parent, name, new_parent, new_name) => Want::Move {
            parent,
            name: Name::from_text(alloc, name)?,
            new_parent,
            new_name: Name::from_text(alloc, new_name)?,
            keep: true,
        },
        Asks::Exchange(parent, name, new_parent, new_name) => Want::Exchange {
            parent,
            name: Name::from_text(alloc, name)?,
            new_parent,
            new_name: Name::from_text(alloc, new_name)?,
        },
        Asks::Page(folder, names) => Want::Page {
            folder,
            names: names_of(alloc, names)?,
        },
        Asks::Read(number, fh) => Want::Node {
            number,
            handle: Some(Handle {
                fh,
                need: Need::Reading,
            }),
        },
        Asks::Open(number) => Want::Open {
            number,
            access: Access::Reading,
        },
        Asks::Create(parent, name) => Want::Create {
            parent,
            name: Name::from_text(alloc, name)?,
            access: Access::Writing,
        },
        Asks::Release(number, fh) => Want::Release { number, fh },
        Asks::Link(number, parent, name) => Want::Link {
            number,
            parent,
            name: Name::from_text(alloc, name)?,
        },
    })
}

fn names_of(alloc: Global, names: &[&str]) -> Result<Names, AllocError> {
    let mut copies = Vec::new(alloc);
    for name in names {
        copies.push(Name::from_text(alloc, name)?)?;
    }
    Ok(Names::from_vec(copies))
}

/// The outcome, with findings of its own.
pub fn outcome_of(alloc: Global, outcome: Outcome) -> Result<TableOutcome, AllocError> {
    Ok(match outcome {
        Outcome::Failed => TableOutcome::Failed,
        Outcome::Done => TableOutcome::Done,
        Outcome::Entry => TableOutcome::Entry,
        Outcome::Entries(found) => {
            let mut all = Vec::new(alloc);
            all.extend_from_slice(found)?;
            TableOutcome::Entries(FoundNames::from_vec(all))
        }
        Outcome::Hidden(candidate) => TableOutcome::Hidden(candidate),
        Outcome::HiddenMove(candidate, moved) => TableOutcome::HiddenMove { candidate, moved },
    })
}

/// How many of the names were given an entry.
fn entries_in(given: &[Option<Given>]) -> u64 {
    given.iter().filter(|given| given.is_some()).count() as u64
}

/// The result of finishing a ticket with that id.
pub fn told_by(answered: &Answered, id: u64) -> Told {
    if answered.id() != id {
        return Told::Otherwise;
    }
    match (answered.given(), answered.lost()) {
        ([], true) => Told::Lost,
        ([], false) => Told::Ended,
        ([None], false) => Told::NotGiven,
        ([Some(given)], false) => Told::Given(given.number, given.generation),
        (given, false) => Told::Gave(entries_in(given)),
        _ => Told::Otherwise,
    }
}

impl<T: Ledgers> TestTable<T> {
    /// A table with its shares, the first of which is passed.
    pub fn new(
        alloc: Global,
        seeds: Seeds,
        table: Table<T>,
        mut others: Vec<Share<T>>,
    ) -> TestTable<T>
        requires { 0 < vec_len others }
    {
        let share = others.remove(0);
        TestTable {
            alloc,
            seeds,
            table,
            share,
            others,
            tickets: Vec::new(alloc),
            answers: Vec::new(alloc),
        }
    }

    /// Begins a request, and keeps its ticket.
    pub fn begin(&mut self, unique: u64, asks: Asks) -> Result<Told, AllocError> {
        let want = want_of(self.alloc, asks)?;
        self.tickets.reserve(1)?;
        match self.table.begin(unique, want) {
            Begin::Go(ticket) => {
                self.tickets.push_reserved(Begun { unique, ticket });
                Ok(Told::Go)
            }
            Begin::Busy => Ok(Told::Busy),
            Begin::Refused(errno) => Ok(Told::Refused(errno)),
        }
    }

    /// Whether the ticket of that request, if there is one, says that it may hide.
    pub fn hides(&self, unique: u64) -> bool {
        match self.tickets.iter().find(|begun| begun.unique == unique) {
            Some(begun) => begun.ticket.hide(),
            None => false,
        }
    }

    /// Ends the work on a request, and keeps its answer.
    pub fn finish(&mut self, unique: u64, outcome: Outcome) -> Result<Told, AllocError> {
        let place = self.tickets.iter().position(|begun| begun.unique == unique);
        let Some(place) = place else {
            return Ok(Told::Otherwise);
        };
        let outcome = outcome_of(self.alloc, outcome)?;
        self.answers.reserve(1)?;
        let Begun { unique, ticket } = self.tickets.remove(place);
        let id = ticket.id();
        let answered = self.table.finish(&mut self.share, ticket, outcome);
        let told = told_by(&answered, id);
        self.answers.push_reserved(Ended { unique, answered });
        Ok(told)
    }

    /// Ends a request.
    pub fn settle(&mut self, unique: u64, reply: Reply) -> Told {
        let place = self.answers.iter().position(|ended| ended.unique == unique);
        let Some(place) = place else {
            return Told::Otherwise;
        };
        let Ended {
            unique: _,
            answered,
        } = self.answers.remove(place);
        let (id, taken) = (answered.id(), reply == Reply::Taken);
        let settled = self.table.settle(&mut self.share, answered, taken);
        if settled.id() != id || settled.taken() != taken {
            return Told::Otherwise;
        }
        Told::Settled(settled.entries())
    }

    /// Forgets lookups of a node.
    pub fn forget(&mut self, number: u64, n: u64) -> Told {
        Told::Amount(self.table.forget(&mut self.share, number, n))
    }

    /// The table as plain data.
    pub fn image(&self) -> Result<Image, AllocError> {
        self.table.export()
    }

    /// Passes the share of that worker from now on.
    pub fn pass(&mut self, worker: usize) -> bool {
        if self.share.index() != worker {
            if let Some(other) = self.others.iter_mut().find(|other| other.index() == worker) {
                swap(&mut self.share, other);
            }
        }
        self.share.index() == worker
    }

    /// Gives up a share that is not passed.
    pub fn leave_share(&mut self) -> bool {
        match self.others.pop() {
            Some(other) => {
                other.leave();
                true
            }
            None => false,
        }
    }

    /// Takes out the last ticket, and ends the rest.
    pub fn leave_with_ticket(mut self) -> Option<Ticket> {
        let last = self.tickets.pop();
        let _sum = self.end();
        let Begun { unique: _, ticket } = last?;
        Some(ticket)
    }

    /// Takes out the last answer, and ends the rest.
    pub fn leave_with_answer(mut self) -> Option<Answered> {
        let last = self.answers.pop();
        let _sum = self.end();
        let Ended {
            unique: _,
            answered,
        } = last?;
        Some(answered)
    }

    /// Ends everything in flight without an entry, and gathers the shares.
    pub fn end(self) -> Sum {
        let TestTable {
            alloc: _,
            seeds: _,
            mut table,
            mut share,
            mut others,
            mut tickets,
            mut answers,
        } = self;
        while let Some(Begun { unique: _, ticket }) = tickets.pop() {
            table
                .finish(&mut share, ticket, TableOutcome::Failed)
                .leave();
        }
        tickets.destroy_empty();
        while let Some(
            Ended {
                unique: _,
                answered,
            },
        ) = answers.pop()
        {
            answered.leave();
        }
        answers.destroy_empty();
        if let Err(AllocFailed { value }) = others.push(share) {
            value.leave();
        }
        match table.gather(others) {
            Ok(totals) => totals.into(),
            Err(Gather::ShareMissing) => Sum::ShareMissing,
        }
    }
}
