//! Runs: calls on what is pending, where a ticket or an answer is given by its index.

use crate::story::Asks::{Link, Name, Page, Remove};
use crate::story::Posted::{Back, Born, Entry, Forget};
use crate::story::Spot::At;
use crate::story::Told::{Amount, Busy, Ended, Gave, Given, Go, Nothing, Refused, Settled};
use crate::story::{Asks, DEFAULT, Flying, Living, Outcome, ROOT, Reply, Step, Sum, TOP, Told};
use crate::teller::{Play, misgathered, mistold, play_new};
use crate::under_test::{TestTable, outcome_of, told_by, want_of};
use errno::ESTALE;
use laws::table_runs::{self, CallResult as CallTold, Pending, Started, TableCall};
use ledger::Ledgers;
use std::alloc::{AllocError, Global};
use std::random::RandomSource;
use std::test::Fail;
use table::Outcome as TableOutcome;
use table_image::ImageStage::Answered;

/// A call on what is pending.
#[derive(Clone, Copy)]
enum Made<'a> {
    Begin(u64, Asks<'a>),
    Finish(usize, Outcome<'a>),
    Settle(usize, Reply),
    Forget(u64, u64),
    ClosePeriod,
}

/// `b` is given first, then `c` is removed, then `a` is given, then a page with `a` and `d`, and last `e`, a further name
/// of `a`. If nothing is pending, nothing is done.
const CALLS: &[(Made, Told)] = &[
    (Made::Begin(1, Name(ROOT, "a")), Go),
    (Made::Begin(2, Name(ROOT, "b")), Go),
    (Made::Begin(3, Remove(ROOT, "c")), Go),
    (Made::Begin(4, Remove(ROOT, "a")), Busy),
    (Made::Begin(4, Remove(9, "a")), Refused(ESTALE)),
    (Made::Finish(1, Outcome::Entry), Given(2, 0)),
    (Made::Finish(1, Outcome::Done), Ended),
    (Made::Finish(1, Outcome::Entry), Nothing),
    (Made::Finish(0, Outcome::Entry), Given(3, 0)),
    (Made::Finish(0, Outcome::Entry), Nothing),
    (Made::Settle(3, Reply::Untaken), Nothing),
    (Made::Settle(1, Reply::Taken), Settled(0)),
    (Made::Settle(0, Reply::Untaken), Settled(1)),
    (Made::Forget(3, 2), Amount(1)),
    (Made::Begin(5, Page(ROOT, &["a", "d"])), Go),
    (Made::Finish(0, Outcome::Entries(&[true, true])), Gave(2)),
    (Made::Settle(1, Reply::Taken), Settled(2)),
    (Made::Begin(6, Link(3, ROOT, "e")), Go),
    (Made::Finish(0, Outcome::Entry), Given(4, 0)),
    (Made::Settle(1, Reply::Taken), Settled(1)),
];

/// The table after these calls. One answer is pending, that of the first request.
const AFTER: &[Step] = &[
    Step::Nodes(&[
        TOP,
        Living(3, 0, At(ROOT, "a"), 1),
        Living(2, 1, At(ROOT, "d"), 1),
        Living(4, 0, At(ROOT, "e"), 1),
    ]),
    Step::Ledger(&[
        Born(2, 0),
        Entry(2, 0),
        Born(3, 0),
        Entry(3, 0),
        Back(2, 0),
        Forget(3, 0, 1),
        Entry(3, 0),
        Born(2, 1),
        Entry(2, 1),
        Born(4, 0),
        Entry(4, 0),
    ]),
    Step::Requests(&[Flying(1, Answered, &[1, 3])]),
];

fn call_of(alloc: Global, made: Made) -> Result<TableCall, AllocError> {
    Ok(match made {
        Made::Begin(unique, asks) => TableCall::Begin {
            unique,
            want: want_of(alloc, asks)?,
        },
        Made::Finish(place, outcome) => TableCall::Finish {
            place,
            outcome: outcome_of(alloc, outcome)?,
        },
        Made::Settle(place, reply) => TableCall::Settle {
            place,
            taken: reply == Reply::Taken,
        },
        Made::Forget(number, n) => TableCall::Forget { number, n },
        Made::ClosePeriod => TableCall::ClosePeriod,
    })
}

/// The result of a call. Its answer is the last one pending.
fn told_of(told: CallTold, pending: &Pending) -> Told {
    match told {
        CallTold::Nothing => Told::Nothing,
        CallTold::Begun => Told::Go,
        CallTold::Busy => Told::Busy,
        CallTold::Refused(errno) => Told::Refused(errno),
        CallTold::Finished => match pending.answers().last() {
            Some(answered) => told_by(answered, answered.id()),
            None => Told::Otherwise,
        },
        CallTold::Settled(settled) => Told::Settled(settled.entries()),
        CallTold::Forgot(amount) => Told::Amount(amount),
        CallTold::Closed(shorter) => Told::Closed(shorter),
    }
}

/// Whether the result of a call in a run is this, apart from its answer.
fn agrees(told: &CallTold, said: Told) -> bool {
    match (told, said) {
        (CallTold::Nothing, Told::Nothing)
        | (CallTold::Begun, Told::Go)
        | (CallTold::Busy, Told::Busy)
        | (CallTold::Finished, Told::Given(..) | Told::Gave(_) | Told::Ended) => true,
        (CallTold::Refused(errno), Told::Refused(other)) => *errno == other,
        (CallTold::Settled(settled), Told::Settled(entries)) => settled.entries() == entries,
        (CallTold::Forgot(amount), Told::Amount(other)) => *amount == other,
        (CallTold::Closed(shorter), Told::Closed(other)) => *shorter == other,
        _ => false,
    }
}

fn all_calls(alloc: Global) -> Result<Vec<TableCall>, AllocError> {
    let mut calls = Vec::new(alloc);
    for (made, _) in CALLS {
        calls.push(call_of(alloc, *made)?)?;
    }
    Ok(calls)
}

/// Checks that the results of a run are the expected ones.
fn expect_all(told: &[CallTold]) -> Result<(), Fail> {
    if told.len() != CALLS.len() {
        return Err(Fail::from(("calls told", told.len())));
    }
    for (place, (told, (_, said))) in told.iter().zip(CALLS).enumerate() {
        if !agrees(told, *said) {
            return Err(Fail::from(("otherwise", place)));
        }
    }
    Ok(())
}

impl<T: Ledgers> TestTable<T> {
    /// Makes all calls in one run.
    fn make_all(&mut self, pending: &mut Pending) -> Result<(), Fail> {
        let calls = all_calls(self.alloc)?;
        let mut told = Vec::new(self.alloc);
        table_runs::run(&mut self.table, &mut self.share, pending, calls, &mut told)?;
        expect_all(told.as_slice())
    }

    /// Makes one call after another. Fails at the first unexpected result.
    fn make_each(&mut self, pending: &mut Pending) -> Result<(), Fail> {
        for (place, (made, said)) in CALLS.iter().enumerate() {
            let call = call_of(self.alloc, *made)?;
            let told = table_runs::make(&mut self.table, &mut self.share, pending, call)?;
            let told = told_of(told, pending);
            if told != *said {
                return Err(mistold(place, told));
            }
        }
        Ok(())
    }

    /// Ends what is in progress without an entry, and gives up the answers.
    fn give_up(&mut self, pending: Pending) {
        let (mut tickets, mut answers) = pending.into_parts();
        while let Some(Started { ticket, want: _ }) = tickets.pop() {
            self.table
                .finish(&mut self.share, ticket, TableOutcome::Failed)
                .leave();
        }
        tickets.destroy_empty();
        while let Some(answered) = answers.pop() {
            answered.leave();
        }
        answers.destroy_empty();
    }
}

/// Makes the calls, in one run or one after another.
#[derive(Drop)]
struct Calls {
    at_once: bool,
}

impl Play for Calls {
    fn play<T: Ledgers>(&mut self, under_test: &mut TestTable<T>) -> Result<(), Fail> {
        let mut pending = Pending::new(under_test.alloc);
        let made = match self.at_once {
            true => under_test.make_all(&mut pending),
            false => under_test.make_each(&mut pending),
        };
        let (tickets, answers) = (pending.tickets().len(), pending.answers().len());
        under_test.give_up(pending);
        made?;
        if (tickets, answers) != (0, 1) {
            return Err(Fail::from(("pending", tickets, answers)));
        }
        under_test.tell(AFTER)
    }
}

fn make<R: RandomSource + AllocGlobal>(rt: &R, at_once: bool) -> Result<(), Fail> {
    let sum = play_new(rt, DEFAULT, &mut Calls { at_once })?;
    if sum != Sum::All(4, 5, 1, 1) {
        return Err(misgathered(sum));
    }
    Ok(())
}

#[test]
fn runs_of_calls(rt: HostRuntime) -> Result<(), Fail> {
    make(&rt, true)
}

#[test]
fn calls_one_by_one(rt: HostRuntime) -> Result<(), Fail> {
    make(&rt, false)
}
