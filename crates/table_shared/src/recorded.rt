//! The table under a lock, with the whole log of its history.

ghost use Rattle.std.specs.Prelude.{◌≡◌, ◌+◌, ◌<◌, ◌≤◌, ℕ, [], Bool};
ghost use Rattle.ledger.specs.Shares.{plus};
ghost use Rattle.ledger.specs.Sums.{totals_of};
ghost use Rattle.shared_history.specs.Views.{thread_log, own};
ghost use Rattle.table_steps.specs.Answers.{entries_in};
ghost use Rattle.table_steps.specs.Kept.{world_of};
ghost use Rattle.table.specs.Gains.{GainsInAll};
ghost use Rattle.table_steps.specs.World.{opened_world};
ghost use Rattle.table_shared.specs.Runs as Call;
ghost use Rattle.table_shared.specs.Runs.{IsRun, IsStep, Makes, call_of, end_of};

use crate::entries::{Event, LogEntry, Opening, Runs};
use ledger::{Ledgers, Share};
use shared_history::{History, Opened, ThreadLog, WholeLog};
use std::marker::Model;
use std::snapshot::Snapshot;
use table::{Answered, Begin, Outcome, Settled, Table, Ticket};
use table_files::OpenFile;
use table_requests::Want;

/// A table and the whole log of its history, which is a run of the opened table and ends with this table. It has at
/// most as many threads as it was opened for.
#[derive(Drop)]
pub struct Recorded<T: Ledgers, O: Opening> {
    table: Table<T>,
    whole_log: WholeLog<LogEntry<T>, Runs<O>>,
}

impl<T: Ledgers, O: Opening> Model for Recorded<T, O> {
    ghost use Rattle.std.specs.Prelude.{◌≡◌, ◌≤◌};
    ghost use Rattle.shared_history.specs.declared.views.View.{View};
    ghost use Rattle.table_shared.specs.declared.entries.LogEntry.{LogEntry};
    ghost use Rattle.table_shared.specs.Runs.{end_of};
    ghost use Rattle.table_steps.specs.Kept.{world_of};
    ghost use Rattle.table_steps.specs.World.{opened_world};
    ghost use Rattle.std.specs.Coded.{codes, coded_ℕ};
    ghost use Rattle.std.specs.FinMap as map;
    ghost use Rattle.std.specs.Ordering.{nat_cmp};
    ghost use Rattle.tree.specs.contracts.nodes.Node as node;

    ghost Value = { View (LogEntry T) };

    ghost coded = { Prim.hlevel (codes, map.code {R = nat_cmp} coded_ℕ node.the_row.coded) };

    ghost view = { λ r. r.whole_log };

    ghost invariant = { λ r. (world_of r.table ≡ end_of (opened_world O.limits) r.whole_log.log) × (r.whole_log.given ≤ O.threads) };
}

impl<T: Ledgers, O: Opening> Recorded<T, O> {
    /// The table that was just opened, with an empty history.
    pub fn new(
        opened: Opened<LogEntry<T>>,
        table: Table<T>,
    ) -> (History<LogEntry<T>, Runs<O>>, Recorded<T, O>)
        requires history { opened.table.shared.table_id ≡ O.history }
        requires table { world_of table ≡ opened_world O.limits }
        ensures log { (result.1.log ≡ []) × (result.1.given ≡ 0) }
    {
        table.attest(); // proof: its law
        let (history, whole_log) = opened.named::<Runs<O>>();
        (history, Recorded { table, whole_log })
    }

    /// Ends the period of the ledger if that is due, and begins a request. Busy and a refusal change nothing else.
    pub fn begin(
        &mut self,
        history: &History<LogEntry<T>, Runs<O>>,
        me: &mut ThreadLog<LogEntry<T>, Runs<O>>,
        unique: u64,
        want: Want,
    ) -> Begin
        ensures makes { Makes (opened_world O.limits) (Call.began unique want result) me.old me.new }
        ensures log { self.new.log ≡ me.new.seen }
    {
        let asked = Snapshot::of(&want);
        self.table.renew();
        let begin = self.table.begin(unique, want);
        let event = Event::Begin {
            unique,
            want: asked,
            told: Snapshot::of(&begin),
        };
        enter(history, &mut self.whole_log, me, &self.table, event);
        begin
    }

    /// Ends the work on a request.
    pub fn finish(
        &mut self,
        history: &History<LogEntry<T>, Runs<O>>,
        me: &mut ThreadLog<LogEntry<T>, Runs<O>>,
        share: &mut Share<T>,
        ticket: Ticket,
        outcome: Outcome,
    ) -> Answered
        ensures makes { Makes (opened_world O.limits) (Call.finished ticket.id outcome result) me.old me.new }
        ensures log { self.new.log ≡ me.new.seen }
        ensures gains { GainsInAll (end_of (opened_world O.limits) self.old.log) share.old (end_of (opened_world O.limits) self.new.log) share.new }
        ensures entries { share.new.totals.entries ≡ share.old.totals.entries + entries_in result.given }
    {
        let id = ticket.id();
        let came = Snapshot::of(&outcome);
        let answered = self.table.finish(share, ticket, outcome);
        let event = Event::Finish {
            id,
            outcome: came,
            told: Snapshot::of(&answered),
        };
        enter(history, &mut self.whole_log, me, &self.table, event);
        answered
    }

    /// Ends a request, after its reply was taken or was not.
    pub fn settle(
        &mut self,
        history: &History<LogEntry<T>, Runs<O>>,
        me: &mut ThreadLog<LogEntry<T>, Runs<O>>,
        share: &mut Share<T>,
        answered: Answered,
        taken: bool,
    ) -> Settled
        ensures makes { Makes (opened_world O.limits) (Call.settled answered taken result) me.old me.new }
        ensures log { self.new.log ≡ me.new.seen }
        ensures gains { GainsInAll (end_of (opened_world O.limits) self.old.log) share.old (end_of (opened_world O.limits) self.new.log) share.new }
        ensures entries { share.new.totals.entries ≡ share.old.totals.entries }
        ensures settled { result ≡ record { id = answered.id; entries = entries_in answered.given; taken = taken } }
    {
        let given = Snapshot::of(&answered);
        let settled = self.table.settle(share, answered, taken);
        let event = Event::Settle {
            answered: given,
            taken,
            told: Snapshot::of(&settled),
        };
        enter(history, &mut self.whole_log, me, &self.table, event);
        settled
    }

    /// The client forgets lookups of a node.
    pub fn forget(
        &mut self,
        history: &History<LogEntry<T>, Runs<O>>,
        me: &mut ThreadLog<LogEntry<T>, Runs<O>>,
        share: &mut Share<T>,
        number: u64,
        n: u64,
    ) -> u64
        ensures makes { Makes (opened_world O.limits) (Call.forgot number n result) me.old me.new }
        ensures log { self.new.log ≡ me.new.seen }
        ensures gains { GainsInAll (end_of (opened_world O.limits) self.old.log) share.old (end_of (opened_world O.limits) self.new.log) share.new }
        ensures entries { share.new.totals.entries ≡ share.old.totals.entries }
    {
        let amount = self.table.forget(share, number, n);
        let event = Event::Forget {
            number,
            n,
            told: amount,
        };
        enter(history, &mut self.whole_log, me, &self.table, event);
        amount
    }

    /// The file open under a handle.
    pub fn find(
        &mut self,
        history: &History<LogEntry<T>, Runs<O>>,
        me: &mut ThreadLog<LogEntry<T>, Runs<O>>,
        fh: u64,
    ) -> Option<OpenFile>
        ensures makes { Makes (opened_world O.limits) (Call.looked fh result) me.old me.new }
        ensures log { self.new.log ≡ me.new.seen }
    {
        let found = self.table.file(fh);
        let event = Event::Look {
            fh,
            told: Snapshot::of(&found),
        };
        enter(history, &mut self.whole_log, me, &self.table, event);
        found
    }

    /// One more thread, with an index of its own. It knows everything that happened, and has done nothing.
    pub fn thread(
        &mut self,
        history: &History<LogEntry<T>, Runs<O>>,
    ) -> ThreadLog<LogEntry<T>, Runs<O>>
        requires room { self.old.given < O.threads }
        ensures thread { result ≡ thread_log self.old.given self.old.log [] }
        ensures whole_log { (self.new.log ≡ self.old.log) × (self.new.given ≡ self.old.given + 1) }
    {
        history.enter(&mut self.whole_log)
    }

    /// For the prover: the history is a run, in which only threads that the table was opened for made calls. It does
    /// nothing.
    pub fn attest(&self)
        ensures run { IsRun (opened_world O.limits) self.now.log }
        ensures nobody { (index : ℕ) → O.threads ≤ index → own index self.now.log ≡ [] }
    {
        self.whole_log.attest(); // proof: its law
    }

    /// For the prover: what a thread made is what the whole history has with its index.
    pub fn look(
        &mut self,
        history: &History<LogEntry<T>, Runs<O>>,
        me: &mut ThreadLog<LogEntry<T>, Runs<O>>,
    )
        ensures own { own me.old.by self.old.log ≡ me.old.mine }
        ensures me { (me.new.by ≡ me.old.by) × (me.new.mine ≡ me.old.mine) }
        ensures same { self.new ≡ self.old }
    {
        history.observe(&mut self.whole_log, me);
        me.attest(); // proof: its law
    }

    /// The table. It is the state at the end of the history.
    pub fn into_table(self) -> Table<T>
        ensures { world_of result ≡ end_of (opened_world O.limits) self.log }
    {
        let Recorded {
            table,
            whole_log: _,
        } = self;
        table
    }
}

// Adds the call that led to this table to the history.
fn enter<T: Ledgers, O: Opening>(
    history: &History<LogEntry<T>, Runs<O>>,
    whole_log: &mut WholeLog<LogEntry<T>, Runs<O>>,
    me: &mut ThreadLog<LogEntry<T>, Runs<O>>,
    table: &Table<T>,
    event: Event,
)
    requires { IsStep (end_of (opened_world O.limits) whole_log.old.log) (call_of event) (world_of table.now) }
    ensures makes { Makes (opened_world O.limits) (call_of event) me.old me.new }
    ensures log { whole_log.new.log ≡ me.new.seen }
    ensures given { whole_log.new.given ≡ whole_log.old.given }
    ensures end { world_of table.now ≡ end_of (opened_world O.limits) whole_log.new.log }
{
    whole_log.attest(); // proof: its law
    table.attest(); // proof: its law
    let entry = LogEntry {
        event,
        after: Snapshot::of(table),
    };
    history.record(whole_log, me, &entry);
}
