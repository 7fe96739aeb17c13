//! The table behind its lock.

ghost use Rattle.std.specs.Prelude.{◌≡◌, ◌+◌, ◌≤◌, ℕ, Bool, [], IfOk, map};
ghost use Rattle.std.specs.List.{range_with_len};
ghost use Rattle.shared_history.specs.Views.{thread_log};
ghost use Rattle.table_steps.specs.Answers.{entries_in};
ghost use Rattle.table_steps.specs.Kept.{world_of};
ghost use Rattle.table_steps.specs.World.{opened_world};
ghost use Rattle.table_shared.specs.Current.{StaysCurrent};
ghost use Rattle.table_shared.specs.Histories.{IsHistory, calls_by, calls_of, history_of, last_world};
ghost use Rattle.table_shared.specs.Runs as Call;
ghost use Rattle.table_shared.specs.Runs.{Makes};

use crate::entries::{LogEntry, Opening, Runs};
use crate::recorded::Recorded;
use ledger::{Ledgers, Share};
use shared_history::{History, Opened, ThreadLog};
use std::alloc::{AllocError, Global};
use std::sync::{Condvar, Mutex, MutexGuard, Wait};
use table::{Answered, Begin, Outcome, Settled, Table, Ticket};
use table_files::OpenFile;
use table_requests::Want;

/// The table that all workers and the writer share. A request that conflicts with another one waits here until some
/// request has finished.
#[derive(Drop)]
pub struct SharedTable<T: Ledgers, O: Opening> {
    history: History<LogEntry<T>, Runs<O>>,
    table: Mutex<Recorded<T, O>>,
    finished: Condvar,
}

/// How often the lock is tried before a thread waits for it.
const ASKED: u32 = 128;

/// The table and its whole history, after all who shared it have ended.
#[derive(Drop)]
pub struct Closed<T: Ledgers, O: Opening> {
    history: History<LogEntry<T>, Runs<O>>,
    pub table: Recorded<T, O>,
}

impl<T: Ledgers, O: Opening> Closed<T, O> {
    /// For the prover: what all threads did is one history of the opened table, in which the paths that a request was
    /// given lead to the nodes that it holds from its begin to its finish, and only threads that the table was opened for
    /// made calls. It does nothing.
    pub fn attest(&self)
        ensures history { IsHistory (opened_world O.limits) (history_of self.now.table.log) }
        ensures current { StaysCurrent (history_of self.now.table.log) }
        ensures nobody { (index : ℕ) → O.threads ≤ index → calls_by index (history_of self.now.table.log) ≡ [] }
    {
        self.table.attest(); // proof: its law
    }

    /// For the prover: the calls that a thread made are those that the history has of it.
    pub fn look(&mut self, me: &mut ThreadLog<LogEntry<T>, Runs<O>>)
        ensures calls { calls_by me.old.by (history_of self.old.table.log) ≡ calls_of me.old.mine }
        ensures me { (me.new.by ≡ me.old.by) × (me.new.mine ≡ me.old.mine) }
        ensures same { self.new.table.log ≡ self.old.table.log }
    {
        self.table.look(&self.history, me);
    }

    /// The table. It is the state at the end of the history.
    pub fn into_table(self) -> Table<T>
        ensures { world_of result ≡ last_world (opened_world O.limits) (history_of self.table.log) }
    {
        let Closed { history: _, table } = self;
        table.into_table()
    }
}

impl<T: Ledgers, O: Opening> SharedTable<T, O> {
    /// The table that was just opened, and a log for each of its threads, with the index of the thread's share. No
    /// thread has done anything yet.
    pub fn new(
        alloc: Global,
        opened: Opened<LogEntry<T>>,
        table: Table<T>,
        threads: usize,
    ) -> Result<(SharedTable<T, O>, Vec<ThreadLog<LogEntry<T>, Runs<O>>>), AllocError>
        requires history { opened.table.shared.table_id ≡ O.history }
        requires table { world_of table ≡ opened_world O.limits }
        requires threads { threads ≡ O.threads }
        ensures { IfOk result (λ r. r.1.items ≡ map (λ index. thread_log index [] []) (range_with_len 0 threads)) }
    {
        let mut thread_logs = Vec::with_capacity(alloc, threads)?;
        let (history, mut table) = Recorded::new(opened, table);
        for _ in 0..threads {
            thread_logs.push_reserved(table.thread(&history));
        }
        let shared_table = SharedTable {
            history,
            table: Mutex::new(table),
            finished: Condvar::new(),
        };
        Ok((shared_table, thread_logs))
    }

    /// The table, after all who shared it have ended.
    pub fn close(self) -> Closed<T, O> {
        let SharedTable {
            history,
            table,
            finished: _,
        } = self;
        Closed {
            history,
            table: table.into_inner(),
        }
    }

    /// Locks the table. The thread that holds the lock releases it within a microsecond or two, and sleeping and being
    /// woken takes longer. So the lock is tried for a while before the thread waits for it.
    fn enter<H: Wait>(&self, rt: &H) -> MutexGuard<'_, Recorded<T, O>> {
        for _ in 0..ASKED {
            if let Some(table) = self.table.try_lock() {
                return table;
            }
        }
        self.table.lock(rt)
    }

    /// Ends the period of the ledger if that is due, and begins a request. If another request conflicts with it, this
    /// waits until some request has finished, and then returns Busy.
    pub fn begin<H: Wait>(
        &self,
        rt: &H,
        me: &mut ThreadLog<LogEntry<T>, Runs<O>>,
        unique: u64,
        want: Want,
    ) -> Begin
        ensures { Makes (opened_world O.limits) (Call.began unique want result) me.old me.new }
    {
        let mut table = self.enter(rt);
        let begin = table.begin(&self.history, me, unique, want);
        if is_busy(&begin) {
            // No finish can be missed before this wait, since a finish takes the lock.
            let table = self.finished.wait(rt, table);
            drop(table);
        }
        begin
    }

    /// Ends the work on a request, and wakes the threads that wait for that.
    pub fn finish<H: Wait>(
        &self,
        rt: &H,
        me: &mut ThreadLog<LogEntry<T>, Runs<O>>,
        share: &mut Share<T>,
        ticket: Ticket,
        outcome: Outcome,
    ) -> Answered
        ensures makes { Makes (opened_world O.limits) (Call.finished ticket.id outcome result) me.old me.new }
        ensures entries { share.new.totals.entries ≡ share.old.totals.entries + entries_in result.given }
        ensures index { share.new.index ≡ share.old.index }
    {
        let mut table = self.enter(rt);
        let answered = table.finish(&self.history, me, share, ticket, outcome);
        drop(table);
        self.finished.notify_all();
        answered
    }

    /// Ends a request, after its reply was taken or was not.
    pub fn settle<H: Wait>(
        &self,
        rt: &H,
        me: &mut ThreadLog<LogEntry<T>, Runs<O>>,
        share: &mut Share<T>,
        answered: Answered,
        taken: bool,
    ) -> Settled
        ensures makes { Makes (opened_world O.limits) (Call.settled answered taken result) me.old me.new }
        ensures settled { result ≡ record { id = answered.id; entries = entries_in answered.given; taken = taken } }
        ensures entries { share.new.totals.entries ≡ share.old.totals.entries }
        ensures index { share.new.index ≡ share.old.index }
    {
        let mut table = self.enter(rt);
        table.settle(&self.history, me, share, answered, taken)
    }

    /// The client forgets lookups of a node.
    pub fn forget<H: Wait>(
        &self,
        rt: &H,
        me: &mut ThreadLog<LogEntry<T>, Runs<O>>,
        share: &mut Share<T>,
        number: u64,
        n: u64,
    ) -> u64
        ensures makes { Makes (opened_world O.limits) (Call.forgot number n result) me.old me.new }
        ensures entries { share.new.totals.entries ≡ share.old.totals.entries }
        ensures index { share.new.index ≡ share.old.index }
    {
        let mut table = self.enter(rt);
        table.forget(&self.history, me, share, number, n)
    }

    /// The file open under a handle.
    pub fn find<H: Wait>(
        &self,
        rt: &H,
        me: &mut ThreadLog<LogEntry<T>, Runs<O>>,
        fh: u64,
    ) -> Option<OpenFile>
        ensures { Makes (opened_world O.limits) (Call.looked fh result) me.old me.new }
    {
        let mut table = self.enter(rt);
        table.find(&self.history, me, fh)
    }
}

fn is_busy(begin: &Begin) -> bool {
    match begin {
        Begin::Busy => true,
        Begin::Go(_) | Begin::Refused(_) => false,
    }
}
