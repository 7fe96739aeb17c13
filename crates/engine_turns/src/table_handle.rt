//! A thread's handle to the shared table: the calls that it makes on the table, and their results in one turn.

ghost use Rattle.std.specs.Prelude.{◌≡◌};
ghost use Rattle.engine_turns.specs.TableCalls.{Fresh, HasBits, left_in, settled_in, turn_end_of};

use crate::table_lock::TableLock;
use engine::Reach;
use engine_queues::Left;
use ledger::{Ledgers, Share};
use shared_history::ThreadLog;
use std::mem;
use std::snapshot::Snapshot;
use std::sync::Wait;
use table::{Answered, Begin, Outcome, Settled, Ticket};
use table_files::OpenFile;
use table_requests::Want;
use table_shared::{LogEntry, Opening, Runs, SharedTable};

/// The result of a turn.
#[derive(Drop)]
pub enum TurnResult {
    Nothing,
    Answer(Snapshot<Answered>),
    Left(Left),
    Settled(Settled),
}

impl TurnResult {
    /// The answer to be settled, and the settle that was made.
    pub(crate) fn into_parts(self) -> (Option<Left>, Option<Settled>)
        ensures left { result.0 ≡ left_in (turn_end_of self) }
        ensures settled { result.1 ≡ settled_in (turn_end_of self) }
    {
        match self {
            TurnResult::Nothing | TurnResult::Answer(_) => (None, None),
            TurnResult::Left(left) => (Some(left), None),
            TurnResult::Settled(settled) => (None, Some(settled)),
        }
    }
}

/// A thread's access to the table, with its log, and the result of its turn.
#[derive(Drop)]
pub struct TableHandle<'a, H: Wait, T: Ledgers, O: Opening> {
    pub table_lock: TableLock<'a, H, T, O>,
    pub thread_log: ThreadLog<LogEntry<T>, Runs<O>>,
    pub turn_result: TurnResult,
}

impl<'a, H: Wait, T: Ledgers, O: Opening> TableHandle<'a, H, T, O> {
    /// The handle of a thread with this log.
    pub fn new(
        rt: &'a H,
        shared_table: &'a SharedTable<T, O>,
        thread_log: ThreadLog<LogEntry<T>, Runs<O>>,
    ) -> TableHandle<'a, H, T, O>
        ensures { result.thread_log ≡ thread_log }
    {
        TableHandle {
            table_lock: TableLock { rt, shared_table },
            thread_log,
            turn_result: TurnResult::Nothing,
        }
    }

    /// The log, after the thread has ended.
    pub fn into_log(self) -> ThreadLog<LogEntry<T>, Runs<O>>
        ensures { result ≡ self.entry.thread_log }
    {
        let TableHandle {
            table_lock: _,
            thread_log,
            turn_result: _,
        } = self;
        thread_log
    }

    /// The result of the turn. Another one may begin.
    pub fn take_end(&mut self) -> TurnResult
        ensures end { result ≡ self.old.turn_result }
        ensures fresh { turn_end_of self.new.turn_result ≡ Fresh }
        ensures thread_log { self.new.thread_log ≡ self.old.thread_log }
    {
        mem::replace(&mut self.turn_result, TurnResult::Nothing)
    }
}

impl<'a, H: Wait, T: Ledgers, O: Opening> Reach<T> for TableHandle<'a, H, T, O> {
    ghost use Rattle.engine_turns.specs.TableHandleLemmas as laws;
    ghost use Rattle.engine_turns.specs.TableCalls as calls;

    ghost World = { calls.Known };

    ghost world = { λ table_handle. calls.known table_handle.turn_result table_handle.thread_log };

    ghost steps = { calls.known_table };

    fn attest(&self) {}

    fn begin(&mut self, unique: u64, want: Want) -> Begin {
        let begin = self
            .table_lock
            .shared_table
            .begin(self.table_lock.rt, &mut self.thread_log, unique, want);
        has_bits(&begin); // proof: of an error
        begin
    }

    fn finish(&mut self, share: &mut Share<T>, ticket: Ticket, outcome: Outcome) -> Answered {
        let answered = self.table_lock.shared_table.finish(
            self.table_lock.rt,
            &mut self.thread_log,
            share,
            ticket,
            outcome,
        );
        self.turn_result = TurnResult::Answer(Snapshot::of(&answered));
        answered
    }

    fn settle(&mut self, share: &mut Share<T>, answered: Answered, put: Option<u64>, taken: bool) {
        if taken {
            self.turn_result = TurnResult::Left(Left { answered, put });
        } else {
            let settled = self.table_lock.shared_table.settle(
                self.table_lock.rt,
                &mut self.thread_log,
                share,
                answered,
                false,
            );
            self.turn_result = TurnResult::Settled(settled);
        }
    }

    fn forget(&mut self, share: &mut Share<T>, number: u64, n: u64) {
        let _ = self
            .table_lock
            .shared_table
            .forget(self.table_lock.rt, &mut self.thread_log, share, number, n);
    }

    fn find(&mut self, fh: u64) -> Option<OpenFile> {
        self.table_lock
            .shared_table
            .find(self.table_lock.rt, &mut self.thread_log, fh)
    }

    ghost gains_on = { laws.gains_on };

    ghost waits = { laws.waits };

    ghost refuses = { laws.refuses };

    ghost begins_free = { laws.begins_free };

    ghost completes = { laws.completes };

    ghost forgets_idle = { laws.forgets_idle };

    ghost finds_idle = { laws.finds_idle };
}

// An error has 32 bits.
fn has_bits(begin: &Begin)
    ensures { HasBits begin.now }
{
    match begin {
        Begin::Refused(errno) => {
            let _bits = *errno;
        }
        Begin::Go(_) | Begin::Busy => {}
    }
}
