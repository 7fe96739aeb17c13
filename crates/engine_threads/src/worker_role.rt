//! The worker as a role.

ghost use Rattle.std.specs.Prelude.{◌≡◌, Some};
ghost use mathlib.Core.Option.{some};
ghost use lib.ListN.{get_elem?};
ghost use Rattle.crossbeam_channel.specs.Ends.{sends_on, receives_on};
ghost use Rattle.engine_turns.specs.TableCalls.{on_table_of};
ghost use Rattle.engine_threads.specs.Beginning.{IsReadyHere};
ghost use Rattle.engine_threads.specs.Worked.{does_shared, HasWorkedSo};

use crate::origins::Workers;
use backing::Calls;
use engine_turns::{ThreadShare, Worker};
use ledger::Ledgers;
use shared_history::ThreadLog;
use std::marker::PhantomData;
use table_shared::{LogEntry, Opening, Runs};

/// A worker with its share, its log of the table's history, and its directory. It has worked on every job that it took since it began
/// as `S` says, and has put a reply to each that gets one.
#[derive(Drop)]
pub struct WorkerRole<T: Ledgers, N: Opening, C: Calls + Drop, S: Workers<C>> {
    pub worker: Worker,
    pub kept: ThreadShare<T>,
    pub thread_log: ThreadLog<LogEntry<T>, Runs<N>>,
    pub calls: C,
    pub workers: PhantomData<S>,
    ghost work: { S.work ≡ Some (receives_on worker.jobs) },
    ghost answers: { S.answers ≡ Some (sends_on worker.replies) },
    ghost none_back: { worker.handed_back ≡ 0 },
    ghost worked: { ∥ HasWorkedSo (does_shared C.gives) S.settings S.given worker calls kept.share (on_table_of thread_log) ∥₁ },
}

impl<T: Ledgers, N: Opening, C: Calls + Drop, S: Workers<C>> WorkerRole<T, N, C, S> {
    /// A worker that has done nothing, with its directory.
    pub fn new(
        worker: Worker,
        kept: ThreadShare<T>,
        thread_log: ThreadLog<LogEntry<T>, Runs<N>>,
        calls: C,
    ) -> WorkerRole<T, N, C, S>
        requires ready { IsReadyHere S.work S.answers S.settings worker kept.share (on_table_of thread_log) }
        requires first { get_elem? S.given worker.number ≡ some calls }
        ensures { result.worker ≡ worker }
    {
        WorkerRole {
            worker,
            kept,
            thread_log,
            calls,
            workers: PhantomData,
        }
    }

    /// The same worker after it has done more.
    pub fn again(
        worker: Worker,
        kept: ThreadShare<T>,
        thread_log: ThreadLog<LogEntry<T>, Runs<N>>,
        calls: C,
    ) -> WorkerRole<T, N, C, S>
        requires work { S.work ≡ Some (receives_on worker.jobs) }
        requires answers { S.answers ≡ Some (sends_on worker.replies) }
        requires none_back { worker.handed_back ≡ 0 }
        requires worked { ∥ HasWorkedSo (does_shared C.gives) S.settings S.given worker calls kept.share (on_table_of thread_log) ∥₁ }
        ensures { result.worker ≡ worker }
    {
        WorkerRole {
            worker,
            kept,
            thread_log,
            calls,
            workers: PhantomData,
        }
    }
}
