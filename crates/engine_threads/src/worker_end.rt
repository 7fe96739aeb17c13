//! The end of a worker.

ghost use Rattle.std.specs.Prelude.{◌≡◌};
ghost use Rattle.crossbeam_channel.specs.Ends.{sends_on, receives_on};
ghost use Rattle.engine_turns.specs.TableCalls.{on_table_of};
ghost use Rattle.engine_threads.specs.Worked.{does_shared, stand_of, AnswersLast, HasEnded, IsSenderAt, IsTakerAt};

use crate::origins::Workers;
use crate::waiting::wait_if_returned;
use crate::worker_role::WorkerRole;
use backing::Calls;
use engine::Served;
use engine_queues::passes::Passes;
use engine_turns::{Job, JobReply, TableHandle, ThreadShare, Turn, Worker};
use handles::Dirs;
use ledger::{Ledgers, Share};
use shared_history::ThreadLog;
use std::marker::PhantomData;
use std::snapshot::Snapshot;
use std::sync::Wait;
use table_shared::{LogEntry, Opening, Runs, SharedTable};

/// What is left of a worker: it has worked on the jobs that it took since it began as `S` says, and has then answered the frame that ended
/// the session, if it got that.
#[derive(Drop)]
pub struct WorkerEnd<T: Ledgers, N: Opening, C: Calls + Drop, S: Workers<C>> {
    pub passes: Passes<Job, JobReply>,
    pub kept: ThreadShare<T>,
    pub thread_log: ThreadLog<LogEntry<T>, Runs<N>>,
    pub calls: C,
    /// The job of the frame that ended the session, if this worker answered that.
    pub last_job: Snapshot<Option<Job>>,
    pub workers: PhantomData<S>,
    ghost job_seat: { IsTakerAt S.work passes.job_pass },
    ghost reply_seat: { IsSenderAt S.answers passes.reply_pass },
    ghost worked: { ∥ HasEnded (does_shared C.gives) S.settings S.given last_job.value passes calls kept.share (on_table_of thread_log) ∥₁ },
}

/// Answers the frame that ended the session, if one did, as a job that was in the queue.
fn answer<'a, H: Wait, T: Ledgers, N: Opening, C: Calls>(
    worker: &mut Worker,
    table_handle: &mut TableHandle<'a, H, T, N>,
    share: &mut Share<T>,
    served: &mut Served<C, &Dirs>,
    last_job: &Option<Job>,
)
    requires none_back { worker.old.handed_back ≡ 0 }
    ensures queues { (receives_on worker.new.jobs ≡ receives_on worker.old.jobs) × (sends_on worker.new.replies ≡ sends_on worker.old.replies) × (worker.new.number ≡ worker.old.number) }
    ensures answers { AnswersLast (does_shared C.gives) worker.old.session.settings worker.old.number last_job.now (stand_of worker.old served.old.calls share.old (on_table_of table_handle.old.thread_log)) (stand_of worker.new served.new.calls share.new (on_table_of table_handle.new.thread_log)) }
{
    let Some(job) = last_job else {
        return;
    };
    let rt = table_handle.table_lock.rt;
    match worker.answer(table_handle, share, served, job) {
        Turn::Worked(_settled) => wait_if_returned(rt, worker),
        // A worker counts its replies with 64 bits.
        Turn::Nothing => { for _ in rt.forever() {} }
    }
}

impl<T: Ledgers, N: Opening, C: Calls + Drop, S: Workers<C>> WorkerRole<T, N, C, S> {
    /// What is left of the worker after it has answered the frame that ended the session, if that is for it to do.
    pub fn into_end<H: Wait>(
        self,
        rt: &H,
        shared_table: &SharedTable<T, N>,
        dirs: &Dirs,
        last_job: &Option<Job>,
    ) -> WorkerEnd<T, N, C, S>
        ensures { result.last_job.value ≡ last_job.now }
    {
        let WorkerRole {
            mut worker,
            mut kept,
            thread_log,
            calls,
            workers: _,
        } = self;
        let mut served = Served { calls, dirs };
        let mut table_handle = TableHandle::new(rt, shared_table, thread_log);
        answer(
            &mut worker,
            &mut table_handle,
            &mut kept.share,
            &mut served,
            last_job,
        );
        let Served { calls, dirs: _ } = served;
        WorkerEnd {
            passes: worker.into_passes(),
            kept,
            thread_log: table_handle.into_log(),
            calls,
            last_job: Snapshot::of(last_job),
            workers: PhantomData,
        }
    }
}
