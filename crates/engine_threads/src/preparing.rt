//! What a session needs before it begins. All that takes memory is made here, while nothing was received.

ghost use Rattle.std.specs.Prelude.{◌≡◌, ◌≤◌, ◌+◌, [], false, map, IfSome, vec_len, vec_capacity};
ghost use Rattle.std.specs.List.{All, range_with_len};
ghost use Rattle.crossbeam_channel.specs.Claims.{view};
ghost use Rattle.crossbeam_channel.specs.Ends.{sends_on, receives_on};
ghost use Rattle.ledger.specs.Shares.{nothing};
ghost use Rattle.shared_history.specs.Views.{thread_log};
ghost use Rattle.table_steps.specs.Kept.{world_of};
ghost use Rattle.table_steps.specs.World.{opened_world};
ghost use Rattle.engine_turns.specs.TableCalls.{idle, on_table_of};
ghost use Rattle.engine_turns.specs.Writes.{none_got};
ghost use Rattle.engine_threads.specs.Beginning.{IsReadyAt, IsUnread};

use crate::queue_ends::{JobEnds, JobSide, ReplyEnds, ReplySide, Senders, next_worker};
use engine::Settings;
use engine_turns::{Reader, Shares, ThreadShare, Worker, Writer};
use handles::Dirs;
use ledger::Ledgers;
use shared_history::{Opened, ThreadLog};
use std::alloc::Global;
use table::Table;
use table_shared::{LogEntry, Opening, Runs, SharedTable};

/// A worker before it has a directory.
#[derive(Drop)]
pub struct ReadyWorker<T: Ledgers, N: Opening> {
    pub worker: Worker,
    pub kept: ThreadShare<T>,
    pub thread_log: ThreadLog<LogEntry<T>, Runs<N>>,
}

/// The roles of a session and what they share, before they have links and directories.
#[derive(Drop)]
pub struct Prepared<T: Ledgers, N: Opening> {
    pub settings: Settings,
    pub shared_table: SharedTable<T, N>,
    pub dirs: Dirs,
    pub senders: Senders,
    pub reader: Reader,
    pub writer: Writer,
    /// The writer's share and log.
    pub kept: ThreadShare<T>,
    pub thread_log: ThreadLog<LogEntry<T>, Runs<N>>,
    pub workers: Vec<ReadyWorker<T, N>>,
    /// Room for all shares, to be gathered.
    pub shares: Shares<T>,
    ghost ready: { All (λ w. IsReadyAt (sends_on senders.jobs) (sends_on senders.replies) settings w.worker w.kept.share (on_table_of w.thread_log)) workers.items },
    ghost numbers: { map (λ w. w.worker.number) workers.items ≡ range_with_len 0 (vec_len workers) },
    ghost reads: { sends_on reader.to ≡ sends_on senders.jobs },
    ghost parts: { (view reader.pass).parts + vec_len workers ≡ 8 },
    ghost unread: { IsUnread reader },
    ghost writes: { receives_on writer.replies ≡ sends_on senders.replies },
    ghost unsent: { view writer.pass ≡ none_got (vec_len workers) },
    ghost whole: { writer.is_broken ≡ false },
    ghost idle: { on_table_of thread_log ≡ idle (vec_len workers) },
}

/// A worker with a share and a log. None means that memory was refused, or that there is no share for it.
fn ready_worker<T: Ledgers, N: Opening>(
    alloc: Global,
    settings: Settings,
    job_ends: &mut JobEnds,
    reply_ends: &mut ReplyEnds,
    thread_log: ThreadLog<LogEntry<T>, Runs<N>>,
    shares: &mut Shares<T>,
) -> Option<ReadyWorker<T, N>>
    requires few { job_ends.old.made + 1 ≤ 4 }
    requires same { reply_ends.old.made ≡ job_ends.old.made }
    requires idle { on_table_of thread_log ≡ idle job_ends.old.made }
    requires shares { All (λ p. p.totals ≡ nothing) shares.old.shares.items }
    ensures queues { (sends_on job_ends.new.jobs ≡ sends_on job_ends.old.jobs) × (sends_on reply_ends.new.replies ≡ sends_on reply_ends.old.replies) }
    ensures made { IfSome result (λ w. (job_ends.new.made ≡ job_ends.old.made + 1) × (reply_ends.new.made ≡ reply_ends.old.made + 1)) }
    ensures ready { IfSome result (λ w. IsReadyAt (sends_on job_ends.old.jobs) (sends_on reply_ends.old.replies) settings w.worker w.kept.share (on_table_of w.thread_log)) }
    ensures number { IfSome result (λ w. w.worker.number ≡ job_ends.old.made) }
    ensures shares { IfSome result (λ w. All (λ p. p.totals ≡ nothing) shares.new.shares.items) }
{
    let kept = shares.take()?;
    let worker = next_worker(alloc, settings, job_ends, reply_ends)?;
    Some(ReadyWorker {
        worker,
        kept,
        thread_log,
    })
}

/// A worker for each log, with their numbers in order. None means that memory was refused, or that there are too few shares.
fn ready_workers<T: Ledgers, N: Opening>(
    alloc: Global,
    settings: Settings,
    job_ends: &mut JobEnds,
    reply_ends: &mut ReplyEnds,
    thread_logs: Vec<ThreadLog<LogEntry<T>, Runs<N>>>,
    shares: &mut Shares<T>,
) -> Option<Vec<ReadyWorker<T, N>>>
    requires few { vec_len thread_logs ≤ 4 }
    requires none { (job_ends.old.made ≡ 0) × (reply_ends.old.made ≡ 0) }
    requires idle { map on_table_of thread_logs.items ≡ map idle (range_with_len 0 (vec_len thread_logs)) }
    requires shares { All (λ p. p.totals ≡ nothing) shares.old.shares.items }
    ensures queues { (sends_on job_ends.new.jobs ≡ sends_on job_ends.old.jobs) × (sends_on reply_ends.new.replies ≡ sends_on reply_ends.old.replies) }
    ensures made { IfSome result (λ v. (job_ends.new.made ≡ vec_len v) × (reply_ends.new.made ≡ vec_len v)) }
    ensures ready { IfSome result (λ v. All (λ w. IsReadyAt (sends_on job_ends.old.jobs) (sends_on reply_ends.old.replies) settings w.worker w.kept.share (on_table_of w.thread_log)) v.items) }
    ensures numbers { IfSome result (λ v. map (λ w. w.worker.number) v.items ≡ range_with_len 0 (vec_len v)) }
    ensures len { IfSome result (λ v. vec_len v ≡ vec_len thread_logs) }
{
    let mut workers = Vec::with_capacity(alloc, 4).ok()?;
    for thread_log in thread_logs {
        let worker = ready_worker(alloc, settings, job_ends, reply_ends, thread_log, shares)?;
        workers.push_reserved(worker);
    }
    Some(workers)
}

/// The table that all threads share, the logs of the workers in order of their numbers, and the writer's, whose index comes after theirs.
/// None means that memory was refused.
fn shared_table_of<T: Ledgers, N: Opening>(
    alloc: Global,
    opened: Opened<LogEntry<T>>,
    table: Table<T>,
    count: usize,
) -> Option<
    (
        SharedTable<T, N>,
        Vec<ThreadLog<LogEntry<T>, Runs<N>>>,
        ThreadLog<LogEntry<T>, Runs<N>>,
    ),
>
    requires few { count ≤ 4 }
    requires history { opened.table.shared.table_id ≡ N.history }
    requires table { world_of table ≡ opened_world N.limits }
    requires threads { N.threads ≡ count + 1 }
    ensures workers { IfSome result (λ r. map on_table_of r.1.items ≡ map idle (range_with_len 0 count)) }
    ensures len { IfSome result (λ r. vec_len r.1 ≡ count) }
    ensures writer { IfSome result (λ r. on_table_of r.2 ≡ idle count) }
{
    let (shared_table, mut thread_logs) = SharedTable::<T, N>::new(
        alloc,
        opened,
        table,
        count + 1,
    ).ok()?;
    let writer = thread_logs.pop()?;
    Some((shared_table, thread_logs, writer))
}

/// All that a session of so many workers on a table that was just opened needs. None means that memory was refused, or that there are too
/// few shares.
pub fn prepare<T: Ledgers, N: Opening>(
    alloc: Global,
    opened: Opened<LogEntry<T>>,
    table: Table<T>,
    shares: Shares<T>,
    count: usize,
    settings: Settings,
) -> Option<Prepared<T, N>>
    requires few { count ≤ 4 }
    requires history { opened.table.shared.table_id ≡ N.history }
    requires table { world_of table ≡ opened_world N.limits }
    requires threads { N.threads ≡ count + 1 }
    requires shares { All (λ p. p.totals ≡ nothing) shares.shares.items }
    ensures len { IfSome result (λ p. vec_len p.workers ≡ count) }
    ensures settings { IfSome result (λ p. p.settings ≡ settings) }
{
    let mut shares = shares;
    let (shared_table, thread_logs, thread_log) = shared_table_of::<T, N>(
        alloc, opened, table, count,
    )?;
    let mut job_ends = JobEnds::new(alloc)?;
    let mut reply_ends = ReplyEnds::new(alloc)?;
    let workers = ready_workers(
        alloc,
        settings,
        &mut job_ends,
        &mut reply_ends,
        thread_logs,
        &mut shares,
    )?;
    let kept = shares.take()?;
    let dirs = Dirs::new(alloc).ok()?;
    let JobSide { jobs, reader } = job_ends.into_reader(alloc)?;
    let ReplySide { replies, writer } = reply_ends.into_writer(alloc)?;
    Some(Prepared {
        settings,
        shared_table,
        dirs,
        senders: Senders { jobs, replies },
        reader,
        writer,
        kept,
        thread_log,
        workers,
        shares,
    })
}
