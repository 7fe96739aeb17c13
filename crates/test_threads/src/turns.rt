//! Turns of a worker whose replies nobody receives any more, and of a reader whose jobs nobody takes.

ghost use Rattle.std.specs.Prelude.{◌≡◌, ◌<◌, ◌+◌, length, true};
ghost use Rattle.crossbeam_channel.specs.Claims.{view, IsSeatAt};
ghost use Rattle.crossbeam_channel.specs.Ends.{sends_on};
ghost use Rattle.table_steps.specs.Kept.{world_of};
ghost use Rattle.table_steps.specs.World.{opened_world};

use crate::client::{Asks, Heard};
use crate::story::{Comes, SETTINGS, pieces_of, tree_of};
use backing::MemTree;
use crossbeam_channel::bounded_with;
use engine::{Served, SessionEnd};
use engine_queues::jobs::{Cut, Fair, Hand, JobPass, JobSender};
use engine_queues::passes::Passes;
use engine_queues::replies::{InOrder, QueuedReply, ReplyLane, ReplyPass, ReplySender, Roles};
use engine_turns::{Job, JobReply, Reader, SpareBuffers, TableHandle, ThreadShare, Worker};
use handles::Dirs;
use ledger::{Blanks, Ledgers, Posting, Share};
use shared_history::{Opened, ThreadLog};
use std::alloc::{AllocError, Global};
use std::marker::Brand;
use std::random::RandomSource;
use std::sync::{Arc, Mutex, Wait};
use std::test::Fail;
use table::{Limits, Seeds, Table};
use table_image::Image;
use table_shared::{LogEntry, Opening, Runs, SharedTable};
use wire::Operation;
use wire::Operation::Lookup;

/// A LOOKUP, after INIT.
const ONE: &[(u64, Operation<'static>)] = &[(1, Lookup { name: b"a" })];

/// The link of a client that asks for this.
fn asks<H: Wait + Clone + Drop>(rt: &H, alloc: Global) -> Result<Asks<H>, AllocError> {
    let heard = Arc::new(alloc, Mutex::new(Heard::new(alloc)))?;
    let Ok(own) = rt.clone() else {
        return Err(AllocError);
    };
    Ok(Asks::new(own, heard, pieces_of(alloc, Comes::Together, ONE, &[])?))
}

/// The passes of the only worker.
pub fn passes_of(
    jobs: &JobSender<Job>,
    replies: &ReplySender<JobReply>,
    read: &mut JobPass<Job>,
    written: &mut ReplyPass<JobReply>,
) -> Passes<Job, JobReply>
    requires read { IsSeatAt (sends_on jobs.now) read.old }
    requires parts { 1 < (view read.old).parts }
    requires written { IsSeatAt (sends_on replies.now) written.old }
    requires gets { (view written.old).gets ≡ true }
    requires made { (view written.old).made ≡ 0 }
    requires known { length (view written.old).known ≡ 0 }
    requires got { length (view written.old).got ≡ 0 }
    ensures read { IsSeatAt (sends_on jobs.now) read.new }
    ensures parts { (view read.new).parts + 1 ≡ (view read.old).parts }
    ensures reads { ((view read.new).put ≡ (view read.old).put) × ((view read.new).taken ≡ (view read.old).taken) }
    ensures written { IsSeatAt (sends_on replies.now) written.new }
    ensures gets { (view written.new).gets ≡ true }
    ensures known { length (view written.new).known ≡ 0 }
    ensures got { length (view written.new).got ≡ 0 }
    ensures seats { IsSeatAt (sends_on jobs.now) result.job_pass × IsSeatAt (sends_on replies.now) result.reply_pass }
{
    let job_pass = jobs.another::<Cut>(read);
    let reply_pass = replies.another::<Roles>(written);
    Passes {
        number: 0,
        taken: 0,
        put: 0,
        job_pass,
        reply_pass,
    }
}

/// A worker with two jobs in its queue, and a reply queue whose receiver has been dropped.
fn lone_worker<H: Wait + Clone + Drop>(rt: &H, alloc: Global) -> Result<Worker, AllocError> {
    let (jobs, work, mut read) = bounded_with::<Job, Hand<Job>, Fair, Global>(alloc, 16)?;
    let (replies, receiver, mut written) = bounded_with::<
        QueuedReply<JobReply>,
        ReplyLane<JobReply>,
        InOrder,
        Global,
    >(alloc, 16)?;
    let passes = passes_of(&jobs, &replies, &mut read, &mut written);
    let worker = Worker::new(alloc, SETTINGS, work, replies, passes);
    let mut reader = Reader::new(alloc, jobs, read)?;
    let mut spares = SpareBuffers::new(alloc);
    let _end = reader.turn(rt, &mut asks(rt, alloc)?, &mut spares);
    drop(receiver);
    Ok(worker)
}

/// A shared table, with the logs of a worker and of a writer.
pub fn shared_table_of<T: Ledgers, N: Opening>(
    alloc: Global,
    opened: Opened<LogEntry<T>>,
    table: Table<T>,
) -> Result<
    (
        SharedTable<T, N>,
        ThreadLog<LogEntry<T>, Runs<N>>,
        ThreadLog<LogEntry<T>, Runs<N>>,
    ),
    AllocError,
>
    requires history { opened.table.shared.table_id ≡ N.history }
    requires table { world_of table ≡ opened_world N.limits }
    requires threads { N.threads ≡ 2 }
{
    let (shared_table, mut thread_logs) = SharedTable::<T, N>::new(alloc, opened, table, 2)?;
    let writer = thread_logs.pop().ok_or(AllocError)?;
    let worker = thread_logs.pop().ok_or(AllocError)?;
    Ok((shared_table, worker, writer))
}

/// Handles both jobs.
fn work_both<H: Wait + Drop, T: Ledgers, N: Opening>(
    rt: &H,
    shared_table: &SharedTable<T, N>,
    thread_log: ThreadLog<LogEntry<T>, Runs<N>>,
    share: &mut Share<T>,
    worker: &mut Worker,
    served: &mut Served<MemTree, &Dirs>,
) {
    let mut table_handle = TableHandle::new(rt, shared_table, thread_log);
    for _ in 0..2 {
        let _turn = worker.turn_known(&mut table_handle, share, served);
    }
}

/// Handles both jobs on a shared table made of this one. Returns the table's final image, and how many replies the
/// queue returned.
fn work<H: Wait + Drop, T: Ledgers, N: Opening>(
    rt: &H,
    alloc: Global,
    opened: Opened<LogEntry<T>>,
    table: Table<T>,
    mut kept: ThreadShare<T>,
    mut worker: Worker,
    tree: MemTree,
    dirs: &Dirs,
) -> Result<(Image, u64), AllocError>
    requires history { opened.table.shared.table_id ≡ N.history }
    requires table { world_of table ≡ opened_world N.limits }
    requires threads { N.threads ≡ 2 }
{
    let (shared_table, thread_log, _writer) = shared_table_of::<T, N>(alloc, opened, table)?;
    let mut served = Served { calls: tree, dirs };
    work_both(
        rt,
        &shared_table,
        thread_log,
        &mut kept.share,
        &mut worker,
        &mut served,
    );
    let image = shared_table.close().into_table().export()?;
    Ok((image, worker.handed_back))
}

/// The same with a new table.
fn work_anew<H: Wait + Drop, T: Ledgers>(
    rt: &H,
    alloc: Global,
    seeds: Seeds,
    blanks: Blanks,
    worker: Worker,
    tree: MemTree,
) -> Result<(Image, u64), AllocError>
    requires names { blanks ≡ T.names }
    requires shares { T.names.parts ≡ 1 }
{
    let dirs = Dirs::new(alloc)?;
    let (table, mut shares) = Table::<T>::open(alloc, Limits::default(), seeds, blanks, 1)?;
    let share = shares.pop().unwrap();
    shares.destroy_empty();
    let kept = ThreadShare { share };
    let opened = Opened::new(alloc)?;
    work::<H, T, Brand>(rt, alloc, opened, table, kept, worker, tree, &dirs)
}

/// The reply to LOOKUP is returned by the queue, so its entry is given back.
const POSTINGS: &[Posting] = &[
    Posting::Born {
        number: 2,
        generation: 0,
    },
    Posting::Entry {
        number: 2,
        generation: 0,
    },
    Posting::Back {
        number: 2,
        generation: 0,
    },
];

/// Runs both turns, over a tree with the file `a`.
fn image_of<H: Wait + RandomSource + Clone + Drop>(
    rt: &H,
    alloc: Global,
) -> Result<(Image, u64), Fail> {
    let worker = lone_worker(rt, alloc)?;
    let seeds = Seeds::new(rt)?;
    let tree = tree_of(alloc)?;
    let told = work_anew::<H, Brand>(rt, alloc, seeds, Blanks::new(1), worker, tree)?;
    Ok(told)
}

#[test]
fn reply_that_nobody_gets(rt: HostRuntime) -> Result<(), Fail> {
    let (image, handed_back) = image_of(&rt, rt.alloc())?;
    assert_eq!(rt; handed_back, 2);
    assert!(rt; image.postings.as_slice() == POSTINGS);
    assert_eq!(rt; image.records.as_slice().len(), 0);
    assert_eq!(rt; image.nodes.as_slice().len(), 1);
    Ok(())
}

/// How a receive of two frames ends if nobody takes jobs, and the number of the job that the queue returned.
fn read_for_nobody<H: Wait + Clone + Drop>(
    rt: &H,
    alloc: Global,
) -> Result<(Option<SessionEnd>, Option<u64>), AllocError> {
    let (jobs, work, read) = bounded_with::<Job, Hand<Job>, Fair, Global>(alloc, 16)?;
    let mut reader = Reader::new(alloc, jobs, read)?;
    drop(work);
    let mut spares = SpareBuffers::new(alloc);
    let end = reader.turn(rt, &mut asks(rt, alloc)?, &mut spares);
    match &reader.handed_back {
        Some(job) => Ok((end, Some(job.ordinal))),
        None => Ok((end, None)),
    }
}

#[test]
fn job_that_nobody_takes(rt: HostRuntime) -> Result<(), Fail> {
    let (end, handed_back) = read_for_nobody(&rt, rt.alloc())?;
    assert_eq!(rt; end, Some(SessionEnd::Memory));
    assert_eq!(rt; handed_back, Some(0));
    Ok(())
}
