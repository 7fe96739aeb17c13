//! Replies that the writer takes from the queue together.

ghost use Rattle.std.specs.Prelude.{◌≡◌};
ghost use Rattle.table_steps.specs.Kept.{world_of};
ghost use Rattle.table_steps.specs.World.{opened_world};

use crate::client::{Asks, Fates, Heard, Hears};
use crate::story::{Comes, SETTINGS, holds_of, pieces_of};
use crate::turns::{passes_of, shared_table_of};
use backing::Shared;
use crossbeam_channel::bounded_with;
use engine::{Sent, Served};
use engine_queues::jobs::{Fair, Hand};
use engine_queues::replies::{InOrder, QueuedReply, ReplyLane};
use engine_turns::{
    Job, JobReply, Reader, SpareBuffers, TableHandle, TableLock, ThreadShare, Worker, Writer,
};
use handles::Dirs;
use ledger::{Blanks, Ledgers, Posting, Share};
use shared_history::{Opened, ThreadLog};
use std::alloc::{AllocError, Global};
use std::marker::Brand;
use std::random::RandomSource;
use std::sync::{Arc, Mutex, Wait};
use std::test::Fail;
use table::{Limits, Seeds, Settled, Table};
use table_image::Image;
use table_shared::{LogEntry, Opening, Runs, SharedTable};
use wire::Operation;
use wire::Operation::Lookup;

/// Three LOOKUPs, after INIT.
const THREE: &[(u64, Operation<'static>)] = &[
    (1, Lookup { name: b"a" }),
    (1, Lookup { name: b"a" }),
    (1, Lookup { name: b"a" }),
];

/// The reply to INIT and the first entry are taken. The link breaks at the second entry.
const FATES: Fates = Fates::InTurn(&[Sent::Taken, Sent::Taken, Sent::Broken]);

/// A worker with four jobs in its queue, and the writer of its replies.
fn both<H: Wait + Drop>(
    rt: &H,
    alloc: Global,
    mut asks: Asks<H>,
) -> Result<(Worker, Writer), AllocError> {
    let (jobs, work, mut read) = bounded_with::<Job, Hand<Job>, Fair, Global>(alloc, 16)?;
    let (replies, receiver, mut written) = bounded_with::<
        QueuedReply<JobReply>,
        ReplyLane<JobReply>,
        InOrder,
        Global,
    >(alloc, 16)?;
    let passes = passes_of(&jobs, &replies, &mut read, &mut written);
    let worker = Worker::new(alloc, SETTINGS, work, replies, passes);
    let mut reader = Reader::new(alloc, jobs, read)?;
    let _end = reader.turn(rt, &mut asks, &mut SpareBuffers::new(alloc));
    let writer = Writer::new(alloc, receiver, written)?;
    Ok((worker, writer))
}

/// Handles all jobs, and then writes their replies together.
fn work_and_write<H: Wait + Drop, T: Ledgers, N: Opening>(
    rt: &H,
    shared_table: &SharedTable<T, N>,
    thread_log: ThreadLog<LogEntry<T>, Runs<N>>,
    own: &mut ThreadLog<LogEntry<T>, Runs<N>>,
    share: &mut Share<T>,
    worker: &mut Worker,
    writer: &mut Writer,
    served: &mut Served<Shared<H>, &Dirs>,
    hears: &mut Hears<H>,
) {
    let mut table_handle = TableHandle::new(rt, shared_table, thread_log);
    for _ in 0..4 {
        let _turn = worker.turn(&mut table_handle, share, served);
    }
    let table_lock = TableLock { rt, shared_table };
    let _count = writer.turns(
        &table_lock,
        hears,
        own,
        share,
        &mut served.dirs,
        &mut worker.spare_replies,
    );
}

/// The same on a shared table made of this one. Returns the table's final image.
fn write<H: Wait + Drop, T: Ledgers, N: Opening>(
    rt: &H,
    alloc: Global,
    opened: Opened<LogEntry<T>>,
    table: Table<T>,
    mut kept: ThreadShare<T>,
    mut worker: Worker,
    writer: &mut Writer,
    tree: Shared<H>,
    dirs: &Dirs,
    hears: &mut Hears<H>,
) -> Result<Image, AllocError>
    requires history { opened.table.shared.table_id ≡ N.history }
    requires table { world_of table ≡ opened_world N.limits }
    requires threads { N.threads ≡ 2 }
{
    let (shared_table, thread_log, mut own) = shared_table_of::<T, N>(alloc, opened, table)?;
    let mut served = Served { calls: tree, dirs };
    work_and_write(
        rt,
        &shared_table,
        thread_log,
        &mut own,
        &mut kept.share,
        &mut worker,
        writer,
        &mut served,
        hears,
    );
    shared_table.close().into_table().export()
}

/// The same with a new table.
fn write_anew<H: Wait + Drop, T: Ledgers>(
    rt: &H,
    alloc: Global,
    seeds: Seeds,
    blanks: Blanks,
    worker: Worker,
    writer: &mut Writer,
    tree: Shared<H>,
    hears: &mut Hears<H>,
) -> Result<Image, AllocError>
    requires names { blanks ≡ T.names }
    requires shares { T.names.parts ≡ 1 }
{
    let dirs = Dirs::new(alloc)?;
    let (table, mut shares) = Table::<T>::open(alloc, Limits::default(), seeds, blanks, 1)?;
    let share = shares.pop().unwrap();
    shares.destroy_empty();
    let kept = ThreadShare { share };
    let opened = Opened::new(alloc)?;
    write::<H, T, Brand>(
        rt, alloc, opened, table, kept, worker, writer, tree, &dirs, hears,
    )
}

/// Whether each reply of the batch counts as taken.
fn verdicts_of(
    alloc: Global,
    settled: &[Option<Settled>],
) -> Result<Vec<Option<bool>>, AllocError> {
    let mut verdicts = Vec::new(alloc);
    for one in settled {
        verdicts.push(match one {
            Some(settled) => Some(settled.taken()),
            None => None,
        })?;
    }
    Ok(verdicts)
}

/// The second entry and the third are given back.
const POSTINGS: &[Posting] = &[
    Posting::Born {
        number: 2,
        generation: 0,
    },
    Posting::Entry {
        number: 2,
        generation: 0,
    },
    Posting::Entry {
        number: 2,
        generation: 0,
    },
    Posting::Entry {
        number: 2,
        generation: 0,
    },
    Posting::Back {
        number: 2,
        generation: 0,
    },
    Posting::Back {
        number: 2,
        generation: 0,
    },
];

/// Runs it over a tree with the file `a`. Returns the table's final image, and what became of each reply of the batch.
fn run<H: Wait + RandomSource + Clone + Drop>(
    rt: &H,
    alloc: Global,
    asks: Asks<H>,
    hears: &mut Hears<H>,
) -> Result<(Image, Vec<Option<bool>>), Fail> {
    let (worker, mut writer) = both(rt, alloc, asks)?;
    let seeds = Seeds::new(rt)?;
    let Some(tree) = holds_of(rt, alloc, 1)?.pop() else {
        return Err(Fail::from("no tree"));
    };
    let blanks = Blanks::new(1);
    let image = write_anew::<H, Brand>(rt, alloc, seeds, blanks, worker, &mut writer, tree, hears)?;
    Ok((image, verdicts_of(alloc, writer.batch.settled.as_slice())?))
}

#[test]
fn each_of_a_batch_by_its_own_verdict(rt: HostRuntime) -> Result<(), Fail> {
    let heard = Arc::new(rt.alloc(), Mutex::new(Heard::new(rt.alloc())))?;
    let pieces = pieces_of(rt.alloc(), Comes::Together, THREE, &[])?;
    let asks = Asks::new(rt.clone()?, Arc::try_clone(&heard)?, pieces);
    let mut hears = Hears {
        rt: rt.clone()?,
        heard: Arc::try_clone(&heard)?,
        fates: FATES,
        failures: 0,
    };
    let (image, verdicts) = run(&rt, rt.alloc(), asks, &mut hears)?;
    assert!(rt; image.postings.as_slice() == POSTINGS);
    assert_eq!(rt; image.records.as_slice().len(), 0);
    assert!(rt; verdicts.as_slice() == [None, Some(true), Some(false), Some(false)].as_slice());
    assert_eq!(rt; heard.lock(&rt).offers, 3);
    Ok(())
}
