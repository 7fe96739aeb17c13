//! What is left to do after the threads of a session have ended.

ghost use Rattle.std.specs.Prelude.{◌≡◌, ◌<◌, ◌≤◌, ◌+◌, [], length, map, None, Some, vec_len, vec_capacity};
ghost use Rattle.std.specs.List.{All};
ghost use Rattle.crossbeam_channel.specs.Ends.{sends_on};
ghost use Rattle.engine_queues.specs.Gathered.{takings_of};
ghost use Rattle.terms.specs.declared.settings.Settings.{Settings};
ghost use Rattle.engine_threads.specs.Served.{behaviours, served_with, Endpoints, HasRun};
ghost use Rattle.engine_threads.specs.Worked.{did};

use crate::alone::{Alone, work_alone};
use crate::ended::Passed;
use crate::left::{Parted, part_all};
use crate::origins::Workers;
use crate::queue_ends::Senders;
use crate::traffic::{Traffic, gather_all, passed_by};
use crate::turns::offer_queued;
use crate::worker_end::WorkerEnd;
use crate::worker_role::WorkerRole;
use backing::Calls;
use engine::{LinkIn, LinkOut};
use engine_turns::{ReaderRole, Shares, Sink, Source, SpareBuffers, WriterEnd, WriterRole};
use handles::Dirs;
use ledger::Ledgers;
use std::alloc::Global;
use std::sync::Wait;
use table_shared::{Closed, Opening, SharedTable};

/// What is left of the threads of a session.
#[derive(Drop)]
pub struct Over<T: Ledgers, N: Opening, I: LinkIn + Drop, O: LinkOut + Drop, C: Calls + Drop> {
    pub passed: Passed,
    pub taken: Vec<u64>,
    /// The table and its whole history.
    pub closed: Closed<T, N>,
    pub shares: Shares<T>,
    pub calls: Vec<C>,
    pub link_in: I,
    pub link_out: O,
}

/// Room for what is left of the workers, which is made before the session begins.
#[derive(Drop)]
pub struct EndRoom<T: Ledgers, N: Opening, C: Calls + Drop, S: Workers<C>> {
    pub ends: Vec<WorkerEnd<T, N, C, S>>,
    pub parted: Parted<C>,
    pub taken: Vec<u64>,
    ghost ends_room: { (4 ≤ vec_capacity ends) × (ends.items ≡ []) },
    ghost passes_room: { (4 ≤ vec_capacity parted.passes) × (parted.passes.items ≡ []) },
    ghost calls_room: { (4 ≤ vec_capacity parted.calls) × (parted.calls.items ≡ []) },
    ghost taken_room: { (4 ≤ vec_capacity taken) × (taken.items ≡ []) },
}

impl<T: Ledgers, N: Opening, C: Calls + Drop, S: Workers<C>> EndRoom<T, N, C, S> {
    /// Room for what is left of four workers. None means that memory was refused.
    pub fn new(alloc: Global) -> Option<EndRoom<T, N, C, S>> {
        let parted = Parted {
            passes: Vec::with_capacity(alloc, 4).ok()?,
            calls: Vec::with_capacity(alloc, 4).ok()?,
        };
        let ends = Vec::with_capacity(alloc, 4).ok()?;
        let taken = Vec::with_capacity(alloc, 4).ok()?;
        Some(EndRoom {
            ends,
            parted,
            taken,
        })
    }
}

/// How many jobs these workers took. None means that the sum passes 64 bits.
fn taken_of<T: Ledgers, N: Opening, C: Calls + Drop, S: Workers<C>>(
    roles: &[WorkerRole<T, N, C, S>],
) -> Option<u64> {
    let mut sum = 0u64;
    for role in roles {
        sum = sum.checked_add(role.worker.taken)?;
    }
    Some(sum)
}

/// How many replies these workers put, and that one. None means that the sum passes 64 bits.
fn put_of<T: Ledgers, N: Opening, C: Calls + Drop, S: Workers<C>>(
    others: &[WorkerEnd<T, N, C, S>],
    last: &WorkerEnd<T, N, C, S>,
) -> Option<u64> {
    let mut sum = last.passes.put;
    for end in others {
        sum = sum.checked_add(end.passes.put)?;
    }
    Some(sum)
}

/// The ends of the workers that answer no frame beside the queue.
fn end_others<H: Wait, T: Ledgers, N: Opening, C: Calls + Drop, S: Workers<C>>(
    rt: &H,
    shared_table: &SharedTable<T, N>,
    dirs: &Dirs,
    roles: Vec<WorkerRole<T, N, C, S>>,
    ends: Vec<WorkerEnd<T, N, C, S>>,
) -> Vec<WorkerEnd<T, N, C, S>>
    requires room { vec_len roles ≤ vec_capacity ends }
    requires empty { ends.items ≡ [] }
    ensures none { All (λ e. e.last_job.value ≡ None) result.items }
    ensures len { vec_len result ≡ vec_len roles }
{
    let mut ends = ends;
    for role in roles {
        ends.push_reserved(role.into_end(rt, shared_table, dirs, &None));
    }
    ends
}

/// Offers what is queued, until the writer has taken as many replies as were put.
fn offer_all<H: Wait, T: Ledgers, N: Opening, O: LinkOut + Drop, S: Sink<O>>(
    rt: &H,
    shared_table: &SharedTable<T, N>,
    dirs: &Dirs,
    writer: WriterRole<T, N, O, S>,
    put: Option<u64>,
    spares: SpareBuffers,
) -> WriterRole<T, N, O, S> {
    let mut writer = writer;
    let mut spares = spares;
    for _ in rt.forever() {
        offer_queued(rt, shared_table, dirs, &mut writer, &mut spares);
        if put == Some(writer.writer.got) {
            return writer;
        }
    }
    unreachable!()
}

/// What is left of a session after its last frame was answered and all replies were offered.
#[derive(Drop)]
pub struct Ends<
    T: Ledgers,
    N: Opening,
    I: LinkIn + Drop,
    O: LinkOut + Drop,
    C: Calls + Drop,
    S: Source<I> + Sink<O> + Workers<C>,
> {
    pub shared_table: SharedTable<T, N>,
    pub reader: ReaderRole<I, S>,
    pub writer: WriterRole<T, N, O, S>,
    /// The workers but the last.
    pub others: Vec<WorkerEnd<T, N, C, S>>,
    pub last: WorkerEnd<T, N, C, S>,
}

/// After the threads of a session have ended: the last worker goes on alone until the session is over and no job is left, and then answers
/// the frame that ended it, if one did. The replies that are queued are offered.
pub fn end_all<
    H: Wait,
    T: Ledgers,
    N: Opening,
    I: LinkIn + Drop,
    O: LinkOut + Drop,
    C: Calls + Drop,
    S: Source<I> + Sink<O> + Workers<C>,
>(
    rt: &H,
    alone: Alone<T, N, I, O, S>,
    roles: Vec<WorkerRole<T, N, C, S>>,
    ends: Vec<WorkerEnd<T, N, C, S>>,
) -> Ends<T, N, I, O, C, S>
    requires some { 0 < vec_len roles }
    requires room { vec_len roles ≤ vec_capacity ends }
    requires empty { ends.items ≡ [] }
    ensures none { All (λ e. e.last_job.value ≡ None) result.others.items }
    ensures len { vec_len result.others + 1 ≡ vec_len roles }
    ensures last { result.last.last_job.value ≡ result.reader.reader.last_job }
{
    let mut roles = roles;
    let Some(last) = roles.pop() else {
        unreachable!()
    };
    let others = taken_of(roles.as_slice());
    let (alone, last) = work_alone(rt, alone, last, others);
    let Alone {
        shared_table,
        dirs,
        reader,
        writer,
    } = alone;
    let spares = SpareBuffers::new(last.worker.session.alloc);
    let others = end_others(rt, &shared_table, &dirs, roles, ends);
    let last = last.into_end(rt, &shared_table, &dirs, &reader.reader.last_job);
    let put = put_of(others.as_slice(), &last);
    let writer = offer_all(rt, &shared_table, &dirs, writer, put, spares);
    Ends {
        shared_table,
        reader,
        writer,
        others,
        last,
    }
}

/// Checks off what all threads did against the one history, and combines it.
pub fn check_off<
    H: Wait,
    T: Ledgers,
    N: Opening,
    I: LinkIn + Drop,
    O: LinkOut + Drop,
    C: Calls + Drop,
    S: Source<I> + Sink<O> + Workers<C>,
>(
    rt: &H,
    senders: &Senders,
    ends: Ends<T, N, I, O, C, S>,
    shares: Shares<T>,
    parted: Parted<C>,
    taken: Vec<u64>,
) -> Over<T, N, I, O, C>
    requires few { vec_len ends.others < 4 }
    requires none { All (λ e. e.last_job.value ≡ None) ends.others.items }
    requires last { ends.last.last_job.value ≡ ends.reader.reader.last_job }
    requires given { length S.given ≡ vec_len ends.others + 1 }
    requires jobs { (S.jobs ≡ Some (sends_on senders.now.jobs)) × (S.work ≡ Some (sends_on senders.now.jobs)) }
    requires replies { (S.replies ≡ Some (sends_on senders.now.replies)) × (S.answers ≡ Some (sends_on senders.now.replies)) }
    requires each { (S.parted ≡ vec_len ends.others + 1) × (S.senders ≡ vec_len ends.others + 1) }
    requires room { (4 ≤ vec_capacity parted.passes) × (4 ≤ vec_capacity parted.calls) × (4 ≤ vec_capacity taken) }
    requires empty { (parted.passes.items ≡ []) × (parted.calls.items ≡ []) × (taken.items ≡ []) }
    ensures taken { result.taken.items ≡ map (λ js. length js) (takings_of result.passed.passes.value.items) }
    ensures ran { (settings : Settings) (given : Endpoints I O C) → S.settings ≡ Some settings → S.heard_from ≡ Some given.link_in → S.sent_to ≡ Some given.link_out → S.given ≡ given.calls
        → HasRun (behaviours C.gives I.receives O.sends) settings (did result.closed.table.log) result.passed given (served_with result.link_in result.link_out result.calls.items) }
{
    let mut shares = shares;
    let Ends {
        shared_table,
        reader,
        writer,
        others,
        last,
    } = ends;
    let mut closed = shared_table.close();
    let (read, link_in) = reader.into_end();
    let WriterEnd {
        pass: written,
        got,
        link: link_out,
        is_broken,
        kept,
        mut thread_log,
    } = writer.into_end();
    closed.look(&mut thread_log);
    shares.put(kept);
    let parted = part_all(rt, &mut closed, others, last, parted, &mut shares);
    let passed = passed_by(&read, &written, is_broken, &parted.passes);
    let Parted { passes, calls } = parted;
    let traffic = Traffic::new(read, written, got);
    let taken = gather_all(rt, senders, traffic, passes, taken);
    Over {
        passed,
        taken,
        closed,
        shares,
        calls,
        link_in,
        link_out,
    }
}
