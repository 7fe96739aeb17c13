//! Running a session that was prepared, from the start of its threads to their end.

ghost use Rattle.std.specs.Prelude.{◌≡◌, ◌<◌, ◌≤◌, [], length, map, Some, IfSome, IfOk, IfErr, vec_len, vec_capacity};
ghost use Rattle.std.specs.List.{All, range_with_len};
ghost use Rattle.crossbeam_channel.specs.Ends.{sends_on};
ghost use Rattle.engine_queues.specs.Gathered.{takings_of};
ghost use Rattle.engine_turns.specs.TableCalls.{on_table_of};
ghost use Rattle.engine_threads.specs.Beginning.{IsReadyHere};
ghost use Rattle.engine_threads.specs.Served.{behaviours, served_with, HasRun};
ghost use Rattle.engine_threads.specs.Worked.{did};

use crate::alone::Alone;
use crate::finishing::{EndRoom, Over, check_off, end_all};
use crate::given::Given;
use crate::origins::Workers;
use crate::preparing::{Prepared, ReadyWorker};
use crate::session_state::{Common, Signs};
use crate::threads::{Started, run_all};
use crate::worker_role::WorkerRole;
use backing::Calls;
use engine::{LinkIn, LinkOut};
use engine_turns::{ReaderRole, Sink, Sleepers, Source, WriterRole};
use handles::Dirs;
use ledger::Ledgers;
use std::alloc::Global;
use std::sync::{Mutex, Wait};
use std::thread::Threads;
use table_shared::{Opening, SharedTable};

/// Room for the workers, which is made before the session begins.
#[derive(Drop)]
pub struct Room<T: Ledgers, N: Opening, C: Calls + Drop, S: Workers<C>> {
    pub roles: Vec<WorkerRole<T, N, C, S>>,
    pub started: Vec<Started<T, N, C, S>>,
    pub ended: Vec<WorkerRole<T, N, C, S>>,
    pub at_end: EndRoom<T, N, C, S>,
    ghost roles_room: { (4 ≤ vec_capacity roles) × (roles.items ≡ []) },
    ghost started_room: { (4 ≤ vec_capacity started) × (started.items ≡ []) },
    ghost ended_room: { (4 ≤ vec_capacity ended) × (ended.items ≡ []) },
}

/// An empty vector with room for four items. None means that memory was refused.
fn room_for_four<X: Drop>(alloc: Global) -> Option<Vec<X>>
    ensures { IfSome result (λ v. (4 ≤ vec_capacity v) × (v.items ≡ [])) }
{
    Vec::with_capacity(alloc, 4).ok()
}

impl<T: Ledgers, N: Opening, C: Calls + Drop, S: Workers<C>> Room<T, N, C, S> {
    /// Room for four workers. None means that memory was refused.
    fn new(alloc: Global) -> Option<Room<T, N, C, S>> {
        let at_end = EndRoom::new(alloc)?;
        let roles = room_for_four(alloc)?;
        let started = room_for_four(alloc)?;
        let ended = room_for_four(alloc)?;
        Some(Room {
            roles,
            started,
            ended,
            at_end,
        })
    }
}

/// Gives each worker its directory.
fn with_directories<T: Ledgers, N: Opening, C: Calls + Drop, S: Workers<C>>(
    workers: Vec<ReadyWorker<T, N>>,
    calls: Vec<C>,
    roles: Vec<WorkerRole<T, N, C, S>>,
) -> Vec<WorkerRole<T, N, C, S>>
    requires each { vec_len workers ≡ vec_len calls }
    requires room { vec_len workers ≤ vec_capacity roles }
    requires empty { roles.items ≡ [] }
    requires ready { All (λ w. IsReadyHere S.work S.answers S.settings w.worker w.kept.share (on_table_of w.thread_log)) workers.items }
    requires numbers { map (λ w. w.worker.number) workers.items ≡ range_with_len 0 (vec_len workers) }
    requires given { S.given ≡ calls.items }
    ensures { vec_len result ≡ vec_len workers }
{
    let mut roles = roles;
    let mut left = calls.into_iter();
    for one in workers {
        let ReadyWorker {
            worker,
            kept,
            thread_log,
        } = one;
        let Some(calls) = left.next() else {
            unreachable!()
        };
        roles.push_reserved(WorkerRole::new(worker, kept, thread_log, calls));
    }
    roles
}

/// What the threads of a session share, with both roles at their beginning.
fn common_of<
    H: Drop,
    T: Ledgers,
    N: Opening,
    I: LinkIn + Drop,
    O: LinkOut + Drop,
    S: Source<I> + Sink<O>,
>(
    rt: H,
    shared_table: SharedTable<T, N>,
    dirs: Dirs,
    reader: ReaderRole<I, S>,
    writer: WriterRole<T, N, O, S>,
) -> Common<H, T, N, I, O, S> {
    Common {
        rt,
        shared_table,
        dirs,
        reader: Mutex::new(reader),
        writer: Mutex::new(writer),
        sleepers: Sleepers::new(),
        signs: Signs::new(),
    }
}

/// Serves a session that was prepared, with links and directories.
fn serve_in<
    H: Threads + Wait + Sync + Drop + 'static,
    T: Ledgers + Send + Sync + 'static,
    N: Opening + Send + Sync + 'static,
    I: LinkIn + Send + Drop + 'static,
    O: LinkOut + Send + Drop + 'static,
    C: Calls + Send + Drop + 'static,
    S: Source<I> + Sink<O> + Workers<C> + Send + Sync + 'static,
>(
    rt: &H,
    own_rt: H,
    prepared: Prepared<T, N>,
    given: Given<I, O, C>,
    room: Room<T, N, C, S>,
) -> Over<T, N, I, O, C>
    requires each { vec_len prepared.workers ≡ vec_len given.calls }
    requires some { 0 < vec_len given.calls }
    requires few { vec_len given.calls ≤ 4 }
    requires jobs { (S.jobs ≡ Some (sends_on prepared.senders.jobs)) × (S.work ≡ Some (sends_on prepared.senders.jobs)) }
    requires replies { (S.replies ≡ Some (sends_on prepared.senders.replies)) × (S.answers ≡ Some (sends_on prepared.senders.replies)) }
    requires counts { (S.parted ≡ vec_len given.calls) × (S.senders ≡ vec_len given.calls) }
    requires links { (S.heard_from ≡ Some given.link_in) × (S.sent_to ≡ Some given.link_out) }
    requires workers { (S.settings ≡ Some prepared.settings) × (S.given ≡ given.calls.items) }
    ensures taken { result.taken.items ≡ map (λ js. length js) (takings_of result.passed.passes.value.items) }
    ensures ran { HasRun (behaviours C.gives I.receives O.sends) prepared.settings (did result.closed.table.log) result.passed (served_with given.link_in given.link_out given.calls.items) (served_with result.link_in result.link_out result.calls.items) }
{
    let Prepared {
        settings: _,
        shared_table,
        dirs,
        senders,
        reader,
        writer,
        kept,
        thread_log,
        workers,
        shares,
    } = prepared;
    let Given {
        link_in,
        link_out,
        calls,
    } = given;
    let Room {
        roles,
        started,
        ended,
        at_end,
    } = room;
    let EndRoom {
        ends,
        parted,
        taken,
    } = at_end;
    let roles = with_directories(workers, calls, roles);
    let reader = ReaderRole::new(reader, link_in);
    let writer = WriterRole::new(writer, link_out, kept, thread_log);
    let common = common_of(own_rt, shared_table, dirs, reader, writer);
    let roles = run_all(rt, &common, roles, started, ended);
    let ends = end_all(rt, Alone::new(common), roles, ends);
    check_off(rt, &senders, ends, shares, parted, taken)
}

/// Serves a session that was prepared. If memory is refused, nothing was received, and all comes back.
pub fn serve_prepared<
    H: Threads + Wait + Sync + Drop + 'static,
    T: Ledgers + Send + Sync + 'static,
    N: Opening + Send + Sync + 'static,
    I: LinkIn + Send + Drop + 'static,
    O: LinkOut + Send + Drop + 'static,
    C: Calls + Send + Drop + 'static,
    S: Source<I> + Sink<O> + Workers<C> + Send + Sync + 'static,
>(
    rt: &H,
    alloc: Global,
    own_rt: H,
    prepared: Prepared<T, N>,
    given: Given<I, O, C>,
) -> Result<Over<T, N, I, O, C>, Given<I, O, C>>
    requires each { vec_len prepared.workers ≡ vec_len given.calls }
    requires some { 0 < vec_len given.calls }
    requires few { vec_len given.calls ≤ 4 }
    requires jobs { (S.jobs ≡ Some (sends_on prepared.senders.jobs)) × (S.work ≡ Some (sends_on prepared.senders.jobs)) }
    requires replies { (S.replies ≡ Some (sends_on prepared.senders.replies)) × (S.answers ≡ Some (sends_on prepared.senders.replies)) }
    requires counts { (S.parted ≡ vec_len given.calls) × (S.senders ≡ vec_len given.calls) }
    requires links { (S.heard_from ≡ Some given.link_in) × (S.sent_to ≡ Some given.link_out) }
    requires workers { (S.settings ≡ Some prepared.settings) × (S.given ≡ given.calls.items) }
    ensures unserved { IfErr result (λ back. back ≡ given) }
    ensures taken { IfOk result (λ o. o.taken.items ≡ map (λ js. length js) (takings_of o.passed.passes.value.items)) }
    ensures ran { IfOk result (λ o. HasRun (behaviours C.gives I.receives O.sends) prepared.settings (did o.closed.table.log) o.passed (served_with given.link_in given.link_out given.calls.items) (served_with o.link_in o.link_out o.calls.items)) }
{
    match Room::<T, N, C, S>::new(alloc) {
        Some(room) => Ok(serve_in(rt, own_rt, prepared, given, room)),
        None => Err(given),
    }
}
