//! What the starting thread does after all others have ended, with nobody beside it.

ghost use Rattle.std.specs.Prelude.{◌≡◌};

use crate::origins::Workers;
use crate::session_state::Common;
use crate::turns::offer_queued;
use crate::waiting::wait_if_returned;
use crate::worker_role::WorkerRole;
use backing::Calls;
use engine::{LinkIn, LinkOut, Served};
use engine_turns::{ReaderRole, Sink, Source, SpareBuffers, TableHandle, Turn, WriterRole};
use handles::Dirs;
use ledger::Ledgers;
use std::sync::Wait;
use table_shared::{Opening, SharedTable};

/// What the threads of a session shared, after all of them have ended.
#[derive(Drop)]
pub struct Alone<
    T: Ledgers,
    N: Opening,
    I: LinkIn + Drop,
    O: LinkOut + Drop,
    S: Source<I> + Sink<O>,
> {
    pub shared_table: SharedTable<T, N>,
    pub dirs: Dirs,
    pub reader: ReaderRole<I, S>,
    pub writer: WriterRole<T, N, O, S>,
}

impl<T: Ledgers, N: Opening, I: LinkIn + Drop, O: LinkOut + Drop, S: Source<I> + Sink<O>> Alone<
    T,
    N,
    I,
    O,
    S,
> {
    /// What the threads shared.
    pub fn new<H: Drop>(common: Common<H, T, N, I, O, S>) -> Alone<T, N, I, O, S> {
        let Common {
            rt: _,
            shared_table,
            dirs,
            reader,
            writer,
            sleepers: _,
            signs: _,
        } = common;
        Alone {
            shared_table,
            dirs,
            reader: reader.into_inner(),
            writer: writer.into_inner(),
        }
    }
}

/// Whether as many jobs were taken as were queued; `others` is how many others took.
fn are_all_taken(queued: u64, others: Option<u64>, taken: u64) -> bool {
    match others {
        Some(others) => others.checked_add(taken) == Some(queued),
        None => false,
    }
}

/// Goes on with the last worker until the session is over and each job that was queued was taken. The threads leave nothing to do, unless
/// the system gave none. `others` is how many jobs the other workers took.
pub fn work_alone<
    H: Wait,
    T: Ledgers,
    N: Opening,
    I: LinkIn + Drop,
    O: LinkOut + Drop,
    C: Calls + Drop,
    S: Source<I> + Sink<O> + Workers<C>,
>(
    rt: &H,
    alone: Alone<T, N, I, O, S>,
    role: WorkerRole<T, N, C, S>,
    others: Option<u64>,
) -> (Alone<T, N, I, O, S>, WorkerRole<T, N, C, S>) {
    let Alone {
        shared_table,
        dirs,
        mut reader,
        mut writer,
    } = alone;
    let WorkerRole {
        mut worker,
        mut kept,
        thread_log,
        calls,
        workers: _,
    } = role;
    let mut spares = SpareBuffers::new(worker.session.alloc);
    let mut served = Served { calls, dirs: &dirs };
    let mut table_handle = TableHandle::new(rt, &shared_table, thread_log);
    for _ in rt.forever() {
        offer_queued(rt, &shared_table, &dirs, &mut writer, &mut spares);
        match worker.turn(&mut table_handle, &mut kept.share, &mut served) {
            Turn::Worked(_settled) => wait_if_returned(rt, &worker),
            Turn::Nothing => {
                if reader.end.is_none() && !writer.writer.is_broken {
                    reader.turn(rt, &mut spares);
                } else if are_all_taken(reader.reader.next, others, worker.taken) {
                    let Served { calls, dirs: _ } = served;
                    let role = WorkerRole::again(worker, kept, table_handle.into_log(), calls);
                    let alone = Alone {
                        shared_table,
                        dirs,
                        reader,
                        writer,
                    };
                    return (alone, role);
                }
            }
        }
    }
    unreachable!()
}
