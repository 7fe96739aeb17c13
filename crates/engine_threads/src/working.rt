//! What each thread runs, from its beginning to its end.

ghost use Rattle.std.specs.Prelude.{◌≡◌};

use crate::origins::Workers;
use crate::resting::Rest;
use crate::session_state::Common;
use crate::turns::{Pace, take_turns};
use crate::worker_role::WorkerRole;
use backing::Calls;
use engine::{LinkIn, LinkOut, Served};
use engine_turns::{Sink, Source, TableHandle};
use ledger::Ledgers;
use std::sync::Wait;
use table_shared::Opening;

/// Takes turns until the session is over and nothing is left to do.
pub fn work<
    H: Wait + Drop,
    T: Ledgers,
    N: Opening,
    I: LinkIn + Drop,
    O: LinkOut + Drop,
    C: Calls + Drop,
    S: Source<I> + Sink<O> + Workers<C>,
>(role: WorkerRole<T, N, C, S>, common: &Common<H, T, N, I, O, S>) -> WorkerRole<T, N, C, S> {
    let WorkerRole {
        mut worker,
        mut kept,
        thread_log,
        calls,
        workers: _,
    } = role;
    let dirs = &common.dirs;
    let mut served = Served { calls, dirs };
    let number = worker.number as usize;
    let mut table_handle = TableHandle::new(&common.rt, &common.shared_table, thread_log);
    let mut rest = Rest::new(number);
    let mut pace = Pace::new();
    for _ in common.rt.forever() {
        // This is read before the turns: after the session is over nothing more comes.
        let is_over = common.signs.is_over();
        rest.look(common, worker.taken);
        if take_turns(
            common,
            &mut worker,
            &mut table_handle,
            &mut kept,
            &mut served,
            &mut pace,
        ) {
            rest.rise(common, worker.taken, &mut pace);
        } else if is_over {
            let Served { calls, dirs: _ } = served;
            return WorkerRole::again(worker, kept, table_handle.into_log(), calls);
        } else {
            rest.sink(common);
        }
    }
    unreachable!()
}
