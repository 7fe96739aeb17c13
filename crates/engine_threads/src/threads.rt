//! Starting a thread for each worker, and waiting for their end.

ghost use Rattle.std.specs.Prelude.{◌≤◌, [], ◌≡◌, vec_len, vec_capacity};

use crate::origins::Workers;
use crate::session_state::Common;
use crate::worker_role::WorkerRole;
use crate::working::work;
use backing::Calls;
use engine::{LinkIn, LinkOut};
use engine_turns::{Sink, Source};
use ledger::Ledgers;
use std::sync::Wait;
use std::thread;
use std::thread::{JoinHandle, Scope, Threads};
use table_shared::Opening;

/// A worker that was started. If the system refuses a thread, the thread that starts the others takes its place, and the next is started
/// once the session is over.
#[derive(Drop)]
pub enum Started<T: Ledgers, N: Opening, C: Calls + Drop, S: Workers<C>> {
    Thread(JoinHandle<WorkerRole<T, N, C, S>>),
    Ended(WorkerRole<T, N, C, S>),
}

/// Starts a worker.
fn start_one<
    's,
    E,
    H: Wait + Sync + Drop + 's,
    T: Ledgers + Send + Sync + 's,
    N: Opening + Send + Sync + 's,
    I: LinkIn + Send + Drop + 's,
    O: LinkOut + Send + Drop + 's,
    C: Calls + Send + Drop + 's,
    S: Source<I> + Sink<O> + Workers<C> + Send + Sync + 's,
>(
    scope: &Scope<'s, E>,
    common: &'s Common<H, T, N, I, O, S>,
    role: WorkerRole<T, N, C, S>,
) -> Started<T, N, C, S> {
    match scope.spawn(move || work(role, common)) {
        Ok(handle) => Started::Thread(handle),
        Err(refused) => Started::Ended((refused.value)()),
    }
}

/// Starts all workers.
fn start_all<
    's,
    E,
    H: Wait + Sync + Drop + 's,
    T: Ledgers + Send + Sync + 's,
    N: Opening + Send + Sync + 's,
    I: LinkIn + Send + Drop + 's,
    O: LinkOut + Send + Drop + 's,
    C: Calls + Send + Drop + 's,
    S: Source<I> + Sink<O> + Workers<C> + Send + Sync + 's,
>(
    scope: &Scope<'s, E>,
    common: &'s Common<H, T, N, I, O, S>,
    roles: Vec<WorkerRole<T, N, C, S>>,
    started: Vec<Started<T, N, C, S>>,
) -> Vec<Started<T, N, C, S>>
    requires room { vec_len roles ≤ vec_capacity started }
    requires empty { started.items ≡ [] }
    ensures { vec_len result ≡ vec_len roles }
{
    let mut started = started;
    for role in roles {
        started.push_reserved(start_one(scope, common, role));
    }
    started
}

/// The workers after their ends, in the same order.
fn join_all<
    H: Threads,
    T: Ledgers + Send + 'static,
    N: Opening + Send + 'static,
    C: Calls + Send + Drop + 'static,
    S: Workers<C> + Send + 'static,
>(
    rt: &H,
    started: Vec<Started<T, N, C, S>>,
    ended: Vec<WorkerRole<T, N, C, S>>,
) -> Vec<WorkerRole<T, N, C, S>>
    requires room { vec_len started ≤ vec_capacity ended }
    requires empty { ended.items ≡ [] }
    ensures { vec_len result ≡ vec_len started }
{
    let mut ended = ended;
    for one in started {
        let role = match one {
            Started::Thread(handle) => handle.join(rt),
            Started::Ended(role) => role,
        };
        ended.push_reserved(role);
    }
    ended
}

/// Runs the workers, each on a thread of its own, until all have ended.
pub fn run_all<
    H: Threads + Wait + Sync + Drop + 'static,
    T: Ledgers + Send + Sync + 'static,
    N: Opening + Send + Sync + 'static,
    I: LinkIn + Send + Drop + 'static,
    O: LinkOut + Send + Drop + 'static,
    C: Calls + Send + Drop + 'static,
    S: Source<I> + Sink<O> + Workers<C> + Send + Sync + 'static,
>(
    rt: &H,
    common: &Common<H, T, N, I, O, S>,
    roles: Vec<WorkerRole<T, N, C, S>>,
    started: Vec<Started<T, N, C, S>>,
    ended: Vec<WorkerRole<T, N, C, S>>,
) -> Vec<WorkerRole<T, N, C, S>>
    requires room { vec_len roles ≤ vec_capacity started }
    requires empty { started.items ≡ [] }
    requires room_at_end { vec_len roles ≤ vec_capacity ended }
    requires none_ended { ended.items ≡ [] }
    ensures { vec_len result ≡ vec_len roles }
{
    thread::scope(
        thread::scope_env(),
        rt,
        move |scope| -> Vec<WorkerRole<T, N, C, S>>
            requires { (vec_len roles ≤ vec_capacity started) × (started.items ≡ []) × (vec_len roles ≤ vec_capacity ended) × (ended.items ≡ []) }
            ensures { vec_len result ≡ vec_len roles }
        { join_all(rt, start_all(scope, common, roles, started), ended) },
    )
}
