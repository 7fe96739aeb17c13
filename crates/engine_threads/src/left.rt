//! What is left of the workers, checked off against the one history.

ghost use Rattle.std.specs.Prelude.{◌≡◌, ◌<◌, ◌≤◌, ◌+◌, ℕ, [], None, length, vec_len, vec_capacity};
ghost use Rattle.std.specs.List.{All, range_with_len};
ghost use Rattle.ledger.specs.Shares.{Part};
ghost use Rattle.engine_queues.specs.Gathered.{numbers_of};
ghost use Rattle.engine_threads.specs.Worked.{did, does_shared, made_by, AreSeatedAt, HasEnded, IsSenderAt, IsTakerAt, WorkedAt, WorkedEach};

use crate::origins::Workers;
use crate::worker_end::WorkerEnd;
use backing::Calls;
use engine_queues::passes::Passes;
use engine_turns::{Job, JobReply, Shares, wait_unless};
use ledger::Ledgers;
use std::sync::Wait;
use table_shared::{Closed, Opening};

/// What the workers did with the queues, and their directories, in order of their numbers.
#[derive(Drop)]
pub struct Parted<C: Calls + Drop> {
    pub passes: Vec<Passes<Job, JobReply>>,
    pub calls: Vec<C>,
}

/// Does not return if that is not the next number: the workers were started and have ended in order.
fn wait_unless_next<H: Wait>(rt: &H, passes: &Passes<Job, JobReply>, next: usize)
    ensures { passes.now.number ≡ next }
{
    wait_unless(rt, passes.number == next as u64);
}

/// What the next worker did is what the history has of it. Its share is given back.
fn part<H: Wait, T: Ledgers, N: Opening, C: Calls + Drop, S: Workers<C>>(
    rt: &H,
    closed: &mut Closed<T, N>,
    end: WorkerEnd<T, N, C, S>,
    next: usize,
    shares: &mut Shares<T>,
) -> (Passes<Job, JobReply>, C)
    ensures number { result.0.number ≡ next }
    ensures seats { IsTakerAt S.work result.0.job_pass × IsSenderAt S.answers result.0.reply_pass }
    ensures worked { ∥ ((share : Part) × HasEnded (does_shared C.gives) S.settings S.given end.last_job.value result.0 result.1 share (made_by (did closed.old.table.log) next)) ∥₁ }
    ensures same { closed.new.table.log ≡ closed.old.table.log }
{
    let WorkerEnd {
        passes,
        kept,
        mut thread_log,
        calls,
        last_job: _,
        workers: _,
    } = end;
    wait_unless_next(rt, &passes, next);
    closed.look(&mut thread_log);
    shares.put(kept);
    (passes, calls)
}

/// The same for all workers but the last, which answered no frame beside the queue.
fn part_others<H: Wait, T: Ledgers, N: Opening, C: Calls + Drop, S: Workers<C>>(
    rt: &H,
    closed: &mut Closed<T, N>,
    ends: Vec<WorkerEnd<T, N, C, S>>,
    parted: Parted<C>,
    shares: &mut Shares<T>,
) -> Parted<C>
    requires room { (vec_len ends ≤ vec_capacity parted.passes) × (vec_len ends ≤ vec_capacity parted.calls) }
    requires empty { (parted.passes.items ≡ []) × (parted.calls.items ≡ []) }
    requires none { All (λ e. e.last_job.value ≡ None) ends.items }
    ensures len { (vec_len result.passes ≡ vec_len ends) × (vec_len result.calls ≡ vec_len ends) }
    ensures capacity { (vec_capacity result.passes ≡ vec_capacity parted.passes) × (vec_capacity result.calls ≡ vec_capacity parted.calls) }
    ensures numbers { numbers_of result.passes.items ≡ range_with_len 0 (vec_len ends) }
    ensures seats { AreSeatedAt S.work S.answers result.passes.items }
    ensures worked { (n : ℕ) → n < vec_len ends → ∥ WorkedAt (does_shared C.gives) S.settings (did closed.old.table.log) None S.given result.passes.items result.calls.items n ∥₁ }
    ensures same { closed.new.table.log ≡ closed.old.table.log }
{
    let Parted {
        mut passes,
        mut calls,
    } = parted;
    for end in ends {
        let (own, left) = part(rt, closed, end, passes.len(), shares);
        passes.push_reserved(own);
        calls.push_reserved(left);
    }
    Parted { passes, calls }
}

/// The same for all workers, of which the last answered the frame that ended the session, if one did.
pub fn part_all<H: Wait, T: Ledgers, N: Opening, C: Calls + Drop, S: Workers<C>>(
    rt: &H,
    closed: &mut Closed<T, N>,
    others: Vec<WorkerEnd<T, N, C, S>>,
    last: WorkerEnd<T, N, C, S>,
    parted: Parted<C>,
    shares: &mut Shares<T>,
) -> Parted<C>
    requires room { (vec_len others < vec_capacity parted.passes) × (vec_len others < vec_capacity parted.calls) }
    requires empty { (parted.passes.items ≡ []) × (parted.calls.items ≡ []) }
    requires none { All (λ e. e.last_job.value ≡ None) others.items }
    requires given { length S.given ≡ vec_len others + 1 }
    ensures len { (vec_len result.passes ≡ vec_len others + 1) × (vec_len result.calls ≡ vec_len others + 1) }
    ensures numbers { numbers_of result.passes.items ≡ range_with_len 0 (vec_len others + 1) }
    ensures seats { AreSeatedAt S.work S.answers result.passes.items }
    ensures worked { WorkedEach (does_shared C.gives) S.settings (did closed.old.table.log) last.last_job.value S.given result.passes.items result.calls.items }
    ensures same { closed.new.table.log ≡ closed.old.table.log }
{
    let Parted {
        mut passes,
        mut calls,
    } = part_others(rt, closed, others, parted, shares);
    let (own, left) = part(rt, closed, last, passes.len(), shares);
    passes.push_reserved(own);
    calls.push_reserved(left);
    Parted { passes, calls }
}
