//! Combining the passes of threads that have ended, and how much they took and put.

ghost use Rattle.std.specs.Prelude.{◌≡◌, ◌<◌, ◌≤◌, ◌^◌, [], length, map, true, vec_len, vec_capacity};
ghost use Rattle.std.specs.List.{All, flat_map, range_with_len};
ghost use Rattle.std.specs.Option.{SomeIff};
ghost use Rattle.crossbeam_channel.specs.Claims.{view, IsSeatAt};
ghost use Rattle.crossbeam_channel.specs.Ends.{sends_on};
ghost use Rattle.engine_queues.specs.Jobs.{both, AreTaken};
ghost use Rattle.engine_queues.specs.Replies.{told, AreGot};
ghost use Rattle.engine_queues.specs.Gathered.{AreSeated, IsReading, IsWriting, numbers_of, puts_of, takings_of};

use crate::jobs::{Cut, JobPass, JobSender, Total};
use crate::passes::Passes;
use crate::replies::{ReplyPass, ReplySender, Roles, Whole};

/// How many jobs these workers took together, or `None` if a `u64` cannot hold that many.
pub fn taken_by<J, M>(passes: &[Passes<J, M>]) -> Option<u64>
    ensures { let count = length (flat_map (λ js. js) (takings_of passes.now)) in
        SomeIff result (count < 2 ^ 64) count }
{
    let mut sum = 0u64;
    for worker in passes {
        sum = sum.checked_add(worker.taken)?;
    }
    Some(sum)
}

/// How many replies these workers put together, or `None` if a `u64` cannot hold that many.
pub fn put_by<J, M>(passes: &[Passes<J, M>]) -> Option<u64>
    ensures { let count = length (flat_map (λ rs. rs) (puts_of passes.now)) in
        SomeIff result (count < 2 ^ 64) count }
{
    let mut sum = 0u64;
    for worker in passes {
        sum = sum.checked_add(worker.put)?;
    }
    Some(sum)
}

/// Adds the passes of one worker, the next one by number.
fn take_in<J: Drop, M: Drop>(
    jobs: &JobSender<J>,
    replies: &ReplySender<M>,
    all: &mut JobPass<J>,
    whole: &mut ReplyPass<M>,
    passes: Passes<J, M>,
) -> u64
    requires read { IsSeatAt (sends_on jobs.now) all.old }
    requires parts { 0 < (view all.old).parts }
    requires written { IsSeatAt (sends_on replies.now) whole.old }
    requires gets { (view whole.old).gets ≡ true }
    requires job_pass { IsSeatAt (sends_on jobs.now) passes.job_pass }
    requires reply_pass { IsSeatAt (sends_on replies.now) passes.reply_pass }
    requires next { passes.number ≡ length (view whole.old).known }
    ensures read { IsSeatAt (sends_on jobs.now) all.new }
    ensures both { view all.new ≡ both (view all.old) (view passes.job_pass) }
    ensures written { IsSeatAt (sends_on replies.now) whole.new }
    ensures told { view whole.new ≡ told (view whole.old) (view passes.reply_pass) }
    ensures count { result ≡ length (view passes.job_pass).taken }
{
    let Passes {
        number: _,
        taken,
        put: _,
        job_pass,
        reply_pass,
    } = passes;
    jobs.absorb::<Cut>(all, job_pass);
    replies.absorb::<Roles>(whole, reply_pass);
    taken
}

/// What the passes of the reader, of the workers in order of their numbers, and of the writer say together. As many jobs
/// were taken as were put, and as many replies were got, so neither queue holds anything. How many jobs each worker took
/// is appended to the vector.
pub fn gather<J: Drop, M: Drop>(
    jobs: &JobSender<J>,
    replies: &ReplySender<M>,
    read: JobPass<J>,
    ended: Vec<Passes<J, M>>,
    written: ReplyPass<M>,
    taken: Vec<u64>,
) -> Vec<u64>
    requires read { IsSeatAt (sends_on jobs.now) read }
    requires reading { IsReading (view read) (vec_len ended) }
    requires seats { AreSeated (λ p. IsSeatAt (sends_on jobs.now) p) (λ p. IsSeatAt (sends_on replies.now) p) ended.items }
    requires few { vec_len ended < 8 }
    requires numbers { numbers_of ended.items ≡ range_with_len 0 (vec_len ended) }
    requires written { IsSeatAt (sends_on replies.now) written }
    requires writing { IsWriting (view written) (vec_len ended) }
    requires room { vec_len ended ≤ vec_capacity taken }
    requires empty { taken.items ≡ [] }
    requires all_taken { length (view read).put ≡ length (flat_map (λ js. js) (takings_of ended.items)) }
    requires all_got { length (view written).got ≡ length (flat_map (λ rs. rs) (puts_of ended.items)) }
    ensures taken { result.items ≡ map (λ js. length js) (takings_of ended.items) }
    ensures jobs { AreTaken (view read).put (flat_map (λ js. js) (takings_of ended.items)) }
    ensures replies { AreGot (puts_of ended.items) (view written).got }
{
    let mut all = read;
    let mut whole = written;
    let mut taken = taken;
    for passes in ended {
        taken.push_reserved(take_in(jobs, replies, &mut all, &mut whole, passes));
    }
    jobs.learn_as::<Total>(&mut all);
    replies.learn_as::<Whole>(&mut whole);
    taken
}
