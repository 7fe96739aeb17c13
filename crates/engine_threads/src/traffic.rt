//! What the threads of a session did with its queues, combined.

ghost use Rattle.std.specs.Prelude.{◌≡◌, ◌≤◌, [], length, map, IsTrue, Some, vec_len, vec_capacity};
ghost use Rattle.std.specs.List.{flat_map, range_with_len};
ghost use Rattle.crossbeam_channel.specs.Claims.{view, IsSeatAt};
ghost use Rattle.crossbeam_channel.specs.Ends.{sends_on};
ghost use Rattle.engine_queues.specs.Gathered.{numbers_of, puts_of, takings_of, IsReading, IsWriting};
ghost use Rattle.engine_queues.specs.Jobs.{AreTaken};
ghost use Rattle.engine_queues.specs.Replies.{AreGot};
ghost use Rattle.engine_threads.specs.Worked.{AreSeatedAt};

use crate::ended::Passed;
use crate::queue_ends::Senders;
use engine_queues::gathering::{gather, put_by, taken_by};
use engine_queues::jobs::JobPass;
use engine_queues::passes::Passes;
use engine_queues::replies::ReplyPass;
use engine_turns::{Job, JobReply, ReaderEnd, wait_unless};
use std::snapshot::Snapshot;
use std::sync::Wait;

/// What the reader put and what the writer took.
#[derive(Drop)]
pub struct Traffic {
    pub read: JobPass<Job>,
    pub put: u64,
    pub written: ReplyPass<JobReply>,
    pub got: u64,
    ghost put_counted: { length (view read).put ≡ put },
    ghost got_counted: { length (view written).got ≡ got },
}

impl Traffic {
    pub fn new(read: ReaderEnd, written: ReplyPass<JobReply>, got: u64) -> Traffic
        requires { length (view written).got ≡ got }
        ensures { (result.read ≡ read.pass) × (result.written ≡ written) }
    {
        let ReaderEnd {
            pass,
            end: _,
            last_job: _,
            put,
        } = read;
        Traffic {
            read: pass,
            put,
            written,
            got,
        }
    }
}

/// What the threads did with the queues and the link in.
pub fn passed_by(
    read: &ReaderEnd,
    written: &ReplyPass<JobReply>,
    is_broken: bool,
    passes: &Vec<Passes<Job, JobReply>>,
) -> Passed
    ensures read { (result.input ≡ read.now.end) × (result.read.value ≡ read.now.pass) × (result.last_job.value ≡ read.now.last_job) }
    ensures written { (result.written.value ≡ written.now) × (result.is_broken ≡ is_broken) }
    ensures passes { result.passes.value ≡ passes.now }
{
    Passed {
        input: read.end,
        is_broken,
        read: Snapshot::of(&read.pass),
        last_job: Snapshot::of(&read.last_job),
        written: Snapshot::of(written),
        passes: Snapshot::of(passes),
    }
}

/// Whether they took that many jobs.
fn have_taken(passes: &[Passes<Job, JobReply>], put: u64) -> bool
    ensures { IsTrue result → put ≡ length (flat_map (λ js. js) (takings_of passes.now)) }
{
    match taken_by(passes) {
        Some(sum) => sum == put,
        None => false,
    }
}

/// Whether they put that many replies.
fn have_put(passes: &[Passes<Job, JobReply>], got: u64) -> bool
    ensures { IsTrue result → got ≡ length (flat_map (λ rs. rs) (puts_of passes.now)) }
{
    match put_by(passes) {
        Some(sum) => sum == got,
        None => false,
    }
}

/// Does not return unless they took all jobs that were put and the writer got all replies: the session was not over before.
fn wait_unless_all<H: Wait>(rt: &H, passes: &[Passes<Job, JobReply>], put: u64, got: u64)
    ensures taken { put ≡ length (flat_map (λ js. js) (takings_of passes.now)) }
    ensures got { got ≡ length (flat_map (λ rs. rs) (puts_of passes.now)) }
{
    wait_unless(rt, have_taken(passes, put) && have_put(passes, got));
}

/// Combines what was done: how many jobs each worker took, and that no job and no reply is left. It would wait forever if one were.
pub fn gather_all<H: Wait>(
    rt: &H,
    senders: &Senders,
    traffic: Traffic,
    passes: Vec<Passes<Job, JobReply>>,
    taken: Vec<u64>,
) -> Vec<u64>
    requires read { IsSeatAt (sends_on senders.now.jobs) traffic.read }
    requires reading { IsReading (view traffic.read) (vec_len passes) }
    requires seats { AreSeatedAt (Some (sends_on senders.now.jobs)) (Some (sends_on senders.now.replies)) passes.items }
    requires few { vec_len passes ≤ 4 }
    requires numbers { numbers_of passes.items ≡ range_with_len 0 (vec_len passes) }
    requires written { IsSeatAt (sends_on senders.now.replies) traffic.written }
    requires writing { IsWriting (view traffic.written) (vec_len passes) }
    requires room { (4 ≤ vec_capacity taken) × (taken.items ≡ []) }
    ensures taken { result.items ≡ map (λ js. length js) (takings_of passes.items) }
    ensures jobs { AreTaken (view traffic.read).put (flat_map (λ js. js) (takings_of passes.items)) }
    ensures replies { AreGot (puts_of passes.items) (view traffic.written).got }
{
    let Traffic {
        read,
        put,
        written,
        got,
    } = traffic;
    wait_unless_all(rt, passes.as_slice(), put, got);
    gather(
        &senders.jobs,
        &senders.replies,
        read,
        passes,
        written,
        taken,
    )
}
