//! The two queues of a session, and their ends.

ghost use Rattle.std.specs.Prelude.{◌≡◌, ◌<◌, ◌≤◌, ◌+◌, [], false, length, None, Some, IfSome};
ghost use Rattle.crossbeam_channel.specs.Claims.{view, IsSeatAt};
ghost use Rattle.crossbeam_channel.specs.Ends.{sends_on, receives_on};
ghost use Rattle.engine_queues.specs.Jobs.{hand};
ghost use Rattle.engine_queues.specs.Replies.{sender};
ghost use Rattle.engine_turns.specs.Writes.{none_got};
ghost use Rattle.engine_threads.specs.Beginning.{IsNewWorker, IsUnread};

use crate::turns::JOINED;
use crossbeam_channel::bounded_with;
use engine::Settings;
use engine_queues::jobs::{Cut, Fair, Hand, JobPass, JobReceiver, JobSender};
use engine_queues::passes::Passes;
use engine_queues::replies::{
    InOrder, QueuedReply, ReplyLane, ReplyPass, ReplyReceiver, ReplySender, Roles,
};
use engine_turns::{Job, JobReply, READ_AT_ONCE, Reader, Worker, Writer};
use std::alloc::Global;
use wire::HEADER_LEN;

/// The capacity of the job queue: more than one receive can bring, which is at most 3,276 frames.
const JOBS: usize = 3_328;

// A receive ends at most the one frame that was begun before it, and brings whole frames of a header's length at least. With a place for
// each of them a session with one worker reads on only once it has room.
const _: () = prove!(READ_AT_ONCE / HEADER_LEN + 1 < JOBS);

/// The capacity of the reply queue: as many replies as four threads may leave in it, so that no thread waits for room.
const REPLIES: usize = 4 * JOINED;

/// The ends into which jobs and replies are put.
pub struct Senders {
    pub jobs: JobSender<Job>,
    pub replies: ReplySender<JobReply>,
}

impl Drop for Senders {
    // This is a call so that code that drops the value is not checked for each part of a queue.
    fn drop(self) {
        let Senders {
            jobs: _,
            replies: _,
        } = self;
    }
}

/// The job queue from which nothing was taken, with all its passes but those of `made` workers.
pub struct JobEnds {
    pub jobs: JobSender<Job>,
    pub work: JobReceiver<Job>,
    pub read: JobPass<Job>,
    pub made: u64,
    ghost one_queue: { receives_on work ≡ sends_on jobs },
    ghost seat: { IsSeatAt (sends_on jobs) read },
    ghost unread: { ((view read).put ≡ []) × (length (view read).taken ≡ 0) },
    ghost parts: { (view read).parts + made ≡ 8 },
}

impl Drop for JobEnds {
    // This is a call for the same reason as for the senders.
    fn drop(self) {
        let JobEnds {
            jobs: _,
            work: _,
            read: _,
            made: _,
        } = self;
    }
}

/// The reply queue from which nothing was taken, of which `made` workers have a pass.
pub struct ReplyEnds {
    pub replies: ReplySender<JobReply>,
    pub writes: ReplyReceiver<JobReply>,
    pub written: ReplyPass<JobReply>,
    pub made: u64,
    ghost one_queue: { receives_on writes ≡ sends_on replies },
    ghost seat: { IsSeatAt (sends_on replies) written },
    ghost unwritten: { view written ≡ none_got made },
}

impl Drop for ReplyEnds {
    // This is a call for the same reason as for the senders.
    fn drop(self) {
        let ReplyEnds {
            replies: _,
            writes: _,
            written: _,
            made: _,
        } = self;
    }
}

/// The end into which jobs are put, and the reader.
#[derive(Drop)]
pub struct JobSide {
    pub jobs: JobSender<Job>,
    pub reader: Reader,
}

/// The end into which replies are put, and the writer.
#[derive(Drop)]
pub struct ReplySide {
    pub replies: ReplySender<JobReply>,
    pub writer: Writer,
}

impl JobEnds {
    /// An empty queue. None means that memory was refused.
    pub fn new(alloc: Global) -> Option<JobEnds>
        ensures { IfSome result (λ q. q.made ≡ 0) }
    {
        let (jobs, work, read) = bounded_with::<Job, Hand<Job>, Fair, Global>(alloc, JOBS).ok()?;
        Some(JobEnds {
            jobs,
            work,
            read,
            made: 0,
        })
    }

    /// The pass of the next worker.
    fn next_pass(&mut self) -> JobPass<Job>
        requires few { self.old.made < 4 }
        ensures seat { IsSeatAt (sends_on self.new.jobs) result }
        ensures unused { view result ≡ hand 1 [] [] }
        ensures same { (sends_on self.new.jobs ≡ sends_on self.old.jobs) × (receives_on self.new.work ≡ receives_on self.old.work) }
        ensures made { self.new.made ≡ self.old.made + 1 }
    {
        let pass = self.jobs.another::<Cut>(&mut self.read);
        self.made += 1;
        pass
    }

    /// The sender, and the reader with a sender of its own. None means that memory was refused.
    pub fn into_reader(self, alloc: Global) -> Option<JobSide>
        requires few { self.made ≤ 4 }
        ensures queue { IfSome result (λ r. (sends_on r.jobs ≡ sends_on self.jobs) × (sends_on r.reader.to ≡ sends_on self.jobs)) }
        ensures parts { IfSome result (λ r. (view r.reader.pass).parts + self.made ≡ 8) }
        ensures unread { IfSome result (λ r. IsUnread r.reader) }
    {
        let JobEnds {
            jobs,
            work: _,
            read,
            made: _,
        } = self;
        let to = jobs.try_clone().ok()?;
        let reader = Reader::new(alloc, to, read).ok()?;
        Some(JobSide { jobs, reader })
    }
}

impl ReplyEnds {
    /// An empty queue. None means that memory was refused.
    pub fn new(alloc: Global) -> Option<ReplyEnds>
        ensures { IfSome result (λ q. q.made ≡ 0) }
    {
        let (replies, writes, written) = bounded_with::<
            QueuedReply<JobReply>,
            ReplyLane<JobReply>,
            InOrder,
            Global,
        >(alloc, REPLIES).ok()?;
        Some(ReplyEnds {
            replies,
            writes,
            written,
            made: 0,
        })
    }

    /// The pass of the next worker.
    fn next_pass(&mut self) -> ReplyPass<JobReply>
        requires few { self.old.made < 4 }
        ensures seat { IsSeatAt (sends_on self.new.replies) result }
        ensures unused { view result ≡ sender self.old.made [] }
        ensures same { sends_on self.new.replies ≡ sends_on self.old.replies }
        ensures made { self.new.made ≡ self.old.made + 1 }
    {
        let pass = self.replies.another::<Roles>(&mut self.written);
        self.made += 1;
        pass
    }

    /// The sender, and the writer. None means that memory was refused.
    pub fn into_writer(self, alloc: Global) -> Option<ReplySide>
        ensures queue { IfSome result (λ w. (sends_on w.replies ≡ sends_on self.replies) × (receives_on w.writer.replies ≡ sends_on self.replies)) }
        ensures unsent { IfSome result (λ w. (view w.writer.pass ≡ none_got self.made) × (w.writer.is_broken ≡ false)) }
    {
        let ReplyEnds {
            replies,
            writes,
            written,
            made: _,
        } = self;
        let writer = Writer::new(alloc, writes, written).ok()?;
        Some(ReplySide { replies, writer })
    }
}

/// The next worker, with its ends of both queues. None means that memory was refused.
pub fn next_worker(
    alloc: Global,
    settings: Settings,
    job_ends: &mut JobEnds,
    reply_ends: &mut ReplyEnds,
) -> Option<Worker>
    requires few { job_ends.old.made < 4 }
    requires same { reply_ends.old.made ≡ job_ends.old.made }
    ensures queues { (sends_on job_ends.new.jobs ≡ sends_on job_ends.old.jobs) × (sends_on reply_ends.new.replies ≡ sends_on reply_ends.old.replies) }
    ensures made { (job_ends.new.made ≡ job_ends.old.made + 1) × (reply_ends.new.made ≡ reply_ends.old.made + 1) }
    ensures is_new { IfSome result (IsNewWorker (sends_on job_ends.old.jobs) (sends_on reply_ends.old.replies) settings job_ends.old.made) }
{
    let number = job_ends.made;
    let passes = Passes {
        number,
        taken: 0,
        put: 0,
        job_pass: job_ends.next_pass(),
        reply_pass: reply_ends.next_pass(),
    };
    let work = job_ends.work.try_clone().ok()?;
    let replies = reply_ends.replies.try_clone().ok()?;
    Some(Worker::new(alloc, settings, work, replies, passes))
}
