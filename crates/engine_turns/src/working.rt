//! A worker's turns.

ghost use Rattle.std.specs.Prelude.{◌≡◌, ◌<◌, ◌+◌, ◌^◌, ◌⊎◌, length, true, Some, Option};
ghost use Rattle.crossbeam_channel.specs.Claims.{view, IsSeatAt};
ghost use Rattle.crossbeam_channel.specs.Ends.{sends_on, receives_on};
ghost use Rattle.table_steps.specs.Answers.{Settlement};
ghost use Rattle.engine.specs.Batches.{bytes_of};
ghost use Rattle.engine.specs.Serving.{does};
ghost use Rattle.engine_turns.specs.TableCalls.{left_in, on_table_of, turn_end_of};
ghost use Rattle.engine_turns.specs.Rights.{IsRight};
ghost use Rattle.engine_turns.specs.ReplyBuffers.{bytes_in};
ghost use Rattle.engine_turns.specs.Turns.{AnswersJob, ByBoth, PutsReply, Worked, ending, means, outbox, standing};

use crate::job::Job;
use crate::meeting::meet_job;
use crate::replies::JobReply;
use crate::settling::settle_left;
use crate::spare_buffers::SpareBuffers;
use crate::table_handle::{TableHandle, TurnResult};
use backing::Calls;
use engine::{ReplyBytes, Served, Session, Settings};
use engine_queues::jobs::{JobPass, JobReceiver, Takes};
use engine_queues::passes::Passes;
use engine_queues::replies::{Posts, QueuedReply, ReplyPass, ReplySender};
use handles::Folders;
use ledger::{Ledgers, Share};
use std::alloc::Global;
use std::sync::Wait;
use table::Settled;
use table_shared::Opening;

/// What a turn did.
#[derive(Drop)]
pub enum Turn {
    /// It handled a job, and made this settle, if any.
    Worked(Option<Settled>),
    /// It handled none: there was none, or a count of the worker is at its maximum.
    Nothing,
}

/// A worker: it takes jobs, and puts a reply for each that gets one into the queue.
#[derive(Drop)]
pub struct Worker {
    pub number: u64,
    pub session: Session,
    /// Buffers for the frames that its thread reads.
    pub spare_frames: SpareBuffers,
    /// Buffers for replies. They stay apart, since those of READ are long.
    pub spare_replies: SpareBuffers,
    pub jobs: JobReceiver<Job>,
    pub job_pass: JobPass<Job>,
    pub replies: ReplySender<JobReply>,
    pub reply_pass: ReplyPass<JobReply>,
    /// How many jobs it has taken.
    pub taken: u64,
    /// How many replies it has put.
    pub put: u64,
    /// How many of its replies the queue returned.
    pub handed_back: u64,
    ghost seated: { IsSeatAt (receives_on jobs) job_pass },
    ghost reply_seated: { IsSeatAt (sends_on replies) reply_pass },
    ghost one_part: { (view job_pass).parts ≡ 1 },
    ghost puts_none: { length (view job_pass).put ≡ 0 },
    ghost counted: { length (view job_pass).taken ≡ taken },
    ghost put_counted: { length (view reply_pass).put ≡ put },
    ghost sends: { (view reply_pass).sends ≡ true },
    ghost from: { (view reply_pass).from ≡ number },
}

impl Worker {
    /// A worker that continues with these passes. So far the queue has returned none of its replies.
    pub fn new(
        alloc: Global,
        settings: Settings,
        jobs: JobReceiver<Job>,
        replies: ReplySender<JobReply>,
        passes: Passes<Job, JobReply>,
    ) -> Worker
        requires jobs { IsSeatAt (receives_on jobs) passes.job_pass }
        requires replies { IsSeatAt (sends_on replies) passes.reply_pass }
        ensures queues { (receives_on result.jobs ≡ receives_on jobs) × (sends_on result.replies ≡ sends_on replies) × (result.number ≡ passes.number) }
        ensures passes { (view result.job_pass ≡ view passes.job_pass) × (view result.reply_pass ≡ view passes.reply_pass) }
        ensures settings { result.session.settings ≡ settings }
        ensures none_back { result.handed_back ≡ 0 }
    {
        let Passes {
            number,
            taken,
            put,
            job_pass,
            reply_pass,
        } = passes;
        let session = Session::new(alloc, settings);
        Worker {
            number,
            session,
            spare_frames: SpareBuffers::new(alloc),
            spare_replies: SpareBuffers::new(alloc),
            jobs,
            job_pass,
            replies,
            reply_pass,
            taken,
            put,
            handed_back: 0,
        }
    }

    /// Its passes, after it has ended.
    pub fn into_passes(self) -> Passes<Job, JobReply>
        ensures number { result.number ≡ self.number }
        ensures seats { IsSeatAt (receives_on self.jobs) result.job_pass × IsSeatAt (sends_on self.replies) result.reply_pass }
        ensures passes { (view result.job_pass ≡ view self.job_pass) × (view result.reply_pass ≡ view self.reply_pass) }
    {
        let Worker {
            number,
            session: _,
            spare_frames: _,
            spare_replies: _,
            jobs,
            job_pass,
            replies,
            reply_pass,
            taken,
            put,
            handed_back: _,
        } = self;
        drop(jobs);
        drop(replies);
        Passes {
            number,
            taken,
            put,
            job_pass,
            reply_pass,
        }
    }

    /// Puts the reply to a job into the queue, if there is one. If the queue returns it, that is counted, and the
    /// answer is settled as untaken.
    fn put<'a, H: Wait, T: Ledgers, O: Opening, D: Folders>(
        &mut self,
        table_handle: &mut TableHandle<'a, H, T, O>,
        share: &mut Share<T>,
        dirs: &mut D,
        job: &Job,
        said: Option<ReplyBytes>,
        turn_result: TurnResult,
    ) -> Option<Settled>
        requires countable { (self.old.handed_back + 1 < 2 ^ 64) × (self.old.put + 1 < 2 ^ 64) }
        requires right { (bytes : ReplyBytes) → said ≡ Some bytes → IsRight self.old.session.settings job.now (bytes_of bytes) (left_in (turn_end_of turn_result)) }
        ensures puts { ByBoth D.keeps dirs.old (on_table_of table_handle.old.thread_log) dirs.new (on_table_of table_handle.new.thread_log) (λ folders calls. PutsReply self.old.session.settings self.old.number job.now (record { said = bytes_in said; turn_end = turn_end_of turn_result }) (outbox (view self.old.reply_pass) self.old.handed_back) (ending result folders calls) (outbox (view self.new.reply_pass) self.new.handed_back)) }
        ensures entries { share.new.totals.entries ≡ share.old.totals.entries }
        ensures index { share.new.index ≡ share.old.index }
        ensures jobs { (self.new.jobs ≡ self.old.jobs) × (view self.new.job_pass ≡ view self.old.job_pass) }
        ensures queue { (sends_on self.new.replies ≡ sends_on self.old.replies) × (self.new.number ≡ self.old.number) × (self.new.session ≡ self.old.session) }
    {
        let (left, settled) = turn_result.into_parts();
        let Some(bytes) = said else {
            return settled;
        };
        let queued_reply = QueuedReply {
            from: self.number,
            reply: JobReply::new(self.session.settings, job, bytes, left),
        };
        match self.replies.send_as::<Posts, H>(
            table_handle.table_lock.rt,
            &mut self.reply_pass,
            queued_reply,
        ) {
            Ok(()) => {
                self.put += 1;
                settled
            }
            Err(back) => {
                self.handed_back += 1;
                let QueuedReply { from: _, reply } = back.into_inner();
                let left = reply.into_left();
                let untaken = settle_left(
                    &table_handle.table_lock,
                    &mut table_handle.thread_log,
                    share,
                    dirs,
                    left,
                    false,
                );
                untaken.or(settled)
            }
        }
    }

    /// Handles a job, and queues its reply.
    fn meet<'a, H: Wait, T: Ledgers, O: Opening, C: Calls, D: Folders>(
        &mut self,
        table_handle: &mut TableHandle<'a, H, T, O>,
        share: &mut Share<T>,
        served: &mut Served<C, D>,
        job: &Job,
    ) -> Option<Settled>
        requires countable { (self.old.handed_back + 1 < 2 ^ 64) × (self.old.put + 1 < 2 ^ 64) }
        ensures queues { (receives_on self.new.jobs ≡ receives_on self.old.jobs) × (sends_on self.new.replies ≡ sends_on self.old.replies) × (self.new.number ≡ self.old.number) }
        ensures answers { AnswersJob (does C.gives D.keeps) self.old.session.settings self.old.number job.now (standing (view self.old.job_pass) (outbox (view self.old.reply_pass) self.old.handed_back) (means served.old share.old (on_table_of table_handle.old.thread_log))) result
            (standing (view self.new.job_pass) (outbox (view self.new.reply_pass) self.new.handed_back) (means served.new share.new (on_table_of table_handle.new.thread_log))) }
        ensures settings { self.new.session.settings ≡ self.old.session.settings }
    {
        let (said, turn_result) = meet_job(
            &mut self.session,
            &mut self.spare_replies,
            table_handle,
            share,
            served,
            job,
        );
        self.put(
            table_handle,
            share,
            &mut served.dirs,
            job,
            said,
            turn_result,
        )
    }

    /// Handles a job that was not in the queue, and queues its reply. It does nothing if a count of its replies is at its
    /// maximum.
    pub fn answer<'a, H: Wait, T: Ledgers, O: Opening, C: Calls, D: Folders>(
        &mut self,
        table_handle: &mut TableHandle<'a, H, T, O>,
        share: &mut Share<T>,
        served: &mut Served<C, D>,
        job: &Job,
    ) -> Turn
        ensures queues { (receives_on self.new.jobs ≡ receives_on self.old.jobs) × (sends_on self.new.replies ≡ sends_on self.old.replies) × (self.new.number ≡ self.old.number) }
        ensures answers { (settled : Option Settlement) → result ≡ Turn.Worked settled → AnswersJob (does C.gives D.keeps) self.old.session.settings self.old.number job.now (standing (view self.old.job_pass) (outbox (view self.old.reply_pass) self.old.handed_back) (means served.old share.old (on_table_of table_handle.old.thread_log))) settled
            (standing (view self.new.job_pass) (outbox (view self.new.reply_pass) self.new.handed_back) (means served.new share.new (on_table_of table_handle.new.thread_log))) }
        ensures nothing { result ≡ Turn.Nothing → ((self.old.handed_back + 1 ≡ 2 ^ 64) ⊎ (self.old.put + 1 ≡ 2 ^ 64)) × (self.new ≡ self.old) × (share.new ≡ share.old) × (served.new ≡ served.old) × (table_handle.new ≡ table_handle.old) }
        ensures settings { self.new.session.settings ≡ self.old.session.settings }
    {
        if self.handed_back == u64::MAX || self.put == u64::MAX {
            return Turn::Nothing;
        }
        Turn::Worked(self.meet(table_handle, share, served, job))
    }

    /// Takes one job, handles it, and queues its reply. It takes none if a count of its own is at its maximum.
    pub fn turn<'a, H: Wait, T: Ledgers, O: Opening, C: Calls, D: Folders>(
        &mut self,
        table_handle: &mut TableHandle<'a, H, T, O>,
        share: &mut Share<T>,
        served: &mut Served<C, D>,
    ) -> Turn
        ensures queues { (receives_on self.new.jobs ≡ receives_on self.old.jobs) × (sends_on self.new.replies ≡ sends_on self.old.replies) × (self.new.number ≡ self.old.number) }
        ensures worked { (settled : Option Settlement) → result ≡ Turn.Worked settled → Worked (does C.gives D.keeps) self.old.session.settings self.old.number (standing (view self.old.job_pass) (outbox (view self.old.reply_pass) self.old.handed_back) (means served.old share.old (on_table_of table_handle.old.thread_log))) settled
            (standing (view self.new.job_pass) (outbox (view self.new.reply_pass) self.new.handed_back) (means served.new share.new (on_table_of table_handle.new.thread_log))) }
        ensures nothing { result ≡ Turn.Nothing → (view self.new.job_pass ≡ view self.old.job_pass) × (view self.new.reply_pass ≡ view self.old.reply_pass) × (self.new.handed_back ≡ self.old.handed_back) × (share.new ≡ share.old) × (served.new ≡ served.old) × (table_handle.new ≡ table_handle.old) }
        ensures settings { self.new.session.settings ≡ self.old.session.settings }
    {
        if self.handed_back == u64::MAX || self.put == u64::MAX {
            return Turn::Nothing;
        }
        let Some(after) = self.taken.checked_add(1) else {
            return Turn::Nothing;
        };
        match self
            .jobs
            .try_recv_as::<Takes, H>(table_handle.table_lock.rt, &mut self.job_pass)
        {
            Ok(job) => {
                self.taken = after;
                let settled = self.meet(table_handle, share, served, &job);
                self.spare_frames.give(job.into_buffer());
                Turn::Worked(settled)
            }
            Err(_) => Turn::Nothing,
        }
    }
}
