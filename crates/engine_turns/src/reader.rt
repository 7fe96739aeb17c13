//! Cutting frames from a link and queueing a job for each.

ghost use Rattle.std.specs.Prelude.{◌≡◌, ◌<◌, ◌≤◌, ◌+◌, ◌-◌, ◌++◌, ◌∷◌, ◌↔◌, ℕ, [], false, drop, length, map, take, vec_len, IfOk, IfSome, IfNone, IsTrue, IsFalse, None, Some, Err};
ghost use Rattle.crossbeam_channel.specs.Claims.{view, IsSeatAt};
ghost use Rattle.crossbeam_channel.specs.Ends.{sends_on};
ghost use Rattle.engine.specs.Links.{heard, IsWithin};
ghost use Rattle.engine_queues.specs.Jobs.{numbers};
ghost use Rattle.wire.specs.NextFrame.{IsWhole};
ghost use Rattle.wire.specs.Stream.{BeginsBadly, HandsOut, IsPartial, StoppedBy};
ghost use Rattle.engine_turns.specs.declared.reader.TheConstants.{GAP, READ_AT_ONCE};

use crate::job::Job;
use crate::spare_buffers::SpareBuffers;
use engine::{LinkIn, Received, SessionEnd};
use engine_queues::jobs::{JobPass, JobSender, Puts};
use std::alloc::{AllocError, Global};
use std::sync::Wait;
use wire::{CutFault, Cutter, Frame, MAX_FRAME_LEN};

/// How many bytes a receive may bring: more than the longest frame has.
pub const READ_AT_ONCE: usize = 131_072;

/// How many bytes of room there are before those that a receive brings, for the kept part of an unfinished frame.
pub const GAP: usize = MAX_FRAME_LEN;

#[derive(Drop)]
pub struct Reader {
    pub to: JobSender<Job>,
    pub pass: JobPass<Job>,
    pub next: u64,
    pub agreed: bool,
    pub cutter: Cutter,
    /// The buffer for what a receive brings, with a gap before it.
    pub room: Vec<u8>,
    /// How many bytes behind the gap were received but could not be kept by the cutter.
    pub unkept: usize,
    /// The job of the frame that ended the session, if one did. It is not queued.
    pub last_job: Option<Job>,
    /// The job that the queue returned, if it did, or for which no number was left. It is not queued.
    pub handed_back: Option<Job>,
    ghost within: { unkept ≤ READ_AT_ONCE },
    ghost room_len: { GAP + READ_AT_ONCE ≤ vec_len room },
    ghost stopped_by: { ∥ StoppedBy cutter.kept cutter.stopped ∥₁ },
    ghost seated: { IsSeatAt (sends_on to) pass },
    ghost some_part: { 0 < (view pass).parts },
    ghost takes_none: { length (view pass).taken ≡ 0 },
    ghost counted: { length (view pass).put ≡ next },
    ghost numbered: { map (λ j. j.ordinal) (view pass).put ≡ numbers 0 (length (view pass).put) },
}

/// Makes one receive into the buffer from `from` up to `to`, which does not change the bytes before.
fn receive_between<L: LinkIn>(link: &mut L, room: &mut [u8], from: usize, to: usize) -> Received
    requires order { from ≤ to }
    requires within { to ≤ length room.old }
    ensures within { IsWithin result (to - from) }
    ensures brought { L.receives link.old (heard result (drop from room.new)) link.new }
    ensures front { take from room.new ≡ take from room.old }
    ensures len { length room.new ≡ length room.old }
{
    link.receive(&mut room[from..to])
}

/// The next whole frame, if there is one, in a spare buffer.
fn next_frame(cutter: &mut Cutter, spares: &mut SpareBuffers) -> Result<Option<Frame>, CutFault>
    ensures frame { IfOk result (λ o. IfSome o (λ f. HandsOut cutter.old f.items cutter.new)) }
    ensures none { IfOk result (λ o. IfNone o (IsPartial cutter.old.kept × (cutter.new ≡ cutter.old))) }
    ensures bad { (len : ℕ) → (result ≡ Err (CutFault.BadLength len)) ↔ BeginsBadly cutter.old.kept len }
    ensures for_good { (len : ℕ) → result ≡ Err (CutFault.BadLength len) → cutter.new ≡ record cutter.old { stopped = Some len } }
    ensures memory { result ≡ Err CutFault.Memory → cutter.new ≡ cutter.old }
    ensures asked { result ≡ Err CutFault.Memory → (len : ℕ) × IsWhole cutter.old.kept len }
{
    let mut buffer = spares.take();
    let frame = cutter.next_in(&mut buffer);
    spares.give(buffer);
    frame
}

impl Reader {
    ghost use Rattle.std.specs.Option.{option_map};
    ghost use Rattle.engine_turns.specs.Shown.{progress, queued_of, reading, shown};
    ghost use Rattle.engine_turns.specs.Verdicts.{IsVerdict, QueuesAll, Reads};

    /// A reader that has received nothing, with the pass of one that has put nothing.
    pub fn new(alloc: Global, to: JobSender<Job>, pass: JobPass<Job>) -> Result<Reader, AllocError>
        requires seat { IsSeatAt (sends_on to) pass }
        requires parts { 0 < (view pass).parts }
        requires takes_none { length (view pass).taken ≡ 0 }
        requires puts_none { (view pass).put ≡ [] }
        ensures queue { IfOk result (λ r. sends_on r.to ≡ sends_on to) }
        ensures pass { IfOk result (λ r. view r.pass ≡ view pass) }
        ensures empty { IfOk result (λ r. (r.cutter.kept ≡ []) × (r.agreed ≡ false) × (queued_of (view r.pass).put ≡ []) × (r.last_job ≡ None)) }
        ensures none_back { IfOk result (λ r. (r.unkept ≡ 0) × (r.handed_back ≡ None)) }
    {
        let mut room = Vec::new(alloc);
        room.resize(GAP + READ_AT_ONCE, 0)?;
        Ok(Reader {
            to,
            pass,
            next: 0,
            agreed: false,
            cutter: Cutter::new(alloc),
            room,
            unkept: 0,
            last_job: None,
            handed_back: None,
        })
    }

    /// Queues a job. False means that the queue returned it, and it is then kept in `handed_back`.
    fn queue<H: Wait>(&mut self, rt: &H, job: Job) -> bool
        requires { job.ordinal ≡ self.old.next }
        ensures yes { IsTrue result → (queued_of (view self.new.pass).put ≡ queued_of (view self.old.pass).put ++ shown job ∷ []) × IsVerdict job.agreed job.frame.items self.new.agreed × (self.new.handed_back ≡ self.old.handed_back) }
        ensures no { IsFalse result → (queued_of (view self.new.pass).put ≡ queued_of (view self.old.pass).put) × (self.new.agreed ≡ self.old.agreed) × (option_map shown self.new.handed_back ≡ Some (shown job)) }
        ensures queue { sends_on self.new.to ≡ sends_on self.old.to }
        ensures parts { (view self.new.pass).parts ≡ (view self.old.pass).parts }
        ensures cutter { self.new.cutter ≡ self.old.cutter }
        ensures room { (self.new.room ≡ self.old.room) × (self.new.unkept ≡ self.old.unkept) }
        ensures last_job { self.new.last_job ≡ self.old.last_job }
    {
        let agreed = job.agrees_after();
        let Some(after) = self.next.checked_add(1) else {
            self.handed_back = Some(job);
            return false;
        };
        match self.to.send_as::<Puts, H>(rt, &mut self.pass, job) {
            Ok(()) => {
                self.next = after;
                self.agreed = agreed;
                return true;
            }
            Err(back) => {
                self.handed_back = Some(back.into_inner());
                return false;
            }
        }
    }

    /// Queues a job for each whole frame before the one that ends the session. If the queue returns one, the session
    /// cannot go on.
    fn queue_all<H: Wait>(&mut self, rt: &H, spares: &mut SpareBuffers) -> Option<SessionEnd>
        ensures all { QueuesAll (progress self.old) result (progress self.new) }
        ensures queue { sends_on self.new.to ≡ sends_on self.old.to }
        ensures parts { (view self.new.pass).parts ≡ (view self.old.pass).parts }
    {
        loop {
            match next_frame(&mut self.cutter, spares) {
                Ok(None) => return None,
                Ok(Some(frame)) => {
                    let job = Job::new(self.next, self.agreed, frame);
                    if job.ends_session() {
                        self.last_job = Some(job);
                        return Some(SessionEnd::Destroyed);
                    }
                    // This ends the session as lack of memory does, and not as a broken link: a link breaks only at a
                    // receive or a send. It does not happen, since the workers hold receivers of the queue.
                    if !self.queue(rt, job) {
                        return Some(SessionEnd::Memory);
                    }
                }
                Err(CutFault::BadLength { len }) => return Some(SessionEnd::BadLength { len }),
                Err(CutFault::Memory) => return Some(SessionEnd::Memory),
            }
        }
    }

    /// Makes one receive, and queues a job for each frame that is then whole. The bytes stay where they were received,
    /// and those that were kept before are copied in front of them if they are fewer. What cannot be kept stays in the
    /// buffer, and the next turn that can keep it does so, if there is one. The frames are copied into spare buffers.
    pub fn turn<H: Wait, L: LinkIn>(
        &mut self,
        rt: &H,
        link: &mut L,
        spares: &mut SpareBuffers,
    ) -> Option<SessionEnd>
        ensures reads { Reads L.receives (reading link.old self.old) result (reading link.new self.new) }
        ensures queue { sends_on self.new.to ≡ sends_on self.old.to }
        ensures parts { (view self.new.pass).parts ≡ (view self.old.pass).parts }
    {
        let end = GAP + READ_AT_ONCE;
        match receive_between(link, self.room.as_mut_slice(), GAP + self.unkept, end) {
            Received::Bytes(count) => self.unkept += count,
            Received::End => {
                return Some(SessionEnd::Closed {
                    rest: self.cutter.rest(),
                });
            }
            Received::Broken => return Some(SessionEnd::LinkBroken),
        }
        match self.cutter.feed_from(&mut self.room, GAP, self.unkept) {
            Ok(()) => {
                self.unkept = 0;
                self.queue_all(rt, spares)
            }
            Err(CutFault::BadLength { len }) => Some(SessionEnd::BadLength { len }),
            Err(CutFault::Memory) => Some(SessionEnd::Memory),
        }
    }
}
