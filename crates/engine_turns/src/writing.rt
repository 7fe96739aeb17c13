//! Offering the replies in the queue.

ghost use Rattle.std.specs.Prelude.{◌≡◌, ◌≤◌, false, length, true, IfOk, vec_len};
ghost use Rattle.crossbeam_channel.specs.Claims.{view, IsSeatAt};
ghost use Rattle.crossbeam_channel.specs.Ends.{receives_on};
ghost use Rattle.engine_turns.specs.TableCalls.{on_table_of};
ghost use Rattle.engine_turns.specs.Batches.{endings, GetsAll, WritesAll};
ghost use Rattle.engine_turns.specs.Turns.{ByBoth};

use crate::batches::{BATCH, Batch};
use crate::replies::JobReply;
use crate::spare_buffers::SpareBuffers;
use crate::table_lock::TableLock;
use engine::LinkOut;
use engine_queues::replies::{Gets, QueuedReply, ReplyPass, ReplyReceiver};
use handles::Folders;
use ledger::{Ledgers, Share};
use shared_history::ThreadLog;
use std::alloc::{AllocError, Global};
use std::sync::Wait;
use table_shared::{LogEntry, Opening, Runs};

/// A writer: it offers replies, in the order of their queue.
#[derive(Drop)]
pub struct Writer {
    pub replies: ReplyReceiver<JobReply>,
    pub pass: ReplyPass<JobReply>,
    /// How many replies it has taken.
    pub got: u64,
    /// Whether the link is broken: then nothing more is offered.
    pub is_broken: bool,
    /// What was last taken from the queue together.
    pub batch: Batch,
    ghost seated: { IsSeatAt (receives_on replies) pass },
    ghost gets: { (view pass).gets ≡ true },
    ghost knows_none: { length (view pass).known ≡ 0 },
    ghost counted: { length (view pass).got ≡ got },
}

impl Writer {
    /// A writer that has offered nothing, with the pass that gets the replies. It allocates all the memory that it will
    /// need.
    pub fn new(
        alloc: Global,
        replies: ReplyReceiver<JobReply>,
        pass: ReplyPass<JobReply>,
    ) -> Result<Writer, AllocError>
        requires seat { IsSeatAt (receives_on replies) pass }
        requires gets { (view pass).gets ≡ true }
        requires knows_none { length (view pass).known ≡ 0 }
        requires gets_none { length (view pass).got ≡ 0 }
        ensures queue { IfOk result (λ w. receives_on w.replies ≡ receives_on replies) }
        ensures pass { IfOk result (λ w. view w.pass ≡ view pass) }
        ensures whole { IfOk result (λ w. w.is_broken ≡ false) }
    {
        let batch = Batch::new(alloc)?;
        Ok(Writer {
            replies,
            pass,
            got: 0,
            is_broken: false,
            batch,
        })
    }

    /// Its pass, after it has ended.
    pub fn into_pass(self) -> ReplyPass<JobReply>
        ensures seat { IsSeatAt (receives_on self.replies) result }
        ensures pass { view result ≡ view self.pass }
        ensures told { ((view result).gets ≡ true) × (length (view result).known ≡ 0) }
        ensures counted { length (view result).got ≡ self.got }
    {
        let Writer {
            replies,
            pass,
            got: _,
            is_broken: _,
            batch: _,
        } = self;
        drop(replies);
        pass
    }

    /// Takes what is queued, at most one batch, and none after the count of all replies is at its maximum. It does not wait.
    fn take_queued<H: Wait>(&mut self, rt: &H)
        ensures queue { receives_on self.new.replies ≡ receives_on self.old.replies }
        ensures made { (view self.new.pass).made ≡ (view self.old.pass).made }
        ensures gets { GetsAll (view self.old.pass) self.new.batch.left.items self.new.batch.bytes.items (view self.new.pass) }
        ensures few { (vec_len self.new.batch.left ≤ 16) × (vec_len self.new.batch.bytes ≤ 16) }
        ensures broken { self.new.is_broken ≡ self.old.is_broken }
    {
        self.batch.clear();
        for _ in 0..BATCH {
            let Some(after) = self.got.checked_add(1) else {
                return;
            };
            match self.replies.try_recv_as::<Gets, H>(rt, &mut self.pass) {
                Ok(queued_reply) => {
                    self.got = after;
                    let QueuedReply { from: _, reply } = queued_reply;
                    self.batch.put(reply);
                }
                Err(_) => return,
            }
        }
    }

    /// Takes what is queued, at most 16 replies, offers them together, and settles the answer of each: as taken only if
    /// the link took its reply. It does not wait for replies, and returns how many there were. Their buffers are spare then.
    pub fn turns<H: Wait, T: Ledgers, O: Opening, L: LinkOut, D: Folders>(
        &mut self,
        table_lock: &TableLock<'_, H, T, O>,
        link: &mut L,
        thread_log: &mut ThreadLog<LogEntry<T>, Runs<O>>,
        share: &mut Share<T>,
        dirs: &mut D,
        spares: &mut SpareBuffers,
    ) -> usize
        ensures queue { receives_on self.new.replies ≡ receives_on self.old.replies }
        ensures made { (view self.new.pass).made ≡ (view self.old.pass).made }
        ensures wrote { ByBoth D.keeps dirs.old (on_table_of thread_log.old) dirs.new (on_table_of thread_log.new) (λ folders calls. WritesAll L.sends
            (record { lane = view self.old.pass; link = link.old; is_broken = self.old.is_broken }) (endings self.new.batch.settled.items folders calls)
            (record { lane = view self.new.pass; link = link.new; is_broken = self.new.is_broken })) }
        ensures count { (result ≡ vec_len self.new.batch.settled) × (result ≤ 16) }
        ensures entries { share.new.totals.entries ≡ share.old.totals.entries }
        ensures index { share.new.index ≡ share.old.index }
    {
        self.take_queued(table_lock.rt);
        self.is_broken = self.batch.offer(link, self.is_broken, spares);
        self.batch.settle(table_lock, thread_log, share, dirs);
        self.batch.settled.len()
    }
}
