//! Replies that are offered together.

ghost use Rattle.std.specs.Prelude.{◌≡◌, ◌≤◌, ◌<◌, ◌+◌, ◌++◌, ◌∷◌, [], None, length, map, set, slice_index_or, IfOk, vec_len, vec_capacity};
ghost use Rattle.engine.specs.Batches.{bytes_of, SendsEach};
ghost use Rattle.engine.specs.Reference.{is_broken};
ghost use Rattle.engine_turns.specs.TableCalls.{on_table_of};
ghost use Rattle.engine_turns.specs.Batches.{endings, last_of, taken_at, OffersAll, SettlesAll};
ghost use Rattle.engine_turns.specs.Turns.{ByBoth};

use crate::replies::JobReply;
use crate::settling::settle_left;
use crate::spare_buffers::SpareBuffers;
use crate::table_lock::TableLock;
use engine::{LinkOut, ReplyBytes, Sent};
use engine_queues::Left;
use handles::Folders;
use ledger::{Ledgers, Share};
use shared_history::ThreadLog;
use std::alloc::{AllocError, Global};
use std::sync::Wait;
use table::Settled;
use table_shared::{LogEntry, Opening, Runs};

/// How many replies are offered together at most.
pub const BATCH: usize = 16;

/// Replies that were taken from the queue together. It allocates only when it is made, and its buffers are reused for
/// each batch.
#[derive(Drop)]
pub struct Batch {
    /// The answers that are still to be settled.
    left: Vec<Option<Left>>,
    bytes: Vec<ReplyBytes>,
    /// What became of the replies that were offered.
    sent: Vec<Sent>,
    /// The results of settling their answers, in order. They are kept here since only a table can make a `Settled`.
    pub settled: Vec<Option<Settled>>,
    ghost left_room: { 16 ≤ vec_capacity left },
    ghost bytes_room: { 16 ≤ vec_capacity bytes },
    ghost sent_room: { 16 ≤ vec_capacity sent },
    ghost settled_room: { 16 ≤ vec_capacity settled },
}

/// Takes out the answer at that index.
fn take_at(left: &mut Vec<Option<Left>>, at: usize) -> Option<Left>
    requires { at < vec_len left.old }
    ensures taken { result ≡ slice_index_or left.old.items at None }
    ensures others { left.new.items ≡ set left.old.items at None }
    ensures len { vec_len left.new ≡ vec_len left.old }
    ensures room { vec_capacity left.new ≡ vec_capacity left.old }
{
    left[at].take()
}

/// Whether the reply at that index was taken. A reply that was not offered was not.
fn is_taken_at(sent: &[Sent], at: usize) -> bool
    ensures { result ≡ taken_at sent.now at }
{
    match sent.get(at) {
        Some(Sent::Taken) => true,
        Some(Sent::Untaken | Sent::Broken) | None => false,
    }
}

/// Whether the last of these broke the link.
fn is_last_broken(sent: &[Sent]) -> bool
    ensures { result ≡ is_broken (last_of sent.now) }
{
    match sent.last() {
        Some(Sent::Broken) => true,
        Some(Sent::Taken | Sent::Untaken) | None => false,
    }
}

/// Removes these replies, and gives back their buffers.
fn give_back(replies: &mut Vec<ReplyBytes>, spares: &mut SpareBuffers)
    ensures { vec_capacity replies.new ≡ vec_capacity replies.old }
{
    while let Some(reply) = replies.pop() {
        match reply {
            ReplyBytes::Header(_) => {}
            ReplyBytes::Whole(buffer) => spares.give(buffer),
        }
    }
}

impl Batch {
    /// An empty batch, with room for all its replies.
    pub(crate) fn new(alloc: Global) -> Result<Batch, AllocError> {
        Ok(Batch {
            left: Vec::with_capacity(alloc, BATCH)?,
            bytes: Vec::with_capacity(alloc, BATCH)?,
            sent: Vec::with_capacity(alloc, BATCH)?,
            settled: Vec::with_capacity(alloc, BATCH)?,
        })
    }

    /// Removes all replies.
    pub(crate) fn clear(&mut self)
        ensures { (self.new.left.items ≡ []) × (self.new.bytes.items ≡ []) }
    {
        self.left.clear();
        self.bytes.clear();
    }

    /// Adds one reply.
    pub(crate) fn put(&mut self, reply: JobReply)
        requires room { vec_len self.old.left < 16 }
        requires same { vec_len self.old.bytes ≡ vec_len self.old.left }
        ensures left { self.new.left.items ≡ self.old.left.items ++ reply.left ∷ [] }
        ensures bytes { self.new.bytes.items ≡ self.old.bytes.items ++ reply.bytes ∷ [] }
        ensures len { (vec_len self.new.left ≡ vec_len self.old.left + 1) × (vec_len self.new.bytes ≡ vec_len self.old.left + 1) }
    {
        let JobReply {
            settings: _,
            job: _,
            bytes,
            left,
        } = reply;
        self.left.push_reserved(left);
        self.bytes.push_reserved(bytes);
    }

    /// Offers the replies, unless the link is broken already. Returns whether it is broken afterwards. The bytes are
    /// dropped, and their buffers are spare.
    pub(crate) fn offer<L: LinkOut>(
        &mut self,
        link: &mut L,
        was_broken: bool,
        spares: &mut SpareBuffers,
    ) -> bool
        requires few { vec_len self.old.bytes ≤ 16 }
        ensures offers { OffersAll L.sends link.old (map bytes_of self.old.bytes.items) was_broken self.new.sent.items link.new result }
        ensures left { self.new.left ≡ self.old.left }
    {
        self.sent.clear();
        if was_broken {
            return true;
        }
        link.send_all(self.bytes.as_slice(), &mut self.sent);
        give_back(&mut self.bytes, spares);
        is_last_broken(self.sent.as_slice())
    }

    /// Settles each answer according to what became of its reply.
    pub(crate) fn settle<H: Wait, T: Ledgers, O: Opening, D: Folders>(
        &mut self,
        table_lock: &TableLock<'_, H, T, O>,
        thread_log: &mut ThreadLog<LogEntry<T>, Runs<O>>,
        share: &mut Share<T>,
        dirs: &mut D,
    )
        requires few { vec_len self.old.left ≤ 16 }
        ensures settles { ByBoth D.keeps dirs.old (on_table_of thread_log.old) dirs.new (on_table_of thread_log.new) (λ folders calls. SettlesAll self.old.left.items self.old.sent.items (endings self.new.settled.items folders calls)) }
        ensures count { vec_len self.new.settled ≡ vec_len self.old.left }
        ensures entries { share.new.totals.entries ≡ share.old.totals.entries }
        ensures index { share.new.index ≡ share.old.index }
    {
        self.settled.clear();
        for at in 0..self.left.len() {
            let left = take_at(&mut self.left, at);
            let taken = is_taken_at(self.sent.as_slice(), at);
            let settled = settle_left(table_lock, thread_log, share, dirs, left, taken);
            self.settled.push_reserved(settled);
        }
    }
}
