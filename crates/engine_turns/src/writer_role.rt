//! The writer as a role.

ghost use Rattle.std.specs.Prelude.{◌≡◌, ◌≤◌, length, false, true, Some, IfSome, vec_len};
ghost use Rattle.crossbeam_channel.specs.Claims.{view, IsSeatAt};
ghost use Rattle.crossbeam_channel.specs.Ends.{receives_on};
ghost use Rattle.engine_turns.specs.TableCalls.{idle, on_table_of};
ghost use Rattle.engine_turns.specs.Batches.{endings, WritesAll};
ghost use Rattle.engine_turns.specs.Turns.{ByBoth};
ghost use Rattle.engine_turns.specs.Writes.{none_got, writing, HasWritten};

use crate::origins::Sink;
use crate::replies::JobReply;
use crate::shares::ThreadShare;
use crate::spare_buffers::SpareBuffers;
use crate::table_lock::TableLock;
use crate::writing::Writer;
use engine::LinkOut;
use engine_queues::replies::ReplyPass;
use handles::Folders;
use ledger::Ledgers;
use shared_history::ThreadLog;
use std::marker::PhantomData;
use std::sync::Wait;
use table_shared::{LogEntry, Opening, Runs, SharedTable};

/// A writer with its link, its share of the table's book, and its log of the table's history. It has offered everything
/// that it took since it began with the link of `S`, and did nothing on the table except settling the answers of what
/// it offered.
#[derive(Drop)]
pub struct WriterRole<T: Ledgers, N: Opening, O: LinkOut + Drop, S: Sink<O>> {
    pub writer: Writer,
    pub link: O,
    pub kept: ThreadShare<T>,
    pub thread_log: ThreadLog<LogEntry<T>, Runs<N>>,
    pub sink: PhantomData<S>,
    ghost queue: { S.replies ≡ Some (receives_on writer.replies) },
    ghost made: { (view writer.pass).made ≡ S.senders },
    ghost index: { thread_log.by ≡ S.senders },
    ghost wrote: { ∥ HasWritten O.sends S.sent_to S.senders (on_table_of thread_log) (writing (view writer.pass) link writer.is_broken) ∥₁ },
}

/// What is left of a writer that has ended.
#[derive(Drop)]
pub struct WriterEnd<T: Ledgers, N: Opening, O: LinkOut + Drop> {
    pub pass: ReplyPass<JobReply>,
    /// How many replies it took.
    pub got: u64,
    pub link: O,
    pub is_broken: bool,
    pub kept: ThreadShare<T>,
    pub thread_log: ThreadLog<LogEntry<T>, Runs<N>>,
    ghost counted: { length (view pass).got ≡ got },
}

impl<T: Ledgers, N: Opening, O: LinkOut + Drop, S: Sink<O>> WriterRole<T, N, O, S> {
    /// A writer that has offered nothing. Its index comes after those of the senders.
    pub fn new(
        writer: Writer,
        link: O,
        kept: ThreadShare<T>,
        thread_log: ThreadLog<LogEntry<T>, Runs<N>>,
    ) -> WriterRole<T, N, O, S>
        requires queue { S.replies ≡ Some (receives_on writer.replies) }
        requires from { S.sent_to ≡ Some link }
        requires fresh { view writer.pass ≡ none_got S.senders }
        requires whole { writer.is_broken ≡ false }
        requires thread_log { on_table_of thread_log ≡ idle S.senders }
        ensures { (result.writer ≡ writer) × (result.link ≡ link) × (result.kept ≡ kept) × (result.thread_log ≡ thread_log) }
    {
        WriterRole {
            writer,
            link,
            kept,
            thread_log,
            sink: PhantomData,
        }
    }

    /// Takes what is queued, at most 16 replies, offers them together, and settles the answer of each according to what
    /// became of it. It does not wait for replies, and returns how many there were. Their buffers are spare then.
    pub fn turn<H: Wait, D: Folders>(
        &mut self,
        rt: &H,
        shared_table: &SharedTable<T, N>,
        dirs: &mut D,
        spares: &mut SpareBuffers,
    ) -> usize
        ensures wrote { ByBoth D.keeps dirs.old (on_table_of self.old.thread_log) dirs.new (on_table_of self.new.thread_log) (λ folders calls. WritesAll O.sends (writing (view self.old.writer.pass) self.old.link self.old.writer.is_broken) (endings self.new.writer.batch.settled.items folders calls)
            (writing (view self.new.writer.pass) self.new.link self.new.writer.is_broken)) }
        ensures count { (result ≡ vec_len self.new.writer.batch.settled) × (result ≤ 16) }
        ensures entries { self.new.kept.share.totals.entries ≡ self.old.kept.share.totals.entries }
        ensures index { self.new.kept.share.index ≡ self.old.kept.share.index }
    {
        self.writer.turns(
            &TableLock { rt, shared_table },
            &mut self.link,
            &mut self.thread_log,
            &mut self.kept.share,
            dirs,
            spares,
        )
    }

    /// What is left of the writer and its link after its end.
    pub fn into_end(self) -> WriterEnd<T, N, O>
        ensures seat { IfSome S.replies (λ replies. IsSeatAt replies result.pass) }
        ensures gets { (view result.pass).gets ≡ true }
        ensures made { (view result.pass).made ≡ S.senders }
        ensures told { length (view result.pass).known ≡ 0 }
        ensures broken { result.is_broken ≡ self.writer.is_broken }
        ensures pass { view result.pass ≡ view self.writer.pass }
        ensures kept { (result.kept ≡ self.kept) × (result.thread_log ≡ self.thread_log) }
        ensures wrote { ∥ HasWritten O.sends S.sent_to S.senders (on_table_of result.thread_log) (writing (view result.pass) result.link result.is_broken) ∥₁ }
    {
        let WriterRole {
            writer,
            link,
            kept,
            thread_log,
            sink: _,
        } = self;
        let (got, is_broken) = (writer.got, writer.is_broken);
        WriterEnd {
            pass: writer.into_pass(),
            got,
            link,
            is_broken,
            kept,
            thread_log,
        }
    }
}
