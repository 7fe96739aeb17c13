//! The result of a session on threads.

ghost use Rattle.std.specs.Prelude.{◌≡◌};
ghost use Rattle.ledger.specs.Sums.{totals_over};
ghost use Rattle.table_steps.specs.Kept.{world_of};
ghost use Rattle.engine_queues.specs.Gathered.{takings_of};
ghost use Rattle.engine_threads.specs.Ended.{AreCounts, EndsAs, IsGathered};

use crate::given::Given;
use backing::Calls;
use engine::{LinkIn, LinkOut, SessionEnd};
use engine_queues::jobs::JobPass;
use engine_queues::passes::Passes;
use engine_queues::replies::ReplyPass;
use engine_turns::{Job, JobReply};
use ledger::{Ledgers, Share, Totals};
use std::snapshot::Snapshot;
use std::sync::Wait;
use table::Table;

/// The sum of all threads' shares, which is the total of the table's ledger. Only gathering a table makes it.
#[derive(Drop)]
pub struct Sums {
    totals: Totals,
    ghost gathered: { ∥ IsGathered totals ∥₁ },
}

impl Sums {
    /// Adds up the shares. It would wait forever if one were missing.
    pub(crate) fn gather<H: Wait, T: Ledgers>(
        rt: &H,
        table: Table<T>,
        shares: Vec<Share<T>>,
    ) -> Sums
        ensures { result.totals ≡ totals_over (world_of table).postings }
    {
        table.attest(); // proof: its law
        match table.gather(shares) {
            Ok(totals) => Sums { totals },
            Err(_) => {
                for _ in rt.forever() {}
                unreachable!()
            }
        }
    }

    /// The four sums.
    pub fn totals(&self) -> Totals
        ensures { result ≡ self.now.totals }
    {
        self.totals
    }
}

/// The traffic of the queues and the link of a session. What its snapshots show exists only in proofs, and takes no
/// memory.
#[derive(Drop)]
pub struct Passed {
    /// How a receive ended the input. None means that the link broke when a reply was offered, and no receive was made
    /// after that.
    pub input: Option<SessionEnd>,
    /// Whether the link broke when a reply was offered.
    pub is_broken: bool,
    /// The jobs that the reader put.
    pub read: Snapshot<JobPass<Job>>,
    /// The job of the frame that ended the session, if one did. It was not put into the queue.
    pub last_job: Snapshot<Option<Job>>,
    /// The replies that the writer took.
    pub written: Snapshot<ReplyPass<JobReply>>,
    /// Which jobs each worker took, and which replies it put.
    pub passes: Snapshot<Vec<Passes<Job, JobReply>>>,
}

impl Passed {
    /// How a session ended: if the link broke, that is the end, whatever else happened. It would wait forever if nothing had ended it.
    pub(crate) fn end<H: Wait>(&self, rt: &H) -> SessionEnd
        ensures { EndsAs self.now.input self.now.is_broken result }
    {
        if self.is_broken {
            return SessionEnd::LinkBroken;
        }
        match self.input {
            Some(end) => end,
            None => {
                for _ in rt.forever() {}
                unreachable!()
            }
        }
    }
}

/// What was served.
#[derive(Drop)]
pub struct Account {
    /// The totals of what was posted.
    pub sums: Sums,
    /// How many jobs each worker took.
    pub taken: Vec<u64>,
    pub passed: Passed,
    pub ghost counted: { AreCounts taken.items (takings_of passed.passes.value.items) },
}

/// How a session on threads ended.
#[derive(Drop)]
pub struct Ended<I: LinkIn + Drop, O: LinkOut + Drop, C: Calls + Drop> {
    pub end: SessionEnd,
    /// The links and the directories as the session left them.
    pub back: Given<I, O, C>,
    /// None means that nothing was served, since memory was refused before anything was received, or since there were not 1 to 4
    /// directories.
    pub account: Option<Account>,
}
