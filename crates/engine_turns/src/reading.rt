//! The end of a reader.

ghost use Rattle.std.specs.Prelude.{◌≡◌, length, map};
ghost use Rattle.crossbeam_channel.specs.Claims.{view, IsSeatAt};
ghost use Rattle.crossbeam_channel.specs.Ends.{sends_on};
ghost use Rattle.engine_queues.specs.Jobs.{numbers};

use crate::job::Job;
use crate::reader::Reader;
use engine::SessionEnd;
use engine_queues::jobs::JobPass;

/// What is left of a reader that has ended.
#[derive(Drop)]
pub struct ReaderEnd {
    pub pass: JobPass<Job>,
    /// How a receive ended the session, or None if reading was stopped before.
    pub end: Option<SessionEnd>,
    /// The job of the frame that ended the session, if one did.
    pub last_job: Option<Job>,
    /// How many jobs it put.
    pub put: u64,
    ghost counted: { length (view pass).put ≡ put },
}

impl ReaderEnd {
    /// What is left of a reader that ended like this.
    pub fn new(reader: Reader, end: Option<SessionEnd>) -> ReaderEnd
        ensures seat { IsSeatAt (sends_on reader.to) result.pass }
        ensures same { (view result.pass ≡ view reader.pass) × (result.end ≡ end) × (result.last_job ≡ reader.last_job) }
        ensures takes_none { length (view result.pass).taken ≡ 0 }
        ensures numbered { map (λ j. j.ordinal) (view result.pass).put ≡ numbers 0 (length (view result.pass).put) }
    {
        let Reader {
            to,
            pass,
            next,
            agreed: _,
            cutter: _,
            room: _,
            unkept: _,
            last_job,
            handed_back: _,
        } = reader;
        drop(to);
        ReaderEnd {
            pass,
            end,
            last_job,
            put: next,
        }
    }
}
