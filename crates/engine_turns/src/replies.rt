//! The replies that a worker puts into the reply queue.

ghost use Rattle.std.specs.Prelude.{◌≡◌};
ghost use Rattle.engine.specs.Batches.{bytes_of};
ghost use Rattle.engine_turns.specs.Rights.{IsRight};

use crate::job::Job;
use engine::{ReplyBytes, Settings};
use engine_queues::Left;
use std::snapshot::Snapshot;

/// The reply to a job: its bytes, and the answer to be settled after they were offered. Its type guarantees that it is
/// the right reply.
#[derive(Drop)]
pub struct JobReply {
    pub settings: Settings,
    pub job: Snapshot<Job>,
    pub bytes: ReplyBytes,
    pub left: Option<Left>,
    pub ghost right: { ∥ IsRight settings job.value (bytes_of bytes) left ∥₁ },
}

impl JobReply {
    /// The reply to a job, which is the right one.
    pub(crate) fn new(
        settings: Settings,
        job: &Job,
        bytes: ReplyBytes,
        left: Option<Left>,
    ) -> JobReply
        requires { IsRight settings job.now (bytes_of bytes) left }
        ensures { (result.settings ≡ settings) × (result.job.value ≡ job.now) × (result.bytes ≡ bytes) × (result.left ≡ left) }
    {
        JobReply {
            settings,
            job: Snapshot::of(job),
            bytes,
            left,
        }
    }

    /// The answer to be settled, if the reply is not offered.
    pub(crate) fn into_left(self) -> Option<Left>
        ensures { result ≡ self.left }
    {
        let JobReply {
            settings: _,
            job: _,
            bytes: _,
            left,
        } = self;
        left
    }
}
