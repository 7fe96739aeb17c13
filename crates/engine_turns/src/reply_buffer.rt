//! The buffer in which the reply to a job is written, and from which the worker puts it into the queue.

ghost use Rattle.std.specs.Prelude.{◌≡◌, None, Some};
ghost use Rattle.engine.specs.declared.links.Sent.TheVariants.{Taken};

use engine::{Outlet, ReplyBytes, Sent};
use std::alloc::Global;
use std::mem;

/// A place for the reply to one job.
#[derive(Drop)]
pub struct ReplyBuffer {
    alloc: Global,
    /// The buffer that takes the place of one that is taken over.
    spare: Vec<u8>,
    pub said: Option<ReplyBytes>,
}

impl ReplyBuffer {
    pub fn new(alloc: Global, spare: Vec<u8>) -> ReplyBuffer
        ensures { result.said ≡ None }
    {
        ReplyBuffer {
            alloc,
            spare,
            said: None,
        }
    }

    /// What was written into it, if anything, and the buffer that took no other's place.
    pub fn into_parts(self) -> (Option<ReplyBytes>, Vec<u8>)
        ensures { result.0 ≡ self.said }
    {
        let ReplyBuffer {
            alloc: _,
            spare,
            said,
        } = self;
        (said, spare)
    }
}

impl Outlet for ReplyBuffer {
    ghost use Rattle.engine_turns.specs.ReplyBuffers.{bytes_in};

    ghost sends = { λ old bytes sent new. (sent ≡ Taken) × (bytes_in new.said ≡ Some bytes) };

    fn header(&mut self, frame: [u8; 16]) -> Sent {
        self.said = Some(ReplyBytes::Header(frame));
        Sent::Taken
    }

    fn buffered(&mut self, frame: &mut Vec<u8>) -> Sent {
        let spare = mem::replace(&mut self.spare, Vec::new(self.alloc));
        self.said = Some(ReplyBytes::Whole(mem::replace(frame, spare)));
        Sent::Taken
    }
}
