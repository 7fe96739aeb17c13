//! Where replies go.

ghost use Rattle.std.specs.Prelude.{◌≡◌, ℕ, List};
ghost use Rattle.wire.specs.Written.{reply_bytes};
ghost use Rattle.engine.specs.Replies.{done_reply, refusal};
ghost use Rattle.engine.specs.declared.links.Sent.{Sent};

use crate::links::{LinkOut, Sent};
use wire::error_frame;

/// The destination of replies: a link, or a buffer from which a worker puts them into a queue.
pub trait Outlet {
    /// What may become of a reply, and which state the outlet may be in afterwards.
    ghost sends: { Self → List ℕ → Sent → Self → Type 0 };

    /// Gives it a reply that is only a header. It does not allocate.
    fn header(&mut self, frame: [u8; 16]) -> Sent
        ensures { sends self.old frame result self.new };

    /// Gives it the reply in the buffer, which it may take over.
    fn buffered(&mut self, frame: &mut Vec<u8>) -> Sent
        ensures { sends self.old frame.old.items result self.new };
}

impl<L: LinkOut> Outlet for L {
    ghost sends = { L.LinkOut.sends };

    fn header(&mut self, frame: [u8; 16]) -> Sent {
        self.send(&frame)
    }

    fn buffered(&mut self, frame: &mut Vec<u8>) -> Sent {
        self.send(frame.as_slice())
    }
}

/// Offers an error. It does not allocate.
pub(crate) fn refuse<L: Outlet>(link: &mut L, unique: u64, errno: i32) -> Sent
    ensures { L.sends link.old (reply_bytes (refusal unique errno)) result link.new }
{
    link.header(error_frame(unique, errno))
}

/// Offers the reply that a request was done, without a body. It does not allocate.
pub(crate) fn reply_done<L: Outlet>(link: &mut L, unique: u64) -> Sent
    ensures { L.sends link.old (reply_bytes (done_reply unique)) result link.new }
{
    link.header(error_frame(unique, 0))
}
