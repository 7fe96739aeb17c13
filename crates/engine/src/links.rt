//! What a session reads from and writes to.

ghost use Rattle.std.specs.Prelude.{◌≡◌, ◌≤◌, ℕ, List, [], length, map, vec_capacity};
ghost use Rattle.engine.specs.Batches.{bytes_of, SendsEach};
ghost use Rattle.engine.specs.Links.{counted, heard, lost, missed, Heard, IsWithin};
ghost use Rattle.engine.specs.Reference.{is_taken};
ghost use Rattle.engine.specs.declared.links.Sent.{Sent};

use crate::bytes::ReplyBytes;

/// What a receive brought.
#[derive(Clone, Copy, Debug, PartialEq, Eq)]
pub enum Received {
    /// That many bytes, at the front of the buffer. More may come.
    Bytes(usize),
    /// The input has ended.
    End,
    /// The link failed for good.
    Broken,
}

/// What became of a reply.
#[derive(Clone, Copy, Debug, PartialEq, Eq)]
pub enum Sent {
    /// The client has it, or the link has it for the client.
    Taken,
    /// The client does not want it any more. Other replies may still be sent.
    Untaken,
    /// The link failed for good.
    Broken,
}

impl Sent {
    /// Whether the client has the reply.
    pub(crate) fn is_taken(self) -> bool
        ensures { result ≡ is_taken self }
    {
        match self {
            Sent::Taken => true,
            Sent::Untaken | Sent::Broken => false,
        }
    }
}

/// A stream of bytes from a client.
pub trait LinkIn {
    /// What a receive may bring, and which state the link may be in afterwards.
    ghost receives: { Self → Heard → Self → Type 0 };

    /// How many of its receives have failed.
    ghost failed_receives: { Self → ℕ };

    /// A receive is broken only if that is counted as a failure.
    ghost counts_receives: { (old new : Self) (brought : Heard) → receives old brought new → failed_receives new ≡ counted (failed_receives old) (lost brought) };

    /// Reads what comes next, at most as much as fits in the buffer.
    fn receive(&mut self, room: &mut [u8]) -> Received
        ensures within { IsWithin result (length room.new) }
        ensures brought { receives self.old (heard result room.new) self.new };

    /// Whether what came last was already there before it was asked for, so that more may be waiting. A link that
    /// cannot know this says no.
    fn was_waiting(&self) -> bool {
        false
    }
}

/// The way back to a client, for replies.
pub trait LinkOut {
    /// What may become of a reply, and which state the link may be in afterwards.
    ghost sends: { Self → List ℕ → Sent → Self → Type 0 };

    /// How many of its sends have failed.
    ghost failed_sends: { Self → ℕ };

    /// A reply is untaken or broken only if that is counted as a failure.
    ghost counts_sends: { (old new : Self) (bytes : List ℕ) (sent : Sent) → sends old bytes sent new → failed_sends new ≡ counted (failed_sends old) (missed sent) };

    /// Says whether bytes of another request are available when the next reply is offered. Then a link may hold that
    /// reply back and send it together with the next one; it sends what it holds back before it waits for more bytes.
    fn expect_more(&mut self, _more: bool)
        ensures { self.new ≡ self.old }
    {}

    /// Offers one reply.
    fn send(&mut self, frame: &[u8]) -> Sent
        ensures { sends self.old frame.now result self.new };

    /// Offers replies in order, up to the first that breaks the link, and reports what became of each that was offered.
    fn send_all(&mut self, frames: &[ReplyBytes], sent: &mut Vec<Sent>)
        requires empty { sent.old.items ≡ [] }
        requires room { length frames.now ≤ vec_capacity sent.old }
        ensures sends { SendsEach sends self.old (map bytes_of frames.now) sent.new.items self.new }
        ensures room { vec_capacity sent.new ≡ vec_capacity sent.old }
    {
        for frame in frames {
            let verdict = self.send(frame.as_slice());
            sent.push_reserved(verdict);
            if verdict == Sent::Broken {
                return;
            }
        }
    }
}

/// A stream of bytes from a client and the way back for replies, with one count of failures.
pub trait Link: LinkIn + LinkOut {
    ghost one_count: { (link : Self) → Self.failed_receives link ≡ Self.failed_sends link };
}
