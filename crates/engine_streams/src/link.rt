//! A link over any reader and writer.

ghost use Rattle.std.specs.Prelude.{◌≡◌, ◌≤◌, ◌<◌, ◌+◌, length, map, take, Ok, IfOk, OnErr, OnOk, vec_len, vec_capacity};
ghost use Rattle.std.specs.Io.KnownBytes.{Appends, Consumes, Keeps, ReadConsumes};
ghost use Rattle.engine.specs.Batches.{bytes_of};
ghost use Rattle.engine.specs.Links.{counted};
ghost use Rattle.engine_streams.specs.Joining.{SendsFirst};
ghost use Rattle.engine_streams.specs.Streams.{unused, Sends};
ghost use Rattle.engine_streams.specs.Writing.{AppendsPart};
ghost use Rattle.engine.specs.declared.links.Sent.TheVariants.{Taken};

use crate::joining::{SMALL, join, push_taken, whole_in};
use crate::writing::{write_ahead, write_counted, write_flushed};
use engine::{Link, LinkIn, LinkOut, Received, ReplyBytes, Sent};
use std::alloc::Global;
use std::io;
use std::io::{ErrorKind, Read, Write};
use std::marker::Model;

/// How many replies in a row a writer may hold back. So a reply waits for the work on at most that many requests.
const HELD_BACK: u8 = 7;

/// A link that takes what its reader has, as it comes, and writes each reply completely. Small replies that are offered
/// together are joined. If more requests are available, small replies are left to the writer, which may hold them back;
/// they are sent with a later one, and at the latest before the next read.
#[derive(Drop)]
pub struct StreamLink<R: Read, W: Write> {
    reader: R,
    writer: W,
    /// The replies that are joined. Between two calls it is only an empty buffer.
    joined: Vec<u8>,
    /// Whether bytes of another request are available.
    has_more: bool,
    /// How many replies the writer was given and may still hold back.
    held_back: u8,
    /// How many of its calls have failed.
    failures: u64,
}

impl<R: Read, W: Write> Model for StreamLink<R, W> {
    ghost use Rattle.engine_streams.specs.Streams.{Streaming};

    ghost Value = { Streaming };

    ghost view = { λ l. record { input = R.remaining l.reader; output = W.contents l.writer; failures = l.failures } };
}

/// Reads what is there, at most as much as fits. A read that is interrupted by a signal is made again.
fn read_there<R: Read>(reader: &mut R, room: &mut [u8]) -> io::Result<usize>
    ensures within { IfOk result (λ n. n ≤ length room.new) }
    ensures bytes { ReadConsumes (R.remaining reader.old) (R.remaining reader.new) result room.new }
{
    for _try in 0..u64::MAX {
        match reader.read(room) {
            Ok(count) => return Ok(count),
            Err(error) => {
                if error.kind() != ErrorKind::Interrupted {
                    return Err(error);
                }
            }
        }
    }
    reader.read(room)
}

impl<R: Read, W: Write> StreamLink<R, W> {
    /// A link without traffic so far. It does not allocate before replies are joined.
    pub fn new(alloc: Global, reader: R, writer: W) -> StreamLink<R, W>
        ensures { result ≡ unused (R.remaining reader) (W.contents writer) }
    {
        StreamLink {
            reader,
            writer,
            joined: Vec::new(alloc),
            has_more: false,
            held_back: 0,
            failures: 0,
        }
    }

    /// Writes one reply, and flushes the writer unless the reply may be held back.
    fn write(&mut self, frame: &[u8]) -> io::Result<()>
        ensures whole { OnOk result (Sends self.old frame.now Taken self.new) }
        ensures part { OnErr result (AppendsPart self.old.output self.new.output frame.now × (self.new ≡ record self.old { output = self.new.output })) }
    {
        if self.has_more && self.held_back < HELD_BACK && frame.len() <= SMALL {
            self.held_back += 1;
            return write_ahead(&mut self.writer, frame);
        }
        self.held_back = 0;
        write_flushed(&mut self.writer, frame)
    }

    /// Flushes what the writer may have held back.
    fn hand_on(&mut self) -> io::Result<()>
        ensures { Keeps self.old.output self.new.output × (self.new ≡ record self.old { output = self.new.output }) }
    {
        if self.held_back == 0 {
            return Ok(());
        }
        self.held_back = 0;
        self.writer.flush()
    }

    /// Reads what is there, after flushing what was held back.
    fn read(&mut self, room: &mut [u8]) -> io::Result<usize>
        ensures within { IfOk result (λ n. n ≤ length room.new) }
        ensures bytes { ReadConsumes self.old.input self.new.input result room.new }
        ensures same { Keeps self.old.output self.new.output × (self.new ≡ record self.old { input = self.new.input; output = self.new.output }) }
    {
        // The client may be waiting for these replies before it sends more.
        self.hand_on()?;
        read_there(&mut self.reader, room)
    }

    // Offers the first of these replies: those that can be joined, or a single one. False means that the link broke.
    fn send_first(&mut self, frames: &[ReplyBytes], sent: &mut Vec<Sent>) -> bool
        requires some { 0 < length frames.now }
        requires room { vec_len sent.old + length frames.now ≤ vec_capacity sent.old }
        ensures sends { SendsFirst self.old (map bytes_of frames.now) sent.old.items self.new sent.new.items result }
        ensures room { vec_capacity sent.new ≡ vec_capacity sent.old }
    {
        let count = join(frames, &mut self.joined);
        if count < 2 {
            let verdict = self.send(frames[0].as_slice());
            sent.push_reserved(verdict);
            return verdict != Sent::Broken;
        }
        match write_counted(&mut self.writer, &self.joined) {
            Ok(()) => {
                push_taken(sent, count);
                true
            }
            Err(fault) => {
                self.failures = self.failures.saturating_add(1);
                // If everything was written but the flush failed, it is not known whether the last one was taken.
                push_taken(sent, whole_in(&frames[..count - 1], fault.written));
                sent.push_reserved(Sent::Broken);
                false
            }
        }
    }
}

impl<R: Read + Drop, W: Write> StreamLink<R, W> {
    /// Returns the writer.
    pub fn into_writer(self) -> W
        ensures { W.contents result ≡ self.output }
    {
        let StreamLink {
            reader: _,
            writer,
            joined: _,
            has_more: _,
            held_back: _,
            failures: _,
        } = self;
        writer
    }
}

impl<R: Read, W: Write> LinkIn for StreamLink<R, W> {
    ghost use Rattle.engine_streams.specs.Streams.{Receives};
    ghost use Rattle.engine_streams.specs.CountingLemmas.{receives_counted};

    ghost receives = { Receives };

    ghost failed_receives = { λ l. l.failures };

    ghost counts_receives = { receives_counted };

    fn receive(&mut self, room: &mut [u8]) -> Received {
        if room.is_empty() {
            return Received::Bytes(0);
        }
        match self.read(room) {
            Ok(0) => Received::End,
            Ok(count) => Received::Bytes(count),
            Err(_) => {
                self.failures = self.failures.saturating_add(1);
                Received::Broken
            }
        }
    }
}

impl<R: Read, W: Write> LinkOut for StreamLink<R, W> {
    ghost use Rattle.engine_streams.specs.Streams.{Sends};
    ghost use Rattle.engine_streams.specs.CountingLemmas.{sends_counted};

    ghost sends = { Sends };

    ghost failed_sends = { λ l. l.failures };

    ghost counts_sends = { sends_counted };

    fn expect_more(&mut self, more: bool) {
        self.has_more = more;
    }

    fn send(&mut self, frame: &[u8]) -> Sent {
        match self.write(frame) {
            Ok(()) => Sent::Taken,
            Err(_) => {
                self.failures = self.failures.saturating_add(1);
                Sent::Broken
            }
        }
    }

    fn send_all(&mut self, frames: &[ReplyBytes], sent: &mut Vec<Sent>) {
        while sent.len() < frames.len() {
            if !self.send_first(&frames[sent.len()..], sent) {
                return;
            }
        }
    }
}

impl<R: Read, W: Write> Link for StreamLink<R, W> {
    ghost use Rattle.std.specs.Prelude.{refl};

    ghost one_count = { λ _. refl };
}
