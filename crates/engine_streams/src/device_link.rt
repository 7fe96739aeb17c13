//! A link over the kernel's FUSE device.

ghost use Rattle.std.specs.Prelude.{◌≡◌, ◌<◌, ◌≤◌, [], length, take, IfOk};
ghost use Rattle.engine.specs.Links.{heard, IsWithin};
ghost use Rattle.engine_streams.specs.Device.{got, unused, Fails, HandsOn, Reads, Receives, Writes};

use crate::device::{DeviceFault, ReadRequest, WriteReply};
use engine::{Link, LinkIn, LinkOut, Received, Sent};
use std::alloc::{AllocError, Global};
use std::marker::Model;
use wire::MAX_FRAME_LEN;

/// A link over a device where each read returns one whole request, and each write takes one whole reply. So nothing is
/// joined, held back or cut. A reply that nobody waits for any more is untaken, and the link goes on.
#[derive(Drop)]
pub struct DeviceLink<R: ReadRequest + Drop, W: WriteReply + Drop> {
    requests: R,
    replies: W,
    /// The buffer for a request if the caller's is shorter than the longest frame.
    frame: Vec<u8>,
    /// The bytes of it that were not returned yet start here.
    from: usize,
    until: usize,
    /// How many of its calls have failed.
    failures: u64,
    ghost len: { length frame.items ≡ 69632 },
    ghost order: { from ≤ until },
    ghost within: { until ≤ 69632 },
}

impl<R: ReadRequest + Drop, W: WriteReply + Drop> Model for DeviceLink<R, W> {
    ghost use Rattle.std.specs.Prelude.{◌-◌, drop, take};
    ghost use Rattle.engine_streams.specs.Device.{OnDevice};

    ghost Value = { OnDevice R W };

    ghost view = { λ l. record { requests = l.requests; replies = l.replies; kept = take (l.until - l.from) (drop l.from l.frame.items); failures = l.failures } };
}

/// Reads a request. A read that is interrupted by a signal, finds nothing, or whose request was given up is made again.
fn read_again<R: ReadRequest>(requests: &mut R, room: &mut [u8]) -> Result<usize, DeviceFault>
    requires { length room.old ≡ 69632 }
    ensures some { IfOk result (λ n. 0 < n) }
    ensures within { IfOk result (λ n. n ≤ length room.new) }
    ensures len { length room.new ≡ length room.old }
    ensures reads { Reads R.gives requests.old (got result room.new) requests.new }
{
    for _try in 0..u64::MAX {
        match requests.read_request(room) {
            Ok(count) => return Ok(count),
            Err(fault) => {
                if !fault.is_passing() {
                    return Err(fault);
                }
            }
        }
    }
    requests.read_request(room)
}

/// Writes a reply with one write. If that is interrupted by a signal, it is made again.
fn write_again<W: WriteReply>(replies: &mut W, reply: &[u8]) -> Result<usize, DeviceFault>
    ensures within { IfOk result (λ n. n ≤ length reply.now) }
    ensures writes { Writes W.takes replies.old reply.now result replies.new }
{
    for _try in 0..u64::MAX {
        match replies.write_reply(reply) {
            Ok(count) => return Ok(count),
            Err(DeviceFault::Interrupted) => {}
            Err(fault) => return Err(fault),
        }
    }
    replies.write_reply(reply)
}

impl<R: ReadRequest + Drop, W: WriteReply + Drop> DeviceLink<R, W> {
    /// A link without traffic so far.
    pub fn new(alloc: Global, requests: R, replies: W) -> Result<DeviceLink<R, W>, AllocError>
        ensures { IfOk result (λ link. link ≡ unused requests replies) }
    {
        let mut frame = Vec::new(alloc);
        frame.resize(MAX_FRAME_LEN, 0)?;
        Ok(DeviceLink {
            requests,
            replies,
            frame,
            from: 0,
            until: 0,
            failures: 0,
        })
    }

    /// Returns what is kept, at most as much as fits.
    fn hand_on(&mut self, room: &mut [u8]) -> usize
        ensures within { result ≤ length room.new }
        ensures len { length room.new ≡ length room.old }
        ensures handed { HandsOn self.old (take result room.new) self.new }
    {
        let count = room.len().min(self.until - self.from);
        let end = self.from + count;
        room[..count].copy_from_slice(&self.frame[self.from..end]);
        self.from = end;
        count
    }

    /// The result of a receive after a read that failed.
    fn failed(&mut self, fault: DeviceFault) -> Received
        ensures { Fails self.old fault result self.new }
    {
        if fault.is_end() {
            return Received::End;
        }
        self.failures = self.failures.saturating_add(1);
        Received::Broken
    }

    /// Receives into a buffer that is shorter than the longest frame, when nothing is kept.
    fn receive_short(&mut self, room: &mut [u8]) -> Received
        requires none { self.old.kept ≡ [] }
        ensures within { IsWithin result (length room.new) }
        ensures brought { Receives R.gives self.old (heard result room.new) self.new }
    {
        match read_again(&mut self.requests, self.frame.as_mut_slice()) {
            Ok(count) => {
                self.from = 0;
                self.until = count;
                Received::Bytes(self.hand_on(room))
            }
            Err(fault) => self.failed(fault),
        }
    }
}

impl<R: ReadRequest + Drop, W: WriteReply + Drop> LinkIn for DeviceLink<R, W> {
    ghost use Rattle.engine_streams.specs.Device.{Receives};
    ghost use Rattle.engine_streams.specs.DeviceCounting.{receives_counted};

    ghost receives = { Receives R.gives };

    ghost failed_receives = { λ l. l.failures };

    ghost counts_receives = { receives_counted R.gives };

    fn receive(&mut self, room: &mut [u8]) -> Received {
        if self.from < self.until {
            return Received::Bytes(self.hand_on(room));
        }
        if room.len() < MAX_FRAME_LEN {
            return self.receive_short(room);
        }
        // No more room than that is offered: the kernel fills a BATCH_FORGET up to whatever room it is given.
        match read_again(&mut self.requests, &mut room[..MAX_FRAME_LEN]) {
            Ok(count) => Received::Bytes(count),
            Err(fault) => self.failed(fault),
        }
    }

    fn was_waiting(&self) -> bool {
        self.requests.was_waiting()
    }
}

impl<R: ReadRequest + Drop, W: WriteReply + Drop> LinkOut for DeviceLink<R, W> {
    ghost use Rattle.engine_streams.specs.Device.{Sends};
    ghost use Rattle.engine_streams.specs.DeviceCounting.{sends_counted};

    ghost sends = { Sends W.takes };

    ghost failed_sends = { λ l. l.failures };

    ghost counts_sends = { sends_counted W.takes };

    fn send(&mut self, frame: &[u8]) -> Sent {
        let told = write_again(&mut self.replies, frame);
        if told == Ok(frame.len()) {
            return Sent::Taken;
        }
        self.failures = self.failures.saturating_add(1);
        match told {
            // Nobody waits for the reply since the caller was killed, or the request was given up.
            Err(DeviceFault::Gone) => Sent::Untaken,
            Ok(_) | Err(_) => Sent::Broken,
        }
    }
}

impl<R: ReadRequest + Drop, W: WriteReply + Drop> Link for DeviceLink<R, W> {
    ghost use Rattle.std.specs.Prelude.{refl};

    ghost one_count = { λ _. refl };
}
