//! A link over a device whose reads and writes fail in every way.

use engine::Received::{Broken, Bytes, End};
use engine::Sent::{Taken, Untaken};
use engine::{LinkIn, LinkOut, Received, Sent};
use engine_streams::{DeviceLink, NoDevice};
use std::alloc::{AllocError, Global};
use std::sync::{Arc, Mutex};
use std::test::Fail;
use test_support::Written::{Errno, Part, Whole};
use test_support::{Log, ScriptedReplies, ScriptedRequests, Written};

/// The length of the longest frame, and a longer buffer.
const LONGEST: usize = 69_632;

const ROOM: usize = 131_072;

/// A device that returns requests of these lengths, or error numbers. The bytes of a request are its position, counted
/// from 1.
fn requests(alloc: Global, reads: &[Result<usize, i32>]) -> Result<ScriptedRequests, AllocError> {
    let mut told = Vec::new(alloc);
    let mut place = 0u8;
    for read in reads {
        place = place.wrapping_add(1);
        told.push(match read {
            Ok(len) => {
                let mut frame = Vec::new(alloc);
                frame.resize(*len, place)?;
                Ok(frame)
            }
            Err(errno) => Err(*errno),
        })?;
    }
    Ok(ScriptedRequests::new(told))
}

/// The results of reads, and what is received into a buffer that is long enough. EINTR is 4, EAGAIN 11, ENOENT 2,
/// ENODEV 19.
const READS: &[(&[Result<usize, i32>], &[Received])] = &[
    (&[], &[End]),
    (&[Err(19)], &[End]),
    (&[Ok(40), Ok(48)], &[Bytes(40), Bytes(48), End]),
    (&[Ok(LONGEST), Ok(40)], &[Bytes(LONGEST), Bytes(40), End]),
    (&[Err(4), Ok(40)], &[Bytes(40), End]),
    (&[Err(11), Ok(40)], &[Bytes(40), End]),
    (&[Err(2), Ok(40)], &[Bytes(40), End]),
    (
        &[Ok(40), Err(2), Err(4), Err(11), Err(2), Ok(41)],
        &[Bytes(40), Bytes(41), End],
    ),
    (&[Err(4), Err(11), Err(2), Err(19)], &[End]),
    (&[Err(4), Err(5)], &[Broken]),
    (&[Ok(40), Err(1)], &[Bytes(40), Broken]),
    (&[Err(9)], &[Broken]),
    (&[Err(22)], &[Broken]),
    (&[Err(103)], &[Broken]),
];

#[test]
fn reads_are_told_as_what_they_are(rt: HostRuntime) -> Result<(), Fail> {
    let mut room = Vec::new(rt.alloc());
    room.resize(ROOM, 0)?;
    for (row, (reads, received)) in READS.iter().enumerate() {
        let requests = requests(rt.alloc(), *reads)?;
        let mut link = DeviceLink::new(rt.alloc(), requests, NoDevice)?;
        for told in *received {
            if link.receive(room.as_mut_slice()) != *told {
                return Err(Fail::from(("row", row)));
            }
        }
    }
    Ok(())
}

/// A request that is longer than the buffer comes in pieces, followed by the next one.
#[test]
fn short_rooms_lose_nothing(rt: HostRuntime) -> Result<(), Fail> {
    for len in [1usize, 7, 39, 40, 100, LONGEST - 1] {
        let requests = requests(rt.alloc(), &[Ok(40), Err(4), Ok(100)])?;
        let mut link = DeviceLink::new(rt.alloc(), requests, NoDevice)?;
        let mut room = Vec::new(rt.alloc());
        room.resize(len, 0)?;
        let mut came = Vec::new(rt.alloc());
        for _ in 0..141u8 {
            let Bytes(count) = link.receive(room.as_mut_slice()) else {
                break;
            };
            came.extend_from_slice(&room[..count])?;
        }
        let is_first = came.iter().take(40).all(|byte| *byte == 1);
        let is_second = came.iter().skip(40).all(|byte| *byte == 3);
        if came.len() != 140 || !is_first || !is_second {
            return Err(Fail::from(("room", len)));
        }
    }
    Ok(())
}

/// Replies of 16, 20 and 24 bytes.
fn replies(alloc: Global) -> Result<Vec<engine::ReplyBytes>, AllocError> {
    let mut frames = Vec::new(alloc);
    frames.push(engine::ReplyBytes::Header([1; 16]))?;
    for (place, len) in [(2u8, 20usize), (3, 24)] {
        let mut bytes = Vec::new(alloc);
        bytes.resize(len, place)?;
        frames.push(engine::ReplyBytes::Whole(bytes))?;
    }
    Ok(frames)
}

/// The results of writes, what becomes of three replies that are offered together, and how many bytes each write took.
const WRITES: &[(&[Written], &[Sent], &[usize])] = &[
    (&[], &[Taken, Taken, Taken], &[16, 20, 24]),
    (&[Errno(2)], &[Untaken, Taken, Taken], &[20, 24]),
    (
        &[Whole, Errno(2), Errno(2)],
        &[Taken, Untaken, Untaken],
        &[16],
    ),
    (&[Errno(4), Errno(4)], &[Taken, Taken, Taken], &[16, 20, 24]),
    (&[Errno(4), Errno(2)], &[Untaken, Taken, Taken], &[20, 24]),
    (&[Whole, Errno(5)], &[Taken, Sent::Broken], &[16]),
    (&[Whole, Errno(19)], &[Taken, Sent::Broken], &[16]),
    (&[Errno(11)], &[Sent::Broken], &[]),
    (&[Errno(22)], &[Sent::Broken], &[]),
    (&[Part(15)], &[Sent::Broken], &[15]),
    (&[Part(0)], &[Sent::Broken], &[0]),
    (&[Errno(2), Part(19)], &[Untaken, Sent::Broken], &[19]),
    (
        &[Whole, Whole, Part(23)],
        &[Taken, Taken, Sent::Broken],
        &[16, 20, 23],
    ),
];

/// Offers the three replies. Returns what became of each, and how many bytes each write took.
fn offer(alloc: Global, told: &[Written]) -> Result<(Vec<Sent>, Vec<usize>), Fail> {
    let log: Log = Arc::new(alloc, Mutex::new(Vec::new(alloc)))?;
    let writes = Vec::from_slice(alloc, told)?;
    let device = ScriptedReplies::new(writes, Arc::try_clone(&log)?);
    let mut link = DeviceLink::new(alloc, NoDevice, device)?;
    let frames = replies(alloc)?;
    let mut sent = Vec::with_capacity(alloc, frames.len())?;
    link.send_all(frames.as_slice(), &mut sent);
    let mut lens = Vec::new(alloc);
    if let Some(taken) = log.try_lock() {
        for bytes in taken.iter() {
            lens.push(bytes.len())?;
        }
    }
    Ok((sent, lens))
}

#[test]
fn each_reply_is_a_write_of_its_own(rt: HostRuntime) -> Result<(), Fail> {
    for (row, (told, verdicts, lens)) in WRITES.iter().enumerate() {
        let (sent, written) = offer(rt.alloc(), *told)?;
        if sent.as_slice() != *verdicts || written.as_slice() != *lens {
            return Err(Fail::from(("row", row)));
        }
    }
    Ok(())
}
