//! Batches of replies, by their lengths.

use crate::streams::narrow::{Narrow, make_narrow};
use engine::Sent::{Broken, Taken};
use engine::{LinkOut, ReplyBytes, Sent};
use engine_streams::StreamLink;
use std::alloc::{AllocError, Global};
use std::io;
use std::test::Fail;

/// A reply of that many bytes, each of which is the reply's index. One of 16 bytes is a header.
fn reply(alloc: Global, place: u8, len: usize) -> Result<ReplyBytes, AllocError> {
    if len == 16 {
        return Ok(ReplyBytes::Header([place; 16]));
    }
    let mut bytes = Vec::new(alloc);
    bytes.resize(len, place)?;
    Ok(ReplyBytes::Whole(bytes))
}

/// Replies of these lengths. The bytes of the first are ones.
fn replies(alloc: Global, lens: &[usize]) -> Result<Vec<ReplyBytes>, AllocError> {
    let mut frames = Vec::new(alloc);
    let mut place = 0u8;
    for len in lens {
        place = place.wrapping_add(1);
        frames.push(reply(alloc, place, *len)?)?;
    }
    Ok(frames)
}

/// Offers replies of these lengths to that writer, and returns what became of each.
fn send(alloc: Global, lens: &[usize], writer: Narrow) -> Result<(Vec<Sent>, Narrow), AllocError> {
    let frames = replies(alloc, lens)?;
    let mut sent = Vec::with_capacity(alloc, frames.len())?;
    let mut link = StreamLink::new(alloc, io::empty(), writer);
    link.send_all(frames.as_slice(), &mut sent);
    Ok((sent, link.into_writer()))
}

/// A header, and replies of 20 and of 24 bytes.
const THREE: &[usize] = &[16, 20, 24];

/// The results of the replies, from that many bytes on.
const VERDICTS: &[(usize, &[Sent])] = &[
    (0, &[Broken]),
    (16, &[Taken, Broken]),
    (36, &[Taken, Taken, Broken]),
    (60, &[Taken, Taken, Taken]),
];

/// Their results for that many bytes.
fn verdicts_at(left: usize) -> &'static [Sent] {
    let mut verdicts: &'static [Sent] = &[];
    for (from, told) in VERDICTS {
        if *from <= left {
            verdicts = *told;
        }
    }
    verdicts
}

/// The bytes of the three replies, one after another.
fn is_front(bytes: &[u8]) -> bool {
    for (i, byte) in bytes.iter().enumerate() {
        let place = if i < 16 {
            1
        } else if i < 36 {
            2
        } else {
            3
        };
        if *byte != place {
            return false;
        }
    }
    true
}

#[test]
fn write_fails_after_each_byte(rt: HostRuntime) -> Result<(), Fail> {
    for left in 0..62usize {
        let (sent, writer) = send(rt.alloc(), THREE, make_narrow(rt.alloc(), left, true))?;
        if sent.as_slice() != verdicts_at(left) {
            return Err(Fail::from(("verdicts", left)));
        }
        if writer.bytes.len() != left.min(60) || !is_front(writer.bytes.as_slice()) {
            return Err(Fail::from(("bytes", left)));
        }
    }
    Ok(())
}

/// Everything is written but the flush fails, so it is not known whether the last one was taken.
#[test]
fn flush_fails(rt: HostRuntime) -> Result<(), Fail> {
    let (sent, writer) = send(rt.alloc(), THREE, make_narrow(rt.alloc(), 100, false))?;
    assert!(rt; sent.as_slice() == [Taken, Taken, Broken].as_slice());
    assert_eq!(rt; writer.bytes.len(), 60);
    Ok(())
}

/// The lengths of replies, and how many bytes each write has.
const WRITES: &[(&[usize], &[usize])] = &[
    (&[], &[]),
    (&[16], &[16]),
    (&[144, 16, 144], &[304]),
    (&[16_384, 16_384], &[32_768]),
    (&[16_384, 16_384, 16_384, 16_384, 16], &[65_536, 16]),
    (&[16_384, 16_385, 16], &[16_384, 16_385, 16]),
    (&[16, 144, 131_088, 16, 144], &[160, 131_088, 160]),
    (&[131_088, 131_088], &[131_088, 131_088]),
    (&[16_384, 16_384, 16_384, 16_383, 16, 144], &[65_535, 160]),
];

#[test]
fn small_replies_are_joined(rt: HostRuntime) -> Result<(), Fail> {
    for (lens, writes) in WRITES {
        let writer = make_narrow(rt.alloc(), usize::MAX, true);
        let (sent, writer) = send(rt.alloc(), *lens, writer)?;
        if sent.len() != lens.len() || sent.as_slice().contains(&Broken) {
            return Err(Fail::from(("not all are taken", lens.len())));
        }
        if writer.writes.as_slice() != *writes {
            return Err(Fail::from(("writes", writer.writes.len())));
        }
    }
    Ok(())
}
