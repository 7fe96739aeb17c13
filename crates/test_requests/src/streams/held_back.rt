//! Replies that are offered one by one while more requests are available: when they are sent.

use crate::streams::narrow::{Narrow, make_narrow};
use engine::{LinkIn, LinkOut, Received, Sent};
use engine_streams::{Holding, StreamLink};
use std::alloc::{AllocError, Global};
use std::io;
use std::io::Empty;
use std::test::Fail;

type Held = StreamLink<Empty, Holding<Narrow>>;

/// A link whose writer holds back what it may, above one that takes that many bytes.
fn link(alloc: Global, left: usize) -> Held {
    let writer = Holding::new(alloc, make_narrow(alloc, left, true));
    StreamLink::new(alloc, io::empty(), writer)
}

/// Offers a reply of that many bytes, while more is available or not.
fn offer(alloc: Global, link: &mut Held, len: usize, has_more: bool) -> Result<Sent, AllocError> {
    let mut frame = Vec::new(alloc);
    frame.resize(len, 7u8)?;
    link.expect_more(has_more);
    Ok(link.send(frame.as_slice()))
}

/// The lengths of replies, whether more was available when each was offered, and how many bytes each write has up to
/// the next receive.
const WRITES: &[(&[(usize, bool)], &[usize])] = &[
    (&[], &[]),
    (&[(16, false), (20, false)], &[16, 20]),
    (&[(16, true), (20, true), (24, false)], &[60]),
    (&[(16, true), (20, true)], &[36]),
    (&[(16, false), (20, true), (24, true)], &[16, 44]),
    (
        &[
            (1, true),
            (1, true),
            (1, true),
            (1, true),
            (1, true),
            (1, true),
            (1, true),
            (1, true),
            (1, true),
        ],
        &[8, 1],
    ),
    (&[(16_384, true), (16, true)], &[16_400]),
    (&[(16_385, true), (16, true)], &[16_385, 16]),
    (
        &[(16, true), (131_088, true), (16, true)],
        &[16, 131_088, 16],
    ),
];

/// What became of replies that were all taken, and of the next receive.
fn offer_all(
    link: &mut Held,
    alloc: Global,
    replies: &[(usize, bool)],
) -> Result<bool, AllocError> {
    for (len, has_more) in replies {
        if offer(alloc, link, *len, *has_more)? != Sent::Taken {
            return Ok(false);
        }
    }
    Ok(link.receive(&mut [0; 8]) == Received::End)
}

#[test]
fn replies_wait_for_others_that_follow(rt: HostRuntime) -> Result<(), Fail> {
    for (replies, writes) in WRITES {
        let mut link = link(rt.alloc(), usize::MAX);
        if !offer_all(&mut link, rt.alloc(), *replies)? {
            return Err(Fail::from(("not all are taken", replies.len())));
        }
        let writer = link.into_writer();
        if writer.writer().writes.as_slice() != *writes {
            return Err(Fail::from(("writes", replies.len())));
        }
    }
    Ok(())
}

/// If replies that were held back cannot be sent, the receive is broken, and counts.
#[test]
fn receive_breaks_where_nothing_goes_out(rt: HostRuntime) -> Result<(), Fail> {
    for left in 0..36usize {
        let mut link = link(rt.alloc(), left);
        let first = offer(rt.alloc(), &mut link, 16, true)?;
        let second = offer(rt.alloc(), &mut link, 20, true)?;
        if first != Sent::Taken || second != Sent::Taken {
            return Err(Fail::from(("not taken", left)));
        }
        if link.receive(&mut [0; 8]) != Received::Broken {
            return Err(Fail::from(("not broken", left)));
        }
        if link.into_writer().writer().bytes.len() != left {
            return Err(Fail::from(("bytes", left)));
        }
    }
    Ok(())
}

/// The reply with which held-back ones are to be sent breaks the link if that fails.
#[test]
fn reply_breaks_where_those_before_do_not_go_out(rt: HostRuntime) -> Result<(), Fail> {
    for left in 0..36usize {
        let mut link = link(rt.alloc(), left);
        let first = offer(rt.alloc(), &mut link, 16, true)?;
        let last = offer(rt.alloc(), &mut link, 20, false)?;
        if first != Sent::Taken || last != Sent::Broken {
            return Err(Fail::from(("verdicts", left)));
        }
    }
    Ok(())
}
