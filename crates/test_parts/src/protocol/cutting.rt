//! A stream that is cut at any place, and lengths that no frame may have. What a cutter is given and what it gives are steps, taken by
//! one function: written out in the tests they are dear to check.

use Step::{Feed, Next, Peek, Refuse, Rest, Skip};
use Wanted::{BadLength, Nothing, Whole};
use std::alloc::Global;
use std::test::Fail;
use wire::{CutFault, Cutter};

/// LOOKUP of `a` in the root, unique 7.
const LOOKUP_A: [u8; 42] = [
    0x2a, 0, 0, 0, 0x01, 0, 0, 0, 0x07, 0, 0, 0, 0, 0, 0, 0, // len, opcode, unique
    0x01, 0, 0, 0, 0, 0, 0, 0, 0, 0, 0, 0, 0, 0, 0, 0, 0, 0, 0, 0, 0, 0, 0, 0, // node, and what is not read
    0x61, 0, // the name
];

/// Where a piece is in a buffer. None means that it is not in one.
type Gap = Option<usize>;

/// Where a piece and the next one are in their buffers.
const GAPS: &[(Gap, Gap)] = &[
    (Some(0), Some(0)),
    (Some(0), None),
    (None, Some(0)),
    (Some(20), Some(20)),
    (Some(64), Some(64)),
    (Some(64), None),
    (None, Some(64)),
];

/// What a cutter has next.
#[derive(Clone, Copy)]
enum Wanted {
    Nothing,
    /// `LOOKUP_A`.
    Whole,
    BadLength(u32),
}

/// A step with a cutter and a buffer.
#[derive(Clone, Copy)]
enum Step<'a> {
    /// It takes a piece as it is, or in the buffer after that many other bytes.
    Feed(Gap, &'a [u8]),
    /// It takes none any more, since no frame has this length.
    Refuse(u32),
    /// It has that many bytes.
    Rest(usize),
    /// That is next, and stays.
    Peek(Wanted),
    /// The frame that is next, of that length, is skipped.
    Skip(usize),
    /// That is next, and is taken if it is a frame.
    Next(Wanted),
}

/// Gives it the piece in the buffer after that many other bytes.
fn feed_from(
    cutter: &mut Cutter,
    room: &mut Vec<u8>,
    gap: usize,
    piece: &[u8],
) -> Result<(), CutFault> {
    room.clear();
    room.resize(gap, 0xff)?;
    room.extend_from_slice(piece)?;
    cutter.feed_from(room, gap, piece.len())
}

fn is_fed(cutter: &mut Cutter, room: &mut Vec<u8>, gap: Gap, piece: &[u8]) -> bool {
    match gap {
        Some(gap) => feed_from(cutter, room, gap, piece).is_ok(),
        None => cutter.feed(piece).is_ok(),
    }
}

/// Whether it is refused for that length.
fn is_bad(told: Result<(), CutFault>, wanted: u32) -> bool {
    match told {
        Err(CutFault::BadLength { len }) => len == wanted,
        Ok(()) | Err(CutFault::Memory) => false,
    }
}

/// Whether it takes no piece any more, for that length.
fn is_refused(cutter: &mut Cutter, room: &mut Vec<u8>, len: u32) -> bool {
    is_bad(cutter.feed(&[]), len) && is_bad(cutter.feed_from(room, 0, 0), len)
}

/// Whether what is told is that.
fn is_wanted(told: Result<Option<&[u8]>, CutFault>, wanted: Wanted) -> bool {
    match (told, wanted) {
        (Ok(None), Nothing) => true,
        (Ok(Some(frame)), Whole) => frame == LOOKUP_A.as_slice(),
        (Err(CutFault::BadLength { len }), BadLength(bad)) => len == bad,
        _ => false,
    }
}

fn is_next(cutter: &mut Cutter, wanted: Wanted) -> bool {
    match cutter.next() {
        Ok(Some(frame)) => is_wanted(Ok(Some(frame.as_slice())), wanted),
        Ok(None) => is_wanted(Ok(None), wanted),
        Err(fault) => is_wanted(Err(fault), wanted),
    }
}

/// Whether a frame of that length is next, which is skipped then.
fn is_skipped(cutter: &mut Cutter, len: usize) -> bool {
    match cutter.peek() {
        Ok(Some(frame)) if frame.len() == len => {
            cutter.skip(len);
            true
        }
        _ => false,
    }
}

/// Whether it is as the step says.
fn is_so(cutter: &mut Cutter, room: &mut Vec<u8>, step: Step) -> bool {
    match step {
        Feed(gap, piece) => is_fed(cutter, room, gap, piece),
        Refuse(len) => is_refused(cutter, room, len),
        Rest(count) => cutter.rest() == count,
        Peek(wanted) => is_wanted(cutter.peek(), wanted),
        Skip(len) => is_skipped(cutter, len),
        Next(wanted) => is_next(cutter, wanted),
    }
}

/// Takes each step.
fn take(cutter: &mut Cutter, room: &mut Vec<u8>, steps: &[Step]) -> Result<(), Fail> {
    let mut number = 0u64;
    for step in steps {
        if !is_so(cutter, room, *step) {
            return Err(Fail::from(("otherwise at step", number)));
        }
        number = number.saturating_add(1);
    }
    Ok(())
}

/// Takes each step with a cutter and a buffer of their own.
fn tell(alloc: Global, steps: &[Step]) -> Result<(), Fail> {
    take(&mut Cutter::new(alloc), &mut Vec::new(alloc), steps)
}

#[test]
fn frame_cut_anywhere(rt: HostRuntime) -> Result<(), Fail> {
    for at in 1..42 {
        let (front, back) = LOOKUP_A.split_at(at);
        let steps = [
            Feed(None, front),
            Next(Nothing),
            Rest(at),
            Feed(None, back),
            Next(Whole),
            Rest(0),
            Next(Nothing),
        ];
        tell(rt.alloc(), &steps)?;
    }
    Ok(())
}

#[test]
fn frame_stays_until_it_is_skipped(rt: HostRuntime) -> Result<(), Fail> {
    let (front, back) = LOOKUP_A.split_at(30);
    let steps = [
        Feed(None, &LOOKUP_A),
        Feed(None, front),
        Peek(Whole),
        Rest(72),
        Peek(Whole),
        Rest(72),
        Skip(42),
        Peek(Nothing),
        Rest(30),
        Feed(None, back),
        Peek(Whole),
        Skip(42),
        Feed(None, &[0x27, 0, 0, 0]),
        Peek(BadLength(39)),
        Peek(BadLength(39)),
    ];
    tell(rt.alloc(), &steps)
}

/// A hundred times the rest of a frame comes, and the front of the next one.
fn take_pieces(cutter: &mut Cutter, room: &mut Vec<u8>) -> Result<(), Fail> {
    let (front, back) = LOOKUP_A.split_at(30);
    take(cutter, room, &[Feed(None, front)])?;
    let steps = [Feed(None, back), Feed(None, front), Next(Whole), Rest(30)];
    for _ in 0..100 {
        take(cutter, room, &steps)?;
    }
    Ok(())
}

#[test]
fn many_frames_each_in_two_pieces(rt: HostRuntime) -> Result<(), Fail> {
    take_pieces(&mut Cutter::new(rt.alloc()), &mut Vec::new(rt.alloc()))
}

/// Takes two frames, the first of which is cut there. The pieces are in the buffer at each of the gaps.
fn take_with_gaps(cutter: &mut Cutter, room: &mut Vec<u8>, at: usize) -> Result<(), Fail> {
    let Some((front, back)) = LOOKUP_A.split_at_checked(at) else {
        return Err(Fail::from("it is cut behind its end"));
    };
    for (one, other) in GAPS {
        let steps = [
            Feed(*one, front),
            Next(Nothing),
            Rest(at),
            Feed(*other, back),
            Feed(*one, &LOOKUP_A),
            Next(Whole),
            Rest(42),
            Next(Whole),
            Rest(0),
        ];
        take(cutter, room, &steps)?;
    }
    Ok(())
}

/// The same for each place at which the first one can be cut.
fn take_cut_anywhere(cutter: &mut Cutter, room: &mut Vec<u8>) -> Result<(), Fail> {
    for at in 1..42 {
        take_with_gaps(cutter, room, at)?;
    }
    Ok(())
}

#[test]
fn pieces_in_a_room_and_others_in_turn(rt: HostRuntime) -> Result<(), Fail> {
    take_cut_anywhere(&mut Cutter::new(rt.alloc()), &mut Vec::new(rt.alloc()))
}

/// The beginning of a frame, and its length, which no frame may have.
const BAD: &[(&[u8], u32)] = &[(&[0x27, 0, 0, 0], 39), (&[0x01, 0x10, 0x01, 0], 69633)];

/// The beginnings of frames of the least and of the greatest length.
const GOOD: &[&[u8]] = &[&[0x28, 0, 0, 0], &[0x00, 0x10, 0x01, 0]];

/// After a whole frame one begins with such a length: nothing more is taken, and nothing comes of it.
fn tell_bad(alloc: Global, first: &[u8], len: u32) -> Result<(), Fail> {
    let steps = [
        Feed(None, &LOOKUP_A),
        Feed(None, first),
        Next(Whole),
        Next(BadLength(len)),
        Refuse(len),
        Next(BadLength(len)),
        Refuse(len),
        Rest(4),
    ];
    tell(alloc, &steps)
}

#[test]
fn bad_length(rt: HostRuntime) -> Result<(), Fail> {
    for (first, len) in BAD {
        tell_bad(rt.alloc(), first, *len)?;
    }
    for first in GOOD {
        tell(rt.alloc(), &[Feed(None, first), Next(Nothing)])?;
    }
    Ok(())
}
