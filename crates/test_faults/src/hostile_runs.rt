//! Sessions with hostile frames.

ghost use Rattle.std.specs.Prelude.{◌≡◌};

use crate::bytes::{bytes_of, joined};
use crate::client::{Client, Over, serve_on};
use crate::frames::{AGREED, INIT};
use crate::hostile::{Frame, Row};
use crate::hostile_frames::ROWS;
use crate::product::tree_of;
use crate::slow::PLAIN;
use crate::watched::Watched;
use engine::{Sent, Served, SessionEnd};
use handles::Dirs;
use ledger::{Blanks, Ledgers};
use std::alloc::{AllocError, Global};
use std::marker::Brand;
use std::random::RandomSource;
use std::sync::Wait;
use std::test::Fail;
use terms::Kinds;

/// A row that fails.
#[derive(Debug, Drop)]
struct Otherwise {
    says: &'static str,
    are_replies: bool,
    is_ledger: bool,
    is_end: bool,
}

/// The bytes of the first digits, a byte repeated `count` times, and the bytes of the last digits.
fn filled(alloc: Global, head: &str, fill: u8, count: usize, tail: &str) -> Result<Vec<u8>, Fail> {
    let mut bytes = bytes_of(alloc, head)?;
    for _ in 0..count {
        bytes.push(fill)?;
    }
    bytes.extend_from_slice(&bytes_of(alloc, tail)?)?;
    Ok(bytes)
}

fn frame_bytes(alloc: Global, frame: Frame) -> Result<Vec<u8>, Fail> {
    match frame {
        Frame::Whole(digits) => bytes_of(alloc, digits),
        Frame::Filled(head, fill, count, tail) => filled(alloc, head, fill, count, tail),
    }
}

/// Adds the frame in pieces that fit the room of a receive.
fn add_pieces(alloc: Global, pieces: &mut Vec<Vec<u8>>, frame: &[u8]) -> Result<(), AllocError> {
    for piece in frame.chunks(4096) {
        pieces.push(Vec::from_slice(alloc, piece)?)?;
    }
    Ok(())
}

/// INIT and the frames, in such pieces.
fn pieces_of(alloc: Global, frames: &[Frame]) -> Result<Vec<Vec<u8>>, Fail> {
    let mut pieces = Vec::new(alloc);
    pieces.push(bytes_of(alloc, INIT)?)?;
    for frame in frames {
        add_pieces(alloc, &mut pieces, &frame_bytes(alloc, *frame)?)?;
    }
    Ok(pieces)
}

/// Serves the sample tree to a client that sends these pieces, and returns the replies too.
fn serve_pieces<H: Wait + RandomSource, T: Ledgers>(
    rt: &H,
    alloc: Global,
    blanks: Blanks,
    kinds: Kinds,
    pieces: Vec<Vec<u8>>,
) -> Result<(Over, Vec<u8>), AllocError>
    requires names { blanks ≡ T.names }
    requires shares { T.names.parts ≡ 1 }
{
    let dirs = Dirs::new(alloc)?;
    let mut served = Served {
        calls: Watched::new(tree_of(alloc, &PLAIN)?, &[]),
        dirs: &dirs,
    };
    let mut client = Client::new(alloc, pieces, 0, Sent::Taken);
    let over = serve_on::<H, T>(rt, alloc, blanks, kinds, &mut served, &mut client)?;
    let Client { taken, .. } = client;
    Ok((over, taken))
}

/// Fails if the session differs from the row.
fn judge(row: &Row, over: &Over, taken: &[u8], replies: &[u8]) -> Result<(), Fail> {
    let are_replies = taken == replies;
    let is_ledger = over.image.postings.as_slice() == row.ledger && over.image.lawful();
    let is_end = over.end == SessionEnd::Closed { rest: 0 };
    if are_replies && is_ledger && is_end {
        return Ok(());
    }
    Err(Otherwise {
        says: row.says,
        are_replies,
        is_ledger,
        is_end,
    }
    .into())
}

/// Serves a row. What is expected is computed first, so that nothing fails once there is a session to drop.
fn run_row<H: Wait + RandomSource, T: Ledgers>(
    rt: &H,
    alloc: Global,
    blanks: Blanks,
    row: &Row,
) -> Result<(), Fail>
    requires names { blanks ≡ T.names }
    requires shares { T.names.parts ≡ 1 }
{
    let mut replies = bytes_of(alloc, AGREED)?;
    replies.extend_from_slice(&joined(alloc, row.replies)?)?;
    let pieces = pieces_of(alloc, row.frames)?;
    let (over, taken) = serve_pieces::<H, T>(rt, alloc, blanks, row.kinds, pieces)?;
    judge(row, &over, &taken, &replies)
}

#[test]
fn hostile_frames(rt: HostRuntime) -> Result<(), Fail> {
    for row in ROWS {
        run_row::<HostRuntime, Brand>(&rt, rt.alloc(), Blanks::new(1), row)?;
    }
    Ok(())
}

/// MKDIR of a name of 255 bytes in the folder with that number, unique 7.
fn make_below(alloc: Global, folder: u64) -> Result<Vec<u8>, Fail> {
    let mut bytes = bytes_of(alloc, "30010000 09000000 0700000000000000")?;
    bytes.extend_from_slice(&folder.to_le_bytes())?;
    let rest = "00000000 00000000 00000000 00000000 00000000 00000000";
    bytes.extend_from_slice(&filled(alloc, rest, b'n', 255, "00")?)?;
    Ok(bytes)
}

/// INIT, MKDIR of sixteen folders, each in the one before, and a LOOKUP of `a` in the last, which is node 17.
fn deep_frames(alloc: Global) -> Result<Vec<Vec<u8>>, Fail> {
    let mut frames = Vec::new(alloc);
    frames.push(bytes_of(alloc, INIT)?)?;
    for folder in 1..17u64 {
        frames.push(make_below(alloc, folder)?)?;
    }
    frames.push(bytes_of(
        alloc,
        "2a000000 01000000 0700000000000000 1100000000000000 00000000 00000000 00000000 00000000 6100",
    )?)?;
    Ok(frames)
}

// The path of `a` is longer than 4,096 bytes.
#[test]
fn too_long_path(rt: HostRuntime) -> Result<(), Fail> {
    let alloc = rt.alloc();
    let frames = deep_frames(alloc)?;
    let blanks = Blanks::new(1);
    let (over, taken) = serve_pieces::<HostRuntime, Brand>(
        &rt,
        alloc,
        blanks,
        Kinds::Plain,
        frames,
    )?;
    assert_eq!(rt; taken.len(), 80 + 16 * 144 + 16);
    assert!(rt; taken.ends_with(&bytes_of(alloc, "10000000 dcffffff 0700000000000000")?));
    assert_eq!(rt; over.image.postings.as_slice().len(), 32);
    Ok(())
}
