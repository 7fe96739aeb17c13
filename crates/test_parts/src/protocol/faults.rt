//! Faulty frames, and which fault is returned.

use Piece::{Bytes, Each};
use std::alloc::{AllocError, Global};
use std::test::Fail;
use terms::Names;
use wire::WireFault::{Body, Frame, NameBad, NameLong, Opcode};
use wire::{
    BATCH_FORGET, CREATE, DESTROY, FLUSH, FORGET, FSYNC, FSYNCDIR, GETATTR, HEADER_LEN, Header,
    INIT, INTERRUPT, LOOKUP, MKDIR, OPEN, OPENDIR, READ, READDIR, READDIRPLUS, RELEASE, RELEASEDIR,
    RENAME, RENAME2, RMDIR, SETATTR, STATFS, UNLINK, WRITE, WireFault, decode, has_reply,
    header_of,
};

/// A piece of a body.
#[derive(Clone, Copy)]
pub enum Piece<'a> {
    Bytes(&'a [u8]),
    /// A byte, and how many times.
    Each(u8, usize),
}

/// An opcode, what follows the header, and the fault that is returned.
#[derive(Clone, Copy)]
pub struct Row<'a>(pub u32, pub &'a [Piece<'a>], pub Option<WireFault>);

/// The length of a body is not that of its opcode, or there are not as many zero bytes as names.
const BODIES: &[Row] = &[
    Row(LOOKUP, &[], Some(Body)),
    Row(FORGET, &[Each(0, 7)], Some(Body)),
    Row(FORGET, &[Each(0, 9)], Some(Body)),
    Row(GETATTR, &[], Some(Body)),
    Row(GETATTR, &[Each(0, 15)], Some(Body)),
    Row(GETATTR, &[Each(0, 17)], Some(Body)),
    Row(SETATTR, &[Each(0, 87)], Some(Body)),
    Row(SETATTR, &[Each(0, 89)], Some(Body)),
    Row(MKDIR, &[Each(0, 7)], Some(Body)),
    Row(MKDIR, &[Each(0, 8)], Some(Body)),
    Row(MKDIR, &[Each(0, 8), Bytes(b"m")], Some(Body)),
    Row(UNLINK, &[Bytes(b"a")], Some(Body)),
    Row(UNLINK, &[Bytes(b"a\0b")], Some(Body)),
    Row(RMDIR, &[Bytes(b"a\0\0")], Some(Body)),
    Row(RENAME, &[Each(0, 7)], Some(Body)),
    Row(RENAME, &[Each(0, 8), Bytes(b"a\0")], Some(Body)),
    Row(RENAME, &[Each(0, 8), Bytes(b"a\0b")], Some(Body)),
    Row(RENAME, &[Each(0, 8), Bytes(b"a\0b\0c\0")], Some(Body)),
    Row(RENAME, &[Each(0, 8), Bytes(b"/\0")], Some(Body)),
    Row(RENAME2, &[Each(0, 8), Bytes(b"a\0b\0")], Some(Body)),
    Row(RENAME2, &[Each(0, 15)], Some(Body)),
    Row(RENAME2, &[Each(0, 16), Bytes(b"a\0")], Some(Body)),
    Row(RENAME2, &[Each(0, 16), Bytes(b"a\0b")], Some(Body)),
    Row(RENAME2, &[Each(0, 16), Bytes(b"a\0b\0c\0")], Some(Body)),
    Row(STATFS, &[Each(0, 1)], Some(Body)),
    Row(INIT, &[], Some(Body)),
    Row(INIT, &[Each(7, 15)], Some(Body)),
    Row(INIT, &[Each(7, 16)], None),
    Row(INIT, &[Each(7, 17)], None),
    Row(INIT, &[Each(0, 65552)], None),
    Row(INTERRUPT, &[], None),
    Row(INTERRUPT, &[Each(0, 7)], None),
    Row(DESTROY, &[], None),
    Row(DESTROY, &[Each(0, 1)], Some(Body)),
    Row(OPENDIR, &[Each(0, 7)], Some(Body)),
    Row(OPENDIR, &[Each(0, 8)], None),
    Row(OPENDIR, &[Each(0, 9)], Some(Body)),
    Row(READDIR, &[Each(0, 39)], Some(Body)),
    Row(READDIR, &[Each(0, 41)], Some(Body)),
    Row(RELEASEDIR, &[Each(0, 23)], Some(Body)),
    Row(RELEASEDIR, &[Each(0, 24)], None),
    Row(FSYNCDIR, &[Each(0, 17)], Some(Body)),
    Row(READDIRPLUS, &[Each(0, 39)], Some(Body)),
    Row(READDIRPLUS, &[Each(0, 40)], None),
    Row(OPEN, &[Each(0, 7)], Some(Body)),
    Row(OPEN, &[Each(0, 9)], Some(Body)),
    Row(READ, &[Each(0, 39)], Some(Body)),
    Row(READ, &[Each(0, 41)], Some(Body)),
    Row(WRITE, &[Each(0, 39)], Some(Body)),
    Row(WRITE, &[Each(0, 40)], None),
    Row(RELEASE, &[Each(0, 23)], Some(Body)),
    Row(RELEASE, &[Each(0, 25)], Some(Body)),
    Row(FSYNC, &[Each(0, 15)], Some(Body)),
    Row(FSYNC, &[Each(0, 17)], Some(Body)),
    Row(FLUSH, &[Each(0, 23)], Some(Body)),
    Row(FLUSH, &[Each(0, 25)], Some(Body)),
    Row(CREATE, &[Each(0, 15)], Some(Body)),
    Row(CREATE, &[Each(0, 16)], Some(Body)),
    Row(CREATE, &[Each(0, 16), Bytes(b"n")], Some(Body)),
    Row(CREATE, &[Each(0, 16), Bytes(b"n\0\0")], Some(Body)),
];

/// A size is above 131,072, or a count is not that of the pairs: the size of 2^28 pairs wraps around in 32 bits; or the
/// data of a WRITE does not have as many bytes as it says, or has more than 65,536.
const SIZES: &[Row] = &[
    Row(
        READ,
        &[Each(0, 16), Bytes(b"\x01\0\x02\0"), Each(0, 20)],
        Some(Body),
    ),
    Row(
        WRITE,
        &[Each(0, 16), Bytes(b"\x02\0\0\0"), Each(0, 21)],
        Some(Body),
    ),
    Row(
        WRITE,
        &[Each(0, 16), Bytes(b"\x02\0\0\0"), Each(0, 23)],
        Some(Body),
    ),
    Row(
        WRITE,
        &[Each(0, 16), Bytes(b"\0\0\x01\0"), Each(0, 65556)],
        None,
    ),
    Row(
        WRITE,
        &[Each(0, 16), Bytes(b"\x01\0\x01\0"), Each(0, 65557)],
        Some(Body),
    ),
    Row(
        READDIR,
        &[Each(0, 16), Bytes(b"\0\0\x02\0"), Each(0, 20)],
        None,
    ),
    Row(
        READDIR,
        &[Each(0, 16), Bytes(b"\x01\0\x02\0"), Each(0, 20)],
        Some(Body),
    ),
    Row(READDIR, &[Each(0, 16), Each(0xff, 24)], Some(Body)),
    Row(
        READDIRPLUS,
        &[Each(0, 16), Bytes(b"\x01\0\x02\0"), Each(0, 20)],
        Some(Body),
    ),
    Row(BATCH_FORGET, &[], Some(Body)),
    Row(BATCH_FORGET, &[Each(0, 7)], Some(Body)),
    Row(BATCH_FORGET, &[Each(0, 8)], None),
    Row(BATCH_FORGET, &[Each(0, 24)], Some(Body)),
    Row(BATCH_FORGET, &[Bytes(b"\x01"), Each(0, 22)], Some(Body)),
    Row(BATCH_FORGET, &[Bytes(b"\x01"), Each(0, 23)], None),
    Row(BATCH_FORGET, &[Bytes(b"\x04"), Each(0, 55)], Some(Body)),
    Row(
        BATCH_FORGET,
        &[Bytes(b"\0\0\0\x10"), Each(0, 4)],
        Some(Body),
    ),
    Row(
        BATCH_FORGET,
        &[Bytes(b"\x01\0\0\x10"), Each(0, 20)],
        Some(Body),
    ),
];

const NAMES: &[Row] = &[
    Row(MKDIR, &[Each(0, 9)], Some(NameBad)),
    Row(UNLINK, &[Each(0, 1)], Some(NameBad)),
    Row(MKDIR, &[Each(0, 8), Each(b'n', 255), Each(0, 1)], None),
    Row(
        MKDIR,
        &[Each(0, 8), Each(b'n', 256), Each(0, 1)],
        Some(NameLong),
    ),
    Row(RMDIR, &[Each(b'/', 256), Each(0, 1)], Some(NameLong)),
    Row(UNLINK, &[Bytes(b".\0")], Some(NameBad)),
    Row(RMDIR, &[Bytes(b"..\0")], Some(NameBad)),
    Row(RMDIR, &[Bytes(b"...\0")], None),
    Row(MKDIR, &[Each(0, 8), Bytes(b"m/n\0")], Some(NameBad)),
    Row(UNLINK, &[Bytes(b"a\xff\0")], Some(NameBad)),
    Row(RENAME, &[Each(0, 8), Bytes(b"a\0b\0")], None),
    Row(RENAME, &[Each(0, 8), Bytes(b"a\0..\0")], Some(NameBad)),
    Row(
        RENAME,
        &[Each(0, 8), Bytes(b"a\0"), Each(b'n', 256), Each(0, 1)],
        Some(NameLong),
    ),
    Row(RENAME2, &[Each(0, 16), Bytes(b"a\0b\0")], None),
    Row(RENAME2, &[Each(0xff, 16), Bytes(b"a\0b\0")], None),
    Row(RENAME2, &[Each(0, 16), Bytes(b"a\0..\0")], Some(NameBad)),
    Row(RENAME2, &[Each(0, 17), Bytes(b"b\0")], Some(NameBad)),
    Row(
        RENAME2,
        &[Each(0xff, 16), Bytes(b"a\0"), Each(b'n', 256), Each(0, 1)],
        Some(NameLong),
    ),
    Row(
        RENAME,
        &[Each(0, 9), Each(b'n', 256), Each(0, 1)],
        Some(NameBad),
    ),
    Row(
        RENAME,
        &[Each(0, 8), Each(b'n', 256), Each(0, 2)],
        Some(NameLong),
    ),
];

/// Opcodes that are not served are reported before faults in a body, and a wrong frame length before the opcode.
const OPCODES: &[Row] = &[
    Row(0, &[], Some(Opcode)),
    Row(8, &[Bytes(b"/\0")], Some(Opcode)),
    Row(31, &[Each(0, 8)], Some(Opcode)),
    Row(46, &[Each(0, 16), Bytes(b"a\0b\0")], Some(Opcode)),
    Row(8, &[Each(0, 69592)], Some(Opcode)),
    Row(8, &[Each(0, 69593)], Some(Frame)),
];

/// Puts the piece behind what stands there.
fn put_piece(body: &mut Vec<u8>, piece: Piece) -> Result<(), AllocError> {
    match piece {
        Bytes(bytes) => body.extend_from_slice(bytes),
        Each(byte, count) => {
            for _ in 0..count {
                body.push(byte)?;
            }
            Ok(())
        }
    }
}

/// Puts a frame with that body there.
fn put_frame(frame: &mut Vec<u8>, opcode: u32, body: &[u8]) -> Result<(), Fail> {
    let len = HEADER_LEN.checked_add(body.len()).ok_or("a long body")?;
    frame.extend_from_slice(&len.to_le_bytes()[..4])?;
    frame.extend_from_slice(&opcode.to_le_bytes())?;
    frame.extend_from_slice(&[0; 32])?;
    frame.extend_from_slice(body)?;
    Ok(())
}

fn body_of(alloc: Global, pieces: &[Piece]) -> Result<Vec<u8>, AllocError> {
    let mut body = Vec::new(alloc);
    for piece in pieces {
        put_piece(&mut body, *piece)?;
    }
    Ok(body)
}

/// A frame with that body, of request 0 for node 0.
fn frame_of(alloc: Global, opcode: u32, pieces: &[Piece]) -> Result<Vec<u8>, Fail> {
    let body = body_of(alloc, pieces)?;
    let mut frame = Vec::new(alloc);
    put_frame(&mut frame, opcode, &body)?;
    Ok(frame)
}

/// Where names are texts each frame is read, or has its fault.
pub fn are_told(alloc: Global, rows: &[Row]) -> Result<(), Fail> {
    are_told_by(alloc, Names::Text, rows)
}

/// Whether the frame is read, or has its fault, where these names are taken, and is no frame without its last byte.
fn is_told(alloc: Global, names: Names, row: Row) -> Result<bool, Fail> {
    let mut frame = frame_of(alloc, row.0, row.1)?;
    let is_so = decode(&frame, names).err() == row.2;
    frame.pop();
    Ok(is_so && decode(&frame, names).err() == Some(Frame))
}

/// Where these names are taken each frame is read, or has its fault, and without its last byte it is no frame.
pub fn are_told_by(alloc: Global, names: Names, rows: &[Row]) -> Result<(), Fail> {
    for row in rows {
        if !is_told(alloc, names, *row)? {
            return Err(Fail::from((row.0, row.2)));
        }
    }
    Ok(())
}

#[test]
fn faulty_bodies(rt: HostRuntime) -> Result<(), Fail> {
    are_told(rt.alloc(), BODIES)
}

#[test]
fn faulty_sizes_and_counts(rt: HostRuntime) -> Result<(), Fail> {
    are_told(rt.alloc(), SIZES)
}

#[test]
fn faulty_names(rt: HostRuntime) -> Result<(), Fail> {
    are_told(rt.alloc(), NAMES)
}

#[test]
fn faulty_opcodes_and_lengths(rt: HostRuntime) -> Result<(), Fail> {
    are_told(rt.alloc(), OPCODES)
}

/// The error numbers of the faults.
const ERRNOS: &[(WireFault, i32)] = &[
    (Opcode, 38),
    (NameLong, 36),
    (Body, 22),
    (NameBad, 22),
    (Frame, 22),
];

/// Opcodes, and whether they are answered.
const ANSWERED: &[(u32, bool)] = &[
    (2, false),
    (6, true),
    (12, true),
    (13, true),
    (36, false),
    (42, false),
];

/// Whether a frame of that opcode has its header, and is answered as it is said.
fn is_answered(alloc: Global, opcode: u32, answered: bool) -> Result<bool, Fail> {
    let frame = frame_of(alloc, opcode, &[])?;
    let header = Header {
        opcode,
        unique: 0,
        node: 0,
        uid: 0,
        gid: 0,
    };
    Ok(header_of(&frame) == Some(header) && has_reply(opcode) == answered)
}

#[test]
fn answers_to_faulty_frames(rt: HostRuntime) -> Result<(), Fail> {
    for (fault, errno) in ERRNOS {
        if fault.errno() != *errno {
            return Err(Fail::from(("a fault has not the number", *errno)));
        }
    }
    for (opcode, answered) in ANSWERED {
        if !is_answered(rt.alloc(), *opcode, *answered)? {
            return Err(Fail::from(("answered otherwise", *opcode)));
        }
    }
    Ok(())
}
