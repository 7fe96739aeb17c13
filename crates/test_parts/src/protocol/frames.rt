//! Frames of requests, with the requests that they are.

use crate::protocol::bytes::bytes_of;
use payload::Time;
use std::alloc::{AllocError, Global};
use std::test::Fail;
use terms::Names;
use wire::{Caller, NewAttributes, Operation, Request, decode, encode_request};

/// A frame in digits, and the request that it is: its number, its node and its operation.
#[derive(Clone, Copy)]
pub struct Row<'a>(pub &'a [&'a str], pub u64, pub u64, pub Operation<'a>);

/// All numbers zero.
pub const NOTHING_NEW: NewAttributes = NewAttributes {
    mode: 0,
    uid: 0,
    gid: 0,
    accessed: Time {
        seconds: 0,
        nanos: 0,
    },
    modified: Time {
        seconds: 0,
        nanos: 0,
    },
};

/// The caller of a frame whose header has sixteen bytes of zero at its end.
pub const NOBODY: Caller = Caller { uid: 0, gid: 0 };

/// The caller of a frame whose header ends with `ONES`.
pub const ALL_ONES: Caller = Caller {
    uid: 0xffffffff,
    gid: 0xffffffff,
};

/// Bytes of which no zero is.
pub const ONES: &str = "ffffffff ffffffff ffffffff ffffffff";

/// Each frame is read as its request, by this caller, whichever names are taken, and the request is written as it.
pub fn are_read_and_written<'a>(
    alloc: Global,
    caller: Caller,
    rows: &[Row<'a>],
) -> Result<(), Fail> {
    are_read(alloc, caller, rows)?;
    are_written(alloc, caller, rows)
}

/// Each frame is read as its request, by this caller, whichever names are taken.
pub fn are_read<'a>(alloc: Global, caller: Caller, rows: &[Row<'a>]) -> Result<(), Fail> {
    for names in [Names::Text, Names::Bytes] {
        are_read_by(alloc, names, caller, rows)?;
    }
    Ok(())
}

/// The request of a row, by this caller.
fn request_of<'a>(caller: Caller, row: Row<'a>) -> Request<'a> {
    Request {
        unique: row.1,
        node: row.2,
        caller,
        operation: row.3,
    }
}

/// Each frame is read as its request, by this caller, where these names are taken.
pub fn are_read_by<'a>(
    alloc: Global,
    names: Names,
    caller: Caller,
    rows: &[Row<'a>],
) -> Result<(), Fail> {
    for row in rows {
        let frame = bytes_of(alloc, row.0)?;
        if decode(&frame, names) != Ok(request_of(caller, *row)) {
            return Err(Fail::from(("read otherwise", row.1)));
        }
    }
    Ok(())
}

/// Whether the request is written as this frame.
fn is_written(alloc: Global, request: &Request, frame: &[u8]) -> Result<bool, AllocError> {
    let mut out = Vec::new(alloc);
    encode_request(request, &mut out)?;
    Ok(out.as_slice() == frame)
}

/// Each request of this caller is written as its frame.
pub fn are_written<'a>(alloc: Global, caller: Caller, rows: &[Row<'a>]) -> Result<(), Fail> {
    for row in rows {
        let frame = bytes_of(alloc, row.0)?;
        if !is_written(alloc, &request_of(caller, *row), &frame)? {
            return Err(Fail::from(("written otherwise", row.1)));
        }
    }
    Ok(())
}
