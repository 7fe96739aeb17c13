//! Writing replies.

use crate::protocol::bytes::{SIXTEEN, bytes_of};
use crate::protocol::greeting::{AGREED, OFFERED};
use Says::{Attr, Created, Done, Failed, Given, Init, Opened, Sizes, Wrote};
use payload::{Details, Kind, Payload, Time};
use std::alloc::{AllocError, Global};
use std::test::Fail;
use wire::{Attributes, Entry, InitOut, Reply, ReplyBody, encode_reply, error_frame, write_reply};

/// The number of the request that is answered, what the reply says, and its bytes in digits.
#[derive(Clone, Copy)]
pub struct Row<'a>(pub u64, pub Says, pub &'a [&'a str]);

/// What a reply says, as a value of a constant.
#[derive(Clone, Copy)]
pub enum Says {
    Failed(i32),
    Done,
    Given(Entry),
    Attr(Attributes),
    Opened(u64),
    Created(Entry, u64),
    Wrote(u32),
    Sizes,
    Init(InitOut),
}

fn body_of(says: Says) -> ReplyBody {
    match says {
        Failed(errno) => ReplyBody::Failed { errno },
        Done => ReplyBody::Done,
        Given(entry) => ReplyBody::Entry(entry),
        Attr(attributes) => ReplyBody::Attributes(attributes),
        Opened(fh) => ReplyBody::Opened { fh },
        Created(entry, fh) => ReplyBody::Created { entry, fh },
        Wrote(size) => ReplyBody::Wrote { size },
        Sizes => ReplyBody::StatFs,
        Init(out) => ReplyBody::Init(out),
    }
}

/// The beginning of 1970.
const NEVER: Time = Time {
    seconds: 0,
    nanos: 0,
};

/// The details of inode 2, a file that everyone may read and root may write.
pub const OF_A_FILE: Details = Details {
    ino: 2,
    permissions: 0o644,
    links: 1,
    uid: 0,
    gid: 0,
    accessed: NEVER,
    modified: NEVER,
    changed: NEVER,
};

const OF_A_FOLDER: Details = Details {
    ino: 3,
    permissions: 0o755,
    links: 2,
    ..OF_A_FILE
};

const FILE: Attributes = Attributes {
    kind: Kind::File,
    size: 3,
    details: OF_A_FILE,
};

const EMPTY_FILE: Attributes = Attributes { size: 0, ..FILE };

/// 600 bytes take two blocks.
const LONG_FILE: Attributes = Attributes {
    kind: Kind::File,
    size: 600,
    details: Details {
        uid: 1000,
        gid: 100,
        ..OF_A_FILE
    },
};

const FOLDER: Attributes = Attributes {
    kind: Kind::Folder,
    size: 0,
    details: OF_A_FOLDER,
};

const ROOT: Attributes = Attributes {
    details: Details {
        ino: 1,
        ..OF_A_FOLDER
    },
    ..FOLDER
};

/// Eight bytes of zero.
const EIGHT: &str = "0000000000000000";

/// Three times and their nanoseconds.
pub const TIMES: &str =
    "0000000000000000 0000000000000000 0000000000000000 00000000 00000000 00000000";

const REPLIES: &[Row] = &[
    Row(7, Failed(2), &["10000000 feffffff 0700000000000000"]),
    Row(6, Failed(38), &["10000000 daffffff 0600000000000000"]),
    Row(7, Done, &["10000000 00000000 0700000000000000"]),
    Row(
        7,
        Given(Entry {
            node: 2,
            generation: 0,
            attributes: FILE,
        }),
        &[
            "90000000 00000000 0700000000000000",
            "0200000000000000 0000000000000000 0100000000000000 0100000000000000 00000000 00000000",
            "0200000000000000 0300000000000000 0100000000000000",
            TIMES,
            "a4810000 01000000 00000000 00000000 00000000 00100000 00000000",
        ],
    ),
    Row(
        4,
        Given(Entry {
            node: 3,
            generation: 1,
            attributes: FOLDER,
        }),
        &[
            "90000000 00000000 0400000000000000",
            "0300000000000000 0100000000000000 0100000000000000 0100000000000000 00000000 00000000",
            "0300000000000000 0000000000000000 0000000000000000",
            TIMES,
            "ed410000 02000000 00000000 00000000 00000000 00100000 00000000",
        ],
    ),
    Row(
        9,
        Attr(LONG_FILE),
        &[
            "78000000 00000000 0900000000000000 0100000000000000 00000000 00000000",
            "0200000000000000 5802000000000000 0200000000000000",
            TIMES,
            "a4810000 01000000 e8030000 64000000 00000000 00100000 00000000",
        ],
    ),
    Row(
        3,
        Attr(ROOT),
        &[
            "78000000 00000000 0300000000000000 0100000000000000 00000000 00000000",
            "0100000000000000 0000000000000000 0000000000000000",
            TIMES,
            "ed410000 02000000 00000000 00000000 00000000 00100000 00000000",
        ],
    ),
    Row(
        6,
        Opened(258),
        &[
            "20000000 00000000 0600000000000000",
            "0201000000000000 00000000 00000000",
        ],
    ),
    Row(
        3,
        Created(
            Entry {
                node: 2,
                generation: 0,
                attributes: EMPTY_FILE,
            },
            1,
        ),
        &[
            "a0000000 00000000 0300000000000000",
            "0200000000000000 0000000000000000 0100000000000000 0100000000000000 00000000 00000000",
            "0200000000000000 0000000000000000 0000000000000000",
            TIMES,
            "a4810000 01000000 00000000 00000000 00000000 00100000 00000000",
            "0100000000000000 00000000 00000000",
        ],
    ),
    Row(
        4,
        Wrote(65536),
        &["18000000 00000000 0400000000000000 00000100 00000000"],
    ),
    Row(
        8,
        Sizes,
        &[
            "60000000 00000000 0800000000000000",
            SIXTEEN,
            SIXTEEN,
            EIGHT,
            "00100000 ff000000 00100000 00000000",
            SIXTEEN,
            EIGHT,
        ],
    ),
    Row(
        1,
        Init(AGREED),
        &[
            "50000000 00000000 0100000000000000 07000000 1f000000 00000100 00000000",
            "0c00 0900 00000100 01000000 0000 0000",
            SIXTEEN,
            SIXTEEN,
        ],
    ),
    Row(
        1,
        Init(OFFERED),
        &[
            "50000000 00000000 0100000000000000 07000000 1f000000",
            EIGHT,
            SIXTEEN,
            SIXTEEN,
            SIXTEEN,
        ],
    ),
];

/// Whether `error_frame` gives these bytes too, if it can make this reply.
fn is_framed(reply: &Reply, bytes: &[u8]) -> bool {
    match reply.body {
        ReplyBody::Failed { errno } => error_frame(reply.unique, errno).as_slice() == bytes,
        ReplyBody::Done => error_frame(reply.unique, 0).as_slice() == bytes,
        _ => true,
    }
}

/// Whether the reply is written as these bytes.
fn is_written(alloc: Global, reply: &Reply, bytes: &[u8]) -> Result<bool, AllocError> {
    let mut out = Vec::new(alloc);
    encode_reply(reply, &mut out)?;
    Ok(out.as_slice() == bytes && is_framed(reply, bytes))
}

/// Checks that the reply is written as the bytes that these texts spell.
pub fn expect_reply(alloc: Global, reply: &Reply, texts: &[&str]) -> Result<(), Fail> {
    let bytes = bytes_of(alloc, texts)?;
    if is_written(alloc, reply, &bytes)? {
        return Ok(());
    }
    Err(Fail::from(("the reply to", reply.unique)))
}

/// Each reply is written as its bytes.
pub fn are_told(alloc: Global, rows: &[Row]) -> Result<(), Fail> {
    for row in rows {
        let Row(unique, says, texts) = *row;
        let body = body_of(says);
        expect_reply(alloc, &Reply { unique, body }, texts)?;
    }
    Ok(())
}

#[test]
fn bytes_of_replies(rt: HostRuntime) -> Result<(), Fail> {
    are_told(rt.alloc(), REPLIES)
}

/// The reply to unique 7 that carries the bytes `abc`.
const ABC: [u8; 19] = [
    19, 0, 0, 0, 0, 0, 0, 0, 7, 0, 0, 0, 0, 0, 0, 0, b'a', b'b', b'c',
];

/// The reply to unique 7 that three bytes were written.
const THREE_WRITTEN: [u8; 24] = [
    24, 0, 0, 0, 0, 0, 0, 0, 7, 0, 0, 0, 0, 0, 0, 0, // len, error, unique
    3, 0, 0, 0, 0, 0, 0, 0, // size, and what is not read
];

/// The bytes `abc` behind so many others.
fn abc_behind(alloc: Global, room: usize) -> Result<ReplyBody, AllocError> {
    let mut buffer = vec![in alloc; 9u8; room]?;
    buffer.extend_from_slice(b"abc")?;
    Ok(ReplyBody::Data(Payload::behind(room, buffer)))
}

/// Whether these bytes take the place of what stood in the buffer.
fn takes_place(alloc: Global, body: ReplyBody, bytes: &[u8]) -> Result<bool, AllocError> {
    let mut out = Vec::from_slice(alloc, b"what stood there")?;
    write_reply(Reply { unique: 7, body }, &mut out)?;
    Ok(out.as_slice() == bytes)
}

#[test]
fn bytes_behind_any_room(rt: HostRuntime) -> Result<(), Fail> {
    let alloc = rt.alloc();
    for room in [0, 15, 16, 17] {
        if !takes_place(alloc, abc_behind(alloc, room)?, &ABC)? {
            return Err(Fail::from(("behind so many bytes", room)));
        }
    }
    if takes_place(alloc, ReplyBody::Wrote { size: 3 }, &THREE_WRITTEN)? {
        return Ok(());
    }
    Err(Fail::from("that three bytes were written"))
}
