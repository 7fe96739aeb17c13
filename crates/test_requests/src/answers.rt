//! The replies in stories, as bytes.

use crate::stories::{Says, Stands};
use ops::Settings;
use payload::{Details, Kind, Payload, Time};
use std::alloc::{AllocError, Global};
use terms::AttributeSource;
use wire::{
    Attributes, Entry, InitOut, NO_INO, Reply, ReplyBody, encode_dirent, encode_plus_dirent,
    encode_reply,
};

/// The beginning of 1970.
const BEGINNING: Time = Time {
    seconds: 0,
    nanos: 0,
};

/// The attributes of a node. Fixed ones have its number as the inode number; in a tree in memory, whose files have no
/// inode numbers, that is 0. Everything else is the same.
fn attributes_of(settings: Settings, node: u64, stands: Stands) -> Attributes {
    let (size, permissions, links) = match stands {
        Stands::File(size) => (size, 0o644, 1),
        Stands::Link(size) => (size, 0o777, 1),
        Stands::Folder | Stands::Nothing => (0, 0o755, 2),
    };
    let ino = match settings.attributes {
        AttributeSource::Host => 0,
        AttributeSource::Fixed { .. } => node,
    };
    Attributes {
        kind: kind_of(stands),
        size,
        details: Details {
            ino,
            permissions,
            links,
            uid: 0,
            gid: 0,
            accessed: BEGINNING,
            modified: BEGINNING,
            changed: BEGINNING,
        },
    }
}

fn entry_of(settings: Settings, node: u64, stands: Stands) -> Entry {
    Entry {
        node,
        generation: 0,
        attributes: attributes_of(settings, node, stands),
    }
}

fn kind_of(stands: Stands) -> Kind {
    match stands {
        Stands::File(_) => Kind::File,
        Stands::Link(_) => Kind::Link,
        Stands::Folder | Stands::Nothing => Kind::Folder,
    }
}

fn names_of(alloc: Global, from: u64, names: &[(&str, Stands)]) -> Result<ReplyBody, AllocError> {
    let mut bytes = Vec::new(alloc);
    let mut next = from;
    for (name, stands) in names {
        next = next.saturating_add(1);
        encode_dirent(&mut bytes, NO_INO, next, kind_of(*stands), name.as_bytes())?;
    }
    Ok(ReplyBody::Data(Payload::new(bytes)))
}

fn entries_of(
    alloc: Global,
    settings: Settings,
    from: u64,
    entries: &[(&str, Stands, u64)],
) -> Result<ReplyBody, AllocError> {
    let mut bytes = Vec::new(alloc);
    let mut next = from;
    for (name, stands, node) in entries {
        next = next.saturating_add(1);
        let entry = if *node == 0 {
            None
        } else {
            Some(entry_of(settings, *node, *stands))
        };
        encode_plus_dirent(&mut bytes, entry, next, kind_of(*stands), name.as_bytes())?;
    }
    Ok(ReplyBody::Data(Payload::new(bytes)))
}

/// None, if it gets no reply.
fn body_of(alloc: Global, settings: Settings, says: Says) -> Result<Option<ReplyBody>, AllocError> {
    Ok(Some(match says {
        Says::Failed(errno) => ReplyBody::Failed { errno },
        Says::Done => ReplyBody::Done,
        Says::Entry(node, stands) => ReplyBody::Entry(entry_of(settings, node, stands)),
        Says::Attributes(node, stands) => {
            ReplyBody::Attributes(attributes_of(settings, node, stands))
        }
        Says::Sizes => ReplyBody::StatFs,
        Says::Opened(fh) => ReplyBody::Opened { fh },
        Says::Created(node, fh) => ReplyBody::Created {
            entry: entry_of(settings, node, Stands::File(0)),
            fh,
        },
        Says::Bytes(bytes) => ReplyBody::Data(Payload::new(Vec::from_slice(alloc, bytes)?)),
        Says::Wrote(size) => ReplyBody::Wrote { size },
        Says::Names(from, names) => names_of(alloc, from, names)?,
        Says::Entries(from, entries) => entries_of(alloc, settings, from, entries)?,
        Says::NoReply => return Ok(None),
    }))
}

/// The answer to INIT 7.31.
const AGREED: ReplyBody = ReplyBody::Init(InitOut {
    major: 7,
    minor: 31,
    max_readahead: 65536,
    flags: 0,
    max_background: 12,
    congestion_threshold: 9,
    max_write: 65536,
    time_gran: 1,
    max_pages: 0,
});

/// The reply to INIT, unique 0, and the replies to the requests, which are numbered from 1.
pub fn replies_of(
    alloc: Global,
    settings: Settings,
    replies: &[Says],
) -> Result<Vec<u8>, AllocError> {
    let mut bytes = Vec::new(alloc);
    let mut unique = 0u64;
    let greeting = Reply {
        unique,
        body: AGREED,
    };
    encode_reply(&greeting, &mut bytes)?;
    for says in replies {
        unique = unique.saturating_add(1);
        let Some(body) = body_of(alloc, settings, *says)? else {
            continue;
        };
        encode_reply(&Reply { unique, body }, &mut bytes)?;
    }
    Ok(bytes)
}
