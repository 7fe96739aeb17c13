//! What the slow program answers: the body of a reply, and what is taken back if the reply is not taken.

use crate::items::Told;
use crate::world::SlowNode;
use payload::{Details, Kind, Time};
use std::alloc::{AllocError, Global};
use wire::{Attributes, Entry, ReplyBody};

/// The answer to a request.
#[derive(Drop)]
pub struct Answer {
    pub body: ReplyBody,
    /// The nodes of which an entry was given, in order.
    pub given: Vec<SlowNode>,
    /// The handle of the file that was opened.
    pub opened: Option<u64>,
    /// Whether a folder was opened.
    pub listed: bool,
}

/// An answer that gives and opens nothing.
pub fn plain(alloc: Global, body: ReplyBody) -> Answer {
    Answer {
        body,
        given: Vec::new(alloc),
        opened: None,
        listed: false,
    }
}

pub fn failed(alloc: Global, errno: i32) -> Answer {
    plain(alloc, ReplyBody::Failed { errno })
}

pub fn done(alloc: Global) -> Answer {
    plain(alloc, ReplyBody::Done)
}

/// The beginning of 1970.
const BEGINNING: Time = Time {
    seconds: 0,
    nanos: 0,
};

/// The details of all nodes of that kind, but for the number of the node.
fn details_of(number: u64, kind: Kind) -> Details {
    let (permissions, links) = match kind {
        Kind::Folder => (0o755, 2),
        Kind::File | Kind::Special(_) => (0o644, 1),
        Kind::Link => (0o777, 1),
    };
    Details {
        ino: number,
        permissions,
        links,
        uid: 0,
        gid: 0,
        accessed: BEGINNING,
        modified: BEGINNING,
        changed: BEGINNING,
    }
}

/// The kind of what was found.
pub fn kind_of(found: Told) -> Kind {
    match found {
        Told::File(_) => Kind::File,
        Told::Link(_) => Kind::Link,
        _ => Kind::Folder,
    }
}

/// The entry of a node for what was found at its name.
pub fn entry_of(node: SlowNode, found: Told) -> Entry {
    let kind = kind_of(found);
    let size = match found {
        Told::File(size) | Told::Link(size) => size,
        _ => 0,
    };
    Entry {
        node: node.number,
        generation: node.generation,
        attributes: Attributes {
            kind,
            size,
            details: details_of(node.number, kind),
        },
    }
}

/// The answer with an entry of the node for what was found at its name.
pub fn entered(alloc: Global, node: SlowNode, found: Told) -> Result<Answer, AllocError> {
    let mut given = Vec::new(alloc);
    given.push(node)?;
    Ok(Answer {
        body: ReplyBody::Entry(entry_of(node, found)),
        given,
        opened: None,
        listed: false,
    })
}
