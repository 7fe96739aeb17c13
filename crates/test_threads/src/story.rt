//! What a session on threads is told, as data.

use crate::client::Fates;
use backing::{MemTree, Shared};
use engine::{SessionEnd, Settings};
use paths::{Name, Path};
use std::alloc::{AllocError, Global};
use std::mem;
use std::sync::{Arc, Mutex, Wait};
use terms::{AttributeSource, Kinds, Names};
use wire::{Caller, Operation, Request, encode_request};

/// How the frames arrive.
#[derive(Clone, Copy, PartialEq, Eq)]
pub enum Comes {
    /// All in one receive.
    Together,
    /// Each in a receive of its own.
    Alone,
}

/// A session over a tree with the file `a` of three bytes.
#[derive(Clone, Copy)]
pub struct Story<'a> {
    pub says: &'a str,
    pub workers: usize,
    pub comes: Comes,
    /// What is asked after INIT, each request with its node.
    pub asks: &'a [(u64, Operation<'a>)],
    /// Bytes that come after all frames.
    pub rest: &'a [u8],
    pub fates: Fates,
    pub end: SessionEnd,
    /// How many replies are offered.
    pub offers: u32,
    /// If the last reply is only a header, the number of the request that it answers; otherwise 0.
    pub last: u64,
    /// How many jobs all workers took.
    pub taken: u64,
    /// How often a node is born. None if that depends on timing.
    pub births: Option<u64>,
    /// Entries given, entries given back and entries forgotten, if the session was served.
    pub totals: Option<(u64, u64, u64)>,
    /// What the directories show afterwards.
    pub shows: Shows,
}

/// What a directory shows.
#[derive(Clone, Copy, Debug, PartialEq, Eq)]
pub enum Shows {
    /// The file `a` alone, with its three bytes.
    File,
    /// Nothing.
    Nothing,
    /// Something else.
    Other,
}

pub const SETTINGS: Settings = Settings {
    attributes: AttributeSource::Fixed { uid: 0, gid: 0 },
    kinds: Kinds::Plain,
    names: Names::Text,
};

const INIT: (u64, Operation<'static>) = (
    0,
    Operation::Init {
        major: 7,
        minor: 31,
        max_readahead: 131072,
        flags: 0,
    },
);

fn put_request(
    out: &mut Vec<u8>,
    unique: u64,
    node: u64,
    operation: Operation<'_>,
) -> Result<(), AllocError> {
    let request = Request {
        unique,
        node,
        caller: Caller { uid: 0, gid: 0 },
        operation,
    };
    encode_request(&request, out)?;
    Ok(())
}

/// INIT and the requests after it, in pieces of one receive each, with these bytes after the last.
pub fn pieces_of(
    alloc: Global,
    comes: Comes,
    asks: &[(u64, Operation<'_>)],
    rest: &[u8],
) -> Result<Vec<Vec<u8>>, AllocError> {
    let mut pieces = Vec::new(alloc);
    let mut piece = Vec::new(alloc);
    let (node, operation) = INIT;
    put_request(&mut piece, 1, node, operation)?;
    let mut unique = 1u64;
    for (node, operation) in asks {
        if comes == Comes::Alone {
            pieces.push(mem::replace(&mut piece, Vec::new(alloc)))?;
        }
        unique = unique.saturating_add(1);
        put_request(&mut piece, unique, *node, *operation)?;
    }
    piece.extend_from_slice(rest)?;
    pieces.push(piece)?;
    Ok(pieces)
}

/// The path of the file `a`.
pub fn path_of_file(alloc: Global) -> Result<Path, AllocError> {
    let mut names = Vec::new(alloc);
    names.push(Name::from_text(alloc, "a")?)?;
    Path::from_names(names)
}

/// A tree with the file `a` of three bytes.
pub fn tree_of(alloc: Global) -> Result<MemTree, AllocError> {
    let mut tree = MemTree::new(alloc);
    match tree.put_file(&path_of_file(alloc)?, b"abc") {
        Ok(()) => Ok(tree),
        Err(_) => Err(AllocError),
    }
}

/// A handle to one tree for each worker.
pub fn holds_of<H: Wait + Clone + Drop>(
    rt: &H,
    alloc: Global,
    workers: usize,
) -> Result<Vec<Shared<H>>, AllocError> {
    let tree = Arc::new(alloc, Mutex::new(tree_of(alloc)?))?;
    let mut holds = Vec::new(alloc);
    for _ in 0..workers {
        let Ok(own) = rt.clone() else {
            return Err(AllocError);
        };
        holds.push(Shared::new(own, Arc::try_clone(&tree)?))?;
    }
    Ok(holds)
}
