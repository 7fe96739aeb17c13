//! Sessions as data: what a client asks, which calls of the tree fail, what the replies are, and what there is at the
//! end.

use crate::answers::replies_of;
use backing::{Answer, Call, Calls, MemTree, PlannedFault};
use engine::{Served, SessionEnd};
use handles::{Dirs, Folders};
use mirrord_sessions::new_tree;
use ops::Settings;
use paths::{Name, Path};
use payload::Kind;
use std::alloc::{AllocError, Global};
use std::random::RandomSource;
use std::sync::Wait;
use std::test::Fail;
use table::Limits;
use test_support::{Client, FIXED, PlainFolders, serve_client};
use wire::{Caller, Operation, Request, encode_request};

/// A session with the sample names.
#[derive(Clone, Copy)]
pub struct Story<'a> {
    pub says: &'a str,
    /// What is shown of the tree.
    pub settings: Settings,
    /// How many nodes there may be, including the root.
    pub nodes: u64,
    /// How many files may be open.
    pub open_files: u64,
    /// Empty files in the tree in addition to the samples.
    pub files: &'a [&'a [&'a str]],
    /// The requests and their nodes, in order. The requests are numbered from 1.
    pub asks: &'a [(u64, Operation<'a>)],
    /// Who makes them.
    pub caller: Caller,
    /// Calls of the tree that fail, counted from 1.
    pub faults: &'a [(u64, PlannedFault)],
    /// The reply to each request.
    pub replies: &'a [Says<'a>],
    /// Paths, and what is there at the end.
    pub after: &'a [(&'a [&'a str], Stands)],
    /// All names in the root at the end; no name where it does not say them.
    pub names: &'a [&'a str],
}

/// What is at a path.
#[derive(Clone, Copy, Debug, PartialEq, Eq)]
pub enum Stands {
    Folder,
    /// A file of that many bytes.
    File(u64),
    /// A symbolic link whose text has that many bytes.
    Link(u64),
    Nothing,
}

/// No requests, and no failures.
pub const NOTHING: Story = Story {
    says: "nothing",
    settings: FIXED,
    nodes: 65536,
    open_files: 4096,
    files: &[],
    asks: &[],
    caller: Caller { uid: 0, gid: 0 },
    faults: &[],
    replies: &[],
    after: &[],
    names: &[],
};

/// The story failed: whether its replies were as it says, how many of its paths were, and whether the input ended after
/// a whole frame and the root has the names that it says.
#[derive(Debug, Drop)]
struct Otherwise<'a> {
    says: &'a str,
    are_replies: bool,
    stand: usize,
    is_end: bool,
}

/// The reply to a request.
#[derive(Clone, Copy)]
pub enum Says<'a> {
    Failed(i32),
    Done,
    /// The entry of a node that was born once, and what it is.
    Entry(u64, Stands),
    /// A node, and what it is.
    Attributes(u64, Stands),
    /// The sizes of the file system.
    Sizes,
    /// The handle of an open file or folder.
    Opened(u64),
    /// The entry of an empty file that was created and of a node that was born once, and its handle.
    Created(u64, u64),
    /// Bytes of a file, or the text of a link.
    Bytes(&'a [u8]),
    /// How many bytes were written.
    Wrote(u32),
    /// Names of a folder from that index on, and what they are.
    Names(u64, &'a [(&'a str, Stands)]),
    /// The same, each with the node that was given for it, which was born once, or 0.
    Entries(u64, &'a [(&'a str, Stands, u64)]),
    /// It gets no reply.
    NoReply,
}

/// INIT 7.31, unique 0.
fn init_request_of(alloc: Global) -> Result<Vec<u8>, AllocError> {
    let request = Request {
        unique: 0,
        node: 0,
        caller: Caller { uid: 0, gid: 0 },
        operation: Operation::Init {
            major: 7,
            minor: 31,
            max_readahead: 131072,
            flags: 0,
        },
    };
    let mut frame = Vec::new(alloc);
    encode_request(&request, &mut frame)?;
    Ok(frame)
}

fn frames_of(alloc: Global, story: &Story) -> Result<Vec<Vec<u8>>, AllocError> {
    let mut frames = Vec::new(alloc);
    frames.push(init_request_of(alloc)?)?;
    let mut unique = 0u64;
    for (node, operation) in story.asks {
        unique = unique.saturating_add(1);
        let request = Request {
            unique,
            node: *node,
            caller: story.caller,
            operation: *operation,
        };
        let mut frame = Vec::new(alloc);
        encode_request(&request, &mut frame)?;
        frames.push(frame)?;
    }
    Ok(frames)
}

fn path_of(alloc: Global, names: &[&str]) -> Result<Path, AllocError> {
    let mut path = Vec::new(alloc);
    for name in names {
        path.push(Name::from_text(alloc, name)?)?;
    }
    Path::from_names(path)
}

fn what_stands(alloc: Global, tree: &mut MemTree, names: &[&str]) -> Result<Stands, AllocError> {
    let path = path_of(alloc, names)?;
    Ok(match tree.call(Call::Stat(&path)) {
        Answer::Stat {
            kind: Kind::File,
            size,
            ..
        } => Stands::File(size),
        Answer::Stat {
            kind: Kind::Link,
            size,
            ..
        } => Stands::Link(size),
        Answer::Stat {
            kind: Kind::Folder,
            ..
        } => Stands::Folder,
        _ => Stands::Nothing,
    })
}

fn fail_of(story: &Story, are_replies: bool, stand: usize, is_end: bool) -> Fail {
    Otherwise {
        says: story.says,
        are_replies,
        stand,
        is_end,
    }
    .into()
}

/// The tree of a story, before it begins.
fn tree_of(alloc: Global, story: &Story) -> Result<MemTree, Fail> {
    let mut tree = new_tree(alloc, true)?;
    for names in story.files {
        let path = path_of(alloc, names)?;
        if tree.put_file(&path, b"").is_err() {
            return Err(fail_of(story, false, 0, false));
        }
    }
    for (call, fault) in story.faults {
        tree.fail_at(*call, *fault)?;
    }
    Ok(tree)
}

/// At how many of the story's paths there is at the end what it says.
fn stand_in(alloc: Global, tree: &mut MemTree, story: &Story) -> Result<usize, AllocError> {
    let mut stand = 0usize;
    for (names, stands) in story.after {
        if what_stands(alloc, tree, names)? == *stands {
            stand = stand.saturating_add(1);
        }
    }
    Ok(stand)
}

/// Whether these are all names in the root, in any order.
fn are_all(alloc: Global, tree: &mut MemTree, names: &[&str]) -> Result<bool, AllocError> {
    let root = path_of(alloc, &[])?;
    let Answer::Names(children) = tree.call(Call::List(&root)) else {
        return Ok(false);
    };
    let mut found = 0usize;
    for child in children.as_slice() {
        if names
            .iter()
            .any(|name| name.as_bytes() == child.name.as_bytes())
        {
            found = found.saturating_add(1);
        }
    }
    Ok(found == names.len() && found == children.as_slice().len())
}

/// Whether the names in the root are those that the story says, if it says them.
fn are_named(alloc: Global, tree: &mut MemTree, story: &Story) -> Result<bool, AllocError> {
    Ok(story.names.is_empty() || are_all(alloc, tree, story.names)?)
}

/// Runs a story with these open folders. Fails if anything is unexpected.
fn tell_on<H: Wait + RandomSource, D: Folders + Drop>(
    rt: &H,
    alloc: Global,
    dirs: D,
    story: &Story,
) -> Result<(), Fail> {
    let mut served = Served {
        calls: tree_of(alloc, story)?,
        dirs,
    };
    let mut client = Client::new(alloc, frames_of(alloc, story)?, 0);
    let limits = Limits {
        nodes: story.nodes,
        files: story.open_files,
        ..Limits::default()
    };
    let over = serve_client(rt, alloc, story.settings, limits, &mut served, &mut client)?;
    let replies = replies_of(alloc, story.settings, story.replies)?;
    let are_replies = client.taken.as_slice() == replies.as_slice();
    let stand = stand_in(alloc, &mut served.calls, story)?;
    let is_end = over.end == SessionEnd::Closed { rest: 0 }
        && are_named(alloc, &mut served.calls, story)?;
    if are_replies && stand == story.after.len() && is_end {
        return Ok(());
    }
    Err(fail_of(story, are_replies, stand, is_end))
}

/// Runs a story. Fails if anything is unexpected.
pub fn tell<H: Wait + RandomSource>(rt: &H, alloc: Global, story: &Story) -> Result<(), Fail> {
    let dirs = Dirs::new(alloc)?;
    tell_on(rt, alloc, &dirs, story)
}

/// Runs each story. Fails at the first one that fails.
pub fn tell_all<H: Wait + RandomSource>(
    rt: &H,
    alloc: Global,
    stories: &[Story],
) -> Result<(), Fail> {
    for story in stories {
        tell(rt, alloc, story)?;
    }
    Ok(())
}

/// Runs each story with open folders that are a plain map. Fails at the first one that fails.
pub fn tell_all_plainly<H: Wait + RandomSource>(
    rt: &H,
    alloc: Global,
    stories: &[Story],
) -> Result<(), Fail> {
    for story in stories {
        tell_on(rt, alloc, PlainFolders::new(alloc), story)?;
    }
    Ok(())
}
