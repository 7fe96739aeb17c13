//! The session as the server serves it.

ghost use Rattle.std.specs.Prelude.{◌≡◌};

use crate::asks::Ask;
use crate::bytes::apart;
use crate::client::{Client, serve_on};
use crate::frames::FRAMES;
use crate::items::{Item, Told, sample_items};
use crate::slow::Plan;
use crate::watched::Watched;
use backing::{Answer, Call, Calls, MemTree};
use engine::{Served, SessionEnd};
use handles::Dirs;
use ledger::{Blanks, Ledgers};
use paths::{Name, Path};
use payload::Kind;
use std::alloc::{AllocError, Global};
use std::random::RandomSource;
use std::sync::Wait;
use std::test::Fail;
use table_image::Image;

/// How the session ended.
#[derive(Drop)]
pub struct Ran {
    pub end: SessionEnd,
    pub image: Image,
    /// The replies that were taken, one after another.
    pub taken: Vec<u8>,
    /// How many replies were offered.
    pub offers: u32,
    /// Whether the calls of the tree were just the expected ones.
    pub are_due: bool,
    pub tree: MemTree,
}

fn path_of(alloc: Global, name: &[u8]) -> Result<Path, AllocError> {
    let mut names = Vec::new(alloc);
    names.push(Name::copy_of(alloc, name)?)?;
    Path::from_names(names)
}

/// Puts an item into the tree.
fn plant(alloc: Global, tree: &mut MemTree, item: &Item) -> Result<(), AllocError> {
    let Some(name) = item.name else {
        return Ok(());
    };
    let path = path_of(alloc, name)?;
    let planted = match item.kind {
        Kind::Folder => tree.put_dir(&path),
        Kind::File | Kind::Link | Kind::Special(_) => tree.put_file(&path, &item.bytes),
    };
    match planted {
        Ok(()) => Ok(()),
        Err(_) => Err(AllocError),
    }
}

/// The sample tree, with the planned call failing.
pub fn tree_of(alloc: Global, plan: &Plan) -> Result<MemTree, AllocError> {
    let mut tree = MemTree::new(alloc);
    for item in sample_items(alloc)? {
        plant(alloc, &mut tree, &item)?;
    }
    if let Some(planned) = plan.fault {
        tree.fail_at(planned.call as u64, planned.fault)?;
    }
    Ok(tree)
}

/// What is at the name at the end.
pub fn what_stands(alloc: Global, tree: &mut MemTree, name: &[u8]) -> Result<Told, AllocError> {
    let path = path_of(alloc, name)?;
    Ok(match tree.call(Call::Stat(&path)) {
        Answer::Stat {
            kind: Kind::File,
            size,
            ..
        } => Told::File(size),
        Answer::Stat {
            kind: Kind::Link,
            size,
            ..
        } => Told::Link(size),
        Answer::Stat {
            kind: Kind::Folder,
            ..
        } => Told::Folder,
        Answer::Fault(errno) => Told::Error(errno),
        _ => Told::Done,
    })
}

/// Whether the file at the name has just these bytes.
pub fn has_bytes(
    alloc: Global,
    tree: &mut MemTree,
    name: &[u8],
    bytes: &[u8],
) -> Result<bool, AllocError> {
    let path = path_of(alloc, name)?;
    let call = Call::Read {
        path: &path,
        offset: 0,
        size: 4096,
    };
    Ok(match tree.call(call) {
        Answer::Bytes(found) => found.as_slice() == bytes,
        _ => false,
    })
}

/// Whether the link at the name has just this text.
pub fn has_text(
    alloc: Global,
    tree: &mut MemTree,
    name: &[u8],
    text: &[u8],
) -> Result<bool, AllocError> {
    let path = path_of(alloc, name)?;
    Ok(match tree.call(Call::ReadLink(&path)) {
        Answer::Bytes(found) => found.as_slice() == text,
        _ => false,
    })
}

/// How many names are in the root, or in a folder of it.
pub fn count_names(
    alloc: Global,
    tree: &mut MemTree,
    folder: Option<&[u8]>,
) -> Result<usize, AllocError> {
    let path = match folder {
        Some(name) => path_of(alloc, name)?,
        None => Path::joined(alloc, &[], &[])?,
    };
    Ok(match tree.call(Call::List(&path)) {
        Answer::Names(names) => names.as_slice().len(),
        _ => usize::MAX,
    })
}

/// Serves the session over the sample tree with that failure. `due` are the expected calls.
pub fn serve_session<H: Wait + RandomSource, T: Ledgers>(
    rt: &H,
    alloc: Global,
    blanks: Blanks,
    plan: &Plan,
    due: &[Ask],
) -> Result<Ran, Fail>
    requires names { blanks ≡ T.names }
    requires shares { T.names.parts ≡ 1 }
{
    let dirs = Dirs::new(alloc)?;
    let mut served = Served {
        calls: Watched::new(tree_of(alloc, plan)?, due),
        dirs: &dirs,
    };
    let frames = apart(alloc, FRAMES)?;
    let mut client = Client::new(alloc, frames, plan.declined, plan.fate);
    let over = serve_on::<H, T>(rt, alloc, blanks, plan.kinds, &mut served, &mut client)?;
    let Served { calls, dirs: _ } = served;
    let are_due = calls.is_as_due();
    let Watched { tree, .. } = calls;
    let Client { taken, offers, .. } = client;
    Ok(Ran {
        end: over.end,
        image: over.image,
        taken,
        offers,
        are_due,
        tree,
    })
}
