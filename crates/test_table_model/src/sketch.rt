//! Making images from sketches.

use holds::{GivenPaths, Held, Paths};
use ledger::{KeptBirths, Posting, Totals};
use paths::Name;
use std::alloc::{AllocError, Global};
use table_files::{Access, OpenEntry, OpenFile};
use table_image::{
    Births, Holds, Image, ImageStage, Items, Nodes, Numbers, OpenFiles, Postings, Record, Records,
};
use tree::{Key, Node, Place};

/// Where a node is.
#[derive(Clone, Copy)]
pub enum Spot<'a> {
    Root,
    /// At a name under a parent.
    At(u64, &'a str),
    Cut,
}

/// A node: its number, its generation, where it is, and its count. None is hidden.
#[derive(Clone, Copy)]
pub struct Living<'a>(pub u64, pub u64, pub Spot<'a>, pub u64);

pub const ROOT: Living = Living(1, 0, Spot::Root, 0);

/// What is kept of closed periods: how often each number was born, and the totals.
pub struct Past<'a> {
    pub births: &'a [KeptBirths],
    pub totals: Totals,
}

/// No period is closed.
pub const NO_PAST: Past = Past {
    births: &[],
    totals: Totals {
        born: 0,
        entries: 0,
        backs: 0,
        forgotten: 0,
    },
};

/// The nodes, what is kept of closed periods, the postings, oldest first, the requests in progress, each with its id
/// and the number that it pins, and the open files, each with its handle and the number and the generation of its node.
/// No name is held, and the last handle is 2.
pub struct Sketch<'a> {
    pub nodes: &'a [Living<'a>],
    pub past: Past<'a>,
    pub postings: &'a [Posting],
    pub pinning: &'a [(u64, u64)],
    pub opened: &'a [(u64, u64, u64)],
}

fn place(alloc: Global, spot: Spot) -> Result<Place, AllocError> {
    Ok(match spot {
        Spot::Root => Place::Root,
        Spot::At(parent, name) => Place::Named(Key {
            parent,
            name: Name::from_text(alloc, name)?,
        }),
        Spot::Cut => Place::Cut,
    })
}

fn node(alloc: Global, living: &Living) -> Result<Node, AllocError> {
    let Living(number, generation, spot, count) = *living;
    Ok(Node {
        number,
        generation,
        place: place(alloc, spot)?,
        count,
        hidden: false,
    })
}

/// A request in progress that pins the number.
fn pinning(alloc: Global, id: u64, number: u64) -> Result<Record, AllocError> {
    let mut pins = Numbers::new(alloc);
    pins.add(number)?;
    Ok(Record {
        id,
        unique: 9,
        stage: ImageStage::Working,
        pins,
        held: Held {
            given: GivenPaths::from_vec(Vec::new(alloc)),
            shared: Paths::from_vec(Vec::new(alloc)),
            exclusive: Paths::from_vec(Vec::new(alloc)),
        },
    })
}

fn add_nodes(alloc: Global, all: &mut Nodes, nodes: &[Living]) -> Result<(), AllocError> {
    for living in nodes {
        all.add(node(alloc, living)?)?;
    }
    Ok(())
}

fn add_records(
    alloc: Global,
    all: &mut Records,
    requests: &[(u64, u64)],
) -> Result<(), AllocError> {
    for (id, number) in requests {
        all.add(pinning(alloc, *id, *number)?)?;
    }
    Ok(())
}

fn add_files(all: &mut OpenFiles, opened: &[(u64, u64, u64)]) -> Result<(), AllocError> {
    for (handle, number, generation) in opened {
        all.add(OpenEntry {
            handle: *handle,
            file: OpenFile {
                number: *number,
                generation: *generation,
                access: Access::Both,
            },
        })?;
    }
    Ok(())
}

fn add_all<T: Copy>(all: &mut Items<T>, rows: &[T]) -> Result<(), AllocError> {
    for row in rows {
        all.add(*row)?;
    }
    Ok(())
}

/// Puts what the sketch says into the image, which is lent, so that nothing drops it where memory is refused.
fn fill(alloc: Global, image: &mut Image, sketch: &Sketch) -> Result<(), AllocError> {
    add_nodes(alloc, &mut image.nodes, sketch.nodes)?;
    add_all(&mut image.births, sketch.past.births)?;
    add_all(&mut image.postings, sketch.postings)?;
    add_records(alloc, &mut image.records, sketch.pinning)?;
    add_files(&mut image.files, sketch.opened)
}

/// The image for this sketch.
pub fn image(alloc: Global, sketch: &Sketch) -> Result<Image, AllocError> {
    let mut image = Image {
        nodes: Nodes::new(alloc),
        births: Births::new(alloc),
        closed: sketch.past.totals,
        postings: Postings::new(alloc),
        records: Records::new(alloc),
        holds: Holds::new(alloc),
        files: OpenFiles::new(alloc),
        counter: 0,
        last_handle: 2,
    };
    fill(alloc, &mut image, sketch)?;
    Ok(image)
}
