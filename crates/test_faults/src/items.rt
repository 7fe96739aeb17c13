//! A tree with names only in its root, as a plain list.

use crate::asks::Ask;
use errno::{EEXIST, EFBIG, EINVAL, EISDIR, ENOENT, ENOTDIR, EPERM};
use payload::Kind;
use std::alloc::{AllocError, Global};

/// No file may be longer, in bytes.
const LONGEST: u64 = 1_048_576;

/// What is at a name of the root. Folders are empty.
#[derive(Drop)]
pub struct Item {
    /// None once it has been removed.
    pub name: Option<&'static [u8]>,
    pub kind: Kind,
    /// Of a file, or the text of a link.
    pub bytes: Vec<u8>,
}

/// The answer to a call of the tree.
#[derive(Clone, Copy, Debug, PartialEq, Eq)]
pub enum Told {
    Done,
    /// The size in bytes.
    File(u64),
    Folder,
    /// The size of its text.
    Link(u64),
    /// How many bytes were written.
    Wrote(u32),
    Error(i32),
}

/// The sample tree: the file `a` with `abc`, the folder `d`, and the empty file `e`.
pub fn sample_items(alloc: Global) -> Result<Vec<Item>, AllocError> {
    let mut items = Vec::new(alloc);
    items.push(Item {
        name: Some(b"a"),
        kind: Kind::File,
        bytes: Vec::from_slice(alloc, b"abc")?,
    })?;
    items.push(Item {
        name: Some(b"d"),
        kind: Kind::Folder,
        bytes: Vec::new(alloc),
    })?;
    items.push(Item {
        name: Some(b"e"),
        kind: Kind::File,
        bytes: Vec::new(alloc),
    })?;
    Ok(items)
}

/// What is at the name, or ENOENT.
pub fn stat(items: &[Item], name: &[u8]) -> Told {
    for item in items {
        if item.name == Some(name) {
            let size = item.bytes.len() as u64;
            return match item.kind {
                Kind::Folder => Told::Folder,
                Kind::File | Kind::Special(_) => Told::File(size),
                Kind::Link => Told::Link(size),
            };
        }
    }
    Told::Error(ENOENT)
}

/// The text of the link at the name.
pub fn text_at(alloc: Global, items: &[Item], name: &[u8]) -> Result<Vec<u8>, AllocError> {
    for item in items {
        if item.name == Some(name) {
            return Vec::from_slice(alloc, &item.bytes);
        }
    }
    Ok(Vec::new(alloc))
}

/// Gives what is at the name another name, or none.
fn put_name(items: &mut Vec<Item>, name: &[u8], new: Option<&'static [u8]>) {
    for item in items.iter_mut() {
        if item.name == Some(name) {
            item.name = new;
        }
    }
}

fn make(
    items: &mut Vec<Item>,
    name: &'static [u8],
    kind: Kind,
    bytes: &[u8],
) -> Result<Told, AllocError> {
    let alloc = *items.allocator();
    match stat(items, name) {
        Told::Error(_) => {
            items.push(Item {
                name: Some(name),
                kind,
                bytes: Vec::from_slice(alloc, bytes)?,
            })?;
            Ok(Told::Done)
        }
        _ => Ok(Told::Error(EEXIST)),
    }
}

fn remove(items: &mut Vec<Item>, name: &[u8]) -> Told {
    match stat(items, name) {
        Told::Error(errno) => Told::Error(errno),
        Told::Folder => Told::Error(EISDIR),
        _ => {
            put_name(items, name, None);
            Told::Done
        }
    }
}

fn remove_folder(items: &mut Vec<Item>, name: &[u8]) -> Told {
    match stat(items, name) {
        Told::Error(errno) => Told::Error(errno),
        Told::Folder => {
            put_name(items, name, None);
            Told::Done
        }
        _ => Told::Error(ENOTDIR),
    }
}

fn rename(items: &mut Vec<Item>, from: &[u8], to: &'static [u8]) -> Told {
    match (stat(items, from), stat(items, to)) {
        (Told::Error(errno), _) => return Told::Error(errno),
        (_, _) if from == to => return Told::Done,
        (Told::File(_) | Told::Link(_), Told::Folder) => return Told::Error(EISDIR),
        (Told::Folder, Told::File(_) | Told::Link(_)) => return Told::Error(ENOTDIR),
        (_, _) => {}
    }
    put_name(items, to, None);
    put_name(items, from, Some(to));
    Told::Done
}

/// The bytes with the data written over them. A gap is filled with zeros.
fn laid_over(bytes: &Vec<u8>, offset: usize, data: &[u8]) -> Result<Vec<u8>, AllocError> {
    let mut all = Vec::new(*bytes.allocator());
    let end = bytes.len().max(offset.saturating_add(data.len()));
    for place in 0..end {
        let new = place.checked_sub(offset).and_then(|at| data.get(at));
        let byte = match (new, bytes.get(place)) {
            (Some(byte), _) | (None, Some(byte)) => *byte,
            (None, None) => 0,
        };
        all.push(byte)?;
    }
    Ok(all)
}

/// Writes to the file at the name, whatever its length.
fn put_bytes(
    items: &mut Vec<Item>,
    name: &[u8],
    offset: usize,
    data: &[u8],
) -> Result<(), AllocError> {
    for item in items.iter_mut() {
        if item.name == Some(name) {
            item.bytes = laid_over(&item.bytes, offset, data)?;
        }
    }
    Ok(())
}

fn write(items: &mut Vec<Item>, name: &[u8], offset: u64, data: &[u8]) -> Result<Told, AllocError> {
    match stat(items, name) {
        Told::Error(errno) => return Ok(Told::Error(errno)),
        Told::Folder => return Ok(Told::Error(EISDIR)),
        Told::Link(_) => return Ok(Told::Error(EINVAL)),
        _ => {}
    }
    if data.is_empty() {
        return Ok(Told::Wrote(0));
    }
    let (Ok(at), Ok(count)) = (usize::try_from(offset), u32::try_from(data.len())) else {
        return Ok(Told::Error(EFBIG));
    };
    if offset.saturating_add(u64::from(count)) > LONGEST {
        return Ok(Told::Error(EFBIG));
    }
    put_bytes(items, name, at, data)?;
    Ok(Told::Wrote(count))
}

fn read_link(items: &[Item], name: &[u8]) -> Told {
    match stat(items, name) {
        Told::Error(errno) => Told::Error(errno),
        Told::Link(_) => Told::Done,
        _ => Told::Error(EINVAL),
    }
}

/// The tree gives nothing a further name.
fn link(items: &[Item], from: &[u8], to: &[u8]) -> Told {
    match (stat(items, from), stat(items, to)) {
        (Told::Error(errno), _) => Told::Error(errno),
        (_, Told::Error(_)) => Told::Error(EPERM),
        (_, _) => Told::Error(EEXIST),
    }
}

/// Does the call. LIST and READLINK do nothing: their names and their text are those of the items.
pub fn work(items: &mut Vec<Item>, ask: Ask) -> Result<Told, AllocError> {
    Ok(match ask {
        Ask::Stat(name) => stat(items, name),
        Ask::List => Told::Done,
        Ask::MakeDir(name) => make(items, name, Kind::Folder, b"")?,
        Ask::MakeLink(name, text) => make(items, name, Kind::Link, text)?,
        Ask::ReadLink(name) => read_link(items, name),
        Ask::Link(from, to) => link(items, from, to),
        Ask::Remove(name) => remove(items, name),
        Ask::RemoveDir(name) => remove_folder(items, name),
        Ask::Rename(from, to) => rename(items, from, to),
        Ask::Write(name, offset, data) => write(items, name, offset, data)?,
    })
}
