//! Calls of a tree by the names in its root.

use backing::Call;
use paths::Path;

/// A call of a tree. All names are in its root.
#[derive(Clone, Copy, Debug, PartialEq, Eq)]
pub enum Ask {
    Stat(&'static [u8]),
    /// Of the root.
    List,
    MakeDir(&'static [u8]),
    /// With that text.
    MakeLink(&'static [u8], &'static [u8]),
    ReadLink(&'static [u8]),
    /// From one name to another.
    Link(&'static [u8], &'static [u8]),
    Remove(&'static [u8]),
    RemoveDir(&'static [u8]),
    /// From one name to another.
    Rename(&'static [u8], &'static [u8]),
    /// At that byte of the file.
    Write(&'static [u8], u64, &'static [u8]),
}

/// Whether the path is that name in the root.
fn is_at(path: &Path, name: &[u8]) -> bool {
    match path.names() {
        [only] => only.as_bytes() == name,
        _ => false,
    }
}

/// Whether the call is that one.
pub fn is_ask(call: Call<'_>, ask: Ask) -> bool {
    match (call, ask) {
        (Call::Stat(path), Ask::Stat(name)) => is_at(path, name),
        (Call::List(path), Ask::List) => path.names().is_empty(),
        (
            Call::MakeDir {
                path,
                permissions: None,
            },
            Ask::MakeDir(name),
        ) => is_at(path, name),
        (Call::MakeLink { path, text }, Ask::MakeLink(name, bytes)) => {
            is_at(path, name) && text == bytes
        }
        (Call::ReadLink(path), Ask::ReadLink(name)) => is_at(path, name),
        (Call::Link { from, to }, Ask::Link(source, target)) => {
            is_at(from, source) && is_at(to, target)
        }
        (Call::Remove(path), Ask::Remove(name)) => is_at(path, name),
        (Call::RemoveDir(path), Ask::RemoveDir(name)) => is_at(path, name),
        (Call::Rename { from, to }, Ask::Rename(source, target)) => {
            is_at(from, source) && is_at(to, target)
        }
        (Call::Write { path, offset, data }, Ask::Write(name, at, bytes)) => {
            is_at(path, name) && offset == at && data == bytes
        }
        _ => false,
    }
}
