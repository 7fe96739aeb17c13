//! What a script asks and its results, with the indices of the paths in its ticket.

use backing::{Call, NewTime};
use ops::{FoundFile, ScriptResult};
use paths::Path;
use table::Ticket;

/// What a ticket says about its request, apart from its paths.
#[derive(Clone, Copy, PartialEq, Eq)]
pub struct Form {
    /// A name is moved to itself.
    pub same: bool,
    /// An open file is hidden, under one of the last ten paths.
    pub hide: bool,
    /// The last handle of a hidden file is closed.
    pub last: bool,
}

/// What the ticket says.
pub fn form_of(ticket: &Ticket) -> Form {
    Form {
        same: ticket.same(),
        hide: ticket.hide(),
        last: ticket.last(),
    }
}

/// What is asked of a directory, in terms of the request's paths.
#[derive(Clone, Copy, PartialEq, Eq)]
pub enum Ask {
    /// Of the path at this index in the ticket.
    Stat(usize),
    List,
    /// With these permission bits, or the default.
    Make(Option<u32>),
    MakeDir(Option<u32>),
    /// With a text of that many bytes.
    MakeLink(usize),
    /// From the path at one index to that at another.
    Link(usize, usize),
    Remove,
    RemoveDir,
    /// From the path at one index to that at another.
    Rename(usize, usize),
    /// The same, to a path with nothing at it.
    RenameNew(usize, usize),
    /// Of what is at two paths.
    Exchange(usize, usize),
    /// To that many bytes.
    SetLen(u64),
    /// From that byte on, that many.
    Read(u64, u32),
    ReadLink,
    /// From that byte on, that many.
    Write(u64, usize),
    Sync,
    /// To these permission bits.
    SetPermissions(u32),
    /// To that owner and that group, if they are set.
    SetOwner(Option<u32>, Option<u32>),
    /// The times of the last read and the last change, if they are set.
    SetTimes(Option<NewTime>, Option<NewTime>),
    /// No script asks this.
    Other,
}

/// The state of a script after some answers.
#[derive(Clone, Copy, PartialEq, Eq)]
pub enum Stands {
    Asks(Ask),
    Over(Ends),
}

/// The result of a script.
#[derive(Clone, Copy, PartialEq, Eq)]
pub enum Ends {
    Error(i32),
    Nothing,
    NewEntry(FoundFile),
    NewFile(FoundFile),
    Attributes(FoundFile),
    Opening,
    /// That many bytes are returned.
    Bytes(usize),
    Written(u32),
    /// That many names are listed.
    Listed(usize),
    /// A file was hidden under the candidate with this index.
    Hid(usize),
    /// A file was hidden, and another was moved to its place.
    Replaced(usize),
    /// A file was hidden, and then moving another to its place failed.
    Unmoved(usize, i32),
    /// A closed file was not removed.
    Kept,
    /// What is at the two names of a page, and whether anything is.
    Looked([Option<FoundFile>; 2], [bool; 2]),
}

/// The result as `Ends`.
pub fn ends_of(finding: ScriptResult) -> Ends {
    match finding {
        ScriptResult::Error { errno } => Ends::Error(errno),
        ScriptResult::Nothing => Ends::Nothing,
        ScriptResult::NewEntry(found) => Ends::NewEntry(found),
        ScriptResult::NewFile(found) => Ends::NewFile(found),
        ScriptResult::Attributes(found) => Ends::Attributes(found),
        ScriptResult::Opening => Ends::Opening,
        ScriptResult::Bytes(bytes) => Ends::Bytes(bytes.len()),
        ScriptResult::Written { size } => Ends::Written(size),
        ScriptResult::Listed(names) => Ends::Listed(names.as_slice().len()),
        ScriptResult::Hid { candidate } => Ends::Hid(candidate as usize),
        ScriptResult::Replaced { candidate } => Ends::Replaced(candidate as usize),
        ScriptResult::Unmoved { candidate, errno } => Ends::Unmoved(candidate as usize, errno),
        ScriptResult::Kept => Ends::Kept,
        ScriptResult::Looked(looked) => {
            let (there, founds) = looked.into_parts();
            match (founds.as_slice(), there.as_slice()) {
                ([a, b], [at_a, at_b]) => Ends::Looked([*a, *b], [*at_a, *at_b]),
                _ => Ends::Nothing,
            }
        }
    }
}

/// The first index of the path among the others. A path that is not among them has the index after the last.
fn place_of(path: &Path, paths: &[Path]) -> usize {
    let mut place = 0usize;
    for other in paths {
        if other.is(path) {
            return place;
        }
        place = place.saturating_add(1);
    }
    place
}

/// A call that sets attributes of the first path.
fn ask_to_set(call: Call<'_>, first: &Path) -> Ask {
    match call {
        Call::SetLen { path, size } if path.is(first) => Ask::SetLen(size),
        Call::SetPermissions { path, permissions } if path.is(first) => {
            Ask::SetPermissions(permissions)
        }
        Call::SetOwner { path, uid, gid } if path.is(first) => Ask::SetOwner(uid, gid),
        Call::SetTimes {
            path,
            accessed,
            modified,
        } if path.is(first) => Ask::SetTimes(accessed, modified),
        _ => Ask::Other,
    }
}

/// A call of a script, in terms of the request's paths.
pub fn ask_of(call: Call<'_>, paths: &[Path]) -> Ask {
    let Some(first) = paths.first() else {
        return Ask::Other;
    };
    match call {
        Call::Stat(path) => Ask::Stat(place_of(path, paths)),
        Call::List(path) if path.is(first) => Ask::List,
        Call::Make { path, permissions } if path.is(first) => Ask::Make(permissions),
        Call::MakeDir { path, permissions } if path.is(first) => Ask::MakeDir(permissions),
        Call::MakeLink { path, text } if path.is(first) => Ask::MakeLink(text.len()),
        Call::Remove(path) if path.is(first) => Ask::Remove,
        Call::RemoveDir(path) if path.is(first) => Ask::RemoveDir,
        Call::Read { path, offset, size } if path.is(first) => Ask::Read(offset, size),
        Call::ReadLink(path) if path.is(first) => Ask::ReadLink,
        Call::Write { path, offset, data } if path.is(first) => Ask::Write(offset, data.len()),
        Call::Sync(path) if path.is(first) => Ask::Sync,
        Call::Link { from, to } => Ask::Link(place_of(from, paths), place_of(to, paths)),
        Call::Rename { from, to } => Ask::Rename(place_of(from, paths), place_of(to, paths)),
        Call::RenameNew { from, to } => Ask::RenameNew(place_of(from, paths), place_of(to, paths)),
        Call::Exchange { first, second } => {
            Ask::Exchange(place_of(first, paths), place_of(second, paths))
        }
        other => ask_to_set(other, first),
    }
}
