//! The results of scripts, from the answer to their last call.

ghost use Rattle.std.specs.Prelude.{◌≡◌};
ghost use Rattle.backing.specs.Calls.{AskList, AskRead, AskReadLink, AskRemove, AskStat, AskWrite};
ghost use Rattle.ops.specs.Ahead.{end_of, told_of};
ghost use Rattle.ops.specs.Judged.{judged};
ghost use Rattle.ops.specs.Scripts.{if_found, if_listed, if_read, if_removed, if_written, is_hidden, open_end, shown_at, Over};

use crate::findings::{FoundFile, ScriptResult};
use crate::judging::{errno_in, judge};
use backing::{Answer, Call};
use errno::{EEXIST, EINVAL, EISDIR};
use paths::Path;
use paths::reserved::is_reserved;
use payload::Kind;

/// What is reported about what is at a path.
#[derive(Clone, Copy, Debug, PartialEq, Eq)]
pub enum ReplyKind {
    Nothing,
    /// Something is there, although nothing should be: EEXIST.
    Taken,
    Entry,
    /// A file that was created is given and opened.
    NewFile,
    Attributes,
    /// A file is opened; for a folder it is EISDIR, and for anything else EINVAL (own).
    Opening,
}

/// Whether a file at the path is hidden.
fn is_hidden(path: &Path) -> bool
    ensures { result ≡ is_hidden path.now }
{
    match path.names().last() {
        Some(name) => is_reserved(name.as_bytes()),
        None => false,
    }
}

/// What is reported about what was found at the path: of a hidden file, one link less.
fn shown_at(path: &Path, found: FoundFile) -> FoundFile
    ensures { result ≡ shown_at path.now found }
{
    if !is_hidden(path) {
        return found;
    }
    let mut details = found.details;
    details.links = details.links.saturating_sub(1);
    FoundFile { details, ..found }
}

/// The result of an OPEN that found this.
fn opening(kind: Kind) -> ScriptResult
    ensures { end_of result ≡ open_end kind }
{
    match kind {
        Kind::Folder => ScriptResult::Error { errno: EISDIR },
        Kind::File => ScriptResult::Opening,
        // Nobody opens a pipe, a socket or a device through the server: its client opens its own.
        Kind::Link | Kind::Special(_) => ScriptResult::Error { errno: EINVAL },
    }
}

impl ReplyKind {
    /// The result for what was found at the path.
    pub(crate) fn of(self, path: &Path, found: FoundFile) -> ScriptResult
        ensures { end_of result ≡ told_of self path.now found }
    {
        match self {
            ReplyKind::Nothing => ScriptResult::Nothing,
            ReplyKind::Taken => ScriptResult::Error { errno: EEXIST },
            ReplyKind::Entry => ScriptResult::NewEntry(found),
            ReplyKind::NewFile => ScriptResult::NewFile(found),
            ReplyKind::Attributes => ScriptResult::Attributes(shown_at(path, found)),
            ReplyKind::Opening => opening(found.kind),
        }
    }
}

/// The result of a Stat of the path.
// In a caller its locals would be set up whichever way that one goes; so below.
#[inline(never)]
pub(crate) fn looked(tells: ReplyKind, path: &Path, answer: Answer) -> ScriptResult
    ensures { Over (end_of result) ≡ if_found (λ found. Over (told_of tells path.now found)) (judged (AskStat path.now) answer) }
{
    match judge(Call::Stat(path), answer) {
        Answer::Stat {
            kind,
            size,
            details,
        } => tells.of(
            path,
            FoundFile {
                kind,
                size,
                details,
            },
        ),
        other => ScriptResult::Error {
            errno: errno_in(&other),
        },
    }
}

/// The result of a List.
#[inline(never)]
pub(crate) fn listed(path: &Path, answer: Answer) -> ScriptResult
    ensures { Over (end_of result) ≡ if_listed (judged (AskList path.now) answer) }
{
    match judge(Call::List(path), answer) {
        Answer::Names(children) => ScriptResult::Listed(children),
        other => ScriptResult::Error {
            errno: errno_in(&other),
        },
    }
}

/// The result of a Read.
#[inline(never)]
pub(crate) fn read(path: &Path, offset: u64, size: u32, answer: Answer) -> ScriptResult
    ensures { Over (end_of result) ≡ if_read (judged (AskRead path.now offset size) answer) }
{
    match judge(Call::Read { path, offset, size }, answer) {
        Answer::Bytes(bytes) => ScriptResult::Bytes(bytes),
        other => ScriptResult::Error {
            errno: errno_in(&other),
        },
    }
}

/// The result of a ReadLink.
#[inline(never)]
pub(crate) fn read_link(path: &Path, answer: Answer) -> ScriptResult
    ensures { Over (end_of result) ≡ if_read (judged (AskReadLink path.now) answer) }
{
    match judge(Call::ReadLink(path), answer) {
        Answer::Bytes(text) => ScriptResult::Bytes(text),
        other => ScriptResult::Error {
            errno: errno_in(&other),
        },
    }
}

/// The result of a Write.
#[inline(never)]
pub(crate) fn written(path: &Path, offset: u64, piece: &[u8], answer: Answer) -> ScriptResult
    ensures { Over (end_of result) ≡ if_written (judged (AskWrite path.now offset piece.now) answer) }
{
    let call = Call::Write {
        path,
        offset,
        data: piece,
    };
    match judge(call, answer) {
        Answer::Wrote(count) => ScriptResult::Written { size: count as u32 },
        other => ScriptResult::Error {
            errno: errno_in(&other),
        },
    }
}

/// The result of removing a file that was closed: success, and if it failed the file is kept.
#[inline(never)]
pub(crate) fn removed(path: &Path, answer: Answer) -> ScriptResult
    ensures { Over (end_of result) ≡ if_removed (judged (AskRemove path.now) answer) }
{
    match judge(Call::Remove(path), answer) {
        Answer::Done => ScriptResult::Nothing,
        _ => ScriptResult::Kept,
    }
}
