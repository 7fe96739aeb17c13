//! Checking a directory's answers.

ghost use Rattle.std.specs.Prelude.{◌≡◌};
ghost use Rattle.backing.specs.Calls.{asked};
ghost use Rattle.ops.specs.Judged.{errno_in, fits, is_sized, is_written, judged};

use crate::links::PATH_MAX;
use backing::{Answer, Call};
use errno::EIO;
use payload::Kind;

/// Whether what is of that kind may have that size: a folder has none.
fn is_sized(kind: Kind, size: u64) -> bool
    ensures { result ≡ is_sized kind size }
{
    match kind {
        Kind::Folder => size == 0,
        Kind::File | Kind::Link | Kind::Special(_) => true,
    }
}

/// Whether that many bytes of the piece may have been written: no more than there are, and no more than a reply can
/// say.
fn is_written(piece: &[u8], count: usize) -> bool
    ensures { result ≡ is_written piece.now count }
{
    count <= piece.len() && count < 1 << 32
}

/// Whether the answer has the kind and shape for its call, and no more than was asked for.
fn fits(call: Call<'_>, answer: &Answer) -> bool
    ensures { result ≡ fits (asked call.entry) answer.now }
{
    match (call, answer) {
        (Call::Stat(_), Answer::Stat { kind, size, .. }) => is_sized(*kind, *size),
        (Call::Read { size, .. }, Answer::Bytes(bytes)) => bytes.len() <= size as usize,
        (Call::ReadLink(_), Answer::Bytes(text)) => text.len() < PATH_MAX,
        (Call::Write { data, .. }, Answer::Wrote(count)) => is_written(data, *count),
        (
            Call::Make { .. }
            | Call::MakeDir { .. }
            | Call::MakeLink { .. }
            | Call::Remove(_)
            | Call::RemoveDir(_)
            | Call::Link { .. }
            | Call::Rename { .. }
            | Call::RenameNew { .. }
            | Call::Exchange { .. }
            | Call::SetLen { .. }
            | Call::SetPermissions { .. }
            | Call::SetOwner { .. }
            | Call::SetTimes { .. }
            | Call::Sync(_),
            Answer::Done,
        )
        | (Call::List(_), Answer::Names(_)) => true,
        _ => false,
    }
}

/// The error of an answer: its number if it is a fault with one from 1 to 4,095, which libfuse too allows in a reply,
/// and otherwise EIO (own).
pub fn errno_in(answer: &Answer) -> i32
    ensures { result ≡ errno_in answer.now }
{
    match answer {
        Answer::Fault(errno) if 1 <= *errno && *errno <= 4095 => *errno,
        _ => EIO,
    }
}

/// The answer after checking: one that does not fit its call becomes the fault EIO (own), and so does an error number
/// outside 1 to 4,095. It does not allocate.
// An answer is large, and is not moved through one more function where this is part of the caller.
#[inline(always)]
pub fn judge(call: Call<'_>, answer: Answer) -> Answer
    ensures { result ≡ judged (asked call.entry) answer }
{
    if fits(call, &answer) {
        answer
    } else {
        Answer::Fault(errno_in(&answer))
    }
}
