//! Replies to requests.

ghost use Rattle.std.specs.Prelude.{◌≡◌};
ghost use Rattle.ops.specs.Ahead.{IsOfNoPage};
ghost use Rattle.ops.specs.Pages.{Paged};
ghost use Rattle.ops.specs.Replies.{created_reply, entry_of, entry_reply, file_reply, first, handle_reply, opened_reply, reply_to};

use crate::attributes::attributes_of;
use crate::findings::{FoundFile, ScriptResult};
use errno::{EBADF, EIO, ENFILE};
use table::Answered;
use table_files::OpenFile;
use table_requests::Given;
use terms::Settings;
use wire::{Entry, ReplyBody};

/// What was given for the first name of a request, if anything.
fn first_given(answered: &Answered) -> Option<Given>
    ensures { result ≡ first answered.now.given }
{
    match answered.given().first() {
        Some(given) => *given,
        None => None,
    }
}

/// The entry for what was found and given.
pub(crate) fn entry_of(settings: Settings, found: FoundFile, given: Given) -> Entry
    ensures { result ≡ entry_of settings found given }
{
    Entry {
        node: given.number,
        generation: given.generation,
        attributes: attributes_of(settings, given.number, found),
    }
}

/// The entry that was given, or EIO (own) if none was.
fn entry_reply(settings: Settings, found: FoundFile, given: Option<Given>) -> ReplyBody
    ensures { result ≡ entry_reply settings found given }
{
    match given {
        Some(given) => ReplyBody::Entry(entry_of(settings, found, given)),
        None => ReplyBody::Failed { errno: EIO },
    }
}

/// The entry and the handle of a file that was created and opened, or EIO (own) if either was not given.
fn created_reply(
    settings: Settings,
    found: FoundFile,
    given: Option<Given>,
    opened: Option<u64>,
) -> ReplyBody
    ensures { result ≡ created_reply settings found given opened }
{
    match (given, opened) {
        (Some(given), Some(fh)) => ReplyBody::Created {
            entry: entry_of(settings, found, given),
            fh,
        },
        _ => ReplyBody::Failed { errno: EIO },
    }
}

/// The handle, or the error if there is none.
fn handle_reply(fh: Option<u64>, errno: i32) -> ReplyBody
    ensures { result ≡ handle_reply errno fh }
{
    match fh {
        Some(fh) => ReplyBody::Opened { fh },
        None => ReplyBody::Failed { errno },
    }
}

/// The handle under which a listing was stored, or ENFILE (own) if it was not.
pub fn opened_reply(put: Option<u64>) -> ReplyBody
    ensures { result ≡ opened_reply put }
{
    handle_reply(put, ENFILE)
}

/// The answer to a FLUSH, given the file open under its handle: success if that is of the node, otherwise EBADF.
pub fn file_reply(node: u64, file: Option<OpenFile>) -> ReplyBody
    ensures { result ≡ file_reply node file }
{
    match file {
        Some(file) if file.number == node => ReplyBody::Done,
        _ => ReplyBody::Failed { errno: EBADF },
    }
}

/// The answer to a request about a node, given the result of its script, the handle under which its listing was stored,
/// if any, and what the table gave.
///
/// An error in the result is returned as it is, and a file that was kept counts as success. An entry or a handle that
/// the table did not give is EIO (own), and a listing that was not stored is ENFILE (own). It does not allocate: bytes
/// that were read become the reply. For a page there is `entries_reply`.
pub fn reply_to(
    settings: Settings,
    node: u64,
    finding: ScriptResult,
    put: Option<u64>,
    answered: &Answered,
) -> ReplyBody
    requires { IsOfNoPage finding }
    ensures { (page : Paged) → result ≡ reply_to settings node page finding put answered.now }
{
    match finding {
        ScriptResult::Error { errno } => ReplyBody::Failed { errno },
        ScriptResult::Unmoved { errno, .. } => ReplyBody::Failed { errno },
        ScriptResult::Nothing
        | ScriptResult::Hid { .. }
        | ScriptResult::Replaced { .. }
        | ScriptResult::Kept => { ReplyBody::Done }
        ScriptResult::NewEntry(found) => entry_reply(settings, found, first_given(answered)),
        ScriptResult::NewFile(found) => {
            created_reply(settings, found, first_given(answered), answered.opened())
        }
        ScriptResult::Attributes(found) => {
            ReplyBody::Attributes(attributes_of(settings, node, found))
        }
        ScriptResult::Opening => handle_reply(answered.opened(), EIO),
        ScriptResult::Bytes(bytes) => ReplyBody::Data(bytes),
        ScriptResult::Written { size } => ReplyBody::Wrote { size },
        ScriptResult::Listed(_) => opened_reply(put),
        ScriptResult::Looked(_) => unreachable!(),
    }
}
