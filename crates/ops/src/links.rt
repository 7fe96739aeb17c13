//! Links: whether they are served, and what a SYMLINK and a LINK need.

ghost use Rattle.std.specs.Prelude.{◌≡◌};
ghost use Rattle.ops.specs.Intents.{hard_link_intent, intent_in, is_unserved, link_intent, refusal_errno};
ghost use Rattle.ops.specs.Ahead.{plan_ahead};
ghost use Rattle.ops.specs.Scripts.{at_paths, give_entry, make};
ghost use Rattle.backing.specs.Calls.{AskLink};
ghost use Rattle.wire.specs.Requests.{opcode_of};

use crate::intents::{Intent, refused};
use crate::script::{LastCall, Script, UNFIT};
use crate::telling::ReplyKind;
use crate::wanted::Wanted;
use backing::Call;
use errno::{ENAMETOOLONG, ENOENT, ENOSYS, EPERM};
use table::Ticket;
use terms::{Kinds, Settings};
use wire::{LINK, Operation, READLINK, SYMLINK, WireFault};

/// A link's text has fewer bytes than this, as on Linux (`PATH_MAX` of `limits.h`, which counts the zero at its end).
pub(crate) const PATH_MAX: usize = 4096;

/// The node of the root (`FUSE_ROOT_ID` of `fuse.h`).
const ROOT: u64 = 1;

/// Whether these settings do not serve the opcode: READLINK, SYMLINK and LINK, where only files and folders are shown.
fn is_unserved(settings: Settings, opcode: u32) -> bool
    ensures { result ≡ is_unserved settings opcode }
{
    matches!(opcode, READLINK | SYMLINK | LINK) && settings.kinds == Kinds::Plain
}

/// Whether these settings do not serve the operation.
pub(crate) fn is_left_out(settings: Settings, operation: &Operation<'_>) -> bool
    ensures { result ≡ is_unserved settings (opcode_of operation.now) }
{
    match operation {
        Operation::ReadLink => is_unserved(settings, READLINK),
        Operation::MakeLink { .. } => is_unserved(settings, SYMLINK),
        Operation::Link { .. } => is_unserved(settings, LINK),
        _ => false,
    }
}

/// The error number of the answer to a frame with this opcode and this fault, if it gets a reply. An opcode that these
/// settings do not serve is ENOSYS, whatever else is wrong with the body.
pub fn refusal_errno(settings: Settings, opcode: u32, fault: WireFault) -> i32
    ensures { result ≡ refusal_errno settings opcode fault }
{
    match fault {
        WireFault::Frame => fault.errno(),
        _ if is_unserved(settings, opcode) => ENOSYS,
        _ => fault.errno(),
    }
}

/// SYMLINK. An empty text is ENOENT, and a longer one than a link can have is ENAMETOOLONG, as for symlink(2).
pub(crate) fn link_intent<'a>(parent: u64, name: &'a [u8], text: &[u8]) -> Intent<'a>
    ensures { intent_in result ≡ link_intent parent name.now text.now }
{
    if text.is_empty() {
        return refused(ENOENT);
    }
    if text.len() >= PATH_MAX {
        return refused(ENAMETOOLONG);
    }
    Intent::Want(Wanted::Name { parent, name })
}

/// LINK. The root is a folder, which gets no further name: that is EPERM, as for link(2).
pub(crate) fn hard_link_intent<'a>(number: u64, parent: u64, name: &'a [u8]) -> Intent<'a>
    ensures { intent_in result ≡ hard_link_intent number parent name.now }
{
    if number == ROOT {
        return refused(EPERM);
    }
    Intent::Want(Wanted::Link {
        number,
        parent,
        name,
    })
}

/// The script of a LINK, which gives what is at the first path of its ticket the second as a further name.
// In a caller its locals would be set up whichever way that one goes.
#[inline(never)]
pub(crate) fn start_link(ticket: &Ticket) -> Script<'_>
    ensures { plan_ahead result ≡ at_paths ticket.now.paths (λ s t candidates. make (AskLink s t) (give_entry t)) }
{
    let (change, ending) = match ticket.paths() {
        [from, to, ..] => (
            Some(Call::Link { from, to }),
            LastCall::Look {
                path: to,
                tells: ReplyKind::Entry,
            },
        ),
        _ => (None, UNFIT),
    };
    Script { change, ending }
}
