//! How a script starts, by the operation of its request.

ghost use Rattle.std.specs.Prelude.{◌≡◌, [], IfOk, OnErr};
ghost use Rattle.backing.specs.Calls.{asked};
ghost use Rattle.ops.specs.Ahead.{plan_ahead, plan_ending, told_of, LooksAtEach};
ghost use Rattle.ops.specs.Scripts.{at_names, done, look, make, plan_of, release, Over};
ghost use Rattle.terms.specs.declared.settings.Settings.{Settings as Whose};
ghost use Rattle.wire.specs.declared.request.Caller.{Caller as Whom};

use crate::hiding::start_unlink;
use crate::links::start_link;
use crate::looks::end_with_looks;
use crate::making::{start_create, start_make_dir, start_make_link};
use crate::moving::{start_rename, start_rename_by};
use crate::script::{DONE, LastCall, Script, UNFIT};
use crate::setting::start_set_attr;
use crate::telling::ReplyKind;
use backing::Call;
use paths::Path;
use std::alloc::{AllocError, Global};
use table::Ticket;
use terms::Settings;
use wire::{Operation, Request};

/// A Stat of the path, whose answer is reported.
fn look(path: &Path, tells: ReplyKind) -> Script<'_>
    ensures { plan_ahead result ≡ look path.now (λ found. Over (told_of tells path.now found)) }
{
    only(LastCall::Look { path, tells })
}

/// A script without a change.
fn only(ending: LastCall<'_>) -> Script<'_>
    ensures { plan_ahead result ≡ plan_ending ending.entry }
{
    Script {
        change: None,
        ending,
    }
}

/// A script with a change alone.
fn change(call: Call<'_>) -> Script<'_>
    ensures { plan_ahead result ≡ make (asked call.entry) done }
{
    Script {
        change: Some(call),
        ending: DONE,
    }
}

/// The script of a READDIRPLUS.
// In a caller its locals would be set up whichever way that one goes; so below.
#[inline(never)]
fn start_looks(alloc: Global, ticket: &Ticket) -> Result<Script<'_>, AllocError>
    ensures { IfOk result (λ script. plan_ahead script ≡ at_names ticket.now.paths) }
{
    Ok(only(end_with_looks(alloc, ticket)?))
}

/// The script of a RELEASE, which removes a hidden file with its last handle.
#[inline(never)]
fn start_release(ticket: &Ticket) -> Script<'_>
    ensures { plan_ahead result ≡ release ticket.now.last ticket.now.paths }
{
    let ending = match ticket.paths() {
        [path, ..] if ticket.last() => LastCall::Remove { path },
        [] if ticket.last() => UNFIT,
        _ => DONE,
    };
    Script {
        change: None,
        ending,
    }
}

/// The script of a request whose ticket has no path.
#[inline(never)]
fn without_path<'a>(operation: Operation<'_>, ticket: &'a Ticket) -> Script<'a>
    requires { ticket.now.paths ≡ [] }
    ensures { (settings : Whose) (caller : Whom) → plan_ahead result ≡ plan_of settings caller operation.entry ticket.now }
{
    match operation {
        Operation::Release { .. } => start_release(ticket),
        _ => only(UNFIT),
    }
}

impl<'a> Script<'a> {
    /// The script of a request that began with this ticket. Only that of a READDIRPLUS allocates.
    ///
    /// If the ticket does not have the paths of the request, or the request has no script, the result is a script that
    /// ended with EIO (own).
    pub fn start(
        alloc: Global,
        settings: Settings,
        request: Request<'a>,
        ticket: &'a Ticket,
    ) -> Result<Script<'a>, AllocError>
        ensures ok { IfOk result (λ script. plan_ahead script ≡ plan_of settings request.entry.caller request.entry.operation ticket.now) }
        ensures err { OnErr result (LooksAtEach request.entry.operation) }
    {
        let Request {
            caller,
            operation,
            ..
        } = request;
        let Some(path) = ticket.paths().first() else {
            return Ok(without_path(operation, ticket));
        };
        let script = match operation {
            Operation::Lookup { .. } => look(path, ReplyKind::Entry),
            Operation::GetAttr => look(path, ReplyKind::Attributes),
            Operation::SetAttr {
                valid,
                size,
                attributes,
                ..
            } => start_set_attr(valid, size, attributes, path),
            Operation::MakeDir { mode, umask, .. } => {
                start_make_dir(settings.attributes, caller, mode, umask, path)
            }
            Operation::MakeLink { text, .. } => {
                start_make_link(settings.attributes, caller, text, path)
            }
            Operation::ReadLink => only(LastCall::ReadLink { path }),
            Operation::Create { mode, umask, .. } => {
                start_create(settings.attributes, caller, mode, umask, path)
            }
            Operation::Open { .. } => look(path, ReplyKind::Opening),
            Operation::Read { offset, size, .. } => only(LastCall::Read { path, offset, size }),
            Operation::Write { offset, data, .. } => only(LastCall::Write { path, offset, data }),
            Operation::Sync { .. } => change(Call::Sync(path)),
            Operation::Release { .. } => start_release(ticket),
            Operation::OpenDir => only(LastCall::List { path }),
            Operation::Unlink { .. } => start_unlink(ticket),
            Operation::RemoveDir { .. } => change(Call::RemoveDir(path)),
            Operation::Rename { .. } => start_rename(ticket),
            Operation::Link { .. } => start_link(ticket),
            Operation::ReadDirPlus { .. } => return start_looks(alloc, ticket),
            Operation::Rename2 { flags, .. } => start_rename_by(flags, ticket),
            Operation::Forget { .. }
            | Operation::StatFs
            | Operation::Init { .. }
            | Operation::Flush { .. }
            | Operation::ReadDir { .. }
            | Operation::ReleaseDir { .. }
            | Operation::SyncDir { .. }
            | Operation::Interrupt
            | Operation::Destroy
            | Operation::BatchForget { .. } => only(UNFIT),
        };
        Ok(script)
    }
}
