//! What a request makes: a server that is user 0 gives it to the caller.

ghost use Rattle.std.specs.Prelude.{◌≡◌, ◌<◌, None};
ghost use Rattle.backing.specs.Calls.{AskMake, AskMakeDir, AskMakeLink};
ghost use Rattle.ops.specs.Ahead.{calls_ending, plan_ahead, plan_ending, plan_making, told_of};
ghost use Rattle.ops.specs.Parts.{made_with};
ghost use Rattle.ops.specs.Scripts.{after, cleared, entry_end, file_end, gid_owed, give_made, give_to, look, make, set_owner, set_permissions, uid_owed, Over};

use crate::findings::{FoundFile, ScriptResult};
use crate::judging::{errno_in, judge};
use crate::parts::{NewParts, made_with};
use crate::script::{LastCall, Script};
use crate::setting::Setting;
use crate::telling::ReplyKind;
use backing::{Answer, Call};
use paths::Path;
use terms::AttributeSource;
use wire::Caller;

/// What was made, with attributes of the host: a Stat, and after it, if it is to belong to the caller, the calls that give
/// it away, and a Stat once more.
#[derive(Clone, Copy, Drop)]
pub struct Making<'a> {
    pub path: &'a Path,
    /// The permission bits that it was made with, if a change of the owner may clear some: those of a file.
    pub permissions: Option<u32>,
    pub caller: Caller,
    pub tells: ReplyKind,
}

/// The user to whom it is given, if it is.
fn uid_owed(caller: Caller, found: FoundFile) -> Option<u32>
    ensures { result ≡ uid_owed caller found }
{
    if found.details.uid == 0 && caller.uid != 0 {
        Some(caller.uid)
    } else {
        None
    }
}

/// The group to which it is given, if it is. Another group than 0 is that of a folder that passes on its own.
fn gid_owed(caller: Caller, found: FoundFile) -> Option<u32>
    ensures { result ≡ gid_owed caller found }
{
    if found.details.uid == 0 && found.details.gid == 0 && caller.gid != 0 {
        Some(caller.gid)
    } else {
        None
    }
}

/// The permission bits of a file, if a change of the owner clears some: the system takes the set-user-ID and set-group-ID
/// bits away.
fn cleared(permissions: Option<u32>) -> Option<u32>
    ensures { result ≡ cleared permissions }
{
    match permissions {
        Some(permissions) if permissions >= 0o2000 => Some(permissions),
        _ => None,
    }
}

impl<'a> Making<'a> {
    /// Gives it to a user and a group, one of which is there.
    fn give_to(self, uid: Option<u32>, gid: Option<u32>) -> LastCall<'a>
        ensures plan { plan_ending result ≡ set_owner uid gid self.entry.path.now (set_permissions (cleared self.entry.permissions) self.entry.path.now (look self.entry.path.now (λ given. Over (told_of self.entry.tells self.entry.path.now given)))) }
        ensures few { calls_ending result < 4 }
    {
        let parts = NewParts {
            permissions: None,
            uid,
            gid,
            again: cleared(self.permissions),
            size: None,
            accessed: None,
            modified: None,
        };
        LastCall::Set(Setting {
            path: self.path,
            parts,
            tells: self.tells,
        })
    }

    /// What is left to do after it was found so.
    fn give(self, found: FoundFile) -> LastCall<'a>
        ensures plan { plan_ending result ≡ give_to (uid_owed self.entry.caller found) (gid_owed self.entry.caller found) self.entry.permissions self.entry.path.now (λ given. told_of self.entry.tells self.entry.path.now given) found }
        ensures few { calls_ending result < 4 }
    {
        let gid = gid_owed(self.caller, found);
        match uid_owed(self.caller, found) {
            Some(uid) => self.give_to(Some(uid), gid),
            None => match gid {
                Some(gid) => self.give_to(None, Some(gid)),
                None => LastCall::Over(self.tells.of(self.path, found)),
            },
        }
    }

    /// What is left to do after the answer to the Stat.
    // In a caller its locals would be set up whichever way that one goes; so below.
    #[inline(never)]
    pub fn on(self, answer: Answer) -> LastCall<'a>
        ensures plan { plan_ending result ≡ after (plan_making self.entry) answer }
        ensures few { calls_ending result < 4 }
    {
        match judge(Call::Stat(self.path), answer) {
            Answer::Stat {
                kind,
                size,
                details,
            } => self.give(FoundFile {
                kind,
                size,
                details,
            }),
            other => LastCall::Over(ScriptResult::Error {
                errno: errno_in(&other),
            }),
        }
    }
}

/// How a script ends that made something for the caller.
fn made<'a>(
    attributes: AttributeSource,
    caller: Caller,
    permissions: Option<u32>,
    path: &'a Path,
    tells: ReplyKind,
) -> LastCall<'a>
    ensures { plan_ending result ≡ give_made attributes caller permissions path.now (λ found. told_of tells path.now found) }
{
    match attributes {
        AttributeSource::Fixed { .. } => LastCall::Look { path, tells },
        AttributeSource::Host => LastCall::Made(Making {
            path,
            permissions,
            caller,
            tells,
        }),
    }
}

/// The script of a MKDIR. A folder keeps its bits when its owner changes, so they are not set once more: `mkdir(2)` has
/// already left out those that the host takes from nobody.
#[inline(never)]
pub(crate) fn start_make_dir<'a>(
    attributes: AttributeSource,
    caller: Caller,
    mode: u32,
    umask: u32,
    path: &'a Path,
) -> Script<'a>
    ensures { plan_ahead result ≡ make (AskMakeDir path.now (made_with attributes mode umask)) (give_made attributes caller None path.now entry_end) }
{
    let permissions = made_with(attributes, mode, umask);
    Script {
        change: Some(Call::MakeDir { path, permissions }),
        ending: made(attributes, caller, None, path, ReplyKind::Entry),
    }
}

/// The script of a CREATE.
#[inline(never)]
pub(crate) fn start_create<'a>(
    attributes: AttributeSource,
    caller: Caller,
    mode: u32,
    umask: u32,
    path: &'a Path,
) -> Script<'a>
    ensures { plan_ahead result ≡ make (AskMake path.now (made_with attributes mode umask)) (give_made attributes caller (made_with attributes mode umask) path.now file_end) }
{
    let permissions = made_with(attributes, mode, umask);
    Script {
        change: Some(Call::Make { path, permissions }),
        ending: made(attributes, caller, permissions, path, ReplyKind::NewFile),
    }
}

/// The script of a SYMLINK.
#[inline(never)]
pub(crate) fn start_make_link<'a>(
    attributes: AttributeSource,
    caller: Caller,
    text: &'a [u8],
    path: &'a Path,
) -> Script<'a>
    ensures { plan_ahead result ≡ make (AskMakeLink path.now text.now) (give_made attributes caller None path.now entry_end) }
{
    Script {
        change: Some(Call::MakeLink { path, text }),
        ending: made(attributes, caller, None, path, ReplyKind::Entry),
    }
}
