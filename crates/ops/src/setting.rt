//! Setting attributes: one call for each part, and then a Stat, whose answer is reported.

ghost use Rattle.std.specs.Prelude.{◌≡◌, ◌+◌, ◌<◌, None, IfNone, IfSome};
ghost use Rattle.backing.specs.Calls.{asked};
ghost use Rattle.ops.specs.Ahead.{calls_ending, calls_set, plan_ahead, plan_ending, plan_setting, told_of};
ghost use Rattle.ops.specs.Parts.{parts_of};
ghost use Rattle.ops.specs.Scripts.{after, look, make, next_of, set_parts, tell_attributes, Over};

use crate::findings::ScriptResult;
use crate::parts::{NewParts, parts_of};
use crate::script::{LastCall, Script, refused};
use crate::telling::{ReplyKind, looked};
use backing::{Answer, Call};
use paths::Path;
use wire::NewAttributes;

/// What is still to be set of what is at a path: permission bits first, then the owner, permission bits that this
/// may have cleared, the size, and the times.
#[derive(Clone, Copy, Drop)]
pub struct Setting<'a> {
    pub path: &'a Path,
    pub parts: NewParts,
    pub tells: ReplyKind,
}

impl<'a> Setting<'a> {
    /// The call for the first part, and what is left after it.
    fn split(self) -> Option<(Call<'a>, Setting<'a>)>
        ensures some { IfSome result (λ split. plan_setting self.entry ≡ make (asked split.0) (plan_setting split.1)) }
        ensures fewer { IfSome result (λ split. calls_set self.entry.parts ≡ calls_set split.1.parts + 1) }
        ensures none { IfNone result (plan_setting self.entry ≡ look self.entry.path.now (λ found. Over (told_of self.entry.tells self.entry.path.now found))) }
        ensures look { IfNone result (calls_set self.entry.parts ≡ 1) }
    {
        let Setting { path, parts, tells } = self;
        // The mode comes before the owner, so that a change of owner clears the setuid and setgid bits of a file, as in
        // the system. The times come after the size, whose change would set them.
        if let Some(permissions) = parts.permissions {
            let left = NewParts {
                permissions: None,
                ..parts
            };
            return Some((
                Call::SetPermissions { path, permissions },
                Setting {
                    path,
                    parts: left,
                    tells,
                },
            ));
        }
        if parts.uid.is_some() || parts.gid.is_some() {
            let NewParts { uid, gid, .. } = parts;
            let left = NewParts {
                uid: None,
                gid: None,
                ..parts
            };
            return Some((
                Call::SetOwner { path, uid, gid },
                Setting {
                    path,
                    parts: left,
                    tells,
                },
            ));
        }
        if let Some(permissions) = parts.again {
            let left = NewParts {
                again: None,
                ..parts
            };
            return Some((
                Call::SetPermissions { path, permissions },
                Setting {
                    path,
                    parts: left,
                    tells,
                },
            ));
        }
        self.split_contents()
    }

    /// The same where neither permission bits nor an owner are to be set.
    fn split_contents(self) -> Option<(Call<'a>, Setting<'a>)>
        requires permissions { self.parts.permissions ≡ None }
        requires uid { self.parts.uid ≡ None }
        requires gid { self.parts.gid ≡ None }
        requires again { self.parts.again ≡ None }
        ensures some { IfSome result (λ split. plan_setting self.entry ≡ make (asked split.0) (plan_setting split.1)) }
        ensures fewer { IfSome result (λ split. calls_set self.entry.parts ≡ calls_set split.1.parts + 1) }
        ensures none { IfNone result (plan_setting self.entry ≡ look self.entry.path.now (λ found. Over (told_of self.entry.tells self.entry.path.now found))) }
        ensures look { IfNone result (calls_set self.entry.parts ≡ 1) }
    {
        let Setting { path, parts, tells } = self;
        if let Some(size) = parts.size {
            let left = NewParts {
                size: None,
                ..parts
            };
            return Some((
                Call::SetLen { path, size },
                Setting {
                    path,
                    parts: left,
                    tells,
                },
            ));
        }
        let NewParts {
            accessed,
            modified,
            ..
        } = parts;
        if accessed.is_none() && modified.is_none() {
            return None;
        }
        let call = Call::SetTimes {
            path,
            accessed,
            modified,
        };
        let left = NewParts {
            accessed: None,
            modified: None,
            ..parts
        };
        Some((
            call,
            Setting {
                path,
                parts: left,
                tells,
            },
        ))
    }

    /// The next call.
    // In a caller its locals would be set up whichever way that one goes; so below.
    #[inline(never)]
    pub fn next(self) -> Call<'a>
        ensures { next_of (plan_setting self.entry) ≡ Some (asked result) }
    {
        match self.split() {
            Some((call, _)) => call,
            None => Call::Stat(self.path),
        }
    }

    /// What is left to do after the answer to the next call.
    #[inline(never)]
    pub fn on(self, answer: Answer) -> LastCall<'a>
        ensures plan { plan_ending result ≡ after (plan_setting self.entry) answer }
        ensures fewer { calls_ending result < calls_set self.entry.parts }
    {
        let Some((call, left)) = self.split() else {
            return LastCall::Over(looked(self.tells, self.path, answer));
        };
        match refused(call, answer) {
            Some(errno) => LastCall::Over(ScriptResult::Error { errno }),
            None => LastCall::Set(left),
        }
    }
}

/// The script of a SETATTR.
#[inline(never)]
pub(crate) fn start_set_attr<'a>(
    valid: u32,
    size: u64,
    attributes: NewAttributes,
    path: &'a Path,
) -> Script<'a>
    ensures { plan_ahead result ≡ set_parts path.now (parts_of valid size attributes) (tell_attributes path.now) }
{
    let parts = parts_of(valid, size, attributes);
    let tells = ReplyKind::Attributes;
    Script {
        change: None,
        ending: LastCall::Set(Setting { path, parts, tells }),
    }
}
