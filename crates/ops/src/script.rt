//! The calls of one request: at most one that changes something, and then at most one whose answer the reply needs, or
//! one for each name of a page. A move that hides changes two names, one after the other.

ghost use Rattle.std.specs.Prelude.{◌≡◌, ◌<◌};
ghost use Rattle.backing.specs.Calls.{asked};
ghost use Rattle.ops.specs.Ahead.{calls_left, end_of, plan_ahead, unless};
ghost use Rattle.ops.specs.Judged.{judged};
ghost use Rattle.ops.specs.Scripts.{after, if_done, next_of, AsksNext, End, Over, Plan};

use crate::findings::ScriptResult;
use crate::hiding::{Hiding, unhidden};
use crate::judging::{errno_in, judge};
use crate::looks::Looks;
use crate::making::Making;
use crate::moving::{moved, replace_on};
use crate::setting::Setting;
use crate::telling::{ReplyKind, listed, looked, read, read_link, removed, written};
use backing::{Answer, Call};
use errno::EIO;
use paths::Path;

/// How a script ends.
#[derive(Drop)]
pub enum LastCall<'a> {
    /// A Stat of the path, whose answer is reported.
    Look {
        path: &'a Path,
        tells: ReplyKind,
    },
    /// The names in the folder at the path.
    List {
        path: &'a Path,
    },
    /// Reading bytes of the file at the path.
    Read {
        path: &'a Path,
        offset: u64,
        size: u32,
    },
    /// Reading the text of the link at the path.
    ReadLink {
        path: &'a Path,
    },
    /// Writing data to the file at the path, and reporting how many bytes were written.
    Write {
        path: &'a Path,
        offset: u64,
        data: &'a [u8],
    },
    /// A Stat of each of several paths, whose answers are reported.
    Each(Looks<'a>),
    /// Checking that a file is at the source, then hiding the file at the target under one of these candidates, and
    /// then moving the source to the target.
    Replace {
        from: &'a Path,
        to: &'a Path,
        left: &'a [Path],
    },
    /// Finding the first candidate at which nothing exists, moving a file there, and then another to its place, if
    /// there is one.
    Hide(Hiding<'a>),
    /// Setting one part of the attributes after another, and reporting what is there then.
    Set(Setting<'a>),
    /// A Stat of what was made, which is given to the caller and reported.
    Made(Making<'a>),
    /// Moving the source to the target, after the file there was moved to the candidate with this index.
    MoveAfter {
        from: &'a Path,
        to: &'a Path,
        candidate: u8,
    },
    /// Removing the file at the path, which counts as success whatever the answer is.
    Remove {
        path: &'a Path,
    },
    /// No more calls.
    Over(ScriptResult),
}

/// The script of a request that began: what is left to do.
#[derive(Drop)]
pub struct Script<'a> {
    /// The change to be made first.
    pub(crate) change: Option<Call<'a>>,
    pub(crate) ending: LastCall<'a>,
}

/// No more calls, and success without a body.
pub(crate) const DONE: LastCall<'static> = LastCall::Over(ScriptResult::Nothing);

/// A ticket without the paths of its request, or a request without a script. No table makes such a ticket, but its type
/// does not say so.
pub(crate) const UNFIT: LastCall<'static> = LastCall::Over(ScriptResult::Error { errno: EIO });

/// The error with which a script ends after the answer to its change, if it is one.
// In a caller its locals would be set up whichever way that one goes.
#[inline(never)]
pub(crate) fn refused(call: Call<'_>, answer: Answer) -> Option<i32>
    ensures { (rest : Plan) → if_done rest (judged (asked call.entry) answer) ≡ unless result rest }
{
    match judge(call, answer) {
        Answer::Done => None,
        other => Some(errno_in(&other)),
    }
}

impl<'a> Script<'a> {
    /// The next call, or none if the script is over.
    pub fn next(&self) -> Option<Call<'_>>
        ensures { AsksNext result (next_of (plan_ahead self.now)) }
    {
        match (&self.change, &self.ending) {
            (Some(call), _) => Some(*call),
            (None, LastCall::Look { path, .. }) => Some(Call::Stat(path)),
            (None, LastCall::List { path }) => Some(Call::List(path)),
            (None, LastCall::Read { path, offset, size }) => Some(Call::Read {
                path,
                offset: *offset,
                size: *size,
            }),
            (None, LastCall::ReadLink { path }) => Some(Call::ReadLink(path)),
            (None, LastCall::Write { path, offset, data }) => Some(Call::Write {
                path,
                offset: *offset,
                data,
            }),
            (None, LastCall::Each(looks)) => looks.next(),
            (None, LastCall::Replace { from, .. }) => Some(Call::Stat(from)),
            (None, LastCall::Hide(hiding)) => hiding.left.first().map(Call::Stat),
            (None, LastCall::Set(setting)) => Some(setting.next()),
            (None, LastCall::Made(making)) => Some(Call::Stat(making.path)),
            (None, LastCall::MoveAfter { from, to, .. }) => Some(Call::Rename { from, to }),
            (None, LastCall::Remove { path }) => Some(Call::Remove(path)),
            (None, LastCall::Over(_)) => None,
        }
    }

    /// Takes the answer to the next call.
    ///
    /// A fault ends the script with the directory's error number; an answer that does not fit its call ends it with EIO
    /// (own). For a page either means that the name does not exist, and the script goes on. ENOENT means that a
    /// candidate is free. Removing a file that was closed counts as success, whatever the answer is.
    pub fn feed(&mut self, answer: Answer)
        ensures plan { plan_ahead self.new ≡ after (plan_ahead self.old) answer }
        ensures fewer { 0 < calls_left self.old → calls_left self.new < calls_left self.old }
    {
        if let Some(call) = self.change {
            self.change = None;
            if let Some(errno) = refused(call, answer) {
                self.ending = LastCall::Over(ScriptResult::Error { errno });
            }
            return;
        }
        let finding = match &mut self.ending {
            LastCall::Look { path, tells } => looked(*tells, path, answer),
            LastCall::List { path } => listed(path, answer),
            LastCall::Read { path, offset, size } => read(path, *offset, *size, answer),
            LastCall::ReadLink { path } => read_link(path, answer),
            LastCall::Write { path, offset, data } => written(path, *offset, data, answer),
            LastCall::Each(looks) => return looks.feed(answer),
            LastCall::Replace { from, to, left } => {
                self.ending = replace_on(from, to, left, answer);
                return;
            }
            LastCall::Hide(hiding) => {
                *self = hiding.on(answer);
                return;
            }
            LastCall::Set(setting) => {
                self.ending = setting.on(answer);
                return;
            }
            LastCall::Made(making) => {
                self.ending = making.on(answer);
                return;
            }
            LastCall::MoveAfter {
                from,
                to,
                candidate,
            } => moved(from, to, *candidate, answer),
            LastCall::Remove { path } => removed(path, answer),
            LastCall::Over(_) => return,
        };
        self.ending = LastCall::Over(finding);
    }

    /// Its result, after it is over.
    pub fn into_result(self) -> ScriptResult
        ensures { (end : End) → plan_ahead self.entry ≡ Over end → end_of result ≡ end }
    {
        let Self { ending, .. } = self;
        match ending {
            LastCall::Over(finding) => finding,
            LastCall::Each(looks) => looks.into_result(),
            LastCall::Hide(hiding) => unhidden(hiding.left),
            LastCall::Look { .. }
            | LastCall::List { .. }
            | LastCall::Read { .. }
            | LastCall::ReadLink { .. }
            | LastCall::Write { .. }
            | LastCall::Replace { .. }
            | LastCall::Set(_)
            | LastCall::Made(_)
            | LastCall::MoveAfter { .. }
            | LastCall::Remove { .. } => ScriptResult::Error { errno: EIO },
        }
    }
}
