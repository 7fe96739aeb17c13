//! Hiding an open file, for an UNLINK, or for a RENAME that moves another file to its place.

ghost use Rattle.std.specs.Prelude.{◌≡◌, ◌-◌, ℕ, length, option_map};
ghost use Rattle.paths.specs.Prefixes.{Names};
ghost use Rattle.ops.specs.Ahead.{after_hide, calls_after, calls_ending, end_of, plan_ahead, plan_ending};
ghost use Rattle.ops.specs.Scripts.{at_candidates, hide, unlink, End, Over, Plan};

use crate::findings::ScriptResult;
use crate::judging::{errno_in, judge};
use crate::script::{DONE, LastCall, Script, UNFIT};
use backing::{Answer, Call};
use errno::{EBUSY, EIO, ENOENT};
use paths::Path;
use table::Ticket;

/// How many candidates a file may be hidden under.
const CANDIDATES: usize = 10;

/// A file that is to be moved to the first candidate at which nothing exists.
#[derive(Clone, Copy, Drop)]
pub struct Hiding<'a> {
    pub path: &'a Path,
    /// What is moved to its place afterwards, if anything.
    pub source: Option<&'a Path>,
    /// The candidates that were not tried yet.
    pub left: &'a [Path],
}

/// The index of the first candidate that was not tried yet, counted from 0.
fn index_of(left: &[Path]) -> u8
    ensures { result ≡ 10 - length left.now }
{
    CANDIDATES.saturating_sub(left.len()) as u8
}

/// The script of an UNLINK of the first path of its ticket.
// In a caller its locals would be set up whichever way that one goes; so below.
#[inline(never)]
pub(crate) fn start_unlink(ticket: &Ticket) -> Script<'_>
    ensures { plan_ahead result ≡ at_candidates ticket.now.paths (λ p candidates. unlink ticket.now.hide p candidates) }
{
    let (change, ending) = match ticket.paths() {
        [path, left @ ..] if ticket.hide() => {
            let source = None;
            (None, LastCall::Hide(Hiding { path, source, left }))
        }
        [path, ..] => (Some(Call::Remove(path)), DONE),
        [] => (None, UNFIT),
    };
    Script { change, ending }
}

/// The result if no candidate is left.
pub(crate) fn unhidden(left: &[Path]) -> ScriptResult
    ensures { (path : Names) (rest : ℕ → Plan) (end : End) → hide path left.now rest ≡ Over end → end_of result ≡ end }
{
    match left {
        [] => ScriptResult::Error { errno: EBUSY },
        [_, ..] => ScriptResult::Error { errno: EIO },
    }
}

/// What is left to do after the file was moved to that candidate.
fn after_hide<'a>(path: &'a Path, source: Option<&'a Path>, candidate: u8) -> LastCall<'a>
    ensures plan { plan_ending result ≡ after_hide path.now (option_map (λ s. s.now) source.entry) candidate }
    ensures calls { calls_ending result ≡ calls_after (option_map (λ s. s.now) source.entry) }
{
    match source {
        Some(from) => LastCall::MoveAfter {
            from,
            to: path,
            candidate,
        },
        None => LastCall::Over(ScriptResult::Hid { candidate }),
    }
}

impl<'a> Hiding<'a> {
    ghost use Rattle.std.specs.Prelude.{◌≡◌, ◌<◌};
    ghost use Rattle.ops.specs.Ahead.{calls_in, calls_left, plan_ahead, plan_hiding};
    ghost use Rattle.ops.specs.Scripts.{after};

    /// What is left to do after the answer to the Stat of the next candidate.
    #[inline(never)]
    pub fn on(self, answer: Answer) -> Script<'a>
        ensures plan { plan_ahead result ≡ after (plan_hiding self.entry) answer }
        ensures fewer { 0 < calls_in self.entry → calls_left result < calls_in self.entry }
    {
        let Hiding { path, source, left } = self;
        let [candidate, rest @ ..] = left else {
            return Script {
                change: None,
                ending: LastCall::Hide(self),
            };
        };
        let errno = match judge(Call::Stat(candidate), answer) {
            Answer::Stat { .. } => {
                let left = rest;
                return Script {
                    change: None,
                    ending: LastCall::Hide(Hiding { path, source, left }),
                };
            }
            other => errno_in(&other),
        };
        if errno == ENOENT {
            return Script {
                change: Some(Call::Rename {
                    from: path,
                    to: candidate,
                }),
                ending: after_hide(path, source, index_of(left)),
            };
        }
        Script {
            change: None,
            ending: LastCall::Over(ScriptResult::Error { errno }),
        }
    }
}
