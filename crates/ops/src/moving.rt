//! The scripts of RENAME and RENAME2. A move that may replace something hides an open file at its target.

ghost use Rattle.std.specs.Prelude.{◌≡◌, ◌≤◌};
ghost use Rattle.backing.specs.Calls.{AskRename, AskStat};
ghost use Rattle.ops.specs.Ahead.{calls_ending, calls_hiding, end_of, plan_ahead, plan_ending};
ghost use Rattle.ops.specs.Judged.{judged};
ghost use Rattle.ops.specs.Scripts.{at_paths, exchange, hide, if_found, if_moved, move_after, rename, rename_by, rename_new, unless_folder, Over};

use crate::findings::ScriptResult;
use crate::hiding::Hiding;
use crate::intents::{EXCHANGE, NO_REPLACE};
use crate::judging::{errno_in, judge};
use crate::script::{DONE, LastCall, Script, UNFIT};
use crate::telling::ReplyKind;
use backing::{Answer, Call};
use errno::ENOTDIR;
use paths::Path;
use payload::Kind;
use table::Ticket;

/// The script of a RENAME from the first path of its ticket to the second.
// In a caller its locals would be set up whichever way that one goes; so below.
#[inline(never)]
pub(crate) fn start_rename(ticket: &Ticket) -> Script<'_>
    ensures { plan_ahead result ≡ at_paths ticket.now.paths (λ s t candidates. rename ticket.now.same ticket.now.hide s t candidates) }
{
    let (change, ending) = match ticket.paths() {
        [path, _, ..] if ticket.same() => (
            // A move of a path to itself changes nothing, but it must fail if nothing is there.
            None,
            LastCall::Look {
                path,
                tells: ReplyKind::Nothing,
            },
        ),
        [from, to, left @ ..] if ticket.hide() => (None, LastCall::Replace { from, to, left }),
        [from, to, ..] => (Some(Call::Rename { from, to }), DONE),
        _ => (None, UNFIT),
    };
    Script { change, ending }
}

/// The script of a RENAME2 with these flags.
#[inline(never)]
pub(crate) fn start_rename_by(flags: u32, ticket: &Ticket) -> Script<'_>
    ensures { plan_ahead result ≡ at_paths ticket.now.paths (λ s t candidates. rename_by flags ticket.now.same ticket.now.hide s t candidates) }
{
    match flags {
        0 => start_rename(ticket),
        NO_REPLACE => start_rename_new(ticket),
        EXCHANGE => start_exchange(ticket),
        _ => Script {
            change: None,
            ending: UNFIT,
        },
    }
}

/// The script of a move that replaces nothing. If source and target are the same path and something is there, that is
/// EEXIST.
fn start_rename_new(ticket: &Ticket) -> Script<'_>
    ensures { plan_ahead result ≡ at_paths ticket.now.paths (λ s t candidates. rename_new ticket.now.same s t) }
{
    let (change, ending) = match ticket.paths() {
        [path, _, ..] if ticket.same() => (
            None,
            LastCall::Look {
                path,
                tells: ReplyKind::Taken,
            },
        ),
        [from, to, ..] => (Some(Call::RenameNew { from, to }), DONE),
        _ => (None, UNFIT),
    };
    Script { change, ending }
}

/// The script of an exchange of the first two paths of its ticket.
fn start_exchange(ticket: &Ticket) -> Script<'_>
    ensures { plan_ahead result ≡ at_paths ticket.now.paths (λ s t candidates. exchange ticket.now.same s t) }
{
    let (change, ending) = match ticket.paths() {
        [path, _, ..] if ticket.same() => (
            None,
            LastCall::Look {
                path,
                tells: ReplyKind::Nothing,
            },
        ),
        [first, second, ..] => (Some(Call::Exchange { first, second }), DONE),
        _ => (None, UNFIT),
    };
    Script { change, ending }
}

/// What is left to do after the answer to the Stat of the source. A folder cannot replace a file, so that is ENOTDIR,
/// as for the move alone, and it is found out before anything is hidden.
#[inline(never)]
pub(crate) fn replace_on<'a>(
    from: &'a Path,
    to: &'a Path,
    left: &'a [Path],
    answer: Answer,
) -> LastCall<'a>
    ensures plan { plan_ending result ≡ if_found (λ found. unless_folder found.kind (hide to.now left.now (λ i. move_after from.now to.now i))) (judged (AskStat from.now) answer) }
    ensures fewer { calls_ending result ≤ calls_hiding left.now 1 }
{
    let errno = match judge(Call::Stat(from), answer) {
        Answer::Stat {
            kind: Kind::File | Kind::Link | Kind::Special(_),
            ..
        } => {
            return LastCall::Hide(Hiding {
                path: to,
                source: Some(from),
                left,
            });
        }
        Answer::Stat {
            kind: Kind::Folder,
            ..
        } => ENOTDIR,
        other => errno_in(&other),
    };
    LastCall::Over(ScriptResult::Error { errno })
}

/// The result of the second move, after a file was moved to that candidate. If it fails, the first move is not undone.
#[inline(never)]
pub(crate) fn moved(from: &Path, to: &Path, candidate: u8, answer: Answer) -> ScriptResult
    ensures { Over (end_of result) ≡ if_moved candidate (judged (AskRename from.now to.now) answer) }
{
    match judge(Call::Rename { from, to }, answer) {
        Answer::Done => ScriptResult::Replaced { candidate },
        other => ScriptResult::Unmoved {
            candidate,
            errno: errno_in(&other),
        },
    }
}
