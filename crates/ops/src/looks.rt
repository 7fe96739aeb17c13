//! Looking at several paths, one after another.

ghost use Rattle.std.specs.Prelude.{◌≡◌, ◌<◌, [], length, map, is_some, IfOk};
ghost use Rattle.ops.specs.Ahead.{end_of, plan_ending};
ghost use Rattle.ops.specs.Looking.{looked_on, plan_looking};
ghost use Rattle.ops.specs.Scripts.{at_names, found_in, next_of, AsksNext, End, Over};

use crate::findings::{FoundFile, ScriptResult};
use crate::judging::judge;
use crate::script::{LastCall, UNFIT};
use backing::{Answer, Call};
use errno::EIO;
use paths::Path;
use std::alloc::{AllocError, Global};
use std::marker::Model;
use table::{FoundNames, Ticket};

/// For each of several paths what was found there, if anything. Contracts see a list.
#[derive(Drop)]
pub struct Looked {
    found: Vec<Option<FoundFile>>,
    /// Whether something was found at each of them.
    there: Vec<bool>,
}

impl Model for Looked {
    ghost use Rattle.std.specs.Prelude.{◌≡◌, List, Option, map, is_some};
    ghost use Rattle.ops.specs.declared.findings.FoundFile.{FoundFile};

    ghost Value = { List (Option FoundFile) };

    ghost view = { λ l. l.found.items };

    ghost invariant = { λ l. l.there.items ≡ map (λ found. is_some found) l.found.items };
}

impl Looked {
    /// Whether something was found at each path, and what. It does not allocate.
    pub fn into_parts(self) -> (FoundNames, Vec<Option<FoundFile>>)
        ensures there { result.0 ≡ map (λ found. is_some found) self }
        ensures found { result.1.items ≡ self }
    {
        let Self { found, there } = self;
        (FoundNames::from_vec(there), found)
    }
}

/// A Stat of each of several paths: the paths that are left, and what was found at those before them.
#[derive(Drop)]
pub struct Looks<'a> {
    left: &'a [Path],
    found: Vec<Option<FoundFile>>,
    there: Vec<bool>,
}

impl<'a> Model for Looks<'a> {
    ghost use Rattle.std.specs.Prelude.{◌≡◌, ◌≤◌, ◌+◌, map, is_some, length, vec_capacity};
    ghost use Rattle.ops.specs.Looking.{Looking};

    ghost Value = { Looking };

    ghost view = { λ l. record { left = l.left.now; found = l.found.items } };

    ghost invariant = { λ l. (l.there.items ≡ map (λ found. is_some found) l.found.items)
        × (length l.found.items + length l.left.now ≤ vec_capacity l.found)
        × (length l.there.items + length l.left.now ≤ vec_capacity l.there) };
}

/// What an answer says was found. A fault means nothing, so a name that cannot be looked up is left out.
fn found_in(answer: &Answer) -> Option<FoundFile>
    ensures { result ≡ found_in answer.now }
{
    match answer {
        Answer::Stat {
            kind,
            size,
            details,
        } => Some(FoundFile {
            kind: *kind,
            size: *size,
            details: *details,
        }),
        _ => None,
    }
}

impl<'a> Looks<'a> {
    /// Starts with these paths. All memory is allocated here, so that nothing can be refused later.
    pub fn new(alloc: Global, paths: &'a [Path]) -> Result<Looks<'a>, AllocError>
        ensures { IfOk result (λ looks. looks ≡ record { left = paths.now; found = [] }) }
    {
        let found = Vec::with_capacity(alloc, paths.len())?;
        let there = Vec::with_capacity(alloc, paths.len())?;
        Ok(Looks {
            left: paths,
            found,
            there,
        })
    }

    /// The next Stat, if a path is left.
    pub fn next(&self) -> Option<Call<'_>>
        ensures { AsksNext result (next_of (plan_looking self.now)) }
    {
        match self.left {
            [path, ..] => Some(Call::Stat(path)),
            [] => None,
        }
    }

    /// Takes the answer to the next Stat. It does not allocate.
    // In a caller its locals would be set up whichever way that one goes.
    #[inline(never)]
    pub fn feed(&mut self, answer: Answer)
        ensures { self.new ≡ looked_on self.old.left self.old.found answer }
    {
        match self.left {
            [path, left @ ..] => {
                let found = found_in(&judge(Call::Stat(path), answer));
                self.found.push_reserved(found);
                self.there.push_reserved(found.is_some());
                self.left = left;
            }
            [] => {}
        }
    }

    /// What was found, after the last path.
    pub fn into_result(self) -> ScriptResult
        ensures { (end : End) → plan_looking self.entry ≡ Over end → end_of result ≡ end }
    {
        match self.left {
            [] => {
                let Self { found, there, .. } = self;
                ScriptResult::Looked(Looked { found, there })
            }
            [_, ..] => ScriptResult::Error { errno: EIO },
        }
    }
}

/// The end of the script of a READDIRPLUS, whose ticket has the path of its folder and then that of each name.
pub(crate) fn end_with_looks(alloc: Global, ticket: &Ticket) -> Result<LastCall<'_>, AllocError>
    ensures { IfOk result (λ ending. plan_ending ending ≡ at_names ticket.now.paths) }
{
    match ticket.paths() {
        [_, paths @ ..] => Ok(LastCall::Each(Looks::new(alloc, paths)?)),
        [] => Ok(UNFIT),
    }
}
