//! Requests that begin: each runs from its begin to its settle.

ghost use Rattle.std.specs.Prelude.{◌≡◌, List, IfNone, IfOk, IfSome, OnErr};
ghost use Rattle.handles.specs.Calls.{FolderCall};
ghost use Rattle.engine.specs.Keeping.{KeepsBook};
ghost use Rattle.engine.specs.Reference.{begun_with, HasNames};
ghost use Rattle.engine.specs.Serving.{around, does};
ghost use Rattle.engine.specs.Walks.{attempt_of, attempt_with, by_rules, page_in, page_of, want_in, IsUntouched, RunsOut, RunsScript};

use crate::links::Sent;
use crate::outlet::{Outlet, refuse};
use crate::playing::play;
use crate::reach::Reach;
use crate::requests::Session;
use crate::served::Served;
use backing::Calls;
use errno::ENOMEM;
use handles::Folders;
use ledger::{Ledgers, Share};
use ops::{Paged, Script, ScriptResult, Wanted};
use std::alloc::{AllocError, Global};
use std::sync::Wait;
use table::{Begin, Ticket};
use table_requests::Want;
use wire::{Reply, ReplyBody, Request};

/// Where the names are that a request begins with.
#[derive(Clone, Copy)]
pub(crate) enum Source<'f> {
    /// They are in its frame.
    Frame(Wanted<'f>),
    /// They are on the page that a READDIRPLUS returns.
    Page(&'f Paged),
}

/// A request that is to begin.
#[derive(Clone, Copy)]
pub(crate) struct Attempt<'f> {
    pub request: Request<'f>,
    pub source: Source<'f>,
}

/// A request that has begun, with the page that it returns, if it is a READDIRPLUS, and its ticket.
pub(crate) struct Begun<'f> {
    pub request: Request<'f>,
    pub page: Option<&'f Paged>,
    pub ticket: Ticket,
}

impl<'f> Attempt<'f> {
    /// The want, which owns its names.
    fn want(&self, alloc: Global) -> Result<Want, AllocError>
        ensures ok { IfOk result (λ want. want ≡ want_in self.now.request.node self.now.source) }
        ensures err { OnErr result (HasNames (want_in self.now.request.node self.now.source)) }
    {
        match self.source {
            Source::Frame(wanted) => wanted.own(alloc),
            Source::Page(page) => page.want(alloc, self.request.node),
        }
    }

    /// The page that it returns, if it is a READDIRPLUS.
    fn page(self) -> Option<&'f Paged>
        ensures { page_of result ≡ page_in self.entry.source }
    {
        match self.source {
            Source::Frame(_) => None,
            Source::Page(page) => Some(page),
        }
    }
}

impl Session {
    /// Plays the script of a request that has begun, and concludes it.
    fn run_script<T: Ledgers, R: Reach<T>, L: Outlet, C: Calls, D: Folders>(
        &mut self,
        link: &mut L,
        served: &mut Served<C, D>,
        table: &mut R,
        share: &mut Share<T>,
        attempt: Attempt<'_>,
        ticket: Ticket,
    ) -> Sent
        requires free { R.steps.is_free (R.world table.old) }
        ensures runs { RunsScript (by_rules R.steps self.old.settings L.sends) (does C.gives D.keeps) (begun_with attempt.entry.request (page_in attempt.entry.source) ticket)
            (around link.old served.old (R.world table.old)) result (around link.new served.new (R.world table.new)) }
        ensures keeps { KeepsBook R.steps self.old (R.world table.old) share.old self.new (R.world table.new) share.new }
    {
        let request = attempt.request;
        let found = match Script::start(self.alloc, self.settings, request, &ticket) {
            Ok(script) => play(&mut served.calls, script),
            Err(_) => return self.end_without_script(link, table, share, request, ticket),
        };
        let page = attempt.page();
        let begun = Begun {
            request,
            page,
            ticket,
        };
        match found {
            ScriptResult::Listed(children) => {
                self.finish_opendir(link, &mut served.dirs, table, share, begun, children)
            }
            ScriptResult::Looked(looked) => self.tell_entries(link, table, share, begun, looked),
            ScriptResult::Bytes(bytes) => {
                let read = ScriptResult::Bytes(bytes);
                let sent = self.finish_and_reply(link, table, share, begun, read);
                // A later READ may use the buffer of this reply.
                served.calls.offer_room(&mut self.buffer);
                sent
            }
            other => self.finish_and_reply(link, table, share, begun, other),
        }
    }

    /// Runs a request from begin to settle. None means that it conflicts with another one and nothing was done: it must
    /// begin again.
    fn run_request<T: Ledgers, R: Reach<T>, L: Outlet, C: Calls, D: Folders>(
        &mut self,
        link: &mut L,
        served: &mut Served<C, D>,
        table: &mut R,
        share: &mut Share<T>,
        attempt: Attempt<'_>,
        want: Want,
    ) -> Option<Sent>
        requires free { R.steps.is_free (R.world table.old) }
        requires idle { R.steps.is_idle (R.world table.old) }
        ensures some { IfSome result (λ sent. (lends : List FolderCall) → RunsOut (by_rules R.steps self.old.settings L.sends) (does C.gives D.keeps) (attempt_with attempt.entry want lends)
            (around link.old served.old (R.world table.old)) sent (around link.new served.new (R.world table.new))) }
        ensures none { IfNone result (IsUntouched (around link.old served.old (R.world table.old)) (around link.new served.new (R.world table.new))) }
        ensures keeps { KeepsBook R.steps self.old (R.world table.old) share.old self.new (R.world table.new) share.new }
        ensures idle { R.steps.is_idle (R.world table.new) }
    {
        let unique = attempt.request.unique;
        match table.begin(unique, want) {
            Begin::Go(ticket) => {
                Some(self.run_script(link, served, table, share, attempt, ticket))
            }
            Begin::Refused(errno) => {
                let body = ReplyBody::Failed { errno };
                Some(self.answer(link, Reply { unique, body }))
            }
            Begin::Busy => None,
        }
    }

    /// Runs a request, and begins it again as long as it conflicts with another one.
    pub(crate) fn run<H: Wait, T: Ledgers, R: Reach<T>, L: Outlet, C: Calls, D: Folders>(
        &mut self,
        rt: &H,
        link: &mut L,
        served: &mut Served<C, D>,
        table: &mut R,
        share: &mut Share<T>,
        attempt: Attempt<'_>,
    ) -> Sent
        requires free { R.steps.is_free (R.world table.old) }
        requires idle { R.steps.is_idle (R.world table.old) }
        ensures runs_out { (lends : List FolderCall) → RunsOut (by_rules R.steps self.old.settings L.sends) (does C.gives D.keeps) (attempt_of attempt.entry lends)
            (around link.old served.old (R.world table.old)) result (around link.new served.new (R.world table.new)) }
        ensures keeps { KeepsBook R.steps self.old (R.world table.old) share.old self.new (R.world table.new) share.new }
        ensures idle { R.steps.is_idle (R.world table.new) }
    {
        table.attest(); // proof: its law
        for _ in rt.forever() {
            let want = match attempt.want(self.alloc) {
                Ok(want) => want,
                Err(_) => return refuse(link, attempt.request.unique, ENOMEM),
            };
            match self.run_request(link, served, table, share, attempt, want) {
                Some(sent) => return sent,
                None => {}
            }
        }
        unreachable!()
    }
}
