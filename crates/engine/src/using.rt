//! Requests that use an open folder: all except READDIRPLUS are answered at once.

ghost use Rattle.std.specs.Prelude.{◌≡◌};
ghost use Rattle.engine.specs.Keeping.{KeepsBook};
ghost use Rattle.engine.specs.Serving.{around, does};
ghost use Rattle.engine.specs.Walks.{by_rules, UsesOut};

use crate::folders::{FolderAnswer, use_folder};
use crate::links::Sent;
use crate::outlet::{Outlet, refuse};
use crate::reach::Reach;
use crate::requests::Session;
use crate::running::{Attempt, Source};
use crate::served::Served;
use backing::Calls;
use errno::ENOMEM;
use handles::Folders;
use ledger::{Ledgers, Share};
use ops::FolderUse;
use std::sync::Wait;
use wire::{Reply, Request};

/// A request that uses the open folder under a handle.
#[derive(Clone, Copy)]
pub(crate) struct FolderRequest<'f> {
    pub request: Request<'f>,
    pub fh: u64,
    pub usage: FolderUse,
}

impl Session {
    /// Handles a request that uses an open folder. The page of a READDIRPLUS is copied before it begins, and the folder
    /// is no longer lent then.
    pub(crate) fn use_folder<H: Wait, T: Ledgers, R: Reach<T>, L: Outlet, C: Calls, D: Folders>(
        &mut self,
        rt: &H,
        link: &mut L,
        served: &mut Served<C, D>,
        table: &mut R,
        share: &mut Share<T>,
        asked: FolderRequest<'_>,
    ) -> Sent
        requires free { R.steps.is_free (R.world table.old) }
        requires idle { R.steps.is_idle (R.world table.old) }
        ensures used { UsesOut (by_rules R.steps self.old.settings L.sends) (does C.gives D.keeps) asked.entry.request asked.entry.fh asked.entry.usage
            (around link.old served.old (R.world table.old)) result (around link.new served.new (R.world table.new)) }
        ensures keeps { KeepsBook R.steps self.old (R.world table.old) share.old self.new (R.world table.new) share.new }
        ensures idle { R.steps.is_idle (R.world table.new) }
    {
        table.attest(); // proof: its law
        let FolderRequest { request, fh, usage } = asked;
        let (unique, node) = (request.unique, request.node);
        match use_folder(self.alloc, &mut served.dirs, node, fh, usage) {
            Ok(FolderAnswer::Reply(body)) => self.answer(link, Reply { unique, body }),
            Ok(FolderAnswer::Page(page)) => {
                let source = Source::Page(&page);
                let attempt = Attempt { request, source };
                self.run(rt, link, served, table, share, attempt)
            }
            Err(_) => refuse(link, unique, ENOMEM),
        }
    }
}
