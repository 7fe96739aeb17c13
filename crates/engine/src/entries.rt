//! READDIRPLUS: how it is finished, answered and settled.

ghost use Rattle.std.specs.Prelude.{◌≡◌, [], List};
ghost use Rattle.ops.specs.Ahead.{LooksAtEach};
ghost use Rattle.ops.specs.Pages.{Paged as Told};
ghost use Rattle.ops.specs.Scripts.{plan_of, Follows, Made};
ghost use Rattle.engine.specs.Keeping.{KeepsBook};
ghost use Rattle.engine.specs.Reference.{begun_with};
ghost use Rattle.engine.specs.Walks.{begun_of, by_rules, entries_found, no_memory, with_table, Concludes};

use crate::links::Sent;
use crate::outlet::{Outlet, refuse};
use crate::reach::Reach;
use crate::requests::Session;
use crate::running::Begun;
use errno::ENOMEM;
use ledger::{Ledgers, Share};
use ops::{Looked, Paged, entries_reply};
use table::{Outcome, Ticket};
use wire::{Reply, Request};

impl Session {
    /// Finishes a READDIRPLUS after its names were looked up: an entry is given for each that was found, and the page
    /// is the reply.
    pub(crate) fn tell_entries<T: Ledgers, R: Reach<T>, L: Outlet>(
        &mut self,
        link: &mut L,
        table: &mut R,
        share: &mut Share<T>,
        begun: Begun<'_>,
        looked: Looked,
    ) -> Sent
        requires free { R.steps.is_free (R.world table.old) }
        ensures concludes { (made : List Made) → Follows (plan_of self.old.settings begun.entry.request.caller begun.entry.request.operation begun.entry.ticket) made (entries_found looked) → Concludes (by_rules R.steps self.old.settings L.sends) (begun_of begun.entry) made (entries_found looked) []
            (with_table link.old (R.world table.old)) result (with_table link.new (R.world table.new)) }
        ensures keeps { KeepsBook R.steps self.old (R.world table.old) share.old self.new (R.world table.new) share.new }
    {
        let Begun {
            request,
            page,
            ticket,
        } = begun;
        let unique = request.unique;
        let (there, founds) = looked.into_parts();
        let answered = table.finish(share, ticket, Outcome::Entries(there));
        let empty = Paged::none(self.alloc);
        let page = page.unwrap_or(&empty);
        match entries_reply(self.alloc, self.settings, page, &founds, answered.given()) {
            Ok(body) => {
                let reply = Reply { unique, body };
                self.settle(link, table, share, answered, None, reply).sent
            }
            Err(_) => {
                table.settle(share, answered, None, false);
                refuse(link, unique, ENOMEM)
            }
        }
    }

    /// Finishes a request as failed, since memory for its script was refused.
    pub(crate) fn end_without_script<T: Ledgers, R: Reach<T>, L: Outlet>(
        &mut self,
        link: &mut L,
        table: &mut R,
        share: &mut Share<T>,
        request: Request<'_>,
        ticket: Ticket,
    ) -> Sent
        requires free { R.steps.is_free (R.world table.old) }
        ensures concludes { (page : Told) → LooksAtEach request.entry.operation → Concludes (by_rules R.steps self.old.settings L.sends) (begun_with request.entry page ticket) [] no_memory []
            (with_table link.old (R.world table.old)) result (with_table link.new (R.world table.new)) }
        ensures keeps { KeepsBook R.steps self.old (R.world table.old) share.old self.new (R.world table.new) share.new }
    {
        let answered = table.finish(share, ticket, Outcome::Failed);
        table.settle(share, answered, None, false);
        refuse(link, request.unique, ENOMEM)
    }
}
