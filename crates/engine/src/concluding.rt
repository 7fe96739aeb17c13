//! Concluding a request whose script has ended: it is finished, answered and settled.

ghost use Rattle.std.specs.Prelude.{◌≡◌, [], List, Err, Ok};
ghost use Rattle.backing.specs.declared.call.Child.{Child};
ghost use Rattle.handles.specs.Listings.{IsMade};
ghost use Rattle.handles.specs.declared.listing.ListingFault.TheVariants.{Memory};
ghost use Rattle.ops.specs.Ahead.{end_of};
ghost use Rattle.ops.specs.Scripts.{listed_end, plan_of, Follows, Made};
ghost use Rattle.engine.specs.Folders.{ByCalls, GivesUp};
ghost use Rattle.engine.specs.Keeping.{KeepsBook};
ghost use Rattle.engine.specs.Walks.{begun_of, by_rules, listing_found, with_table, Concludes, IsPlain, RepliesTaken};

use crate::links::Sent;
use crate::outlet::{Outlet, refuse};
use crate::reach::Reach;
use crate::requests::Session;
use crate::running::Begun;
use backing::Children;
use errno::{EIO, ENOMEM};
use handles::{Folders, Listing, ListingFault};
use ledger::{Ledgers, Share};
use ops::{ScriptResult, opened_reply, reply_to};
use table::{Answered, Outcome};
use wire::{Reply, ReplyBody};

/// What became of the reply to a request that was settled.
#[derive(Clone, Copy)]
pub(crate) struct SettledReply {
    pub sent: Sent,
    /// Whether the request was settled as taken: only if this was the reply that was meant for it.
    pub taken: bool,
}

/// Closes the handle of a listing that was stored for a reply, if the reply was not taken.
pub fn give_up<D: Folders>(dirs: &mut D, put: Option<u64>, taken: bool)
    ensures { ByCalls D.keeps dirs.old dirs.new (λ last. GivesUp taken put last) }
{
    if taken {
        return;
    }
    match put {
        Some(fh) => {
            dirs.retire(fh);
        }
        None => {}
    }
}

impl Session {
    /// Answers a finished request, and settles it.
    pub(crate) fn settle<T: Ledgers, R: Reach<T>, L: Outlet>(
        &mut self,
        link: &mut L,
        table: &mut R,
        share: &mut Share<T>,
        answered: Answered,
        put: Option<u64>,
        reply: Reply,
    ) -> SettledReply
        requires holds { R.steps.holds (R.world table.old) answered }
        ensures replies { RepliesTaken L.sends reply link.old result.sent result.taken link.new }
        ensures settles { R.steps.settles (R.world table.old) answered put result.taken (R.world table.new) }
        ensures keeps { KeepsBook R.steps self.old (R.world table.old) share.old self.new (R.world table.new) share.new }
    {
        let unique = reply.unique;
        match self.offer(link, reply) {
            Some(sent) => {
                let taken = sent.is_taken();
                table.settle(share, answered, put, taken);
                SettledReply { sent, taken }
            }
            None => {
                table.settle(share, answered, put, false);
                let sent = refuse(link, unique, ENOMEM);
                SettledReply { sent, taken: false }
            }
        }
    }

    /// Finishes a request with the result of its script, answers it and settles it.
    pub(crate) fn finish_and_reply<T: Ledgers, R: Reach<T>, L: Outlet>(
        &mut self,
        link: &mut L,
        table: &mut R,
        share: &mut Share<T>,
        begun: Begun<'_>,
        found: ScriptResult,
    ) -> Sent
        requires free { R.steps.is_free (R.world table.old) }
        requires plain { IsPlain found }
        ensures concludes { (made : List Made) → Follows (plan_of self.old.settings begun.entry.request.caller begun.entry.request.operation begun.entry.ticket) made (end_of found) → Concludes (by_rules R.steps self.old.settings L.sends) (begun_of begun.entry) made (end_of found) []
            (with_table link.old (R.world table.old)) result (with_table link.new (R.world table.new)) }
        ensures keeps { KeepsBook R.steps self.old (R.world table.old) share.old self.new (R.world table.new) share.new }
    {
        let Begun {
            request,
            page: _,
            ticket,
        } = begun;
        let (unique, node) = (request.unique, request.node);
        let answered = table.finish(share, ticket, found.outcome());
        let body = reply_to(self.settings, node, found, None, &answered);
        let reply = Reply { unique, body };
        self.settle(link, table, share, answered, None, reply).sent
    }

    /// Finishes an OPENDIR with this listing, which is stored; its handle is closed again if the reply was not taken.
    fn finish_with_listing<T: Ledgers, R: Reach<T>, L: Outlet, D: Folders>(
        &mut self,
        link: &mut L,
        dirs: &mut D,
        table: &mut R,
        share: &mut Share<T>,
        begun: Begun<'_>,
        listing: Listing,
    ) -> Sent
        requires free { R.steps.is_free (R.world table.old) }
        ensures concludes { ByCalls D.keeps dirs.old dirs.new (λ folders. (made : List Made) (children : List Child) → IsMade begun.entry.request.node children (Ok listing)
            → Follows (plan_of self.old.settings begun.entry.request.caller begun.entry.request.operation begun.entry.ticket) made (listing_found children) → Concludes (by_rules R.steps self.old.settings L.sends) (begun_of begun.entry) made (listing_found children) folders
            (with_table link.old (R.world table.old)) result (with_table link.new (R.world table.new))) }
        ensures keeps { KeepsBook R.steps self.old (R.world table.old) share.old self.new (R.world table.new) share.new }
    {
        let Begun {
            request,
            page: _,
            ticket,
        } = begun;
        let put = dirs.put(listing);
        let answered = table.finish(share, ticket, Outcome::Done);
        let unique = request.unique;
        let body = opened_reply(put);
        let reply = Reply { unique, body };
        let settled = self.settle(link, table, share, answered, put, reply);
        give_up(dirs, put, settled.taken);
        settled.sent
    }

    /// Finishes an OPENDIR for whose listing memory was refused.
    fn end_without_memory<T: Ledgers, R: Reach<T>, L: Outlet>(
        &mut self,
        link: &mut L,
        table: &mut R,
        share: &mut Share<T>,
        begun: Begun<'_>,
    ) -> Sent
        requires free { R.steps.is_free (R.world table.old) }
        ensures concludes { (made : List Made) (children : List Child) → IsMade begun.entry.request.node children (Err Memory) → Follows (plan_of self.old.settings begun.entry.request.caller begun.entry.request.operation begun.entry.ticket) made (listing_found children)
            → Concludes (by_rules R.steps self.old.settings L.sends) (begun_of begun.entry) made (listing_found children) []
            (with_table link.old (R.world table.old)) result (with_table link.new (R.world table.new)) }
        ensures keeps { KeepsBook R.steps self.old (R.world table.old) share.old self.new (R.world table.new) share.new }
    {
        let Begun {
            request,
            page: _,
            ticket,
        } = begun;
        let answered = table.finish(share, ticket, Outcome::Done);
        table.settle(share, answered, None, false);
        refuse(link, request.unique, ENOMEM)
    }

    /// Finishes an OPENDIR that found these names.
    pub(crate) fn finish_opendir<T: Ledgers, R: Reach<T>, L: Outlet, D: Folders>(
        &mut self,
        link: &mut L,
        dirs: &mut D,
        table: &mut R,
        share: &mut Share<T>,
        begun: Begun<'_>,
        children: Children,
    ) -> Sent
        requires free { R.steps.is_free (R.world table.old) }
        ensures concludes { ByCalls D.keeps dirs.old dirs.new (λ folders. (made : List Made) → Follows (plan_of self.old.settings begun.entry.request.caller begun.entry.request.operation begun.entry.ticket) made (listed_end children)
            → Concludes (by_rules R.steps self.old.settings L.sends) (begun_of begun.entry) made (listed_end children) folders
            (with_table link.old (R.world table.old)) result (with_table link.new (R.world table.new))) }
        ensures keeps { KeepsBook R.steps self.old (R.world table.old) share.old self.new (R.world table.new) share.new }
    {
        match Listing::new(self.alloc, begun.request.node, children) {
            Ok(listing) => self.finish_with_listing(link, dirs, table, share, begun, listing),
            Err(ListingFault::Lawless) => {
                let found = ScriptResult::Error { errno: EIO };
                self.finish_and_reply(link, table, share, begun, found)
            }
            Err(ListingFault::Memory) => self.end_without_memory(link, table, share, begun),
        }
    }
}
