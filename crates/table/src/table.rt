//! The table, with the book that shows what each worker posted.

ghost use Rattle.std.specs.Prelude.{◌≡◌, ◌≤◌, ◌<◌, ◌↔◌, IfOk, IsErr, map, vec_len, length, take, drop};
ghost use Rattle.std.specs.List.{range_with_len};
ghost use Rattle.ledger.specs.Shares.{nothing, plus, sum_of};
ghost use Rattle.ledger.specs.Periods.{up_to};
ghost use Rattle.ledger.specs.Sums.{totals_of, totals_over};
ghost use Rattle.table.specs.Made.{IsMade};
ghost use Rattle.table_image.specs.ImageLaw.{IsLawfulImage};
ghost use Rattle.table.specs.Exports.{Exports};
ghost use Rattle.table.specs.Leftovers.{AreLeftovers};
ghost use Rattle.table_steps.specs.Kept.{world_of};
ghost use Rattle.table_steps.specs.Steps.{Begins, ClosesPeriod};
ghost use Rattle.table.specs.Gains.{GainsInAll};
ghost use Rattle.table.specs.Renewing.{FinishesAnew, ForgetsAnew, SettlesAnew};
ghost use Rattle.table_steps.specs.World.{IsLawfulWorld, opened_world};

use crate::export::export;
use crate::leftover::leftover;
use crate::periods::Made;
use holds::Paths;
use ledger::{Blanks, Book, Gather, Ledger, Ledgers, Share, Totals};
use std::alloc::{AllocError, Global};
use std::marker::Model;
use table_files::OpenFile;
use table_image::Image;
use table_requests::Want;
use table_steps::{Answered, Begin, Counts, Limits, Outcome, Seeds, Settled, State, Ticket};

/// The state that all workers share under one lock. Its type parameter stands for the four ledgers of its book.
#[derive(Drop)]
pub struct Table<T: Ledgers> {
    state: State,
    book: Book<T>,
}

impl<T: Ledgers> Model for Table<T> {
    ghost use Rattle.std.specs.Prelude.{◌≡◌};
    ghost use Rattle.ledger.specs.Sums.{totals_over};
    ghost use Rattle.table_steps.specs.declared.state.State.{State};
    ghost use Rattle.std.specs.Coded.{codes, coded_ℕ};
    ghost use Rattle.std.specs.FinMap as map;
    ghost use Rattle.std.specs.Ordering.{nat_cmp};
    ghost use Rattle.tree.specs.contracts.nodes.Node as node;
    ghost use Rattle.table_steps.specs.Kept.{IsWhole};

    ghost Value = { State };

    ghost coded = { Prim.hlevel (codes, map.code {R = nat_cmp} coded_ℕ node.the_row.coded) };

    ghost view = { λ t. t.state };

    ghost invariant = { λ t. IsWhole t.state × (t.book ≡ totals_over t.state.ledger.made) };
}

/// Counts the postings of the last period, from an index on, for the worker that has the share.
fn post_since<T: Ledgers>(ledger: &Ledger, book: &mut Book<T>, share: &mut Share<T>, made: usize)
    requires within { made ≤ length ledger.now.made.last }
    requires so_far { book.old ≡ totals_over (up_to made ledger.now.made) }
    ensures book { book.new ≡ totals_over ledger.now.made }
    ensures share { share.new ≡ record share.old { totals = plus share.old.totals (totals_of (drop made ledger.now.made.last)) } }
{
    let _totals = ledger.totals(); // proof: they fit
    let postings = ledger.postings();
    for posting in &postings[made..] {
        book.post(share, posting);
    }
}

impl<T: Ledgers> Table<T> {
    /// A table with only the root, and a share for each of its workers. If memory is refused, nothing is returned.
    pub fn open(
        alloc: Global,
        limits: Limits,
        seeds: Seeds,
        blanks: Blanks,
        workers: usize,
    ) -> Result<(Table<T>, Vec<Share<T>>), AllocError>
        requires names { blanks ≡ T.names }
        requires shares { workers ≡ T.names.parts }
        requires root { 1 ≤ limits.nodes }
        requires free { limits.counts ≡ Counts.Free → limits.nodes ≤ limits.postings }
        ensures opened { IfOk result (λ (table, _). world_of table ≡ opened_world limits) }
        ensures lawful { IfOk result (λ (table, _). IsLawfulWorld (world_of table)) }
        ensures shares { IfOk result (λ (_, shares). shares.items ≡ map (λ index. record { index = index; totals = nothing }) (range_with_len 0 workers)) }
    {
        let state = State::open(alloc, limits, seeds)?;
        state.attest(); // proof: its law
        let (book, shares) = Book::open(alloc, blanks, workers)?;
        Ok((Table { state, book }, shares))
    }

    /// For the prover: between any two calls the law holds. It does nothing.
    pub fn attest(&self)
        ensures { IsLawfulWorld (world_of self.now) }
    {
        self.state.attest(); // proof: its law
    }

    /// Begins a request. Busy and a refusal change nothing.
    pub fn begin(&mut self, unique: u64, want: Want) -> Begin
        ensures begins { Begins (world_of self.old) unique want result (world_of self.new) }
        ensures lawful { IsLawfulWorld (world_of self.new) }
    {
        let begin = self.state.begin(unique, want);
        self.state.attest(); // proof: its law
        begin
    }

    /// Ends the work on a request. First the period ends if counts are free and there is no room for its postings. For
    /// a page an entry is given for each name that was found, in order, except for those that another request holds
    /// exclusively. It does not allocate.
    pub fn finish(&mut self, share: &mut Share<T>, ticket: Ticket, outcome: Outcome) -> Answered
        ensures finishes { FinishesAnew (world_of self.old) ticket.id outcome result (world_of self.new) }
        ensures lawful { IsLawfulWorld (world_of self.new) }
        ensures gains { GainsInAll (world_of self.old) share.old (world_of self.new) share.new }
    {
        self.state.make_room_for(ticket.id());
        let made = self.state.ledger.made();
        let answered = self.state.finish(ticket, outcome);
        self.state.attest(); // proof: its law
        post_since(&self.state.ledger, &mut self.book, share, made);
        answered
    }

    /// Ends a request, after its reply was taken or was not. First the period may end, as for `finish`. It does not
    /// allocate.
    pub fn settle(&mut self, share: &mut Share<T>, answered: Answered, taken: bool) -> Settled
        ensures settles { SettlesAnew (world_of self.old) answered taken result (world_of self.new) }
        ensures lawful { IsLawfulWorld (world_of self.new) }
        ensures gains { GainsInAll (world_of self.old) share.old (world_of self.new) share.new }
    {
        self.state.make_room_for(answered.id());
        let made = self.state.ledger.made();
        let settled = self.state.settle(answered, taken);
        self.state.attest(); // proof: its law
        post_since(&self.state.ledger, &mut self.book, share, made);
        settled
    }

    /// The client forgets `n` lookups of a node: the smaller of `n` and its count is taken, and returned. First the
    /// period may end, as for `finish`. It does not allocate.
    pub fn forget(&mut self, share: &mut Share<T>, number: u64, n: u64) -> u64
        ensures forgets { ForgetsAnew (world_of self.old) number n result (world_of self.new) }
        ensures lawful { IsLawfulWorld (world_of self.new) }
        ensures gains { GainsInAll (world_of self.old) share.old (world_of self.new) share.new }
    {
        self.state.make_room(1);
        let made = self.state.ledger.made();
        let amount = self.state.forget(number, n);
        self.state.attest(); // proof: its law
        post_since(&self.state.ledger, &mut self.book, share, made);
        amount
    }

    /// Ends a period of the ledger: births and totals are kept, and the next period begins with the count of each node
    /// except the root. It returns how many postings the ledger became shorter by, and does not touch any share. It
    /// does not allocate.
    pub fn close_period(&mut self) -> u64
        ensures closes { ClosesPeriod (world_of self.old) result (world_of self.new) }
        ensures lawful { IsLawfulWorld (world_of self.new) }
    {
        let closed = self.state.close_period();
        self.state.attest(); // proof: its law
        closed
    }

    /// How many postings the last period has, how many it may have, and how many nodes are alive besides the root. It
    /// does not allocate.
    pub fn made(&self) -> Made
        ensures { IsMade (world_of self.now) result }
    {
        Made {
            postings: self.state.ledger.made() as u64,
            limit: self.state.limits.postings,
            living: self.state.tree.len() - 1,
        }
    }

    /// The file open under the handle.
    pub fn file(&self, handle: u64) -> Option<OpenFile>
        ensures { result ≡ (world_of self.now).files handle }
    {
        self.state.files.get(handle)
    }

    /// The paths of hidden files that still exist: of all nodes with a hidden mark and a name that the server keeps for
    /// itself, sorted by number.
    pub fn leftover(&self) -> Result<Paths, AllocError>
        ensures { IfOk result (AreLeftovers (world_of self.now).at) }
    {
        leftover(&self.state)
    }

    /// Everything that the table keeps, as plain data. It is lawful.
    pub fn export(&self) -> Result<Image, AllocError>
        ensures exports { IfOk result (Exports (world_of self.now)) }
        ensures lawful { IfOk result IsLawfulImage }
    {
        export(&self.state)
    }

    /// Adds up the shares. If none is missing, their sum is the total of the ledger. The table and the shares are used
    /// up.
    pub fn gather(self, shares: Vec<Share<T>>) -> Result<Totals, Gather>
        ensures missing { IsErr result ↔ (vec_len shares < T.names.parts) }
        ensures sums { IfOk result (λ totals. totals ≡ sum_of shares.items) }
        ensures ledger { IfOk result (λ totals. totals ≡ totals_over (world_of self).postings) }
    {
        let Table { state: _, book } = self;
        book.gather(shares)
    }
}
