//! Ways to access a table.

ghost use Rattle.std.specs.Prelude.{◌≡◌, ℕ, ℤ, Option, Bool};
ghost use Rattle.std.proofs.Common.{to_z, of_z, w32};
ghost use Rattle.table_files.specs.declared.data.OpenFile.{OpenFile};
ghost use Rattle.table_requests.specs.declared.data.Want.{Want};
ghost use Rattle.ledger.specs.Shares.{Part};
ghost use Rattle.table_steps.specs.Answers.{Answer, Claim};
ghost use Rattle.table_steps.specs.declared.data.Begin.TheVariants.{Busy, Go, Refused};
ghost use Rattle.table_steps.specs.declared.data.Outcome.{Outcome};
ghost use Rattle.engine.specs.Tables as tables;

use ledger::{Ledgers, Share};
use table::{Answered, Begin, Outcome, Table, Ticket};
use table_files::OpenFile;
use table_requests::Want;

/// A way to access a table: owning it, or taking its lock for each call.
pub trait Reach<T: Ledgers> {
    /// What is known about the table between two calls.
    ghost World: { Type 0 };

    ghost world: { Self → World };

    /// What its calls may do.
    ghost steps: { tables.Table World };

    /// For the prover: nothing was posted. It does nothing.
    fn attest(&self)
        ensures { (share : Part) → steps.gains (world self.now) share (world self.now) share };

    /// Ends the period of the ledger if that is due, and begins a request. If another request conflicts with it, this
    /// may wait for the end of one, and then returns Busy.
    fn begin(&mut self, unique: u64, want: Want) -> Begin
        ensures begins { steps.begins (world self.old) unique want result (world self.new) }
        ensures gains { (share : Part) → steps.gains (world self.old) share (world self.new) share };

    /// Ends the work on a request.
    fn finish(&mut self, share: &mut Share<T>, ticket: Ticket, outcome: Outcome) -> Answered
        requires free { steps.is_free (world self.old) }
        ensures finishes { steps.finishes (world self.old) ticket.id outcome result (world self.new) }
        ensures holds { steps.holds (world self.new) result }
        ensures gains { steps.gains (world self.old) share.old (world self.new) share.new };

    /// Ends a request, or leaves that to the thread that offers its reply. A listing may have been stored for it.
    fn settle(&mut self, share: &mut Share<T>, answered: Answered, put: Option<u64>, taken: bool)
        requires holds { steps.holds (world self.old) answered }
        ensures settles { steps.settles (world self.old) answered put taken (world self.new) }
        ensures gains { steps.gains (world self.old) share.old (world self.new) share.new };

    /// The client forgets lookups of a node.
    fn forget(&mut self, share: &mut Share<T>, number: u64, n: u64)
        ensures forgets { steps.forgets (world self.old) number n (world self.new) }
        ensures gains { steps.gains (world self.old) share.old (world self.new) share.new };

    /// The file open under a handle.
    fn find(&mut self, fh: u64) -> Option<OpenFile>
        ensures finds { steps.finds (world self.old) fh result (world self.new) }
        ensures gains { (share : Part) → steps.gains (world self.old) share (world self.new) share };

    /// What is gained by one call after another is gained by both together.
    ghost gains_on: { (old mid new : World) (before between after : Part) → steps.gains old before mid between → steps.gains mid between new after → steps.gains old before new after };

    /// A request that must wait changes nothing.
    ghost waits: { (old new : World) (unique : ℕ) (want : Want) → steps.is_idle old → steps.begins old unique want Busy new → new ≡ old };

    /// A request that is refused keeps an idle table idle.
    ghost refuses: { (old new : World) (unique : ℕ) (want : Want) (errno : ℤ) → steps.is_idle old → steps.begins old unique want (Refused errno) new
        → (steps.begins old unique want (Refused (to_z w32 (of_z w32 errno))) new) × steps.is_idle new };

    /// A request that begins is not finished yet.
    ghost begins_free: { (old new : World) (unique : ℕ) (want : Want) (claim : Claim) → steps.is_free old → steps.begins old unique want (Go claim) new → steps.is_free new };

    /// A request that goes from its begin to its settle.
    ghost completes: { (old mid fin new : World) (unique : ℕ) (want : Want) (claim : Claim) (outcome : Outcome) (answer : Answer) (put : Option ℕ) (taken : Bool) → steps.is_idle old
        → steps.begins old unique want (Go claim) mid → steps.finishes mid claim.id outcome answer fin → steps.settles fin answer put taken new → steps.knows answer × steps.is_idle new };

    /// Forgetting lookups keeps an idle table idle.
    ghost forgets_idle: { (old new : World) (number n : ℕ) → steps.is_idle old → steps.forgets old number n new → steps.is_idle new };

    /// Looking up an open file keeps an idle table idle.
    ghost finds_idle: { (old new : World) (fh : ℕ) (file : Option OpenFile) → steps.is_idle old → steps.finds old fh file new → steps.is_idle new };
}

impl<T: Ledgers> Reach<T> for Table<T> {
    ghost use Rattle.table_steps.specs.Kept.{world_of};
    ghost use Rattle.table_steps.specs.World as kept;
    ghost use Rattle.engine.specs.Tables.{worlds};
    ghost use Rattle.engine.specs.ReachLemmas as laws;

    ghost World = { kept.World };

    ghost world = { world_of };

    ghost steps = { worlds };

    fn attest(&self) {
        Table::attest(self)
    }

    fn begin(&mut self, unique: u64, want: Want) -> Begin {
        self.renew();
        Table::begin(self, unique, want)
    }

    fn finish(&mut self, share: &mut Share<T>, ticket: Ticket, outcome: Outcome) -> Answered {
        Table::finish(self, share, ticket, outcome)
    }

    fn settle(&mut self, share: &mut Share<T>, answered: Answered, _put: Option<u64>, taken: bool) {
        let _ = Table::settle(self, share, answered, taken);
    }

    fn forget(&mut self, share: &mut Share<T>, number: u64, n: u64) {
        let _ = Table::forget(self, share, number, n);
    }

    fn find(&mut self, fh: u64) -> Option<OpenFile> {
        Table::attest(self); // proof: its law
        Table::file(self, fh)
    }

    ghost gains_on = { laws.gains_on };

    ghost waits = { laws.waits };

    ghost refuses = { laws.refuses };

    ghost begins_free = { λ old new unique want claim free begins. tt };

    ghost completes = { laws.completes };

    ghost forgets_idle = { laws.forgets };

    ghost finds_idle = { laws.finds };
}
