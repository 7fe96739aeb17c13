//! The parts of a table.

ghost use Rattle.std.specs.Prelude.{◌≡◌, ◌≤◌, [], IfOk};
ghost use Rattle.ledger.specs.Periods.{unclosed};
ghost use Rattle.table_steps.specs.Kept.{IsKept, IsWhole, world_of};
ghost use Rattle.table_steps.specs.World.{IsLawfulWorld, opened_world};

use crate::data::Seeds;
use ledger::Ledger;
use std::alloc::{AllocError, Global};
use table_files::Files;
use table_requests::RequestsInFlight;
use terms::{Counts, Limits};
use tree::Tree;

/// The parts of a table, without the shares of its workers.
#[derive(Drop)]
pub struct State {
    pub alloc: Global,
    pub tree: Tree,
    pub ledger: Ledger,
    pub flights: RequestsInFlight,
    pub limits: Limits,
    /// The sum of all lookup counts.
    pub counts: u64,
    /// The open files.
    pub files: Files,
    /// The counter of the next hidden name.
    pub counter: u32,
}

/// A ledger without postings, with the room that it has from the beginning.
fn open_ledger(alloc: Global, limits: &Limits) -> Result<Ledger, AllocError>
    ensures made { IfOk result (λ ledger. ledger.made ≡ unclosed []) }
    ensures limit { IfOk result (λ ledger. ledger.limit ≡ limits.now.postings) }
    ensures free { IfOk result (λ ledger. limits.now.counts ≡ Counts.Free → limits.now.postings ≤ ledger.room) }
{
    let mut ledger = Ledger::new(alloc, limits.postings as usize);
    match limits.counts {
        Counts::Bounded => Ok(ledger),
        Counts::Free => match ledger.reserve(limits.postings as usize, 0) {
            Ok(()) => Ok(ledger),
            Err(_) => Err(AllocError),
        },
    }
}

impl State {
    /// A table with only the root. If counts are free, all the room for a period's postings is made here.
    pub fn open(alloc: Global, limits: Limits, seeds: Seeds) -> Result<State, AllocError>
        requires root { 1 ≤ limits.nodes }
        requires free { limits.counts ≡ Counts.Free → limits.nodes ≤ limits.postings }
        ensures opened { IfOk result (λ s. world_of s ≡ opened_world limits) }
        ensures kept { IfOk result IsKept }
    {
        let tree = Tree::new(alloc, limits.nodes, seeds.index)?;
        let ledger = open_ledger(alloc, &limits)?;
        Ok(State {
            alloc,
            tree,
            ledger,
            flights: RequestsInFlight::new(alloc, seeds.holds),
            limits,
            counts: 0,
            files: Files::new(alloc),
            counter: 0,
        })
    }

    /// For the prover: between any two calls the law holds.
    pub fn attest(&self)
        requires { IsWhole self.now }
        ensures { IsLawfulWorld (world_of self.now) }
    {
        let _nodes = self.tree.len(); // proof: its law
        let _promised = self.flights.promised();
    }
}
