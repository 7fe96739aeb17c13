//! The end of a period of the ledger, and the room that a call's postings need.

ghost use Rattle.std.specs.Prelude.{◌≡◌, ◌<◌, ◌≤◌, ◌+◌, [], Some, length, map};
ghost use Rattle.table_steps.specs.Kept.{IsKept, world_of};
ghost use Rattle.table_steps.specs.Living.{AreLiving, life_of, opening_at};
ghost use Rattle.table_steps.specs.Steps.{ClosesPeriod, MakesRoom};
ghost use Rattle.table_steps.specs.World.{most_posted};
ghost use Rattle.table_requests.specs.Listed.{requests_of};
ghost use Rattle.table_requests.specs.RequestMaps.{most_posted_by};
ghost use Rattle.tree.specs.Places.{IsAlive, at_in};

use crate::state::State;
use ledger::{Ledger, NextPeriod};
use std::mem;
use terms::Counts;
use tree::{Node, Tree};

/// The node with this number.
fn node_at(tree: &Tree, number: u64) -> &Node
    requires { IsAlive (at_in tree.now) number }
    ensures { at_in tree.now number ≡ Some result.now }
{
    match tree.at(number) {
        Some(node) => node,
        None => unreachable!(),
    }
}

/// Opens the period with what is left of each node except the root, by rising number.
fn open_living(tree: &Tree, next: &mut NextPeriod)
    requires none { next.old.made.last ≡ [] }
    requires room { tree.now.living ≤ next.old.room + 1 }
    requires root { IsAlive (at_in tree.now) 1 }
    ensures living { AreLiving (at_in tree.now) (map life_of next.new.made.last) }
    ensures opened { next.new.made.last ≡ map (opening_at (at_in tree.now)) (map life_of next.new.made.last) }
    ensures closed { next.new.made ≡ record next.old.made { last = next.new.made.last } }
    ensures room { next.new.room + length next.new.made.last ≡ next.old.room }
    ensures rest { next.new ≡ record next.old { made = next.new.made; room = next.new.room } }
{
    let _nodes = tree.len(); // proof: its census
    let mut number = 1;
    while let Some(alive) = tree.after(number) {
        let node = node_at(tree, alive);
        next.open(alive, node.generation, node.count);
        number = alive;
    }
}

impl State {
    /// Ends a period: births and totals are kept, and what is left of each node is what the next period begins with.
    /// Returns how many postings the ledger became shorter by. It does not allocate.
    pub fn close_period(&mut self) -> u64
        requires { IsKept self.old }
        ensures closes { ClosesPeriod (world_of self.old) result (world_of self.new) }
        ensures rest { self.new ≡ record self.old { ledger = self.new.ledger } }
        ensures living { length self.new.ledger.made.last + 1 ≡ self.old.tree.living }
        ensures room { self.new.ledger.room + length self.new.ledger.made.last ≡ self.old.ledger.room + length self.old.ledger.made.last }
        ensures kept { IsKept self.new }
    {
        let _nodes = self.tree.len(); // proof: its census
        let made = self.ledger.made();
        let ledger = mem::replace(&mut self.ledger, Ledger::new(self.alloc, 0));
        let mut next = ledger.close();
        open_living(&self.tree, &mut next);
        self.ledger = next.begin();
        (made - self.ledger.made()) as u64
    }

    /// Makes room for the `n` postings of a call: if counts are free and there is no room, the period ends. It does not
    /// allocate.
    pub fn make_room(&mut self, n: u64)
        requires kept { IsKept self.old }
        requires few { self.old.limits.counts ≡ Counts.Free → self.old.tree.living + n ≤ self.old.limits.postings + 1 }
        ensures makes { MakesRoom (world_of self.old) n (world_of self.new) }
        ensures room { self.old.limits.counts ≡ Counts.Free → n ≤ self.new.ledger.room }
        ensures rest { self.new ≡ record self.old { ledger = self.new.ledger } }
        ensures kept { IsKept self.new }
    {
        if self.limits.counts == Counts::Bounded {
            return;
        }
        if n <= self.ledger.room() as u64 {
            return;
        }
        // This costs one step per node, and comes only after at least as many postings: so it costs a constant per
        // posting.
        self.close_period();
    }

    /// Makes room for the postings of the next call on the request, which is the end of its work or its settle.
    pub fn make_room_for(&mut self, id: u64)
        requires kept { IsKept self.old }
        ensures makes { MakesRoom (world_of self.old) (most_posted (world_of self.old).flights id) (world_of self.new) }
        ensures room { self.old.limits.counts ≡ Counts.Free → most_posted_by ((requests_of self.old.flights).at id) ≤ self.new.ledger.room }
        ensures rest { self.new ≡ record self.old { ledger = self.new.ledger } }
        ensures kept { IsKept self.new }
    {
        let _nodes = self.tree.len(); // proof: its law
        if self.limits.counts == Counts::Bounded {
            return;
        }
        let n = self.flights.most_posted(id);
        self.make_room(n);
    }
}
