//! A directory in memory, which can be made to fail at planned calls.

ghost use Rattle.std.specs.Prelude.{◌≡◌, ℕ, [], ◌∷◌, OnOk, OnErr};
ghost use Rattle.backing.specs.Memory.{Memory, Gives, MakesCall, PutsDir, PutsFile, PutsSpecial, SameBut, memory_tree};
ghost use Rattle.backing.specs.SharedTree.{CallsFor};
ghost use Rattle.backing.specs.Calls.{asked};
ghost use Rattle.backing.specs.Tree.{IsTree};

use crate::call::{Answer, Call};
use crate::calls::{Calls, KnownTree};
use crate::entries::TreeEntry;
use crate::perform::{put_dir_in, put_file_in, put_special_in, treat};
use crate::plans::{Plan, PlannedFault, add_plan, next_fault};
use crate::told::{Told, count};
use paths::Path;
use payload::Special;
use std::alloc::{AllocError, Global};
use std::marker::Model;

/// A directory in memory. Contracts see what is in it, its plans, and its counts of calls and of failures.
#[derive(Drop)]
pub struct MemTree {
    alloc: Global,
    standing: Vec<TreeEntry>,
    calls: u64,
    planned: Vec<Plan>,
    failures: u64,
}

impl Model for MemTree {
    ghost use Rattle.backing.specs.Memory.{Memory};

    ghost Value = { Memory };

    ghost use Rattle.backing.specs.Entries.{IsEntryTree};

    ghost view = { λ m. record { entries = m.standing.items; made = m.calls; plans = m.planned.items; failed = m.failures } };

    ghost invariant = { λ m. IsEntryTree m.standing.items };
}

impl MemTree {
    /// A tree with only a root, with no planned failures. It does not allocate.
    pub fn new(alloc: Global) -> MemTree
        ensures { result ≡ record { entries = []; made = 0; plans = []; failed = 0 } }
    {
        MemTree {
            alloc,
            standing: Vec::new(alloc),
            calls: 0,
            planned: Vec::new(alloc),
            failures: 0,
        }
    }

    /// Makes that call fail, counted from 1 since the tree was made, and replaces any earlier plan for it. Calls that
    /// were already made, and call 0, never come.
    pub fn fail_at(&mut self, call: u64, fault: PlannedFault) -> Result<(), AllocError>
        ensures ok { OnOk result (self.new ≡ record self.old { plans = (record { call = call; fault = fault }) ∷ self.old.plans }) }
        ensures err { OnErr result (self.new ≡ self.old) }
    {
        add_plan(&mut self.planned, Plan { call, fault })
    }

    /// Makes an empty folder, or returns the error number that the call would give. It does not count as a call, so
    /// plans do not apply to it.
    pub fn put_dir(&mut self, path: &Path) -> Result<(), i32>
        ensures puts { PutsDir (memory_tree self.old) path.now result (memory_tree self.new) }
        ensures same { SameBut self.old self.new }
        ensures tree { IsTree (memory_tree self.new) }
    {
        put_dir_in(&mut self.standing, path)
    }

    /// Makes a file and writes its bytes, or returns the error number that these calls would give. If only the second
    /// would fail, the empty file remains. It does not count as a call, so plans do not apply to it.
    pub fn put_file(&mut self, path: &Path, bytes: &[u8]) -> Result<(), i32>
        ensures puts { PutsFile (memory_tree self.old) path.now bytes.now result (memory_tree self.new) }
        ensures same { SameBut self.old self.new }
        ensures tree { IsTree (memory_tree self.new) }
    {
        put_file_in(self.alloc, &mut self.standing, path, bytes)
    }

    /// Makes something that no call makes, as a pipe, or returns the error number that making an empty folder there would
    /// give. It does not count as a call, so plans do not apply to it.
    pub fn put_special(&mut self, path: &Path, special: Special) -> Result<(), i32>
        ensures puts { PutsSpecial (memory_tree self.old) path.now special result (memory_tree self.new) }
        ensures same { SameBut self.old self.new }
        ensures tree { IsTree (memory_tree self.new) }
    {
        put_special_in(&mut self.standing, path, special)
    }

    /// How many of its calls have failed.
    pub fn failures(&self) -> u64
        ensures failed { result ≡ self.now.failed }
        ensures tree { IsTree (memory_tree self.now) }
    {
        self.failures
    }

    /// Makes a call: the tree's own answer and effect, or the failure that is planned for it.
    pub(crate) fn make_call(&mut self, call: Call<'_>) -> Told
        ensures { MakesCall self.old (asked call.entry) result self.new }
    {
        let fault = next_fault(&self.planned, self.calls);
        self.calls = self.calls.saturating_add(1);
        let told = treat(self.alloc, &mut self.standing, fault, call);
        count(&mut self.failures, told.failed);
        told
    }

    /// Makes a call through a handle to the tree, which counts its failure too.
    pub(crate) fn call_for(&mut self, failures: &mut Failures, call: Call<'_>) -> Answer
        ensures { CallsFor self.old failures.old (asked call.entry) result self.new failures.new }
    {
        self.make_call(call).into_answer(&mut failures.count)
    }
}

/// How many of the calls made through a handle to a tree have failed. Only the tree's own calls can increase it: so a
/// handle that answered without calling the tree could not satisfy its contract.
#[derive(Drop)]
pub(crate) struct Failures {
    count: u64,
}

impl Model for Failures {
    ghost Value = { ℕ };

    ghost view = { λ f. f.count };
}

impl Failures {
    /// None yet.
    pub(crate) fn new() -> Failures
        ensures { result ≡ 0 }
    {
        Failures { count: 0 }
    }

    /// How many.
    pub(crate) fn count(&self) -> u64
        ensures { result ≡ self.now }
    {
        self.count
    }
}

impl Calls for MemTree {
    ghost use Rattle.backing.specs.KnownTreeLemmas.{memory_counts};

    ghost gives = { Gives };

    ghost faults = { λ m. m.failed };

    ghost counts = { memory_counts };

    fn call(&mut self, call: Call<'_>) -> Answer {
        self.make_call(call).answer
    }
}

impl KnownTree for MemTree {
    ghost use Rattle.backing.specs.Calls.{memory_limit};
    ghost use Rattle.backing.specs.Memory.{memory_tree};
    ghost use Rattle.backing.specs.KnownTreeLemmas.{memory_known, memory_stands};

    ghost tree = { memory_tree };

    ghost limit = { memory_limit };

    ghost known = { memory_known };

    ghost stands = { memory_stands };
}
