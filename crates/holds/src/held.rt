//! What a request holds while work on it is in progress.

ghost use Rattle.std.specs.Prelude.{◌≡◌, ◌↔◌, ◌++◌, ◌∷◌, [], ℕ, List, IsTrue, Contains, OnOk};

use crate::few::Few;
use crate::finding::{contains, contains_name};
use paths::{Name, Path};
use std::alloc::{AllocError, Global};
use std::marker::Model;

/// A node that a request names, with its path from the time when the request began.
#[derive(Drop)]
pub struct GivenPath {
    pub number: u64,
    pub path: Path,
}

/// The nodes that a request names. Contracts see a list.
#[derive(Drop)]
pub struct GivenPaths {
    leads: Few<GivenPath>,
}

impl Model for GivenPaths {
    ghost use Rattle.std.specs.Prelude.{List};
    ghost use Rattle.holds.specs.declared.held.GivenPath.{GivenPath};
    ghost use Rattle.holds.specs.Few.{items_of};

    ghost Value = { List GivenPath };

    ghost view = { λ l. items_of l.leads };
}

impl GivenPaths {
    /// No nodes.
    pub fn new() -> GivenPaths
        ensures { result ≡ [] }
    {
        GivenPaths {
            leads: Few::Nothing,
        }
    }

    /// That node only.
    pub fn one(lead: GivenPath) -> GivenPaths
        ensures { result ≡ lead ∷ [] }
    {
        GivenPaths {
            leads: Few::One(lead),
        }
    }

    /// Those nodes.
    pub fn from_vec(leads: Vec<GivenPath>) -> GivenPaths
        ensures { result ≡ leads.items }
    {
        GivenPaths {
            leads: Few::Many(leads),
        }
    }

    /// Appends the node. The first one needs no allocation.
    pub fn push(&mut self, alloc: Global, lead: GivenPath) -> Result<(), AllocError>
        ensures { OnOk result (self.new ≡ self.old ++ lead ∷ []) }
    {
        self.leads.push(alloc, lead)
    }

    pub fn as_slice(&self) -> &[GivenPath]
        ensures { result.now ≡ self.now }
    {
        self.leads.as_slice()
    }
}

/// A list of paths. Contracts see a list.
#[derive(Drop)]
pub struct Paths {
    paths: Few<Path>,
}

impl Model for Paths {
    ghost use Rattle.std.specs.Prelude.{ℕ, List};
    ghost use Rattle.holds.specs.Few.{items_of};

    ghost Value = { List (List (List ℕ)) };

    ghost view = { λ p. items_of p.paths };
}

impl Paths {
    ghost use Rattle.holds.specs.Conflicts.{Overlaps, is_among};

    /// No paths.
    pub fn new() -> Paths
        ensures { result ≡ [] }
    {
        Paths {
            paths: Few::Nothing,
        }
    }

    /// That path only.
    pub fn one(path: Path) -> Paths
        ensures { result ≡ path ∷ [] }
    {
        Paths {
            paths: Few::One(path),
        }
    }

    /// Those paths.
    pub fn from_vec(paths: Vec<Path>) -> Paths
        ensures { result ≡ paths.items }
    {
        Paths {
            paths: Few::Many(paths),
        }
    }

    pub fn as_slice(&self) -> &[Path]
        ensures { result.now ≡ self.now }
    {
        self.paths.as_slice()
    }

    /// Appends the path. The first one needs no allocation.
    pub fn push(&mut self, alloc: Global, path: Path) -> Result<(), AllocError>
        ensures { OnOk result (self.new ≡ self.old ++ path ∷ []) }
    {
        self.paths.push(alloc, path)
    }

    /// Makes room for `more` paths, unless the list has exactly one.
    pub(crate) fn reserve(&mut self, alloc: Global, more: usize) -> Result<(), AllocError>
        ensures { self.new ≡ self.old }
    {
        self.paths.reserve(alloc, more)
    }

    /// Whether the path is in the list.
    pub fn contains(&self, path: &Path) -> bool
        ensures among { result ≡ is_among self.now path.now }
        ensures found { IsTrue result ↔ Contains self.now path.now }
    {
        contains(self.as_slice(), path)
    }

    /// Whether the list has the path of the name under the parent. That path is not built.
    pub fn contains_name(&self, parent: &Path, name: &Name) -> bool
        ensures { IsTrue result ↔ Contains self.now (parent.now ++ name.now ∷ []) }
    {
        contains_name(self.as_slice(), parent, name)
    }

    /// Whether some path is in both lists.
    pub fn overlaps(&self, other: &Paths) -> bool
        ensures { IsTrue result ↔ Overlaps self.now other.now }
    {
        for path in self.as_slice() {
            if other.contains(path) {
                return true;
            }
        }
        false
    }
}

/// The nodes that a request names, and the names that it holds, whether or not they have nodes.
#[derive(Drop)]
pub struct Held {
    /// The nodes that it names.
    pub given: GivenPaths,
    /// The names that it shares: others may hold them too, but not exclusively.
    pub shared: Paths,
    /// The names that only this request may hold.
    pub exclusive: Paths,
}

impl Held {
    ghost use Rattle.holds.specs.Conflicts.{Excludes, Conflict};

    /// Whether an exclusive name of this request is a name of the other.
    fn excludes(&self, other: &Held) -> bool
        ensures { IsTrue result ↔ Excludes self.now other.now }
    {
        self.exclusive.overlaps(&other.exclusive) || self.exclusive.overlaps(&other.shared)
    }

    /// Whether an exclusive name of one is a shared or exclusive name of the other.
    pub fn conflicts_with(&self, other: &Held) -> bool
        ensures { IsTrue result ↔ Conflict self.now other.now }
    {
        self.excludes(other) || other.excludes(self)
    }
}
