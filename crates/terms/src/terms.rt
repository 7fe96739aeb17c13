//! The settings of a session.

ghost use Rattle.std.specs.Prelude.{◌≡◌, ◌≤◌};
ghost use Rattle.terms.specs.Limits.{limits_of};

use crate::limits::{Counts, Limits};
use crate::settings::Settings;

/// How far the table of a session may grow (own).
#[derive(Clone, Copy, Debug, PartialEq, Eq)]
pub struct Bounds {
    /// How many nodes may be known at a time, including the root, which always has room.
    pub nodes: u32,
    /// How many files may be open at a time.
    pub files: u32,
    /// How many requests may be in flight, including those whose reply is not settled yet.
    pub requests: u32,
    /// How many postings a period of the ledger may have; if counts are free, at least two per node.
    pub postings: u32,
    /// What bounds the lookup counts: the postings of a period, or only 64 bits.
    pub counts: Counts,
}

impl Default for Bounds {
    ghost use Rattle.terms.specs.declared.limits.Counts.TheVariants.{Bounded};

    ghost is_default = { λ b. b ≡ record { nodes = 65536; files = 4096; requests = 64; postings = 1048576; counts = Bounded } };

    fn default() -> Bounds {
        Bounds {
            nodes: 65_536,
            files: 4_096,
            requests: 64,
            postings: 1_048_576,
            counts: Counts::Bounded,
        }
    }
}

/// The settings of a session, apart from its link and its folder.
#[derive(Clone, Copy, Debug, PartialEq, Eq)]
pub struct Terms {
    /// What is shown of the folder.
    pub settings: Settings,
    /// How far the table may grow.
    pub bounds: Bounds,
}

impl Terms {
    /// How far the table may grow.
    pub fn limits(self) -> Limits
        ensures limits { result ≡ limits_of self.bounds }
        ensures free { result.counts ≡ Counts.Free → result.nodes ≤ result.postings }
    {
        let nodes = u64::from(self.bounds.nodes.max(1));
        let postings = u64::from(self.bounds.postings);
        Limits {
            nodes,
            postings: match self.bounds.counts {
                Counts::Bounded => postings,
                Counts::Free => postings.max(2 * nodes),
            },
            counts: self.bounds.counts,
            flights: u64::from(self.bounds.requests),
            files: u64::from(self.bounds.files),
        }
    }
}
