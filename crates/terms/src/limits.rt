//! How far a table may grow.

ghost use Rattle.std.specs.Prelude.{◌≡◌};

/// What bounds the lookup counts.
#[derive(Clone, Copy, Debug, PartialEq, Eq)]
pub enum Counts {
    /// The postings of a period: room is kept for forgetting each lookup with a posting of its own.
    Bounded,
    /// Only 64 bits: if a call has no room for its postings, the period ends first.
    Free,
}

/// How far a table may grow.
#[derive(Clone, Copy, Debug, PartialEq, Eq)]
pub struct Limits {
    /// Living nodes, including the root and those that requests in flight were promised: at least 1.
    pub nodes: u64,
    /// Postings of a period. If counts are bounded, this includes those that take back all counts. If they are free, it
    /// is at least the maximum number of nodes, since that many may be carried over into the next period.
    pub postings: u64,
    pub counts: Counts,
    /// Requests in flight, including those whose reply is not settled yet.
    pub flights: u64,
    /// Open files.
    pub files: u64,
}

impl Default for Limits {
    ghost use Rattle.terms.specs.declared.limits.Counts.TheVariants.{Bounded};

    ghost is_default = { λ l. l ≡ record { nodes = 65536; postings = 1048576; counts = Bounded; flights = 64; files = 4096 } };

    fn default() -> Limits {
        Limits {
            nodes: 65_536,
            postings: 1_048_576,
            counts: Counts::Bounded,
            flights: 64,
            files: 4_096,
        }
    }
}
