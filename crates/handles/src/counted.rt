//! What tokens have of the counts of open folders, and the steps that change it. For the prover.

use crate::limits::FolderLimits;
use atomic_table::{Play, TableRule};

/// What a token has of the two counts. No value of this type is ever made.
pub(crate) struct Counted {
    pub(crate) folders: u64,
    pub(crate) names: u64,
}

/// Each count is the sum of what the tokens have of it, and within its limit.
pub(crate) struct Sums;

impl TableRule<u64, Counted, FolderLimits> for Sums {
    ghost use Rattle.handles.specs.Counts.{nothing, IsCounted};

    ghost holds = { λ limits s. IsCounted limits s.words s.views };

    ghost first = { λ _. nothing };
}

/// A token is made, which has nothing.
pub(crate) struct Begins;

impl Play<u64, Counted> for Begins {
    ghost use Rattle.std.specs.Prelude.{◌≡◌};
    ghost use Rattle.handles.specs.Counts.{nothing};

    ghost then = { λ _ _ _ w. w.0 ≡ nothing };
}

/// A count is raised, if it is what it was found to be before. The token then has so much more of it.
pub(crate) struct Raises;

impl Play<u64, Counted> for Raises {
    ghost use Rattle.std.specs.Prelude.{◌≡◌, ◌==◌, ◌+◌, ◌-◌, if◌then◌else◌};
    ghost use Rattle.handles.specs.Counts.{amount, with_amount};

    ghost then = { λ step v n w. w ≡ (if n == step.first then (with_amount step.word v.0 (amount step.word v.0 + (step.second - step.first)), v.1) else v) };
}

/// A count is lowered, and the token has so much less of it.
pub(crate) struct Lowers;

impl Play<u64, Counted> for Lowers {
    ghost use Rattle.std.specs.Prelude.{◌≡◌, ◌-◌};
    ghost use Rattle.handles.specs.Counts.{amount, with_amount};

    ghost then = { λ step v n w. w ≡ (with_amount step.word v.0 (amount step.word v.0 - step.first), v.1) };
}
