//! What the whole log of a history and that of a thread know of it, and the rule that connects them.

use atomic_table::{Join, Play, Split, TableRule};
use std::collections::LinkedList;
use std::marker::{Brand, PhantomData};

// The whole log has all entries, and how many indices were given to threads. A thread's log has its index, the prefix
// of the whole log that it knows, and what the thread did itself. No value of this type is ever made.
pub struct View<E> {
    pub keeps: bool,
    pub log: LinkedList<(u64, E)>,
    pub given: u64,
    pub signs: bool,
    pub by: u64,
    pub seen: LinkedList<(u64, E)>,
    pub mine: LinkedList<E>,
}

/// The log only grows, and only through the whole log together with the log of the thread that adds.
pub struct Grows;

impl<E> TableRule<u64, View<E>, ()> for Grows {
    ghost use Rattle.std.specs.Prelude.{[]};
    ghost use Rattle.shared_history.specs.Views.{whole_log, Kept};

    ghost holds = { λ _ s. Kept s.views };

    ghost first = { λ _. whole_log [] 0 };
}

/// The whole log and that of a thread are brought together, and separated again.
pub struct Meets;

impl<E> Join<View<E>> for Meets {
    ghost use Rattle.shared_history.specs.Views.{both, nobody};

    ghost both = { both };

    ghost spent = { nobody };
}

impl<E> Split<View<E>> for Meets {
    ghost use Rattle.shared_history.specs.Views.{whole_log, thread_log};

    ghost left = { λ v. whole_log v.log v.given };

    ghost right = { λ v. thread_log v.by v.seen v.mine };
}

/// One more thread gets the next index.
pub struct Enters;

impl<E> Split<View<E>> for Enters {
    ghost use Rattle.std.specs.Prelude.{◌+◌, []};
    ghost use Rattle.shared_history.specs.Views.{whole_log, thread_log};

    ghost left = { λ v. whole_log v.log (v.given + 1) };

    ghost right = { λ v. thread_log v.given v.log [] };
}

/// What is added. The call chooses it.
pub trait Added<E> {
    ghost use Rattle.std.specs.Prelude.{List};

    ghost entries: { List E };
}

impl<E> Added<E> for Brand {
    ghost use Rattle.std.specs.Prelude.{[]};

    ghost entries = { [] };
}

/// The step that adds an entry.
pub struct Adds<A> {
    of: PhantomData<A>,
}

impl<E, A: Added<E>> Play<u64, View<E>> for Adds<A> {
    ghost use Rattle.std.specs.Prelude.{◌≡◌};
    ghost use Rattle.shared_history.specs.Views.{Extends};

    ghost then = { λ _ v _ w. Extends A.entries v.0 w.0 × (w.1 ≡ v.1) };
}
