//! The beginning of a session's workers.

ghost use Rattle.std.specs.Prelude.{List, Option, None, []};
ghost use Rattle.engine_turns.specs.Queues.{JobQueue, ReplyQueue};
ghost use Rattle.terms.specs.declared.settings.Settings.{Settings};

use std::marker::Brand;

/// Stands for the beginning of one session's workers, and so keeps what they have done apart from what others have.
pub trait Workers<C> {
    /// The queue that the jobs come from.
    ghost work: { Option JobQueue };

    /// The queue that the replies go into.
    ghost answers: { Option ReplyQueue };

    ghost settings: { Option Settings };

    /// Their directories, in order of their numbers.
    ghost given: { List C };
}

impl<C> Workers<C> for Brand {
    ghost work = { None };

    ghost answers = { None };

    ghost settings = { None };

    ghost given = { [] };
}
