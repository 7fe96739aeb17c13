//! The beginnings of a session's roles.

ghost use Rattle.std.specs.Prelude.{ℕ, Option, None};
ghost use Rattle.engine_turns.specs.Queues.{JobQueue, ReplyQueue};

use std::marker::Brand;

/// Stands for the beginning of one session's reader, and so keeps what that reader has read apart from what any other
/// has.
pub trait Source<I> {
    /// The queue that gets the jobs.
    ghost jobs: { Option JobQueue };

    /// How many parts of the right to know the whole queue others have.
    ghost parted: { ℕ };

    /// The link before its first receive.
    ghost heard_from: { Option I };
}

impl<I> Source<I> for Brand {
    ghost jobs = { None };

    ghost parted = { 0 };

    ghost heard_from = { None };
}

/// Stands for the beginning of one session's writer.
pub trait Sink<O> {
    /// The queue that the replies come from.
    ghost replies: { Option ReplyQueue };

    /// How many senders put replies into it.
    ghost senders: { ℕ };

    /// The link before the first reply was offered.
    ghost sent_to: { Option O };
}

impl<O> Sink<O> for Brand {
    ghost replies = { None };

    ghost senders = { 0 };

    ghost sent_to = { None };
}
