//! The rule of the reply queue: for each sender, what the writer took and what is left is what the sender put, in its
//! order.

ghost use Rattle.std.specs.Prelude.{◌≡◌};

use crossbeam_channel::protocol::{Join, Lesson, Outcome, Protocol, Split};
use crossbeam_channel::{Pass, RuledReceiver, RuledSender};
use std::collections::LinkedList;

/// A reply, and the number of its sender.
#[derive(Drop)]
pub struct QueuedReply<M> {
    pub from: u64,
    pub reply: M,
}

// What a pass knows. A sender's pass sends as `from`. The writer's pass gets, has made the senders' passes, and learns
// what each sender that has ended had put. No value of this type is ever made.
pub struct ReplyLane<M> {
    pub sends: bool,
    pub from: u64,
    pub put: LinkedList<QueuedReply<M>>,
    pub gets: bool,
    pub got: LinkedList<QueuedReply<M>>,
    pub made: u64,
    pub known: LinkedList<LinkedList<QueuedReply<M>>>,
}

pub type ReplyPass<M> = Pass<QueuedReply<M>, ReplyLane<M>>;

pub type ReplySender<M> = RuledSender<QueuedReply<M>, ReplyLane<M>, InOrder>;

pub type ReplyReceiver<M> = RuledReceiver<QueuedReply<M>, ReplyLane<M>, InOrder>;

pub struct InOrder;

impl<M> Protocol<QueuedReply<M>, ReplyLane<M>> for InOrder {
    ghost use Rattle.engine_queues.specs.Replies.{writer, Posted};
    ghost use Rattle.std.specs.Prelude.{[]};

    ghost holds = { Posted };

    ghost first = { writer [] 0 [] };
}

pub struct Roles;

impl<M> Split<ReplyLane<M>> for Roles {
    ghost use Rattle.engine_queues.specs.Replies.{sender, one_more};
    ghost use Rattle.std.specs.Prelude.{[]};

    ghost left = { one_more };

    ghost right = { λ v. sender v.made [] };
}

impl<M> Join<ReplyLane<M>> for Roles {
    ghost use Rattle.engine_queues.specs.Replies.{told, idle};

    ghost both = { told };

    ghost spent = { idle };
}

pub struct Posts;

impl<M> Outcome<QueuedReply<M>, ReplyLane<M>> for Posts {
    ghost use Rattle.engine_queues.specs.Replies.{put_of};

    ghost then = { λ v x w. w ≡ put_of v x };
}

impl<M> Lesson<QueuedReply<M>, ReplyLane<M>> for Posts {
    ghost use Rattle.std.specs.Prelude.{⊤};

    ghost fact = { λ v items. ⊤ };
}

pub struct Gets;

impl<M> Outcome<QueuedReply<M>, ReplyLane<M>> for Gets {
    ghost use Rattle.engine_queues.specs.Replies.{got_of};

    ghost then = { λ v x w. w ≡ got_of v x };
}

impl<M> Lesson<QueuedReply<M>, ReplyLane<M>> for Gets {
    ghost use Rattle.std.specs.Prelude.{⊤};

    ghost fact = { λ v items. ⊤ };
}

pub struct Whole;

impl<M> Lesson<QueuedReply<M>, ReplyLane<M>> for Whole {
    ghost use Rattle.engine_queues.specs.Replies.{IsWhole};

    ghost fact = { λ v items. IsWhole v.known v.got items };
}
