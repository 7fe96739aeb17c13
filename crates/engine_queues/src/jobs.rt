//! The rule of the job queue: each job that was put was taken or is left, as often as it was put.

ghost use Rattle.std.specs.Prelude.{◌≡◌};

use crossbeam_channel::protocol::{Join, Lesson, Outcome, Protocol, Split};
use crossbeam_channel::{Pass, RuledReceiver, RuledSender};
use std::collections::LinkedList;

// What a pass has put and taken, and its share of the right to know the whole. No value of this type is ever made.
pub struct Hand<J> {
    pub parts: u64,
    pub put: LinkedList<J>,
    pub taken: LinkedList<J>,
}

pub type JobPass<J> = Pass<J, Hand<J>>;

pub type JobSender<J> = RuledSender<J, Hand<J>, Fair>;

pub type JobReceiver<J> = RuledReceiver<J, Hand<J>, Fair>;

pub struct Fair;

impl<J> Protocol<J, Hand<J>> for Fair {
    ghost use Rattle.engine_queues.specs.Jobs.{hand, Balanced};
    ghost use Rattle.std.specs.Prelude.{[]};

    ghost holds = { Balanced };

    ghost first = { hand 8 [] [] };
}

pub struct Cut;

impl<J> Split<Hand<J>> for Cut {
    ghost use Rattle.engine_queues.specs.Jobs.{hand};
    ghost use Rattle.std.specs.Prelude.{◌-◌, []};

    ghost left = { λ v. hand (v.parts - 1) v.put v.taken };

    ghost right = { λ v. hand 1 [] [] };
}

impl<J> Join<Hand<J>> for Cut {
    ghost use Rattle.engine_queues.specs.Jobs.{both, hand};
    ghost use Rattle.std.specs.Prelude.{[]};

    ghost both = { both };

    ghost spent = { hand 0 [] [] };
}

pub struct Puts;

impl<J> Outcome<J, Hand<J>> for Puts {
    ghost use Rattle.engine_queues.specs.Jobs.{put_of};

    ghost then = { λ v x w. w ≡ put_of v x };
}

impl<J> Lesson<J, Hand<J>> for Puts {
    ghost use Rattle.std.specs.Prelude.{⊤};

    ghost fact = { λ v items. ⊤ };
}

pub struct Takes;

impl<J> Outcome<J, Hand<J>> for Takes {
    ghost use Rattle.engine_queues.specs.Jobs.{taken_of};

    ghost then = { λ v x w. w ≡ taken_of v x };
}

impl<J> Lesson<J, Hand<J>> for Takes {
    ghost use Rattle.std.specs.Prelude.{⊤};

    ghost fact = { λ v items. ⊤ };
}

pub struct Total;

impl<J> Lesson<J, Hand<J>> for Total {
    ghost use Rattle.engine_queues.specs.Jobs.{Accounts};

    ghost fact = { λ v items. Accounts v.put v.taken items };
}
