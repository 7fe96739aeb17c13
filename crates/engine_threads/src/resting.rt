//! How a thread sleeps that finds nothing to do.

use crate::session_state::Common;
use crate::turns::Pace;
use engine::{LinkIn, LinkOut};
use engine_turns::{Sink, Source};
use ledger::Ledgers;
use std::sync::Wait;
use std::sync::atomic::Ordering;
use table_shared::Opening;

/// How close to sleeping a thread is that finds nothing to do.
#[derive(Drop)]
pub struct Rest {
    number: usize,
    /// Whether it has announced that it will sleep.
    is_lying: bool,
    /// Whether it has slept, and has done nothing since.
    has_slept: bool,
    /// How many receives had been made when it last slept.
    seen: u64,
    /// How often it has looked in vain since it did something or slept.
    looks: u32,
    /// Whether it leads: it goes on where one thread is enough.
    leads: bool,
    /// How many jobs all threads had worked on, and how many this one, before its last turn.
    worked: u64,
    taken: u64,
}

/// How often a thread looks in vain before it sleeps, while requests are waiting to be received: being put to sleep and
/// woken takes longer.
const LOOKS: u32 = 200;

impl Rest {
    pub fn new(number: usize) -> Rest {
        Rest {
            number,
            is_lying: false,
            has_slept: false,
            seen: 0,
            looks: 0,
            leads: false,
            worked: 0,
            taken: 0,
        }
    }

    /// It looks again, and has worked on `taken` jobs so far. If it has just been asleep and there are jobs, another
    /// thread must watch before this one takes a job, which may take long.
    pub fn look<
        H: Drop,
        T: Ledgers,
        N: Opening,
        I: LinkIn + Drop,
        O: LinkOut + Drop,
        S: Source<I> + Sink<O>,
    >(&mut self, common: &Common<H, T, N, I, O, S>, taken: u64) {
        if self.has_slept && common.signs.is_busy() {
            common.sleepers.call_watch();
        }
        self.has_slept = false;
        if !self.leads {
            self.worked = common.signs.worked();
            self.taken = taken;
        }
    }

    /// It has found something to do, and has worked on `taken` jobs so far. If one thread is enough and another one leads,
    /// it offers what is ready in its next turn, and then sleeps: of short jobs two threads that wait for each other get
    /// through fewer than one.
    pub fn rise<
        H: Wait + Drop,
        T: Ledgers,
        N: Opening,
        I: LinkIn + Drop,
        O: LinkOut + Drop,
        S: Source<I> + Sink<O>,
    >(&mut self, common: &Common<H, T, N, I, O, S>, taken: u64, pace: &mut Pace) {
        self.looks = 0;
        if self.is_lying {
            common.sleepers.get_up(self.number);
            self.is_lying = false;
        }
        if pace.is_leaving {
            pace.is_leaving = false;
            self.leave(common);
        } else if !self.leads {
            pace.is_leaving = self.may_leave(common, taken);
        }
    }

    /// Whether another thread leads that gets through the jobs by itself. If none leads, this one does from now on.
    fn may_leave<
        H: Drop,
        T: Ledgers,
        N: Opening,
        I: LinkIn + Drop,
        O: LinkOut + Drop,
        S: Source<I> + Sink<O>,
    >(&mut self, common: &Common<H, T, N, I, O, S>, taken: u64) -> bool {
        let own = taken.wrapping_sub(self.taken);
        if own == 0 || common.signs.wants_more_threads() {
            return false;
        }
        self.leads = common.signs.take_lead();
        !self.leads && common.signs.worked().wrapping_sub(self.worked) > own
    }

    /// It announces that it will sleep, and does, unless the session is over: whoever ends that wakes all that have
    /// announced it.
    fn leave<
        H: Wait + Drop,
        T: Ledgers,
        N: Opening,
        I: LinkIn + Drop,
        O: LinkOut + Drop,
        S: Source<I> + Sink<O>,
    >(&mut self, common: &Common<H, T, N, I, O, S>) {
        common.sleepers.lie_down(self.number);
        if common.signs.is_over() {
            common.sleepers.get_up(self.number);
        } else {
            self.sleep(common);
        }
    }

    /// It has found nothing to do. If requests are waiting, it looks again; otherwise it announces that it will sleep,
    /// or sleeps if it has announced it. As long as something comes, one sleeping thread watches, that is, looks again
    /// by itself: a call may keep another thread from making the next receive.
    pub fn sink<
        H: Wait + Drop,
        T: Ledgers,
        N: Opening,
        I: LinkIn + Drop,
        O: LinkOut + Drop,
        S: Source<I> + Sink<O>,
    >(&mut self, common: &Common<H, T, N, I, O, S>) {
        if self.looks < LOOKS && common.signs.has_backlog() {
            self.looks += 1;
            return;
        }
        if !self.is_lying {
            common.sleepers.lie_down(self.number);
            self.is_lying = true;
            return;
        }
        self.sleep(common);
    }

    /// It has announced that it will sleep, and does. If it is woken since nobody watches, it watches.
    fn sleep<
        H: Wait + Drop,
        T: Ledgers,
        N: Opening,
        I: LinkIn + Drop,
        O: LinkOut + Drop,
        S: Source<I> + Sink<O>,
    >(&mut self, common: &Common<H, T, N, I, O, S>) {
        if self.leads {
            common.signs.give_lead();
            self.leads = false;
        }
        let receives = common.signs.receives.load(Ordering::SeqCst);
        let is_news = receives != self.seen;
        self.seen = receives;
        if is_news && common.sleepers.begin_watch() {
            watch(common, self.number);
        } else {
            common.sleepers.sleep(&common.rt, self.number);
            let is_called = common.signs.is_over() || common.signs.wants_more_threads();
            if !is_called && common.sleepers.begin_watch() {
                common.sleepers.lie_down(self.number);
                watch(common, self.number);
            }
        }
        self.is_lying = false;
        self.has_slept = true;
        self.looks = 0;
    }
}

/// Watches until another thread wakes this one or a look is due. While the others get through many jobs this thread would
/// only be in their way.
fn watch<
    H: Wait + Drop,
    T: Ledgers,
    N: Opening,
    I: LinkIn + Drop,
    O: LinkOut + Drop,
    S: Source<I> + Sink<O>,
>(common: &Common<H, T, N, I, O, S>, number: usize) {
    for _ in common.rt.forever() {
        let before = common.signs.worked();
        let seen = common.signs.receives.load(Ordering::SeqCst);
        if common.sleepers.nap(&common.rt, number) {
            break;
        }
        common.signs.tell_watched(before);
        if common.signs.is_over() || common.signs.is_look_due(before, seen) {
            break;
        }
        // A wake-up that was lost just before this costs a millisecond.
        common.sleepers.lie_down(number);
    }
    common.sleepers.end_watch();
}
