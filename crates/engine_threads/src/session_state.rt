//! The state that the threads of a session share.

use engine::{LinkIn, LinkOut};
use engine_turns::{ReaderRole, Sink, Sleepers, Source, WriterRole};
use handles::Dirs;
use ledger::Ledgers;
use std::sync::Mutex;
use std::sync::atomic::{AtomicBool, AtomicU64, Ordering};
use table_shared::{Opening, SharedTable};

/// What threads tell one another without a lock.
#[derive(Drop)]
pub struct Signs {
    /// Whether there may be replies that nobody has offered yet.
    pub is_ready: AtomicBool,
    /// Whether a thread has the reader.
    pub is_reading: AtomicBool,
    /// Whether the writer saw the link break.
    pub is_broken: AtomicBool,
    /// Whether no more jobs will be queued.
    pub is_over: AtomicBool,
    /// How many receives were made.
    pub receives: AtomicU64,
    /// How many jobs were queued.
    pub queued: AtomicU64,
    /// How many jobs were worked on.
    pub worked: AtomicU64,
    /// How often recent receives found that a request had been waiting: each that does adds one, each other one
    /// subtracts one.
    pub backlog: AtomicU64,
    /// How often a thread that watched found that jobs take long: each time that it did not subtracts one.
    pub slow_looks: AtomicU64,
    /// How many jobs were worked on when a thread last found that.
    pub judged: AtomicU64,
    /// Whether a thread leads: it goes on where one thread is enough.
    pub is_led: AtomicBool,
}

/// If fewer jobs than this are worked on in the millisecond of a watching thread, they are few.
const FEW: u64 = 16;

/// If this many jobs or more are worked on in that millisecond, they are so short that one thread does them sooner than
/// two that wait for each other.
const MANY: u64 = 48;

/// If so many looks more found that jobs take long than did not, they do. A single look is no sign: a client that
/// pauses, or a thread whose processor was taken away, also makes a millisecond with few jobs.
const SLOW: u64 = 3;

/// The maximum of that count.
const MOST_SLOW: u64 = 6;

/// After so many jobs that nobody watched it is no longer known that jobs take long. If they do, that is found again
/// within some milliseconds.
const UNWATCHED: u64 = 4096;

/// Above this value, which is reached if more than half of the receives find a request waiting, more threads should
/// receive. A client that asks for one thing after another also makes requests that it does not wait for, as RELEASE.
const BACKLOG: u64 = 16;

/// The maximum of that count.
const MOST_BACKLOG: u64 = 64;

impl Signs {
    pub fn new() -> Signs {
        Signs {
            is_ready: AtomicBool::new(false),
            is_reading: AtomicBool::new(false),
            is_broken: AtomicBool::new(false),
            is_over: AtomicBool::new(false),
            receives: AtomicU64::new(0),
            queued: AtomicU64::new(0),
            worked: AtomicU64::new(0),
            backlog: AtomicU64::new(0),
            slow_looks: AtomicU64::new(0),
            judged: AtomicU64::new(0),
            is_led: AtomicBool::new(false),
        }
    }

    pub fn tell_ready(&self) {
        self.is_ready.store(true, Ordering::SeqCst);
    }

    pub fn tell_over(&self) {
        self.is_over.store(true, Ordering::SeqCst);
    }

    pub fn is_over(&self) -> bool {
        self.is_over.load(Ordering::SeqCst)
    }

    /// Counts a receive, which queued that many jobs.
    pub fn tell_received(&self, queued: u64) {
        self.queued.fetch_add(queued, Ordering::SeqCst);
        self.receives.fetch_add(1, Ordering::SeqCst);
    }

    /// Counts a job that was worked on. There may be a reply to it.
    pub fn tell_worked(&self) {
        self.worked.fetch_add(1, Ordering::SeqCst);
        self.tell_ready();
    }

    /// How many jobs were worked on.
    pub fn worked(&self) -> u64 {
        self.worked.load(Ordering::SeqCst)
    }

    /// Whether jobs are queued or being worked on.
    pub fn is_busy(&self) -> bool {
        self.queued.load(Ordering::SeqCst) != self.worked()
    }

    /// Notes whether jobs take long, after a thread has watched for a whole millisecond; `before` is how many were worked
    /// on before that.
    pub fn tell_watched(&self, before: u64) {
        let worked = self.worked();
        let looks = self.slow_looks.load(Ordering::SeqCst);
        let after = if self.is_busy() && worked.wrapping_sub(before) < FEW {
            self.judged.store(worked, Ordering::SeqCst);
            looks.saturating_add(1).min(MOST_SLOW)
        } else {
            looks.saturating_sub(1)
        };
        self.slow_looks.store(after, Ordering::SeqCst);
    }

    /// How many more threads what was just queued gives work to, if jobs take long. A thread that is alone with one job
    /// needs no other.
    pub fn wanted_for(&self, queued: u64) -> u64 {
        let worked = self.worked();
        if worked.wrapping_sub(self.judged.load(Ordering::SeqCst)) > UNWATCHED {
            self.slow_looks.store(0, Ordering::SeqCst);
            return 0;
        }
        let waiting = self.queued.load(Ordering::SeqCst).wrapping_sub(worked);
        queued.min(waiting.saturating_sub(1))
    }

    /// Whether a thread that has watched should look what is to be done; `before` is how many jobs were worked on before
    /// that, and `seen` how many receives had been made. It should where jobs take long, where some wait and few were
    /// worked on, and where nothing came.
    pub fn is_look_due(&self, before: u64, seen: u64) -> bool {
        let worked = self.worked();
        let waiting = self.queued.load(Ordering::SeqCst).wrapping_sub(worked) > 1;
        let is_crowded = waiting && worked.wrapping_sub(before) < MANY;
        is_crowded || self.is_slow() || self.receives.load(Ordering::SeqCst) == seen
    }

    /// Notes whether the request of a receive had been waiting: each that had adds one, each other one subtracts one. Receives
    /// are made one after another.
    pub fn tell_backlog(&self, was_waiting: bool) {
        let before = self.backlog.load(Ordering::SeqCst);
        let after = if was_waiting {
            before.saturating_add(1).min(MOST_BACKLOG)
        } else {
            before.saturating_sub(1)
        };
        self.backlog.store(after, Ordering::SeqCst);
    }

    /// Whether requests wait to be received, judged by recent receives.
    pub fn has_backlog(&self) -> bool {
        self.backlog.load(Ordering::SeqCst) > BACKLOG
    }

    /// Whether jobs take long.
    pub fn is_slow(&self) -> bool {
        self.slow_looks.load(Ordering::SeqCst) >= SLOW
    }

    /// Whether one thread is too few for what comes.
    pub fn wants_more_threads(&self) -> bool {
        self.is_slow() || self.has_backlog()
    }

    /// Whether the calling thread leads from now on, since none did.
    pub fn take_lead(&self) -> bool {
        // Threads ask often, and a load leaves the value where it is.
        !self.is_led.load(Ordering::SeqCst) && !self.is_led.swap(true, Ordering::SeqCst)
    }

    /// The thread that leads does so no more.
    pub fn give_lead(&self) {
        self.is_led.store(false, Ordering::SeqCst);
    }
}

/// What all threads of a session share. A thread usually only tries the locks of the two roles: if one is taken, it
/// goes on to another turn.
#[derive(Drop)]
pub struct Common<
    H: Drop,
    T: Ledgers,
    N: Opening,
    I: LinkIn + Drop,
    O: LinkOut + Drop,
    S: Source<I> + Sink<O>,
> {
    pub rt: H,
    pub shared_table: SharedTable<T, N>,
    pub dirs: Dirs,
    pub reader: Mutex<ReaderRole<I, S>>,
    pub writer: Mutex<WriterRole<T, N, O, S>>,
    pub sleepers: Sleepers,
    pub signs: Signs,
}
