//! Threads that sleep while there is nothing to do.

use std::sync::Wait;
use std::sync::atomic::{AtomicBool, Ordering};
use std::thread::Parker;
use std::time::Duration;

/// How long the thread sleeps that looks by itself whether there is something to do.
const NAP_MILLIS: u64 = 1;

/// The state of one thread.
#[derive(Drop)]
struct Sleeper {
    is_asleep: AtomicBool,
    parker: Parker,
}

impl Sleeper {
    fn new() -> Sleeper {
        Sleeper {
            is_asleep: AtomicBool::new(false),
            parker: Parker::new(),
        }
    }
}

/// Up to four threads that sleep while there is nothing to do. A thread first announces that it will sleep, then looks
/// once more whether there is something to do, and only then sleeps. So a thread that makes work for others either is
/// noticed by that look, or sees the announcement and wakes the sleeper: no wake-up is lost. No contract says this;
/// tests do.
#[derive(Drop)]
pub struct Sleepers {
    places: [Sleeper; 4],
    /// Whether one of the sleeping threads will look by itself.
    is_watched: AtomicBool,
}

impl Sleepers {
    /// All threads are awake.
    pub fn new() -> Sleepers {
        Sleepers {
            places: [
                Sleeper::new(),
                Sleeper::new(),
                Sleeper::new(),
                Sleeper::new(),
            ],
            is_watched: AtomicBool::new(false),
        }
    }

    /// Announces that the thread with this number will sleep.
    pub fn lie_down(&self, number: usize) {
        if let Some(place) = self.places.get(number) {
            place.is_asleep.store(true, Ordering::SeqCst);
        }
    }

    /// Announces that the thread with this number will not sleep.
    pub fn get_up(&self, number: usize) {
        if let Some(place) = self.places.get(number) {
            place.is_asleep.store(false, Ordering::SeqCst);
        }
    }

    /// Sleeps until another thread wakes this one.
    pub fn sleep<H: Wait>(&self, rt: &H, number: usize) {
        if let Some(place) = self.places.get(number) {
            place.parker.park(rt);
            place.is_asleep.store(false, Ordering::SeqCst);
        }
    }

    /// Whether the caller is from now on the one thread that looks by itself, until it ends that.
    pub fn begin_watch(&self) -> bool {
        !self.is_watched.swap(true, Ordering::SeqCst)
    }

    /// Sleeps for at most a millisecond, as the thread that looks by itself. Returns whether another thread woke it.
    pub fn nap<H: Wait>(&self, rt: &H, number: usize) -> bool {
        let Some(place) = self.places.get(number) else {
            return true;
        };
        place
            .parker
            .park_timeout(rt, Duration::from_millis(NAP_MILLIS));
        !place.is_asleep.swap(false, Ordering::SeqCst)
    }

    /// The caller looks by itself no more.
    pub fn end_watch(&self) {
        self.is_watched.store(false, Ordering::SeqCst);
    }

    /// Whether one of the sleeping threads will look by itself.
    pub fn is_watched(&self) -> bool {
        self.is_watched.load(Ordering::SeqCst)
    }

    /// Wakes one sleeping thread, if there is one and none will look by itself.
    pub fn call_watch(&self) {
        if !self.is_watched() {
            self.wake(1);
        }
    }

    /// Wakes that many of the sleeping threads, or all if there are fewer.
    pub fn wake(&self, count: u64) {
        let mut left = count;
        for place in &self.places {
            if left == 0 {
                return;
            }
            if place.is_asleep.load(Ordering::SeqCst)
                && place.is_asleep.swap(false, Ordering::SeqCst)
            {
                place.parker.unpark();
                left -= 1;
            }
        }
    }
}
