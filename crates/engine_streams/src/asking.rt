//! When a read polls for a while before it blocks.

/// How many reads in a row block at once after one that polled in vain. After each further one there are twice as many.
const PAUSE: u8 = 15;

/// The rule by which a read polls for a while before it blocks: being put to sleep and woken takes longer than most
/// clients take until their next request. A client that is slow, or shares the only processor, soon costs only one vain
/// attempt in 256 reads.
#[derive(Clone, Copy)]
pub(crate) struct Asking {
    /// How many more reads block at once.
    waiting: u8,
    /// How many will do so after the next one that polls in vain.
    pause: u8,
}

impl Asking {
    /// The first read polls.
    pub(crate) fn new() -> Asking {
        Asking {
            waiting: 0,
            pause: PAUSE,
        }
    }

    /// Whether the next read polls before it blocks.
    pub(crate) fn begins(&mut self) -> bool {
        if self.waiting == 0 {
            return true;
        }
        self.waiting -= 1;
        false
    }

    /// Something came while it polled. If it was already there, that does not show that polling pays.
    pub(crate) fn came(&mut self, at_once: bool) {
        if !at_once {
            self.pause = PAUSE;
        }
    }

    /// It polled in vain.
    pub(crate) fn in_vain(&mut self) {
        self.waiting = self.pause;
        self.pause = self.pause.saturating_mul(2);
    }
}
