//! The turns that a thread looks for: first replies that are ready, then jobs, and last a receive.

ghost use Rattle.std.specs.Prelude.{◌≡◌};
ghost use Rattle.crossbeam_channel.specs.Ends.{sends_on, receives_on};
ghost use Rattle.engine_turns.specs.TableCalls.{on_table_of};
ghost use Rattle.engine_threads.specs.Worked.{does_shared, stand_of, WorksOn};

use crate::session_state::Common;
use crate::waiting::wait_if_returned;
use backing::Calls;
use engine::{LinkIn, LinkOut, Served};
use engine_turns::{
    BATCH, Sink, Source, SpareBuffers, TableHandle, ThreadShare, Turn, Worker, WriterRole,
};
use handles::Dirs;
use ledger::Ledgers;
use std::sync::atomic::Ordering;
use std::sync::{MutexGuard, Wait};
use table_shared::{Opening, SharedTable};

/// How many jobs a thread works on before it must make sure that none of their replies is still waiting. They are then
/// offered together. Four threads leave no more replies than their queue has room for, so no thread waits for room
/// there: if all threads did, none would be left to offer replies.
pub const JOINED: usize = 8;

/// How a thread goes through its turns.
#[derive(Drop)]
pub struct Pace {
    /// How many jobs it has worked on since it had the writer.
    pub left: usize,
    /// Whether it will sleep after it has offered what is ready.
    pub is_leaving: bool,
}

impl Pace {
    pub fn new() -> Pace {
        Pace {
            left: 0,
            is_leaving: false,
        }
    }

    /// At how many jobs since it had the writer it takes no more.
    fn most(&self) -> usize {
        if self.is_leaving { 0 } else { JOINED }
    }
}

/// Locks the writer. A thread that must offer waits for the lock; others get it only if it is free.
fn writer_of<
    'a,
    H: Wait + Drop,
    T: Ledgers,
    N: Opening,
    I: LinkIn + Drop,
    O: LinkOut + Drop,
    S: Source<I> + Sink<O>,
>(
    common: &'a Common<H, T, N, I, O, S>,
    has_to: bool,
) -> Option<MutexGuard<'a, WriterRole<T, N, O, S>>> {
    if has_to {
        Some(common.writer.lock(&common.rt))
    } else {
        common.writer.try_lock()
    }
}

/// Offers what is queued, until nothing is left. Returns whether there was anything.
pub fn offer_queued<H: Wait, T: Ledgers, N: Opening, O: LinkOut + Drop, S: Sink<O>>(
    rt: &H,
    shared_table: &SharedTable<T, N>,
    dirs: &Dirs,
    writer: &mut WriterRole<T, N, O, S>,
    spares: &mut SpareBuffers,
) -> bool {
    let mut dirs = dirs;
    let mut is_any = false;
    for _ in rt.forever() {
        let count = writer.turn(rt, shared_table, &mut dirs, spares);
        is_any = is_any || count > 0;
        if count < BATCH {
            break;
        }
    }
    is_any
}

/// Offers the replies that are ready, unless another thread does; a thread that has left as many as it may waits for
/// that one. Returns whether it offered any. After a thread has had the writer, none of the replies that it left before
/// is still waiting.
fn offer<
    H: Wait + Drop,
    T: Ledgers,
    N: Opening,
    I: LinkIn + Drop,
    O: LinkOut + Drop,
    S: Source<I> + Sink<O>,
>(common: &Common<H, T, N, I, O, S>, spares: &mut SpareBuffers, pace: &mut Pace) -> bool {
    let signs = &common.signs;
    let has_to = pace.left >= JOINED;
    if !has_to && !signs.is_ready.load(Ordering::SeqCst) {
        return false;
    }
    let Some(mut writer) = writer_of(common, has_to) else {
        // The thread that has the writer checks the flag again after it has released the lock.
        return false;
    };
    // This comes before the queue is read: whatever is put later sets the flag again.
    signs.is_ready.store(false, Ordering::SeqCst);
    let is_any = offer_queued(
        &common.rt,
        &common.shared_table,
        &common.dirs,
        &mut *writer,
        spares,
    );
    if writer.writer.is_broken {
        signs.is_broken.store(true, Ordering::SeqCst);
    }
    pace.left = 0;
    is_any
}

/// Makes one receive, unless another thread does, and wakes others for what came. Returns whether it was made.
fn read<
    H: Wait + Drop,
    T: Ledgers,
    N: Opening,
    I: LinkIn + Drop,
    O: LinkOut + Drop,
    S: Source<I> + Sink<O>,
>(common: &Common<H, T, N, I, O, S>, number: usize, spares: &mut SpareBuffers) -> bool {
    // This is asked first, since trying the lock again and again would slow down the thread that has it.
    if common.signs.is_over() || common.signs.is_reading.load(Ordering::SeqCst) {
        return false;
    }
    let Some(mut reader) = common.reader.try_lock() else {
        return false;
    };
    common.signs.is_reading.store(true, Ordering::SeqCst);
    // A receive may take long, and a thread that is receiving must not be woken.
    common.sleepers.get_up(number);
    let before = reader.reader.next;
    // Nothing is read after the writer saw the link break, so a session whose client reads no more ends at the next
    // receive.
    let is_broken = common.signs.is_broken.load(Ordering::SeqCst);
    if !is_broken {
        reader.turn(&common.rt, spares);
    }
    let queued = reader.reader.next.saturating_sub(before);
    let was_waiting = reader.link.was_waiting();
    let has_ended = is_broken || reader.end.is_some();
    common.signs.tell_backlog(was_waiting);
    common.signs.is_reading.store(false, Ordering::SeqCst);
    drop(reader);
    if was_waiting && common.signs.has_backlog() {
        // While this thread works, nobody receives what may still be waiting there.
        common.sleepers.wake(1);
    }
    tell_read(common, queued, has_ended);
    true
}

/// Wakes the threads that may have something to do after a receive: all of them if the session has ended; if jobs take
/// long, one for each job that this thread cannot begin at once; and one if something came and no thread would look by
/// itself. Short jobs are handled by the thread that read them, without a wake-up; if one takes long, the watching thread
/// takes over within a millisecond.
fn tell_read<
    H: Drop,
    T: Ledgers,
    N: Opening,
    I: LinkIn + Drop,
    O: LinkOut + Drop,
    S: Source<I> + Sink<O>,
>(common: &Common<H, T, N, I, O, S>, queued: u64, has_ended: bool) {
    if has_ended {
        common.signs.tell_over();
        common.sleepers.wake(u64::MAX);
        return;
    }
    common.signs.tell_received(queued);
    if common.signs.is_slow() {
        common.sleepers.wake(common.signs.wanted_for(queued));
    }
    if queued > 0 {
        common.sleepers.call_watch();
    }
}

/// Offers what is ready, and works on some of the queued jobs, or, where nothing was ready or queued, makes one receive. Returns whether
/// there was something to do. A thread that is leaving offers what is ready, and no more.
pub fn take_turns<
    'a,
    H: Wait + Drop,
    T: Ledgers,
    N: Opening,
    I: LinkIn + Drop,
    O: LinkOut + Drop,
    C: Calls + Drop,
    S: Source<I> + Sink<O>,
>(
    common: &Common<H, T, N, I, O, S>,
    worker: &mut Worker,
    table_handle: &mut TableHandle<'a, H, T, N>,
    kept: &mut ThreadShare<T>,
    served: &mut Served<C, &Dirs>,
    pace: &mut Pace,
) -> bool
    requires none_back { worker.old.handed_back ≡ 0 }
    ensures queues { (receives_on worker.new.jobs ≡ receives_on worker.old.jobs) × (sends_on worker.new.replies ≡ sends_on worker.old.replies) × (worker.new.number ≡ worker.old.number) }
    ensures settings { worker.new.session.settings ≡ worker.old.session.settings }
    ensures none_back { worker.new.handed_back ≡ 0 }
    ensures worked { WorksOn (does_shared C.gives) worker.old.session.settings worker.old.number (stand_of worker.old served.old.calls kept.old.share (on_table_of table_handle.old.thread_log)) (stand_of worker.new served.new.calls kept.new.share (on_table_of table_handle.new.thread_log)) }
{
    let mut is_busy = offer(common, &mut worker.spare_replies, pace);
    for _ in pace.left..pace.most() {
        // Asking the queue in vain costs more. A thread that has queued a job and not counted it yet works on it itself.
        if !common.signs.is_busy() {
            break;
        }
        match worker.turn(table_handle, &mut kept.share, served) {
            Turn::Worked(_settled) => {
                wait_if_returned(&common.rt, worker);
                common.signs.tell_worked();
                pace.left = pace.left.saturating_add(1);
                is_busy = true;
            }
            Turn::Nothing => break,
        }
    }
    is_busy || pace.is_leaving || read(common, worker.number as usize, &mut worker.spare_frames)
}
