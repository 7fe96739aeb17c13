//! Handling one job.

ghost use Rattle.std.specs.Prelude.{◌≡◌};
ghost use Rattle.engine.specs.Serving.{does};
ghost use Rattle.engine_turns.specs.TableCalls.{on_table_of, turn_end_of};
ghost use Rattle.engine_turns.specs.ReplyBuffers.{bytes_in};
ghost use Rattle.engine_turns.specs.Turns.{MeetsJob, means};

use crate::job::Job;
use crate::reply_buffer::ReplyBuffer;
use crate::spare_buffers::SpareBuffers;
use crate::table_handle::{TableHandle, TurnResult};
use backing::Calls;
use engine::{ReplyBytes, Served, Session};
use handles::Folders;
use ledger::{Ledgers, Share};
use std::sync::Wait;
use table_shared::Opening;

/// Handles a job by the rules of a session. Returns the reply, and what happened in the table.
pub(crate) fn meet_job<'a, H: Wait, T: Ledgers, O: Opening, C: Calls, D: Folders>(
    session: &mut Session,
    spares: &mut SpareBuffers,
    table_handle: &mut TableHandle<'a, H, T, O>,
    share: &mut Share<T>,
    served: &mut Served<C, D>,
    job: &Job,
) -> (Option<ReplyBytes>, TurnResult)
    ensures meets { MeetsJob (does C.gives D.keeps) session.old.settings job.now (means served.old share.old (on_table_of table_handle.old.thread_log)) (record { said = bytes_in result.0; turn_end = turn_end_of result.1 }) (means served.new share.new (on_table_of table_handle.new.thread_log)) }
    ensures settings { session.new.settings ≡ session.old.settings }
{
    session.agreed = job.agreed;
    let mut reply_buffer = ReplyBuffer::new(session.alloc, spares.take());
    let _ = table_handle.take_end();
    session.handle_frame(
        table_handle.table_lock.rt,
        &mut reply_buffer,
        served,
        table_handle,
        share,
        job.classed_frame(),
    );
    let (said, spare) = reply_buffer.into_parts();
    spares.give(spare);
    (said, table_handle.take_end())
}
