//! Settling an answer that was left to the writer.

ghost use Rattle.std.specs.Prelude.{◌≡◌};
ghost use Rattle.engine_turns.specs.TableCalls.{on_table_of};
ghost use Rattle.engine_turns.specs.Turns.{ByBoth, IsEnded, ending};

use crate::table_lock::TableLock;
use engine::give_up;
use engine_queues::Left;
use handles::Folders;
use ledger::{Ledgers, Share};
use shared_history::ThreadLog;
use std::sync::Wait;
use table::Settled;
use table_shared::{LogEntry, Opening, Runs};

/// Settles the answer. If a listing was stored for it and its reply was not taken, the listing's handle is closed.
pub(crate) fn settle_left<H: Wait, T: Ledgers, O: Opening, D: Folders>(
    table_lock: &TableLock<'_, H, T, O>,
    thread_log: &mut ThreadLog<LogEntry<T>, Runs<O>>,
    share: &mut Share<T>,
    dirs: &mut D,
    left: Option<Left>,
    taken: bool,
) -> Option<Settled>
    ensures ends { ByBoth D.keeps dirs.old (on_table_of thread_log.old) dirs.new (on_table_of thread_log.new) (λ folders calls. IsEnded left taken (ending result folders calls)) }
    ensures entries { share.new.totals.entries ≡ share.old.totals.entries }
    ensures index { share.new.index ≡ share.old.index }
{
    let Some(left) = left else {
        return None;
    };
    let (answered, put) = left.into_parts();
    let settled = table_lock
        .shared_table
        .settle(table_lock.rt, thread_log, share, answered, taken);
    give_up(dirs, put, taken);
    Some(settled)
}
