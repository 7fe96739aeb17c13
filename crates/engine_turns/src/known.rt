//! Turns of a worker whose directory has a known tree. No program calls them: workers serve folders of the system, whose tree no contract
//! knows. They say what the same body does where one is known.

ghost use Rattle.std.specs.Prelude.{◌≡◌, Option};
ghost use Rattle.crossbeam_channel.specs.Claims.{view};
ghost use Rattle.crossbeam_channel.specs.Ends.{sends_on, receives_on};
ghost use Rattle.table_steps.specs.Answers.{Settlement};
ghost use Rattle.engine.specs.Serving.{does};
ghost use Rattle.engine_turns.specs.TableCalls.{on_table_of};
ghost use Rattle.engine_turns.specs.Known.{WorkedKnown};
ghost use Rattle.engine_turns.specs.Turns.{means, outbox, standing};

use crate::table_handle::TableHandle;
use crate::working::{Turn, Worker};
use backing::KnownTree;
use engine::Served;
use handles::Folders;
use ledger::{Ledgers, Share};
use std::sync::Wait;
use table_shared::Opening;

impl Worker {
    /// A turn with a directory whose tree is known: each call of the directory is one on that tree, or on a device that
    /// fails, which is counted.
    pub fn turn_known<'a, H: Wait, T: Ledgers, O: Opening, C: KnownTree, D: Folders>(
        &mut self,
        table_handle: &mut TableHandle<'a, H, T, O>,
        share: &mut Share<T>,
        served: &mut Served<C, D>,
    ) -> Turn
        ensures queues { (receives_on self.new.jobs ≡ receives_on self.old.jobs) × (sends_on self.new.replies ≡ sends_on self.old.replies) × (self.new.number ≡ self.old.number) }
        ensures worked { (settled : Option Settlement) → result ≡ Turn.Worked settled → WorkedKnown (does C.gives D.keeps) C.limit C.tree C.faults self.old.session.settings self.old.number (standing (view self.old.job_pass) (outbox (view self.old.reply_pass) self.old.handed_back) (means served.old share.old (on_table_of table_handle.old.thread_log))) settled
            (standing (view self.new.job_pass) (outbox (view self.new.reply_pass) self.new.handed_back) (means served.new share.new (on_table_of table_handle.new.thread_log))) }
        ensures nothing { result ≡ Turn.Nothing → (view self.new.job_pass ≡ view self.old.job_pass) × (view self.new.reply_pass ≡ view self.old.reply_pass) × (self.new.handed_back ≡ self.old.handed_back) × (share.new ≡ share.old) × (served.new ≡ served.old) × (table_handle.new ≡ table_handle.old) }
        ensures settings { self.new.session.settings ≡ self.old.session.settings }
    {
        self.turn(table_handle, share, served)
    }
}
