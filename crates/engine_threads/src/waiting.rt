//! Ends that no session comes to: whoever comes to one waits forever, since there is nothing right to return.

ghost use Rattle.std.specs.Prelude.{◌≡◌};

use engine_turns::{Worker, wait_unless};
use std::sync::Wait;

/// Does not return if a queue has returned a reply to the worker. None does: the writer's end of the reply queue outlives all workers.
pub fn wait_if_returned<H: Wait>(rt: &H, worker: &Worker)
    ensures { worker.now.handed_back ≡ 0 }
{
    wait_unless(rt, worker.handed_back == 0);
}
