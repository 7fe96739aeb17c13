//! Closing files.

ghost use Rattle.table_files.specs.OpenEntry.{files_of};
ghost use Rattle.table_steps.specs.Beginning.{ClosesFile};
ghost use Rattle.table_steps.specs.Keeping.{kept_by};
ghost use Rattle.table_steps.specs.Kept.{IsKept, world_of};
ghost use Rattle.table_steps.specs.Sweeping.{IsClosed, IsPruned, IsSameRest};
ghost use Rattle.table_steps.specs.Swept.{IsSwept};
ghost use Rattle.tree.specs.Places.{at_in};

use crate::state::State;
use crate::sweep::sweep;
use table_files::Files;
use table_requests::RequestsInFlight;
use tree::Tree;

/// Closes the file, if it is still open, and drops its node if nothing keeps it alive any more, then its parent, and so
/// on.
pub(crate) fn close(
    tree: &mut Tree,
    flights: &RequestsInFlight,
    files: &mut Files,
    handle: Option<u64>,
    pins: &[u64],
)
    requires { IsPruned (at_in tree.old) (kept_by flights.now files.old) pins.now }
    ensures pruned { IsPruned (at_in tree.new) (kept_by flights.now files.new) pins.now }
    ensures swept { IsSwept (kept_by flights.now files.new) (at_in tree.old) (at_in tree.new) }
    ensures rest { IsSameRest tree.old tree.new }
    ensures closed { IsClosed (files_of files.old) handle (files_of files.new) }
{
    let _law = files.len(); // proof: its law
    let Some(handle) = handle else {
        return;
    };
    let Some(file) = files.close(handle) else {
        return;
    };
    sweep(tree, flights, files, file.number, pins);
}

impl State {
    /// Closes the file under the handle, if there is one, and drops what nothing keeps alive any more.
    pub(crate) fn close_file(&mut self, handle: Option<u64>)
        requires kept { IsKept self.old }
        ensures closes { ClosesFile (world_of self.old) handle (world_of self.new) }
        ensures kept { IsKept self.new }
    {
        match handle {
            Some(handle) => {
                close(
                    &mut self.tree,
                    &self.flights,
                    &mut self.files,
                    Some(handle),
                    &[],
                );
            }
            None => {}
        }
    }
}
