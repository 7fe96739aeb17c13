//! Opening files.

ghost use Rattle.std.specs.Prelude.{◌≡◌, ◌+◌};
ghost use Rattle.table_files.specs.OpenEntry.{files_of};
ghost use Rattle.table_steps.specs.Ending.{HasEnded, HasFileRoom, MayOpen, MayOpenGiven, OpensAt, OpensGiven, OpensNode};
ghost use Rattle.table_steps.specs.Kept.{IsKept};
ghost use Rattle.tree.specs.Places.{at_in, IsAlive};

use crate::acts::Opens;
use crate::state::State;
use table_files::{Access, OpenFile};
use table_requests::Given;

impl State {
    /// Opens a file of the node under the next handle, notes the handle for the request, and returns it.
    pub(crate) fn open_file(&mut self, id: u64, number: u64, access: Access) -> u64
        requires kept { IsKept self.old }
        requires alive { IsAlive (at_in self.old.tree) number }
        requires room { HasFileRoom self.old }
        requires ended { HasEnded self.old id }
        ensures handle { result ≡ (files_of self.old.files).last + 1 }
        ensures opens { OpensAt self.old id number access self.new }
        ensures kept { IsKept self.new }
    {
        let Some(node) = self.tree.at(number) else {
            unreachable!();
        };
        let generation = node.generation;
        let handle = self.files.open(OpenFile {
            number,
            generation,
            access,
        });
        self.flights.note_file(id, handle);
        handle
    }

    /// Opens the file of the node, if one may be opened.
    pub(crate) fn open_node(&mut self, id: u64, opens: Opens) -> Option<u64>
        requires kept { IsKept self.old }
        requires may { MayOpen self.old id opens }
        ensures opens { OpensNode self.old id opens result self.new }
        ensures kept { IsKept self.new }
    {
        match opens {
            Opens::Node(number, access) => Some(self.open_file(id, number, access)),
            Opens::Nothing | Opens::Entry(_) => None,
        }
    }

    /// Opens a file of the node that was given, if one may be opened.
    pub(crate) fn open_given(
        &mut self,
        id: u64,
        opens: Opens,
        entered: Option<Given>,
    ) -> Option<u64>
        requires kept { IsKept self.old }
        requires may { MayOpenGiven self.old id opens entered }
        ensures opens { OpensGiven self.old id opens entered result self.new }
        ensures kept { IsKept self.new }
    {
        match opens {
            Opens::Entry(access) => {
                let Some(entry) = entered else {
                    return None;
                };
                Some(self.open_file(id, entry.number, access))
            }
            Opens::Nothing | Opens::Node(..) => None,
        }
    }
}
