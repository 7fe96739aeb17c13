//! What others change is noticed where a look is trusted no longer, and not before.

use crate::telling::{Item, Step, TRUSTED, tell};
use std::test::Fail;

#[test]
fn a_folder_is_trusted_for_a_second(rt: HostRuntime) -> Result<(), Fail> {
    const STEPS: &[Step] = &[
        Step::Put("d/x", Item::Folder),
        Step::Put("d/x/f", Item::File("one")),
        Step::Both("stat d/x/f", "file 3"),
        Step::Put("away", Item::Moved("d/x")),
        Step::Put("d/x", Item::Folder),
        Step::Pass(TRUSTED),
        Step::Costs("stat d/x/f", "file 3", "look"),
        Step::Ask("make d/x/g", "done"),
        Step::Both("stat away/g", "file 0"),
        Step::Ask("rename d/x/f d/x/h", "done"),
        Step::Both("list away", "names g h"),
        Step::Pass(1),
        Step::Both("stat d/x/h", "fault 2"),
        Step::Both("list d/x", "names"),
        Step::Both("list away", "names g h"),
        Step::Failed(0),
    ];
    tell(rt, "trusted", STEPS)
}

/// A look that shows the same folder is trusted for a second more.
#[test]
fn a_folder_is_looked_at_each_second(rt: HostRuntime) -> Result<(), Fail> {
    const STEPS: &[Step] = &[
        Step::Put("d/x", Item::Folder),
        Step::Put("d/x/f", Item::File("one")),
        Step::Ask("stat d/x/f", "file 3"),
        Step::Costs("stat d/x/f", "file 3", "look"),
        Step::Later,
        Step::Costs("stat d/x/f", "file 3", "look look look"),
        Step::Costs("stat d/x/f", "file 3", "look"),
        Step::Pass(TRUSTED),
        Step::Costs("stat d/x/f", "file 3", "look"),
        Step::Pass(1),
        Step::Costs("stat d/x", "folder 0", "look look"),
        Step::Costs("stat d/x/f", "file 3", "look"),
        Step::Failed(0),
    ];
    tell(rt, "each-second", STEPS)
}

/// A name in a folder that is open is looked at each time.
#[test]
fn what_others_change_in_a_folder_is_noticed_at_once(rt: HostRuntime) -> Result<(), Fail> {
    const STEPS: &[Step] = &[
        Step::Put("d/f", Item::File("one")),
        Step::Ask("stat d/f", "file 3"),
        Step::Put("d/f", Item::File("longer")),
        Step::Ask("stat d/f", "file 6"),
        Step::Put("d/g", Item::Moved("d/f")),
        Step::Ask("stat d/f", "fault 2"),
        Step::Ask("stat d/g", "file 6"),
        Step::Put("d/g", Item::Bits(0o600)),
        Step::Ask("mode d/g", "600"),
        Step::Put("d/g", Item::Nothing),
        Step::Ask("stat d/g", "fault 2"),
        Step::Ask("make d/g", "done"),
        Step::Failed(0),
    ];
    tell(rt, "at-once", STEPS)
}

/// A tenth of a second, while the folder's own calls change nothing.
#[test]
fn what_a_list_saw_is_told_for_a_while(rt: HostRuntime) -> Result<(), Fail> {
    const STEPS: &[Step] = &[
        Step::Put("d/f", Item::File("one")),
        Step::Put("d/g", Item::File("gone")),
        Step::Costs(
            "list d",
            "names f g",
            "open-dir inspect rewind names names look look",
        ),
        Step::Put("d/f", Item::File("longer")),
        Step::Put("d/g", Item::Nothing),
        Step::Put("d/h", Item::File("h")),
        Step::Pass(100),
        Step::Costs("stat d/f", "file 3", ""),
        Step::Costs("stat d/g", "file 4", ""),
        Step::Costs("stat d/h", "file 1", "look"),
        Step::Costs("stat d", "folder 0", "look"),
        Step::Pass(1),
        Step::Costs("stat d/f", "file 6", "look"),
        Step::Costs("stat d/g", "fault 2", "look"),
        Step::Ask("list d", "names f h"),
        Step::Costs("stat d/f", "file 6", ""),
        Step::Ask("read d/f 0 9", "bytes 6c6f6e676572"),
        Step::Costs("stat d/f", "file 6", ""),
        Step::Ask("write d/h 1 i", "wrote 1"),
        Step::Costs("stat d/h", "file 2", "look"),
        Step::Ask("list d", "names f h"),
        Step::Ask("list .", "names a d/ e"),
        Step::Costs("stat d/f", "file 6", "look"),
        Step::Costs("stat a", "file 3", ""),
        Step::Ask("remove a", "done"),
        Step::Costs("stat a", "fault 2", "look"),
        Step::Failed(0),
    ];
    tell(rt, "listed", STEPS)
}
