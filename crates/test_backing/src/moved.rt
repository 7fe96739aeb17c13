//! What a real folder has moved, while others change it.

use crate::telling::{Item, Step, tell};
use std::test::Fail;

#[test]
fn what_stands_where_a_file_was_moved_is_moved_again(rt: HostRuntime) -> Result<(), Fail> {
    const STEPS: &[Step] = &[
        Step::Put("d/f", Item::File("one")),
        Step::Both("stat d/f", "file 3"),
        Step::Ask("rename d/f d/g", "done"),
        Step::Both("stat d/f", "fault 2"),
        Step::Both("stat d/g", "file 3"),
        Step::Ask("rename d/g d/f", "done"),
        Step::Both("rename d/g d/f", "fault 2"),
        Step::Put("old", Item::Moved("d/f")),
        Step::Put("d/f", Item::File("four")),
        Step::Ask("rename d/f d/g", "done"),
        Step::Both("read d/g 0 9", "bytes 666f7572"),
        Step::Same("d/g"),
        Step::Put("older", Item::Moved("d/g")),
        Step::Put("d/g", Item::Link("../older")),
        Step::Both("rename d/g d/f", "fault 2"),
        Step::Both("rename-new d/g d/f", "fault 2"),
        Step::Put("d/f", Item::Folder),
        Step::Put("d/f/x", Item::File("x")),
        Step::Ask("rename d/f d/h", "done"),
        Step::Both("stat d/h/x", "file 1"),
        Step::Both("stat d/f/x", "fault 2"),
        Step::Failed(0),
    ];
    tell(rt, "moved-again", STEPS)
}

#[test]
fn what_others_put_where_a_file_is_to_go_is_noticed(rt: HostRuntime) -> Result<(), Fail> {
    const STEPS: &[Step] = &[
        Step::Put("d/f", Item::File("one")),
        Step::Both("stat d/f", "file 3"),
        Step::Ask("rename-new d/f d/g", "done"),
        Step::Put("d/f", Item::File("two")),
        Step::Both("rename-new d/g d/f", "fault 17"),
        Step::Ask("rename d/g d/f", "done"),
        Step::Both("read d/f 0 9", "bytes 6f6e65"),
        Step::Put("d/g", Item::Folder),
        Step::Both("rename d/f d/g", "fault 21"),
        Step::Put("d/x", Item::Folder),
        Step::Both("rename d/x d/f", "fault 20"),
        Step::Put("d/x/y", Item::File("y")),
        Step::Both("rename d/g d/x", "fault 39"),
        Step::Failed(0),
        Step::Put("d/l", Item::Link("../a")),
        Step::Ask("rename d/f d/l", "fault 17"),
        Step::Failed(1),
    ];
    tell(rt, "put-where-moved", STEPS)
}

#[test]
fn a_file_is_moved_in_the_folder_that_stands_there_now(rt: HostRuntime) -> Result<(), Fail> {
    const STEPS: &[Step] = &[
        Step::Put("d/x", Item::Folder),
        Step::Put("d/x/f", Item::File("one")),
        Step::Both("stat d/x/f", "file 3"),
        Step::Put("away", Item::Moved("d/x")),
        Step::Later,
        Step::Both("rename d/x/f d/x/g", "fault 2"),
        Step::Put("d/x", Item::Folder),
        Step::Both("rename d/x/f d/x/g", "fault 2"),
        Step::Put("d/x/f", Item::File("two")),
        Step::Ask("rename d/x/f d/x/g", "done"),
        Step::Both("read d/x/g 0 9", "bytes 74776f"),
        Step::Both("read away/f 0 9", "bytes 6f6e65"),
        Step::Ask("rename d y", "done"),
        Step::Both("rename d/x/g d/x/f", "fault 2"),
        Step::Ask("rename y/x/g y/x/f", "done"),
        Step::Both("stat y/x/g", "fault 2"),
        Step::Both("stat y/x/f", "file 3"),
        Step::Failed(0),
    ];
    tell(rt, "moved-within", STEPS)
}
