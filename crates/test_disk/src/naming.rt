//! Further names of what stands at one.

use crate::telling::{Item, Step, tell_of};
use std::test::Fail;
use terms::Kinds;

/// What is written through the one name is read through the other, and stays when the one is removed.
#[test]
fn a_file_has_two_names(rt: HostRuntime) -> Result<(), Fail> {
    const STEPS: &[Step] = &[
        Step::Put("f", Item::File("here")),
        Step::Put("d", Item::Folder(0o755)),
        Step::Ask("dir 0 d", "open 1"),
        Step::Ask("same 0 f 0 f", "one of 1"),
        Step::Ask("name 0 f 1 g", "done"),
        Step::Ask("same 0 f 1 g", "one of 2"),
        Step::Ask("look 1 g", "file 4 644"),
        Step::Ask("open 0 f w", "open 2"),
        Step::Ask("write 2 0 over", "wrote 4"),
        Step::Ask("open 1 g r", "open 3"),
        Step::Ask("read 3 0", "4 [111, 118, 101, 114]"),
        Step::Ask("mode-at 1 g 600", "done"),
        Step::Ask("look 0 f", "file 4 600"),
        Step::Ask("name 1 g 1 h", "done"),
        Step::Ask("same 1 h 0 f", "one of 3"),
        Step::Ask("remove 0 f", "done"),
        Step::Ask("look 0 f", "Absent"),
        Step::Ask("same 1 h 1 g", "one of 2"),
        Step::Ask("name 1 g 0 f", "done"),
        Step::Ask("list 0", "names d f"),
        Step::Ask("list 1", "names g h"),
        Step::Ask("changes", "6"),
        // A file is not moved to another name of its own: nothing is done.
        Step::Ask("rename 1 g 1 h", "done"),
        Step::Ask("list 1", "names g h"),
        Step::Ask("same 1 g 0 f", "one of 3"),
    ];
    tell_of(rt, "two-names", Kinds::All, STEPS)
}

/// Nothing is replaced, and no folder has two names.
#[test]
fn what_gets_no_further_name(rt: HostRuntime) -> Result<(), Fail> {
    const STEPS: &[Step] = &[
        Step::Put("f", Item::File("here")),
        Step::Put("g", Item::File("there")),
        Step::Put("l", Item::Link("f")),
        Step::Put("out", Item::Link("OUT/f")),
        Step::Put("d", Item::Folder(0o755)),
        Step::Ask("dir 0 d", "open 1"),
        Step::Ask("name 0 f 0 g", "Exists"),
        Step::Ask("name 0 f 0 f", "Exists"),
        Step::Ask("name 0 f 0 d", "Exists"),
        Step::Ask("name 0 f 0 l", "Exists"),
        Step::Ask("name 0 f 0 out", "Exists"),
        Step::Ask("name 0 d 0 g", "Exists"),
        Step::Ask("name 0 none 0 g", "Absent"),
        Step::Ask("name 0 none 1 x", "Absent"),
        Step::Ask("name 0 d 0 e", "failed 1"),
        Step::Ask("name 0 d 1 d", "failed 1"),
        Step::Ask("list 0", "names d f g l out"),
        Step::Ask("list 1", "names"),
        Step::Ask("look 0 g", "file 5 644"),
        Step::Ask("same 0 f 0 f", "one of 1"),
    ];
    tell_of(rt, "one-name", Kinds::All, STEPS)
}

/// It is the link itself that has two names then, also one that leads out or nowhere.
#[test]
fn no_link_is_followed_to_a_further_name(rt: HostRuntime) -> Result<(), Fail> {
    const STEPS: &[Step] = &[
        Step::Put("f", Item::File("here")),
        Step::Put("l", Item::Link("f")),
        Step::Put("out", Item::Link("OUT/f")),
        Step::Put("lost", Item::Link("no/where")),
        Step::Put("s", Item::Socket),
        Step::Put("d", Item::Folder(0o777)),
        Step::Ask("dir 0 d", "open 1"),
        Step::Ask("name 0 l 1 l", "done"),
        Step::Ask("target 1 l", "to f"),
        Step::Ask("same 0 l 1 l", "one of 2"),
        Step::Ask("same 0 f 0 f", "one of 1"),
        Step::Ask("name 0 out 1 out", "done"),
        Step::Ask("same 0 out 1 out", "one of 2"),
        Step::Ask("open 1 out r", "failed 40"),
        Step::Ask("name 1 out 0 again", "done"),
        Step::Ask("same 0 out 0 again", "one of 3"),
        Step::Ask("name 0 lost 0 lost2", "done"),
        Step::Ask("target 0 lost2", "to no/where"),
        Step::Ask("name 0 s 1 s", "done"),
        Step::Ask("same 0 s 1 s", "one of 2"),
        Step::Ask("list 1", "names l out s"),
    ];
    tell_of(rt, "link-names", Kinds::All, STEPS)
}
