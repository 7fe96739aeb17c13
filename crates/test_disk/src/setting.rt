//! Permission bits, owners and times.

use crate::telling::{Item, Step, tell};
use std::test::Fail;

#[test]
fn what_is_open_is_set(rt: HostRuntime) -> Result<(), Fail> {
    const STEPS: &[Step] = &[
        Step::Put("a", Item::File("abc")),
        Step::Put("d", Item::Folder(0o755)),
        Step::Ask("open 0 a r", "open 1"),
        Step::Ask("mode 1 4751", "done"),
        Step::Ask("look 0 a", "file 3 4751"),
        Step::Ask("mode 0 100700", "done"),
        Step::Ask("inspect 0", "folder 0 700"),
        Step::Ask("times 1 1.5 -2.999999999", "done"),
        Step::Ask("when 0 a", "1.5 -2.999999999"),
        Step::Ask("times 1 - 7.0", "done"),
        Step::Ask("when 0 a", "1.5 7.0"),
        Step::Ask("times 1 8.0 -", "done"),
        Step::Ask("when 0 a", "8.0 7.0"),
        Step::Ask("times 1 - -", "done"),
        Step::Ask("times 1 1.1000000000 1.0", "failed 22"),
        Step::Ask("times 1 1.0 1.1073741823", "failed 22"),
        Step::Ask("when 0 a", "8.0 7.0"),
        Step::Ask("owner 1 - -", "done"),
        Step::Ask("look 0 a", "file 3 4751"),
        Step::Ask("owner 1 4294967295 -", "failed 22"),
        Step::Ask("owner 1 - 4294967295", "failed 22"),
        Step::Ask("dir 0 d", "open 2"),
        Step::Ask("mode 2 2755", "done"),
        Step::Ask("mkdir 2 sub 777", "done"),
        Step::Ask("look 2 sub", "folder 0 2777"),
        Step::Ask("mkdir 2 same 700", "done"),
        Step::Ask("look 2 same", "folder 0 2700"),
        Step::Ask("times 2 3.0 4.0", "done"),
        Step::Ask("when 0 d", "3.0 4.0"),
    ];
    tell(rt, "set", STEPS)
}

#[test]
fn what_has_a_name_is_set(rt: HostRuntime) -> Result<(), Fail> {
    const STEPS: &[Step] = &[
        Step::Put("a", Item::File("abc")),
        Step::Put("d", Item::Folder(0o777)),
        Step::Put("d/b", Item::File("b")),
        Step::Put("link", Item::Link("a")),
        Step::Ask("mode-at 0 a 600", "done"),
        Step::Ask("look 0 a", "file 3 600"),
        Step::Ask("dir 0 d", "open 1"),
        Step::Ask("mode-at 1 b 1600", "done"),
        Step::Ask("look 1 b", "file 1 1600"),
        Step::Ask("mode-at 1 none 600", "Absent"),
        Step::Ask("times-at 0 a 1.0 1.0", "failed 13"),
        Step::Ask("times-at 0 a - -", "done"),
        Step::Ask("owner-at 0 a - -", "done"),
        Step::Ask("owner-at 0 a 4294967295 -", "failed 22"),
        Step::Ask("owner-at 0 none 0 0", "Absent"),
    ];
    tell(rt, "named", STEPS)
}
