//! Which looks are left out where all kinds are shown, and that the answers are the same.

use crate::telling::{Item, Step, tell_all};
use crate::watch::Trick;
use disk::DiskError;
use errno::EACCES;
use std::test::Fail;

#[test]
fn what_is_done_needs_no_look(rt: HostRuntime) -> Result<(), Fail> {
    const STEPS: &[Step] = &[
        Step::Ask("mkdir d/x", "done"),
        Step::Ask("make d/x/f 600", "done"),
        Step::Ask("make d/x/g 600", "done"),
        Step::Ask("write d/x/f 0 one", "wrote 3"),
        Step::Costs("rename d/x/f d/x/h", "done", "rename"),
        Step::Costs("read d/x/h 0 3", "bytes 6f6e65", "read"),
        Step::Costs("rename-new d/x/g d/x/f", "done", "look rename"),
        Step::Costs("rename d/x/h d/x/f", "done", "rename"),
        Step::Costs("read d/x/f 0 3", "bytes 6f6e65", "read"),
        Step::Costs("stat d/x/h", "fault 2", "look"),
        Step::Costs("remove d/x/f", "done", "unlink"),
        Step::Costs("stat d/x/f", "fault 2", "look"),
        Step::Ask("link d/x/l a", "done"),
        Step::Costs("rename d/x/l d/x/m", "done", "rename"),
        Step::Costs("remove d/x/m", "done", "unlink"),
        Step::Ask("make d/x/f 600", "done"),
        Step::Ask("write d/x/f 0 two", "wrote 3"),
        // What is kept open below a folder moves with it.
        Step::Costs("rename d/x d/w", "done", "rename"),
        Step::Costs("read d/w/f 0 3", "bytes 74776f", "read"),
        Step::Costs("stat d/x/f", "fault 2", "open-dir"),
        Step::Costs("remove d/w/f", "done", "unlink"),
        Step::Costs("rmdir d/w", "done", "rmdir"),
        Step::Failed(0),
    ];
    tell_all(rt, "unseen", STEPS)
}

/// A removal that fails has told why, and a move that fails looks why.
#[test]
fn what_is_not_done_is_told_as_behind_looks(rt: HostRuntime) -> Result<(), Fail> {
    const STEPS: &[Step] = &[
        Step::Put("s", Item::Socket),
        Step::Ask("mkdir q", "done"),
        Step::Ask("make d/f", "done"),
        Step::Costs("remove zz", "fault 2", "unlink"),
        Step::Costs("remove q", "fault 21", "unlink"),
        Step::Costs("remove a/x", "fault 20", "open-dir look"),
        Step::Costs("rename zz a", "fault 2", "rename look"),
        Step::Costs("rename a q", "fault 21", "rename look rename"),
        Step::Costs("rename q a", "fault 20", "rename look rename"),
        Step::Costs("rename s q", "fault 21", "rename look rename"),
        Step::Both("rename q d", "fault 39"),
        Step::Costs("rename a a", "done", "look"),
        Step::Costs("rename zz zz", "fault 2", "look"),
        Step::Costs("rename a a/x", "fault 22", "look"),
        Step::Costs("rename zz zz/x", "fault 2", "look"),
        Step::Both("rename d/f d", "fault 39"),
        Step::Both("rename zz no/x", "fault 2"),
        Step::Both("rename a no/x", "fault 2"),
        Step::Both("rename a e/x", "fault 20"),
        Step::Costs("rename-new a e", "fault 17", "look look look"),
        Step::Costs("rename-new zz e", "fault 2", "look look"),
        Step::Costs("rename-new zz yy", "fault 2", "look rename look"),
        Step::Costs("rename-new a a", "fault 17", "look"),
        Step::Both("rename-new a no/x", "fault 2"),
        Step::Both("stat a", "file 3"),
        Step::Both("list .", "names a d/ e q/ s="),
        Step::Failed(0),
    ];
    tell_all(rt, "unmoved", STEPS)
}

/// Where the system failed, nothing is asked for again.
#[test]
fn a_failure_is_told_at_once(rt: HostRuntime) -> Result<(), Fail> {
    const STEPS: &[Step] = &[
        Step::Ask("read a 0 3", "bytes 616263"),
        Step::Play(Trick::Rename(DiskError::Failed(EACCES))),
        Step::Costs("rename a b", "fault 13", "rename"),
        Step::Failed(1),
        Step::Costs("rename-new a b", "fault 13", "look rename"),
        Step::Failed(2),
        Step::Play(Trick::Rename(DiskError::Absent)),
        Step::Costs("rename a b", "fault 2", "rename look rename"),
        Step::Failed(3),
        Step::Play(Trick::Nothing),
        Step::Costs("read a 0 3", "bytes 616263", "look open inspect read"),
        Step::Failed(3),
    ];
    tell_all(rt, "failed", STEPS)
}
