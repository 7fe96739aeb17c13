//! A memory tree whose calls fail where that is planned, or at its limit.

use crate::asked::{Asked, expect, expect_count};
use crate::sample_trees::sample_tree;
use backing::{MemTree, PlannedFault};
use std::alloc::Global;
use std::test::Fail;

/// A step with a memory tree that starts as the sample.
#[derive(Clone, Copy)]
enum Step<'a> {
    /// That call is to fail like this.
    Plan(u64, PlannedFault),
    /// A call, and its answer.
    Ask(&'a str, &'a str),
    /// That many of the calls so far have failed.
    Failed(u64),
}

fn take(alloc: Global, tree: &mut MemTree, step: Step) -> Result<(), Fail> {
    match step {
        Step::Plan(call, fault) => {
            tree.fail_at(call, fault)?;
            Ok(())
        }
        Step::Ask(words, wanted) => expect(alloc, tree, words, wanted),
        Step::Failed(count) => expect_count(tree.failed(), count),
    }
}

/// Takes each step, starting from the sample.
fn tell(alloc: Global, steps: &[Step]) -> Result<(), Fail> {
    let mut tree = sample_tree(alloc)?;
    for step in steps {
        take(alloc, &mut tree, *step)?;
    }
    Ok(())
}

#[test]
fn a_call_fails_after_its_work(rt: HostRuntime) -> Result<(), Fail> {
    const STEPS: &[Step] = &[
        Step::Plan(2, PlannedFault::After(5)),
        Step::Ask("mkdir m", "done"),
        Step::Ask("mkdir n", "fault 5"),
        Step::Ask("stat n", "folder 0"),
        Step::Failed(1),
    ];
    tell(rt.alloc(), STEPS)
}

#[test]
fn a_call_fails_before_its_work(rt: HostRuntime) -> Result<(), Fail> {
    const STEPS: &[Step] = &[
        Step::Plan(0, PlannedFault::Before(1)),
        Step::Plan(1, PlannedFault::After(30)),
        Step::Plan(1, PlannedFault::Before(28)),
        Step::Plan(3, PlannedFault::After(28)),
        Step::Ask("mkdir n", "fault 28"),
        Step::Ask("stat n", "fault 2"),
        Step::Ask("mkdir a", "fault 28"),
        Step::Ask("stat a", "file 3"),
        Step::Plan(4, PlannedFault::Before(1)),
        Step::Ask("stat a", "file 3"),
        Step::Failed(2),
    ];
    tell(rt.alloc(), STEPS)
}

#[test]
fn a_file_ends_at_its_limit(rt: HostRuntime) -> Result<(), Fail> {
    const STEPS: &[Step] = &[
        Step::Ask("write a 1048575 x", "wrote 1"),
        Step::Ask("write a 1048576 x", "fault 27"),
        Step::Ask("stat a", "file 1048576"),
        Step::Ask("write a 18446744073709551615 x", "fault 27"),
        Step::Ask("setlen a 1048577", "fault 27"),
        Step::Ask("setlen a 1048576", "done"),
        Step::Ask("setlen a 0", "done"),
        Step::Ask("stat a", "file 0"),
    ];
    tell(rt.alloc(), STEPS)
}
