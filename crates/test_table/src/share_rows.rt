//! What each worker posted, and the sum.

use crate::story::Told::{Amount, Given};
use crate::story::{DEFAULT, ROOT, Step, Story, Sum};
use crate::teller::run;
use std::test::Fail;

/// The first worker looks a name up twice, and the second forgets one of the entries.
const BOTH: Story = Story {
    limits: DEFAULT,
    steps: &[
        Step::LookUp(ROOT, "a", Given(2, 0)),
        Step::LookUp(ROOT, "a", Given(2, 0)),
        Step::Worker(1),
        Step::Forget(2, 1, Amount(1)),
        Step::Share(0, Sum::All(1, 2, 0, 0)),
        Step::Share(1, Sum::All(0, 0, 0, 1)),
    ],
    gathers: Sum::All(1, 2, 0, 1),
};

/// The same, but then the second worker gives up its share.
const FIRST_ALONE: Story = Story {
    limits: DEFAULT,
    steps: &[
        Step::LookUp(ROOT, "a", Given(2, 0)),
        Step::LookUp(ROOT, "a", Given(2, 0)),
        Step::Worker(1),
        Step::Forget(2, 1, Amount(1)),
        Step::Worker(0),
        Step::LeaveShare,
    ],
    gathers: Sum::ShareMissing,
};

#[test]
fn two_shares(rt: HostRuntime) -> Result<(), Fail> {
    for story in [&BOTH, &FIRST_ALONE] {
        run(&rt, story)?;
    }
    Ok(())
}
