//! Planned failures of a memory tree's calls.

ghost use Rattle.std.specs.Prelude.{◌≡◌, ◌∷◌, OnOk, OnErr};
ghost use Rattle.backing.specs.Memory.{planned_at, treated_as, next_device};

use std::alloc::AllocError;

/// How a call fails, and with which error number.
#[derive(Clone, Copy, Debug, PartialEq, Eq)]
pub enum PlannedFault {
    /// It fails before its work.
    Before(i32),
    /// It fails after its work, unless the tree refuses the call.
    After(i32),
}

/// A failure of one call. Calls are counted from 1.
#[derive(Clone, Copy)]
pub struct Plan {
    pub call: u64,
    pub fault: PlannedFault,
}

/// The failure planned for that call. If there are two plans for it, the first one counts.
pub fn planned(plans: &[Plan], call: u64) -> Option<PlannedFault>
    ensures { treated_as result ≡ planned_at plans.now call }
{
    for plan in plans {
        if plan.call == call {
            return Some(plan.fault);
        }
    }
    None
}

/// Adds a plan before all others, so that it replaces an earlier one for the same call.
pub fn add_plan(plans: &mut Vec<Plan>, plan: Plan) -> Result<(), AllocError>
    ensures ok { OnOk result (plans.new.items ≡ plan ∷ plans.old.items) }
    ensures err { OnErr result (plans.new.items ≡ plans.old.items) }
{
    plans.insert(0, plan)?;
    Ok(())
}

/// The failure planned for the call that follows `made` calls.
pub fn next_fault(plans: &[Plan], made: u64) -> Option<PlannedFault>
    ensures { treated_as result ≡ next_device plans.now made }
{
    match made.checked_add(1) {
        Some(call) => planned(plans, call),
        None => None,
    }
}
