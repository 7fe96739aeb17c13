//! Lists of calls with their results.

ghost use Rattle.std.specs.Prelude.{ℕ, ◌≡◌, ◌+◌, ◌++◌, List, OnOk, OnErr, IfOk, length, drop, take};
ghost use Rattle.ledger.specs.Sums.{totals_over};
ghost use Rattle.table.specs.Gains.{GainsInAll};
ghost use Rattle.table_steps.specs.Answers.{Answer};
ghost use Rattle.table_steps.specs.Kept.{world_of};
ghost use Rattle.table_steps.specs.World.{IsLawfulWorld};
ghost use Rattle.laws.specs.declared.table_runs.calls.TableCall.TheVariants as TableCall;
ghost use Rattle.laws.specs.Outstanding.{Outstanding};
ghost use Rattle.laws.specs.Runs.{ChangesNothing, IsCurrentAt, IsStep, Runs};

use crate::table_runs::pending::{Pending, Started, copy_of};
use ledger::{Ledgers, Share};
use std::alloc::AllocError;
use table::{Answered, Begin, Outcome, Settled, Table, Want};

/// One call. A ticket or an answer is given by its index among those pending.
#[derive(Drop)]
pub enum TableCall {
    /// Begins a request.
    Begin { unique: u64, want: Want },
    /// Ends the work on the request of a ticket.
    Finish { place: usize, outcome: Outcome },
    /// Ends the request of an answer.
    Settle { place: usize, taken: bool },
    /// Forgets lookups of a node.
    Forget { number: u64, n: u64 },
    /// Ends a period of the ledger.
    ClosePeriod,
}

/// The result of a call.
#[derive(Drop)]
pub enum CallResult {
    /// Nothing was pending at its index, so nothing was done.
    Nothing,
    /// The request began. Its ticket is the last one pending.
    Begun,
    /// Another request holds a name that this one needs.
    Busy,
    /// The request was refused with this error number of Linux.
    Refused(i32),
    /// The work has ended. Its answer is the last one pending.
    Finished,
    /// The request was settled.
    Settled(Settled),
    /// That many lookups were forgotten.
    Forgot(u64),
    /// The period ended, and the ledger became that much shorter.
    Closed(u64),
}

/// Begins a request, with room for its ticket.
fn begin<T: Ledgers>(
    table: &mut Table<T>,
    tickets: &mut Vec<Started>,
    unique: u64,
    want: Want,
) -> Result<CallResult, AllocError>
    ensures begins { IfOk result (λ told. (answers : List Answer) → IsStep (world_of table.old) (record { tickets = tickets.old.items; answers = answers }) (TableCall.Begin unique want) told (world_of table.new) (record { tickets = tickets.new.items; answers = answers })) }
    ensures refused { OnErr result ((world_of table.new ≡ world_of table.old) × (tickets.new.items ≡ tickets.old.items)) }
    ensures lawful { IsLawfulWorld (world_of table.new) }
    ensures postings { (world_of table.new).postings ≡ (world_of table.old).postings }
{
    table.attest(); // proof: its law
    tickets.reserve(1)?;
    let copy = copy_of(&want)?;
    match table.begin(unique, want) {
        Begin::Go(ticket) => {
            tickets.push_reserved(Started { ticket, want: copy });
            Ok(CallResult::Begun)
        }
        Begin::Busy => Ok(CallResult::Busy),
        Begin::Refused(errno) => Ok(CallResult::Refused(errno)),
    }
}

/// Ends the work on the request of the ticket at that index, with room for its answer.
fn finish<T: Ledgers>(
    table: &mut Table<T>,
    share: &mut Share<T>,
    pending: &mut Pending,
    place: usize,
    outcome: Outcome,
) -> Result<CallResult, AllocError>
    ensures finishes { IfOk result (λ told. IsStep (world_of table.old) pending.old (TableCall.Finish place outcome) told (world_of table.new) pending.new) }
    ensures refused { OnErr result (ChangesNothing (world_of table.old) pending.old (world_of table.new) pending.new) }
    ensures lawful { IsLawfulWorld (world_of table.new) }
    ensures gains { GainsInAll (world_of table.old) share.old (world_of table.new) share.new }
{
    table.attest(); // proof: its law
    if pending.tickets.len() <= place {
        return Ok(CallResult::Nothing);
    }
    pending.answers.reserve(1)?;
    let Started { ticket, want: _ } = pending.tickets.remove(place);
    let answered = table.finish(share, ticket, outcome);
    pending.answers.push_reserved(answered);
    Ok(CallResult::Finished)
}

/// Ends the request of the answer at that index.
fn settle<T: Ledgers>(
    table: &mut Table<T>,
    share: &mut Share<T>,
    pending: &mut Pending,
    place: usize,
    taken: bool,
) -> CallResult
    ensures settles { IsStep (world_of table.old) pending.old (TableCall.Settle place taken) result (world_of table.new) pending.new }
    ensures lawful { IsLawfulWorld (world_of table.new) }
    ensures gains { GainsInAll (world_of table.old) share.old (world_of table.new) share.new }
{
    table.attest(); // proof: its law
    if pending.answers.len() <= place {
        return CallResult::Nothing;
    }
    let answered = pending.answers.remove(place);
    CallResult::Settled(table.settle(share, answered, taken))
}

/// Ends a period of the ledger.
fn close_period<T: Ledgers>(table: &mut Table<T>) -> CallResult
    ensures closes { (hand : Outstanding) → IsStep (world_of table.old) hand TableCall.ClosePeriod result (world_of table.new) hand }
    ensures lawful { IsLawfulWorld (world_of table.new) }
    ensures totals { totals_over (world_of table.new).postings ≡ totals_over (world_of table.old).postings }
{
    CallResult::Closed(table.close_period())
}

/// Makes one call.
fn step<T: Ledgers>(
    table: &mut Table<T>,
    share: &mut Share<T>,
    pending: &mut Pending,
    call: TableCall,
) -> Result<CallResult, AllocError>
    ensures step { IfOk result (λ told. IsStep (world_of table.old) pending.old call told (world_of table.new) pending.new) }
    ensures refused { OnErr result (ChangesNothing (world_of table.old) pending.old (world_of table.new) pending.new) }
    ensures lawful { IsLawfulWorld (world_of table.new) }
    ensures gains { GainsInAll (world_of table.old) share.old (world_of table.new) share.new }
{
    match call {
        TableCall::Begin { unique, want } => begin(table, &mut pending.tickets, unique, want),
        TableCall::Finish { place, outcome } => finish(table, share, pending, place, outcome),
        TableCall::Settle { place, taken } => Ok(settle(table, share, pending, place, taken)),
        TableCall::Forget { number, n } => Ok(CallResult::Forgot(table.forget(share, number, n))),
        TableCall::ClosePeriod => Ok(close_period(table)),
    }
}

/// Makes one call on what is pending. If memory is refused, nothing changes.
pub fn make<T: Ledgers>(
    table: &mut Table<T>,
    share: &mut Share<T>,
    pending: &mut Pending,
    call: TableCall,
) -> Result<CallResult, AllocError>
    ensures step { IfOk result (λ told. IsStep (world_of table.old) pending.old call told (world_of table.new) pending.new) }
    ensures refused { OnErr result (ChangesNothing (world_of table.old) pending.old (world_of table.new) pending.new) }
    ensures lawful { IsLawfulWorld (world_of table.new) }
    ensures current { (id : ℕ) → IsCurrentAt (world_of table.old) pending.old id → IsCurrentAt (world_of table.new) pending.new id }
    ensures gains { GainsInAll (world_of table.old) share.old (world_of table.new) share.new }
{
    table.attest(); // proof: its law
    let told = step(table, share, pending, call)?;
    Ok(told)
}

/// Makes all calls in order, and appends their results. If memory is refused, the earlier calls and their results
/// remain.
pub fn run<T: Ledgers>(
    table: &mut Table<T>,
    share: &mut Share<T>,
    pending: &mut Pending,
    calls: Vec<TableCall>,
    told: &mut Vec<CallResult>,
) -> Result<(), AllocError>
    ensures told { told.new.items ≡ told.old.items ++ drop (length told.old.items) told.new.items }
    ensures runs { let ts = drop (length told.old.items) told.new.items in Runs (world_of table.old) pending.old (take (length ts) calls.items) ts (world_of table.new) pending.new }
    ensures all { OnOk result (length told.new.items ≡ length told.old.items + length calls.items) }
    ensures lawful { IsLawfulWorld (world_of table.new) }
    ensures current { (id : ℕ) → IsCurrentAt (world_of table.old) pending.old id → IsCurrentAt (world_of table.new) pending.new id }
    ensures gains { GainsInAll (world_of table.old) share.old (world_of table.new) share.new }
{
    table.attest(); // proof: its law
    told.reserve(calls.len())?;
    for next in calls {
        told.push_reserved(make(table, share, pending, next)?);
    }
    Ok(())
}
