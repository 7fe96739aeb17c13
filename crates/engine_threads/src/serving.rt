//! A whole session on threads.

ghost use Rattle.std.specs.Prelude.{◌≡◌, ◌<◌, ◌≤◌, ◌+◌, ◌⊎◌, List, length, map, None, Some, IfNone, IfSome, vec_len};
ghost use Rattle.std.specs.List.{All};
ghost use Rattle.engine.specs.declared.ends.SessionEnd.TheVariants as end;
ghost use Rattle.engine_queues.specs.Gathered.{takings_of};
ghost use Rattle.ledger.specs.Shares.{nothing};
ghost use Rattle.table_shared.specs.Histories.{Made};
ghost use Rattle.table_steps.specs.Kept.{world_of};
ghost use Rattle.table_steps.specs.World.{opened_world};
ghost use Rattle.terms.specs.declared.settings.Settings.{Settings as TheSettings};
ghost use Rattle.engine_threads.specs.Ended.{EndsAs};
ghost use Rattle.engine_threads.specs.Served.{behaviours, served_with, HasRun, HasServed};
ghost use Rattle.engine_threads.specs.Worked.{did};

use crate::ended::{Account, Ended, Sums};
use crate::finishing::Over;
use crate::given::Given;
use crate::preparing::prepare;
use crate::running::serve_prepared;
use backing::Calls;
use engine::{LinkIn, LinkOut, SessionEnd, Settings, remove_leftovers};
use engine_turns::Shares;
use ledger::{Blanks, Ledgers};
use shared_history::Opened;
use std::alloc::Global;
use std::marker::Brand;
use std::sync::Wait;
use std::thread::Threads;
use table::{Counts, Limits, Seeds, Table};
use table_shared::{LogEntry, Opening};

/// A table that was just opened, the name of its history, and its shares.
#[derive(Drop)]
struct FreshTable<T: Ledgers> {
    opened: Opened<LogEntry<T>>,
    table: Table<T>,
    shares: Shares<T>,
}

impl<I: LinkIn + Drop, O: LinkOut + Drop, C: Calls + Drop> Ended<I, O, C> {
    /// Nothing was served, since memory was refused.
    fn unserved(given: Given<I, O, C>) -> Ended<I, O, C>
        ensures { (result.end ≡ end.Memory) × (result.back ≡ given) × (result.account ≡ None) }
    {
        Ended {
            end: SessionEnd::Memory,
            back: given,
            account: None,
        }
    }
}

/// Removes the files that are still hidden, through the last directory, and adds up the shares.
fn conclude<H: Wait, T: Ledgers, N: Opening, I: LinkIn + Drop, O: LinkOut + Drop, C: Calls + Drop>(
    rt: &H,
    over: Over<T, N, I, O, C>,
) -> Ended<I, O, C>
    requires some { 0 < vec_len over.calls }
    requires taken { over.taken.items ≡ map (λ js. length js) (takings_of over.passed.passes.value.items) }
    ensures end { IfSome result.account (λ a. EndsAs a.passed.input a.passed.is_broken result.end) }
    ensures account { IfNone result.account ⊥ }
    ensures served { (settings : TheSettings) (link_in : I) (link_out : O) (calls : List C) → N.threads ≡ length calls + 1 → HasRun (behaviours C.gives I.receives O.sends) settings (did over.closed.table.log) over.passed (served_with link_in link_out calls) (served_with over.link_in over.link_out over.calls.items)
        → IfSome result.account (λ a. ∥ ((history : List Made) × HasServed (behaviours C.gives I.receives O.sends) N.limits settings a.passed a.sums.totals (served_with link_in link_out calls) (served_with result.back.link_in result.back.link_out result.back.calls.items) history) ∥₁) }
{
    over.closed.attest(); // proof: its law
    let Over {
        passed,
        taken,
        closed,
        shares,
        mut calls,
        link_in,
        link_out,
    } = over;
    let table = closed.into_table();
    let Some(mut last) = calls.pop() else {
        unreachable!()
    };
    remove_leftovers(&mut last, &table);
    calls.push_reserved(last);
    let sums = Sums::gather(rt, table, shares.into_all());
    let end = passed.end(rt);
    let account = Account {
        sums,
        taken,
        passed,
    };
    Ended {
        end,
        back: Given {
            link_in,
            link_out,
            calls,
        },
        account: Some(account),
    }
}

/// Serves with a table that was just opened.
fn serve_opened<
    H: Threads + Wait + Clone + Sync + Drop + 'static,
    T: Ledgers + Send + Sync + 'static,
    N: Opening + Send + Sync + 'static,
    I: LinkIn + Send + Drop + 'static,
    O: LinkOut + Send + Drop + 'static,
    C: Calls + Send + Drop + 'static,
>(
    rt: &H,
    alloc: Global,
    fresh: FreshTable<T>,
    given: Given<I, O, C>,
    opening: (Limits, Settings),
) -> Ended<I, O, C>
    requires limits { opening.0 ≡ N.limits }
    requires history { fresh.opened.table.shared.table_id ≡ N.history }
    requires threads { N.threads ≡ vec_len given.calls + 1 }
    requires table { world_of fresh.table ≡ opened_world N.limits }
    requires shares { All (λ p. p.totals ≡ nothing) fresh.shares.shares.items }
    requires some { 0 < vec_len given.calls }
    requires few { vec_len given.calls ≤ 4 }
    ensures unserved { IfNone result.account ((result.end ≡ end.Memory) × (result.back ≡ given)) }
    ensures end { IfSome result.account (λ a. EndsAs a.passed.input a.passed.is_broken result.end) }
    ensures served { IfSome result.account (λ a. ∥ ((history : List Made) × HasServed (behaviours C.gives I.receives O.sends) N.limits opening.1 a.passed a.sums.totals (served_with given.link_in given.link_out given.calls.items) (served_with result.back.link_in result.back.link_out result.back.calls.items) history) ∥₁) }
{
    let FreshTable {
        opened,
        table,
        shares,
    } = fresh;
    let Ok(own_rt) = rt.clone() else {
        return Ended::unserved(given);
    };
    let count = given.calls.len();
    let settings = opening.1;
    let Some(prepared) = prepare::<T, N>(alloc, opened, table, shares, count, settings) else {
        return Ended::unserved(given);
    };
    match serve_prepared::<H, T, N, I, O, C, Brand>(rt, alloc, own_rt, prepared, given) {
        Ok(over) => conclude(rt, over),
        Err(given) => Ended::unserved(given),
    }
}

/// Serves with a table whose ledgers have these names.
fn serve_table<
    H: Threads + Wait + Clone + Sync + Drop + 'static,
    T: Ledgers + Send + Sync + 'static,
    I: LinkIn + Send + Drop + 'static,
    O: LinkOut + Send + Drop + 'static,
    C: Calls + Send + Drop + 'static,
>(
    rt: &H,
    alloc: Global,
    blanks: Blanks,
    given: Given<I, O, C>,
    opening: (Limits, Seeds),
    settings: Settings,
) -> Ended<I, O, C>
    requires names { blanks ≡ T.names }
    requires parts { T.names.parts ≡ vec_len given.calls + 1 }
    requires root { 1 ≤ opening.0.nodes }
    requires free { opening.0.counts ≡ Counts.Free → opening.0.nodes ≤ opening.0.postings }
    requires some { 0 < vec_len given.calls }
    requires few { vec_len given.calls ≤ 4 }
    ensures unserved { IfNone result.account ((result.end ≡ end.Memory) × (result.back ≡ given)) }
    ensures end { IfSome result.account (λ a. EndsAs a.passed.input a.passed.is_broken result.end) }
    ensures served { IfSome result.account (λ a. ∥ ((history : List Made) × HasServed (behaviours C.gives I.receives O.sends) opening.0 settings a.passed a.sums.totals (served_with given.link_in given.link_out given.calls.items) (served_with result.back.link_in result.back.link_out result.back.calls.items) history) ∥₁) }
{
    let (limits, seeds) = opening;
    let Ok(opened) = Opened::new(alloc) else {
        return Ended::unserved(given);
    };
    let parts = given.calls.len() + 1;
    let Ok((table, shares)) = Table::<T>::open(alloc, limits, seeds, blanks, parts) else {
        return Ended::unserved(given);
    };
    let fresh = FreshTable {
        opened,
        table,
        shares: Shares::new(shares),
    };
    serve_opened::<H, T, Brand, I, O, C>(rt, alloc, fresh, given, (limits, settings))
}

/// Serves a client until its session ends, with one thread for each of 1 to 4 directories. Each thread takes whichever
/// turn is due: it offers the replies that are ready, works on a job, or reads. If the system refuses a thread, the caller's takes its
/// place. With any other number of directories nothing is read. All that takes memory is made before anything is received; if it is
/// refused, what was given comes back as it was.
pub fn serve_threads<
    H: Threads + Wait + Clone + Sync + Drop + 'static,
    I: LinkIn + Send + Drop + 'static,
    O: LinkOut + Send + Drop + 'static,
    C: Calls + Send + Drop + 'static,
>(
    rt: &H,
    alloc: Global,
    given: Given<I, O, C>,
    limits: Limits,
    seeds: Seeds,
    settings: Settings,
) -> Ended<I, O, C>
    requires root { 1 ≤ limits.nodes }
    requires free { limits.counts ≡ Counts.Free → limits.nodes ≤ limits.postings }
    ensures nobody { ((vec_len given.calls ≡ 0) ⊎ (4 < vec_len given.calls)) → (result.end ≡ end.NoWorkers) × (result.account ≡ None) }
    ensures only { result.end ≡ end.NoWorkers → (vec_len given.calls ≡ 0) ⊎ (4 < vec_len given.calls) }
    ensures unserved { IfNone result.account (((result.end ≡ end.Memory) ⊎ (result.end ≡ end.NoWorkers)) × (result.back ≡ given)) }
    ensures end { IfSome result.account (λ a. EndsAs a.passed.input a.passed.is_broken result.end) }
    ensures served { IfSome result.account (λ a. ∥ ((history : List Made) × HasServed (behaviours C.gives I.receives O.sends) limits settings a.passed a.sums.totals (served_with given.link_in given.link_out given.calls.items) (served_with result.back.link_in result.back.link_out result.back.calls.items) history) ∥₁) }
{
    let count = given.calls.len();
    if count == 0 || count > 4 {
        return Ended {
            end: SessionEnd::NoWorkers,
            back: given,
            account: None,
        };
    }
    let blanks = Blanks::new(count as u64 + 1);
    serve_table::<H, Brand, I, O, C>(rt, alloc, blanks, given, (limits, seeds), settings)
}
