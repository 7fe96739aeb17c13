//! The steps of a node table: nodes with lookup counts, their ledger, and the requests in flight.
//!
//! Each call on the parts is one atomic step, and keeps their invariants.
#![tactic(auto)]

mod acts;
mod asked;
mod begin;
mod closing;
mod data;
mod entries;
mod finish;
mod forget;
mod found;
mod give;
mod hiding;
mod keys;
mod laws;
mod name_changes;
mod opening;
mod periods;
mod settle;
mod state;
mod sweep;

pub use data::{Answered, Begin, Outcome, Seeds, Settled, Ticket};
pub use found::FoundNames;
pub use laws::{
    acts_are_own, begun_are_ready, ends_are_harmless, entries_are_harmless, ledgers_are_grown,
    others_are_left, sums_are_kept, sweeps_are_harmless, tallies_are_fixed,
};
pub use state::State;
pub use terms::{Counts, Limits};
